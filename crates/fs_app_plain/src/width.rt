//! Accesses of 64 bits, as accesses of a word.

use crate::lexemes::{Lexeme, lexemes, part, word_at};
use crate::sheet::{Sheet, sheet_of};
use fs_litmus::skip_title;
use fs_litmus_tokens::number_of;
use std::alloc::{AllocError, Global};

/// The greatest word without a sign.
const GREATEST: u32 = 0x7fff_ffff;

/// How many bits an access has.
#[derive(Clone, Copy, PartialEq)]
enum Width {
    Word,
    Double,
}

fn is_atomic(stem: &str) -> bool {
    matches!(stem, "lr" | "sc") || stem.starts_with("amo")
}

/// The width of a load or a store, and the number of its letter.
fn width_of_plain(stem: &str) -> Option<(Width, usize)> {
    match stem {
        "ld" | "sd" => Some((Width::Double, 1)),
        "lw" | "sw" | "lwu" => Some((Width::Word, 1)),
        _ => None,
    }
}

/// The width of a mnemonic as `lr.d` or `amoadd.w.aq`, and the number of its letter.
fn width_of_atomic(stem: &str, rest: &str) -> Option<(Width, usize)> {
    let letter = stem.len().saturating_add(1);
    if rest == "d" || rest.starts_with("d.") {
        return Some((Width::Double, letter));
    }
    if rest == "w" || rest.starts_with("w.") {
        return Some((Width::Word, letter));
    }
    None
}

/// The width of what the instruction accesses, and the number of the letter in its mnemonic that says it.
fn width_of(mnemonic: &str) -> Option<(Width, usize)> {
    match mnemonic.split_once('.') {
        Some((stem, rest)) if is_atomic(stem) => width_of_atomic(stem, rest),
        Some((stem, _)) => width_of_plain(stem),
        None => width_of_plain(mnemonic),
    }
}

/// Which widths the accesses of a test have.
#[derive(Clone, Copy)]
pub(crate) enum Widths {
    /// None has 64 bits.
    Words,
    /// Each that there is has 64 bits.
    Doubles,
    /// The first access of another width than the first one is the instruction with this mnemonic, by its lexeme.
    Both(usize),
}

/// Which widths the accesses of the test have.
pub(crate) fn widths_of(text: &[u8], lexemes: &[Lexeme], sheet: &Sheet) -> Widths {
    let mut first = None;
    for instruction in &sheet.instructions {
        let Some((width, _)) = width_of(word_at(text, lexemes, instruction.mnemonic)) else {
            continue;
        };
        match first {
            Some(found) if found != width => return Widths::Both(instruction.mnemonic),
            _ => first = Some(width),
        }
    }
    match first {
        Some(Width::Double) => Widths::Doubles,
        _ => Widths::Words,
    }
}

/// The text with this letter in each mnemonic of an access of the width.
fn relettered(
    alloc: Global,
    text: &[u8],
    lexemes: &[Lexeme],
    sheet: &Sheet,
    width: Width,
    letter: u8,
) -> Result<Vec<u8>, AllocError> {
    let mut made = Vec::from_slice(alloc, text)?;
    for instruction in &sheet.instructions {
        let Some(lexeme) = lexemes.get(instruction.mnemonic) else {
            return Ok(made);
        };
        if let Some((found, number)) = width_of(lexeme.word(text)) {
            let at = lexeme.start.saturating_add(number);
            if found == width && at < made.len() {
                made[at] = letter;
            }
        }
    }
    Ok(made)
}

/// The text with accesses of a word for those of 64 bits: of each mnemonic one letter is another.
pub(crate) fn narrowed(
    alloc: Global,
    text: &[u8],
    lexemes: &[Lexeme],
    sheet: &Sheet,
) -> Result<Vec<u8>, AllocError> {
    relettered(alloc, text, lexemes, sheet, Width::Double, b'w')
}

/// The text of a test file with accesses of 64 bits for those of a word, and numbers with their signs. Linear in the
/// text.
pub fn widened(alloc: Global, text: &[u8]) -> Result<Vec<u8>, AllocError> {
    let first = match skip_title(text) {
        Some(body) => text.len().saturating_sub(body.text.len()),
        None => text.len(),
    };
    let lexemes = lexemes(alloc, text, first)?;
    let sheet = sheet_of(alloc, text, &lexemes)?;
    let wide = relettered(alloc, text, &lexemes, &sheet, Width::Word, b'd')?;
    with_signs(alloc, &wide, &lexemes)
}

/// The text with accesses of 64 bits wherever it names those of a word. Linear in the text.
pub fn widened_words(alloc: Global, text: &[u8]) -> Result<Vec<u8>, AllocError> {
    let mut made = Vec::from_slice(alloc, text)?;
    for lexeme in lexemes(alloc, text, 0)? {
        if let Some((Width::Word, number)) = width_of(lexeme.word(text)) {
            let at = lexeme.start.saturating_add(number);
            if at < made.len() {
                made[at] = b'd';
            }
        }
    }
    Ok(made)
}

/// Is it a number, however great?
fn is_number(word: &str) -> bool {
    match word.strip_prefix("0x") {
        Some(digits) => !digits.is_empty() && digits.bytes().all(|byte| byte.is_ascii_hexdigit()),
        None => !word.is_empty() && word.bytes().all(|byte| byte.is_ascii_digit()),
    }
}

/// Is the word a number that takes more than 31 bits?
fn is_great(word: &str) -> bool {
    match number_of(word) {
        Some(number) => number > GREATEST,
        None => is_number(word),
    }
}

/// Does the text have a number that takes more than 31 bits, beside its sign?
pub(crate) fn has_great_number(text: &[u8], lexemes: &[Lexeme]) -> bool {
    for lexeme in lexemes {
        if is_great(lexeme.word(text)) {
            return true;
        }
    }
    false
}

/// Appends the lexeme; a word of 32 bits with its sign.
fn push_signed(
    alloc: Global,
    made: &mut Vec<u8>,
    text: &[u8],
    lexeme: Lexeme,
) -> Result<(), AllocError> {
    match number_of(lexeme.word(text)) {
        Some(number) if number > GREATEST => {
            let number = format!(in alloc; "-{}", number.wrapping_neg())?;
            made.extend_from_slice(number.as_bytes())
        }
        _ => made.extend_from_slice(part(text, lexeme.start, lexeme.end)),
    }
}

/// The text with signs for the numbers that are words of 32 bits.
fn with_signs(alloc: Global, text: &[u8], lexemes: &[Lexeme]) -> Result<Vec<u8>, AllocError> {
    let mut made = Vec::new(alloc);
    let mut done = 0;
    for lexeme in lexemes {
        made.extend_from_slice(part(text, done, lexeme.start))?;
        push_signed(alloc, &mut made, text, *lexeme)?;
        done = lexeme.end;
    }
    made.extend_from_slice(part(text, done, text.len()))?;
    Ok(made)
}
