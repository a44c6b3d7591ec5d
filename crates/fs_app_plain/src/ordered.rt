//! Loads and stores with the annotations of the extension Zalasr, which are read where that is asked for.

use crate::lexemes::{Lexeme, lexemes};
use std::alloc::{AllocError, Global};

fn is_load_or_store(stem: &str) -> bool {
    matches!(stem, "lw" | "sw" | "ld" | "sd")
}

/// Is it a load or a store with annotations, in small letters?
fn is_ordered(mnemonic: &str) -> bool {
    match mnemonic.split_once('.') {
        Some((stem, suffix)) => {
            is_load_or_store(stem) && matches!(suffix, "aq" | "rl" | "aqrl" | "aq.rl")
        }
        None => false,
    }
}

/// Is it one with its last letter in capitals?
fn is_hidden(mnemonic: &str) -> bool {
    match mnemonic.split_once('.') {
        Some((stem, suffix)) => {
            is_load_or_store(stem) && matches!(suffix, "aQ" | "rL" | "aqrL" | "aq.rL")
        }
        None => false,
    }
}

/// Does the text have loads or stores with annotations?
fn has_ordered(text: &[u8], lexemes: &[Lexeme]) -> bool {
    for lexeme in lexemes {
        if is_ordered(lexeme.word(text)) {
            return true;
        }
    }
    false
}

/// The text with the last letter of each load or store with annotations in capitals, so that its mnemonic is none that
/// the reader knows; nothing where there is none. No other word of a test has a suffix. Linear in the text.
pub(crate) fn hidden(
    alloc: Global,
    text: &[u8],
    lexemes: &[Lexeme],
) -> Result<Option<Vec<u8>>, AllocError> {
    if !has_ordered(text, lexemes) {
        return Ok(None);
    }
    let mut made = Vec::from_slice(alloc, text)?;
    for lexeme in lexemes {
        if is_ordered(lexeme.word(text)) {
            let last = lexeme.end.saturating_sub(1);
            if last < made.len() {
                made[last] = made[last].to_ascii_uppercase();
            }
        }
    }
    Ok(Some(made))
}

/// The text with such mnemonics as the file has them. Linear in the text.
pub fn with_ordered(alloc: Global, text: &[u8]) -> Result<Vec<u8>, AllocError> {
    let mut made = Vec::from_slice(alloc, text)?;
    for lexeme in lexemes(alloc, text, 0)? {
        if is_hidden(lexeme.word(text)) {
            let last = lexeme.end.saturating_sub(1);
            if last < made.len() {
                made[last] = made[last].to_ascii_lowercase();
            }
        }
    }
    Ok(made)
}
