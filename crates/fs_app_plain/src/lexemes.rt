//! The words and signs of a text, by their bytes.

use std::alloc::{AllocError, Global};

/// A word, or a sign of one byte: from the byte `start` up to before `end`.
#[derive(Clone, Copy)]
pub(crate) struct Lexeme {
    pub(crate) start: usize,
    pub(crate) end: usize,
}

impl Lexeme {
    /// Its text.
    pub(crate) fn word(self, text: &[u8]) -> &str {
        str::from_utf8(part(text, self.start, self.end)).unwrap_or("")
    }
}

/// The bytes from the first number on up to before the second.
pub(crate) fn part(text: &[u8], from: usize, to: usize) -> &[u8] {
    if from <= to && to <= text.len() {
        &text[from..to]
    } else {
        &[]
    }
}

/// The text of the lexeme of this number; nothing where there is none.
pub(crate) fn word_at<'a>(text: &'a [u8], lexemes: &[Lexeme], number: usize) -> &'a str {
    match lexemes.get(number) {
        Some(lexeme) => lexeme.word(text),
        None => "",
    }
}

/// The line in which the lexeme of this number begins, from 1 on. Linear in the text.
pub(crate) fn line_at(text: &[u8], lexemes: &[Lexeme], number: usize) -> usize {
    let end = match lexemes.get(number) {
        Some(lexeme) => lexeme.start,
        None => 0,
    };
    let mut line = 1usize;
    for byte in part(text, 0, end) {
        if *byte == b'\n' {
            line = line.saturating_add(1);
        }
    }
    line
}

/// Is it part of a word?
fn is_letter(byte: u8) -> bool {
    byte.is_ascii_alphanumeric() || byte == b'_' || byte == b'.'
}

fn is_blank(byte: u8) -> bool {
    matches!(byte, b' ' | b'\t' | b'\r' | b'\n')
}

/// Where the text is.
#[derive(Clone, Copy)]
struct Scanner {
    /// So many comments are open.
    depth: usize,
    /// The byte before is the first one of the mark of a comment.
    is_second: bool,
    /// Where the word begins that goes on.
    word: Option<usize>,
}

impl Scanner {
    /// Is the first byte of the rest in a comment, or of its marks?
    fn is_hidden(&mut self, rest: &[u8]) -> bool {
        if self.is_second {
            self.is_second = false;
            return true;
        }
        if rest.starts_with(b"(*") {
            self.depth = self.depth.saturating_add(1);
            self.is_second = true;
            return true;
        }
        if self.depth == 0 {
            return false;
        }
        if rest.starts_with(b"*)") {
            self.depth -= 1;
            self.is_second = true;
        }
        true
    }

    /// The word that ends before `at`.
    fn end_word(&mut self, at: usize) -> Option<Lexeme> {
        let start = self.word?;
        self.word = None;
        Some(Lexeme { start, end: at })
    }
}

/// The words and signs of the text from the byte `first` on, without blanks and comments. Linear in the text.
pub(crate) fn lexemes(alloc: Global, text: &[u8], first: usize) -> Result<Vec<Lexeme>, AllocError> {
    let mut found = Vec::new(alloc);
    let mut scanner = Scanner {
        depth: 0,
        is_second: false,
        word: None,
    };
    for at in first..text.len() {
        let byte = text[at];
        let is_hidden = scanner.is_hidden(&text[at..]);
        if !is_hidden && is_letter(byte) {
            if scanner.word.is_none() {
                scanner.word = Some(at);
            }
        } else {
            if let Some(word) = scanner.end_word(at) {
                found.push(word)?;
            }
            if !is_hidden && !is_blank(byte) {
                found.push(Lexeme {
                    start: at,
                    end: at + 1,
                })?;
            }
        }
    }
    if let Some(word) = scanner.end_word(text.len()) {
        found.push(word)?;
    }
    Ok(found)
}
