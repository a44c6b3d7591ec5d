//! The condition of a test file, and the `filter` before it.

use crate::lexemes::{Lexeme, word_at};
use std::alloc::AllocError;

/// The condition, by numbers of lexemes, each from the first up to before the second.
#[derive(Clone, Copy)]
pub(crate) struct Asked {
    /// The quantifier is `forall`.
    pub(crate) is_forall: bool,
    pub(crate) condition: (usize, usize),
    /// The word `filter`, and what is behind it.
    pub(crate) filter: Option<(usize, usize)>,
}

/// What is behind the rows, from a lexeme on.
#[derive(Clone, Copy)]
struct Tail {
    is_bracketed: bool,
    filter: Option<usize>,
    filter_end: Option<usize>,
}

/// Where a filter that begins there ends.
fn filter_of(tail: Tail, quantifier: usize) -> Option<(usize, usize)> {
    let begin = tail.filter?;
    Some((begin, tail.filter_end.unwrap_or(quantifier)))
}

/// Where the condition ends: before a `;`.
fn condition_end(text: &[u8], lexemes: &[Lexeme]) -> usize {
    let count = lexemes.len();
    if count > 0 && word_at(text, lexemes, count - 1) == ";" {
        count - 1
    } else {
        count
    }
}

/// Is each parenthesis between these lexemes closed there, and none that isn't open?
pub(crate) fn is_balanced(text: &[u8], lexemes: &[Lexeme], from: usize, to: usize) -> bool {
    let mut depth: usize = 0;
    for number in from..to {
        match word_at(text, lexemes, number) {
            "(" => depth = depth.saturating_add(1),
            ")" if depth == 0 => return false,
            ")" => depth -= 1,
            _ => {}
        }
    }
    depth == 0
}

/// The condition of a text whose rows end before this lexeme; nothing where there is none.
pub(crate) fn asked_of(text: &[u8], lexemes: &[Lexeme], from: usize) -> Option<Asked> {
    let mut tail = Tail {
        is_bracketed: false,
        filter: None,
        filter_end: None,
    };
    for number in from..lexemes.len() {
        let word = word_at(text, lexemes, number);
        let is_quantifier = matches!(word, "exists" | "forall");
        if word == "[" {
            tail.is_bracketed = true;
        } else if word == "]" {
            tail.is_bracketed = false;
        } else if is_quantifier && !tail.is_bracketed {
            let is_denied = number > from && word_at(text, lexemes, number - 1) == "~";
            let before = if is_denied { number - 1 } else { number };
            let condition = (number.saturating_add(1), condition_end(text, lexemes));
            return Some(Asked {
                is_forall: word == "forall",
                condition,
                filter: filter_of(tail, before),
            });
        } else if word == "filter" && tail.filter.is_none() && !tail.is_bracketed {
            tail.filter = Some(number);
        } else if word == "locations" && tail.filter.is_some() && !tail.is_bracketed {
            if word_at(text, lexemes, number.saturating_add(1)) == "[" {
                tail.filter_end = Some(number);
            }
        }
    }
    None
}

/// Appends these bytes of the text in one line.
pub(crate) fn push_line(made: &mut Vec<u8>, bytes: &[u8]) -> Result<(), AllocError> {
    for byte in bytes {
        made.push(if *byte == b'\n' { b' ' } else { *byte })?;
    }
    Ok(())
}
