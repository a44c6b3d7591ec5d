//! Where the FENCEs of a test file stand. Contracts don't see it: what is made of it is read again.

use crate::kept::is_letter;
use std::alloc::{AllocError, Global};

/// More FENCEs no test has: 8 harts have 32 instructions each.
const MOST_SPANS: usize = 256;

/// The bytes of a FENCE, up to before `end`, in the column of its hart.
#[derive(Clone, Copy)]
pub(crate) struct Span {
    pub(crate) hart: usize,
    pub(crate) start: usize,
    pub(crate) end: usize,
}

/// The part of the file in which a byte stands.
#[derive(Clone, Copy)]
enum Part {
    Entries,
    Header,
    Rows,
}

/// What stands in a cell so far, behind its labels.
#[derive(Clone, Copy)]
enum Cell {
    Empty,
    /// Words of a FENCE, and blanks.
    Fence(usize, usize),
    /// The same, and something behind it that is none of its words.
    Closed(usize, usize),
    Other,
}

#[derive(Clone, Copy)]
struct Scanner {
    part: Part,
    /// So many comments are open.
    depth: usize,
    /// The byte before, but 0 where that ends the mark of a comment.
    was: u8,
    hart: usize,
    cell: Cell,
}

/// Doesn't a word go on there?
fn is_word_end(rest: &[u8]) -> bool {
    match rest.first() {
        Some(byte) => !is_letter(*byte),
        None => true,
    }
}

/// Does a word begin there that is `fence` or `fence.tso`?
fn is_mnemonic(rest: &[u8]) -> bool {
    let Some(behind) = rest.strip_prefix(b"fence") else {
        return false;
    };
    match behind.strip_prefix(b".tso") {
        Some(behind) => is_word_end(behind),
        None => is_word_end(behind),
    }
}

/// The cell with one more byte of words.
fn with_word(cell: Cell, at: usize, rest: &[u8]) -> Cell {
    match cell {
        Cell::Empty => {
            if is_mnemonic(rest) {
                Cell::Fence(at, at.saturating_add(1))
            } else {
                Cell::Other
            }
        }
        Cell::Fence(start, _) => Cell::Fence(start, at.saturating_add(1)),
        Cell::Closed(_, _) => Cell::Other,
        Cell::Other => Cell::Other,
    }
}

/// The cell with one more byte that is neither of words nor a blank.
fn with_other(cell: Cell) -> Cell {
    match cell {
        Cell::Fence(start, end) => Cell::Closed(start, end),
        Cell::Empty => Cell::Empty,
        Cell::Closed(start, end) => Cell::Closed(start, end),
        Cell::Other => Cell::Other,
    }
}

/// The FENCE of a cell that has ended.
fn span_of(hart: usize, cell: Cell) -> Option<Span> {
    match cell {
        Cell::Fence(start, end) => Some(Span { hart, start, end }),
        Cell::Closed(start, end) => Some(Span { hart, start, end }),
        Cell::Empty => None,
        Cell::Other => None,
    }
}

impl Scanner {
    fn new() -> Scanner {
        Scanner {
            part: Part::Entries,
            depth: 0,
            was: 0,
            hart: 0,
            cell: Cell::Empty,
        }
    }

    /// Takes the byte at `at`, the first of the rest. A FENCE where its cell ends there.
    fn take(&mut self, at: usize, byte: u8, rest: &[u8]) -> Option<Span> {
        let was = self.was;
        self.was = byte;
        if was == b'(' && byte == b'*' {
            self.depth = self.depth.saturating_add(1);
            self.was = 0;
            return None;
        }
        if self.depth == 0 {
            return self.take_open(at, byte, rest);
        }
        if was == b'*' && byte == b')' {
            self.depth -= 1;
            self.was = 0;
        }
        None
    }

    /// The same outside comments.
    fn take_open(&mut self, at: usize, byte: u8, rest: &[u8]) -> Option<Span> {
        match self.part {
            Part::Entries => {
                if byte == b'}' {
                    self.part = Part::Header;
                }
                None
            }
            Part::Header => {
                if byte == b';' {
                    self.part = Part::Rows;
                }
                None
            }
            Part::Rows => self.take_in_row(at, byte, rest),
        }
    }

    /// The same in the rows.
    fn take_in_row(&mut self, at: usize, byte: u8, rest: &[u8]) -> Option<Span> {
        if byte == b'|' {
            return self.end_cell(self.hart.saturating_add(1));
        }
        if byte == b';' {
            return self.end_cell(0);
        }
        if byte == b':' {
            self.cell = Cell::Empty;
        } else if is_letter(byte) || byte == b',' {
            self.cell = with_word(self.cell, at, rest);
        } else if byte != b' ' && byte != b'\t' {
            self.cell = with_other(self.cell);
        }
        None
    }

    /// Goes on to the cell of this hart.
    fn end_cell(&mut self, hart: usize) -> Option<Span> {
        let span = span_of(self.hart, self.cell);
        self.hart = hart;
        self.cell = Cell::Empty;
        span
    }
}

/// The FENCEs in the rows of a text that begins with the block of initial values, whose first byte is the byte of this
/// number. Linear in the text.
pub(crate) fn spans_of(alloc: Global, text: &[u8], first: usize) -> Result<Vec<Span>, AllocError> {
    let mut spans = Vec::new(alloc);
    let mut scanner = Scanner::new();
    for (i, byte) in text.iter().enumerate() {
        let span = scanner.take(first.saturating_add(i), *byte, &text[i..]);
        if let Some(span) = span {
            if spans.len() < MOST_SPANS {
                spans.push(span)?;
            }
        }
    }
    Ok(spans)
}

/// Of the FENCEs of a hart the one of this number.
pub(crate) fn span_at(spans: &[Span], hart: usize, number: usize) -> Option<Span> {
    let mut left = number;
    for span in spans {
        if span.hart == hart {
            if left == 0 {
                return Some(*span);
            }
            left -= 1;
        }
    }
    None
}
