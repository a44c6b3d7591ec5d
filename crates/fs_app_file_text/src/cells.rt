//! The cells of a row. Contracts don't see them: what is made of them is read again.

use crate::added::is_letter;
use crate::masked::{ends_line, is_space};
use fs_kinds::{Kind, Placement, Slot};
use std::alloc::{AllocError, Global};

/// More harts no test has.
const MOST_HARTS: usize = 8;

/// A cell, by numbers of bytes in the file.
#[derive(Clone, Copy)]
pub(crate) struct Cell {
    /// Where it begins.
    pub(crate) start: usize,
    /// Its first byte that is no blank, of a label where it has one; else the end.
    pub(crate) labels: usize,
    /// The first byte of its instruction, or the end.
    pub(crate) instr: usize,
    /// The `|` or `;` behind it.
    pub(crate) end: usize,
    /// The fence that goes before its instruction.
    pub(crate) kind: Option<Kind>,
}

/// The byte of this number; a blank where there is none.
pub(crate) fn byte_at(text: &[u8], at: usize) -> u8 {
    match text.get(at) {
        Some(byte) => *byte,
        None => b' ',
    }
}

fn skip_spaces(mask: &[u8], from: usize, to: usize) -> usize {
    for at in from..to {
        if !is_space(byte_at(mask, at)) {
            return at;
        }
    }
    to
}

fn skip_letters(mask: &[u8], from: usize, to: usize) -> usize {
    for at in from..to {
        if !is_letter(byte_at(mask, at)) {
            return at;
        }
    }
    to
}

/// What stands behind the label that begins there, past blanks.
fn skip_label(mask: &[u8], from: usize, to: usize) -> Option<usize> {
    let word = skip_letters(mask, from, to);
    let colon = skip_spaces(mask, word, to);
    if word > from && colon < to && byte_at(mask, colon) == b':' {
        Some(skip_spaces(mask, colon.saturating_add(1), to))
    } else {
        None
    }
}

/// What stands behind the labels that begin there, past blanks.
fn skip_labels(mask: &[u8], from: usize, to: usize) -> usize {
    let mut at = from;
    for _ in from..to {
        match skip_label(mask, at, to) {
            Some(behind) => at = behind,
            None => return at,
        }
    }
    at
}

/// The cell between these bytes.
fn cell_between(mask: &[u8], start: usize, end: usize) -> Cell {
    let labels = skip_spaces(mask, start, end);
    let instr = skip_labels(mask, labels, end);
    Cell {
        start,
        labels,
        instr,
        end,
        kind: None,
    }
}

/// How many instructions of the hart came before, now with one more.
fn next_number(counts: &mut [u8], hart: u8) -> u8 {
    let hart = usize::from(hart);
    if hart < counts.len() {
        let number = counts[hart];
        counts[hart] = number.saturating_add(1);
        number
    } else {
        255
    }
}

/// The fence before the next instruction of the hart, if the cell has one.
fn kind_for(counts: &mut [u8], placement: &Placement, hart: u8, cell: Cell) -> Option<Kind> {
    if cell.instr < cell.end {
        let at = next_number(counts, hart);
        placement.get(Slot { hart, at })
    } else {
        None
    }
}

/// The cells of the row between these bytes, with the fences that they get. So many instructions of each hart came
/// before.
pub(crate) fn cells_between(
    alloc: Global,
    mask: &[u8],
    start: usize,
    end: usize,
    counts: &mut [u8],
    placement: &Placement,
) -> Result<Vec<Cell>, AllocError> {
    let mut cells = Vec::new(alloc);
    let mut from = start;
    let mut hart: u8 = 0;
    for at in start..end.saturating_add(1) {
        if (at == end || byte_at(mask, at) == b'|') && cells.len() < MOST_HARTS {
            let mut cell = cell_between(mask, from, at);
            cell.kind = kind_for(counts, placement, hart, cell);
            cells.push(cell)?;
            from = at.saturating_add(1);
            hart = hart.saturating_add(1);
        }
    }
    Ok(cells)
}

/// Does a cell get a fence?
pub(crate) fn gets_fence(cells: &[Cell]) -> bool {
    for cell in cells {
        if cell.kind.is_some() {
            return true;
        }
    }
    false
}

/// Does a line end between these bytes?
fn has_line_end(mask: &[u8], from: usize, to: usize) -> bool {
    for at in from..to {
        if ends_line(byte_at(mask, at)) {
            return true;
        }
    }
    false
}

/// Does a line end between the labels that move and the instruction?
pub(crate) fn is_broken(mask: &[u8], cells: &[Cell]) -> bool {
    for cell in cells {
        if cell.kind.is_some() && has_line_end(mask, cell.labels, cell.instr) {
            return true;
        }
    }
    false
}

/// Where the line begins in which the row between these bytes does, if that is there: behind the last LF before what
/// is no blank.
pub(crate) fn line_of_row(mask: &[u8], start: usize, end: usize) -> Option<usize> {
    let mut line = None;
    for at in start..skip_spaces(mask, start, end) {
        if byte_at(mask, at) == b'\n' {
            line = Some(at.saturating_add(1));
        }
    }
    line
}
