//! The bytes of a test file with rows of fences. Contracts don't see it: what is made here is read again.

use crate::added::is_letter;
use crate::cells::{Cell, byte_at, cells_between, gets_fence, is_broken, line_of_row};
use crate::masked::{ends_line, is_wide, masked};
use fs_kinds::{Kind, Placement};
use fs_litmus::skip_title;
use std::alloc::{AllocError, Global};

/// A file, and the same without its comments.
#[derive(Clone, Copy)]
struct Sheet<'a> {
    bytes: &'a [u8],
    mask: &'a [u8],
}

/// What is made.
#[derive(Drop)]
struct Making {
    text: Vec<u8>,
    /// So many bytes of the file are in it.
    done: usize,
    /// Where the next row begins.
    start: usize,
    /// So many instructions of each hart came before.
    counts: Vec<u8>,
}

// ---- parts of the file

/// The bytes from the first number on up to before the second.
fn part(text: &[u8], from: usize, to: usize) -> &[u8] {
    if from <= to && to <= text.len() {
        &text[from..to]
    } else {
        &[]
    }
}

fn copy(text: &mut Vec<u8>, bytes: &[u8], from: usize, to: usize) -> Result<(), AllocError> {
    text.extend_from_slice(part(bytes, from, to))
}

/// Where the last line begins of what stands between these bytes.
fn last_line(mask: &[u8], from: usize, to: usize) -> usize {
    let mut line = from;
    for at in from..to {
        if ends_line(byte_at(mask, at)) {
            line = at.saturating_add(1);
        }
    }
    line
}

// ---- the row of fences

/// Writes the FENCE of a kind: the number of its columns.
fn write_fence(text: &mut Vec<u8>, kind: Kind) -> Result<usize, AllocError> {
    text.extend_from_slice(b"fence")?;
    text.push(match kind {
        Kind::Tso => b'.',
        _ => b' ',
    })?;
    let name = kind.name();
    text.extend_from_slice(name.as_bytes())?;
    Ok(name.len().saturating_add(6))
}

/// Writes the bytes, in so many columns.
fn write_head(text: &mut Vec<u8>, shown: &[u8]) -> Result<(), AllocError> {
    for byte in shown {
        if is_wide(*byte) {
            text.push(*byte)?;
        }
    }
    Ok(())
}

/// Writes blanks in the columns of these bytes, up to where a line ends, but for the first columns, so many.
fn write_blanks(text: &mut Vec<u8>, shown: &[u8], taken: usize) -> Result<(), AllocError> {
    let mut columns: usize = 0;
    for byte in shown {
        if ends_line(*byte) {
            return Ok(());
        }
        if is_wide(*byte) {
            if columns >= taken {
                text.push(if *byte == b'\t' { b'\t' } else { b' ' })?;
            }
            columns = columns.saturating_add(1);
        }
    }
    Ok(())
}

/// Writes the cell that stands above this one, of which what is before `line` doesn't count.
fn write_cell(text: &mut Vec<u8>, mask: &[u8], line: usize, cell: &Cell) -> Result<(), AllocError> {
    let start = last_line(mask, cell.start.max(line), cell.labels);
    match cell.kind {
        None => write_blanks(text, part(mask, start, cell.end), 0),
        Some(kind) => {
            write_head(text, part(mask, start, cell.instr))?;
            let columns = write_fence(text, kind)?;
            write_blanks(text, part(mask, cell.instr, cell.end), columns)
        }
    }
}

/// Writes the row that stands above these cells.
fn write_fences(
    text: &mut Vec<u8>,
    mask: &[u8],
    line: usize,
    cells: &[Cell],
) -> Result<(), AllocError> {
    for (i, cell) in cells.iter().enumerate() {
        if i > 0 {
            text.push(b'|')?;
        }
        write_cell(text, mask, line, cell)?;
    }
    text.push(b';')?;
    Ok(())
}

/// Writes the end of a line as that of the line before.
fn write_line_end(text: &mut Vec<u8>, bytes: &[u8], line: usize) -> Result<(), AllocError> {
    if line >= 2 && byte_at(bytes, line - 2) == b'\r' {
        text.push(b'\r')?;
    }
    text.push(b'\n')?;
    Ok(())
}

// ---- the row itself

/// Writes what stands before the instruction, with blanks in the place of labels.
fn write_unlabelled(
    text: &mut Vec<u8>,
    sheet: Sheet<'_>,
    from: usize,
    to: usize,
) -> Result<(), AllocError> {
    for at in from..to {
        let shown = byte_at(sheet.mask, at);
        if is_letter(shown) || shown == b':' {
            text.push(b' ')?;
        } else {
            text.push(byte_at(sheet.bytes, at))?;
        }
    }
    Ok(())
}

/// Writes the row of these cells, from `line` on, without the labels that move.
fn write_row(
    text: &mut Vec<u8>,
    sheet: Sheet<'_>,
    line: usize,
    cells: &[Cell],
) -> Result<(), AllocError> {
    for cell in cells {
        copy(text, sheet.bytes, cell.start.max(line), cell.labels)?;
        if cell.kind.is_some() {
            write_unlabelled(text, sheet, cell.labels, cell.instr)?;
        } else {
            copy(text, sheet.bytes, cell.labels, cell.instr)?;
        }
        copy(text, sheet.bytes, cell.instr, cell.end.saturating_add(1))?;
    }
    Ok(())
}

// ---- the file

/// Goes on behind the row that ends there. False where it gets fences, and no line begins with it.
fn take_row(
    alloc: Global,
    sheet: Sheet<'_>,
    placement: &Placement,
    making: &mut Making,
    end: usize,
) -> Result<bool, AllocError> {
    let start = making.start;
    making.start = end.saturating_add(1);
    let cells = cells_between(alloc, sheet.mask, start, end, &mut making.counts, placement)?;
    if !gets_fence(&cells) {
        return Ok(true);
    }
    let Some(line) = line_of_row(sheet.mask, start, end) else {
        return Ok(false);
    };
    if is_broken(sheet.mask, &cells) {
        return Ok(false);
    }
    copy(&mut making.text, sheet.bytes, making.done, line)?;
    write_fences(&mut making.text, sheet.mask, line, &cells)?;
    write_line_end(&mut making.text, sheet.bytes, line)?;
    write_row(&mut making.text, sheet, line, &cells)?;
    making.done = end.saturating_add(1);
    Ok(true)
}

/// The first byte of this kind from there on.
fn find(text: &[u8], from: usize, byte: u8) -> Option<usize> {
    for at in from..text.len() {
        if byte_at(text, at) == byte {
            return Some(at);
        }
    }
    None
}

/// Where the rows begin: behind the header.
fn find_rows(mask: &[u8], first: usize) -> Option<usize> {
    let header = find(mask, first, b'}')?;
    let end = find(mask, header, b';')?;
    Some(end.saturating_add(1))
}

/// Goes through the rows from there on. False where a row gets fences, and no line begins with it.
fn take_rows(
    alloc: Global,
    sheet: Sheet<'_>,
    placement: &Placement,
    making: &mut Making,
) -> Result<bool, AllocError> {
    for end in making.start..sheet.mask.len() {
        if byte_at(sheet.mask, end) == b';' && !take_row(alloc, sheet, placement, making, end)? {
            return Ok(false);
        }
    }
    copy(
        &mut making.text,
        sheet.bytes,
        making.done,
        sheet.bytes.len(),
    )?;
    Ok(true)
}

/// What was made, where all of it could be.
fn made_of(is_whole: bool, making: Making) -> Option<Vec<u8>> {
    if is_whole { Some(making.text) } else { None }
}

/// The file with rows of these fences, where each row that gets some begins a line. Linear in the bytes.
pub(crate) fn with_rows(
    alloc: Global,
    bytes: &[u8],
    placement: &Placement,
) -> Result<Option<Vec<u8>>, AllocError> {
    let Some(body) = skip_title(bytes) else {
        return Ok(None);
    };
    let first = bytes.len().saturating_sub(body.text.len());
    let mask = masked(alloc, bytes, first)?;
    let Some(start) = find_rows(&mask, first) else {
        return Ok(None);
    };
    let sheet = Sheet { bytes, mask: &mask };
    let mut making = Making {
        text: Vec::new(alloc),
        done: 0,
        start,
        counts: Vec::from_array(alloc, [0; 8])?,
    };
    let is_whole = take_rows(alloc, sheet, placement, &mut making)?;
    Ok(made_of(is_whole, making))
}
