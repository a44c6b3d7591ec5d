//! A change of a test in the reader's form, made in the file of which that was made.

use crate::lexemes::part;
use std::alloc::{AllocError, Global};

/// Is it the same?
fn is_same(one: &[u8], other: &[u8]) -> bool {
    one.len() == other.len() && one.starts_with(other)
}

/// The bytes from this one on up to behind the first of these, or to the end.
fn piece<'a>(text: &'a [u8], from: usize, ends: &[u8]) -> &'a [u8] {
    for at in from..text.len() {
        if ends.contains(&text[at]) {
            return part(text, from, at.saturating_add(1));
        }
    }
    part(text, from, text.len())
}

fn line_count(text: &[u8]) -> usize {
    let mut count: usize = 0;
    for byte in text {
        if *byte == b'\n' {
            count = count.saturating_add(1);
        }
    }
    count
}

/// How many bytes both begin with.
fn shared_start(one: &[u8], other: &[u8]) -> usize {
    let most = one.len().min(other.len());
    for at in 0..most {
        if one[at] != other[at] {
            return at;
        }
    }
    most
}

/// How many bytes both end with, behind the first ones.
fn shared_end(one: &[u8], other: &[u8], first: usize) -> usize {
    let most = one.len().min(other.len()).saturating_sub(first);
    for count in 0..most {
        if one[one.len() - 1 - count] != other[other.len() - 1 - count] {
            return count;
        }
    }
    most
}

/// Is the changed line the plain one with blanks in some places?
fn is_blanked(plain: &[u8], changed: &[u8]) -> bool {
    if plain.len() != changed.len() {
        return false;
    }
    for at in 0..plain.len() {
        if plain[at] != changed[at] && changed[at] != b' ' {
            return false;
        }
    }
    true
}

/// Appends the cell with what was changed in its plain form. False where that is elsewhere than in what both share.
fn push_cell(
    made: &mut Vec<u8>,
    file: &[u8],
    plain: &[u8],
    changed: &[u8],
) -> Result<bool, AllocError> {
    if is_same(plain, changed) {
        made.extend_from_slice(file)?;
        return Ok(true);
    }
    let start = shared_start(plain, changed);
    let end = shared_end(plain, changed, start);
    let (file_end, plain_end) = (
        file.len().saturating_sub(end),
        plain.len().saturating_sub(end),
    );
    if file.len() != plain.len()
        || !is_same(part(file, start, file_end), part(plain, start, plain_end))
    {
        return Ok(false);
    }
    made.extend_from_slice(part(file, 0, start))?;
    made.extend_from_slice(part(changed, start, changed.len().saturating_sub(end)))?;
    made.extend_from_slice(part(file, file_end, file.len()))?;
    Ok(true)
}

/// Appends the line with what was changed in its plain form, cell by cell. False where that can't be.
fn push_changed(
    made: &mut Vec<u8>,
    file: &[u8],
    plain: &[u8],
    changed: &[u8],
) -> Result<bool, AllocError> {
    let (mut of_file, mut of_plain, mut of_changed) = (0usize, 0usize, 0usize);
    for _ in file {
        if of_file < file.len() {
            let cell = piece(file, of_file, b"|;");
            let plain_cell = piece(plain, of_plain, b"|;");
            let changed_cell = piece(changed, of_changed, b"|;");
            if !push_cell(made, cell, plain_cell, changed_cell)? {
                return Ok(false);
            }
            of_file = of_file.saturating_add(cell.len());
            of_plain = of_plain.saturating_add(plain_cell.len());
            of_changed = of_changed.saturating_add(changed_cell.len());
        }
    }
    Ok(is_same(
        part(plain, of_plain, plain.len()),
        part(changed, of_changed, changed.len()),
    ))
}

fn is_blank(cell: &[u8]) -> bool {
    for byte in cell {
        if *byte != b' ' {
            return false;
        }
    }
    true
}

/// Does a cell end with this byte of the text?
fn ends_cell(text: &[u8], at: usize) -> bool {
    matches!(text.get(at), Some(b'|' | b';'))
}

/// Appends a line that was put in. Where a cell is blank it is as long as that of the file's line behind it.
fn push_new(made: &mut Vec<u8>, file: &[u8], line: &[u8]) -> Result<(), AllocError> {
    let (mut of_file, mut of_line) = (0usize, 0usize);
    for _ in line {
        if of_line < line.len() {
            let file_cell = piece(file, of_file, b"|;");
            let cell = piece(line, of_line, b"|;");
            let last = cell.len().saturating_sub(1);
            if ends_cell(cell, last) && is_blank(part(cell, 0, last)) {
                for _ in 1..file_cell.len() {
                    made.push(b' ')?;
                }
                made.extend_from_slice(part(cell, last, cell.len()))?;
            } else {
                made.extend_from_slice(cell)?;
            }
            of_file = of_file.saturating_add(file_cell.len());
            of_line = of_line.saturating_add(cell.len());
        }
    }
    Ok(())
}

/// The file with what was changed in its plain form, line by line: lines were put in, or some of as many are others.
/// Nothing where other changes were made, or the changed parts aren't the file's. Linear in the texts.
pub(crate) fn restored(
    alloc: Global,
    file: &[u8],
    plain: &[u8],
    changed: &[u8],
) -> Result<Option<Vec<u8>>, AllocError> {
    let has_more = line_count(changed) != line_count(plain);
    let mut made = Vec::new(alloc);
    let (mut of_file, mut of_plain, mut of_changed) = (0usize, 0usize, 0usize);
    let mut file_line = piece(file, 0, b"\n");
    let mut plain_line = piece(plain, 0, b"\n");
    for _ in changed {
        if of_changed < changed.len() {
            let line = piece(changed, of_changed, b"\n");
            of_changed = of_changed.saturating_add(line.len());
            if has_more && !is_blanked(plain_line, line) {
                push_new(&mut made, file_line, line)?;
            } else {
                if !push_changed(&mut made, file_line, plain_line, line)? {
                    return Ok(None);
                }
                of_plain = of_plain.saturating_add(plain_line.len());
                of_file = of_file.saturating_add(file_line.len());
                plain_line = piece(plain, of_plain, b"\n");
                file_line = piece(file, of_file, b"\n");
            }
        }
    }
    if of_plain < plain.len() || of_file < file.len() {
        return Ok(None);
    }
    Ok(Some(made))
}
