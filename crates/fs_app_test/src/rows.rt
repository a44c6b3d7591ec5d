//! What a list expects of tests.

ghost use Rattle.std.specs.Prelude.{◌≡◌, ◌++◌, Some, map, option_map, IfOk, OnOk};
ghost use Rattle.std.specs.Str.Lines.{lines};
ghost use Rattle.fs_app_io.specs.Lines.{cut, pair_now};
ghost use Rattle.fs_app_test.specs.Rows.{kind_named, row_of, read_row, said_by, AreRows};

use crate::list_error::ListError;
use crate::said::Kind;
use fs_app_io::{lines_of, says};
use std::alloc::Global;

/// What a list expects of the test of this name, and in which line, from 1 on.
#[derive(Clone, Copy)]
pub struct Row<'a> {
    pub line: usize,
    pub name: &'a str,
    pub kind: Kind,
}

fn kind_named(word: &str) -> Option<Kind>
    ensures { result ≡ kind_named word.now }
{
    if word == "forbidden" {
        Some(Kind::Forbidden)
    } else if word == "allowed" {
        Some(Kind::Allowed)
    } else if word == "vacuous" {
        Some(Kind::Vacuous)
    } else {
        None
    }
}

/// What stands before the first space, and behind it.
fn cut_space(text: &str) -> Option<(&str, &str)>
    ensures { pair_now result ≡ cut 32 text.now }
{
    text.split_once(' ')
}

/// What a line of this number says.
fn row_of(number: usize, line: &str) -> Option<Row<'_>>
    ensures { option_map read_row result ≡ row_of line.now }
{
    let (name, word) = cut_space(line)?;
    let kind = kind_named(word.trim())?;
    Some(Row {
        line: number,
        name,
        kind,
    })
}

/// Appends what the line of this number says, if it says something.
fn push_row<'a>(number: usize, line: &'a str, rows: &mut Vec<Row<'a>>) -> Result<(), ListError>
    ensures { OnOk result (map (λ row. Some (read_row row)) rows.new.items
        ≡ map (λ row. Some (read_row row)) rows.old.items ++ said_by line.now) }
{
    let line = line.trim();
    if !says(line) {
        return Ok(());
    }
    match row_of(number, line) {
        Some(row) => {
            rows.push(row)?;
            Ok(())
        }
        None => Err(ListError::Line(number)),
    }
}

/// What the lines say that say something.
fn rows_of<'a>(alloc: Global, lines: &[&'a str]) -> Result<Vec<Row<'a>>, ListError>
    ensures { IfOk result (λ rows. AreRows (map (λ line. line.now) lines.now) rows.items) }
{
    let mut rows = Vec::new(alloc);
    for (index, line) in lines.iter().enumerate() {
        push_row(index + 1, line, &mut rows)?;
    }
    Ok(rows)
}

/// The rows of a list: lines with the name of a test and `forbidden`, `allowed` or `vacuous`, split by spaces. Empty
/// lines, and those that begin with `#`, say nothing. Linear in the bytes. The error is that they aren't UTF-8, or the
/// first line of another form; or want of memory.
pub fn read_rows<'a>(alloc: Global, bytes: &'a [u8]) -> Result<Vec<Row<'a>>, ListError>
    ensures { IfOk result (λ rows. AreRows (lines bytes.now) rows.items) }
{
    match str::from_utf8(bytes) {
        Ok(text) => read_text(alloc, text),
        Err(_) => Err(ListError::NotUtf8),
    }
}

fn read_text<'a>(alloc: Global, text: &'a str) -> Result<Vec<Row<'a>>, ListError>
    ensures { IfOk result (λ rows. AreRows (lines text.now) rows.items) }
{
    let lines = lines_of(alloc, text)?;
    rows_of(alloc, &lines)
}
