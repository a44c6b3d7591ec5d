//! Operations in rows, in columns that are as wide as their longest cell.

ghost use Rattle.std.specs.Prelude.{◌≡◌, ◌++◌, IfOk, OnOk, string_bytes};
ghost use Rattle.fs_app_why.specs.Tables.{cell, width, padded_cell, row_text, table_text};

use fs_model::Name;
use fs_report::padded;
use std::alloc::{AllocError, Global};

/// An operation in print.
#[derive(Drop)]
pub(crate) struct Row {
    /// As `P0:1`.
    pub(crate) name: Name,
    /// As `line 14`.
    pub(crate) line: Name,
    /// The instruction.
    pub(crate) text: Name,
    /// What it does, as `stores x=1`.
    pub(crate) does: Name,
    /// Whole lines that stand below it.
    pub(crate) below: Name,
}

/// The columns in front of what an operation does.
#[derive(Clone, Copy)]
pub(crate) enum Column {
    Name,
    Line,
    Text,
}

/// What the row has in the column.
fn cell(column: Column, row: &Row) -> &str
    ensures { result.now ≡ cell column row.now }
{
    match column {
        Column::Name => row.name.as_str(),
        Column::Line => row.line.as_str(),
        Column::Text => row.text.as_str(),
    }
}

/// The bytes of the column's longest cell.
fn width(column: Column, rows: &[Row]) -> usize
    ensures { result ≡ width column rows.now }
{
    let mut most = 0;
    for row in rows {
        most = most.max(cell(column, row).len());
    }
    most
}

/// The row's cell, as wide as its column.
fn padded_cell(alloc: Global, rows: &[Row], column: Column, row: &Row) -> Result<String, AllocError>
    ensures { IfOk result (λ text. string_bytes text ≡ padded_cell rows.now column row.now) }
{
    padded(alloc, width(column, rows), cell(column, row))
}

/// Appends the row and what stands below it.
fn write_row(alloc: Global, rows: &[Row], row: &Row, text: &mut String) -> Result<(), AllocError>
    ensures { OnOk result (string_bytes text.new ≡ string_bytes text.old ++ row_text rows.now row.now) }
{
    let name = padded_cell(alloc, rows, Column::Name, row)?;
    let line = padded_cell(alloc, rows, Column::Line, row)?;
    let instr = padded_cell(alloc, rows, Column::Text, row)?;
    write!(
        text,
        "  {}  {}  {}  {}\n{}",
        name.as_str(),
        line.as_str(),
        instr.as_str(),
        row.does.as_str(),
        row.below.as_str()
    )
}

/// All rows.
pub(crate) fn table_text(alloc: Global, rows: &[Row]) -> Result<String, AllocError>
    ensures { IfOk result (λ text. string_bytes text ≡ table_text rows.now) }
{
    let mut text = String::new(alloc);
    for row in rows {
        write_row(alloc, rows, row, &mut text)?;
    }
    Ok(text)
}
