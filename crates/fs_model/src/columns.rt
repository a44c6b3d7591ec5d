//! The columns of a printed test: a row for each instruction of the longest code.

ghost use Rattle.std.specs.Prelude.{◌≡◌, ◌<◌, ◌++◌, All, length, map, string_bytes, IfOk, OnOk};
ghost use Rattle.fs_kinds.specs.Limits.{most_numbered};
ghost use Rattle.fs_instr.specs.Instructions.{target_of};
ghost use Rattle.fs_model.specs.Printed.{goes_to, is_target, label, cell, column, header, row, height, rows_text};

use crate::lists::Code;
use fs_instr::{Instr, write_instr};
use std::alloc::{AllocError, Global};
use std::marker::Model;

/// The cells of one hart, from the first row on. Contracts see their texts.
#[derive(Drop)]
pub struct Column {
    cells: Vec<String>,
}

impl Model for Column {
    ghost use Rattle.std.specs.Prelude.{ℕ, List, map, string_bytes};

    ghost Value = { List (List ℕ) };

    ghost view = { λ c. map string_bytes c.cells.items };
}

impl Column {
    ghost use Rattle.std.specs.Prelude.{[]};
    ghost use Rattle.std.specs.List.{slice_index_or};

    fn len(&self) -> usize
        ensures { result ≡ length self.now }
    {
        self.cells.len()
    }

    /// The cell in this row, which is empty below the last one.
    fn cell(&self, row: usize) -> &str
        ensures { result.now ≡ slice_index_or self.now row [] }
    {
        if row < self.cells.len() {
            self.cells[row].as_str()
        } else {
            ""
        }
    }
}

/// The column of each hart.
pub fn columns(alloc: Global, codes: &[Code]) -> Result<Vec<Column>, AllocError>
    requires { All (λ code. length code < most_numbered) codes.now }
    ensures { IfOk result (λ columns. columns.items ≡ map column codes.now) }
{
    let mut columns = Vec::new(alloc);
    for code in codes {
        columns.push(column_of(alloc, code.as_slice())?)?;
    }
    Ok(columns)
}

fn column_of(alloc: Global, code: &[Instr]) -> Result<Column, AllocError>
    requires { length code.now < most_numbered }
    ensures { IfOk result (λ made. made ≡ column code.now) }
{
    let mut cells = Vec::new(alloc);
    for (at, instr) in code.iter().enumerate() {
        cells.push(cell(alloc, code, at as u8, instr)?)?;
    }
    let end = code.len() as u8;
    if is_target(code, end) {
        cells.push(format!(in alloc; "L{end}:")?)?;
    }
    Ok(Column { cells })
}

/// The instruction, after its label where a branch goes to it.
fn cell(alloc: Global, code: &[Instr], at: u8, instr: &Instr) -> Result<String, AllocError>
    ensures { IfOk result (λ made. string_bytes made ≡ cell code.now (at, instr.now)) }
{
    let mut text = String::new(alloc);
    if is_target(code, at) {
        write!(text, "L{at}: ")?;
    }
    write_instr(instr, &mut text)?;
    Ok(text)
}

/// Does a branch of the code go to this position?
fn is_target(code: &[Instr], at: u8) -> bool
    ensures { result ≡ is_target code.now at }
{
    code.iter().any(|instr| goes_to(instr, at))
}

fn goes_to(instr: &Instr, at: u8) -> bool
    ensures { result ≡ goes_to at (target_of instr.now) }
{
    match instr.target() {
        Some(target) => target == at,
        None => false,
    }
}

/// The line of the harts' names.
pub fn header(alloc: Global, harts: usize) -> Result<String, AllocError>
    ensures { IfOk result (λ made. string_bytes made ≡ header harts) }
{
    let mut names = Vec::new(alloc);
    for hart in 0..harts {
        names.push(format!(in alloc; "P{hart}")?)?;
    }
    let mut line = names.join(alloc, " | ")?;
    line.push_str(" ;")?;
    Ok(line)
}

/// The line of a row.
fn row(alloc: Global, columns: &[Column], at: usize) -> Result<String, AllocError>
    ensures { IfOk result (λ made. string_bytes made ≡ row columns.now at) }
{
    let mut cells = Vec::new(alloc);
    for column in columns {
        cells.push(column.cell(at))?;
    }
    let mut line = cells.join(alloc, " | ")?;
    line.push_str(" ;")?;
    Ok(line)
}

fn height(columns: &[Column]) -> usize
    ensures { result ≡ height columns.now }
{
    columns
        .iter()
        .fold(0, |rows, column| rows.max(column.len()))
}

/// Appends the rows, each ended by LF.
pub fn write_rows(alloc: Global, columns: &[Column], text: &mut String) -> Result<(), AllocError>
    ensures { OnOk result (string_bytes text.new ≡ string_bytes text.old ++ rows_text columns.now) }
{
    for at in 0..height(columns) {
        text.push_str(row(alloc, columns, at)?.as_str())?;
        text.push_str("\n")?;
    }
    Ok(())
}
