//! The operations of an execution in rows.

ghost use Rattle.std.specs.Prelude.{◌≡◌, ◌≤◌, ◌++◌, None, Some, codes, decimal, length, IfOk, OnOk};
ghost use Rattle.std.specs.Prelude.{string_bytes};
ghost use Rattle.fs_instr.specs.Writing.{instr_text};
ghost use Rattle.fs_kinds.specs.Limits.{most_locations};
ghost use Rattle.fs_kinds.specs.ReasonText.{operation_name};
ghost use Rattle.fs_app_why.specs.Traces.{buffered_text, does_at, does_text, from_text, location_text, row_named};
ghost use Rattle.fs_app_why.specs.Traces.{row_of, rows, source_text, stores_text};
ghost use Rattle.fs_app_why.specs.InstructionWords.{line_of};
ghost use Rattle.fs_model.specs.Numbers.{stands_before};

use crate::instruction_words::line_of;
use crate::marks::mark_text;
use crate::table::Row;
use crate::told_execution::Told;
use crate::words::word_text;
use fs_instr::{Instr, write_instr};
use fs_kinds::{List, OperationName};
use fs_model::{Location, Name, Test, stands_before};
use fs_report::value_text;
use std::alloc::{AllocError, Global};

/// From which store a load returns.
fn from_text(alloc: Global, name: Option<OperationName>) -> Result<String, AllocError>
    ensures { IfOk result (λ text. string_bytes text ≡ from_text name) }
{
    match name {
        Some(name) => format!(in alloc; " from {}", name),
        None => format!(in alloc; " (initial)"),
    }
}

fn buffered_text(is_later: bool) -> &'static str
    ensures { result.now ≡ buffered_text is_later }
{
    if is_later {
        ", still in its store buffer"
    } else {
        ""
    }
}

/// Does the operation come to memory before this one? Linear in the operations.
fn is_later(told: &Told, a: u8, source: u8) -> bool
    ensures { result ≡ stands_before told.now.order a source }
{
    stands_before(told.order.as_slice(), usize::from(a), usize::from(source))
}

/// From which store the operation returns, by the store's number, and whether it does so from a store buffer.
fn stored_by(alloc: Global, told: &Told, a: u8, source: u8) -> Result<String, AllocError>
    ensures { IfOk result (λ text. string_bytes text ≡ source_text told.now a (Some source)) }
{
    let from = from_text(alloc, told.name(source))?;
    let buffered = buffered_text(is_later(told, a, source));
    format!(in alloc; "{}{}", from.as_str(), buffered)
}

/// The same, if there is such a store.
fn source_text(alloc: Global, told: &Told, a: u8, source: Option<u8>) -> Result<String, AllocError>
    ensures { IfOk result (λ text. string_bytes text ≡ source_text told.now a source) }
{
    match source {
        Some(source) => stored_by(alloc, told, a, source),
        None => Ok(String::new(alloc)),
    }
}

/// The location of this address, if there is one.
fn location_text(
    alloc: Global,
    locations: &[Location],
    address: Option<u32>,
) -> Result<String, AllocError>
    requires { length locations.now ≤ most_locations }
    ensures { IfOk result (λ text. string_bytes text ≡ location_text locations.now address) }
{
    match address {
        Some(address) => value_text(alloc, locations, address),
        None => Ok(String::new(alloc)),
    }
}

/// That a load returns this word.
fn reads_text(
    alloc: Global,
    locations: &[Location],
    at: &str,
    source: &str,
    word: u32,
) -> Result<String, AllocError>
    requires { length locations.now ≤ most_locations }
    ensures { IfOk result (λ text. string_bytes text ≡ does_at locations.now at.now source.now (Some word) None) }
{
    let word = word_text(alloc, locations, word)?;
    format!(in alloc; "reads {}={}{}", at, word.as_str(), source)
}

/// That a store stores this word.
fn stores_text(
    alloc: Global,
    locations: &[Location],
    at: &str,
    word: u32,
) -> Result<String, AllocError>
    requires { length locations.now ≤ most_locations }
    ensures { IfOk result (λ text. string_bytes text ≡ stores_text locations.now at.now word) }
{
    let word = word_text(alloc, locations, word)?;
    format!(in alloc; "stores {}={}", at, word.as_str())
}

/// That an operation which does both returns and stores these words.
fn both_text(
    alloc: Global,
    locations: &[Location],
    at: &str,
    source: &str,
    words: (u32, u32),
) -> Result<String, AllocError>
    requires { length locations.now ≤ most_locations }
    ensures { IfOk result (λ text. string_bytes text
        ≡ does_at locations.now at.now source.now (Some words.0) (Some words.1)) }
{
    let loaded = word_text(alloc, locations, words.0)?;
    let stored = word_text(alloc, locations, words.1)?;
    format!(in alloc;
        "reads {}={}{}, stores {}",
        at,
        loaded.as_str(),
        source,
        stored.as_str()
    )
}

/// What an operation does, by the words that it loads and stores.
fn does_at(
    alloc: Global,
    locations: &[Location],
    at: &str,
    source: &str,
    words: (Option<u32>, Option<u32>),
) -> Result<String, AllocError>
    requires { length locations.now ≤ most_locations }
    ensures { IfOk result (λ text. string_bytes text
        ≡ does_at locations.now at.now source.now words.0 words.1) }
{
    match words {
        (Some(loaded), Some(stored)) => both_text(alloc, locations, at, source, (loaded, stored)),
        (Some(loaded), None) => reads_text(alloc, locations, at, source, loaded),
        (None, Some(stored)) => stores_text(alloc, locations, at, stored),
        (None, None) => Ok(String::new(alloc)),
    }
}

/// What the operation does.
fn does_text(
    alloc: Global,
    locations: &[Location],
    told: &Told,
    a: u8,
) -> Result<String, AllocError>
    requires { length locations.now ≤ most_locations }
    ensures { IfOk result (λ text. string_bytes text ≡ does_text locations.now told.now a) }
{
    let operation = told.operation(a);
    let at = location_text(alloc, locations, operation.address)?;
    let source = source_text(alloc, told, a, told.source(a))?;
    let words = (operation.loaded, operation.stored);
    does_at(alloc, locations, at.as_str(), source.as_str(), words)
}

/// The instruction in print.
fn instruction(alloc: Global, instr: Instr) -> Result<Name, AllocError>
    ensures { IfOk result (λ text. text ≡ instr_text instr) }
{
    let mut text = String::new(alloc);
    write_instr(&instr, &mut text)?;
    Ok(Name::new(text))
}

pub(crate) fn name_cell(alloc: Global, name: OperationName) -> Result<Name, AllocError>
    ensures { IfOk result (λ text. text ≡ operation_name name) }
{
    let text = format!(in alloc; "{}", name)?;
    Ok(Name::new(text))
}

pub(crate) fn line_cell(
    alloc: Global,
    lines: &[List<usize>],
    name: OperationName,
) -> Result<Name, AllocError>
    ensures { IfOk result (λ text. text ≡ codes "line " ++ decimal (line_of lines.now name)) }
{
    let line = line_of(lines, name);
    let text = format!(in alloc; "line {}", line)?;
    Ok(Name::new(text))
}

/// The row of the operation, which has this name.
fn row_named(
    alloc: Global,
    test: &Test,
    lines: &[List<usize>],
    told: &Told,
    a: u8,
    name: OperationName,
) -> Result<Row, AllocError>
    requires { length test.now.locations ≤ most_locations }
    ensures { IfOk result (λ row. row ≡ row_named test.now lines.now told.now a name) }
{
    Ok(Row {
        name: name_cell(alloc, name)?,
        line: line_cell(alloc, lines, name)?,
        text: instruction(alloc, told.operation(a).instr)?,
        does: Name::new(does_text(alloc, test.locations.as_slice(), told, a)?),
        below: Name::new(mark_text(alloc, lines, told, a)?),
    })
}

/// Puts the row of the operation last, if it has a name.
fn push_row(
    alloc: Global,
    test: &Test,
    lines: &[List<usize>],
    told: &Told,
    a: u8,
    rows: &mut Vec<Row>,
) -> Result<(), AllocError>
    requires { length test.now.locations ≤ most_locations }
    ensures { OnOk result (rows.new.items ≡ rows.old.items ++ row_of test.now lines.now told.now a) }
{
    if let Some(name) = told.name(a) {
        rows.push(row_named(alloc, test, lines, told, a, name)?)?;
    }
    Ok(())
}

/// A row for each operation, in the order in which they come to memory.
pub(crate) fn rows(
    alloc: Global,
    test: &Test,
    lines: &[List<usize>],
    told: &Told,
) -> Result<Vec<Row>, AllocError>
    requires { length test.now.locations ≤ most_locations }
    ensures { IfOk result (λ made. made.items ≡ rows test.now lines.now told.now) }
{
    let mut made = Vec::new(alloc);
    for a in told.order.as_slice() {
        push_row(alloc, test, lines, told, *a, &mut made)?;
    }
    Ok(made)
}
