//! How an execution ends.

ghost use Rattle.std.specs.Prelude.{◌≡◌, ◌≤◌, length, IfOk, OnOk};
ghost use Rattle.std.specs.Prelude.{string_bytes};
ghost use Rattle.std.specs.List.{flat_map, list_any};
ghost use Rattle.std.specs.Str.{bytes_eq};
ghost use Rattle.fs_kinds.specs.Limits.{most_locations};
ghost use Rattle.fs_model.specs.Condition.{condition_of};
ghost use Rattle.fs_model.specs.Shows.{final_register, final_word};
ghost use Rattle.fs_hart.specs.Steps.{steps_in};
ghost use Rattle.fs_model_axioms.specs.Final.{AreFinal};
ghost use Rattle.fs_check.specs.Ordered.{IsOrdered, execution_in, runs_in};
ghost use Rattle.fs_app_why.specs.Traces.{with_cell, register_cell, location_cell, cells_in, cells, ends_text};
ghost use Rattle.fs_app_why.specs.Traces.{spaced};

use crate::words::word_text;
use fs_check::OrderedCandidate;
use fs_instr::Reg;
use fs_model::{Location, Name, Outcome, Test};
use fs_model_axioms::{final_register, final_word};
use fs_report::name_of;
use std::alloc::{AllocError, Global};

/// The word with which the register ends.
fn register_word(test: &Test, ordered: &OrderedCandidate, hart: u8, register: Reg) -> u32
    requires { AreFinal test.now ordered.now.candidate.traces }
    ensures { result ≡ final_register test.now (steps_in ordered.now.candidate.traces) hart register }
{
    let _ = test;
    final_register(ordered.candidate.traces.as_slice(), hart, register)
}

/// The word with which the location ends.
fn location_word(test: &Test, ordered: &OrderedCandidate, location: u8) -> u32
    requires { IsOrdered test.now ordered.now }
    ensures { result ≡ final_word (runs_in test.now ordered.now) ordered.now.order.listed location }
{
    let _ = test;
    let operations = ordered.candidate.operations.as_slice();
    final_word(operations, ordered.order.order(), location)
}

fn register_cell(
    alloc: Global,
    locations: &[Location],
    hart: u8,
    register: Reg,
    word: u32,
) -> Result<String, AllocError>
    requires { length locations.now ≤ most_locations }
    ensures { IfOk result (λ text. string_bytes text ≡ register_cell locations.now hart register word) }
{
    let word = word_text(alloc, locations, word)?;
    format!(in alloc; "{}:x{}={}", hart, register.number(), word.as_str())
}

fn location_cell(
    alloc: Global,
    locations: &[Location],
    location: u8,
    word: u32,
) -> Result<String, AllocError>
    requires { length locations.now ≤ most_locations }
    ensures { IfOk result (λ text. string_bytes text ≡ location_cell locations.now location word) }
{
    let word = word_text(alloc, locations, word)?;
    format!(in alloc; "{}={}", name_of(locations, location), word.as_str())
}

/// How the location ends.
fn location_end(
    alloc: Global,
    test: &Test,
    ordered: &OrderedCandidate,
    location: u8,
) -> Result<String, AllocError>
    requires locations { length test.now.locations ≤ most_locations }
    requires ordered { IsOrdered test.now ordered.now }
    ensures { IfOk result (λ text. string_bytes text ≡ location_cell test.now.locations location
        (final_word (runs_in test.now ordered.now) ordered.now.order.listed location)) }
{
    let word = location_word(test, ordered, location);
    location_cell(alloc, test.locations.as_slice(), location, word)
}

/// Is it among the cells?
fn is_among(cells: &[Name], cell: &str) -> bool
    ensures { result ≡ list_any (λ other. bytes_eq other cell.now) cells.now }
{
    cells.iter().any(|other| other.as_str() == cell)
}

/// Puts the cell last, unless it is there.
fn push_cell(cells: &mut Vec<Name>, cell: String) -> Result<(), AllocError>
    ensures { OnOk result (cells.new.items ≡ with_cell cells.old.items (string_bytes cell)) }
{
    if !is_among(cells, cell.as_str()) {
        cells.push(Name::new(cell))?;
    }
    Ok(())
}

/// Puts the cell of the location last, unless it is there.
fn push_location(
    alloc: Global,
    test: &Test,
    ordered: &OrderedCandidate,
    location: u8,
    cells: &mut Vec<Name>,
) -> Result<(), AllocError>
    requires locations { length test.now.locations ≤ most_locations }
    requires ordered { IsOrdered test.now ordered.now }
    ensures { OnOk result (cells.new.items ≡ with_cell cells.old.items (location_cell test.now.locations location
        (final_word (runs_in test.now ordered.now) ordered.now.order.listed location))) }
{
    let cell = location_end(alloc, test, ordered, location)?;
    push_cell(cells, cell)
}

/// Puts the cells of the condition last. Its depth is bounded by that of the test's condition.
fn push_cells(
    alloc: Global,
    test: &Test,
    ordered: &OrderedCandidate,
    condition: &Outcome,
    cells: &mut Vec<Name>,
) -> Result<(), AllocError>
    requires locations { length test.now.locations ≤ most_locations }
    requires ordered { IsOrdered test.now ordered.now }
    requires last { AreFinal test.now ordered.now.candidate.traces }
    ensures { OnOk result (cells.new.items
        ≡ cells_in test.now.locations (final_register test.now (steps_in ordered.now.candidate.traces))
        (final_word (runs_in test.now ordered.now) ordered.now.order.listed) cells.old.items
        (condition_of condition.now)) }
{
    let locations = test.locations.as_slice();
    match condition {
        Outcome::Always | Outcome::Never => Ok(()),
        Outcome::RegisterIs { hart, reg, .. } => {
            let word = register_word(test, ordered, *hart, *reg);
            push_cell(cells, register_cell(alloc, locations, *hart, *reg, word)?)
        }
        Outcome::LocationIs { location, .. } => {
            push_location(alloc, test, ordered, *location, cells)
        }
        Outcome::Deny(denied) => push_cells(alloc, test, ordered, denied, cells),
        Outcome::Both(left, right) | Outcome::Either(left, right) => {
            push_cells(alloc, test, ordered, left, cells)?;
            push_cells(alloc, test, ordered, right, cells)
        }
    }
}

/// The cells, with a blank before each.
fn spaced(alloc: Global, cells: &[Name]) -> Result<String, AllocError>
    ensures { IfOk result (λ text. string_bytes text ≡ flat_map spaced cells.now) }
{
    let mut text = String::new(alloc);
    for cell in cells {
        write!(text, " {}", cell.as_str())?;
    }
    Ok(text)
}

/// The line of the cells, if there are any.
fn cells_text(alloc: Global, cells: &[Name]) -> Result<String, AllocError>
    ensures { IfOk result (λ text. string_bytes text ≡ ends_text cells.now) }
{
    if cells.is_empty() {
        return Ok(String::new(alloc));
    }
    let all = spaced(alloc, cells)?;
    format!(in alloc; "  ends so:{}\n", all.as_str())
}

/// The line that says how the execution ends, at the places of which the condition speaks.
pub(crate) fn ends_text(
    alloc: Global,
    test: &Test,
    ordered: &OrderedCandidate,
) -> Result<String, AllocError>
    requires locations { length test.now.locations ≤ most_locations }
    requires ordered { IsOrdered test.now ordered.now }
    requires last { AreFinal test.now ordered.now.candidate.traces }
    ensures { IfOk result (λ text. string_bytes text ≡ ends_text (cells test.now (execution_in ordered.now))) }
{
    let mut cells = Vec::new(alloc);
    push_cells(alloc, test, ordered, &test.condition, &mut cells)?;
    cells_text(alloc, &cells)
}
