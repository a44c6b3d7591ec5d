//! Operations that come to memory before an earlier one of their hart.

ghost use Rattle.std.specs.Prelude.{◌≡◌, ◌++◌, count_by, IfOk, OnOk, string_bytes};
ghost use Rattle.std.specs.List.{list_any};
ghost use Rattle.fs_app_why.specs.Traces.{overtakes, passed, passing, is_early, is_late, marks_early, places};
ghost use Rattle.fs_app_why.specs.Traces.{place_at, early_text, late_text, mark_text};
ghost use Rattle.fs_app_why.specs.Executions.{operation_at};
ghost use Rattle.fs_model.specs.Numbers.{is_same};

use crate::instruction_words::and_joined;
use crate::told_execution::Told;
use crate::words::place_text;
use fs_kinds::List;
use fs_model::{Name, stands_before};
use std::alloc::{AllocError, Global};

/// Does a come to memory before b, which is earlier in the code of its hart? Linear in the operations.
fn overtakes(told: &Told, a: u8, b: u8) -> bool
    ensures { result ≡ overtakes told.now a b }
{
    told.operation(b).precedes(&told.operation(a))
        && stands_before(told.order.as_slice(), usize::from(a), usize::from(b))
}

/// Those that a overtakes.
fn passed(alloc: Global, told: &Told, a: u8) -> Result<Vec<u8>, AllocError>
    ensures { IfOk result (λ numbers. numbers.items ≡ passed told.now a) }
{
    told.order
        .iter()
        .copied()
        .filter(|b| overtakes(told, a, *b))
        .collect(alloc)
}

/// Those that overtake b.
fn passing(alloc: Global, told: &Told, b: u8) -> Result<Vec<u8>, AllocError>
    ensures { IfOk result (λ numbers. numbers.items ≡ passing told.now b) }
{
    told.order
        .iter()
        .copied()
        .filter(|a| overtakes(told, *a, b))
        .collect(alloc)
}

/// Is it the hart's?
fn is_of(told: &Told, hart: Option<u8>, a: u8) -> bool
    ensures { result ≡ is_same (operation_at told.now a).hart hart }
{
    match (told.operation(a).hart, hart) {
        (Some(own), Some(hart)) => own == hart,
        _ => false,
    }
}

/// Does it overtake another?
fn overtakes_some(told: &Told, a: u8) -> bool
    ensures { result ≡ list_any (λ b. overtakes told.now a b) told.now.order }
{
    told.order.as_slice().iter().any(|b| overtakes(told, a, *b))
}

/// Does another overtake it?
fn is_overtaken(told: &Told, b: u8) -> bool
    ensures { result ≡ list_any (λ a. overtakes told.now a b) told.now.order }
{
    told.order.as_slice().iter().any(|a| overtakes(told, *a, b))
}

/// Is it one of the hart's that overtakes another?
fn is_early(told: &Told, hart: Option<u8>, a: u8) -> bool
    ensures { result ≡ is_early told.now hart a }
{
    is_of(told, hart, a) && overtakes_some(told, a)
}

/// Is it one of the hart's that another overtakes?
fn is_late(told: &Told, hart: Option<u8>, b: u8) -> bool
    ensures { result ≡ is_late told.now hart b }
{
    is_of(told, hart, b) && is_overtaken(told, b)
}

fn count_early(told: &Told, hart: Option<u8>) -> usize
    ensures { result ≡ count_by (is_early told.now hart) told.now.order }
{
    told.order
        .iter()
        .filter(|a| is_early(told, hart, **a))
        .count()
}

fn count_late(told: &Told, hart: Option<u8>) -> usize
    ensures { result ≡ count_by (is_late told.now hart) told.now.order }
{
    told.order
        .iter()
        .filter(|a| is_late(told, hart, **a))
        .count()
}

/// Are the hart's early operations marked, and not the late ones?
fn marks_early(told: &Told, hart: Option<u8>) -> bool
    ensures { result ≡ marks_early told.now hart }
{
    count_early(told, hart) <= count_late(told, hart)
}

/// The same of the operation's hart.
fn is_told_early(told: &Told, a: u8) -> bool
    ensures { result ≡ marks_early told.now (operation_at told.now a).hart }
{
    marks_early(told, told.operation(a).hart)
}

/// Puts the operation with its line last, if it has a name.
fn push_place(
    alloc: Global,
    lines: &[List<usize>],
    told: &Told,
    a: u8,
    pieces: &mut Vec<Name>,
) -> Result<(), AllocError>
    ensures { OnOk result (pieces.new.items ≡ pieces.old.items ++ place_at lines.now told.now a) }
{
    if let Some(name) = told.name(a) {
        pieces.push(Name::new(place_text(alloc, lines, name)?))?;
    }
    Ok(())
}

/// The operations of these numbers, each with its line.
fn places(
    alloc: Global,
    lines: &[List<usize>],
    told: &Told,
    numbers: &[u8],
) -> Result<Vec<Name>, AllocError>
    ensures { IfOk result (λ pieces. pieces.items ≡ places lines.now told.now numbers.now) }
{
    let mut pieces = Vec::new(alloc);
    for number in numbers {
        push_place(alloc, lines, told, *number, &mut pieces)?;
    }
    Ok(pieces)
}

/// The line below one that overtakes these.
fn early_text(alloc: Global, pieces: &[Name]) -> Result<String, AllocError>
    ensures { IfOk result (λ text. string_bytes text ≡ early_text pieces.now) }
{
    if pieces.is_empty() {
        return Ok(String::new(alloc));
    }
    let those = and_joined(alloc, pieces)?;
    format!(in alloc; "    ^   overtakes {}\n", those.as_str())
}

/// The line below one that these overtake.
fn late_text(alloc: Global, pieces: &[Name]) -> Result<String, AllocError>
    ensures { IfOk result (λ text. string_bytes text ≡ late_text pieces.now) }
{
    if pieces.is_empty() {
        return Ok(String::new(alloc));
    }
    let those = and_joined(alloc, pieces)?;
    format!(in alloc; "    ^   overtaken by {}\n", those.as_str())
}

/// The line below it where it overtakes others.
fn early_mark(
    alloc: Global,
    lines: &[List<usize>],
    told: &Told,
    a: u8,
) -> Result<String, AllocError>
    ensures { IfOk result (λ text. string_bytes text ≡ early_text (places lines.now told.now (passed told.now a))) }
{
    let numbers = passed(alloc, told, a)?;
    let places = places(alloc, lines, told, &numbers)?;
    early_text(alloc, &places)
}

/// The line below it where others overtake it.
fn late_mark(alloc: Global, lines: &[List<usize>], told: &Told, b: u8) -> Result<String, AllocError>
    ensures { IfOk result (λ text. string_bytes text ≡ late_text (places lines.now told.now (passing told.now b))) }
{
    let numbers = passing(alloc, told, b)?;
    let places = places(alloc, lines, told, &numbers)?;
    late_text(alloc, &places)
}

/// The line that stands below the operation, where it is marked.
pub(crate) fn mark_text(
    alloc: Global,
    lines: &[List<usize>],
    told: &Told,
    a: u8,
) -> Result<String, AllocError>
    ensures { IfOk result (λ text. string_bytes text ≡ mark_text lines.now told.now a) }
{
    if is_told_early(told, a) {
        early_mark(alloc, lines, told, a)
    } else {
        late_mark(alloc, lines, told, a)
    }
}
