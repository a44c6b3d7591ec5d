//! What stands where in a run: by positions of the code.

ghost use Rattle.std.specs.Prelude.{◌≡◌, ◌<◌, ◌≤◌, ◌&&◌, ℕ, Some, None, is_none, map, length, replicate, slice_get};
ghost use Rattle.std.specs.Prelude.{option_and_then, if◌then◌else◌, IfOk};
ghost use Rattle.std.specs.Option.{option_copied};
ghost use Rattle.std.specs.List.{position};
ghost use Rattle.fs_kinds.specs.Limits.{most_instructions, most_numbered};
ghost use Rattle.fs_model.specs.Numbers.{is_same, numbers_below};
ghost use Rattle.fs_verdict_laws.specs.Local.{place_of};
ghost use Rattle.fs_region_refutation.specs.inner.Tables.{listed_at, position_in};

use fs_hart::Step;
use fs_model::Operation;
use std::alloc::{AllocError, Global};

// For each position of the code a number of something there, where it is there.
pub(crate) type Table = Vec<Option<u8>>;

/// What the table has at this position; past its end there is nothing.
pub(crate) fn listed_at(table: &[Option<u8>], at: u8) -> Option<u8>
    ensures { result ≡ listed_at table.now at }
{
    table.get(usize::from(at)).copied().flatten()
}

/// The step at this place.
pub(crate) fn step_of(steps: &[Step], place: Option<u8>) -> Option<&Step>
    ensures { option_copied result ≡ option_and_then (slice_get steps.now) place }
{
    steps.get(usize::from(place?))
}

/// A table in which nothing stands.
fn empty(alloc: Global, positions: usize) -> Result<Table, AllocError>
    ensures { IfOk result (λ table. table.items ≡ replicate positions None) }
{
    vec![in alloc; None; positions]
}

/// Puts the number at the position, if there is one, the table has it, and nothing stands there.
fn put_first(table: &mut Table, at: Option<u8>, number: u8)
    ensures length { length table.new.items ≡ length table.old.items }
    ensures each { (k : ℕ) → k < length table.old.items → listed_at table.new.items k
        ≡ (if is_same at (Some k) && is_none (listed_at table.old.items k) then Some number
        else listed_at table.old.items k) }
{
    let Some(at) = at else {
        return;
    };
    let place = usize::from(at);
    if place < table.len() && table[place].is_none() {
        table[place] = Some(number);
    }
}

/// The place of the step that executes it, for each of so many positions. In time of the positions and the steps.
pub(crate) fn places(alloc: Global, positions: usize, steps: &[Step]) -> Result<Table, AllocError>
    requires { length steps.now ≤ most_instructions }
    ensures { IfOk result (λ table. table.items ≡ map (place_of steps.now) (numbers_below positions)) }
{
    let mut table = empty(alloc, positions)?;
    for (place, step) in steps.iter().enumerate() {
        put_first(&mut table, Some(step.at), place as u8);
    }
    Ok(table)
}

/// The position of the instruction that the operation executes, if it is one of the hart, whose steps these are.
fn position_in(hart: u8, steps: &[Step], operation: &Operation) -> Option<u8>
    ensures { result ≡ position_in hart steps.now operation.now }
{
    if operation.hart == Some(hart) {
        let step = steps.get(usize::from(operation.place))?;
        Some(step.at)
    } else {
        None
    }
}

/// The number of the operation that executes it, for each of so many positions. In time of the positions and the
/// operations.
pub(crate) fn numbers(
    alloc: Global,
    positions: usize,
    hart: u8,
    steps: &[Step],
    operations: &[Operation],
) -> Result<Table, AllocError>
    requires { length operations.now ≤ most_numbered }
    ensures { IfOk result (λ table. table.items ≡ map (λ at. position (λ p. is_same p (Some at))
        (map (position_in hart steps.now) operations.now)) (numbers_below positions)) }
{
    let mut table = empty(alloc, positions)?;
    for (number, operation) in operations.iter().enumerate() {
        put_first(
            &mut table,
            position_in(hart, steps, operation),
            number as u8,
        );
    }
    Ok(table)
}
