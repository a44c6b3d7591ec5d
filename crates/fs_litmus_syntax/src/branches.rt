//! Where the branches of a hart go.

ghost use Rattle.std.specs.Prelude.{◌≡◌, ◌≤◌, ◌<◌, ◌^◌, ◌+◌, ℕ, List, IfOk, option_map};
ghost use Rattle.std.specs.Str.{bytes_eq};
ghost use Rattle.indexmap.specs.IndexMap.{get_by};
ghost use Rattle.fs_kinds.specs.Limits.{most_instructions};
ghost use Rattle.fs_instr.specs.declared.instr.Instr.{Instr};
ghost use Rattle.fs_litmus_syntax.specs.inner.Listings.{item_at};
ghost use Rattle.fs_litmus_syntax.specs.Labels.{position, is_ahead, stray_of, number_after, with_label, resolved};
ghost use Rattle.fs_litmus_syntax.specs.Labels.{instruction_count, IsStray};
ghost use Rattle.fs_kinds.specs.FaultOrder.{IsFirstOf};

use crate::listing::{Listing, Mark};
use fs_instr::Instr;
use fs_kinds::{Fault, earliest};
use indexmap::IndexMap;
use std::alloc::{AllocError, Global};

/// Does the label stand ahead of the instruction of this number?
fn is_ahead(name: &str, number: usize, positions: &IndexMap<&str, usize>) -> bool
    ensures { result ≡ is_ahead number (get_by (λ k. bytes_eq name.now k.now) positions.now) }
{
    match positions.get(name) {
        Some(position) => number < *position,
        None => false,
    }
}

/// The fault of a mark, which stands after this many instructions.
fn stray_of(mark: Mark<'_>, number: usize, positions: &IndexMap<&str, usize>) -> Option<Fault>
    ensures { (code : List Instr) → result
        ≡ stray_of (λ w. get_by (λ k. bytes_eq w k.now) positions.now) number (item_at code mark.entry) }
{
    match mark {
        Mark::Instruction {
            target: Some(name),
            line,
            ..
        } => {
            if is_ahead(name, number, positions) {
                None
            } else {
                Some(Fault::BadLabel { line })
            }
        }
        _ => None,
    }
}

/// One more where the mark is an instruction.
fn number_after(mark: Mark<'_>, number: usize) -> usize
    requires { number + 1 < 2 ^ 64 }
    ensures { (code : List Instr) → result ≡ number_after number (item_at code mark.entry) }
{
    match mark {
        Mark::Instruction { .. } => number + 1,
        Mark::Label { .. } => number,
    }
}

/// The first fault of a branch that goes to no label or to one at or before itself.
pub(crate) fn first_stray(listing: &Listing<'_>, positions: &IndexMap<&str, usize>) -> Option<Fault>
    requires { (w : List ℕ) → get_by (λ k. bytes_eq w k.now) positions.now ≡ position w listing.now }
    ensures { IsFirstOf (IsStray listing.now listing.now) result }
{
    let mut fault = None;
    let mut number = 0;
    for mark in listing.marks.iter() {
        fault = earliest(fault, stray_of(*mark, number, positions));
        number = number_after(*mark, number);
    }
    fault
}

/// How many instructions there are.
pub(crate) fn instruction_count(listing: &Listing<'_>) -> usize
    ensures { result ≡ instruction_count listing.now }
{
    let mut number = 0;
    for mark in listing.marks.iter() {
        number = number_after(*mark, number);
    }
    number
}

/// With the position of its label as target.
fn with_label(
    instr: Instr,
    target: Option<&str>,
    positions: &IndexMap<&str, usize>,
    listing: &Listing<'_>,
) -> Instr
    requires positions { (w : List ℕ) → get_by (λ k. bytes_eq w k.now) positions.now ≡ position w listing.now }
    requires short { instruction_count listing.now ≤ most_instructions }
    ensures { result ≡ with_label listing.now instr (option_map (λ w. w.now) target.entry) }
{
    match target {
        Some(name) => match positions.get(name) {
            Some(position) => instr.with_target(*position as u8),
            None => instr,
        },
        None => instr,
    }
}

/// The instructions, each branch with the position of its label as target.
pub(crate) fn resolve(
    alloc: Global,
    listing: &Listing<'_>,
    positions: &IndexMap<&str, usize>,
) -> Result<Vec<Instr>, AllocError>
    requires positions { (w : List ℕ) → get_by (λ k. bytes_eq w k.now) positions.now ≡ position w listing.now }
    requires short { instruction_count listing.now ≤ most_instructions }
    ensures { IfOk result (λ code. code.items ≡ resolved listing.now listing.now) }
{
    let mut code = Vec::new(alloc);
    for mark in listing.marks.iter() {
        match *mark {
            Mark::Label { .. } => {}
            Mark::Instruction { number, target, .. } => {
                code.push(with_label(listing.code[number], target, positions, listing))?
            }
        }
    }
    Ok(code)
}
