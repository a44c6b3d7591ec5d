//! The places in the runs where fences may stand, each with the operations before it and after it.

ghost use Rattle.std.specs.Prelude.{◌≡◌, ◌≤◌, ◌&&◌, ◌||◌, ℕ, length, List, IfOk, IsOkUnless};
ghost use Rattle.std.specs.List.{list_any, slice_index_or};
ghost use Rattle.fs_kinds.specs.declared.fault.Fault.TheVariants.{Memory};
ghost use Rattle.fs_kinds.specs.declared.placement.Entry.{Entry};
ghost use Rattle.fs_model.specs.Numbers.{numbers_below};
ghost use Rattle.fs_model.specs.Operations.{operation, nothing, steps_of};
ghost use Rattle.fs_ppo.specs.Rules.{OfRuns};
ghost use Rattle.fs_cand_witness.specs.Edges.{has_bit};
ghost use Rattle.fs_cand_witness.specs.Fencing.{before, after, orders_at, is_fenced};
ghost use Rattle.fs_cand_witness.specs.inner.Halves.{is_on, is_of, classes_on, orders_before_step};

use fs_cand::Candidate;
use fs_hart::steps_of;
use fs_kinds::{Fault, Slot};
use fs_model::Operation;
use std::alloc::Global;

/// A place in a run where a fence may stand, before a step, with the operations of the hart before it and from it on,
/// as bits.
#[derive(Clone, Copy)]
pub struct Sides {
    /// The hart, and the instruction of the step.
    pub slot: Slot,
    /// The operations before the step that load.
    pub reads_before: u64,
    /// Those before it that store.
    pub writes_before: u64,
    /// The step's and those after it that load.
    pub reads_after: u64,
    /// The step's and those after it that store.
    pub writes_after: u64,
}

// The operations before a step, or the step's and those after it.
#[derive(Clone, Copy)]
pub(crate) enum Half {
    Before,
    After,
}

// Those that load, or those that store.
#[derive(Clone, Copy)]
pub(crate) enum Class {
    Reads,
    Writes,
}

fn is_on(operation: &Operation, half: Half, hart: u8, place: usize) -> bool
    ensures { result ≡ is_on half hart place operation.now }
{
    let is_before = usize::from(operation.place) < place;
    let is_here = operation.hart.is_some_and(|of| of == hart);
    match half {
        Half::Before => is_here && is_before,
        Half::After => is_here && !is_before,
    }
}

fn is_of(operation: &Operation, class: Class) -> bool
    ensures { result ≡ is_of class operation.now }
{
    match class {
        Class::Reads => operation.is_load(),
        Class::Writes => operation.is_store(),
    }
}

fn is_among(operation: &Operation, half: Half, class: Class, hart: u8, place: usize) -> bool
    ensures { result ≡ (is_on half hart place operation.now && is_of class operation.now) }
{
    is_on(operation, half, hart, place) && is_of(operation, class)
}

/// The operations of this half and class, as bits.
fn mask(operations: &[Operation], half: Half, class: Class, hart: u8, place: usize) -> u64
    requires { length operations.now ≤ 64 }
    ensures { (a : ℕ) → has_bit result a
        ≡ (is_on half hart place (slice_index_or operations.now a nothing)
        && is_of class (slice_index_or operations.now a nothing)) }
{
    let mut mask: u64 = 0;
    for a in 0..operations.len() {
        if is_among(&operations[a], half, class, hart, place) {
            mask |= 1 << a;
        }
    }
    mask
}

/// The sides of the step at this place of the hart's run.
fn sides_at(candidate: &Candidate, slot: Slot, place: usize) -> Sides
    requires { length candidate.now.operations ≤ 64 }
    ensures slot { result.slot ≡ slot }
    ensures before { OfRuns candidate.now (λ x. (a : ℕ) → before result a
        ≡ classes_on Half.Before slot.hart place (operation x a)) }
    ensures after { OfRuns candidate.now (λ x. (a : ℕ) → after result a
        ≡ classes_on Half.After slot.hart place (operation x a)) }
{
    let operations = candidate.operations.as_slice();
    Sides {
        slot,
        reads_before: mask(operations, Half::Before, Class::Reads, slot.hart, place),
        writes_before: mask(operations, Half::Before, Class::Writes, slot.hart, place),
        reads_after: mask(operations, Half::After, Class::Reads, slot.hart, place),
        writes_after: mask(operations, Half::After, Class::Writes, slot.hart, place),
    }
}

/// Puts the sides of the hart's steps last.
fn push_sides(candidate: &Candidate, hart: u8, sides: &mut Vec<Sides>) -> Result<(), Fault>
    requires { length candidate.now.operations ≤ 64 }
    ensures ok { IfOk result (λ _. OfRuns candidate.now (λ x. (p : List Entry) (a b : ℕ)
        → list_any (orders_at p a b) sides.new.items
        ≡ (list_any (orders_at p a b) sides.old.items
        || list_any (orders_before_step x p hart a b) (numbers_below (length (steps_of x.traces hart)))))) }
    ensures err { IsOkUnless result Memory }
{
    let steps = steps_of(candidate.traces.as_slice(), Some(hart));
    for place in 0..steps.len() {
        let slot = Slot {
            hart,
            at: steps[place].at,
        };
        sides.push(sides_at(candidate, slot, place))?;
    }
    Ok(())
}

/// The sides of each step of the candidate's runs. The candidate is made of runs, as `Candidate::new` makes it; of
/// another nothing is promised. Candidates with the same runs have the same sides. The steps times the operations. The
/// error is F19.
pub fn sides_of(alloc: Global, candidate: &Candidate) -> Result<Vec<Sides>, Fault>
    requires operations { length candidate.now.operations ≤ 64 }
    requires harts { length candidate.now.traces ≤ 8 }
    ensures ok { IfOk result (λ sides. OfRuns candidate.now (λ x. (p : List Entry) (a b : ℕ)
        → list_any (orders_at p a b) sides.items ≡ is_fenced x p a b)) }
    ensures err { IsOkUnless result Memory }
{
    let mut sides = Vec::new(alloc);
    for hart in 0..candidate.traces.len() {
        push_sides(candidate, hart as u8, &mut sides)?;
    }
    Ok(sides)
}
