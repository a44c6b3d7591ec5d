//! What the rules read of single operations, and of two of them.

ghost use Rattle.std.specs.Prelude.{◌≡◌, ◌&&◌, is_some};
ghost use Rattle.std.specs.List.{list_any};
ghost use Rattle.fs_model.specs.Numbers.{is_same};
ghost use Rattle.fs_model.specs.Operations.{operation, place, is_load, is_store, same_word, precedes, po, any_between};
ghost use Rattle.fs_model.specs.Operations.{is_acquire, is_release, is_rcsc, is_amo_or_sc, classes, trace_of};
ghost use Rattle.fs_cand.specs.Candidates.{rf};
ghost use Rattle.fs_ppo.specs.Rules.{OfRuns};

use fs_cand::Candidate;
use fs_hart::steps_of;
use fs_instr::Instr;
use fs_kinds::Classes;
use fs_model::{Operation, Step};

/// The operation of this number.
fn operation(candidate: &Candidate, a: usize) -> Operation
    ensures { OfRuns candidate.now (λ x. result ≡ operation x a) }
{
    Operation::numbered(candidate.operations.as_slice(), a)
}

/// The hart that makes the operation.
pub(crate) fn hart(candidate: &Candidate, a: usize) -> Option<u8>
    ensures { OfRuns candidate.now (λ x. result ≡ (operation x a).hart) }
{
    operation(candidate, a).hart
}

/// The place of its step in the hart's run, counted from 0.
pub(crate) fn place(candidate: &Candidate, a: usize) -> u8
    ensures { OfRuns candidate.now (λ x. result ≡ place x a) }
{
    operation(candidate, a).place
}

/// The run of the operation's hart.
pub(crate) fn steps(candidate: &Candidate, a: usize) -> &[Step]
    ensures { OfRuns candidate.now (λ x. result.now ≡ trace_of x a) }
{
    steps_of(candidate.traces.as_slice(), hart(candidate, a))
}

/// The operation's instruction.
pub(crate) fn instr(candidate: &Candidate, a: usize) -> Instr
    ensures { OfRuns candidate.now (λ x. result ≡ (operation x a).instr) }
{
    operation(candidate, a).instr
}

pub(crate) fn is_load(candidate: &Candidate, a: usize) -> bool
    ensures { OfRuns candidate.now (λ x. result ≡ is_load x a) }
{
    operation(candidate, a).is_load()
}

pub(crate) fn is_store(candidate: &Candidate, a: usize) -> bool
    ensures { OfRuns candidate.now (λ x. result ≡ is_store x a) }
{
    operation(candidate, a).is_store()
}

/// Whether the operation loads, and whether it stores.
pub(crate) fn classes(candidate: &Candidate, a: usize) -> Classes
    ensures { OfRuns candidate.now (λ x. result ≡ classes x a) }
{
    operation(candidate, a).classes()
}

/// Does a come before b in program order?
pub(crate) fn precedes(candidate: &Candidate, a: usize, b: usize) -> bool
    ensures { OfRuns candidate.now (λ x. result ≡ po x a b) }
{
    operation(candidate, a).precedes(&operation(candidate, b))
}

pub(crate) fn is_same_word(candidate: &Candidate, a: usize, b: usize) -> bool
    ensures { OfRuns candidate.now (λ x. result ≡ same_word x a b) }
{
    operation(candidate, a).is_same_word(&operation(candidate, b))
}

/// Does a store to the first one's word stand between the two?
fn any_store_between(operations: &[Operation], first: &Operation, second: &Operation) -> bool
    ensures { result
        ≡ list_any (λ m. precedes first.now m && precedes m second.now
        && (is_some m.stored && is_same m.address first.now.address)) operations.now }
{
    operations.iter().any(|m| {
        first.precedes(m) && m.precedes(second) && m.is_store() && m.is_same_word(first)
    })
}

/// Does a store to a's word stand between a and b in program order?
pub(crate) fn is_stored_between(candidate: &Candidate, a: usize, b: usize) -> bool
    ensures { OfRuns candidate.now (λ x. result ≡ any_between x (λ m. is_store x m && same_word x m a) a b) }
{
    any_store_between(
        candidate.operations.as_slice(),
        &operation(candidate, a),
        &operation(candidate, b),
    )
}

/// Do a and b load of the same store?
pub(crate) fn is_same_source(candidate: &Candidate, a: usize, b: usize) -> bool
    ensures { result ≡ is_same (rf candidate.now a) (rf candidate.now b) }
{
    match (candidate.source_of(a), candidate.source_of(b)) {
        (Some(store), Some(other)) => store == other,
        _ => false,
    }
}

pub(crate) fn is_acquire(candidate: &Candidate, a: usize) -> bool
    ensures { OfRuns candidate.now (λ x. result ≡ is_acquire x a) }
{
    operation(candidate, a).annotation().acquire
}

pub(crate) fn is_release(candidate: &Candidate, a: usize) -> bool
    ensures { OfRuns candidate.now (λ x. result ≡ is_release x a) }
{
    operation(candidate, a).annotation().release
}

/// Is it annotated, so that it is RCsc?
pub(crate) fn is_rcsc(candidate: &Candidate, a: usize) -> bool
    ensures { OfRuns candidate.now (λ x. result ≡ is_rcsc x a) }
{
    is_acquire(candidate, a) || is_release(candidate, a)
}

pub(crate) fn is_amo_or_sc(candidate: &Candidate, a: usize) -> bool
    ensures { OfRuns candidate.now (λ x. result ≡ is_amo_or_sc x a) }
{
    matches!(instr(candidate, a), Instr::Amo { .. } | Instr::Sc { .. })
}
