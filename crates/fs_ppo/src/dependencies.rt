//! Dependencies and pairs, between operations of one hart.

ghost use Rattle.std.specs.Prelude.{◌≡◌, ◌<◌, ◌||◌, option_and_then, slice_get, true, Some, ◌&&◌};
ghost use Rattle.std.specs.Option.{option_copied};
ghost use Rattle.std.specs.List.{list_any};
ghost use Rattle.fs_kinds.specs.Limits.{most_numbered};
ghost use Rattle.fs_deps.specs.Masks.{has_address, has_data, has_control};
ghost use Rattle.fs_model.specs.Numbers.{between, is_same};
ghost use Rattle.fs_model.specs.Operations.{po, place, is_store, any_between, paired};
ghost use Rattle.fs_model.specs.Dependencies.{address_dependency, data_dependency, control_dependency, address_between};
ghost use Rattle.fs_cand.specs.Candidates.{rf};
ghost use Rattle.fs_ppo.specs.Rules.{OfRuns};
ghost use Rattle.fs_ppo.specs.inner.Parts.{deps_of};

use crate::operations::{hart, is_store, place, precedes, steps};
use fs_cand::Candidate;
use fs_deps::Deps;
use fs_model::are_paired;

/// The dependencies in the run of the hart.
fn deps(candidate: &Candidate, hart: Option<u8>) -> Option<&Deps>
    ensures { option_copied result ≡ option_and_then (slice_get candidate.now.deps) hart }
{
    candidate.deps.as_slice().get(usize::from(hart?))
}

pub(crate) fn is_paired(candidate: &Candidate, a: usize, b: usize) -> bool
    ensures { OfRuns candidate.now (λ x. result ≡ paired x a b) }
{
    are_paired(
        steps(candidate, a),
        usize::from(place(candidate, a)),
        usize::from(place(candidate, b)),
    )
}

/// Has step j of the run of the hart an address dependency on step i?
fn has_address(candidate: &Candidate, hart: Option<u8>, i: usize, j: usize) -> bool
    ensures { result ≡ has_address (deps_of candidate.now hart) i j }
{
    deps(candidate, hart).is_some_and(|deps| deps.addr(i, j))
}

fn has_data(candidate: &Candidate, hart: Option<u8>, i: usize, j: usize) -> bool
    ensures { result ≡ has_data (deps_of candidate.now hart) i j }
{
    deps(candidate, hart).is_some_and(|deps| deps.data(i, j))
}

fn has_control(candidate: &Candidate, hart: Option<u8>, i: usize, j: usize) -> bool
    ensures { result ≡ has_control (deps_of candidate.now hart) i j }
{
    deps(candidate, hart).is_some_and(|deps| deps.ctrl(i, j))
}

/// Has a step between i and j an address dependency on step i?
fn any_address(candidate: &Candidate, hart: Option<u8>, i: usize, j: usize) -> bool
    requires { i < most_numbered }
    ensures { result ≡ list_any (has_address (deps_of candidate.now hart) i) (between i j) }
{
    (i + 1..j).any(|m| has_address(candidate, hart, i, m))
}

/// Of a before b in program order: has b an address dependency on a?
pub(crate) fn address_dependency(candidate: &Candidate, a: usize, b: usize) -> bool
    ensures { OfRuns candidate.now (λ x. po x a b ≡ true → result ≡ address_dependency x a b) }
{
    let (i, j) = (place(candidate, a), place(candidate, b));
    has_address(
        candidate,
        hart(candidate, a),
        usize::from(i),
        usize::from(j),
    )
}

/// Of a before b in program order: has b a data dependency on a?
pub(crate) fn data_dependency(candidate: &Candidate, a: usize, b: usize) -> bool
    ensures { OfRuns candidate.now (λ x. po x a b ≡ true → result ≡ data_dependency x a b) }
{
    let (i, j) = (place(candidate, a), place(candidate, b));
    has_data(
        candidate,
        hart(candidate, a),
        usize::from(i),
        usize::from(j),
    )
}

/// Of a before b in program order: has b a control dependency on a?
pub(crate) fn control_dependency(candidate: &Candidate, a: usize, b: usize) -> bool
    ensures { OfRuns candidate.now (λ x. po x a b ≡ true → result ≡ control_dependency x a b) }
{
    let (i, j) = (place(candidate, a), place(candidate, b));
    has_control(
        candidate,
        hart(candidate, a),
        usize::from(i),
        usize::from(j),
    )
}

/// Of a before b in program order: has an instruction between them an address dependency on a?
pub(crate) fn address_between(candidate: &Candidate, a: usize, b: usize) -> bool
    ensures { OfRuns candidate.now (λ x. po x a b ≡ true → result ≡ address_between x a b) }
{
    let (i, j) = (place(candidate, a), place(candidate, b));
    any_address(
        candidate,
        hart(candidate, a),
        usize::from(i),
        usize::from(j),
    )
}

/// Does a come before m, and m before b, where m is a store that has an address or a data dependency on a?
fn is_dependent_store(candidate: &Candidate, a: usize, m: usize, b: usize) -> bool
    ensures { OfRuns candidate.now (λ x. result
        ≡ (po x a m && po x m b && (is_store x m && (address_dependency x a m || data_dependency x a m)))) }
{
    precedes(candidate, a, m)
        && precedes(candidate, m, b)
        && is_store(candidate, m)
        && (address_dependency(candidate, a, m) || data_dependency(candidate, a, m))
}

/// Does b load from a store between a and b in program order that has an address or a data dependency on a?
pub(crate) fn is_forwarded(candidate: &Candidate, a: usize, b: usize) -> bool
    ensures { OfRuns candidate.now (λ x. result
        ≡ any_between x (λ m. is_store x m && (address_dependency x a m || data_dependency x a m)
        && is_same (rf candidate.now b) (Some m)) a b) }
{
    match candidate.source_of(b) {
        Some(store) => is_dependent_store(candidate, a, usize::from(store), b),
        None => false,
    }
}
