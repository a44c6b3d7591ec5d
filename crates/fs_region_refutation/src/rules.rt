//! The rules of preserved program order in one run, with the sources of two loads beside it.

ghost use Rattle.std.specs.Prelude.{◌≡◌, [], ℕ, Option};
ghost use Rattle.fs_model.specs.Operations.{operation};
ghost use Rattle.fs_model.specs.Preserved.{Rule, rule};
ghost use Rattle.fs_cand.specs.Candidates.{rf};
ghost use Rattle.fs_ppo.specs.Rules.{OfRuns, number_of};
ghost use Rattle.fs_region_refutation.specs.inner.Ordered.{Returns, loads_after_amo_or_sc, passes_through};

use fs_cand::Candidate;
use fs_instr::Instr;
use fs_kinds::Placement;
use fs_model::Operation;
use fs_ppo::{fence_rule, rule};

// What two loads of a run return from, as far as rules look at it.
#[derive(Clone, Copy)]
pub(crate) struct Returned {
    // Both sources are known, and they are the same.
    pub are_same: bool,
    // The second one's, where it is known and is an operation of the run.
    pub store: Option<u8>,
}

/// The operation of this number.
fn operation(candidate: &Candidate, a: usize) -> Operation
    ensures { OfRuns candidate.now (λ x. result ≡ operation x a) }
{
    Operation::numbered(candidate.operations.as_slice(), a)
}

/// Is a an AMO or an sc.w, and b a later load? These may be a case of rule 3.
fn loads_after_amo_or_sc(candidate: &Candidate, a: usize, b: usize) -> bool
    ensures { OfRuns candidate.now (λ x. result ≡ loads_after_amo_or_sc x a b) }
{
    let (first, second) = (operation(candidate, a), operation(candidate, b));
    first.precedes(&second)
        && matches!(first.instr, Instr::Amo { .. } | Instr::Sc { .. })
        && second.is_load()
}

/// Does the load b come after m, and the store m after a, on which it depends? Where b returns from m this is rule 12.
fn passes_through(candidate: &Candidate, a: usize, m: usize, b: usize) -> bool
    ensures { OfRuns candidate.now (λ x. result ≡ passes_through x (rf candidate.now) a m b) }
{
    let (store, load) = (operation(candidate, m), operation(candidate, b));
    store.precedes(&load)
        && store.is_store()
        && load.is_load()
        && (rule(9, candidate, a, m) || rule(10, candidate, a, m))
}

/// Does the rule of this number order a before b, where this is known of what they return from? The candidate has no
/// sources.
pub(crate) fn is_ordered(
    candidate: &Candidate,
    placement: &Placement,
    number: u8,
    a: usize,
    b: usize,
    returned: Returned,
) -> bool
    requires { candidate.now.source ≡ [] }
    ensures { OfRuns candidate.now (λ x. (rf : ℕ → Option ℕ) → Returns x rf a b returned → (r : Rule)
        → number_of r ≡ number → result ≡ rule x placement.now rf a b r) }
{
    match number {
        2 => rule(2, candidate, a, b) && !returned.are_same,
        3 => match returned.store {
            Some(m) => usize::from(m) == a && loads_after_amo_or_sc(candidate, a, b),
            None => false,
        },
        4 => fence_rule(candidate, placement, a, b),
        12 => match returned.store {
            Some(m) => passes_through(candidate, a, usize::from(m), b),
            None => false,
        },
        number => rule(number, candidate, a, b),
    }
}
