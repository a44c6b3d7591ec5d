//! What each rule of preserved program order asks of operation a before operation b, besides program order.

ghost use Rattle.std.specs.Prelude.{◌≡◌, [], true};
ghost use Rattle.fs_model.specs.Operations.{po};
ghost use Rattle.fs_model.specs.Preserved.{case_of, Rule1, Rule2, Rule3, Rule5, Rule6, Rule7, Rule11, Rule12, Rule13};
ghost use Rattle.fs_cand.specs.Candidates.{rf};
ghost use Rattle.fs_ppo.specs.Rules.{OfRuns};

use crate::dependencies::{address_between, control_dependency, is_forwarded};
use crate::operations::{
    is_acquire, is_amo_or_sc, is_load, is_rcsc, is_release, is_same_source, is_same_word, is_store,
    is_stored_between,
};
use fs_cand::Candidate;

/// b stores to a's word.
pub(crate) fn stores_to_same_word(candidate: &Candidate, a: usize, b: usize) -> bool
    ensures { OfRuns candidate.now (λ x. result ≡ case_of x [] (rf candidate.now) a b Rule1) }
{
    is_store(candidate, b) && is_same_word(candidate, a, b)
}

/// a and b load one word from different stores, and no store to the word stands between them.
pub(crate) fn loads_from_another(candidate: &Candidate, a: usize, b: usize) -> bool
    ensures { OfRuns candidate.now (λ x. result ≡ case_of x [] (rf candidate.now) a b Rule2) }
{
    is_load(candidate, a)
        && is_load(candidate, b)
        && is_same_word(candidate, a, b)
        && !is_stored_between(candidate, a, b)
        && !is_same_source(candidate, a, b)
}

/// a is of an AMO or an sc.w, and b loads what it stores.
pub(crate) fn loads_from_amo_or_sc(candidate: &Candidate, a: usize, b: usize) -> bool
    ensures { OfRuns candidate.now (λ x. result ≡ case_of x [] (rf candidate.now) a b Rule3) }
{
    is_amo_or_sc(candidate, a) && is_load(candidate, b) && candidate.reads_from(b, a)
}

/// a is an acquire.
pub(crate) fn follows_acquire(candidate: &Candidate, a: usize, _b: usize) -> bool
    ensures { OfRuns candidate.now (λ x. result ≡ case_of x [] (rf candidate.now) a _b Rule5) }
{
    is_acquire(candidate, a)
}

/// b is a release.
pub(crate) fn comes_before_release(candidate: &Candidate, _a: usize, b: usize) -> bool
    ensures { OfRuns candidate.now (λ x. result ≡ case_of x [] (rf candidate.now) _a b Rule6) }
{
    is_release(candidate, b)
}

/// Both are annotated, and so RCsc.
pub(crate) fn are_both_rcsc(candidate: &Candidate, a: usize, b: usize) -> bool
    ensures { OfRuns candidate.now (λ x. result ≡ case_of x [] (rf candidate.now) a b Rule7) }
{
    is_rcsc(candidate, a) && is_rcsc(candidate, b)
}

/// b is a store with a control dependency on a.
pub(crate) fn stores_by_control(candidate: &Candidate, a: usize, b: usize) -> bool
    ensures { OfRuns candidate.now (λ x. po x a b ≡ true → result ≡ case_of x [] (rf candidate.now) a b Rule11) }
{
    is_store(candidate, b) && control_dependency(candidate, a, b)
}

/// b loads from a store between them that has an address or a data dependency on a.
pub(crate) fn loads_forwarded(candidate: &Candidate, a: usize, b: usize) -> bool
    ensures { OfRuns candidate.now (λ x. result ≡ case_of x [] (rf candidate.now) a b Rule12) }
{
    is_load(candidate, b) && is_forwarded(candidate, a, b)
}

/// b is a store, and an instruction between them has an address dependency on a.
pub(crate) fn stores_after_address(candidate: &Candidate, a: usize, b: usize) -> bool
    ensures { OfRuns candidate.now (λ x. po x a b ≡ true → result ≡ case_of x [] (rf candidate.now) a b Rule13) }
{
    is_store(candidate, b) && address_between(candidate, a, b)
}
