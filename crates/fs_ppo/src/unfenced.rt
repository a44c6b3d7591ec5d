//! Preserved program order without placed fences.

ghost use Rattle.std.specs.Prelude.{◌≡◌, ◌||◌, []};
ghost use Rattle.fs_model.specs.Preserved.{ppo, rule, Rule4};
ghost use Rattle.fs_cand.specs.Candidates.{rf};
ghost use Rattle.fs_ppo.specs.Rules.{OfRuns};
ghost use Rattle.fs_ppo.specs.inner.Groups.{by_address, by_synchronization, by_dependency, by_pipeline};

use crate::fences::is_written_between;
use crate::operations::precedes;
use crate::rules::rule;
use fs_cand::Candidate;

/// Rule 4 for the fences of the test.
fn is_fenced(candidate: &Candidate, a: usize, b: usize) -> bool
    ensures { OfRuns candidate.now (λ x. result ≡ rule x [] (rf candidate.now) a b Rule4) }
{
    precedes(candidate, a, b) && is_written_between(candidate, a, b)
}

/// Overlapping addresses.
#[tactic(auto, unfolding(crate::specs::Rules::rule_of))]
fn is_ordered_by_address(candidate: &Candidate, a: usize, b: usize) -> bool
    ensures { OfRuns candidate.now (λ x. result ≡ by_address x (rf candidate.now) a b) }
{
    rule(1, candidate, a, b) || rule(2, candidate, a, b) || rule(3, candidate, a, b)
}

/// Explicit synchronization.
#[tactic(auto, unfolding(crate::specs::Rules::rule_of))]
fn is_synchronized(candidate: &Candidate, a: usize, b: usize) -> bool
    ensures { OfRuns candidate.now (λ x. result ≡ by_synchronization x (rf candidate.now) a b) }
{
    is_fenced(candidate, a, b)
        || rule(5, candidate, a, b)
        || rule(6, candidate, a, b)
        || rule(7, candidate, a, b)
        || rule(8, candidate, a, b)
}

/// Syntactic dependencies.
#[tactic(auto, unfolding(crate::specs::Rules::rule_of))]
fn depends(candidate: &Candidate, a: usize, b: usize) -> bool
    ensures { OfRuns candidate.now (λ x. result ≡ by_dependency x (rf candidate.now) a b) }
{
    rule(9, candidate, a, b) || rule(10, candidate, a, b) || rule(11, candidate, a, b)
}

/// Pipeline dependencies.
#[tactic(auto, unfolding(crate::specs::Rules::rule_of))]
fn depends_by_pipeline(candidate: &Candidate, a: usize, b: usize) -> bool
    ensures { OfRuns candidate.now (λ x. result ≡ by_pipeline x (rf candidate.now) a b) }
{
    rule(12, candidate, a, b) || rule(13, candidate, a, b)
}

/// In one of the manual's groups of rules.
fn is_in_group(candidate: &Candidate, a: usize, b: usize) -> bool
    ensures { OfRuns candidate.now (λ x. result
        ≡ (by_address x (rf candidate.now) a b || (by_synchronization x (rf candidate.now) a b
        || (by_dependency x (rf candidate.now) a b || by_pipeline x (rf candidate.now) a b)))) }
{
    is_ordered_by_address(candidate, a, b)
        || is_synchronized(candidate, a, b)
        || depends(candidate, a, b)
        || depends_by_pipeline(candidate, a, b)
}

/// Is operation a before operation b in preserved program order, with no placed fence? A number that is no operation's,
/// or an initial store's, is not. The candidate is made of runs, as for `rule`. At most linear in the operations and in
/// the steps of a hart, for operations in program order; for others at once.
pub fn is_preserved(candidate: &Candidate, a: usize, b: usize) -> bool
    ensures { OfRuns candidate.now (λ x. result ≡ ppo x [] (rf candidate.now) a b) }
{
    precedes(candidate, a, b) && is_in_group(candidate, a, b)
}
