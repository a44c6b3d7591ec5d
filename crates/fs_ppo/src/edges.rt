//! Edges of the judged relation of a candidate, each for one cause.

ghost use Rattle.std.specs.Prelude.{◌≡◌};
ghost use Rattle.fs_model.specs.Operations.{same_hart};
ghost use Rattle.fs_cert_evidence.specs.Judged.{rfe, is_edge};
ghost use Rattle.fs_cand.specs.Candidates.{candidate_of};
ghost use Rattle.fs_cert_evidence.specs.Evidence.{cause_of};
ghost use Rattle.fs_ppo.specs.Rules.{OfRuns};

use crate::rules::{fence_rule, rule};
use fs_cand::Candidate;
use fs_cert_evidence::Cause;
use fs_kinds::Placement;
use fs_model::Operation;

/// Are both operations of one hart?
fn is_same_hart(candidate: &Candidate, a: usize, b: usize) -> bool
    ensures { OfRuns candidate.now (λ x. result ≡ same_hart x a b) }
{
    let operations = candidate.operations.as_slice();
    Operation::numbered(operations, a).is_same_hart(&Operation::numbered(operations, b))
}

/// External reads-from: b loads what a stores, and they are not of one hart. The candidate is made of runs, as
/// `Candidate::new` makes it; of another nothing is promised.
pub fn is_read_externally(candidate: &Candidate, a: usize, b: usize) -> bool
    ensures { OfRuns candidate.now (λ x. result ≡ rfe x (candidate_of candidate.now) a b) }
{
    candidate.reads_from(b, a) && !is_same_hart(candidate, a, b)
}

/// Must operation a come before operation b for this cause, with the placement's fences? The candidate is made of runs,
/// as `Candidate::new` makes it; of another nothing is promised. At most linear in the operations, the stores, the
/// steps of a hart and the slots of the placement.
#[tactic(auto, unfolding(crate::specs::Rules::rule_of))]
pub fn is_edge(
    candidate: &Candidate,
    placement: &Placement,
    a: usize,
    b: usize,
    cause: Cause,
) -> bool
    ensures { OfRuns candidate.now (λ x. result
        ≡ is_edge x placement.now (candidate_of candidate.now) a b (cause_of cause)) }
{
    match cause {
        Cause::Rule1 => rule(1, candidate, a, b),
        Cause::Rule2 => rule(2, candidate, a, b),
        Cause::Rule3 => rule(3, candidate, a, b),
        Cause::Rule4 => fence_rule(candidate, placement, a, b),
        Cause::Rule5 => rule(5, candidate, a, b),
        Cause::Rule6 => rule(6, candidate, a, b),
        Cause::Rule7 => rule(7, candidate, a, b),
        Cause::Rule8 => rule(8, candidate, a, b),
        Cause::Rule9 => rule(9, candidate, a, b),
        Cause::Rule10 => rule(10, candidate, a, b),
        Cause::Rule11 => rule(11, candidate, a, b),
        Cause::Rule12 => rule(12, candidate, a, b),
        Cause::Rule13 => rule(13, candidate, a, b),
        Cause::ReadsFrom => is_read_externally(candidate, a, b),
        Cause::Coherence => candidate.precedes_in_coherence(a, b),
        Cause::FromReads => candidate.is_from_read(a, b),
    }
}
