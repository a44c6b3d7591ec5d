//! Why an edge of the judged relation is one.

ghost use Rattle.std.specs.Prelude.{◌≡◌, true};
ghost use Rattle.fs_cert_evidence.specs.Judged.{is_edge, is_judged};
ghost use Rattle.fs_cand.specs.Candidates.{candidate_of};
ghost use Rattle.fs_cert_evidence.specs.Evidence.{cause_of};
ghost use Rattle.fs_ppo.specs.Rules.{OfRuns};

use fs_cand::Candidate;
use fs_cert_evidence::Cause;
use fs_kinds::Placement;
use fs_ppo::is_edge;

const CAUSES: [Cause; 16] = [
    Cause::Rule1,
    Cause::Rule2,
    Cause::Rule3,
    Cause::Rule4,
    Cause::Rule5,
    Cause::Rule6,
    Cause::Rule7,
    Cause::Rule8,
    Cause::Rule9,
    Cause::Rule10,
    Cause::Rule11,
    Cause::Rule12,
    Cause::Rule13,
    Cause::ReadsFrom,
    Cause::Coherence,
    Cause::FromReads,
];

/// A cause for which a must come before b, where it must: the first in the order of the causes. At most as many tests
/// as there are causes, each at most linear in the operations, the steps of a hart and the slots of the placement.
pub(crate) fn cause(candidate: &Candidate, placement: &Placement, a: usize, b: usize) -> Cause
    ensures { OfRuns candidate.now (λ x. is_judged x placement.now (candidate_of candidate.now) a b ≡ true
        → is_edge x placement.now (candidate_of candidate.now) a b (cause_of result) ≡ true) }
{
    for cause in &CAUSES {
        if is_edge(candidate, placement, a, b, *cause) {
            return *cause;
        }
    }
    Cause::FromReads
}
