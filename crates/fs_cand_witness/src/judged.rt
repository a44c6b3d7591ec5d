//! Whether a candidate without placed fences has an edge of its judged relation from operation a to operation b.

ghost use Rattle.std.specs.Prelude.{◌≡◌, []};
ghost use Rattle.fs_cert_evidence.specs.Judged.{is_judged};
ghost use Rattle.fs_cand.specs.Candidates.{candidate_of};
ghost use Rattle.fs_ppo.specs.Rules.{OfRuns};

use fs_cand::Candidate;
use fs_ppo::{is_preserved, is_read_externally};

/// Without placed fences: must a come before b?
pub(crate) fn is_judged(candidate: &Candidate, a: usize, b: usize) -> bool
    ensures { OfRuns candidate.now (λ x. result ≡ is_judged x [] (candidate_of candidate.now) a b) }
{
    is_preserved(candidate, a, b)
        || is_read_externally(candidate, a, b)
        || candidate.precedes_in_coherence(a, b)
        || candidate.is_from_read(a, b)
}
