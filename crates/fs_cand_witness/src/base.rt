//! The judged relation without placed fences, as rows.

ghost use Rattle.std.specs.Prelude.{◌≡◌, ◌≤◌, ◌<◌, ◌&&◌, ℕ, [], length, nat_lt};
ghost use Rattle.fs_cert_evidence.specs.Judged.{is_judged};
ghost use Rattle.fs_cert_evidence.specs.Candidates.{IsRaw, runs_of as defined_runs};
ghost use Rattle.fs_cand.specs.Candidates.{candidate_of, IsMade};
ghost use Rattle.fs_model.specs.Execution.{initial_words};
ghost use Rattle.fs_model.specs.declared.test.Test.{Test};
ghost use Rattle.fs_ppo.specs.Rules.{OfRuns};
ghost use Rattle.fs_cand_witness.specs.Edges.{has_edge, has_bit};

use crate::judged::is_judged;
use crate::rows::Rows;
use fs_cand::Candidate;

/// The operations below n to which an edge leads from a.
fn row_of(candidate: &Candidate, a: usize, n: usize) -> u64
    requires { n ≤ 64 }
    ensures { OfRuns candidate.now (λ x. (b : ℕ) → has_bit result b
        ≡ (nat_lt b n && is_judged x [] (candidate_of candidate.now) a b)) }
{
    let mut row: u64 = 0;
    for b in 0..n {
        if is_judged(candidate, a, b) {
            row |= 1 << b;
        }
    }
    row
}

/// The judged relation of a candidate without placed fences, between its operations, of which there are at most 64. The
/// candidate is made of runs, as `Candidate::new` makes it; of another nothing is promised. A raw candidate has no
/// other edges. Each two operations are looked at once: two in program order at most linearly in the operations and in
/// the steps of a hart, others in the stores.
pub fn base_rows(candidate: &Candidate) -> Rows
    requires { length candidate.now.operations ≤ 64 }
    ensures edges { OfRuns candidate.now (λ x. (a b : ℕ) → has_edge result a b
        ≡ (nat_lt a (length candidate.now.operations)
        && (nat_lt b (length candidate.now.operations) && is_judged x [] (candidate_of candidate.now) a b))) }
    ensures raw { (t : Test) → IsMade (initial_words t) candidate.now → IsRaw t (candidate_of candidate.now) → (a b : ℕ)
        → has_edge result a b ≡ is_judged (defined_runs t (candidate_of candidate.now)) [] (candidate_of
        candidate.now) a b }
{
    let n = candidate.operations.len();
    let mut rows = Rows::new();
    for a in 0..n {
        rows.add_row(a, row_of(candidate, a, n));
    }
    rows
}
