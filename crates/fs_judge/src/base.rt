//! What is kept of a candidate for judging it with any placement of fences.

ghost use Rattle.std.specs.Prelude.{◌≡◌, ◌≤◌, ℕ, List, true, length, IfOk, IsOkUnless};
ghost use Rattle.fs_kinds.specs.declared.fault.Fault.TheVariants.{Memory};
ghost use Rattle.fs_model.specs.declared.test.Test.{Test};
ghost use Rattle.fs_model.specs.Execution.{initial_words};
ghost use Rattle.fs_cert_evidence.specs.Candidates.{Candidate as Defined, IsRaw, runs_of};
ghost use Rattle.fs_cert_evidence.specs.Judged.{is_judged};
ghost use Rattle.fs_cand.specs.Candidates.{candidate_of, IsMade};
ghost use Rattle.fs_cand_witness.specs.Edges.{has_edge};
ghost use Rattle.fs_judge.specs.inner.Bases.{IsBase};

use fs_cand::Candidate;
use fs_cand_witness::{Rows, Sides, base_rows, fence_rows, sides_of};
use fs_kinds::{Fault, List, Placement};
use std::alloc::Global;

/// The judged relation of a candidate without placed fences, the places in its runs where fences may stand, and how
/// many operations it has.
#[derive(Drop)]
pub(crate) struct Base {
    pub(crate) rows: Rows,
    pub(crate) sides: List<Sides>,
    pub(crate) len: usize,
}

impl Base {
    /// That of the candidate. Its cost is that of `base_rows` and `sides_of`. The error is F19.
    pub(crate) fn of(alloc: Global, candidate: &Candidate) -> Result<Base, Fault>
        requires operations { length candidate.now.operations ≤ 64 }
        requires harts { length candidate.now.traces ≤ 8 }
        ensures ok { (t : Test) → IsMade (initial_words t) candidate.now → IsRaw t (candidate_of candidate.now)
            → IfOk result (IsBase t (candidate_of candidate.now)) }
        ensures err { IsOkUnless result Memory }
    {
        let sides = sides_of(alloc, candidate)?;
        Ok(Base {
            rows: base_rows(candidate),
            sides: List::new(sides),
            len: candidate.operations.len(),
        })
    }

    /// The judged relation with the placement's fences. The steps of the runs times the slots.
    pub(crate) fn under(&self, placement: &Placement) -> Rows
        ensures { (t : Test) (c : Defined) → IsBase t c self.now
            → (a b : ℕ) → has_edge result a b ≡ is_judged (runs_of t c) placement.now c a b }
    {
        let mut rows = fence_rows(self.sides.as_slice(), placement);
        rows.union(&self.rows);
        rows
    }
}
