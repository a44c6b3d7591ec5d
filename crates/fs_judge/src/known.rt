//! Candidates that show the outcome, each with what judging it takes.

ghost use Rattle.std.specs.Prelude.{IfOk, IfSome, IsOkUnless, List};
ghost use Rattle.fs_kinds.specs.declared.fault.Fault.TheVariants.{Memory};
ghost use Rattle.fs_kinds.specs.declared.placement.Entry.{Entry};
ghost use Rattle.fs_model.specs.Test.{IsBounded};
ghost use Rattle.fs_model.specs.Allows.{Shows};
ghost use Rattle.fs_check.specs.Ordered.{IsOrdered, execution_in};
ghost use Rattle.fs_values.specs.ThinAir.{CanBeListed};
ghost use Rattle.fs_judge.specs.Verdicts.{IsShownWith};
ghost use Rattle.fs_judge.specs.inner.Bases.{IsKnown};

use crate::base::Base;
use crate::executed::candidate_of;
use fs_cand::Candidate;
use fs_cand_witness::{Hints, has_order, widest_witness};
use fs_cert_evidence::Witness;
use fs_check::OrderedCandidate;
use fs_kinds::{Fault, Placement, Slot};
use fs_model::Test;
use std::alloc::Global;

/// A candidate that shows the outcome, and what is kept of it for judging it with any placement.
#[derive(Drop)]
pub(crate) struct Known {
    pub(crate) candidate: Candidate,
    pub(crate) base: Base,
}

impl Known {
    /// The candidate of an execution that shows the outcome with some fences. None where it has more than 64 operations
    /// or 8 harts, as no bounded test has. Its cost is that of `Base::of`. The error is F19.
    pub(crate) fn of(
        alloc: Global,
        test: &Test,
        ordered: OrderedCandidate,
    ) -> Result<Option<Known>, Fault>
        requires listable { CanBeListed test.now }
        requires ordered { IsOrdered test.now ordered }
        requires shows { (p : List Entry) × Shows test.now p (execution_in ordered) }
        ensures ok { IfOk result (λ found. IfSome found (IsKnown test.now)) }
        ensures err { IsOkUnless result Memory }
    {
        let candidate = candidate_of(alloc, test, ordered)?;
        if candidate.operations.len() > 64 || candidate.traces.len() > 8 {
            return Ok(None);
        }
        let base = Base::of(alloc, &candidate)?;
        Ok(Some(Known { candidate, base }))
    }

    /// Its witness, where it has no cycle with the placed fences, widened at the first slots before the others. The
    /// steps of its runs times the slots, and the cost of a witness.
    pub(crate) fn witness(
        &self,
        alloc: Global,
        test: &Test,
        placement: &Placement,
        first: &[Slot],
    ) -> Result<Option<Witness>, Fault>
        requires bounded { IsBounded test.now }
        requires known { IsKnown test.now self.now }
        ensures ok { IfOk result (λ found. IfSome found (IsShownWith test.now placement.now)) }
        ensures err { IsOkUnless result Memory }
    {
        let rows = self.base.under(placement);
        if !has_order(&rows, self.base.len) {
            return Ok(None);
        }
        let hints = Hints {
            sides: self.base.sides.as_slice(),
            first,
        };
        let witness = widest_witness(alloc, test, placement, &self.candidate, &rows, hints)?;
        Ok(Some(witness))
    }
}
