//! Judging one candidate.

ghost use Rattle.std.specs.Prelude.{◌≡◌, ◌≤◌, length, IfOk, IsOkUnless};
ghost use Rattle.fs_kinds.specs.declared.fault.Fault.TheVariants.{Memory};
ghost use Rattle.fs_model.specs.Test.{IsBounded};
ghost use Rattle.fs_model.specs.Execution.{initial_words};
ghost use Rattle.fs_cert_evidence.specs.Candidates.{IsShowing};
ghost use Rattle.fs_cand.specs.Candidates.{candidate_of, IsMade};
ghost use Rattle.fs_judge.specs.inner.Bases.{IsBase};
ghost use Rattle.fs_judge.specs.inner.Findings.{IsFinding};

use crate::base::Base;
use crate::links::links_of;
use fs_cand::Candidate;
use fs_cand_witness::{Hints, Judged, judge, widest_witness};
use fs_cert_evidence::{Link, Witness};
use fs_kinds::{Fault, List, Placement, Slot};
use fs_model::Test;
use std::alloc::Global;

/// What is found of a candidate with placed fences.
#[derive(Drop)]
pub(crate) enum Finding {
    /// It has an order, and so this witness.
    Ordered(Witness),
    /// It has this cycle.
    Cyclic(List<Link>),
}

/// What is found of a showing candidate with this base: a witness that is widened at the first slots before the others,
/// or a cycle.
pub(crate) fn judged(
    alloc: Global,
    test: &Test,
    placement: &Placement,
    candidate: &Candidate,
    base: &Base,
    first: &[Slot],
) -> Result<Finding, Fault>
    requires test { IsBounded test.now }
    requires made { IsMade (initial_words test.now) candidate.now }
    requires operations { length candidate.now.operations ≤ 64 }
    requires harts { length candidate.now.traces ≤ 8 }
    requires showing { IsShowing test.now (candidate_of candidate.now) }
    requires base { IsBase test.now (candidate_of candidate.now) base.now }
    ensures ok { IfOk result (IsFinding test.now placement.now (candidate_of candidate.now)) }
    ensures err { IsOkUnless result Memory }
{
    let rows = base.under(placement);
    let hints = Hints {
        sides: base.sides.as_slice(),
        first,
    };
    match judge(&rows, candidate.operations.len()) {
        Judged::Order(_) => {
            let witness = widest_witness(alloc, test, placement, candidate, &rows, hints)?;
            Ok(Finding::Ordered(witness))
        }
        Judged::Cycle(cycle, len) => {
            let links = links_of(alloc, candidate, placement, &rows, &cycle[..len])?;
            Ok(Finding::Cyclic(links))
        }
    }
}
