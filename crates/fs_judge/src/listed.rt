//! Judging each candidate that shows the outcome in turn, for a placement that no hunt decides.

ghost use Rattle.std.specs.Prelude.{◌≡◌, ◌≢◌, ◌<◌, Some, All, length, slice_get, IfOk, IfErr, IsOkUnless};
ghost use Rattle.std.specs.Arc.{arc_value};
ghost use Rattle.fs_kinds.specs.declared.fault.Fault.TheVariants.{Memory};
ghost use Rattle.fs_model.specs.Test.{IsBounded, IsStart};
ghost use Rattle.fs_cert_evidence.specs.CandidateFaults.{HasNoCandidateFault, IsCandidateFault};
ghost use Rattle.fs_cert_evidence.specs.Candidates.{Candidate as Defined};
ghost use Rattle.fs_cert_evidence.specs.Listings.{IsListing};
ghost use Rattle.fs_values.specs.ThinAir.{CanBeListed};
ghost use Rattle.fs_judge.specs.Verdicts.{IsVerdict};
ghost use Rattle.fs_judge.specs.inner.Findings.{IsFinding, IsSurvey};

use crate::base::Base;
use crate::judging::{Finding, judged};
use crate::verdict::{Verdict, forbidden};
use fs_cand_listing::{Showing, showing_of};
use fs_cert_evidence::{Cycles, Link, Witness};
use fs_kinds::{Fault, List, Placement, Slot};
use fs_model::Test;
use std::alloc::Global;
use std::sync::Arc;

/// What is found of all candidates that show the outcome.
#[derive(Drop)]
pub(crate) enum Survey {
    /// One has no cycle, and this witness.
    Survives(Witness),
    /// Each one has a cycle.
    Cycles(List<List<Link>>),
}

/// What is found of the candidate of this number.
fn judged_at(
    alloc: Global,
    test: &Test,
    showing: &Showing,
    number: usize,
    placement: &Placement,
    first: &[Slot],
) -> Result<Finding, Fault>
    requires listable { CanBeListed test.now }
    requires test { showing.now.test ≡ test.now }
    requires listing { IsListing test.now showing.now.candidates }
    requires number { number < length showing.now.candidates }
    ensures ok { (c : Defined) → slice_get showing.now.candidates number ≡ Some c
        → IfOk result (IsFinding test.now placement.now c) }
    ensures err { IsOkUnless result Memory }
{
    let candidate = showing.get(alloc, number)?;
    let base = Base::of(alloc, &candidate)?;
    judged(alloc, test, placement, &candidate, &base, first)
}

/// Judges the candidates in their order, up to the first without a cycle.
fn judge_all(
    alloc: Global,
    test: &Test,
    showing: &Showing,
    placement: &Placement,
    first: &[Slot],
) -> Result<Survey, Fault>
    requires listable { CanBeListed test.now }
    requires test { showing.now.test ≡ test.now }
    requires listing { IsListing test.now showing.now.candidates }
    requires clean { HasNoCandidateFault test.now }
    ensures ok { IfOk result (IsSurvey test.now placement.now) }
    ensures err { IsOkUnless result Memory }
{
    let mut cycles = Vec::new(alloc);
    for number in 0..showing.len() {
        let finding = judged_at(alloc, test, showing, number, placement, first)?;
        match finding {
            Finding::Ordered(witness) => return Ok(Survey::Survives(witness)),
            Finding::Cyclic(links) => cycles.push(links)?,
        }
    }
    Ok(Survey::Cycles(List::new(cycles)))
}

/// The verdict on a placement by the list of all candidates that show the outcome: the witness of the first without a
/// cycle, or a cycle for each. F15 where there are too many; or F19. The cost is that of `showing_of`, and for each
/// candidate what it takes to make it, the square of its operations, each pair by all rules of preserved program order,
/// and for a cycle its links times the tests for causes.
pub(crate) fn verdict_by_list(
    alloc: Global,
    test: &Arc<Test>,
    placement: &Placement,
    first: &[Slot],
) -> Result<Verdict, Fault>
    requires test { IsBounded (arc_value test.now) }
    requires starts { All IsStart (arc_value test.now).starts }
    ensures ok { IfOk result (IsVerdict (arc_value test.now) placement.now) }
    ensures err { IfErr result (λ f. f ≢ Memory → IsCandidateFault (arc_value test.now) f) }
{
    let showing = showing_of(alloc, Arc::try_clone(test)?)?;
    match judge_all(alloc, test, &showing, placement, first)? {
        Survey::Survives(witness) => Ok(Verdict::Allowed(witness)),
        Survey::Cycles(cycles) => forbidden(placement, Cycles::Listed(cycles)),
    }
}
