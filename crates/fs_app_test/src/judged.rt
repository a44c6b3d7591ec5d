//! What is said of a test that was read.

ghost use Rattle.std.specs.Prelude.{◌≡◌, ◌≢◌, ◌⊎◌, All, IfOk, IfErr, IsOkUnless, string_bytes};
ghost use Rattle.std.specs.Arc.{arc_value};
ghost use Rattle.fs_kinds.specs.declared.fault.Fault.TheVariants.{Memory, TooManyCandidates};
ghost use Rattle.fs_model.specs.Allows.{no_fences};
ghost use Rattle.fs_model.specs.Test.{IsBounded, IsStart, IsTest};
ghost use Rattle.fs_cert_evidence.specs.CandidateFaults.{IsCandidateFault};
ghost use Rattle.fs_values.specs.ThinAir.{CanBeListed};
ghost use Rattle.fs_judge.specs.Verdicts.{IsVerdict};
ghost use Rattle.fs_app_test.specs.SaidVerdicts.{Says, IsFaultOf, IsLeftOpen, IsSettled, IsTestedAs, witness_in};

use crate::vacuous::{Vacuity, vacuous};
use crate::{Said, said_of};
use fs_judge::{Judge, Problem, Verdict};
use fs_kinds::{Fault, Placement};
use fs_model::{Test, slots};
use fs_region_refutation::Basis;
use std::alloc::{AllocError, Global};
use std::sync::Arc;

/// What is said of the test, or the fault of its runs or candidates.
pub(crate) fn judge(alloc: Global, test: Test, inferences: usize) -> Result<Said, Fault>
    requires { IsTest test }
    ensures ok { IfOk result (λ said. IsTestedAs test said.kind (string_bytes said.why) (witness_in said.witness)) }
    ensures err { IfErr result (λ f. f ≢ Memory → IsFaultOf test f) }
{
    let test = shared(alloc, test)?;
    judge_test(alloc, &test, inferences)
}

/// The test, to be shared.
pub(crate) fn shared(alloc: Global, test: Test) -> Result<Arc<Test>, AllocError>
    ensures { IfOk result (λ shared. arc_value shared ≡ test) }
{
    Ok(Arc::new(alloc, test)?)
}

/// What is said of a test as it is written, with no fence placed: whether it can show its outcome, and why. A hunt may
/// make so many inferences before it gives up.
///
/// The first fault in this order: `TooManyTraces` and `Astray`; `TooManyCandidates`, which doesn't come where the test
/// is found to be vacuous. It comes also where it is left open whether the test is vacuous, and what forbids the
/// outcome has no contradiction. `Memory` may come in place of any answer. The cost is that of `Basis::new`, of
/// `is_vacuous` of fs_judge_outcomes, and of `Problem::over` and `Judge::verdict` of fs_judge.
pub fn judge_test(alloc: Global, test: &Arc<Test>, inferences: usize) -> Result<Said, Fault>
    requires bounded { IsBounded (arc_value test.now) }
    requires starts { All IsStart (arc_value test.now).starts }
    ensures ok { IfOk result (λ said.
        IsTestedAs (arc_value test.now) said.kind (string_bytes said.why) (witness_in said.witness)) }
    ensures err { IfErr result (λ f. f ≢ Memory → IsFaultOf (arc_value test.now) f) }
{
    let basis = Basis::new(alloc, test)?;
    match vacuous(alloc, test, &basis)? {
        Vacuity::Vacuous(said) => Ok(said),
        Vacuity::Serious => judge_serious(alloc, test, basis, true, inferences),
        Vacuity::Open => judge_serious(alloc, test, basis, false, inferences),
    }
}

/// The same of a test with these runs that isn't vacuous, or of which that isn't settled.
fn judge_serious(
    alloc: Global,
    test: &Arc<Test>,
    basis: Basis,
    is_settled: bool,
    inferences: usize,
) -> Result<Said, Fault>
    requires same { basis ≡ arc_value test.now }
    requires listable { CanBeListed (arc_value test.now) }
    requires starts { All IsStart (arc_value test.now).starts }
    requires settled { IsSettled (arc_value test.now) is_settled }
    ensures ok { IfOk result (λ said.
        Says (arc_value test.now) said.kind (string_bytes said.why) (witness_in said.witness)) }
    ensures err { IfErr result (λ f. f ≢ Memory →
        IsCandidateFault (arc_value test.now) f ⊎ ((f ≡ TooManyCandidates) × IsLeftOpen (arc_value test.now))) }
{
    let verdict = verdict(alloc, test, basis, inferences)?;
    said_of(alloc, verdict, is_settled)
}

/// No fence in any slot of the test.
fn no_fences(alloc: Global, test: &Test) -> Result<Placement, Fault>
    requires { IsBounded test.now }
    ensures ok { IfOk result (λ placement. placement ≡ no_fences test.now) }
    ensures err { IsOkUnless result Memory }
{
    let slots = slots(alloc, test)?;
    Placement::bottom(alloc, &slots)
}

/// The verdict on the test with these runs, and with no fence in any slot.
fn verdict(
    alloc: Global,
    test: &Arc<Test>,
    basis: Basis,
    inferences: usize,
) -> Result<Verdict, Fault>
    requires same { basis ≡ arc_value test.now }
    requires listable { CanBeListed (arc_value test.now) }
    requires starts { All IsStart (arc_value test.now).starts }
    ensures ok { IfOk result (IsVerdict (arc_value test.now) (no_fences (arc_value test.now))) }
    ensures err { IfErr result (λ f. f ≢ Memory → IsCandidateFault (arc_value test.now) f) }
{
    let placement = no_fences(alloc, test)?;
    let problem = Problem::over(alloc, Arc::try_clone(test)?, basis, inferences)?;
    let mut judge = Judge::new(alloc, Arc::new(alloc, problem)?);
    judge.verdict(alloc, &placement, &[])
}
