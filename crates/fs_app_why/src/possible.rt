//! Executions of a test that show its outcome.

ghost use Rattle.std.specs.Prelude.{◌≡◌, ◌≢◌, IfOk, IfErr, IfSome, IfNone, IsOkUnless, string_bytes};
ghost use Rattle.fs_kinds.specs.declared.fault.Fault.TheVariants.{Memory};
ghost use Rattle.fs_model.specs.Allows.{no_fences, full_fences};
ghost use Rattle.fs_model.specs.Test.{IsBounded, IsTest};
ghost use Rattle.fs_model.specs.Witness.{Witness};
ghost use Rattle.fs_cert_evidence.specs.Shown.{IsShownBy};
ghost use Rattle.fs_cert_evidence.specs.WitnessFile.{KeepsWitness};
ghost use Rattle.fs_litmus.specs.Faults.{IsTestFault};
ghost use Rattle.fs_report.specs.Given.{given};
ghost use Rattle.fs_app_why.specs.inner.Told.{TellsExecution};
ghost use Rattle.fs_app_why.specs.Why.{IsAllowedWhy, IsNoneWhy, IsNotShown};

use crate::order::{lines_of, told_below};
use crate::shown::{file_of, nearer};
use fs_cert_evidence::{Choices, WitnessFile};
use fs_kinds::{Fault, List, OperationName, Placement};
use fs_litmus::{Test, read_test, slots};
use std::alloc::Global;

/// No fence in any slot of the test. The error is F19.
pub fn no_fences(alloc: Global, test: &Test) -> Result<Placement, Fault>
    requires { IsBounded test.now }
    ensures ok { IfOk result (λ placement. placement ≡ no_fences test.now) }
    ensures err { IsOkUnless result Memory }
{
    let slots = slots(alloc, test)?;
    Placement::bottom(alloc, &slots)
}

/// `rw,rw` in every slot of the test.
fn full_fences(alloc: Global, test: &Test) -> Result<Placement, Fault>
    requires { IsBounded test.now }
    ensures ok { IfOk result (λ placement. placement ≡ full_fences test.now) }
    ensures err { IsOkUnless result Memory }
{
    let slots = slots(alloc, test)?;
    Placement::top(alloc, &slots)
}

/// The execution that the witness gives, below this heading, if it shows the outcome with these fences. In its order
/// there may be more of program order. None where it gives no such execution. The error is F19. The cost is at most
/// quartic in the operations.
pub fn told(
    alloc: Global,
    heading: &str,
    test: &Test,
    lines: &[List<usize>],
    placement: &Placement,
    file: &WitnessFile,
) -> Result<Option<String>, Fault>
    requires { IsTest test.now }
    ensures some { (w : Witness) → KeepsWitness file.now w → IfOk result (λ told. IfSome told (λ text.
        TellsExecution test.now placement.now lines.now heading.now w (string_bytes text))) }
    ensures none { (w : Witness) → KeepsWitness file.now w → IfOk result (λ told.
        IfNone told (IsShownBy test.now placement.now w → ⊥)) }
    ensures err { IsOkUnless result Memory }
{
    match nearer(alloc, test, placement, None, file)? {
        Some(ordered) => Ok(Some(told_below(alloc, heading, test, lines, &ordered)?)),
        None => Ok(None),
    }
}

/// What is told of a test that allows its outcome as it is written: an execution that shows it, in the order of memory.
/// It is the one that is given by the choices of each hart and its order; or one of the same runs, sources and
/// coherence orders, with more of program order where that can be kept. None where these give no such execution. The
/// faults are those of `read_test`. The cost is at most quartic in the operations.
pub fn why_allowed(
    alloc: Global,
    test: &[u8],
    choices: &[Choices],
    order: &[OperationName],
) -> Result<Option<String>, Fault>
    ensures some { IfOk result (λ found. IfSome found (λ text.
        IsAllowedWhy test.now (given choices.now order.now) (string_bytes text))) }
    ensures none { IfOk result (λ found.
        IfNone found (IsNotShown no_fences test.now (given choices.now order.now))) }
    ensures fault { IfErr result (λ f. f ≢ Memory → IsTestFault test.now f) }
{
    let read = read_test(alloc, test)?;
    let lines = lines_of(alloc, test)?;
    let placement = no_fences(alloc, &read)?;
    let file = file_of(alloc, choices, order)?;
    let heading = "\nThe outcome can be, in the order of memory:\n";
    told(alloc, heading, &read, &lines, &placement, &file)
}

/// The same with `rw,rw` in every slot, of the execution that the witness gives.
pub(crate) fn why_none(
    alloc: Global,
    test: &[u8],
    file: &WitnessFile,
) -> Result<Option<String>, Fault>
    ensures some { (w : Witness) → KeepsWitness file.now w → IfOk result (λ found.
        IfSome found (λ text. IsNoneWhy test.now w (string_bytes text))) }
    ensures none { (w : Witness) → KeepsWitness file.now w → IfOk result (λ found.
        IfNone found (IsNotShown full_fences test.now w)) }
    ensures fault { IfErr result (λ f. f ≢ Memory → IsTestFault test.now f) }
{
    let read = read_test(alloc, test)?;
    let lines = lines_of(alloc, test)?;
    let placement = full_fences(alloc, &read)?;
    let heading =
        "\nThe outcome can be whatever fences are placed. With rw,rw at every slot, in the order of memory:\n";
    told(alloc, heading, &read, &lines, &placement, file)
}
