//! Pictures of executions that show a test's outcome.

ghost use Rattle.std.specs.Prelude.{◌≡◌, ◌≢◌, IfErr, IfOk, IsOkUnless, codes, string_bytes};
ghost use Rattle.fs_kinds.specs.declared.fault.Fault.TheVariants.{Memory};
ghost use Rattle.fs_model.specs.Allows.{full_fences, no_fences};
ghost use Rattle.fs_model.specs.Test.{IsBounded, IsTest};
ghost use Rattle.fs_model.specs.Witness.{Witness};
ghost use Rattle.fs_cert_evidence.specs.Shown.{IsShownBy};
ghost use Rattle.fs_cert_evidence.specs.WitnessFile.{KeepsWitness};
ghost use Rattle.fs_litmus.specs.Faults.{IsTestFault};
ghost use Rattle.fs_report.specs.Given.{given};
ghost use Rattle.fs_app_why.specs.Reordered.{IsToldOf};
ghost use Rattle.fs_app_dot.specs.Executions.{AreOfWitness, IsOneOf, allowed_title, execution_name, none_title};
ghost use Rattle.fs_app_dot.specs.Executions.{IsListOf};

use crate::executions::{drawn, execution_title};
use crate::picture::{Page, Picture, listed};
use fs_app_why::{file_of, lines_of, nearer, no_fences};
use fs_cert_evidence::{Choices, WitnessFile};
use fs_kinds::{Fault, OperationName, Placement};
use fs_litmus::{Test, read_test, slots};
use std::alloc::{AllocError, Global};

/// `rw,rw` in every slot of the test.
fn full_fences(alloc: Global, test: &Test) -> Result<Placement, Fault>
    requires { IsBounded test.now }
    ensures ok { IfOk result (λ placement. placement ≡ full_fences test.now) }
    ensures err { IsOkUnless result Memory }
{
    let slots = slots(alloc, test)?;
    Placement::top(alloc, &slots)
}

/// The execution of the witness with these fences, if it shows the outcome.
fn witness_picture(
    alloc: Global,
    page: Page<'_>,
    placement: &Placement,
    file: &WitnessFile,
) -> Result<Option<Picture>, Fault>
    requires { IsTest page.test.now }
    ensures shown { (w : Witness) → KeepsWitness file.now w → IfOk result (IsOneOf
        (IsToldOf page.entry.test.now placement.now w) (IsShownBy page.entry.test.now placement.now w → ⊥)
        execution_name page.entry.title.now) }
    ensures err { IsOkUnless result Memory }
{
    match nearer(alloc, page.test, placement, None, file)? {
        Some(ordered) => {
            let picture = drawn(alloc, page, placement, "execution", &ordered)?;
            Ok(Some(picture))
        }
        None => Ok(None),
    }
}

/// The same in a list.
fn witness_pictures(
    alloc: Global,
    page: Page<'_>,
    placement: &Placement,
    file: &WitnessFile,
) -> Result<Vec<Picture>, Fault>
    requires { IsTest page.test.now }
    ensures shown { (w : Witness) → KeepsWitness file.now w → IfOk result (λ pictures. IsListOf (IsOneOf
        (IsToldOf page.entry.test.now placement.now w) (IsShownBy page.entry.test.now placement.now w → ⊥)
        execution_name page.entry.title.now) pictures.items) }
    ensures err { IsOkUnless result Memory }
{
    let found = witness_picture(alloc, page, placement, file)?;
    let pictures = listed(alloc, found)?;
    Ok(pictures)
}

/// The picture of a test that allows its outcome as it is written, by the name `execution`: of the execution that
/// `why_allowed` of fs_app_why tells. None where the choices and the order give no such execution. The faults are
/// those of `read_test`. The cost is that of `nearer` and of `execution_picture`.
pub fn allowed_pictures(
    alloc: Global,
    title: &str,
    test: &[u8],
    choices: &[Choices],
    order: &[OperationName],
) -> Result<Vec<Picture>, Fault>
    ensures shown { IfOk result (λ pictures. AreOfWitness no_fences (allowed_title title.now) test.now
        (given choices.now order.now) pictures.items) }
    ensures fault { IfErr result (λ f. f ≢ Memory → IsTestFault test.now f) }
{
    let read = read_test(alloc, test)?;
    let lines = lines_of(alloc, test)?;
    let placement = no_fences(alloc, &read)?;
    let file = file_of(alloc, choices, order)?;
    let title = execution_title(alloc, title)?;
    let page = Page {
        title: title.as_str(),
        test: &read,
        lines: &lines,
    };
    witness_pictures(alloc, page, &placement, &file)
}

/// The title of an execution with `rw,rw` in every slot.
fn none_title(alloc: Global, title: &str) -> Result<String, AllocError>
    ensures { IfOk result (λ text. string_bytes text ≡ none_title title.now) }
{
    format!(in alloc; "{} with rw,rw in every slot", title)
}

/// The same with `rw,rw` in every slot, of the execution that the witness gives.
pub(crate) fn none_pictures(
    alloc: Global,
    title: &str,
    test: &[u8],
    file: &WitnessFile,
) -> Result<Vec<Picture>, Fault>
    ensures shown { (w : Witness) → KeepsWitness file.now w → IfOk result (λ pictures.
        AreOfWitness full_fences (none_title title.now) test.now w pictures.items) }
    ensures fault { IfErr result (λ f. f ≢ Memory → IsTestFault test.now f) }
{
    let read = read_test(alloc, test)?;
    let lines = lines_of(alloc, test)?;
    let placement = full_fences(alloc, &read)?;
    let title = none_title(alloc, title)?;
    let page = Page {
        title: title.as_str(),
        test: &read,
        lines: &lines,
    };
    witness_pictures(alloc, page, &placement, file)
}
