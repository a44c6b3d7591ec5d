//! The picture of an execution to which `order` says yes.

ghost use Rattle.std.specs.Prelude.{IfErr, IfOk, IsOkUnless, map, string_bytes};
ghost use Rattle.fs_kinds.specs.declared.fault.Fault.TheVariants.{Memory};
ghost use Rattle.fs_model.specs.Test.{IsTest};
ghost use Rattle.fs_model.specs.Witness.{Witness};
ghost use Rattle.fs_cert_evidence.specs.Shown.{IsShownBy, ShowsAs};
ghost use Rattle.fs_cert_evidence.specs.WitnessFile.{KeepsWitness};
ghost use Rattle.fs_app_place_and_order.specs.Order.{IsFirstOrderFault};
ghost use Rattle.fs_app_dot.specs.Executions.{AreOfOrder, IsListOf, IsOneOf, execution_name, execution_title};

use crate::executions::{drawn, execution_title};
use crate::picture::{Page, Picture, listed};
use fs_app_why::lines_of;
use fs_cert_evidence::{WitnessFile, read_witness};
use fs_check::shown_by;
use fs_kinds::{Fault, Placement};
use fs_litmus::{read_fences, read_test};
use std::alloc::Global;

/// The execution that the witness gives, if it shows the outcome with these fences.
fn given_picture(
    alloc: Global,
    page: Page<'_>,
    placement: &Placement,
    file: &WitnessFile,
) -> Result<Option<Picture>, Fault>
    requires { IsTest page.test.now }
    ensures shown { (w : Witness) → KeepsWitness file.now w → IfOk result (IsOneOf
        (ShowsAs page.entry.test.now placement.now w) (IsShownBy page.entry.test.now placement.now w → ⊥) execution_name
        page.entry.title.now) }
    ensures err { IsOkUnless result Memory }
{
    match shown_by(alloc, page.test, placement, file)? {
        Some(shown) => {
            let picture = drawn(alloc, page, placement, "execution", &shown)?;
            Ok(Some(picture))
        }
        None => Ok(None),
    }
}

/// The same in a list, below a title that says so.
fn given_pictures(
    alloc: Global,
    page: Page<'_>,
    placement: &Placement,
    file: &WitnessFile,
) -> Result<Vec<Picture>, Fault>
    requires { IsTest page.test.now }
    ensures shown { (w : Witness) → KeepsWitness file.now w → IfOk result (λ pictures. IsListOf (IsOneOf
        (ShowsAs page.entry.test.now placement.now w) (IsShownBy page.entry.test.now placement.now w → ⊥) execution_name
        (execution_title page.entry.title.now)) pictures.items) }
    ensures err { IsOkUnless result Memory }
{
    let title = execution_title(alloc, page.title)?;
    let page = Page {
        title: title.as_str(),
        test: page.test,
        lines: page.lines,
    };
    let found = given_picture(alloc, page, placement, file)?;
    let pictures = listed(alloc, found)?;
    Ok(pictures)
}

/// The picture of a yes of `order`, of the same files and words, by the name `execution`: of the execution that the
/// witness gives. None where the verdict is a no. The faults are those of `run_order` of fs_app_place_and_order. The cost
/// is that of `check_order` of fs_check and of `execution_picture`.
pub fn order_pictures(
    alloc: Global,
    title: &str,
    test: &[u8],
    witness: &[u8],
    fences: &[String],
) -> Result<Vec<Picture>, Fault>
    ensures shown { IfOk result (λ pictures.
        AreOfOrder title.now test.now witness.now (map string_bytes fences.now) pictures.items) }
    ensures fault { IfErr result (IsFirstOrderFault test.now witness.now (map string_bytes fences.now)) }
{
    let read = read_test(alloc, test)?;
    let placement = read_fences(alloc, &read, None, fences)?;
    let file = read_witness(alloc, read.codes.as_slice().len(), witness)?;
    let lines = lines_of(alloc, test)?;
    let page = Page {
        title,
        test: &read,
        lines: &lines,
    };
    given_pictures(alloc, page, &placement, &file)
}
