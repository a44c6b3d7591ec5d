//! The answer of a valid certificate, in print.

ghost use Rattle.std.specs.Prelude.{◌≡◌, ◌++◌, Some, IfOk, OnOk, IsOkUnless, slice_get, string_bytes};
ghost use Rattle.std.specs.List.{flat_map};
ghost use Rattle.fs_cert_evidence.specs.CertificateFile.{cost_in};
ghost use Rattle.fs_cert_evidence.specs.Texts.{fenced_lines, none_lines};
ghost use Rattle.fs_cert_evidence.specs.declared.witness.WitnessFile.{WitnessFile as File};
ghost use Rattle.fs_cert_json.specs.Kept.{answer_of};
ghost use Rattle.fs_app_io.specs.declared.status.Status.TheVariants.{Success};
ghost use Rattle.fs_report.specs.Given.{given};
ghost use Rattle.fs_app_solve_and_check.specs.Check.{yes_line};
ghost use Rattle.fs_app_solve_and_check.specs.inner.Named.{named, given_by};
ghost use Rattle.fs_app_solve_and_check.specs.inner.Yes.{IsYesTo};

use crate::checked::Checked;
use crate::objects::{fenced_object, none_object};
use fs_app_io::{Output, Status};
use fs_cert_evidence::{ChoiceLists, WitnessFile};
use fs_cert_json::{Certificate, CertifiedAnswer};
use fs_kinds::{Fault, List, OperationName, Placement};
use fs_report::{fenced_text, none_text};
use std::alloc::{AllocError, Global};

/// The line `yes`, and below it the placement as the answer of the certificate, with the cost that it names. The error
/// is `Memory`.
pub(crate) fn fenced_answer(
    alloc: Global,
    certificate: &Certificate,
    placement: &Placement,
) -> Result<Checked, Fault>
    ensures ok { IfOk result (λ made. IsYesTo (fenced_lines (cost_in (answer_of certificate.now.answer)) placement.now)
        (string_bytes made.output.text) made.output.status (string_bytes made.object)) }
    ensures err { IsOkUnless result Fault.Memory }
{
    let cost = cost_of(&certificate.answer);
    let lines = fenced_text(alloc, placement, cost)?;
    let object = fenced_object(alloc, placement, cost)?;
    Ok(said_yes(alloc, lines.as_str(), object)?)
}

/// The line `yes`, and below it `none` and the certificate's witness. The error is `Memory`.
pub(crate) fn none_answer(alloc: Global, certificate: &Certificate) -> Result<Checked, Fault>
    ensures ok { (file : File) → slice_get certificate.now.witnesses 0 ≡ Some file
        → IfOk result (λ made. IsYesTo (none_lines (given_by file))
        (string_bytes made.output.text) made.output.status (string_bytes made.object)) }
    ensures err { IsOkUnless result Fault.Memory }
{
    match certificate.witnesses.first() {
        Some(file) => witness_answer(alloc, file),
        None => Ok(said_yes(alloc, "", String::new(alloc))?),
    }
}

/// The line `yes`, and below it `none` and this witness.
fn witness_answer(alloc: Global, file: &WitnessFile) -> Result<Checked, Fault>
    ensures ok { IfOk result (λ made. IsYesTo (none_lines (given_by file.now))
        (string_bytes made.output.text) made.output.status (string_bytes made.object)) }
    ensures err { IsOkUnless result Fault.Memory }
{
    let order = List::new(names_of(alloc, file.order.as_slice())?);
    named_answer(alloc, &file.choices, &order)
}

/// The same of a witness with these choices and this order.
fn named_answer(
    alloc: Global,
    choices: &ChoiceLists,
    order: &List<OperationName>,
) -> Result<Checked, Fault>
    ensures ok { IfOk result (λ made. IsYesTo (none_lines (given choices.now order.now))
        (string_bytes made.output.text) made.output.status (string_bytes made.object)) }
    ensures err { IsOkUnless result Fault.Memory }
{
    let lines = none_text(alloc, choices, order)?;
    let object = none_object(alloc, choices, order)?;
    Ok(said_yes(alloc, lines.as_str(), object)?)
}

/// The line `yes`, and these below it; and this object.
fn said_yes(alloc: Global, lines: &str, object: String) -> Result<Checked, AllocError>
    ensures text { IfOk result (λ made. string_bytes made.output.text ≡ yes_line ++ lines.now) }
    ensures status { IfOk result (λ made. made.output.status ≡ Success) }
    ensures object { IfOk result (λ made. string_bytes made.object ≡ string_bytes object) }
{
    let text = format!(in alloc; "yes\n{}", lines)?;
    Ok(Checked {
        output: Output {
            text,
            status: Status::Success,
        },
        object,
    })
}

/// What the answer costs, as it says.
fn cost_of(answer: &CertifiedAnswer) -> u64
    ensures { result ≡ cost_in (answer_of answer.now) }
{
    match answer {
        CertifiedAnswer::Fenced { cost, .. } => *cost,
        CertifiedAnswer::NoneForbids => 0,
    }
}

/// The names that are there.
fn names_of(
    alloc: Global,
    names: &[Option<OperationName>],
) -> Result<Vec<OperationName>, AllocError>
    ensures { IfOk result (λ kept. kept.items ≡ flat_map named names.now) }
{
    let mut kept = Vec::new(alloc);
    for name in names {
        keep_name(*name, &mut kept)?;
    }
    Ok(kept)
}

/// Appends the name, where it is there.
fn keep_name(name: Option<OperationName>, kept: &mut Vec<OperationName>) -> Result<(), AllocError>
    ensures { OnOk result (kept.new.items ≡ kept.old.items ++ named name) }
{
    if let Some(name) = name {
        kept.push(name)?;
    }
    Ok(())
}
