//! What is said of a certificate that answers none.

ghost use Rattle.std.specs.Prelude.{◌≡◌, ◌==◌, ◌&&◌, Some, All, length, IfOk, IsOkUnless};
ghost use Rattle.fs_kinds.specs.declared.fault.Fault.TheVariants.{Memory};
ghost use Rattle.fs_board_offers.specs.Offers.{Offers};
ghost use Rattle.fs_kinds.specs.Placement.{all_with};
ghost use Rattle.fs_model.specs.Slots.{slots};
ghost use Rattle.fs_model.specs.Test.{IsBounded, IsStart};
ghost use Rattle.fs_cert_evidence.specs.Certificate.{Certificate as Said, NoneForbids};
ghost use Rattle.fs_board_offers.specs.Valid.{Refutes};
ghost use Rattle.fs_cert_json.specs.Kept.{KeepsCertificate};
ghost use Rattle.fs_check_certificate.specs.Cycles.{count_in};
ghost use Rattle.fs_check_certificate.specs.inner.Judgements.{IsJudgement};
ghost use Rattle.fs_check_certificate.specs.Leaves.{Decides};

use crate::fenced::Judgement;
use crate::refutes;
use crate::stack::undecided;
use crate::witness::shown_widths;
use fs_cert_json::{Certificate, CertifiedCycles};
use fs_kinds::{Fault, Kind, Reason};
use fs_model::{Test, slots};
use std::alloc::Global;

/// Are there no cycles, and no inferences?
fn is_empty(cycles: &CertifiedCycles) -> bool
    ensures { result ≡ (count_in cycles.now == 0) }
{
    match cycles {
        CertifiedCycles::Listed(cycles) => cycles.is_empty(),
        CertifiedCycles::Inferred(inferences) => inferences.is_empty(),
    }
}

/// Has a certificate of none its one witness and nothing else?
fn is_bare(certificate: &Certificate) -> bool
    ensures { result ≡ ((count_in certificate.now.cycles == 0 && length certificate.now.tree == 0)
        && length certificate.now.witnesses == 1) }
{
    is_empty(&certificate.cycles) && certificate.tree.is_empty() && certificate.witnesses.len() == 1
}

/// Does the first of the witnesses show the outcome with `rw,rw` in every slot?
fn refutes_all(alloc: Global, test: &Test, certificate: &Certificate) -> Result<bool, Fault>
    requires test { IsBounded test.now }
    requires starts { All IsStart test.now.starts }
    ensures ok { (c : Said) → KeepsCertificate certificate.now c
        → IfOk result (λ shown. Decides shown
        (Refutes test.now c.witnesses (all_with (Some Kind.RwRw) (slots test.now)) 0)) }
    ensures err { IsOkUnless result Memory }
{
    let slots = slots(alloc, test)?;
    let part = undecided(alloc, &slots)?;
    let shown = shown_widths(alloc, test, &certificate.witnesses)?;
    Ok(refutes(&part, &shown, 0))
}

/// What is said of a certificate whose answer is none. It costs what `check_order` costs on its witness, and what its
/// widths cost. The error is `Memory`.
pub(crate) fn judge_none(
    alloc: Global,
    test: &Test,
    certificate: &Certificate,
) -> Result<Judgement, Fault>
    requires test { IsBounded test.now }
    requires starts { All IsStart test.now.starts }
    ensures ok { (c : Said) (offers : Offers) → KeepsCertificate certificate.now c → c.answer ≡ NoneForbids
        → IfOk result (IsJudgement test.now offers c) }
    ensures err { IsOkUnless result Memory }
{
    if !is_bare(certificate) {
        return Ok(Err(Reason::Answer));
    }
    let is_shown = refutes_all(alloc, test, certificate)?;
    if is_shown {
        Ok(Ok(None))
    } else {
        Ok(Err(Reason::Witness { index: 0 }))
    }
}
