//! Is a certificate valid?

ghost use Rattle.std.specs.Prelude.{◌≡◌, ◌≢◌, All, IfOk, OnOk, IfErr, IsOkUnless};
ghost use Rattle.std.specs.Arc.{arc_value};
ghost use Rattle.fs_kinds.specs.declared.fault.Fault.TheVariants.{Memory};
ghost use Rattle.fs_kinds.specs.PriceTable.{PriceTable};
ghost use Rattle.fs_model.specs.declared.test.Test.{Test as Tests};
ghost use Rattle.fs_model.specs.Test.{IsBounded, IsStart};
ghost use Rattle.fs_model.specs.Slots as its;
ghost use Rattle.fs_cert_evidence.specs.CandidateFaults.{IsCyclesFault, HasNoCyclesFault};
ghost use Rattle.fs_cert_evidence.specs.Certificate.{Certificate as Said};
ghost use Rattle.fs_board_offers.specs.Offers.{slots, offers_of};
ghost use Rattle.fs_values.specs.ThinAir.{CanBeListed};
ghost use Rattle.fs_cert_json.specs.Kept.{KeepsCertificate};
ghost use Rattle.fs_check_certificate.specs.Checks.{IsCheckVerdict, IsJudged, IsCheckFault};
ghost use Rattle.fs_check_certificate.specs.Held.{test_in, HasListing, Holds};
ghost use Rattle.fs_check_certificate.specs.inner.Judgements.{IsJudgement};

use crate::fenced::{Judgement, judge_fenced};
use crate::laws::valid_is_right;
use crate::unforbidden::judge_none;
use crate::{Held, hold};
use fs_board_offers::Offers;
use fs_cert_json::{Certificate, CertifiedAnswer};
use fs_kinds::{Fault, Placement, Prices, Reason};
use fs_model::Test;
use std::alloc::Global;
use std::sync::Arc;

/// What is said of a certificate.
#[derive(Drop)]
pub enum CheckVerdict {
    /// It is valid, and so its answer is right: this placement, or none.
    Yes(Certificate, Option<Placement>),
    /// It isn't, for this reason: the first in the order of the reasons, and in the tree that of the first item that
    /// fails.
    No(Reason),
}

/// What is said of a certificate whose cycles are held.
fn judge(
    alloc: Global,
    held: &Held<'_>,
    offers: &Offers,
    certificate: &Certificate,
) -> Result<Judgement, Fault>
    requires test { IsBounded (test_in held.now) }
    requires starts { All IsStart (test_in held.now).starts }
    requires slots { slots offers.now ≡ its.slots (test_in held.now) }
    requires listing { HasListing held.now }
    ensures ok { (c : Said) → KeepsCertificate certificate.now c → Holds held.now c.cycles
        → IfOk result (IsJudgement (test_in held.now) offers.now c) }
    ensures err { IsOkUnless result Memory }
{
    match &certificate.answer {
        CertifiedAnswer::Fenced { cost, fences } => {
            judge_fenced(alloc, held, offers, certificate, *cost, fences)
        }
        CertifiedAnswer::NoneForbids => judge_none(alloc, held.test(), certificate),
    }
}

/// What is said of a certificate for the offers that the prices make, or why its cycles can't be judged.
fn judge_certificate(
    alloc: Global,
    test: Arc<Test>,
    prices: &Prices,
    certificate: &Certificate,
) -> Result<Judgement, Fault>
    requires test { IsBounded (arc_value test) }
    requires starts { All IsStart (arc_value test).starts }
    ensures ok { (c : Said) → KeepsCertificate certificate.now c
        → IfOk result (IsJudgement (arc_value test) (offers_of (arc_value test) prices.now) c) }
    ensures listable { OnOk result (CanBeListed (arc_value test)) }
    ensures clean { (c : Said) → KeepsCertificate certificate.now c
        → OnOk result (HasNoCyclesFault c.cycles (arc_value test)) }
    ensures err { (c : Said) → KeepsCertificate certificate.now c
        → IfErr result (λ f. f ≢ Memory → IsCyclesFault c.cycles (arc_value test) f) }
{
    let offers = Offers::priced(alloc, &test, prices)?;
    let held = hold(alloc, test, &certificate.cycles)?;
    judge(alloc, &held, &offers, certificate)
}

/// The verdict on a certificate of which this is said.
fn verdict_of(certificate: Certificate, judgement: Judgement) -> CheckVerdict
    ensures { (t : Tests) (prices : PriceTable) (c : Said) → CanBeListed t → KeepsCertificate certificate c
        → IsJudgement t (offers_of t prices) c judgement → IsCheckVerdict t prices c result }
{
    valid_is_right();
    match judgement {
        Ok(placement) => CheckVerdict::Yes(certificate, placement),
        Err(reason) => CheckVerdict::No(reason),
    }
}

/// The verdict on a certificate that was read, or why its cycles can't be judged.
fn check_certificate(
    alloc: Global,
    test: Arc<Test>,
    prices: &Prices,
    certificate: Certificate,
) -> Result<CheckVerdict, Fault>
    requires test { IsBounded (arc_value test) }
    requires starts { All IsStart (arc_value test).starts }
    ensures ok { (c : Said) → KeepsCertificate certificate c
        → IfOk result (IsCheckVerdict (arc_value test) prices.now c) }
    ensures clean { (c : Said) → KeepsCertificate certificate c
        → OnOk result (HasNoCyclesFault c.cycles (arc_value test)) }
    ensures err { (c : Said) → KeepsCertificate certificate c
        → IfErr result (λ f. f ≢ Memory → IsCyclesFault c.cycles (arc_value test) f) }
{
    let judgement = judge_certificate(alloc, test, prices, &certificate)?;
    Ok(verdict_of(certificate, judgement))
}

/// Whether a certificate is valid for the test and the prices, and then its answer; or the first reason why not. The
/// certificate is a file's bytes, as `Certificate::from_bytes` reads them. The test is bounded, and its harts start
/// with whole registers. The fault is `BadCertificate` where the bytes are no certificate file; else `TooManyTraces` or
/// `Astray` where the runs of the test can't be listed; else, where the certificate has a list of cycles,
/// `TooManyCandidates`; or `Memory`. Inferences need no candidates.
///
/// The cost: with a list of cycles that of listing the candidates, and for each link one test of an edge; with
/// inferences that of `Basis::new` and `reason_against` of fs_region_refutation; for each witness that of `check_order`
/// and of its widths, and the slots times the kinds; and for each item of the tree the slots times the kinds where it
/// is a split, and else the slots times the witnesses that it names. Nothing of the search is called.
pub fn check(
    alloc: Global,
    test: Arc<Test>,
    prices: &Prices,
    certificate: &[u8],
) -> Result<CheckVerdict, Fault>
    requires test { IsBounded (arc_value test) }
    requires starts { All IsStart (arc_value test).starts }
    ensures ok { IfOk result (IsJudged (arc_value test) prices.now certificate.now) }
    ensures err { IfErr result (λ f. f ≢ Memory → IsCheckFault (arc_value test) certificate.now f) }
{
    let certificate = Certificate::from_bytes(alloc, certificate)?;
    check_certificate(alloc, test, prices, certificate)
}
