//! What is said of a certificate that answers a placement.

ghost use Rattle.std.specs.Prelude.{◌≡◌, [], ◌∷◌, All, map, string_bytes, IfOk, IsOkUnless};
ghost use Rattle.fs_kinds.specs.declared.fault.Fault.TheVariants.{Memory};
ghost use Rattle.fs_board_offers.specs.Offers.{Offers as OffersValue, slots};
ghost use Rattle.fs_board_offers.specs.Parts.{undecided};
ghost use Rattle.fs_board_offers.specs.Valid.{IsAnswered};
ghost use Rattle.fs_model.specs.declared.test.Test.{Test as Tests};
ghost use Rattle.fs_model.specs.Test.{IsBounded, IsStart};
ghost use Rattle.fs_model.specs.Slots as its;
ghost use Rattle.fs_cert_evidence.specs.Certificate.{Certificate as Said, Fenced};
ghost use Rattle.fs_cert_json.specs.Kept.{KeepsCertificate};
ghost use Rattle.fs_check_certificate.specs.Held.{test_in, HasListing, Holds};
ghost use Rattle.fs_check_certificate.specs.inner.Judgements.{IsPlacedVerdict, IsJudgement};
ghost use Rattle.fs_check_certificate.specs.inner.Walks.{IsWalked};

use crate::Held;
use crate::answer::answered_placement;
use crate::breaking::all_breaks;
use crate::tree::Grounds;
use crate::witness::shown_widths;
use fs_board_offers::Offers;
use fs_cert_json::Certificate;
use fs_kinds::{Fault, Placement, Reason};
use fs_model::Test;
use std::alloc::Global;

/// The answer of a valid certificate, a placement or none; or the first reason against one that isn't.
pub(crate) type Judgement = Result<Option<Placement>, Reason>;

/// The first reason against the tree of a certificate that answers this placement.
fn first_bad_item(
    alloc: Global,
    test: &Test,
    offers: &Offers,
    placement: &Placement,
    certificate: &Certificate,
) -> Result<Option<Reason>, Fault>
    requires test { IsBounded test.now }
    requires starts { All IsStart test.now.starts }
    requires slots { slots offers.now ≡ its.slots test.now }
    ensures ok { (c : Said) → KeepsCertificate certificate.now c
        → IfOk result (IsWalked test.now offers.now c placement.now (undecided offers.now ∷ []) c.tree) }
    ensures err { IsOkUnless result Memory }
{
    let slots = fs_model::slots(alloc, test)?;
    let shown = shown_widths(alloc, test, &certificate.witnesses)?;
    let breaks = all_breaks(alloc, offers, &slots, &shown)?;
    let grounds = Grounds {
        version: certificate.version,
        offers,
        slots: &slots,
        answer: placement.as_slice(),
        shown: &shown,
        breaks: &breaks,
    };
    Ok(grounds.first_failing(alloc, &certificate.tree)?)
}

/// The first reason against the cycles of a certificate that answers this placement, or else against its tree.
fn first_failure(
    alloc: Global,
    held: &Held<'_>,
    offers: &Offers,
    placement: &Placement,
    certificate: &Certificate,
) -> Result<Option<Reason>, Fault>
    requires test { IsBounded (test_in held.now) }
    requires starts { All IsStart (test_in held.now).starts }
    requires slots { slots offers.now ≡ its.slots (test_in held.now) }
    requires listing { HasListing held.now }
    ensures ok { (c : Said) → KeepsCertificate certificate.now c → Holds held.now c.cycles
        → IfOk result (IsPlacedVerdict (test_in held.now) offers.now c placement.now) }
    ensures err { IsOkUnless result Memory }
{
    let reason = held.first_reason(alloc, placement)?;
    if reason.is_some() {
        return Ok(reason);
    }
    first_bad_item(alloc, held.test(), offers, placement, certificate)
}

/// What is said of a certificate that answers the placement, where this is the first reason against its cycles and its
/// tree.
fn judgement_of(placement: Placement, failure: Option<Reason>) -> Judgement
    ensures { (t : Tests) (offers : OffersValue) (c : Said) → IsAnswered offers c.answer placement
        → IsPlacedVerdict t offers c placement failure → IsJudgement t offers c result }
{
    match failure {
        Some(reason) => Err(reason),
        None => Ok(Some(placement)),
    }
}

/// What is said of a certificate whose answer is the fences of these words at this cost, where these are its cycles.
/// The cost: that of `first_reason`; for each witness that of `check_order` and of its widths, and the slots times the
/// kinds; and for each item of the tree the slots times the kinds where it is a split, and else the slots times the
/// witnesses that it names. The error is `Memory`.
pub(crate) fn judge_fenced(
    alloc: Global,
    held: &Held<'_>,
    offers: &Offers,
    certificate: &Certificate,
    cost: u64,
    fences: &[String],
) -> Result<Judgement, Fault>
    requires test { IsBounded (test_in held.now) }
    requires starts { All IsStart (test_in held.now).starts }
    requires slots { slots offers.now ≡ its.slots (test_in held.now) }
    requires listing { HasListing held.now }
    ensures ok { (c : Said) → KeepsCertificate certificate.now c → Holds held.now c.cycles
        → c.answer ≡ Fenced cost (map string_bytes fences.now)
        → IfOk result (IsJudgement (test_in held.now) offers.now c) }
    ensures err { IsOkUnless result Memory }
{
    let Some(placement) = answered_placement(alloc, offers, cost, fences)? else {
        return Ok(Err(Reason::Answer));
    };
    let failure = first_failure(alloc, held, offers, &placement, certificate)?;
    Ok(judgement_of(placement, failure))
}
