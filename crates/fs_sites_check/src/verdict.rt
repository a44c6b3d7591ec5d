//! Is a certificate of a question over sites valid?

ghost use Rattle.std.specs.Prelude.{◌≡◌, ◌≢◌, All, IfOk, IfErr, map, string_bytes};
ghost use Rattle.fs_kinds.specs.declared.fault.Fault.TheVariants.{Memory, NodeLimit};
ghost use Rattle.fs_cert_evidence.specs.Certificate.{NoneForbids};
ghost use Rattle.fs_cert_json.specs.Kept.{answer_of};
ghost use Rattle.fs_sites.specs.Answers.{IsSolveFault};
ghost use Rattle.fs_sites.specs.Questions.{IsQuestion};
ghost use Rattle.fs_sites_check.specs.Valid.{IsSaid};
ghost use Rattle.fs_sites_check.specs.Verdicts.{IsPlan, IsSitesVerdict};

use crate::bars::bars_by;
use crate::certificate::{SitesCertificate, SitesWitness};
use crate::full::shown_fully;
use crate::refuted::first_unrefuted;
use crate::words::is_answered;
use fs_cert_json::CertifiedAnswer;
use fs_kinds::{Fault, Placement};
use fs_sites::{Answer, Question, first_breaking};
use std::alloc::Global;

/// Why a certificate is refused. Numbers count from 0.
#[derive(Clone, Copy)]
pub enum SitesReason {
    /// The answer isn't the first of the cheapest fences that break the executions of all witnesses, with its cost; or
    /// one of none has more or less than its witness.
    Answer,
    /// The inferences for the test of this number don't refute it under the answer, or there is no such test or list.
    Cycles { test: usize },
    /// The witness of this number shows no outcome of its test.
    Witness { index: usize },
}

/// What is said of a certificate.
#[derive(Drop)]
pub enum SitesVerdict {
    /// It is valid, and so its answer is right.
    Yes(Answer),
    /// It isn't, for this reason.
    No(SitesReason),
}

/// The first of the cheapest placements that break the executions of these witnesses; or why there is none. F16 where
/// that takes more steps than so many; else the error is F19.
fn plan(
    alloc: Global,
    question: &Question,
    witnesses: &[SitesWitness],
    most_steps: usize,
) -> Result<Result<Placement, SitesReason>, Fault>
    requires question { IsQuestion question.now }
    requires said { All IsSaid witnesses.now }
    ensures ok { IfOk result (λ found. IfOk found (IsPlan question.now witnesses.now)) }
    ensures err { IfErr result (λ f. f ≢ Memory → f ≡ NodeLimit) }
{
    let offers = &question.offers;
    let sites = offers.as_slice().len();
    let bars = match bars_by(alloc, &question.parts, sites, witnesses)? {
        Ok(bars) => bars,
        Err(index) => return Ok(Err(SitesReason::Witness { index })),
    };
    match first_breaking(alloc, offers, &bars, most_steps)? {
        Some(placement) => Ok(Ok(placement)),
        None => Ok(Err(SitesReason::Answer)),
    }
}

/// The verdict on a certificate whose witnesses have this plan.
fn judge_planned(
    alloc: Global,
    question: &Question,
    names: &[String],
    certificate: &SitesCertificate,
    placement: Placement,
) -> Result<SitesVerdict, Fault>
    requires question { IsQuestion question.now }
    requires plan { IsPlan question.now certificate.now.witnesses placement }
    ensures ok { IfOk result (IsSitesVerdict question.now (map string_bytes names.now) certificate.now) }
    ensures err { IfErr result (λ f. f ≢ Memory → IsSolveFault question.now.parts f) }
{
    let offers = &question.offers;
    if !is_answered(alloc, offers, names, &placement, &certificate.answer)? {
        return Ok(SitesVerdict::No(SitesReason::Answer));
    }
    let (tests, lists) = (question.parts.len(), certificate.cycles.len());
    if tests != lists {
        return Ok(SitesVerdict::No(SitesReason::Cycles {
            test: tests.min(lists),
        }));
    }
    match first_unrefuted(alloc, &question.parts, &placement, &certificate.cycles)? {
        Some(test) => Ok(SitesVerdict::No(SitesReason::Cycles { test })),
        None => {
            let cost = offers.cost(&placement);
            Ok(SitesVerdict::Yes(Answer::Fenced { placement, cost }))
        }
    }
}

/// The verdict on a certificate that answers fences.
fn judge_fenced(
    alloc: Global,
    question: &Question,
    names: &[String],
    certificate: &SitesCertificate,
    most_steps: usize,
) -> Result<SitesVerdict, Fault>
    requires question { IsQuestion question.now }
    requires said { All IsSaid certificate.now.witnesses }
    ensures ok { IfOk result (IsSitesVerdict question.now (map string_bytes names.now) certificate.now) }
    ensures err { IfErr result (λ f. f ≢ Memory → IsSolveFault question.now.parts f) }
{
    match plan(alloc, question, &certificate.witnesses, most_steps)? {
        Ok(placement) => judge_planned(alloc, question, names, certificate, placement),
        Err(why) => Ok(SitesVerdict::No(why)),
    }
}

/// The verdict on a certificate that answers none.
fn judge_none(
    alloc: Global,
    question: &Question,
    names: &[String],
    certificate: &SitesCertificate,
) -> Result<SitesVerdict, Fault>
    requires question { IsQuestion question.now }
    requires said { All IsSaid certificate.now.witnesses }
    requires none { answer_of certificate.now.answer ≡ NoneForbids }
    ensures ok { IfOk result (IsSitesVerdict question.now (map string_bytes names.now) certificate.now) }
    ensures err { IfErr result (λ f. f ≢ Memory → IsSolveFault question.now.parts f) }
{
    let witnesses = certificate.witnesses.as_slice();
    if !certificate.cycles.is_empty() || witnesses.len() != 1 {
        return Ok(SitesVerdict::No(SitesReason::Answer));
    }
    let said = &witnesses[0];
    let number = said.test;
    let Some(part) = question.parts.as_slice().get(number) else {
        return Ok(SitesVerdict::No(SitesReason::Witness { index: 0 }));
    };
    match shown_fully(alloc, part, &question.offers, &said.file)? {
        Some(witness) => Ok(SitesVerdict::Yes(Answer::None {
            part: number,
            witness,
        })),
        None => Ok(SitesVerdict::No(SitesReason::Witness { index: 0 })),
    }
}

/// Whether a certificate is valid for the question, whose sites have these names, and then its answer; or a reason why
/// not. No tree is read: the first of the cheapest fences that break the executions of all witnesses are looked for
/// anew, and they must be the answer. So the search is over fences and not over executions, and it ends in F16 where it
/// takes more steps than so many. F13 or F14 where the runs of a test can't be listed; else the error is F19.
///
/// The cost: for each witness that of `shown_by`, four times for each place of its test; that of `first_breaking`; and
/// for each test that of `Basis::new` and `reason_against`. Nothing of the search for fences or executions is called.
pub fn judge(
    alloc: Global,
    question: &Question,
    names: &[String],
    certificate: &SitesCertificate,
    most_steps: usize,
) -> Result<SitesVerdict, Fault>
    requires question { IsQuestion question.now }
    requires said { All IsSaid certificate.now.witnesses }
    ensures ok { IfOk result (IsSitesVerdict question.now (map string_bytes names.now) certificate.now) }
    ensures err { IfErr result (λ f. f ≢ Memory → IsSolveFault question.now.parts f) }
{
    match &certificate.answer {
        CertifiedAnswer::Fenced { .. } => {
            judge_fenced(alloc, question, names, certificate, most_steps)
        }
        CertifiedAnswer::NoneForbids => judge_none(alloc, question, names, certificate),
    }
}
