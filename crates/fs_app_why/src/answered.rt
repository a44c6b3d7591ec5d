//! What `solve --why` and `check --why` print below an answer.

ghost use Rattle.std.specs.Prelude.{◌≡◌, ◌≢◌, ◌⊎◌, ℕ, ◌∷◌, ◌++◌, List as Items, None, IfOk, IfErr, IsOkUnless, map};
ghost use Rattle.std.specs.Prelude.{string_bytes};
ghost use Rattle.std.specs.Arc.{arc_value};
ghost use Rattle.std.specs.List.{AllZip};
ghost use Rattle.fs_kinds.specs.declared.fault.Fault.TheVariants.{BadFence, Memory};
ghost use Rattle.fs_model.specs.declared.test.Test.{Test as Tests};
ghost use Rattle.fs_model.specs.Test.{IsTest};
ghost use Rattle.fs_model.specs.TooMany.{IsRunFault};
ghost use Rattle.fs_model.specs.Witness.{Witness};
ghost use Rattle.fs_litmus.specs.Faults.{IsTestFault};
ghost use Rattle.fs_litmus.specs.Reads.{Reads};
ghost use Rattle.fs_cert_evidence.specs.Certificate.{Certificate as Said, Cycles, NoneForbids};
ghost use Rattle.fs_cert_evidence.specs.WitnessFile.{KeepsWitness};
ghost use Rattle.fs_cert_json.specs.Kept.{KeepsCertificate};
ghost use Rattle.fs_app_place_and_order.specs.Place.{IsBadFences};
ghost use Rattle.fs_app_why.specs.Forbidden.{cycles_text};
ghost use Rattle.fs_app_why.specs.Why.{HasRunFault, IsBadAnswer, IsCertifiedWhy, IsWhyFault, NoWitnessShows};
ghost use Rattle.fs_app_why.specs.Why.{TellsAllFences, TellsAnswer, TellsFences, TellsPlaced, TellsUnless};
ghost use Rattle.fs_app_why.specs.Why.{lacks_placed, unplaced_text};
ghost use Rattle.fs_app_why.specs.declared.telling.Telling.{Telling as Tellings};

use crate::forbidden::{cycles_text, kinds_by};
use crate::kinds::ChainKind;
use crate::order::lines_of;
use crate::possible::why_none;
use crate::telling::Telling;
use crate::without::fences_text;
use fs_cert_evidence::WitnessFile;
use fs_cert_json::{Certificate, CertifiedAnswer};
use fs_kinds::{Fault, List, OperationName, Placement, Slot};
use fs_litmus::{Test, read_fences, read_test};
use std::alloc::{AllocError, Global};
use std::sync::Arc;

/// The execution beside `none`, if the witness gives one.
fn none_text(alloc: Global, test: &[u8], file: &WitnessFile) -> Result<String, Fault>
    ensures told { (telling : Tellings) (cycles : Cycles) (w : Witness) (ws : Items Witness) → KeepsWitness file.now w
        → IfOk result (λ text. TellsAnswer telling test.now NoneForbids cycles (w ∷ ws) (string_bytes text)) }
    ensures fault { IfErr result (λ f. f ≢ Memory → IsTestFault test.now f) }
{
    match why_none(alloc, test, file)? {
        Some(text) => Ok(text),
        None => Ok(String::new(alloc)),
    }
}

/// The execution beside `none` that the first of the witnesses gives, if it gives one.
fn first_text(alloc: Global, test: &[u8], witnesses: &[WitnessFile]) -> Result<String, Fault>
    ensures told { (telling : Tellings) (cycles : Cycles) (ws : Items Witness) → AllZip KeepsWitness witnesses.now ws
        → IfOk result (λ text. TellsAnswer telling test.now NoneForbids cycles ws (string_bytes text)) }
    ensures fault { IfErr result (λ f. f ≢ Memory → IsTestFault test.now f) }
{
    match witnesses.first() {
        Some(file) => none_text(alloc, test, file),
        None => Ok(String::new(alloc)),
    }
}

/// What is told of fences: why these rule the outcome out, and what each is for.
fn told_text(
    alloc: Global,
    test: &Test,
    lines: &[List<usize>],
    telling: Telling,
    placement: &Placement,
    certificate: &Certificate,
    kinds: &[ChainKind],
) -> Result<String, Fault>
    requires { IsTest test.now }
    ensures told { (c : Said) → KeepsCertificate certificate.now c → IfOk result (λ text. (fences : Items ℕ)
        × TellsFences test.now lines.now telling kinds.now c.witnesses (NoWitnessShows test.now c.witnesses)
        placement.now placement.now fences
        × (string_bytes text ≡ cycles_text test.now lines.now telling c.cycles kinds.now ++ fences)) }
    ensures err { IsOkUnless result Memory }
{
    let mut text = cycles_text(alloc, test, lines, telling, &certificate.cycles, kinds)?;
    let files = certificate.witnesses.as_slice();
    let fences = fences_text(alloc, test, lines, telling, kinds, placement, files)?;
    text.push_str(fences.as_str())?;
    Ok(text)
}

/// Is a fence asked for, and none placed there?
fn lacks_placed(telling: Telling, placement: &Placement) -> bool
    ensures { result ≡ lacks_placed telling placement.now }
{
    match telling {
        Telling::One { hart, at } => match placement.get(Slot { hart, at }) {
            Some(_) => false,
            None => true,
        },
        Telling::Few | Telling::All => false,
    }
}

/// That none is placed there.
fn unplaced_text(alloc: Global, telling: Telling) -> Result<String, AllocError>
    ensures { IfOk result (λ text. string_bytes text ≡ unplaced_text telling) }
{
    match telling {
        Telling::One { hart, at } => {
            let name = OperationName { hart, at };
            format!(in alloc; "\nno fence stands before {}\n", name)
        }
        Telling::Few | Telling::All => Ok(String::new(alloc)),
    }
}

/// What is told of these fences.
fn placed_text(
    alloc: Global,
    test: &Arc<Test>,
    lines: &[List<usize>],
    telling: Telling,
    placement: &Placement,
    certificate: &Certificate,
) -> Result<String, Fault>
    requires { IsTest (arc_value test.now) }
    ensures told { (c : Said) → KeepsCertificate certificate.now c → IfOk result (λ text.
        TellsUnless (lacks_placed telling placement.now) (unplaced_text telling)
        (TellsPlaced (arc_value test.now) lines.now telling placement.now c.cycles c.witnesses) (string_bytes text)) }
    ensures fault { IfErr result (λ f. f ≢ Memory → IsRunFault (arc_value test.now) f) }
{
    if lacks_placed(telling, placement) {
        let text = unplaced_text(alloc, telling)?;
        return Ok(text);
    }
    let kinds = kinds_by(alloc, test, placement, &certificate.cycles)?;
    told_text(alloc, test, lines, telling, placement, certificate, &kinds)
}

/// What is told of the fences that these words name.
fn fenced_text(
    alloc: Global,
    telling: Telling,
    test: &[u8],
    fences: &[String],
    certificate: &Certificate,
) -> Result<String, Fault>
    ensures told { (c : Said) → KeepsCertificate certificate.now c → IfOk result (λ text.
        TellsAllFences telling test.now (map string_bytes fences.now) c.cycles c.witnesses (string_bytes text)) }
    ensures fault { IfErr result (λ f. f ≢ Memory → HasRunFault test.now f ⊎ (IsTestFault test.now f
        ⊎ ((f ≡ BadFence) × ((t : Tests) × Reads test.now t × IsBadFences None t (map string_bytes fences.now))))) }
{
    let read = read_test(alloc, test)?;
    let lines = lines_of(alloc, test)?;
    let placement = read_fences(alloc, &read, None, fences)?;
    let read = Arc::new(alloc, read)?;
    placed_text(alloc, &read, &lines, telling, &placement, certificate)
}

/// What is told of the answer that the certificate says.
fn answer_text(
    alloc: Global,
    telling: Telling,
    test: &[u8],
    certificate: &Certificate,
) -> Result<String, Fault>
    ensures told { (c : Said) → KeepsCertificate certificate.now c → IfOk result (λ text.
        TellsAnswer telling test.now c.answer c.cycles c.witnesses (string_bytes text)) }
    ensures fault { (c : Said) → KeepsCertificate certificate.now c → IfErr result (λ f. f ≢ Memory
        → HasRunFault test.now f ⊎ (IsTestFault test.now f ⊎ ((f ≡ BadFence) × IsBadAnswer test.now c.answer))) }
{
    match &certificate.answer {
        CertifiedAnswer::NoneForbids => first_text(alloc, test, certificate.witnesses.as_slice()),
        CertifiedAnswer::Fenced { fences, .. } => {
            fenced_text(alloc, telling, test, fences.as_slice(), certificate)
        }
    }
}

/// What is told of the answer of a certificate. Of fences why they rule the outcome out: the ends of its refutation as
/// chains of operations, those that are the same but for the harts together, and nothing of a list of cycles; then of
/// each fence in which of these it is needed, and an execution without it, of the first witness that has one, with the
/// weaker fences that would let it through, or none where no witness has one. Of these as many are told as `telling`
/// says; where one fence is asked for, and the answer has none there, a line says so. Of `none` an execution of the
/// test with `rw,rw` in every slot, of which the first witness has the runs, sources and coherence orders, whatever is
/// asked for. The faults are `BadCertificate`, those of `read_test`, `BadFence` where a word names no slot of the test,
/// and those of `Basis::new`. The cost is that of `kinds_by` and `cycles_text`, that of `why_allowed` for each fence
/// and each witness, and linear in the certificate.
pub fn why_certified(
    alloc: Global,
    telling: Telling,
    test: &[u8],
    certificate: &[u8],
) -> Result<String, Fault>
    ensures told { IfOk result (λ text. IsCertifiedWhy telling test.now certificate.now (string_bytes text)) }
    ensures fault { IfErr result (IsWhyFault test.now certificate.now) }
{
    let certificate = Certificate::from_bytes(alloc, certificate)?;
    answer_text(alloc, telling, test, &certificate)
}
