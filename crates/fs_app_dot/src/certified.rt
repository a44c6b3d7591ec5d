//! Pictures of the answer of a certificate.

ghost use Rattle.std.specs.Prelude.{◌≡◌, ◌≢◌, ◌⊎◌, ◌∷◌, None, List as Items, IfErr, IfOk, IsOkUnless, map};
ghost use Rattle.std.specs.Prelude.{string_bytes};
ghost use Rattle.std.specs.Arc.{arc_value};
ghost use Rattle.std.specs.List.{AllZip};
ghost use Rattle.fs_kinds.specs.declared.fault.Fault.TheVariants.{BadFence, Memory};
ghost use Rattle.fs_model.specs.declared.test.Test.{Test as Tests};
ghost use Rattle.fs_model.specs.Test.{IsTest};
ghost use Rattle.fs_model.specs.TooMany.{IsRunFault};
ghost use Rattle.fs_model.specs.Witness.{Witness};
ghost use Rattle.fs_litmus.specs.Faults.{IsTestFault};
ghost use Rattle.fs_litmus.specs.Reads.{Reads};
ghost use Rattle.fs_cert_evidence.specs.Certificate.{Certificate as Said, Cycles, NoneForbids};
ghost use Rattle.fs_cert_evidence.specs.WitnessFile.{KeepsWitness};
ghost use Rattle.fs_cert_json.specs.Kept.{KeepsCertificate, KeepsCycles};
ghost use Rattle.fs_app_place_and_order.specs.Place.{IsBadFences};
ghost use Rattle.fs_app_why.specs.Forbidden.{AreKinds};
ghost use Rattle.fs_app_why.specs.Why.{HasRunFault, IsBadAnswer, IsWhyFault, lacks_placed};
ghost use Rattle.fs_app_why.specs.declared.telling.Telling.{Telling as Tellings};
ghost use Rattle.fs_app_dot.specs.Told.{AreCertifiedPictures, AreOfAnswer, AreOfFenced, AreOfKindsAndFences};
ghost use Rattle.fs_app_dot.specs.Told.{AreOfPlaced, AreUnless};

use crate::kinds::kind_pictures;
use crate::picture::{Page, Picture};
use crate::possible::none_pictures;
use crate::without::fence_pictures;
use fs_app_why::{ChainKind, Telling, inferred_kinds, lines_of};
use fs_cert_evidence::WitnessFile;
use fs_cert_json::{Certificate, CertifiedAnswer, CertifiedCycles};
use fs_kinds::{Fault, Placement, Slot};
use fs_litmus::{Test, read_fences, read_test};
use std::alloc::Global;
use std::sync::Arc;

/// The kinds of the ends to which a certificate's inferences come; of a list of cycles there are none.
fn kinds_by(
    alloc: Global,
    test: &Arc<Test>,
    placement: &Placement,
    cycles: &CertifiedCycles,
) -> Result<Vec<ChainKind>, Fault>
    requires { IsTest (arc_value test.now) }
    ensures ok { (said : Cycles) → KeepsCycles cycles.now said
        → IfOk result (λ kinds. AreKinds (arc_value test.now) placement.now said kinds.items) }
    ensures err { IfErr result (λ f. f ≢ Memory → IsRunFault (arc_value test.now) f) }
{
    match cycles {
        CertifiedCycles::Listed(_) => Ok(Vec::new(alloc)),
        CertifiedCycles::Inferred(inferences) => {
            inferred_kinds(alloc, test, placement, inferences.as_slice())
        }
    }
}

/// Those of the kinds, and behind them those of the fences.
fn told_pictures(
    alloc: Global,
    page: Page<'_>,
    telling: Telling,
    placement: &Placement,
    files: &[WitnessFile],
    kinds: &[ChainKind],
) -> Result<Vec<Picture>, Fault>
    requires { IsTest page.test.now }
    ensures told { (ws : Items Witness) → AllZip KeepsWitness files.now ws → IfOk result (λ pictures.
        AreOfKindsAndFences page.entry.test.now page.entry.title.now telling placement.now kinds.now ws
        pictures.items) }
    ensures err { IsOkUnless result Memory }
{
    let mut pictures = kind_pictures(alloc, page, telling, kinds)?;
    let mut others = fence_pictures(alloc, page, telling, placement, files)?;
    pictures.append(&mut others)?;
    Ok(pictures)
}

/// Is a fence asked for, and none placed there?
fn lacks_placed(telling: Telling, placement: &Placement) -> bool
    ensures { result ≡ lacks_placed telling placement.now }
{
    match telling {
        Telling::One { hart, at } => match placement.get(Slot { hart, at }) {
            Some(_) => false,
            None => true,
        },
        Telling::Few | Telling::All => false,
    }
}

/// Those of these fences.
fn placed_pictures(
    alloc: Global,
    page: Page<'_>,
    test: &Arc<Test>,
    telling: Telling,
    placement: &Placement,
    certificate: &Certificate,
) -> Result<Vec<Picture>, Fault>
    requires is_test { IsTest (arc_value test.now) }
    requires same { page.test.now ≡ arc_value test.now }
    ensures told { (c : Said) → KeepsCertificate certificate.now c → IfOk result (λ pictures.
        AreUnless (lacks_placed telling placement.now) (AreOfPlaced (arc_value test.now) page.entry.title.now telling
        placement.now c.cycles c.witnesses) pictures.items) }
    ensures err { IfErr result (λ f. f ≢ Memory → IsRunFault (arc_value test.now) f) }
{
    if lacks_placed(telling, placement) {
        return Ok(Vec::new(alloc));
    }
    let kinds = kinds_by(alloc, test, placement, &certificate.cycles)?;
    let files = certificate.witnesses.as_slice();
    told_pictures(alloc, page, telling, placement, files, &kinds)
}

/// Those of the fences that these words name.
fn fenced_pictures(
    alloc: Global,
    title: &str,
    telling: Telling,
    test: &[u8],
    fences: &[String],
    certificate: &Certificate,
) -> Result<Vec<Picture>, Fault>
    ensures told { (c : Said) → KeepsCertificate certificate.now c → IfOk result (λ pictures. AreOfFenced title.now
        telling test.now (map string_bytes fences.now) c.cycles c.witnesses pictures.items) }
    ensures fault { IfErr result (λ f. f ≢ Memory → HasRunFault test.now f ⊎ (IsTestFault test.now f
        ⊎ ((f ≡ BadFence) × ((t : Tests) × Reads test.now t × IsBadFences None t (map string_bytes fences.now))))) }
{
    let read = read_test(alloc, test)?;
    let lines = lines_of(alloc, test)?;
    let placement = read_fences(alloc, &read, None, fences)?;
    let read = Arc::new(alloc, read)?;
    let page = Page {
        title,
        test: &read,
        lines: &lines,
    };
    placed_pictures(alloc, page, &read, telling, &placement, certificate)
}

/// That of the execution beside `none` that the first of the witnesses gives, if it gives one.
fn first_pictures(
    alloc: Global,
    title: &str,
    test: &[u8],
    witnesses: &[WitnessFile],
) -> Result<Vec<Picture>, Fault>
    ensures told { (telling : Tellings) (cycles : Cycles) (ws : Items Witness) → AllZip KeepsWitness witnesses.now ws
        → IfOk result (λ pictures.
        AreOfAnswer title.now telling test.now NoneForbids cycles ws pictures.items) }
    ensures fault { IfErr result (λ f. f ≢ Memory → IsTestFault test.now f) }
{
    match witnesses.first() {
        Some(file) => none_pictures(alloc, title, test, file),
        None => Ok(Vec::new(alloc)),
    }
}

/// Those of the answer that the certificate says.
fn answer_pictures(
    alloc: Global,
    title: &str,
    telling: Telling,
    test: &[u8],
    certificate: &Certificate,
) -> Result<Vec<Picture>, Fault>
    ensures told { (c : Said) → KeepsCertificate certificate.now c → IfOk result (λ pictures.
        AreOfAnswer title.now telling test.now c.answer c.cycles c.witnesses pictures.items) }
    ensures fault { (c : Said) → KeepsCertificate certificate.now c → IfErr result (λ f. f ≢ Memory
        → HasRunFault test.now f ⊎ (IsTestFault test.now f ⊎ ((f ≡ BadFence) × IsBadAnswer test.now c.answer))) }
{
    match &certificate.answer {
        CertifiedAnswer::NoneForbids => {
            first_pictures(alloc, title, test, certificate.witnesses.as_slice())
        }
        CertifiedAnswer::Fenced { fences, .. } => {
            fenced_pictures(alloc, title, telling, test, fences.as_slice(), certificate)
        }
    }
}

/// The pictures of the answer of a certificate: of what `why_certified` of fs_app_why tells of it. Of fences first each
/// kind of contradiction that is told, by the name `cycle-1`, `stale-1` or `not-atomic-1` with the kind's number there;
/// then of each fence that is told an execution without it, as `without-P0-3`, if a witness has one. Of `none` an
/// execution with `rw,rw` in every slot, by the name `execution`, if the first witness has one. The faults are
/// `BadCertificate`, those of `read_test`, `BadFence` where a word names no slot of the test, and those of
/// `Basis::new`. The cost is that of `why_certified`, and of `chain_picture` and `execution_picture` for each.
pub fn certified_pictures(
    alloc: Global,
    title: &str,
    telling: Telling,
    test: &[u8],
    certificate: &[u8],
) -> Result<Vec<Picture>, Fault>
    ensures told { IfOk result (λ pictures.
        AreCertifiedPictures title.now telling test.now certificate.now pictures.items) }
    ensures fault { IfErr result (IsWhyFault test.now certificate.now) }
{
    let certificate = Certificate::from_bytes(alloc, certificate)?;
    answer_pictures(alloc, title, telling, test, &certificate)
}
