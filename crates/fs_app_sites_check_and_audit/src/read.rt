//! A certificate over sites, read.

ghost use Rattle.std.specs.Prelude.{◌≡◌, List, IfOk, IfErr, IsErrOf, MatchOption, map};
ghost use Rattle.std.specs.List.{AllZip};
ghost use Rattle.serde_json.specs.Data.{Data};
ghost use Rattle.serde_json.specs.View.{view};
ghost use Rattle.fs_cert_evidence.specs.Certificate.{Inference as Inferred};
ghost use Rattle.fs_cert_evidence.specs.CertificateFile.{IsInference};
ghost use Rattle.fs_cert_evidence.specs.Inferences.{inference_of};
ghost use Rattle.fs_cert_evidence.specs.WitnessFile.{IsArrayOf};
ghost use Rattle.fs_cert_json.specs.Kept.{IsCertificateFault};
ghost use Rattle.fs_cert_json.specs.inner.Sections.{HasSections};
ghost use Rattle.fs_app_sites_check_and_audit.specs.Kept.{KeepsSaid, KeepsTestWitness};
ghost use Rattle.fs_app_sites_check_and_audit.specs.SitesFile.{IsSitesFile, IsSitesValue, IsTestWitness, Said, TestWitness};

use crate::read_witness::read_witness;
use crate::values::{is_empty, is_fifth, key_count, read_json};
use fs_cert_evidence::Inference;
use fs_cert_json::pieces::{read_answer, read_inferences};
use fs_kinds::{Fault, List};
use fs_sites_check::{SitesCertificate, SitesWitness};
use serde_json::Value;
use std::alloc::Global;

/// Reads a certificate of the fifth version from the bytes of its file: a JSON object with the five keys `answer`,
/// `cycles`, `tree`, `version` and `witnesses`, of which `tree` is empty. Whether what it says is right is no matter
/// here. F18 where the bytes aren't such an object, F19. Where a key comes twice, its last value counts. Memory is
/// linear in the bytes, and so is time but for objects of many keys, which are sorted.
pub(crate) fn read_certificate(alloc: Global, bytes: &[u8]) -> Result<SitesCertificate, Fault>
    ensures ok { IfOk result (λ kept. (c : Said) × IsSitesFile bytes.now c × KeepsSaid kept c) }
    ensures bad { IsErrOf result Fault.BadCertificate → (c : Said) → ¬ IsSitesFile bytes.now c }
    ensures err { IfErr result IsCertificateFault }
{
    let value = read_json(alloc, bytes)?;
    certificate_in(alloc, &value)
}

/// The certificate that the value says.
fn certificate_in(alloc: Global, value: &Value) -> Result<SitesCertificate, Fault>
    ensures ok { IfOk result (λ kept. (c : Said) × IsSitesValue (view value.now) c × KeepsSaid kept c) }
    ensures bad { IsErrOf result Fault.BadCertificate → (c : Said) → ¬ IsSitesValue (view value.now) c }
    ensures err { IfErr result IsCertificateFault }
{
    let Some(sections) = sections_of(value) else {
        return Err(Fault::BadCertificate);
    };
    if !is_fifth(sections.version) {
        return Err(Fault::BadCertificate);
    }
    if !is_empty(sections.tree) {
        return Err(Fault::BadCertificate);
    }
    Ok(SitesCertificate {
        answer: read_answer(alloc, sections.answer)?,
        cycles: read_cycles(alloc, sections.cycles)?,
        witnesses: read_witnesses(alloc, sections.witnesses)?,
    })
}

/// The values at the keys of a certificate.
#[derive(Clone, Copy)]
struct Sections<'a> {
    answer: &'a Value,
    cycles: &'a Value,
    tree: &'a Value,
    version: &'a Value,
    witnesses: &'a Value,
}

/// The values at the five keys, where the value is an object with these and no further one.
fn sections_of(value: &Value) -> Option<Sections<'_>>
    ensures { MatchOption result ((a c t v w : Data) → ¬ HasSections (view value.now) a c t v w)
        (λ s. HasSections (view value.now) (view s.answer.now) (view s.cycles.now) (view s.tree.now)
        (view s.version.now) (view s.witnesses.now)) }
{
    if key_count(value) != Some(5) {
        return None;
    }
    Some(Sections {
        answer: value.get("answer")?,
        cycles: value.get("cycles")?,
        tree: value.get("tree")?,
        version: value.get("version")?,
        witnesses: value.get("witnesses")?,
    })
}

/// The inferences for each test that the value says.
fn read_cycles(alloc: Global, value: &Value) -> Result<List<List<Inference>>, Fault>
    ensures ok { IfOk result (λ kept. IsArrayOf (IsArrayOf IsInference) (view value.now)
        (map (map inference_of) kept)) }
    ensures bad { IsErrOf result Fault.BadCertificate → (cycles : List (List Inferred))
        → ¬ IsArrayOf (IsArrayOf IsInference) (view value.now) cycles }
    ensures err { IfErr result IsCertificateFault }
{
    let Some(items) = value.as_array() else {
        return Err(Fault::BadCertificate);
    };
    let mut cycles = Vec::new(alloc);
    for item in items {
        cycles.push(read_inferences(alloc, item)?)?;
    }
    Ok(List::new(cycles))
}

/// The witnesses that the value says.
fn read_witnesses(alloc: Global, value: &Value) -> Result<List<SitesWitness>, Fault>
    ensures ok { IfOk result (λ kept. (ws : List TestWitness) × IsArrayOf IsTestWitness (view value.now) ws
        × AllZip KeepsTestWitness kept ws) }
    ensures bad { IsErrOf result Fault.BadCertificate → (ws : List TestWitness)
        → ¬ IsArrayOf IsTestWitness (view value.now) ws }
    ensures err { IfErr result IsCertificateFault }
{
    let Some(items) = value.as_array() else {
        return Err(Fault::BadCertificate);
    };
    let mut witnesses = Vec::new(alloc);
    for item in items {
        witnesses.push(read_witness(alloc, item)?)?;
    }
    Ok(List::new(witnesses))
}
