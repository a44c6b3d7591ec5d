//! A certificate, read.

ghost use Rattle.std.specs.Prelude.{◌≡◌, List, IfOk, IfErr, IsErrOf, MatchOption};
ghost use Rattle.std.specs.List.{AllZip};
ghost use Rattle.serde_json.specs.Data.{Data};
ghost use Rattle.serde_json.specs.View.{view};
ghost use Rattle.fs_model.specs.Witness.{Witness};
ghost use Rattle.fs_cert_evidence.specs.Certificate as said;
ghost use Rattle.fs_cert_evidence.specs.CertificateFile.{AreCycles, IsCertificateFile, IsCertificateValue};
ghost use Rattle.fs_cert_evidence.specs.WitnessFile.{IsArrayOf, IsWitnessValue, KeepsWitness};
ghost use Rattle.fs_cert_json.specs.Kept.{IsCertificateFault, KeepsCertificate, KeepsCycles, version_of};
ghost use Rattle.fs_cert_json.specs.inner.Sections.{HasSections};

use crate::certificate::{Certificate, CertifiedCycles, Version};
use crate::json_values::{key_count, read_json};
use crate::read_answer::read_answer;
use crate::read_cycles::read_listed;
use crate::read_inferences::read_inferences;
use crate::read_tree::{read_tree, version_in};
use fs_cert_evidence::{WitnessFile, witness_of};
use fs_kinds::{Fault, List};
use serde_json::Value;
use std::alloc::Global;

impl Certificate {
    /// Reads a certificate from the bytes of its file, a JSON object with the five keys `answer`, `cycles`, `tree`,
    /// `version` and `witnesses`. Whether what it says is right is no matter here. F18 where the bytes aren't such an
    /// object, F19. Where a key comes twice, its last value counts. Memory is linear in the bytes, and so is time but
    /// for objects of many keys, which are sorted.
    pub fn from_bytes(alloc: Global, bytes: &[u8]) -> Result<Certificate, Fault>
        ensures ok { IfOk result (λ kept. (c : said.Certificate) × IsCertificateFile bytes.now c
            × KeepsCertificate kept c) }
        ensures bad { IsErrOf result Fault.BadCertificate → (c : said.Certificate) → ¬ IsCertificateFile bytes.now c }
        ensures err { IfErr result IsCertificateFault }
    {
        let value = read_json(alloc, bytes)?;
        read_certificate(alloc, &value)
    }
}

/// The certificate that the value says.
fn read_certificate(alloc: Global, value: &Value) -> Result<Certificate, Fault>
    ensures ok { IfOk result (λ kept. (c : said.Certificate) × IsCertificateValue (view value.now) c
        × KeepsCertificate kept c) }
    ensures bad { IsErrOf result Fault.BadCertificate → (c : said.Certificate)
        → ¬ IsCertificateValue (view value.now) c }
    ensures err { IfErr result IsCertificateFault }
{
    let Some(sections) = sections_of(value) else {
        return Err(Fault::BadCertificate);
    };
    let Some(version) = version_in(sections.version) else {
        return Err(Fault::BadCertificate);
    };
    Ok(Certificate {
        version,
        answer: read_answer(alloc, sections.answer)?,
        cycles: read_cycles(alloc, version, sections.cycles)?,
        tree: read_tree(alloc, version, sections.tree)?,
        witnesses: read_witnesses(alloc, sections.witnesses)?,
    })
}

/// The values at the keys of a certificate.
#[derive(Clone, Copy)]
struct Sections<'a> {
    answer: &'a Value,
    cycles: &'a Value,
    tree: &'a Value,
    version: &'a Value,
    witnesses: &'a Value,
}

/// The values at the five keys, where the value is an object with these and no further one.
fn sections_of(value: &Value) -> Option<Sections<'_>>
    ensures { MatchOption result ((a c t v w : Data) → ¬ HasSections (view value.now) a c t v w)
        (λ s. HasSections (view value.now) (view s.answer.now) (view s.cycles.now) (view s.tree.now) (view s.version.now)
        (view s.witnesses.now)) }
{
    if key_count(value) != Some(5) {
        return None;
    }
    Some(Sections {
        answer: value.get("answer")?,
        cycles: value.get("cycles")?,
        tree: value.get("tree")?,
        version: value.get("version")?,
        witnesses: value.get("witnesses")?,
    })
}

/// The cycles that the value says, or the inferences, in a certificate of this version.
fn read_cycles(alloc: Global, version: Version, value: &Value) -> Result<CertifiedCycles, Fault>
    ensures ok { IfOk result (λ kept. (cycles : said.Cycles) × AreCycles (version_of version) (view value.now) cycles
        × KeepsCycles kept cycles) }
    ensures bad { IsErrOf result Fault.BadCertificate → (cycles : said.Cycles)
        → ¬ AreCycles (version_of version) (view value.now) cycles }
    ensures err { IfErr result IsCertificateFault }
{
    match version {
        Version::First | Version::Second => Ok(CertifiedCycles::Listed(read_listed(alloc, value)?)),
        Version::Fourth => Ok(CertifiedCycles::Inferred(read_inferences(alloc, value)?)),
    }
}

/// The witnesses that the value says.
fn read_witnesses(alloc: Global, value: &Value) -> Result<List<WitnessFile>, Fault>
    ensures ok { IfOk result (λ kept. (ws : List Witness) × IsArrayOf IsWitnessValue (view value.now) ws
        × AllZip KeepsWitness kept ws) }
    ensures bad { IsErrOf result Fault.BadCertificate → (ws : List Witness)
        → ¬ IsArrayOf IsWitnessValue (view value.now) ws }
    ensures err { IfErr result IsCertificateFault }
{
    let Some(items) = value.as_array() else {
        return Err(Fault::BadCertificate);
    };
    let mut witnesses = Vec::new(alloc);
    for item in items {
        witnesses.push(read_witness(alloc, item)?)?;
    }
    Ok(List::new(witnesses))
}

/// The witness that the value says.
fn read_witness(alloc: Global, value: &Value) -> Result<WitnessFile, Fault>
    ensures ok { IfOk result (λ kept. (w : Witness) × IsWitnessValue (view value.now) w × KeepsWitness kept w) }
    ensures bad { IsErrOf result Fault.BadCertificate → (w : Witness) → ¬ IsWitnessValue (view value.now) w }
    ensures err { IfErr result IsCertificateFault }
{
    match witness_of(alloc, value) {
        Ok(witness) => Ok(witness),
        Err(fault) => Err(certificate_fault(fault)),
    }
}

/// The certificate's fault for one of a witness's.
fn certificate_fault(fault: Fault) -> Fault
    ensures bad { fault ≡ Fault.BadWitness → result ≡ Fault.BadCertificate }
    ensures memory { fault ≡ Fault.Memory → result ≡ Fault.Memory }
{
    match fault {
        Fault::Memory => Fault::Memory,
        _ => Fault::BadCertificate,
    }
}
