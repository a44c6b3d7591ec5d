//! The JSON text of a certificate.

ghost use Rattle.std.specs.Prelude.{◌≡◌, IfOk, map, string_bytes};
ghost use Rattle.serde_json.specs.Data.{string};
ghost use Rattle.serde_json.specs.View.{view};
ghost use Rattle.fs_cert_evidence.specs.Certificate as said;
ghost use Rattle.fs_cert_evidence.specs.CertificateFile.{CanBeSaid, IsCertificateFile, version_number};
ghost use Rattle.fs_cert_evidence.specs.Texts.{answer_value, array_of, certificate_text, certificate_value};
ghost use Rattle.fs_cert_json.specs.Kept.{AreInRange, KeepsCertificate, answer_of, version_of};
ghost use Rattle.fs_cert_json.specs.inner.Written.{WritesShown, certificate_object};

use crate::certificate::{Certificate, CertifiedAnswer, CertifiedCycles, Version};
use crate::write_cycles::listed_value;
use crate::write_inferences::inferences_value;
use crate::write_tree::tree_value;
use crate::write_witnesses::witnesses_value;
use serde_json::{Value, json};
use std::alloc::{AllocError, Global};

impl Certificate {
    /// The certificate's JSON text: compact, with the keys in the order of their bytes. An operation that is none,
    /// since its name is of no operation, is written as `null`, and such a text is no certificate. The error is want of
    /// memory.
    pub fn to_text(&self, alloc: Global) -> Result<String, AllocError>
        ensures text { IfOk result (λ text. (c : said.Certificate) → KeepsCertificate self.now c → AreInRange c
            → string_bytes text ≡ certificate_text c) }
        // The file that has this text says that certificate.
        ensures file { IfOk result (λ text. (c : said.Certificate) → KeepsCertificate self.now c → AreInRange c
            → CanBeSaid c
            → IsCertificateFile (string_bytes text) c) }
    {
        let value = certificate_value(alloc, self)?;
        value.to_string(alloc)
    }
}

/// The JSON object of the certificate.
fn certificate_value(alloc: Global, certificate: &Certificate) -> Result<Value, AllocError>
    ensures { IfOk result (λ value. (c : said.Certificate) → KeepsCertificate certificate.now c → AreInRange c
        → view value ≡ certificate_value c) }
{
    let answer = answer_value(alloc, &certificate.answer)?;
    let cycles = cycles_value(alloc, &certificate.cycles)?;
    let tree = tree_value(alloc, certificate.tree.as_slice())?;
    let version = version_number(certificate.version);
    let witnesses = witnesses_value(alloc, certificate.witnesses.as_slice())?;
    certificate_object(alloc, answer, cycles, tree, version, witnesses)
}

/// The JSON object with these values at the keys of a certificate.
fn certificate_object(
    alloc: Global,
    answer: Value,
    cycles: Value,
    tree: Value,
    version: u64,
    witnesses: Value,
) -> Result<Value, AllocError>
    ensures { IfOk result (λ value. view value
        ≡ certificate_object (view answer) (view cycles) (view tree) version (view witnesses)) }
{
    json!(in alloc; {
        "answer": answer,
        "cycles": cycles,
        "tree": tree,
        "version": version,
        "witnesses": witnesses
    })
}

/// The version's number.
fn version_number(version: Version) -> u64
    ensures { result ≡ version_number (version_of version) }
{
    match version {
        Version::First => 1,
        Version::Second => 2,
        Version::Fourth => 4,
    }
}

/// The JSON array of what is to show that the answer forbids the outcome.
fn cycles_value(alloc: Global, cycles: &CertifiedCycles) -> Result<Value, AllocError>
    ensures { IfOk result (λ value. WritesShown (view value) cycles.now) }
{
    match cycles {
        CertifiedCycles::Listed(cycles) => listed_value(alloc, cycles.as_slice()),
        CertifiedCycles::Inferred(inferences) => inferences_value(alloc, inferences.as_slice()),
    }
}

/// The JSON value of the answer.
fn answer_value(alloc: Global, answer: &CertifiedAnswer) -> Result<Value, AllocError>
    ensures { IfOk result (λ value. view value ≡ answer_value (answer_of answer.now)) }
{
    match answer {
        CertifiedAnswer::Fenced { cost, fences } => fenced_value(alloc, *cost, fences.as_slice()),
        CertifiedAnswer::NoneForbids => json!(in alloc; "none"),
    }
}

/// The JSON object of an answer of fences.
fn fenced_value(alloc: Global, cost: u64, fences: &[String]) -> Result<Value, AllocError>
    ensures { IfOk result (λ value. view value ≡ answer_value (said.Fenced cost (map string_bytes fences.now))) }
{
    let fences = texts_value(alloc, fences)?;
    json!(in alloc; {"cost": cost, "fences": fences})
}

/// The JSON array of the texts.
fn texts_value(alloc: Global, texts: &[String]) -> Result<Value, AllocError>
    ensures { IfOk result (λ value. view value ≡ array_of (map (λ text. string text) (map string_bytes texts.now))) }
{
    let mut values = Vec::new(alloc);
    for text in texts {
        values.push(text_value(alloc, text.as_str())?)?;
    }
    Ok(Value::from(values))
}

/// The JSON text.
fn text_value(alloc: Global, text: &str) -> Result<Value, AllocError>
    ensures { IfOk result (λ value. view value ≡ string text.now) }
{
    Ok(Value::from(String::from_str(alloc, text)?))
}
