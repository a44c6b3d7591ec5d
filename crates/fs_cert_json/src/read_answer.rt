//! The answer of a certificate, read.

ghost use Rattle.std.specs.Prelude.{◌≡◌, ℕ, List, None, IfOk, IfErr, IsErrOf, map, string_bytes};
ghost use Rattle.serde_json.specs.Find.{as_str};
ghost use Rattle.serde_json.specs.View.{view};
ghost use Rattle.fs_cert_evidence.specs.Certificate as said;
ghost use Rattle.fs_cert_evidence.specs.CertificateFile.{IsAnswerValue, IsText};
ghost use Rattle.fs_cert_evidence.specs.WitnessFile.{IsArrayOf};
ghost use Rattle.fs_cert_json.specs.Kept.{IsCertificateFault, answer_of};

use crate::certificate::CertifiedAnswer;
use crate::json_values::{key_count, number_in};
use fs_kinds::{Fault, List};
use serde_json::Value;
use std::alloc::Global;

/// The answer that the value says, as in a certificate. F18 where it says none; or F19.
pub fn read_answer(alloc: Global, value: &Value) -> Result<CertifiedAnswer, Fault>
    ensures ok { IfOk result (λ answer. IsAnswerValue (view value.now) (answer_of answer)) }
    ensures bad { IsErrOf result Fault.BadCertificate → (answer : said.Answer)
        → ¬ IsAnswerValue (view value.now) answer }
    ensures err { IfErr result IsCertificateFault }
{
    match value.as_str() {
        Some("none") => Ok(CertifiedAnswer::NoneForbids),
        Some(_) => Err(Fault::BadCertificate),
        None => read_fenced(alloc, value),
    }
}

/// The answer of fences that the value says, which is no text.
fn read_fenced(alloc: Global, value: &Value) -> Result<CertifiedAnswer, Fault>
    requires { as_str (view value.now) ≡ None }
    ensures ok { IfOk result (λ answer. IsAnswerValue (view value.now) (answer_of answer)) }
    ensures bad { IsErrOf result Fault.BadCertificate → (answer : said.Answer)
        → ¬ IsAnswerValue (view value.now) answer }
    ensures err { IfErr result IsCertificateFault }
{
    if key_count(value) != Some(2) {
        return Err(Fault::BadCertificate);
    }
    let Some(price) = value.get("cost") else {
        return Err(Fault::BadCertificate);
    };
    let Some(words) = value.get("fences") else {
        return Err(Fault::BadCertificate);
    };
    let Some(cost) = number_in(price) else {
        return Err(Fault::BadCertificate);
    };
    let fences = read_texts(alloc, words)?;
    Ok(CertifiedAnswer::Fenced { cost, fences })
}

/// The texts that the value says.
fn read_texts(alloc: Global, value: &Value) -> Result<List<String>, Fault>
    ensures ok { IfOk result (λ texts. IsArrayOf IsText (view value.now) (map string_bytes texts)) }
    ensures bad { IsErrOf result Fault.BadCertificate → (texts : List (List ℕ))
        → ¬ IsArrayOf IsText (view value.now) texts }
    ensures err { IfErr result IsCertificateFault }
{
    let Some(items) = value.as_array() else {
        return Err(Fault::BadCertificate);
    };
    let mut texts = Vec::new(alloc);
    for item in items {
        let Some(text) = item.as_str() else {
            return Err(Fault::BadCertificate);
        };
        texts.push(String::from_str(alloc, text)?)?;
    }
    Ok(List::new(texts))
}
