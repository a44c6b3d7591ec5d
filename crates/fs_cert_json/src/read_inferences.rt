//! The inferences of a certificate, read.

ghost use Rattle.std.specs.Prelude.{◌≡◌, ℕ, List, IfOk, IfErr, IsErrOf, MatchOption, map};
ghost use Rattle.serde_json.specs.Data.{Items};
ghost use Rattle.serde_json.specs.View.{items_view, view};
ghost use Rattle.fs_cert_evidence.specs.Inferences.{inference_of};
ghost use Rattle.fs_cert_evidence.specs.Certificate as said;
ghost use Rattle.fs_cert_evidence.specs.CertificateFile.{IsInference, IsLink};
ghost use Rattle.fs_cert_evidence.specs.WitnessFile.{IsArrayOf, IsInRange};
ghost use Rattle.fs_cert_json.specs.Kept.{IsCertificateFault};
ghost use Rattle.fs_cert_json.specs.inner.Operands.{HasLetter, IsLinkInRange};

use crate::operands::inference_in;
use crate::read_cycles::{link_in, link_values};
use fs_cert_evidence::{Inference, Link};
use fs_kinds::{Fault, List};
use serde_json::Value;
use std::alloc::Global;

/// The inferences that the value says, as in a certificate of the fourth version. F18 where it says none; or F19.
pub fn read_inferences(alloc: Global, value: &Value) -> Result<List<Inference>, Fault>
    ensures ok { IfOk result (λ kept. IsArrayOf IsInference (view value.now) (map inference_of kept)) }
    ensures bad { IsErrOf result Fault.BadCertificate → (inferences : List said.Inference)
        → ¬ IsArrayOf IsInference (view value.now) inferences }
    ensures err { IfErr result IsCertificateFault }
{
    let Some(items) = value.as_array() else {
        return Err(Fault::BadCertificate);
    };
    let mut inferences = Vec::new(alloc);
    for item in items {
        inferences.push(read_inference(alloc, item)?)?;
    }
    Ok(List::new(inferences))
}

/// The inference that the value says.
fn read_inference(alloc: Global, value: &Value) -> Result<Inference, Fault>
    ensures ok { IfOk result (λ kept. IsInference (view value.now) (inference_of kept)) }
    ensures bad { IsErrOf result Fault.BadCertificate → (inference : said.Inference)
        → ¬ IsInference (view value.now) inference }
    ensures err { IfErr result IsCertificateFault }
{
    let Some((letter, others)) = letter_in(value) else {
        return Ok(Inference::Cycle(read_links(alloc, value)?));
    };
    match inference_in(letter, others) {
        Some(inference) => Ok(inference),
        None => Err(Fault::BadCertificate),
    }
}

/// The letter that the value begins with, and the values after it.
fn letter_in(value: &Value) -> Option<(&str, &[Value])>
    ensures { MatchOption result ((letter : List ℕ) (others : Items) → ¬ HasLetter (view value.now) letter others)
        (λ parts. HasLetter (view value.now) parts.0.now (items_view parts.1.now)) }
{
    let (first, others) = value.as_array()?.split_first()?;
    Some((first.as_str()?, others))
}

/// The links of the cycle that the value says, with all names in range.
fn read_links(alloc: Global, value: &Value) -> Result<List<Link>, Fault>
    ensures ok { IfOk result (λ links. IsInference (view value.now) (said.Cycle links)) }
    ensures bad { IsErrOf result Fault.BadCertificate → (links : List said.Link)
        → ¬ IsInference (view value.now) (said.Cycle links) }
    ensures err { IfErr result IsCertificateFault }
{
    let Some(items) = link_values(value) else {
        return Err(Fault::BadCertificate);
    };
    let mut links = Vec::new(alloc);
    for item in items {
        let Some(link) = whole_link_in(item) else {
            return Err(Fault::BadCertificate);
        };
        links.push(link)?;
    }
    Ok(List::new(links))
}

/// The link that the value says, with its name in range.
fn whole_link_in(value: &Value) -> Option<Link>
    ensures { MatchOption result ((link : said.Link) → ¬ IsLinkInRange (view value.now) link)
        (λ link. IsLinkInRange (view value.now) link) }
{
    let link = link_in(value)?;
    Some(Link {
        operation: link.operation?,
        cause: link.cause,
    })
}
