//! The cycles of a certificate, read.

ghost use Rattle.std.specs.Prelude.{◌≡◌, List, IfOk, IfErr, IsErrOf, MatchOption};
ghost use Rattle.std.specs.List.{AllZip};
ghost use Rattle.serde_json.specs.View.{view};
ghost use Rattle.fs_kinds.specs.declared.reason.OperationName.{OperationName};
ghost use Rattle.fs_cert_evidence.specs.Evidence.{cause_of};
ghost use Rattle.fs_cert_evidence.specs.Certificate as said;
ghost use Rattle.fs_cert_evidence.specs.CertificateFile.{IsCycleValue, IsLink, IsText, cause_word};
ghost use Rattle.fs_cert_evidence.specs.Judged as judged;
ghost use Rattle.fs_cert_evidence.specs.WitnessFile.{IsArrayOf, IsName, in_range};
ghost use Rattle.fs_cert_json.specs.Kept.{IsCertificateFault, KeepsCycle, KeepsLink};
ghost use Rattle.fs_cert_json.specs.inner.Sections.{AreLinkValues};

use crate::cause::cause_of_word;
use crate::certificate::CertificateLink;
use crate::json_values::pair_in;
use fs_cert_evidence::{Cause, read_name};
use fs_kinds::{Fault, List, OperationName};
use serde_json::Value;
use std::alloc::Global;

/// The most links that a cycle has.
const MOST_LINKS: usize = 64;

/// The cycles that the value says.
pub(crate) fn read_listed(
    alloc: Global,
    value: &Value,
) -> Result<List<List<CertificateLink>>, Fault>
    ensures ok { IfOk result (λ kept. (cycles : List (List said.Link)) × IsArrayOf IsCycleValue (view value.now) cycles
        × AllZip KeepsCycle kept cycles) }
    ensures bad { IsErrOf result Fault.BadCertificate → (cycles : List (List said.Link))
        → ¬ IsArrayOf IsCycleValue (view value.now) cycles }
    ensures err { IfErr result IsCertificateFault }
{
    let Some(items) = value.as_array() else {
        return Err(Fault::BadCertificate);
    };
    let mut cycles = Vec::new(alloc);
    for item in items {
        cycles.push(read_cycle(alloc, item)?)?;
    }
    Ok(List::new(cycles))
}

/// The cycle that the value says.
fn read_cycle(alloc: Global, value: &Value) -> Result<List<CertificateLink>, Fault>
    ensures ok { IfOk result (λ kept. (links : List said.Link) × IsCycleValue (view value.now) links
        × KeepsCycle kept links) }
    ensures bad { IsErrOf result Fault.BadCertificate → (links : List said.Link)
        → ¬ IsCycleValue (view value.now) links }
    ensures err { IfErr result IsCertificateFault }
{
    let Some(items) = link_values(value) else {
        return Err(Fault::BadCertificate);
    };
    let mut links = Vec::new(alloc);
    for item in items {
        let Some(link) = link_in(item) else {
            return Err(Fault::BadCertificate);
        };
        links.push(link)?;
    }
    Ok(List::new(links))
}

/// The values of the links of a cycle that the value says, of which there are 1 to 64.
pub(crate) fn link_values(value: &Value) -> Option<&[Value]>
    ensures { MatchOption result ((links : List said.Link) → ¬ IsCycleValue (view value.now) links)
        (λ items. AreLinkValues (view value.now) items.now) }
{
    let items = value.as_array()?;
    let count = items.len();
    if count == 0 || count > MOST_LINKS {
        return None;
    }
    Some(items)
}

/// The link that the value says.
pub(crate) fn link_in(value: &Value) -> Option<CertificateLink>
    ensures { MatchOption result ((link : said.Link) → ¬ IsLink (view value.now) link)
        (λ kept. (link : said.Link) × IsLink (view value.now) link × KeepsLink kept link) }
{
    let (name, why) = pair_in(value)?;
    let operation = name_in(name)?;
    let cause = cause_in(why)?;
    Some(CertificateLink { operation, cause })
}

/// The operation that the value names, which is none where a number of the name passes 255.
pub(crate) fn name_in(value: &Value) -> Option<Option<OperationName>>
    ensures { MatchOption result ((name : OperationName) → ¬ IsName (view value.now) name)
        (λ kept. (name : OperationName) × IsName (view value.now) name × (kept ≡ in_range name)) }
{
    match read_name(value.as_str()?) {
        Ok(name) => Some(name),
        Err(_) => None,
    }
}

/// The cause that the value says.
fn cause_in(value: &Value) -> Option<Cause>
    ensures { MatchOption result ((cause : judged.Cause) → ¬ IsText (view value.now) (cause_word cause))
        (λ kept. IsText (view value.now) (cause_word (cause_of kept))) }
{
    cause_of_word(value.as_str()?)
}
