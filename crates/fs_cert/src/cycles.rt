//! Cycles as a certificate has them.

ghost use Rattle.std.specs.Prelude.{◌≡◌, ◌≤◌, ◌++◌, IfOk, List, length, false, true};
ghost use Rattle.std.specs.List.{AllZip};
ghost use Rattle.fs_cert_evidence.specs.Certificate.{Link as LinkValue};
ghost use Rattle.fs_cert_evidence.specs.Inferences.{cycles_of};
ghost use Rattle.fs_cert_json.specs.Kept.{version_of};
ghost use Rattle.fs_cert.specs.Cycles.{BeginsAtLeast, IsNotAfter, version_for};
ghost use Rattle.fs_cert.specs.inner.Copies.{AreCopiedCycles, IsCopiedLink, IsCopiedCycle, turned};

use crate::copied::name_of;
use crate::inferences::inferences_of;
use fs_cert_evidence::{Cycles, Link};
use fs_cert_json::{CertificateLink, CertifiedCycles, Version};
use fs_kinds::List;
use std::alloc::{AllocError, Global};

/// The link, whose operation is there.
fn link_of(link: &Link) -> CertificateLink
    ensures { IsCopiedLink result link.now }
{
    CertificateLink {
        operation: name_of(link.operation),
        cause: link.cause,
    }
}

/// Whether the first link's operation comes before the second's, by hart and then by instruction.
fn is_before(first: &Link, second: &Link) -> bool
    ensures before { result ≡ true → IsNotAfter first.now.operation second.now.operation }
    ensures not { result ≡ false → IsNotAfter second.now.operation first.now.operation }
{
    let (a, b) = (first.operation, second.operation);
    a.hart < b.hart || (a.hart == b.hart && a.at < b.at)
}

/// The number of the first link whose operation is the least, 0 where there is no link. Its contract pins where the
/// turned cycle begins, not which of equal operations that is: a cycle has each once.
fn least_of(links: &[Link]) -> usize
    ensures there { result ≤ length links.now }
    ensures least { BeginsAtLeast (turned result links.now) }
{
    let mut least = 0;
    for (i, link) in links.iter().enumerate() {
        if is_before(link, &links[least]) {
            least = i;
        }
    }
    least
}

/// Adds the links to the copy.
fn add_links(copy: &mut Vec<CertificateLink>, links: &[Link]) -> Result<(), AllocError>
    ensures { IfOk result (λ done. (before : List LinkValue) → AllZip IsCopiedLink copy.old.items before
        → AllZip IsCopiedLink copy.new.items (before ++ links.now)) }
{
    for link in links {
        copy.push(link_of(link))?;
    }
    Ok(())
}

/// The links of a cycle, from the least operation on: those before it come last.
fn cycle_of(alloc: Global, links: &[Link]) -> Result<List<CertificateLink>, AllocError>
    ensures { IfOk result (λ copy. IsCopiedCycle copy links.now) }
{
    let (last, first) = links.split_at(least_of(links));
    let mut copy = Vec::new(alloc);
    add_links(&mut copy, first)?;
    add_links(&mut copy, last)?;
    Ok(List::new(copy))
}

/// The cycles, each with its links.
fn listed_of(
    alloc: Global,
    cycles: &[List<Link>],
) -> Result<List<List<CertificateLink>>, AllocError>
    ensures { IfOk result (λ copy. AllZip IsCopiedCycle copy cycles.now) }
{
    let mut copy = Vec::new(alloc);
    for links in cycles {
        copy.push(cycle_of(alloc, links.as_slice())?)?;
    }
    Ok(List::new(copy))
}

/// What shows that a placement forbids the outcome, as a certificate has it.
pub(crate) fn cycles_of(alloc: Global, cycles: &Cycles) -> Result<CertifiedCycles, AllocError>
    ensures { IfOk result (λ copy. AreCopiedCycles copy (cycles_of cycles.now)) }
{
    match cycles {
        Cycles::Listed(cycles) => Ok(CertifiedCycles::Listed(listed_of(alloc, cycles.as_slice())?)),
        Cycles::Inferred(inferences) => Ok(CertifiedCycles::Inferred(inferences_of(
            alloc,
            inferences.as_slice(),
        )?)),
    }
}

/// The version of a certificate that has this.
pub(crate) fn version_of(cycles: &Cycles) -> Version
    ensures { version_of result ≡ version_for (cycles_of cycles.now) }
{
    match cycles {
        Cycles::Listed(_) => Version::Second,
        Cycles::Inferred(_) => Version::Fourth,
    }
}
