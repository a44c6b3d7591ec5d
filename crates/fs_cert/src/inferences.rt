//! Inferences as a certificate has them.

ghost use Rattle.std.specs.Prelude.{IfOk, map};
ghost use Rattle.std.specs.List.{AllZip};
ghost use Rattle.fs_cert_evidence.specs.Inferences.{inference_of};
ghost use Rattle.fs_cert.specs.inner.Copies.{IsCopiedInference, IsNamed, IsSameLink};

use fs_cert_evidence::{Inference, Link};
use fs_kinds::{List, OperationName};
use std::alloc::{AllocError, Global};

/// The operation's name, as it is.
fn named(name: OperationName) -> OperationName
    ensures { IsNamed result name }
{
    name
}

/// The link, as it is.
fn link_of(link: &Link) -> Link
    ensures { IsSameLink result link.now }
{
    Link {
        operation: named(link.operation),
        cause: link.cause,
    }
}

/// The links of a cycle.
fn links_of(alloc: Global, links: &[Link]) -> Result<List<Link>, AllocError>
    ensures { IfOk result (λ copy. AllZip IsSameLink copy links.now) }
{
    let mut copy = Vec::new(alloc);
    for link in links {
        copy.push(link_of(link))?;
    }
    Ok(List::new(copy))
}

/// The inference, as it is.
fn inference_of(alloc: Global, inference: &Inference) -> Result<Inference, AllocError>
    ensures { IfOk result (λ copy. IsCopiedInference copy (inference_of inference.now)) }
{
    Ok(match inference {
        Inference::ByChoice(name) => Inference::ByChoice(named(*name)),
        Inference::BySource(load) => Inference::BySource(named(*load)),
        Inference::ByOrder { first, second } => Inference::ByOrder {
            first: named(*first),
            second: named(*second),
        },
        Inference::ByCases(condition) => Inference::ByCases(*condition),
        Inference::Filter(hart) => Inference::Filter(*hart),
        Inference::Cycle(links) => Inference::Cycle(links_of(alloc, links.as_slice())?),
        Inference::Stale { load, store } => Inference::Stale {
            load: named(*load),
            store: named(*store),
        },
        Inference::Reversed { load, store } => Inference::Reversed {
            load: named(*load),
            store: named(*store),
        },
        Inference::Parted { load, store, other } => Inference::Parted {
            load: named(*load),
            store: named(*store),
            other: named(*other),
        },
    })
}

/// The inferences, in their order.
pub(crate) fn inferences_of(
    alloc: Global,
    inferences: &[Inference],
) -> Result<List<Inference>, AllocError>
    ensures { IfOk result (λ copy. AllZip IsCopiedInference copy (map inference_of inferences.now)) }
{
    let mut copy = Vec::new(alloc);
    for inference in inferences {
        copy.push(inference_of(alloc, inference)?)?;
    }
    Ok(List::new(copy))
}
