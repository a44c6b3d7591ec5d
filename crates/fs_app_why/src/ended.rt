//! An end of a refutation as a chain.

ghost use Rattle.std.specs.Prelude.{◌≡◌, ◌++◌, ◌∷◌, [], IfOk, OnOk};
ghost use Rattle.fs_cert_evidence.specs.Inferences.{inference_of};
ghost use Rattle.fs_region_refutation.specs.Views.{region_of};
ghost use Rattle.fs_app_why.specs.Chains.{chain_by, chain_of, code_cause, cycle_chain, cycle_links, due};
ghost use Rattle.fs_app_why.specs.Chains.{goes_back, link_of, links_to, next_of};
ghost use Rattle.fs_app_why.specs.Chains.{parted_steps, reversed_steps, sole_of, stale_in, stale_of, stale_steps};
ghost use Rattle.fs_app_why.specs.declared.chain.Arrow.TheVariants.{Because};
ghost use Rattle.fs_app_why.specs.declared.chain.Shape.TheVariants as kind;

use crate::chain::{Arrow, Chain, ChainLink, Leading, Shape};
use crate::fences::{Fence, ordering};
use crate::known::Known;
use fs_cert_evidence::{Cause, Inference, Link};
use fs_kinds::{List, OperationName, Placement};
use fs_region_refutation::{Basis, Region, Source};
use std::alloc::{AllocError, Global};

/// The only one of them.
fn sole_of(fences: &[Fence]) -> Option<Fence>
    ensures { result ≡ sole_of fences.now }
{
    match fences {
        [fence] => Some(*fence),
        _ => None,
    }
}

/// The fences to which the arrow is due.
fn due(
    alloc: Global,
    basis: &Basis,
    placement: &Placement,
    region: &Region<'_>,
    arrow: Arrow,
    names: (OperationName, OperationName),
) -> Result<Vec<Fence>, AllocError>
    ensures { IfOk result (λ fences. fences.items
        ≡ due basis.now placement.now (region_of region.now) arrow names.0 names.1) }
{
    let (first, second) = names;
    match arrow {
        Arrow::Because(Cause::Rule4) => {
            let runs = region.runs(first.hart);
            ordering(alloc, basis.test(), placement, first, second, runs)
        }
        _ => Ok(Vec::new(alloc)),
    }
}

/// The link from an operation to the next one.
fn link(
    alloc: Global,
    basis: &Basis,
    placement: &Placement,
    region: &Region<'_>,
    arrow: Arrow,
    names: (OperationName, OperationName),
) -> Result<ChainLink, AllocError>
    ensures { IfOk result (λ link.
        link ≡ link_of basis.now placement.now (region_of region.now) names.0 arrow names.1) }
{
    let fences = due(alloc, basis, placement, region, arrow, names)?;
    Ok(ChainLink {
        name: names.0,
        next: names.1,
        known: Known::of(region, names.0),
        arrow,
        fence: fences.first().copied(),
        sole: sole_of(&fences),
    })
}

/// The operation of the first of these links; of none the first of all.
fn next_of(first: OperationName, links: &[Link]) -> OperationName
    ensures { result ≡ next_of first links.now }
{
    match links.first() {
        Some(link) => link.operation,
        None => first,
    }
}

/// The link of a cycle to this operation.
fn cycle_link(
    alloc: Global,
    basis: &Basis,
    placement: &Placement,
    region: &Region<'_>,
    from: &Link,
    next: OperationName,
) -> Result<ChainLink, AllocError>
    ensures { IfOk result (λ link. link ≡ link_of basis.now placement.now (region_of region.now)
        from.now.operation (Because (code_cause from.now.cause)) next) }
{
    let names = (from.operation, next);
    link(
        alloc,
        basis,
        placement,
        region,
        Arrow::Because(from.cause),
        names,
    )
}

/// The links of a cycle that begins at this operation.
fn links_to(
    alloc: Global,
    basis: &Basis,
    placement: &Placement,
    region: &Region<'_>,
    links: &[Link],
    first: OperationName,
) -> Result<Vec<ChainLink>, AllocError>
    ensures { IfOk result (λ made.
        made.items ≡ links_to basis.now placement.now (region_of region.now) first links.now) }
{
    let mut made = Vec::new(alloc);
    let mut rest = links;
    while let Some((link, more)) = rest.split_first() {
        let next = next_of(first, more);
        made.push(cycle_link(alloc, basis, placement, region, link, next)?)?;
        rest = more;
    }
    Ok(made)
}

/// Does the link go to an own store that stands before its load in the code?
fn goes_back(link: &Link, next: OperationName) -> bool
    ensures { result ≡ goes_back link.now next }
{
    matches!(link.cause, Cause::FromReads)
        && (next.hart == link.operation.hart && next.at < link.operation.at)
}

/// The load of the first of these links that does, with that store.
fn stale_in(first: OperationName, links: &[Link]) -> Option<(OperationName, OperationName)>
    ensures { result ≡ stale_in first links.now }
{
    let mut rest = links;
    while let Some((link, more)) = rest.split_first() {
        let next = next_of(first, more);
        if goes_back(link, next) {
            return Some((link.operation, next));
        }
        rest = more;
    }
    None
}

/// The same of a cycle.
fn stale_of(links: &[Link]) -> Option<(OperationName, OperationName)>
    ensures { result ≡ stale_of links.now }
{
    match links.first() {
        Some(link) => stale_in(link.operation, links),
        None => None,
    }
}

/// The chain of a cycle without a stale load.
fn whole_cycle(
    alloc: Global,
    basis: &Basis,
    placement: &Placement,
    region: &Region<'_>,
    links: &[Link],
) -> Result<Chain, AllocError>
    ensures { IfOk result (λ chain. chain ≡ record {
      shape = kind.Cycle;
      links = cycle_links basis.now placement.now (region_of region.now) links.now;
    }) }
{
    let made = match links.first() {
        Some(link) => links_to(alloc, basis, placement, region, links, link.operation)?,
        None => Vec::new(alloc),
    };
    Ok(Chain {
        shape: Shape::Cycle,
        links: List::new(made),
    })
}

/// A chain of these operations, each with what leads to the next one.
fn chain(
    alloc: Global,
    basis: &Basis,
    placement: &Placement,
    region: &Region<'_>,
    shape: Shape,
    steps: &[Leading],
) -> Result<Chain, AllocError>
    ensures { IfOk result (λ chain. chain ≡ chain_by basis.now placement.now (region_of region.now) shape steps.now) }
{
    let mut made = Vec::new(alloc);
    for step in steps {
        let names = (step.name, step.next);
        made.push(link(alloc, basis, placement, region, step.arrow, names)?)?;
    }
    Ok(Chain {
        shape,
        links: List::new(made),
    })
}

fn leading(name: OperationName, arrow: Arrow, next: OperationName) -> Leading
    ensures { result ≡ record { name = name; arrow = arrow; next = next } }
{
    Leading { name, arrow, next }
}

fn because(name: OperationName, cause: Cause, next: OperationName) -> Leading
    ensures { result ≡ record { name = name; arrow = Because cause; next = next } }
{
    Leading {
        name,
        arrow: Arrow::Because(cause),
        next,
    }
}

/// That the store of a pair comes before what the pair's load returns.
fn reversed(
    alloc: Global,
    basis: &Basis,
    placement: &Placement,
    region: &Region<'_>,
    load: OperationName,
    store: OperationName,
) -> Result<Chain, AllocError>
    ensures { IfOk result (λ chain. chain ≡ chain_by basis.now placement.now (region_of region.now) kind.Cycle
        (reversed_steps (region_of region.now) load store)) }
{
    let last = because(load, Cause::Rule8, store);
    if let Some(Source::From(source)) = region.source(load) {
        let steps = [
            because(store, Cause::Coherence, source),
            because(source, Cause::ReadsFrom, load),
            last,
        ];
        return chain(alloc, basis, placement, region, Shape::Cycle, &steps);
    }
    let steps = [because(store, Cause::Coherence, load), last];
    chain(alloc, basis, placement, region, Shape::Cycle, &steps)
}

/// That a load returns what an own store before it overwrites.
fn stale(
    alloc: Global,
    basis: &Basis,
    placement: &Placement,
    region: &Region<'_>,
    load: OperationName,
    store: OperationName,
) -> Result<Chain, AllocError>
    ensures { IfOk result (λ chain. chain ≡ chain_by basis.now placement.now (region_of region.now) kind.Stale
        (stale_steps load store)) }
{
    let steps = [
        leading(store, Arrow::Forgotten, load),
        leading(load, Arrow::End, load),
    ];
    chain(alloc, basis, placement, region, Shape::Stale, &steps)
}

/// That a store comes between those of a pair.
fn parted(
    alloc: Global,
    basis: &Basis,
    placement: &Placement,
    region: &Region<'_>,
    pair: (OperationName, OperationName),
    other: OperationName,
) -> Result<Chain, AllocError>
    ensures { IfOk result (λ chain. chain ≡ chain_by basis.now placement.now (region_of region.now) kind.NotAtomic
        (parted_steps pair.0 pair.1 other)) }
{
    let (load, store) = pair;
    let steps = [
        because(load, Cause::FromReads, other),
        because(other, Cause::Coherence, store),
        leading(store, Arrow::Pair(load), store),
    ];
    chain(alloc, basis, placement, region, Shape::NotAtomic, &steps)
}

/// The chain of a cycle.
fn cycle(
    alloc: Global,
    basis: &Basis,
    placement: &Placement,
    region: &Region<'_>,
    links: &[Link],
) -> Result<Chain, AllocError>
    ensures { IfOk result (λ chain. chain ≡ cycle_chain basis.now placement.now (region_of region.now)
        (stale_of links.now) links.now) }
{
    match stale_of(links) {
        Some((load, store)) => stale(alloc, basis, placement, region, load, store),
        None => whole_cycle(alloc, basis, placement, region, links),
    }
}

/// Appends the chain of the inference, if it is an end.
pub(crate) fn push_end(
    alloc: Global,
    basis: &Basis,
    placement: &Placement,
    region: &Region<'_>,
    inference: &Inference,
    made: &mut Vec<Chain>,
) -> Result<(), AllocError>
    ensures { OnOk result (made.new.items ≡ made.old.items
        ++ chain_of basis.now placement.now (region_of region.now) (inference_of inference.now)) }
{
    let chain = match inference {
        Inference::Cycle(links) => cycle(alloc, basis, placement, region, links.as_slice())?,
        Inference::Stale { load, store } => stale(alloc, basis, placement, region, *load, *store)?,
        Inference::Reversed { load, store } => {
            reversed(alloc, basis, placement, region, *load, *store)?
        }
        Inference::Parted { load, store, other } => {
            let pair = (*load, *store);
            parted(alloc, basis, placement, region, pair, *other)?
        }
        _ => return Ok(()),
    };
    made.push(chain)?;
    Ok(())
}
