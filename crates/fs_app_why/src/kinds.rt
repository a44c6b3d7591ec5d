//! Kinds of chains: those that are the same but for the harts are one.

ghost use Rattle.std.specs.Prelude.{◌≡◌, ◌<◌, length, slice_set, IfOk, OnOk};
ghost use Rattle.std.specs.List.{insert, position, slice_index_or};
ghost use Rattle.fs_app_why.specs.Kinds.{add, are_same, either_fence, fence_number, is_least_of, is_less, is_of};
ghost use Rattle.fs_app_why.specs.Kinds.{is_told_before, met_links, place_by};
ghost use Rattle.fs_app_why.specs.Kinds.{kind_of, kinds_of, least, met, met_fence, met_known, met_link, met_word};
ghost use Rattle.fs_app_why.specs.Kinds.{normal, put, put_kind, sorted, unsorted, with_chain};

use crate::chain::{Chain, ChainLink, Shape};
use crate::fences::Fence;
use crate::known::Known;
use crate::likeness::{are_alike, are_same, is_less, is_lesser, turned};
use fs_kinds::List;
use fs_model::Name;
use std::alloc::{AllocError, Global};
use std::marker::Model;

/// Chains that are the same but for the harts.
#[derive(Drop)]
pub struct ChainKind {
    /// Each once, with what is known wherever it ends; the least is the first.
    pub instances: Vec<Chain>,
    /// How many ends of the refutation they are.
    pub ends: usize,
}

impl Model for ChainKind {
    ghost use Rattle.fs_app_why.specs.Kinds.{ChainKind as Kind};

    ghost Value = { Kind };

    ghost view = { λ k. record { instances = k.instances.items; ends = k.ends } };
}

fn is_least_of(links: &[ChainLink], link: &ChainLink) -> bool
    ensures { result ≡ is_least_of links.now link.now }
{
    links.iter().all(|other| !is_lesser(other.name, link.name))
}

fn found_least(links: &[ChainLink]) -> Option<usize>
    ensures { result ≡ position (is_least_of links.now) links.now }
{
    links.iter().position(|link| is_least_of(links, link))
}

/// The number of the least link.
fn least(links: &[ChainLink]) -> usize
    ensures { result ≡ least links.now }
{
    found_least(links).unwrap_or(0)
}

/// The chain from its least operation on, if it is a cycle.
fn normal(alloc: Global, chain: Chain) -> Result<Chain, AllocError>
    ensures { IfOk result (λ made. made ≡ normal chain) }
{
    match chain.shape {
        Shape::Cycle => {
            let links = chain.links.as_slice();
            let turned = turned(alloc, links, least(links))?;
            Ok(Chain {
                shape: Shape::Cycle,
                links: List::new(turned),
            })
        }
        Shape::Stale | Shape::NotAtomic => Ok(chain),
    }
}

fn met_word(first: Option<u32>, second: Option<u32>) -> Option<u32>
    ensures { result ≡ met_word first second }
{
    match (first, second) {
        (Some(word), Some(other)) if word == other => Some(word),
        _ => None,
    }
}

fn met_known(first: Known, second: Known) -> Known
    ensures { result ≡ met_known first second }
{
    Known {
        address: met_word(first.address, second.address),
        loaded: met_word(first.loaded, second.loaded),
        stored: met_word(first.stored, second.stored),
        is_initial: first.is_initial && second.is_initial,
    }
}

fn fence_number(fence: Fence) -> u16
    ensures { result ≡ fence_number fence }
{
    match fence {
        Fence::Placed { slot, .. } => u16::from(slot.at) * 2,
        Fence::Written { at, .. } => u16::from(at) * 2 + 1,
    }
}

fn met_fence(first: Option<Fence>, second: Option<Fence>) -> Option<Fence>
    ensures { result ≡ met_fence first second }
{
    match (first, second) {
        (Some(fence), Some(other)) if fence_number(fence) == fence_number(other) => Some(fence),
        _ => None,
    }
}

fn either_fence(first: Option<Fence>, second: Option<Fence>) -> Option<Fence>
    ensures { result ≡ either_fence first second }
{
    match first {
        Some(fence) => Some(fence),
        None => second,
    }
}

/// What is so of a link at both of two ends.
fn met_link(first: ChainLink, second: ChainLink) -> ChainLink
    ensures { result ≡ met_link first second }
{
    ChainLink {
        name: first.name,
        next: first.next,
        known: met_known(first.known, second.known),
        arrow: first.arrow,
        fence: met_fence(first.fence, second.fence),
        sole: either_fence(first.sole, second.sole),
    }
}

fn met_links(
    alloc: Global,
    first: &[ChainLink],
    second: &[ChainLink],
) -> Result<Vec<ChainLink>, AllocError>
    ensures { IfOk result (λ made. made.items ≡ met_links first.now second.now) }
{
    let mut made = Vec::new(alloc);
    let (mut first, mut second) = (first, second);
    while let Some((link, more)) = first.split_first() {
        let Some((other, rest)) = second.split_first() else {
            return Ok(made);
        };
        made.push(met_link(*link, *other))?;
        first = more;
        second = rest;
    }
    Ok(made)
}

/// What is known by both, of two chains with the same links.
fn met(alloc: Global, first: &Chain, second: &Chain) -> Result<Chain, AllocError>
    ensures { IfOk result (λ made. made ≡ met first.now second.now) }
{
    let links = met_links(alloc, first.links.as_slice(), second.links.as_slice())?;
    Ok(Chain {
        shape: first.shape,
        links: List::new(links),
    })
}

fn found(chains: &[Chain], chain: &Chain) -> Option<usize>
    ensures { result ≡ position (λ other. are_same other chain.now) chains.now }
{
    chains.iter().position(|other| are_same(other, chain))
}

fn found_greater(chains: &[Chain], chain: &Chain) -> Option<usize>
    ensures { result ≡ position (is_less chain.now) chains.now }
{
    chains.iter().position(|other| is_less(chain, other))
}

fn place_before(chains: &[Chain], chain: &Chain) -> usize
    ensures { result ≡ place_by (is_less chain.now) chains.now }
{
    found_greater(chains, chain).unwrap_or(chains.len())
}

/// Puts what is known of the chain to what is known of the same one there.
fn put_known(
    alloc: Global,
    chains: &mut Vec<Chain>,
    place: usize,
    chain: Chain,
) -> Result<(), AllocError>
    requires { place < length chains.old.items }
    ensures { OnOk result (chains.new.items
        ≡ slice_set chains.old.items place (met (slice_index_or chains.old.items place chain) chain)) }
{
    let met = met(alloc, &chains[place], &chain)?;
    chains[place] = met;
    Ok(())
}

/// Puts the chain among the others of its kind.
fn put_new(chains: &mut Vec<Chain>, chain: Chain) -> Result<(), AllocError>
    ensures { OnOk result (chains.new.items
        ≡ insert chains.old.items (place_by (is_less chain) chains.old.items) chain) }
{
    let place = place_before(chains, &chain);
    chains.insert(place, chain)?;
    Ok(())
}

/// Puts the chain among the others of its kind, or what is known of it to what was known.
#[tactic(auto, using(crate::proofs::Places::found_within))]
fn put(alloc: Global, chains: &mut Vec<Chain>, chain: Chain) -> Result<(), AllocError>
    ensures { OnOk result (chains.new.items ≡ put chains.old.items chain) }
{
    match found(chains, &chain) {
        Some(place) => put_known(alloc, chains, place, chain),
        None => put_new(chains, chain),
    }
}

impl ChainKind {
    fn of(alloc: Global, chain: Chain) -> Result<ChainKind, AllocError>
        ensures { IfOk result (λ kind. kind ≡ kind_of chain) }
    {
        let mut instances = Vec::new(alloc);
        instances.push(chain)?;
        Ok(ChainKind { instances, ends: 1 })
    }

    /// Adds an end of this kind.
    fn add(&mut self, alloc: Global, chain: Chain) -> Result<(), AllocError>
        ensures { OnOk result (self.new ≡ with_chain self.old chain) }
    {
        put(alloc, &mut self.instances, chain)?;
        if self.ends < usize::MAX {
            self.ends += 1;
        }
        Ok(())
    }

    /// Is the chain one of this kind?
    fn has(&self, alloc: Global, texts: &[List<Name>], chain: &Chain) -> Result<bool, AllocError>
        ensures { IfOk result (λ has. has ≡ is_of texts.now chain.now self.now) }
    {
        match self.instances.first() {
            Some(first) => are_alike(alloc, texts, first, chain),
            None => Ok(false),
        }
    }

    /// Is it told before the other? One with more ends is, then the one with the least chain.
    fn is_told_before(&self, other: &ChainKind) -> bool
        ensures { result ≡ is_told_before self.now other.now }
    {
        if self.ends != other.ends {
            return self.ends > other.ends;
        }
        match (self.instances.first(), other.instances.first()) {
            (Some(first), Some(second)) => is_less(first, second),
            _ => false,
        }
    }
}

/// The number of the kind that the chain is of, or how many there are.
fn kind_of(
    alloc: Global,
    texts: &[List<Name>],
    kinds: &[ChainKind],
    chain: &Chain,
) -> Result<usize, AllocError>
    ensures { IfOk result (λ place. place ≡ place_by (is_of texts.now chain.now) kinds.now) }
{
    for (number, kind) in kinds.iter().enumerate() {
        if kind.has(alloc, texts, chain)? {
            return Ok(number);
        }
    }
    Ok(kinds.len())
}

/// Adds the chain to the kinds.
fn add(
    alloc: Global,
    texts: &[List<Name>],
    kinds: &mut Vec<ChainKind>,
    chain: Chain,
) -> Result<(), AllocError>
    ensures { OnOk result (kinds.new.items ≡ add texts.now kinds.old.items chain) }
{
    let chain = normal(alloc, chain)?;
    let place = kind_of(alloc, texts, kinds, &chain)?;
    if place < kinds.len() {
        kinds[place].add(alloc, chain)
    } else {
        kinds.push(ChainKind::of(alloc, chain)?)?;
        Ok(())
    }
}

/// The kinds in the order in which they are met.
fn unsorted(
    alloc: Global,
    texts: &[List<Name>],
    chains: Vec<Chain>,
) -> Result<Vec<ChainKind>, AllocError>
    ensures { IfOk result (λ kinds. kinds.items ≡ unsorted texts.now chains.items) }
{
    let mut kinds = Vec::new(alloc);
    for chain in chains {
        add(alloc, texts, &mut kinds, chain)?;
    }
    Ok(kinds)
}

fn found_later(kinds: &[ChainKind], kind: &ChainKind) -> Option<usize>
    ensures { result ≡ position (is_told_before kind.now) kinds.now }
{
    kinds.iter().position(|other| kind.is_told_before(other))
}

/// The place of the kind among those that are told before and after it.
fn place_among(kinds: &[ChainKind], kind: &ChainKind) -> usize
    ensures { result ≡ place_by (is_told_before kind.now) kinds.now }
{
    found_later(kinds, kind).unwrap_or(kinds.len())
}

/// Puts the kind among those that are told before and after it.
fn put_kind(kinds: &mut Vec<ChainKind>, kind: ChainKind) -> Result<(), AllocError>
    ensures { OnOk result (kinds.new.items ≡ put_kind kinds.old.items kind) }
{
    let place = place_among(kinds, &kind);
    kinds.insert(place, kind)?;
    Ok(())
}

/// The kinds of these chains, in the order in which they are told. `texts` has the instructions of the test in print,
/// hart by hart. The chains times the kinds times the cubes of their lengths. The error is want of memory.
pub fn kinds_of(
    alloc: Global,
    texts: &[List<Name>],
    chains: Vec<Chain>,
) -> Result<Vec<ChainKind>, AllocError>
    ensures { IfOk result (λ kinds. kinds.items ≡ kinds_of texts.now chains.items) }
{
    let mut kinds = Vec::new(alloc);
    for kind in unsorted(alloc, texts, chains)? {
        put_kind(&mut kinds, kind)?;
    }
    Ok(kinds)
}
