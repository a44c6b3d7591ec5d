//! Chains that are the same, or the same but for their harts.

ghost use Rattle.std.specs.Prelude.{◌≡◌, ◌≤◌, ◌++◌, [], drop, length, take, IfOk};
ghost use Rattle.std.specs.List.{list_all, position, slice_index_or, zip};
ghost use Rattle.fs_cert_evidence.specs.Regions.{same_name};
ghost use Rattle.fs_app_why.specs.Kinds.{are_alike, are_same, arrow_number, have_one_form, is_for, is_less};
ghost use Rattle.fs_app_why.specs.Kinds.{is_less_links, is_lesser, is_lesser_by, is_like_link, is_renamed};
ghost use Rattle.fs_app_why.specs.Kinds.{is_same_link, name_number, number_by, rank, shape_number, share_harts};
ghost use Rattle.fs_app_why.specs.Kinds.{start, text_at, told_links, turned, turns};

use crate::chain::{Arrow, Chain, ChainLink, Shape};
use fs_cert_evidence::Cause;
use fs_kinds::{List, OperationName};
use fs_model::Name;
use fs_region_refutation::is_same_name;
use std::alloc::{AllocError, Global};

/// A number for the operation, by its hart and then by its instruction.
pub(crate) fn name_number(name: OperationName) -> u16
    ensures { result ≡ name_number name }
{
    u16::from(name.hart) * 256 + u16::from(name.at)
}

/// Is it the lesser operation?
pub(crate) fn is_lesser(first: OperationName, second: OperationName) -> bool
    ensures { result ≡ is_lesser first second }
{
    name_number(first) < name_number(second)
}

/// The place of a cause in the order in which chains are told.
fn rank(cause: Cause) -> u8
    ensures { result ≡ rank cause }
{
    match cause {
        Cause::Rule4 => 0,
        Cause::Rule5 => 1,
        Cause::Rule6 => 2,
        Cause::Rule7 => 3,
        Cause::Rule8 => 4,
        Cause::Rule1 => 5,
        Cause::Rule2 => 6,
        Cause::Rule3 => 7,
        Cause::Rule9 => 8,
        Cause::Rule10 => 9,
        Cause::Rule11 => 10,
        Cause::Rule12 => 11,
        Cause::Rule13 => 12,
        Cause::ReadsFrom => 13,
        Cause::Coherence => 14,
        Cause::FromReads => 15,
    }
}

/// A number for the arrow.
pub(crate) fn arrow_number(arrow: Arrow) -> u8
    ensures { result ≡ arrow_number arrow }
{
    match arrow {
        Arrow::Because(cause) => rank(cause),
        Arrow::Forgotten => 16,
        Arrow::Pair(_) => 17,
        Arrow::End => 18,
    }
}

fn shape_number(shape: Shape) -> u8
    ensures { result ≡ shape_number shape }
{
    match shape {
        Shape::Cycle => 0,
        Shape::Stale => 1,
        Shape::NotAtomic => 2,
    }
}

/// Is it the same operation with the same arrow?
fn is_same_link(first: ChainLink, second: ChainLink) -> bool
    ensures { result ≡ is_same_link (first, second) }
{
    is_same_name(first.name, second.name) && arrow_number(first.arrow) == arrow_number(second.arrow)
}

fn have_one_form(first: &Chain, second: &Chain) -> bool
    ensures { result ≡ have_one_form first.now second.now }
{
    shape_number(first.shape) == shape_number(second.shape)
        && first.links.len() == second.links.len()
}

fn are_same_links(first: &[ChainLink], second: &[ChainLink]) -> bool
    ensures { result ≡ list_all is_same_link (zip first.now second.now) }
{
    first
        .iter()
        .zip(second.iter())
        .all(|(a, b)| is_same_link(*a, *b))
}

/// Have the two chains, each of which begins at its least operation, the same links?
pub(crate) fn are_same(first: &Chain, second: &Chain) -> bool
    ensures { result ≡ are_same first.now second.now }
{
    have_one_form(first, second) && are_same_links(first.links.as_slice(), second.links.as_slice())
}

fn texts_of_hart(texts: &[List<Name>], hart: u8) -> &[Name]
    ensures { result.now ≡ slice_index_or texts.now hart [] }
{
    if usize::from(hart) < texts.len() {
        texts[usize::from(hart)].as_slice()
    } else {
        &[]
    }
}

/// The operation's instruction in print; none where there is no such instruction.
fn text_at(texts: &[List<Name>], name: OperationName) -> &str
    ensures { result.now ≡ text_at texts.now name }
{
    let hart = texts_of_hart(texts, name.hart);
    if usize::from(name.at) < hart.len() {
        hart[usize::from(name.at)].as_str()
    } else {
        ""
    }
}

/// Is the second link the first one's but for the hart?
fn is_like_link(texts: &[List<Name>], first: ChainLink, second: ChainLink) -> bool
    ensures { result ≡ is_like_link texts.now (first, second) }
{
    first.name.at == second.name.at
        && (arrow_number(first.arrow) == arrow_number(second.arrow)
            && text_at(texts, first.name) == text_at(texts, second.name))
}

/// Are two links of the first chain of one hart where those of the second are?
fn share_harts(x: (ChainLink, ChainLink), y: (ChainLink, ChainLink)) -> bool
    ensures { result ≡ share_harts x y }
{
    let (here, there) = (
        x.0.name.hart == y.0.name.hart,
        x.1.name.hart == y.1.name.hart,
    );
    here && there || !here && !there
}

/// Are two links of the first chain of one hart where those of the second are, for this link and each other one?
fn shares_all(first: &[ChainLink], second: &[ChainLink], x: (ChainLink, ChainLink)) -> bool
    ensures { result ≡ list_all (share_harts x) (zip first.now second.now) }
{
    first
        .iter()
        .zip(second.iter())
        .all(|(a, b)| share_harts(x, (*a, *b)))
}

fn are_like_links(texts: &[List<Name>], first: &[ChainLink], second: &[ChainLink]) -> bool
    ensures { result ≡ list_all (is_like_link texts.now) (zip first.now second.now) }
{
    first
        .iter()
        .zip(second.iter())
        .all(|(a, b)| is_like_link(texts, *a, *b))
}

fn share_all_harts(first: &[ChainLink], second: &[ChainLink]) -> bool
    ensures { result ≡ list_all (λ x. list_all (share_harts x) (zip first.now second.now)) (zip first.now second.now) }
{
    first
        .iter()
        .zip(second.iter())
        .all(|(a, b)| shares_all(first, second, (*a, *b)))
}

/// Does one renaming of harts make the second links of the first? The square of their number.
fn is_renamed(texts: &[List<Name>], first: &[ChainLink], second: &[ChainLink]) -> bool
    ensures { result ≡ is_renamed texts.now (zip first.now second.now) }
{
    are_like_links(texts, first, second) && share_all_harts(first, second)
}

/// The links from this one on, and then those before it.
pub(crate) fn turned(
    alloc: Global,
    links: &[ChainLink],
    from: usize,
) -> Result<Vec<ChainLink>, AllocError>
    requires { from ≤ length links.now }
    ensures { IfOk result (λ made. made.items ≡ turned from links.now) }
{
    let mut made = Vec::from_slice(alloc, &links[from..])?;
    made.extend_from_slice(&links[..from])?;
    Ok(made)
}

/// Does this cause lead from the operation to the next one?
fn is_for(cause: Cause, link: &ChainLink) -> bool
    ensures { result ≡ is_for cause link.now }
{
    arrow_number(link.arrow) == rank(cause)
}

/// The number of the first link of this cause.
fn found_for(cause: Cause, links: &[ChainLink]) -> Option<usize>
    ensures { result ≡ position (is_for cause) links.now }
{
    links.iter().position(|link| is_for(cause, link))
}

/// The number of the link from which a cycle is told.
fn start(alloc: Global, links: &[ChainLink]) -> Result<usize, AllocError>
    ensures start { IfOk result (λ from. from ≡ start links.now) }
    ensures within { IfOk result (λ from. from ≤ length links.now) }
{
    let before = turned(alloc, links, links.len().saturating_sub(1))?;
    let from = found_for(Cause::FromReads, &before)
        .or(found_for(Cause::Coherence, &before))
        .unwrap_or(0);
    Ok(from)
}

/// The links of the chain as they are told: those of a cycle so that what overwrites comes last, of a value that was
/// read or else of a store. Linear in the links.
pub fn told_links(alloc: Global, chain: &Chain) -> Result<Vec<ChainLink>, AllocError>
    ensures { IfOk result (λ links. links.items ≡ told_links chain.now) }
{
    let links = chain.links.as_slice();
    let from = match chain.shape {
        Shape::Cycle => start(alloc, links)?,
        Shape::Stale | Shape::NotAtomic => 0,
    };
    turned(alloc, links, from)
}

/// How many links there are from which a chain of so many may be told.
fn turns(shape: Shape, count: usize) -> usize
    ensures { result ≡ turns shape count }
{
    match shape {
        Shape::Cycle => count,
        Shape::Stale | Shape::NotAtomic => count.min(1),
    }
}

/// Are they the same but for the harts? A cycle may begin anywhere. The cube of the links.
pub(crate) fn are_alike(
    alloc: Global,
    texts: &[List<Name>],
    first: &Chain,
    second: &Chain,
) -> Result<bool, AllocError>
    ensures { IfOk result (λ are. are ≡ are_alike texts.now first.now second.now) }
{
    if !have_one_form(first, second) {
        return Ok(false);
    }
    let links = second.links.as_slice();
    for from in 0..turns(second.shape, links.len()) {
        let turned = turned(alloc, links, from)?;
        if is_renamed(texts, first.links.as_slice(), &turned) {
            return Ok(true);
        }
    }
    Ok(false)
}

/// By what chains are compared.
#[derive(Clone, Copy)]
pub enum Order {
    Names,
    Arrows,
}

fn number_by(by: Order, link: ChainLink) -> u16
    ensures { result ≡ number_by by link }
{
    match by {
        Order::Names => name_number(link.name),
        Order::Arrows => u16::from(arrow_number(link.arrow)),
    }
}

/// Has the first list the lesser number where they first differ, if they do?
fn is_lesser_by(by: Order, first: &[ChainLink], second: &[ChainLink]) -> Option<bool>
    ensures { result ≡ is_lesser_by by first.now second.now }
{
    let (mut first, mut second) = (first, second);
    while let Some((a, more)) = first.split_first() {
        let (b, rest) = second.split_first()?;
        let (here, there) = (number_by(by, *a), number_by(by, *b));
        if here != there {
            return Some(here < there);
        }
        first = more;
        second = rest;
    }
    None
}

fn is_less_links(first: &[ChainLink], second: &[ChainLink]) -> bool
    ensures { result ≡ is_less_links first.now second.now }
{
    is_lesser_by(Order::Names, first, second)
        .or(is_lesser_by(Order::Arrows, first, second))
        .unwrap_or(false)
}

/// Does the first chain come before the second?
pub(crate) fn is_less(first: &Chain, second: &Chain) -> bool
    ensures { result ≡ is_less first.now second.now }
{
    first.links.len() < second.links.len()
        || first.links.len() == second.links.len()
            && is_less_links(first.links.as_slice(), second.links.as_slice())
}
