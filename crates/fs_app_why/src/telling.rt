//! Which kinds of contradictions are told.

ghost use Rattle.std.specs.Prelude.{◌≡◌, ◌<◌, Some, length, option_map};
ghost use Rattle.std.specs.List.{list_any, position};
ghost use Rattle.fs_model.specs.Numbers.{is_same};
ghost use Rattle.fs_app_why.specs.Told.{fence_key, has_fence, has_key, has_new, has_there, is_first_bare};
ghost use Rattle.fs_app_why.specs.Told.{is_key_among, is_new_after, is_new_by, is_there, is_told, is_told_by};
ghost use Rattle.fs_app_why.specs.Told.{kind_at, least_chains, links_there, stands_there, told_place};

use crate::{Chain, ChainKind, ChainLink, Fence};

/// Which kinds of contradictions are told.
#[derive(Clone, Copy)]
pub enum Telling {
    /// All where they are few, else those with a fence that none before them has, or the first where none has one.
    Few,
    /// All.
    All,
    /// Those with the fence that is placed before this instruction, or that is this instruction.
    One { hart: u8, at: u8 },
}

/// Up to so many kinds are all told, and as many where none has a fence.
const FEW_KINDS: usize = 6;

/// A number for the fence: its hart's, its place, and whether it is placed or written there.
pub fn fence_key(fence: Fence) -> u32
    ensures { result ≡ fence_key fence }
{
    match fence {
        Fence::Placed { slot, .. } => u32::from(slot.hart) * 1024 + u32::from(slot.at) * 2,
        Fence::Written { hart, at, .. } => u32::from(hart) * 1024 + (u32::from(at) * 2 + 1),
    }
}

/// Is it the fence of this number?
pub(crate) fn is_key(fence: Option<Fence>, key: u32) -> bool
    ensures { result ≡ is_same (option_map fence_key fence) (Some key) }
{
    match fence {
        Some(fence) => fence_key(fence) == key,
        None => false,
    }
}

fn has_key(chain: &Chain, key: u32) -> bool
    ensures { result ≡ has_key key chain.now }
{
    chain.links.iter().any(|link| is_key(link.fence, key))
}

/// The least chain of the kind.
fn least_chains(kind: &ChainKind) -> &[Chain]
    ensures { result.now ≡ least_chains kind.now }
{
    let count = kind.instances.len().min(1);
    &kind.instances[..count]
}

fn tells_key(kind: &ChainKind, key: u32) -> bool
    ensures { result ≡ list_any (has_key key) (least_chains kind.now) }
{
    least_chains(kind).iter().any(|chain| has_key(chain, key))
}

fn is_key_among(kinds: &[ChainKind], key: u32) -> bool
    ensures { result ≡ is_key_among key kinds.now }
{
    kinds.iter().any(|kind| tells_key(kind, key))
}

/// Is there a fence that none of these kinds has?
fn is_new_by(kinds: &[ChainKind], fence: Option<Fence>) -> bool
    ensures { result ≡ is_new_by kinds.now fence }
{
    match fence {
        Some(fence) => !is_key_among(kinds, fence_key(fence)),
        None => false,
    }
}

fn has_new(kinds: &[ChainKind], chain: &Chain) -> bool
    ensures { result ≡ has_new kinds.now chain.now }
{
    chain.links.iter().any(|link| is_new_by(kinds, link.fence))
}

/// Has the kind a fence that none of these has?
fn is_new_after(before: &[ChainKind], kind: &ChainKind) -> bool
    ensures { result ≡ is_new_after before.now kind.now }
{
    least_chains(kind)
        .iter()
        .any(|chain| has_new(before, chain))
}

/// Has it a fence?
pub(crate) fn has_fence(kind: &ChainKind) -> bool
    ensures { result ≡ has_fence kind.now }
{
    is_new_after(&[], kind)
}

/// Is the fence placed before this instruction, or is it this one?
fn stands_there(fence: Fence, hart: u8, at: u8) -> bool
    ensures { result ≡ stands_there hart at fence }
{
    match fence {
        Fence::Placed { slot, .. } => slot.hart == hart && slot.at == at,
        Fence::Written {
            hart: own,
            at: place,
        } => own == hart && place == at,
    }
}

fn is_there(fence: Option<Fence>, hart: u8, at: u8) -> bool
    ensures { result ≡ is_there hart at fence }
{
    match fence {
        Some(fence) => stands_there(fence, hart, at),
        None => false,
    }
}

/// Is that fence told there, or needed there?
fn links_there(link: &ChainLink, hart: u8, at: u8) -> bool
    ensures { result ≡ links_there hart at link.now }
{
    is_there(link.fence, hart, at) || is_there(link.sole, hart, at)
}

fn has_there(chain: &Chain, hart: u8, at: u8) -> bool
    ensures { result ≡ has_there hart at chain.now }
{
    chain.links.iter().any(|link| links_there(link, hart, at))
}

/// Has the kind a chain with that fence?
fn tells_there(kind: &ChainKind, hart: u8, at: u8) -> bool
    ensures { result ≡ list_any (has_there hart at) kind.now.instances }
{
    kind.instances
        .iter()
        .any(|chain| has_there(chain, hart, at))
}

fn some_fenced(kinds: &[ChainKind]) -> bool
    ensures { result ≡ list_any has_fence kinds.now }
{
    kinds.iter().any(|kind| has_fence(kind))
}

/// Is it one of the first, and has none a fence?
fn is_first_bare(kinds: &[ChainKind], number: usize) -> bool
    ensures { result ≡ is_first_bare kinds.now number }
{
    number < FEW_KINDS && !some_fenced(kinds)
}

fn is_told_by(telling: Telling, kinds: &[ChainKind], number: usize) -> bool
    requires { number < length kinds.now }
    ensures { result ≡ is_told_by telling kinds.now number }
{
    match telling {
        Telling::Few => {
            kinds.len() <= FEW_KINDS
                || (is_new_after(&kinds[..number], &kinds[number]) || is_first_bare(kinds, number))
        }
        Telling::All => true,
        Telling::One { hart, at } => tells_there(&kinds[number], hart, at),
    }
}

/// Is the kind of this number, from 0, told? The kinds times the square of their operations.
pub fn is_told(telling: Telling, kinds: &[ChainKind], number: usize) -> bool
    ensures { result ≡ is_told telling kinds.now number }
{
    number < kinds.len() && is_told_by(telling, kinds, number)
}

fn found_there(kind: &ChainKind, hart: u8, at: u8) -> Option<usize>
    ensures { result ≡ position (has_there hart at) kind.now.instances }
{
    kind.instances
        .iter()
        .position(|chain| has_there(chain, hart, at))
}

/// Which of the kind's chains is told: the least, or the first with the fence. As many as it has where none has it.
/// Linear in their operations.
pub fn told_place(telling: Telling, kind: &ChainKind) -> usize
    ensures { result ≡ told_place telling kind.now }
{
    match telling {
        Telling::Few | Telling::All => 0,
        Telling::One { hart, at } => found_there(kind, hart, at).unwrap_or(kind.instances.len()),
    }
}
