//! The items of a board's nodes.

ghost use Rattle.std.specs.Prelude.{◌≡◌, ◌≤◌, IfOk, List, false, length, take, drop, position};
ghost use Rattle.fs_kinds.specs.Slot.{is_same_slot};
ghost use Rattle.fs_kinds.specs.declared.slot.Slot.{Slot as SlotValue};
ghost use Rattle.fs_cert_evidence.specs.CertificateFile.{most_number};
ghost use Rattle.fs_cert_json.specs.Kept.{item_of};
ghost use Rattle.fs_board_offers.specs.Board.{is_open, is_held};
ghost use Rattle.fs_board.specs.View.{status_of};
ghost use Rattle.fs_cert.specs.inner.Items.{number_in, item_at, AreSmall, HasNumbers, IsSayable};

use fs_board::Status;
use fs_cert_json::Item;
use fs_kinds::{List, Slot};
use std::alloc::{AllocError, Global};

/// Where the slot stands among these.
fn place_of(slots: &[Slot], slot: Slot) -> Option<usize>
    ensures { result ≡ position (λ other. is_same_slot other slot) slots.now }
{
    slots.iter().position(|other| *other == slot)
}

/// The slot's number among these; how many there are where it is none of them.
fn number_in(slots: &[Slot], slot: Slot) -> u64
    ensures value { result ≡ number_in slots.now slot }
    ensures most { result ≤ most_number }
{
    place_of(slots, slot).unwrap_or(slots.len()) as u64
}

/// So many of the numbers, from one on.
fn run_of(
    alloc: Global,
    numbers: &[u64],
    first: usize,
    count: usize,
) -> Result<Vec<u64>, AllocError>
    ensures { IfOk result (λ run. run.items ≡ take count (drop first numbers.now)) }
{
    numbers
        .iter()
        .skip(first)
        .take(count)
        .copied()
        .collect(alloc)
}

/// What a tree says of a node of this status, which is split or closed, where the board's witnesses have these numbers.
pub(crate) fn item_at(
    alloc: Global,
    slots: &[Slot],
    numbers: &[u64],
    status: Status,
) -> Result<Item, AllocError>
    requires closed { is_open (status_of status) ≡ false }
    requires left { is_held (status_of status) ≡ false }
    requires small { AreSmall numbers.now }
    requires there { HasNumbers (length numbers.now) (status_of status) }
    ensures value { IfOk result (λ item. item_of item ≡ item_at slots.now numbers.now (status_of status)) }
    ensures small { IfOk result (λ item. IsSayable (item_of item)) }
{
    match status {
        Status::Split(slot, _) => Ok(Item::SplitAt(number_in(slots, slot))),
        Status::Witnessed(witness) => {
            let number = numbers.get(witness).copied().unwrap_or(0);
            Ok(Item::Refuted(number))
        }
        Status::Bounded(first, count) => bounded(alloc, numbers, first, count),
        Status::Costly | Status::Posted => Ok(Item::Costly),
        Status::Open | Status::Held(_) => unreachable!(),
    }
}

/// What a tree says of a node that so many witnesses bound, from this one on. With no witness it costs too much by
/// itself.
fn bounded(alloc: Global, numbers: &[u64], first: usize, count: usize) -> Result<Item, AllocError>
    requires small { AreSmall numbers.now }
    requires there { HasNumbers (length numbers.now) (status_of (Status.Bounded first count)) }
    ensures value { (ss : List SlotValue)
        → IfOk result (λ item. item_of item ≡ item_at ss numbers.now (status_of (Status.Bounded first count))) }
    ensures small { IfOk result (λ item. IsSayable (item_of item)) }
{
    if count == 0 {
        return Ok(Item::Costly);
    }
    let run = run_of(alloc, numbers, first, count)?;
    Ok(Item::Bounded(List::new(run)))
}
