//! The tree of a finished board, in preorder.

ghost use Rattle.std.specs.Prelude.{◌≡◌, ◌<◌, ◌≤◌, IfOk, length, map, true, count_by, is_some, Some, slice_get};
ghost use Rattle.fs_board_offers.specs.Offers.{is_offered, offer_at, slots};
ghost use Rattle.fs_cert_json.specs.Kept.{item_of};
ghost use Rattle.fs_board_offers.specs.Board.{Node, is_finished};
ghost use Rattle.fs_board.specs.View.{status_of};
ghost use Rattle.fs_cert.specs.inner.Items.{AreSmall, AreSayable, IsTreeOf, ways_of};

use crate::items::item_at;
use crate::pending::Pending;
use fs_board::{Board, Status};
use fs_board_offers::Offers;
use fs_cert_json::Item;
use fs_kinds::{Kind, List, Slot};
use std::alloc::{AllocError, Global};

/// How many of the kinds are offered at the slot.
fn offered(offers: &Offers, slot: Slot, kinds: &[Kind]) -> usize
    ensures value { result ≡ count_by (λ kind. is_offered (offer_at offers.now slot) (Some kind)) kinds.now }
    ensures most { result ≤ length kinds.now }
{
    kinds
        .iter()
        .filter(|kind| offers.is_offered(slot, Some(**kind)))
        .count()
}

/// In how many ways a node of this status was split: none at its slot, or a kind that is offered there.
fn ways(offers: &Offers, status: Status) -> usize
    ensures value { result ≡ ways_of offers.now (status_of status) }
    ensures most { result ≤ 11 }
{
    match status {
        Status::Split(slot, _) => 1 + offered(offers, slot, &Kind::ALL),
        _ => 0,
    }
}

/// What became of a node that is there.
fn status_at(board: &Board, node: usize) -> Status
    requires { node < length board.now.board.nodes }
    ensures { (n : Node) → slice_get board.now.board.nodes node ≡ Some n → status_of result ≡ n.status }
{
    match board.status(node) {
        Some(status) => status,
        None => unreachable!(),
    }
}

/// The items of a finished board's tree in preorder, where its witnesses have these numbers in the certificate: each
/// node before those below it. It takes time of nodes times slots.
pub(crate) fn tree_of(
    alloc: Global,
    board: &Board,
    places: &[Slot],
    numbers: &[u64],
) -> Result<List<Item>, AllocError>
    requires finished { is_finished board.now.board ≡ true }
    requires places { places.now ≡ slots board.now.question.offers }
    requires small { AreSmall numbers.now }
    requires long { length numbers.now ≡ length board.now.board.witnesses }
    ensures tree { IfOk result (λ items. IsTreeOf board.now numbers.now (map item_of items)) }
    ensures small { IfOk result (λ items. AreSayable (map item_of items)) }
{
    let _legal = board.log();
    let _count = board.len();
    let offers = board.question().offers();
    let mut items = Vec::new(alloc);
    let mut pending = Pending::new(alloc)?;
    while let Some(node) = pending.pop() {
        let status = status_at(board, node);
        items.push(item_at(alloc, places, numbers, status)?)?;
        let ways = ways(offers, status);
        pending.push_children(status, ways)?;
    }
    Ok(List::new(items))
}
