//! Which node comes next.

ghost use Rattle.std.specs.Prelude.{◌≡◌, ◌≤◌, IfOk, IfErr, OnErr, MatchOption, true, false};
ghost use Rattle.std.specs.Arc.{arc_value};
ghost use Rattle.fs_board_offers.specs.Parts.{Part as PartValue};
ghost use Rattle.fs_board_offers.specs.Board.{Given, is_held, part_at, is_finished};
ghost use Rattle.fs_board_offers.specs.Histories.{HoldsNode};
ghost use Rattle.fs_board.specs.View.{reply_of};
ghost use Rattle.fs_board_search.specs.Histories.{GoesOn};
ghost use Rattle.fs_board_search.specs.inner.Steps.{IsTaken, done, is_given};

use crate::{Child, Taken};
use fs_board::{Board, Part, Reply};
use fs_kinds::Slot;
use std::alloc::AllocError;
use std::sync::Arc;

/// The number by which the search works on the board.
pub(crate) const WORKER: u8 = 0;

/// The node that was handed out, and its part.
fn given(reply: Reply) -> Option<(usize, Arc<Part>)>
    ensures { MatchOption result (is_given (reply_of reply) ≡ false) (λ got. reply_of reply
        ≡ Given got.0 (arc_value got.1)) }
{
    match reply {
        Reply::Node(node, part) => Some((node, part)),
        _ => None,
    }
}

/// The node as one that is taken.
fn hold(board: &Board, node: usize, part: Arc<Part>, slot: Option<Slot>) -> Taken
    requires { HoldsNode board.now.board 0 node (arc_value part) }
    ensures { IsTaken board.now result.node (arc_value result.part) }
{
    let _legal = board.log();
    Taken { node, part, slot }
}

/// Claims the newest of the children that is still open. None where there is none.
fn claim_child(board: &mut Board, children: &mut Vec<Child>) -> Result<Option<Taken>, AllocError>
    ensures goes { GoesOn board.old board.new }
    ensures done { done board.old.board ≤ done board.new.board }
    ensures ok { IfOk result
        (λ taken. MatchOption taken (GoesOn board.old board.new) (λ t. IsTaken board.new t.node (arc_value t.part))) }
{
    while let Some(child) = children.pop() {
        let reply = board.claim(WORKER, child.node)?;
        if let Some((node, part)) = given(reply) {
            return Ok(Some(hold(board, node, part, Some(child.slot))));
        }
    }
    Ok(None)
}

/// Adopts a node that somebody holds.
fn adopt(board: &mut Board, node: usize) -> Result<Taken, AllocError>
    requires { (p : PartValue) × (part_at is_held board.old.board node ≡ Some p) }
    ensures goes { GoesOn board.old board.new }
    ensures done { done board.old.board ≤ done board.new.board }
    ensures ok { IfOk result (λ t. IsTaken board.new t.node (arc_value t.part)) }
{
    let reply = board.adopt(WORKER, node)?;
    match given(reply) {
        Some((node, part)) => Ok(hold(board, node, part, None)),
        None => unreachable!(),
    }
}

/// Takes any node that is open, or adopts one that is held. None where the board is finished.
fn take_any(board: &mut Board) -> Result<Option<Taken>, AllocError>
    ensures goes { GoesOn board.old board.new }
    ensures done { done board.old.board ≤ done board.new.board }
    ensures ok { IfOk result (λ taken. MatchOption taken (is_finished board.new.board
        ≡ true) (λ t. IsTaken board.new t.node (arc_value t.part))) }
{
    let reply = board.take(WORKER)?;
    if let Some((node, part)) = given(reply) {
        return Ok(Some(hold(board, node, part, None)));
    }
    match board.any_held() {
        Some(held) => Ok(Some(adopt(board, held)?)),
        None => Ok(None),
    }
}

/// The next node, depth first: the newest child that is still open, else any node that is open or held. None where the
/// board is finished.
pub(crate) fn next_node(
    board: &mut Board,
    children: &mut Vec<Child>,
) -> Result<Option<Taken>, AllocError>
    ensures goes { GoesOn board.old board.new }
    ensures done { done board.old.board ≤ done board.new.board }
    ensures ok { IfOk result (λ taken. MatchOption taken (is_finished board.new.board
        ≡ true) (λ t. IsTaken board.new t.node (arc_value t.part))) }
{
    match claim_child(board, children)? {
        Some(taken) => Ok(Some(taken)),
        None => take_any(board),
    }
}
