//! What the board's replies mean to a search by one worker.

ghost use Rattle.std.specs.Prelude.{◌≡◌, ◌≢◌, IfOk, IfErr, OnOk};
ghost use Rattle.std.specs.Arc.{arc_value};
ghost use Rattle.fs_board_offers.specs.Offers.{slots};
ghost use Rattle.fs_cert_evidence.specs.CandidateFaults.{IsCandidateFault};
ghost use Rattle.fs_board_offers.specs.Parts.{slots_in_part};
ghost use Rattle.fs_board.specs.View.{reply_of};
ghost use Rattle.fs_board_search.specs.Answers.{IsSearchFault};
ghost use Rattle.fs_board_search.specs.Histories.{GoesOn};
ghost use Rattle.fs_board_search.specs.inner.Steps.{IsTried, MovesOn, IsTaken, is_end};

use crate::next_node::WORKER;
use crate::{Child, Scout, Taken, Way};
use fs_board::{Board, Reply};
use fs_kinds::Fault;
use std::alloc::Global;

/// Was the node closed or split?
fn is_end(reply: &Reply) -> bool
    ensures { result ≡ is_end (reply_of reply.now) }
{
    matches!(reply, Reply::Closed | Reply::Children(_, _))
}

/// Tries one way to be done with a node. Where it doesn't serve nothing is changed.
pub(crate) fn try_way(
    alloc: Global,
    board: &mut Board,
    scout: &mut Scout,
    way: Way,
    taken: &Taken,
) -> Result<bool, Fault>
    requires same { board.old.question ≡ scout.old }
    requires slots { slots_in_part (arc_value taken.now.part) ≡ slots scout.old.offers }
    ensures scout { scout.new ≡ scout.old }
    ensures ok { IfOk result (λ ended. IsTried board.old board.new ended) }
    ensures goes { GoesOn board.old board.new }
    ensures err { IfErr result (λ f. f ≢ Fault.Memory → IsCandidateFault scout.old.test f) }
{
    let found = scout.propose(alloc, way, taken)?;
    let Some(event) = found else {
        return Ok(false);
    };
    let reply = board.ask(alloc, WORKER, &event)?;
    Ok(is_end(&reply))
}

/// Is done with a node in the last way, and puts its children on the stack where it is split. F16 where there is no
/// room for them.
pub(crate) fn close_or_split(
    alloc: Global,
    board: &mut Board,
    scout: &mut Scout,
    children: &mut Vec<Child>,
    taken: &Taken,
) -> Result<(), Fault>
    requires same { board.old.question ≡ scout.old }
    requires taken { IsTaken board.old taken.now.node (arc_value taken.now.part) }
    ensures scout { scout.new ≡ scout.old }
    ensures goes { GoesOn board.old board.new }
    ensures ok { OnOk result (MovesOn board.old board.new) }
    ensures err { IfErr result (λ f. f ≢ Fault.Memory → IsSearchFault board.old f) }
{
    let _legal = board.log();
    let event = scout.last(alloc, taken)?;
    let reply = board.ask(alloc, WORKER, &event)?;
    if !is_end(&reply) {
        return Err(Fault::NodeLimit);
    }
    scout.keep_children(children, taken, &event, &reply)?;
    Ok(())
}
