//! The search: depth first, the planned child first and then none.

ghost use Rattle.std.specs.Prelude.{◌≡◌, ◌≢◌, IfOk, IfErr, IfSome, IfNone, IsTrue, OnOk, map, true, false};
ghost use Rattle.std.specs.Arc.{arc_value};
ghost use Rattle.fs_board.specs.Growth.{AreWitnesses};
ghost use Rattle.fs_board_offers.specs.Board.{is_finished};
ghost use Rattle.fs_board_offers.specs.Offers.{slots};
ghost use Rattle.fs_board_search.specs.Answers.{IsSearchFault};
ghost use Rattle.fs_board_search.specs.Histories.{GoesOn};
ghost use Rattle.fs_board_search.specs.inner.Steps.{MovesOn, IsTaken};

use crate::closing::{close_or_split, try_way};
use crate::next_node::next_node;
use crate::{Child, Scout, TRIES, Taken, Watch};
use fs_board::Board;
use fs_board_offers::cost;
use fs_cert_evidence::Witness;
use fs_judge::{Alone, Problem, Team};
use fs_kinds::Fault;
use std::alloc::{AllocError, Global};
use std::sync::Arc;

/// What the cheapest fences posted so far cost.
fn best_cost(board: &Board) -> Option<u64> {
    let best = board.bound()?;
    let costs = cost(board.question().offers(), best.placement.as_slice());
    u64::try_from(costs).ok()
}

/// Is done with a node in the first way that serves.
fn finish_node(
    alloc: Global,
    board: &mut Board,
    scout: &mut Scout,
    children: &mut Vec<Child>,
    taken: &Taken,
) -> Result<(), Fault>
    requires same { board.old.question ≡ scout.old }
    requires taken { IsTaken board.old taken.now.node (arc_value taken.now.part) }
    ensures scout { scout.new ≡ scout.old }
    ensures goes { GoesOn board.old board.new }
    ensures ok { OnOk result (MovesOn board.old board.new) }
    ensures err { IfErr result (λ f. f ≢ Fault.Memory → IsSearchFault board.old f) }
{
    scout.see_bound(board.bound())?;
    for way in TRIES {
        if try_way(alloc, board, scout, way, taken)? {
            return Ok(());
        }
    }
    close_or_split(alloc, board, scout, children, taken)
}

/// Is it time to stop, for a worker that is alone for so many nodes at most? Then it is done with these, or judging
/// takes the time.
fn may_stop(scout: &Scout, alone: Option<usize>, nodes: usize) -> bool
    ensures { IfNone alone (result ≡ false) }
{
    match alone {
        Some(most) => nodes >= most || scout.judges_much(nodes),
        None => false,
    }
}

/// Searches until the board is finished, and then it is true; or, where the worker is alone for so many nodes at most,
/// until it is done with these, or others may help.
#[tactic(auto, using(crate::proofs::Stopping::stopped))]
fn sweep<W: Watch, T: Team>(
    alloc: Global,
    board: &mut Board,
    scout: &mut Scout,
    alone: Option<usize>,
    watch: &mut W,
    team: &T,
) -> Result<bool, Fault>
    requires team { T.may_hunt }
    requires same { board.old.question ≡ scout.old }
    ensures scout { scout.new ≡ scout.old }
    ensures goes { GoesOn board.old board.new }
    ensures all { IfOk result (λ all. IfNone alone (all ≡ true)) }
    ensures finished { IfOk result (λ all. IsTrue all → is_finished board.new.board ≡ true) }
    ensures err { IfErr result (λ f. f ≢ Fault.Memory → IsSearchFault board.old f) }
{
    let mut children = Vec::new(alloc);
    let mut nodes: usize = 0;
    while !may_stop(scout, alone, nodes) {
        let Some(taken) = next_node(board, &mut children)? else {
            return Ok(true);
        };
        watch.searched(board.len(), best_cost(board));
        scout.prepare(alloc, &taken, watch, team)?;
        finish_node(alloc, board, scout, &mut children, &taken)?;
        nodes = nodes.saturating_add(1);
    }
    Ok(false)
}

/// A scout of the board's question that makes a plan. The problem is that of the board's test.
fn planner_of(alloc: Global, board: &Board, problem: Arc<Problem>) -> Result<Scout, AllocError>
    requires { board.now.question.test ≡ arc_value problem }
    ensures { IfOk result (λ scout. scout ≡ board.now.question) }
{
    let question = Arc::try_clone(board.question())?;
    Ok(Scout::planner(alloc, question, problem))
}

/// What `search` does, with this scout.
fn sweep_all<W: Watch>(
    alloc: Global,
    board: &mut Board,
    scout: &mut Scout,
    watch: &mut W,
) -> Result<(), Fault>
    requires { board.old.question ≡ scout.old }
    ensures goes { GoesOn board.old board.new }
    ensures ok { OnOk result (is_finished board.new.board ≡ true) }
    ensures err { IfErr result (λ f. f ≢ Fault.Memory → IsSearchFault board.old f) }
{
    let _all = sweep(alloc, board, scout, None, watch, &Alone)?;
    Ok(())
}

/// What `search_alone` does, with this scout.
fn sweep_alone<W: Watch, T: Team>(
    alloc: Global,
    board: &mut Board,
    scout: &mut Scout,
    most: usize,
    watch: &mut W,
    team: &T,
) -> Result<Option<Vec<Arc<Witness>>>, Fault>
    requires team { T.may_hunt }
    requires same { board.old.question ≡ scout.old }
    ensures goes { GoesOn board.old board.new }
    ensures met { IfOk result
        (λ found. IfSome found
        (λ met. AreWitnesses board.old.question.test (slots board.old.question.offers) (map arc_value met.items))) }
    ensures finished { IfOk result (λ found. IfNone found (is_finished board.new.board ≡ true)) }
    ensures err { IfErr result (λ f. f ≢ Fault.Memory → IsSearchFault board.old f) }
{
    if sweep(alloc, board, scout, Some(most), watch, team)? {
        return Ok(None);
    }
    Ok(Some(scout.witnesses(alloc)?))
}

/// Searches until the board is finished, whatever open and held nodes it has: a child of its own first, then any open
/// node, then any that is held, whoever holds it. It works as worker 0, and makes a plan before the first node. F16
/// where a split is refused for want of nodes, and then the tree of all placements may have more nodes below its root
/// than the limit; F13 to F15 where a verdict can't be made for the candidates; else F19. The problem is that of the
/// board's test.
///
/// There are no more nodes than the board's limit allows. At each one, the stored witnesses are held against it by four
/// bits a slot, and those that show the outcome under its least placement are sorted. Where they don't close it, the
/// judge is asked for a look, and where that finds nothing for a verdict, unless the plan has it. The watch is told of
/// each node before it is looked at.
pub fn search<W: Watch>(
    alloc: Global,
    problem: Arc<Problem>,
    board: &mut Board,
    watch: &mut W,
) -> Result<(), Fault>
    requires { board.old.question.test ≡ arc_value problem }
    ensures goes { GoesOn board.old board.new }
    ensures ok { OnOk result (is_finished board.new.board ≡ true) }
    ensures err { IfErr result (λ f. f ≢ Fault.Memory → IsSearchFault board.old f) }
{
    let mut scout = planner_of(alloc, board, problem)?;
    sweep_all(alloc, board, &mut scout, watch)
}

/// Searches as `search` does, but stops when it is done with so many nodes, or where judging takes so long that other
/// workers may help: then no node is held by it, and the witnesses that it has met come back. None where the board is
/// finished. The team may hunt for the verdicts of its plan. The faults are those of `search`.
pub fn search_alone<W: Watch, T: Team>(
    alloc: Global,
    problem: Arc<Problem>,
    board: &mut Board,
    most: usize,
    watch: &mut W,
    team: &T,
) -> Result<Option<Vec<Arc<Witness>>>, Fault>
    requires team { T.may_hunt }
    requires same { board.old.question.test ≡ arc_value problem }
    ensures goes { GoesOn board.old board.new }
    ensures met { IfOk result
        (λ found. IfSome found
        (λ met. AreWitnesses board.old.question.test (slots board.old.question.offers) (map arc_value met.items))) }
    ensures finished { IfOk result (λ found. IfNone found (is_finished board.new.board ≡ true)) }
    ensures err { IfErr result (λ f. f ≢ Fault.Memory → IsSearchFault board.old f) }
{
    let mut scout = planner_of(alloc, board, problem)?;
    sweep_alone(alloc, board, &mut scout, most, watch, team)
}
