//! Events of the search board.
ghost use Rattle.std.specs.Prelude.{◌≡◌, ◌≤◌, IfOk};
ghost use Rattle.std.specs.Arc.{arc_value};
ghost use Rattle.fs_model.specs.Test.{IsBounded, IsTest};
ghost use Rattle.fs_board_offers.specs.Questions.{IsAtSlots};

use crate::printing::{print_fences, print_reply, say_refused};
use crate::questions::{Request, forbidden_on, problem_of, witness_on, witnesses_on};
use fs_board::{Board, Reply};
use fs_board_offers::Question;
use fs_judge::Problem;
use fs_kinds::{Fault, Slot};
use fs_tests_shared::{MP11, PRICES, SB, TWO_WRITES, question_of};
use std::alloc::Global;
use std::sync::Arc;

/// What of a board may not change where a call is refused memory.
#[derive(Clone, Copy)]
struct State {
    log: usize,
    nodes: usize,
    open: usize,
    witnesses: usize,
    cost: Option<u64>,
}

impl State {
    /// That of the board.
    fn of(board: &Board) -> State {
        let offers = board.question().offers();
        State {
            log: board.log().len(),
            nodes: board.len(),
            open: board.open_count(),
            witnesses: board.witnesses().len(),
            cost: board.bound().map(|bound| offers.cost(&bound.placement)),
        }
    }

    /// Are both the same?
    fn is_same(self, other: State) -> bool {
        self.log == other.log
            && self.nodes == other.nodes
            && self.open == other.open
            && self.witnesses == other.witnesses
            && self.cost == other.cost
    }
}

/// Asks the board, and gives its reply.
#[tactic(auto, using(crate::proofs::Asked::question_stays))]
fn ask(
    alloc: Global,
    problem: &Problem,
    board: &mut Board,
    worker: u8,
    request: Request,
) -> Result<Reply, Fault>
    requires test { IsBounded problem.now }
    requires same { board.old.question.test ≡ problem.now }
    requires slots { IsAtSlots board.old.question }
    ensures same { board.new.question ≡ board.old.question }
{
    match request {
        Request::Take => Ok(board.take(worker)?),
        Request::Claim(node) => Ok(board.claim(worker, node)?),
        Request::Adopt(node) => Ok(board.adopt(worker, node)?),
        Request::Split(node, slot) => Ok(board.split(alloc, worker, node, slot)?),
        Request::CutCost(node) => Ok(board.cut_cost(alloc, worker, node)?),
        Request::CutWitness(node, words) => {
            let witness = witness_on(alloc, problem, words)?;
            Ok(board.cut_witness(alloc, worker, node, witness)?)
        }
        Request::CutBound(node, words) => {
            let witnesses = witnesses_on(alloc, problem, words)?;
            Ok(board.cut_bound(alloc, worker, node, witnesses.as_slice())?)
        }
        Request::Post(node, words) => {
            let forbidden = forbidden_on(alloc, problem, words)?;
            Ok(board.post(alloc, worker, node, forbidden)?)
        }
        Request::Peek(from) => Ok(board.peek(alloc, worker, from)?),
    }
}

/// The same, and once more where memory was refused. Says so, and where the first call has changed the board.
fn ask_again<R: Print>(
    rt: &R,
    alloc: Global,
    problem: &Problem,
    board: &mut Board,
    worker: u8,
    request: Request,
) -> Result<Reply, Fault>
    requires test { IsBounded problem.now }
    requires same { board.old.question.test ≡ problem.now }
    requires slots { IsAtSlots board.old.question }
    ensures same { board.new.question ≡ board.old.question }
{
    let before = State::of(board);
    let reply = ask(alloc, problem, board, worker, request);
    if !matches!(reply, Err(Fault::Memory)) {
        return reply;
    }
    if !before.is_same(State::of(board)) {
        let _ = rt.println("changed");
    }
    say_refused(rt);
    ask(alloc, problem, board, worker, request)
}

/// Prints the reply, and how the board is now: its log, its nodes, which of these are open, its witnesses and its
/// bound.
fn print_board<R: Print>(rt: &R, reply: &Reply, board: &Board) {
    print_reply(rt, reply);
    let state = State::of(board);
    let _ = print!(rt;
        ": {} {} {} {}",
        state.log, state.nodes, state.open, state.witnesses
    );
    if let Some(bound) = board.bound() {
        print_fences(rt, &bound.placement);
    }
    let _ = rt.println("");
}

/// Asks in turn, and prints each reply.
fn ask_all<R: Print>(
    rt: &R,
    alloc: Global,
    problem: &Problem,
    board: &mut Board,
    asks: &[(u8, Request)],
) -> Result<(), Fault>
    requires test { IsBounded problem.now }
    requires same { board.old.question.test ≡ problem.now }
    requires slots { IsAtSlots board.old.question }
{
    for (worker, request) in asks {
        let reply = ask_again(rt, alloc, problem, board, *worker, *request)?;
        print_board(rt, &reply, board);
    }
    Ok(())
}

/// The board of the question.
fn board_of(alloc: Global, question: &Arc<Question>, limit: usize) -> Result<Board, Fault>
    requires test { IsTest (arc_value question.now).test }
    requires limit { limit ≤ 1000000 }
    ensures { IfOk result (λ board. board.question ≡ arc_value question.now) }
{
    Board::new(alloc, Arc::try_clone(question)?, limit)
}

/// Asks a board of the question with this limit.
fn ask_board<R: Print>(
    rt: &R,
    alloc: Global,
    question: &Arc<Question>,
    problem: &Problem,
    limit: usize,
    asks: &[(u8, Request)],
) -> Result<(), Fault>
    requires test { IsTest (arc_value question.now).test }
    requires same { problem.now ≡ (arc_value question.now).test }
    requires slots { IsAtSlots (arc_value question.now) }
    requires limit { limit ≤ 1000000 }
{
    let _ = println!(rt; "a board with limit {limit}");
    let mut board = twice!(rt, board_of(alloc, question, limit))?;
    ask_all(rt, alloc, problem, &mut board, asks)
}

/// Asks a board of the test and the prices with this limit.
fn make_board<R: Print>(
    rt: &R,
    alloc: Global,
    text: &str,
    prices: &str,
    limit: usize,
    asks: &[(u8, Request)],
) -> Result<(), Fault>
    requires { limit ≤ 1000000 }
{
    let question = question_of(alloc, text, prices)?;
    let problem = problem_of(alloc, &question)?;
    ask_board(rt, alloc, &question, &problem, limit, asks)
}

/// The slots of store buffering.
const SLOT_0: Slot = Slot { hart: 0, at: 2 };

const SLOT_1: Slot = Slot { hart: 1, at: 2 };

/// Two workers on a board of store buffering, with all replies but those of the other boards.
const FIRST: &[(u8, Request)] = &[
    (0, Request::Take),
    (1, Request::Take),
    (0, Request::Split(0, SLOT_0)),
    (1, Request::CutCost(0)),
    (1, Request::Claim(4)),
    (1, Request::Split(4, SLOT_0)),
    (1, Request::Split(4, SLOT_1)),
    (0, Request::Claim(11)),
    (0, Request::Post(11, "P0:2=w,r P1:2=w,r")),
    (1, Request::Claim(6)),
    (1, Request::CutCost(6)),
    (1, Request::Claim(13)),
    (1, Request::CutCost(13)),
    (0, Request::Claim(11)),
    (0, Request::Adopt(6)),
    (1, Request::Split(6, SLOT_1)),
    (0, Request::Split(6, SLOT_1)),
    (1, Request::Peek(0)),
    (0, Request::CutBound(6, "P0:2=rw,rw")),
];

/// The first calls on a board that is full by one node sooner.
const FULL: &[(u8, Request)] = &[
    (0, Request::Take),
    (1, Request::Take),
    (0, Request::Split(0, SLOT_0)),
    (1, Request::CutCost(0)),
    (1, Request::Claim(4)),
    (1, Request::Split(4, SLOT_0)),
    (1, Request::Split(4, SLOT_1)),
];

/// A board of message passing in order, whose root is closed by a witness.
const WITNESSED: &[(u8, Request)] = &[
    (0, Request::Peek(0)),
    (0, Request::Take),
    (1, Request::CutWitness(0, "P0:3=rw,rw P1:1=rw,rw")),
    (0, Request::CutWitness(0, "P0:3=rw,rw P1:1=rw,rw")),
    (1, Request::Peek(0)),
    (1, Request::Peek(1)),
    (1, Request::Take),
];

/// A board of store buffering, whose root nothing closes.
const OPEN: &[(u8, Request)] = &[
    (0, Request::Take),
    (0, Request::CutWitness(0, "")),
    (0, Request::CutBound(0, "P0:2=w,r")),
    (0, Request::CutBound(0, "")),
    (1, Request::Adopt(0)),
    (1, Request::Post(0, "P0:2=w,r P1:2=w,r")),
];

/// Prices by which `w,w` and `w,rw` cost as much.
const EQUAL: &str = r#"{"w,w":2,"w,rw":2,"rw,rw":3}"#;

/// A board of 2+2W, of whose placements that cost as much the bound is the first: `w,w` stands before `w,rw`. Node 8
/// has `rw,rw` at P1:3, and so costs 5; node 5 has no fence there, and costs 2.
const BOUNDED: &[(u8, Request)] = &[
    (0, Request::Take),
    (0, Request::Split(0, Slot { hart: 0, at: 3 })),
    (0, Request::Claim(3)),
    (0, Request::Split(3, Slot { hart: 1, at: 3 })),
    (0, Request::Claim(7)),
    (0, Request::Post(7, "P0:3=w,rw P1:3=w,rw")),
    (0, Request::Claim(6)),
    (0, Request::CutCost(6)),
    (0, Request::Post(6, "P0:3=w,rw P1:3=w,w")),
    (0, Request::Claim(8)),
    (0, Request::CutCost(8)),
    (0, Request::Claim(5)),
    (0, Request::CutCost(5)),
];

/// Asks the boards.
pub(crate) fn make<R: Print + AllocGlobal>(rt: &R) -> Result<(), Fault> {
    let alloc = rt.alloc();
    make_board(rt, alloc, SB, PRICES, 14, FIRST)?;
    make_board(rt, alloc, SB, PRICES, 13, FULL)?;
    make_board(rt, alloc, MP11, PRICES, 1, WITNESSED)?;
    make_board(rt, alloc, SB, PRICES, 1, OPEN)?;
    make_board(rt, alloc, TWO_WRITES, EQUAL, 8, BOUNDED)
}
