//! Calls of two workers at a desk, from one thread, and how they end.
ghost use Rattle.std.specs.Prelude.{◌≡◌, ◌≤◌};
ghost use Rattle.std.specs.Arc.{arc_value};
ghost use Rattle.fs_model.specs.Test.{IsBounded, IsTest};
ghost use Rattle.fs_board_offers.specs.Questions.{IsAtSlots};

use crate::printing::{print_reply, say_refused};
use crate::questions::{Request, forbidden_on, problem_of, witness_on, witnesses_on};
use fs_board::Board;
use fs_board_offers::Question;
use fs_judge::Problem;
use fs_kinds::{Fault, Slot};
use fs_pool::{Asked, Desk, Pass, finish};
use fs_tests_shared::{PRICES, SB, question_of};
use std::alloc::Global;
use std::marker::Brand;
use std::sync::{Arc, Wait};

/// Asks the desk: the pass, with the fault where there is one.
fn ask<A: Asked, R: Wait>(
    rt: &R,
    alloc: Global,
    problem: &Problem,
    desk: &Desk<A>,
    pass: Pass<A>,
    request: Request,
) -> Result<Pass<A>, (Pass<A>, Fault)>
    requires test { IsBounded problem.now }
    requires same { problem.now ≡ A.question.test }
    requires slots { IsAtSlots A.question }
{
    match request {
        Request::Take => desk.take(rt, alloc, pass),
        Request::Claim(node) => desk.claim(rt, alloc, pass, node),
        Request::Adopt(node) => desk.adopt(rt, alloc, pass, node),
        Request::Split(node, slot) => desk.split(rt, alloc, pass, node, slot),
        Request::CutCost(node) => desk.cut_cost(rt, alloc, pass, node),
        Request::Peek(from) => desk.peek(rt, alloc, pass, from),
        Request::CutWitness(node, words) => match witness_on(alloc, problem, words) {
            Ok(witness) => desk.cut_witness(rt, alloc, pass, node, witness),
            Err(fault) => Err((pass, fault)),
        },
        Request::CutBound(node, words) => match witnesses_on(alloc, problem, words) {
            Ok(witnesses) => desk.cut_bound(rt, alloc, pass, node, witnesses),
            Err(fault) => Err((pass, fault)),
        },
        Request::Post(node, words) => match forbidden_on(alloc, problem, words) {
            Ok(forbidden) => desk.post(rt, alloc, pass, node, forbidden),
            Err(fault) => Err((pass, fault)),
        },
    }
}

/// The same, and once more where memory was refused. Says so, and where the first call has changed the pass.
fn ask_again<A: Asked, R: Print + Wait>(
    rt: &R,
    alloc: Global,
    problem: &Problem,
    desk: &Desk<A>,
    pass: Pass<A>,
    request: Request,
) -> Result<Pass<A>, Fault>
    requires test { IsBounded problem.now }
    requires same { problem.now ≡ A.question.test }
    requires slots { IsAtSlots A.question }
{
    let worker = pass.worker();
    let receipts = pass.receipts().len();
    let (back, fault) = match ask(rt, alloc, problem, desk, pass, request) {
        Ok(pass) => return Ok(pass),
        Err(refused) => refused,
    };
    if fault != Fault::Memory {
        return Err(fault);
    }
    if back.worker() != worker || back.receipts().len() != receipts {
        let _ = rt.println("changed");
    }
    say_refused(rt);
    match ask(rt, alloc, problem, desk, back, request) {
        Ok(pass) => Ok(pass),
        Err((_, fault)) => Err(fault),
    }
}

/// Prints the last reply of a worker, with how many receipts it has.
fn print_pass<A: Asked, R: Print>(rt: &R, pass: &Pass<A>) {
    if let Some(reply) = pass.reply() {
        print_reply(rt, reply);
    }
    let _ = println!(rt; ": {}", pass.receipts().len());
}

/// Asks in turn, and prints the last reply to each worker after each of its calls.
fn ask_all<A: Asked, R: Print + Wait>(
    rt: &R,
    alloc: Global,
    problem: &Problem,
    desk: &Desk<A>,
    passes: &mut Vec<Pass<A>>,
    requests: &[(usize, Request)],
) -> Result<(), Fault>
    requires test { IsBounded problem.now }
    requires same { problem.now ≡ A.question.test }
    requires slots { IsAtSlots A.question }
{
    for (worker, request) in requests {
        if *worker < passes.len() {
            let pass = passes.remove(*worker);
            let pass = ask_again(rt, alloc, problem, desk, pass, *request)?;
            print_pass(rt, &pass);
            passes.insert(*worker, pass)?;
        }
    }
    Ok(())
}

/// Prints how the desk ends with these passes.
fn print_end<A: Asked, R: Print>(rt: &R, desk: Desk<A>, passes: Vec<Pass<A>>) {
    match finish(desk, passes) {
        Ok(board) => {
            let _ = println!(rt; "a log of {}", board.log().len());
        }
        Err(unfinished) => {
            let _ = rt.println(unfinished);
        }
    }
}

/// A desk of a new board of the question, with its passes.
fn desk_of<A: Asked>(
    alloc: Global,
    question: &Arc<Question>,
    workers: u8,
) -> Result<(Desk<A>, Vec<Pass<A>>), Fault>
    requires test { IsTest (arc_value question.now).test }
    requires question { arc_value question.now ≡ A.question }
    requires limit { A.limit ≡ 14 }
    requires some { 1 ≤ workers }
    requires few { workers ≤ 16 }
{
    let board = Board::new(alloc, Arc::try_clone(question)?, 14)?;
    Desk::<A>::new(alloc, board, workers)
}

/// Asks a desk of the question, and prints how it ends with the first passes, so many.
fn ask_desk<A: Asked, R: Print + Wait>(
    rt: &R,
    alloc: Global,
    question: &Arc<Question>,
    problem: &Problem,
    requests: &[(usize, Request)],
    kept: usize,
) -> Result<(), Fault>
    requires test { IsTest (arc_value question.now).test }
    requires question { arc_value question.now ≡ A.question }
    requires same { problem.now ≡ A.question.test }
    requires slots { IsAtSlots A.question }
    requires limit { A.limit ≡ 14 }
{
    let _ = println!(rt; "a desk of 2 workers");
    let (desk, mut passes) = twice!(rt, desk_of::<A>(alloc, question, 2))?;
    ask_all(rt, alloc, problem, &desk, &mut passes, requests)?;
    passes.truncate(kept);
    print_end(rt, desk, passes);
    Ok(())
}

/// The same, with the problem that the question is.
fn make_desk<A: Asked, R: Print + Wait>(
    rt: &R,
    alloc: Global,
    question: &Arc<Question>,
    requests: &[(usize, Request)],
    kept: usize,
) -> Result<(), Fault>
    requires test { IsTest (arc_value question.now).test }
    requires question { arc_value question.now ≡ A.question }
    requires slots { IsAtSlots A.question }
    requires limit { A.limit ≡ 14 }
{
    let problem = problem_of(alloc, question)?;
    ask_desk::<A, R>(rt, alloc, question, &problem, requests, kept)
}

/// What the worker asks who leaves.
const BEFORE: &[(usize, Request)] = &[(1, Request::Take)];

/// What the other one asks then.
const AFTER: &[(usize, Request)] = &[
    (0, Request::Take),
    (0, Request::Adopt(0)),
    (0, Request::Claim(0)),
];

/// A worker leaves a desk of the question with a node, which another takes over. Leaving is no event.
fn make_left<A: Asked, R: Print + Wait>(
    rt: &R,
    alloc: Global,
    question: &Arc<Question>,
    problem: &Problem,
) -> Result<(), Fault>
    requires test { IsTest (arc_value question.now).test }
    requires question { arc_value question.now ≡ A.question }
    requires same { problem.now ≡ A.question.test }
    requires slots { IsAtSlots A.question }
    requires limit { A.limit ≡ 14 }
{
    let _ = rt.println("a desk that a worker leaves");
    let (desk, mut passes) = twice!(rt, desk_of::<A>(alloc, question, 2))?;
    ask_all(rt, alloc, problem, &desk, &mut passes, BEFORE)?;
    if let Some(pass) = passes.get(1) {
        desk.leave(rt, pass);
        print_pass(rt, pass);
    }
    ask_all(rt, alloc, problem, &desk, &mut passes, AFTER)?;
    print_end(rt, desk, passes);
    Ok(())
}

/// Prints how a desk of the question ends with the first pass of its own and that of another desk.
fn make_two<A: Asked, R: Print>(
    rt: &R,
    alloc: Global,
    question: &Arc<Question>,
) -> Result<(), Fault>
    requires test { IsTest (arc_value question.now).test }
    requires question { arc_value question.now ≡ A.question }
    requires limit { A.limit ≡ 14 }
{
    let _ = rt.println("two desks");
    let (desk, mut passes) = twice!(rt, desk_of::<A>(alloc, question, 2))?;
    let (_desk, mut others) = twice!(rt, desk_of::<A>(alloc, question, 1))?;
    let _second = passes.pop();
    if let Some(pass) = others.pop() {
        passes.push(pass)?;
    }
    print_end(rt, desk, passes);
    Ok(())
}

/// The slots of store buffering.
const SLOT_0: Slot = Slot { hart: 0, at: 2 };

const SLOT_1: Slot = Slot { hart: 1, at: 2 };

/// What two workers ask, each by its number.
const REQUESTS: &[(usize, Request)] = &[
    (0, Request::Take),
    (0, Request::CutWitness(0, "")),
    (0, Request::Split(0, SLOT_0)),
    (1, Request::CutCost(0)),
    (1, Request::Claim(4)),
    (1, Request::Split(4, SLOT_0)),
    (1, Request::Split(4, SLOT_1)),
    (0, Request::Claim(11)),
    (0, Request::Post(11, "P0:2=w,r P1:2=w,r")),
    (1, Request::Claim(6)),
    (1, Request::CutCost(6)),
    (1, Request::Claim(13)),
    (1, Request::CutCost(13)),
    (0, Request::Claim(11)),
    (0, Request::Adopt(6)),
    (1, Request::Adopt(6)),
    (1, Request::CutBound(6, "P0:2=rw,rw")),
];

const PEEKS: &[(usize, Request)] = &[(0, Request::Peek(0)), (1, Request::Peek(0))];

/// The desks of a question.
fn make_desks<A: Asked, R: Print + Wait>(
    rt: &R,
    alloc: Global,
    question: &Arc<Question>,
) -> Result<(), Fault>
    requires test { IsTest (arc_value question.now).test }
    requires question { arc_value question.now ≡ A.question }
    requires slots { IsAtSlots A.question }
    requires limit { A.limit ≡ 14 }
{
    make_desk::<A, R>(rt, alloc, question, REQUESTS, 2)?;
    make_desk::<A, R>(rt, alloc, question, PEEKS, 2)?;
    make_desk::<A, R>(rt, alloc, question, PEEKS, 1)?;
    let problem = problem_of(alloc, question)?;
    make_left::<A, R>(rt, alloc, question, &problem)?;
    make_two::<A, R>(rt, alloc, question)
}

/// The desks of store buffering.
pub(crate) fn make<R: Print + Wait + AllocGlobal>(rt: &R) -> Result<(), Fault> {
    let question = question_of(rt.alloc(), SB, PRICES)?;
    make_desks::<Brand, R>(rt, rt.alloc(), &question)
}
