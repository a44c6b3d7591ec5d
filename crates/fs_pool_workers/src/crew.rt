//! The answer to a question, searched by many workers.

ghost use Rattle.std.specs.Prelude.{◌≡◌, ◌≢◌, ◌≤◌, [], IfOk, IfErr, IfSome, IsOkUnless, OnOk, All, map};
ghost use Rattle.std.specs.Arc.{arc_value};
ghost use Rattle.fs_board_offers.specs.Offers.{slots};
ghost use Rattle.fs_board_offers.specs.Questions.{HasTop, IsAtSlots};
ghost use Rattle.fs_model.specs.Test.{IsBounded, IsStart};
ghost use Rattle.fs_board_offers.specs.Sizes.{HasNoRunFault};
ghost use Rattle.fs_board.specs.Growth.{AreWitnesses};
ghost use Rattle.fs_pool.specs.Asked.{IsAsked};
ghost use Rattle.fs_board_search.specs.Answers.{IsAnswer, IsSolveFault, Rests};
ghost use Rattle.fs_board_search.specs.Histories.{GoesOn};
ghost use Rattle.fs_pool_workers.specs.Ends.{GoesOnFrom};

use crate::gate::{Alone, Gate};
use crate::handed::handed_out;
use crate::hunters::Hunters;
use crate::work::Workplace;
use fs_board::Board;
use fs_board_offers::Question;
use fs_board_search::{
    Limits, Problem, Solved, Unwatched, conclude, problem_of, search_alone, solve_problem,
};
use fs_cert_evidence::Witness;
use fs_kinds::Fault;
use fs_pool::{Asked, Desk, Hand, Pass, hands};
use std::alloc::{AllocError, Global};
use std::marker::Brand;
use std::sync::{Arc, Wait};
use std::thread;
use std::thread::Threads;

/// A board that one worker has begun to search, and the witnesses that it has met.
#[derive(Drop)]
struct Begun {
    board: Board,
    met: Vec<Arc<Witness>>,
}

/// Passes and hands side by side.
fn side_by_side<A: Asked>(
    alloc: Global,
    passes: Vec<Pass<A>>,
    hands: Vec<Hand>,
) -> Result<Vec<(Pass<A>, Hand)>, AllocError> {
    let mut passes = passes;
    let mut hands = hands;
    let mut jobs = Vec::new(alloc);
    while let Some(pass) = passes.pop() {
        let Some(hand) = hands.pop() else {
            break;
        };
        jobs.push((pass, hand))?;
    }
    Ok(jobs)
}

/// Each pass goes with a hand to a thread of its own, works there until there is nothing to do, and comes back. Where
/// no thread can be made they work one after the other.
fn work_together<A: Asked + Send + Sync, R: Threads + Wait + Sync, G: Gate + Sync>(
    place: &Workplace<'_, A, R, G>,
    problem: &Arc<Problem>,
    passes: Vec<Pass<A>>,
    workers: u8,
) -> Result<Vec<Pass<A>>, Fault>
    requires question { arc_value place.now.question.now ≡ A.question }
    requires problem { arc_value problem.now ≡ A.question.test }
    requires met { AreWitnesses A.question.test (slots A.question.offers) (map arc_value place.now.met.now.items) }
    requires some { 1 ≤ workers }
    ensures { IsOkUnless result Fault.Memory }
{
    let rt = place.rt;
    let alloc = place.alloc;
    let desk = place.desk;
    let gate = place.gate;
    let question = place.question;
    let met = place.met;
    let jobs = side_by_side(alloc, passes, hands(alloc, workers)?)?;
    let came = thread::map_vec(
        rt,
        jobs,
        &|job: (Pass<A>, Hand)| {
            let (pass, hand) = job;
            let place = Workplace {
                rt,
                alloc,
                desk,
                gate,
                question,
                met,
            };
            place.work(pass, hand, problem)
        },
    )?;
    Ok(came)
}

/// The answer, from the board that the workers leave, which is searched to its end as by one: the log of the board that
/// comes with the answer begins with its log, which agrees with their passes. None where they leave none. The gate is
/// told which.
fn concluded<A: Asked, G: Gate>(
    alloc: Global,
    problem: &Arc<Problem>,
    desk: Desk<A>,
    passes: Vec<Pass<A>>,
    gate: &G,
) -> Result<Option<Solved>, Fault>
    requires test { IsBounded A.question.test }
    requires slots { IsAtSlots A.question }
    requires top { HasTop A.question.offers }
    requires same { arc_value problem.now ≡ A.question.test }
    requires clean { HasNoRunFault (arc_value problem.now) }
    ensures ok { IfOk result (λ found. IfSome found (λ s. IsAnswer A.question.test A.question.offers s.answer)) }
    ensures rests { IfOk result (λ found. IfSome found (Rests A.question A.limit)) }
    ensures left { IfOk result (λ found. IfSome found (λ s. IfSome s.board (GoesOnFrom passes.items desk.since))) }
    ensures err { IfErr result (λ f. f ≢ Fault.Memory → IsSolveFault A.question A.limit f) }
{
    let Some(board) = handed_out(desk, passes) else {
        gate.ended(None);
        return Ok(None);
    };
    gate.ended(Some(board.log().len()));
    let shared = Arc::try_clone(problem)?;
    let solved = conclude(alloc, shared, board, &mut Unwatched)?;
    Ok(Some(solved))
}

/// The answer by many workers, who go on with the board that one has begun; none where `concluded` gives none. That the
/// passes which it is given are those of these workers is what the code does and tests see: no contract can name them
/// once they are gone.
fn search_together<A: Asked + Send + Sync, R: Threads + Wait + Sync, G: Gate + Sync>(
    rt: &R,
    alloc: Global,
    problem: &Arc<Problem>,
    begun: Begun,
    workers: u8,
    gate: &G,
) -> Result<Option<Solved>, Fault>
    requires asked { IsAsked begun.board A.question A.limit }
    requires test { IsBounded A.question.test }
    requires slots { IsAtSlots A.question }
    requires top { HasTop A.question.offers }
    requires same { arc_value problem.now ≡ A.question.test }
    requires clean { HasNoRunFault (arc_value problem.now) }
    requires met { AreWitnesses A.question.test (slots A.question.offers) (map arc_value begun.met.items) }
    requires some { 1 ≤ workers }
    requires few { workers ≤ 16 }
    ensures ok { IfOk result (λ found. IfSome found (λ s. IsAnswer A.question.test A.question.offers s.answer)) }
    ensures rests { IfOk result (λ found. IfSome found (Rests A.question A.limit)) }
    ensures err { IfErr result (λ f. f ≢ Fault.Memory → IsSolveFault A.question A.limit f) }
{
    let Begun { board, met } = begun;
    let question = Arc::try_clone(board.question())?;
    let (desk, passes) = Desk::<A>::new(alloc, board, workers)?;
    let place = Workplace {
        rt,
        alloc,
        desk: &desk,
        gate,
        question: &question,
        met: &met,
    };
    let passes = work_together(&place, problem, passes, workers)?;
    concluded(alloc, problem, desk, passes, gate)
}

/// The board of the question, on which nothing was searched yet. The error is F19.
fn opened(alloc: Global, question: &Arc<Question>, limit: usize) -> Result<Board, Fault>
    requires test { IsBounded (arc_value question.now).test }
    requires limit { limit ≤ 1000000 }
    ensures asked { IfOk result (λ b. IsAsked b (arc_value question.now) limit) }
    ensures empty { IfOk result (λ b. b.log ≡ []) }
    ensures err { IsOkUnless result Fault.Memory }
{
    let question = Arc::try_clone(question)?;
    Board::new(alloc, question, limit)
}

/// One worker searches the board alone, but that others hunt for its verdicts where these take long. Where the others
/// are to join now the witnesses that it has met come back; none where the board is finished, or has no room left. The
/// faults are those of verdicts, and F19.
fn begin<R: Threads + Wait + Sync, G: Gate>(
    alloc: Global,
    problem: &Arc<Problem>,
    board: &mut Board,
    hunters: &Hunters<'_, R>,
    gate: &G,
) -> Result<Option<Vec<Arc<Witness>>>, Fault>
    requires { board.old.question.test ≡ arc_value problem.now }
    ensures goes { GoesOn board.old board.new }
    ensures met { IfOk result
        (λ found. IfSome found (λ met. AreWitnesses board.old.question.test (slots board.old.question.offers)
        (map arc_value met.items))) }
    ensures err { IfErr result (λ f. f ≢ Fault.Memory → IsSolveFault board.old.question board.old.board.limit f) }
{
    let shared = Arc::try_clone(problem)?;
    let most = gate.nodes_alone();
    match search_alone(alloc, shared, board, most, &mut Alone { gate }, hunters) {
        Ok(found) => Ok(found),
        Err(Fault::NodeLimit) => Ok(None),
        Err(fault) => Err(fault),
    }
}

/// The answer to a question, as `fs_board_search::solve` gives it, searched by up to this many workers. The first one
/// is alone at first, and needs neither threads nor a desk; where judging takes long all of them search together, and
/// what they leave is searched as by one: all of it, where the board's log and what they saw of it don't agree. The
/// faults are those of `fs_board_search::solve`. Several workers may make more nodes, and so come to F16 where one has
/// the answer. A thread that never comes back is waited for without an end.
pub fn solve<R: Threads + Wait + Sync, G: Gate + Sync>(
    rt: &R,
    alloc: Global,
    question: Arc<Question>,
    workers: u8,
    limits: Limits,
    gate: &G,
) -> Result<Solved, Fault>
    requires test { IsBounded (arc_value question).test }
    requires starts { All IsStart (arc_value question).test.starts }
    requires slots { IsAtSlots (arc_value question) }
    requires top { HasTop (arc_value question).offers }
    requires some { 1 ≤ workers }
    requires few { workers ≤ 16 }
    requires least { 1 ≤ limits.nodes }
    requires most { limits.nodes ≤ 1000000 }
    ensures ok { IfOk result (λ s. IsAnswer (arc_value question).test (arc_value question).offers s.answer) }
    ensures clean { OnOk result (HasNoRunFault (arc_value question).test) }
    ensures rests { IfOk result (Rests (arc_value question) limits.nodes) }
    ensures err { IfErr result (λ f. f ≢ Fault.Memory → IsSolveFault (arc_value question) limits.nodes f) }
{
    if workers == 1 {
        return fs_board_search::solve(alloc, question, limits, &mut Alone { gate });
    }
    let problem = problem_of(alloc, &question, limits.inferences)?;
    let hunters = Hunters::new(rt, workers);
    let mut board = opened(alloc, &question, limits.nodes)?;
    let Some(met) = begin(alloc, &problem, &mut board, &hunters, gate)? else {
        let solved = conclude(alloc, problem, board, &mut Unwatched)?;
        return Ok(solved);
    };
    let begun = Begun { board, met };
    let found = search_together::<Brand, R, G>(rt, alloc, &problem, begun, workers, gate)?;
    if let Some(solved) = found {
        return Ok(solved);
    }
    let solved = solve_problem(alloc, question, problem, limits.nodes, &mut Unwatched)?;
    Ok(solved)
}
