//! The answer to a question.

ghost use Rattle.std.specs.Prelude.{◌≡◌, ◌≢◌, ◌≤◌, IfOk, IfErr, IfSome, MatchOption, OnOk, IsOkUnless, All};
ghost use Rattle.std.specs.Prelude.{Some, None, true, List};
ghost use Rattle.std.specs.Arc.{arc_value};
ghost use Rattle.fs_kinds.specs.declared.placement.Entry.{Entry};
ghost use Rattle.fs_kinds.specs.Placement.{all_with};
ghost use Rattle.fs_board_offers.specs.Offers.{cost, IsPlacement, IsCheapest};
ghost use Rattle.fs_board_offers.specs.Questions.{HasTop, IsAtSlots};
ghost use Rattle.fs_model.specs.Test.{IsBounded, IsStart};
ghost use Rattle.fs_model.specs.Slots.{slots};
ghost use Rattle.fs_model.specs.Allows.{Allows};
ghost use Rattle.fs_cert_evidence.specs.CandidateFaults.{IsCandidateFault};
ghost use Rattle.fs_board_offers.specs.Board.{is_finished};
ghost use Rattle.fs_board_offers.specs.Sizes.{HasNoRunFault};
ghost use Rattle.fs_cert_evidence.specs.Evidence.{ShowsForbidden, placement_in};
ghost use Rattle.fs_judge.specs.Verdicts.{IsVerdict};
ghost use Rattle.fs_board_search.specs.Answers.{IsAnswer, IsAtAnEnd, IsEndFault, IsLimitFault, IsSolveFault, Rests};
ghost use Rattle.fs_board_search.specs.Answers.{placement_of};
ghost use Rattle.fs_board_search.specs.Histories.{GoesOn};

use crate::Watch;
use crate::answer::{Answer, Solved};
use crate::limits::Limits;
use crate::sweep::search;
use fs_board::Board;
use fs_board_offers::{Offers, Question};
use fs_cert_evidence::Forbidden;
use fs_judge::{Problem, Verdict};
use fs_kinds::{Fault, Kind, Placement};
use fs_model::slots;
use std::alloc::Global;
use std::sync::Arc;

/// The placement as an answer, with its cost.
fn fenced(offers: &Offers, forbidden: Arc<Forbidden>) -> Answer
    ensures { result ≡ Answer.Fenced forbidden (cost offers.now (placement_in forbidden)) }
{
    let cost = offers.cost(&forbidden.placement);
    Answer::Fenced { forbidden, cost }
}

/// The verdict on no fence at all.
fn verdict_on_none(alloc: Global, problem: &Problem) -> Result<Verdict, Fault>
    requires { IsBounded problem.now }
    ensures ok { IfOk result (λ v. IsVerdict problem.now (all_with None (slots problem.now)) v) }
    ensures err { IfErr result (λ f. f ≢ Fault.Memory → IsCandidateFault problem.now f) }
{
    let places = slots(alloc, problem.test())?;
    let placement = Placement::bottom(alloc, &places)?;
    problem.verdict(alloc, &placement, &[])
}

/// The verdict on `rw,rw` in every slot.
fn verdict_on_all(alloc: Global, problem: &Problem) -> Result<Verdict, Fault>
    requires { IsBounded problem.now }
    ensures ok { IfOk result (λ v. IsVerdict problem.now (all_with (Some Kind.RwRw) (slots problem.now)) v) }
    ensures err { IfErr result (λ f. f ≢ Fault.Memory → IsCandidateFault problem.now f) }
{
    let places = slots(alloc, problem.test())?;
    let placement = Placement::top(alloc, &places)?;
    problem.verdict(alloc, &placement, &[])
}

/// The bound of a finished board as an answer. None where it has no bound.
fn posted_answer(board: &Board) -> Result<Option<Answer>, Fault>
    requires finished { is_finished board.now.board ≡ true }
    ensures ok { IfOk result (λ found. MatchOption found (board.now.board.bound ≡ None)
        (λ a. IsAnswer board.now.question.test board.now.question.offers a × (board.now.board.bound ≡ placement_of a))) }
    ensures err { IsOkUnless result Fault.Memory }
{
    let _legal = board.log();
    let Some(best) = board.bound() else {
        return Ok(None);
    };
    let forbidden = Arc::try_clone(best)?;
    let answer = fenced(board.question().offers(), forbidden);
    Ok(Some(answer))
}

/// The answer of a finished board: its bound, or where it has none the witness for `rw,rw` in every slot. This is the
/// problem's own, and not that of a judge, so that it is the same whatever was searched before.
fn answer_of(alloc: Global, problem: &Problem, board: &Board) -> Result<Answer, Fault>
    requires bounded { IsBounded problem.now }
    requires slots { IsAtSlots board.now.question }
    requires top { HasTop board.now.question.offers }
    requires same { board.now.question.test ≡ problem.now }
    requires finished { is_finished board.now.board ≡ true }
    ensures ok { IfOk result (IsAnswer board.now.question.test board.now.question.offers) }
    ensures bound { IfOk result (λ a. board.now.board.bound ≡ placement_of a) }
    ensures err { IfErr result (λ f. f ≢ Fault.Memory → IsCandidateFault problem.now f) }
{
    let _legal = board.log();
    if let Some(answer) = posted_answer(board)? {
        return Ok(answer);
    }
    let verdict = verdict_on_all(alloc, problem)?;
    let Verdict::Allowed(witness) = verdict else {
        unreachable!()
    };
    Ok(Answer::None { witness })
}

/// The answer where the search came to its limit: none where `rw,rw` in every slot isn't enough, no fence where none is
/// needed. Else F16, or the fault of a verdict. As in `answer_of` the witness of none is the problem's own.
fn answer_by_ends(alloc: Global, problem: &Problem, board: &Board) -> Result<Solved, Fault>
    requires bounded { IsBounded problem.now }
    requires slots { IsAtSlots board.now.question }
    requires same { board.now.question.test ≡ problem.now }
    ensures ok { IfOk result (λ s. IsAnswer problem.now board.now.question.offers s.answer) }
    ensures board { IfOk result (λ s. s.board ≡ None) }
    ensures ends { IfOk result (λ s. IsAtAnEnd problem.now s.answer) }
    ensures err { IfErr result (λ f. f ≢ Fault.Memory → IsEndFault problem.now f) }
{
    let _legal = board.log();
    let on_all = verdict_on_all(alloc, problem)?;
    if let Verdict::Allowed(witness) = on_all {
        return Ok(Solved {
            answer: Answer::None { witness },
            board: None,
        });
    }
    let on_none = verdict_on_none(alloc, problem)?;
    match on_none {
        Verdict::Forbids(forbidden) => {
            let least = Arc::new(alloc, forbidden)?;
            Ok(Solved {
                answer: fenced(board.question().offers(), least),
                board: None,
            })
        }
        Verdict::Allowed(_) => Err(Fault::NodeLimit),
    }
}

/// Ends the search of a board, whatever open and held nodes it has, and reads the answer from it: the cheapest
/// placement that forbids the outcome, of several the first, or a witness that none does. F16 comes only where fences
/// are needed, `rw,rw` in every slot is enough, and the tree of all placements may have more nodes below its root than
/// the board's limit; F13 to F15 where a verdict can't be made for the candidates; or F19. The problem is that of the
/// board's test, and the witness of none depends on it alone, not on what was searched before. What is handed out with
/// the answer, `solve` says, and a board that is handed out is this one gone on with: its log begins with what was
/// logged before. It takes what `search` takes, and at most two verdicts more.
pub fn conclude<W: Watch>(
    alloc: Global,
    problem: Arc<Problem>,
    board: Board,
    watch: &mut W,
) -> Result<Solved, Fault>
    requires bounded { IsBounded (arc_value problem) }
    requires slots { IsAtSlots board.question }
    requires top { HasTop board.question.offers }
    requires same { board.question.test ≡ arc_value problem }
    requires clean { HasNoRunFault (arc_value problem) }
    ensures ok { IfOk result (λ s. IsAnswer board.question.test board.question.offers s.answer) }
    ensures rests { IfOk result (Rests board.question board.board.limit) }
    ensures goes { IfOk result (λ s. IfSome s.board (GoesOn board)) }
    ensures err { IfErr result (λ f. f ≢ Fault.Memory → IsSolveFault board.question board.board.limit f) }
{
    let mut board = board;
    let shared = Arc::try_clone(&problem)?;
    match search(alloc, shared, &mut board, watch) {
        Ok(()) => {
            let answer = answer_of(alloc, &problem, &board)?;
            Ok(Solved {
                answer,
                board: Some(board),
            })
        }
        Err(Fault::NodeLimit) => {
            let solved = answer_by_ends(alloc, &problem, &board)?;
            Ok(solved)
        }
        Err(fault) => Err(fault),
    }
}

/// The problem of the question's test, to be shared, whose hunts may make so many inferences each. The faults are those
/// of `Problem::new`.
pub fn problem_of(
    alloc: Global,
    question: &Arc<Question>,
    inferences: usize,
) -> Result<Arc<Problem>, Fault>
    requires bounded { IsBounded (arc_value question.now).test }
    requires starts { All IsStart (arc_value question.now).test.starts }
    ensures same { IfOk result (λ problem. (arc_value question.now).test ≡ arc_value problem) }
    ensures clean { OnOk result (HasNoRunFault (arc_value question.now).test) }
    ensures err { IfErr result (λ f. f ≢ Fault.Memory → IsCandidateFault (arc_value question.now).test f) }
{
    let test = Arc::try_clone(question.test())?;
    let problem = Problem::shared(alloc, test, inferences)?;
    Ok(problem)
}

/// The answer to a question at the test's slots: the cheapest placement that forbids the outcome, of several the first,
/// or a witness that none does. No node of the search has a number above the limit of nodes. F16 comes only where fences
/// are needed, `rw,rw` in every slot is enough, and the tree of all placements may have more nodes below its root than
/// that limit. F13 to F15 come where the candidates can't be listed; or F19.
///
/// The finished board is handed out with the answer, and its bound is the answer's placement. There is none only where
/// the tree of all placements may have more nodes below its root than the limit, and then the answer is none or no
/// fence at all. An answer that is a placement comes with what shows that it forbids the outcome.
///
/// To list the candidates takes time by how many lists of runs and how many raw candidates there are, times the square
/// of the operations. What the search takes after that, `search` says; the watch is told how far it is.
pub fn solve<W: Watch>(
    alloc: Global,
    question: Arc<Question>,
    limits: Limits,
    watch: &mut W,
) -> Result<Solved, Fault>
    requires test { IsBounded (arc_value question).test }
    requires starts { All IsStart (arc_value question).test.starts }
    requires slots { IsAtSlots (arc_value question) }
    requires top { HasTop (arc_value question).offers }
    requires some { 1 ≤ limits.nodes }
    requires limit { limits.nodes ≤ 1000000 }
    ensures ok { IfOk result (λ s. IsAnswer (arc_value question).test (arc_value question).offers s.answer) }
    ensures clean { OnOk result (HasNoRunFault (arc_value question).test) }
    ensures rests { IfOk result (Rests (arc_value question) limits.nodes) }
    ensures err { IfErr result (λ f. f ≢ Fault.Memory → IsSolveFault (arc_value question) limits.nodes f) }
{
    let problem = problem_of(alloc, &question, limits.inferences)?;
    let solved = solve_problem(alloc, question, problem, limits.nodes, watch)?;
    Ok(solved)
}

/// The same where the problem of the question's test is made already, so its runs can be listed.
pub fn solve_problem<W: Watch>(
    alloc: Global,
    question: Arc<Question>,
    problem: Arc<Problem>,
    limit: usize,
    watch: &mut W,
) -> Result<Solved, Fault>
    requires bounded { IsBounded (arc_value problem) }
    requires same { (arc_value question).test ≡ arc_value problem }
    requires clean { HasNoRunFault (arc_value problem) }
    requires slots { IsAtSlots (arc_value question) }
    requires top { HasTop (arc_value question).offers }
    requires limit { limit ≤ 1000000 }
    ensures ok { IfOk result (λ s. IsAnswer (arc_value question).test (arc_value question).offers s.answer) }
    ensures rests { IfOk result (Rests (arc_value question) limit) }
    ensures err { IfErr result (λ f. f ≢ Fault.Memory → IsSolveFault (arc_value question) limit f) }
{
    let board = Board::new(alloc, question, limit)?;
    let solved = conclude(alloc, problem, board, watch)?;
    Ok(solved)
}

/// The bound of a finished board, where some placement that the offers allow forbids the outcome.
fn posted_bound(board: &Board) -> Result<Arc<Forbidden>, Fault>
    requires finished { is_finished board.now.board ≡ true }
    requires some { (p : List Entry) × IsPlacement board.now.question.offers p
        × (Allows board.now.question.test p → ⊥) }
    ensures ok { IfOk result
        (λ f. IsCheapest board.now.question.test board.now.question.offers (placement_in f)) }
    ensures shown { IfOk result (λ f. ShowsForbidden board.now.question.test (arc_value f)) }
    ensures err { IsOkUnless result Fault.Memory }
{
    let _legal = board.log();
    let Some(best) = board.bound() else {
        unreachable!()
    };
    Ok(Arc::try_clone(best)?)
}

/// The cheapest of the placements that the offers allow and that forbid the outcome, where one of them does, with what
/// shows that. The offers may be for any instructions, and `rw,rw` needn't be among them. Of several that cost the same
/// it is the first: the first place at which two differ decides, and there the written kind comes first where it costs
/// something, then none, then the kinds in table order.
///
/// F16 comes only where the tree of all placements may have more nodes below its root than the limit, F15 where a
/// verdict can't be made for the candidates; or F19. It takes what `search` takes.
pub fn cheapest<W: Watch>(
    alloc: Global,
    question: Arc<Question>,
    problem: Arc<Problem>,
    limit: usize,
    watch: &mut W,
) -> Result<Arc<Forbidden>, Fault>
    requires bounded { IsBounded (arc_value problem) }
    requires same { (arc_value question).test ≡ arc_value problem }
    requires clean { HasNoRunFault (arc_value problem) }
    requires limit { limit ≤ 1000000 }
    requires some { (p : List Entry) × IsPlacement (arc_value question).offers p
        × (Allows (arc_value question).test p → ⊥) }
    ensures ok { IfOk result (λ f. IsCheapest (arc_value question).test (arc_value question).offers (placement_in f)) }
    ensures shown { IfOk result (λ f. ShowsForbidden (arc_value question).test (arc_value f)) }
    ensures err { IfErr result (λ f. f ≢ Fault.Memory → IsLimitFault (arc_value question) limit f) }
{
    let mut board = Board::new(alloc, question, limit)?;
    search(alloc, problem, &mut board, watch)?;
    posted_bound(&board)
}
