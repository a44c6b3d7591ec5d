//! The end of a desk: its board, where its log and the receipts of all passes agree.

ghost use Rattle.std.specs.Prelude.{◌≡◌, ◌≢◌, ◌<◌, IfOk, IfErr, IsTrue, All, AllPairs, drop, length, sum_by};
ghost use Rattle.fs_board_offers.specs.Histories.{IsHistory};
ghost use Rattle.fs_board_offers.specs.Receipts.{IsAgreed, IsLogged};
ghost use Rattle.fs_pool.specs.Asked.{IsAsked};
ghost use Rattle.fs_pool.specs.Ends.{AreGiven, AreLogged, AllLogged, IsUnfinished};

use crate::asked::Asked;
use crate::desk::Desk;
use crate::pass::{Pass, Receipt};
use crate::same::{is_same_event, is_same_reply};
use fs_board::{Board, LogEntry};
use fs_kinds::Fault;
use std::fmt;
use thiserror::Error;

/// Why there is no board to hand out. It is displayed as the line of its fault, with what comes back.
#[derive(Drop, Error)]
pub enum Unfinished<A: Asked> {
    /// F22: the log and the receipts don't agree. The board and the passes come back as they are.
    #[error("{fault}: a log of {logged}, and {back} passes back", fault = Fault::Unmatched, logged = .board.log().len(), back = .passes.len())]
    Unmatched { board: Board, passes: Vec<Pass<A>> },
    /// F23: a pass is of a worker that the desk doesn't have, or comes twice.
    #[error(transparent)]
    Fault(#[from] Fault),
}

/// As it is displayed: boards and passes have no Debug.
impl<A: Asked> fmt::Debug for Unfinished<A> {
    fn fmt<W: fmt::Write>(&self, f: &mut fmt::Formatter<W>) -> fmt::Result {
        write!(f, "{self}")
    }
}

/// Is none of the passes of this worker? It calls itself once for each.
#[tactic(auto, using(crate::proofs::Agreeing::new_none, crate::proofs::Agreeing::new_more, crate::proofs::Agreeing::new_head, crate::proofs::Agreeing::new_tail))]
fn is_new<A: Asked>(worker: u8, passes: &[Pass<A>]) -> bool
    ensures yes { IsTrue result → All (λ other. worker ≢ other.worker) passes.now }
    ensures no { All (λ other. worker ≢ other.worker) passes.now → IsTrue result }
{
    let [pass, passes @ ..] = passes else {
        return true;
    };
    worker != pass.worker() && is_new(worker, passes)
}

/// Is each pass of a worker below this number? It calls itself once for each.
#[tactic(auto, using(crate::proofs::Agreeing::below_none, crate::proofs::Agreeing::below_more, crate::proofs::Agreeing::below_head, crate::proofs::Agreeing::below_tail))]
fn are_below<A: Asked>(workers: u8, passes: &[Pass<A>]) -> bool
    ensures yes { IsTrue result → All (λ pass. pass.worker < workers) passes.now }
    ensures no { All (λ pass. pass.worker < workers) passes.now → IsTrue result }
{
    let [pass, passes @ ..] = passes else {
        return true;
    };
    pass.worker() < workers && are_below(workers, passes)
}

/// Are no two passes of one worker? It calls itself once for each.
#[tactic(auto, using(crate::proofs::Agreeing::apart_none, crate::proofs::Agreeing::apart_more, crate::proofs::Agreeing::apart_head, crate::proofs::Agreeing::apart_tail))]
fn are_apart<A: Asked>(passes: &[Pass<A>]) -> bool
    ensures yes { IsTrue result → AllPairs (λ pass other. pass.worker ≢ other.worker) passes.now }
    ensures no { AllPairs (λ pass other. pass.worker ≢ other.worker) passes.now → IsTrue result }
{
    let [pass, passes @ ..] = passes else {
        return true;
    };
    is_new(pass.worker(), passes) && are_apart(passes)
}

/// Is each pass of a worker below this number, and no two of one?
fn are_given<A: Asked>(workers: u8, passes: &[Pass<A>]) -> bool
    ensures yes { IsTrue result → AreGiven workers passes.now }
    ensures no { AreGiven workers passes.now → IsTrue result }
{
    are_below(workers, passes) && are_apart(passes)
}

/// Is the receipt the log's entry of its number?
fn is_logged<A: Asked>(log: &[LogEntry], worker: u8, receipt: &Receipt<A>) -> bool
    ensures yes { IsTrue result → IsLogged log.now worker receipt.now }
    ensures no { IsLogged log.now worker receipt.now → IsTrue result }
{
    let Some(entry) = log.get(receipt.number()) else {
        return false;
    };
    entry.worker() == worker
        && is_same_event(receipt.event(), entry.event())
        && is_same_reply(receipt.reply(), entry.reply())
}

/// Are the receipts entries of the log, in its order?
fn are_logged<A: Asked>(log: &[LogEntry], worker: u8, receipts: &[Receipt<A>]) -> bool
    ensures yes { IsTrue result → AreLogged log.now worker 0 receipts.now }
    ensures no { AreLogged log.now worker 0 receipts.now → IsTrue result }
{
    let count = log.len();
    let mut next = 0;
    for i in 0..receipts.len() {
        let receipt = &receipts[i];
        let number = receipt.number();
        if number < next || number >= count || !is_logged(log, worker, receipt) {
            return false;
        }
        next = number + 1;
    }
    true
}

/// Are the receipts of each pass entries of the log, in its order? It calls itself once for each pass.
fn all_logged<A: Asked>(log: &[LogEntry], passes: &[Pass<A>]) -> bool
    ensures yes { IsTrue result → AllLogged log.now passes.now }
    ensures no { AllLogged log.now passes.now → IsTrue result }
{
    let [pass, passes @ ..] = passes else {
        return true;
    };
    are_logged(log, pass.worker(), pass.receipts()) && all_logged(log, passes)
}

/// Are there so many receipts in all? It calls itself once for each pass.
fn are_so_many<A: Asked>(passes: &[Pass<A>], count: usize) -> bool
    ensures yes { IsTrue result → sum_by (λ pass. length pass.receipts) passes.now ≡ count }
    ensures no { sum_by (λ pass. length pass.receipts) passes.now ≡ count → IsTrue result }
{
    let [pass, passes @ ..] = passes else {
        return count == 0;
    };
    let receipts = pass.receipts().len();
    receipts <= count && are_so_many(passes, count - receipts)
}

/// What the log has from this number on.
fn log_since(log: &[LogEntry], since: usize) -> &[LogEntry]
    ensures { result.now ≡ drop since log.now }
{
    match log.get(since..) {
        Some(later) => later,
        None => &[],
    }
}

/// The board, where each entry that its log has got since the desk was made is the receipt of exactly one of the
/// passes, in the order in which that worker made its calls, and there is no other receipt. F23 where a pass is of a
/// worker that the desk doesn't have, or two are of one; else F22 where log and receipts don't agree. It needs no
/// memory, and takes time of the log.
#[tactic(auto, using(crate::proofs::Agreeing::agreed, crate::proofs::Agreeing::agreed_logged))]
pub fn finish<A: Asked>(desk: Desk<A>, passes: Vec<Pass<A>>) -> Result<Board, Unfinished<A>>
    ensures asked { IfOk result (λ b. IsAsked b A.question A.limit) }
    ensures legal { IfOk result (λ b. IsHistory b.question.test b.question.offers b.board.limit b.log b.board) }
    ensures agreed { IfOk result (λ b. IsAgreed passes.items (drop desk.since b.log)) }
    ensures err { IfErr result (IsUnfinished A.question A.limit desk passes.items) }
{
    if !are_given(desk.workers(), &passes) {
        return Err(Unfinished::Fault(Fault::StrangePass));
    }
    let (since, board) = desk.parts();
    let log = log_since(board.log(), since);
    if !are_so_many(&passes, log.len()) || !all_logged(log, &passes) {
        return Err(Unfinished::Unmatched { board, passes });
    }
    Ok(board)
}
