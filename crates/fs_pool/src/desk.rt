//! The desk: the board under its lock.

ghost use Rattle.std.specs.Prelude.{◌≡◌, ◌<◌, ◌≤◌, ◌++◌, ◌∷◌, [], ℕ, Some, IfOk, IfErr, length, vec_len, map};
ghost use Rattle.std.specs.Prelude.{slice_get};
ghost use Rattle.std.specs.Vec.{vec_capacity};
ghost use Rattle.std.specs.Arc.{arc_value};
ghost use Rattle.fs_kinds.specs.declared.fault.Fault.TheVariants.{Memory};
ghost use Rattle.fs_model.specs.Allows.{Allows};
ghost use Rattle.fs_model.specs.Execution.{Execution};
ghost use Rattle.fs_board_offers.specs.Board.{Take, Claim, Adopt, SplitAt, CutCost, CutWitness, CutBound, Post, Peek};
ghost use Rattle.fs_cert_evidence.specs.Evidence.{Shown, ShowsForbidden, witness_in, placement_in, IsWitnessAt};
ghost use Rattle.fs_board_offers.specs.Offers.{slots};
ghost use Rattle.fs_board.specs.Growth.{AreWitnesses};
ghost use Rattle.fs_board.specs.View.{event_of, reply_of};
ghost use Rattle.fs_board.specs.Asking.{IsMade, Tells};
ghost use Rattle.fs_pool.specs.Asked.{IsAsked};
ghost use Rattle.fs_pool.specs.Receiving.{IsReceived, first_passes};

use crate::asked::Asked;
use crate::pass::{Pass, Receipt};
use crate::shared::Shared;
use fs_board::{Board, Event, Reply};
use fs_cert_evidence::{Forbidden, Witness};
use fs_kinds::{Fault, List, Slot};
use std::alloc::{AllocError, Global};
use std::marker::Model;
use std::sync::{Arc, Condvar, Mutex, Wait};

/// Adds an item for which there is room.
fn push_within<T: Drop>(list: &mut Vec<T>, item: T)
    requires { vec_len list.old < vec_capacity list.old }
    ensures { list.new.items ≡ list.old.items ++ item ∷ [] }
{
    match list.push(item) {
        Ok(()) => {}
        Err(_) => unreachable!(),
    }
}

/// The pass of a worker with one receipt more, for which there is room.
fn received<A: Asked>(
    worker: u8,
    mut receipts: Vec<Receipt<A>>,
    number: usize,
    event: Event,
    reply: Reply,
) -> Pass<A>
    requires room { vec_len receipts < vec_capacity receipts }
    requires tells { Tells A.question reply }
    ensures { result
        ≡ record {
          worker = worker;
          receipts = receipts.items ++ record { number = number; event = event_of event; reply = reply_of reply } ∷ [];
        } }
{
    push_within(&mut receipts, Receipt::new(number, event, reply));
    Pass::new(worker, receipts)
}

/// May the reply end another worker's wait? A node was closed or split.
fn ends_waits(made: &Result<(usize, Reply), AllocError>) -> bool {
    match made {
        Ok((_, reply)) => matches!(reply, Reply::Children(_, _) | Reply::Closed),
        Err(_) => false,
    }
}

/// One board for many workers. Contracts see for how many, and how many entries its log had before it was made.
#[derive(Drop)]
pub struct Desk<A: Asked> {
    workers: u8,
    since: usize,
    shared: Mutex<Shared<A>>,
    changed: Condvar,
}

impl<A: Asked> Model for Desk<A> {
    ghost use Rattle.fs_pool.specs.Ends.{Opened};

    ghost Value = { Opened };

    ghost view = { λ d. record { workers = d.workers; since = d.since } };
}

impl<A: Asked> Desk<A> {
    /// The desk of a board, for so many workers.
    fn of(board: Board, workers: u8) -> Desk<A>
        requires { IsAsked board A.question A.limit }
        ensures { result ≡ record { workers = workers; since = length board.log } }
    {
        Desk {
            workers,
            since: board.log().len(),
            shared: Mutex::new(Shared::new(board)),
            changed: Condvar::new(),
        }
    }

    /// The desk of a board, on which something may be done already, and a pass for each worker, from 0 on. There may be
    /// 16 workers. For nodes that are held already nobody waits. The error is F19.
    pub fn new(alloc: Global, board: Board, workers: u8) -> Result<(Desk<A>, Vec<Pass<A>>), Fault>
        requires asked { IsAsked board A.question A.limit }
        requires some { 1 ≤ workers }
        requires few { workers ≤ 16 }
        ensures desk { IfOk result (λ r. r.0 ≡ record { workers = workers; since = length board.log }) }
        ensures passes { IfOk result (λ r. r.1.items ≡ first_passes workers) }
        ensures err { IfErr result (λ f. f ≡ Memory) }
    {
        let mut passes = Vec::new(alloc);
        for worker in 0..workers {
            passes.push(Pass::new(worker, Vec::new(alloc)))?;
        }
        Ok((Desk::of(board, workers), passes))
    }

    /// Makes the event under the lock: the number that it has among the desk's, and the reply.
    fn answered<R: Wait>(
        &self,
        rt: &R,
        alloc: Global,
        worker: u8,
        event: &Event,
    ) -> Result<(usize, Reply), AllocError>
        requires { IsMade A.question event.now }
        ensures { IfOk result (λ r. Tells A.question r.1) }
    {
        let mut guard = self.shared.lock(rt);
        if matches!(event, Event::Take) {
            guard = self
                .changed
                .wait_while(rt, guard, |shared| shared.must_wait(worker));
        }
        let shared = &mut *guard;
        let made = shared.call(alloc, worker, event);
        if ends_waits(&made) {
            self.changed.notify_all();
        }
        let (number, reply) = made?;
        Ok((number.saturating_sub(self.since), reply))
    }

    /// Makes the event, as the call of its name does, and adds its receipt to the pass. What it brings must be made for
    /// the question. `Take` may wait, as `take` does. The error is F19, with the pass as it was.
    pub fn call<R: Wait>(
        &self,
        rt: &R,
        alloc: Global,
        pass: Pass<A>,
        event: Event,
    ) -> Result<Pass<A>, (Pass<A>, Fault)>
        requires { IsMade A.question event }
        ensures ok { IfOk result (λ p. IsReceived pass p (event_of event)) }
        ensures err { IfErr result (λ e. (e.0 ≡ pass) × (e.1 ≡ Memory)) }
    {
        let (worker, mut receipts) = pass.parts();
        if receipts.reserve(1).is_err() {
            return Err((Pass::new(worker, receipts), Fault::Memory));
        }
        match self.answered(rt, alloc, worker, &event) {
            Ok((number, reply)) => Ok(received(worker, receipts, number, event, reply)),
            Err(_) => Err((Pass::new(worker, receipts), Fault::Memory)),
        }
    }

    /// Takes any open node. It waits while none is open and another worker that hasn't left holds one. An error is F19,
    /// as with each event here; then the pass comes back as it was. That the board is unchanged too is the contract of
    /// what the lock keeps.
    pub fn take<R: Wait>(
        &self,
        rt: &R,
        alloc: Global,
        pass: Pass<A>,
    ) -> Result<Pass<A>, (Pass<A>, Fault)>
        ensures ok { IfOk result (λ p. IsReceived pass p Take) }
        ensures err { IfErr result (λ e. (e.0 ≡ pass) × (e.1 ≡ Memory)) }
    {
        self.call(rt, alloc, pass, Event::Take)
    }

    /// Claims this open node, as `Board::claim` does.
    pub fn claim<R: Wait>(
        &self,
        rt: &R,
        alloc: Global,
        pass: Pass<A>,
        node: usize,
    ) -> Result<Pass<A>, (Pass<A>, Fault)>
        ensures ok { IfOk result (λ p. IsReceived pass p (Claim node)) }
        ensures err { IfErr result (λ e. (e.0 ≡ pass) × (e.1 ≡ Memory)) }
    {
        self.call(rt, alloc, pass, Event::Claim(node))
    }

    /// Takes over a node that anybody holds, as `Board::adopt` does.
    pub fn adopt<R: Wait>(
        &self,
        rt: &R,
        alloc: Global,
        pass: Pass<A>,
        node: usize,
    ) -> Result<Pass<A>, (Pass<A>, Fault)>
        ensures ok { IfOk result (λ p. IsReceived pass p (Adopt node)) }
        ensures err { IfErr result (λ e. (e.0 ≡ pass) × (e.1 ≡ Memory)) }
    {
        self.call(rt, alloc, pass, Event::Adopt(node))
    }

    /// Splits a node, as `Board::split` does.
    pub fn split<R: Wait>(
        &self,
        rt: &R,
        alloc: Global,
        pass: Pass<A>,
        node: usize,
        slot: Slot,
    ) -> Result<Pass<A>, (Pass<A>, Fault)>
        ensures ok { IfOk result (λ p. IsReceived pass p (SplitAt node slot)) }
        ensures err { IfErr result (λ e. (e.0 ≡ pass) × (e.1 ≡ Memory)) }
    {
        self.call(rt, alloc, pass, Event::Split(node, slot))
    }

    /// Closes a node by cost, as `Board::cut_cost` does.
    pub fn cut_cost<R: Wait>(
        &self,
        rt: &R,
        alloc: Global,
        pass: Pass<A>,
        node: usize,
    ) -> Result<Pass<A>, (Pass<A>, Fault)>
        ensures ok { IfOk result (λ p. IsReceived pass p (CutCost node)) }
        ensures err { IfErr result (λ e. (e.0 ≡ pass) × (e.1 ≡ Memory)) }
    {
        self.call(rt, alloc, pass, Event::CutCost(node))
    }

    /// Closes a node by a witness of the question's test, with its widths at the slots of the offers, as `Board::cut_witness` does.
    pub fn cut_witness<R: Wait>(
        &self,
        rt: &R,
        alloc: Global,
        pass: Pass<A>,
        node: usize,
        witness: Arc<Witness>,
    ) -> Result<Pass<A>, (Pass<A>, Fault)>
        requires { (e : Execution) × IsWitnessAt A.question.test (slots A.question.offers) (arc_value witness) e }
        ensures ok { IfOk result (λ p. IsReceived pass p (CutWitness node (witness_in witness))) }
        ensures err { IfErr result (λ e. (e.0 ≡ pass) × (e.1 ≡ Memory)) }
    {
        self.call(rt, alloc, pass, Event::CutWitness(node, witness))
    }

    /// Closes a node by a list of such witnesses, as `Board::cut_bound` does.
    pub fn cut_bound<R: Wait>(
        &self,
        rt: &R,
        alloc: Global,
        pass: Pass<A>,
        node: usize,
        witnesses: List<Arc<Witness>>,
    ) -> Result<Pass<A>, (Pass<A>, Fault)>
        requires { AreWitnesses A.question.test (slots A.question.offers) (map arc_value witnesses) }
        ensures ok { IfOk result (λ p. IsReceived pass p (CutBound node (map witness_in witnesses))) }
        ensures err { IfErr result (λ e. (e.0 ≡ pass) × (e.1 ≡ Memory)) }
    {
        self.call(rt, alloc, pass, Event::CutBound(node, witnesses))
    }

    /// Posts a node's least placement, which forbids the outcome of the question's test, as `Board::post` does.
    pub fn post<R: Wait>(
        &self,
        rt: &R,
        alloc: Global,
        pass: Pass<A>,
        node: usize,
        forbidden: Arc<Forbidden>,
    ) -> Result<Pass<A>, (Pass<A>, Fault)>
        requires cycles { ShowsForbidden A.question.test (arc_value forbidden) }
        requires forbids { Allows A.question.test (placement_in forbidden) → ⊥ }
        ensures ok { IfOk result (λ p. IsReceived pass p (Post node (placement_in forbidden))) }
        ensures err { IfErr result (λ e. (e.0 ≡ pass) × (e.1 ≡ Memory)) }
    {
        self.call(rt, alloc, pass, Event::Post(node, forbidden))
    }

    /// Shows the bound, and the witnesses from this number on, as `Board::peek` does.
    pub fn peek<R: Wait>(
        &self,
        rt: &R,
        alloc: Global,
        pass: Pass<A>,
        from: usize,
    ) -> Result<Pass<A>, (Pass<A>, Fault)>
        ensures ok { IfOk result (λ p. IsReceived pass p (Peek from)) }
        ensures err { IfErr result (λ e. (e.0 ≡ pass) × (e.1 ≡ Memory)) }
    {
        self.call(rt, alloc, pass, Event::Peek(from))
    }

    /// Marks the worker as one that has left, and wakes the others: nobody waits for what it does from now on, even if
    /// it calls again. It is no event, and needs no memory.
    pub fn leave<R: Wait>(&self, rt: &R, pass: &Pass<A>) {
        let mut guard = self.shared.lock(rt);
        guard.leave(pass.worker());
        self.changed.notify_all();
    }

    /// For how many workers it is.
    pub(crate) fn workers(&self) -> u8
        ensures { result ≡ self.now.workers }
    {
        self.workers
    }

    /// How many entries the log had before it was made, and the board.
    pub(crate) fn parts(self) -> (usize, Board)
        ensures since { result.0 ≡ self.since }
        ensures asked { IsAsked result.1 A.question A.limit }
    {
        let Desk {
            workers: _,
            since,
            shared,
            changed: _,
        } = self;
        (since, shared.into_inner().into_board())
    }
}
