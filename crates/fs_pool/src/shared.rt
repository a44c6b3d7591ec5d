//! What the lock keeps.

ghost use Rattle.std.specs.Prelude.{◌≡◌, ◌≢◌, [], IfOk, OnErr, IsTrue, length};
ghost use Rattle.fs_board_offers.specs.Board.{is_open};
ghost use Rattle.fs_board.specs.Counts.{count_of};
ghost use Rattle.fs_board.specs.View.{Answers, event_of, reply_of};
ghost use Rattle.fs_board.specs.Asking.{IsMade, Tells};
ghost use Rattle.fs_pool.specs.Asked.{IsAsked};

use crate::asked::Asked;
use fs_board::{Board, Event, Reply, Status};
use std::alloc::{AllocError, Global};
use std::marker::{Model, PhantomData};

/// The most workers.
const WORKERS: usize = 16;

/// The board, how many nodes each worker holds, and who has left. What is asked is the same as long as the lock lives.
#[derive(Drop)]
pub(crate) struct Shared<A: Asked> {
    board: Board,
    held: [usize; 16],
    left: [bool; 16],
    asked: PhantomData<A>,
}

impl<A: Asked> Model for Shared<A> {
    ghost use Rattle.std.specs.Coded.{codes};
    ghost use Rattle.fs_model.specs.contracts.outcome.Outcome as outcome;
    ghost use Rattle.fs_board.specs.View.{Search};
    ghost use Rattle.fs_pool.specs.Asked.{IsAsked};

    ghost Value = { Search };

    ghost view = { λ s. s.board };

    ghost coded = { Prim.hlevel (codes, outcome.the_row.coded) };

    ghost invariant = { λ s. IsAsked s.board A.question A.limit };
}

impl<A: Asked> Shared<A> {
    pub(crate) fn new(board: Board) -> Shared<A>
        requires { IsAsked board A.question A.limit }
        ensures { result ≡ board }
    {
        Shared {
            board,
            held: [0; 16],
            left: [false; 16],
            asked: PhantomData,
        }
    }

    /// The board.
    pub(crate) fn into_board(self) -> Board
        ensures value { result ≡ self }
        ensures asked { IsAsked result A.question A.limit }
    {
        let Shared {
            board,
            held: _,
            left: _,
            asked: _,
        } = self;
        board
    }

    /// Asks the board. An error changes nothing.
    #[tactic(auto, using(crate::proofs::Telling::tells_asked, crate::proofs::Telling::made_asked, crate::proofs::Telling::still_asked))]
    fn ask(&mut self, alloc: Global, worker: u8, event: &Event) -> Result<Reply, AllocError>
        requires { IsMade A.question event.now }
        ensures made { IfOk result (λ r. Answers self.old self.new worker (event_of event.now) (reply_of r)) }
        ensures tells { IfOk result (Tells A.question) }
        ensures unchanged { OnErr result (self.new ≡ self.old) }
    {
        self.board.ask(alloc, worker, event)
    }

    /// Makes an event: the number that it has in the log, and the reply. An error changes nothing.
    pub(crate) fn call(
        &mut self,
        alloc: Global,
        worker: u8,
        event: &Event,
    ) -> Result<(usize, Reply), AllocError>
        requires { IsMade A.question event.now }
        ensures made { IfOk result (λ r. Answers self.old self.new worker (event_of event.now) (reply_of r.1)) }
        ensures number { IfOk result (λ r. r.0 ≡ length self.old.log) }
        ensures tells { IfOk result (λ r. Tells A.question r.1) }
        ensures unchanged { OnErr result (self.new ≡ self.old) }
    {
        let holder = self.holder_before(event);
        let number = self.board.log().len();
        let reply = self.ask(alloc, worker, event)?;
        self.count(worker, holder, &reply);
        Ok((number, reply))
    }

    /// Who holds the node that is to be adopted.
    fn holder_before(&self, event: &Event) -> Option<u8> {
        let Event::Adopt(node) = event else {
            return None;
        };
        match self.board.status(*node) {
            Some(Status::Held(worker)) => Some(worker),
            _ => None,
        }
    }

    /// Counts a node that was handed to the worker, by whoever held it, or that it has no more.
    fn count(&mut self, worker: u8, holder: Option<u8>, reply: &Reply)
        ensures { self.new ≡ self.old }
    {
        match reply {
            Reply::Node(_, _) => {
                if let Some(holder) = holder {
                    lower(&mut self.held, holder);
                }
                raise(&mut self.held, worker);
            }
            Reply::Children(_, _) | Reply::Closed => lower(&mut self.held, worker),
            _ => {}
        }
    }

    /// Must one who takes a node wait? So it is where none is open, and another worker that hasn't left holds one.
    pub(crate) fn must_wait(&self, worker: u8) -> bool
        ensures { IsTrue result → count_of is_open self.now.board.nodes ≡ 0 }
    {
        self.board.open_count() == 0
            && (0..WORKERS).any(|other| self.may_bring(other) && other != usize::from(worker))
    }

    /// Does the worker hold a node, and hasn't left?
    fn may_bring(&self, worker: usize) -> bool {
        worker < WORKERS && self.held[worker] > 0 && !self.left[worker]
    }

    /// Marks the worker as one that has left.
    pub(crate) fn leave(&mut self, worker: u8)
        ensures { self.new ≡ self.old }
    {
        let worker = usize::from(worker);
        if worker < WORKERS {
            self.left[worker] = true;
        }
    }
}

/// One more node for the worker.
fn raise(held: &mut [usize; 16], worker: u8) {
    let worker = usize::from(worker);
    if worker < WORKERS {
        held[worker] = held[worker].saturating_add(1);
    }
}

/// One node less.
fn lower(held: &mut [usize; 16], worker: u8) {
    let worker = usize::from(worker);
    if worker < WORKERS {
        held[worker] = held[worker].saturating_sub(1);
    }
}
