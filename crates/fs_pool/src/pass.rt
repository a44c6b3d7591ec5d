//! A worker's pass, with the receipts of its calls.

ghost use Rattle.std.specs.Prelude.{◌≡◌, ◌<◌, ◌++◌, ◌∷◌, [], List, IfSome, IfNone, vec_len};
ghost use Rattle.std.specs.Vec.{vec_capacity};
ghost use Rattle.fs_board_offers.specs.Receipts.{Receipt as ReceiptValue};
ghost use Rattle.fs_board.specs.View.{event_of, reply_of};
ghost use Rattle.fs_board.specs.Asking.{Tells};

use crate::asked::Asked;
use fs_board::{Event, Reply};
use std::marker::{Model, PhantomData};

/// A call of a worker: what it asked, what it was answered, and the number of this among the desk's entries in the
/// board's log.
#[derive(Drop)]
pub struct Receipt<A: Asked> {
    number: usize,
    event: Event,
    reply: Reply,
    asked: PhantomData<A>,
}

impl<A: Asked> Model for Receipt<A> {
    ghost use Rattle.fs_board_offers.specs.Receipts.{Receipt as ReceiptValue};
    ghost use Rattle.fs_board.specs.View.{event_of, reply_of};
    ghost use Rattle.fs_board.specs.Asking.{Tells};

    ghost Value = { ReceiptValue };

    ghost view = { λ r. record { number = r.number; event = event_of r.event; reply = reply_of r.reply } };

    ghost invariant = { λ r. Tells A.question r.reply };
}

impl<A: Asked> Receipt<A> {
    pub(crate) fn new(number: usize, event: Event, reply: Reply) -> Receipt<A>
        requires { Tells A.question reply }
        ensures { result ≡ record { number = number; event = event_of event; reply = reply_of reply } }
    {
        Receipt {
            number,
            event,
            reply,
            asked: PhantomData,
        }
    }

    /// The number of the call in what the board's log has got since the desk was made.
    pub fn number(&self) -> usize
        ensures { result ≡ self.now.number }
    {
        self.number
    }

    /// What was asked.
    pub fn event(&self) -> &Event
        ensures { event_of result.now ≡ self.now.event }
    {
        &self.event
    }

    /// What was answered. The part of a node that is handed out is one of the question; what a peek shows is witnesses
    /// of executions, and a placement with its cycles.
    pub fn reply(&self) -> &Reply
        ensures value { reply_of result.now ≡ self.now.reply }
        ensures tells { Tells A.question result.now }
    {
        &self.reply
    }
}

/// Who a worker of a desk is, with the receipts of all its calls. A desk makes one for each worker, and nobody can make
/// another.
#[derive(Drop)]
pub struct Pass<A: Asked> {
    worker: u8,
    receipts: Vec<Receipt<A>>,
}

impl<A: Asked> Model for Pass<A> {
    ghost use Rattle.fs_board_offers.specs.Receipts.{Pass as PassValue};

    ghost Value = { PassValue };

    ghost view = { λ p. record { worker = p.worker; receipts = p.receipts.items } };
}

impl<A: Asked> Pass<A> {
    pub(crate) fn new(worker: u8, receipts: Vec<Receipt<A>>) -> Pass<A>
        ensures { result ≡ record { worker = worker; receipts = receipts.items } }
    {
        Pass { worker, receipts }
    }

    /// The worker and its receipts.
    pub(crate) fn parts(self) -> (u8, Vec<Receipt<A>>)
        ensures worker { result.0 ≡ self.worker }
        ensures receipts { result.1.items ≡ self.receipts }
    {
        let Pass { worker, receipts } = self;
        (worker, receipts)
    }

    /// The worker's number.
    pub fn worker(&self) -> u8
        ensures { result ≡ self.now.worker }
    {
        self.worker
    }

    /// The receipts of all calls, in the order in which they were made.
    pub fn receipts(&self) -> &[Receipt<A>]
        ensures { result.now ≡ self.now.receipts }
    {
        self.receipts.as_slice()
    }

    /// What the last call was answered, where there was one.
    pub fn reply(&self) -> Option<&Reply>
        ensures value { IfSome result (λ r. (before : List ReceiptValue) (last : ReceiptValue)
            → self.now.receipts ≡ before ++ last ∷ [] → reply_of r.now ≡ last.reply) }
        ensures tells { IfSome result (λ r. Tells A.question r.now) }
        ensures none { IfNone result (self.now.receipts ≡ []) }
    {
        let receipts = self.receipts.as_slice();
        let [_, ..] = receipts else {
            return None;
        };
        Some(receipts[receipts.len() - 1].reply())
    }
}
