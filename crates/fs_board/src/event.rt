//! What workers ask of the board, and what it answers.

ghost use Rattle.std.specs.Prelude.{◌≡◌};
ghost use Rattle.fs_board.specs.View.{event_of, reply_of, entry_of};

use crate::part::Part;
use fs_cert_evidence::{Forbidden, Witness};
use fs_kinds::{List, Slot};
use std::marker::Model;
use std::sync::Arc;

/// What a worker asks.
#[derive(Drop)]
pub enum Event {
    /// Any open node.
    Take,
    /// This open node.
    Claim(usize),
    /// This node, which anybody holds.
    Adopt(usize),
    /// That the node be split at the slot.
    Split(usize, Slot),
    /// That the node be closed by cost alone.
    CutCost(usize),
    /// That it be closed by a witness.
    CutWitness(usize, Arc<Witness>),
    /// That it be closed by what breaking these witnesses costs.
    CutBound(usize, List<Arc<Witness>>),
    /// That the node's least placement be posted, which forbids the outcome.
    Post(usize, Arc<Forbidden>),
    /// The bound, and the witnesses from this number on.
    Peek(usize),
}

/// What the board answers.
#[derive(Drop)]
pub enum Reply {
    /// The node, which the worker holds from now on, and its part.
    Node(usize, Arc<Part>),
    /// No node is open, and some are held.
    Idle,
    /// No node is open or held.
    Done,
    /// The node isn't open, or isn't held.
    Gone,
    /// The first child's number, and how many children there are.
    Children(usize, usize),
    /// The worker doesn't hold the node.
    NotYours,
    /// The slot isn't one of the node's, or is decided.
    Decided,
    /// The last child's number would pass the limit.
    Full,
    /// The node is closed.
    Closed,
    /// Something under the node may be better than the bound.
    Cheaper,
    /// The witness doesn't show the outcome under the node.
    NotCovered,
    /// The placement isn't the node's least one.
    Other,
    /// The bound, how many witnesses there are, and those that were asked for.
    Seen(Option<Arc<Forbidden>>, usize, List<Arc<Witness>>),
}

/// An event of a worker, with its reply.
#[derive(Drop)]
pub struct LogEntry {
    worker: u8,
    event: Event,
    reply: Reply,
}

impl Model for LogEntry {
    ghost use Rattle.fs_board_offers.specs.Histories.{LogEntry as EntryValue};
    ghost use Rattle.fs_board.specs.View.{event_of, reply_of, entry_of};

    ghost Value = { EntryValue };

    ghost view = { λ e. entry_of e.worker (event_of e.event) (reply_of e.reply) };
}

impl LogEntry {
    pub(crate) fn new(worker: u8, event: Event, reply: Reply) -> LogEntry
        ensures { result ≡ entry_of worker (event_of event) (reply_of reply) }
    {
        LogEntry {
            worker,
            event,
            reply,
        }
    }

    /// Whose event it was.
    pub fn worker(&self) -> u8
        ensures { result ≡ self.now.worker }
    {
        self.worker
    }

    /// What was asked.
    pub fn event(&self) -> &Event
        ensures { event_of result.now ≡ self.now.event }
    {
        &self.event
    }

    /// What was answered.
    pub fn reply(&self) -> &Reply
        ensures { reply_of result.now ≡ self.now.reply }
    {
        &self.reply
    }
}
