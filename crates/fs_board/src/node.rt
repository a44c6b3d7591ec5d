//! Nodes of the tree.

ghost use Rattle.std.specs.Prelude.{◌≡◌, ◌≤◌, if◌then◌else◌, IfOk, map, filter};
ghost use Rattle.std.specs.Arc.{arc_value};
ghost use Rattle.fs_board_offers.specs.Offers.{is_offered, offer_at};
ghost use Rattle.fs_board_offers.specs.Parts.{decide};
ghost use Rattle.fs_board.specs.Growth.{open_node};
ghost use Rattle.fs_board_offers.specs.Board.{is_open, is_held, is_held_by};
ghost use Rattle.fs_board.specs.View.{status_of};

use crate::part::Part;
use fs_board_offers::Offers;
use fs_kinds::{Kind, Slot};
use std::alloc::{AllocError, Global};
use std::marker::Model;
use std::sync::Arc;

/// What became of a node.
#[derive(Clone, Copy)]
pub enum Status {
    Open,
    /// A worker holds it.
    Held(u8),
    /// It was split at the slot, and its children are the nodes from this number on.
    Split(Slot, usize),
    /// Even its least placement is no better than the bound.
    Costly,
    /// The witness of this number in the board's list shows the outcome under all its placements.
    Witnessed(usize),
    /// The witnesses from the first of these numbers on, so many, bound it.
    Bounded(usize, usize),
    /// Its least placement forbids the outcome, and was posted.
    Posted,
}

impl Status {
    /// Is it open?
    pub fn is_open(self) -> bool
        ensures { result ≡ is_open (status_of self) }
    {
        matches!(self, Status::Open)
    }

    /// Does a worker hold it?
    pub fn is_held(self) -> bool
        ensures { result ≡ is_held (status_of self) }
    {
        matches!(self, Status::Held(_))
    }

    /// Does this worker hold it?
    pub fn is_held_by(self, worker: u8) -> bool
        ensures { result ≡ is_held_by worker (status_of self) }
    {
        matches!(self, Status::Held(holder) if worker == holder)
    }
}

/// A partial placement, and what became of it.
#[derive(Drop)]
pub struct Node {
    part: Arc<Part>,
    status: Status,
}

impl Model for Node {
    ghost use Rattle.std.specs.Arc.{arc_value};
    ghost use Rattle.fs_board_offers.specs.Board.{Node as NodeValue};
    ghost use Rattle.fs_board.specs.View.{status_of};

    ghost Value = { NodeValue };

    ghost view = { λ n. record { part = arc_value n.part; status = status_of n.status } };
}

impl Node {
    /// A node of this part and status.
    pub fn new(part: Arc<Part>, status: Status) -> Node
        ensures { result ≡ record { part = arc_value part; status = status_of status } }
    {
        Node { part, status }
    }

    /// The node's part.
    pub fn part(&self) -> &Arc<Part>
        ensures { arc_value result.now ≡ self.now.part }
    {
        &self.part
    }

    /// What became of the node.
    pub fn status(&self) -> Status
        ensures { status_of result ≡ self.now.status }
    {
        self.status
    }

    /// Gives the node another status.
    pub(crate) fn mark(&mut self, status: Status)
        ensures { self.new ≡ record { part = self.old.part; status = status_of status } }
    {
        self.status = status;
    }
}

/// 1 where it is true.
pub(crate) fn bit(value: bool) -> usize
    ensures value { result ≡ (if value then 1 else 0) }
    ensures small { result ≤ 1 }
{
    if value { 1 } else { 0 }
}

/// Open nodes for the part with the slot decided in each of these ways that is offered.
pub(crate) fn children_of(
    alloc: Global,
    offers: &Offers,
    part: &Part,
    slot: Slot,
    kinds: &[Option<Kind>],
) -> Result<Vec<Node>, AllocError>
    ensures { IfOk result (λ nodes. nodes.items
        ≡ map open_node (map (decide slot part.now) (filter (is_offered (offer_at offers.now slot)) kinds.now))) }
{
    let mut nodes = Vec::new(alloc);
    for kind in kinds {
        if offers.is_offered(slot, *kind) {
            let child = part.decide(alloc, slot, *kind)?;
            nodes.push(Node::new(Arc::new(alloc, child)?, Status::Open))?;
        }
    }
    Ok(nodes)
}
