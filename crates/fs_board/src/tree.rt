//! The nodes of the tree, the bound and the witnesses.

ghost use Rattle.std.specs.Prelude.{◌≡◌, ◌<◌, ◌≤◌, ◌^◌, ◌+◌, ◌==◌, ◌++◌, ◌∷◌, [], length, map, true, false, not, Some};
ghost use Rattle.std.specs.Prelude.{None, IfSome, IfNone, IfOk, OnOk, OnErr, All, option_map, slice_get, if◌then◌else◌};
ghost use Rattle.std.specs.Arc.{arc_value};
ghost use Rattle.fs_board_offers.specs.Board.{Node as NodeValue, Open, Split, Witnessed, Bounded, Posted, is_open};
ghost use Rattle.fs_board_offers.specs.Board.{is_held, is_held_by, has_node, part_at};
ghost use Rattle.fs_board.specs.Counts.{count_of};
ghost use Rattle.fs_board.specs.Growth.{board_of, marked, grown, with_bound, with_more};
ghost use Rattle.fs_board.specs.View.{status_of};

use crate::node::{Node, Status, bit};
use crate::part::Part;
use fs_cert_evidence::{Forbidden, Witness};
use fs_kinds::Slot;
use std::alloc::{AllocError, Global};
use std::marker::Model;
use std::sync::Arc;

/// The nodes by their numbers, the bound, the witnesses, and the greatest number that a node may have. It keeps count
/// of its open and held nodes, and of how many nodes at the front are known not to be open.
#[derive(Drop)]
pub(crate) struct Tree {
    nodes: Vec<Node>,
    bound: Option<Arc<Forbidden>>,
    witnesses: Vec<Arc<Witness>>,
    limit: usize,
    next: usize,
    free: usize,
    held: usize,
}

impl Model for Tree {
    ghost use Rattle.std.specs.Prelude.{option_map, map};
    ghost use Rattle.std.specs.Arc.{arc_value};
    ghost use Rattle.fs_board.specs.Counts.{IsCounted};
    ghost use Rattle.fs_board.specs.Growth.{Tree as TreeValue};

    ghost Value = { TreeValue };

    ghost view = { λ t. record { nodes = t.nodes.items; bound = option_map arc_value t.bound; witnesses = map arc_value t.witnesses.items; limit = t.limit } };

    ghost invariant = { λ t. IsCounted t.nodes.items t.next t.free t.held };
}

impl Tree {
    /// The tree of one open node.
    pub(crate) fn new(alloc: Global, root: Part, limit: usize) -> Result<Tree, AllocError>
        ensures { IfOk result (λ t. t
            ≡ record {
              nodes = record { part = root; status = Open } ∷ [];
              bound = None;
              witnesses = [];
              limit =
                  limit;
            }) }
    {
        let mut nodes = Vec::new(alloc);
        nodes.push(Node::new(Arc::new(alloc, root)?, Status::Open))?;
        Ok(Tree {
            nodes,
            bound: None,
            witnesses: Vec::new(alloc),
            limit,
            next: 0,
            free: 1,
            held: 0,
        })
    }

    /// How many nodes there are.
    pub(crate) fn len(&self) -> usize
        ensures len { result ≡ length self.now.nodes }
        ensures small { result < 2 ^ 63 }
    {
        self.nodes.len()
    }

    /// What became of the node, where there is one.
    pub(crate) fn status(&self, node: usize) -> Option<Status>
        ensures { option_map status_of result ≡ option_map (λ n. n.status) (slice_get self.now.nodes node) }
    {
        Some(self.nodes.get(node)?.status())
    }

    /// A node that a worker holds, where there is one. It takes time of nodes.
    pub(crate) fn any_held(&self) -> Option<usize>
        ensures some { IfSome result (λ k. (n : NodeValue) × (slice_get self.now.nodes k ≡ Some n)
            × (is_held n.status ≡ true)) }
        ensures none { IfNone result (has_node is_held (board_of self.now) ≡ false) }
    {
        for k in 0..self.nodes.len() {
            if self.nodes[k].status().is_held() {
                return Some(k);
            }
        }
        None
    }

    /// The greatest number that a node may have.
    pub(crate) fn limit(&self) -> usize
        ensures { result ≡ self.now.limit }
    {
        self.limit
    }

    /// How many nodes are open.
    pub(crate) fn open_count(&self) -> usize
        ensures { result ≡ count_of is_open self.now.nodes }
    {
        self.free
    }

    /// Is some node held?
    pub(crate) fn has_held(&self) -> bool
        ensures { result ≡ has_node is_held (board_of self.now) }
    {
        self.held != 0
    }

    /// An open node, where there is one. All calls together look at each node once.
    pub(crate) fn any_open(&mut self) -> Option<usize>
        ensures same { self.new ≡ self.old }
        ensures there { IfSome result (λ k. k < length self.new.nodes) }
        ensures some { IfSome result (λ k. (n : NodeValue) × (slice_get self.new.nodes k ≡ Some n)
            × (is_open n.status ≡ true)) }
        ensures none { IfNone result (has_node is_open (board_of self.new) ≡ false) }
    {
        while self.next < self.nodes.len() {
            if self.nodes[self.next].status().is_open() {
                return Some(self.next);
            }
            self.next += 1;
        }
        None
    }

    /// The part of a node that is there.
    pub(crate) fn part(&self, node: usize) -> &Arc<Part>
        requires { node < length self.now.nodes }
        ensures { (n : NodeValue) → slice_get self.now.nodes node ≡ Some n → arc_value result.now ≡ n.part }
    {
        self.nodes[node].part()
    }

    /// The part of the node, where it is open.
    pub(crate) fn open_at(&self, node: usize) -> Option<&Arc<Part>>
        ensures { option_map (λ p. arc_value p.now) result ≡ part_at is_open (board_of self.now) node }
    {
        let found = self.nodes.get(node)?;
        if found.status().is_open() {
            Some(found.part())
        } else {
            None
        }
    }

    /// The part of the node, where it is held.
    pub(crate) fn held_at(&self, node: usize) -> Option<&Arc<Part>>
        ensures { option_map (λ p. arc_value p.now) result ≡ part_at is_held (board_of self.now) node }
    {
        let found = self.nodes.get(node)?;
        if found.status().is_held() {
            Some(found.part())
        } else {
            None
        }
    }

    /// The part of the node, where the worker holds it.
    pub(crate) fn held_by(&self, worker: u8, node: usize) -> Option<&Arc<Part>>
        ensures { option_map (λ p. arc_value p.now) result ≡ part_at (is_held_by worker) (board_of self.now) node }
    {
        let found = self.nodes.get(node)?;
        if found.status().is_held_by(worker) {
            Some(found.part())
        } else {
            None
        }
    }

    /// Gives a node another status, which isn't open.
    pub(crate) fn mark(&mut self, node: usize, status: Status)
        requires there { node < length self.old.nodes }
        requires closed { is_open (status_of status) ≡ false }
        ensures { (n : NodeValue) → slice_get self.old.nodes node ≡ Some n → self.new
            ≡ marked (status_of status) node n.part self.old }
    {
        let place = &mut self.nodes[node];
        let was = place.status();
        place.mark(status);
        let opened = bit(was.is_open());
        let taken = bit(status.is_held());
        let given = bit(was.is_held());
        self.free -= opened;
        self.held = self.held + taken - given;
    }

    /// The best placement posted.
    pub(crate) fn bound(&self) -> Option<&Arc<Forbidden>>
        ensures { option_map (λ f. arc_value f.now) result ≡ self.now.bound }
    {
        self.bound.as_ref()
    }

    /// The best placement posted, shared.
    pub(crate) fn share_bound(&self) -> Result<Option<Arc<Forbidden>>, AllocError>
        ensures { IfOk result (λ f. option_map arc_value f ≡ self.now.bound) }
    {
        match &self.bound {
            Some(bound) => Ok(Some(Arc::try_clone(bound)?)),
            None => Ok(None),
        }
    }

    /// What closed nodes, in order.
    pub(crate) fn witnesses(&self) -> &[Arc<Witness>]
        ensures { map arc_value result.now ≡ self.now.witnesses }
    {
        self.witnesses.as_slice()
    }

    /// Adds open nodes at the end. At `Err` nothing is changed.
    fn grow(&mut self, mut children: Vec<Node>) -> Result<(), AllocError>
        requires { All (λ n. n.status ≡ Open) children.items }
        ensures ok { OnOk result (self.new ≡ grown self.old children.items) }
        ensures err { OnErr result (self.new ≡ self.old) }
    {
        let count = children.len();
        self.nodes.append(&mut children)?;
        self.free += count;
        Ok(())
    }

    /// Splits the node at the slot into these open children. At `Err` nothing is changed.
    pub(crate) fn split(
        &mut self,
        node: usize,
        slot: Slot,
        children: Vec<Node>,
    ) -> Result<(), AllocError>
        requires there { node < length self.old.nodes }
        requires opened { All (λ n. n.status ≡ Open) children.items }
        ensures ok { OnOk result ((n : NodeValue) → slice_get self.old.nodes node ≡ Some n → self.new
            ≡ grown (marked (Split slot (length self.old.nodes)) node n.part self.old) children.items) }
        ensures err { OnErr result (self.new ≡ self.old) }
    {
        let first = self.nodes.len();
        self.grow(children)?;
        self.mark(node, Status::Split(slot, first));
        Ok(())
    }

    /// Adds witnesses at the end. At `Err` nothing is changed.
    fn add_witnesses(&mut self, mut witnesses: Vec<Arc<Witness>>) -> Result<(), AllocError>
        ensures ok { OnOk result (self.new ≡ with_more (map arc_value witnesses.items) self.old) }
        ensures err { OnErr result (self.new ≡ self.old) }
    {
        self.witnesses.append(&mut witnesses)?;
        Ok(())
    }

    fn set_bound(&mut self, bound: Arc<Forbidden>)
        ensures { self.new ≡ with_bound (Some (arc_value bound)) self.old }
    {
        self.bound = Some(bound);
    }

    /// Closes the node so, by witnesses that are the last ones from now on. At `Err` nothing is changed.
    pub(crate) fn cover(
        &mut self,
        node: usize,
        status: Status,
        witnesses: Vec<Arc<Witness>>,
    ) -> Result<(), AllocError>
        requires there { node < length self.old.nodes }
        requires closed { is_open (status_of status) ≡ false }
        ensures ok { OnOk result ((n : NodeValue) → slice_get self.old.nodes node ≡ Some n → self.new
            ≡ with_more (map arc_value witnesses.items) (marked (status_of status) node n.part self.old)) }
        ensures err { OnErr result (self.new ≡ self.old) }
    {
        self.add_witnesses(witnesses)?;
        self.mark(node, status);
        Ok(())
    }

    /// How many witnesses there are.
    pub(crate) fn witness_count(&self) -> usize
        ensures { result ≡ length (board_of self.now).witnesses }
    {
        self.witnesses.len()
    }

    /// Closes the node as posted. Its placement is the bound from now on, where it is better.
    pub(crate) fn post(&mut self, node: usize, forbidden: Arc<Forbidden>, better: bool)
        requires { node < length self.old.nodes }
        ensures { (n : NodeValue) → slice_get self.old.nodes node ≡ Some n → self.new
            ≡ with_bound (if better then Some (arc_value forbidden) else self.old.bound) (marked Posted node n.part
            self.old) }
    {
        if !better {
            self.mark(node, Status::Posted);
            return;
        }
        self.set_bound(forbidden);
        self.mark(node, Status::Posted);
    }
}
