//! Regions that were split, kept from one placement of fences to the next. What ended a region ends it under each
//! placement that has what this needs; a region that was split is split so under each.

use crate::clash::Step;
use crate::names::Relation;
use crate::needs::{Need, SlotPairs};
use crate::region::Region;
use crate::splits::Decision;
use crate::trail::Dead;
use std::alloc::{AllocError, Global};
use std::mem::swap;
use std::sync::Arc;

/// As many endings are kept of a region, each for other placements.
const MOST_LEAVES: usize = 4;

/// What ends a region, and what that needs of a placement.
#[derive(Drop)]
pub(crate) struct Leaf {
    pub(crate) dead: Arc<Dead>,
    pub(crate) need: Need,
}

/// What followed in a region, and what that needs, with all on which it rests.
#[derive(Drop)]
pub(crate) struct Held {
    pub(crate) step: Step,
    pub(crate) need: Need,
}

impl Held {
    /// Does it hold with these pairs placed? Always, if none are given.
    fn is_met(&self, placed: Option<&SlotPairs>) -> bool {
        match placed {
            Some(placed) => self.need.is_met(placed),
            None => true,
        }
    }
}

/// Adds what those of the pairs need that followed so, where they hold with these placed, and takes them out.
pub(crate) fn move_needs(
    held: &[Held],
    need: &mut Need,
    used: &mut Relation,
    placed: Option<&SlotPairs>,
) -> Result<(), AllocError> {
    for place in 0..held.len() {
        let one = &held[held.len() - 1 - place];
        let (first, second) = (one.step.first, one.step.second);
        if used.has(first, second) && one.is_met(placed) {
            need.join(&one.need)?;
            used.remove(first, second);
        }
    }
    Ok(())
}

/// Needs none of these a fence?
pub(crate) fn are_firm(held: &[Held]) -> bool {
    for one in held {
        if !one.need.is_nothing() {
            return false;
        }
    }
    true
}

/// How a region is split.
#[derive(Drop)]
pub(crate) struct Branching {
    pub(crate) decision: Decision,
    /// What followed in the region when it was split.
    pub(crate) held: Vec<Held>,
    /// The pairs of stores that the decision rests on.
    pub(crate) used: Relation,
    /// How many parts it has.
    pub(crate) count: usize,
}

/// What followed in a region in the hunt of this number.
#[derive(Drop)]
pub(crate) struct Fresh {
    pub(crate) hunt: usize,
    pub(crate) steps: Vec<Step>,
}

/// A region of the tree.
#[derive(Drop)]
pub(crate) struct Node {
    /// Its runs, sources and conditions; nothing where they are to be made again from the region above. Its pairs of
    /// stores are those of the hunt that made it.
    pub(crate) region: Option<Box<Region>>,
    pub(crate) fresh: Option<Fresh>,
    /// The newest last.
    pub(crate) leaves: Vec<Leaf>,
    pub(crate) branching: Option<Arc<Branching>>,
    /// Where it is split: the node of the first of its parts, behind which are those of the others.
    pub(crate) first: usize,
    /// The part in which something was shown last.
    pub(crate) shown: usize,
    /// The ticket of the piece that has all below it, if another hunts there.
    pub(crate) given: Option<usize>,
}

impl Node {
    /// A region that nothing is known of.
    pub(crate) fn new(alloc: Global) -> Node {
        Node {
            region: None,
            fresh: None,
            leaves: Vec::new(alloc),
            branching: None,
            first: 0,
            shown: 0,
            given: None,
        }
    }

    /// A region in which this followed, if something did.
    pub(crate) fn of(
        alloc: Global,
        region: Box<Region>,
        fresh: Option<Fresh>,
    ) -> Result<Node, AllocError> {
        let mut node = Node::new(alloc);
        node.region = Some(region);
        node.fresh = fresh;
        Ok(node)
    }

    /// One that has ended.
    pub(crate) fn ended(alloc: Global, leaf: Leaf) -> Result<Node, AllocError> {
        let mut node = Node::new(alloc);
        node.add_leaf(leaf)?;
        Ok(node)
    }

    /// What ends it with these pairs placed.
    pub(crate) fn leaf(&self, placed: &SlotPairs) -> Option<&Leaf> {
        for place in 0..self.leaves.len() {
            let leaf = &self.leaves[self.leaves.len() - 1 - place];
            if leaf.need.is_met(placed) {
                return Some(leaf);
            }
        }
        None
    }

    /// Keeps what ends it.
    pub(crate) fn add_leaf(&mut self, leaf: Leaf) -> Result<(), AllocError> {
        if self.leaves.len() >= MOST_LEAVES {
            self.leaves.remove(0);
        }
        self.leaves.push(leaf)?;
        Ok(())
    }

    /// What the last look at it has left, if it was in this hunt.
    pub(crate) fn take_fresh(&mut self, hunt: usize) -> Option<(Box<Region>, Vec<Step>)> {
        let fresh = self.fresh.take()?;
        if fresh.hunt != hunt {
            return None;
        }
        let region = self.region.take()?;
        Some((region, fresh.steps))
    }

    /// It is split as the other one is, but has no parts.
    pub(crate) fn copy_split(&mut self, other: &Node) -> Result<(), AllocError> {
        if let Some(branching) = &other.branching {
            self.branching = Some(Arc::try_clone(branching)?);
        }
        Ok(())
    }

    /// The node of its first part, and how many parts it has; none where it isn't split.
    fn parts(&self) -> (usize, usize) {
        match &self.branching {
            Some(branching) => (self.first, branching.count),
            None => (0, 0),
        }
    }

    /// The part that is looked through after so many others: the one in which something was shown last comes first.
    pub(crate) fn part(&self, number: usize) -> usize {
        if number == 0 {
            self.shown
        } else if number <= self.shown {
            number.saturating_sub(1)
        } else {
            number
        }
    }
}

impl Branching {
    /// Adds the pairs that followed, as far as they hold with these pairs placed.
    pub(crate) fn add_held(&self, known: &mut Relation, placed: &SlotPairs) {
        for held in &self.held {
            if held.need.is_met(placed) {
                known.add(held.step.first, held.step.second);
            }
        }
    }

    /// Adds the pair that is decided in the part of this number.
    pub(crate) fn add_decided(&self, known: &mut Relation, part: usize) {
        if let Decision::Order(first, second) = self.decision {
            if part == 0 {
                known.add(first, second);
            } else {
                known.add(second, first);
            }
        }
    }

    /// Takes out the pairs that are decided in the parts.
    pub(crate) fn drop_decided(&self, used: &mut Relation) {
        if let Decision::Order(first, second) = self.decision {
            used.remove(first, second);
            used.remove(second, first);
        }
    }

    /// The part that agrees with the known pairs, where they have an order that is decided here: with other fences it
    /// may follow above.
    pub(crate) fn known_part(&self, known: &Relation) -> Option<usize> {
        match self.decision {
            Decision::Order(first, second) if known.has(first, second) => Some(0),
            Decision::Order(first, second) if known.has(second, first) => Some(1),
            _ => None,
        }
    }
}

/// The nodes: that of the root is the first.
#[derive(Drop)]
pub(crate) struct Tree {
    pub(crate) nodes: Vec<Node>,
    /// The pairs of stores that are decided at the root.
    pub(crate) start: Relation,
}

impl Tree {
    /// That of a region.
    pub(crate) fn new(alloc: Global, root: Box<Region>) -> Result<Tree, AllocError> {
        let start = root.before;
        let root = Node::of(alloc, root, None)?;
        let mut nodes = Vec::new(alloc);
        nodes.push(root)?;
        Ok(Tree { nodes, start })
    }

    /// Puts into the node how its region is split; its parts are the next nodes.
    pub(crate) fn branch(
        &mut self,
        alloc: Global,
        number: usize,
        region: Box<Region>,
        branching: Branching,
    ) -> Result<(), AllocError> {
        let first = self.nodes.len();
        let branching = Arc::new(alloc, branching)?;
        if let Some(node) = self.nodes.get_mut(number) {
            node.region = Some(region);
            node.branching = Some(branching);
            node.first = first;
            node.shown = 0;
        }
        Ok(())
    }

    pub(crate) fn node(&self, number: usize) -> Option<&Node> {
        self.nodes.get(number)
    }

    pub(crate) fn branching(&self, number: usize) -> Option<&Branching> {
        if number < self.nodes.len() {
            if let Some(branching) = &self.nodes[number].branching {
                return Some(&**branching);
            }
        }
        None
    }

    /// The region of the node, if it is kept.
    pub(crate) fn region(&self, number: usize) -> Option<&Region> {
        if number < self.nodes.len() {
            if let Some(region) = &self.nodes[number].region {
                return Some(&**region);
            }
        }
        None
    }

    /// A copy of the region of the node, if it is kept.
    pub(crate) fn copy_of(
        &self,
        alloc: Global,
        number: usize,
    ) -> Result<Option<Box<Region>>, AllocError> {
        match self.region(number) {
            Some(region) => Ok(Some(region.copy(alloc)?)),
            None => Ok(None),
        }
    }

    /// Keeps the region in the node.
    pub(crate) fn keep(&mut self, number: usize, region: Box<Region>) {
        if number < self.nodes.len() {
            self.nodes[number].region = Some(region);
        }
    }

    /// A node that is split as the one of this number is, but of which nothing else is known.
    pub(crate) fn bare(&self, alloc: Global, number: usize) -> Result<Node, AllocError> {
        let mut node = Node::new(alloc);
        if number < self.nodes.len() {
            node.copy_split(&self.nodes[number])?;
        }
        Ok(node)
    }

    /// Has the node ended with these pairs placed, or is it missing?
    pub(crate) fn has_ended(&self, number: usize, placed: &SlotPairs) -> bool {
        number >= self.nodes.len() || self.nodes[number].leaf(placed).is_some()
    }

    /// The piece with this ticket has all below the node.
    pub(crate) fn set_given(&mut self, number: usize, ticket: usize) {
        if number < self.nodes.len() {
            self.nodes[number].given = Some(ticket);
        }
    }

    /// The region of the node isn't kept any more.
    pub(crate) fn forget(&mut self, number: usize) {
        if number < self.nodes.len() {
            self.nodes[number].region = None;
        }
    }

    /// The node keeps that something was shown in this part.
    pub(crate) fn set_shown(&mut self, number: usize, part: usize) {
        if number < self.nodes.len() {
            self.nodes[number].shown = part;
        }
    }

    /// The node of this part of the node.
    pub(crate) fn part(&self, number: usize, part: usize) -> usize {
        if number < self.nodes.len() {
            self.nodes[number].first.saturating_add(part)
        } else {
            usize::MAX
        }
    }

    /// The part of the node that is looked through after so many others, if it has more.
    pub(crate) fn part_after(&self, number: usize, taken: usize) -> Option<usize> {
        let branching = self.branching(number)?;
        if taken < branching.count && number < self.nodes.len() {
            return Some(self.nodes[number].part(taken));
        }
        None
    }

    /// Moves so many nodes behind these. What is left in their place knows nothing.
    fn move_out(
        &mut self,
        alloc: Global,
        moved: &mut Vec<Node>,
        first: usize,
        count: usize,
    ) -> Result<(), AllocError> {
        for part in 0..count {
            let mut node = Node::new(alloc);
            if let Some(place) = self.nodes.get_mut(first.saturating_add(part)) {
                swap(place, &mut node);
            }
            moved.push(node)?;
        }
        Ok(())
    }

    /// Takes the node out, with all below it; a new one stands in its place.
    pub(crate) fn take_out(
        &mut self,
        alloc: Global,
        number: usize,
    ) -> Result<Vec<Node>, AllocError> {
        let mut moved = Vec::new(alloc);
        self.move_out(alloc, &mut moved, number, 1)?;
        for place in 0..self.nodes.len() {
            let next = moved.len();
            let Some(node) = moved.get_mut(place) else {
                break;
            };
            let (first, count) = node.parts();
            node.first = next;
            self.move_out(alloc, &mut moved, first, count)?;
        }
        Ok(moved)
    }

    /// Puts what was taken out in the place of the node.
    pub(crate) fn put_back(&mut self, number: usize, moved: Vec<Node>) -> Result<(), AllocError> {
        let behind = self.nodes.len().saturating_sub(1);
        let mut is_first = true;
        for mut node in moved {
            node.first = node.first.saturating_add(behind);
            if !is_first {
                self.nodes.push(node)?;
            } else if let Some(place) = self.nodes.get_mut(number) {
                *place = node;
            }
            is_first = false;
        }
        Ok(())
    }
}
