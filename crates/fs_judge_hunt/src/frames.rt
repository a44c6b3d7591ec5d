//! The search: regions are split until each has ended, or one has nothing left to decide. What earlier searches have
//! split isn't split anew, and what ended a region isn't looked for where it still holds.

use crate::choose::{Child, Chooser, Seen, Split, look};
use crate::clash::{Clash, Step};
use crate::facts::Facts;
use crate::learned::Learned;
use crate::names::Relation;
use crate::needs::{Need, SlotPairs};
use crate::portions::Portion;
use crate::region::{Field, Region};
use crate::splits::{Decision, Splitter};
use crate::trail::{Dead, Mark, Trail};
use crate::tree::{Branching, Fresh, Held, Leaf, Node, Tree, are_firm, move_needs};
use std::alloc::{AllocError, Global};
use std::sync::Arc;

/// Where there are more nodes than this, regions aren't kept that have been looked through.
const MANY_NODES: usize = 25_000;

/// Where there are more than this, the next search begins with a new tree.
const MOST_NODES: usize = 100_000;

/// What a search comes to.
#[derive(Drop)]
pub(crate) enum Hunted {
    /// All regions of the tree have ended.
    Refuted,
    /// A region with nothing left to decide.
    Shown(Box<Region>),
    GaveUp,
}

/// How far a search may go: so many regions, and so many looks.
#[derive(Clone, Copy)]
pub(crate) struct Limits {
    pub(crate) regions: usize,
    pub(crate) looks: usize,
}

impl Limits {
    /// So many regions, and any looks.
    pub(crate) fn of(regions: usize) -> Limits {
        Limits {
            regions,
            looks: usize::MAX,
        }
    }
}

/// Over what a search is.
#[derive(Clone, Copy)]
pub(crate) struct Ground<'a> {
    pub(crate) alloc: Global,
    pub(crate) field: Field<'a>,
}

impl Ground<'_> {
    fn splitter(&self) -> Splitter<'_> {
        Splitter {
            alloc: self.alloc,
            field: self.field,
        }
    }
}

/// A node with parts, of which some have been looked through.
#[derive(Drop)]
pub(crate) struct Frame {
    pub(crate) node: usize,
    /// How many parts have been taken.
    pub(crate) taken: usize,
    /// The part that is looked through.
    pub(crate) part: usize,
    /// What the trail was above its split.
    pub(crate) mark: Mark,
}

/// Searches over one tree, one after the other.
#[derive(Drop)]
pub(crate) struct Search {
    pub(crate) tree: Tree,
    pub(crate) learned: Learned,
    /// The nodes from the root to the one that is looked through.
    pub(crate) path: Vec<Frame>,
    pub(crate) trail: Trail,
    /// How long the path is above the region that is hunted.
    pub(crate) base: usize,
    /// The node that is entered next, if it isn't the next part of the one at the path's end.
    pub(crate) next: Option<usize>,
    /// The number of the search, how many nodes it has entered, and how many there were before.
    pub(crate) hunt: usize,
    pub(crate) entered: usize,
    pub(crate) before: usize,
    /// How many nodes there are in all, with those of others.
    pub(crate) many: usize,
    /// How many looks were made when a part was given away last.
    pub(crate) given: usize,
}

impl Search {
    /// Searches over the region.
    pub(crate) fn new(alloc: Global, root: Box<Region>) -> Result<Search, AllocError> {
        Ok(Search {
            tree: Tree::new(alloc, root)?,
            learned: Learned::new(alloc),
            path: Vec::new(alloc),
            trail: Trail::new(alloc),
            base: 0,
            next: None,
            hunt: 0,
            entered: 0,
            before: 0,
            many: 0,
            given: 0,
        })
    }

    /// At how many regions the last hunt has looked.
    pub(crate) fn looks(&self) -> usize {
        self.trail.looks
    }

    /// Is the tree so large that a new one is better?
    pub(crate) fn is_large(&self) -> bool {
        self.tree.nodes.len() > MOST_NODES
    }

    /// The pairs of stores that are known below so many nodes of the path with these pairs placed.
    fn known(&self, depth: usize, placed: &SlotPairs) -> Relation {
        let mut known = self.tree.start;
        for place in 0..depth.min(self.path.len()) {
            let frame = &self.path[place];
            if let Some(branching) = self.tree.branching(frame.node) {
                branching.add_held(&mut known, placed);
                branching.add_decided(&mut known, frame.part);
            }
        }
        known
    }

    /// What the pairs need that followed in the regions of the path.
    fn add_needs_above(
        &self,
        need: &mut Need,
        used: &mut Relation,
        placed: &SlotPairs,
    ) -> Result<(), AllocError> {
        for depth in 0..self.path.len() {
            let frame = &self.path[self.path.len() - 1 - depth];
            if used.is_empty() {
                break;
            }
            if let Some(branching) = self.tree.branching(frame.node) {
                move_needs(&branching.held, need, used, Some(placed))?;
            }
        }
        Ok(())
    }

    /// Adds what the step needs, which follows behind these in the region below the path.
    fn add_step_needs(
        &self,
        need: &mut Need,
        ground: Ground<'_>,
        region: &Region,
        step: &Step,
        held: &[Held],
    ) -> Result<(), AllocError> {
        let placed = &ground.field.fences.pairs;
        let mut used = step.used();
        step.ending.clash.add_needs(need, ground.field, region)?;
        move_needs(held, need, &mut used, None)?;
        self.add_needs_above(need, &mut used, placed)
    }

    /// What the steps, which follow in the region below the path, need.
    fn held(
        &self,
        ground: Ground<'_>,
        region: &Region,
        steps: Vec<Step>,
    ) -> Result<Vec<Held>, AllocError> {
        let mut all = Vec::new(ground.alloc);
        for step in steps {
            let mut need = Need::new(ground.alloc);
            self.add_step_needs(&mut need, ground, region, &step, &all)?;
            all.push(Held { step, need })?;
        }
        Ok(all)
    }

    /// What ends the region below the path needs.
    fn need_of(
        &self,
        ground: Ground<'_>,
        region: &Region,
        dead: &Dead,
    ) -> Result<Need, AllocError> {
        let placed = &ground.field.fences.pairs;
        let known = self.known(self.path.len(), placed);
        let mut need = Need::new(ground.alloc);
        let mut used = dead.ending.used.relation();
        dead.add_needs(&mut need, &mut used, ground.field, region, &known)?;
        self.add_needs_above(&mut need, &mut used, placed)?;
        Ok(need)
    }

    /// The leaf of a region below the path that ends so.
    fn leaf(
        &mut self,
        ground: Ground<'_>,
        region: &Region,
        dead: Arc<Dead>,
    ) -> Result<Leaf, AllocError> {
        let need = self.need_of(ground, region, &dead)?;
        if let Clash::Cycle(edges) = &dead.ending.clash {
            self.learned.add(ground.alloc, edges)?;
        }
        Ok(Leaf { dead, need })
    }

    /// The part of the region, if there is one, into which the path goes at this frame.
    fn part_of(
        &self,
        ground: Ground<'_>,
        region: Option<Box<Region>>,
        depth: usize,
        frame: &Frame,
    ) -> Result<Option<Box<Region>>, AllocError> {
        let Some(mut bare) = region else {
            return Ok(None);
        };
        let Some(branching) = self.tree.branching(frame.node) else {
            return Ok(None);
        };
        bare.before = self.known(depth.saturating_add(1), &SlotPairs::new());
        let splitter = ground.splitter();
        splitter.region(&bare, branching.decision, frame.part)
    }

    /// How many of the first so many nodes of the path are above the last one whose region is kept.
    pub(crate) fn kept_above(&self, count: usize) -> usize {
        let mut above = 0;
        for depth in 0..count.min(self.path.len()) {
            if self.tree.region(self.path[depth].node).is_some() {
                above = depth;
            }
        }
        above
    }

    /// The region of the node below the path, but for its pairs of stores.
    fn region_of(
        &self,
        ground: Ground<'_>,
        node: usize,
    ) -> Result<Option<Box<Region>>, AllocError> {
        let kept = self.tree.copy_of(ground.alloc, node)?;
        if kept.is_some() {
            return Ok(kept);
        }
        self.region_below(ground, self.kept_above(self.path.len()))
    }

    /// The region into which the path goes at its end, made from the one of its node at this depth.
    fn region_below(
        &self,
        ground: Ground<'_>,
        start: usize,
    ) -> Result<Option<Box<Region>>, AllocError> {
        if start >= self.path.len() {
            return Ok(None);
        }
        let mut made = self.tree.copy_of(ground.alloc, self.path[start].node)?;
        for depth in start..self.path.len() {
            made = self.part_of(ground, made, depth, &self.path[depth])?;
        }
        Ok(made)
    }

    /// What the last look at the node has left, if it was in this search.
    fn take_fresh(&mut self, node: usize) -> Option<(Box<Region>, Vec<Step>)> {
        if node >= self.tree.nodes.len() {
            return None;
        }
        self.tree.nodes[node].take_fresh(self.hunt)
    }

    /// Looks at the region of the node; nothing where it has ended.
    fn open(
        &mut self,
        ground: Ground<'_>,
        node: usize,
    ) -> Result<Option<(Box<Region>, Vec<Step>)>, AllocError> {
        if let Some(found) = self.take_fresh(node) {
            return Ok(Some(found));
        }
        let Some(mut region) = self.region_of(ground, node)? else {
            return Ok(None);
        };
        region.before = self.known(self.path.len(), &ground.field.fences.pairs);
        self.look_at(ground, node, region)
    }

    fn look_at(
        &mut self,
        ground: Ground<'_>,
        node: usize,
        region: Box<Region>,
    ) -> Result<Option<(Box<Region>, Vec<Step>)>, AllocError> {
        self.trail.looks = self.trail.looks.saturating_add(1);
        match look(ground.alloc, ground.field, region)? {
            Seen::Ended(dead, region) => {
                let leaf = self.leaf(ground, &region, dead)?;
                if let Some(node) = self.tree.nodes.get_mut(node) {
                    node.add_leaf(leaf)?;
                }
                Ok(None)
            }
            Seen::Open(region, steps) => Ok(Some((region, steps))),
        }
    }

    /// Follows with any fences what followed on the path, and this?
    fn is_firm(&self, held: &[Held]) -> bool {
        for frame in &self.path {
            if let Some(branching) = self.tree.branching(frame.node) {
                if !are_firm(&branching.held) {
                    return false;
                }
            }
        }
        are_firm(held)
    }

    /// The split that is made of the region of the node below the path.
    fn choose(
        &mut self,
        ground: Ground<'_>,
        region: &Region,
        held: &[Held],
    ) -> Result<Option<Split>, AllocError> {
        let facts = Facts::of(ground.field, region);
        let chooser = Chooser {
            alloc: ground.alloc,
            field: ground.field,
            region,
            facts: &facts,
            is_firm: self.is_firm(held),
            learned: &self.learned,
        };
        chooser.split(&mut self.trail)
    }

    /// The portion of the region of the node, if that is kept.
    fn portion_of(
        &self,
        ground: Ground<'_>,
        node: usize,
        portion: Portion,
    ) -> Result<Option<Box<Region>>, AllocError> {
        match self.tree.region(node) {
            Some(region) => ground.splitter().make(region, portion),
            None => Ok(None),
        }
    }

    /// The node of a part of this node, into which the path goes at its end.
    fn node_of(
        &mut self,
        ground: Ground<'_>,
        node: usize,
        child: Child,
    ) -> Result<Node, AllocError> {
        match child {
            Child::Known(dead, portion) => match self.portion_of(ground, node, portion)? {
                Some(region) => self.ended(ground, &region, dead),
                None => Ok(Node::new(ground.alloc)),
            },
            Child::Seen(Seen::Ended(dead, region)) => self.ended(ground, &region, dead),
            Child::Seen(Seen::Open(region, steps)) => {
                let hunt = self.hunt;
                Node::of(ground.alloc, region, Some(Fresh { hunt, steps }))
            }
        }
    }

    /// The node of a region below the path that ends so.
    fn ended(
        &mut self,
        ground: Ground<'_>,
        region: &Region,
        dead: Arc<Dead>,
    ) -> Result<Node, AllocError> {
        let leaf = self.leaf(ground, region, dead)?;
        Node::ended(ground.alloc, leaf)
    }

    /// Puts the parts of the node, which is at the path's end, into the tree.
    fn add_parts(
        &mut self,
        ground: Ground<'_>,
        node: usize,
        children: Vec<Child>,
    ) -> Result<(), AllocError> {
        let mut part: usize = 0;
        for child in children {
            if let Some(frame) = self.path.last_mut() {
                frame.part = part;
            }
            part = part.saturating_add(1);
            let made = self.node_of(ground, node, child)?;
            self.tree.nodes.push(made)?;
        }
        Ok(())
    }

    /// Splits the node below the path, in whose region this followed, and puts it on the path. The region itself where
    /// nothing is left to decide.
    fn split(
        &mut self,
        ground: Ground<'_>,
        node: usize,
        region: Box<Region>,
        steps: Vec<Step>,
    ) -> Result<Option<Box<Region>>, AllocError> {
        let mark = self.trail.mark();
        let held = self.held(ground, &region, steps)?;
        let Some(split) = self.choose(ground, &region, &held)? else {
            return Ok(Some(region));
        };
        let branching = Branching {
            decision: split.decision,
            held,
            used: split.used,
            count: split.children.len(),
        };
        self.tree.branch(ground.alloc, node, region, branching)?;
        self.go_down(node, mark)?;
        self.add_parts(ground, node, split.children)?;
        Ok(None)
    }

    /// Puts the node on the path.
    fn go_down(&mut self, node: usize, mark: Mark) -> Result<(), AllocError> {
        self.path.push(Frame {
            node,
            taken: 0,
            part: 0,
            mark,
        })?;
        Ok(())
    }

    /// Looks through the node below the path. Its region where nothing is left to decide.
    fn enter(
        &mut self,
        ground: Ground<'_>,
        node: usize,
    ) -> Result<Option<Box<Region>>, AllocError> {
        self.entered = self.entered.saturating_add(1);
        let Some(known) = self.tree.node(node) else {
            return Ok(None);
        };
        if known.leaf(&ground.field.fences.pairs).is_some() {
            return Ok(None);
        }
        if known.branching.is_some() {
            let mark = self.trail.mark();
            self.go_down(node, mark)?;
            return Ok(None);
        }
        match self.open(ground, node)? {
            Some((region, steps)) => self.split(ground, node, region, steps),
            None => Ok(None),
        }
    }

    /// Is the part of the path's node at this depth against an order that follows above with these pairs placed?
    pub(crate) fn is_contrary(&self, depth: usize, part: usize, placed: &SlotPairs) -> bool {
        if depth >= self.path.len() {
            return false;
        }
        let Some(branching) = self.tree.branching(self.path[depth].node) else {
            return false;
        };
        matches!(branching.decision, Decision::Order(_, _))
            && self.is_against(depth, branching, part, placed)
    }

    /// The same of one that an order decides.
    fn is_against(
        &self,
        depth: usize,
        branching: &Branching,
        part: usize,
        placed: &SlotPairs,
    ) -> bool {
        let mut known = self.known(depth, placed);
        branching.add_held(&mut known, placed);
        match branching.known_part(&known) {
            Some(known) => known != part,
            None => false,
        }
    }

    /// Takes the next part of the path's node at this depth, if it has one left.
    pub(crate) fn take_part(&mut self, depth: usize) -> Option<usize> {
        if depth >= self.path.len() {
            return None;
        }
        let taken = self.path[depth].taken;
        let part = self.tree.part_after(self.path[depth].node, taken)?;
        self.path[depth].taken = taken.saturating_add(1);
        Some(part)
    }

    /// The path goes into this part at its end.
    fn go_into(&mut self, part: usize) -> Option<usize> {
        let frame = self.path.last_mut()?;
        frame.part = part;
        Some(self.tree.part(frame.node, part))
    }

    /// The next node, if the one at the path's end has a part left; else that one is done.
    fn advance(&mut self, placed: &SlotPairs) -> Option<usize> {
        let depth = self.path.len().saturating_sub(1);
        let Some(part) = self.take_part(depth) else {
            self.go_up();
            return None;
        };
        if self.is_contrary(depth, part, placed) {
            return None;
        }
        self.go_into(part)
    }

    /// The node at the path's end is done.
    fn go_up(&mut self) {
        let Some(frame) = self.path.pop() else {
            return;
        };
        self.trail.go_back(&frame.mark);
        if self.tree.nodes.len().max(self.many) > MANY_NODES && frame.node != 0 {
            self.tree.forget(frame.node);
        }
    }

    /// Each node of the path keeps in which of its parts something was shown.
    fn remember(&mut self) {
        for frame in &self.path {
            self.tree.set_shown(frame.node, frame.part);
        }
    }

    /// The parts into which the path goes.
    pub(crate) fn parts(&self, alloc: Global) -> Result<Vec<usize>, AllocError> {
        let mut parts = Vec::new(alloc);
        for frame in &self.path {
            parts.push(frame.part)?;
        }
        Ok(parts)
    }

    /// Each node of the way into these parts keeps that something was shown there.
    pub(crate) fn remember_parts(&mut self, parts: &[usize]) {
        let mut number = 0;
        for part in parts {
            self.tree.set_shown(number, *part);
            number = self.tree.part(number, *part);
        }
    }

    /// Has it passed the limits? Each node that it has made would take an inference at least.
    pub(crate) fn has_passed(&self, limits: Limits) -> bool {
        let made = self.tree.nodes.len().saturating_sub(self.before);
        self.entered.max(made) > limits.regions || self.trail.looks > limits.looks
    }

    fn begin(&mut self, alloc: Global) {
        self.path = Vec::new(alloc);
        self.trail = Trail::new(alloc);
        self.hunt = self.hunt.wrapping_add(1);
        self.next = Some(0);
        self.entered = 0;
        self.before = self.tree.nodes.len();
        self.many = 0;
        self.given = 0;
    }

    /// Goes one step on: enters a node, or takes the next part. What the search comes to, if it is at its end.
    pub(crate) fn step(&mut self, ground: Ground<'_>) -> Result<Option<Hunted>, AllocError> {
        match self.next.take() {
            Some(node) => {
                if let Some(region) = self.enter(ground, node)? {
                    self.remember();
                    return Ok(Some(Hunted::Shown(region)));
                }
            }
            None => self.next = self.advance(&ground.field.fences.pairs),
        }
        if self.next.is_none() && self.path.len() <= self.base {
            return Ok(Some(Hunted::Refuted));
        }
        Ok(None)
    }

    /// Looks through the tree, within the limits.
    pub(crate) fn hunt(
        &mut self,
        alloc: Global,
        field: Field<'_>,
        limits: Limits,
    ) -> Result<Hunted, AllocError> {
        let ground = Ground { alloc, field };
        self.begin(alloc);
        for _ in 0..limits.regions.saturating_mul(4).saturating_add(8) {
            if self.has_passed(limits) {
                return Ok(Hunted::GaveUp);
            }
            if let Some(hunted) = self.step(ground)? {
                return Ok(hunted);
            }
        }
        Ok(Hunted::GaveUp)
    }
}
