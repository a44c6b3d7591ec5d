//! The inferences of a tree.

use crate::clash::{Clash, Step};
use crate::names::Relation;
use crate::needs::SlotPairs;
use crate::region::Field;
use crate::splits::Decision;
use crate::tree::{Branching, Leaf, Tree};
use fs_cert_evidence::Inference;
use fs_kinds::List;
use std::alloc::{AllocError, Global};

/// A tree of inferences.
#[derive(Drop)]
pub struct Refutation {
    /// The whole tree in preorder.
    pub inferences: List<Inference>,
    /// Beside each of them how many stand in the part of the tree that begins with it, itself included; 0 where that
    /// isn't known. Who looks at parts apart finds them by this.
    pub sizes: Vec<u32>,
}

impl Refutation {
    /// Of a test that has no candidate with the outcome, so that nothing is to be shown.
    pub(crate) fn empty(alloc: Global) -> Refutation {
        Refutation {
            inferences: List::new(Vec::new(alloc)),
            sizes: Vec::new(alloc),
        }
    }
}

/// A node whose parts are written.
#[derive(Drop)]
struct Frame {
    node: usize,
    /// How many of its parts are still to be written, the last one first.
    left: usize,
    /// How many inferences were written before.
    start: usize,
    /// The pairs of stores that are known above it, and in it.
    above: Relation,
    known: Relation,
    /// The pairs on which rests what was written below it.
    used: Relation,
}

/// What writes a tree. The inferences stand in reverse, since what a region rests on is known when its parts are
/// written.
#[derive(Drop)]
struct Writer<'a> {
    alloc: Global,
    field: Field<'a>,
    tree: &'a Tree,
    placed: SlotPairs,
    stack: Vec<Frame>,
    written: Vec<Inference>,
    sizes: Vec<u32>,
}

impl Writer<'_> {
    fn write(&mut self, inference: Inference) -> Result<(), AllocError> {
        self.written.push(inference)?;
        self.sizes.push(0)?;
        Ok(())
    }

    fn write_clash(&mut self, clash: &Clash) -> Result<(), AllocError> {
        let inference = clash.inference(self.alloc, self.field)?;
        self.write(inference)
    }

    fn write_decision(&mut self, decision: Decision) -> Result<(), AllocError> {
        self.write(decision.inference(self.field))
    }

    /// What was written, the first one first.
    fn whole(self) -> Refutation {
        let Writer { written, sizes, .. } = self;
        let mut inferences = written;
        inferences.reverse();
        let mut sizes = sizes;
        sizes.reverse();
        Refutation {
            inferences: List::new(inferences),
            sizes,
        }
    }

    /// All that was written since then is one part of the tree.
    fn note_size(&mut self, start: usize) {
        let size = self.written.len().saturating_sub(start);
        if let Some(last) = self.sizes.last_mut() {
            *last = u32::try_from(size).unwrap_or(0);
        }
    }

    /// Writes the step of a region, if it is used and wasn't known before. Where the other order was known, what ends
    /// that ends the region, in the place of all that was written of it: this rests on that order.
    fn write_step(
        &mut self,
        step: &Step,
        start: usize,
        before: &Relation,
        used: &mut Relation,
    ) -> Result<(), AllocError> {
        let (first, second) = (step.first, step.second);
        if !used.has(first, second) || before.has(first, second) {
            return Ok(());
        }
        if before.has(second, first) {
            *used = step.ending.used.relation();
            used.add(second, first);
            self.written.truncate(start);
            self.sizes.truncate(start);
            return self.write_clash(&step.ending.clash);
        }
        used.remove(first, second);
        used.join(&step.used());
        self.write_clash(&step.ending.clash)?;
        self.write_decision(Decision::Order(second, first))
    }

    /// The region above rests on these too.
    fn hand_up(&mut self, used: &Relation) {
        if let Some(frame) = self.stack.last_mut() {
            frame.used.join(used);
        }
    }

    /// Writes a region that has ended.
    fn write_leaf(&mut self, leaf: &Leaf, before: &Relation) -> Result<(), AllocError> {
        let start = self.written.len();
        self.write_clash(&leaf.dead.ending.clash)?;
        let mut used = leaf.dead.ending.used.relation();
        let steps = leaf.dead.steps.as_slice();
        for place in 0..steps.len() {
            self.write_step(&steps[steps.len() - 1 - place], start, before, &mut used)?;
        }
        self.note_size(start);
        self.hand_up(&used);
        Ok(())
    }

    /// Begins with the node, above which these pairs are known.
    fn enter(&mut self, number: usize, above: Relation) -> Result<(), AllocError> {
        let tree = self.tree;
        let Some(node) = tree.node(number) else {
            return Ok(());
        };
        if let Some(leaf) = node.leaf(&self.placed) {
            return self.write_leaf(leaf, &above);
        }
        if let Some(branching) = tree.branching(number) {
            let mut known = above;
            branching.add_held(&mut known, &self.placed);
            self.stack.push(Frame {
                node: number,
                left: branching.count,
                start: self.written.len(),
                above,
                known,
                used: branching.used,
            })?;
        }
        Ok(())
    }

    /// Writes how the region is split, unless its order was known, and what followed in it, as far as it holds.
    fn write_split(
        &mut self,
        branching: &Branching,
        frame: &Frame,
        used: &mut Relation,
    ) -> Result<(), AllocError> {
        if branching.known_part(&frame.known).is_none() {
            branching.drop_decided(used);
            self.write_decision(branching.decision)?;
        }
        for place in 0..branching.held.len() {
            let held = &branching.held[branching.held.len() - 1 - place];
            if held.need.is_met(&self.placed) {
                self.write_step(&held.step, frame.start, &frame.above, used)?;
            }
        }
        Ok(())
    }

    /// Writes a region whose parts have been written.
    fn leave(&mut self, frame: Frame) -> Result<(), AllocError> {
        let mut used = frame.used;
        let tree = self.tree;
        if let Some(branching) = tree.branching(frame.node) {
            self.write_split(branching, &frame, &mut used)?;
        }
        self.note_size(frame.start);
        self.hand_up(&used);
        Ok(())
    }

    /// Goes on with the next part of the last node, or ends that node.
    fn advance(&mut self) -> Result<(), AllocError> {
        let tree = self.tree;
        let Some(frame) = self.stack.last_mut() else {
            return Ok(());
        };
        if frame.left > 0 {
            frame.left = frame.left.saturating_sub(1);
            let part = frame.left;
            let mut known = frame.known;
            if let Some(branching) = tree.branching(frame.node) {
                match branching.known_part(&known) {
                    Some(one) if one != part => return Ok(()),
                    _ => {}
                }
                branching.add_decided(&mut known, part);
                let number = tree.part(frame.node, part);
                return self.enter(number, known);
            }
        }
        if let Some(frame) = self.stack.pop() {
            self.leave(frame)?;
        }
        Ok(())
    }
}

/// The inferences by which the tree refutes its root with the fences of the field; nothing where there are more than so
/// many.
pub(crate) fn inferences_of(
    alloc: Global,
    field: Field<'_>,
    tree: &Tree,
    most: usize,
) -> Result<Option<Refutation>, AllocError> {
    let mut writer = Writer {
        alloc,
        field,
        tree,
        placed: field.fences.pairs,
        stack: Vec::new(alloc),
        written: Vec::new(alloc),
        sizes: Vec::new(alloc),
    };
    writer.enter(0, tree.start)?;
    for _ in 0..most.saturating_mul(4).saturating_add(8) {
        if writer.stack.is_empty() || writer.written.len() > most {
            break;
        }
        writer.advance()?;
    }
    let is_whole = writer.stack.is_empty() && writer.written.len() <= most;
    Ok(if is_whole { Some(writer.whole()) } else { None })
}
