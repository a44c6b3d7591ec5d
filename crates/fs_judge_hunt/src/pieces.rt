//! Pieces of a hunt, each for one worker. One that is at work gives away the oldest part of its path, that nearest to
//! the root, where another has nothing to do. So all go depth first, and no region is looked at twice.

use crate::crew::Others;
use crate::frames::{Frame, Ground, Hunted, Search};
use crate::learned::Learned;
use crate::needs::SlotPairs;
use crate::region::Region;
use crate::trail::{Mark, Trail};
use crate::tree::{Node, Tree};
use std::alloc::{AllocError, Global};

/// A worker looks at so many regions at least between two parts that it gives away.
const LOOKS_BETWEEN: usize = 8;

/// A region of a hunt with all that a worker needs to look through it.
#[derive(Drop)]
pub struct Piece {
    /// By which it is put in its place; nothing for the whole.
    pub(crate) ticket: Option<usize>,
    pub(crate) search: Search,
    /// What it came to; nothing where it isn't at its end.
    pub(crate) hunted: Option<Hunted>,
}

impl Piece {
    /// All that is left of the search.
    pub(crate) fn whole(search: Search) -> Piece {
        Piece {
            ticket: None,
            search,
            hunted: None,
        }
    }

    /// At how many regions those who hunted in it have looked. In constant time.
    pub fn looks(&self) -> usize {
        self.search.looks()
    }

    /// How many regions it has. In constant time.
    pub fn regions(&self) -> usize {
        self.search.tree.nodes.len()
    }

    /// Was an execution found in it? In constant time.
    pub fn is_shown(&self) -> bool {
        matches!(&self.hunted, Some(Hunted::Shown(_)))
    }
}

impl Search {
    /// The mark of what is known in the parts of the path's node at this depth.
    fn mark_below(&self, depth: usize) -> Mark {
        let depth = depth.saturating_add(1);
        if depth < self.path.len() {
            self.path[depth].mark
        } else {
            self.trail.mark()
        }
    }

    /// The nodes of the path down to this depth, without their other parts, as a tree; of their regions the last one
    /// that is kept.
    fn spine(&self, alloc: Global, depth: usize) -> Result<Tree, AllocError> {
        let mut nodes = Vec::new(alloc);
        for place in 0..depth.saturating_add(1).min(self.path.len()) {
            nodes.push(self.tree.bare(alloc, self.path[place].node)?)?;
        }
        let mut tree = Tree {
            nodes,
            start: self.tree.start,
        };
        self.copy_region(alloc, &mut tree, depth)?;
        Ok(tree)
    }

    /// Copies the last region of the path's nodes down to this depth that is kept.
    fn copy_region(&self, alloc: Global, tree: &mut Tree, depth: usize) -> Result<(), AllocError> {
        let above = self.kept_above(depth.saturating_add(1));
        if above >= self.path.len() {
            return Ok(());
        }
        match self.tree.region(self.path[above].node) {
            Some(region) => tree.keep(above, region.copy(alloc)?),
            None => {}
        }
        Ok(())
    }

    /// The path down to this depth, and there into this part.
    fn path_into(
        &self,
        alloc: Global,
        depth: usize,
        part: usize,
        mark: Mark,
    ) -> Result<Vec<Frame>, AllocError> {
        let mut path = Vec::new(alloc);
        for number in 0..depth.saturating_add(1).min(self.path.len()) {
            let part = if number == depth {
                part
            } else {
                self.path[number].part
            };
            path.push(Frame {
                node: number,
                taken: usize::MAX,
                part,
                mark,
            })?;
        }
        Ok(path)
    }

    /// The search over this part of the path's node at this depth, whose tree is taken out.
    fn part_search(
        &mut self,
        alloc: Global,
        depth: usize,
        part: usize,
        number: usize,
    ) -> Result<Search, AllocError> {
        let trail = self.trail.copy_of(alloc, &self.mark_below(depth))?;
        let path = self.path_into(alloc, depth, part, trail.mark())?;
        let base = path.len();
        let mut tree = self.spine(alloc, depth)?;
        tree.nodes.push(Node::new(alloc))?;
        tree.put_back(base, self.tree.take_out(alloc, number)?)?;
        Ok(self.below(alloc, tree, path, trail))
    }

    /// A search of the same hunt over this tree, below this path.
    fn below(&self, alloc: Global, tree: Tree, path: Vec<Frame>, trail: Trail) -> Search {
        let base = path.len();
        let before = tree.nodes.len();
        Search {
            tree,
            learned: Learned::new(alloc),
            path,
            trail,
            base,
            next: Some(base),
            hunt: self.hunt,
            entered: 0,
            before,
            many: self.many,
            given: 0,
        }
    }

    /// The next part of the path's node at this depth that isn't known to have ended with these pairs placed, and its
    /// node.
    fn open_part(&mut self, depth: usize, placed: &SlotPairs) -> Option<(usize, usize)> {
        if depth >= self.path.len() {
            return None;
        }
        let node = self.path[depth].node;
        let count = self.tree.branching(node)?.count;
        for _ in 0..count {
            let part = self.take_part(depth)?;
            let number = self.tree.part(node, part);
            if !self.tree.has_ended(number, placed) && !self.is_contrary(depth, part, placed) {
                return Some((part, number));
            }
        }
        None
    }

    /// Gives the oldest part away that is open and that nobody has begun, if there is one.
    fn give<O: Others>(&mut self, ground: Ground<'_>, others: &O) -> Result<(), AllocError> {
        for depth in self.base..self.path.len() {
            let Some((part, number)) = self.open_part(depth, &ground.field.fences.pairs) else {
                continue;
            };
            let search = self.part_search(ground.alloc, depth, part, number)?;
            let ticket = others.ticket();
            self.tree.set_given(number, ticket);
            self.given = self.trail.looks;
            return others.give(Piece {
                ticket: Some(ticket),
                search,
                hunted: None,
            });
        }
        Ok(())
    }

    /// Hears and tells what cycles there are, and gives a part away where another has nothing to do.
    fn turn_round<O: Others>(&mut self, ground: Ground<'_>, others: &O) -> Result<(), AllocError> {
        if self.learned.has_news(others.learned()) {
            others.exchange(&mut self.learned)?;
        }
        let looks = self.trail.looks.saturating_sub(self.given);
        if looks >= LOOKS_BETWEEN && others.are_idle() {
            self.give(ground, others)?;
        }
        Ok(())
    }

    /// Goes one step on, which is counted. What it came to, or that it is to stop.
    fn step_among<O: Others>(
        &mut self,
        ground: Ground<'_>,
        others: &O,
    ) -> Result<Option<Hunted>, AllocError> {
        self.turn_round(ground, others)?;
        let (entered, nodes) = (self.entered, self.tree.nodes.len());
        let hunted = self.step(ground)?;
        let entered = self.entered.saturating_sub(entered);
        let made = self.tree.nodes.len().saturating_sub(nodes);
        match others.count(entered, made) {
            Some(many) => {
                self.many = many;
                Ok(hunted)
            }
            None => Ok(Some(hunted.unwrap_or(Hunted::GaveUp))),
        }
    }

    /// Looks through what is left, among others.
    pub(crate) fn hunt_among<O: Others>(
        &mut self,
        ground: Ground<'_>,
        others: &O,
    ) -> Result<Hunted, AllocError> {
        for _ in 0..usize::MAX {
            if let Some(hunted) = self.step_among(ground, others)? {
                return Ok(hunted);
            }
        }
        Ok(Hunted::GaveUp)
    }
}
