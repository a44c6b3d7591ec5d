//! What looks at splits have shown on the way to a region: which of their regions end, and how many are open. Each
//! region below is part of these, and what ends a region ends each part of it.

use crate::clash::{Ending, Step};
use crate::names::{MOST_NAMES, Origin, Relation};
use crate::needs::Need;
use crate::region::{Field, Region};
use crate::splits::Decision;
use std::alloc::{AllocError, Global};
use std::sync::Arc;

/// What followed in a region that has ended, and what ends it.
#[derive(Drop)]
pub(crate) struct Dead {
    pub(crate) steps: Vec<Step>,
    pub(crate) ending: Ending,
}

/// One of the regions of a split, the same in each region that is split so.
#[derive(Clone, Copy, PartialEq, Eq)]
pub(crate) enum Branch {
    /// The load returns from this; if nothing is known, it isn't executed.
    Source(u8, Origin),
    /// The runs with the choice of this place at the name.
    Choice(u8, usize),
}

/// A region of a split that has ended.
#[derive(Drop)]
struct Ended {
    branch: Branch,
    dead: Arc<Dead>,
}

/// What looks at splits have shown.
#[derive(Drop)]
pub(crate) struct Trail {
    /// How many looks were made in all.
    pub(crate) looks: usize,
    ended: Vec<Ended>,
    /// For each name how many regions the split by it left open, when it was last tried.
    open: [u8; MOST_NAMES],
}

/// What a trail was.
#[derive(Clone, Copy)]
pub(crate) struct Mark {
    ended: usize,
    open: [u8; MOST_NAMES],
}

/// The steps on which the pairs rest, in their order.
fn used_among(
    alloc: Global,
    mut steps: Vec<Step>,
    mut used: Relation,
) -> Result<Vec<Step>, AllocError> {
    let mut kept = Vec::new(alloc);
    for _ in 0..steps.len() {
        let Some(step) = steps.pop() else {
            break;
        };
        if used.has(step.first, step.second) {
            used.join(&step.used());
            kept.push(step)?;
        }
    }
    kept.reverse();
    Ok(kept)
}

impl Dead {
    /// What ends a region in which this followed: of the steps those that it rests on.
    pub(crate) fn new(alloc: Global, steps: Vec<Step>, ending: Ending) -> Result<Dead, AllocError> {
        let steps = used_among(alloc, steps, ending.used.relation())?;
        Ok(Dead { steps, ending })
    }

    /// Adds what it needs in the region, in which some pairs are known that need nothing more, and to what it rests on
    /// what its other steps do.
    pub(crate) fn add_needs(
        &self,
        need: &mut Need,
        used: &mut Relation,
        field: Field<'_>,
        region: &Region,
        known: &Relation,
    ) -> Result<(), AllocError> {
        self.ending.clash.add_needs(need, field, region)?;
        for place in 0..self.steps.len() {
            let step = &self.steps[self.steps.len() - 1 - place];
            if used.has(step.first, step.second) && !known.has(step.first, step.second) {
                used.remove(step.first, step.second);
                used.join(&step.used());
                step.ending.clash.add_needs(need, field, region)?;
            }
        }
        Ok(())
    }

    /// Can it be written in a region with these pairs? What followed in the one that ended isn't the other way round.
    fn fits(&self, before: &Relation) -> bool {
        for step in &self.steps {
            if before.has(step.second, step.first) {
                return false;
            }
        }
        true
    }
}

impl Decision {
    /// The name by which loads and sc.w are split.
    fn name(self) -> Option<u8> {
        match self {
            Decision::Source(load) => Some(load),
            Decision::Choice(name) => Some(name),
            _ => None,
        }
    }
}

impl Trail {
    /// That at the root.
    pub(crate) fn new(alloc: Global) -> Trail {
        Trail {
            looks: 0,
            ended: Vec::new(alloc),
            open: [u8::MAX; MOST_NAMES],
        }
    }

    /// How the region of the branch, with these pairs, ends, if a look has shown it.
    pub(crate) fn dead(&self, branch: Branch, before: &Relation) -> Option<&Arc<Dead>> {
        for ended in &self.ended {
            if ended.branch == branch && ended.dead.fits(before) {
                return Some(&ended.dead);
            }
        }
        None
    }

    /// The region of the branch ends.
    pub(crate) fn add(&mut self, branch: Branch, dead: &Arc<Dead>) -> Result<(), AllocError> {
        self.ended.push(Ended {
            branch,
            dead: Arc::try_clone(dead)?,
        })?;
        Ok(())
    }

    /// How many regions the decision left open, when it was last tried; the most, if it wasn't. Filters come first.
    pub(crate) fn open(&self, decision: Decision) -> u8 {
        match decision.name() {
            Some(name) if usize::from(name) < MOST_NAMES => self.open[usize::from(name)],
            Some(_) => u8::MAX,
            None => 0,
        }
    }

    /// The decision leaves so many open.
    pub(crate) fn set_open(&mut self, decision: Decision, open: usize) {
        if let Some(name) = decision.name() {
            let name = usize::from(name);
            if name < MOST_NAMES {
                self.open[name] = u8::try_from(open).unwrap_or(u8::MAX);
            }
        }
    }

    /// What it was at the mark, with no look counted.
    pub(crate) fn copy_of(&self, alloc: Global, mark: &Mark) -> Result<Trail, AllocError> {
        let mut copy = Trail::new(alloc);
        copy.open = mark.open;
        for place in 0..mark.ended.min(self.ended.len()) {
            copy.add(self.ended[place].branch, &self.ended[place].dead)?;
        }
        Ok(copy)
    }

    pub(crate) fn mark(&self) -> Mark {
        Mark {
            ended: self.ended.len(),
            open: self.open,
        }
    }

    /// Forgets what was shown since then.
    pub(crate) fn go_back(&mut self, mark: &Mark) {
        self.ended.truncate(mark.ended);
        self.open = mark.open;
    }
}
