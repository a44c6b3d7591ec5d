//! What follows in a region by itself: which stores come before others, until it ends or nothing more follows.

use crate::clash::{Clash, Ending, Step};
use crate::endings::Outlook;
use crate::facts::{Facts, blank};
use crate::links::Edge;
use crate::names::{MOST_NAMES, Pairs, Relation, bit, least, without_least};
use crate::paths::{cycle, name_after, way};
use crate::region::{Field, Region};
use crate::uses::of_filter;
use fs_cert_evidence::Cause;
use std::alloc::{AllocError, Global};

/// More rounds than there are pairs of names.
const MOST_ROUNDS: usize = MOST_NAMES * MOST_NAMES + 1;

/// A region in which everything was drawn that follows; at the end what ends it, if something does.
#[derive(Drop)]
pub(crate) struct Looked {
    pub(crate) region: Box<Region>,
    pub(crate) steps: Vec<Step>,
    pub(crate) ending: Option<Ending>,
}

/// What must hold in a region at some time.
#[derive(Drop)]
pub(crate) struct View {
    pub(crate) facts: Facts,
    edges: Relation,
    /// Those of the edges for which a fence is needed.
    fenced: Relation,
    pub(crate) closure: Relation,
}

impl View {
    fn of(field: Field<'_>, region: &Region) -> View {
        let mut view = View {
            facts: blank(),
            edges: Relation::new(),
            fenced: Relation::new(),
            closure: Relation::new(),
        };
        view.facts.add(field, region);
        view
    }

    /// Takes the order of stores that is known now.
    fn renew(&mut self, region: &Region, count: u8) {
        self.edges = self.facts.edges;
        self.facts.add_ordered(&mut self.edges, region, count);
        self.fenced = self.facts.fenced;
        self.fenced.leave_out(&self.edges);
        self.edges.join(&self.fenced);
        self.closure = self.edges;
        self.closure.close(count);
    }
}

/// What follows in the region.
pub(crate) fn saturate(
    alloc: Global,
    field: Field<'_>,
    region: Box<Region>,
) -> Result<Looked, AllocError> {
    let known = region.before;
    let mut looked = Looked {
        region,
        steps: Vec::new(alloc),
        ending: None,
    };
    let mut view = View::of(field, &looked.region);
    for _ in 0..MOST_ROUNDS {
        view.renew(&looked.region, field.count);
        let round = Round {
            alloc,
            field,
            view: &view,
        };
        if !round.draw(&mut looked, &known)? {
            break;
        }
    }
    Ok(looked)
}

/// One round.
#[derive(Clone, Copy)]
pub(crate) struct Round<'a> {
    pub(crate) alloc: Global,
    pub(crate) field: Field<'a>,
    pub(crate) view: &'a View,
}

impl Looked {
    pub(crate) fn end(&mut self, ending: Ending) {
        self.ending = Some(ending);
    }

    /// The first store comes before the second.
    pub(crate) fn order(
        &mut self,
        first: u8,
        second: u8,
        ending: Ending,
    ) -> Result<(), AllocError> {
        self.region.before.add(first, second);
        self.steps.push(Step {
            first,
            second,
            ending,
        })?;
        Ok(())
    }

    pub(crate) fn is_before(&self, first: u8, second: u8) -> bool {
        self.region.before.has(first, second)
    }
}

impl Round<'_> {
    /// Draws what follows next. Is there something, and doesn't it end the region?
    fn draw(self, looked: &mut Looked, known: &Relation) -> Result<bool, AllocError> {
        self.end_by_cycle(looked)?;
        if looked.ending.is_some() {
            return Ok(false);
        }
        self.end_by_outcome(looked, known)?;
        let count = looked.steps.len();
        if looked.ending.is_none() {
            self.follow_loads(looked)?;
        }
        if looked.ending.is_none() && looked.steps.len() == count {
            self.follow_pairs(looked)?;
        }
        if looked.ending.is_none() && looked.steps.len() == count {
            self.follow_paths(looked)?;
        }
        Ok(looked.ending.is_none() && looked.steps.len() > count)
    }

    /// Ends by a cycle, if there is one.
    fn end_by_cycle(self, looked: &mut Looked) -> Result<(), AllocError> {
        let found = cycle(
            self.alloc,
            &self.view.edges,
            &self.view.closure,
            &self.view.fenced,
            self.field.count,
        )?;
        if let Some(names) = found {
            let ending = self.cycle_of(&looked.region, &names, None)?;
            looked.end(ending);
        }
        Ok(())
    }

    /// The cycle of these names, and why the last comes before the first, if that isn't known yet.
    fn cycle_of(
        self,
        region: &Region,
        names: &[u8],
        closing: Option<Cause>,
    ) -> Result<Ending, AllocError> {
        let mut edges = Vec::new(self.alloc);
        let mut used = Pairs::new(self.alloc);
        self.push_edges(&mut edges, &mut used, region, names, closing)?;
        Ok(Ending {
            clash: Clash::Cycle(edges),
            used,
        })
    }

    /// Adds its edges, and what they rest on.
    fn push_edges(
        self,
        edges: &mut Vec<Edge>,
        used: &mut Pairs,
        region: &Region,
        names: &[u8],
        closing: Option<Cause>,
    ) -> Result<(), AllocError> {
        for (place, name) in names.iter().enumerate() {
            let is_last = place.saturating_add(1) == names.len();
            let next = name_after(names, place);
            let edge = match closing {
                Some(cause) if is_last => Edge { name: *name, cause },
                _ => Edge::found(self.field, region, &self.view.facts, used, *name, next)?,
            };
            edges.push(edge)?;
        }
        Ok(())
    }

    /// Ends where the outcome can't be.
    fn end_by_outcome(self, looked: &mut Looked, known: &Relation) -> Result<(), AllocError> {
        let outlook = Outlook {
            field: self.field,
            region: &looked.region,
            facts: &self.view.facts,
        };
        if !outlook.may_show(self.alloc)? {
            let mut used = Pairs::new(self.alloc);
            used.add_all(&of_filter(&outlook, known))?;
            looked.end(Ending {
                clash: Clash::Outcome,
                used,
            });
        }
        Ok(())
    }

    /// The way from the first to the last, and back to the first for this cause.
    pub(crate) fn cycle_by(
        self,
        region: &Region,
        first: u8,
        last: u8,
        closing: Cause,
    ) -> Result<Ending, AllocError> {
        let mut names = way(self.alloc, &self.view.edges, first, last, self.field.count)?;
        names.push(last)?;
        self.cycle_of(region, &names, Some(closing))
    }

    /// Of two stores of a location the one with a way to the other comes first.
    fn follow_paths(self, looked: &mut Looked) -> Result<(), AllocError> {
        for first in 0..self.field.count {
            let stores = self.view.facts.stored(self.view.facts.store_at(first));
            let known = looked.region.before.row(first);
            let later = stores & self.view.closure.row(first) & !known & !bit(first);
            let mut left = later;
            for _ in 0..later.count_ones() {
                let second = least(left);
                left = without_least(left);
                let ending = self.cycle_by(&looked.region, first, second, Cause::Coherence)?;
                looked.order(first, second, ending)?;
            }
        }
        Ok(())
    }
}
