//! Which way a region is split.

use crate::cases::cases;
use crate::clash::Step;
use crate::endings::Outlook;
use crate::facts::Facts;
use crate::learned::Learned;
use crate::names::{Relation, bit, has};
use crate::portions::Portion;
use crate::region::{Field, Region};
use crate::saturate::{Looked, saturate};
use crate::splits::{Decision, Splitter};
use crate::trail::{Branch, Dead, Trail};
use crate::uses::of_filter;
use std::alloc::{AllocError, Global};
use std::sync::Arc;

/// A region that was looked at.
#[derive(Drop)]
pub(crate) enum Seen {
    /// It ends so.
    Ended(Arc<Dead>, Box<Region>),
    /// It is open, and this followed in it.
    Open(Box<Region>, Vec<Step>),
}

/// A region of a split.
#[derive(Drop)]
pub(crate) enum Child {
    /// It ends so, as a look on the way has shown; it isn't made.
    Known(Arc<Dead>, Portion),
    Seen(Seen),
}

/// A split with what it makes of a region, of which so many are left open.
#[derive(Drop)]
pub(crate) struct Split {
    pub(crate) decision: Decision,
    pub(crate) children: Vec<Child>,
    /// The pairs of stores that it rests on.
    pub(crate) used: Relation,
    live: usize,
}

/// A region to be split, with what must hold in it.
#[derive(Clone, Copy)]
pub(crate) struct Chooser<'a> {
    pub(crate) alloc: Global,
    pub(crate) field: Field<'a>,
    pub(crate) region: &'a Region,
    pub(crate) facts: &'a Facts,
    /// Are the pairs of stores that are known here known with any fences?
    pub(crate) is_firm: bool,
    pub(crate) learned: &'a Learned,
}

/// Looks at the region.
pub(crate) fn look(
    alloc: Global,
    field: Field<'_>,
    region: Box<Region>,
) -> Result<Seen, AllocError> {
    let Looked {
        region,
        steps,
        ending,
    } = saturate(alloc, field, region)?;
    match ending {
        Some(ending) => {
            let dead = Arc::new(alloc, Dead::new(alloc, steps, ending)?)?;
            Ok(Seen::Ended(dead, region))
        }
        None => Ok(Seen::Open(region, steps)),
    }
}

impl Split {
    /// Adds the region.
    fn add(&mut self, child: Child) -> Result<(), AllocError> {
        if let Child::Seen(Seen::Open(_, _)) = &child {
            self.live = self.live.saturating_add(1);
        }
        self.children.push(child)?;
        Ok(())
    }
}

/// What ends the region of the branch, if a look on the way has shown it.
fn dead_at(
    trail: &Trail,
    branch: Option<Branch>,
    region: &Region,
) -> Result<Option<Arc<Dead>>, AllocError> {
    let Some(branch) = branch else {
        return Ok(None);
    };
    match trail.dead(branch, &region.before) {
        Some(dead) => Ok(Some(Arc::try_clone(dead)?)),
        None => Ok(None),
    }
}

impl Chooser<'_> {
    fn splitter(&self) -> Splitter<'_> {
        Splitter {
            alloc: self.alloc,
            field: self.field,
        }
    }

    /// Puts the portion of the region among the split's children, made and looked at where no look on the way has shown
    /// that it ends. Where so many are open, it is only counted.
    fn add_child(
        &self,
        trail: &mut Trail,
        split: &mut Split,
        portion: Portion,
        most: usize,
    ) -> Result<(), AllocError> {
        let branch = portion.branch(self.region);
        if let Some(dead) = dead_at(trail, branch, self.region)? {
            return split.add(Child::Known(dead, portion));
        }
        if split.live >= most {
            split.live = split.live.saturating_add(1);
            return Ok(());
        }
        if let Some(region) = self.splitter().make(self.region, portion)? {
            let seen = self.look_at(trail, branch, region)?;
            split.add(Child::Seen(seen))?;
        }
        Ok(())
    }

    /// The same for each of these.
    fn add_children(
        &self,
        trail: &mut Trail,
        split: &mut Split,
        portions: &[Portion],
        most: usize,
    ) -> Result<(), AllocError> {
        for portion in portions {
            self.add_child(trail, split, *portion, most)?;
        }
        Ok(())
    }

    /// Looks at the region of the branch, which the trail keeps where it ends.
    fn look_at(
        &self,
        trail: &mut Trail,
        branch: Option<Branch>,
        region: Box<Region>,
    ) -> Result<Seen, AllocError> {
        trail.looks = trail.looks.saturating_add(1);
        let seen = look(self.alloc, self.field, region)?;
        if let Seen::Ended(dead, _) = &seen {
            if let Some(branch) = branch {
                trail.add(branch, dead)?;
            }
        }
        Ok(seen)
    }

    /// Looks at what the decision makes of the region; nothing where that is the region itself, or so many are open.
    fn try_split(
        &self,
        trail: &mut Trail,
        decision: Decision,
        most: usize,
    ) -> Result<Option<Split>, AllocError> {
        let portions = self.splitter().portions(self.region, decision, usize::MAX)?;
        if self.splitter().is_vain(self.region, &portions)? {
            return Ok(None);
        }
        let mut split = Split {
            decision,
            children: Vec::new(self.alloc),
            used: self.used(decision),
            live: 0,
        };
        self.add_children(trail, &mut split, &portions, most)?;
        trail.set_open(decision, split.live);
        Ok(if split.live < most { Some(split) } else { None })
    }

    /// The pairs of stores that the decision rests on.
    fn used(&self, decision: Decision) -> Relation {
        let outlook = Outlook {
            field: self.field,
            region: self.region,
            facts: self.facts,
        };
        match decision {
            Decision::Filter(_) => of_filter(&outlook, &self.region.before),
            _ => Relation::new(),
        }
    }

    /// The one of these that leaves the fewest regions open. One that leaves at most one, and so only narrows the
    /// region, is taken at once.
    fn best(&self, trail: &mut Trail) -> Result<Option<Split>, AllocError> {
        let mut best: Option<Split> = None;
        let mut most = usize::MAX;
        let options = self.options(trail)?;
        for (number, choice) in options.choices.iter().enumerate() {
            if best.is_some() && options.is_late(number, choice, most) {
                break;
            }
            let limit = if best.is_some() {
                choice.limit(most)
            } else {
                most
            };
            if let Some(split) = self.try_split(trail, choice.decision, limit)? {
                most = split.live;
                best = Some(split);
            }
            if most <= 1 {
                break;
            }
        }
        Ok(best)
    }

    /// A choice that is left, by which runs differ.
    fn choice(&self) -> Option<Decision> {
        for name in 0..self.field.count {
            if self.has_choices(name) {
                return Some(Decision::Choice(name));
            }
        }
        None
    }

    /// Two stores of a location of which none is known to be first.
    fn order(&self) -> Option<Decision> {
        for first in 0..self.field.count {
            let stores = self.facts.stored(self.facts.store_at(first));
            let open = stores & !self.region.before.row(first) & !bit(first);
            for second in first..self.field.count {
                if has(open, second) && !self.region.before.has(second, first) {
                    return Some(Decision::Order(first, second));
                }
            }
        }
        None
    }

    /// The split to make; nothing where all is decided.
    pub(crate) fn split(&self, trail: &mut Trail) -> Result<Option<Split>, AllocError> {
        if self.is_undecided() {
            if let Some(cases) = cases(self.alloc, self.field, self.region)? {
                return self.try_split(trail, cases, usize::MAX);
            }
        }
        if let Some(split) = self.best(trail)? {
            return Ok(Some(split));
        }
        if let Some(choice) = self.choice() {
            return self.try_split(trail, choice, usize::MAX);
        }
        match self.order() {
            Some(order) => self.try_split(trail, order, usize::MAX),
            None => Ok(None),
        }
    }
}
