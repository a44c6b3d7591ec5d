//! Which regions a decision makes of one: those that have candidates left. Each is made where it is looked at.

use crate::access::Doing;
use crate::names::{Origin, least, without_least};
use crate::region::Region;
use crate::rows::{do_meet, is_within};
use crate::splits::{Decision, Splitter, own_row};
use crate::trail::Branch;
use std::alloc::AllocError;

/// Mostly a decision makes no more regions than these.
const ROOM: usize = 16;

/// One of the regions that a decision makes of a region.
#[derive(Clone, Copy)]
pub(crate) enum Portion {
    /// The choice of this place is made at the name.
    Choice(u8, usize),
    /// The load isn't executed.
    Idle(u8),
    /// The load returns from this.
    Source(u8, Origin),
    /// The first store comes before the second.
    Ordered(u8, u8),
    /// The wanted condition of this number gets its truth value in the way of that one.
    Case(usize, usize),
    /// The runs of the hart with which the outcome may be shown.
    Showing(u8),
}

impl Portion {
    /// By what the trail knows it in the region, where the decision may be tried again below.
    pub(crate) fn branch(self, region: &Region) -> Option<Branch> {
        match self {
            Portion::Choice(name, place) => Some(Branch::Choice(name, place)),
            Portion::Idle(load) => Some(Branch::Source(load, region.origin(load))),
            Portion::Source(load, origin) => Some(Branch::Source(load, origin)),
            _ => None,
        }
    }
}

impl Splitter<'_> {
    /// What the decision makes of the region: no fewer than the first so many, where there are so many.
    pub(crate) fn portions(
        self,
        region: &Region,
        decision: Decision,
        most: usize,
    ) -> Result<Vec<Portion>, AllocError> {
        let mut portions = Vec::with_capacity(self.alloc, ROOM)?;
        self.push_portions(&mut portions, region, decision, most)?;
        Ok(portions)
    }

    /// Adds it.
    fn push_portions(
        self,
        portions: &mut Vec<Portion>,
        region: &Region,
        decision: Decision,
        most: usize,
    ) -> Result<(), AllocError> {
        match decision {
            Decision::Choice(name) => self.push_choices(portions, region, name),
            Decision::Source(load) => self.push_sources(portions, region, load, most),
            Decision::Order(first, second) => {
                portions.push(Portion::Ordered(first, second))?;
                portions.push(Portion::Ordered(second, first))?;
                Ok(())
            }
            Decision::Cases(number) => self.push_cases(portions, region, number),
            Decision::Filter(hart) => {
                portions.push(Portion::Showing(hart))?;
                Ok(())
            }
        }
    }

    fn push_choices(
        self,
        portions: &mut Vec<Portion>,
        region: &Region,
        name: u8,
    ) -> Result<(), AllocError> {
        let row = region.row(self.field.owner(name));
        if let Some(doing) = self.field.doing(name) {
            for (place, group) in doing.choices.iter().enumerate() {
                if do_meet(row, &group.row) {
                    portions.push(Portion::Choice(name, place))?;
                }
            }
        }
        Ok(())
    }

    fn push_cases(
        self,
        portions: &mut Vec<Portion>,
        region: &Region,
        number: usize,
    ) -> Result<(), AllocError> {
        for way in 0..self.ways(region, number) {
            portions.push(Portion::Case(number, way))?;
        }
        Ok(())
    }

    fn push_sources(
        self,
        portions: &mut Vec<Portion>,
        region: &Region,
        load: u8,
        most: usize,
    ) -> Result<(), AllocError> {
        let Some(doing) = self.field.doing(load) else {
            return Ok(());
        };
        let row = region.row(self.field.owner(load));
        let known = region.origin(load);
        if !is_within(row, &doing.loads.any) {
            portions.push(Portion::Idle(load))?;
        }
        if (known == Origin::Unknown || known == Origin::Initial) && do_meet(row, &doing.initial) {
            portions.push(Portion::Source(load, Origin::Initial))?;
        }
        self.push_stored(portions, region, load, doing, most)
    }

    /// Adds those in which the load returns from a store.
    fn push_stored(
        self,
        portions: &mut Vec<Portion>,
        region: &Region,
        load: u8,
        doing: &Doing,
        most: usize,
    ) -> Result<(), AllocError> {
        let known = region.origin(load);
        let stores = region.may_store();
        let mut rest = stores;
        for _ in 0..stores.count_ones() {
            if portions.len() >= most {
                break;
            }
            let store = least(rest);
            rest = without_least(rest);
            let origin = Origin::From(store);
            if (known == Origin::Unknown || known == origin)
                && self.may_return(region, load, doing, store)
            {
                portions.push(Portion::Source(load, origin))?;
            }
        }
        Ok(())
    }

    /// Does the load agree with the store in runs that are left?
    fn may_return(self, region: &Region, load: u8, doing: &Doing, store: u8) -> bool {
        let hart = self.field.owner(load);
        if hart == self.field.owner(store) {
            return do_meet(region.row(hart), own_row(doing, store));
        }
        match self.parties(region, load, store) {
            Some(parties) => parties.do_agree(),
            None => false,
        }
    }

    /// Is the one region that a decision makes the region itself?
    pub(crate) fn is_vain(self, region: &Region, portions: &[Portion]) -> Result<bool, AllocError> {
        match portions {
            [one] => self.is_whole(region, *one),
            _ => Ok(false),
        }
    }

    /// Has it the runs and the sources of the region?
    fn is_whole(self, region: &Region, portion: Portion) -> Result<bool, AllocError> {
        match portion {
            Portion::Choice(name, place) => {
                let row = region.row(self.field.owner(name));
                Ok(is_within(row, self.choice_row(name, place)))
            }
            Portion::Idle(load) => match self.field.doing(load) {
                Some(doing) => Ok(!do_meet(region.row(self.field.owner(load)), &doing.loads.any)),
                None => Ok(false),
            },
            Portion::Source(load, origin) => {
                Ok(region.origin(load) == origin && self.has_source(region, load, origin)?)
            }
            Portion::Showing(hart) => {
                Ok(is_within(region.row(hart), &self.showing_row(region, hart)?))
            }
            Portion::Ordered(_, _) | Portion::Case(_, _) => Ok(false),
        }
    }

    /// May the load return from this in each run that is left?
    fn has_source(self, region: &Region, load: u8, origin: Origin) -> Result<bool, AllocError> {
        let Some(doing) = self.field.doing(load) else {
            return Ok(false);
        };
        let hart = self.field.owner(load);
        let row = region.row(hart);
        match origin {
            Origin::Unknown => Ok(false),
            Origin::Initial => Ok(is_within(row, &doing.initial)),
            Origin::From(store) if self.field.owner(store) == hart => {
                Ok(is_within(row, own_row(doing, store)))
            }
            Origin::From(store) => match self.parties(region, load, store) {
                Some(parties) => parties.are_whole(self.alloc),
                None => Ok(false),
            },
        }
    }
}
