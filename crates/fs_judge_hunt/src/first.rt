//! Of the executions that a region shows, the one whose candidate comes first: by the choices of harts, then by the
//! sources of loads, then by the order of stores.

use crate::facts::Facts;
use crate::frames::{Hunted, Limits, Search};
use crate::names::{Origin, bit, has};
use crate::paths::before;
use crate::region::{Field, Region};
use crate::splits::{Decision, Splitter};
use fs_kinds::MOST_LOCATIONS;
use std::alloc::{AllocError, Global};

/// A region that is narrowed, and what it shows.
#[derive(Drop)]
struct Narrowing<'a> {
    alloc: Global,
    field: Field<'a>,
    limits: Limits,
    region: Box<Region>,
    found: Box<Region>,
}

/// What comes of a try.
#[derive(Clone, Copy, PartialEq, Eq)]
enum Tried {
    /// The region shows something.
    Shown,
    Refuted,
    GaveUp,
}

/// Does the store come before each of the others?
fn is_first(region: &Region, store: u8, stores: u64) -> bool {
    stores & !region.before.row(store) & !bit(store) == 0
}

/// The place of the first of the regions in which the found one's runs are.
fn place_of_runs(regions: &[Box<Region>], found: &Region) -> usize {
    for (place, region) in regions.iter().enumerate() {
        if found.is_in(region) {
            return place;
        }
    }
    usize::MAX
}

/// That of the first in which the load has this source.
fn place_of_source(regions: &[Box<Region>], load: u8, origin: Origin) -> usize {
    for (place, region) in regions.iter().enumerate() {
        if region.origin(load) == origin {
            return place;
        }
    }
    usize::MAX
}

/// That of the first in which the store comes before the others.
fn place_of_first(regions: &[Box<Region>], store: u8, stores: u64) -> usize {
    for (place, region) in regions.iter().enumerate() {
        if is_first(region, store, stores) {
            return place;
        }
    }
    usize::MAX
}

impl Narrowing<'_> {
    fn hunt(&self, region: &Region) -> Result<Hunted, AllocError> {
        let copy = region.copy(self.alloc)?;
        let mut search = Search::new(self.alloc, copy)?;
        search.hunt(self.alloc, self.field, self.limits)
    }

    /// Takes the smaller region, if it shows something.
    fn take(&mut self, smaller: Box<Region>) -> Result<Tried, AllocError> {
        match self.hunt(&smaller)? {
            Hunted::Shown(found) => {
                self.region = smaller;
                self.found = found;
                Ok(Tried::Shown)
            }
            Hunted::Refuted => Ok(Tried::Refuted),
            Hunted::GaveUp => Ok(Tried::GaveUp),
        }
    }

    /// Takes the first of the smaller regions that shows something. What was found is in the one at this place.
    fn take_first(&mut self, regions: Vec<Box<Region>>, place: usize) -> Result<Tried, AllocError> {
        let mut number: usize = 0;
        for smaller in regions {
            if number == place {
                self.region = smaller;
                return Ok(Tried::Shown);
            }
            let tried = self.take(smaller)?;
            if tried != Tried::Refuted {
                return Ok(tried);
            }
            number = number.saturating_add(1);
        }
        Ok(Tried::GaveUp)
    }

    fn children(&self, decision: Decision) -> Result<Vec<Box<Region>>, AllocError> {
        let splitter = Splitter {
            alloc: self.alloc,
            field: self.field,
        };
        splitter.regions(&self.region, decision)
    }

    /// The least choice at each name.
    fn narrow_choices(&mut self) -> Result<Tried, AllocError> {
        for name in 0..self.field.count {
            let regions = self.children(Decision::Choice(name))?;
            let place = place_of_runs(&regions, &self.found);
            let tried = self.take_first(regions, place)?;
            if tried != Tried::Shown {
                return Ok(tried);
            }
        }
        Ok(Tried::Shown)
    }

    /// The least source of each load.
    fn narrow_sources(&mut self) -> Result<Tried, AllocError> {
        let loads = Facts::of(self.field, &self.region).loads;
        for load in 0..self.field.count {
            if !has(loads, load) {
                continue;
            }
            let regions = self.children(Decision::Source(load))?;
            let place = place_of_source(&regions, load, self.found.origin(load));
            let tried = self.take_first(regions, place)?;
            if tried != Tried::Shown {
                return Ok(tried);
            }
        }
        Ok(Tried::Shown)
    }

    /// The regions in which one of the stores comes first, by that store.
    fn by_first(&self, stores: u64) -> Result<Vec<Box<Region>>, AllocError> {
        let mut regions = Vec::new(self.alloc);
        for store in 0..self.field.count {
            let known = &self.region.before;
            if has(stores, store) && before(known, stores, store).is_none() {
                let mut region = self.region.copy(self.alloc)?;
                region.before.add_all(store, stores & !bit(store));
                regions.push(region)?;
            }
        }
        Ok(regions)
    }

    /// The least order of these stores, which are of one location.
    fn narrow_order(&mut self, stores: u64) -> Result<Tried, AllocError> {
        let mut left = stores;
        for _ in 0..self.field.count {
            if left == 0 {
                break;
            }
            let regions = self.by_first(left)?;
            let first = self.first_of(&self.found, left);
            let place = place_of_first(&regions, first, left);
            let tried = self.take_first(regions, place)?;
            if tried != Tried::Shown {
                return Ok(tried);
            }
            left &= !bit(self.first_of(&self.region, left));
        }
        Ok(Tried::Shown)
    }

    /// The store that comes before the others.
    fn first_of(&self, region: &Region, stores: u64) -> u8 {
        for store in 0..self.field.count {
            if has(stores, store) && is_first(region, store, stores) {
                return store;
            }
        }
        0
    }

    fn narrow_orders(&mut self) -> Result<Tried, AllocError> {
        for location in 0..MOST_LOCATIONS as u8 {
            let stores = Facts::of(self.field, &self.region).stored(location);
            let tried = self.narrow_order(stores)?;
            if tried != Tried::Shown {
                return Ok(tried);
            }
        }
        Ok(Tried::Shown)
    }

    fn narrow(&mut self) -> Result<Tried, AllocError> {
        let tried = self.narrow_choices()?;
        if tried != Tried::Shown {
            return Ok(tried);
        }
        let tried = self.narrow_sources()?;
        if tried != Tried::Shown {
            return Ok(tried);
        }
        self.narrow_orders()
    }
}

/// Refutes the region, over which the search is, or finds the first candidate that it shows, each time within the
/// limits.
pub(crate) fn hunt_first(
    alloc: Global,
    field: Field<'_>,
    search: &mut Search,
    region: Box<Region>,
    limits: Limits,
) -> Result<Hunted, AllocError> {
    let found = match search.hunt(alloc, field, limits)? {
        Hunted::Shown(found) => found,
        other => return Ok(other),
    };
    let mut narrowing = Narrowing {
        alloc,
        field,
        limits,
        region,
        found,
    };
    let tried = narrowing.narrow()?;
    let Narrowing { found, .. } = narrowing;
    Ok(if tried == Tried::Shown {
        Hunted::Shown(found)
    } else {
        Hunted::GaveUp
    })
}
