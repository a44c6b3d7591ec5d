//! What must hold in all candidates of a region, all harts together.

use crate::access::NOWHERE;
use crate::names::{MOST_NAMES, Origin, Relation, bit, has, least, without_least};
use crate::region::{Field, Region};
use crate::sum::{Common, Sum};
use fs_kinds::MOST_LOCATIONS;

/// What depends on the runs and sources of a region, and not on the order of stores. The sets are of names.
#[derive(Drop)]
pub(crate) struct Facts {
    pub(crate) loads: u64,
    pub(crate) stores: u64,
    pub(crate) may_load: u64,
    pub(crate) may_store: u64,
    load_at: [u8; MOST_NAMES],
    store_at: [u8; MOST_NAMES],
    /// For each location what must be stored there.
    stored: [u64; MOST_LOCATIONS],
    /// What rules but 4 put in order, and stores before the loads of other harts that return from them.
    pub(crate) edges: Relation,
    /// What rule 4 puts in order.
    pub(crate) fenced: Relation,
    /// Pairs of an lr.w and an sc.w.
    pub(crate) pairs: Relation,
}

fn set_at(places: &mut [u8; MOST_NAMES], name: u8, location: u8) {
    let name = usize::from(name);
    if name < MOST_NAMES {
        places[name] = location;
    }
}

/// Nothing must hold.
pub(crate) fn blank() -> Facts {
    Facts {
        loads: 0,
        stores: 0,
        may_load: 0,
        may_store: 0,
        load_at: [NOWHERE; MOST_NAMES],
        store_at: [NOWHERE; MOST_NAMES],
        stored: [0; MOST_LOCATIONS],
        edges: Relation::new(),
        fenced: Relation::new(),
        pairs: Relation::new(),
    }
}

impl Facts {
    /// Those of the region.
    pub(crate) fn of(field: Field<'_>, region: &Region) -> Facts {
        let mut facts = blank();
        facts.add(field, region);
        facts
    }

    /// Adds those of the region, where there are none yet.
    pub(crate) fn add(&mut self, field: Field<'_>, region: &Region) {
        let mut hart: u8 = 0;
        for left in &region.left {
            self.add_sum(region, &left.sum);
            if let Some(fenced) = field.fenced_in(hart) {
                fenced.add_to(&mut self.fenced, &left.row);
            }
            hart = hart.saturating_add(1);
        }
        for name in 0..field.count {
            self.add_read(field, region, name);
        }
    }

    fn add_sum(&mut self, region: &Region, sum: &Sum) {
        self.loads |= sum.loads;
        self.stores |= sum.stores;
        self.may_load |= sum.may_load;
        self.may_store |= sum.may_store;
        let mut name = sum.first;
        for common in &sum.names {
            self.add_common(region, name, common);
            name = name.saturating_add(1);
        }
        self.add_through(region, sum);
    }

    /// Takes what is common at the name.
    fn add_common(&mut self, region: &Region, name: u8, common: &Common) {
        set_at(&mut self.load_at, name, common.load_at);
        set_at(&mut self.store_at, name, common.store_at);
        self.add_stored(name, common.store_at);
        self.edges.add_all(name, common.ordered);
        self.pairs.add_all(name, common.pairs);
        if common.same != 0 {
            self.add_same(region, name, common.same);
        }
    }

    /// Rule 2, where the sources are known and differ.
    fn add_same(&mut self, region: &Region, first: u8, later: u64) {
        let origin = region.origin(first);
        if origin == Origin::Unknown {
            return;
        }
        let mut left = later;
        for _ in 0..later.count_ones() {
            let second = least(left);
            left = without_least(left);
            let other = region.origin(second);
            if other != Origin::Unknown && other != origin {
                self.edges.add(first, second);
            }
        }
    }

    /// Rule 12.
    fn add_through(&mut self, region: &Region, sum: &Sum) {
        for through in &sum.through {
            if region.origin(through.second) == Origin::From(through.store) {
                self.edges.add(through.first, through.second);
            }
        }
    }

    /// Where it stores in each run.
    fn add_stored(&mut self, name: u8, location: u8) {
        let location = usize::from(location);
        if location < MOST_LOCATIONS && usize::from(name) < MOST_NAMES {
            self.stored[location] |= bit(name);
        }
    }

    /// What the load returns from, where it is of another hart, or rule 3 orders the two.
    fn add_read(&mut self, field: Field<'_>, region: &Region, load: u8) {
        if let Origin::From(store) = region.origin(load) {
            let owner = field.owner(store);
            if owner != field.owner(load) || is_returned(region, owner, store, load) {
                self.edges.add(store, load);
            }
        }
    }

    /// The location that each run loads from at the name.
    pub(crate) fn load_at(&self, name: u8) -> u8 {
        let name = usize::from(name);
        if name < MOST_NAMES {
            self.load_at[name]
        } else {
            NOWHERE
        }
    }

    pub(crate) fn store_at(&self, name: u8) -> u8 {
        let name = usize::from(name);
        if name < MOST_NAMES {
            self.store_at[name]
        } else {
            NOWHERE
        }
    }

    /// What must be stored at the location.
    pub(crate) fn stored(&self, location: u8) -> u64 {
        let location = usize::from(location);
        if location < MOST_LOCATIONS {
            self.stored[location]
        } else {
            0
        }
    }

    /// Must both be stored at one location?
    pub(crate) fn do_meet(&self, store: u8, other: u8) -> bool {
        let location = self.store_at(store);
        location != NOWHERE && self.store_at(other) == location
    }

    /// What comes later in coherence order than what the load returns from.
    pub(crate) fn overwriting(&self, region: &Region, load: u8) -> u64 {
        match region.origin(load) {
            Origin::Unknown => 0,
            Origin::Initial => self.stored(self.load_at(load)),
            Origin::From(store) => region.before.row(store),
        }
    }

    /// Adds to the edges what the order of stores puts in order.
    pub(crate) fn add_ordered(&self, edges: &mut Relation, region: &Region, count: u8) {
        edges.join(&region.before);
        for load in 0..count {
            let later = self.overwriting(region, load);
            edges.add_all(load, later & !bit(load));
        }
    }
}

/// Does rule 3 order the load behind the store of this hart from which it returns?
fn is_returned(region: &Region, hart: u8, store: u8, load: u8) -> bool {
    match region.left(hart) {
        Some(left) => match left.sum.common(store) {
            Some(common) => has(common.returned, load),
            None => false,
        },
        None => false,
    }
}
