//! What follows from pairs of an lr.w and an sc.w: no store of another hart is between the two.

use crate::access::NOWHERE;
use crate::clash::{Clash, Ending};
use crate::names::{Origin, Pairs, has};
use crate::region::Region;
use crate::saturate::{Looked, Round};
use crate::uses::add_overwriting;
use std::alloc::AllocError;

/// An lr.w and its sc.w.
#[derive(Clone, Copy)]
struct Pair {
    load: u8,
    store: u8,
}

impl Round<'_> {
    /// Draws what follows from pairs.
    pub(crate) fn follow_pairs(self, looked: &mut Looked) -> Result<(), AllocError> {
        for load in 0..self.field.count {
            let paired = self.view.facts.pairs.row(load);
            if paired == 0 {
                continue;
            }
            for store in 0..self.field.count {
                if has(paired, store) && looked.ending.is_none() {
                    self.follow_pair(looked, Pair { load, store })?;
                }
            }
        }
        Ok(())
    }

    fn follow_pair(self, looked: &mut Looked, pair: Pair) -> Result<(), AllocError> {
        let location = self.view.facts.store_at(pair.store);
        let origin = looked.region.origin(pair.load);
        if location == NOWHERE || origin == Origin::Unknown {
            return Ok(());
        }
        if let Origin::From(source) = origin {
            self.follow_source(looked, pair, source)?;
        }
        let others = self.view.facts.stored(location);
        for other in 0..self.field.count {
            let is_other = self.field.owner(other) != self.field.owner(pair.load);
            if has(others, other)
                && is_other
                && origin != Origin::From(other)
                && looked.ending.is_none()
            {
                self.follow_between(looked, pair, other)?;
            }
        }
        Ok(())
    }

    /// What the lr.w returns from comes before the sc.w.
    fn follow_source(self, looked: &mut Looked, pair: Pair, source: u8) -> Result<(), AllocError> {
        let Pair { load, store } = pair;
        if source == store
            || looked.is_before(source, store)
            || !self.view.facts.do_meet(source, store)
        {
            return Ok(());
        }
        let mut used = Pairs::new(self.alloc);
        used.add(store, source)?;
        let ending = Ending {
            clash: Clash::Reversed { load, store },
            used,
        };
        if looked.is_before(store, source) {
            looked.end(ending);
        } else {
            looked.order(source, store, ending)?;
        }
        Ok(())
    }

    /// The other store would be between the two.
    fn parted(self, region: &Region, pair: Pair, other: u8) -> Result<Ending, AllocError> {
        let Pair { load, store } = pair;
        let mut used = Pairs::new(self.alloc);
        used.add(other, store)?;
        add_overwriting(&mut used, region, load, other)?;
        Ok(Ending {
            clash: Clash::Parted { load, store, other },
            used,
        })
    }

    /// The first store comes before the second, since the other one would be between the two.
    fn order_parted(
        self,
        looked: &mut Looked,
        pair: Pair,
        other: u8,
        first: u8,
        second: u8,
    ) -> Result<(), AllocError> {
        let ending = self.parted(&looked.region, pair, other)?;
        looked.order(first, second, ending)
    }

    /// No store of another hart is between the two.
    fn follow_between(self, looked: &mut Looked, pair: Pair, other: u8) -> Result<(), AllocError> {
        let Pair { load, store } = pair;
        let is_after = has(self.view.facts.overwriting(&looked.region, load), other);
        let is_ahead = looked.is_before(other, store);
        if is_after && is_ahead {
            let ending = self.parted(&looked.region, pair, other)?;
            looked.end(ending);
            return Ok(());
        }
        if is_after && !looked.is_before(store, other) {
            self.order_parted(looked, pair, other, store, other)?;
        }
        if let Origin::From(source) = looked.region.origin(load) {
            let is_open = !looked.is_before(other, source)
                && self.view.facts.do_meet(other, source);
            if is_ahead && is_open {
                self.order_parted(looked, pair, other, other, source)?;
            }
        }
        Ok(())
    }
}
