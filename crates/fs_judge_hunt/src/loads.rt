//! What follows from what loads return from: an earlier store isn't later in coherence order.

use crate::clash::{Clash, Ending};
use crate::names::{Origin, Pairs, bit, least, without_least};
use crate::region::Region;
use crate::saturate::{Looked, Round};
use crate::uses::add_overwriting;
use fs_cert_evidence::Cause;
use std::alloc::AllocError;

/// A load, and a store at its location.
#[derive(Clone, Copy)]
struct Meeting {
    load: u8,
    store: u8,
}

impl Round<'_> {
    /// Draws what follows from loads.
    pub(crate) fn follow_loads(self, looked: &mut Looked) -> Result<(), AllocError> {
        for load in 0..self.field.count {
            let stores = self.view.facts.stored(self.view.facts.load_at(load));
            if looked.region.origin(load) == Origin::Unknown {
                continue;
            }
            let mut left = stores & !bit(load);
            for _ in 0..left.count_ones() {
                let store = least(left);
                left = without_least(left);
                if looked.ending.is_none() {
                    self.follow_load(looked, Meeting { load, store })?;
                }
            }
        }
        Ok(())
    }

    fn follow_load(self, looked: &mut Looked, meeting: Meeting) -> Result<(), AllocError> {
        let Meeting { load, store } = meeting;
        let is_own = self.field.owner(load) == self.field.owner(store) && store < load;
        match looked.region.origin(load) {
            Origin::Unknown => {}
            Origin::Initial => {
                if is_own {
                    let ending = self.stale(&looked.region, meeting)?;
                    looked.end(ending);
                }
            }
            Origin::From(source) => {
                if source == store
                    || looked.is_before(store, source)
                    || !self.view.facts.do_meet(store, source)
                {
                    return Ok(());
                }
                if is_own {
                    self.follow_own(looked, meeting, source)?;
                } else {
                    self.follow_other(looked, meeting, source)?;
                }
            }
        }
        Ok(())
    }

    /// The load would return from a store that the own one overwrites.
    fn stale(self, region: &Region, meeting: Meeting) -> Result<Ending, AllocError> {
        let Meeting { load, store } = meeting;
        let mut used = Pairs::new(self.alloc);
        add_overwriting(&mut used, region, load, store)?;
        Ok(Ending {
            clash: Clash::Stale { load, store },
            used,
        })
    }

    /// An own store comes before what the load returns from.
    fn follow_own(
        self,
        looked: &mut Looked,
        meeting: Meeting,
        source: u8,
    ) -> Result<(), AllocError> {
        let ending = self.stale(&looked.region, meeting)?;
        if looked.is_before(source, meeting.store) {
            looked.end(ending);
        } else {
            looked.order(meeting.store, source, ending)?;
        }
        Ok(())
    }

    /// And another one, where it must come before the load.
    fn follow_other(
        self,
        looked: &mut Looked,
        meeting: Meeting,
        source: u8,
    ) -> Result<(), AllocError> {
        let Meeting { load, store } = meeting;
        if self.view.closure.has(store, load) && !looked.is_before(source, store) {
            let ending = self.cycle_by(&looked.region, store, load, Cause::FromReads)?;
            looked.order(store, source, ending)?;
        }
        Ok(())
    }
}
