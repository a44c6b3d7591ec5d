//! The runs of a hart by what rules of preserved program order look at: which instructions a run executes, where it
//! accesses memory, and which of its stores succeed. Runs that are the same in these have one form.

use crate::access::location_of;
use crate::rows::Row;
use fs_model::Step;

/// What the runs of a form have in common, by positions of the code: a bit, or four of them, for each.
#[derive(Clone, Copy, PartialEq, Eq, PartialOrd, Ord)]
pub struct Outline {
    /// Which instructions are executed.
    executed: u64,
    loads: u64,
    stores: u64,
    /// The locations of accesses at positions below 16, and at others.
    low: u64,
    high: u64,
}

/// Runs of one outline.
#[derive(Drop)]
pub struct Form {
    pub outline: Outline,
    /// The number of one of them.
    pub run: usize,
    pub row: Row,
}

/// The bit of the position.
fn at_bit(at: u8) -> u64 {
    1u64.wrapping_shl(u32::from(at))
}

/// Four bits for the location, not all zero.
fn code_of(address: u32) -> u64 {
    u64::from(location_of(address).min(14)) + 1
}

impl Outline {
    fn new() -> Outline {
        Outline {
            executed: 0,
            loads: 0,
            stores: 0,
            low: 0,
            high: 0,
        }
    }

    fn add(&mut self, step: &Step) {
        let bit = at_bit(step.at);
        self.executed |= bit;
        if step.loaded.is_some() {
            self.loads |= bit;
        }
        if step.stored.is_some() {
            self.stores |= bit;
        }
        if let Some(address) = step.address {
            self.add_location(step.at, code_of(address));
        }
    }

    fn add_location(&mut self, at: u8, code: u64) {
        let shift = u32::from(at % 16) * 4;
        if at < 16 {
            self.low |= code.wrapping_shl(shift);
        } else {
            self.high |= code.wrapping_shl(shift);
        }
    }

    /// That of a run with these steps.
    pub fn of(steps: &[Step]) -> Outline {
        let mut outline = Outline::new();
        for step in steps {
            outline.add(step);
        }
        outline
    }

    /// Is the instruction there executed?
    pub(crate) fn executes(&self, at: u8) -> bool {
        self.executed & at_bit(at) != 0
    }

    /// Does the instruction there load?
    pub(crate) fn loads_at(&self, at: u8) -> bool {
        self.loads & at_bit(at) != 0
    }

    /// Does it store?
    pub(crate) fn stores_at(&self, at: u8) -> bool {
        self.stores & at_bit(at) != 0
    }

    /// How many of the stores are to the location.
    pub(crate) fn count_stores(&self, location: u8) -> usize {
        let code = u64::from(location.min(14)) + 1;
        let mut count: usize = 0;
        for at in 0..32u8 {
            let word = if at < 16 { self.low } else { self.high };
            let found = word.wrapping_shr(u32::from(at % 16) * 4) & 15;
            if self.stores_at(at) && found == code {
                count = count.saturating_add(1);
            }
        }
        count
    }
}
