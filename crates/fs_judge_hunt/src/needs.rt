//! What inferences need of a placement of fences. Runs, sources and pairs of stores that were decided are the same with
//! any fences: only rule 4, and what follows from it, needs some.

use crate::rows::{do_meet, is_within};
use fs_kinds::Entry;
use std::alloc::{AllocError, Global};

/// As many slots as a test may have.
const MOST_SLOTS: usize = 48;

/// Pairs at slots, by their places in the placement: four bits for each. Of slots past the most nothing is kept.
#[derive(Clone, Copy)]
pub(crate) struct SlotPairs {
    words: [u64; 3],
}

impl SlotPairs {
    /// Nothing at any slot.
    pub(crate) fn new() -> SlotPairs {
        SlotPairs { words: [0; 3] }
    }

    /// Puts the pairs at the slot of this place.
    pub(crate) fn put(&mut self, place: usize, pairs: u8) {
        if place < MOST_SLOTS {
            self.words[place / 16] |= u64::from(pairs).wrapping_shl(4 * (place % 16) as u32);
        }
    }

    /// Have the two a pair at a slot in common?
    fn do_meet(&self, other: &SlotPairs) -> bool {
        do_meet(&self.words, &other.words)
    }

    /// Has the other one each pair of this one?
    fn is_within(&self, other: &SlotPairs) -> bool {
        is_within(&self.words, &other.words)
    }
}

/// Slots with the pairs that are ordered at each.
#[derive(Clone, Copy)]
pub(crate) struct Fences<'a> {
    pub(crate) entries: &'a [Entry],
    pub(crate) pairs: SlotPairs,
}

/// What must be placed: of each of these a pair at its slot.
#[derive(Drop)]
pub(crate) struct Need {
    clauses: Vec<SlotPairs>,
}

impl Need {
    /// Nothing.
    pub(crate) fn new(alloc: Global) -> Need {
        Need {
            clauses: Vec::new(alloc),
        }
    }

    pub(crate) fn is_nothing(&self) -> bool {
        self.clauses.is_empty()
    }

    /// Is it there where these pairs are placed?
    pub(crate) fn is_met(&self, placed: &SlotPairs) -> bool {
        for clause in &self.clauses {
            if !clause.do_meet(placed) {
                return false;
            }
        }
        true
    }

    /// Has it a clause that says no less than this one?
    fn says(&self, clause: &SlotPairs) -> bool {
        for known in &self.clauses {
            if known.is_within(clause) {
                return true;
            }
        }
        false
    }

    /// Adds that one of these pairs must be there.
    pub(crate) fn add(&mut self, clause: SlotPairs) -> Result<(), AllocError> {
        if self.says(&clause) {
            return Ok(());
        }
        self.clauses.retain(|known| !clause.is_within(known));
        self.clauses.push(clause)?;
        Ok(())
    }

    /// Adds what the other needs.
    pub(crate) fn join(&mut self, other: &Need) -> Result<(), AllocError> {
        for clause in &other.clauses {
            self.add(*clause)?;
        }
        Ok(())
    }
}
