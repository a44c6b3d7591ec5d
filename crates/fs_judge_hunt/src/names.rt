//! Names of memory instructions as numbers, hart by hart in the order of the code; sets of them as bits, and relations.

use crate::rows::{is_empty, join, leave_out};
use std::alloc::{AllocError, Global};

/// As many names as a test may have.
pub(crate) const MOST_NAMES: usize = 48;

/// The set of one name.
pub(crate) fn bit(name: u8) -> u64 {
    1u64.wrapping_shl(u32::from(name))
}

/// The least name of the set, if it has one.
pub(crate) fn least(names: u64) -> u8 {
    (names.trailing_zeros() & 63) as u8
}

/// The set without its least name.
pub(crate) fn without_least(names: u64) -> u64 {
    names & names.wrapping_sub(1)
}

/// Is the name in the set?
pub(crate) fn has(names: u64, name: u8) -> bool {
    names & bit(name) != 0
}

/// A relation of names.
#[derive(Clone, Copy)]
pub(crate) struct Relation {
    rows: [u64; MOST_NAMES],
}

impl Relation {
    /// That of no two names.
    pub(crate) fn new() -> Relation {
        Relation {
            rows: [0; MOST_NAMES],
        }
    }

    /// What the name comes before.
    pub(crate) fn row(&self, first: u8) -> u64 {
        let first = usize::from(first);
        if first < MOST_NAMES {
            self.rows[first]
        } else {
            0
        }
    }

    /// Does the first name come before the second?
    pub(crate) fn has(&self, first: u8, second: u8) -> bool {
        has(self.row(first), second)
    }

    /// Has it no pair?
    pub(crate) fn is_empty(&self) -> bool {
        is_empty(&self.rows)
    }

    /// Puts the name before each of these.
    pub(crate) fn add_all(&mut self, first: u8, names: u64) {
        let first = usize::from(first);
        if first < MOST_NAMES {
            self.rows[first] |= names;
        }
    }

    /// Puts the first name before the second.
    pub(crate) fn add(&mut self, first: u8, second: u8) {
        self.add_all(first, bit(second));
    }

    /// Takes the pair out.
    pub(crate) fn remove(&mut self, first: u8, second: u8) {
        let first = usize::from(first);
        if first < MOST_NAMES {
            self.rows[first] &= !bit(second);
        }
    }

    /// Puts the other's pairs into it.
    pub(crate) fn join(&mut self, other: &Relation) {
        join(&mut self.rows, &other.rows);
    }

    /// Takes the other's pairs out.
    pub(crate) fn leave_out(&mut self, other: &Relation) {
        leave_out(&mut self.rows, &other.rows);
    }

    /// Makes it transitive, where it is of so many names.
    pub(crate) fn close(&mut self, count: u8) {
        for middle in 0..count {
            self.close_through(middle, usize::from(count));
        }
    }

    /// Puts what comes before this name before all that comes after it, among the first so many names.
    fn close_through(&mut self, middle: u8, count: usize) {
        let beyond = self.row(middle);
        if beyond == 0 {
            return;
        }
        for first in 0..count.min(MOST_NAMES) {
            let has_middle = self.rows[first].wrapping_shr(u32::from(middle)) & 1;
            self.rows[first] |= beyond & has_middle.wrapping_neg();
        }
    }
}

/// Pairs of names in a list, since mostly there are few.
#[derive(Drop)]
pub(crate) struct Pairs {
    items: Vec<(u8, u8)>,
}

impl Pairs {
    /// None.
    pub(crate) fn new(alloc: Global) -> Pairs {
        Pairs {
            items: Vec::new(alloc),
        }
    }

    /// Adds a pair.
    pub(crate) fn add(&mut self, first: u8, second: u8) -> Result<(), AllocError> {
        self.items.push((first, second))?;
        Ok(())
    }

    /// Adds the relation's pairs.
    pub(crate) fn add_all(&mut self, relation: &Relation) -> Result<(), AllocError> {
        for first in 0..MOST_NAMES as u8 {
            let row = relation.row(first);
            if row == 0 {
                continue;
            }
            for second in 0..MOST_NAMES as u8 {
                if has(row, second) {
                    self.add(first, second)?;
                }
            }
        }
        Ok(())
    }

    /// The relation that has these.
    pub(crate) fn relation(&self) -> Relation {
        let mut relation = Relation::new();
        for (first, second) in &self.items {
            relation.add(*first, *second);
        }
        relation
    }
}

/// What a load returns from, as far as it is known.
#[derive(Clone, Copy, PartialEq, Eq)]
pub(crate) enum Origin {
    Unknown,
    Initial,
    From(u8),
}
