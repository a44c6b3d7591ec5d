//! Runs by numbers.

use fs_judge_hunt::{Group, no_run, put};
use std::alloc::{AllocError, Global};
use std::collections::BTreeMap;

/// Runs by numbers.
#[derive(Drop)]
pub(crate) struct Grouping {
    words: usize,
    groups: Vec<Group>,
    // By its number the place of each group.
    places: BTreeMap<u64, usize>,
    // The place of the group that got the last run: neighbours mostly do the same.
    last: usize,
}

impl Grouping {
    /// No run; rows have so many words.
    pub(crate) fn new(alloc: Global, words: usize) -> Grouping {
        Grouping {
            words,
            groups: Vec::new(alloc),
            places: BTreeMap::new(alloc),
            last: 0,
        }
    }

    /// The place of the group of this number, which is made where there is none.
    fn place(&mut self, alloc: Global, key: u64) -> Result<usize, AllocError> {
        if self
            .groups
            .get(self.last)
            .is_some_and(|group| group.key == key)
        {
            return Ok(self.last);
        }
        if let Some(place) = self.places.get(&key) {
            return Ok(*place);
        }
        let place = self.groups.len();
        let row = no_run(alloc, self.words)?;
        self.groups.push(Group { key, row })?;
        self.places.insert(key, place)?;
        Ok(place)
    }

    /// Puts the run into the row of the number.
    pub(crate) fn put(&mut self, alloc: Global, key: u64, run: usize) -> Result<(), AllocError> {
        self.last = self.place(alloc, key)?;
        if let Some(group) = self.groups.get_mut(self.last) {
            put(&mut group.row, run);
        }
        Ok(())
    }

    /// The groups, by rising numbers.
    pub(crate) fn groups(self) -> Vec<Group> {
        let Grouping { mut groups, .. } = self;
        groups.sort_unstable_by_key(|group| group.key);
        groups
    }
}
