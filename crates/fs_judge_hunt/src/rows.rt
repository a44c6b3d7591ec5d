//! Rows of bits, one for each run of a hart. All rows of a hart have the same number of words.

use std::alloc::{AllocError, Global};

pub type Row = Vec<u64>;

/// How many words hold a bit for each of so many runs.
pub fn words_for(runs: usize) -> usize {
    runs / 64 + 1
}

/// No run.
pub fn no_run(alloc: Global, words: usize) -> Result<Row, AllocError> {
    vec![in alloc; 0; words]
}

/// The same runs.
pub(crate) fn copied(alloc: Global, row: &[u64]) -> Result<Row, AllocError> {
    Vec::from_slice(alloc, row)
}

/// Puts the run of this number into the row.
pub fn put(row: &mut [u64], run: usize) {
    let place = run / 64;
    if place < row.len() {
        row[place] |= 1u64.wrapping_shl((run % 64) as u32);
    }
}

/// Is the run of this number in the row?
pub(crate) fn has_run(row: &[u64], run: usize) -> bool {
    let place = run / 64;
    place < row.len() && row[place].wrapping_shr((run % 64) as u32) & 1 != 0
}

/// Has it no run?
pub fn is_empty(row: &[u64]) -> bool {
    for word in row {
        if *word != 0 {
            return false;
        }
    }
    true
}

/// Has the other row each run of this one?
pub(crate) fn is_within(row: &[u64], other: &[u64]) -> bool {
    for place in 0..row.len().min(other.len()) {
        if row[place] & !other[place] != 0 {
            return false;
        }
    }
    true
}

/// Has the row each of so many runs?
pub fn has_all(row: &[u64], runs: usize) -> bool {
    let mut count: usize = 0;
    for word in row {
        count = count.saturating_add(word.count_ones() as usize);
    }
    count == runs
}

/// Have the two a run in common?
pub fn do_meet(row: &[u64], other: &[u64]) -> bool {
    for place in 0..row.len().min(other.len()) {
        if row[place] & other[place] != 0 {
            return true;
        }
    }
    false
}

/// Have the two the same runs?
pub(crate) fn are_same(row: &[u64], other: &[u64]) -> bool {
    is_within(row, other) && is_within(other, row)
}

/// The runs of this one that are among the other's, of which these bits are flipped.
fn meeting(alloc: Global, row: &[u64], other: &[u64], flipped: u64) -> Result<Row, AllocError> {
    let mut made = copied(alloc, row)?;
    made.truncate(other.len());
    mask(&mut made, other, flipped);
    Ok(made)
}

/// The runs of both.
pub fn both(alloc: Global, row: &[u64], other: &[u64]) -> Result<Row, AllocError> {
    meeting(alloc, row, other, 0)
}

/// The runs of this one that the other one hasn't.
pub(crate) fn without(alloc: Global, row: &[u64], other: &[u64]) -> Result<Row, AllocError> {
    meeting(alloc, row, other, u64::MAX)
}

/// Puts the other's runs into the row.
pub fn join(row: &mut [u64], other: &[u64]) {
    for place in 0..row.len().min(other.len()) {
        row[place] |= other[place];
    }
}

/// Puts into the row the runs that are in both of the others.
pub(crate) fn join_both(row: &mut [u64], one: &[u64], other: &[u64]) {
    for place in 0..row.len().min(one.len()).min(other.len()) {
        row[place] |= one[place] & other[place];
    }
}

/// Leaves in the row what is among the other's runs, of which these bits are flipped.
fn mask(row: &mut [u64], other: &[u64], flipped: u64) {
    for place in 0..row.len().min(other.len()) {
        row[place] &= other[place] ^ flipped;
    }
}

/// Drops from the row the runs that the other one hasn't.
pub(crate) fn narrow(row: &mut [u64], other: &[u64]) {
    mask(row, other, 0);
}

/// Drops from the row the other's runs.
pub(crate) fn leave_out(row: &mut [u64], other: &[u64]) {
    mask(row, other, u64::MAX);
}

/// The number of its first run.
pub(crate) fn first_run(row: &[u64]) -> Option<usize> {
    for (place, word) in row.iter().enumerate() {
        if *word != 0 {
            let within = word.trailing_zeros() as usize;
            return place.checked_mul(64)?.checked_add(within);
        }
    }
    None
}

/// Has it more than one run?
pub(crate) fn has_several(row: &[u64]) -> bool {
    let mut found = false;
    for word in row {
        if *word != 0 {
            if found || *word & word.wrapping_sub(1) != 0 {
                return true;
            }
            found = true;
        }
    }
    false
}

/// A number, and the runs that it is of.
#[derive(Drop)]
pub struct Group {
    pub key: u64,
    pub row: Row,
}
