//! States, and how often each was seen.

ghost use Rattle.std.specs.Prelude.{◌≡◌, map, IfOk, OnOk, is_some};
ghost use Rattle.std.specs.List.Sorted.{IsStrictlySortedBy};
ghost use Rattle.std.specs.Map.{keys_of, lookup};
ghost use Rattle.std.specs.Ordering.{nat_cmp};
ghost use Rattle.std.specs.Cmp.Lexicographic.{slice_cmp};
ghost use Rattle.fs_app_states.specs.Tallies.{counted, is_of, sum_of, with_row, entries_of, IsTally};

use fs_kinds::List;
use std::alloc::{AllocError, Global};
use std::collections::BTreeMap;

/// The words of a state, and how often it was seen, where the log says so.
#[derive(Drop)]
pub struct Row {
    pub words: List<u32>,
    pub times: Option<u64>,
}

/// How often each state was seen, by its words.
pub(crate) type Tally = BTreeMap<Vec<u32>, Option<u64>>;

/// So often, and then so often more: no more than 2^64 - 1 times.
fn sum_of(before: Option<u64>, times: Option<u64>) -> Option<u64>
    ensures { result ≡ sum_of before times }
{
    match (before, times) {
        (Some(before), Some(times)) => Some(before.saturating_add(times)),
        (None, times) => times,
        (before, None) => before,
    }
}

/// Adds that a state of these words was seen so often.
fn add(tally: &mut Tally, words: Vec<u32>, times: Option<u64>) -> Result<(), AllocError>
    ensures added { OnOk result (entries_of tally.new ≡ with_row (entries_of tally.old) (words.items, times)) }
    ensures rising { OnOk result (IsStrictlySortedBy (slice_cmp nat_cmp) (keys_of (entries_of tally.new))) }
{
    let before = tally.get(words.as_slice()).copied().unwrap_or(None);
    tally.insert(words, sum_of(before, times))?;
    Ok(())
}

/// The same of a state whose words are copied.
fn add_row(
    alloc: Global,
    tally: &mut Tally,
    words: &[u32],
    times: Option<u64>,
) -> Result<(), AllocError>
    ensures added { OnOk result (entries_of tally.new ≡ with_row (entries_of tally.old) (words.now, times)) }
    ensures rising { OnOk result (IsStrictlySortedBy (slice_cmp nat_cmp) (keys_of (entries_of tally.new))) }
{
    add(tally, Vec::from_slice(alloc, words)?, times)
}

/// How often each state was seen, of rows that may have a state more than once: no more than 2^64 - 1 times.
pub(crate) fn tally_of(alloc: Global, rows: &[Row]) -> Result<Tally, AllocError>
    ensures { IfOk result (λ tally. IsTally (map counted rows.now) (entries_of tally)) }
{
    let mut tally = Tally::new(alloc);
    for row in rows {
        add_row(alloc, &mut tally, row.words.as_slice(), row.times)?;
    }
    Ok(tally)
}

/// Is a state of these words among them?
pub(crate) fn has(tally: &Tally, words: &[u32]) -> bool
    ensures { result ≡ is_some (lookup (is_of words.now) (entries_of tally.now)) }
{
    tally.contains_key(words)
}
