//! The states that were seen and are forbidden, and those that are allowed and weren't seen.

ghost use Rattle.std.specs.Prelude.{◌≡◌, None, map, IfOk};
ghost use Rattle.std.specs.List.{filter};
ghost use Rattle.fs_judge_outcomes.specs.States.{words_of};
ghost use Rattle.fs_app_states.specs.Compared.{is_lacking};
ghost use Rattle.fs_app_states.specs.Tallies.{counted, entries_of};

use crate::tally::{Row, Tally, has};
use fs_judge_outcomes::State;
use fs_kinds::List;
use std::alloc::{AllocError, Global};

/// A row of the words, which are copied.
fn row(alloc: Global, words: &[u32], times: Option<u64>) -> Result<Row, AllocError>
    ensures { IfOk result (λ row. counted row ≡ (words.now, times)) }
{
    Ok(Row {
        words: List::new(Vec::from_slice(alloc, words)?),
        times,
    })
}

/// The states, without how often they were seen.
pub(crate) fn allowed_rows(alloc: Global, states: &[State]) -> Result<Vec<Row>, AllocError>
    ensures { IfOk result (λ rows. map counted rows.items ≡ map (λ state. (state.words, None)) states.now) }
{
    let mut rows = Vec::new(alloc);
    for state in states {
        rows.push(row(alloc, state.words.as_slice(), None)?)?;
    }
    Ok(rows)
}

/// The states of a tally that aren't of the other one, in their order. For each a look-up.
pub(crate) fn forbidden(
    alloc: Global,
    seen: &Tally,
    allowed: &Tally,
) -> Result<Vec<Row>, AllocError>
    ensures { IfOk result (λ rows. map counted rows.items
        ≡ filter (λ row. is_lacking (entries_of allowed.now) row.0) (entries_of seen.now)) }
{
    let mut rows = Vec::new(alloc);
    for (words, times) in seen {
        if !has(allowed, words.as_slice()) {
            rows.push(row(alloc, words.as_slice(), *times)?)?;
        }
    }
    Ok(rows)
}

/// The words of the states that aren't of the tally, in their order. For each a look-up.
pub(crate) fn not_seen(
    alloc: Global,
    states: &[State],
    seen: &Tally,
) -> Result<Vec<List<u32>>, AllocError>
    ensures { IfOk result (λ words. words.items ≡ filter (is_lacking (entries_of seen.now)) (words_of states.now)) }
{
    let mut lacking = Vec::new(alloc);
    for state in states {
        if !has(seen, state.words.as_slice()) {
            lacking.push(List::new(Vec::from_slice(alloc, state.words.as_slice())?))?;
        }
    }
    Ok(lacking)
}
