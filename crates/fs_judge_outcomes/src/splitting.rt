//! Splitting a part of the states by a state in it.

ghost use Rattle.std.specs.Prelude.{◌≡◌, true, length, OnOk};
ghost use Rattle.fs_judge_outcomes.specs.inner.Parts.{is_in, IsPartOf, SplitsBy};

use crate::part::{Part, is_open_at, with_word, without_word};
use std::alloc::{AllocError, Global};

/// Adds all that is left of the part beside this state: for each place whose word the part doesn't say the states that
/// have another word there, and at the places before it the words of this state. No two of these have a state in
/// common.
pub(crate) fn split(
    alloc: Global,
    parts: &mut Vec<Part>,
    part: Part,
    state: &[u32],
) -> Result<(), AllocError>
    requires part { IsPartOf (length state.now) part }
    requires inside { is_in part state.now ≡ true }
    ensures { OnOk result (SplitsBy part state.now parts.old.items parts.new.items) }
{
    let mut part = part;
    for index in 0..state.len() {
        if is_open_at(part.as_slice(), index) {
            let word = state[index];
            parts.push(without_word(alloc, part.as_slice(), index, word)?)?;
            part = with_word(alloc, part.as_slice(), index, word)?;
        }
    }
    Ok(())
}
