//! The states that are known.

ghost use Rattle.std.specs.Prelude.{◌≡◌, ℕ, ◌⊎◌, List, All, IfOk, OnOk};
ghost use Rattle.std.specs.List.{Contains};
ghost use Rattle.std.specs.List.Sorted.{IsStrictlySortedBy};
ghost use Rattle.std.specs.Ordering.{nat_cmp};
ghost use Rattle.std.specs.Cmp.Lexicographic.{slice_cmp};
ghost use Rattle.fs_judge_outcomes.specs.States.{words_of};
ghost use Rattle.fs_judge_outcomes.specs.inner.Parts.{states_in};

use crate::state::State;
use fs_cert_evidence::Witness;
use fs_kinds::List;
use std::alloc::{AllocError, Global};
use std::collections::BTreeMap;

/// By the words of each state an execution that ends in it.
pub(crate) type Known = BTreeMap<Vec<u32>, Witness>;

/// Puts the state among these; one of its words has its execution from then on. Logarithmic in the states.
pub(crate) fn keep(alloc: Global, known: &mut Known, state: State) -> Result<(), AllocError>
    ensures rising { OnOk result (IsStrictlySortedBy (slice_cmp nat_cmp) (words_of (states_in known.new))) }
    ensures each { OnOk result (All (λ one. Contains (states_in known.old) one ⊎ (one ≡ state)) (states_in known.new)) }
    ensures old { (s : List ℕ)
        → OnOk result (Contains (words_of (states_in known.old)) s → Contains (words_of (states_in known.new)) s) }
    ensures new { OnOk result (Contains (words_of (states_in known.new)) state.words) }
{
    let State { words, witness } = state;
    let words = Vec::from_slice(alloc, words.as_slice())?;
    known.insert(words, witness)?;
    Ok(())
}

/// The states, in the order of their words.
pub(crate) fn listed(alloc: Global, known: Known) -> Result<List<State>, AllocError>
    ensures { IfOk result (λ states. states ≡ states_in known) }
{
    let mut states = Vec::new(alloc);
    for (words, witness) in known {
        let words = List::new(words);
        states.push(State { words, witness })?;
    }
    Ok(List::new(states))
}
