//! Of the states of a test those that count.

ghost use Rattle.std.specs.Prelude.{◌≡◌, filter, IfOk};
ghost use Rattle.fs_model.specs.Condition.{condition_of};
ghost use Rattle.fs_app_states.specs.Report.{counts, counted};

use crate::columns::Column;
use crate::report::is_true;
use fs_cert_evidence::{ChoiceLists, Choices, Witness};
use fs_judge_outcomes::State;
use fs_kinds::List;
use fs_model::{Outcome, Test};
use std::alloc::{AllocError, Global};

/// Does the state count, where the condition says so?
fn counts(columns: &[Column], condition: &Outcome, words: &[u32]) -> bool
    ensures { result ≡ counts columns.now (condition_of condition.now) words.now }
{
    match condition {
        Outcome::Both(guard, _) => is_true(columns, guard, words),
        Outcome::Either(denied, _) => match &**denied {
            Outcome::Deny(guard) => is_true(columns, guard, words),
            _ => true,
        },
        _ => true,
    }
}

fn copied_choices(alloc: Global, lists: &[Choices]) -> Result<ChoiceLists, AllocError>
    ensures { IfOk result (λ made. made ≡ lists.now) }
{
    let mut made = Vec::new(alloc);
    for choices in lists {
        made.push(Choices::new(Vec::from_slice(alloc, choices.as_slice())?))?;
    }
    Ok(ChoiceLists::new(made))
}

fn copied_witness(alloc: Global, witness: &Witness) -> Result<Witness, AllocError>
    ensures { IfOk result (λ made. made ≡ witness.now) }
{
    Ok(Witness {
        choices: copied_choices(alloc, witness.choices.as_slice())?,
        order: List::new(Vec::from_slice(alloc, witness.order.as_slice())?),
        widths: List::new(Vec::from_slice(alloc, witness.widths.as_slice())?),
    })
}

fn copied(alloc: Global, state: &State) -> Result<State, AllocError>
    ensures { IfOk result (λ made. made ≡ state.now) }
{
    Ok(State {
        words: List::new(Vec::from_slice(alloc, state.words.as_slice())?),
        witness: copied_witness(alloc, &state.witness)?,
    })
}

/// The states that count by the condition.
fn guarded(
    alloc: Global,
    columns: &[Column],
    condition: &Outcome,
    states: &[State],
) -> Result<List<State>, AllocError>
    ensures { IfOk result (λ made. made
        ≡ filter (λ state. counts columns.now (condition_of condition.now) state.words) states.now) }
{
    let mut made = Vec::new(alloc);
    for state in states {
        if counts(columns, condition, state.words.as_slice()) {
            made.push(copied(alloc, state)?)?;
        }
    }
    Ok(List::new(made))
}

/// The states that count: all, or where the condition is guarded those that its left side is true of. Linear in them.
pub(crate) fn counted(
    alloc: Global,
    test: &Test,
    columns: &[Column],
    is_guarded: bool,
    states: List<State>,
) -> Result<List<State>, AllocError>
    ensures { IfOk result (λ made. made
        ≡ counted columns.now (condition_of test.now.condition) is_guarded states) }
{
    if is_guarded {
        guarded(alloc, columns, &test.condition, states.as_slice())
    } else {
        Ok(states)
    }
}
