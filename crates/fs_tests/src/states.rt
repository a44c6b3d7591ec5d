//! Final states of tests whose executions are known by reasoning, at the places that their conditions name.

ghost use Rattle.std.specs.Prelude.{◌≡◌};
ghost use Rattle.std.specs.Arc.{arc_value};
ghost use Rattle.fs_kinds.specs.Placement.{slots_of};
ghost use Rattle.fs_model.specs.Slots.{slots};
ghost use Rattle.fs_model.specs.Test.{IsTest};

use crate::places::places_of;
use crate::states_texts::{ADDED, ASTRAY, BRANCH, LAST, TRUE, TWICE};
use crate::wrong::add_wrong;
use fs_judge::USUAL_INFERENCES;
use fs_judge_outcomes::{State, states};
use fs_kinds::{Fault, Placement};
use fs_litmus::{Test, read_test};
use fs_tests_shared::{CO_RR, LB, LRSC, MP, SB, TWO_WRITES, placement_of, told};
use std::alloc::{AllocError, Global};
use std::sync::Arc;

/// A line for each state: its words.
fn lines_of(alloc: Global, states: &[State]) -> Result<String, AllocError> {
    let mut text = String::new(alloc);
    for state in states {
        for word in state.words.as_slice() {
            write!(text, " {word}")?;
        }
        text.push_str(".")?;
    }
    Ok(text)
}

/// The states of the test with the placement's fences.
fn states_text(alloc: Global, test: &Arc<Test>, placement: &Placement) -> Result<String, Fault>
    requires test { IsTest (arc_value test.now) }
    requires placement { slots_of placement.now ≡ slots (arc_value test.now) }
{
    let places = places_of(alloc, test)?;
    let found = states(alloc, test, placement, &places, USUAL_INFERENCES)?;
    Ok(lines_of(alloc, found.as_slice())?)
}

/// The same of the test of this text with the fences that the words name.
fn listed(alloc: Global, text: &str, fences: &str) -> Result<String, Fault> {
    let test = Arc::new(alloc, read_test(alloc, text.as_bytes())?)?;
    let placement = placement_of(alloc, &test, fences)?;
    states_text(alloc, &test, &placement)
}

/// Tests, fences, and the words of each state with a point behind it.
pub(crate) const STATES: &[(&str, &str, &str)] = &[
    // Each load may come before the other hart's store, unless a fence keeps it behind the own one: then one of them
    // comes last.
    (SB, "", " 0 0. 0 1. 1 0. 1 1."),
    (SB, "P0:2=w,r P1:2=w,r", " 0 1. 1 0. 1 1."),
    (SB, "P0:2=w,r", " 0 0. 0 1. 1 0. 1 1."),
    (SB, "P0:2=r,r P1:2=w,w", " 0 0. 0 1. 1 0. 1 1."),
    // The second word is seen and the first isn't, unless both harts are fenced.
    (MP, "", " 0 0. 0 1. 1 0. 1 1."),
    (MP, "P0:3=w,w P1:1=r,r", " 0 0. 0 1. 1 1."),
    (LB, "", " 0 0. 0 1. 1 0. 1 1."),
    (LB, "P0:2=r,w P1:2=r,w", " 0 0. 0 1. 1 0."),
    // Each hart's first word stays only where its stores are late or those of the other hart are.
    (TWO_WRITES, "", " 1 1. 1 2. 2 1. 2 2."),
    (TWO_WRITES, "P0:3=w,w P1:3=w,w", " 1 1. 1 2. 2 1."),
    // Loads of one word never go back.
    (CO_RR, "", " 0 0. 0 1. 1 1."),
    // The sc.w may always fail. Where it doesn't, no store comes between the loaded one and its own.
    (LRSC, "", " 0 0 2. 0 1 2. 2 0 1. 2 1 2."),
    (ADDED, "", " 0 1 3. 2 0 3."),
    // Where 0 is loaded both stores are made, in either order.
    (BRANCH, "", " 0 1. 0 2. 1 1."),
    // The own 3 is loaded, or a store that comes between. The store of 1 is never the last one.
    (LAST, "", " 1 2. 2 2. 3 2. 3 3."),
    (TRUE, "", "."),
    (TWICE, "", " 0 0. 1 1."),
    (ASTRAY, "", "fault F14 Astray P0:0"),
];

/// Adds the tests that have other states than the table says.
pub(crate) fn add_wrong_states(
    alloc: Global,
    rows: &[(&str, &str, &str)],
    wrong: &mut String,
) -> Result<(), AllocError> {
    for (text, fences, wanted) in rows {
        let found = told(alloc, listed(alloc, text, fences))?;
        add_wrong(text, &found, wanted, wrong)?;
    }
    Ok(())
}
