//! What `states` answers.

ghost use Rattle.std.specs.Prelude.{◌≡◌, ◌≢◌, All, map, IfOk, IfErr, IsOkUnless, string_bytes};
ghost use Rattle.std.specs.Arc.{arc_value};
ghost use Rattle.fs_kinds.specs.declared.fault.Fault.TheVariants.{Memory};
ghost use Rattle.fs_kinds.specs.Placement.{slots_of};
ghost use Rattle.fs_litmus.specs.Reads.{Reads};
ghost use Rattle.fs_model.specs.Slots.{slots};
ghost use Rattle.fs_model.specs.Test.{IsBounded, IsStart, IsTest};
ghost use Rattle.fs_judge_outcomes.specs.States.{AreStates, ArePlacesOf, IsShownState, IsStatesFault, words_of};
ghost use Rattle.fs_model.specs.Condition.{condition_of};
ghost use Rattle.fs_app_states.specs.Objects.{shown_text};
ghost use Rattle.fs_app_states.specs.Report.{counted};
ghost use Rattle.fs_app_states.specs.Shown.{places_of, IsStatesText, IsFirstStatesFault};
ghost use Rattle.fs_app_states.specs.inner.Parts.{IsOfStates};

use crate::asked::Shown;
use crate::columns::Column;
use crate::counted::counted;
use crate::objects::shown_text;
use crate::places::columns;
use fs_judge_outcomes::{Place, State, states};
use fs_kinds::{Fault, List, Placement};
use fs_litmus::{Test, read_fences, read_test};
use std::alloc::{AllocError, Global};
use std::sync::Arc;

/// What `states` prints of a test file with the fences that the words name: which final states RVWMO allows, in
/// herd7's form, or as a JSON object in a line where that is asked for. The file is its bytes as they were read.
///
/// Shown are the registers and locations of which the condition speaks and those that `locations` lists, each once:
/// registers by hart and number, and then locations in the order in which they are declared; where `all` is asked for
/// also each register that an instruction of its hart writes, and all locations. The states rise by their words,
/// those at the first place before the others. `Positive` and `Negative` count the states that make the condition,
/// without its quantifier, true and false. Where the condition is guarded only states count that its left side is true
/// of, `G` of `(G) /\ (C)`, or behind `forall` of `(G) => (C)`.
///
/// The first fault in this order: those of a test file by number and then line; `Syntax` of an item of `locations`;
/// `BadFence`; `TooManyTraces` and `Astray`; `TooManyCandidates`. `Memory` may come in place of any answer. The cost
/// is that of `read_test` and of `states` of fs_judge_outcomes, and what is linear in the states.
pub fn run_states(
    alloc: Global,
    test: &[u8],
    fences: &[String],
    asked: Shown,
    inferences: usize,
) -> Result<String, Fault>
    ensures text { IfOk result (λ text. IsStatesText test.now (map string_bytes fences.now) asked (string_bytes text)) }
    ensures fault { IfErr result (IsFirstStatesFault test.now (map string_bytes fences.now) asked) }
{
    let read = read_test(alloc, test)?;
    test_states(alloc, test, read, fences, asked, inferences)
}

/// The same of a file that reads as this test.
fn test_states(
    alloc: Global,
    bytes: &[u8],
    test: Test,
    fences: &[String],
    asked: Shown,
    inferences: usize,
) -> Result<String, Fault>
    requires test { IsTest test }
    requires reads { Reads bytes.now test }
    ensures text { IfOk result
        (λ text. IsStatesText bytes.now (map string_bytes fences.now) asked (string_bytes text)) }
    ensures fault { IfErr result (IsFirstStatesFault bytes.now (map string_bytes fences.now) asked) }
{
    let columns = columns(alloc, bytes, &test, asked.all)?;
    let placement = read_fences(alloc, &test, None, fences)?;
    owned_states(alloc, test, &placement, &columns, asked, inferences)
}

/// What is printed of the test with the placement's fences.
fn owned_states(
    alloc: Global,
    test: Test,
    placement: &Placement,
    columns: &[Column],
    asked: Shown,
    inferences: usize,
) -> Result<String, Fault>
    requires test { IsTest test }
    requires placement { slots_of placement.now ≡ slots test }
    requires places { ArePlacesOf test (places_of columns.now) }
    ensures ok { IfOk result (λ text. IsOfStates test placement.now columns.now asked (string_bytes text)) }
    ensures err { IfErr result (λ f. f ≢ Memory → IsStatesFault test placement.now (places_of columns.now) f) }
{
    let test = shared(alloc, test)?;
    placed_states(alloc, &test, placement, columns, asked, inferences)
}

/// The test, to be shared.
fn shared(alloc: Global, test: Test) -> Result<Arc<Test>, AllocError>
    ensures { IfOk result (λ shared. arc_value shared ≡ test) }
{
    Ok(Arc::new(alloc, test)?)
}

/// The places of the columns.
fn places_of(alloc: Global, columns: &[Column]) -> Result<Vec<Place>, AllocError>
    ensures { IfOk result (λ places. places.items ≡ places_of columns.now) }
{
    columns.iter().map(|column| column.place).collect(alloc)
}

/// All states of the test with the placement's fences, at the places of the columns.
fn states_at(
    alloc: Global,
    test: &Arc<Test>,
    placement: &Placement,
    columns: &[Column],
    inferences: usize,
) -> Result<List<State>, Fault>
    requires bounded { IsBounded (arc_value test.now) }
    requires starts { All IsStart (arc_value test.now).starts }
    requires placement { slots_of placement.now ≡ slots (arc_value test.now) }
    requires places { ArePlacesOf (arc_value test.now) (places_of columns.now) }
    ensures ok { IfOk result (λ found.
        AreStates (arc_value test.now) placement.now (places_of columns.now) (words_of found)) }
    ensures shown { IfOk result (All (IsShownState (arc_value test.now) placement.now (places_of columns.now))) }
    ensures err { IfErr result (λ f. f ≢ Memory
        → IsStatesFault (arc_value test.now) placement.now (places_of columns.now) f) }
{
    let places = places_of(alloc, columns)?;
    states(alloc, test, placement, &places, inferences)
}

/// What is printed of these states, of which those are shown that count.
fn counted_text(
    alloc: Global,
    test: &Test,
    placement: &Placement,
    columns: &[Column],
    asked: Shown,
    states: List<State>,
) -> Result<String, Fault>
    requires bounded { IsBounded test.now }
    requires placement { slots_of placement.now ≡ slots test.now }
    ensures ok { IfOk result (λ text. string_bytes text ≡ shown_text test.now placement.now columns.now asked
        (counted columns.now (condition_of test.now.condition) asked.guarded states)) }
    ensures err { IsOkUnless result Memory }
{
    let states = counted(alloc, test, columns, asked.guarded, states)?;
    shown_text(alloc, test, placement, columns, asked, states.as_slice())
}

/// The same in print.
fn placed_states(
    alloc: Global,
    test: &Arc<Test>,
    placement: &Placement,
    columns: &[Column],
    asked: Shown,
    inferences: usize,
) -> Result<String, Fault>
    requires bounded { IsBounded (arc_value test.now) }
    requires starts { All IsStart (arc_value test.now).starts }
    requires placement { slots_of placement.now ≡ slots (arc_value test.now) }
    requires places { ArePlacesOf (arc_value test.now) (places_of columns.now) }
    ensures ok { IfOk result (λ text.
        IsOfStates (arc_value test.now) placement.now columns.now asked (string_bytes text)) }
    ensures err { IfErr result (λ f. f ≢ Memory
        → IsStatesFault (arc_value test.now) placement.now (places_of columns.now) f) }
{
    let states = states_at(alloc, test, placement, columns, inferences)?;
    counted_text(alloc, test, placement, columns, asked, states)
}
