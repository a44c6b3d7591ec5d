//! States as JSON.

ghost use Rattle.std.specs.Prelude.{◌≡◌, ◌≤◌, false, length, map, IfOk, IsOkUnless, string_bytes};
ghost use Rattle.serde_json.specs.View.{view};
ghost use Rattle.fs_cert_evidence.specs.Texts.{array_of};
ghost use Rattle.fs_kinds.specs.Limits.{most_locations};
ghost use Rattle.fs_kinds.specs.Placement.{slots_of};
ghost use Rattle.fs_kinds.specs.declared.fault.Fault.TheVariants.{Memory};
ghost use Rattle.fs_model.specs.Slots.{slots};
ghost use Rattle.fs_model.specs.Test.{IsBounded};
ghost use Rattle.fs_report.specs.Objects.{json_line};
ghost use Rattle.fs_app_states.specs.Objects.{execution_value, place_value, shown_text, state_value, states_value};
ghost use Rattle.fs_app_states.specs.Objects.{word_value};
ghost use Rattle.fs_app_states.specs.inner.Objects.{witnessed_object, plain_object};

use crate::asked::Shown;
use crate::columns::{Column, push_value};
use crate::report::{
    condition_line, is_met, negative, observation_word, positive, quantifier_word, states_text,
};
use fs_judge_outcomes::State;
use fs_kinds::{Fault, Placement};
use fs_model::{Location, Test};
use fs_report::{json_line, witness_value};
use serde_json::{Value, json};
use std::alloc::{AllocError, Global};

fn word_value(alloc: Global, locations: &[Location], word: u32) -> Result<Value, AllocError>
    requires { length locations.now ≤ most_locations }
    ensures { IfOk result (λ value. view value ≡ word_value locations.now word) }
{
    let mut text = String::new(alloc);
    push_value(&mut text, locations, word)?;
    Ok(Value::from(text))
}

/// The array of the words of a state.
fn state_value(alloc: Global, locations: &[Location], state: &State) -> Result<Value, AllocError>
    requires { length locations.now ≤ most_locations }
    ensures { IfOk result (λ value. view value ≡ state_value locations.now state.now) }
{
    words_value(alloc, locations, state.words.as_slice())
}

fn words_value(alloc: Global, locations: &[Location], words: &[u32]) -> Result<Value, AllocError>
    requires { length locations.now ≤ most_locations }
    ensures { IfOk result (λ value. view value ≡ array_of (map (word_value locations.now) words.now)) }
{
    let mut values = Vec::new(alloc);
    for word in words {
        values.push(word_value(alloc, locations, *word)?)?;
    }
    Ok(Value::from(values))
}

/// The array of the states.
fn all_states(alloc: Global, locations: &[Location], states: &[State]) -> Result<Value, AllocError>
    requires { length locations.now ≤ most_locations }
    ensures { IfOk result (λ value. view value ≡ array_of (map (state_value locations.now) states.now)) }
{
    let mut values = Vec::new(alloc);
    for state in states {
        values.push(state_value(alloc, locations, state)?)?;
    }
    Ok(Value::from(values))
}

fn place_value(alloc: Global, column: &Column) -> Result<Value, AllocError>
    ensures { IfOk result (λ value. view value ≡ place_value column.now) }
{
    json!(in alloc; column.name.as_str())
}

/// The array of the names of the places.
fn all_places(alloc: Global, columns: &[Column]) -> Result<Value, AllocError>
    ensures { IfOk result (λ value. view value ≡ array_of (map place_value columns.now)) }
{
    let mut values = Vec::new(alloc);
    for column in columns {
        values.push(place_value(alloc, column)?)?;
    }
    Ok(Value::from(values))
}

fn execution_value(alloc: Global, state: &State) -> Result<Value, AllocError>
    ensures { IfOk result (λ value. view value ≡ execution_value state.now) }
{
    witness_value(alloc, &state.witness.choices, &state.witness.order)
}

/// The array of the executions.
fn all_executions(alloc: Global, states: &[State]) -> Result<Value, AllocError>
    ensures { IfOk result (λ value. view value ≡ array_of (map execution_value states.now)) }
{
    let mut values = Vec::new(alloc);
    for state in states {
        values.push(execution_value(alloc, state)?)?;
    }
    Ok(Value::from(values))
}

/// How many states make the condition true, and how many false.
#[derive(Clone, Copy)]
struct Counts {
    positive: usize,
    negative: usize,
}

/// The arrays of an object.
#[derive(Drop)]
struct Lists {
    places: Value,
    states: Value,
}

fn lists_of(
    alloc: Global,
    test: &Test,
    columns: &[Column],
    states: &[State],
) -> Result<Lists, AllocError>
    requires { length test.now.locations ≤ most_locations }
    ensures places { IfOk result (λ lists. view lists.places ≡ array_of (map place_value columns.now)) }
    ensures states { IfOk result (λ lists.
        view lists.states ≡ array_of (map (state_value test.now.locations) states.now)) }
{
    let places = all_places(alloc, columns)?;
    let states = all_states(alloc, test.locations.as_slice(), states)?;
    Ok(Lists { places, states })
}

/// The object without executions.
fn plain_object(
    alloc: Global,
    test: &Test,
    condition: &str,
    counts: Counts,
    lists: Lists,
) -> Result<Value, AllocError>
    ensures { IfOk result (λ value. view value ≡ plain_object test.now condition.now counts.positive counts.negative
        (view lists.places) (view lists.states)) }
{
    let Counts { positive, negative } = counts;
    let ok = is_met(test.quantifier, positive, negative);
    let Lists { places, states } = lists;
    json!(in alloc; {
        "condition": condition,
        "kind": quantifier_word(test.quantifier),
        "negative": Value::from(negative),
        "observation": observation_word(positive, negative),
        "ok": Value::Bool(ok),
        "places": places,
        "positive": Value::from(positive),
        "states": states,
        "test": test.name.as_str(),
    })
}

/// The object with executions.
fn witnessed_object(
    alloc: Global,
    test: &Test,
    condition: &str,
    counts: Counts,
    lists: Lists,
    witnesses: Value,
) -> Result<Value, AllocError>
    ensures { IfOk result (λ value. view value ≡ witnessed_object test.now condition.now counts.positive counts.negative
        (view lists.places) (view lists.states) (view witnesses)) }
{
    let Counts { positive, negative } = counts;
    let ok = is_met(test.quantifier, positive, negative);
    let Lists { places, states } = lists;
    json!(in alloc; {
        "condition": condition,
        "kind": quantifier_word(test.quantifier),
        "negative": Value::from(negative),
        "observation": observation_word(positive, negative),
        "ok": Value::Bool(ok),
        "places": places,
        "positive": Value::from(positive),
        "states": states,
        "test": test.name.as_str(),
        "witnesses": witnesses,
    })
}

/// The object of the states of a test with the placement's fences.
fn states_value(
    alloc: Global,
    test: &Test,
    placement: &Placement,
    columns: &[Column],
    witnesses: bool,
    states: &[State],
) -> Result<Value, Fault>
    requires bounded { IsBounded test.now }
    requires slots { slots_of placement.now ≡ slots test.now }
    ensures ok { IfOk result (λ value. view value
        ≡ states_value test.now placement.now columns.now witnesses states.now) }
    ensures err { IsOkUnless result Memory }
{
    let counts = Counts {
        positive: positive(columns, &test.condition, states),
        negative: negative(columns, &test.condition, states),
    };
    let condition = condition_line(alloc, test, placement)?;
    let lists = lists_of(alloc, test, columns, states)?;
    if !witnesses {
        return Ok(plain_object(alloc, test, condition.as_str(), counts, lists)?);
    }
    let executions = all_executions(alloc, states)?;
    Ok(witnessed_object(alloc, test, condition.as_str(), counts, lists, executions)?)
}

/// The same in print.
fn states_object(
    alloc: Global,
    test: &Test,
    placement: &Placement,
    columns: &[Column],
    witnesses: bool,
    states: &[State],
) -> Result<String, Fault>
    requires bounded { IsBounded test.now }
    requires slots { slots_of placement.now ≡ slots test.now }
    ensures ok { IfOk result (λ text. string_bytes text
        ≡ json_line (states_value test.now placement.now columns.now witnesses states.now)) }
    ensures err { IsOkUnless result Memory }
{
    let value = states_value(alloc, test, placement, columns, witnesses, states)?;
    Ok(json_line(alloc, &value)?)
}

/// The lines of a test with the placement's fences of which these are the states, or the object in a line. The error is
/// F19.
pub(crate) fn shown_text(
    alloc: Global,
    test: &Test,
    placement: &Placement,
    columns: &[Column],
    asked: Shown,
    states: &[State],
) -> Result<String, Fault>
    requires bounded { IsBounded test.now }
    requires slots { slots_of placement.now ≡ slots test.now }
    ensures ok { IfOk result (λ text. string_bytes text
        ≡ shown_text test.now placement.now columns.now asked states.now) }
    ensures err { IsOkUnless result Memory }
{
    if asked.json {
        states_object(alloc, test, placement, columns, asked.witnesses, states)
    } else {
        states_text(alloc, test, placement, columns, asked.witnesses, states)
    }
}
