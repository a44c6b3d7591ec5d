//! What is printed of the states of a test, in herd7's form.

ghost use Rattle.std.specs.Prelude.{◌≡◌, ◌≤◌, ◌++◌, ◌==◌, not, length, count_by, decimal, IfOk, OnOk, IsOkUnless};
ghost use Rattle.std.specs.Prelude.{string_bytes};
ghost use Rattle.std.specs.List.{flat_map};
ghost use Rattle.fs_cert_evidence.specs.Texts.{witness_text};
ghost use Rattle.fs_kinds.specs.declared.fault.Fault.TheVariants.{Memory};
ghost use Rattle.fs_kinds.specs.Limits.{most_locations};
ghost use Rattle.fs_kinds.specs.Placement.{slots_of};
ghost use Rattle.fs_model.specs.Condition.{condition_of};
ghost use Rattle.fs_model.specs.Slots.{slots};
ghost use Rattle.fs_model.specs.Test.{IsBounded};
ghost use Rattle.fs_model.specs.Printed.{ended};
ghost use Rattle.fs_app_states.specs.Names.{state_line};
ghost use Rattle.fs_app_states.specs.Report.{word_in, is_true, positive, negative, quantifier_word, is_met, met_word};
ghost use Rattle.fs_app_states.specs.Report.{observation_word, before_break, behind_break, condition_line, title_lines};
ghost use Rattle.fs_app_states.specs.Report.{witness_line, state_lines, counts_lines, last_lines, listing_lines};
ghost use Rattle.fs_app_states.specs.Report.{verdict_lines, states_text};

use crate::columns::{Column, push_state};
use crate::places::is_place;
use fs_app_error_messages::shown_name;
use fs_cert_evidence::Witness;
use fs_judge_outcomes::{Place, State};
use fs_kinds::{Fault, Placement};
use fs_model::{Location, Outcome, Quantifier, Test, write_fenced};
use fs_report::witness_text;
use std::alloc::{AllocError, Global};

// ---- what the condition says of a state

/// The word at the place.
fn word_in(columns: &[Column], words: &[u32], place: &Place) -> u32
    ensures { result ≡ word_in columns.now words.now place.now }
{
    let mut columns = columns;
    let mut words = words;
    while let Some((column, more)) = columns.split_first() {
        let Some((word, rest)) = words.split_first() else {
            return 0;
        };
        if is_place(&column.place, place) {
            return *word;
        }
        columns = more;
        words = rest;
    }
    0
}

/// Is the condition, without its quantifier, true of the state? Recursion goes as deep as the condition, whose depth
/// is within the limit.
pub(crate) fn is_true(columns: &[Column], condition: &Outcome, words: &[u32]) -> bool
    ensures { result ≡ is_true columns.now (condition_of condition.now) words.now }
{
    match condition {
        Outcome::Always => true,
        Outcome::Never => false,
        Outcome::RegisterIs { hart, reg, word } => {
            word_in(columns, words, &Place::register(*hart, *reg)) == *word
        }
        Outcome::LocationIs { location, word } => {
            word_in(columns, words, &Place::Location(*location)) == *word
        }
        Outcome::Deny(denied) => !is_true(columns, denied, words),
        Outcome::Both(left, right) => {
            is_true(columns, left, words) && is_true(columns, right, words)
        }
        Outcome::Either(left, right) => {
            is_true(columns, left, words) || is_true(columns, right, words)
        }
    }
}

/// How many states make the condition true.
pub(crate) fn positive(columns: &[Column], condition: &Outcome, states: &[State]) -> usize
    ensures { result ≡ positive columns.now (condition_of condition.now) states.now }
{
    states
        .iter()
        .filter(|state| is_true(columns, condition, state.words.as_slice()))
        .count()
}

/// How many make it false.
pub(crate) fn negative(columns: &[Column], condition: &Outcome, states: &[State]) -> usize
    ensures { result ≡ negative columns.now (condition_of condition.now) states.now }
{
    states
        .iter()
        .filter(|state| !is_true(columns, condition, state.words.as_slice()))
        .count()
}

// ---- words for it

pub(crate) fn quantifier_word(quantifier: Quantifier) -> &'static str
    ensures { result.now ≡ quantifier_word quantifier }
{
    match quantifier {
        Quantifier::Exists => "Allowed",
        Quantifier::NotExists => "Forbidden",
        Quantifier::Forall => "Required",
    }
}

/// Is the condition with its quantifier true of so many states that make it true without, and so many that don't?
pub(crate) fn is_met(quantifier: Quantifier, positive: usize, negative: usize) -> bool
    ensures { result ≡ is_met quantifier positive negative }
{
    match quantifier {
        Quantifier::Exists => positive != 0,
        Quantifier::NotExists => positive == 0,
        Quantifier::Forall => negative == 0,
    }
}

fn met_word(met: bool) -> &'static str
    ensures { result.now ≡ met_word met }
{
    if met { "Ok" } else { "No" }
}

pub(crate) fn observation_word(positive: usize, negative: usize) -> &'static str
    ensures { result.now ≡ observation_word positive negative }
{
    if positive == 0 {
        "Never"
    } else if negative == 0 {
        "Always"
    } else {
        "Sometimes"
    }
}

/// What stands before the last LF of a text.
fn before_break(text: &str) -> &str
    ensures { result.now ≡ before_break text.now }
{
    match text.rsplit_once('\n') {
        Some((before, _)) => before,
        None => text,
    }
}

/// What stands behind it.
fn behind_break(text: &str) -> &str
    ensures { result.now ≡ behind_break text.now }
{
    match text.rsplit_once('\n') {
        Some((_, behind)) => behind,
        None => text,
    }
}

/// The quantifier and the condition, as they stand in the last line of what `place` prints.
pub(crate) fn condition_line(
    alloc: Global,
    test: &Test,
    placement: &Placement,
) -> Result<String, Fault>
    requires bounded { IsBounded test.now }
    requires slots { slots_of placement.now ≡ slots test.now }
    ensures ok { IfOk result (λ text. string_bytes text ≡ condition_line test.now placement.now) }
    ensures err { IsOkUnless result Memory }
{
    let printed = write_fenced(alloc, test, placement)?;
    Ok(String::from_str(alloc, behind_break(before_break(printed.as_str())))?)
}

// ---- the lines

/// The test, and how many states there are.
fn title_lines(alloc: Global, test: &Test, states: usize) -> Result<String, AllocError>
    ensures { IfOk result (λ text. string_bytes text ≡ title_lines test.now states) }
{
    let name = shown_name(alloc, test.name.as_str())?;
    let word = quantifier_word(test.quantifier);
    format!(in alloc; "Test {} {}\nStates {}\n", name.as_str(), word, states)
}

/// The execution as the JSON text of a witness, in a line.
fn json_line(alloc: Global, witness: &Witness) -> Result<String, AllocError>
    ensures { IfOk result (λ text. string_bytes text ≡ ended (witness_text witness.now.witness)) }
{
    let mut text = witness_text(alloc, &witness.choices, &witness.order)?;
    text.push_str("\n")?;
    Ok(text)
}

/// Appends the execution, where it is asked for.
fn push_witness(
    alloc: Global,
    text: &mut String,
    witnesses: bool,
    state: &State,
) -> Result<(), AllocError>
    ensures { OnOk result (string_bytes text.new ≡ string_bytes text.old ++ witness_line witnesses state.now) }
{
    if witnesses {
        let line = json_line(alloc, &state.witness)?;
        text.push_str(line.as_str())?;
    }
    Ok(())
}

/// Appends the lines of a state.
fn push_lines(
    alloc: Global,
    text: &mut String,
    locations: &[Location],
    columns: &[Column],
    witnesses: bool,
    state: &State,
) -> Result<(), AllocError>
    requires { length locations.now ≤ most_locations }
    ensures { OnOk result (string_bytes text.new
        ≡ string_bytes text.old ++ state_lines locations.now columns.now witnesses state.now) }
{
    push_state(alloc, text, locations, columns, state.words.as_slice())?;
    push_witness(alloc, text, witnesses, state)
}

/// The lines of all states.
fn all_lines(
    alloc: Global,
    locations: &[Location],
    columns: &[Column],
    witnesses: bool,
    states: &[State],
) -> Result<String, AllocError>
    requires { length locations.now ≤ most_locations }
    ensures { IfOk result (λ text. string_bytes text
        ≡ flat_map (state_lines locations.now columns.now witnesses) states.now) }
{
    let mut text = String::new(alloc);
    for state in states {
        push_lines(alloc, &mut text, locations, columns, witnesses, state)?;
    }
    Ok(text)
}

/// Whether the condition is met, and how many states make it true and false.
fn counts_lines(
    alloc: Global,
    quantifier: Quantifier,
    positive: usize,
    negative: usize,
) -> Result<String, AllocError>
    ensures { IfOk result (λ text. string_bytes text ≡ counts_lines quantifier positive negative) }
{
    let word = met_word(is_met(quantifier, positive, negative));
    format!(in alloc;
        "{}\nWitnesses\nPositive: {} Negative: {}\n",
        word, positive, negative
    )
}

/// The condition, the verdict on it in words, and a blank line.
fn last_lines(
    alloc: Global,
    test: &Test,
    placement: &Placement,
    positive: usize,
    negative: usize,
) -> Result<String, Fault>
    requires bounded { IsBounded test.now }
    requires slots { slots_of placement.now ≡ slots test.now }
    ensures ok { IfOk result (λ text. string_bytes text ≡ last_lines test.now placement.now positive negative) }
    ensures err { IsOkUnless result Memory }
{
    let condition = condition_line(alloc, test, placement)?;
    let name = shown_name(alloc, test.name.as_str())?;
    let word = observation_word(positive, negative);
    Ok(format!(in alloc;
        "Condition {}\nObservation {} {} {} {}\n\n",
        condition.as_str(),
        name.as_str(),
        word,
        positive,
        negative
    )?)
}

/// What stands behind the states.
fn verdict_lines(
    alloc: Global,
    test: &Test,
    placement: &Placement,
    columns: &[Column],
    states: &[State],
) -> Result<String, Fault>
    requires bounded { IsBounded test.now }
    requires slots { slots_of placement.now ≡ slots test.now }
    ensures ok { IfOk result (λ text. string_bytes text ≡ verdict_lines test.now placement.now columns.now states.now) }
    ensures err { IsOkUnless result Memory }
{
    let positive = positive(columns, &test.condition, states);
    let negative = negative(columns, &test.condition, states);
    let mut text = counts_lines(alloc, test.quantifier, positive, negative)?;
    let last = last_lines(alloc, test, placement, positive, negative)?;
    text.push_str(last.as_str())?;
    Ok(text)
}

/// The test, how many states there are, and the states.
fn listing_lines(
    alloc: Global,
    test: &Test,
    columns: &[Column],
    witnesses: bool,
    states: &[State],
) -> Result<String, AllocError>
    requires { IsBounded test.now }
    ensures { IfOk result (λ text. string_bytes text ≡ listing_lines test.now columns.now witnesses states.now) }
{
    let mut text = title_lines(alloc, test, states.len())?;
    let lines = all_lines(alloc, test.locations.as_slice(), columns, witnesses, states)?;
    text.push_str(lines.as_str())?;
    Ok(text)
}

/// The text that is printed of a test with the placement's fences, of which these are the states: their number, a
/// line for each, whether the condition is met, how many states make it true and false, and a blank line. Below the
/// line of each state stands the execution that ends in it, where `witnesses` are asked for. The error is F19.
pub(crate) fn states_text(
    alloc: Global,
    test: &Test,
    placement: &Placement,
    columns: &[Column],
    witnesses: bool,
    states: &[State],
) -> Result<String, Fault>
    requires bounded { IsBounded test.now }
    requires slots { slots_of placement.now ≡ slots test.now }
    ensures ok { IfOk result (λ text. string_bytes text
        ≡ states_text test.now placement.now columns.now witnesses states.now) }
    ensures err { IsOkUnless result Memory }
{
    let mut text = listing_lines(alloc, test, columns, witnesses, states)?;
    let verdict = verdict_lines(alloc, test, placement, columns, states)?;
    text.push_str(verdict.as_str())?;
    Ok(text)
}
