//! Tests in print.

ghost use Rattle.std.specs.Prelude.{◌≡◌, ◌≢◌, ◌≤◌, ◌<◌, ◌++◌, All, length, map, string_bytes, IfOk, OnOk, IfErr, Err};
ghost use Rattle.std.specs.Prelude.{IsTrue, ◌↔◌};
ghost use Rattle.fs_kinds.specs.declared.fault.Fault.TheVariants.{BadFence, Memory};
ghost use Rattle.fs_kinds.specs.Placement.{slots_of};
ghost use Rattle.fs_kinds.specs.Slot.{is_same_slot};
ghost use Rattle.std.specs.List.{list_all, zip};
ghost use Rattle.fs_kinds.specs.Limits.{most_harts, most_locations, most_numbered};
ghost use Rattle.fs_model.specs.Condition.{condition_of, SpeaksOf};
ghost use Rattle.fs_model.specs.Fenced.{fenced};
ghost use Rattle.fs_model.specs.Slots.{slots};
ghost use Rattle.fs_model.specs.Test.{IsBounded};
ghost use Rattle.fs_model.specs.Printed.{name_of, value_text, location_text, locations_text, line_of, register_is};
ghost use Rattle.fs_model.specs.Printed.{register_text, start_text, starts_text, quantifier_text, condition_text};
ghost use Rattle.fs_model.specs.Printed.{printed};

use crate::accesses::slots;
use crate::columns::{columns, header, write_rows};
use crate::fencing::fenced_codes;
use crate::lists::{Code, Registers};
use crate::outcome::Outcome;
use crate::test::{Location, Quantifier, Test};
use fs_kinds::{Entry, Fault, Placement, Slot};
use std::alloc::{AllocError, Global};

/// The printed form of the test fenced by a placement over its slots: herd7's format of litmus tests
/// for RISC-V, with a FENCE before each filled slot and labels named after positions. A label at a
/// filled slot stands before the fence. F12 where the placement's slots aren't the test's, else F19.
pub fn write_fenced(alloc: Global, test: &Test, placement: &Placement) -> Result<String, Fault>
    requires { IsBounded test.now }
    ensures ok { IfOk result (λ text. string_bytes text ≡ printed (fenced test.now placement.now)) }
    ensures slots { OnOk result (slots_of placement.now ≡ slots test.now) }
    ensures bad_fence { result ≡ Err BadFence → slots_of placement.now ≢ slots test.now }
    ensures err { IfErr result (λ fault. fault ≢ BadFence → fault ≡ Memory) }
{
    let slots = slots(alloc, test)?;
    if !has_slots(placement.as_slice(), &slots) {
        return Err(Fault::BadFence);
    }
    let codes = fenced_codes(alloc, placement, test.codes.as_slice())?;
    Ok(print_with(alloc, test, &codes)?)
}

/// Are these the slots of the entries?
fn has_slots(entries: &[Entry], slots: &[Slot]) -> bool
    ensures { IsTrue result ↔ (slots_of entries.now ≡ slots.now) }
{
    entries.len() == slots.len() && begin_alike(entries, slots)
}

/// Do the entries have these slots, as far as both lists go?
fn begin_alike(entries: &[Entry], slots: &[Slot]) -> bool
    ensures { result ≡ list_all (λ pair. is_same_slot pair.0.slot pair.1) (zip entries.now slots.now) }
{
    entries
        .iter()
        .zip(slots)
        .all(|(entry, slot)| entry.slot == *slot)
}

/// The printed form of the test with these codes in place of its own.
pub fn print_with(alloc: Global, test: &Test, codes: &[Code]) -> Result<String, AllocError>
    requires locations { length test.now.locations ≤ most_locations }
    requires harts { length codes.now ≤ most_harts }
    requires lengths { All (λ code. length code < most_numbered) codes.now }
    requires starts { length test.now.starts ≤ most_harts }
    requires atoms { SpeaksOf (length codes.now) (length test.now.locations) (condition_of test.now.condition) }
    ensures { IfOk result (λ text. string_bytes text ≡ printed (record test.now { codes = codes.now })) }
{
    let locations = test.locations.as_slice();
    let mut text = format!(in alloc; "RISCV {}\n{{\n", test.name.as_str())?;
    write_locations(alloc, locations, &mut text)?;
    write_starts(alloc, locations, test.starts.as_slice(), &mut text)?;
    write!(text, "}}\n{}\n", header(alloc, codes.len())?)?;
    write_rows(alloc, &columns(alloc, codes)?, &mut text)?;
    write!(text, "{} ", quantifier_text(test.quantifier))?;
    write_condition(&test.condition, locations, &mut text)?;
    text.push_str("\n")?;
    Ok(text)
}

fn quantifier_text(quantifier: Quantifier) -> &'static str
    ensures { result.now ≡ quantifier_text quantifier }
{
    match quantifier {
        Quantifier::Exists => "exists",
        Quantifier::NotExists => "~exists",
        Quantifier::Forall => "forall",
    }
}

/// Appends the pieces in a line, with blanks between them, unless there are none.
fn write_line(alloc: Global, pieces: &[String], text: &mut String) -> Result<(), AllocError>
    ensures { OnOk result (string_bytes text.new ≡ string_bytes text.old ++ line_of (map string_bytes pieces.now)) }
{
    if !pieces.is_empty() {
        text.push_str(pieces.join(alloc, " ")?.as_str())?;
        text.push_str("\n")?;
    }
    Ok(())
}

/// Appends the line of the locations' initial words, if there are locations.
fn write_locations(
    alloc: Global,
    locations: &[Location],
    text: &mut String,
) -> Result<(), AllocError>
    ensures { OnOk result (string_bytes text.new ≡ string_bytes text.old ++ locations_text locations.now) }
{
    let mut pieces = Vec::new(alloc);
    for location in locations {
        pieces.push(location_text(alloc, location)?)?;
    }
    write_line(alloc, &pieces, text)
}

fn location_text(alloc: Global, location: &Location) -> Result<String, AllocError>
    ensures { IfOk result (λ text. string_bytes text ≡ location_text location.now) }
{
    format!(in alloc; "{}={};", location.name.as_str(), location.word)
}

/// Appends a line for each hart with a register that doesn't begin at 0.
fn write_starts(
    alloc: Global,
    locations: &[Location],
    starts: &[Registers],
    text: &mut String,
) -> Result<(), AllocError>
    requires locations { length locations.now ≤ most_locations }
    requires harts { length starts.now ≤ most_harts }
    ensures { OnOk result (string_bytes text.new ≡ string_bytes text.old ++ starts_text locations.now starts.now) }
{
    for (hart, start) in starts.iter().enumerate() {
        write_start(alloc, locations, hart, start.as_slice(), text)?;
    }
    Ok(())
}

fn write_start(
    alloc: Global,
    locations: &[Location],
    hart: usize,
    start: &[u32],
    text: &mut String,
) -> Result<(), AllocError>
    requires { length locations.now ≤ most_locations }
    ensures { OnOk result (string_bytes text.new
        ≡ string_bytes text.old ++ start_text locations.now (hart, start.now)) }
{
    let mut pieces = Vec::new(alloc);
    for (register, word) in start.iter().enumerate() {
        if *word != 0 {
            let mut piece = String::new(alloc);
            write_register_is(locations, hart, register, *word, &mut piece)?;
            piece.push_str(";")?;
            pieces.push(piece)?;
        }
    }
    write_line(alloc, &pieces, text)
}

/// Appends that a register has a word, as `0:x6=x`.
fn write_register_is(
    locations: &[Location],
    hart: usize,
    register: usize,
    word: u32,
    text: &mut String,
) -> Result<(), AllocError>
    requires { length locations.now ≤ most_locations }
    ensures { OnOk result (string_bytes text.new
        ≡ string_bytes text.old ++ register_is locations.now hart (register, word)) }
{
    write!(text, "{hart}:x{register}=")?;
    write_value(locations, word, text)
}

/// Appends the name of the location whose address the word is, or else the word in decimal.
fn write_value(locations: &[Location], word: u32, text: &mut String) -> Result<(), AllocError>
    requires { length locations.now ≤ most_locations }
    ensures { OnOk result (string_bytes text.new ≡ string_bytes text.old ++ value_text locations.now word) }
{
    for (number, location) in locations.iter().enumerate() {
        if Location::address(number as u8) == word {
            return text.push_str(location.name.as_str());
        }
    }
    write!(text, "{word}")
}

/// Appends the name of a location.
fn write_name(locations: &[Location], location: u8, text: &mut String) -> Result<(), AllocError>
    requires { location < length locations.now }
    ensures { OnOk result (string_bytes text.new ≡ string_bytes text.old ++ name_of locations.now location) }
{
    text.push_str(locations[location as usize].name.as_str())
}

/// Appends the condition.
fn write_condition(
    condition: &Outcome,
    locations: &[Location],
    text: &mut String,
) -> Result<(), AllocError>
    requires locations { length locations.now ≤ most_locations }
    requires atoms { SpeaksOf most_harts (length locations.now) (condition_of condition.now) }
    ensures { OnOk result (string_bytes text.new
        ≡ string_bytes text.old ++ condition_text locations.now (condition_of condition.now)) }
{
    match condition {
        Outcome::Always => text.push_str("true"),
        Outcome::Never => text.push_str("false"),
        Outcome::RegisterIs { hart, reg, word } => write_register_is(
            locations,
            usize::from(*hart),
            usize::from(reg.number()),
            *word,
            text,
        ),
        Outcome::LocationIs { location, word } => {
            write_name(locations, *location, text)?;
            text.push_str("=")?;
            write_value(locations, *word, text)
        }
        Outcome::Deny(denied) => {
            text.push_str("~")?;
            write_condition(denied, locations, text)
        }
        Outcome::Both(left, right) => {
            text.push_str("(")?;
            write_condition(left, locations, text)?;
            text.push_str(" /\\ ")?;
            write_condition(right, locations, text)?;
            text.push_str(")")
        }
        Outcome::Either(left, right) => {
            text.push_str("(")?;
            write_condition(left, locations, text)?;
            text.push_str(" \\/ ")?;
            write_condition(right, locations, text)?;
            text.push_str(")")
        }
    }
}
