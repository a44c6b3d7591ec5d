//! Which places of a test are shown, in which order, and under which names.

ghost use Rattle.std.specs.Prelude.{◌≡◌, ◌≢◌, ◌≤◌, ◌<◌, ◌++◌, ◌∷◌, [], Some, length, map, filter, IfOk, IfErr, OnOk};
ghost use Rattle.std.specs.Prelude.{string_bytes};
ghost use Rattle.std.specs.List.{flat_map, list_any, slice_index_or};
ghost use Rattle.fs_instr.specs.Instructions.{dest_of};
ghost use Rattle.fs_kinds.specs.Limits.{most_harts, most_locations};
ghost use Rattle.fs_litmus.specs.Reads.{Reads, HasTokens};
ghost use Rattle.fs_model.specs.Condition.{condition_of};
ghost use Rattle.fs_model.specs.Numbers.{is_same, numbers_below};
ghost use Rattle.fs_model.specs.Test.{IsBounded};
ghost use Rattle.fs_judge_outcomes.specs.declared.place.Place.TheVariants.{Register, Location as Locations};
ghost use Rattle.fs_litmus_tokens.specs.Tokens.{Lined, views};
ghost use Rattle.fs_app_states.specs.Listed.{AreListed, IsItemFault, items_of};
ghost use Rattle.fs_app_states.specs.Places.{is_place, speaks_of, may_write, is_shown, all_places, shown_places};
ghost use Rattle.fs_app_states.specs.Places.{place_text, column_of, AreShown, AreColumns, IsColumnsFault};

use crate::columns::{Column, name_of};
use crate::listed::{listed, register_text};
use crate::slices::from;
use fs_app_error_messages::body_start;
use fs_instr::{Instr, Reg};
use fs_judge_outcomes::Place;
use fs_kinds::Fault;
use fs_litmus_tokens::{Token, tokens};
use fs_model::{Code, Name, Outcome, Test};
use std::alloc::{AllocError, Global};

/// How many registers a hart has.
const REGISTERS: u8 = 32;

// ---- what is shown

fn is_register(hart: u8, reg: Reg, place: &Place) -> bool
    ensures { result ≡ is_place (Register hart reg) place.now }
{
    match place {
        Place::Register {
            hart: other,
            reg: name,
        } => { hart == *other && reg.number() == name.number() }
        Place::Location(_) => false,
    }
}

fn is_location(location: u8, place: &Place) -> bool
    ensures { result ≡ is_place (Locations location) place.now }
{
    match place {
        Place::Location(other) => location == *other,
        _ => false,
    }
}

pub(crate) fn is_place(place: &Place, other: &Place) -> bool
    ensures { result ≡ is_place place.now other.now }
{
    match place {
        Place::Register { hart, reg } => is_register(*hart, *reg, other),
        Place::Location(location) => is_location(*location, other),
    }
}

/// Does an atom of the condition speak of the place? Recursion goes as deep as the condition, whose depth is within
/// the limit.
fn speaks_of(condition: &Outcome, place: &Place) -> bool
    ensures { result ≡ speaks_of (condition_of condition.now) place.now }
{
    match condition {
        Outcome::Always | Outcome::Never => false,
        Outcome::RegisterIs { hart, reg, .. } => is_register(*hart, *reg, place),
        Outcome::LocationIs { location, .. } => is_location(*location, place),
        Outcome::Deny(denied) => speaks_of(denied, place),
        Outcome::Both(left, right) => speaks_of(left, place) || speaks_of(right, place),
        Outcome::Either(left, right) => speaks_of(left, place) || speaks_of(right, place),
    }
}

fn writes(instr: Instr, reg: Reg) -> bool
    ensures { result ≡ is_same (dest_of instr) (Some reg) }
{
    instr
        .dest()
        .is_some_and(|dest| dest.number() == reg.number())
}

/// The code of the hart; none where it is no hart.
fn code_of(codes: &[Code], hart: u8) -> &[Instr]
    ensures { result.now ≡ slice_index_or codes.now hart [] }
{
    if usize::from(hart) < codes.len() {
        codes[usize::from(hart)].as_slice()
    } else {
        &[]
    }
}

/// Does an instruction of the hart write the register?
fn hart_writes(test: &Test, hart: u8, reg: Reg) -> bool
    ensures { result ≡ list_any (λ i. is_same (dest_of i) (Some reg)) (slice_index_or test.now.codes hart []) }
{
    code_of(test.codes.as_slice(), hart)
        .iter()
        .any(|instr| writes(*instr, reg))
}

/// The same of a place; any location may be written.
fn may_write(test: &Test, place: &Place) -> bool
    ensures { result ≡ may_write test.now place.now }
{
    match place {
        Place::Register { hart, reg } => hart_writes(test, *hart, *reg),
        Place::Location(_) => true,
    }
}

fn is_listed(listed: &[Place], place: &Place) -> bool
    ensures { result ≡ list_any (is_place place.now) listed.now }
{
    listed.iter().any(|other| is_place(place, other))
}

fn is_shown(test: &Test, listed: &[Place], all: bool, place: &Place) -> bool
    ensures { result ≡ is_shown test.now listed.now all place.now }
{
    speaks_of(&test.condition, place)
        || (is_listed(listed, place) || (all && may_write(test, place)))
}

// ---- their order and their names

/// Appends the registers of the hart.
fn push_registers(hart: u8, places: &mut Vec<Place>) -> Result<(), AllocError>
    ensures { OnOk result (places.new.items ≡ places.old.items ++ map (Register hart) (numbers_below 32)) }
{
    for number in 0..REGISTERS {
        places.push(Place::register(hart, Reg::x(number)))?;
    }
    Ok(())
}

/// Appends so many locations.
fn push_locations(locations: usize, places: &mut Vec<Place>) -> Result<(), AllocError>
    requires { locations ≤ most_locations }
    ensures { OnOk result (places.new.items ≡ places.old.items ++ map Locations (numbers_below locations)) }
{
    for location in 0..locations {
        places.push(Place::Location(location as u8))?;
    }
    Ok(())
}

/// All places of a test of so many harts and locations.
fn all_places(alloc: Global, harts: usize, locations: usize) -> Result<Vec<Place>, AllocError>
    requires harts { harts ≤ most_harts }
    requires locations { locations ≤ most_locations }
    ensures { IfOk result (λ places. places.items ≡ all_places harts locations) }
{
    let mut places = Vec::new(alloc);
    for hart in 0..harts {
        push_registers(hart as u8, &mut places)?;
    }
    push_locations(locations, &mut places)?;
    Ok(places)
}

/// Those that are shown.
fn shown_places(
    alloc: Global,
    test: &Test,
    listed: &[Place],
    all: bool,
) -> Result<Vec<Place>, AllocError>
    requires { IsBounded test.now }
    ensures { IfOk result (λ places. places.items ≡ shown_places test.now listed.now all) }
{
    let places = all_places(alloc, test.codes.len(), test.locations.len())?;
    places
        .iter()
        .copied()
        .filter(|place| is_shown(test, listed, all, place))
        .collect(alloc)
}

/// The name under which the place is shown.
fn place_text(
    alloc: Global,
    test: &Test,
    tokens: &[Token<'_>],
    place: Place,
) -> Result<String, AllocError>
    ensures { IfOk result (λ text. string_bytes text ≡ place_text test.now (views tokens.now) place) }
{
    match place {
        Place::Register { hart, reg } => register_text(alloc, tokens, hart, reg),
        Place::Location(location) => {
            String::from_str(alloc, name_of(test.locations.as_slice(), location))
        }
    }
}

fn column_of(
    alloc: Global,
    test: &Test,
    tokens: &[Token<'_>],
    place: Place,
) -> Result<Column, AllocError>
    ensures { IfOk result (λ column. column ≡ column_of test.now (views tokens.now) place) }
{
    let name = Name::new(place_text(alloc, test, tokens, place)?);
    Ok(Column { place, name })
}

/// The places under their names.
fn columns_of(
    alloc: Global,
    test: &Test,
    tokens: &[Token<'_>],
    places: &[Place],
) -> Result<Vec<Column>, AllocError>
    ensures { IfOk result (λ columns. columns.items ≡ map (column_of test.now (views tokens.now)) places.now) }
{
    let mut columns = Vec::new(alloc);
    for place in places {
        columns.push(column_of(alloc, test, tokens, *place)?)?;
    }
    Ok(columns)
}

/// What is shown of a test file of these tokens.
fn shown_columns(
    alloc: Global,
    test: &Test,
    tokens: &[Token<'_>],
    all: bool,
) -> Result<Vec<Column>, Fault>
    requires { IsBounded test.now }
    ensures ok { IfOk result (λ columns. AreShown test.now (views tokens.now) all columns.items) }
    ensures err { IfErr result (λ f. f ≢ Fault.Memory → IsItemFault test.now (items_of (views tokens.now)) f) }
{
    let listed = listed(alloc, test, tokens)?;
    let places = shown_places(alloc, test, &listed, all)?;
    Ok(columns_of(alloc, test, tokens, &places)?)
}

/// The places of a test file that are shown, with their names: those of which the condition speaks, those that
/// `locations` lists, and where `all` is asked for each register that an instruction of its hart writes, and all
/// locations. They are registers by hart and number, and then locations in the order in which they are declared. F3
/// where an item of `locations` is no name of a place of the test; or F19. The cost is 32 times the harts times what
/// is linear in the tokens.
pub(crate) fn columns(
    alloc: Global,
    bytes: &[u8],
    test: &Test,
    all: bool,
) -> Result<Vec<Column>, Fault>
    requires bounded { IsBounded test.now }
    requires reads { Reads bytes.now test.now }
    ensures ok { IfOk result (λ columns. AreColumns bytes.now test.now all columns.items) }
    ensures err { IfErr result (λ f. f ≢ Fault.Memory → IsColumnsFault bytes.now test.now f) }
{
    let Some((start, line)) = body_start(bytes) else {
        unreachable!()
    };
    let (tokens, _closed) = tokens(alloc, from(bytes, start), line)?;
    shown_columns(alloc, test, &tokens, all)
}
