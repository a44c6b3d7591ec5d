//! Places of a test under their names, and a state in print.

ghost use Rattle.std.specs.Prelude.{◌≡◌, ◌≤◌, ◌++◌, codes, length, map, IfOk, OnOk, IfSome, option_map, string_bytes};
ghost use Rattle.std.specs.List.{zip};
ghost use Rattle.std.specs.Str.{bytes_eq};
ghost use Rattle.fs_kinds.specs.Limits.{most_harts, most_locations};
ghost use Rattle.fs_model.specs.Printed.{joined, name_of, value_text};
ghost use Rattle.fs_litmus_tokens.specs.Tokens.{kind_of, views, AreTokens};
ghost use Rattle.fs_app_states.specs.Names.{hart_named, register_named, number_named, location_named, location_at};
ghost use Rattle.fs_app_states.specs.Names.{register_at, bracketed_at, place_at, place_of, cell_text, state_line};
ghost use Rattle.fs_app_states.specs.Names.{IsNamed};

use fs_instr::Reg;
use fs_judge_outcomes::Place;
use fs_litmus_tokens::{Kind, Mark, Token, number_of, tokens};
use fs_model::{Location, Name, Test};
use std::alloc::{AllocError, Global};

/// A place of a test, and the name under which it is shown.
#[derive(Drop)]
pub struct Column {
    pub place: Place,
    pub name: Name,
}

// ---- names

/// The hart of this number, of so many.
fn hart_named(harts: usize, word: &str) -> Option<u8>
    requires { harts ≤ most_harts }
    ensures { result ≡ hart_named harts word.now }
{
    let number = number_of(word)?;
    if (number as usize) < harts {
        Some(number as u8)
    } else {
        None
    }
}

/// The hart's register of this name.
fn register_named(harts: usize, hart: &str, register: &str) -> Option<Place>
    requires { harts ≤ most_harts }
    ensures { result ≡ register_named harts hart.now register.now }
{
    let hart = hart_named(harts, hart)?;
    let register = Reg::of(register)?;
    Some(Place::register(hart, register))
}

/// The name of the location of this number.
pub(crate) fn name_of(locations: &[Location], location: u8) -> &str
    ensures { result.now ≡ name_of locations.now location }
{
    match locations.get(usize::from(location)) {
        Some(location) => location.name.as_str(),
        None => "",
    }
}

fn is_named(locations: &[Location], location: u8, name: &str) -> bool
    ensures { result ≡ bytes_eq (name_of locations.now location) name.now }
{
    name_of(locations, location) == name
}

/// The number of the first location of this name.
fn number_named(locations: &[Location], name: &str) -> Option<u8>
    requires { length locations.now ≤ most_locations }
    ensures { result ≡ number_named locations.now name.now }
{
    let count = locations.len() as u8;
    (0..count).find(|location| is_named(locations, *location, name))
}

/// The location of this name.
fn location_named(locations: &[Location], name: &str) -> Option<Place>
    requires { length locations.now ≤ most_locations }
    ensures { result ≡ location_named locations.now name.now }
{
    match number_named(locations, name) {
        Some(location) => Some(Place::Location(location)),
        None => None,
    }
}

fn location_at(test: &Test, name: Kind<'_>) -> Option<Place>
    requires { length test.now.locations ≤ most_locations }
    ensures { result ≡ location_at test.now (kind_of name.entry) }
{
    match name {
        Kind::Word(_, name) => location_named(test.locations.as_slice(), name),
        _ => None,
    }
}

/// What stands between a word and another.
fn register_at(test: &Test, hart: &str, middle: Kind<'_>, last: Kind<'_>) -> Option<Place>
    requires { length test.now.codes ≤ most_harts }
    ensures { result ≡ register_at test.now hart.now (kind_of middle.entry) (kind_of last.entry) }
{
    match middle {
        Kind::Sign(Mark::Colon) => match last {
            Kind::Word(_, register) => register_named(test.codes.len(), hart, register),
            _ => None,
        },
        _ => None,
    }
}

/// What stands between brackets.
fn bracketed_at(test: &Test, name: Kind<'_>, last: Kind<'_>) -> Option<Place>
    requires { length test.now.locations ≤ most_locations }
    ensures { result ≡ bracketed_at test.now (kind_of name.entry) (kind_of last.entry) }
{
    match last {
        Kind::Sign(Mark::CloseBracket) => location_at(test, name),
        _ => None,
    }
}

/// A hart, `:` and a register; or `[`, a location and `]`.
fn place_at(test: &Test, first: Kind<'_>, middle: Kind<'_>, last: Kind<'_>) -> Option<Place>
    requires harts { length test.now.codes ≤ most_harts }
    requires locations { length test.now.locations ≤ most_locations }
    ensures { result ≡ place_at test.now (kind_of first.entry) (kind_of middle.entry) (kind_of last.entry) }
{
    match first {
        Kind::Word(_, hart) => register_at(test, hart, middle, last),
        Kind::Sign(Mark::OpenBracket) => bracketed_at(test, middle, last),
        _ => None,
    }
}

/// The place that the tokens name, all of them: a hart's register as `0:x7`, or a location as `x` or `[x]`.
pub(crate) fn place_of(test: &Test, tokens: &[Token<'_>]) -> Option<Place>
    requires harts { length test.now.codes ≤ most_harts }
    requires locations { length test.now.locations ≤ most_locations }
    ensures { result ≡ place_of test.now (views tokens.now) }
{
    match tokens {
        [name] => location_at(test, name.kind),
        [first, middle, last] => place_at(test, first.kind, middle.kind, last.kind),
        _ => None,
    }
}

/// The place of the test that this is the name of, as a test file writes it: a hart's register as `0:x7` or `0:t2`,
/// or a location as `x` or `[x]`; nothing where the test has no such place. The error is want of memory. Linear in
/// the name.
pub fn place_named(alloc: Global, test: &Test, name: &str) -> Result<Option<Place>, AllocError>
    requires harts { length test.now.codes ≤ most_harts }
    requires locations { length test.now.locations ≤ most_locations }
    ensures { IfOk result (IsNamed test.now name.now) }
{
    let (tokens, closed) = tokens(alloc, name.as_bytes(), 1)?;
    if closed {
        Ok(place_of(test, &tokens))
    } else {
        Ok(None)
    }
}

// ---- a state in print

/// Appends the name of the location whose address the word is, or else the word in decimal.
pub(crate) fn push_value(
    text: &mut String,
    locations: &[Location],
    word: u32,
) -> Result<(), AllocError>
    requires { length locations.now ≤ most_locations }
    ensures { OnOk result (string_bytes text.new ≡ string_bytes text.old ++ value_text locations.now word) }
{
    for (number, location) in locations.iter().enumerate() {
        if Location::address(number as u8) == word {
            return text.push_str(location.name.as_str());
        }
    }
    write!(text, "{word}")
}

/// The name of the place and its word, as `0:x7=1;`.
fn cell_text(
    alloc: Global,
    locations: &[Location],
    column: &Column,
    word: u32,
) -> Result<String, AllocError>
    requires { length locations.now ≤ most_locations }
    ensures { IfOk result (λ text. string_bytes text ≡ cell_text locations.now (column.now, word)) }
{
    let mut text = String::from_str(alloc, column.name.as_str())?;
    text.push_str("=")?;
    push_value(&mut text, locations, word)?;
    text.push_str(";")?;
    Ok(text)
}

/// The same of all places.
fn cells_text(
    alloc: Global,
    locations: &[Location],
    columns: &[Column],
    words: &[u32],
) -> Result<Vec<String>, AllocError>
    requires { length locations.now ≤ most_locations }
    ensures { IfOk result (λ cells. map string_bytes cells.items
        ≡ map (cell_text locations.now) (zip columns.now words.now)) }
{
    let mut cells = Vec::new(alloc);
    let mut columns = columns;
    let mut words = words;
    while let Some((column, more)) = columns.split_first() {
        let Some((word, rest)) = words.split_first() else {
            return Ok(cells);
        };
        cells.push(cell_text(alloc, locations, column, *word)?)?;
        columns = more;
        words = rest;
    }
    Ok(cells)
}

/// The same in one text.
fn joined_cells(
    alloc: Global,
    locations: &[Location],
    columns: &[Column],
    words: &[u32],
) -> Result<String, AllocError>
    requires { length locations.now ≤ most_locations }
    ensures { IfOk result (λ text. string_bytes text
        ≡ joined (codes " ") (map (cell_text locations.now) (zip columns.now words.now))) }
{
    let cells = cells_text(alloc, locations, columns, words)?;
    cells.join(alloc, " ")
}

/// Appends the line of a state that has these words at these places of a test with these locations, as
/// `0:x7=0; x=1;`. A word that is the address of a location is its name, any other one an unsigned decimal. The error
/// is want of memory.
pub fn push_state(
    alloc: Global,
    text: &mut String,
    locations: &[Location],
    columns: &[Column],
    words: &[u32],
) -> Result<(), AllocError>
    requires { length locations.now ≤ most_locations }
    ensures { OnOk result (string_bytes text.new
        ≡ string_bytes text.old ++ state_line locations.now columns.now words.now) }
{
    let cells = joined_cells(alloc, locations, columns, words)?;
    writeln!(text, "{}", cells.as_str())
}
