//! What a state of a log says of the places of a test.

ghost use Rattle.std.specs.Prelude.{◌≡◌, ◌++◌, ◌∷◌, [], List, IfOk, OnOk, IfSome, Some, map};
ghost use Rattle.std.specs.List.{AllZip};
ghost use Rattle.fs_model.specs.Test.{IsBounded};
ghost use Rattle.fs_app_states.specs.Rows.{is_place, word_at, IsSetting};
ghost use Rattle.fs_app_states.specs.declared.log.Item.{Item as Items};

use crate::value::word_in;
use crate::{Column, Expected, Item, LogError, Seen, place_named};
use fs_instr::Reg;
use fs_judge_outcomes::Place;
use fs_model::Test;
use std::alloc::{AllocError, Global};

/// A place and its word.
#[derive(Drop)]
pub struct Setting {
    pub place: Place,
    pub word: u32,
}

fn is_register(hart: u8, reg: Reg, place: Place) -> bool
    ensures { result ≡ is_place (Place.Register hart reg) place }
{
    match place {
        Place::Register {
            hart: other,
            reg: name,
        } => hart == other && reg.number() == name.number(),
        Place::Location(_) => false,
    }
}

fn is_location(location: u8, place: Place) -> bool
    ensures { result ≡ is_place (Place.Location location) place }
{
    match place {
        Place::Register { .. } => false,
        Place::Location(other) => location == other,
    }
}

/// Are the two the same place?
pub(crate) fn is_place(place: Place, other: Place) -> bool
    ensures { result ≡ is_place place other }
{
    match place {
        Place::Register { hart, reg } => is_register(hart, reg, other),
        Place::Location(location) => is_location(location, other),
    }
}

/// Appends what the item says, in this line.
fn push_setting(
    alloc: Global,
    test: &Test,
    line: usize,
    item: &Item<'_>,
    settings: &mut Vec<Setting>,
) -> Result<(), LogError>
    requires { IsBounded test.now }
    ensures { (items : List Items) → AllZip (IsSetting test.now) items settings.old.items
        → OnOk result (AllZip (IsSetting test.now) (items ++ item.now ∷ []) settings.new.items) }
{
    let Some(place) = place_named(alloc, test, item.place)? else {
        return Err(LogError::Line {
            line,
            expected: Expected::Place,
        });
    };
    let Some(word) = word_in(alloc, test, item.value)? else {
        return Err(LogError::Line {
            line,
            expected: Expected::Value,
        });
    };
    settings.push(Setting { place, word })?;
    Ok(())
}

/// What the items of a state say.
pub(crate) fn settings_of(
    alloc: Global,
    test: &Test,
    seen: &Seen<'_>,
) -> Result<Vec<Setting>, LogError>
    requires { IsBounded test.now }
    ensures { IfOk result (λ settings. AllZip (IsSetting test.now) seen.now.items settings.items) }
{
    let mut settings = Vec::new(alloc);
    for item in seen.items.as_slice() {
        push_setting(alloc, test, seen.line, item, &mut settings)?;
    }
    Ok(settings)
}

/// What is said of the place.
fn word_at(settings: &[Setting], place: Place) -> Option<u32>
    ensures { result ≡ word_at settings.now place }
{
    let found = settings
        .iter()
        .find(|setting| is_place(place, setting.place))?;
    Some(found.word)
}

/// What is said of the places of the columns, in their order; nothing where one isn't named.
pub(crate) fn words_at(
    alloc: Global,
    settings: &[Setting],
    columns: &[Column],
) -> Result<Option<Vec<u32>>, AllocError>
    ensures { IfOk result (λ found. IfSome found (λ words.
        map Some words.items ≡ map (λ column. word_at settings.now column.place) columns.now)) }
{
    let mut words = Vec::new(alloc);
    for column in columns {
        let Some(word) = word_at(settings, column.place) else {
            return Ok(None);
        };
        words.push(word)?;
    }
    Ok(Some(words))
}
