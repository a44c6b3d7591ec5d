//! The states of a log, by their words at the places of a test.

ghost use Rattle.std.specs.Prelude.{◌≡◌, ◌++◌, ◌∷◌, [], true, List, map, length, IfOk, OnOk, IfSome};
ghost use Rattle.std.specs.List.{AllZip, list_any};
ghost use Rattle.std.specs.Str.{bytes_eq};
ghost use Rattle.fs_model.specs.Test.{IsBounded};
ghost use Rattle.fs_judge_outcomes.specs.States.{IsPlaceOf, ArePlacesOf};
ghost use Rattle.fs_app_states.specs.Rows.{are_apart, is_place, AreColumns, AreFirstColumns, IsColumn, IsRow};
ghost use Rattle.fs_app_states.specs.Compared.{states_seen};
ghost use Rattle.fs_app_states.specs.Tallies.{counted};
ghost use Rattle.fs_app_states.specs.declared.log.Item.{Item as NamedItem};
ghost use Rattle.fs_app_states.specs.declared.log.Seen.{Seen as Seens};

use crate::setting::{is_place, settings_of, words_at};
use crate::tally::Row;
use crate::{Block, Column, Expected, Item, LogError, Seen, place_named};
use fs_app_error_messages::shown_name;
use fs_judge_outcomes::Place;
use fs_kinds::List as Items;
use fs_model::{Name, Test};
use std::alloc::{AllocError, Global};

/// Is the block of a test of this name?
pub(crate) fn is_of(block: &Block<'_>, name: &str) -> bool
    ensures { result ≡ bytes_eq block.now.name.now name.now }
{
    block.name == name
}

/// The error that a state should name the places of the first one, each once.
fn strange(line: usize) -> LogError {
    LogError::Line {
        line,
        expected: Expected::Places,
    }
}

/// Has a column this place?
fn has_place(columns: &[Column], place: Place) -> bool
    ensures { result ≡ list_any (λ column. is_place column.place place) columns.now }
{
    columns.iter().any(|column| is_place(column.place, place))
}

/// Is it a place of the test?
fn is_place_of(test: &Test, place: Place) -> bool
    ensures { result ≡ true → IsPlaceOf (length test.now.codes) (length test.now.locations) place }
{
    match place {
        Place::Register { hart, reg } => usize::from(hart) < test.codes.len() && reg.number() < 32,
        Place::Location(location) => usize::from(location) < test.locations.len(),
    }
}

/// The column of the place that the item names, in this line.
fn column_of(alloc: Global, test: &Test, line: usize, item: &Item<'_>) -> Result<Column, LogError>
    requires { IsBounded test.now }
    ensures { IfOk result (IsColumn test.now item.now) }
{
    let Some(place) = place_named(alloc, test, item.place)? else {
        return Err(LogError::Line {
            line,
            expected: Expected::Place,
        });
    };
    let name = shown_name(alloc, item.place)?;
    Ok(Column {
        place,
        name: Name::new(name),
    })
}

/// Appends the column of the place that the item names, in this line.
fn push_column(
    alloc: Global,
    test: &Test,
    line: usize,
    item: &Item<'_>,
    columns: &mut Vec<Column>,
) -> Result<(), LogError>
    requires { IsBounded test.now }
    ensures each { (items : List NamedItem) → AllZip (IsColumn test.now) items columns.old.items
        → OnOk result (AllZip (IsColumn test.now) (items ++ item.now ∷ []) columns.new.items) }
    ensures own { ArePlacesOf test.now (map (λ column. column.place) columns.old.items)
        → OnOk result (ArePlacesOf test.now (map (λ column. column.place) columns.new.items)) }
    ensures once { are_apart (map (λ column. column.place) columns.old.items) ≡ true
        → OnOk result (are_apart (map (λ column. column.place) columns.new.items) ≡ true) }
{
    let column = column_of(alloc, test, line, item)?;
    if has_place(columns, column.place) {
        return Err(strange(line));
    }
    if !is_place_of(test, column.place) {
        return Err(strange(line)); // no name names one
    }
    columns.push(column)?;
    Ok(())
}

/// A column for each place that the state names. Their number is at most that of the places of a test.
fn columns_of(alloc: Global, test: &Test, first: &Seen<'_>) -> Result<Vec<Column>, LogError>
    requires { IsBounded test.now }
    ensures { IfOk result (λ columns. AreColumns test.now first.now columns.items) }
{
    let mut columns = Vec::new(alloc);
    for item in first.items.as_slice() {
        push_column(alloc, test, first.line, item, &mut columns)?;
    }
    Ok(columns)
}

/// A column for each place that the first state names that the log has of a test of this name, where there is one:
/// under its name there, and in the order there. The error is of a line, or want of memory.
pub(crate) fn first_columns(
    alloc: Global,
    test: &Test,
    log: &[Block<'_>],
    name: &str,
) -> Result<Vec<Column>, LogError>
    requires { IsBounded test.now }
    ensures { IfOk result (λ columns. AreFirstColumns test.now (states_seen log.now name.now) columns.items) }
{
    for block in log {
        if is_of(block, name) {
            if let Some(first) = block.states.first() {
                return columns_of(alloc, test, first);
            }
        }
    }
    Ok(Vec::new(alloc))
}

/// The state, by its words at the places of the columns.
fn row_of(alloc: Global, test: &Test, columns: &[Column], seen: &Seen<'_>) -> Result<Row, LogError>
    requires { IsBounded test.now }
    ensures { IfOk result (λ row. IsRow test.now columns.now seen.now (counted row)) }
{
    let settings = settings_of(alloc, test, seen)?;
    if settings.len() != columns.len() {
        return Err(strange(seen.line));
    }
    let Some(words) = words_at(alloc, &settings, columns)? else {
        return Err(strange(seen.line));
    };
    Ok(Row {
        words: Items::new(words),
        times: seen.times,
    })
}

/// Appends the states of a block.
fn push_rows(
    alloc: Global,
    test: &Test,
    columns: &[Column],
    block: &Block<'_>,
    rows: &mut Vec<Row>,
) -> Result<(), LogError>
    requires { IsBounded test.now }
    ensures { (states : List Seens) → AllZip (IsRow test.now columns.now) states (map counted rows.old.items)
        → OnOk result (AllZip (IsRow test.now columns.now) (states ++ block.now.states) (map counted rows.new.items)) }
{
    for seen in block.states.as_slice() {
        rows.push(row_of(alloc, test, columns, seen)?)?;
    }
    Ok(())
}

/// The states that the log has of a test of this name, by their words at the places of the columns. The error is of a
/// line, or want of memory. Linear in the states, but for the square of the columns.
pub(crate) fn rows_of(
    alloc: Global,
    test: &Test,
    columns: &[Column],
    log: &[Block<'_>],
    name: &str,
) -> Result<Vec<Row>, LogError>
    requires { IsBounded test.now }
    ensures { IfOk result (λ rows.
        AllZip (IsRow test.now columns.now) (states_seen log.now name.now) (map counted rows.items)) }
{
    let mut rows = Vec::new(alloc);
    for block in log {
        if is_of(block, name) {
            push_rows(alloc, test, columns, block, &mut rows)?;
        }
    }
    Ok(rows)
}

/// The places of the columns.
pub(crate) fn places_of(alloc: Global, columns: &[Column]) -> Result<Vec<Place>, AllocError>
    ensures { IfOk result (λ places. places.items ≡ map (λ column. column.place) columns.now) }
{
    columns.iter().map(|column| column.place).collect(alloc)
}
