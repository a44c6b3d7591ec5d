//! What is printed of a test.

ghost use Rattle.std.specs.Prelude.{◌≡◌, ◌≤◌, ◌++◌, length, map, string_bytes, IfOk, OnOk};
ghost use Rattle.std.specs.List.{flat_map};
ghost use Rattle.fs_kinds.specs.Limits.{most_locations};
ghost use Rattle.fs_app_states.specs.Compared.{times_text, forbidden_label, forbidden_line, not_seen_line};
ghost use Rattle.fs_app_states.specs.Compared.{first_line, compared_text, lacking_text};
ghost use Rattle.fs_app_states.specs.Tallies.{counted};

use crate::tally::Row;
use crate::{Column, push_state};
use fs_app_error_messages::shown_name;
use fs_kinds::List;
use fs_model::Location;
use std::alloc::{AllocError, Global};

/// What is found of a test: how many states were seen, how many are allowed, which were seen and are forbidden, and
/// which are allowed and weren't seen.
#[derive(Drop)]
pub(crate) struct Findings {
    pub(crate) seen: usize,
    pub(crate) allowed: usize,
    pub(crate) forbidden: List<Row>,
    pub(crate) not_seen: List<List<u32>>,
}

/// How often a forbidden state was seen, where the log says so.
fn times_text(alloc: Global, times: Option<u64>) -> Result<String, AllocError>
    ensures { IfOk result (λ text. string_bytes text ≡ times_text times) }
{
    match times {
        Some(times) => format!(in alloc; ", {times} seen"),
        None => Ok(String::new(alloc)),
    }
}

/// What stands before a forbidden state that was seen so often.
fn forbidden_label(alloc: Global, times: Option<u64>) -> Result<String, AllocError>
    ensures { IfOk result (λ text. string_bytes text ≡ forbidden_label times) }
{
    let times = times_text(alloc, times)?;
    format!(in alloc; "  forbidden{}  ", times.as_str())
}

/// Appends the line of a forbidden state.
fn push_forbidden(
    alloc: Global,
    text: &mut String,
    locations: &[Location],
    columns: &[Column],
    row: &Row,
) -> Result<(), AllocError>
    requires { length locations.now ≤ most_locations }
    ensures { OnOk result (string_bytes text.new
        ≡ string_bytes text.old ++ forbidden_line locations.now columns.now (counted row.now)) }
{
    let label = forbidden_label(alloc, row.times)?;
    text.push_str(label.as_str())?;
    push_state(alloc, text, locations, columns, row.words.as_slice())
}

/// Appends the line of a state that wasn't seen.
fn push_not_seen(
    alloc: Global,
    text: &mut String,
    locations: &[Location],
    columns: &[Column],
    words: &[u32],
) -> Result<(), AllocError>
    requires { length locations.now ≤ most_locations }
    ensures { OnOk result (string_bytes text.new
        ≡ string_bytes text.old ++ not_seen_line locations.now columns.now words.now) }
{
    text.push_str("  not seen   ")?;
    push_state(alloc, text, locations, columns, words)
}

/// The lines of the forbidden states.
fn forbidden_lines(
    alloc: Global,
    locations: &[Location],
    columns: &[Column],
    rows: &[Row],
) -> Result<String, AllocError>
    requires { length locations.now ≤ most_locations }
    ensures { IfOk result (λ text. string_bytes text
        ≡ flat_map (λ row. forbidden_line locations.now columns.now (counted row)) rows.now) }
{
    let mut text = String::new(alloc);
    for row in rows {
        push_forbidden(alloc, &mut text, locations, columns, row)?;
    }
    Ok(text)
}

/// The lines of the states that weren't seen.
fn not_seen_lines(
    alloc: Global,
    locations: &[Location],
    columns: &[Column],
    states: &[List<u32>],
) -> Result<String, AllocError>
    requires { length locations.now ≤ most_locations }
    ensures { IfOk result (λ text. string_bytes text
        ≡ flat_map (not_seen_line locations.now columns.now) states.now) }
{
    let mut text = String::new(alloc);
    for words in states {
        push_not_seen(alloc, &mut text, locations, columns, words.as_slice())?;
    }
    Ok(text)
}

/// What is printed of a test that the log has.
pub(crate) fn compared_text(
    alloc: Global,
    name: &str,
    locations: &[Location],
    columns: &[Column],
    findings: &Findings,
) -> Result<String, AllocError>
    requires { length locations.now ≤ most_locations }
    ensures { IfOk result (λ text. string_bytes text ≡ compared_text name.now locations.now columns.now findings.now) }
{
    let first = first_line(alloc, name, findings.seen, findings.allowed)?;
    let forbidden = forbidden_lines(alloc, locations, columns, findings.forbidden.as_slice())?;
    let not_seen = not_seen_lines(alloc, locations, columns, findings.not_seen.as_slice())?;
    format!(in alloc;
        "{}{}{}",
        first.as_str(),
        forbidden.as_str(),
        not_seen.as_str()
    )
}

/// The first line of a test.
fn first_line(alloc: Global, name: &str, seen: usize, allowed: usize) -> Result<String, AllocError>
    ensures { IfOk result (λ text. string_bytes text ≡ first_line name.now seen allowed) }
{
    let name = shown_name(alloc, name)?;
    format!(in alloc; "{}: {seen} seen, {allowed} allowed\n", name.as_str())
}

/// What is printed of a test that the log lacks.
pub(crate) fn lacking_text(alloc: Global, name: &str) -> Result<String, AllocError>
    ensures { IfOk result (λ text. string_bytes text ≡ lacking_text name.now) }
{
    let mut text = shown_name(alloc, name)?;
    text.push_str(": not in the log\n")?;
    Ok(text)
}
