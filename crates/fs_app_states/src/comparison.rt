//! A test file held against a log.

ghost use Rattle.std.specs.Prelude.{◌≡◌, map, string_bytes, All, IfOk};
ghost use Rattle.std.specs.Arc.{arc_value};
ghost use Rattle.fs_kinds.specs.Placement.{slots_of};
ghost use Rattle.fs_model.specs.Slots.{slots};
ghost use Rattle.fs_model.specs.Test.{IsBounded, IsStart};
ghost use Rattle.fs_judge_outcomes.specs.States.{ArePlacesOf};
ghost use Rattle.fs_app_states.specs.Compared.{states_seen, compared_text, lacking_text, is_in_log, status_of};
ghost use Rattle.fs_app_states.specs.Compared.{AreFindings, IsHeld, IsComparedTo, IsCompared};
ghost use Rattle.fs_app_states.specs.Tallies.{counted};

use crate::finding::{allowed_rows, forbidden, not_seen};
use crate::rows::{first_columns, is_of, places_of, rows_of};
use crate::tally::{Row, tally_of};
use crate::text::{Findings, compared_text, lacking_text};
use crate::{Block, Column, Log, LogError};
use fs_app_io::Status;
use fs_judge_outcomes::states;
use fs_kinds::{Fault, List, Placement};
use fs_litmus::{read_fences, read_test};
use fs_model::Test;
use std::alloc::{AllocError, Global};
use std::sync::Arc;

/// What is said of a test file: the name of its test, the text that is printed, and the status, which is 1 where a
/// state was seen that is forbidden, 2 where the log lacks the test, and else 0.
#[derive(Drop)]
pub struct Compared {
    pub name: String,
    pub text: String,
    pub status: Status,
}

/// Has the log a test of this name?
fn is_in_log(log: &[Block<'_>], name: &str) -> bool
    ensures { result ≡ is_in_log log.now name.now }
{
    log.iter().any(|block| is_of(block, name))
}

/// What is found of the test, whose states that were seen are these rows.
fn findings(
    alloc: Global,
    test: &Arc<Test>,
    placement: &Placement,
    columns: &[Column],
    rows: &[Row],
    inferences: usize,
) -> Result<Findings, Fault>
    requires bounded { IsBounded (arc_value test.now) }
    requires starts { All IsStart (arc_value test.now).starts }
    requires placement { slots_of placement.now ≡ slots (arc_value test.now) }
    requires places { ArePlacesOf (arc_value test.now) (map (λ column. column.place) columns.now) }
    ensures { IfOk result (AreFindings (arc_value test.now) placement.now columns.now (map counted rows.now)) }
{
    let places = places_of(alloc, columns)?;
    let states = states(alloc, test, placement, &places, inferences)?;
    let seen = tally_of(alloc, rows)?;
    let allowed = tally_of(alloc, &allowed_rows(alloc, states.as_slice())?)?;
    let forbidden = forbidden(alloc, &seen, &allowed)?;
    let not_seen = not_seen(alloc, states.as_slice(), &seen)?;
    Ok(Findings {
        seen: seen.len(),
        allowed: states.len(),
        forbidden: List::new(forbidden),
        not_seen: List::new(not_seen),
    })
}

/// What is said of the test, of which the log has these states.
fn held(
    alloc: Global,
    test: &Test,
    columns: &[Column],
    findings: &Findings,
) -> Result<Compared, AllocError>
    requires { IsBounded test.now }
    ensures name { IfOk result (λ made. string_bytes made.name ≡ test.now.name) }
    ensures text { IfOk result (λ made. string_bytes made.text
        ≡ compared_text test.now.name test.now.locations columns.now findings.now) }
    ensures status { IfOk result (λ made. made.status ≡ status_of findings.now) }
{
    let name = test.name.as_str();
    let locations = test.locations.as_slice();
    let text = compared_text(alloc, name, locations, columns, findings)?;
    Ok(Compared {
        name: String::from_str(alloc, name)?,
        text,
        status: status_of(findings),
    })
}

fn status_of(findings: &Findings) -> Status
    ensures { result ≡ status_of findings.now }
{
    if findings.forbidden.len() == 0 {
        Status::Success
    } else {
        Status::Denied
    }
}

/// What is said of the test, whose states the log has.
fn compare_states(
    alloc: Global,
    log: &[Block<'_>],
    test: &Arc<Test>,
    placement: &Placement,
    inferences: usize,
) -> Result<Compared, LogError>
    requires bounded { IsBounded (arc_value test.now) }
    requires starts { All IsStart (arc_value test.now).starts }
    requires placement { slots_of placement.now ≡ slots (arc_value test.now) }
    ensures name { IfOk result (λ made. string_bytes made.name ≡ (arc_value test.now).name) }
    ensures held { IfOk result (λ made. IsHeld (arc_value test.now) placement.now
        (states_seen log.now (arc_value test.now).name) (string_bytes made.text) made.status) }
{
    let name = test.name.as_str();
    let columns = first_columns(alloc, test, log, name)?;
    let rows = rows_of(alloc, test, &columns, log, name)?;
    let findings = findings(alloc, test, placement, &columns, &rows, inferences)?;
    Ok(held(alloc, test, &columns, &findings)?)
}

/// What is said of a test that the log lacks.
fn lacking(alloc: Global, test: &Test) -> Result<Compared, AllocError>
    ensures name { IfOk result (λ made. string_bytes made.name ≡ test.now.name) }
    ensures text { IfOk result (λ made. string_bytes made.text ≡ lacking_text test.now.name) }
    ensures status { IfOk result (λ made. made.status ≡ Status.Failure) }
{
    let name = test.name.as_str();
    Ok(Compared {
        name: String::from_str(alloc, name)?,
        text: lacking_text(alloc, name)?,
        status: Status::Failure,
    })
}

/// What is said of the test, with these fences.
fn compare_test(
    alloc: Global,
    log: &[Block<'_>],
    test: &Arc<Test>,
    placement: &Placement,
    inferences: usize,
) -> Result<Compared, LogError>
    requires bounded { IsBounded (arc_value test.now) }
    requires starts { All IsStart (arc_value test.now).starts }
    requires placement { slots_of placement.now ≡ slots (arc_value test.now) }
    ensures name { IfOk result (λ made. string_bytes made.name ≡ (arc_value test.now).name) }
    ensures said { IfOk result (λ made. IsComparedTo (is_in_log log.now (arc_value test.now).name) (arc_value test.now)
        placement.now (states_seen log.now (arc_value test.now).name) (string_bytes made.text) made.status) }
{
    if is_in_log(log, test.name.as_str()) {
        compare_states(alloc, log, test, placement, inferences)
    } else {
        Ok(lacking(alloc, test)?)
    }
}

/// Holds a test file against a log: of the states that the log has of the test of this name, in all its blocks, those
/// that RVWMO forbids the test with the fences that the words name, and the allowed states that the log hasn't.
///
/// The error is the first fault of the test file, by number and then line; F12 of the words; the line of a state that
/// doesn't name the places of the first one, or names a place or a value that the test hasn't; the fault of `states` of
/// fs_judge_outcomes; or F19. The cost is that of `states`, and nearly linear in the log.
pub fn compare(
    alloc: Global,
    log: &Log<'_>,
    bytes: &[u8],
    fences: &[String],
    inferences: usize,
) -> Result<Compared, LogError>
    ensures { IfOk result (λ made. IsCompared log.now bytes.now (map string_bytes fences.now) (string_bytes made.name)
        (string_bytes made.text) made.status) }
{
    let test = read_test(alloc, bytes)?;
    let placement = read_fences(alloc, &test, None, fences)?;
    let test = Arc::new(alloc, test)?;
    compare_test(alloc, log.as_slice(), &test, &placement, inferences)
}
