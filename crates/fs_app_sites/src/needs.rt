//! Which test needs which sites, in lines. These promise nothing: they are notes beside an answer.

ghost use Rattle.std.specs.Prelude.{All};
ghost use Rattle.fs_sites.specs.Questions.{IsPart};

use crate::ask::{Asked, read_question};
use crate::content::Tests;
use fs_app_error_messages::shown_name;
use fs_judge::{Judge, Problem, Verdict};
use fs_kinds::{Fault, Placement, Slot};
use fs_sites::{Answer, Part, image};
use fs_sites_search::{Limits, solve};
use std::alloc::{AllocError, Global};
use std::sync::Arc;

/// A judge of the test.
fn judge_of(alloc: Global, part: &Part, inferences: usize) -> Result<Judge, Fault>
    requires { IsPart part.now }
{
    let test = Arc::try_clone(&part.test)?;
    let problem = Problem::shared(alloc, test, inferences)?;
    Ok(Judge::new(alloc, problem))
}

/// Is the outcome of the test allowed where this site has no fence, and all others have theirs?
fn needs_fence(
    alloc: Global,
    part: &Part,
    judge: &mut Judge,
    placement: &Placement,
    site: Slot,
) -> Result<bool, Fault>
    requires { IsPart part.now }
{
    let mut less = placement.copy()?;
    less.with(site, None)?;
    let fences = image(alloc, &part.places, &less)?;
    match judge.verdict(alloc, &fences, &[])? {
        Verdict::Allowed(_) => Ok(true),
        Verdict::Forbids(_) => Ok(false),
    }
}

/// Has the test a copy of the site of this number?
fn has_copy(part: &Part, site: usize) -> bool {
    for place in part.places.as_slice() {
        if place.site == site {
            return true;
        }
    }
    false
}

fn name_of(names: &[String], site: usize) -> &str {
    match names.get(site) {
        Some(name) => name.as_str(),
        None => "",
    }
}

/// Appends the name, and a comma before it, unless it is the first one.
fn push_name(text: &mut String, name: &str, is_first: bool) -> Result<(), AllocError> {
    text.push_str(if is_first { " " } else { ", " })?;
    text.push_str(name)
}

/// Appends the names of the sites whose fences the test needs, or `none`.
fn push_needed(
    alloc: Global,
    part: &Part,
    names: &[String],
    placement: &Placement,
    text: &mut String,
    inferences: usize,
) -> Result<(), Fault>
    requires { IsPart part.now }
{
    let mut judge = judge_of(alloc, part, inferences)?;
    let mut is_first = true;
    for (site, entry) in placement.as_slice().iter().enumerate() {
        if entry.kind.is_some()
            && has_copy(part, site)
            && needs_fence(alloc, part, &mut judge, placement, entry.slot)?
        {
            push_name(text, name_of(names, site), is_first)?;
            is_first = false;
        }
    }
    if is_first {
        text.push_str(" none")?;
    }
    Ok(())
}

/// Appends the line of a test.
fn push_line(
    alloc: Global,
    file: &str,
    part: &Part,
    names: &[String],
    placement: &Placement,
    text: &mut String,
    inferences: usize,
) -> Result<(), Fault>
    requires { IsPart part.now }
{
    let file = shown_name(alloc, file)?;
    write!(text, "note: {} needs", file.as_str())?;
    push_needed(alloc, part, names, placement, text, inferences)?;
    text.push_str("\n")?;
    Ok(())
}

/// The lines of all tests.
fn lines_of(
    alloc: Global,
    tests: &Tests,
    asked: &Asked,
    placement: &Placement,
    inferences: usize,
) -> Result<String, Fault>
    requires { All IsPart asked.now.question.parts }
{
    let mut text = String::new(alloc);
    for (part, file) in asked.question.parts.iter().zip(tests.files.as_slice()) {
        let name = file.name.as_str();
        push_line(
            alloc,
            name,
            part,
            &asked.names,
            placement,
            &mut text,
            inferences,
        )?;
    }
    Ok(text)
}

/// For each test a line: which sites it needs the fences of, those without which alone its outcome is allowed, where all
/// others have the fences of the answer. Of an answer without fences none. It searches for the answer again, by one
/// worker, and costs a verdict more for each test and each of its sites. The faults are those of the search.
pub fn needs_text(
    alloc: Global,
    tests: &Tests,
    prices: &[u8],
    limits: Limits,
) -> Result<String, Fault> {
    let asked = read_question(alloc, tests, prices)?;
    match solve(alloc, &asked.question, limits)? {
        Answer::Fenced { placement, .. } => lines_of(
            alloc,
            tests,
            &asked,
            &placement,
            limits.inferences,
        ),
        Answer::None { .. } => Ok(String::new(alloc)),
    }
}
