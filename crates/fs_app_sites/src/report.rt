//! An answer in print: lines, or a JSON object.

ghost use Rattle.std.specs.Prelude.{◌≡◌, ◌++◌, codes, map, string_bytes, true, IfOk, OnOk};
ghost use Rattle.serde_json.specs.View.{view};
ghost use Rattle.fs_report.specs.Objects.{json_line};
ghost use Rattle.fs_cert_evidence.specs.Texts.{array_of};
ghost use Rattle.fs_kinds.specs.Kind.{word};
ghost use Rattle.fs_app_sites.specs.Printed.{answer_text, fenced_lines, fenced_value, file_line, is_alone, lines_of};
ghost use Rattle.fs_app_sites.specs.Printed.{name_at, none_lines, none_value, place_text, site_line, site_value};
ghost use Rattle.fs_app_sites.specs.Printed.{site_values, sites_lines, sites_values, value_of};

use crate::content::{File, Tests};
use fs_app_error_messages::shown_name;
use fs_cert_evidence::Witness;
use fs_kinds::{Entry, Kind};
use fs_report::{json_line, witness_text, witness_value};
use fs_sites::Answer;
use serde_json::{Value, json};
use std::alloc::{AllocError, Global};

/// The name of the file of this number; none where there are so few.
fn name_at(files: &[File], number: usize) -> &str
    ensures { result.now ≡ name_at files.now number }
{
    match files.get(number) {
        Some(file) => file.name.as_str(),
        None => "",
    }
}

// ---- lines

/// Is each slot of one test a site?
fn is_alone(tests: &Tests) -> bool
    ensures { result ≡ is_alone tests.now }
{
    tests.is_free && tests.files.len() == 1
}

/// The site in words: by its label, or else by its slot, alone or behind the name of its file.
fn place_text(alloc: Global, is_alone: bool, name: &str) -> Result<String, AllocError>
    ensures { IfOk result (λ text. string_bytes text ≡ place_text is_alone name.now) }
{
    let Some((hart, at)) = name.split_once(':') else {
        return format!(in alloc; "site {}", name);
    };
    if is_alone {
        format!(in alloc; "fence {} {}", hart, at)
    } else {
        let name = shown_name(alloc, name)?;
        format!(in alloc; "site {}", name.as_str())
    }
}

/// Appends the line of the site, where it has a fence.
fn write_site(
    alloc: Global,
    is_alone: bool,
    name: &str,
    kind: Option<Kind>,
    text: &mut String,
) -> Result<(), AllocError>
    ensures { OnOk result (string_bytes text.new ≡ string_bytes text.old ++ site_line is_alone name.now kind) }
{
    if let Some(kind) = kind {
        let place = place_text(alloc, is_alone, name)?;
        writeln!(text, "{} {}", place.as_str(), kind.name())?;
    }
    Ok(())
}

/// Appends the lines of the sites of these names, each with the fence of its entry.
fn write_sites(
    alloc: Global,
    is_alone: bool,
    names: &[String],
    entries: &[Entry],
    text: &mut String,
) -> Result<(), AllocError>
    ensures { OnOk result (string_bytes text.new
        ≡ string_bytes text.old ++ sites_lines is_alone entries.now (map string_bytes names.now)) }
{
    let mut names = names;
    for entry in entries {
        match names.split_first() {
            Some((name, later)) => {
                write_site(alloc, is_alone, name.as_str(), entry.kind, text)?;
                names = later;
            }
            None => return Ok(()),
        }
    }
    Ok(())
}

/// The line `fenced` with the cost, and below it a line for each site that has a fence.
fn fenced_text(
    alloc: Global,
    is_alone: bool,
    names: &[String],
    entries: &[Entry],
    cost: u64,
) -> Result<String, AllocError>
    ensures { IfOk result (λ text. string_bytes text
        ≡ fenced_lines is_alone cost (map string_bytes names.now) entries.now) }
{
    let mut text = format!(in alloc; "fenced {}\n", cost)?;
    write_sites(alloc, is_alone, names, entries, &mut text)?;
    Ok(text)
}

/// The line with the name of the file, or nothing where each slot of the one test is a site.
fn file_text(alloc: Global, is_alone: bool, name: &str) -> Result<String, AllocError>
    ensures { IfOk result (λ text. string_bytes text ≡ file_line is_alone name.now) }
{
    if is_alone {
        return Ok(String::new(alloc));
    }
    let name = shown_name(alloc, name)?;
    format!(in alloc; "{}\n", name.as_str())
}

/// The line `none`, below it the name of the file whose outcome is shown, and the witness's text as a line.
fn none_text(
    alloc: Global,
    is_alone: bool,
    name: &str,
    witness: &Witness,
) -> Result<String, AllocError>
    ensures { IfOk result (λ text. string_bytes text ≡ none_lines is_alone name.now witness.now.witness) }
{
    let file = file_text(alloc, is_alone, name)?;
    let witness = witness_text(alloc, &witness.choices, &witness.order)?;
    format!(in alloc; "none\n{}{}\n", file.as_str(), witness.as_str())
}

/// The lines of the answer.
fn lines_text(
    alloc: Global,
    tests: &Tests,
    names: &[String],
    answer: &Answer,
) -> Result<String, AllocError>
    ensures { IfOk result (λ text. string_bytes text ≡ lines_of tests.now (map string_bytes names.now) answer.now) }
{
    let is_alone = is_alone(tests);
    match answer {
        Answer::Fenced { placement, cost } => {
            fenced_text(alloc, is_alone, names, placement.as_slice(), *cost)
        }
        Answer::None { part, witness } => {
            let name = name_at(tests.files.as_slice(), *part);
            none_text(alloc, is_alone, name, witness)
        }
    }
}

// ---- JSON

/// The object of a site's fence.
fn site_value(alloc: Global, name: &str, kind: Kind) -> Result<Value, AllocError>
    ensures { IfOk result (λ value. view value ≡ site_value name.now kind) }
{
    json!(in alloc; {"kind": kind.name(), "site": name})
}

/// Appends the object of the site's fence, where it has one.
fn push_site(
    alloc: Global,
    name: &str,
    kind: Option<Kind>,
    values: &mut Vec<Value>,
) -> Result<(), AllocError>
    ensures { OnOk result (map view values.new.items
        ≡ map view values.old.items ++ site_values name.now kind) }
{
    if let Some(kind) = kind {
        values.push(site_value(alloc, name, kind)?)?;
    }
    Ok(())
}

/// Appends the objects of the fences of the sites of these names, each with the fence of its entry.
fn push_sites(
    alloc: Global,
    names: &[String],
    entries: &[Entry],
    values: &mut Vec<Value>,
) -> Result<(), AllocError>
    ensures { OnOk result (map view values.new.items
        ≡ map view values.old.items ++ sites_values entries.now (map string_bytes names.now)) }
{
    let mut names = names;
    for entry in entries {
        match names.split_first() {
            Some((name, later)) => {
                push_site(alloc, name.as_str(), entry.kind, values)?;
                names = later;
            }
            None => return Ok(()),
        }
    }
    Ok(())
}

/// The array of the sites' fences.
fn sites_value(alloc: Global, names: &[String], entries: &[Entry]) -> Result<Value, AllocError>
    ensures { IfOk result (λ value. view value
        ≡ array_of (sites_values entries.now (map string_bytes names.now))) }
{
    let mut values = Vec::new(alloc);
    push_sites(alloc, names, entries, &mut values)?;
    Ok(Value::from(values))
}

/// The object of fences: that they are an answer, their cost, and those of the sites in order.
fn fenced_value(
    alloc: Global,
    names: &[String],
    entries: &[Entry],
    cost: u64,
) -> Result<Value, AllocError>
    ensures { IfOk result (λ value. view value ≡ fenced_value cost (map string_bytes names.now) entries.now) }
{
    let sites = sites_value(alloc, names, entries)?;
    json!(in alloc; {"answer": "fenced", "cost": cost, "sites": sites})
}

/// The object of an execution of the test in this file.
fn none_value(alloc: Global, name: &str, witness: &Witness) -> Result<Value, AllocError>
    ensures { IfOk result (λ value. view value ≡ none_value name.now witness.now.witness) }
{
    let witness = witness_value(alloc, &witness.choices, &witness.order)?;
    json!(in alloc; {"answer": "none", "file": name, "witness": witness})
}

/// The JSON object of the answer to a question of these tests with sites of these names. The error is want of memory.
pub fn answer_value(
    alloc: Global,
    tests: &Tests,
    names: &[String],
    answer: &Answer,
) -> Result<Value, AllocError>
    ensures { IfOk result (λ value. view value ≡ value_of tests.now (map string_bytes names.now) answer.now) }
{
    match answer {
        Answer::Fenced { placement, cost } => {
            fenced_value(alloc, names, placement.as_slice(), *cost)
        }
        Answer::None { part, witness } => none_value(
            alloc,
            name_at(tests.files.as_slice(), *part),
            witness,
        ),
    }
}

/// The same in print, as a line.
fn object_text(
    alloc: Global,
    tests: &Tests,
    names: &[String],
    answer: &Answer,
) -> Result<String, AllocError>
    ensures { IfOk result (λ text. string_bytes text
        ≡ json_line (value_of tests.now (map string_bytes names.now) answer.now)) }
{
    let value = answer_value(alloc, tests, names, answer)?;
    json_line(alloc, &value)
}

/// The answer in print, to a question of these tests with sites of these names: its lines, or its object. The error is
/// want of memory.
pub fn answer_text(
    alloc: Global,
    tests: &Tests,
    names: &[String],
    answer: &Answer,
    is_json: bool,
) -> Result<String, AllocError>
    ensures { IfOk result (λ text. string_bytes text
        ≡ answer_text is_json tests.now (map string_bytes names.now) answer.now) }
{
    if is_json {
        object_text(alloc, tests, names, answer)
    } else {
        lines_text(alloc, tests, names, answer)
    }
}
