//! What is printed of files.

ghost use Rattle.std.specs.Prelude.{◌≡◌, ◌++◌, [], codes, count_by, length, max, IfOk, OnOk, IsOkUnless, map};
ghost use Rattle.std.specs.Prelude.{string_bytes};
ghost use Rattle.std.specs.List.{flat_map};
ghost use Rattle.fs_kinds.specs.declared.fault.Fault.TheVariants.{Memory};
ghost use Rattle.fs_model.specs.Printed.{joined};
ghost use Rattle.fs_app_test.specs.Status.{is_met, report_status};
ghost use Rattle.fs_app_test.specs.Report.{width, kind_text, label, line_text, count_of, count_text, mark};
ghost use Rattle.fs_app_test.specs.Report.{count_piece, expected_text, met_text, pieces, summary, report_text};
ghost use Rattle.fs_app_test.specs.Report.{unmet_text, wanted_text};

use crate::status::is_met;
use crate::{Expected, Kind, Line, counted, status_of};
use fs_app_error_messages::shown_name;
use fs_app_io::Output;
use fs_kinds::Fault;
use fs_report::padded;
use std::alloc::{AllocError, Global};

/// The lines of the files, a last line that counts them, and the status: 1 where an outcome is possible; else 2 where a
/// file has a fault; else 4 where an outcome is vacuous; else 0. Where something is expected of all, a line that isn't
/// as expected says what was, the last line counts those that are, and the status is 1 where one isn't, else 0. The
/// error is `Memory`.
pub fn test_report(alloc: Global, lines: &[Line], expects: bool) -> Result<Output, Fault>
    ensures text { IfOk result (λ output. string_bytes output.text ≡ report_text expects lines.now) }
    ensures status { IfOk result (λ output. output.status ≡ report_status expects lines.now) }
    ensures err { IsOkUnless result Memory }
{
    let mut text = lines_text(alloc, lines, expects)?;
    let summary = summary(alloc, lines, expects)?;
    text.push_str(summary.as_str())?;
    Ok(Output {
        text,
        status: status_of(lines, expects),
    })
}

/// The characters of the longest name, as it is shown.
fn width(alloc: Global, lines: &[Line]) -> Result<usize, AllocError>
    ensures { IfOk result (λ most. most ≡ width lines.now) }
{
    let mut most = 0;
    for line in lines {
        let name = shown_name(alloc, line.name.as_str())?;
        most = most.max(name.len());
    }
    Ok(most)
}

/// All lines but the last one.
fn lines_text(alloc: Global, lines: &[Line], expects: bool) -> Result<String, AllocError>
    ensures { IfOk result (λ text. string_bytes text ≡ flat_map (line_text expects (width lines.now)) lines.now) }
{
    let width = width(alloc, lines)?;
    let mut text = String::new(alloc);
    for line in lines {
        write_line(alloc, width, line, expects, &mut text)?;
    }
    Ok(text)
}

/// Appends the line of a file, with its name in so many characters.
fn write_line(
    alloc: Global,
    width: usize,
    line: &Line,
    expects: bool,
    text: &mut String,
) -> Result<(), AllocError>
    ensures { OnOk result (string_bytes text.new ≡ string_bytes text.old ++ line_text expects width line.now) }
{
    let shown = shown_name(alloc, line.name.as_str())?;
    let name = padded(alloc, width, shown.as_str())?;
    let label = label(line.said.kind);
    writeln!(
        text,
        "{}  {}{}{}",
        name.as_str(),
        label,
        line.said.why.as_str(),
        mark(line, expects)
    )
}

/// What stands behind why, where something is expected.
fn mark(line: &Line, expects: bool) -> &'static str
    ensures { result.now ≡ mark expects line.now }
{
    if expects { unmet_text(line) } else { "" }
}

/// What was expected, where it isn't what is said.
fn unmet_text(line: &Line) -> &'static str
    ensures { result.now ≡ unmet_text line.now }
{
    if is_met(line) {
        ""
    } else {
        expected_text(line.expected)
    }
}

fn expected_text(expected: Option<Expected>) -> &'static str
    ensures { result.now ≡ expected_text expected }
{
    match expected {
        None => ", nothing expected",
        Some(Expected::Verdict(kind)) => wanted_text(kind),
        Some(Expected::Unclear) => ", unclear what is expected",
    }
}

fn wanted_text(kind: Kind) -> &'static str
    ensures { result.now ≡ wanted_text kind }
{
    match kind {
        Kind::Forbidden => ", expected forbidden",
        Kind::Allowed => ", expected allowed",
        Kind::Vacuous => ", expected vacuous",
        Kind::Faulty => ", expected fault",
    }
}

/// The kind in a word.
pub fn kind_text(kind: Kind) -> &'static str
    ensures { result.now ≡ kind_text kind }
{
    match kind {
        Kind::Forbidden => "forbidden",
        Kind::Allowed => "allowed",
        Kind::Vacuous => "vacuous",
        Kind::Faulty => "fault",
    }
}

/// What stands before why.
fn label(kind: Kind) -> &'static str
    ensures { result.now ≡ label kind }
{
    match kind {
        Kind::Forbidden => "forbidden  ",
        Kind::Allowed => "allowed    ",
        Kind::Vacuous => "vacuous    ",
        Kind::Faulty => "",
    }
}

/// How many of the lines are of the kind.
fn count_of(kind: Kind, lines: &[Line]) -> usize
    ensures { result ≡ count_of kind lines.now }
{
    lines.iter().filter(|line| kind == line.said.kind).count()
}

/// That so many are of the kind.
fn count_text(alloc: Global, kind: Kind, count: usize) -> Result<String, AllocError>
    ensures { IfOk result (λ text. string_bytes text ≡ count_text kind count) }
{
    match kind {
        Kind::Forbidden => format!(in alloc; "{} forbidden", count),
        Kind::Allowed => format!(in alloc; "{} allowed", count),
        Kind::Vacuous => format!(in alloc; "{} vacuous", count),
        Kind::Faulty => counted(alloc, count, "fault"),
    }
}

/// Appends how many lines are of the kind, if any are.
fn push_count(
    alloc: Global,
    kind: Kind,
    lines: &[Line],
    pieces: &mut Vec<String>,
) -> Result<(), AllocError>
    ensures { OnOk result (map string_bytes pieces.new.items
        ≡ map string_bytes pieces.old.items ++ count_piece lines.now kind) }
{
    let count = count_of(kind, lines);
    if count != 0 {
        pieces.push(count_text(alloc, kind, count)?)?;
    }
    Ok(())
}

/// How many lines are of each kind, of which there are any.
fn pieces(alloc: Global, lines: &[Line]) -> Result<Vec<String>, AllocError>
    ensures { IfOk result (λ made. map string_bytes made.items ≡ pieces lines.now) }
{
    let mut pieces = Vec::new(alloc);
    push_count(alloc, Kind::Forbidden, lines, &mut pieces)?;
    push_count(alloc, Kind::Allowed, lines, &mut pieces)?;
    push_count(alloc, Kind::Vacuous, lines, &mut pieces)?;
    push_count(alloc, Kind::Faulty, lines, &mut pieces)?;
    Ok(pieces)
}

/// The same in one text.
fn joined_pieces(alloc: Global, lines: &[Line]) -> Result<String, AllocError>
    ensures { IfOk result (λ text. string_bytes text ≡ joined (codes ", ") (pieces lines.now)) }
{
    let pieces = pieces(alloc, lines)?;
    pieces.join(alloc, ", ")
}

/// How many lines are as expected, where something is expected.
fn met_text(alloc: Global, lines: &[Line], expects: bool) -> Result<String, AllocError>
    ensures { IfOk result (λ text. string_bytes text ≡ met_text expects lines.now) }
{
    if !expects {
        return Ok(String::new(alloc));
    }
    let count = count_met(lines);
    format!(in alloc; "; {} as expected", count)
}

fn count_met(lines: &[Line]) -> usize
    ensures { result ≡ count_by is_met lines.now }
{
    lines.iter().filter(|line| is_met(line)).count()
}

/// The last line.
fn summary(alloc: Global, lines: &[Line], expects: bool) -> Result<String, AllocError>
    ensures { IfOk result (λ text. string_bytes text ≡ summary expects lines.now) }
{
    let tests = counted(alloc, lines.len(), "test")?;
    let pieces = joined_pieces(alloc, lines)?;
    let met = met_text(alloc, lines, expects)?;
    format!(in alloc; "{}: {}{}\n", tests.as_str(), pieces.as_str(), met.as_str())
}
