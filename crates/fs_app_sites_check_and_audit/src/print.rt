//! What `audit --sites` prints in lines.

ghost use Rattle.std.specs.Prelude.{◌≡◌, ◌++◌, [], IfOk, OnOk, map, string_bytes};
ghost use Rattle.std.specs.List.{flat_map, slice_index_or};
ghost use Rattle.fs_app_sites_check_and_audit.specs.Printed.{audit_text, below, cheapest_text, fence_text, first_line};
ghost use Rattle.fs_app_sites_check_and_audit.specs.Printed.{found_lines, line_text, row_text, shown_lines, width};
ghost use Rattle.fs_app_sites_check_and_audit.specs.Printed.{written_text};
ghost use Rattle.fs_app_sites.specs.Printed.{name_at};
ghost use Rattle.fs_report.specs.Cells.{padded};
ghost use Rattle.fs_app_audit.specs.Report.{advice_text};
ghost use Rattle.fs_instr.specs.declared.instr.Instr.TheVariants.{FenceTso};

use crate::findings::Findings;
use crate::lines::Line;
use crate::marks::Row;
use fs_app_audit::{Advice, advice_text};
use fs_app_error_messages::shown_name;
use fs_app_sites::File;
use fs_app_test::{Kind as Verdict, kind_text};
use fs_cert_evidence::Witness;
use fs_instr::Instr;
use fs_kinds::Kind;
use fs_report::{padded, witness_text};
use fs_sites::Answer;
use std::alloc::{AllocError, Global};

/// The bytes that the letters of a FENCE take, and what is advised.
const FENCE_WIDTH: usize = 5;

const ADVICE_WIDTH: usize = 16;

// ---- the first line

/// What the FENCEs cost, where copies agree.
fn written_text(alloc: Global, written: Option<u64>) -> Result<String, AllocError>
    ensures { IfOk result (λ text. string_bytes text ≡ written_text written) }
{
    match written {
        Some(cost) => format!(in alloc; ", {}", cost),
        None => format!(in alloc; ", copies differ"),
    }
}

fn cheapest_text(alloc: Global, answer: &Answer) -> Result<String, AllocError>
    ensures { IfOk result (λ text. string_bytes text ≡ cheapest_text answer.now) }
{
    match answer {
        Answer::Fenced { cost, .. } => format!(in alloc; "cheapest {}", *cost),
        Answer::None { .. } => format!(in alloc; "no fences rule it out"),
    }
}

/// The first line: such as `forbidden as written, 9; cheapest 7`.
fn first_line(
    alloc: Global,
    kind: Verdict,
    written: Option<u64>,
    answer: &Answer,
) -> Result<String, AllocError>
    ensures { IfOk result (λ text. string_bytes text ≡ first_line kind written answer.now) }
{
    let written = written_text(alloc, written)?;
    let cheapest = cheapest_text(alloc, answer)?;
    format!(in alloc;
        "{} as written{}; {}\n",
        kind_text(kind),
        written.as_str(),
        cheapest.as_str()
    )
}

// ---- a line of a site

pub(crate) fn fence_text(fence: Option<Kind>) -> &'static str
    ensures { result.now ≡ fence_text fence }
{
    match fence {
        Some(kind) => kind.name(),
        None => "none",
    }
}

/// The bytes of the longest name.
fn width(names: &[String]) -> usize
    ensures { result ≡ width (map string_bytes names.now) }
{
    let mut most = 0;
    for name in names {
        most = most.max(name.len());
    }
    most
}

pub(crate) fn site_name(names: &[String], site: usize) -> &str
    ensures { result.now ≡ slice_index_or (map string_bytes names.now) site [] }
{
    match names.get(site) {
        Some(name) => name.as_str(),
        None => "",
    }
}

pub(crate) fn file_name(files: &[File], number: usize) -> &str
    ensures { result.now ≡ name_at files.now number }
{
    match files.get(number) {
        Some(file) => file.name.as_str(),
        None => "",
    }
}

/// The name of the site, padded.
fn site_cell(alloc: Global, names: &[String], site: usize) -> Result<String, AllocError>
    ensures { IfOk result (λ text. string_bytes text ≡ padded (width (map string_bytes names.now))
        (slice_index_or (map string_bytes names.now) site [])) }
{
    padded(alloc, width(names), site_name(names, site))
}

/// The letters of the FENCE, padded.
fn fence_cell(alloc: Global, fence: Option<Kind>) -> Result<String, AllocError>
    ensures { IfOk result (λ text. string_bytes text ≡ padded 5 (fence_text fence)) }
{
    padded(alloc, FENCE_WIDTH, fence_text(fence))
}

/// Appends the file and the line.
fn write_row(alloc: Global, files: &[File], row: &Row, text: &mut String) -> Result<(), AllocError>
    ensures { OnOk result (string_bytes text.new ≡ string_bytes text.old ++ row_text files.now row.now) }
{
    let name = shown_name(alloc, file_name(files, row.file))?;
    write!(text, " {}:{}", name.as_str(), row.line)
}

/// The files and lines.
fn rows_text(alloc: Global, files: &[File], rows: &[Row]) -> Result<String, AllocError>
    ensures { IfOk result (λ text. string_bytes text ≡ flat_map (row_text files.now) rows.now) }
{
    let mut text = String::new(alloc);
    for row in rows {
        write_row(alloc, files, row, &mut text)?;
    }
    Ok(text)
}

/// What is advised of memory, as of a FENCE that names no devices.
pub(crate) fn said_text(alloc: Global, advice: Advice) -> Result<String, AllocError>
    ensures { IfOk result (λ text. string_bytes text ≡ advice_text FenceTso advice) }
{
    advice_text(alloc, Instr::FenceTso, advice)
}

/// The same, padded.
fn advice_cell(alloc: Global, advice: Advice) -> Result<String, AllocError>
    ensures { IfOk result (λ text. string_bytes text ≡ padded 16 (advice_text FenceTso advice)) }
{
    let text = said_text(alloc, advice)?;
    padded(alloc, ADVICE_WIDTH, text.as_str())
}

/// The site, the fence, what is advised, and where copies have the fence.
fn line_text(
    alloc: Global,
    files: &[File],
    names: &[String],
    line: &Line,
) -> Result<String, AllocError>
    ensures { IfOk result (λ text. string_bytes text ≡ line_text files.now (map string_bytes names.now) line.now) }
{
    let site = site_cell(alloc, names, line.site)?;
    let fence = fence_cell(alloc, line.fence)?;
    let advice = advice_cell(alloc, line.advice)?;
    let rows = rows_text(alloc, files, line.rows.as_slice())?;
    format!(in alloc;
        "{}  {}  {}{}\n",
        site.as_str(),
        fence.as_str(),
        advice.as_str(),
        rows.as_str()
    )
}

/// All lines of sites.
fn lines_text(
    alloc: Global,
    files: &[File],
    names: &[String],
    lines: &[Line],
) -> Result<String, AllocError>
    ensures { IfOk result (λ text. string_bytes text
        ≡ flat_map (line_text files.now (map string_bytes names.now)) lines.now) }
{
    let mut text = String::new(alloc);
    for line in lines {
        let said = line_text(alloc, files, names, line)?;
        text.push_str(said.as_str())?;
    }
    Ok(text)
}

// ---- the whole

/// The name of the file whose outcome can't be ruled out, and the witness's text.
fn witness_lines(alloc: Global, name: &str, witness: &Witness) -> Result<String, AllocError>
    ensures { IfOk result (λ text. string_bytes text ≡ shown_lines name.now witness.now.witness) }
{
    let name = shown_name(alloc, name)?;
    let witness = witness_text(alloc, &witness.choices, &witness.order)?;
    format!(in alloc; "{}\n{}\n", name.as_str(), witness.as_str())
}

/// What stands below the first line.
fn below(
    alloc: Global,
    files: &[File],
    names: &[String],
    lines: &[Line],
    answer: &Answer,
) -> Result<String, AllocError>
    ensures { IfOk result (λ text. string_bytes text
        ≡ below files.now (map string_bytes names.now) lines.now answer.now) }
{
    match answer {
        Answer::Fenced { .. } => lines_text(alloc, files, names, lines),
        Answer::None { part, witness } => witness_lines(alloc, file_name(files, *part), witness),
    }
}

/// What is printed of what was found in these files, of which these are the lines. Fails only for want of memory.
pub(crate) fn audit_text(
    alloc: Global,
    files: &[File],
    findings: &Findings,
    lines: &[Line],
) -> Result<String, AllocError>
    requires { lines.now ≡ found_lines findings.now }
    ensures { IfOk result (λ text. string_bytes text ≡ audit_text files.now findings.now) }
{
    let found = &findings.found;
    let mut text = first_line(alloc, findings.kind, findings.written, found)?;
    let below = below(alloc, files, &findings.names, lines, found)?;
    text.push_str(below.as_str())?;
    Ok(text)
}
