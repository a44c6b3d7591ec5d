//! What `audit --sites` finds as JSON.

ghost use Rattle.std.specs.Prelude.{◌≡◌, IfOk, map, string_bytes};
ghost use Rattle.serde_json.specs.View.{view};
ghost use Rattle.fs_cert_evidence.specs.Texts.{array_of};
ghost use Rattle.fs_report.specs.Objects.{json_line};
ghost use Rattle.fs_app_sites_check_and_audit.specs.Printed.{found_lines};
ghost use Rattle.fs_app_sites_check_and_audit.specs.Objects.{audit_value, fenced_value, line_value, lines_value, none_value};
ghost use Rattle.fs_app_sites_check_and_audit.specs.Objects.{row_value};

use crate::findings::Findings;
use crate::lines::Line;
use crate::marks::Row;
use crate::print::{fence_text, file_name, said_text, site_name};
use fs_app_audit::advised_kind;
use fs_app_sites::File;
use fs_app_test::{Kind as Verdict, kind_text};
use fs_cert_evidence::Witness;
use fs_report::{json_line, kind_or_null, number_or_null, witness_value};
use fs_sites::Answer;
use serde_json::{Value, json};
use std::alloc::{AllocError, Global};

// ---- a line of a site

/// The object of a line of a file.
fn row_value(alloc: Global, files: &[File], row: &Row) -> Result<Value, AllocError>
    ensures { IfOk result (λ value. view value ≡ row_value files.now row.now) }
{
    json!(in alloc; {"file": file_name(files, row.file), "line": Value::from(row.line)})
}

/// The array of lines of files.
fn rows_value(alloc: Global, files: &[File], rows: &[Row]) -> Result<Value, AllocError>
    ensures { IfOk result (λ value. view value ≡ array_of (map (row_value files.now) rows.now)) }
{
    let mut values = Vec::new(alloc);
    for row in rows {
        values.push(row_value(alloc, files, row)?)?;
    }
    Ok(Value::from(values))
}

/// The object of what is said of the copies of a site that have the same fence.
fn line_value(
    alloc: Global,
    files: &[File],
    names: &[String],
    line: &Line,
) -> Result<Value, AllocError>
    ensures { IfOk result (λ value. view value ≡ line_value files.now (map string_bytes names.now) line.now) }
{
    let advised = kind_or_null(alloc, advised_kind(line.fence, line.advice))?;
    let advice = said_text(alloc, line.advice)?;
    let places = rows_value(alloc, files, line.rows.as_slice())?;
    json!(in alloc; {
        "advised": advised,
        "places": places,
        "says": advice.as_str(),
        "site": site_name(names, line.site),
        "written": fence_text(line.fence),
    })
}

/// The array of the lines of sites.
fn lines_value(
    alloc: Global,
    files: &[File],
    names: &[String],
    lines: &[Line],
) -> Result<Value, AllocError>
    ensures { IfOk result (λ value. view value ≡ lines_value files.now (map string_bytes names.now) lines.now) }
{
    let mut values = Vec::new(alloc);
    for line in lines {
        values.push(line_value(alloc, files, names, line)?)?;
    }
    Ok(Value::from(values))
}

// ---- the whole

/// The object of fences that rule the outcomes out, with the array of the lines of sites.
fn fenced_value(
    alloc: Global,
    cheapest: u64,
    lines: Value,
    kind: Verdict,
    written: Option<u64>,
) -> Result<Value, AllocError>
    ensures { IfOk result (λ value. view value ≡ fenced_value cheapest (view lines) kind written) }
{
    json!(in alloc; {
        "cheapest": cheapest,
        "lines": lines,
        "verdict": kind_text(kind),
        "written": number_or_null(written),
    })
}

/// The object of an execution of the test in this file that no fences rule out.
fn none_value(
    alloc: Global,
    name: &str,
    witness: &Witness,
    kind: Verdict,
    written: Option<u64>,
) -> Result<Value, AllocError>
    ensures { IfOk result (λ value. view value ≡ none_value name.now witness.now.witness kind written) }
{
    let witness = witness_value(alloc, &witness.choices, &witness.order)?;
    json!(in alloc; {
        "cheapest": null,
        "file": name,
        "verdict": kind_text(kind),
        "witness": witness,
        "written": number_or_null(written),
    })
}

/// The object of what was found in these files, of which these are the lines.
fn audit_value(
    alloc: Global,
    files: &[File],
    findings: &Findings,
    lines: &[Line],
) -> Result<Value, AllocError>
    requires { lines.now ≡ found_lines findings.now }
    ensures { IfOk result (λ value. view value ≡ audit_value files.now findings.now) }
{
    let kind = findings.kind;
    let written = findings.written;
    match &findings.found {
        Answer::Fenced { cost, .. } => {
            let lines = lines_value(alloc, files, &findings.names, lines)?;
            fenced_value(alloc, *cost, lines, kind, written)
        }
        Answer::None { part, witness } => {
            none_value(alloc, file_name(files, *part), witness, kind, written)
        }
    }
}

/// The same in print, as a line. Fails only for want of memory.
pub(crate) fn object_text(
    alloc: Global,
    files: &[File],
    findings: &Findings,
    lines: &[Line],
) -> Result<String, AllocError>
    requires { lines.now ≡ found_lines findings.now }
    ensures { IfOk result (λ text. string_bytes text ≡ json_line (audit_value files.now findings.now)) }
{
    let value = audit_value(alloc, files, findings, lines)?;
    json_line(alloc, &value)
}
