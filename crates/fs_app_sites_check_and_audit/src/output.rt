//! What is printed, and the exit status.

ghost use Rattle.std.specs.Prelude.{◌≡◌, IfOk, string_bytes};
ghost use Rattle.fs_app_sites_check_and_audit.specs.Objects.{shown_text};
ghost use Rattle.fs_app_sites_check_and_audit.specs.Printed.{content_status, found_lines, status_by, status_of};

use crate::findings::{Findings, found_lines};
use crate::lines::{Line, are_content};
use crate::objects::object_text;
use crate::print::audit_text;
use fs_app_io::{Output, Status};
use fs_app_sites::File;
use fs_app_test::Kind;
use fs_sites::Answer;
use std::alloc::{AllocError, Global};

fn content_status(lines: &[Line], answer: &Answer) -> Status
    ensures { result ≡ content_status lines.now answer.now }
{
    match answer {
        Answer::Fenced { .. } => {
            if are_content(lines) {
                Status::Success
            } else {
                Status::Denied
            }
        }
        Answer::None { .. } => Status::Denied,
    }
}

fn status_by(kind: Kind, lines: &[Line], answer: &Answer) -> Status
    ensures { result ≡ status_by kind lines.now answer.now }
{
    match kind {
        Kind::Vacuous => Status::Vacuous,
        Kind::Forbidden => content_status(lines, answer),
        _ => Status::Denied,
    }
}

/// The lines, or the object.
fn shown_text(
    alloc: Global,
    files: &[File],
    findings: &Findings,
    lines: &[Line],
    is_json: bool,
) -> Result<String, AllocError>
    requires { lines.now ≡ found_lines findings.now }
    ensures { IfOk result (λ text. string_bytes text ≡ shown_text is_json files.now findings.now) }
{
    if is_json {
        object_text(alloc, files, findings, lines)
    } else {
        audit_text(alloc, files, findings, lines)
    }
}

/// What is printed of what was found in these files: lines, or a JSON object in a line. Fails only for want of memory.
pub(crate) fn printed(
    alloc: Global,
    files: &[File],
    findings: &Findings,
    is_json: bool,
) -> Result<Output, AllocError>
    ensures text { IfOk result (λ output. string_bytes output.text ≡ shown_text is_json files.now findings.now) }
    ensures status { IfOk result (λ output. output.status ≡ status_of findings.now) }
{
    let lines = found_lines(alloc, findings)?;
    let text = shown_text(alloc, files, findings, &lines, is_json)?;
    let status = status_by(findings.kind, &lines, &findings.found);
    Ok(Output { text, status })
}
