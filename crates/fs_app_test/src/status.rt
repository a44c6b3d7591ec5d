//! The exit status.

ghost use Rattle.std.specs.Prelude.{◌≡◌};
ghost use Rattle.fs_app_test.specs.Status.{has, has_unmet, is_met, is_unmet, meets, report_status, verdict_status};

use crate::said::{Expected, Kind, Line};
use fs_app_io::Status;

/// Is some line of the kind?
fn has(kind: Kind, lines: &[Line]) -> bool
    ensures { result ≡ has kind lines.now }
{
    lines.iter().any(|line| kind == line.said.kind)
}

/// Is this what was expected?
fn meets(expected: Option<Expected>, kind: Kind) -> bool
    ensures { result ≡ meets expected kind }
{
    match expected {
        Some(Expected::Verdict(wanted)) => wanted == kind,
        _ => false,
    }
}

/// Is what is said of the file what was expected?
pub(crate) fn is_met(line: &Line) -> bool
    ensures { result ≡ is_met line.now }
{
    meets(line.expected, line.said.kind)
}

fn is_unmet(line: &Line) -> bool
    ensures { result ≡ is_unmet line.now }
{
    !is_met(line)
}

/// Is some line not as expected?
fn has_unmet(lines: &[Line]) -> bool
    ensures { result ≡ has_unmet lines.now }
{
    lines.iter().any(|line| is_unmet(line))
}

/// The exit status: 1 where an outcome is possible; else 2 where a file has a fault; else 4 where an outcome is
/// vacuous; else 0. Where something is expected of all: 1 where a line isn't as expected, else 0.
pub fn status_of(lines: &[Line], expects: bool) -> Status
    ensures { result ≡ report_status expects lines.now }
{
    if !expects {
        verdict_status(lines)
    } else if has_unmet(lines) {
        Status::Denied
    } else {
        Status::Success
    }
}

/// The status where nothing is expected.
fn verdict_status(lines: &[Line]) -> Status
    ensures { result ≡ verdict_status lines.now }
{
    if has(Kind::Allowed, lines) {
        Status::Denied
    } else if has(Kind::Faulty, lines) {
        Status::Failure
    } else if has(Kind::Vacuous, lines) {
        Status::Vacuous
    } else {
        Status::Success
    }
}
