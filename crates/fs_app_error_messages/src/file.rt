//! What is said of the fault of a test file.

ghost use Rattle.std.specs.Prelude.{◌≡◌, ◌+◌, ◌≤◌, length, IfOk, IfSome, IsNone, string_bytes};
ghost use Rattle.fs_kinds.specs.declared.fault.Fault.{Fault};
ghost use Rattle.fs_litmus.specs.Faults.{HasFault, IsTestFault};
ghost use Rattle.fs_app_error_messages.specs.Explained.{IsMessage, IsToldOf, offset_of};

use crate::bindings::{atom_words, columns_of, entry_words};
use crate::first::first_fault;
use crate::hints::{Spot, label_words, mnemonic_words, syntax_words};
use crate::message::message;
use crate::point::{Point, point_of};
use crate::slices::from;
use crate::title::{body_start, title_start};
use crate::walk::{begins, is_blank};
use fs_kinds::{Fault, Limit};
use fs_litmus_tokens::tokens;
use std::alloc::{AllocError, Global};

/// The offset of a point.
pub(crate) fn offset_of(point: Point) -> usize
    ensures { result ≡ offset_of point }
{
    match point {
        Point::Token(_, offset) => offset,
        Point::Byte(offset) => offset,
    }
}

fn limit_words(what: Limit) -> &'static str {
    match what {
        Limit::Harts => "a test has at most 8 harts",
        Limit::Instructions => "a hart has at most 32 instructions",
        Limit::Accesses => "a test has at most 48 memory instructions",
        Limit::Locations => "a test has at most 8 locations; the condition's count too",
        Limit::Depth => "a condition is at most 64 deep",
    }
}

/// What is said of a fault that no token is named for.
fn whole_words(fault: Fault) -> &'static str {
    match fault {
        Fault::TooBig { what } => limit_words(what),
        Fault::TooManyTraces =>
            "a hart has more than 100,000 runs: leave loads out, or words that they may return",
        Fault::Astray { .. } =>
            "a run comes to this instruction with an address of no location: see the initial values, as `0:x6=x;`",
        Fault::TooManyCandidates =>
            "there are more candidates, states or lists of runs than may be looked at: leave accesses out; \
            where a hunt gave up a larger `--work` may help",
        Fault::NodeLimit => "the search came to its end: `--nodes` says how far it may go",
        Fault::ReadFault =>
            "it can't be opened or read, or is longer than a test may be, 1,048,576 bytes",
        Fault::Memory => "memory ran out",
        _ => "no more is known",
    }
}

/// What is said of a text whose first line is no title.
fn title_words(text: &[u8]) -> &'static str {
    if begins(b'C', text) && begins(b' ', from(text, 1)) {
        return "a C test: `scripts/from-c` prints it as a RISC-V test";
    }
    match text.first() {
        Some(byte) if *byte == 0xef =>
            "a byte order mark, or another character, stands before `RISCV`",
        Some(byte) if *byte == b'(' => "a comment above the title ends in a line of its own",
        Some(byte) if is_blank(*byte) => "the title begins in the first column of its line",
        _ => "expected `RISCV`, a blank and a name, below blank lines and comments alone",
    }
}

/// What is said of a fault that has a token, in a file whose initial values begin at this offset, in this line.
fn token_words(
    alloc: Global,
    bytes: &[u8],
    start: (usize, usize),
    fault: Fault,
    point: Option<Point>,
) -> Result<&'static str, AllocError>
    requires few { start.1 ≤ start.0 + 1 }
    requires within { start.0 ≤ length bytes.now }
{
    let (tokens, closed) = tokens(alloc, from(bytes, start.0), start.1)?;
    let number = match point {
        Some(Point::Token(number, _)) => number,
        _ => tokens.len(),
    };
    let spot = Spot {
        tokens: &tokens,
        number,
    };
    match fault {
        Fault::Syntax { .. } => syntax_words(alloc, spot, closed),
        Fault::UnknownInstr { .. } => Ok(mnemonic_words(spot)),
        Fault::BadAnnotation { .. } => Ok("left out: write `.aqrl`, or no suffix and a fence"),
        Fault::BadLabel { .. } => Ok(label_words(spot)),
        Fault::BadInit { .. } => Ok(entry_words(columns_of(alloc, &tokens)?, spot)),
        Fault::BadCondition => Ok(atom_words(columns_of(alloc, &tokens)?, spot)),
        _ => Ok(whole_words(fault)),
    }
}

/// What is said of a fault of a test file.
pub(crate) fn hint_of(
    alloc: Global,
    bytes: &[u8],
    fault: Fault,
    point: Option<Point>,
) -> Result<&'static str, AllocError> {
    match fault {
        Fault::BadUtf8 => Ok("this byte isn't UTF-8"),
        Fault::NotRiscv => Ok(title_words(from(bytes, title_start(bytes)))),
        Fault::Syntax { .. }
        | Fault::UnknownInstr { .. }
        | Fault::BadAnnotation { .. }
        | Fault::BadLabel { .. }
        | Fault::BadInit { .. }
        | Fault::BadCondition => match body_start(bytes) {
            Some(start) => token_words(alloc, bytes, start, fault, point),
            None => Ok("no line below the title's begins with `{`"),
        },
        _ => Ok(whole_words(fault)),
    }
}

/// What is said of the fault of a test file beside its line: the file's name, the fault's line and column, both from 1
/// on, where it has them, and the fault; the line of the file, cut where it is long, with `?` for each character that
/// ASCII doesn't print; a caret below the place, and what was expected, or what isn't read. A column counts
/// characters. Linear in the bytes. Fails only for want of memory.
pub fn explain(alloc: Global, name: &str, bytes: &[u8], fault: Fault) -> Result<String, AllocError>
    ensures { IfOk result (λ text. IsMessage name.now bytes.now fault (string_bytes text)) }
{
    let point = point_of(alloc, bytes, fault)?;
    let hint = hint_of(alloc, bytes, fault, point)?;
    match point {
        Some(point) => message(alloc, name, bytes, fault, Some(offset_of(point)), hint),
        None => message(alloc, name, bytes, fault, None, hint),
    }
}

/// What is said of the first fault of a test file, as `explain` says it; nothing where it has none.
pub fn explain_test(alloc: Global, name: &str, bytes: &[u8]) -> Result<Option<String>, AllocError>
    ensures told { IfOk result (λ o. IfSome o (λ text. IsToldOf name.now bytes.now (string_bytes text))) }
    ensures absent { IfOk result (λ o. IsNone o → (f : Fault) → ¬ HasFault bytes.now f) }
{
    match first_fault(alloc, bytes)? {
        Some(fault) => Ok(Some(told_of(alloc, name, bytes, fault)?)),
        None => Ok(None),
    }
}

/// What is said of the first fault of a test file.
fn told_of(alloc: Global, name: &str, bytes: &[u8], fault: Fault) -> Result<String, AllocError>
    requires { IsTestFault bytes.now fault }
    ensures { IfOk result (λ text. IsToldOf name.now bytes.now (string_bytes text)) }
{
    let text = explain(alloc, name, bytes, fault)?;
    Ok(text)
}
