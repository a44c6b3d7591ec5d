//! From a file to what is said of it.

ghost use Rattle.std.specs.Prelude.{◌≡◌, Some, IfOk, IfErr, IsOkUnless, string_bytes};
ghost use Rattle.fs_kinds.specs.FaultLine.{fault_line};
ghost use Rattle.fs_kinds.specs.declared.fault.Fault.TheVariants.{Memory};
ghost use Rattle.fs_model.specs.Test.{IsTest};
ghost use Rattle.fs_app_test.specs.SaidVerdicts.{witness_in};
ghost use Rattle.fs_app_test.specs.Verdicts.{IsTested, IsFirstTestFault, NamesFault, SaysOfBytes, SaysOfFile};

use crate::judged::judge;
use crate::{Kind, Line, Said};
use fs_kinds::Fault;
use fs_litmus::read_test;
use std::alloc::{AllocError, Global};

/// What is said of the file of this name: whether its test, as it is written and with no fence placed, can show its
/// outcome, and why; or the first fault. The file is its bytes as they were read, or the fault of reading it. A hunt may
/// make so many inferences. The line has no note, and nothing is expected.
///
/// The first fault of a file in this order: those of a test file by number and then line; `TooManyTraces` and `Astray`;
/// `TooManyCandidates`, as of `judge_test`. The error is `Memory`. The cost is that of `read_test` and of `judge_test`.
pub fn test_file(
    alloc: Global,
    name: &str,
    file: Result<Vec<u8>, Fault>,
    inferences: usize,
) -> Result<Line, Fault>
    ensures name { IfOk result (λ line. string_bytes line.name ≡ name.now) }
    ensures said { IfOk result
        (λ line. SaysOfFile file line.said.kind (string_bytes line.said.why) (witness_in line.said.witness)) }
    ensures err { IsOkUnless result Memory }
{
    let said = said_of(alloc, file, inferences)?;
    let name = String::from_str(alloc, name)?;
    Ok(Line {
        name,
        said,
        note: None,
        expected: None,
    })
}

/// The same without its name.
fn said_of(alloc: Global, file: Result<Vec<u8>, Fault>, inferences: usize) -> Result<Said, Fault>
    ensures ok { IfOk result (λ said. SaysOfFile file said.kind (string_bytes said.why) (witness_in said.witness)) }
    ensures err { IsOkUnless result Memory }
{
    match file {
        Ok(bytes) => test_bytes(alloc, &bytes, inferences),
        Err(fault) => faulty(alloc, fault),
    }
}

/// The same of the bytes of a file.
fn test_bytes(alloc: Global, bytes: &[u8], inferences: usize) -> Result<Said, Fault>
    ensures ok { IfOk result
        (λ said. SaysOfBytes bytes.now said.kind (string_bytes said.why) (witness_in said.witness)) }
    ensures err { IsOkUnless result Memory }
{
    match judge_bytes(alloc, bytes, inferences) {
        Ok(said) => Ok(said),
        Err(fault) => faulty(alloc, fault),
    }
}

/// What is said of the test that the bytes are, or the first fault.
fn judge_bytes(alloc: Global, bytes: &[u8], inferences: usize) -> Result<Said, Fault>
    ensures ok { IfOk result (λ said. IsTested bytes.now said.kind (string_bytes said.why) (witness_in said.witness)) }
    ensures fault { IfErr result (IsFirstTestFault bytes.now) }
{
    let test = read_test(alloc, bytes)?;
    judge(alloc, test, inferences)
}

/// That it has this fault. Where that is want of memory, so is the error.
fn faulty(alloc: Global, fault: Fault) -> Result<Said, Fault>
    ensures ok { IfOk result (λ said. NamesFault fault said.kind (string_bytes said.why) (witness_in said.witness)) }
    ensures fault { IfOk result (λ said. said.fault ≡ Some fault) }
    ensures err { IsOkUnless result Memory }
{
    match fault {
        Fault::Memory => Err(Fault::Memory),
        _ => Ok(Said {
            kind: Kind::Faulty,
            why: fault_text(alloc, fault)?,
            witness: None,
            fault: Some(fault),
        }),
    }
}

/// The line of the fault, without its end.
fn fault_text(alloc: Global, fault: Fault) -> Result<String, AllocError>
    ensures { IfOk result (λ text. string_bytes text ≡ fault_line fault) }
{
    format!(in alloc; "{}", fault)
}
