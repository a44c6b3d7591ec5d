//! Faults as JSON.

ghost use Rattle.std.specs.Prelude.{IfOk, IfSome, string_bytes};
ghost use Rattle.fs_app_test.specs.FaultObjects.{IsFaultObject};

use crate::objects::test_objects;
use crate::papers::Papers;
use crate::said::Note;
use crate::tested::test_file;
use fs_kinds::Fault;
use std::alloc::Global;

/// The object of a fault that ended the run, in a line, as `test` has it of a file. None where the fault has no message.
/// The error is F19.
pub fn fault_object(
    alloc: Global,
    fault: Fault,
    papers: &Papers<'_>,
) -> Result<Option<String>, Fault>
    ensures { IfOk result (λ o. IfSome o (λ text. IsFaultObject fault (string_bytes text))) }
{
    match papers.noted(alloc, fault)? {
        Some(noted) => Ok(Some(object_of(alloc, noted.file, fault, noted.note)?)),
        None => Ok(None),
    }
}

/// The object of the fault of this file, with the note.
fn object_of(alloc: Global, file: &str, fault: Fault, note: Note) -> Result<String, Fault>
    ensures { IfOk result (λ text. IsFaultObject fault (string_bytes text)) }
{
    let mut line = test_file(alloc, file, Err(fault), 0)?;
    line.note = Some(note);
    let mut lines = Vec::new(alloc);
    lines.push(line)?;
    let output = test_objects(alloc, &lines, false)?;
    Ok(output.text)
}
