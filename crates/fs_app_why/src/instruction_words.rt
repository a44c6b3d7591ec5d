//! Words of a test in an explanation.

ghost use Rattle.std.specs.Prelude.{◌≡◌, ◌<◌, [], length, IfOk, string_bytes};
ghost use Rattle.std.specs.List.{slice_index_or};
ghost use Rattle.fs_instr.specs.Writing.{instr_text};
ghost use Rattle.fs_app_why.specs.InstructionWords.{and_joined, instr_named, line_of, separated, separator};

use fs_instr::{Instr, write_instr};
use fs_kinds::{List, OperationName};
use fs_model::{Name, Test};
use std::alloc::{AllocError, Global};

fn lines_of_hart(lines: &[List<usize>], hart: u8) -> &[usize]
    ensures { result.now ≡ slice_index_or lines.now hart [] }
{
    if usize::from(hart) < lines.len() {
        lines[usize::from(hart)].as_slice()
    } else {
        &[]
    }
}

/// The line of the file in which the instruction stands; 0 where there is no such instruction.
pub fn line_of(lines: &[List<usize>], name: OperationName) -> usize
    ensures { result ≡ line_of lines.now name }
{
    lines_of_hart(lines, name.hart)
        .get(usize::from(name.at))
        .copied()
        .unwrap_or(0)
}

/// The instructions of the hart; none where there is no such hart.
pub fn code_of(test: &Test, hart: u8) -> &[Instr]
    ensures { result.now ≡ slice_index_or test.now.codes hart [] }
{
    let codes = test.codes.as_slice();
    if usize::from(hart) < codes.len() {
        codes[usize::from(hart)].as_slice()
    } else {
        &[]
    }
}

/// The instruction in print. The error is want of memory.
pub fn instr_text(alloc: Global, instr: Instr) -> Result<String, AllocError>
    ensures { IfOk result (λ text. string_bytes text ≡ instr_text instr) }
{
    let mut text = String::new(alloc);
    write_instr(&instr, &mut text)?;
    Ok(text)
}

/// The instruction of the operation, if there is one.
pub fn instr_named(test: &Test, name: OperationName) -> Option<Instr>
    ensures { result ≡ instr_named test.now name }
{
    code_of(test, name.hart).get(usize::from(name.at)).copied()
}

/// What stands before piece `number` of so many.
fn separator(number: usize, count: usize) -> &'static str
    requires { number < count }
    ensures { result.now ≡ separator number count }
{
    if number == 0 {
        ""
    } else if number + 1 == count {
        " and "
    } else {
        ", "
    }
}

/// The pieces with commas between them, and `and` before the last. Linear in the pieces; the error is want of memory.
pub fn and_joined(alloc: Global, pieces: &[Name]) -> Result<String, AllocError>
    ensures { IfOk result (λ text. string_bytes text ≡ and_joined pieces.now) }
{
    let mut text = String::new(alloc);
    for (number, piece) in pieces.iter().enumerate() {
        write!(
            text,
            "{}{}",
            separator(number, pieces.len()),
            piece.as_str()
        )?;
    }
    Ok(text)
}
