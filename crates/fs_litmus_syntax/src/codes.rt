//! The codes of all harts.

ghost use Rattle.std.specs.Prelude.{◌≡◌, ◌⊎◌, List, IfOk, IfErr};
ghost use Rattle.fs_instr.specs.declared.instr.Instr.{Instr};
ghost use Rattle.fs_kinds.specs.declared.fault.Fault.{Fault};
ghost use Rattle.fs_litmus_syntax.specs.Columns.{cells_of};
ghost use Rattle.fs_litmus_syntax.specs.Codes.{AreCodes, AreKept, AreHarts, IsFault};
ghost use Rattle.fs_kinds.specs.FaultOrder.{IsFirst};

use crate::hart::{HartCode, read_hart};
use crate::slices::skip;
use fs_kinds::{Fault, earliest};
use fs_litmus_tokens::Token;
use std::alloc::{AllocError, Global};

/// The code of each hart whose code is right, and the first fault.
fn read_harts(
    alloc: Global,
    columns: usize,
    cells: &[&[Token<'_>]],
) -> Result<(Vec<HartCode>, Option<Fault>), AllocError>
    ensures { IfOk result (λ x. AreHarts columns (cells_of cells.now) x.0.items x.1) }
{
    let mut codes = Vec::new(alloc);
    let mut first = None;
    for hart in 0..columns {
        match read_hart(alloc, columns, skip(cells, hart))? {
            Ok(code) => codes.push(code)?,
            Err(fault) => first = earliest(first, Some(fault)),
        }
    }
    Ok((codes, first))
}

/// The code of each hart of a litmus test, in herd7's format. The cells are its rows, one after the other, each of as
/// many cells as there are columns; column number h, from 0 on, is that of hart h. A cell is any number of labels, each
/// a name and `:`, and then an instruction or nothing. A label stands before its hart's next instruction, or at the end
/// of its code. The instructions of a hart count from 0, labels don't; a branch has as its target the number of its
/// label's instruction, or the number of instructions where the label stands at the end.
///
/// The faults: `Syntax`, a cell of another form, or an instruction of the table with operands of another shape or
/// range, in the line of the cell's first token; `UnknownInstr`, a mnemonic that the table lacks, and `BadAnnotation`,
/// `lr.w.rl` or `sc.w.aq`, in the line of the mnemonic; `BadLabel`, a branch to a label that its hart doesn't have or
/// that stands at or before it, in the line of the branch's mnemonic, or a label that stands twice in a hart, in the
/// line of the second. Of all these the one of the least number is given, and of that number the one of the least line.
/// `Memory` where memory was refused.
///
/// Linear in the tokens and the columns; beside the codes it keeps less than 150 bytes for each label and instruction
/// of one hart.
pub fn read_codes(
    alloc: Global,
    columns: usize,
    cells: &[&[Token<'_>]],
) -> Result<Vec<HartCode>, Fault>
    // The rows mean these codes.
    ensures codes { IfOk result (λ kept. (codes : List (List Instr)) × AreCodes columns (cells_of cells.now) codes
        × AreKept codes kept.items) }
    // They mean no others.
    ensures only { IfOk result (λ kept. (codes : List (List Instr)) → AreCodes columns (cells_of cells.now) codes
        → AreKept codes kept.items) }
    // Then no hart has a fault.
    ensures clean { IfOk result (λ kept. (f : Fault) → ¬ IsFault columns (cells_of cells.now) f) }
    // Else the first fault of all harts is given.
    ensures fault { IfErr result (λ f. (f ≡ Fault.Memory) ⊎ IsFirst (IsFault columns (cells_of cells.now)) f) }
{
    let (codes, first) = read_harts(alloc, columns, cells)?;
    match first {
        Some(fault) => Err(fault),
        None => Ok(codes),
    }
}
