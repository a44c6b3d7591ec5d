//! The printed form of instructions.

ghost use Rattle.std.specs.Prelude.{◌≡◌, ◌++◌, OnOk, OnErr, string_bytes};
ghost use Rattle.fs_instr.specs.Writing.{part_text, mark_text, parts_text, row_text, instr_text};
ghost use Rattle.fs_instr.specs.OfTable.{IsOfTable};
ghost use Rattle.fs_instr.specs.PrintedTokens.{ReadsBack, HasPrintedTokens, TextReadsBack};

use crate::instr::{Instr, parts};
use crate::operands::{OperandPart, Operands};
use fs_litmus_tokens::Mark;
use std::alloc::AllocError;

fn write_part(part: OperandPart, operands: &Operands, line: &mut String) -> Result<(), AllocError>
    ensures { OnOk result (string_bytes line.new ≡ string_bytes line.old ++ part_text part operands.now) }
{
    match part {
        OperandPart::Rd => write!(line, "x{}", operands.rd.number()),
        OperandPart::First => write!(line, "x{}", operands.first.number()),
        OperandPart::Second => write!(line, "x{}", operands.second.number()),
        OperandPart::Zero => line.push_str("x0"),
        OperandPart::Sign(mark) => line.push_str(mark_text(mark)),
        OperandPart::Immediate | OperandPart::Offset => write!(line, "{}", operands.imm),
        OperandPart::Below(_) | OperandPart::Constant => write!(line, "{}", operands.constant),
        OperandPart::NoOffset => Ok(()),
        OperandPart::Label => write!(line, "L{}", operands.target),
        OperandPart::Before => line.push_str(operands.before.text()),
        OperandPart::After => line.push_str(operands.after.text()),
    }
}

fn mark_text(mark: Mark) -> &'static str
    ensures { result.now ≡ mark_text mark }
{
    match mark {
        Mark::Comma => ",",
        Mark::OpenParen => "(",
        Mark::CloseParen => ")",
        _ => "",
    }
}

fn write_parts(
    parts: &[OperandPart],
    operands: &Operands,
    line: &mut String,
) -> Result<(), AllocError>
    ensures { OnOk result (string_bytes line.new ≡ string_bytes line.old ++ parts_text parts.now operands.now) }
{
    for part in parts {
        write_part(*part, operands, line)?;
    }
    Ok(())
}

fn write_row(
    name: &str,
    parts: &[OperandPart],
    operands: &Operands,
    line: &mut String,
) -> Result<(), AllocError>
    ensures { OnOk result (string_bytes line.new ≡ string_bytes line.old ++ row_text name.now parts.now operands.now) }
{
    line.push_str(name)?;
    if !parts.is_empty() {
        line.push_str(" ")?;
    }
    write_parts(parts, operands, line)
}

#[tactic(auto, unfolding(crate::specs::Writing::instr_text))]
fn write_line(instr: &Instr, line: &mut String) -> Result<(), AllocError>
    ensures { OnOk result (string_bytes line.new ≡ string_bytes line.old ++ instr_text instr.now) }
{
    let op = instr.op();
    let operands = instr.operands();
    write_row(op.text(), parts(op), &operands, line)
}

/// Appends the instruction's printed form: x-numbers, no blanks between operands, decimal numbers, `(x6)` for lr.w,
/// sc.w and AMOs, `L` and the position for a target, base instructions for pseudo-instructions. Fails only for want of
/// memory, and then leaves the text as it was.
pub fn write_instr(instr: &Instr, text: &mut String) -> Result<(), AllocError>
    ensures ok { OnOk result (string_bytes text.new ≡ string_bytes text.old ++ instr_text instr.now) }
    ensures err { OnErr result (string_bytes text.new ≡ string_bytes text.old) }
{
    let mut line = String::new(*text.allocator());
    write_line(instr, &mut line)?;
    text.push_str(line.as_str())
}

/// A law: the printed form of an instruction of the table reads back as that instruction, with its position as the
/// label. Its bytes have the tokens of `instr_tokens`, in any text where something other than a letter follows.
pub fn reads_back(instr: Instr)
    ensures spelled { IsOfTable instr → ReadsBack instr }
    ensures printed { IsOfTable instr → HasPrintedTokens instr }
    ensures text { IsOfTable instr → TextReadsBack instr }
{
    let _instr = instr;
}
