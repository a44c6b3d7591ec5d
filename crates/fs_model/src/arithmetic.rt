//! What the instructions of the table compute of words (the manual's RV32I and its A extension).

ghost use Rattle.std.specs.Prelude.{◌≡◌};
ghost use Rattle.fs_model.specs.Words.{is_less_signed, min_signed, max_signed, flag, shift_right_signed};
ghost use Rattle.fs_model.specs.Execute.{computed, computed_with, shifted, combined, does_branch};

use fs_instr::{AmoOp, BranchOp, ImmOp, RegOp, ShiftOp};

fn is_less(a: u32, b: u32) -> bool
    ensures { result ≡ is_less_signed a b }
{
    a.cast_signed() < b.cast_signed()
}

fn min(a: u32, b: u32) -> u32
    ensures { result ≡ min_signed a b }
{
    if is_less(b, a) { b } else { a }
}

fn max(a: u32, b: u32) -> u32
    ensures { result ≡ max_signed a b }
{
    if is_less(a, b) { b } else { a }
}

fn shift_right(a: u32, b: u32) -> u32
    ensures { result ≡ shift_right_signed a b }
{
    a.cast_signed().wrapping_shr(b).cast_unsigned()
}

/// The word that an instruction of two registers computes.
pub(crate) fn register_word(op: RegOp, a: u32, b: u32) -> u32
    ensures { result ≡ computed op a b }
{
    match op {
        RegOp::Add => a.wrapping_add(b),
        RegOp::Sub => a.wrapping_sub(b),
        RegOp::Xor => a ^ b,
        RegOp::Or => a | b,
        RegOp::And => a & b,
        RegOp::Sll => a.wrapping_shl(b),
        RegOp::Srl => a.wrapping_shr(b),
        RegOp::Sra => shift_right(a, b),
        RegOp::Slt => u32::from(is_less(a, b)),
        RegOp::Sltu => u32::from(a < b),
    }
}

/// The word that an instruction of a register and an immediate computes; `b` is the sign-extended immediate.
pub(crate) fn immediate_word(op: ImmOp, a: u32, b: u32) -> u32
    ensures { result ≡ computed_with op a b }
{
    match op {
        ImmOp::Addi => a.wrapping_add(b),
        ImmOp::Xori => a ^ b,
        ImmOp::Ori => a | b,
        ImmOp::Andi => a & b,
        ImmOp::Slti => u32::from(is_less(a, b)),
        ImmOp::Sltiu => u32::from(a < b),
    }
}

/// The word that a shift by an amount computes.
pub(crate) fn shift_word(op: ShiftOp, a: u32, amount: u32) -> u32
    ensures { result ≡ shifted op a amount }
{
    match op {
        ShiftOp::Slli => a.wrapping_shl(amount),
        ShiftOp::Srli => a.wrapping_shr(amount),
        ShiftOp::Srai => shift_right(a, amount),
    }
}

/// The word that an AMO stores, of the word that it loads and that of its source.
pub(crate) fn amo_word(op: AmoOp, loaded: u32, source: u32) -> u32
    ensures { result ≡ combined op loaded source }
{
    match op {
        AmoOp::Swap => source,
        AmoOp::Add => loaded.wrapping_add(source),
        AmoOp::Xor => loaded ^ source,
        AmoOp::And => loaded & source,
        AmoOp::Or => loaded | source,
        AmoOp::Min => min(loaded, source),
        AmoOp::Max => max(loaded, source),
        AmoOp::Minu => loaded.min(source),
        AmoOp::Maxu => loaded.max(source),
    }
}

/// Does the branch go to its target, where its sources have these words?
pub(crate) fn is_taken(op: BranchOp, a: u32, b: u32) -> bool
    ensures { result ≡ does_branch op a b }
{
    match op {
        BranchOp::Beq => a == b,
        BranchOp::Bne => a != b,
        BranchOp::Blt => is_less(a, b),
        BranchOp::Bge => !is_less(a, b),
        BranchOp::Bltu => a < b,
        BranchOp::Bgeu => a >= b,
    }
}
