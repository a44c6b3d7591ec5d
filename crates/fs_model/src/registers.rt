//! What one instruction does, with the words of the hart's 32 registers.

ghost use Rattle.std.specs.Prelude.{◌≡◌, ◌<◌};
ghost use Rattle.fs_model.specs.Words.{add, word_of};
ghost use Rattle.fs_model.specs.Execute.{read, address_in, stored_in, result_in, executed, next_after, written};

use crate::arithmetic::{amo_word, immediate_word, is_taken, register_word, shift_word};
use fs_instr::{Instr, Reg};

fn word(registers: &[u32; 32], register: Reg) -> u32
    ensures { result ≡ read registers.now register }
{
    registers[register.number() as usize]
}

fn displaced(registers: &[u32; 32], base: Reg, offset: i32) -> u32
    ensures { result ≡ add (read registers.now base) (word_of offset) }
{
    word(registers, base).wrapping_add(offset.cast_unsigned())
}

/// The address that the instruction accesses, where it is a memory instruction.
pub(crate) fn address(registers: &[u32; 32], instr: &Instr) -> Option<u32>
    ensures { result ≡ address_in registers.now instr.now }
{
    match *instr {
        Instr::Lw { base, offset, .. } => Some(displaced(registers, base, offset)),
        Instr::Sw { base, offset, .. } => Some(displaced(registers, base, offset)),
        Instr::Lr { base, .. } | Instr::Sc { base, .. } | Instr::Amo { base, .. } => {
            Some(word(registers, base))
        }
        _ => None,
    }
}

/// The word that the instruction stores, where it can store one. `loaded` is the word that an AMO loads.
pub(crate) fn word_to_store(
    registers: &[u32; 32],
    loaded: Option<u32>,
    instr: &Instr,
) -> Option<u32>
    ensures { result ≡ stored_in registers.now loaded instr.now }
{
    match *instr {
        Instr::Sw { value, .. } | Instr::Sc { value, .. } => Some(word(registers, value)),
        Instr::Amo { op, value, .. } => {
            Some(amo_word(op, loaded.unwrap_or(0), word(registers, value)))
        }
        _ => None,
    }
}

/// The word for the instruction's destination, where it loads and stores these words; 0 where it writes none.
pub(crate) fn result(
    registers: &[u32; 32],
    loaded: Option<u32>,
    stored: Option<u32>,
    instr: &Instr,
) -> u32
    ensures { result ≡ result_in registers.now loaded stored instr.now }
{
    match *instr {
        Instr::Register {
            op,
            first,
            second,
            ..
        } => register_word(op, word(registers, first), word(registers, second)),
        Instr::Immediate { op, first, imm, .. } => {
            immediate_word(op, word(registers, first), imm.cast_unsigned())
        }
        Instr::Shift {
            op,
            first,
            amount,
            ..
        } => shift_word(op, word(registers, first), amount),
        Instr::Lui { upper, .. } => upper.wrapping_shl(12),
        Instr::Li { word, .. } => word,
        Instr::Lw { .. } | Instr::Lr { .. } | Instr::Amo { .. } => loaded.unwrap_or(0),
        Instr::Sc { .. } => u32::from(stored.is_none()),
        _ => 0,
    }
}

fn write(registers: &mut [u32; 32], register: Option<Reg>, word: u32)
    ensures { registers.new ≡ written register word registers.old }
{
    if let Some(register) = register {
        registers[register.number() as usize] = word;
    }
}

/// Executes the instruction, where it loads and stores these words: writes its destination.
pub(crate) fn execute(
    registers: &mut [u32; 32],
    loaded: Option<u32>,
    stored: Option<u32>,
    instr: &Instr,
)
    ensures { registers.new ≡ executed registers.old loaded stored instr.now }
{
    let destination = instr.dest();
    let word = result(&*registers, loaded, stored, instr);
    write(registers, destination, word);
}

/// The position of the next instruction, after the one at position `at`.
pub(crate) fn next(registers: &[u32; 32], at: u8, instr: &Instr) -> u8
    requires { at < 255 }
    ensures { result ≡ next_after registers.now at instr.now }
{
    match *instr {
        Instr::Branch {
            op,
            first,
            second,
            target,
        } => {
            if is_taken(op, word(registers, first), word(registers, second)) {
                target
            } else {
                at + 1
            }
        }
        Instr::Jump { target } => target,
        _ => at + 1,
    }
}
