//! Whether registers of 64 bits hold what those of 32 do, their words extended by their signs.

ghost use Rattle.std.specs.Prelude.{◌≡◌, ◌+ℤ◌, ◌-ℤ◌, ◌<◌, true, None, All, FitsSigned, IfOk, IfSome, OnOk, length};
ghost use Rattle.std.specs.Int.{w32, cast_signed};
ghost use Rattle.fs_model.specs.Execute.{read};
ghost use Rattle.fs_model.specs.Execution.{registers_of};
ghost use Rattle.fs_model.specs.Test.{IsBounded, IsStart};
ghost use Rattle.fs_model.specs.Trace.{start_with, after_step};
ghost use Rattle.fs_values.specs.ThinAir.{CanBeListed};
ghost use Rattle.fs_app_plain.specs.Wide.{IsExact, AreExact, IsExactTest};
ghost use Rattle.fs_instr.specs.declared.names.ShiftOp.TheVariants.{Slli, Srli};
ghost use Rattle.fs_app_plain.specs.Exact.{IsExactComputed, IsExactImmediate, IsExactShifted, IsExactCombined};

use fs_hart::Trace;
use fs_instr::{AmoOp, ImmOp, Instr, Reg, RegOp, ShiftOp};
use fs_kinds::Fault;
use fs_model::{Hart, Step, Test};
use fs_values::all_runs;
use std::alloc::Global;

/// An instruction, by its hart and its position.
#[derive(Clone, Copy)]
pub(crate) struct Place {
    pub(crate) hart: usize,
    pub(crate) at: u8,
}

/// Is the number one of 32 bits with a sign?
fn fits(number: i64) -> bool
    ensures { result ≡ true → FitsSigned w32 number }
{
    i64::from(i32::MIN) <= number && number <= i64::from(i32::MAX)
}

fn signed(word: u32) -> i64
    ensures { result ≡ cast_signed w32 word }
{
    i64::from(word.cast_signed())
}

fn sum_fits(first: u32, second: u32) -> bool
    ensures { result ≡ true → FitsSigned w32 (cast_signed w32 first +ℤ cast_signed w32 second) }
{
    fits(signed(first).saturating_add(signed(second)))
}

fn difference_fits(first: u32, second: u32) -> bool
    ensures { result ≡ true → FitsSigned w32 (cast_signed w32 first -ℤ cast_signed w32 second) }
{
    fits(signed(first).saturating_sub(signed(second)))
}

/// Does the word, moved to the left by the low 6 bits of the second, fit?
fn left_fits(word: u32, amount: u32) -> bool
    ensures { result ≡ true → IsExactShifted Slli word amount }
{
    let amount = amount % 64;
    amount < 32 && fits(signed(word).saturating_mul(1_i64 << amount))
}

/// The same to the right with zeros.
fn right_fits(word: u32, amount: u32) -> bool
    ensures { result ≡ true → IsExactShifted Srli word amount }
{
    let amount = amount % 64;
    amount == 0 || amount < 32 && signed(word) >= 0
}

/// The same of two registers.
fn register_fits(op: RegOp, first: u32, second: u32) -> bool
    ensures { result ≡ true → IsExactComputed op first second }
{
    match op {
        RegOp::Add => sum_fits(first, second),
        RegOp::Sub => difference_fits(first, second),
        RegOp::Sll => left_fits(first, second),
        RegOp::Srl => right_fits(first, second),
        RegOp::Sra => second % 64 < 32,
        _ => true,
    }
}

/// The same of a register and an immediate.
fn immediate_fits(op: ImmOp, word: u32, immediate: i32) -> bool
    ensures { result ≡ true → IsExactImmediate op word immediate }
{
    match op {
        ImmOp::Addi => sum_fits(word, immediate.cast_unsigned()),
        _ => true,
    }
}

/// The same of a register and an amount.
fn shift_fits(op: ShiftOp, word: u32, amount: u32) -> bool
    ensures { result ≡ true → IsExactShifted op word amount }
{
    match op {
        ShiftOp::Slli => left_fits(word, amount),
        ShiftOp::Srli => right_fits(word, amount),
        ShiftOp::Srai => amount % 64 < 32,
    }
}

/// The same of what an AMO stores.
fn amo_fits(op: AmoOp, loaded: u32, source: u32) -> bool
    ensures { result ≡ true → IsExactCombined op loaded source }
{
    match op {
        AmoOp::Add => sum_fits(loaded, source),
        _ => true,
    }
}

fn read(state: &Hart, register: Reg) -> u32
    ensures { result ≡ read state.now.registers register }
{
    state.registers[register.number() as usize]
}

/// Does the instruction make the same of the registers, and of the word that it loads, in 64 bits as in 32?
fn is_exact(state: &Hart, step: &Step) -> bool
    ensures { result ≡ true → IsExact state.now step.now }
{
    match step.instr {
        Instr::Register {
            op,
            first,
            second,
            ..
        } => register_fits(op, read(state, first), read(state, second)),
        Instr::Immediate { op, first, imm, .. } => immediate_fits(op, read(state, first), imm),
        Instr::Shift {
            op,
            first,
            amount,
            ..
        } => shift_fits(op, read(state, first), amount),
        Instr::Amo { op, value, .. } => {
            amo_fits(op, step.loaded.unwrap_or(0), read(state, value))
        }
        _ => true,
    }
}

/// The words that the hart's registers begin with.
fn registers_of(test: &Test, hart: usize) -> [u32; 32]
    requires hart { hart < length test.now.starts }
    requires starts { All IsStart test.now.starts }
    ensures { result ≡ registers_of test.now hart }
{
    let words = test.starts.as_slice()[hart].as_slice();
    let mut registers = [0; 32];
    registers.copy_from_slice(words);
    registers
}

/// Takes the step. False where the hart is too far for it.
fn go_on(state: &mut Hart, step: &Step) -> bool
    ensures { result ≡ true → state.new ≡ after_step state.old step.now }
{
    if state.at < 255 {
        state.take(step);
        true
    } else {
        false
    }
}

/// The position of the first instruction of the run that makes something else.
fn inexact_in(registers: [u32; 32], trace: &Trace) -> Option<u8>
    ensures { result ≡ None → AreExact (start_with registers) trace.now.steps }
{
    let mut state = Hart::start(registers);
    for step in trace.steps() {
        if !is_exact(&state, step) || !go_on(&mut state, step) {
            return Some(step.at);
        }
    }
    None
}

/// The same in the first of the runs that has one.
fn inexact_among(registers: [u32; 32], runs: &[Trace]) -> Option<u8>
    ensures { result ≡ None → All (λ trace. AreExact (start_with registers) trace.steps) runs.now }
{
    for trace in runs {
        if let Some(at) = inexact_in(registers, trace) {
            return Some(at);
        }
    }
    None
}

/// The first hart, and in its first run the first instruction, that makes something else. Linear in the runs.
pub(crate) fn inexact(alloc: Global, test: &Test) -> Result<Option<Place>, Fault>
    requires test { IsBounded test.now }
    requires starts { All IsStart test.now.starts }
    ensures within { IfOk result (λ found. IfSome found (λ place. place.hart < length test.now.codes)) }
    ensures exact { IfOk result (λ found. found ≡ None → IsExactTest test.now) }
    ensures listable { OnOk result (CanBeListed test.now) }
{
    let runs = all_runs(alloc, test)?;
    for (hart, of_hart) in runs.iter().enumerate() {
        if let Some(at) = inexact_among(registers_of(test, hart), of_hart.as_slice()) {
            return Ok(Some(Place { hart, at }));
        }
    }
    Ok(None)
}
