//! What counts of a run where only the outcome counts.

ghost use Rattle.std.specs.Prelude.{◌≡◌, ◌==◌, [], true, map, IfOk, OnOk};
ghost use Rattle.std.specs.List.{filter_map, list_any};
ghost use Rattle.fs_model.specs.Condition.{condition_of};
ghost use Rattle.fs_judge_outcomes.specs.inner.Runs.{final, known_of, with_register, registers_in, stored_as};
ghost use Rattle.fs_judge_outcomes.specs.inner.Runs.{stored_by, end_with, end_of};

use fs_instr::Reg;
use fs_kinds::List;
use fs_model::{Outcome, Step};
use fs_region_refutation::Lone;
use std::alloc::{AllocError, Global};

/// A register and the word that it ends with.
#[derive(Clone, Copy, PartialEq, Eq)]
pub(crate) struct Known {
    pub register: u8,
    pub word: u32,
}

/// A word that is stored at an address.
#[derive(Clone, Copy, PartialEq, Eq)]
pub(crate) struct Stored {
    pub address: u32,
    pub word: u32,
}

/// What counts of a run of a hart: how the registers end that the condition names, and what is stored.
#[derive(Drop)]
pub(crate) struct End {
    pub registers: List<Known>,
    pub stored: List<Stored>,
}

/// The register and the word that the run ends with in it.
fn known_of(run: &Lone, register: Reg) -> Known
    ensures { result ≡ known_of (final run.now) register }
{
    Known {
        register: register.number(),
        word: run.final_register(register),
    }
}

/// Is the register one of these?
fn is_among(registers: &[Reg], register: Reg) -> bool
    ensures { result ≡ list_any (λ known. known == register) registers.now }
{
    registers
        .iter()
        .any(|known| known.number() == register.number())
}

/// Appends the register, unless it is there.
fn push_register(registers: &mut Vec<Reg>, register: Reg) -> Result<(), AllocError>
    ensures { OnOk result (registers.new.items ≡ with_register register registers.old.items) }
{
    if !is_among(registers, register) {
        registers.push(register)?;
    }
    Ok(())
}

/// Appends the registers of the hart that the condition names and that aren't there. So there are 31 at most.
fn push_registers(hart: u8, condition: &Outcome, registers: &mut Vec<Reg>) -> Result<(), AllocError>
    ensures { OnOk result (registers.new.items ≡ registers_in hart (condition_of condition.now) registers.old.items) }
{
    match condition {
        Outcome::Always | Outcome::Never | Outcome::LocationIs { .. } => Ok(()),
        Outcome::RegisterIs {
            hart: other,
            reg,
            ..
        } => {
            if *other == hart {
                push_register(registers, *reg)?;
            }
            Ok(())
        }
        Outcome::Deny(denied) => push_registers(hart, denied, registers),
        Outcome::Both(left, right) | Outcome::Either(left, right) => {
            push_registers(hart, left, registers)?;
            push_registers(hart, right, registers)
        }
    }
}

/// The registers of the hart that the condition names. Linear in the condition, times the registers.
pub(crate) fn registers_of(
    alloc: Global,
    hart: u8,
    condition: &Outcome,
) -> Result<List<Reg>, AllocError>
    ensures { IfOk result (λ registers. registers ≡ registers_in hart (condition_of condition.now) []) }
{
    let mut registers = Vec::new(alloc);
    push_registers(hart, condition, &mut registers)?;
    Ok(List::new(registers))
}

/// How these registers of the run's hart end.
fn known_in(alloc: Global, run: &Lone, registers: &[Reg]) -> Result<Vec<Known>, AllocError>
    ensures { IfOk result (λ made. made.items ≡ map (known_of (final run.now)) registers.now) }
{
    registers
        .iter()
        .map(|register| known_of(run, *register))
        .collect(alloc)
}

/// What the step stores, and where.
fn stored_by(step: &Step) -> Option<Stored>
    ensures { result ≡ stored_by step.now }
{
    match (step.address, step.stored) {
        (Some(address), Some(word)) => Some(Stored { address, word }),
        _ => None,
    }
}

/// What the steps store, in program order.
fn stored_in(alloc: Global, steps: &[Step]) -> Result<Vec<Stored>, AllocError>
    ensures { IfOk result (λ made. made.items ≡ filter_map stored_by steps.now) }
{
    steps.iter().filter_map(stored_by).collect(alloc)
}

/// What counts of a run, of whose registers these do.
fn end_with(alloc: Global, run: &Lone, registers: &[Reg]) -> Result<End, AllocError>
    ensures { IfOk result (λ end. end ≡ end_with registers.now run.now) }
{
    let registers = known_in(alloc, run, registers)?;
    let stored = stored_in(alloc, run.steps())?;
    Ok(End {
        registers: List::new(registers),
        stored: List::new(stored),
    })
}

/// What counts of a run, with the registers of this hart that the condition names. Linear in the run and in these; only
/// where the run is another hart's, in the condition too.
pub(crate) fn end_of(
    alloc: Global,
    run: &Lone,
    hart: u8,
    registers: &[Reg],
    condition: &Outcome,
) -> Result<End, AllocError>
    requires { registers.now ≡ registers_in hart (condition_of condition.now) [] }
    ensures { IfOk result (λ end. end ≡ end_of (condition_of condition.now) run.now) }
{
    if run.hart() == hart {
        return end_with(alloc, run, registers);
    }
    let own = registers_of(alloc, run.hart(), condition)?;
    let end = end_with(alloc, run, &own)?;
    Ok(end)
}

/// Is the one the other?
pub(crate) fn is_same(end: &End, other: &End) -> bool
    ensures { result ≡ true → end.now ≡ other.now }
{
    end.registers == other.registers && end.stored == other.stored
}
