//! What choices make of a hart.

ghost use Rattle.std.specs.Prelude.{◌≡◌, ℕ, List, ◌<◌, ◌≤◌, All, length, slice_get, if◌then◌else◌, None, IfOk};
ghost use Rattle.std.specs.Prelude.{IsOkUnless};
ghost use Rattle.fs_kinds.specs.Limits.{most_instructions};
ghost use Rattle.fs_kinds.specs.declared.fault.Fault.TheVariants.{Memory};
ghost use Rattle.fs_model.specs.Test.{IsBounded, IsStart};
ghost use Rattle.fs_model.specs.Choices.{is_choosing};
ghost use Rattle.fs_model.specs.declared.step.Step.{Step};
ghost use Rattle.fs_model.specs.declared.test.Test.{Test};
ghost use Rattle.fs_model.specs.Execution.{IsTrace, code_of, registers_of};
ghost use Rattle.fs_hart.specs.Runs.{IsRunOf, run_of};

use crate::lists::Steps;
use crate::trace::{Run, Trace};
use fs_instr::Instr;
use fs_kinds::Fault;
use fs_model::{Choice, Hart, Stop, Test};
use std::alloc::Global;

/// Does the instruction take a choice?
pub(crate) fn is_choosing(instr: &Instr) -> bool
    ensures { result ≡ is_choosing instr.now }
{
    matches!(
        *instr,
        Instr::Lw { .. } | Instr::Lr { .. } | Instr::Amo { .. } | Instr::Sc { .. }
    )
}

/// The choice number `used`, where the instruction takes one.
fn next_choice(instr: &Instr, choices: &[Choice], used: usize) -> Option<Choice>
    ensures { result ≡ (if is_choosing instr.now then slice_get choices.now used else None) }
{
    if is_choosing(instr) {
        choices.get(used).copied()
    } else {
        None
    }
}

/// The code of the hart.
pub(crate) fn code_of(test: &Test, hart: u8) -> &[Instr]
    requires { hart < length test.now.codes }
    ensures { result.now ≡ code_of test.now hart }
{
    test.codes.as_slice()[usize::from(hart)].as_slice()
}

/// The words that the hart's registers begin with.
pub(crate) fn registers_of(test: &Test, hart: u8) -> [u32; 32]
    requires hart { hart < length test.now.starts }
    requires starts { All IsStart test.now.starts }
    ensures { result ≡ registers_of test.now hart }
{
    let words = test.starts.as_slice()[usize::from(hart)].as_slice();
    let mut registers = [0; 32];
    registers.copy_from_slice(words);
    registers
}

/// The run that stops so.
fn stopped(stop: Stop) -> Run
    ensures { result ≡ run_of stop }
{
    match stop {
        Stop::Short => Run::Short,
        Stop::Long => Run::Long,
        Stop::BadChoice => Run::BadChoice,
        Stop::BadSc => Run::BadSc,
        Stop::Astray(at) => Run::Astray(at),
    }
}

/// What the choices make of the hart of this number: each instruction that loads takes the next choice as its word, and
/// each sc.w as its success or failure. The error is F19.
pub fn trace_of(alloc: Global, test: &Test, hart: u8, choices: &[Choice]) -> Result<Run, Fault>
    requires test { IsBounded test.now }
    requires starts { All IsStart test.now.starts }
    requires hart { hart < length test.now.codes }
    ensures ok { IfOk result (IsRunOf test.now hart choices.now) }
    ensures err { IsOkUnless result Memory }
{
    let locations = test.locations.as_slice().len() as u8;
    let code = code_of(test, hart);
    let mut state = Hart::start(registers_of(test, hart));
    let mut steps = Vec::new(alloc);
    let mut used = 0;
    while usize::from(state.at) < code.len() {
        let instr = &code[usize::from(state.at)];
        let choice = next_choice(instr, choices, used);
        let step = match state.step(locations, instr, choice) {
            Ok(step) => step,
            Err(stop) => return Ok(stopped(stop)),
        };
        state.take(&step);
        steps.push(step)?;
        used += usize::from(choice.is_some());
    }
    if used < choices.len() {
        return Ok(Run::Long);
    }
    Ok(Run::Whole(Trace {
        steps: Steps::new(steps),
        registers: state.registers,
    }))
}

/// A run of a hart of a bounded test has at most 32 steps.
#[tactic(auto, using(crate::proofs::Forward::traces_short))]
pub fn runs_are_short()
    ensures { (t : Test) (hart : ℕ) (steps : List Step) → IsBounded t → hart < length t.codes → IsTrace t hart steps
        → length steps ≤ most_instructions }
{}
