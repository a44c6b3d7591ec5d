//! Runs of harts, step by step.

ghost use Rattle.std.specs.Prelude.{◌≡◌, ◌<◌, All, length, slice_get};
ghost use Rattle.fs_model.specs.Test.{IsBounded, IsStart};
ghost use Rattle.fs_model.specs.Choices.{choice_by};
ghost use Rattle.fs_model.specs.Trace.{IsStep};
ghost use Rattle.fs_model.specs.Execution.{IsTrace, code_of, registers_of};
ghost use Rattle.fs_model_brute_force.specs.Decisions.{Decides};
ghost use Rattle.fs_model_brute_force.specs.Whole.{EndsWith};

use fs_instr::Instr;
use fs_model::{Choice, Hart, Step, Test};

/// The code of the hart.
fn code_of(test: &Test, hart: u8) -> &[Instr]
    requires { hart < length test.now.codes }
    ensures { result.now ≡ code_of test.now hart }
{
    test.codes.as_slice()[usize::from(hart)].as_slice()
}

/// The words that the hart's registers begin with.
fn registers_of(test: &Test, hart: u8) -> [u32; 32]
    requires hart { hart < length test.now.starts }
    requires starts { All IsStart test.now.starts }
    ensures { result ≡ registers_of test.now hart }
{
    let mut registers = [0; 32];
    registers.copy_from_slice(test.starts.as_slice()[usize::from(hart)].as_slice());
    registers
}

/// The choice that the step makes, as a step of the instruction.
fn choice_by(instr: &Instr, step: &Step) -> Option<Choice>
    ensures { result ≡ choice_by instr.now step.now }
{
    match *instr {
        Instr::Lw { .. } | Instr::Lr { .. } | Instr::Amo { .. } => step.loaded.map(Choice::Word),
        Instr::Sc { .. } => Some(if step.stored.is_some() {
            Choice::Success
        } else {
            Choice::Failure
        }),
        _ => None,
    }
}

/// The hart's next instruction; nothing where its code is at its end.
fn next_instr(code: &[Instr], state: &Hart) -> Option<Instr>
    ensures { result ≡ slice_get code.now state.now.at }
{
    code.get(usize::from(state.at)).copied()
}

/// Is the step the one that the hart makes of its next instruction, with the step's own choice?
fn is_step(locations: u8, code: &[Instr], state: &Hart, step: &Step) -> bool
    ensures { Decides result (IsStep locations code.now state.now step.now) }
{
    let Some(instr) = next_instr(code, state) else {
        return false;
    };
    match state.step(locations, &instr, choice_by(&instr, step)) {
        Ok(made) => made == *step,
        Err(_) => false,
    }
}

/// The hart's registers at the end of these steps; nothing where the steps aren't a run of the hart: each is the one
/// that its next instruction makes, and the last one ends the code.
pub(crate) fn registers_after(test: &Test, hart: u8, steps: &[Step]) -> Option<[u32; 32]>
    requires test { IsBounded test.now }
    requires starts { All IsStart test.now.starts }
    requires hart { hart < length test.now.codes }
    ensures { EndsWith test.now hart steps.now result }
{
    let locations = test.locations.as_slice().len() as u8;
    let code = code_of(test, hart);
    let mut state = Hart::start(registers_of(test, hart));
    for step in steps {
        if !is_step(locations, code, &state, step) {
            return None;
        }
        state.take(step);
    }
    if usize::from(state.at) < code.len() {
        return None;
    }
    Some(state.registers)
}

/// Are these steps a run of the hart: each is the one that its next instruction makes, and the last one ends the code?
pub fn is_run(test: &Test, hart: u8, steps: &[Step]) -> bool
    requires test { IsBounded test.now }
    requires starts { All IsStart test.now.starts }
    requires hart { hart < length test.now.codes }
    ensures { Decides result (IsTrace test.now hart steps.now) }
{
    registers_after(test, hart, steps).is_some()
}
