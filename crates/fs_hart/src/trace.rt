//! Whole runs of a hart.

ghost use Rattle.std.specs.Prelude.{◌≡◌, [], option_map, unwrap_or};
ghost use Rattle.fs_model.specs.Execute.{read};
ghost use Rattle.fs_model.specs.Operations.{steps_of};
ghost use Rattle.fs_hart.specs.Steps.{steps_in};

use crate::lists::Steps;
use fs_instr::Reg;
use fs_model::Step;

/// A run of a hart from its first instruction to the end of its code.
#[derive(Drop)]
pub struct Trace {
    /// The executed instructions, in program order.
    pub steps: Steps,
    /// The words of the registers at the end.
    pub registers: [u32; 32],
}

impl Trace {
    /// The executed instructions, in program order.
    pub fn steps(&self) -> &[Step]
        ensures { result.now ≡ self.now.steps }
    {
        self.steps.as_slice()
    }

    /// The word of the register at the end of the run.
    pub fn final_reg(&self, register: Reg) -> u32
        ensures { result ≡ read self.now.registers register }
    {
        self.registers[register.number() as usize]
    }
}

/// The steps of a hart's run; none where it is no hart, or has no run here.
pub fn steps_of(traces: &[Trace], hart: Option<u8>) -> &[Step]
    ensures { result.now ≡ unwrap_or (option_map (steps_of (steps_in traces.now)) hart) [] }
{
    let Some(hart) = hart else {
        return &[];
    };
    match traces.get(usize::from(hart)) {
        Some(trace) => trace.steps(),
        None => &[],
    }
}

/// What choices make of a hart: a whole run, or the first reason, in the order of the run, why there is none.
#[derive(Drop)]
pub enum Run {
    /// The run, where the choices fit it exactly.
    Whole(Trace),
    /// The choices are used up before the end.
    Short,
    /// Choices are left at the end.
    Long,
    /// A choice is of the wrong kind: a word for an sc.w, or success or failure for a load.
    BadChoice,
    /// An sc.w is to succeed that isn't paired with an lr.w of its address.
    BadSc,
    /// The instruction at this position accesses an address that is no location's.
    Astray(u8),
}
