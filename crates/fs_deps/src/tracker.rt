//! What the steps of a run so far leave to the next one.

ghost use Rattle.std.specs.Prelude.{◌≡◌, ◌<◌, ◌+◌, ℕ, List, if◌then◌else◌};
ghost use Rattle.fs_instr.specs.Instructions.{sources_of, carries_of};
ghost use Rattle.fs_model.specs.declared.step.Step.{Step};
ghost use Rattle.fs_model.specs.Operations.{instr_at};
ghost use Rattle.fs_deps.specs.Tracker.{read_mask, IsAnyOf, IsTracked, AreMasks};

use crate::deps::Masks;
use fs_instr::{Instr, Reg};

/// What the instruction passes on of its sources' steps to its destination.
fn carried(instr: &Instr, sources: u32) -> u32
    ensures { result ≡ (if carries_of instr.now then sources else 0) }
{
    if instr.carries() { sources } else { 0 }
}

/// The steps of a run so far on which the next step would depend. Bit k stands for step k.
#[derive(Drop)]
pub struct Tracker {
    /// By reading a register.
    registers: [u32; 32],
    /// By a conditional branch before it.
    branches: u32,
}

impl Tracker {
    /// Nothing before the first step.
    pub fn new() -> Tracker
        ensures { (run : List Step) → IsTracked run 0 result }
    {
        Tracker {
            registers: [0; 32],
            branches: 0,
        }
    }

    /// The steps on which a read of the register depends; none for no register.
    fn read_mask(&self, register: Option<Reg>) -> u32
        ensures { result ≡ read_mask self.now register }
    {
        match register {
            None => 0,
            Some(register) => self.registers[register.number() as usize],
        }
    }

    /// The steps on which a read of the instruction's sources depends.
    fn sources_mask(&self, instr: &Instr) -> u32
        ensures { IsAnyOf self.now (sources_of instr.now) result }
    {
        let [first, second] = instr.sources();
        self.read_mask(first) | self.read_mask(second)
    }

    /// The dependencies of the instruction as the next step.
    pub fn masks(&self, instr: &Instr) -> Masks
        ensures { (run : List Step) (j : ℕ) → instr_at run j ≡ instr.now → IsTracked run j self.now
            → AreMasks run j result }
    {
        Masks {
            address: self.read_mask(instr.address_source()),
            data: self.read_mask(instr.data_source()),
            control: self.branches,
        }
    }

    /// Takes the instruction as step j.
    pub fn take(&mut self, instr: &Instr, j: usize)
        requires { j < 32 }
        ensures { (run : List Step) → instr_at run j ≡ instr.now → IsTracked run j self.old
            → IsTracked run (j + 1) self.new }
    {
        let sources = self.sources_mask(instr);
        if instr.is_conditional() {
            self.branches |= sources;
        }
        if let Some(register) = instr.dest() {
            self.registers[register.number() as usize] = carried(instr, sources) | 1 << j;
        }
    }
}
