//! Memory operations.

ghost use Rattle.std.specs.Prelude.{◌≡◌, is_some};
ghost use Rattle.std.specs.List.{slice_index_or};
ghost use Rattle.fs_model.specs.Forms.{annotation};
ghost use Rattle.fs_model.specs.Numbers.{is_same};
ghost use Rattle.fs_model.specs.Operations.{nothing, precedes};

use fs_instr::{Ann, Instr};
use fs_kinds::Classes;

/// A memory operation: a load, a store, or both at once (RISC-V Unprivileged ISA 20191213, section "Memory Model
/// Primitives"). An initial store of a location has no hart, and `nop` for its instruction.
#[derive(Clone, Copy)]
pub struct Operation {
    pub hart: Option<u8>,
    /// The place of its step in the hart's run, counted from 0.
    pub place: u8,
    pub instr: Instr,
    /// The address that it accesses.
    pub address: Option<u32>,
    /// The word that it loads.
    pub loaded: Option<u32>,
    /// The word that it stores.
    pub stored: Option<u32>,
}

// What a number past the last operation stands for.
const NOTHING: Operation = Operation {
    hart: None,
    place: 0,
    instr: Instr::NOP,
    address: None,
    loaded: None,
    stored: None,
};

impl Operation {
    /// The operation of this number. A number past the last is that of nothing: no hart, no address, no word.
    pub fn numbered(operations: &[Operation], number: usize) -> Operation
        ensures { result ≡ slice_index_or operations.now number nothing }
    {
        operations.get(number).copied().unwrap_or(NOTHING)
    }

    /// Does it load a word?
    pub fn is_load(&self) -> bool
        ensures { result ≡ is_some self.now.loaded }
    {
        self.loaded.is_some()
    }

    /// Does it store a word?
    pub fn is_store(&self) -> bool
        ensures { result ≡ is_some self.now.stored }
    {
        self.stored.is_some()
    }

    /// Whether it loads, and whether it stores.
    pub fn classes(&self) -> Classes
        ensures { result ≡ record { reads = is_some self.now.loaded; writes = is_some self.now.stored } }
    {
        Classes {
            reads: self.is_load(),
            writes: self.is_store(),
        }
    }

    /// Are both of a hart, and of the same one? Initial stores are of none.
    pub fn is_same_hart(&self, other: &Operation) -> bool
        ensures { result ≡ is_same self.now.hart other.now.hart }
    {
        match (self.hart, other.hart) {
            (Some(hart), Some(other)) => hart == other,
            _ => false,
        }
    }

    /// Do both access memory, and at the same address?
    pub fn is_same_word(&self, other: &Operation) -> bool
        ensures { result ≡ is_same self.now.address other.now.address }
    {
        match (self.address, other.address) {
            (Some(address), Some(other)) => address == other,
            _ => false,
        }
    }

    /// Does it precede the other in program order?
    pub fn precedes(&self, other: &Operation) -> bool
        ensures { result ≡ precedes self.now other.now }
    {
        self.is_same_hart(other) && self.place < other.place
    }

    /// The bits aq and rl of its instruction; neither where the instruction can't have them.
    pub fn annotation(&self) -> Ann
        ensures { result ≡ annotation self.now.instr }
    {
        match self.instr {
            Instr::Lw { ann, .. }
            | Instr::Sw { ann, .. }
            | Instr::Lr { ann, .. }
            | Instr::Sc { ann, .. }
            | Instr::Amo { ann, .. } => ann,
            _ => Ann {
                acquire: false,
                release: false,
            },
        }
    }
}
