//! Steps of a run: executed instructions.

use fs_instr::Instr;

/// One choice of a run: the word that an lw, an lr.w or an AMO loads, or whether an sc.w succeeds.
#[derive(Clone, Copy, PartialEq, Eq)]
pub enum Choice {
    /// The loaded word.
    Word(u32),
    /// The sc.w stores.
    Success,
    /// The sc.w stores nothing.
    Failure,
}

/// One executed instruction, with its access to memory. A failed sc.w accesses nothing.
#[derive(Clone, Copy, PartialEq, Eq)]
pub struct Step {
    /// The instruction's position in its hart's code, counted from 0.
    pub at: u8,
    pub instr: Instr,
    /// The address that it accesses.
    pub address: Option<u32>,
    /// The word that it loads.
    pub loaded: Option<u32>,
    /// The word that it stores.
    pub stored: Option<u32>,
}

/// Why choices make no whole run: the first that is met in the run.
#[derive(Clone, Copy)]
pub enum Stop {
    /// The choices are used up.
    Short,
    /// Choices are left at the end.
    Long,
    /// The next choice is of the wrong kind.
    BadChoice,
    /// An sc.w is to succeed that isn't paired with an lr.w of its address.
    BadSc,
    /// The instruction at this position accesses an address that is no location's.
    Astray(u8),
}
