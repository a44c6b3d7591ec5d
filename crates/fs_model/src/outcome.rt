//! Conditions on final states.

ghost use Rattle.std.specs.Prelude.{◌≡◌};
ghost use Rattle.fs_model.specs.Condition.{condition_of, RegisterIs};

use fs_instr::Reg;

/// A condition on the final registers and the final words of a run, as it was read. It isn't yet the outcome to rule
/// out, which with `forall` is its denial (`is_outcome` of fs_model). At most 64 connectives and denials stand around
/// an atom of a test's condition.
#[derive(Drop)]
pub enum Outcome {
    /// `true`
    Always,
    /// `false`
    Never,
    /// The hart's register ends with this word.
    RegisterIs { hart: u8, reg: Reg, word: u32 },
    /// The location of this number ends with this word.
    LocationIs { location: u8, word: u32 },
    /// `~`
    Deny(Box<Outcome>),
    /// `/\`
    Both(Box<Outcome>, Box<Outcome>),
    /// `\/`
    Either(Box<Outcome>, Box<Outcome>),
}

impl Outcome {
    /// The hart's register ends with this word.
    pub fn register_is(hart: u8, reg: Reg, word: u32) -> Outcome
        ensures { condition_of result ≡ RegisterIs hart reg word }
    {
        Outcome::RegisterIs { hart, reg, word }
    }
}
