//! Places that have a word at the end of an execution.

ghost use Rattle.std.specs.Prelude.{◌≡◌};

use fs_instr::Reg;

/// What has a word at the end of an execution.
#[derive(Clone, Copy)]
pub enum Place {
    /// A hart's register.
    Register { hart: u8, reg: Reg },
    /// The location of this number.
    Location(u8),
}

impl Place {
    /// The hart's register.
    pub fn register(hart: u8, reg: Reg) -> Place
        ensures { result ≡ Place.Register hart reg }
    {
        Place::Register { hart, reg }
    }
}
