//! The faults that end a run, and the line that names each.
ghost use Rattle.std.specs.Prelude.{◌≡◌};
ghost use Rattle.fs_kinds.specs.FaultLine.{number, name};

use std::alloc::{AllocError, AllocFailed};
use std::fmt;
use thiserror::Error;

/// Why a run ends with no answer. The variants stand in the order of their numbers, from F1 on.
#[derive(Clone, Copy, PartialEq, Eq, Error)]
pub enum Fault {
    /// F1: the test file isn't UTF-8.
    BadUtf8,
    /// F2: the first line isn't `RISCV`, a blank and a name.
    NotRiscv,
    /// F3: the text isn't of a test file's form.
    Syntax { line: usize },
    /// F4: a mnemonic isn't in the instruction table.
    UnknownInstr { line: usize },
    /// F5: `lr.w.rl` or `sc.w.aq`, which this profile leaves out.
    BadAnnotation { line: usize },
    /// F6: a branch whose label is missing or not ahead of it, or a label twice in one hart.
    BadLabel { line: usize },
    /// F7: an initial value of a hart or a register that isn't there, of x0, with a number out of range, or a second
    /// one.
    BadInit { line: usize },
    /// F8: the condition names a hart or a register that isn't there, or a number out of range.
    BadCondition,
    /// F9: the test passes a limit.
    TooBig { what: Limit },
    /// F10: the prices aren't an object from kinds to prices, with or without weights.
    BadPrices,
    /// F11: the prices lack `rw,rw`.
    NoTop,
    /// F12: a fence that isn't of the form, stands at no slot or at one twice, or has no price.
    BadFence,
    /// F13: a hart has too many traces.
    TooManyTraces,
    /// F14: the hart has a trace in which the instruction of this number misses every location.
    Astray { hart: u8, at: u8 },
    /// F15: the test has too many candidate executions.
    TooManyCandidates,
    /// F16: the search came to its limit of nodes.
    NodeLimit,
    /// F17: the witness isn't of its form.
    BadWitness,
    /// F18: the certificate isn't of its form.
    BadCertificate,
    /// F19: memory ran out.
    Memory,
    /// F20: a file couldn't be read, or is too long.
    ReadFault,
    /// F21: a file couldn't be written.
    WriteFault,
    /// F22: the search's log and the workers' receipts don't agree. No command answers it.
    Unmatched,
    /// F23: a worker's pass or hand is strange, doubled or missing. No command answers it.
    StrangePass,
    /// F24: the test has accesses of 64 bits and of a word; the line is that of the first of the other width.
    BothWidths { line: usize },
    /// F25: with accesses of 64 bits, the instruction of this number may make a word of more than 32.
    WideWord { hart: u8, at: u8 },
}

/// What a test has too much of.
#[derive(Clone, Copy, PartialEq, Eq)]
pub enum Limit {
    /// Harts.
    Harts,
    /// Instructions of one hart.
    Instructions,
    /// Memory instructions of all harts together.
    Accesses,
    /// Locations.
    Locations,
    /// Nesting of the condition.
    Depth,
}

impl Fault {
    /// The fault's number, from 1 to 25.
    pub fn number(self) -> u8
        ensures { result ≡ number self }
    {
        match self {
            Fault::BadUtf8 => 1,
            Fault::NotRiscv => 2,
            Fault::Syntax { .. } => 3,
            Fault::UnknownInstr { .. } => 4,
            Fault::BadAnnotation { .. } => 5,
            Fault::BadLabel { .. } => 6,
            Fault::BadInit { .. } => 7,
            Fault::BadCondition => 8,
            Fault::TooBig { .. } => 9,
            Fault::BadPrices => 10,
            Fault::NoTop => 11,
            Fault::BadFence => 12,
            Fault::TooManyTraces => 13,
            Fault::Astray { .. } => 14,
            Fault::TooManyCandidates => 15,
            Fault::NodeLimit => 16,
            Fault::BadWitness => 17,
            Fault::BadCertificate => 18,
            Fault::Memory => 19,
            Fault::ReadFault => 20,
            Fault::WriteFault => 21,
            Fault::Unmatched => 22,
            Fault::StrangePass => 23,
            Fault::BothWidths { .. } => 24,
            Fault::WideWord { .. } => 25,
        }
    }
}

impl Fault {
    /// The fault's name, as `BadLabel`.
    pub fn name(self) -> &'static str
        ensures { result.now ≡ name self }
    {
        match self {
            Fault::BadUtf8 => "BadUtf8",
            Fault::NotRiscv => "NotRiscv",
            Fault::Syntax { .. } => "Syntax",
            Fault::UnknownInstr { .. } => "UnknownInstr",
            Fault::BadAnnotation { .. } => "BadAnnotation",
            Fault::BadLabel { .. } => "BadLabel",
            Fault::BadInit { .. } => "BadInit",
            Fault::BadCondition => "BadCondition",
            Fault::TooBig { .. } => "TooBig",
            Fault::BadPrices => "BadPrices",
            Fault::NoTop => "NoTop",
            Fault::BadFence => "BadFence",
            Fault::TooManyTraces => "TooManyTraces",
            Fault::Astray { .. } => "Astray",
            Fault::TooManyCandidates => "TooManyCandidates",
            Fault::NodeLimit => "NodeLimit",
            Fault::BadWitness => "BadWitness",
            Fault::BadCertificate => "BadCertificate",
            Fault::Memory => "Memory",
            Fault::ReadFault => "ReadFault",
            Fault::WriteFault => "WriteFault",
            Fault::Unmatched => "Unmatched",
            Fault::StrangePass => "StrangePass",
            Fault::BothWidths { .. } => "BothWidths",
            Fault::WideWord { .. } => "WideWord",
        }
    }
}

impl From<AllocError> for Fault {
    ghost use Rattle.std.specs.Prelude.{◌≡◌};
    ghost use Rattle.fs_kinds.specs.declared.fault.Fault.TheVariants.{Memory};

    ghost from_gives = { λ _ fault. fault ≡ Memory };

    fn from(_refused: AllocError) -> Fault {
        Fault::Memory
    }
}

impl<T: Drop> From<AllocFailed<T>> for Fault {
    ghost use Rattle.std.specs.Prelude.{◌≡◌};
    ghost use Rattle.fs_kinds.specs.declared.fault.Fault.TheVariants.{Memory};

    ghost from_gives = { λ _ fault. fault ≡ Memory };

    fn from(_refused: AllocFailed<T>) -> Fault {
        Fault::Memory
    }
}

/// The limit's word, as `accesses`.
impl fmt::Display for Limit {
    ghost use Rattle.std.specs.Prelude.{Some};
    ghost use Rattle.fs_kinds.specs.FaultLine.{limit_word};

    ghost output = { λ limit. Some (limit_word limit) };

    fn fmt<W: fmt::Write>(&self, f: &mut fmt::Formatter<W>) -> fmt::Result {
        f.write_str(match self {
            Limit::Harts => "harts",
            Limit::Instructions => "instructions",
            Limit::Accesses => "accesses",
            Limit::Locations => "locations",
            Limit::Depth => "depth",
        })
    }
}

/// The line that the program prints for a fault, with no line end: `fault F6 BadLabel line 5`,
/// `fault F9 TooBig accesses`, `fault F14 Astray P0:0`, `fault F1 BadUtf8`.
impl fmt::Display for Fault {
    ghost use Rattle.std.specs.Prelude.{Some};
    ghost use Rattle.fs_kinds.specs.FaultLine.{fault_line};

    ghost output = { λ fault. Some (fault_line fault) };

    fn fmt<W: fmt::Write>(&self, f: &mut fmt::Formatter<W>) -> fmt::Result {
        let place = Place { of: *self };
        write!(f, "fault F{} {}{place}", self.number(), self.name())
    }
}

/// Where a fault is, or what is too much: the end of its line.
#[derive(Drop)]
struct Place {
    of: Fault,
}

impl fmt::Display for Place {
    ghost use Rattle.std.specs.Prelude.{Some};
    ghost use Rattle.fs_kinds.specs.FaultLine.{place};

    ghost output = { λ p. Some (place p.of) };

    fn fmt<W: fmt::Write>(&self, f: &mut fmt::Formatter<W>) -> fmt::Result {
        match self.of {
            Fault::Syntax { line }
            | Fault::UnknownInstr { line }
            | Fault::BadAnnotation { line }
            | Fault::BadLabel { line }
            | Fault::BadInit { line }
            | Fault::BothWidths { line } => write!(f, " line {line}"),
            Fault::TooBig { what } => write!(f, " {what}"),
            Fault::Astray { hart, at } | Fault::WideWord { hart, at } => write!(f, " P{hart}:{at}"),
            _ => Ok(()),
        }
    }
}

/// As it is displayed.
impl fmt::Debug for Fault {
    fn fmt<W: fmt::Write>(&self, f: &mut fmt::Formatter<W>) -> fmt::Result {
        write!(f, "{self}")
    }
}
