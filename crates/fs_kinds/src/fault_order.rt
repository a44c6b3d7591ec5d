//! Which of two faults is given.

ghost use Rattle.std.specs.Prelude.{◌≡◌};
ghost use Rattle.fs_kinds.specs.FaultOrder.{limit_rank, rank_of, is_earlier, earliest};

use crate::fault::{Fault, Limit};

impl Limit {
    /// The limit's place among the limits, from 0 to 4.
    pub fn rank(self) -> usize
        ensures { result ≡ limit_rank self }
    {
        match self {
            Limit::Harts => 0,
            Limit::Instructions => 1,
            Limit::Accesses => 2,
            Limit::Locations => 3,
            Limit::Depth => 4,
        }
    }
}

impl Fault {
    /// Where the fault stands among those of its number: its line, or the place of its limit, and 0 for a fault with
    /// neither.
    pub fn rank(self) -> usize
        ensures { result ≡ rank_of self }
    {
        match self {
            Fault::Syntax { line }
            | Fault::UnknownInstr { line }
            | Fault::BadAnnotation { line }
            | Fault::BadLabel { line }
            | Fault::BadInit { line } => line,
            Fault::TooBig { what } => what.rank(),
            _ => 0,
        }
    }

    /// Is the fault given in place of the other: is its number less, or its rank among faults of one number?
    pub fn is_earlier(self, than: Fault) -> bool
        ensures { result ≡ is_earlier self than }
    {
        self.number() < than.number() || self.number() == than.number() && self.rank() < than.rank()
    }
}

/// The first of two faults, that of the lesser number, and of one number that of the lesser rank; or the one that was
/// found.
pub fn earliest(found: Option<Fault>, other: Option<Fault>) -> Option<Fault>
    ensures { result ≡ earliest found other }
{
    match found {
        None => other,
        Some(first) => match other {
            None => Some(first),
            Some(fault) => {
                if fault.is_earlier(first) {
                    Some(fault)
                } else {
                    Some(first)
                }
            }
        },
    }
}
