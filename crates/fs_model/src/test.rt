//! Litmus tests.

ghost use Rattle.std.specs.Prelude.{◌≡◌, ◌≢◌, ℕ, ◌%◌, ◌^◌, IfSome, IfNone};
ghost use Rattle.fs_model.specs.Test.{address_of, location_of};

use crate::lists::{Codes, Locations, Name, Starts};
use crate::outcome::Outcome;

/// The address of location 0.
const FIRST_ADDRESS: u32 = 4096;

/// How far the addresses of two locations in turn are apart.
const ADDRESS_STEP: u32 = 16;

/// A declared location. Location k of a test, counted from 0, has the address 4096 + 16k.
#[derive(Drop)]
pub struct Location {
    /// A letter or `_`, and then letters, digits and `_`.
    pub name: Name,
    /// The word that it begins with.
    pub word: u32,
}

impl Location {
    /// The address of the location of this number.
    pub fn address(location: u8) -> u32
        ensures { result ≡ address_of location }
    {
        FIRST_ADDRESS + ADDRESS_STEP * u32::from(location)
    }

    /// The address of the location of this number as a word of 32 bits, for a text that names more locations than a
    /// test may have: past 2^32 it wraps.
    pub fn address_word(location: usize) -> u32
        ensures { result ≡ address_of location % 2 ^ 32 }
    {
        let number = (location % (1 << 32)) as u32;
        FIRST_ADDRESS.wrapping_add(ADDRESS_STEP.wrapping_mul(number))
    }

    /// The number of the location of this address; nothing where it is that of none.
    pub fn at(address: u32) -> Option<u32>
        ensures value { result ≡ location_of address }
        ensures found { IfSome result (λ location. address ≡ address_of location) }
        ensures none { IfNone result ((location : ℕ) → address ≢ address_of location) }
    {
        if address >= FIRST_ADDRESS && (address - FIRST_ADDRESS) % ADDRESS_STEP == 0 {
            Some((address - FIRST_ADDRESS) / ADDRESS_STEP)
        } else {
            None
        }
    }
}

/// Which final states a test asks for, as in the last section of herd7's litmus files.
#[derive(Clone, Copy, PartialEq, Eq)]
pub enum Quantifier {
    /// `exists`: a state of which the condition is true.
    Exists,
    /// `~exists`: the same states, which are to be ruled out.
    NotExists,
    /// `forall`: a state of which the condition is false.
    Forall,
}

/// A litmus test for RISC-V as read from herd7's format: labels are positions, and names of locations
/// are their numbers or addresses. What a test is, `specs/Test.antt` says: `IsTest`, and of
/// it what the calls of this crate ask for, `IsBounded`.
#[derive(Drop)]
pub struct Test {
    /// The rest of the first line after `RISCV`, without blanks at its ends.
    pub name: Name,
    /// The instructions of each hart.
    pub codes: Codes,
    /// The 32 initial words of each hart's registers.
    pub starts: Starts,
    /// The locations in the order of their first appearance.
    pub locations: Locations,
    pub quantifier: Quantifier,
    /// The condition as it was read.
    pub condition: Outcome,
}
