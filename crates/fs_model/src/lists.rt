//! The lists and texts of a test: contracts see each as a list.

ghost use Rattle.std.specs.Prelude.{◌≡◌, string_bytes};

use crate::test::Location;
use fs_instr::Instr;
use fs_kinds::List;
use std::marker::Model;

/// A name. Contracts see its bytes.
#[derive(Drop)]
pub struct Name {
    text: String,
}

impl Model for Name {
    ghost use Rattle.std.specs.Prelude.{ℕ, List, string_bytes};

    ghost Value = { List ℕ };

    ghost view = { λ n. string_bytes n.text };
}

impl Name {
    /// The name that is this text.
    pub fn new(text: String) -> Name
        ensures { result ≡ string_bytes text }
    {
        Name { text }
    }

    /// Its text.
    pub fn as_str(&self) -> &str
        ensures { result.now ≡ self.now }
    {
        self.text.as_str()
    }
}

/// The instructions of one hart, in program order.
pub type Code = List<Instr>;

/// The code of each hart, from hart 0 on.
pub type Codes = List<Code>;

/// The words that a hart's registers begin with, from x0 on.
pub type Registers = List<u32>;

/// The initial registers of each hart, from hart 0 on.
pub type Starts = List<Registers>;

/// The declared locations, from location 0 on.
pub type Locations = List<Location>;
