//! Registers, by number and by the names of the calling convention (the manual's assembly programmer's handbook).

ghost use Rattle.std.specs.Prelude.{◌≡◌, ◌<◌, map, nat_lt, true};
ghost use Rattle.std.specs.List.{list_all};
ghost use Rattle.fs_instr.specs.Rows.{look_up};
ghost use Rattle.fs_instr.specs.Registers.{low_x, middle_x, high_x, first_names, arguments, last_names, named};
ghost use Rattle.fs_instr.specs.Registers.{register_of};

use std::marker::Model;

/// One of the 32 registers; x0 is always 0.
#[derive(Clone, Copy, PartialEq, Eq)]
pub struct Reg {
    number: u8,
}

impl Model for Reg {
    ghost use Rattle.std.specs.Prelude.{ℕ, ◌<◌};

    ghost Value = { ℕ };

    ghost view = { λ r. r.number };

    ghost invariant = { λ r. r.number < 32 };

    ghost inverse = { λ n. record { number = n } };
}

/// The register of the first row with this word.
fn look_up(rows: &[(&str, u8)], word: &str) -> Option<Reg>
    requires { list_all (λ row. nat_lt row.1 32) rows.now ≡ true }
    ensures { result ≡ look_up (map (λ row. (row.0.now, row.1)) rows.now) word.now }
{
    match rows.split_first() {
        Some(((name, number), rest)) => {
            if word == *name {
                Some(Reg { number: *number })
            } else {
                look_up(rest, word)
            }
        }
        None => None,
    }
}

#[tactic(auto, unfolding(crate::specs::Registers::low_x))]
fn low_x(word: &str) -> Option<Reg>
    ensures { result ≡ look_up low_x word.now }
{
    look_up(
        &[
            ("x0", 0),
            ("x1", 1),
            ("x2", 2),
            ("x3", 3),
            ("x4", 4),
            ("x5", 5),
            ("x6", 6),
            ("x7", 7),
            ("x8", 8),
            ("x9", 9),
            ("x10", 10),
        ],
        word,
    )
}

#[tactic(auto, unfolding(crate::specs::Registers::middle_x))]
fn middle_x(word: &str) -> Option<Reg>
    ensures { result ≡ look_up middle_x word.now }
{
    look_up(
        &[
            ("x11", 11),
            ("x12", 12),
            ("x13", 13),
            ("x14", 14),
            ("x15", 15),
            ("x16", 16),
            ("x17", 17),
            ("x18", 18),
            ("x19", 19),
            ("x20", 20),
            ("x21", 21),
        ],
        word,
    )
}

#[tactic(auto, unfolding(crate::specs::Registers::high_x))]
fn high_x(word: &str) -> Option<Reg>
    ensures { result ≡ look_up high_x word.now }
{
    look_up(
        &[
            ("x22", 22),
            ("x23", 23),
            ("x24", 24),
            ("x25", 25),
            ("x26", 26),
            ("x27", 27),
            ("x28", 28),
            ("x29", 29),
            ("x30", 30),
            ("x31", 31),
        ],
        word,
    )
}

#[tactic(auto, unfolding(crate::specs::Registers::first_names))]
fn first_name(word: &str) -> Option<Reg>
    ensures { result ≡ look_up first_names word.now }
{
    look_up(
        &[
            ("zero", 0),
            ("ra", 1),
            ("sp", 2),
            ("gp", 3),
            ("tp", 4),
            ("t0", 5),
            ("t1", 6),
            ("t2", 7),
            ("s0", 8),
            ("fp", 8),
            ("s1", 9),
        ],
        word,
    )
}

#[tactic(auto, unfolding(crate::specs::Registers::arguments))]
fn argument(word: &str) -> Option<Reg>
    ensures { result ≡ look_up arguments word.now }
{
    look_up(
        &[
            ("a0", 10),
            ("a1", 11),
            ("a2", 12),
            ("a3", 13),
            ("a4", 14),
            ("a5", 15),
            ("a6", 16),
            ("a7", 17),
        ],
        word,
    )
}

#[tactic(auto, unfolding(crate::specs::Registers::last_names))]
fn last_name(word: &str) -> Option<Reg>
    ensures { result ≡ look_up last_names word.now }
{
    look_up(
        &[
            ("s2", 18),
            ("s3", 19),
            ("s4", 20),
            ("s5", 21),
            ("s6", 22),
            ("s7", 23),
            ("s8", 24),
            ("s9", 25),
            ("s10", 26),
            ("s11", 27),
            ("t3", 28),
            ("t4", 29),
            ("t5", 30),
            ("t6", 31),
        ],
        word,
    )
}

impl Reg {
    /// x0.
    pub const ZERO: Reg = Reg { number: 0 };

    /// The register of this name: `x0` to `x31`, or one of the ABI names, in lower case; nothing for any other word.
    #[tactic(auto, unfolding(crate::specs::Registers::register_of))]
    pub fn of(word: &str) -> Option<Reg>
        ensures { result ≡ register_of word.now }
    {
        if let Some(register) = low_x(word) {
            return Some(register);
        }
        if let Some(register) = middle_x(word) {
            return Some(register);
        }
        if let Some(register) = high_x(word) {
            return Some(register);
        }
        if let Some(register) = first_name(word) {
            return Some(register);
        }
        if let Some(register) = argument(word) {
            return Some(register);
        }
        last_name(word)
    }

    /// The register of this number.
    pub fn x(number: u8) -> Reg
        requires { number < 32 }
        ensures { result ≡ number }
    {
        Reg { number }
    }

    /// The register, unless it is x0, which is never a source or a destination.
    pub fn named(self) -> Option<Reg>
        ensures { result ≡ named self }
    {
        if self.number == 0 { None } else { Some(self) }
    }

    /// Its number, 0 to 31.
    pub fn number(self) -> u8
        ensures { result ≡ self }
    {
        self.number
    }
}
