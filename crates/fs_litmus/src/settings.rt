//! Registers and locations that have a value, and the words that are written for them.

ghost use Rattle.std.specs.Prelude.{◌≡◌, ℕ, IfSome, length};
ghost use Rattle.fs_litmus_tokens.specs.Values.{target_of, value_of};
ghost use Rattle.fs_litmus.specs.Settings.{signed, word_of, register_holder, holder_of, setting_of, IsThere};

use crate::names::Names;
use fs_instr::Reg;
use fs_litmus_tokens::{Target, Value, number_of};
use fs_model::Location;

/// What holds a word: a register of a hart, or a location by its number.
#[derive(Clone, Copy, PartialEq, Eq, Hash)]
pub enum Holder {
    Register(u32, u8),
    Location(usize),
}

/// A register or location with a word.
#[derive(Clone, Copy)]
pub struct Setting {
    pub holder: Holder,
    pub word: u32,
}

fn signed(negative: bool, number: u32) -> Option<u32>
    ensures { result ≡ signed negative number }
{
    if !negative {
        return Some(number);
    }
    if number > 1 << 31 {
        return None;
    }
    Some(number.wrapping_neg())
}

/// The word that a value means; nothing for a number out of range, -2147483648 to 4294967295, and for a name that isn't
/// declared.
pub fn word_of(names: &Names, value: Value) -> Option<u32>
    ensures { result ≡ word_of names.now (value_of value.entry) }
{
    match value {
        Value::Number { negative, digits } => signed(negative, number_of(digits)?),
        Value::Address(name) => Some(Location::address_word(names.number_of(name)?)),
    }
}

fn register_holder(columns: usize, hart: u32, register: Reg) -> Option<Holder>
    ensures value { result ≡ register_holder columns hart register }
    ensures within { IfSome result (λ p. (locations : ℕ) → IsThere columns locations p) }
{
    if (hart as usize) < columns {
        Some(Holder::Register(hart, register.number()))
    } else {
        None
    }
}

/// The register or location that a target means; nothing for a hart without a column, for an unknown register, and for
/// a name that isn't declared.
pub fn holder_of(columns: usize, names: &Names, target: Target) -> Option<Holder>
    ensures value { result ≡ holder_of columns names.now (target_of target.entry) }
    ensures within { IfSome result (λ p. IsThere columns (length names.now) p) }
{
    match target {
        Target::Register { hart, register } => {
            register_holder(columns, number_of(hart)?, Reg::of(register)?)
        }
        Target::Location(name) => Some(Holder::Location(names.number_of(name)?)),
    }
}

/// The register or location of a binding, and its word.
pub fn setting_of(columns: usize, names: &Names, target: Target, value: Value) -> Option<Setting>
    ensures value { result ≡ setting_of columns names.now (target_of target.entry, value_of value.entry) }
    ensures within { IfSome result (λ s. IsThere columns (length names.now) s.holder) }
{
    let holder = holder_of(columns, names, target)?;
    let word = word_of(names, value)?;
    Some(Setting { holder, word })
}
