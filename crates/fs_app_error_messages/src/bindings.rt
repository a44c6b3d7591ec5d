//! What is said of an initial value, or of an atom of the condition, that is of the form and says what can't be. These
//! words promise nothing.

use crate::hints::{Spot, is_mark};
use fs_instr::Reg;
use fs_litmus_syntax::{read_header, read_init};
use fs_litmus_tokens::{Class, Kind, Mark, Stop, Token, number_of};
use std::alloc::{AllocError, Global};

/// How many columns the header has, and 0 where the form breaks before its end.
pub(crate) fn columns_of(alloc: Global, tokens: &[Token<'_>]) -> Result<usize, AllocError> {
    let rest = match read_init(alloc, tokens) {
        Ok((_, rest)) => rest,
        Err(Stop::Memory) => return Err(AllocError),
        Err(Stop::At(_)) => return Ok(0),
    };
    match read_header(alloc, rest) {
        Ok((columns, _)) => Ok(columns),
        Err(Stop::Memory) => Err(AllocError),
        Err(Stop::At(_)) => Ok(0),
    }
}

/// How many tokens a target has that begins with this one.
fn target_len(spot: Spot<'_, '_>) -> usize {
    match spot.ahead(0) {
        Some(Kind::Word(Class::Number, _) | Kind::Sign(Mark::OpenBracket)) => 3,
        _ => 1,
    }
}

fn is_hart(columns: usize, word: &str) -> bool {
    match number_of(word) {
        Some(number) => (number as usize) < columns,
        None => false,
    }
}

/// What is said of a register's hart and name.
fn register_words(columns: usize, spot: Spot<'_, '_>) -> Option<&'static str> {
    let Some(Kind::Word(Class::Number, hart)) = spot.ahead(0) else {
        return None;
    };
    let Some(Kind::Word(_, register)) = spot.ahead(2) else {
        return None;
    };
    if !is_hart(columns, hart) {
        return Some("there is no such hart: the header has a column for each, from `P0` on");
    }
    if Reg::of(register).is_none() {
        return Some(
            "there is no such register: write `x0` to `x31`, or a name as `a0`, in lower case",
        );
    }
    None
}

/// Is it a number that is out of range?
fn is_out_of_range(spot: Spot<'_, '_>) -> bool {
    match spot.ahead(0) {
        Some(Kind::Word(Class::Number, digits)) => number_of(digits).is_none(),
        Some(Kind::Sign(Mark::Minus)) => is_low(spot.ahead(1)),
        _ => false,
    }
}

/// Is it a number that no word is the negative of?
fn is_low(kind: Option<Kind<'_>>) -> bool {
    match kind {
        Some(Kind::Word(_, digits)) => match number_of(digits) {
            Some(number) => number > 1 << 31,
            None => true,
        },
        _ => false,
    }
}

/// The first token of the value behind this target, where there is one: the sign between is `=`, or of two tokens.
fn value_of<'b, 'a>(target: Spot<'b, 'a>) -> Option<Spot<'b, 'a>> {
    let sign = target.moved(target_len(target));
    let is_long = is_mark(sign.ahead(1), Mark::Equals) || is_mark(sign.ahead(1), Mark::Greater);
    match sign.ahead(0) {
        Some(Kind::Sign(Mark::Equals | Mark::Less | Mark::Bang)) => Some(sign.moved(if is_long {
            2
        } else {
            1
        })),
        _ => None,
    }
}

/// What is said of the target and the value that begin with this token.
fn binding_words(columns: usize, spot: Spot<'_, '_>) -> Option<&'static str> {
    if let Some(words) = register_words(columns, spot) {
        return Some(words);
    }
    if is_out_of_range(value_of(spot)?) {
        return Some("numbers go from -2147483648 to 4294967295");
    }
    None
}

/// Is it x0?
fn is_x0(spot: Spot<'_, '_>) -> bool {
    match (spot.ahead(0), spot.ahead(2)) {
        (Some(Kind::Word(Class::Number, _)), Some(Kind::Word(_, register))) => {
            match Reg::of(register) {
                Some(register) => register.number() == 0,
                None => false,
            }
        }
        _ => false,
    }
}

/// What is said of an initial value whose target begins with this token.
pub(crate) fn entry_words(columns: usize, spot: Spot<'_, '_>) -> &'static str {
    if let Some(words) = binding_words(columns, spot) {
        return words;
    }
    if is_x0(spot) {
        return "x0 is always 0";
    }
    "it has an initial value already"
}

/// What is said of an atom that begins with this token.
pub(crate) fn atom_words(columns: usize, spot: Spot<'_, '_>) -> &'static str {
    match binding_words(columns, spot) {
        Some(words) => words,
        None => "a hart or a register that isn't there, or a number out of range",
    }
}
