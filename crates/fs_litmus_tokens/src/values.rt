//! What initial values and conditions are made of, and how a reader of tokens refuses.

use crate::token::Token;
use std::alloc::AllocError;

/// What has a value, as written: a register of a hart (the words for both), or a location.
#[derive(Clone, Copy)]
pub enum Target<'a> {
    Register { hart: &'a str, register: &'a str },
    Location(&'a str),
}

/// A value as written: the word of a number, with a minus before it or without, or the name of a location, which means
/// its address.
#[derive(Clone, Copy)]
pub enum Value<'a> {
    Number { negative: bool, digits: &'a str },
    Address(&'a str),
}

/// Why nothing was read: memory was refused, or the tokens stop being of the form. Then these are the tokens from the
/// first on that can't stand where it stands, and none where the tokens end too soon.
#[derive(Clone, Copy)]
pub enum Stop<'b, 'a> {
    Memory,
    At(&'b [Token<'a>]),
}

impl From<AllocError> for Stop<'_, '_> {
    ghost use Rattle.std.specs.Prelude.{◌≡◌};
    ghost use Rattle.fs_litmus_tokens.specs.declared.values.Stop.TheVariants.{Memory};

    ghost from_gives = { λ _ e. e ≡ Memory };

    fn from(_error: AllocError) -> Self {
        Stop::Memory
    }
}
