//! Values as logs write them.

ghost use Rattle.std.specs.Prelude.{◌≡◌, true, IfOk, IfSome};
ghost use Rattle.fs_model.specs.Test.{address_of, IsBounded};
ghost use Rattle.fs_litmus.specs.Settings.{signed};
ghost use Rattle.fs_app_states.specs.Rows.{number_in, IsAddress, IsValue};

use crate::place_named;
use fs_judge_outcomes::Place;
use fs_litmus_tokens::number_of;
use fs_model::{Location, Test};
use std::alloc::{AllocError, Global};

/// The word of a number with a minus before it.
fn negative(number: u32) -> Option<u32>
    ensures { result ≡ signed true number }
{
    if number > 1 << 31 {
        None
    } else {
        Some(number.wrapping_neg())
    }
}

/// The word of a number, with a minus before it or without.
#[tactic(auto, unfolding(crate::specs::Rows::number_in))]
fn number_in(text: &str) -> Option<u32>
    ensures { result ≡ number_in text.now }
{
    match text.strip_prefix("-") {
        Some(digits) => negative(number_of(digits)?),
        None => number_of(text),
    }
}

/// The address of the location that the text names.
fn address_in(alloc: Global, test: &Test, text: &str) -> Result<Option<u32>, AllocError>
    requires { IsBounded test.now }
    ensures { IfOk result (λ found. IfSome found (IsAddress test.now text.now)) }
{
    match place_named(alloc, test, text)? {
        Some(Place::Location(location)) => Ok(Some(Location::address(location))),
        _ => Ok(None),
    }
}

/// The word that the text is the value of: a number from -2147483648 to 4294967295, decimal or hexadecimal, or the name
/// of a location. Linear in the text. Fails only for want of memory.
pub(crate) fn word_in(alloc: Global, test: &Test, text: &str) -> Result<Option<u32>, AllocError>
    requires { IsBounded test.now }
    ensures { IfOk result (λ found. IfSome found (IsValue test.now text.now)) }
{
    match number_in(text) {
        Some(number) => Ok(Some(number)),
        None => address_in(alloc, test, text),
    }
}
