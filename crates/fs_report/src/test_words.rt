//! Words of a test in print.

ghost use Rattle.std.specs.Prelude.{◌≡◌, ◌≤◌, length, IfOk, string_bytes};
ghost use Rattle.fs_kinds.specs.Limits.{most_locations};
ghost use Rattle.fs_model.specs.Printed.{name_of, value_text};

use fs_model::Location;
use std::alloc::{AllocError, Global};

/// The name of the location; none where there is no such location.
pub fn name_of(locations: &[Location], location: u8) -> &str
    ensures { result.now ≡ name_of locations.now location }
{
    match locations.get(usize::from(location)) {
        Some(location) => location.name.as_str(),
        None => "",
    }
}

/// The name of the location whose address the word is, or else the word in decimal. The error is want of memory.
pub fn value_text(alloc: Global, locations: &[Location], word: u32) -> Result<String, AllocError>
    requires { length locations.now ≤ most_locations }
    ensures { IfOk result (λ text. string_bytes text ≡ value_text locations.now word) }
{
    for (number, location) in locations.iter().enumerate() {
        if Location::address(number as u8) == word {
            return String::from_str(alloc, location.name.as_str());
        }
    }
    format!(in alloc; "{}", word)
}
