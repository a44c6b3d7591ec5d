//! Words of a test in an explanation.

ghost use Rattle.std.specs.Prelude.{◌≡◌, ◌≤◌, [], codes, length, if◌then◌else◌, IfOk, string_bytes};
ghost use Rattle.fs_kinds.specs.Limits.{most_locations};
ghost use Rattle.fs_model.specs.Forms.{is_loading, is_storing};
ghost use Rattle.fs_app_why.specs.Words.{is_address, word_text, place_text};

use crate::instruction_words::line_of;
use fs_instr::Instr;
use fs_kinds::{List, OperationName};
use fs_model::Location;
use fs_report::value_text;
use std::alloc::{AllocError, Global};

/// Is the word the address of a location?
fn is_address(locations: &[Location], word: u32) -> bool
    requires { length locations.now ≤ most_locations }
    ensures { result ≡ is_address locations.now word }
{
    let count = locations.len() as u8;
    (0..count).any(|location| Location::address(location) == word)
}

fn sign(is_address: bool) -> &'static str
    ensures { result.now ≡ (if is_address then codes "&" else []) }
{
    if is_address { "&" } else { "" }
}

/// The word in decimal; an address as `&` and the name of its location.
pub(crate) fn word_text(
    alloc: Global,
    locations: &[Location],
    word: u32,
) -> Result<String, AllocError>
    requires { length locations.now ≤ most_locations }
    ensures { IfOk result (λ text. string_bytes text ≡ word_text locations.now word) }
{
    let value = value_text(alloc, locations, word)?;
    let sign = sign(is_address(locations, word));
    format!(in alloc; "{}{}", sign, value.as_str())
}

/// Does the instruction load?
pub(crate) fn loads(instr: &Instr) -> bool
    ensures { result ≡ is_loading instr.now }
{
    matches!(
        instr,
        Instr::Lw { .. } | Instr::Lr { .. } | Instr::Amo { .. }
    )
}

/// Does it store?
pub(crate) fn stores(instr: &Instr) -> bool
    ensures { result ≡ is_storing instr.now }
{
    matches!(
        instr,
        Instr::Sw { .. } | Instr::Sc { .. } | Instr::Amo { .. }
    )
}

/// The operation with its line, as `P0:1 (line 14)`. The error is want of memory.
pub fn place_text(
    alloc: Global,
    lines: &[List<usize>],
    name: OperationName,
) -> Result<String, AllocError>
    ensures { IfOk result (λ text. string_bytes text ≡ place_text lines.now name) }
{
    let line = line_of(lines, name);
    format!(in alloc; "{} (line {})", name, line)
}
