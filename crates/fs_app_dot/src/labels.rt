//! What a box says of its operation.

use crate::nodes::line_of;
use fs_app_why::Known;
use fs_instr::{Instr, write_instr};
use fs_kinds::{List, OperationName};
use fs_model::Location;
use std::alloc::{AllocError, Global};

/// The location whose address the word is.
fn location_of(locations: &[Location], word: u32) -> Option<&str> {
    for (number, location) in locations.iter().enumerate() {
        if Location::address_word(number) == word {
            return Some(location.name.as_str());
        }
    }
    None
}

/// Where an operation accesses.
fn write_place(locations: &[Location], address: u32, text: &mut String) -> Result<(), AllocError> {
    match location_of(locations, address) {
        Some(name) => text.push_str(name),
        None => write!(text, "{}", address),
    }
}

/// The word in decimal; an address as `&` and the name of its location.
fn write_word(locations: &[Location], word: u32, text: &mut String) -> Result<(), AllocError> {
    match location_of(locations, word) {
        Some(name) => write!(text, "&{}", name),
        None => write!(text, "{}", word),
    }
}

/// The word behind the location, if it is known.
fn write_is(
    locations: &[Location],
    word: Option<u32>,
    text: &mut String,
) -> Result<(), AllocError> {
    if let Some(word) = word {
        text.push_str("=")?;
        write_word(locations, word, text)?;
    }
    Ok(())
}

fn loads(instr: &Instr) -> bool {
    matches!(
        instr,
        Instr::Lw { .. } | Instr::Lr { .. } | Instr::Amo { .. }
    )
}

/// What is loaded, as `reads x=0 (initial)`.
fn write_load(
    locations: &[Location],
    address: u32,
    known: Known,
    text: &mut String,
) -> Result<(), AllocError> {
    text.push_str("\nreads ")?;
    write_place(locations, address, text)?;
    write_is(locations, known.loaded, text)?;
    if known.is_initial {
        text.push_str(" (initial)")?;
    }
    Ok(())
}

/// What is stored, as `stores x=1`.
fn write_store(
    locations: &[Location],
    address: u32,
    known: Known,
    text: &mut String,
) -> Result<(), AllocError> {
    text.push_str("\nstores ")?;
    write_place(locations, address, text)?;
    write_is(locations, known.stored, text)
}

/// What an AMO stores.
fn write_also(locations: &[Location], known: Known, text: &mut String) -> Result<(), AllocError> {
    match known.stored {
        Some(word) => {
            text.push_str(", stores ")?;
            write_word(locations, word, text)
        }
        None => text.push_str(", stores to it"),
    }
}

fn is_amo(instr: &Instr) -> bool {
    matches!(instr, Instr::Amo { .. })
}

/// What the operation does, as far as it is known; nothing where its location isn't.
pub(crate) fn write_does(
    locations: &[Location],
    known: Known,
    instr: &Instr,
    text: &mut String,
) -> Result<(), AllocError> {
    let Some(address) = known.address else {
        return Ok(());
    };
    if !loads(instr) {
        return write_store(locations, address, known, text);
    }
    write_load(locations, address, known, text)?;
    if is_amo(instr) {
        write_also(locations, known, text)?;
    }
    Ok(())
}

/// What each box begins with: the operation's name, its line and its instruction.
pub(crate) fn write_head(
    lines: &[List<usize>],
    name: OperationName,
    instr: &Instr,
    text: &mut String,
) -> Result<(), AllocError> {
    write!(text, "{}  line {}\n", name, line_of(lines, name))?;
    write_instr(instr, text)
}
