//! What registers and locations begin with.

ghost use Rattle.std.specs.Prelude.{◌≡◌, map, IfOk};
ghost use Rattle.std.specs.List.{range_with_len};
ghost use Rattle.fs_litmus.specs.Starts.{word_at, registers_of, starts_of, AreLocations};
ghost use Rattle.fs_litmus.specs.Settings.{same_holder};

use crate::names::Names;
use crate::settings::{Holder, Setting};
use fs_model::{Location, Locations, Name, Registers, Starts};
use std::alloc::{AllocError, Global};

fn is_register(holder: Holder, hart: u32, register: u8) -> bool
    ensures { result ≡ same_holder holder (Holder.Register hart register) }
{
    match holder {
        Holder::Register(other, named) => other == hart && named == register,
        Holder::Location(_) => false,
    }
}

fn is_location(holder: Holder, location: usize) -> bool
    ensures { result ≡ same_holder holder (Holder.Location location) }
{
    match holder {
        Holder::Register(_, _) => false,
        Holder::Location(other) => other == location,
    }
}

/// The word that is set for a register, and 0 where none is.
fn register_word(settings: &[Setting], hart: u32, register: u8) -> u32
    ensures { result ≡ word_at settings.now (Holder.Register hart register) }
{
    for setting in settings {
        if is_register(setting.holder, hart, register) {
            return setting.word;
        }
    }
    0
}

/// The word that is set for a location, and 0 where none is.
fn location_word(settings: &[Setting], location: usize) -> u32
    ensures { result ≡ word_at settings.now (Holder.Location location) }
{
    for setting in settings {
        if is_location(setting.holder, location) {
            return setting.word;
        }
    }
    0
}

/// The words of the hart's registers below a number.
fn words_of(
    alloc: Global,
    settings: &[Setting],
    hart: u32,
    count: u8,
) -> Result<Vec<u32>, AllocError>
    ensures { IfOk result (λ v. v.items
        ≡ map (λ r. word_at settings.now (Holder.Register hart r)) (range_with_len 0 count)) }
{
    let mut words = Vec::new(alloc);
    for register in 0..count {
        words.push(register_word(settings, hart, register))?;
    }
    Ok(words)
}

fn registers_of(alloc: Global, settings: &[Setting], hart: u32) -> Result<Registers, AllocError>
    ensures { IfOk result (λ r. r ≡ registers_of settings.now hart) }
{
    Ok(Registers::new(words_of(alloc, settings, hart, 32)?))
}

/// The initial registers of each hart.
pub fn starts_of(alloc: Global, columns: u32, settings: &[Setting]) -> Result<Starts, AllocError>
    ensures { IfOk result (λ s. s ≡ starts_of columns settings.now) }
{
    let mut harts = Vec::new(alloc);
    for hart in 0..columns {
        harts.push(registers_of(alloc, settings, hart)?)?;
    }
    Ok(Starts::new(harts))
}

/// The locations, each with its initial word.
pub fn locations_of(
    alloc: Global,
    names: &Names,
    settings: &[Setting],
) -> Result<Locations, AllocError>
    ensures { IfOk result (λ l. AreLocations names.now settings.now l) }
{
    let mut all = Vec::new(alloc);
    for k in 0..names.len() {
        let name = Name::new(String::from_str(alloc, names.get(k))?);
        let word = location_word(settings, k);
        all.push(Location { name, word })?;
    }
    Ok(Locations::new(all))
}
