//! Places in a file as editors count them, and a line of it as it is shown.

ghost use Rattle.std.specs.Prelude.{◌≡◌, ◌+◌, ◌++◌, ◌<◌, ◌≤◌, ◌^◌, length, take, drop, string_bytes, List, ℕ, ◌∷◌};
ghost use Rattle.std.specs.Prelude.{IfOk, OnOk};
ghost use Rattle.fs_app_error_messages.specs.Places.{goes_on, behind, shown_byte, shown};
ghost use Rattle.fs_app_error_messages.specs.Messages.{place_of};

use crate::slices::up_to;
use std::alloc::AllocError;

/// A line and a column, both from 1 on, and the offset at which the line begins.
#[derive(Clone, Copy)]
pub struct Place {
    pub line: usize,
    pub column: usize,
    pub start: usize,
}

/// Does the byte go on with a character of UTF-8?
fn goes_on(byte: u8) -> bool
    ensures { result ≡ goes_on byte }
{
    byte >= 128 && byte < 192
}

/// The place behind a byte at this offset.
fn behind(place: Place, at: usize, byte: u8) -> Place
    requires line { place.line + 1 < 2 ^ 64 }
    requires column { place.column + 1 < 2 ^ 64 }
    requires at { at + 1 < 2 ^ 64 }
    ensures value { result ≡ behind place at byte }
    ensures line { result.line ≤ place.line + 1 }
    ensures column { result.column ≤ place.column + 1 }
    ensures some { 0 < place.column → 0 < result.column }
{
    if byte == b'\n' {
        return Place {
            line: place.line + 1,
            column: 1,
            start: at + 1,
        };
    }
    if goes_on(byte) {
        return place;
    }
    Place {
        line: place.line,
        column: place.column + 1,
        start: place.start,
    }
}

/// The place of the byte at an offset. A column counts characters. Linear in the offset.
pub(crate) fn place_of(bytes: &[u8], offset: usize) -> Place
    ensures value { result ≡ place_of bytes.now offset }
    ensures some { 0 < result.column }
{
    let mut place = Place {
        line: 1,
        column: 1,
        start: 0,
    };
    for (i, byte) in up_to(bytes, offset).iter().enumerate() {
        place = behind(place, i, *byte);
    }
    place
}

/// The character of this first byte, as it is shown.
fn shown_char(byte: u8) -> char
    ensures value { result ≡ shown_byte byte }
    ensures ascii { result < 128 }
{
    if byte >= 32 && byte < 127 {
        return byte as char;
    }
    if byte == b'\t' { ' ' } else { '?' }
}

/// Appends the character of this first byte, unless it is left out or there is no room; how many are to be left out
/// then, and the room.
fn push_char(
    text: &mut String,
    byte: u8,
    cut: usize,
    room: usize,
) -> Result<(usize, usize), AllocError>
    ensures { IfOk result (λ r. (rest : List ℕ) → string_bytes text.new ++ take r.1 (drop r.0 rest)
        ≡ string_bytes text.old ++ take room (drop cut (shown_byte byte ∷ rest))) }
{
    if cut > 0 {
        return Ok((cut - 1, room));
    }
    if room == 0 {
        return Ok((0, 0));
    }
    text.push(shown_char(byte))?;
    Ok((0, room - 1))
}

/// Appends characters as they are shown: so many, or as many as there are, after so many that are left out. Linear in
/// the bytes.
pub(crate) fn push_shown(
    text: &mut String,
    bytes: &[u8],
    cut: usize,
    most: usize,
) -> Result<(), AllocError>
    ensures { OnOk result (string_bytes text.new ≡ string_bytes text.old ++ take most (drop cut (shown bytes.now))) }
{
    let mut left = (cut, most);
    for byte in bytes {
        if !goes_on(*byte) {
            left = push_char(text, *byte, left.0, left.1)?;
        }
    }
    Ok(())
}
