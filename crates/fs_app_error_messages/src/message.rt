//! What is printed of a fault beside its line.

ghost use Rattle.std.specs.Prelude.{◌≡◌, ◌++◌, ◌<◌, string_bytes, IfOk, OnOk};
ghost use Rattle.fs_litmus.specs.Title.{line_of, is_within_line};
ghost use Rattle.std.specs.List.{prefix_len};
ghost use Rattle.fs_app_error_messages.specs.Explained.{IsPlaceless, IsFenceNote};
ghost use Rattle.fs_app_error_messages.specs.Messages.{source_lines, name_text, message_at, message_of, message};
ghost use Rattle.fs_app_error_messages.specs.Messages.{place_of, cut};

use crate::places::{Place, place_of, push_shown};
use crate::slices::{from, up_to};
use fs_kinds::Fault;
use std::alloc::{AllocError, Global};

/// How many characters of a line are shown.
const MOST_SHOWN: usize = 100;

/// How many of them stand before the caret, at most.
const MOST_BEFORE: usize = 60;

/// How many characters of a file's name are shown.
const MOST_NAME: usize = 4096;

/// How many bytes stand before the first LF.
fn line_len(bytes: &[u8]) -> usize
    ensures { result ≡ prefix_len is_within_line bytes.now }
{
    for (i, byte) in bytes.iter().enumerate() {
        if *byte == b'\n' {
            return i;
        }
    }
    bytes.len()
}

/// The bytes of the first line, without its LF.
fn line_of(bytes: &[u8]) -> &[u8]
    ensures { result.now ≡ line_of bytes.now }
{
    up_to(bytes, line_len(bytes))
}

/// How many characters at the front of a line are cut off.
fn cut(column: usize) -> usize
    ensures { result ≡ cut column }
{
    column.saturating_sub(1).saturating_sub(MOST_BEFORE)
}

/// Appends the name of a file.
fn push_name(text: &mut String, name: &str) -> Result<(), AllocError>
    ensures { OnOk result (string_bytes text.new ≡ string_bytes text.old ++ name_text name.now) }
{
    push_shown(text, name.as_bytes(), 0, MOST_NAME)
}

/// A name of a file, a test or a word as it is shown to people: a tab as a blank, any other character that isn't of
/// ASCII's printable ones as `?`, and at most 4096 characters. Linear in the name. Fails only for want of memory.
pub fn shown_name(alloc: Global, name: &str) -> Result<String, AllocError>
    ensures { IfOk result (λ text. string_bytes text ≡ name_text name.now) }
{
    let mut text = String::new(alloc);
    push_name(&mut text, name)?;
    Ok(text)
}

/// Appends the line at a place, and below it the caret and a hint.
fn push_source(
    alloc: Global,
    text: &mut String,
    bytes: &[u8],
    place: Place,
    hint: &str,
) -> Result<(), AllocError>
    ensures { OnOk result (string_bytes text.new ≡ string_bytes text.old ++ source_lines bytes.now place hint.now) }
{
    let cut = cut(place.column);
    text.push_str("  ")?;
    push_shown(text, line_of(from(bytes, place.start)), cut, MOST_SHOWN)?;
    text.push_str("\n  ")?;
    let spaces = " ".repeat(alloc, place.column.saturating_sub(1).saturating_sub(cut))?;
    text.push_str(spaces.as_str())?;
    text.push_str("^ ")?;
    text.push_str(hint)?;
    text.push_str("\n")?;
    Ok(())
}

/// The message of a fault at an offset.
fn message_at(
    alloc: Global,
    name: &str,
    bytes: &[u8],
    fault: Fault,
    offset: usize,
    hint: &str,
) -> Result<String, AllocError>
    ensures { IfOk result (λ text. string_bytes text
        ≡ message_at name.now bytes.now fault (place_of bytes.now offset) hint.now) }
{
    let place = place_of(bytes, offset);
    let mut text = String::new(alloc);
    push_name(&mut text, name)?;
    writeln!(text, ":{}:{}: {fault}", place.line, place.column)?;
    push_source(alloc, &mut text, bytes, place, hint)?;
    Ok(text)
}

/// The message of a fault without a place.
fn message_of(alloc: Global, name: &str, fault: Fault, hint: &str) -> Result<String, AllocError>
    ensures { IfOk result (λ text. string_bytes text ≡ message_of name.now fault hint.now) }
{
    let mut text = String::new(alloc);
    push_name(&mut text, name)?;
    writeln!(text, ": {fault}")?;
    text.push_str("  ")?;
    text.push_str(hint)?;
    text.push_str("\n")?;
    Ok(text)
}

/// The lines that are printed of a fault beside its own: the file's name, its line and column where the fault has an
/// offset, and the fault; the line of the file; a caret below it, and a hint. Linear in the bytes. Fails only for want
/// of memory.
pub(crate) fn message(
    alloc: Global,
    name: &str,
    bytes: &[u8],
    fault: Fault,
    offset: Option<usize>,
    hint: &str,
) -> Result<String, AllocError>
    ensures { IfOk result (λ text. string_bytes text ≡ message name.now bytes.now fault offset hint.now) }
{
    match offset {
        Some(offset) => message_at(alloc, name, bytes, fault, offset, hint),
        None => message_of(alloc, name, fault, hint),
    }
}

/// The message of a fault that has no place.
pub(crate) fn placeless(
    alloc: Global,
    name: &str,
    fault: Fault,
    hint: &str,
) -> Result<String, AllocError>
    ensures { IfOk result (λ text. IsPlaceless name.now fault (string_bytes text)) }
{
    message_of(alloc, name, fault, hint)
}

/// The message of a FENCE word.
pub(crate) fn fence_note(alloc: Global, word: &str, hint: &str) -> Result<String, AllocError>
    ensures { IfOk result (λ text. IsFenceNote (string_bytes text)) }
{
    message_of(alloc, word, Fault::BadFence, hint)
}
