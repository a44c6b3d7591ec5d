//! What is said of FENCE words, and of files that aren't read.

ghost use Rattle.std.specs.Prelude.{◌≡◌, None, IfOk, string_bytes};
ghost use Rattle.fs_app_error_messages.specs.Explained.{IsFenceNote};
ghost use Rattle.fs_app_error_messages.specs.Messages.{unread_line};

use crate::json::KINDS;
use crate::located::Located;
use crate::message::{fence_note, shown_name};
use fs_kinds::{Fault, Kind, Prices, Slot, read_fence, read_prices};
use fs_litmus::{read_test, slots};
use std::alloc::{AllocError, Global};

/// Does an earlier word name the slot?
fn is_named(words: &[String], slot: Slot) -> bool {
    for word in words {
        if let Some((other, _)) = read_fence(word.as_str()) {
            if other == slot {
                return true;
            }
        }
    }
    false
}

fn is_offered(prices: Option<&Prices>, kind: Kind) -> bool {
    match prices {
        Some(prices) => prices.of(kind).is_some(),
        None => true,
    }
}

/// What is said of a word that isn't of the form.
fn shape_words(word: &str) -> &'static str {
    match word.split_once('=') {
        Some((_, kind)) if Kind::of(kind).is_none() => KINDS,
        _ => "expected hart, instruction and kind, as `P0:3=w,w`",
    }
}

/// What is wrong with a word, behind these and for a test with these slots.
fn word_words(
    word: &str,
    before: &[String],
    slots: &[Slot],
    prices: Option<&Prices>,
) -> Option<&'static str> {
    let Some((slot, kind)) = read_fence(word) else {
        return Some(shape_words(word));
    };
    if !slots.contains(&slot) {
        return Some(
            "no slot of the test: expected a memory instruction that isn't the first of its hart, counted from 0",
        );
    }
    if is_named(before, slot) {
        return Some("an earlier word names this slot");
    }
    if !is_offered(prices, kind) {
        return Some("the prices don't offer this kind");
    }
    None
}

/// The first word that has a fault, and what is wrong with it.
fn first_word<'a>(
    words: &'a [String],
    slots: &[Slot],
    prices: Option<&Prices>,
) -> Option<(&'a str, &'static str)> {
    for (i, word) in words.iter().enumerate() {
        if let Some(said) = word_words(word.as_str(), &words[..i], slots, prices) {
            return Some((word.as_str(), said));
        }
    }
    None
}

/// The slots of a test file, none where it is none.
fn slots_of(alloc: Global, test: &[u8]) -> Result<Vec<Slot>, AllocError> {
    let test = match read_test(alloc, test) {
        Ok(test) => test,
        Err(Fault::Memory) => return Err(AllocError),
        Err(_) => return Ok(Vec::new(alloc)),
    };
    match slots(alloc, &test) {
        Ok(slots) => Ok(slots),
        Err(_) => Err(AllocError),
    }
}

/// What is said of the first FENCE word that isn't of the form, or doesn't fit the test and the prices: the word
/// stands in place of a file's name. Fails only for want of memory.
pub fn explain_fences(
    alloc: Global,
    words: &[String],
    test: &[u8],
    prices: Option<&[u8]>,
) -> Result<String, AllocError>
    ensures { IfOk result (λ text. IsFenceNote (string_bytes text)) }
{
    let slots = slots_of(alloc, test)?;
    let prices = match prices {
        Some(bytes) => read_prices(alloc, bytes).ok(),
        None => None,
    };
    match first_word(words, &slots, prices.as_ref()) {
        Some((word, said)) => fence_note(alloc, word, said),
        None => fence_note(alloc, "FENCE", "no more is known"),
    }
}

/// What is said of that word, behind it, in one line. No word is at a place of a file. Fails only for want of memory.
pub fn locate_fences(alloc: Global, words: &[String], test: &[u8]) -> Result<Located, AllocError>
    ensures { IfOk result (λ found. found.place ≡ None) }
{
    let slots = slots_of(alloc, test)?;
    let hint = match first_word(words, &slots, None) {
        Some((word, said)) => format!(in alloc; "{}: {}", word, said)?,
        None => String::from_str(alloc, "no more is known")?,
    };
    Ok(Located { place: None, hint })
}

/// The line that says of a file why it isn't read. Fails only for want of memory.
pub fn explain_unread(alloc: Global, name: &str, why: &str) -> Result<String, AllocError>
    ensures { IfOk result (λ text. string_bytes text ≡ unread_line name.now why.now) }
{
    let mut text = shown_name(alloc, name)?;
    text.push_str(": ")?;
    text.push_str(why)?;
    text.push_str("\n")?;
    Ok(text)
}
