//! What is said of prices, witnesses and certificates that aren't of their forms.

ghost use Rattle.std.specs.Prelude.{◌≤◌, IfOk, length, string_bytes};
ghost use Rattle.fs_app_error_messages.specs.Explained.{IsJson, IsJsonMessage};

use crate::message::message;
use crate::places::push_shown;
use fs_kinds::{Fault, Kind, Slot};
use serde_json::{Error, Value};
use std::alloc::{AllocError, Global};

/// How many characters of a key are shown.
const MOST_KEY: usize = 40;

/// What is wrong at a key.
fn key_words(alloc: Global, key: &str, words: &str) -> Result<String, AllocError> {
    let mut text = String::from_str(alloc, "`")?;
    push_shown(&mut text, key.as_bytes(), 0, MOST_KEY)?;
    text.push_str("`: ")?;
    text.push_str(words)?;
    Ok(text)
}

/// The offset at which a line begins, from 1 on.
fn line_start(bytes: &[u8], line: usize) -> usize {
    let mut left = line.saturating_sub(1);
    for (i, byte) in bytes.iter().enumerate() {
        if left == 0 {
            return i;
        }
        if *byte == b'\n' {
            left -= 1;
        }
    }
    bytes.len()
}

/// The offset of a line and a column, both from 1 on, in bytes; the end where there is none.
pub(crate) fn offset_at(bytes: &[u8], line: usize, column: usize) -> usize
    ensures { result ≤ length bytes.now }
{
    let offset = line_start(bytes, line).saturating_add(column.saturating_sub(1));
    if offset < bytes.len() {
        offset
    } else {
        bytes.len()
    }
}

/// Is it a whole number in this range?
fn is_whole(value: &Value, least: u64, most: u64) -> bool {
    match value.as_u64() {
        Some(number) => least <= number && number <= most,
        None => false,
    }
}

/// What is wrong with the weights of prices.
fn weights_words(alloc: Global, value: &Value) -> Result<Option<String>, AllocError> {
    let Some(members) = value.as_object() else {
        return Ok(Some(String::from_str(
            alloc,
            "`weights`: expected an object from slots, as `P0:3`, to weights",
        )?));
    };
    for (name, value) in members {
        if Slot::of(name.as_str()).is_none() {
            return Ok(Some(key_words(alloc, name.as_str(), "expected a slot's name, as `P0:3`")?));
        }
        if !is_whole(value, 0, 1000) {
            return Ok(Some(key_words(
                alloc,
                name.as_str(),
                "a weight is a whole number from 0 to 1000",
            )?));
        }
    }
    Ok(None)
}

/// What is said of a word that is no kind.
pub(crate) const KINDS: &str =
    "no kind of fence; these are r,r r,w r,rw w,r w,w w,rw rw,r rw,w rw,rw tso";

/// What is wrong with a member of prices.
fn price_words(alloc: Global, name: &str, value: &Value) -> Result<Option<String>, AllocError> {
    if name == "weights" {
        return weights_words(alloc, value);
    }
    if Kind::of(name).is_none() {
        return Ok(Some(key_words(alloc, name, KINDS)?));
    }
    if !is_whole(value, 1, 1_000_000) {
        return Ok(Some(key_words(alloc, name, "a price is a whole number from 1 to 1000000")?));
    }
    Ok(None)
}

fn prices_words(alloc: Global, value: &Value) -> Result<String, AllocError> {
    let Some(members) = value.as_object() else {
        return String::from_str(
            alloc,
            "expected an object from kinds of fence to prices, as `{\"rw,rw\":10}`",
        );
    };
    for (name, value) in members {
        if let Some(found) = price_words(alloc, name.as_str(), value)? {
            return Ok(found);
        }
    }
    String::from_str(alloc, "`rw,rw` needs a price")
}

/// Is it an object with so many keys?
fn has_keys(value: &Value, count: usize) -> bool {
    match value.as_object() {
        Some(members) => members.len() == count,
        None => false,
    }
}

fn witness_words(alloc: Global, value: &Value) -> Result<String, AllocError> {
    if !has_keys(value, 2) || value.get("choices").is_none() || value.get("order").is_none() {
        return String::from_str(
            alloc,
            "expected an object with the keys `choices` and `order` alone",
        );
    }
    String::from_str(
        alloc,
        "expected in `choices` a list for each hart of words, `true` and `false`, and in `order` names as `P0:2`",
    )
}

fn certificate_words(alloc: Global, value: &Value) -> Result<String, AllocError> {
    if !has_keys(value, 5) {
        return String::from_str(
            alloc,
            "expected an object with the keys `answer`, `cycles`, `tree`, `version` and `witnesses` alone",
        );
    }
    for key in ["answer", "cycles", "tree", "version", "witnesses"] {
        if value.get(key).is_none() {
            return key_words(alloc, key, "this key is missing");
        }
    }
    String::from_str(
        alloc,
        "the value at some key isn't as docs/CERTIFICATE.md, section 1, has it",
    )
}

/// What is wrong with a JSON value for which this fault was given.
pub(crate) fn value_words(
    alloc: Global,
    value: &Value,
    fault: Fault,
) -> Result<String, AllocError> {
    match fault {
        Fault::BadPrices | Fault::NoTop => prices_words(alloc, value),
        Fault::BadWitness => witness_words(alloc, value),
        Fault::BadCertificate => certificate_words(alloc, value),
        _ => String::from_str(alloc, "no more is known"),
    }
}

/// The message of a JSON file whose value is of no use.
fn value_note(
    alloc: Global,
    name: &str,
    bytes: &[u8],
    fault: Fault,
    value: &Value,
) -> Result<String, AllocError>
    requires { IsJson bytes.now }
    ensures { IfOk result (λ text. IsJsonMessage name.now bytes.now fault (string_bytes text)) }
{
    let words = value_words(alloc, value, fault)?;
    message(alloc, name, bytes, fault, None, words.as_str())
}

/// The message of a file that is no JSON.
fn text_note(
    alloc: Global,
    name: &str,
    bytes: &[u8],
    fault: Fault,
    error: &Error,
) -> Result<String, AllocError>
    requires { ¬ IsJson bytes.now }
    ensures { IfOk result (λ text. IsJsonMessage name.now bytes.now fault (string_bytes text)) }
{
    let offset = offset_at(bytes, error.line(), error.column());
    message(
        alloc,
        name,
        bytes,
        fault,
        Some(offset),
        "here it stops being JSON",
    )
}

/// What is said of prices, a witness or a certificate that isn't of its form: where the text stops being JSON, or else
/// in words what is wrong. Linear in the bytes. Fails only for want of memory.
pub fn explain_json(
    alloc: Global,
    name: &str,
    bytes: &[u8],
    fault: Fault,
) -> Result<String, AllocError>
    ensures { IfOk result (λ text. IsJsonMessage name.now bytes.now fault (string_bytes text)) }
{
    match Value::from_slice(alloc, bytes) {
        Ok(value) => value_note(alloc, name, bytes, fault, &value),
        Err(error) if error.is_memory() => Err(AllocError),
        Err(error) => text_note(alloc, name, bytes, fault, &error),
    }
}
