//! The lines of a log, each by itself and without the blanks at its ends.

ghost use Rattle.std.specs.Prelude.{◌≡◌, ◌==◌, option_map, map, IfOk};
ghost use Rattle.std.specs.Char.{is_ascii_digit, is_ascii_whitespace};
ghost use Rattle.std.specs.List.{list_all, list_any, slice_split};
ghost use Rattle.std.specs.Option.{is_some};
ghost use Rattle.fs_app_states.specs.Blocks.{item_now, pairs_now, split_now};
ghost use Rattle.fs_app_io.specs.Lines.{pair_now};
ghost use Rattle.fs_app_states.specs.Lines.{cut, before_last, behind_first, begins_blank, behind_test, is_kind};
ghost use Rattle.fs_app_states.specs.Lines.{is_number, is_word};
ghost use Rattle.fs_app_states.specs.Lines.{in_brackets, is_looped, is_outcome, is_verdict, item_of, items_in};
ghost use Rattle.fs_app_states.specs.Lines.{items_of, number_in, times_in, times_of};
ghost use Rattle.fs_app_states.specs.Lines.{title_of, count_of};

use crate::log::Item;
use fs_kinds::List;
use std::alloc::{AllocError, Global};

/// How many states a block has, and whether each of them has a count.
#[derive(Clone, Copy)]
pub(crate) struct Count {
    pub(crate) states: u64,
    pub(crate) counted: bool,
}

/// What stands before the first `=`, and behind it.
fn cut_equals(text: &str) -> Option<(&str, &str)>
    ensures { pair_now result ≡ cut 61 text.now }
{
    text.split_once('=')
}

/// What stands before the first blank, and behind it.
fn cut_blank(text: &str) -> Option<(&str, &str)>
    ensures { pair_now result ≡ cut 32 text.now }
{
    text.split_once(' ')
}

/// What stands before the first `>`, and behind it.
fn cut_arrow(text: &str) -> Option<(&str, &str)>
    ensures { pair_now result ≡ cut 62 text.now }
{
    text.split_once('>')
}

/// The text without the `:` at its end.
fn before_colon(text: &str) -> Option<&str>
    ensures { option_map (λ front. front.now) result ≡ before_last 58 text.now }
{
    text.strip_suffix(':')
}

/// The text without the `*` at its end.
fn before_star(text: &str) -> Option<&str>
    ensures { option_map (λ front. front.now) result ≡ before_last 42 text.now }
{
    text.strip_suffix('*')
}

/// The text without the `;` at its end.
fn before_semicolon(text: &str) -> Option<&str>
    ensures { option_map (λ front. front.now) result ≡ before_last 59 text.now }
{
    text.strip_suffix(';')
}

/// The text without the `(` at its start.
fn behind_bracket(text: &str) -> Option<&str>
    ensures { option_map (λ rest. rest.now) result ≡ behind_first 40 text.now }
{
    text.strip_prefix('(')
}

/// Is each byte a decimal digit?
fn are_digits(bytes: &[u8]) -> bool
    ensures { result ≡ list_all is_ascii_digit bytes.now }
{
    bytes.iter().all(|byte| byte.is_ascii_digit())
}

/// The number that decimal digits write, below 2^64.
fn number_in(digits: &str) -> Option<u64>
    ensures { result ≡ number_in digits.now }
{
    if are_digits(digits.as_bytes()) {
        digits.parse().ok()
    } else {
        None
    }
}

/// Has it a blank?
fn has_blank(bytes: &[u8]) -> bool
    ensures { result ≡ list_any is_ascii_whitespace bytes.now }
{
    bytes.iter().any(|byte| byte.is_ascii_whitespace())
}

/// Is it some letters without blanks between them?
fn is_word(text: &str) -> bool
    ensures { result ≡ is_word text.now }
{
    !text.is_empty() && !has_blank(text.as_bytes())
}

/// Is it empty, or begins it with a blank?
fn begins_blank(bytes: &[u8]) -> bool
    ensures { result ≡ begins_blank bytes.now }
{
    match bytes.first() {
        Some(byte) => byte.is_ascii_whitespace(),
        None => true,
    }
}

/// What stands behind the word `Test` with which the line begins.
fn behind_test(line: &str) -> Option<&str>
    ensures { option_map (λ rest. rest.now) result ≡ behind_test line.now }
{
    let rest = line.strip_prefix("Test")?;
    if begins_blank(rest.as_bytes()) {
        Some(rest)
    } else {
        None
    }
}

/// Is the first word of the line `Test`?
pub(crate) fn begins_title(line: &str) -> bool
    ensures { result ≡ is_some (behind_test line.now) }
{
    behind_test(line).is_some()
}

/// Does it say what kind of condition the test has?
fn is_kind(word: &str) -> bool
    ensures { result ≡ is_kind word.now }
{
    word == "Allowed" || word == "Required" || word == "Forbidden"
}

/// The name of the test whose block the line begins, such as `SB` for `Test SB Allowed`.
pub(crate) fn title_of(line: &str) -> Option<&str>
    ensures { option_map (λ name. name.now) result ≡ title_of line.now }
{
    let (name, kind) = cut_blank(behind_test(line)?.trim())?;
    if is_word(name) && is_kind(kind.trim()) {
        Some(name)
    } else {
        None
    }
}

/// How many states there are, as `(3 states)` says.
fn in_brackets(text: &str) -> Option<u64>
    ensures { result ≡ in_brackets text.now }
{
    let (digits, word) = cut_blank(behind_bracket(text)?)?;
    if word.trim() == "states)" {
        number_in(digits)
    } else {
        None
    }
}

/// How many states follow, as `States 4` of herd7 and `Histogram (3 states)` of litmus7 say.
pub(crate) fn count_of(line: &str) -> Option<Count>
    ensures { result ≡ count_of line.now }
{
    let (word, rest) = cut_blank(line)?;
    match word {
        "States" => Some(Count {
            states: number_in(rest.trim())?,
            counted: false,
        }),
        "Histogram" => Some(Count {
            states: in_brackets(rest.trim())?,
            counted: true,
        }),
        _ => None,
    }
}

/// How often, as `499   :` says, or with `*` for `:` where the condition is true of the state.
fn times_in(front: &str) -> Option<u64>
    ensures { result ≡ times_in front.now }
{
    let digits = before_colon(front).or(before_star(front))?;
    number_in(digits.trim())
}

/// How often a state was seen, and its items: `499   :>0:x7=1;`.
pub(crate) fn times_of(line: &str) -> Option<(u64, &str)>
    ensures { split_now result ≡ times_of line.now }
{
    let (front, items) = cut_arrow(line)?;
    Some((times_in(front)?, items.trim()))
}

/// A place, `=` and a value.
fn item_of(text: &str) -> Option<Item<'_>>
    ensures { option_map item_now result ≡ item_of text.now }
{
    let (place, value) = cut_equals(text)?;
    if is_word(place) && is_word(value) {
        Some(Item { place, value })
    } else {
        None
    }
}

/// The pieces between `;`.
fn pieces_of<'a>(alloc: Global, text: &'a str) -> Result<Vec<&'a str>, AllocError>
    ensures { IfOk result (λ made. map (λ piece. piece.now) made.items ≡ slice_split (λ b. b == 59) text.now) }
{
    text.split(';').collect(alloc)
}

/// The items that the pieces are.
fn items_in<'a>(alloc: Global, pieces: &[&'a str]) -> Result<Option<List<Item<'a>>>, AllocError>
    ensures { IfOk result (λ made. pairs_now made ≡ items_in (map (λ piece. piece.now) pieces.now)) }
{
    let mut items = Vec::new(alloc);
    for piece in pieces {
        let Some(item) = item_of(piece.trim()) else {
            return Ok(None);
        };
        items.push(item)?;
    }
    Ok(Some(List::new(items)))
}

/// The items of a state, each ended by `;`.
pub(crate) fn items_of<'a>(
    alloc: Global,
    text: &'a str,
) -> Result<Option<List<Item<'a>>>, AllocError>
    ensures { IfOk result (λ made. pairs_now made ≡ items_of text.now) }
{
    if text.is_empty() {
        return Ok(Some(List::new(Vec::new(alloc))));
    }
    let Some(inner) = before_semicolon(text) else {
        return Ok(None);
    };
    items_in(alloc, &pieces_of(alloc, inner)?)
}

/// Does it say whether the condition was met?
fn is_verdict(word: &str) -> bool
    ensures { result ≡ is_verdict word.now }
{
    word == "Ok" || word == "No"
}

/// Is it such a word behind `Loop`, which says that herd7 cut runs off?
fn is_looped(line: &str) -> bool
    ensures { result ≡ is_looped (cut 32 line.now) }
{
    match cut_blank(line) {
        Some((word, rest)) => word == "Loop" && is_verdict(rest.trim()),
        None => false,
    }
}

/// Does the line say whether the condition was met?
pub(crate) fn is_outcome(line: &str) -> bool
    ensures { result ≡ is_outcome line.now }
{
    is_verdict(line) || is_looped(line)
}
