//! What is said of the token that breaks the form of a test file: what was expected, or what this profile leaves out.
//! These words promise nothing.

use crate::words::{operand_words, unknown_words};
use fs_instr::Op;
use fs_litmus_syntax::{read_body, read_condition, read_header, read_init};
use fs_litmus_tokens::{Class, Kind, Mark, Stop, Token};
use std::alloc::{AllocError, Global};

/// The tokens of a file, and the number of one of them, or how many they are.
#[derive(Clone, Copy)]
pub(crate) struct Spot<'b, 'a> {
    pub tokens: &'b [Token<'a>],
    pub number: usize,
}

/// Where the form of a file breaks.
#[derive(Clone, Copy)]
enum Section {
    Init,
    Header,
    Rows,
    Condition,
    Cell,
}

impl<'b, 'a> Spot<'b, 'a> {
    /// The token so many behind the one that is meant.
    pub(crate) fn ahead(self, count: usize) -> Option<Kind<'a>> {
        let number = self.number.checked_add(count)?;
        Some(self.tokens.get(number)?.kind)
    }

    /// The token so many before the one that is meant.
    pub(crate) fn back(self, count: usize) -> Option<Kind<'a>> {
        let number = self.number.checked_sub(count)?;
        Some(self.tokens.get(number)?.kind)
    }

    /// The same tokens, and one that is so many further.
    pub(crate) fn moved(self, count: usize) -> Spot<'b, 'a> {
        Spot {
            tokens: self.tokens,
            number: self.number.saturating_add(count),
        }
    }
}

/// Is it this mark?
pub(crate) fn is_mark(kind: Option<Kind<'_>>, mark: Mark) -> bool {
    match kind {
        Some(Kind::Sign(found)) => found == mark,
        _ => false,
    }
}

fn is_word(kind: Option<Kind<'_>>) -> bool {
    matches!(kind, Some(Kind::Word(_, _)))
}

fn is_this_word(kind: Kind<'_>, word: &str) -> bool {
    match kind {
        Kind::Word(_, found) => found == word,
        _ => false,
    }
}

/// What is said of a character that begins no token.
const STRANGE_WORDS: &str =
    "this character is no token: comments are `(* .. *)`; sums, as `x+4`, and strings are left out";

/// What is said of a label that is no name or number.
const LABEL_WORDS: &str =
    "a label is a name without a `.`, as `L1`, or a number, as `1`, to which branches go by `1f`";

/// What is said of an array.
const ARRAY_WORDS: &str = "arrays are left out: write a location for each element";

/// What is said of a `:` behind a hart that isn't a number.
const HART_WORDS: &str = "a hart is a number: write `0:x5` for `P0:x5`";

/// In the initial values.
fn init_words(spot: Spot<'_, '_>) -> &'static str {
    let Some(found) = spot.ahead(0) else {
        return "the file ends before the `}` of the initial values";
    };
    if is_mark(spot.back(1), Mark::Equals) {
        return value_words(found);
    }
    if is_mark(spot.back(1), Mark::OpenBracket) {
        return ARRAY_WORDS;
    }
    match found {
        Kind::Sign(Mark::OpenBracket) => ARRAY_WORDS,
        Kind::Sign(Mark::Comma) => "expected `;`: entries end with it",
        Kind::Sign(Mark::Colon) => HART_WORDS,
        Kind::Strange => STRANGE_WORDS,
        Kind::Sign(Mark::Minus) if is_word(spot.back(1)) => "sums, as `x-4`, are left out",
        Kind::Word(_, _) => second_word(spot),
        _ => "expected an entry and `;`, as `x=1;` or `0:x6=x;`",
    }
}

/// The first token of a value.
fn value_words(found: Kind<'_>) -> &'static str {
    match found {
        Kind::Sign(Mark::OpenBrace) => ARRAY_WORDS,
        _ => "expected a number, or the name of a location for its address",
    }
}

/// A word behind a word.
fn second_word(spot: Spot<'_, '_>) -> &'static str {
    if !is_word(spot.back(1)) {
        return "expected an entry and `;`, as `x=1;` or `0:x6=x;`";
    }
    if is_mark(spot.back(2), Mark::Equals) || is_mark(spot.back(2), Mark::Minus) {
        return "expected `;`: entries end with it";
    }
    "expected `=` and a value, or `;`: a type stands before what it is the type of"
}

/// In the header.
fn header_words(spot: Spot<'_, '_>) -> &'static str {
    match spot.ahead(0) {
        Some(Kind::Strange) => STRANGE_WORDS,
        _ => "expected the header, a column for each hart, as `P0 | P1 ;`",
    }
}

/// In the rows.
fn rows_words(spot: Spot<'_, '_>) -> &'static str {
    let Some(found) = spot.ahead(0) else {
        return end_words(spot.tokens);
    };
    if is_this_word(found, "filter") {
        return FILTER_WORDS;
    }
    match found {
        Kind::Sign(Mark::Semicolon) if !has_filter(spot.tokens) =>
            "the row has too few cells: one for each hart, split by `|`",
        Kind::Sign(Mark::Semicolon) => FILTER_WORDS,
        Kind::Sign(Mark::Bar) => "the row has too many cells: one for each hart, ended by `;`",
        Kind::Strange =>
            "this character is no token: comments are `(* .. *)`; relocations as `%lo(x)`, and strings, are left out",
        _ => "expected `exists`, `~exists` or `forall`, or `locations [..]` before it",
    }
}

const FILTER_WORDS: &str =
    "`filter F` has its parentheses closed, and doesn't go with `--log`: there write `F /\\ C`, behind `forall` `F => C`";

/// Is one of the tokens the word `filter`?
fn has_filter(tokens: &[Token<'_>]) -> bool {
    for token in tokens {
        if is_this_word(token.kind, "filter") {
            return true;
        }
    }
    false
}

/// The file ends in its rows.
fn end_words(tokens: &[Token<'_>]) -> &'static str {
    if has_filter(tokens) {
        return FILTER_WORDS;
    }
    "the file ends before its condition: is the last row ended by `;`, and is there an `exists`?"
}

/// Is it a sign of no comparison and connective that is read, or of one that breaks off there?
fn is_foreign(found: Kind<'_>) -> bool {
    matches!(
        found,
        Kind::Sign(
            Mark::Bar
                | Mark::Equals
                | Mark::Star
                | Mark::Ampersand
                | Mark::Less
                | Mark::Greater
                | Mark::Bang
        )
    )
}

/// Does it stand before a location in C?
fn is_prefix(found: Kind<'_>) -> bool {
    matches!(found, Kind::Sign(Mark::Star | Mark::Ampersand))
}

/// In the condition.
fn condition_words(spot: Spot<'_, '_>) -> &'static str {
    let Some(found) = spot.ahead(0) else {
        return "the file ends within its condition";
    };
    if is_mark(spot.back(1), Mark::Semicolon) {
        return "nothing may stand behind the `;` that ends the condition";
    }
    if is_mark(spot.ahead(1), Mark::Greater) {
        return arrow_words(spot);
    }
    if is_prefix(found) && !is_word(spot.back(1)) {
        return "a location is `x` or `[x]`, and `x` as a value: no `*` or `&` stands before it";
    }
    if is_foreign(found) || is_mark(spot.back(1), Mark::Less) || is_mark(spot.back(1), Mark::Bang) {
        return "of comparisons `=`, `==`, `<>` and `!=` are read, and of connectives `/\\`, `\\/`, `=>`, `~` and `not`";
    }
    match found {
        Kind::Strange => STRANGE_WORDS,
        Kind::Sign(Mark::OpenBracket) if is_word(spot.back(1)) => ARRAY_WORDS,
        Kind::Sign(Mark::Colon) => colon_words(spot),
        Kind::Sign(Mark::Semicolon) =>
            "a `;` ends the condition: an atom, or a `)`, is missing before it",
        Kind::Word(_, _) =>
            "expected `/\\`, `\\/`, or the end of the condition or of its parentheses",
        _ if is_sign_end(spot.back(1)) => "expected a value: a number, or the name of a location",
        Kind::Sign(Mark::CloseParen) => "there is a `)` too many, or an atom is missing before it",
        _ => "expected an atom as `0:x5=1` or `x=1`",
    }
}

/// An arrow: behind a name that is no value it leads to a field.
fn arrow_words(spot: Spot<'_, '_>) -> &'static str {
    match spot.back(1) {
        Some(Kind::Word(Class::Name, _)) if !is_sign_end(spot.back(2)) =>
            "fields, as `x->y`, are left out: write a location for each",
        _ => "an implication is written `A => B`",
    }
}

/// Does the sign of an atom end here?
fn is_sign_end(kind: Option<Kind<'_>>) -> bool {
    is_mark(kind, Mark::Equals) || is_mark(kind, Mark::Greater)
}

/// A `:` that doesn't stand behind a hart's number at the front of an atom.
fn colon_words(spot: Spot<'_, '_>) -> &'static str {
    match spot.back(1) {
        Some(Kind::Word(Class::Number, _)) =>
            "a register is compared with a value, not with another register",
        _ => HART_WORDS,
    }
}

/// The token behind the labels at the front of a cell that begins with this one.
fn behind_labels<'b, 'a>(cell: Spot<'b, 'a>) -> Spot<'b, 'a> {
    let mut spot = cell;
    for _label in 0..cell.tokens.len() {
        if !is_word(spot.ahead(0)) || !is_mark(spot.ahead(1), Mark::Colon) {
            return spot;
        }
        spot = spot.moved(2);
    }
    spot
}

/// In a cell, whose first token is meant.
fn cell_words(cell: Spot<'_, '_>) -> &'static str {
    let spot = behind_labels(cell);
    let Some(Kind::Word(_, word)) = spot.ahead(0) else {
        return "expected an instruction";
    };
    let Some(op) = Op::of(word) else {
        return unknown_words(word);
    };
    if has_label(op) && has_other_word(spot) {
        return LABEL_WORDS;
    }
    operand_words(op)
}

/// Does the instruction name a label?
fn has_label(op: Op) -> bool {
    matches!(
        op,
        Op::Branch(_) | Op::Swapped(_) | Op::BranchZero(_) | Op::ZeroBranch(_) | Op::J | Op::Jal
    )
}

/// Stands a word that is no name behind this one in its cell?
fn has_other_word(spot: Spot<'_, '_>) -> bool {
    for count in 1..spot.tokens.len() {
        match spot.ahead(count) {
            Some(Kind::Word(Class::Number | Class::Other, _)) => return true,
            Some(Kind::Sign(Mark::Bar | Mark::Semicolon)) => return false,
            _ => {}
        }
    }
    false
}

/// Where the form breaks; it may be met as a whole.
fn section_of(alloc: Global, tokens: &[Token<'_>]) -> Result<Section, AllocError> {
    let rest = match read_init(alloc, tokens) {
        Ok((_, rest)) => rest,
        Err(stop) => return broken(stop, Section::Init),
    };
    let (columns, rest) = match read_header(alloc, rest) {
        Ok(read) => read,
        Err(stop) => return broken(stop, Section::Header),
    };
    let rest = match read_body(alloc, rest, columns) {
        Ok((_, rest)) => rest,
        Err(stop) => return broken(stop, Section::Rows),
    };
    match read_condition(alloc, rest) {
        Ok(_) => Ok(Section::Cell),
        Err(stop) => broken(stop, Section::Condition),
    }
}

fn broken(stop: Stop<'_, '_>, section: Section) -> Result<Section, AllocError> {
    match stop {
        Stop::Memory => Err(AllocError),
        Stop::At(_) => Ok(section),
    }
}

/// What is said of a token that breaks the form of the text, or of a cell.
pub(crate) fn syntax_words(
    alloc: Global,
    spot: Spot<'_, '_>,
    closed: bool,
) -> Result<&'static str, AllocError> {
    let section = section_of(alloc, spot.tokens)?;
    if !closed && spot.number >= spot.tokens.len() {
        return Ok("a comment is open at the end: it begins with `(*` and ends with `*)`");
    }
    Ok(match section {
        Section::Init => init_words(spot),
        Section::Header => header_words(spot),
        Section::Rows => rows_words(spot),
        Section::Condition => condition_words(spot),
        Section::Cell => cell_words(spot),
    })
}

/// What is said of a branch's mnemonic, or of a label that stands twice.
pub(crate) fn label_words(spot: Spot<'_, '_>) -> &'static str {
    if is_mark(spot.ahead(1), Mark::Colon) {
        return "this label stands twice in its hart";
    }
    "its label must stand behind it in the same hart: loops are read in one turn, with `--unroll 1`"
}

/// What is said of a mnemonic that isn't of the profile.
pub(crate) fn mnemonic_words(spot: Spot<'_, '_>) -> &'static str {
    if is_mark(spot.ahead(1), Mark::Colon) {
        return LABEL_WORDS;
    }
    match spot.ahead(0) {
        Some(Kind::Word(_, word)) => unknown_words(word),
        _ => "no mnemonic of this profile",
    }
}
