//! What the section `locations [..]` of a test file lists, and the names by which the file calls registers.

ghost use Rattle.std.specs.Prelude.{◌≡◌, ◌≢◌, ◌≤◌, ◌++◌, [], Some, length, map, drop, option_map, IfOk, IfErr, OnOk};
ghost use Rattle.std.specs.Prelude.{string_bytes};
ghost use Rattle.fs_kinds.specs.Limits.{most_harts, most_locations};
ghost use Rattle.fs_litmus.specs.Faults.{line_at};
ghost use Rattle.fs_instr.specs.Registers.{register_of};
ghost use Rattle.fs_model.specs.Numbers.{is_same};
ghost use Rattle.fs_litmus_tokens.specs.Numbers.{number_of};
ghost use Rattle.fs_litmus_tokens.specs.Tokens.{kind_of, views};
ghost use Rattle.fs_app_states.specs.Names.{place_of};
ghost use Rattle.fs_app_states.specs.Listed.{is_brace, below, is_locations_word, is_bracket, begins_with_bracket, behind};
ghost use Rattle.fs_app_states.specs.Listed.{part_of, kept, items_from, items_of, AreListed, IsItemFault, named_so, named_at};
ghost use Rattle.fs_app_states.specs.Listed.{named_first, first_name, register_text};

use crate::columns::place_of;
use crate::slices::from;
use fs_instr::Reg;
use fs_judge_outcomes::Place;
use fs_kinds::{Fault, List};
use fs_litmus_tokens::{Class, Kind, Mark, Token, number_of};
use fs_model::Test;
use std::alloc::{AllocError, Global};
use std::mem;

// What a token of the section is to its items.
#[derive(Clone, Copy)]
enum Part {
    Between,
    Last,
    Within,
}

// ---- the items of `locations`

fn is_brace(kind: Kind<'_>) -> bool
    ensures { result ≡ is_brace (kind_of kind.entry) }
{
    matches!(kind, Kind::Sign(Mark::CloseBrace))
}

/// The tokens behind the first `}`, which ends the initial values.
fn below<'b, 'a>(tokens: &'b [Token<'a>]) -> &'b [Token<'a>]
    ensures { views result.now ≡ below (views tokens.now) }
{
    for (i, token) in tokens.iter().enumerate() {
        if is_brace(token.kind) {
            return from(tokens, i + 1);
        }
    }
    &[]
}

fn is_locations_word(kind: Kind<'_>) -> bool
    ensures { result ≡ is_locations_word (kind_of kind.entry) }
{
    matches!(kind, Kind::Word(Class::LocationsWord, _))
}

fn is_bracket(kind: Kind<'_>) -> bool
    ensures { result ≡ is_bracket (kind_of kind.entry) }
{
    matches!(kind, Kind::Sign(Mark::OpenBracket))
}

fn begins_with_bracket(tokens: &[Token<'_>]) -> bool
    ensures { result ≡ begins_with_bracket (views tokens.now) }
{
    match tokens.first() {
        Some(token) => is_bracket(token.kind),
        None => false,
    }
}

/// The tokens behind the first `locations` and `[`.
fn behind<'b, 'a>(tokens: &'b [Token<'a>]) -> &'b [Token<'a>]
    ensures { views result.now ≡ behind (views tokens.now) }
{
    for (i, token) in tokens.iter().enumerate() {
        if is_locations_word(token.kind) && begins_with_bracket(from(tokens, i + 1)) {
            return from(tokens, i + 2);
        }
    }
    &[]
}

fn part_of(kind: Kind<'_>) -> Part
    ensures { result ≡ part_of (kind_of kind.entry) }
{
    match kind {
        Kind::Sign(Mark::Semicolon) => Part::Between,
        Kind::Sign(Mark::CloseBracket) => Part::Last,
        _ => Part::Within,
    }
}

/// Appends the item, unless it is empty.
fn keep<'a>(items: &mut Vec<List<Token<'a>>>, item: Vec<Token<'a>>) -> Result<(), AllocError>
    ensures { OnOk result (map views items.new.items ≡ map views items.old.items ++ kept (views item.entry.items)) }
{
    if !item.is_empty() {
        items.push(List::new(item))?;
    }
    Ok(())
}

/// What stands between `;` up to `]`.
fn items<'a>(alloc: Global, tokens: &[Token<'a>]) -> Result<Vec<List<Token<'a>>>, AllocError>
    ensures { IfOk result (λ items. map views items.items ≡ items_from [] (views tokens.now)) }
{
    let mut items = Vec::new(alloc);
    let mut item = Vec::new(alloc);
    for token in tokens {
        match part_of(token.kind) {
            Part::Between => {
                let whole = mem::replace(&mut item, Vec::new(alloc));
                keep(&mut items, whole)?;
            }
            Part::Last => {
                keep(&mut items, item)?;
                return Ok(items);
            }
            Part::Within => item.push(*token)?,
        }
    }
    keep(&mut items, item)?;
    Ok(items)
}

/// The line of the first token.
fn line_of(tokens: &[Token<'_>]) -> usize
    ensures { result ≡ line_at (views tokens.now) 0 }
{
    match tokens.first() {
        Some(token) => token.line,
        None => 0,
    }
}

/// The places that the items name.
fn places_of(alloc: Global, test: &Test, items: &[List<Token<'_>>]) -> Result<Vec<Place>, Fault>
    requires harts { length test.now.codes ≤ most_harts }
    requires locations { length test.now.locations ≤ most_locations }
    ensures ok { IfOk result (λ places. map (place_of test.now) (map views items.now) ≡ map Some places.items) }
    ensures err { IfErr result (λ f. f ≢ Fault.Memory → IsItemFault test.now (map views items.now) f) }
{
    let mut places = Vec::new(alloc);
    for item in items {
        match place_of(test, item.as_slice()) {
            Some(place) => places.push(place)?,
            None => {
                return Err(Fault::Syntax {
                    line: line_of(item.as_slice()),
                });
            }
        }
    }
    Ok(places)
}

/// The places that `locations [..]` lists in a test file of these tokens. F3 where an item is no name of a place of
/// the test; or F19. Linear in the tokens.
pub(crate) fn listed(alloc: Global, test: &Test, tokens: &[Token<'_>]) -> Result<Vec<Place>, Fault>
    requires harts { length test.now.codes ≤ most_harts }
    requires locations { length test.now.locations ≤ most_locations }
    ensures ok { IfOk result (λ places. AreListed test.now (views tokens.now) places.items) }
    ensures err { IfErr result (λ f. f ≢ Fault.Memory → IsItemFault test.now (items_of (views tokens.now)) f) }
{
    let items = items(alloc, behind(below(tokens)))?;
    places_of(alloc, test, &items)
}

// ---- names of registers

fn is_hart(word: &str, hart: u8) -> bool
    ensures { result ≡ is_same (number_of word.now) (Some hart) }
{
    number_of(word).is_some_and(|number| number == u32::from(hart))
}

fn is_register(word: &str, reg: Reg) -> bool
    ensures { result ≡ is_same (register_of word.now) (Some reg) }
{
    Reg::of(word).is_some_and(|found| found.number() == reg.number())
}

/// The word, where it is a name of the register and a number of the hart stands before it.
fn named_so<'a>(word: &str, name: &'a str, hart: u8, reg: Reg) -> Option<&'a str>
    ensures { option_map (λ name. name.now) result ≡ named_so hart reg word.now name.now }
{
    if is_hart(word, hart) && is_register(name, reg) {
        Some(name)
    } else {
        None
    }
}

/// The name of the register, where a number of the hart, `:` and it stand here.
fn named_at<'a>(
    hart: u8,
    reg: Reg,
    first: Kind<'a>,
    middle: Kind<'a>,
    last: Kind<'a>,
) -> Option<&'a str>
    ensures { option_map (λ name. name.now) result
        ≡ named_at hart reg (kind_of first.entry) (kind_of middle.entry) (kind_of last.entry) }
{
    match first {
        Kind::Word(_, word) => match middle {
            Kind::Sign(Mark::Colon) => match last {
                Kind::Word(_, name) => named_so(word, name, hart, reg),
                _ => None,
            },
            _ => None,
        },
        _ => None,
    }
}

fn named_first<'a>(hart: u8, reg: Reg, first: Kind<'a>, after: &[Token<'a>]) -> Option<&'a str>
    ensures { option_map (λ name. name.now) result
        ≡ named_first hart reg (kind_of first.entry) (views after.now) }
{
    match after {
        [middle, last, ..] => named_at(hart, reg, first, middle.kind, last.kind),
        _ => None,
    }
}

/// The name by which the tokens first call the hart's register, behind a number of the hart and `:`.
fn first_name<'a>(tokens: &[Token<'a>], hart: u8, reg: Reg) -> Option<&'a str>
    ensures { option_map (λ name. name.now) result ≡ first_name hart reg (views tokens.now) }
{
    for (i, token) in tokens.iter().enumerate() {
        if let Some(name) = named_first(hart, reg, token.kind, from(tokens, i + 1)) {
            return Some(name);
        }
    }
    None
}

/// The hart's number, `:`, and the name by which the tokens first call its register, or else the one with x. Linear
/// in the tokens.
pub(crate) fn register_text(
    alloc: Global,
    tokens: &[Token<'_>],
    hart: u8,
    reg: Reg,
) -> Result<String, AllocError>
    ensures { IfOk result (λ text. string_bytes text
        ≡ register_text hart reg (first_name hart reg (views tokens.now))) }
{
    match first_name(tokens, hart, reg) {
        Some(name) => format!(in alloc; "{}:{}", hart, name),
        None => format!(in alloc; "{}:x{}", hart, reg.number()),
    }
}
