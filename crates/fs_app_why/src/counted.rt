//! How many kinds aren't told, and in which a fence is needed.

ghost use Rattle.std.specs.Prelude.{◌≡◌, ◌++◌, count_by, length, IfOk, OnOk, string_bytes};
ghost use Rattle.fs_model.specs.Numbers.{numbers_below};
ghost use Rattle.fs_app_why.specs.Counted.{all_bare_text, bare_text, count_more, cycles_piece, cycles_word};
ghost use Rattle.fs_app_why.specs.Counted.{in_text, is_bare, is_counted, is_more, is_needed, is_sole, is_sole_in};
ghost use Rattle.fs_app_why.specs.Counted.{is_sole_there, is_untold, joined_pieces, kinds_text, more_piece};
ghost use Rattle.fs_app_why.specs.Counted.{number_if, numbers_with, rest_by, rest_text, verb_text};
ghost use Rattle.fs_app_why.specs.Told.{told_chain};

use crate::instruction_words::and_joined;
use crate::telling::{Telling, has_fence, is_key, is_told, told_place};
use crate::{Chain, ChainKind};
use fs_model::Name;
use std::alloc::{AllocError, Global};

fn is_untold(telling: Telling, kinds: &[ChainKind], number: usize) -> bool
    ensures { result ≡ is_untold telling kinds.now number }
{
    !is_told(telling, kinds, number)
}

fn count_untold(telling: Telling, kinds: &[ChainKind]) -> usize
    ensures { result ≡ count_by (is_untold telling kinds.now) (numbers_below (length kinds.now)) }
{
    (0..kinds.len())
        .filter(|number| is_untold(telling, kinds, *number))
        .count()
}

fn is_bare(telling: Telling, kinds: &[ChainKind], number: usize) -> bool
    ensures { result ≡ is_bare telling kinds.now number }
{
    number < kinds.len() && (!is_told(telling, kinds, number) && !has_fence(&kinds[number]))
}

fn count_bare(telling: Telling, kinds: &[ChainKind]) -> usize
    ensures { result ≡ count_by (is_bare telling kinds.now) (numbers_below (length kinds.now)) }
{
    (0..kinds.len())
        .filter(|number| is_bare(telling, kinds, *number))
        .count()
}

fn kinds_text(alloc: Global, count: usize) -> Result<String, AllocError>
    ensures { IfOk result (λ text. string_bytes text ≡ kinds_text count) }
{
    if count == 1 {
        format!(in alloc; "{} more kind", count)
    } else {
        format!(in alloc; "{} more kinds", count)
    }
}

fn verb_text(untold: usize) -> &'static str
    ensures { result.now ≡ verb_text untold }
{
    if untold == 1 {
        " isn't told"
    } else {
        " aren't told"
    }
}

/// That all of them are without a fence, where they are.
fn all_bare_text(untold: usize, bare: usize) -> &'static str
    ensures { result.now ≡ all_bare_text untold bare }
{
    if bare == untold {
        " without a fence"
    } else {
        ""
    }
}

/// How many of them are, where some are, and not all.
fn bare_text(alloc: Global, untold: usize, bare: usize) -> Result<String, AllocError>
    ensures { IfOk result (λ text. string_bytes text ≡ bare_text untold bare) }
{
    if bare == 0 || bare == untold {
        return Ok(String::new(alloc));
    }
    format!(in alloc; ", {} of them without a fence", bare)
}

/// The line of so many kinds, of which so many are without a fence.
fn rest_by(alloc: Global, untold: usize, bare: usize) -> Result<String, AllocError>
    ensures { IfOk result (λ text. string_bytes text ≡ rest_by untold bare) }
{
    if untold == 0 {
        return Ok(String::new(alloc));
    }
    let kinds = kinds_text(alloc, untold)?;
    let some = bare_text(alloc, untold, bare)?;
    format!(in alloc;
        "\n{}{}{}{}: --why=all\n",
        kinds.as_str(),
        all_bare_text(untold, bare),
        verb_text(untold),
        some.as_str()
    )
}

/// The line of the kinds that aren't told, if there are any. The square of the kinds, times that of the fences in each.
/// The error is want of memory.
pub fn rest_text(alloc: Global, telling: Telling, kinds: &[ChainKind]) -> Result<String, AllocError>
    ensures { IfOk result (λ text. string_bytes text ≡ rest_text telling kinds.now) }
{
    rest_by(
        alloc,
        count_untold(telling, kinds),
        count_bare(telling, kinds),
    )
}

// ---- in which of them a fence is needed

fn is_sole_in(chain: &Chain, key: u32) -> bool
    ensures { result ≡ is_sole_in key chain.now }
{
    chain.links.iter().any(|link| is_key(link.sole, key))
}

/// Does the fence of this number alone order two operations, in a chain of the kind?
fn is_sole(kind: &ChainKind, key: u32) -> bool
    ensures { result ≡ is_sole key kind.now }
{
    kind.instances.iter().any(|chain| is_sole_in(chain, key))
}

/// Does it in the chain of the kind that is told?
fn is_sole_there(telling: Telling, kind: &ChainKind, key: u32) -> bool
    ensures { result ≡ is_sole_there key (told_chain telling kind.now) }
{
    match kind.instances.get(told_place(telling, kind)) {
        Some(chain) => is_sole_in(chain, key),
        None => false,
    }
}

/// Does it there, or only in others of the kind?
fn is_needed(telling: Telling, kind: &ChainKind, key: u32, in_told: bool) -> bool
    ensures { result ≡ is_needed telling key in_told kind.now }
{
    if in_told {
        is_sole_there(telling, kind, key)
    } else {
        !is_sole_there(telling, kind, key) && is_sole(kind, key)
    }
}

/// Is the kind of this number told, and the fence needed there?
fn is_counted(telling: Telling, kinds: &[ChainKind], key: u32, in_told: bool, number: usize) -> bool
    ensures { result ≡ is_counted telling kinds.now key in_told number }
{
    number < kinds.len()
        && (is_told(telling, kinds, number) && is_needed(telling, &kinds[number], key, in_told))
}

/// Appends the number, if it counts.
fn push_number(
    alloc: Global,
    is_counted: bool,
    number: usize,
    numbers: &mut Vec<Name>,
) -> Result<(), AllocError>
    ensures { OnOk result (numbers.new.items ≡ numbers.old.items ++ number_if is_counted number) }
{
    if is_counted {
        numbers.push(Name::new(format!(in alloc; "{}", number)?))?;
    }
    Ok(())
}

/// The numbers of the kinds that are told in which the fence is needed: in the chain that is told, or only in others.
fn numbers_with(
    alloc: Global,
    telling: Telling,
    kinds: &[ChainKind],
    key: u32,
    in_told: bool,
) -> Result<Vec<Name>, AllocError>
    ensures { IfOk result (λ numbers. numbers.items ≡ numbers_with telling kinds.now key in_told) }
{
    let mut numbers = Vec::new(alloc);
    for number in 0..kinds.len() {
        push_number(
            alloc,
            is_counted(telling, kinds, key, in_told, number),
            number + 1,
            &mut numbers,
        )?;
    }
    Ok(numbers)
}

fn is_more(telling: Telling, kinds: &[ChainKind], key: u32, number: usize) -> bool
    ensures { result ≡ is_more telling kinds.now key number }
{
    number < kinds.len() && (!is_told(telling, kinds, number) && is_sole(&kinds[number], key))
}

/// How many kinds that aren't told the fence is needed in.
fn count_more(telling: Telling, kinds: &[ChainKind], key: u32) -> usize
    ensures { result ≡ count_more telling kinds.now key }
{
    (0..kinds.len())
        .filter(|number| is_more(telling, kinds, key, *number))
        .count()
}

fn cycles_word(in_told: bool, count: usize) -> &'static str
    ensures { result.now ≡ cycles_word in_told count }
{
    if in_told {
        if count == 1 {
            "in cycle "
        } else {
            "in cycles "
        }
    } else if count == 1 {
        "in one like cycle "
    } else {
        "in ones like cycles "
    }
}

fn push_cycles(
    alloc: Global,
    in_told: bool,
    numbers: &[Name],
    pieces: &mut Vec<Name>,
) -> Result<(), AllocError>
    ensures { OnOk result (pieces.new.items ≡ pieces.old.items ++ cycles_piece in_told numbers.now) }
{
    if numbers.is_empty() {
        return Ok(());
    }
    let joined = and_joined(alloc, numbers)?;
    let word = cycles_word(in_told, numbers.len());
    pieces.push(Name::new(format!(in alloc; "{}{}", word, joined.as_str())?))?;
    Ok(())
}

fn push_more(alloc: Global, count: usize, pieces: &mut Vec<Name>) -> Result<(), AllocError>
    ensures { OnOk result (pieces.new.items ≡ pieces.old.items ++ more_piece count) }
{
    if count == 0 {
        return Ok(());
    }
    let kinds = kinds_text(alloc, count)?;
    pieces.push(Name::new(format!(in alloc; "in {}", kinds.as_str())?))?;
    Ok(())
}

fn joined_pieces(alloc: Global, pieces: &[Name]) -> Result<String, AllocError>
    ensures { IfOk result (λ text. string_bytes text ≡ joined_pieces pieces.now) }
{
    if pieces.is_empty() {
        return Ok(String::new(alloc));
    }
    let joined = and_joined(alloc, pieces)?;
    format!(in alloc; ": {}", joined.as_str())
}

/// In which of the kinds the fence of this number is needed: the numbers of those that need it in the chain that is
/// told, and of those that do only in others, and how many that aren't told. The cost is that of `rest_text`; the error
/// is want of memory.
pub fn in_text(
    alloc: Global,
    telling: Telling,
    kinds: &[ChainKind],
    key: u32,
) -> Result<String, AllocError>
    ensures { IfOk result (λ text. string_bytes text ≡ in_text telling kinds.now key) }
{
    let told = numbers_with(alloc, telling, kinds, key, true)?;
    let others = numbers_with(alloc, telling, kinds, key, false)?;
    let mut pieces = Vec::new(alloc);
    push_cycles(alloc, true, &told, &mut pieces)?;
    push_cycles(alloc, false, &others, &mut pieces)?;
    push_more(alloc, count_more(telling, kinds, key), &mut pieces)?;
    joined_pieces(alloc, &pieces)
}
