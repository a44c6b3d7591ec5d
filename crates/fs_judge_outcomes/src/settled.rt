//! What is left of a condition where some words are known.

ghost use Rattle.std.specs.Prelude.{◌≡◌, ◌==◌, Bool, IfOk, true};
ghost use Rattle.fs_model.specs.Condition.{condition_of, Both, Either, LocationIs, RegisterIs};
ghost use Rattle.fs_judge_outcomes.specs.inner.Settled.{truth_of, shape_of, settled_atom, denied, both, either};
ghost use Rattle.fs_judge_outcomes.specs.inner.Ends.{word_in, by_hart, by_location, with_hart, with_location};

use crate::end::Known;
use fs_instr::Reg;
use fs_model::Outcome;
use std::alloc::{AllocError, Global};

// What a condition is, as far as it counts.
#[derive(Clone, Copy)]
enum Shape {
    Always,
    Never,
    // It may be true, and may be false.
    Open,
}

fn shape_of(condition: &Outcome) -> Shape
    ensures { result ≡ shape_of (condition_of condition.now) }
{
    match condition {
        Outcome::Always => Shape::Always,
        Outcome::Never => Shape::Never,
        Outcome::RegisterIs { .. } => Shape::Open,
        Outcome::LocationIs { .. } => Shape::Open,
        Outcome::Deny(_) => Shape::Open,
        Outcome::Both(_, _) => Shape::Open,
        Outcome::Either(_, _) => Shape::Open,
    }
}

/// Always true, or never.
fn truth_of(truth: bool) -> Outcome
    ensures { condition_of result ≡ truth_of truth }
{
    if truth {
        Outcome::Always
    } else {
        Outcome::Never
    }
}

/// Is it always true, or where that is asked never?
pub(crate) fn is_truth(condition: &Outcome, truth: bool) -> bool
    ensures yes { result ≡ true → condition_of condition.now ≡ truth_of truth }
    ensures no { condition_of condition.now ≡ truth_of truth → result ≡ true }
{
    match shape_of(condition) {
        Shape::Always => truth,
        Shape::Never => !truth,
        Shape::Open => false,
    }
}

fn denied(alloc: Global, condition: Outcome) -> Result<Outcome, AllocError>
    ensures { IfOk result (λ made. condition_of made ≡ denied (condition_of condition)) }
{
    match shape_of(&condition) {
        Shape::Always => Ok(Outcome::Never),
        Shape::Never => Ok(Outcome::Always),
        Shape::Open => Ok(Outcome::Deny(Box::new(alloc, condition)?)),
    }
}

/// Both conditions, of which neither is settled.
fn both_open(alloc: Global, left: Outcome, right: Outcome) -> Result<Outcome, AllocError>
    ensures { IfOk result (λ made. condition_of made ≡ Both (condition_of left) (condition_of right)) }
{
    let left = Box::new(alloc, left)?;
    let right = Box::new(alloc, right)?;
    Ok(Outcome::Both(left, right))
}

/// One of two conditions, of which neither is settled.
fn either_open(alloc: Global, left: Outcome, right: Outcome) -> Result<Outcome, AllocError>
    ensures { IfOk result (λ made. condition_of made ≡ Either (condition_of left) (condition_of right)) }
{
    let left = Box::new(alloc, left)?;
    let right = Box::new(alloc, right)?;
    Ok(Outcome::Either(left, right))
}

fn both(alloc: Global, left: Outcome, right: Outcome) -> Result<Outcome, AllocError>
    ensures { IfOk result (λ made. condition_of made ≡ both (condition_of left) (condition_of right)) }
{
    match (shape_of(&left), shape_of(&right)) {
        (Shape::Always, _) => Ok(right),
        (Shape::Never, _) => Ok(Outcome::Never),
        (Shape::Open, Shape::Always) => Ok(left),
        (Shape::Open, Shape::Never) => Ok(Outcome::Never),
        (Shape::Open, Shape::Open) => both_open(alloc, left, right),
    }
}

fn either(alloc: Global, left: Outcome, right: Outcome) -> Result<Outcome, AllocError>
    ensures { IfOk result (λ made. condition_of made ≡ either (condition_of left) (condition_of right)) }
{
    match (shape_of(&left), shape_of(&right)) {
        (Shape::Always, _) => Ok(Outcome::Always),
        (Shape::Never, _) => Ok(right),
        (Shape::Open, Shape::Always) => Ok(Outcome::Always),
        (Shape::Open, Shape::Never) => Ok(left),
        (Shape::Open, Shape::Open) => either_open(alloc, left, right),
    }
}

/// The word that the register ends with, where it is known.
pub(crate) fn word_in(known: &[Known], register: u8) -> Option<u32>
    ensures { result ≡ word_in known.now register }
{
    match known.split_first() {
        Some((first, rest)) => {
            if first.register == register {
                Some(first.word)
            } else {
                word_in(rest, register)
            }
        }
        None => None,
    }
}

/// What is left of an atom of a register, where this is known of its word.
fn settled_register(hart: u8, reg: Reg, word: u32, known: Option<u32>) -> Outcome
    ensures { condition_of result ≡ settled_atom (RegisterIs hart reg word) word known }
{
    match known {
        Some(known) => truth_of(known == word),
        None => Outcome::register_is(hart, reg, word),
    }
}

/// The same of an atom of a location.
fn settled_location(location: u8, word: u32, known: Option<u32>) -> Outcome
    ensures { condition_of result ≡ settled_atom (LocationIs location word) word known }
{
    match known {
        Some(known) => truth_of(known == word),
        None => Outcome::LocationIs { location, word },
    }
}

/// What is known of a hart's register.
fn by_hart(hart: u8, known: &[Known], other: u8, register: u8) -> Option<u32>
    ensures { result ≡ by_hart hart known.now other register }
{
    if other == hart {
        word_in(known, register)
    } else {
        None
    }
}

/// What is known of a location.
fn by_location(location: u8, word: u32, other: u8) -> Option<u32>
    ensures { result ≡ by_location location word other }
{
    if other == location { Some(word) } else { None }
}

/// What is left of the condition where registers of the hart end so. Linear in the condition, times the registers.
pub(crate) fn with_hart(
    alloc: Global,
    hart: u8,
    known: &[Known],
    condition: &Outcome,
) -> Result<Outcome, AllocError>
    ensures { IfOk result (λ made. condition_of made ≡ with_hart hart known.now (condition_of condition.now)) }
{
    match condition {
        Outcome::Always => Ok(Outcome::Always),
        Outcome::Never => Ok(Outcome::Never),
        Outcome::RegisterIs {
            hart: other,
            reg,
            word,
        } => {
            let known = by_hart(hart, known, *other, reg.number());
            Ok(settled_register(*other, *reg, *word, known))
        }
        Outcome::LocationIs { location, word } => Ok(settled_location(*location, *word, None)),
        Outcome::Deny(denied_one) => {
            let made = with_hart(alloc, hart, known, denied_one)?;
            denied(alloc, made)
        }
        Outcome::Both(left, right) => {
            let left = with_hart(alloc, hart, known, left)?;
            let right = with_hart(alloc, hart, known, right)?;
            both(alloc, left, right)
        }
        Outcome::Either(left, right) => {
            let left = with_hart(alloc, hart, known, left)?;
            let right = with_hart(alloc, hart, known, right)?;
            either(alloc, left, right)
        }
    }
}

/// What is left of the condition where the location ends with the word. Linear in the condition.
pub(crate) fn with_location(
    alloc: Global,
    location: u8,
    word: u32,
    condition: &Outcome,
) -> Result<Outcome, AllocError>
    ensures { IfOk result (λ made. condition_of made ≡ with_location location word (condition_of condition.now)) }
{
    match condition {
        Outcome::Always => Ok(Outcome::Always),
        Outcome::Never => Ok(Outcome::Never),
        Outcome::RegisterIs {
            hart,
            reg,
            word: asked,
        } => { Ok(settled_register(*hart, *reg, *asked, None)) }
        Outcome::LocationIs {
            location: other,
            word: asked,
        } => {
            let known = by_location(location, word, *other);
            Ok(settled_location(*other, *asked, known))
        }
        Outcome::Deny(denied_one) => {
            let made = with_location(alloc, location, word, denied_one)?;
            denied(alloc, made)
        }
        Outcome::Both(left, right) => {
            let left = with_location(alloc, location, word, left)?;
            let right = with_location(alloc, location, word, right)?;
            both(alloc, left, right)
        }
        Outcome::Either(left, right) => {
            let left = with_location(alloc, location, word, left)?;
            let right = with_location(alloc, location, word, right)?;
            either(alloc, left, right)
        }
    }
}
