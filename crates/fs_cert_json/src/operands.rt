//! Inferences with a letter, read.

ghost use Rattle.std.specs.Prelude.{◌≡◌, MatchOption};
ghost use Rattle.serde_json.specs.Data.{item, no_items};
ghost use Rattle.serde_json.specs.View.{items_view, view};
ghost use Rattle.fs_kinds.specs.declared.reason.OperationName.{OperationName};
ghost use Rattle.fs_cert_evidence.specs.Inferences.{inference_of};
ghost use Rattle.fs_cert_evidence.specs.Certificate as said;
ghost use Rattle.fs_cert_evidence.specs.CertificateFile.{IsNameInRange};
ghost use Rattle.fs_cert_json.specs.declared.operands.Operands.{Operands};
ghost use Rattle.fs_cert_json.specs.declared.operands.Operands.TheVariants as operands;
ghost use Rattle.fs_cert_json.specs.inner.Operands.{AreOperands, IsMadeOf, IsSaidBy};

use crate::json_values::number_in;
use crate::read_cycles::name_in;
use fs_cert_evidence::Inference;
use fs_kinds::OperationName;
use serde_json::Value;

/// What an inference with a letter speaks of.
#[derive(Clone, Copy)]
pub(crate) enum Operands {
    Number(u64),
    One(OperationName),
    Two(OperationName, OperationName),
    Three(OperationName, OperationName, OperationName),
}

/// The inference that a letter and the values after it say.
pub(crate) fn inference_in(letter: &str, others: &[Value]) -> Option<Inference>
    ensures { MatchOption result ((inference : said.Inference)
        → ¬ IsSaidBy letter.now (items_view others.now) inference)
        (λ kept. IsSaidBy letter.now (items_view others.now) (inference_of kept)) }
{
    let operands = operands_in(others)?;
    inference_of(letter, operands)
}

/// The inference with this letter that speaks of these.
fn inference_of(letter: &str, operands: Operands) -> Option<Inference>
    ensures { MatchOption result ((inference : said.Inference) → ¬ IsMadeOf letter.now operands inference)
        (λ kept. IsMadeOf letter.now operands (inference_of kept)) }
{
    match operands {
        Operands::Number(number) => of_number(letter, number),
        Operands::One(name) => of_one(letter, name),
        Operands::Two(first, second) => of_two(letter, first, second),
        Operands::Three(first, second, third) => of_three(letter, first, second, third),
    }
}

/// The inference with this letter that speaks of a number.
fn of_number(letter: &str, number: u64) -> Option<Inference>
    ensures { MatchOption result ((inference : said.Inference)
        → ¬ IsMadeOf letter.now (operands.Number number) inference)
        (λ kept. IsMadeOf letter.now (operands.Number number) (inference_of kept)) }
{
    match letter {
        "d" => Some(Inference::ByCases(number as usize)),
        "f" if number < 256 => Some(Inference::Filter(number as u8)),
        _ => None,
    }
}

/// The inference with this letter that speaks of one operation.
fn of_one(letter: &str, name: OperationName) -> Option<Inference>
    ensures { MatchOption result ((inference : said.Inference) → ¬ IsMadeOf letter.now (operands.One name) inference)
        (λ kept. IsMadeOf letter.now (operands.One name) (inference_of kept)) }
{
    match letter {
        "c" => Some(Inference::ByChoice(name)),
        "s" => Some(Inference::BySource(name)),
        _ => None,
    }
}

/// The inference with this letter that speaks of two operations.
fn of_two(letter: &str, first: OperationName, second: OperationName) -> Option<Inference>
    ensures { MatchOption result ((inference : said.Inference)
        → ¬ IsMadeOf letter.now (operands.Two first second) inference)
        (λ kept. IsMadeOf letter.now (operands.Two first second) (inference_of kept)) }
{
    match letter {
        "o" => Some(Inference::ByOrder { first, second }),
        "l" => Some(Inference::Stale {
            load: first,
            store: second,
        }),
        "a" => Some(Inference::Reversed {
            load: first,
            store: second,
        }),
        _ => None,
    }
}

/// The inference with this letter that speaks of three operations.
fn of_three(
    letter: &str,
    load: OperationName,
    store: OperationName,
    other: OperationName,
) -> Option<Inference>
    ensures { MatchOption result
        ((inference : said.Inference) → ¬ IsMadeOf letter.now (operands.Three load store other) inference)
        (λ kept. IsMadeOf letter.now (operands.Three load store other) (inference_of kept)) }
{
    match letter {
        "a" => Some(Inference::Parted { load, store, other }),
        _ => None,
    }
}

/// The operands that the values say.
fn operands_in(others: &[Value]) -> Option<Operands>
    ensures { MatchOption result ((operands : Operands) → ¬ AreOperands (items_view others.now) operands)
        (λ operands. AreOperands (items_view others.now) operands) }
{
    match others.len() {
        1 => one_in(&others[0]),
        2 => two_in(&others[0], &others[1]),
        3 => three_in(&others[0], &others[1], &others[2]),
        _ => None,
    }
}

/// The operand that the value says.
fn one_in(only: &Value) -> Option<Operands>
    ensures { MatchOption result ((operands : Operands) → ¬ AreOperands (item (view only.now) no_items) operands)
        (λ operands. AreOperands (item (view only.now) no_items) operands) }
{
    if let Some(number) = number_in(only) {
        return Some(Operands::Number(number));
    }
    Some(Operands::One(operation_in(only)?))
}

/// The two operands that the values say.
fn two_in(first: &Value, second: &Value) -> Option<Operands>
    ensures { MatchOption result
        ((operands : Operands) → ¬ AreOperands (item (view first.now) (item (view second.now) no_items)) operands)
        (λ operands. AreOperands (item (view first.now) (item (view second.now) no_items)) operands) }
{
    Some(Operands::Two(operation_in(first)?, operation_in(second)?))
}

/// The three operands that the values say.
fn three_in(first: &Value, second: &Value, third: &Value) -> Option<Operands>
    ensures { MatchOption result ((operands : Operands)
        → ¬ AreOperands (item (view first.now) (item (view second.now) (item (view third.now) no_items))) operands)
        (λ operands. AreOperands (item (view first.now) (item (view second.now) (item (view third.now) no_items))) operands) }
{
    Some(Operands::Three(
        operation_in(first)?,
        operation_in(second)?,
        operation_in(third)?,
    ))
}

/// The operation that the value names, with both numbers in range.
fn operation_in(value: &Value) -> Option<OperationName>
    ensures { MatchOption result ((name : OperationName) → ¬ IsNameInRange (view value.now) name)
        (λ name. IsNameInRange (view value.now) name) }
{
    name_in(value)?
}
