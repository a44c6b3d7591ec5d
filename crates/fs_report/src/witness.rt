//! The JSON text of a witness.

ghost use Rattle.std.specs.Prelude.{◌≡◌, IfOk, OnOk, length, string_bytes};
ghost use Rattle.serde_json.specs.View.{view};
ghost use Rattle.fs_cert_evidence.specs.Texts.{witness_value, witness_text, none_lines};
ghost use Rattle.fs_cert_evidence.specs.WitnessFile.{IsWitnessFile, IsWitnessValue};
ghost use Rattle.fs_report.specs.inner.Written.{SaysChoice, SaysChoices, SaysLists, SaysName, SaysNames};
ghost use Rattle.fs_report.specs.Given.{given};

use fs_cert_evidence::{ChoiceLists, Choices};
use fs_kinds::{List, OperationName};
use fs_model::Choice;
use serde_json::{Value, json};
use std::alloc::{AllocError, Global};

/// The line `none`, and below it the witness's JSON text as one line. The error is want of memory.
pub fn none_text(
    alloc: Global,
    choices: &ChoiceLists,
    order: &List<OperationName>,
) -> Result<String, AllocError>
    ensures text { IfOk result (λ text. string_bytes text ≡ none_lines (given choices.now order.now)) }
    // The text of that line is a file that says this witness.
    ensures file { OnOk result (IsWitnessFile (length choices.now)
        (witness_text (given choices.now order.now)) (given choices.now order.now)) }
{
    let witness = witness_text(alloc, choices, order)?;
    format!(in alloc; "none\n{}\n", witness.as_str())
}

/// The JSON text of the witness with these choices of each hart and this order: compact, with `choices` before `order`.
/// The file that has this text says this witness. The error is want of memory.
pub fn witness_text(
    alloc: Global,
    choices: &ChoiceLists,
    order: &List<OperationName>,
) -> Result<String, AllocError>
    ensures text { IfOk result (λ text. string_bytes text ≡ witness_text (given choices.now order.now)) }
    ensures file { IfOk result (λ text.
        IsWitnessFile (length choices.now) (string_bytes text) (given choices.now order.now)) }
{
    let value = witness_value(alloc, choices, order)?;
    value.to_string(alloc)
}

/// The JSON object of the witness with these choices of each hart and this order, as `witness_text` writes it. The
/// error is want of memory.
pub fn witness_value(
    alloc: Global,
    choices: &ChoiceLists,
    order: &List<OperationName>,
) -> Result<Value, AllocError>
    ensures value { IfOk result (λ value. view value ≡ witness_value (given choices.now order.now)) }
    ensures says { IfOk result (λ value. IsWitnessValue (view value) (given choices.now order.now)) }
{
    let choices = lists_value(alloc, choices.as_slice())?;
    let order = names_value(alloc, order.as_slice())?;
    json!(in alloc; {"choices": choices, "order": order})
}

/// The JSON array of the harts' lists of choices.
fn lists_value(alloc: Global, lists: &[Choices]) -> Result<Value, AllocError>
    ensures { IfOk result (λ value. SaysLists (view value) lists.now) }
{
    let mut values = Vec::new(alloc);
    for choices in lists {
        values.push(choices_value(alloc, choices.as_slice())?)?;
    }
    Ok(Value::from(values))
}

/// The JSON array of one hart's choices.
fn choices_value(alloc: Global, choices: &[Choice]) -> Result<Value, AllocError>
    ensures { IfOk result (λ value. SaysChoices (view value) choices.now) }
{
    let mut values = Vec::new(alloc);
    for choice in choices {
        values.push(choice_value(*choice))?;
    }
    Ok(Value::from(values))
}

/// The JSON value of a choice: a number for a loaded word, true and false for an sc.w's success and failure.
fn choice_value(choice: Choice) -> Value
    ensures { SaysChoice (view result) choice }
{
    match choice {
        Choice::Word(word) => Value::from(word),
        Choice::Success => Value::Bool(true),
        Choice::Failure => Value::Bool(false),
    }
}

/// The JSON array of the operations' names.
fn names_value(alloc: Global, names: &[OperationName]) -> Result<Value, AllocError>
    ensures { IfOk result (λ value. SaysNames (view value) names.now) }
{
    let mut values = Vec::new(alloc);
    for name in names {
        values.push(name_value(alloc, *name)?)?;
    }
    Ok(Value::from(values))
}

/// The JSON text of an operation's name.
fn name_value(alloc: Global, name: OperationName) -> Result<Value, AllocError>
    ensures { IfOk result (λ value. SaysName (view value) name) }
{
    Ok(Value::from(format!(in alloc; "{}", name)?))
}
