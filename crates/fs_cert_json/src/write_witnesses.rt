//! The JSON values of witnesses.

ghost use Rattle.std.specs.Prelude.{◌≡◌, IfOk, map};
ghost use Rattle.serde_json.specs.View.{view};
ghost use Rattle.fs_cert_evidence.specs.Texts.{array_of, choice_value};
ghost use Rattle.fs_cert_json.specs.inner.Written.{WritesNames, WritesWitness, WritesWitnesses, choices_value};
ghost use Rattle.fs_cert_json.specs.inner.Written.{witness_object};

use crate::write_cycles::name_value;
use fs_cert_evidence::{Choices, WitnessFile};
use fs_kinds::OperationName;
use fs_model::Choice;
use serde_json::{Value, json};
use std::alloc::{AllocError, Global};

/// The JSON array of the witnesses.
pub(crate) fn witnesses_value(alloc: Global, witnesses: &[WitnessFile]) -> Result<Value, AllocError>
    ensures { IfOk result (λ value. WritesWitnesses (view value) witnesses.now) }
{
    let mut values = Vec::new(alloc);
    for witness in witnesses {
        values.push(witness_value(alloc, witness)?)?;
    }
    Ok(Value::from(values))
}

/// The JSON object of a witness.
fn witness_value(alloc: Global, witness: &WitnessFile) -> Result<Value, AllocError>
    ensures { IfOk result (λ value. WritesWitness (view value) witness.now) }
{
    let choices = lists_value(alloc, witness.choices.as_slice())?;
    let order = names_value(alloc, witness.order.as_slice())?;
    witness_object(alloc, choices, order)
}

/// The JSON object with these values at the keys of a witness.
fn witness_object(alloc: Global, choices: Value, order: Value) -> Result<Value, AllocError>
    ensures { IfOk result (λ value. view value ≡ witness_object (view choices) (view order)) }
{
    json!(in alloc; {"choices": choices, "order": order})
}

/// The JSON array of the harts' lists of choices.
fn lists_value(alloc: Global, lists: &[Choices]) -> Result<Value, AllocError>
    ensures { IfOk result (λ value. view value ≡ array_of (map choices_value lists.now)) }
{
    let mut values = Vec::new(alloc);
    for choices in lists {
        values.push(choices_value(alloc, choices.as_slice())?)?;
    }
    Ok(Value::from(values))
}

/// The JSON array of one hart's choices.
fn choices_value(alloc: Global, choices: &[Choice]) -> Result<Value, AllocError>
    ensures { IfOk result (λ value. view value ≡ choices_value choices.now) }
{
    let mut values = Vec::new(alloc);
    for choice in choices {
        values.push(choice_value(*choice))?;
    }
    Ok(Value::from(values))
}

/// The JSON value of a choice: a number for a loaded word, true and false for an sc.w's success and failure.
fn choice_value(choice: Choice) -> Value
    ensures { view result ≡ choice_value choice }
{
    match choice {
        Choice::Word(word) => Value::from(word),
        Choice::Success => Value::Bool(true),
        Choice::Failure => Value::Bool(false),
    }
}

/// The JSON array of the operations' names.
fn names_value(alloc: Global, names: &[Option<OperationName>]) -> Result<Value, AllocError>
    ensures { IfOk result (λ value. WritesNames (view value) names.now) }
{
    let mut values = Vec::new(alloc);
    for name in names {
        values.push(name_value(alloc, *name)?)?;
    }
    Ok(Value::from(values))
}
