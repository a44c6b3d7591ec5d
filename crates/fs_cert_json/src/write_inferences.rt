//! The JSON values of inferences.

ghost use Rattle.std.specs.Prelude.{◌≡◌, ◌∷◌, [], IfOk, map};
ghost use Rattle.serde_json.specs.View.{view};
ghost use Rattle.fs_cert_evidence.specs.Evidence.{cause_of};
ghost use Rattle.fs_cert_evidence.specs.Inferences.{inference_of};
ghost use Rattle.fs_cert_evidence.specs.Texts.{array_of, inference_value, link_value, of_names};

use crate::write_cycles::{cause_value, operation_value};
use crate::write_tree::marked_value;
use fs_cert_evidence::{Cause, Inference, Link};
use fs_kinds::OperationName;
use serde_json::{Value, json};
use std::alloc::{AllocError, Global};

/// The JSON array of the inferences, as in a certificate of the fourth version. The error is want of memory.
pub fn inferences_value(alloc: Global, inferences: &[Inference]) -> Result<Value, AllocError>
    ensures { IfOk result (λ value. view value ≡ array_of (map inference_value (map inference_of inferences.now))) }
{
    let mut values = Vec::new(alloc);
    for inference in inferences {
        values.push(inference_value(alloc, inference)?)?;
    }
    Ok(Value::from(values))
}

/// The JSON array of an inference.
fn inference_value(alloc: Global, inference: &Inference) -> Result<Value, AllocError>
    ensures { IfOk result (λ value. view value ≡ inference_value (inference_of inference.now)) }
{
    match inference {
        Inference::ByChoice(name) => of_one(alloc, "c", *name),
        Inference::BySource(load) => of_one(alloc, "s", *load),
        Inference::ByOrder { first, second } => of_two(alloc, "o", *first, *second),
        Inference::ByCases(condition) => marked_value(alloc, "d", Value::from(*condition)),
        Inference::Filter(hart) => marked_value(alloc, "f", Value::from(*hart)),
        Inference::Cycle(links) => links_value(alloc, links.as_slice()),
        Inference::Stale { load, store } => of_two(alloc, "l", *load, *store),
        Inference::Reversed { load, store } => of_two(alloc, "a", *load, *store),
        Inference::Parted { load, store, other } => of_three(alloc, "a", *load, *store, *other),
    }
}

/// The JSON array of a letter and an operation's name.
fn of_one(alloc: Global, letter: &str, name: OperationName) -> Result<Value, AllocError>
    ensures { IfOk result (λ value. view value ≡ of_names letter.now (name ∷ [])) }
{
    let name = operation_value(alloc, name)?;
    marked_value(alloc, letter, name)
}

/// The JSON array of a letter and the names of two operations.
fn of_two(
    alloc: Global,
    letter: &str,
    first: OperationName,
    second: OperationName,
) -> Result<Value, AllocError>
    ensures { IfOk result (λ value. view value ≡ of_names letter.now (first ∷ second ∷ [])) }
{
    let first = operation_value(alloc, first)?;
    let second = operation_value(alloc, second)?;
    json!(in alloc; [letter, first, second])
}

/// The JSON array of a letter and the names of three operations.
fn of_three(
    alloc: Global,
    letter: &str,
    first: OperationName,
    second: OperationName,
    third: OperationName,
) -> Result<Value, AllocError>
    ensures { IfOk result (λ value. view value ≡ of_names letter.now (first ∷ second ∷ third ∷ [])) }
{
    let first = operation_value(alloc, first)?;
    let second = operation_value(alloc, second)?;
    let third = operation_value(alloc, third)?;
    json!(in alloc; [letter, first, second, third])
}

/// The JSON array of a cycle's links.
fn links_value(alloc: Global, links: &[Link]) -> Result<Value, AllocError>
    ensures { IfOk result (λ value. view value ≡ array_of (map link_value links.now)) }
{
    let mut values = Vec::new(alloc);
    for link in links {
        values.push(link_value(alloc, link.operation, link.cause)?)?;
    }
    Ok(Value::from(values))
}

/// The JSON array of an operation's name and the word of a cause.
fn link_value(alloc: Global, operation: OperationName, cause: Cause) -> Result<Value, AllocError>
    ensures { IfOk result (λ value. view value
        ≡ link_value (record { operation = operation; cause = cause_of cause })) }
{
    let name = operation_value(alloc, operation)?;
    let word = cause_value(alloc, cause)?;
    json!(in alloc; [name, word])
}
