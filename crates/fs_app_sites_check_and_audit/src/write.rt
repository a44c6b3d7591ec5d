//! The text of a certificate over sites. No contract says what it is: whoever writes one reads and checks it.

use fs_cert_evidence::{Inference, Witness};
use fs_cert_json::pieces::inferences_value;
use fs_kinds::{List, Placement};
use fs_report::witness_value;
use fs_sites::Answer;
use fs_sites_check::site_words;
use serde_json::{Value, json};
use std::alloc::{AllocError, Global};

/// What shows an answer: for each test the inferences of a refutation, and executions that fences must break, each by
/// the number of its test.
#[derive(Drop)]
pub(crate) struct Grounds {
    pub cycles: Vec<List<Inference>>,
    pub broken: Vec<(usize, Witness)>,
}

/// The JSON text of a certificate of the answer, of sites of these names: compact, with the keys in the order of their
/// bytes. The error is want of memory.
pub(crate) fn certificate_text(
    alloc: Global,
    names: &[String],
    answer: &Answer,
    grounds: &Grounds,
) -> Result<String, AllocError> {
    let value = match answer {
        Answer::Fenced { placement, cost } => {
            fenced_value(alloc, names, placement, *cost, grounds)?
        }
        Answer::None { part, witness } => none_value(alloc, *part, witness)?,
    };
    value.to_string(alloc)
}

/// The object of a certificate of fences.
fn fenced_value(
    alloc: Global,
    names: &[String],
    placement: &Placement,
    cost: u64,
    grounds: &Grounds,
) -> Result<Value, AllocError> {
    let words = words_value(alloc, names, placement)?;
    let answer = json!(in alloc; {"cost": cost, "fences": words})?;
    let cycles = cycles_value(alloc, &grounds.cycles)?;
    let witnesses = broken_value(alloc, &grounds.broken)?;
    object_of(alloc, answer, cycles, witnesses)
}

/// The object of a certificate of none, whose witness is of the test of this number.
fn none_value(alloc: Global, test: usize, witness: &Witness) -> Result<Value, AllocError> {
    let answer = json!(in alloc; "none")?;
    let mut witnesses = Vec::new(alloc);
    witnesses.push(test_value(alloc, test, witness)?)?;
    object_of(
        alloc,
        answer,
        Value::from(Vec::new(alloc)),
        Value::from(witnesses),
    )
}

/// The object with these values at the keys of a certificate.
fn object_of(
    alloc: Global,
    answer: Value,
    cycles: Value,
    witnesses: Value,
) -> Result<Value, AllocError> {
    json!(in alloc; {
        "answer": answer,
        "cycles": cycles,
        "tree": [],
        "version": 5,
        "witnesses": witnesses
    })
}

/// The array of the words of the sites' fences.
fn words_value(
    alloc: Global,
    names: &[String],
    placement: &Placement,
) -> Result<Value, AllocError> {
    let mut values = Vec::new(alloc);
    for word in site_words(alloc, names, placement.as_slice())? {
        values.push(Value::from(word))?;
    }
    Ok(Value::from(values))
}

/// The array of each test's inferences.
fn cycles_value(alloc: Global, cycles: &[List<Inference>]) -> Result<Value, AllocError> {
    let mut values = Vec::new(alloc);
    for inferences in cycles {
        values.push(inferences_value(alloc, inferences.as_slice())?)?;
    }
    Ok(Value::from(values))
}

/// The array of the executions.
fn broken_value(alloc: Global, broken: &[(usize, Witness)]) -> Result<Value, AllocError> {
    let mut values = Vec::new(alloc);
    for (test, witness) in broken {
        values.push(test_value(alloc, *test, witness)?)?;
    }
    Ok(Value::from(values))
}

/// The object of a witness of the test of this number.
fn test_value(alloc: Global, test: usize, witness: &Witness) -> Result<Value, AllocError> {
    let value = witness_value(alloc, &witness.choices, &witness.order)?;
    let choices = member(alloc, &value, "choices")?;
    let order = member(alloc, &value, "order")?;
    json!(in alloc; {"choices": choices, "order": order, "test": test})
}

/// The object's value at this key.
fn member(alloc: Global, value: &Value, key: &str) -> Result<Value, AllocError> {
    match value.get(key) {
        Some(found) => found.clone(),
        None => Ok(Value::from(Vec::new(alloc))),
    }
}
