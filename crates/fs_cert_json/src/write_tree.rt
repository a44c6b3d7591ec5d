//! The JSON values of trees.

ghost use Rattle.std.specs.Prelude.{◌≡◌, ◌∷◌, [], IfOk, map};
ghost use Rattle.serde_json.specs.Data.{string};
ghost use Rattle.serde_json.specs.View.{view};
ghost use Rattle.fs_cert_evidence.specs.Texts.{array_of, item_value, number};
ghost use Rattle.fs_cert_json.specs.Kept.{item_of};

use crate::certificate::Item;
use serde_json::{Value, json};
use std::alloc::{AllocError, Global};

/// The JSON array of the items.
pub(crate) fn tree_value(alloc: Global, tree: &[Item]) -> Result<Value, AllocError>
    ensures { IfOk result (λ value. view value ≡ array_of (map item_value (map item_of tree.now))) }
{
    let mut values = Vec::new(alloc);
    for item in tree {
        values.push(item_value(alloc, item)?)?;
    }
    Ok(Value::from(values))
}

/// The JSON value of an item.
fn item_value(alloc: Global, item: &Item) -> Result<Value, AllocError>
    ensures { IfOk result (λ value. view value ≡ item_value (item_of item.now)) }
{
    match item {
        Item::SplitAt(slot) => Ok(Value::from(*slot)),
        Item::Costly => json!(in alloc; "c"),
        Item::Refuted(witness) => marked_value(alloc, "w", Value::from(*witness)),
        Item::Bounded(witnesses) => {
            let numbers = numbers_value(alloc, witnesses.as_slice())?;
            marked_value(alloc, "b", numbers)
        }
    }
}

/// The JSON array of a mark and a value.
pub(crate) fn marked_value(alloc: Global, mark: &str, value: Value) -> Result<Value, AllocError>
    ensures { IfOk result (λ made. view made ≡ array_of (string mark.now ∷ view value ∷ [])) }
{
    json!(in alloc; [mark, value])
}

/// The JSON array of the numbers.
fn numbers_value(alloc: Global, numbers: &[u64]) -> Result<Value, AllocError>
    ensures { IfOk result (λ value. view value ≡ array_of (map number numbers.now)) }
{
    let mut values = Vec::new(alloc);
    for number in numbers {
        values.push(Value::from(*number))?;
    }
    Ok(Value::from(values))
}
