//! An answer as JSON.

ghost use Rattle.std.specs.Prelude.{◌≡◌, ◌++◌, IfOk, OnOk, false, map, string_bytes};
ghost use Rattle.std.specs.List.{flat_map};
ghost use Rattle.serde_json.specs.View.{view};
ghost use Rattle.serde_json.specs.Written.{has_float};
ghost use Rattle.fs_cert_evidence.specs.Texts.{array_of};
ghost use Rattle.fs_report.specs.Given.{given};
ghost use Rattle.fs_report.specs.Objects.{fence_value, fence_values, fenced_value, none_value, json_line};

use crate::witness::witness_value;
use fs_cert_evidence::ChoiceLists;
use fs_kinds::{Entry, Kind, List, OperationName, Placement, Slot};
use serde_json::{Value, json};
use std::alloc::{AllocError, Global};

/// The object of a placement: that it is an answer, its cost, and the fence of each filled slot in slot order. The
/// error is want of memory.
pub fn fenced_value(alloc: Global, placement: &Placement, cost: u64) -> Result<Value, AllocError>
    ensures { IfOk result (λ value. view value ≡ fenced_value cost placement.now) }
{
    let fences = fences_value(alloc, placement.as_slice())?;
    json!(in alloc; {"answer": "fenced", "cost": cost, "fences": fences})
}

/// The object of a witness that no fences rule the outcome out. The error is want of memory.
pub fn none_value(
    alloc: Global,
    choices: &ChoiceLists,
    order: &List<OperationName>,
) -> Result<Value, AllocError>
    ensures { IfOk result (λ value. view value ≡ none_value (given choices.now order.now)) }
{
    let witness = witness_value(alloc, choices, order)?;
    json!(in alloc; {"answer": "none", "witness": witness})
}

/// The text of a value, as a line. The error is want of memory.
pub fn json_line(alloc: Global, value: &Value) -> Result<String, AllocError>
    requires { has_float (view value.now) ≡ false }
    ensures { IfOk result (λ text. string_bytes text ≡ json_line (view value.now)) }
{
    let mut text = value.to_string(alloc)?;
    text.push_str("\n")?;
    Ok(text)
}

/// The array of the fences of the filled slots.
fn fences_value(alloc: Global, entries: &[Entry]) -> Result<Value, AllocError>
    ensures { IfOk result (λ value. view value ≡ array_of (flat_map (λ e. fence_values e.slot e.kind) entries.now)) }
{
    let mut values = Vec::new(alloc);
    for entry in entries {
        push_fence(alloc, entry, &mut values)?;
    }
    Ok(Value::from(values))
}

/// Appends the fence of the slot, where it is filled.
fn push_fence(alloc: Global, entry: &Entry, values: &mut Vec<Value>) -> Result<(), AllocError>
    ensures { OnOk result (map view values.new.items
        ≡ map view values.old.items ++ fence_values entry.now.slot entry.now.kind) }
{
    if let Some(kind) = entry.kind {
        values.push(fence_value(alloc, entry.slot, kind)?)?;
    }
    Ok(())
}

/// The object of a fence.
fn fence_value(alloc: Global, slot: Slot, kind: Kind) -> Result<Value, AllocError>
    ensures { IfOk result (λ value. view value ≡ fence_value slot kind) }
{
    json!(in alloc; {"before": slot.at, "hart": slot.hart, "kind": kind.name()})
}
