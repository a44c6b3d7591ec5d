//! Verdicts as JSON.

ghost use Rattle.std.specs.Prelude.{◌≡◌, IfOk, false, string_bytes};
ghost use Rattle.serde_json.specs.View.{view};
ghost use Rattle.serde_json.specs.Written.{has_float};
ghost use Rattle.fs_report.specs.Given.{given};
ghost use Rattle.fs_report.specs.Objects.{fenced_value, json_line, none_value};
ghost use Rattle.fs_app_solve_and_check.specs.Check.{no_value, yes_value};

use fs_cert_evidence::ChoiceLists;
use fs_kinds::{List, OperationName, Placement, Reason};
use fs_report::{fenced_value, json_line, none_value};
use serde_json::{Value, json};
use std::alloc::{AllocError, Global};

/// The object of a yes to a placement with this cost.
pub(crate) fn fenced_object(
    alloc: Global,
    placement: &Placement,
    cost: u64,
) -> Result<String, AllocError>
    ensures { IfOk result (λ text. string_bytes text ≡ json_line (yes_value (fenced_value cost placement.now))) }
{
    let answer = fenced_value(alloc, placement, cost)?;
    yes_object(alloc, answer)
}

/// The object of a yes to none with this witness.
pub(crate) fn none_object(
    alloc: Global,
    choices: &ChoiceLists,
    order: &List<OperationName>,
) -> Result<String, AllocError>
    ensures { IfOk result (λ text. string_bytes text
        ≡ json_line (yes_value (none_value (given choices.now order.now)))) }
{
    let answer = none_value(alloc, choices, order)?;
    yes_object(alloc, answer)
}

/// The object of a yes to this answer.
fn yes_object(alloc: Global, answer: Value) -> Result<String, AllocError>
    requires { has_float (view answer) ≡ false }
    ensures { IfOk result (λ text. string_bytes text ≡ json_line (yes_value (view answer))) }
{
    let value = yes_value(alloc, answer)?;
    json_line(alloc, &value)
}

fn yes_value(alloc: Global, answer: Value) -> Result<Value, AllocError>
    ensures { IfOk result (λ value. view value ≡ yes_value (view answer)) }
{
    json!(in alloc; {"answer": answer, "valid": true})
}

/// The object of a no for this reason.
pub(crate) fn no_object(alloc: Global, reason: Reason) -> Result<String, AllocError>
    ensures { IfOk result (λ text. string_bytes text ≡ json_line (no_value reason)) }
{
    let value = no_value(alloc, reason)?;
    json_line(alloc, &value)
}

fn no_value(alloc: Global, reason: Reason) -> Result<Value, AllocError>
    ensures { IfOk result (λ value. view value ≡ no_value reason) }
{
    let reason = format!(in alloc; "{}", reason)?;
    json!(in alloc; {"reason": reason, "valid": false})
}
