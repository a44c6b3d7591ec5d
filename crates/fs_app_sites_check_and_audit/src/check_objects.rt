//! Verdicts in print.

ghost use Rattle.std.specs.Prelude.{◌≡◌, ◌++◌, IfOk, IsOkUnless, codes, false, map, string_bytes};
ghost use Rattle.serde_json.specs.View.{view};
ghost use Rattle.fs_report.specs.Objects.{json_line};
ghost use Rattle.fs_app_solve_and_check.specs.Check.{yes_line, yes_value};
ghost use Rattle.fs_app_sites.specs.Printed.{answer_text, value_of};
ghost use Rattle.fs_app_sites_check_and_audit.specs.Checked.{PrintsNo, PrintsVerdict, PrintsYes, no_line, no_value, reason_words};

use fs_app_io::{Output, Status};
use fs_app_sites::{Tests, answer_text, answer_value};
use fs_app_solve_and_check::Checked;
use fs_kinds::Fault;
use fs_report::json_line;
use fs_sites::Answer;
use fs_sites_check::{SitesReason, SitesVerdict};
use serde_json::{Value, json};
use std::alloc::{AllocError, Global};

// ---- yes

/// The line `yes`, and below it the answer.
fn yes_text(
    alloc: Global,
    tests: &Tests,
    names: &[String],
    answer: &Answer,
) -> Result<String, AllocError>
    ensures { IfOk result (λ text. string_bytes text
        ≡ yes_line ++ answer_text false tests.now (map string_bytes names.now) answer.now) }
{
    let lines = answer_text(alloc, tests, names, answer, false)?;
    format!(in alloc; "yes\n{}", lines.as_str())
}

/// The object of a yes to this answer.
fn yes_value(alloc: Global, answer: Value) -> Result<Value, AllocError>
    ensures { IfOk result (λ value. view value ≡ yes_value (view answer)) }
{
    json!(in alloc; {"answer": answer, "valid": true})
}

/// The same in print, as a line.
fn yes_object(
    alloc: Global,
    tests: &Tests,
    names: &[String],
    answer: &Answer,
) -> Result<String, AllocError>
    ensures { IfOk result (λ text. string_bytes text
        ≡ json_line (yes_value (value_of tests.now (map string_bytes names.now) answer.now))) }
{
    let answer = answer_value(alloc, tests, names, answer)?;
    let value = yes_value(alloc, answer)?;
    json_line(alloc, &value)
}

fn yes_output(
    alloc: Global,
    tests: &Tests,
    names: &[String],
    answer: &Answer,
) -> Result<Checked, AllocError>
    ensures { IfOk result (λ made. PrintsYes tests.now (map string_bytes names.now) answer.now
        (string_bytes made.output.text) (string_bytes made.object) made.output.status) }
{
    let text = yes_text(alloc, tests, names, answer)?;
    let object = yes_object(alloc, tests, names, answer)?;
    let status = Status::Success;
    Ok(Checked {
        output: Output { text, status },
        object,
    })
}

// ---- no

/// The words of the reason.
fn reason_text(alloc: Global, reason: SitesReason) -> Result<String, AllocError>
    ensures { IfOk result (λ text. string_bytes text ≡ reason_words reason) }
{
    match reason {
        SitesReason::Answer => format!(in alloc; "answer"),
        SitesReason::Cycles { test } => format!(in alloc; "cycles {}", test),
        SitesReason::Witness { index } => format!(in alloc; "witness {}", index),
    }
}

/// The line `no: ` with these words.
fn no_text(alloc: Global, words: &str) -> Result<String, AllocError>
    ensures { IfOk result (λ text. string_bytes text ≡ codes "no: " ++ words.now ++ codes "\n") }
{
    format!(in alloc; "no: {}\n", words)
}

/// The object of a no for this reason.
fn no_value(alloc: Global, reason: SitesReason) -> Result<Value, AllocError>
    ensures { IfOk result (λ value. view value ≡ no_value reason) }
{
    let reason = reason_text(alloc, reason)?;
    json!(in alloc; {"reason": reason, "valid": false})
}

/// The same in print, as a line.
fn no_object(alloc: Global, reason: SitesReason) -> Result<String, AllocError>
    ensures { IfOk result (λ text. string_bytes text ≡ json_line (no_value reason)) }
{
    let value = no_value(alloc, reason)?;
    json_line(alloc, &value)
}

fn no_output(alloc: Global, reason: SitesReason) -> Result<Checked, AllocError>
    ensures { IfOk result (λ made. PrintsNo reason (string_bytes made.output.text) (string_bytes made.object)
        made.output.status) }
{
    let words = reason_text(alloc, reason)?;
    let text = no_text(alloc, words.as_str())?;
    let object = no_object(alloc, reason)?;
    let status = Status::Denied;
    Ok(Checked {
        output: Output { text, status },
        object,
    })
}

// ---- both

/// The verdict in print, on a certificate of a question of these tests with sites of these names. The error is F19.
pub(crate) fn verdict_output(
    alloc: Global,
    tests: &Tests,
    names: &[String],
    verdict: &SitesVerdict,
) -> Result<Checked, Fault>
    ensures ok { IfOk result (λ made. PrintsVerdict tests.now (map string_bytes names.now) verdict.now
        (string_bytes made.output.text) (string_bytes made.object) made.output.status) }
    ensures err { IsOkUnless result Fault.Memory }
{
    match verdict {
        SitesVerdict::Yes(answer) => Ok(yes_output(alloc, tests, names, answer)?),
        SitesVerdict::No(reason) => Ok(no_output(alloc, *reason)?),
    }
}
