//! What is said of files, as JSON.

ghost use Rattle.std.specs.Prelude.{◌≡◌, ◌++◌, true, false, IfOk, OnOk, IsOkUnless, string_bytes};
ghost use Rattle.serde_json.specs.View.{view};
ghost use Rattle.serde_json.specs.Written.{compact_text};
ghost use Rattle.fs_kinds.specs.declared.fault.Fault.TheVariants.{Memory};
ghost use Rattle.fs_app_test.specs.Status.{report_status};
ghost use Rattle.fs_report.specs.Nullable.{number_or_null};
ghost use Rattle.fs_app_test.specs.Report.{expected_value, line_value, json_line, json_text};
ghost use Rattle.fs_app_test.specs.inner.Objects.{plain_object, witness_object, fault_object};

use crate::report::kind_text;
use crate::{Expected, Line, Note, status_of};
use fs_app_io::Output;
use fs_kinds::Fault;
use fs_report::witness_value;
use serde_json::{Value, json};
use std::alloc::{AllocError, Global};

/// The same as `test_report` says, but for the last line, as a JSON object a line: compact, with the keys in the order
/// of their bytes, with an execution where the outcome is possible, with what the note of a file says, and with what is
/// expected where something is. The error is `Memory`.
pub fn test_objects(alloc: Global, lines: &[Line], expects: bool) -> Result<Output, Fault>
    ensures text { IfOk result (λ output. string_bytes output.text ≡ json_text expects lines.now) }
    ensures status { IfOk result (λ output. output.status ≡ report_status expects lines.now) }
    ensures err { IsOkUnless result Memory }
{
    Ok(Output {
        text: objects_text(alloc, lines, expects)?,
        status: status_of(lines, expects),
    })
}

/// All objects.
fn objects_text(alloc: Global, lines: &[Line], expects: bool) -> Result<String, AllocError>
    ensures { IfOk result (λ text. string_bytes text ≡ json_text expects lines.now) }
{
    let mut text = String::new(alloc);
    for line in lines {
        write_object(alloc, line, expects, &mut text)?;
    }
    Ok(text)
}

/// Appends the object of a file, as a line.
fn write_object(
    alloc: Global,
    line: &Line,
    expects: bool,
    text: &mut String,
) -> Result<(), AllocError>
    ensures { OnOk result (string_bytes text.new ≡ string_bytes text.old ++ json_line expects line.now) }
{
    let object = object_text(alloc, line, expects)?;
    writeln!(text, "{}", object.as_str())
}

/// The text of the object.
fn object_text(alloc: Global, line: &Line, expects: bool) -> Result<String, AllocError>
    ensures { IfOk result (λ text. string_bytes text ≡ compact_text (line_value expects line.now)) }
{
    let value = line_value(alloc, line, expects)?;
    value.to_string(alloc)
}

/// The object of a file.
fn line_value(alloc: Global, line: &Line, expects: bool) -> Result<Value, AllocError>
    ensures { IfOk result (λ value. view value ≡ line_value expects line.now) }
{
    if let Some(note) = &line.note {
        return fault_object(alloc, line, note, expects);
    }
    match &line.said.witness {
        Some(witness) => {
            let witness = witness_value(alloc, &witness.choices, &witness.order)?;
            witness_object(alloc, line, witness, expects)
        }
        None => plain_object(alloc, line, expects),
    }
}

/// What is expected.
fn expected_value(alloc: Global, expected: Option<Expected>) -> Result<Value, AllocError>
    ensures { IfOk result (λ value. view value ≡ expected_value expected) }
{
    match expected {
        None => Ok(Value::Null),
        Some(Expected::Verdict(kind)) => json!(in alloc; kind_text(kind)),
        Some(Expected::Unclear) => json!(in alloc; "unclear"),
    }
}

/// The object without a witness.
fn plain_object(alloc: Global, line: &Line, expects: bool) -> Result<Value, AllocError>
    ensures { IfOk result (λ value. view value ≡ plain_object expects line.now) }
{
    if expects {
        expected_plain(alloc, line)
    } else {
        bare_plain(alloc, line)
    }
}

/// The same where nothing is expected.
fn bare_plain(alloc: Global, line: &Line) -> Result<Value, AllocError>
    ensures { IfOk result (λ value. view value ≡ plain_object false line.now) }
{
    json!(in alloc; {
        "file": line.name.as_str(),
        "verdict": kind_text(line.said.kind),
        "why": line.said.why.as_str(),
    })
}

/// The same where something is expected.
fn expected_plain(alloc: Global, line: &Line) -> Result<Value, AllocError>
    ensures { IfOk result (λ value. view value ≡ plain_object true line.now) }
{
    let expected = expected_value(alloc, line.expected)?;
    json!(in alloc; {
        "expected": expected,
        "file": line.name.as_str(),
        "verdict": kind_text(line.said.kind),
        "why": line.said.why.as_str(),
    })
}

/// The object with a witness.
fn witness_object(
    alloc: Global,
    line: &Line,
    witness: Value,
    expects: bool,
) -> Result<Value, AllocError>
    ensures { IfOk result (λ value. view value ≡ witness_object expects line.now (view witness)) }
{
    if expects {
        expected_witness(alloc, line, witness)
    } else {
        bare_witness(alloc, line, witness)
    }
}

/// The same where nothing is expected.
fn bare_witness(alloc: Global, line: &Line, witness: Value) -> Result<Value, AllocError>
    ensures { IfOk result (λ value. view value ≡ witness_object false line.now (view witness)) }
{
    json!(in alloc; {
        "file": line.name.as_str(),
        "verdict": kind_text(line.said.kind),
        "why": line.said.why.as_str(),
        "witness": witness,
    })
}

/// The same where something is expected.
fn expected_witness(alloc: Global, line: &Line, witness: Value) -> Result<Value, AllocError>
    ensures { IfOk result (λ value. view value ≡ witness_object true line.now (view witness)) }
{
    let expected = expected_value(alloc, line.expected)?;
    json!(in alloc; {
        "expected": expected,
        "file": line.name.as_str(),
        "verdict": kind_text(line.said.kind),
        "why": line.said.why.as_str(),
        "witness": witness,
    })
}

/// The number, or null.
fn number_or_null(number: Option<usize>) -> Value
    ensures { view result ≡ number_or_null number }
{
    match number {
        Some(number) => Value::from(number),
        None => Value::Null,
    }
}

/// The object with a note.
fn fault_object(alloc: Global, line: &Line, note: &Note, expects: bool) -> Result<Value, AllocError>
    ensures { IfOk result (λ value. view value ≡ fault_object expects line.now note.now) }
{
    if expects {
        expected_fault(alloc, line, note)
    } else {
        bare_fault(alloc, line, note)
    }
}

/// The same where nothing is expected.
fn bare_fault(alloc: Global, line: &Line, note: &Note) -> Result<Value, AllocError>
    ensures { IfOk result (λ value. view value ≡ fault_object false line.now note.now) }
{
    let column = number_or_null(note.column);
    let number = number_or_null(note.line);
    json!(in alloc; {
        "column": column,
        "file": line.name.as_str(),
        "line": number,
        "message": note.message.as_str(),
        "verdict": kind_text(line.said.kind),
        "why": line.said.why.as_str(),
    })
}

/// The same where something is expected.
fn expected_fault(alloc: Global, line: &Line, note: &Note) -> Result<Value, AllocError>
    ensures { IfOk result (λ value. view value ≡ fault_object true line.now note.now) }
{
    let column = number_or_null(note.column);
    let number = number_or_null(note.line);
    let expected = expected_value(alloc, line.expected)?;
    json!(in alloc; {
        "column": column,
        "expected": expected,
        "file": line.name.as_str(),
        "line": number,
        "message": note.message.as_str(),
        "verdict": kind_text(line.said.kind),
        "why": line.said.why.as_str(),
    })
}
