//! The lines that `audit` prints, as JSON.

ghost use Rattle.std.specs.Prelude.{◌≡◌, map, IfOk};
ghost use Rattle.serde_json.specs.View.{view};
ghost use Rattle.fs_app_audit_json_and_why.specs.Objects.{row_value, rows_value};

use crate::rows::Row;
use fs_app_audit::{advice_text, advised_kind, fence_letters, memory_kind};
use fs_report::kind_or_null;
use serde_json::{Value, json};
use std::alloc::{AllocError, Global};

/// The object of a line.
fn row_value(alloc: Global, row: &Row) -> Result<Value, AllocError>
    ensures { IfOk result (λ value. view value ≡ row_value row.now) }
{
    let advised = kind_or_null(alloc, advised_kind(memory_kind(row.instr), row.advice))?;
    let place = format!(in alloc; "{}", row.place)?;
    let says = advice_text(alloc, row.instr, row.advice)?;
    let written = fence_letters(alloc, row.instr)?;
    json!(in alloc; {
        "advised": advised,
        "line": Value::from(row.line),
        "place": place.as_str(),
        "says": says.as_str(),
        "written": written.as_str(),
    })
}

/// The array of the lines.
pub(crate) fn rows_value(alloc: Global, rows: &[Row]) -> Result<Value, AllocError>
    ensures { IfOk result (λ value. view value ≡ rows_value rows.now) }
{
    let mut values = Vec::new(alloc);
    for row in rows {
        values.push(row_value(alloc, row)?)?;
    }
    Ok(Value::from(values))
}
