//! Values of JSON that may be null.

ghost use Rattle.std.specs.Prelude.{◌≡◌, IfOk};
ghost use Rattle.serde_json.specs.View.{view};
ghost use Rattle.fs_report.specs.Nullable.{number_or_null, kind_or_null};

use fs_kinds::Kind;
use serde_json::{Value, json};
use std::alloc::{AllocError, Global};

/// The number, or null. In constant time.
pub fn number_or_null(number: Option<u64>) -> Value
    ensures { view result ≡ number_or_null number }
{
    match number {
        Some(number) => Value::from(number),
        None => Value::Null,
    }
}

/// The word of the kind, or null. Fails only for want of memory.
pub fn kind_or_null(alloc: Global, kind: Option<Kind>) -> Result<Value, AllocError>
    ensures { IfOk result (λ value. view value ≡ kind_or_null kind) }
{
    match kind {
        Some(kind) => json!(in alloc; kind.name()),
        None => Ok(Value::Null),
    }
}
