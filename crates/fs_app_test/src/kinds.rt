//! What is expected of a test, by its name.

ghost use Rattle.std.specs.Prelude.{◌≡◌, Some, IfOk, OnOk};
ghost use Rattle.std.specs.BTreeMap.{Updates, get};
ghost use Rattle.fs_app_test.specs.Rows.{order, AreKinds};

use crate::list_error::ListError;
use crate::rows::Row;
use crate::said::Kind;
use std::alloc::Global;
use std::collections::BTreeMap;

/// What is expected of tests, by their names.
pub type Kinds<'a> = BTreeMap<&'a str, Kind>;

/// Adds what a row expects. The error is that its name is there, or want of memory.
fn add<'a>(kinds: &mut Kinds<'a>, row: &Row<'a>) -> Result<(), ListError>
    ensures { OnOk result (Updates order kinds.old kinds.new row.now.name (Some row.now.kind)) }
{
    match kinds.insert(row.name, row.kind)? {
        None => Ok(()),
        Some(_) => Err(ListError::Twice(row.line)),
    }
}

/// What the rows expect. The error is that a name stands in two of them, or want of memory.
pub fn kinds_of<'a>(alloc: Global, rows: &[Row<'a>]) -> Result<Kinds<'a>, ListError>
    ensures { IfOk result (λ kinds. AreKinds kinds rows.now) }
{
    let mut kinds = Kinds::new(alloc);
    for row in rows {
        add(&mut kinds, row)?;
    }
    Ok(kinds)
}

/// What is expected of the test of this name; nothing where no row has it.
pub fn kind_by(kinds: &Kinds<'_>, name: &str) -> Option<Kind>
    ensures { result ≡ get order kinds.now name.entry }
{
    kinds.get(name).copied()
}
