//! Where the fault of a file is and what was expected there, apart from the text of a message.

ghost use Rattle.std.specs.Prelude.{◌≡◌, IfOk, IfSome, IsNone};
ghost use Rattle.fs_kinds.specs.declared.fault.Fault.{Fault};
ghost use Rattle.fs_litmus.specs.Faults.{HasFault, IsTestFault};
ghost use Rattle.fs_app_error_messages.specs.Explained.{IsFaultAt, IsJson, IsJsonPlace, IsLocated, place_at};

use crate::file::{hint_of, offset_of};
use crate::first::first_fault;
use crate::json::{offset_at, value_words};
use crate::places::{Place, place_of};
use crate::point::{Point, point_of};
use fs_kinds::Fault;
use serde_json::{Error, Value};
use std::alloc::{AllocError, Global};

/// What a message says of a fault: its place, if it has one, and the hint.
#[derive(Drop)]
pub struct Located {
    pub place: Option<Place>,
    pub hint: String,
}

/// The place of a point in the file.
fn place_at(bytes: &[u8], point: Option<Point>) -> Option<Place>
    ensures { result ≡ place_at bytes.now point }
{
    match point {
        Some(point) => Some(place_of(bytes, offset_of(point))),
        None => None,
    }
}

/// What `explain` shows of the fault of a test file. Linear in the bytes. Fails only for want of memory.
pub fn locate(alloc: Global, bytes: &[u8], fault: Fault) -> Result<Located, AllocError>
    ensures { IfOk result (λ found. IsLocated bytes.now fault found.place) }
{
    let point = point_of(alloc, bytes, fault)?;
    let hint = hint_of(alloc, bytes, fault, point)?;
    let place = place_at(bytes, point);
    let hint = String::from_str(alloc, hint)?;
    Ok(Located { place, hint })
}

/// The place and the hint that `explain_test` shows of the first fault of a test file; nothing where it has none.
/// Linear in the bytes. Fails only for want of memory.
pub fn locate_test(alloc: Global, bytes: &[u8]) -> Result<Option<Located>, AllocError>
    ensures told { IfOk result (λ o. IfSome o (λ found. IsFaultAt bytes.now found.place)) }
    ensures absent { IfOk result (λ o. IsNone o → (f : Fault) → ¬ HasFault bytes.now f) }
{
    match first_fault(alloc, bytes)? {
        Some(fault) => Ok(Some(fault_located(alloc, bytes, fault)?)),
        None => Ok(None),
    }
}

/// What is shown of the first fault of a test file.
fn fault_located(alloc: Global, bytes: &[u8], fault: Fault) -> Result<Located, AllocError>
    requires { IsTestFault bytes.now fault }
    ensures { IfOk result (λ found. IsFaultAt bytes.now found.place) }
{
    let found = locate(alloc, bytes, fault)?;
    Ok(found)
}

/// What `explain_json` shows of the fault of prices, a witness or a certificate. Linear in the bytes. Fails only for
/// want of memory.
pub fn locate_json(alloc: Global, bytes: &[u8], fault: Fault) -> Result<Located, AllocError>
    ensures { IfOk result (λ found. IsJsonPlace bytes.now found.place) }
{
    match Value::from_slice(alloc, bytes) {
        Ok(value) => value_located(alloc, bytes, fault, &value),
        Err(error) if error.is_memory() => Err(AllocError),
        Err(error) => text_located(alloc, bytes, &error),
    }
}

/// The same of a JSON file whose value is of no use.
fn value_located(
    alloc: Global,
    bytes: &[u8],
    fault: Fault,
    value: &Value,
) -> Result<Located, AllocError>
    requires { IsJson bytes.now }
    ensures { IfOk result (λ found. IsJsonPlace bytes.now found.place) }
{
    let _ = bytes;
    let hint = value_words(alloc, value, fault)?;
    Ok(Located { place: None, hint })
}

/// The same of a file that is no JSON.
fn text_located(alloc: Global, bytes: &[u8], error: &Error) -> Result<Located, AllocError>
    requires { ¬ IsJson bytes.now }
    ensures { IfOk result (λ found. IsJsonPlace bytes.now found.place) }
{
    let offset = offset_at(bytes, error.line(), error.column());
    let place = place_of(bytes, offset);
    let hint = String::from_str(alloc, "here it stops being JSON")?;
    Ok(Located {
        place: Some(place),
        hint,
    })
}
