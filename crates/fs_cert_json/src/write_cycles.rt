//! The JSON values of cycles.

ghost use Rattle.std.specs.Prelude.{◌≡◌, IfOk};
ghost use Rattle.serde_json.specs.View.{view};
ghost use Rattle.fs_cert_evidence.specs.CertificateFile.{cause_word};
ghost use Rattle.fs_cert_evidence.specs.Evidence.{cause_of};
ghost use Rattle.serde_json.specs.Data.{string};
ghost use Rattle.fs_cert_json.specs.inner.Written.{WritesCycle, WritesCycles, WritesLink, WritesName};
ghost use Rattle.fs_cert_json.specs.inner.Written.{name_value as named};

use crate::cause::word_of;
use crate::certificate::CertificateLink;
use fs_cert_evidence::Cause;
use fs_kinds::{List, OperationName};
use serde_json::{Value, json};
use std::alloc::{AllocError, Global};

/// The JSON array of the cycles.
pub(crate) fn listed_value(
    alloc: Global,
    cycles: &[List<CertificateLink>],
) -> Result<Value, AllocError>
    ensures { IfOk result (λ value. WritesCycles (view value) cycles.now) }
{
    let mut values = Vec::new(alloc);
    for links in cycles {
        values.push(cycle_value(alloc, links.as_slice())?)?;
    }
    Ok(Value::from(values))
}

/// The JSON array of a cycle's links.
fn cycle_value(alloc: Global, links: &[CertificateLink]) -> Result<Value, AllocError>
    ensures { IfOk result (λ value. WritesCycle (view value) links.now) }
{
    let mut values = Vec::new(alloc);
    for link in links {
        values.push(link_value(alloc, link.operation, link.cause)?)?;
    }
    Ok(Value::from(values))
}

/// The JSON array of an operation's name and the word of a cause.
fn link_value(
    alloc: Global,
    operation: Option<OperationName>,
    cause: Cause,
) -> Result<Value, AllocError>
    ensures { IfOk result (λ value. WritesLink (view value) (record { operation = operation; cause = cause })) }
{
    let name = name_value(alloc, operation)?;
    let word = cause_value(alloc, cause)?;
    json!(in alloc; [name, word])
}

/// The JSON text of the word of a cause.
pub(crate) fn cause_value(alloc: Global, cause: Cause) -> Result<Value, AllocError>
    ensures { IfOk result (λ value. view value ≡ string (cause_word (cause_of cause))) }
{
    Ok(Value::from(String::from_str(alloc, word_of(cause))?))
}

/// The JSON text of an operation's name, and null where there is none.
pub(crate) fn name_value(
    alloc: Global,
    operation: Option<OperationName>,
) -> Result<Value, AllocError>
    ensures { IfOk result (λ value. WritesName (view value) operation) }
{
    match operation {
        Some(name) => operation_value(alloc, name),
        None => Ok(Value::Null),
    }
}

/// The JSON text of an operation's name.
pub(crate) fn operation_value(alloc: Global, name: OperationName) -> Result<Value, AllocError>
    ensures { IfOk result (λ value. view value ≡ named name) }
{
    Ok(Value::from(format!(in alloc; "{}", name)?))
}
