//! What is said of all faults of a test file.

ghost use Rattle.std.specs.Prelude.{IfOk, IfSome, IsNone, OnOk, string_bytes};
ghost use Rattle.fs_kinds.specs.declared.fault.Fault.{Fault};
ghost use Rattle.fs_litmus.specs.Faults.{HasFault, IsTestFault};
ghost use Rattle.fs_app_error_messages.specs.Explained.{IsMessage};
ghost use Rattle.fs_app_error_messages.specs.Faults.{IsNext, AreMessages, AreToldOf};
ghost use Rattle.fs_app_error_messages.specs.inner.Turns.{Adds};

use crate::blanks::blank;
use crate::explain;
use crate::first::first_fault;
use crate::spans::{Span, spans_of};
use fs_kinds::Fault;
use std::alloc::{AllocError, Global};

/// How many messages there are at most.
const MOST_MESSAGES: usize = 10;

/// Of a longer file the first fault alone is told, as each further one takes some readings of the whole.
const MOST_BYTES: usize = 65_536;

fn most_messages(bytes: &[u8]) -> usize {
    if bytes.len() > MOST_BYTES {
        1
    } else {
        MOST_MESSAGES
    }
}

/// Is it a fault that is told behind others? Where the form of the text breaks once some of it is blank, that may come
/// of the blanks.
fn is_told(alloc: Global, bytes: &[u8], fault: Fault) -> Result<bool, AllocError> {
    match fault {
        Fault::Syntax { .. } => Ok(!spans_of(alloc, bytes, fault)?.is_empty()),
        _ => Ok(true),
    }
}

/// Writes blanks over these parts, and gives the fault of what is left.
fn fault_behind(
    alloc: Global,
    bytes: &mut [u8],
    spans: &[Span],
) -> Result<Option<Fault>, AllocError>
    ensures { IfOk result (λ o. IfSome o (IsNext bytes.old bytes.new)) }
{
    blank(bytes, spans);
    let next = first_fault(alloc, bytes)?;
    Ok(next)
}

/// Writes blanks over what the fault is of, and gives the fault of what is left, where that is told.
fn next_fault(alloc: Global, bytes: &mut [u8], fault: Fault) -> Result<Option<Fault>, AllocError>
    ensures { IfOk result (λ o. IfSome o (IsNext bytes.old bytes.new)) }
{
    let spans = spans_of(alloc, bytes, fault)?;
    if spans.is_empty() {
        return Ok(None);
    }
    let Some(next) = fault_behind(alloc, bytes, &spans)? else {
        return Ok(None);
    };
    if is_told(alloc, bytes, next)? {
        Ok(Some(next))
    } else {
        Ok(None)
    }
}

/// Appends what is said of the fault.
fn push_message(
    alloc: Global,
    text: &mut String,
    name: &str,
    bytes: &[u8],
    fault: Fault,
) -> Result<(), AllocError>
    ensures { OnOk result (Adds (IsMessage name.now bytes.now fault) (string_bytes text.old) (string_bytes text.new)) }
{
    let message = explain(alloc, name, bytes, fault)?;
    text.push_str(message.as_str())?;
    Ok(())
}

/// What is said of the fault of a file and of those behind it; then what is left under blanks.
fn messages_of(
    alloc: Global,
    name: &str,
    left: &mut [u8],
    fault: Fault,
) -> Result<String, AllocError>
    ensures { IfOk result (λ text. AreMessages name.now left.old fault (string_bytes text)) }
{
    let mut text = String::new(alloc);
    let mut last = fault;
    for _turn in 1..most_messages(left) {
        push_message(alloc, &mut text, name, left, last)?;
        match next_fault(alloc, left, last)? {
            Some(next) => last = next,
            None => return Ok(text),
        }
    }
    push_message(alloc, &mut text, name, left, last)?;
    Ok(text)
}

/// What is said of a fault of a test file and of those behind it, each as `explain` of fs_app_error_messages says it:
/// at most ten, and of a file of more than 65,536 bytes this one alone. Of a bad cell of the rows blanks are written
/// over its instruction, of a label that stands twice over this label, of a bad initial value over its entry; then the
/// first fault of what is left is the next one. Nothing is told behind another fault, nor a fault of the form that is
/// of no cell and no entry. Linear in the bytes; each further message takes some readings of the file. Fails only for
/// want of memory.
pub fn explain_all(
    alloc: Global,
    name: &str,
    bytes: &[u8],
    fault: Fault,
) -> Result<String, AllocError>
    ensures { IfOk result (λ text. AreMessages name.now bytes.now fault (string_bytes text)) }
{
    let mut left = Vec::from_slice(alloc, bytes)?;
    messages_of(alloc, name, &mut left, fault)
}

/// What is said of the first fault of a test file and of those behind it, as `explain_all` says it; nothing where it
/// has none. Linear in the bytes. Fails only for want of memory.
pub fn explain_all_of_test(
    alloc: Global,
    name: &str,
    bytes: &[u8],
) -> Result<Option<String>, AllocError>
    ensures told { IfOk result (λ o. IfSome o (λ text. AreToldOf name.now bytes.now (string_bytes text))) }
    ensures absent { IfOk result (λ o. IsNone o → (f : Fault) → ¬ HasFault bytes.now f) }
{
    match first_fault(alloc, bytes)? {
        Some(fault) => Ok(Some(told_of(alloc, name, bytes, fault)?)),
        None => Ok(None),
    }
}

/// What is said of the first fault of a test file and of those behind it.
fn told_of(alloc: Global, name: &str, bytes: &[u8], fault: Fault) -> Result<String, AllocError>
    requires { IsTestFault bytes.now fault }
    ensures { IfOk result (λ text. AreToldOf name.now bytes.now (string_bytes text)) }
{
    let text = explain_all(alloc, name, bytes, fault)?;
    Ok(text)
}
