//! In which order the operations of an execution come to memory.

ghost use Rattle.std.specs.Prelude.{◌≡◌, Some, IfOk, string_bytes};
ghost use Rattle.std.specs.List.{list_any};
ghost use Rattle.fs_cert_evidence.specs.Regions.{same_name};
ghost use Rattle.fs_app_test.specs.Words.{overtaken, overtaking, order_words, pair_at};

use fs_kinds::OperationName;
use std::alloc::{AllocError, Global};

// Two operations of one hart, the second earlier in its code.
pub(crate) type Pair = (OperationName, OperationName);

fn is_same_name(first: OperationName, second: OperationName) -> bool
    ensures { result ≡ same_name first second }
{
    first.hart == second.hart && first.at == second.at
}

/// Is the operation among these?
fn is_among(names: &[OperationName], name: OperationName) -> bool
    ensures { result ≡ list_any (same_name name) names.now }
{
    names.iter().any(|other| is_same_name(name, *other))
}

/// The least position before the name's in its code whose operation is among these.
fn overtaken(name: OperationName, later: &[OperationName]) -> Option<u8>
    ensures { result ≡ overtaken name later.now }
{
    let hart = name.hart;
    (0..name.at).find(|at| is_among(later, OperationName { hart, at: *at }))
}

/// The first operation that stands before one which is earlier in its hart's code, and the earliest such one.
pub(crate) fn overtaking(order: &[OperationName]) -> Option<Pair>
    ensures { result ≡ overtaking order.now }
{
    for (index, name) in order.iter().enumerate() {
        if let Some(at) = overtaken(*name, &order[index + 1..]) {
            let hart = name.hart;
            return Some((*name, OperationName { hart, at }));
        }
    }
    None
}

fn pair_words(alloc: Global, pair: Pair) -> Result<String, AllocError>
    ensures { IfOk result (λ text. string_bytes text ≡ order_words (Some pair)) }
{
    format!(in alloc; "{} comes to memory before {}", pair.0, pair.1)
}

/// The words for an order in which the first operation overtakes the second, if there is such a pair.
pub(crate) fn order_words(alloc: Global, found: Option<Pair>) -> Result<String, AllocError>
    ensures { IfOk result (λ text. string_bytes text ≡ order_words found) }
{
    match found {
        Some(pair) => pair_words(alloc, pair),
        None => format!(in alloc; "in program order"),
    }
}
