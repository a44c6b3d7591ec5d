//! Whether two orders of the same runs have the same sources and coherence orders.

ghost use Rattle.std.specs.Prelude.{◌≡◌, length, IfOk};
ghost use Rattle.std.specs.List.{list_all};
ghost use Rattle.fs_model.specs.Numbers.{numbers_below};
ghost use Rattle.fs_check.specs.Ordered.{IsOrdered, runs_in};
ghost use Rattle.fs_app_why.specs.Executions.{told_of};
ghost use Rattle.fs_app_why.specs.Alike.{comes_first, is_alike, is_same_source, keeps_coherence, keeps_first};
ghost use Rattle.fs_app_why.specs.Alike.{keeps_later, keeps_source, keeps_sources};

use crate::told_execution::{Told, told_by};
use fs_check::OrderedCandidate;
use fs_model::{Operation, Test, stands_before};
use fs_model_axioms::source_at;
use std::alloc::{AllocError, Global};

fn is_same_source(first: Option<u8>, second: Option<u8>) -> bool
    ensures { result ≡ is_same_source first second }
{
    match (first, second) {
        (Some(first), Some(second)) => first == second,
        (None, None) => true,
        _ => false,
    }
}

/// Has the operation the same source in both?
fn keeps_source(told: &Told, other: &Told, a: usize) -> bool
    ensures { result ≡ keeps_source told.now other.now a }
{
    is_same_source(
        source_at(told.sources.as_slice(), a),
        source_at(other.sources.as_slice(), a),
    )
}

/// Has each operation the same source in both?
fn keeps_sources(told: &Told, other: &Told) -> bool
    ensures { result ≡ keeps_sources told.now other.now }
{
    (0..told.operations.as_slice().len()).all(|a| keeps_source(told, other, a))
}

/// Are both stores to one word, and does a come before b?
fn comes_first(told: &Told, a: usize, b: usize) -> bool
    ensures { result ≡ comes_first told.now a b }
{
    let operations = told.operations.as_slice();
    let first = Operation::numbered(operations, a);
    let second = Operation::numbered(operations, b);
    first.is_store()
        && second.is_store()
        && first.is_same_word(&second)
        && stands_before(told.order.as_slice(), a, b)
}

/// Does a still come before b, where it does so in the first?
fn keeps_first(told: &Told, other: &Told, a: usize, b: usize) -> bool
    ensures { result ≡ keeps_first told.now other.now a b }
{
    !comes_first(told, a, b) || comes_first(other, a, b)
}

/// The same of all stores behind a.
fn keeps_later(told: &Told, other: &Told, a: usize) -> bool
    ensures { result ≡ keeps_later told.now other.now a }
{
    (0..told.operations.as_slice().len()).all(|b| keeps_first(told, other, a, b))
}

/// The same of all stores.
fn keeps_coherence(told: &Told, other: &Told) -> bool
    ensures { result ≡ keeps_coherence told.now other.now }
{
    (0..told.operations.as_slice().len()).all(|a| keeps_later(told, other, a))
}

/// Have both orders the same sources and coherence orders? The cost is at most cubic in the operations.
pub(crate) fn is_alike(
    alloc: Global,
    test: &Test,
    first: &OrderedCandidate,
    second: &OrderedCandidate,
) -> Result<bool, AllocError>
    requires first { IsOrdered test.now first.now }
    requires second { IsOrdered test.now second.now }
    ensures { IfOk result (λ is. is ≡ is_alike (told_of (runs_in test.now first.now) first.now.order.listed)
        (told_of (runs_in test.now second.now) second.now.order.listed)) }
{
    let told = told_by(alloc, test, first)?;
    let other = told_by(alloc, test, second)?;
    Ok(keeps_sources(&told, &other) && keeps_coherence(&told, &other))
}
