//! Which operations of an execution must come to memory before which, and an order that keeps this and most of program
//! order. What it finds is judged once more, so nothing is promised of it.

ghost use Rattle.std.specs.Prelude.{◌<◌, ◌≤◌, length, IsOkUnless};
ghost use Rattle.fs_kinds.specs.declared.fault.Fault.TheVariants.{Memory};

use fs_cand_witness::{Rows, base_rows, fence_rows, has_order, operation_name, sides_of};
use fs_check::OrderedCandidate;
use fs_kinds::{Fault, OperationName, Placement, Slot};
use fs_model::Operation;
use std::alloc::{AllocError, Global};

/// As many operations as a relation has room for.
const MOST_OPERATIONS: usize = 64;

/// As many harts as sides are told of.
const MOST_HARTS: usize = 8;

/// Is b a store to the word of a that comes later than a, where a stores, and than the source of a, where it loads?
fn is_overwritten(ordered: &OrderedCandidate, a: usize, b: usize) -> bool {
    let operations = ordered.candidate.operations.as_slice();
    let first = Operation::numbered(operations, a);
    let second = Operation::numbered(operations, b);
    if a == b || !second.is_store() || !first.is_same_word(&second) {
        return false;
    }
    if first.is_store() && ordered.order.stands_before(a, b) {
        return true;
    }
    match ordered.order.source(a) {
        Some(store) => ordered.order.stands_before(usize::from(store), b),
        None => false,
    }
}

/// Puts the edges of coherence and from-reads in, between the first n operations.
fn add_overwritten(rows: &mut Rows, ordered: &OrderedCandidate, n: usize)
    requires { n ≤ 64 }
{
    for a in 0..n {
        for b in 0..n {
            if is_overwritten(ordered, a, b) {
                rows.add(a, b);
            }
        }
    }
}

/// The judged relation of the execution, with these fences.
fn judged(alloc: Global, placement: &Placement, ordered: &OrderedCandidate) -> Result<Rows, Fault>
    requires operations { length ordered.now.candidate.operations ≤ 64 }
    requires harts { length ordered.now.candidate.traces ≤ 8 }
    ensures { IsOkUnless result Memory }
{
    let candidate = &ordered.candidate;
    let mut rows = base_rows(candidate);
    let sides = sides_of(alloc, candidate)?;
    rows.union(&fence_rows(&sides, placement));
    add_overwritten(&mut rows, ordered, candidate.operations.len());
    Ok(rows)
}

/// Does a fence in the slot stand between the two?
fn crosses(
    first: Option<OperationName>,
    second: Option<OperationName>,
    slot: Option<Slot>,
) -> bool {
    match (first, second, slot) {
        (Some(first), Some(second), Some(slot)) => {
            slot.hart == first.hart && first.at < slot.at && slot.at <= second.at
        }
        _ => false,
    }
}

/// The relation with an edge from a to b, where an order extends it; else the relation.
fn with_edge(rows: Rows, n: usize, a: usize, b: usize) -> Rows
    requires fits { n ≤ 64 }
    requires first { a < 64 }
    requires second { b < 64 }
{
    if rows.has(a, b) {
        return rows;
    }
    let mut wider = Rows::new();
    wider.union(&rows);
    wider.add(a, b);
    if has_order(&wider, n) { wider } else { rows }
}

/// Is a before b in program order, and does the slot stand between them, or not?
fn is_wanted(
    ordered: &OrderedCandidate,
    slot: Option<Slot>,
    crossing: bool,
    a: usize,
    b: usize,
) -> bool {
    let candidate = &ordered.candidate;
    let operations = candidate.operations.as_slice();
    let first = Operation::numbered(operations, a);
    let second = Operation::numbered(operations, b);
    first.precedes(&second)
        && crosses(
            operation_name(candidate, a),
            operation_name(candidate, b),
            slot,
        ) == crossing
}

/// The relation with each pair of program order that can be kept: near ones before far ones.
fn with_pairs(
    rows: Rows,
    ordered: &OrderedCandidate,
    slot: Option<Slot>,
    crossing: bool,
    n: usize,
) -> Rows
    requires { n ≤ 64 }
{
    let mut wider = rows;
    for distance in 1..n {
        for a in 0..n - distance {
            if is_wanted(ordered, slot, crossing, a, a + distance) {
                wider = with_edge(wider, n, a, a + distance);
            }
        }
    }
    wider
}

/// Are all that must come before a listed, and a isn't?
fn is_free(rows: &Rows, listed: &[u8], n: usize, a: usize) -> bool
    requires fits { n ≤ 64 }
    requires there { a < 64 }
{
    for b in 0..n {
        if rows.has(b, a) && !is_listed(listed, b) {
            return false;
        }
    }
    !is_listed(listed, a)
}

fn is_listed(listed: &[u8], a: usize) -> bool {
    for number in listed {
        if usize::from(*number) == a {
            return true;
        }
    }
    false
}

/// Are the two of one hart?
fn is_beside(ordered: &OrderedCandidate, last: Option<u8>, a: usize) -> bool {
    let operations = ordered.candidate.operations.as_slice();
    match last {
        Some(last) => Operation::numbered(operations, usize::from(last)).is_same_hart(
            &Operation::numbered(operations, a),
        ),
        None => false,
    }
}

/// The least that is free, of the hart of the last one if it has one.
fn next_free(rows: &Rows, ordered: &OrderedCandidate, listed: &[u8], n: usize) -> Option<u8>
    requires { n ≤ 64 }
{
    let last = listed.last().copied();
    let mut least: Option<u8> = None;
    for a in 0..n {
        if is_free(rows, listed, n, a) {
            if is_beside(ordered, last, a) {
                return Some(a as u8);
            }
            if least.is_none() {
                least = Some(a as u8);
            }
        }
    }
    least
}

/// An order of the first n operations that extends the relation, as far as one is found.
fn listed(
    alloc: Global,
    rows: &Rows,
    ordered: &OrderedCandidate,
    n: usize,
) -> Result<Vec<u8>, AllocError>
    requires { n ≤ 64 }
{
    let mut listed = Vec::new(alloc);
    for _ in 0..n {
        match next_free(rows, ordered, &listed, n) {
            Some(next) => listed.push(next)?,
            None => return Ok(listed),
        }
    }
    Ok(listed)
}

/// The names of the operations of these numbers.
pub(crate) fn names(
    alloc: Global,
    ordered: &OrderedCandidate,
    numbers: &[u8],
) -> Result<Vec<OperationName>, AllocError> {
    let mut names = Vec::new(alloc);
    for number in numbers {
        if let Some(name) = operation_name(&ordered.candidate, usize::from(*number)) {
            names.push(name)?;
        }
    }
    Ok(names)
}

/// The operations of the harts in an order with the same sources and coherence orders that keeps a pair of program order
/// more wherever those before it and these fences let it; what a fence in the slot would order is given up before all
/// else. Each pair takes what it takes to judge a relation. The error is F19.
pub(crate) fn nearer_order(
    alloc: Global,
    placement: &Placement,
    slot: Option<Slot>,
    ordered: &OrderedCandidate,
) -> Result<Vec<OperationName>, Fault>
    ensures { IsOkUnless result Memory }
{
    let candidate = &ordered.candidate;
    let n = candidate.operations.len();
    if n > MOST_OPERATIONS || candidate.traces.len() > MOST_HARTS {
        return Ok(Vec::new(alloc));
    }
    let count = ordered.order.count().min(n);
    let mut rows = judged(alloc, placement, ordered)?;
    rows = with_pairs(rows, ordered, slot, false, n);
    rows = with_pairs(rows, ordered, slot, true, n);
    let numbers = listed(alloc, &rows, ordered, count)?;
    Ok(names(alloc, ordered, &numbers)?)
}
