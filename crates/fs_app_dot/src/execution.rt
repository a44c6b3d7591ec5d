//! The arrows of an execution. They are drawn from what the model says of each two operations; those that a path of
//! others stands for are left out, but for reads of another hart's store.

ghost use Rattle.std.specs.Prelude.{◌<◌, ◌≤◌};

use crate::chain::{cause_label, fence_label, ink_of, named};
use crate::graph::{Edge, Ink};
use fs_app_why::{Fence, fence_orders};
use fs_cand_witness::{Rows, operation_name};
use fs_cert_evidence::Cause;
use fs_check::OrderedCandidate;
use fs_hart::steps_of;
use fs_kinds::{Classes, OperationName, Placement, Slot};
use fs_model::{Name, Operation, Test};
use fs_ppo::is_edge;
use std::alloc::{AllocError, Global};

/// As many operations as a relation has room for.
const MOST_OPERATIONS: usize = 64;

/// The rules, those first that an arrow rather names.
const RULES: [Cause; 13] = [
    Cause::Rule4,
    Cause::Rule5,
    Cause::Rule6,
    Cause::Rule7,
    Cause::Rule8,
    Cause::Rule9,
    Cause::Rule10,
    Cause::Rule11,
    Cause::Rule1,
    Cause::Rule2,
    Cause::Rule3,
    Cause::Rule12,
    Cause::Rule13,
];

fn operation(ordered: &OrderedCandidate, a: usize) -> Operation {
    Operation::numbered(ordered.candidate.operations.as_slice(), a)
}

/// Does b load what a, of another hart, stores?
fn is_read(ordered: &OrderedCandidate, a: usize, b: usize) -> bool {
    match ordered.order.source(b) {
        Some(store) => {
            usize::from(store) == a && !operation(ordered, a).is_same_hart(&operation(ordered, b))
        }
        None => false,
    }
}

/// Is b a store to the word of a?
fn may_overwrite(ordered: &OrderedCandidate, a: usize, b: usize) -> bool {
    let second = operation(ordered, b);
    second.is_store() && operation(ordered, a).is_same_word(&second)
}

/// Does a store, and b come later?
fn is_overwritten(ordered: &OrderedCandidate, a: usize, b: usize) -> bool {
    operation(ordered, a).is_store() && ordered.order.stands_before(a, b)
}

/// Does b come later than what a loads?
fn is_from_read(ordered: &OrderedCandidate, a: usize, b: usize) -> bool {
    match ordered.order.source(a) {
        Some(store) => ordered.order.stands_before(usize::from(store), b),
        None => false,
    }
}

/// The rule by which a comes before b.
fn rule_between(
    ordered: &OrderedCandidate,
    placement: &Placement,
    a: usize,
    b: usize,
) -> Option<Cause> {
    for rule in &RULES {
        if is_edge(&ordered.candidate, placement, a, b, *rule) {
            return Some(*rule);
        }
    }
    None
}

/// Why a comes before b, of another hart, if it must.
fn axiom_between(ordered: &OrderedCandidate, a: usize, b: usize) -> Option<Cause> {
    if is_read(ordered, a, b) {
        return Some(Cause::ReadsFrom);
    }
    if !may_overwrite(ordered, a, b) {
        return None;
    }
    if is_overwritten(ordered, a, b) {
        return Some(Cause::Coherence);
    }
    if is_from_read(ordered, a, b) {
        return Some(Cause::FromReads);
    }
    None
}

/// Why a comes before b, if it must.
fn cause_between(
    ordered: &OrderedCandidate,
    placement: &Placement,
    a: usize,
    b: usize,
) -> Option<Cause> {
    if a == b {
        return None;
    }
    if let Some(rule) = rule_between(ordered, placement, a, b) {
        return Some(rule);
    }
    axiom_between(ordered, a, b)
}

/// The pairs of the first n of which the first must come before the second.
fn relation(ordered: &OrderedCandidate, placement: &Placement, n: usize) -> Rows
    requires { n ≤ 64 }
{
    let mut rows = Rows::new();
    for a in 0..n {
        for b in 0..n {
            if cause_between(ordered, placement, a, b).is_some() {
                rows.add(a, b);
            }
        }
    }
    rows
}

/// Adds what leads from a by way of b.
fn add_way(rows: &mut Rows, n: usize, a: usize, b: usize)
    requires most { n ≤ 64 }
    requires first { a < 64 }
    requires second { b < 64 }
{
    if rows.has(a, b) {
        for c in 0..n {
            if rows.has(b, c) {
                rows.add(a, c);
            }
        }
    }
}

/// Adds what paths lead to, between the first n.
fn close(rows: &mut Rows, n: usize)
    requires { n ≤ 64 }
{
    for b in 0..n {
        for a in 0..n {
            add_way(rows, n, a, b);
        }
    }
}

/// Does a path of several lead from a to b?
fn has_path(rows: &Rows, n: usize, a: usize, b: usize) -> bool
    requires most { n ≤ 64 }
    requires first { a < 64 }
    requires second { b < 64 }
{
    for c in 0..n {
        if rows.has(a, c) && rows.has(c, b) {
            return true;
        }
    }
    false
}

/// Does the hart's run come to the instruction?
fn executes(ordered: &OrderedCandidate, hart: u8, at: u8) -> bool {
    for step in steps_of(ordered.candidate.traces.as_slice(), Some(hart)) {
        if step.at == at {
            return true;
        }
    }
    false
}

/// The fence there that orders the two, if there is one: a placed one, or a FENCE.
fn fence_at(
    test: &Test,
    placement: &Placement,
    slot: Slot,
    first: &Operation,
    second: &Operation,
) -> Option<Fence> {
    if let Some(kind) = placement.get(slot) {
        if kind.orders(first.classes(), second.classes()) {
            return Some(Fence::Placed { slot, kind });
        }
    }
    let written = Fence::Written {
        hart: slot.hart,
        at: slot.at,
    };
    if fence_orders(test, written, first.classes(), second.classes()) {
        Some(written)
    } else {
        None
    }
}

/// The first fence of the run that orders a before b.
fn fence_between(
    test: &Test,
    placement: &Placement,
    ordered: &OrderedCandidate,
    a: usize,
    b: usize,
) -> Option<Fence> {
    let first = operation_name(&ordered.candidate, a)?;
    let second = operation_name(&ordered.candidate, b)?;
    for at in first.at..second.at {
        let slot = Slot {
            hart: first.hart,
            at: at + 1,
        };
        if executes(ordered, slot.hart, slot.at) {
            let fence = fence_at(
                test,
                placement,
                slot,
                &operation(ordered, a),
                &operation(ordered, b),
            );
            if fence.is_some() {
                return fence;
            }
        }
    }
    None
}

/// Why an operation must come before another.
#[derive(Clone, Copy)]
struct Found {
    a: usize,
    b: usize,
    cause: Cause,
}

/// Why a must come before b, if it must, unless a path of others says it.
fn cause_to_draw(
    ordered: &OrderedCandidate,
    placement: &Placement,
    is_implied: bool,
    a: usize,
    b: usize,
) -> Option<Found> {
    let cause = cause_between(ordered, placement, a, b)?;
    if is_implied && !matches!(cause, Cause::ReadsFrom) {
        return None;
    }
    Some(Found { a, b, cause })
}

/// What stands beside the arrow.
fn label_of(
    alloc: Global,
    test: &Test,
    placement: &Placement,
    ordered: &OrderedCandidate,
    found: Found,
) -> Result<Name, AllocError> {
    match found.cause {
        Cause::Rule4 => {
            let fence = fence_between(test, placement, ordered, found.a, found.b);
            fence_label(alloc, test, fence)
        }
        _ => named(alloc, cause_label(found.cause)),
    }
}

/// Appends the arrow from a to b, where both are a hart's.
fn push_edge(
    ordered: &OrderedCandidate,
    pair: (usize, usize),
    ink: Ink,
    label: Name,
    edges: &mut Vec<Edge>,
) -> Result<(), AllocError> {
    let from = operation_name(&ordered.candidate, pair.0);
    let to = operation_name(&ordered.candidate, pair.1);
    if let (Some(from), Some(to)) = (from, to) {
        edges.push(Edge {
            from,
            to,
            ink,
            label,
        })?;
    }
    Ok(())
}

/// Appends why an operation must come before another.
fn push_found(
    alloc: Global,
    test: &Test,
    placement: &Placement,
    ordered: &OrderedCandidate,
    found: Found,
    edges: &mut Vec<Edge>,
) -> Result<(), AllocError> {
    let label = label_of(alloc, test, placement, ordered, found)?;
    let ink = ink_of(found.cause);
    push_edge(ordered, (found.a, found.b), ink, label, edges)
}

/// The letter of a fence for this, or both where either will do.
fn letters(classes: Classes) -> &'static str {
    match (classes.reads, classes.writes) {
        (true, true) => "r|w",
        (true, false) => "r",
        (false, true) => "w",
        (false, false) => "",
    }
}

/// Which fence would keep the two in the order of the code.
fn turned_label(alloc: Global, a: Operation, b: Operation) -> Result<Name, AllocError> {
    let (first, second) = (letters(a.classes()), letters(b.classes()));
    Ok(Name::new(format!(in alloc; "not kept: no {},{}", first, second)?))
}

/// Appends that the two stand so in the code and come the other way round, if they do.
fn push_turned(
    alloc: Global,
    ordered: &OrderedCandidate,
    pair: (usize, usize),
    edges: &mut Vec<Edge>,
) -> Result<(), AllocError> {
    let (a, b) = pair;
    let (first, second) = (operation(ordered, a), operation(ordered, b));
    if first.precedes(&second) && ordered.order.stands_before(b, a) {
        let label = turned_label(alloc, first, second)?;
        push_edge(ordered, pair, Ink::Turned, label, edges)?;
    }
    Ok(())
}

/// The arrows of an execution with these fences: why one operation must come before another, where no path of others
/// says it, with each read of another hart's store; and which stand in the code the other way round than they come. Of
/// more than 64 operations none. The cost is that of `is_edge` of fs_ppo for each two operations and each rule. The
/// error is want of memory.
pub(crate) fn execution_edges(
    alloc: Global,
    test: &Test,
    placement: &Placement,
    ordered: &OrderedCandidate,
) -> Result<Vec<Edge>, AllocError> {
    let mut edges = Vec::new(alloc);
    let n = ordered.order.count();
    if n > MOST_OPERATIONS {
        return Ok(edges);
    }
    let mut rows = relation(ordered, placement, n);
    close(&mut rows, n);
    for a in 0..n {
        for b in 0..n {
            let is_implied = has_path(&rows, n, a, b);
            if let Some(found) = cause_to_draw(ordered, placement, is_implied, a, b) {
                push_found(alloc, test, placement, ordered, found, &mut edges)?;
            }
            push_turned(alloc, ordered, (a, b), &mut edges)?;
        }
    }
    Ok(edges)
}
