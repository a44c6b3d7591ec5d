//! When events and replies are the same: what is behind an `Arc` is compared by its value.

ghost use Rattle.std.specs.Prelude.{◌≡◌, IsTrue, map};
ghost use Rattle.std.specs.Arc.{arc_value};
ghost use Rattle.fs_cert_evidence.specs.Evidence.{witness_in, placement_in};
ghost use Rattle.fs_board.specs.View.{event_of, reply_of};

use fs_board::{Decision, Event, Reply};
use fs_cert_evidence::{ChoiceLists, Forbidden, Witness};
use fs_kinds::{Entry, OperationName};
use std::sync::Arc;

/// Are both the same choices?
fn is_same_choices(choices: &ChoiceLists, other: &ChoiceLists) -> bool
    ensures yes { IsTrue result → choices.now ≡ other.now }
    ensures no { choices.now ≡ other.now → IsTrue result }
{
    choices == other
}

/// Are both the same names? It calls itself once for each operation.
fn is_same_order(names: &[OperationName], others: &[OperationName]) -> bool
    ensures yes { IsTrue result → names.now ≡ others.now }
    ensures no { names.now ≡ others.now → IsTrue result }
{
    let [name, names @ ..] = names else {
        return others.is_empty();
    };
    let [other, others @ ..] = others else {
        return false;
    };
    *name == *other && is_same_order(names, others)
}

/// Do both have the same choices and the same order?
#[tactic(auto, using(crate::proofs::Comparing::same_witness, crate::proofs::Comparing::same_of_witness))]
fn is_same_witness(witness: &Witness, other: &Witness) -> bool
    ensures yes { IsTrue result → witness.now.witness ≡ other.now.witness }
    ensures no { witness.now.witness ≡ other.now.witness → IsTrue result }
{
    is_same_choices(&witness.choices, &other.choices)
        && is_same_order(witness.order.as_slice(), other.order.as_slice())
}

/// The same of what is shared.
fn is_same_shared(witness: &Arc<Witness>, other: &Arc<Witness>) -> bool
    ensures yes { IsTrue result → witness_in witness.now ≡ witness_in other.now }
    ensures no { witness_in witness.now ≡ witness_in other.now → IsTrue result }
{
    is_same_witness(witness, other)
}

/// Are these the same witnesses, in the same order?
fn are_same_witnesses(witnesses: &[Arc<Witness>], others: &[Arc<Witness>]) -> bool
    ensures yes { IsTrue result → map witness_in witnesses.now ≡ map witness_in others.now }
    ensures no { map witness_in witnesses.now ≡ map witness_in others.now → IsTrue result }
{
    if witnesses.len() != others.len() {
        return false;
    }
    for i in 0..witnesses.len() {
        if !is_same_shared(&witnesses[i], &others[i]) {
            return false;
        }
    }
    true
}

/// Are both the same placement? It calls itself once for each slot.
fn is_same_placement(placement: &[Entry], other: &[Entry]) -> bool
    ensures yes { IsTrue result → placement.now ≡ other.now }
    ensures no { placement.now ≡ other.now → IsTrue result }
{
    let [entry, placement @ ..] = placement else {
        return other.is_empty();
    };
    let [above, other @ ..] = other else {
        return false;
    };
    *entry == *above && is_same_placement(placement, other)
}

/// Do both forbid the same placement?
fn is_same_bound(forbidden: &Forbidden, other: &Forbidden) -> bool
    ensures yes { IsTrue result → forbidden.now.placement ≡ other.now.placement }
    ensures no { forbidden.now.placement ≡ other.now.placement → IsTrue result }
{
    is_same_placement(forbidden.placement.as_slice(), other.placement.as_slice())
}

/// Are the same slots decided in the same way? It calls itself once for each slot.
fn is_same_part(part: &[Decision], other: &[Decision]) -> bool
    ensures yes { IsTrue result → part.now ≡ other.now }
    ensures no { part.now ≡ other.now → IsTrue result }
{
    let [decision, part @ ..] = part else {
        return other.is_empty();
    };
    let [above, other @ ..] = other else {
        return false;
    };
    decision.slot == above.slot && decision.decided == above.decided && is_same_part(part, other)
}

/// Are both the same event?
pub(crate) fn is_same_event(event: &Event, other: &Event) -> bool
    ensures yes { IsTrue result → event_of event.now ≡ event_of other.now }
    ensures no { event_of event.now ≡ event_of other.now → IsTrue result }
{
    match (event, other) {
        (Event::Take, Event::Take) => true,
        (Event::Claim(a), Event::Claim(b)) => *a == *b,
        (Event::Adopt(a), Event::Adopt(b)) => *a == *b,
        (Event::Split(a, s), Event::Split(b, t)) => *a == *b && *s == *t,
        (Event::CutCost(a), Event::CutCost(b)) => *a == *b,
        (Event::CutWitness(a, v), Event::CutWitness(b, w)) => *a == *b && is_same_shared(v, w),
        (Event::CutBound(a, vs), Event::CutBound(b, ws)) => *a == *b
            && are_same_witnesses(vs.as_slice(), ws.as_slice()),
        (Event::Post(a, f), Event::Post(b, g)) => *a == *b && is_same_bound(f, g),
        (Event::Peek(a), Event::Peek(b)) => *a == *b,
        _ => false,
    }
}

/// Are both the same reply?
pub(crate) fn is_same_reply(reply: &Reply, other: &Reply) -> bool
    ensures yes { IsTrue result → reply_of reply.now ≡ reply_of other.now }
    ensures no { reply_of reply.now ≡ reply_of other.now → IsTrue result }
{
    match (reply, other) {
        (Reply::Node(a, p), Reply::Node(b, q)) => *a == *b
            && is_same_part(p.as_slice(), q.as_slice()),
        (Reply::Idle, Reply::Idle) => true,
        (Reply::Done, Reply::Done) => true,
        (Reply::Gone, Reply::Gone) => true,
        (Reply::Children(a, m), Reply::Children(b, n)) => *a == *b && *m == *n,
        (Reply::NotYours, Reply::NotYours) => true,
        (Reply::Decided, Reply::Decided) => true,
        (Reply::Full, Reply::Full) => true,
        (Reply::Closed, Reply::Closed) => true,
        (Reply::Cheaper, Reply::Cheaper) => true,
        (Reply::NotCovered, Reply::NotCovered) => true,
        (Reply::Other, Reply::Other) => true,
        (Reply::Seen(None, m, vs), Reply::Seen(None, n, ws)) => *m == *n
            && are_same_witnesses(vs.as_slice(), ws.as_slice()),
        (Reply::Seen(Some(f), m, vs), Reply::Seen(Some(g), n, ws)) => *m == *n
            && is_same_bound(f, g)
            && are_same_witnesses(vs.as_slice(), ws.as_slice()),
        _ => false,
    }
}
