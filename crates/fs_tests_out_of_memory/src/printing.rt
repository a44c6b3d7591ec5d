//! What is printed. Printing takes no memory.

use fs_board::Reply;
use fs_cert_evidence::Witness;
use fs_kinds::{OperationName, Placement};
use std::sync::Arc;

/// Says that a call was refused memory, and is made again.
pub(crate) fn say_refused<R: Print>(rt: &R) {
    let _ = rt.println("F19");
    let _ = rt.println("again");
}

/// Prints the placement's fences, with a space before each.
pub(crate) fn print_fences<R: Print>(rt: &R, placement: &Placement) {
    for entry in placement.as_slice() {
        if let Some(kind) = entry.kind {
            let _ = print!(rt; " {}={}", entry.slot, kind.name());
        }
    }
}

/// Prints the operations, with a space before each.
fn print_names<R: Print>(rt: &R, names: &[OperationName]) {
    for name in names {
        let _ = print!(rt; " {name}");
    }
}

/// Prints the operations of the witnesses in their orders.
fn print_orders<R: Print>(rt: &R, witnesses: &[Arc<Witness>]) {
    for witness in witnesses {
        print_names(rt, witness.order.as_slice());
    }
}

/// The word of a reply.
fn word_of(reply: &Reply) -> &'static str {
    match reply {
        Reply::Node(_, _) => "node",
        Reply::Children(_, _) => "children",
        Reply::Seen(_, _, _) => "seen",
        Reply::Idle => "idle",
        Reply::Done => "done",
        Reply::Gone => "gone",
        Reply::NotYours => "not yours",
        Reply::Decided => "decided",
        Reply::Full => "full",
        Reply::Closed => "closed",
        Reply::Cheaper => "cheaper",
        Reply::NotCovered => "not covered",
        Reply::Other => "other",
    }
}

/// Prints the reply.
pub(crate) fn print_reply<R: Print>(rt: &R, reply: &Reply) {
    let _ = rt.print(word_of(reply));
    match reply {
        Reply::Node(node, _) => {
            let _ = print!(rt; " {node}");
        }
        Reply::Children(first, count) => {
            let _ = print!(rt; " {first} {count}");
        }
        Reply::Seen(bound, count, witnesses) => {
            let _ = print!(rt; " {count}");
            print_orders(rt, witnesses);
            if let Some(bound) = bound {
                print_fences(rt, &bound.placement);
            }
        }
        _ => {}
    }
}
