//! Nodes of the board, as one who searches keeps them.

use fs_board::{Part, Reply};
use fs_kinds::Slot;
use std::alloc::AllocError;
use std::sync::Arc;

/// A node that the searcher made, and the slot at which its parent was split.
#[derive(Clone, Copy)]
pub struct Child {
    pub node: usize,
    pub slot: Slot,
}

/// A node that the searcher holds, its part, and the slot at which its parent was split, where this searcher split it.
#[derive(Drop)]
pub struct Taken {
    pub node: usize,
    pub part: Arc<Part>,
    pub slot: Option<Slot>,
}

/// Puts the child of this number on the stack, where the first one is this node.
fn push_child(
    children: &mut Vec<Child>,
    slot: Slot,
    first: usize,
    number: usize,
) -> Result<(), AllocError> {
    let node = first.saturating_add(number);
    children.push(Child { node, slot })?;
    Ok(())
}

/// Puts the children that a reply gives to a node, which was split at the slot, on the stack, the first one last, but
/// for the one that comes next, which is on top. That one is named by its number among them.
pub(crate) fn push_children(
    children: &mut Vec<Child>,
    slot: Slot,
    reply: &Reply,
    next: Option<usize>,
) -> Result<(), AllocError> {
    let Reply::Children(first, count) = reply else {
        return Ok(());
    };
    for k in (0..*count).rev() {
        if Some(k) != next {
            push_child(children, slot, *first, k)?;
        }
    }
    match next {
        Some(k) if k < *count => push_child(children, slot, *first, k),
        _ => Ok(()),
    }
}
