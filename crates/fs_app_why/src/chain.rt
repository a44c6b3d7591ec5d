//! Chains of operations that no candidate has.

use crate::fences::Fence;
use crate::known::Known;
use fs_cert_evidence::Cause;
use fs_kinds::{List, OperationName};

/// What a chain comes to.
#[derive(Clone, Copy)]
pub enum Shape {
    /// The last operation comes before the first.
    Cycle,
    /// A load returns what an own store before it overwrites.
    Stale,
    /// A store comes between those of a pair of lr.w and sc.w.
    NotAtomic,
}

/// What leads from an operation of a chain to the next one.
#[derive(Clone, Copy)]
pub enum Arrow {
    /// It comes before the next one, for this cause.
    Because(Cause),
    /// It stands in the code before the next one, which returns what it overwrites.
    Forgotten,
    /// It is the store of a pair, the last of the chain, and no store may come between it and what this load returns.
    Pair(OperationName),
    /// It is the last.
    End,
}

/// What leads from an operation to the next one.
#[derive(Clone, Copy)]
pub struct Leading {
    pub(crate) name: OperationName,
    pub(crate) arrow: Arrow,
    pub(crate) next: OperationName,
}

/// An operation of a chain, and what leads to the next one.
#[derive(Clone, Copy)]
pub struct ChainLink {
    pub name: OperationName,
    /// The next one; of the last of a cycle the first, and of the last of another chain itself.
    pub next: OperationName,
    /// What it does.
    pub known: Known,
    pub arrow: Arrow,
    /// The first fence that orders it before the next one, where the arrow is rule 4.
    pub fence: Option<Fence>,
    /// The same where no other one does.
    pub sole: Option<Fence>,
}

/// A chain of operations.
#[derive(Drop)]
pub struct Chain {
    pub shape: Shape,
    pub links: List<ChainLink>,
}
