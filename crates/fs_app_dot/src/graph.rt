//! What is drawn: operations as boxes, and arrows between them.

use fs_kinds::OperationName;
use fs_model::Name;

/// An operation in a picture.
#[derive(Drop)]
pub(crate) struct Node {
    pub(crate) name: OperationName,
    /// How many of its hart's stand before it in the picture.
    pub(crate) place: u8,
    /// Whether it is drawn in grey.
    pub(crate) is_grey: bool,
    /// What its box says, in lines.
    pub(crate) label: Name,
}

/// What an arrow stands for.
#[derive(Clone, Copy)]
pub(crate) enum Ink {
    /// The second reads from the first.
    ReadsFrom,
    /// The second overwrites the first.
    Coherence,
    /// The second overwrites what the first reads.
    FromReads,
    /// A fence orders them.
    Fence,
    /// Another rule of preserved program order does, or an axiom.
    Rule,
    /// They stand so in the code, and come to memory the other way round.
    Turned,
}

/// An arrow in a picture.
#[derive(Drop)]
pub(crate) struct Edge {
    pub(crate) from: OperationName,
    pub(crate) to: OperationName,
    pub(crate) ink: Ink,
    /// What stands beside it.
    pub(crate) label: Name,
}
