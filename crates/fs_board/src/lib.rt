//! The search board: a tree of partial placements that workers take, split and close, and the log of all events.
#![tactic(auto)]

mod board;
mod bounds;
mod event;
mod node;
mod part;
mod tree;

pub use board::Board;
pub use event::{Event, LogEntry, Reply};
pub use fs_cert_evidence::Decision;
pub use node::{Node, Status};
pub use part::Part;
