//! The rules of preserved program order, on the operations of a candidate, and the edges of its judged relation.
#![tactic(auto)]

mod cases;
mod dependencies;
mod edges;
mod fences;
mod operations;
mod rules;
mod unfenced;

pub use edges::{is_edge, is_read_externally};
pub use rules::{fence_rule, rule};
pub use unfenced::is_preserved;
