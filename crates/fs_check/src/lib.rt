//! The checker of executions: whether a witness file gives one that RVWMO allows and that shows the outcome, or the
//! first reason why not.
#![tactic(auto)]

pub mod laws;
mod names;
mod order;
mod ordered;
mod runs;

pub use fs_kinds::{Fault, OperationName};
pub use fs_model::Choice;
pub use order::{OrderVerdict, check_order, shown_by};
pub use ordered::OrderedCandidate;
