//! Candidate executions: runs, sources and coherence orders, before any global memory order.
#![tactic(auto)]

mod candidate;
mod lists;

pub use candidate::Candidate;
pub use lists::{Dependencies, Sources, StoreOrder, Stores, Traces};
