//! Syntactic dependencies between the steps of a run.
#![tactic(auto)]

mod deps;
pub mod laws;
mod tracker;

pub use deps::{Deps, Masks};
