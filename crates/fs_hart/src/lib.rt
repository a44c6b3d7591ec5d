//! Runs of one hart, and the memory operations of the runs of all.
#![tactic(auto)]

mod accesses;
mod choosing;
mod listing;
mod lists;
mod run;
mod trace;
mod walk;

pub use accesses::{operations, operations_are_few};
pub use fs_model::{Choice, Operation, Step};
pub use listing::traces_over;
pub use lists::{Operations, Steps, Words};
pub use run::{runs_are_short, trace_of};
pub use trace::{Run, Trace, steps_of};
