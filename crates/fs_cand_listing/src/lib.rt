//! The candidate executions of a test that show its outcome, each once and in their order: which they are, as one list,
//! and how many raw ones there are, without listing them.
#![tactic(auto)]

mod atomicity;
mod by_number;
mod candidates;
mod choices;
mod coherence;
mod counting;
mod going;
pub mod laws;
mod place;
mod prepared;
mod runs;
mod showing;
mod shown_outcome;
mod total;

pub use candidates::{check_number, showing_of};
pub use showing::Showing;
