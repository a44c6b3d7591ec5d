//! A plain, slow program that computes the definitions of the memory model, to compare faster ones with.
#![tactic(auto)]

mod allowing;
mod axioms;
mod dependencies;
mod executions;
mod fences;
mod numbered;
mod orders;
mod rules;
mod runs;
mod steps;

pub use allowing::allows_over;
pub use axioms::obeys_axioms;
pub use dependencies::{address_depends, control_depends, data_depends};
pub use executions::shows;
pub use rules::Executed;
pub use runs::is_run;
