//! What is asked of a test beside a verdict: whether its outcome is vacuous, where no choice of runs and last words makes
//! it true; and which final states it allows, each with an execution that ends in it.
#![tactic(auto)]

mod asked;
mod barren;
mod condition;
mod end;
mod ended;
mod ends;
mod known;
mod laws;
mod limit;
mod listing;
mod lore;
mod moved;
mod nearby;
mod part;
mod place;
mod search;
mod settled;
mod sought;
mod splitting;
mod state;
mod vacuous;

pub use laws::vacuous_forbids;
pub use listing::states;
pub use place::Place;
pub use state::State;
pub use vacuous::is_vacuous;
