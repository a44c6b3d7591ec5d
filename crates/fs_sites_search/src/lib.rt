//! The search for the cheapest fences of sites that rule out the outcome of each test: by one worker, or by several, who
//! judge the tests of a round side by side, in threads.
#![tactic(auto)]

mod limits;
mod rounds;
mod seats;
mod together;

pub use limits::Limits;
pub use rounds::{bar_by, fenced, refutations, solve, solve_broken};
pub use together::{solve_broken_by, solve_by};
