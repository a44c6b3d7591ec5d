//! The search by one worker for the cheapest placement that forbids a test's outcome: which node of the board is next,
//! what is tried at it and closes it, where it is split, and the answer of the finished board; and before the first node
//! a plan, the cheapest placement that breaks all executions met so far.
#![tactic(auto)]

mod answer;
mod closing;
mod codes;
mod floor_and_filled;
mod limits;
mod next_node;
mod plan;
mod scout;
mod solving;
mod store;
mod sweep;
mod taken;
mod watch;

pub use answer::{Answer, Solved};
pub use fs_judge::{Chase, Crew, Learned, Left, Others, Piece, Problem, Team, USUAL_INFERENCES};
pub use limits::Limits;
pub use scout::{Scout, TRIES, Way};
pub use solving::{cheapest, conclude, problem_of, solve, solve_problem};
pub use sweep::{search, search_alone};
pub use taken::{Child, Taken};
pub use watch::{Unwatched, Watch};
