//! Judging placements: whether one forbids the outcome, by a refutation, or allows it, by an execution.
#![tactic(auto)]

mod atoms;
mod base;
mod causes;
mod doings;
mod executed;
mod forms;
mod groups;
mod harts;
mod hunters;
mod judge;
mod judging;
mod known;
mod links;
mod listed;
mod problem;
mod rules;
mod sought;
mod team;
mod verdict;

pub use fs_judge_hunt::{Alone, Chase, Crew, Learned, Left, Others, Piece};
pub use hunters::{hunter_asking, hunter_of};
pub use judge::Judge;
pub use problem::{Problem, USUAL_INFERENCES};
pub use team::Team;
pub use verdict::Verdict;
