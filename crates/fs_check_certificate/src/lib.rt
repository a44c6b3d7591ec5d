//! The checker of certificates: whether one is valid, and then its answer, or the first reason against it; and, piece
//! by piece, what a certificate claims: its cycles, its refutation, the executions that a leaf of its tree names. It
//! stands on the definitions and on the checkers of executions and of refutations, and calls nothing of the search.
#![tactic(auto)]

mod answer;
mod bounds;
mod breaking;
mod certificate_verdict;
mod costs;
mod cycles;
mod fenced;
mod held;
mod laws;
mod stack;
mod tree;
mod unforbidden;
mod witness;

pub use bounds::{Bounding, judge_bounded, refutes};
pub use certificate_verdict::{CheckVerdict, check};
pub use held::{Held, hold};
pub use laws::{fences_have_executions, file_says_one_certificate, valid_is_right};
