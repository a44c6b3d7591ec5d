//! What tests of several crates share: litmus tests as text, questions, answers and verdicts as text, and all runs,
//! placements and orders of a test by number.
#![tactic(auto)]

mod listing;
mod questions;
mod texts;
mod verdicts;

pub use listing::{Digits, MANY, copy, order_of, picked, placements_of, runs_of, runs_over};
pub use questions::{PRICES, placement_of, question_of, told, write_fences};
pub use texts::{
    ADD2, ANNOTATED, CO_RR, FENCED, FORWARDED, LB, LBC, LBD, LRSC, LRSCF, LRSCY, MP, MP11, MPA,
    MPB, POINTER, SB, SBF, SBX, SBXA, TWO_WRITES,
};
pub use verdicts::{count_of, problem_of, verdict_on};
