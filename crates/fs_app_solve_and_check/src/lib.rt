//! What the commands `solve` and `check` answer, from the bytes of their files to the text that is printed, and to a
//! certificate's.
#![tactic(auto)]

mod certified;
mod check_answer;
mod checked;
mod objects;
mod solve;

pub use check_answer::run_check;
pub use checked::Checked;
pub use fs_pool_workers::{Gate, Limits, Open, Unwatched, Watch};
pub use solve::{Found, run_solve, run_solve_alone};
