//! What the commands `place` and `order` answer, from the bytes of their files to the text that is printed.
#![tactic(auto)]

mod order;
mod place;

pub use order::run_order;
pub use place::run_place;
