//! A litmus test as a value, with its slots and the fenced test in print; and the memory model RVWMO on it: the
//! definitions, the steps of one hart, and what is asked of single operations and of steps.
#![tactic(auto)]

mod accesses;
mod arithmetic;
mod columns;
mod fencing;
mod hart;
pub mod laws;
mod lists;
mod moves;
mod numbers;
mod operation;
mod outcome;
mod pairs;
mod print;
mod registers;
mod step;
mod test;
mod words;

pub use accesses::slots;
pub use fencing::{fence_of, fenced_codes};
pub use hart::Hart;
pub use lists::{Code, Codes, Locations, Name, Registers, Starts};
pub use moves::fences_move;
pub use numbers::stands_before;
pub use operation::Operation;
pub use outcome::Outcome;
pub use pairs::are_paired;
pub use print::write_fenced;
pub use step::{Choice, Step, Stop};
pub use test::{Location, Quantifier, Test};
pub use words::read_fences;
