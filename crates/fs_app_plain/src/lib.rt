//! A test file in a wider form than the reader's, written in the reader's: with loops in one turn, a `filter`, or accesses
//! of 64 bits. What is made is a text that is read as any other one; contracts don't see how it is made. And laws of tests
//! in these forms, as functions that do nothing: each stands for the laws that it promises.
#![tactic(auto)]

mod guard;
mod lexemes;
mod loop_laws;
mod loops;
mod ordered;
mod plain;
mod restore;
mod sheet;
mod turns;
mod width;
mod width_laws;
mod words;

pub use loop_laws::{
    idle_turns_can_be_left_out, one_turn_is_enough, plain_means_one_turn, waiting_is_idle,
};
pub use ordered::with_ordered;
pub use plain::{Forms, Plain, Unplain, in_file, plain_form};
pub use turns::{Doubt, OneTurn};
pub use width::{widened, widened_words};
pub use width_laws::wide_executions_are_extended;
