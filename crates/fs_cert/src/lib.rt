//! Certificates of answers, made of what a search leaves: its finished board, or what was judged without one.
#![tactic(auto)]

mod answered;
mod certified;
mod copied;
mod cycles;
mod inferences;
mod items;
mod numbered;
mod pending;
mod preorder;

pub use certified::{from_board, from_least, from_witness};
