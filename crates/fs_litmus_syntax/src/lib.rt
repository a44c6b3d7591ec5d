//! The syntax of a test file (herd7's format of litmus tests), over its tokens: its sections from initial values to the
//! quantifier; from the cells of its rows each hart's code, with labels, instructions and branch targets; and the
//! condition as a tree.
#![tactic(auto)]

mod atom;
mod branches;
mod cell;
mod codes;
mod column;
mod condition;
mod form;
mod hart;
mod header;
mod init;
mod labels;
mod layer;
mod lines;
mod listing;
mod numbered;
mod reader;
mod rows;
mod slices;
mod subformula;

pub use codes::read_codes;
pub use condition::{Atom, Condition, Tree};
pub use form::{Form, read_form};
pub use hart::HartCode;
pub use header::read_header;
pub use init::{Entry, read_init};
pub use lines::read_lines;
pub use reader::read_condition;
pub use rows::{Body, Quantifier, read_body};
