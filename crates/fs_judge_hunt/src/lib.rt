//! Hunts for what decides a test under a placement of fences: a refutation, or an execution that shows the outcome.
//! What the runs of each hart do stands in rows of bits, one bit for each run. Both are checked elsewhere
//! (`reason_against` of fs_region_refutation, `shown_by` of fs_check); of what is here it is proved that it is safe and
//! ends.
#![tactic(auto)]

mod access;
mod cases;
mod choose;
mod clash;
mod condition;
mod crew;
mod endings;
mod facts;
mod fenced;
mod fences;
mod first;
mod forms;
mod frames;
mod gathered;
mod hart;
mod hunter;
mod inferences;
mod learned;
mod links;
mod loads;
mod marks;
mod names;
mod needs;
mod options;
mod pairs;
mod paths;
mod pieces;
mod portions;
mod region;
mod rows;
mod rules;
mod saturate;
mod splits;
mod sum;
mod trail;
mod tree;
mod uses;
mod witness;

pub use access::{
    Access, Doing, Own, Place, Takes, class_key, class_of, initial_word, location_in, location_of,
    word_in,
};
pub use condition::{Condition, Node, Part, nodes};
pub use crew::{Alone, Chase, Crew, Left, Others};
pub use fences::written;
pub use forms::{Form, Outline};
pub use hart::Hart;
pub use hunter::{Found, Hunter, Kept};
pub use inferences::Refutation;
pub use learned::Learned;
pub use pieces::Piece;
pub use rows::{Group, Row, both, do_meet, has_all, is_empty, join, no_run, put, words_for};
pub use rules::{Forwarded, Numbered, Rule};
pub use witness::Execution;
