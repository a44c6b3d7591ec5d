//! The runs of one hart by themselves: what each does at each name, and which rules of preserved program order hold in
//! it. Regions of candidates made of them: what all of a test are over, what must hold in one, and how one is split into
//! smaller ones. And the checker of a refutation, a tree of inferences over regions: each inference is looked at once, and
//! nothing is searched for.
#![tactic(auto)]

mod basis;
mod causes;
mod choice;
mod doings;
mod endings;
mod filters;
mod idle;
pub mod laws;
mod lone;
mod musts;
mod naming;
mod parted;
mod ready;
mod region;
mod root;
mod rules;
mod run_laws;
mod source;
mod splits;
mod subtrees;
mod tables;
mod walk;

pub use basis::Basis;
pub use doings::{Doing, Doings};
pub use lone::Lone;
pub use musts::{
    Access, all_order, is_before_source, is_same_name, must_meet, must_pair, overwrites,
};
pub use naming::{is_name, names};
pub use region::Region;
pub use root::roots;
pub use run_laws::{listed_are_runs, sources_serve_three};
pub use source::{Source, Sourced};
pub use splits::{by_cases, by_choice, by_order, by_outcome, by_source, has_cases};
pub use subtrees::{Subtrees, small_subtrees};
pub use walk::reason_against;
