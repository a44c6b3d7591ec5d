//! What shows the answer of a search: candidate executions and their judged relation, executions with their widths,
//! cycles, the inferences of a refutation, certificates, witness files, and partial placements.
#![tactic(auto)]

mod decision;
mod evidence;
mod inference;
pub mod laws;
mod lists;
mod name;
mod witness;

pub use decision::Decision;
pub use evidence::{Cause, Cycles, Forbidden, Link, Pairs, Witness};
pub use fs_kinds::{Fault, OperationName};
pub use fs_model::Choice;
pub use inference::Inference;
pub use lists::{ChoiceLists, Choices, Names};
pub use name::read_name;
pub use witness::{WitnessFile, read_witness, witness_of};
