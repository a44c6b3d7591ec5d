//! What a global memory order makes of runs: the sources of loads, the axioms one by one, and the final state.
#![tactic(auto)]

mod atomicity;
mod each_once;
mod final_state;
mod global_order;
pub mod laws;
mod numbered;
mod ordered;
mod source;

pub use each_once::lists_each_once;
pub use final_state::{final_register, final_word, has_outcome, is_outcome};
pub use global_order::GlobalOrder;
pub use numbered::count_accesses;
pub use ordered::{Ordered, source_at};
