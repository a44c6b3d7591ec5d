//! Value sets: which words each location of a test can come to hold; and all runs over them. With the laws that nothing
//! comes out of thin air: where the listing of runs meets no fault, each loaded word of an execution is in the value
//! set of its location.
#![tactic(auto)]

pub mod laws;
mod rising;
mod rounds;
mod runs;
mod stores;
mod thin_air;
mod values;

pub use runs::{all_runs, runs_over};
pub use thin_air::{
    grounded_says_nothing_more, no_fault_none_astray, nothing_out_of_thin_air,
    nothing_rests_on_itself, stores_rest_on_their_loads,
};
pub use values::Values;
