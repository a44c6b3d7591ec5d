//! Relations on the numbers below 64 as rows of bits, and the orders that extend them. And from a candidate to a witness:
//! its judged relation and the edges of placed fences, as such rows; the names of its operations; and, where that
//! relation has no cycle, an execution that shows the outcome under a placement, and under as many fences more as it
//! bears.
#![tactic(auto)]

mod base;
mod choices;
mod chosen_names;
mod cycles;
mod fences;
mod judged;
pub mod laws;
mod names;
mod order;
mod points;
mod rows;
mod widen;
mod widest;
mod widths;
mod witness_laws;

pub use base::base_rows;
pub use cycles::{Judged, has_order, judge};
pub use fences::fence_rows;
pub use names::operation_name;
pub use points::{Sides, sides_of};
pub use rows::Rows;
pub use widest::{Hints, widest_witness};
pub use witness_laws::witnesses_give_one_execution;
