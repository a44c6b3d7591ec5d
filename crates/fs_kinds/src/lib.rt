//! Kinds of fence, slots, prices, placements, and the faults that end a run; and a list of values that is made once and
//! then read.
#![tactic(auto)]

mod fault;
mod fault_order;
mod kind;
mod limits;
mod list;
mod place;
mod placement;
mod prices;
mod reason;
mod slot;

pub use fault::{Fault, Limit};
pub use fault_order::earliest;
pub use kind::{Classes, Kind};
pub use limits::{MOST_ACCESSES, MOST_DEPTH, MOST_HARTS, MOST_INSTRUCTIONS, MOST_LOCATIONS};
pub use list::List;
pub use place::read_place;
pub use placement::{Entry, Placement};
pub use prices::{Prices, read_prices, whole};
pub use reason::{OperationName, Reason};
pub use slot::{Slot, read_fence};
