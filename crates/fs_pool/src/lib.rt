//! One search board for many workers, under one lock, and the receipts that show what each of them did; and the hands:
//! numbers of open nodes, kept by each worker in a deque from which one other worker may steal.
#![tactic(auto)]

mod asked;
mod deque;
mod desk;
mod ending;
mod pass;
mod ring;
mod same;
mod shared;

pub use asked::Asked;
pub use desk::Desk;
pub use ending::{Unfinished, finish};
pub use pass::{Pass, Receipt};
pub use ring::{Hand, gather, hands};
