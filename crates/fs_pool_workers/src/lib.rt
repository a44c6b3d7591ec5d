//! The search by 1 to 16 workers. One begins; where judging takes long the others join it, in threads of their own.
//! Then each has a deque of nodes, from which another steals (fs_pool), and all ask one board at its desk (fs_pool).
//! The contract is that of the search by one (fs_board_search).
#![tactic(auto)]

mod crew;
mod gate;
mod handed;
mod hunters;
mod work;

pub use crew::solve;
pub use fs_board_search::{Answer, Limits, Solved, Unwatched, Watch, solve as solve_alone};
pub use gate::{Gate, Open};
pub use hunters::Hunters;
