//! What the command `states` answers, from the bytes of a test file to the text that is printed: which final states
//! the test allows, in herd7's form or as JSON; and what `states --log` answers: logs of herd7 and litmus7, as they are
//! read, and tests held against them.
#![tactic(auto)]

mod asked;
mod columns;
mod comparison;
mod counted;
mod error;
mod finding;
mod left;
mod listed;
mod log;
mod objects;
mod places;
mod reader;
mod report;
mod rows;
mod setting;
mod shown;
mod slices;
mod spelling;
mod tally;
mod text;
mod value;

pub use asked::Shown;
pub use columns::{Column, place_named, push_state};
pub use comparison::{Compared, compare};
pub use error::{Expected, LogError};
pub use left::left_over;
pub use log::{Block, Item, Log, Seen};
pub use reader::{MOST_BYTES, read_log};
pub use shown::run_states;
