//! The text of a test file in which FENCEs are others, or blanks, or the fences of a placement are put in as rows of their
//! own, and all else is as it was. What is made is read again, and compared with the test that it is to be.
#![tactic(auto)]

mod added;
mod cells;
mod change;
mod fences;
mod kept;
mod masked;
mod reread;
mod rewriting;
mod rows;
mod same;
mod scan;
mod written;

pub use added::adds;
pub use fences::{is_fence, memory_kind, names_devices};
pub use kept::keeps;
pub use reread::{inserted, inserted_reads_fenced, print};
pub use written::{Rewritten, rewrite};
