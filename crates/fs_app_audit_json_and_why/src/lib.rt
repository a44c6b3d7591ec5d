//! What `audit` prints of its findings beside lines: as JSON, an object a line for each file; and what `--why` tells of a
//! test below its lines. Of a test that is forbidden as it is written: why the fences that are advised in place rule its
//! outcome out, and of each of them an execution without it. Of one that is allowed: an execution that shows its outcome.
#![tactic(auto)]

mod advised;
mod answered;
mod cost;
mod executions;
mod fences;
mod files;
mod laws;
mod objects;
mod page;
mod places;
mod refutation;
mod row_values;
mod rows;
mod why;

pub use advised::as_advised;
pub use answered::{run_anew_object, run_audit_object};
pub use files::{FoundObject, object_of_file, objects_of, objects_output};
pub use fs_app_why::Telling;
pub use laws::lines_are_of_rows;
pub use rows::{Row, rows_anew, rows_in_place};
pub use why::why_audit;
