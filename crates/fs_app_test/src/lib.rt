//! What the command `test` answers, from the names and bytes of its files to the text that is printed: whether a test,
//! as it is written, can show its outcome, and why; and whether that is what was expected. The files that this command
//! and others read, and what is said of the faults in them. And the note that `solve` gives of a test that is vacuous.
#![tactic(auto)]

mod comments;
mod contradictions;
mod expecting;
mod faults;
mod judged;
mod judging;
mod kinds;
mod list_error;
mod names;
mod never;
mod note;
mod notes;
mod objects;
mod ordered;
mod papers;
mod report;
mod rows;
mod said;
mod said_of_verdict;
mod status;
mod tested;
mod unusable;
mod vacuous;
mod words;

pub use comments::expected_of;
pub use expecting::Expecting;
pub use faults::fault_object;
pub use judged::judge_test;
pub use judging::{Judged, Wants, judge_files};
pub use kinds::{Kinds, kind_by, kinds_of};
pub use list_error::ListError;
pub use names::test_name;
pub use note::vacuous_note;
pub use notes::in_width;
pub use objects::test_objects;
pub use papers::{Noted, Paper, Papers, message_of_file, note_of_file, note_or};
pub use report::{kind_text, test_report};
pub use rows::{Row, read_rows};
pub use said::{Expected, Kind, Line, Note, Said};
pub use said_of_verdict::{forbids, said_of};
pub use status::status_of;
pub use tested::test_file;
pub use unusable::{Unusable, plain_text};
pub use words::counted;
