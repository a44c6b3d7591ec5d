//! The program without its `main`: a run from the command line to the exit status, and what each command answers.
#![tactic(auto)]

mod audit_sites;
mod audits;
mod failure;
mod pictures;
mod program;
mod progress;
mod sites;
mod states;
mod telling;
mod write;

pub use fs_app_audit::{Audited, run_anew, run_audit, run_written};
pub use fs_app_io::{Output, Status, read_bytes, write_text};
pub use fs_app_place_and_order::{run_order, run_place};
pub use fs_app_solve_and_check::{
    Checked, Found, Gate, Open, Unwatched, Watch, run_check, run_solve, run_solve_alone,
};
pub use fs_app_states::{Compared, LogError, Shown, compare, left_over, read_log, run_states};
pub use fs_app_test::{
    Expected, Kind, Kinds, Line, ListError, Note, Row, Said, expected_of, kind_by, kinds_of,
    read_rows, test_file, test_name, test_objects, test_report, vacuous_note,
};
pub use fs_app_why::{why_allowed, why_certified, why_order};
pub use program::run;
