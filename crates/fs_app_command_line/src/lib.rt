//! The command line: which request its words make, and what each command's help says.
#![tactic(auto)]

mod command;
mod completions;

pub use command::{
    Audit, AuditSites, Check, CheckSites, Expectations, MOST_NODES, MOST_WORKERS, Order, Place,
    Request, Sites, Solve, States, Task, Test, Why, completion_script, read_request,
};
pub use completions::Shell;
