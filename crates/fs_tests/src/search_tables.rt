//! What the tables say, held in one test against what is found.

use crate::logs_compared::{COMPARED, OTHERS, add_wrong_compared, add_wrong_others};
use crate::logs_read::{LOGS, add_wrong_logs};
use crate::long::{MOST_NODES, wrong_nodes};
use crate::plain::wrong_made;
use crate::rings::{PLAYED, all_played};
use crate::scouts::{HELPED, may_help};
use crate::states::{STATES, add_wrong_states};
use crate::wrong::add_answer;
use std::alloc::{AllocError, Global};

/// Adds what is said of logs and states otherwise than the tables say.
fn add_wrong_rows(alloc: Global, wrong: &mut String) -> Result<(), AllocError> {
    add_wrong_logs(alloc, LOGS, wrong)?;
    add_wrong_compared(alloc, COMPARED, wrong)?;
    add_wrong_others(alloc, OTHERS, wrong)?;
    add_wrong_states(alloc, STATES, wrong)
}

/// Adds what the search, its hands and a plain program answer otherwise than is wanted.
fn add_wrong_answers(alloc: Global, wrong: &mut String) -> Result<(), AllocError> {
    add_answer(alloc, "hands", all_played(alloc), PLAYED, wrong)?;
    add_answer(alloc, "a scout", may_help(alloc), HELPED, wrong)?;
    add_answer(
        alloc,
        "long hunts",
        wrong_nodes(alloc, MOST_NODES),
        "",
        wrong,
    )?;
    add_answer(alloc, "made tests", wrong_made(alloc), "", wrong)
}

/// What is found otherwise than it is wanted.
fn all_wrong(alloc: Global) -> Result<String, AllocError> {
    let mut wrong = String::new(alloc);
    add_wrong_rows(alloc, &mut wrong)?;
    add_wrong_answers(alloc, &mut wrong)?;
    Ok(wrong)
}

#[test]
fn all_is_as_the_tables_say(rt: HostRuntime) -> Result<(), AllocError> {
    let wrong = all_wrong(rt.alloc())?;
    assert_eq!(rt; wrong.as_str(), "");
    Ok(())
}
