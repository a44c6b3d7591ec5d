//! What the tables say, held in one test against what is found.

use crate::condition::{CONDITIONS, DEPTHS, add_wrong_conditions, add_wrong_depths};
use crate::executions::wrong_counts;
use crate::form::{FORMS, add_wrong_column, add_wrong_forms};
use crate::hunts::{BOUNDS, FOUND, LONG, all_hunted, bounds_of};
use crate::judges::{JUDGED, judged_in_turn};
use crate::kept::{KEPT, LOCK3_FENCES, SAID, hunted_by_few_looks, hunted_in_turn, said_in_turn};
use crate::laws::verdicts_rest_on_candidates;
use crate::rewriting::{REWRITTEN, add_wrong_rewritten};
use crate::runs::{DONE, RULES, add_wrong_done, add_wrong_rules};
use crate::site_labels::{LABELS, add_wrong_labels};
use crate::slots::{SLOTS, add_wrong_slots};
use crate::subtrees::{LOOKED, all_looked};
use crate::texts::LOCK3;
use crate::traces::{RUNS, add_wrong_lists, add_wrong_runs};
use crate::wrong::add_answer;
use std::alloc::{AllocError, Global};

/// Adds what is read of texts otherwise than the tables say.
fn add_wrong_texts(alloc: Global, wrong: &mut String) -> Result<(), AllocError> {
    add_wrong_conditions(alloc, CONDITIONS, wrong)?;
    add_wrong_depths(alloc, DEPTHS, wrong)?;
    add_wrong_forms(alloc, FORMS, wrong)?;
    add_wrong_column(alloc, "{} P0 | P1 ; nop | ; | lw x5 ; exists", 2, wrong)?;
    add_wrong_labels(alloc, LABELS, wrong)?;
    add_wrong_rewritten(alloc, REWRITTEN, wrong)
}

/// Adds what is known of tests and their runs otherwise than the tables say.
fn add_wrong_tests(alloc: Global, wrong: &mut String) -> Result<(), AllocError> {
    add_wrong_slots(alloc, SLOTS, wrong)?;
    add_wrong_done(alloc, DONE, wrong)?;
    add_wrong_rules(alloc, RULES, wrong)?;
    add_wrong_runs(alloc, RUNS, wrong)?;
    add_wrong_lists(alloc, wrong)
}

/// Adds what hunts, judges and the checker of executions answer otherwise than is wanted.
fn add_wrong_answers(alloc: Global, wrong: &mut String) -> Result<(), AllocError> {
    add_answer(alloc, "executions", wrong_counts(alloc), "", wrong)?;
    add_answer(alloc, "hunts", all_hunted(alloc), FOUND, wrong)?;
    add_answer(alloc, "limits", bounds_of(alloc, LONG), BOUNDS, wrong)?;
    add_answer(
        alloc,
        "hunts in turn",
        hunted_in_turn(alloc, LOCK3, LOCK3_FENCES),
        KEPT,
        wrong,
    )?;
    add_answer(alloc, "kept trees", said_in_turn(alloc), SAID, wrong)?;
    add_answer(alloc, "looks", hunted_by_few_looks(alloc), "refuted", wrong)?;
    add_answer(alloc, "subtrees", all_looked(alloc, LOCK3), LOOKED, wrong)?;
    add_answer(alloc, "judges", judged_in_turn(alloc), JUDGED, wrong)
}

/// What is found otherwise than it is wanted.
fn all_wrong(alloc: Global) -> Result<String, AllocError> {
    let mut wrong = String::new(alloc);
    add_wrong_texts(alloc, &mut wrong)?;
    add_wrong_tests(alloc, &mut wrong)?;
    add_wrong_answers(alloc, &mut wrong)?;
    Ok(wrong)
}

#[test]
fn all_is_as_the_tables_say(rt: HostRuntime) -> Result<(), AllocError> {
    verdicts_rest_on_candidates();
    let wrong = all_wrong(rt.alloc())?;
    assert_eq!(rt; wrong.as_str(), "");
    Ok(())
}
