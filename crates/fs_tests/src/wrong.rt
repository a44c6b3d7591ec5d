//! Rows of a table whose answer isn't the wanted one.

use fs_kinds::Fault;
use fs_tests_shared::told;
use std::alloc::{AllocError, Global};

/// Adds what was found of a row, as a line, unless it is what was wanted.
pub(crate) fn add_wrong(
    row: &str,
    found: &str,
    wanted: &str,
    wrong: &mut String,
) -> Result<(), AllocError> {
    if found == wanted {
        return Ok(());
    }
    wrong.push_str(found)?;
    wrong.push_str(" of ")?;
    wrong.push_str(row)?;
    wrong.push_str("\n")
}

/// Adds the answer, or the line of the fault, unless it is what was wanted.
pub(crate) fn add_answer(
    alloc: Global,
    what: &str,
    answer: Result<String, Fault>,
    wanted: &str,
    wrong: &mut String,
) -> Result<(), AllocError> {
    let found = told(alloc, answer)?;
    add_wrong(what, &found, wanted, wrong)
}
