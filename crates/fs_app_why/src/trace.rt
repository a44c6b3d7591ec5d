//! An execution in print.

ghost use Rattle.std.specs.Prelude.{◌≡◌, ◌≤◌, ◌++◌, length, IfOk, string_bytes};
ghost use Rattle.fs_kinds.specs.Limits.{most_locations};
ghost use Rattle.fs_model_axioms.specs.Final.{AreFinal};
ghost use Rattle.fs_check.specs.Ordered.{IsOrdered, execution_in, runs_in};
ghost use Rattle.fs_app_why.specs.Tables.{table_text};
ghost use Rattle.fs_app_why.specs.Traces.{rows, trace_text};
ghost use Rattle.fs_app_why.specs.Executions.{told_of};

use crate::ends::ends_text;
use crate::rows::rows;
use crate::table::table_text;
use crate::told_execution::told_by;
use fs_check::OrderedCandidate;
use fs_kinds::List;
use fs_model::Test;
use std::alloc::{AllocError, Global};

/// The rows of the operations.
fn rows_text(
    alloc: Global,
    test: &Test,
    lines: &[List<usize>],
    ordered: &OrderedCandidate,
) -> Result<String, AllocError>
    requires locations { length test.now.locations ≤ most_locations }
    requires ordered { IsOrdered test.now ordered.now }
    ensures { IfOk result (λ text. string_bytes text ≡ table_text (rows test.now lines.now
        (told_of (runs_in test.now ordered.now) ordered.now.order.listed))) }
{
    let told = told_by(alloc, test, ordered)?;
    let rows = rows(alloc, test, lines, &told)?;
    table_text(alloc, &rows)
}

/// The operations of an execution in the order in which they come to memory, each with its line, its instruction and
/// what it does; below those that overtake others of their hart, or are overtaken, which these are; and how it ends.
/// The cost is at most quartic in the operations.
pub(crate) fn trace_text(
    alloc: Global,
    test: &Test,
    lines: &[List<usize>],
    ordered: &OrderedCandidate,
) -> Result<String, AllocError>
    requires locations { length test.now.locations ≤ most_locations }
    requires ordered { IsOrdered test.now ordered.now }
    requires last { AreFinal test.now ordered.now.candidate.traces }
    ensures { IfOk result (λ text. string_bytes text ≡ trace_text test.now lines.now (execution_in ordered.now)) }
{
    let mut text = rows_text(alloc, test, lines, ordered)?;
    let ends = ends_text(alloc, test, ordered)?;
    text.push_str(ends.as_str())?;
    Ok(text)
}
