//! Logs worked by hand: what is read of them, in one text.

use crate::wrong::add_wrong;
use fs_app_states::{Log, Seen, read_log};
use std::alloc::{AllocError, Global};

/// How often a state was seen, where the log says so.
fn push_times(text: &mut String, times: Option<u64>) -> Result<(), AllocError> {
    match times {
        Some(times) => write!(text, "{times}"),
        None => text.push_str("-"),
    }
}

/// A state: its line, how often it was seen, and its items.
fn push_seen(text: &mut String, seen: &Seen) -> Result<(), AllocError> {
    write!(text, " [{} ", seen.line)?;
    push_times(text, seen.times)?;
    for item in &seen.items {
        write!(text, " {}={}", item.place, item.value)?;
    }
    text.push_str("]")
}

/// The blocks: each with its name and its states.
fn log_text(alloc: Global, log: &Log) -> Result<String, AllocError> {
    let mut text = String::new(alloc);
    for block in log {
        text.push_str(block.name)?;
        for seen in &block.states {
            push_seen(&mut text, seen)?;
        }
        text.push_str("\n")?;
    }
    Ok(text)
}

/// What is read of a log, or the line of its error.
fn read(alloc: Global, log: &str) -> Result<String, AllocError> {
    match read_log(alloc, log.as_bytes()) {
        Ok(log) => log_text(alloc, &log),
        Err(error) => format!(in alloc; "{error}"),
    }
}

// Logs, and what is read of them.
pub(crate) const LOGS: &[(&str, &str)] = &[
    ("", "error: the log has no block of a test"),
    (
        "Tests SB Allowed\nTesting\n",
        "error: the log has no block of a test",
    ),
    (
        "Test SB Allowed\nStates 2\n0:x7=0; 1:x7=0;\n0:x7=0; 1:x7=1;\nOk\nWitnesses\n",
        "SB [3 - 0:x7=0 1:x7=0] [4 - 0:x7=0 1:x7=1]\n",
    ),
    (
        "Test T Forbidden\r\nStates 1\r\n[x]=0x1f; y=-1; 0:a0=x;\r\nLoop No\r\n",
        "T [3 - [x]=0x1f y=-1 0:a0=x]\n",
    ),
    (
        "%%% Results for SB.litmus %%%\n  Tests\nTest SB Required\nHistogram (2 states)\n42    *>0:x7=0;\n499   :>0:x7=1;\nOk\n\nTest MP Allowed\nHistogram (1 states)\n1:>x=2;\nNo",
        "SB [5 42 0:x7=0] [6 499 0:x7=1]\nMP [11 1 x=2]\n",
    ),
    // nothing is shown: one state without items, and none
    (
        "Test T Allowed\nStates 1\n\nOk\nTest U Allowed\nHistogram (1 states)\n9 :>\nOk\nTest V Allowed\nStates 0\nNo\n",
        "T [3 -]\nU [7 9]\nV\n",
    ),
    // more blanks between the words than one, and a count of 0
    (
        "Test   SB  Allowed\nHistogram  (1  states)\n0    :>x=1;\nLoop  Ok\n",
        "SB [3 0 x=1]\n",
    ),
    // no first line of a block
    (
        "Tests SB Allowed\nTest SB Allowed now\n",
        "error: log line 2: expected `Test NAME Allowed`, `Test NAME Required` or `Test NAME Forbidden`",
    ),
    (
        "Test SB\tAllowed\n",
        "error: log line 1: expected `Test NAME Allowed`, `Test NAME Required` or `Test NAME Forbidden`",
    ),
    (
        "\n\tTest\n",
        "error: log line 2: expected `Test NAME Allowed`, `Test NAME Required` or `Test NAME Forbidden`",
    ),
    // behind a whole block
    (
        "Test SB Allowed\nStates 0\nNo\nTest SB allowed\n",
        "error: log line 4: expected `Test NAME Allowed`, `Test NAME Required` or `Test NAME Forbidden`",
    ),
    (
        "Test SB Allowed\nStates 0\nNo\nTest SB Allowed\nStates 18446744073709551616\n",
        "error: log line 5: expected `States N` or `Histogram (N states)`",
    ),
    (
        "Test SB Allowed\nHistogram 2 states\n",
        "error: log line 2: expected `States N` or `Histogram (N states)`",
    ),
    (
        "Test SB Allowed\n",
        "error: log line 1: expected `States N` or `Histogram (N states)`",
    ),
    (
        "Test SB Allowed\nStates 2\nx=1;\nOk\n",
        "error: log line 4: expected a state",
    ),
    (
        "Test SB Allowed\nStates 2\nx=1;\n",
        "error: log line 3: expected a state",
    ),
    (
        "Test SB Allowed\nStates 1\nx=1;\n",
        "error: log line 3: expected `Ok` or `No`",
    ),
    (
        "Test SB Allowed\nStates 1\nx=1\nOk\n",
        "error: log line 3: expected a state",
    ),
    (
        "Test SB Allowed\nStates 1\nx=1;\nx=2;\nOk\n",
        "error: log line 4: expected `Ok` or `No`",
    ),
    (
        "Test SB Allowed\nHistogram (1 states)\nx=1;\nOk\n",
        "error: log line 3: expected a state",
    ),
    (
        "Test SB Allowed\nStates 1\n7 :>x=1;\nOk\n",
        "error: log line 3: expected a state",
    ),
];

/// Adds the logs of which something else is read than the table says.
pub(crate) fn add_wrong_logs(
    alloc: Global,
    rows: &[(&str, &str)],
    wrong: &mut String,
) -> Result<(), AllocError> {
    for (log, wanted) in rows {
        let found = read(alloc, log)?;
        add_wrong(log, &found, wanted, wrong)?;
    }
    Ok(())
}
