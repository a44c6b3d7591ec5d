//! Test files held against logs, worked by hand.

use crate::wrong::add_wrong;
use fs_app_io::Status;
use fs_app_states::{compare, left_over, read_log};
use fs_judge::USUAL_INFERENCES;
use std::alloc::{AllocError, Global};

/// Store buffering: of its four states none is forbidden, and with w,r at both slots only the one without a 1.
const SB: &str =
    "RISCV SB\n{ 0:x5=1; 0:x6=x; 0:x8=y; 1:x5=1; 1:x6=y; 1:x8=x; }\nP0 | P1 ;\nsw x5,0(x6) | sw x5,0(x6) ;\nlw x7,0(x8) | lw x7,0(x8) ;\nexists (0:x7=0 /\\ 1:x7=0)\n";

const W_R: &str = "P0:1=w,r P1:1=w,r";

/// The words.
fn words(alloc: Global, text: &str) -> Result<Vec<String>, AllocError> {
    let mut words = Vec::new(alloc);
    for word in text.split_whitespace() {
        words.push(String::from_str(alloc, word)?)?;
    }
    Ok(words)
}

/// What is said of store buffering with these fences, and the status; or the line of the error.
fn said(alloc: Global, log: &str, fences: &str) -> Result<String, AllocError> {
    let fences = words(alloc, fences)?;
    let log = match read_log(alloc, log.as_bytes()) {
        Ok(log) => log,
        Err(error) => return format!(in alloc; "{error}"),
    };
    match compare(alloc, &log, SB.as_bytes(), &fences, USUAL_INFERENCES) {
        Ok(made) => match made.status {
            Status::Denied => format!(in alloc; "{}1", made.text),
            Status::Failure => format!(in alloc; "{}2", made.text),
            _ => format!(in alloc; "{}0", made.text),
        },
        Err(error) => format!(in alloc; "{error}"),
    }
}

// Logs, fences, and what is said of store buffering.
pub(crate) const COMPARED: &[(&str, &str, &str)] = &[
    (
        "Test SB Allowed\nStates 4\n0:x7=0; 1:x7=0;\n0:x7=0; 1:x7=1;\n0:x7=1; 1:x7=0;\n0:x7=1; 1:x7=1;\nOk\n",
        "",
        "SB: 4 seen, 4 allowed\n0",
    ),
    // any order of items, ABI names, hexadecimal numbers
    (
        "Test SB Allowed\nHistogram (3 states)\n42 *>0:x7=0; 1:t2=0;\n9 :>1:x7=0x1; 0:x7=0;\n1 :>0:t2=1; 1:x7=0;\nOk\n",
        "",
        "SB: 3 seen, 4 allowed\n  not seen   0:x7=1; 1:t2=1;\n0",
    ),
    // 42 and 7 times in two runs, which the fences forbid
    (
        "Test SB Allowed\nHistogram (2 states)\n42 *>0:x7=0; 1:x7=0;\n9 :>0:x7=1; 1:x7=0;\nOk\nTest SB Allowed\nHistogram (1 states)\n7 *>0:x7=0; 1:x7=0;\nNo\n",
        W_R,
        "SB: 2 seen, 3 allowed\n  forbidden, 49 seen  0:x7=0; 1:x7=0;\n  not seen   0:x7=0; 1:x7=1;\n  not seen   0:x7=1; 1:x7=1;\n1",
    ),
    (
        "Test SB Allowed\nStates 1\n[x]=-1; y=x;\nOk\n",
        "",
        "SB: 1 seen, 1 allowed\n  forbidden  [x]=4294967295; y=x;\n  not seen   [x]=1; y=1;\n1",
    ),
    // a count of 0 is no missing one
    (
        "Test SB Allowed\nHistogram (1 states)\n0 :>x=0; y=1;\nNo\n",
        "",
        "SB: 1 seen, 1 allowed\n  forbidden, 0 seen  x=0; y=1;\n  not seen   x=1; y=1;\n1",
    ),
    // counted in one run, and not in the other one
    (
        "Test SB Allowed\nStates 1\nx=0; y=1;\nNo\nTest SB Allowed\nHistogram (1 states)\n3 :>x=0; y=1;\nNo\n",
        "",
        "SB: 1 seen, 1 allowed\n  forbidden, 3 seen  x=0; y=1;\n  not seen   x=1; y=1;\n1",
    ),
    (
        "Test MP Allowed\nStates 1\n1:x5=0;\nOk\n",
        "",
        "SB: not in the log\n2",
    ),
    (
        "Test SB Allowed\nStates 1\n2:x7=0;\nOk\n",
        "",
        "error: log line 3: expected a register or location of the test",
    ),
    (
        "Test SB Allowed\nStates 1\nx=4294967296;\nOk\n",
        "",
        "error: log line 3: expected a number of 32 bits or the name of a location",
    ),
    (
        "Test SB Allowed\nStates 2\nx=1; y=1;\nx=1;\nOk\n",
        "",
        "error: log line 4: expected the places of the first state, each once",
    ),
    (
        "Test SB Allowed\nStates 1\n0:x7=1; 0:t2=1;\nOk\n",
        "",
        "error: log line 3: expected the places of the first state, each once",
    ),
];

/// Adds the logs of which something else is said than the table says.
pub(crate) fn add_wrong_compared(
    alloc: Global,
    rows: &[(&str, &str, &str)],
    wrong: &mut String,
) -> Result<(), AllocError> {
    for (log, fences, wanted) in rows {
        let found = said(alloc, log, fences)?;
        add_wrong(log, &found, wanted, wrong)?;
    }
    Ok(())
}

/// The tests of the log that are none of these.
fn left(alloc: Global, log: &str, names: &str) -> Result<String, AllocError> {
    let names = words(alloc, names)?;
    match read_log(alloc, log.as_bytes()) {
        Ok(log) => left_over(alloc, &log, &names),
        Err(error) => format!(in alloc; "{error}"),
    }
}

/// Logs, names of tests, and what is said of the other tests.
pub(crate) const OTHERS: &[(&str, &str, &str)] = &[(
    "Test LB Allowed\nStates 0\nNo\nTest SB Allowed\nStates 0\nNo\nTest LB Allowed\nStates 0\nNo\nTest MP Allowed\nStates 0\nNo\n",
    "SB S",
    "LB: in the log, and not given\nMP: in the log, and not given\n",
)];

/// Adds the logs of whose other tests something else is said than the table says.
pub(crate) fn add_wrong_others(
    alloc: Global,
    rows: &[(&str, &str, &str)],
    wrong: &mut String,
) -> Result<(), AllocError> {
    for (log, names, wanted) in rows {
        let found = left(alloc, log, names)?;
        add_wrong(log, &found, wanted, wrong)?;
    }
    Ok(())
}
