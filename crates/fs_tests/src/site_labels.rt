//! Where the site labels of small tests stand.

use crate::wrong::add_wrong;
use fs_kinds::Fault;
use fs_litmus::read_site_labels;
use std::alloc::{AllocError, Global};

/// The site labels, or the fault's line, of a test of two harts with these rows, of which the first stands in line 4.
fn shown(alloc: Global, rows: &str) -> Result<String, AllocError> {
    let text = format!(in alloc; "RISCV T\n{{ }}\nP0 | P1 ;\n{rows}\nexists (0:x5=0)\n")?;
    let labels = match read_site_labels(alloc, text.as_bytes()) {
        Ok(labels) => labels,
        Err(Fault::Memory) => return Err(AllocError),
        Err(fault) => return fault.to_string(alloc),
    };
    let mut out = String::new(alloc);
    for label in &labels {
        let (hart, at, name, line) = (label.hart, label.at, label.name, label.line);
        write!(out, "P{hart}:{at} {name} {line}; ")?;
    }
    Ok(out)
}

/// Rows of tests, and their site labels.
pub(crate) const LABELS: &[(&str, &str)] = &[
    // A hart each, and the same label in both.
    (
        "lock_0: lw x5,0(x6) | unlock: sw x5,0(x6) ;",
        "P0:0 lock 4; P1:0 unlock 4; ",
    ),
    ("lock_0: nop | lock_0: nop ;", "P0:0 lock 4; P1:0 lock 4; "),
    // Copies of a site in one hart, behind other instructions, and at the end of the code.
    (
        "lock_0: nop | ;\nlock_1: nop | ;",
        "P0:0 lock 4; P0:1 lock 5; ",
    ),
    (
        "fence rw,rw | ;\nnop | ;\nlock: nop | nop ;\n| b: nop ;",
        "P0:2 lock 6; P1:1 b 7; ",
    ),
    ("lw x5,0(x6) | ;\ndone_1: | ;", "P0:1 done 5; "),
    // The labels of branches, before and behind which a site's may stand.
    (
        "bne x5,x0,OUT0 | ;\nlock17: nop | ;\nOUT0: nop | ;",
        "P0:1 lock 5; ",
    ),
    ("bne x5,x0,OUT | ;\nlock: OUT: nop | ;", "P0:1 lock 5; "),
    (
        "bne x5,x0,OUT | ;\nOUT: | ;\nlock: nop | ;",
        "P0:1 lock 6; ",
    ),
    ("OUT: nop | j OUT ;\n| OUT: nop ;", "P0:0 OUT 4; "),
    // Labels that are numbers.
    (
        "bne x5,x0,1f | ;\n1: wmb2: sw x5,0(x6) | ;\n2: | ;",
        "P0:1 wmb 5; ",
    ),
    // Names with digits and _ in them, and with nothing else.
    ("_1: nop | a_b_3_: nop ;", "P0:0 _1 4; P1:0 a_b 4; "),
    ("x86_64: nop | _: nop ;", "P0:0 x 4; P1:0 _ 4; "),
    // Two at one place.
    ("a: b: nop | ;", "fault F6 BadLabel line 4"),
    ("a: | ;\n1: b_0: nop | ;", "fault F6 BadLabel line 5"),
    ("nop | ;\na_0: | ;\na_1: | ;", "fault F6 BadLabel line 6"),
    // None, and a text of another form.
    ("nop | 3: nop ;", ""),
    ("nop ;", "fault F3 Syntax line 4"),
];

/// Adds the rows that have other site labels than the table says.
pub(crate) fn add_wrong_labels(
    alloc: Global,
    rows: &[(&str, &str)],
    wrong: &mut String,
) -> Result<(), AllocError> {
    for (text, wanted) in rows {
        let found = shown(alloc, text)?;
        add_wrong(text, &found, wanted, wrong)?;
    }
    Ok(())
}
