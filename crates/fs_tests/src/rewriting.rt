//! Texts in which FENCEs are others, or blanks.
ghost use Rattle.fs_model.specs.Test.{IsBounded};

use crate::wrong::add_wrong;
use fs_app_file_text::rewrite;
use fs_kinds::{Fault, Placement, Slot, read_fence};
use fs_litmus::{Test, read_test};
use std::alloc::{AllocError, Global};

/// So many places of each hart may have fences.
const SLOTS: [Slot; 8] = [
    Slot { hart: 0, at: 0 },
    Slot { hart: 0, at: 1 },
    Slot { hart: 0, at: 2 },
    Slot { hart: 0, at: 3 },
    Slot { hart: 1, at: 0 },
    Slot { hart: 1, at: 1 },
    Slot { hart: 1, at: 2 },
    Slot { hart: 1, at: 3 },
];

/// The placement of the words, which spaces part.
fn placement_of(alloc: Global, words: &str) -> Result<Placement, Fault> {
    let mut placement = Placement::bottom(alloc, &SLOTS)?;
    for word in words.split_whitespace() {
        let Some((slot, kind)) = read_fence(word) else {
            return Err(Fault::BadFence);
        };
        placement.with(slot, Some(kind))?;
    }
    Ok(placement)
}

/// The text of a test of two harts, of which these are the rows.
fn text_of(alloc: Global, rows: &str) -> Result<String, AllocError> {
    format!(in alloc;
        "(* fence w,w | *)\nRISCV T\n\"fence w,w ; fence w,w\"\n{{ 0:x6=fence; (* }} *) }}\n P0 | P1 ;\n{rows}\nexists (0:x5=0)\n"
    )
}

/// The text with these fences, or `nothing`.
fn changed(alloc: Global, text: &str, own: &Test, placement: &Placement) -> Result<String, Fault>
    requires { IsBounded own.now }
{
    match rewrite(alloc, text.as_bytes(), own, placement)? {
        Some(made) => Ok(made.text),
        None => Ok(String::from_str(alloc, "nothing")?),
    }
}

/// The text of these rows with the fences that the words name, or `nothing`.
fn rewritten(alloc: Global, rows: &str, words: &str) -> Result<String, Fault> {
    let text = text_of(alloc, rows)?;
    let own = read_test(alloc, text.as_bytes())?;
    let placement = placement_of(alloc, words)?;
    changed(alloc, &text, &own, &placement)
}

/// What is wanted: the text with these rows, but what isn't rows as it is.
fn wanted(alloc: Global, rows: &str) -> Result<String, AllocError> {
    if !rows.ends_with(';') {
        String::from_str(alloc, rows)
    } else {
        text_of(alloc, rows)
    }
}

/// The same, or the line of the fault.
fn shown(alloc: Global, rows: &str, words: &str) -> Result<String, AllocError> {
    match rewritten(alloc, rows, words) {
        Ok(text) => Ok(text),
        Err(Fault::Memory) => Err(AllocError),
        Err(fault) => fault.to_string(alloc),
    }
}

/// The rows, the fences that they are to have, and what becomes of the rows.
pub(crate) const REWRITTEN: &[(&str, &str, &str)] = &[
    // Another kind, the same one as it is spelled, and one that goes.
    (
        " sw x5,0(x6)   | lw x5,0(x6)   ;\n fence rw,rw   | fence  rw , rw;\n sw x5,0(x7)   | fence r,rw    ;\n               | lw x7,0(x8)   ;",
        "P0:1=w,w P1:1=rw,rw",
        " sw x5,0(x6)   | lw x5,0(x6)   ;\n fence w,w     | fence  rw , rw;\n sw x5,0(x7)   |               ;\n               | lw x7,0(x8)   ;",
    ),
    // A tab behind the mnemonic, labels, comments, and rows in one line.
    (
        "lw x5,0(x6) | ; L: fence\t rw,rw (* fence w,w | ; *) | (* (* fence *) fence r,r *) fence rw,rw ; bne x5,x0,1f | 1: fence : fence.tso ;\n1: lw x7,0(x8)|;",
        "P0:1=r,r P1:1=r,w",
        "lw x5,0(x6) | ; L: fence r,r    (* fence w,w | ; *) | (* (* fence *) fence r,r *)             ; bne x5,x0,1f | 1: fence : fence r,w ;\n1: lw x7,0(x8)|;",
    ),
    // One that goes leaves its label, and branches go where they went.
    (
        "bne x5,x0,L | nop ;\nL: fence rw,rw |;\nnop|;",
        "",
        "bne x5,x0,L | nop ;\nL:             |;\nnop|;",
    ),
    // FENCEs that name devices stay, and `fence.i`.
    (
        "fence iorw,w | fence ;\nfence.i | fence o,o ;\nfence rw,w | fence r,rw ;",
        "P0:0=w,w P0:2=w,w",
        "fence iorw,w | fence ;\nfence.i | fence o,o ;\nfence w,w  |            ;",
    ),
    // A kind that is longer takes a blank behind it, and can't be where none is.
    (
        "fence.tso | fence.tso\t;",
        "P0:0=rw,w P1:0=r,rw",
        "fence rw,w| fence r,rw;",
    ),
    ("fence.tso|nop ;", "P0:0=rw,w", "nothing"),
    ("fence.tso(* *)|nop ;", "P0:0=rw,w", "nothing"),
    // A comment or the end of a line inside.
    ("fence rw (* *),rw|nop ;", "P0:0=r,r", "nothing"),
    ("fence\nrw,rw|nop ;", "P0:0=r,r", "nothing"),
    (
        "fence rw (* *),rw|fence w,rw ;",
        "P0:0=rw,rw",
        "fence rw (* *),rw|           ;",
    ),
    // All stay.
    (
        "fence rw,rw (*)|;*)|nop ;",
        "P0:0=rw,rw",
        "fence rw,rw (*)|;*)|nop ;",
    ),
    // A test of another form.
    ("fence rw,rw ;", "P0:0=rw,rw", "fault F3 Syntax line 6"),
];

/// Adds the rows that become something else than the table says.
pub(crate) fn add_wrong_rewritten(
    alloc: Global,
    table: &[(&str, &str, &str)],
    wrong: &mut String,
) -> Result<(), AllocError> {
    for (rows, words, wanted_rows) in table {
        let found = shown(alloc, rows, words)?;
        let wanted = wanted(alloc, wanted_rows)?;
        add_wrong(rows, &found, &wanted, wrong)?;
    }
    Ok(())
}
