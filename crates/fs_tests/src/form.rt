//! Texts whose meaning, or whose first bad line, is told by the format.

use crate::condition::{target_parts, value_parts};
use crate::wrong::add_wrong;
use fs_litmus_syntax::{Form, Quantifier, read_form};
use fs_litmus_tokens::{Stop, tokens};
use std::alloc::{AllocError, Global};

const MP: &str =
    "{\n0:x6=x; 0:x8=y;\n1:x6=y; 1:x8=x;\n}\n P0 | P1 ;\n ori x5,x0,1 | lw x5,0(x6) ;\n sw x5,0(x6) | ;\nexists (1:x5=1)\n";

/// Writes the entries with their lines, and then the quantifier.
fn push_entries(out: &mut String, form: &Form) -> Result<(), AllocError> {
    for entry in &form.entries {
        let (hart, colon, name) = target_parts(entry.target);
        let (sign, word) = value_parts(entry.value);
        write!(out, "{} {hart}{colon}{name}={sign}{word}; ", entry.line)?;
    }
    out.push_str(match form.quantifier {
        Quantifier::Exists => "exists",
        Quantifier::NotExists => "~exists",
        Quantifier::Forall => "forall",
    })
}

/// What becomes of a text whose first line is 1: its entries, how many columns and cells there are and how many tokens
/// come after them; or the line of the first bad token.
fn shown(alloc: Global, text: &str) -> Result<String, AllocError> {
    let (all, _) = tokens(alloc, text.as_bytes(), 1)?;
    let mut out = String::new(alloc);
    match read_form(alloc, all.as_slice()) {
        Ok((form, rest)) => {
            push_entries(&mut out, &form)?;
            let (columns, cells) = (form.columns, form.cells.len());
            write!(
                out,
                ", {columns} columns, {cells} cells, {} left",
                rest.len()
            )?;
        }
        Err(Stop::Memory) => return Err(AllocError),
        Err(Stop::At([])) => out.push_str("too soon")?,
        Err(Stop::At([first, ..])) => write!(out, "line {}", first.line)?,
    }
    Ok(out)
}

// A word in an entry may be a type or a name.
pub(crate) const FORMS: &[(&str, &str)] = &[
    (
        MP,
        "2 0:x6=&x; 2 0:x8=&y; 3 1:x6=&y; 3 1:x8=&x; exists, 2 columns, 4 cells, 7 left",
    ),
    ("{} P0 ; exists", "exists, 1 columns, 0 cells, 0 left"),
    (
        "{ int = 1; int int = 2; [int]=3; int32_t x = -0 } P0 ; ~ exists a",
        "1 int=1; 1 int=2; 1 int=3; 1 x=-0; ~exists, 1 columns, 0 cells, 1 left",
    ),
    (
        "{ int\n= 1; int\nx = -7; int\n0:x5 = y }\nP0 ; ~ exists",
        "1 int=1; 3 x=-7; 4 0:x5=&y; ~exists, 1 columns, 0 cells, 0 left",
    ),
    (
        "{ 0:.=0x1; uint32_t 00:3 = x; } P0 | P1 | P2 ; || ; ; forall",
        "line 1",
    ),
    (
        "{} P0 ; ; \n; nop ; forall",
        "forall, 1 columns, 3 cells, 0 left",
    ),
    (
        "{} P0 ; locations [ x; 0:x5; exists | ] exists ",
        "exists, 1 columns, 0 cells, 0 left",
    ),
    (
        "{} P0|P1|P2|P3|P4|P5|P6|P7|P8|P9|P10; exists",
        "exists, 11 columns, 0 cells, 0 left",
    ),
    (
        "{ (*\n(* *) (*(*)\n*) *)\n*) x=1; (*) *) } P0 ; exists",
        "4 x=1; exists, 1 columns, 0 cells, 0 left",
    ),
    ("{ (* (* *) x=1; } P0 ; exists", "too soon"),
    ("{ (*(*)*) x=1; } P0 ; exists", "too soon"),
    ("{ (* *) *) x=1; } P0 ; exists", "line 1"),
    ("{}\nP1 ; exists", "line 2"),
    ("{} P0 |\nP2 ; exists", "line 2"),
    ("{} P0 |\nP01 ; exists", "line 2"),
    ("{}\n; exists", "line 2"),
    ("{\n; }", "line 2"),
    ("{ x=1; \n; }", "line 2"),
    ("{ x=\n- x", "line 2"),
    ("{ x.y=1", "line 1"),
    ("{ [1]=1", "line 1"),
    (
        "{ x; int y; uint64_t *p = &x; 0:x5; uint64_t 1:x6 = p; unsigned int [z]\n} P0 | P1 ; exists",
        "1 x=0; 1 y=0; 1 p=&x; 1 0:x5=0; 1 1:x6=&p; 1 z=0; exists, 2 columns, 0 cells, 0 left",
    ),
    (
        "{ int\n*\np }\nP0 ; forall",
        "3 p=0; forall, 1 columns, 0 cells, 0 left",
    ),
    ("{ int int int = 1", "too soon"),
    ("{ int *", "too soon"),
    ("{ int *\n}", "line 2"),
    ("{ int *\n*p", "line 2"),
    ("{ int\n-1", "line 2"),
    ("{ int 0:x5\nx", "line 2"),
    ("{ [x]\n*", "line 2"),
    ("{\n*x=1", "line 2"),
    ("{\n&x", "line 2"),
    ("{ x=&\n1", "line 2"),
    ("{ x=-\n&y", "line 2"),
    ("{ x=y\n*", "line 2"),
    ("{ x=1", "too soon"),
    ("{} P0 | P1 ; nop\n; exists", "line 2"),
    ("{} P0 | P1 ; | \n| ; exists", "line 2"),
    ("{} P0 | P1 ; \n@ | ; exists", "line 2"),
    ("{} P0 ; locations [ \n@ ] exists", "line 2"),
    ("{} P0 ; locations [ ] \nlocations [ ] exists", "line 2"),
    ("{} P0 ; ~ \nforall", "line 2"),
    ("{} P0 ; nop", "too soon"),
    ("", "too soon"),
];

/// Adds the texts that don't have the form of the table.
pub(crate) fn add_wrong_forms(
    alloc: Global,
    rows: &[(&str, &str)],
    wrong: &mut String,
) -> Result<(), AllocError> {
    for (text, wanted) in rows {
        let found = shown(alloc, text)?;
        add_wrong(text, &found, wanted, wrong)?;
    }
    Ok(())
}

/// How many cells the second of two columns has.
fn second_column(alloc: Global, text: &str) -> Result<usize, AllocError> {
    let (all, _) = tokens(alloc, text.as_bytes(), 1)?;
    if let Ok((form, _)) = read_form(alloc, all.as_slice()) {
        if form.columns == 2 {
            return Ok(form.column(alloc, 1)?.len());
        }
    }
    Ok(0)
}

/// Adds the text, unless the second of its columns has so many cells: one for each row.
pub(crate) fn add_wrong_column(
    alloc: Global,
    text: &str,
    wanted: usize,
    wrong: &mut String,
) -> Result<(), AllocError> {
    if second_column(alloc, text)? == wanted {
        return Ok(());
    }
    wrong.push_str("other cells in ")?;
    wrong.push_str(text)
}
