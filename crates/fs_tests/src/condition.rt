//! Conditions, and which trees and atoms they have.

use crate::wrong::add_wrong;
use fs_litmus_syntax::{Atom, Condition, Tree, read_condition};
use fs_litmus_tokens::{Stop, Target, Value, tokens};
use std::alloc::{AllocError, Global};

/// The hart of a target with its colon, which a location lacks, and the name.
pub(crate) fn target_parts<'a>(target: Target<'a>) -> (&'a str, &'a str, &'a str) {
    match target {
        Target::Register { hart, register } => (hart, ":", register),
        Target::Location(name) => ("", "", name),
    }
}

/// The sign of a value, which is `&` for an address, and its digits or name.
pub(crate) fn value_parts<'a>(value: Value<'a>) -> (&'a str, &'a str) {
    match value {
        Value::Number { negative, digits } => (if negative { "-" } else { "" }, digits),
        Value::Address(name) => ("&", name),
    }
}

/// Writes an atom, with a space behind it.
fn push_atom(out: &mut String, atom: &Atom) -> Result<(), AllocError> {
    let (hart, colon, name) = target_parts(atom.target);
    let (sign, word) = value_parts(atom.value);
    write!(out, "{hart}{colon}{name}={sign}{word} ")
}

/// Writes the tree, each connective before what it joins: `&`, `|` and `~`. True and false are T and F.
fn push_tree(out: &mut String, tree: &Tree) -> Result<(), AllocError> {
    match tree {
        Tree::Atom(atom) => push_atom(out, atom),
        Tree::True => out.push_str("T "),
        Tree::False => out.push_str("F "),
        Tree::Deny(inner) => {
            out.push_str("~ ")?;
            push_tree(out, inner)
        }
        Tree::Both(left, right) | Tree::Either(left, right) => {
            let is_both = matches!(tree, Tree::Both(..));
            out.push_str(if is_both { "& " } else { "| " })?;
            push_tree(out, left)?;
            push_tree(out, right)
        }
    }
}

/// Writes the targets of the atoms.
fn push_targets(out: &mut String, atoms: &[Atom]) -> Result<(), AllocError> {
    out.push_str(";")?;
    for atom in atoms {
        let (hart, colon, name) = target_parts(atom.target);
        write!(out, " {hart}{colon}{name}")?;
    }
    Ok(())
}

/// The tree, or that it is too deep, and then the targets of the atoms; or how many tokens are left where it stops.
fn shown(alloc: Global, text: &str) -> Result<String, AllocError> {
    let (tokens, _) = tokens(alloc, text.as_bytes(), 0)?;
    match read_condition(alloc, &tokens) {
        Ok(Condition { atoms, tree }) => {
            let mut out = String::new(alloc);
            match &tree {
                Some(tree) => push_tree(&mut out, tree)?,
                None => out.push_str("deep ")?,
            }
            push_targets(&mut out, &atoms)?;
            Ok(out)
        }
        Err(Stop::At(rest)) => format!(in alloc; "{} left", rest.len()),
        Err(Stop::Memory) => Err(AllocError),
    }
}

/// The condition `x=1` with so many of these before and after it.
fn shown_around(alloc: Global, before: &str, after: &str, n: usize) -> Result<String, AllocError> {
    let mut text = String::new(alloc);
    for _ in 0..n {
        text.push_str(before)?;
    }
    text.push_str("x=1")?;
    for _ in 0..n {
        text.push_str(after)?;
    }
    shown(alloc, &text)
}

// How connectives bind and associate, which atoms there are, and that no word is reserved; and where a condition stops
// at its first bad token.
pub(crate) const CONDITIONS: &[(&str, &str)] = &[
    (
        "x=1 /\\ y=2 \\/ z=3 /\\ w=4",
        "| & x=1 y=2 & z=3 w=4 ; x y z w",
    ),
    ("x=1 \\/ y=2 \\/ z=3", "| | x=1 y=2 z=3 ; x y z"),
    ("x=1 /\\ y=2 /\\ z=3", "& & x=1 y=2 z=3 ; x y z"),
    ("x=1 /\\ (y=2 \\/ z=3)", "& x=1 | y=2 z=3 ; x y z"),
    ("~x=1 /\\ not ~y=2", "& ~ x=1 ~ ~ y=2 ; x y"),
    ("not (x=1 /\\ y=2) \\/ z=3", "| ~ & x=1 y=2 z=3 ; x y z"),
    ("((x=1))", "x=1 ; x"),
    ("1:x5=1", "1:x5=1 ; 1:x5"),
    ("0x1:t.0=-7", "0x1:t.0=-7 ; 0x1:t.0"),
    ("[x]=y", "x=&y ; x"),
    ("x=0x10", "x=0x10 ; x"),
    (
        "exists=1 /\\ int=forall",
        "& exists=1 int=&forall ; exists int",
    ),
    ("true=1", "true=1 ; true"),
    ("not=1", "not=1 ; not"),
    ("false=true", "false=&true ; false"),
    ("not not=1", "~ not=1 ; not"),
    ("not not not=1", "~ ~ not=1 ; not"),
    ("not true", "~ T ;"),
    ("not false=1", "~ false=1 ; false"),
    ("true /\\ x=1", "& T x=1 ; x"),
    ("~true=1", "~ true=1 ; true"),
    ("(false) \\/ true", "| F T ;"),
    ("x==1", "x=1 ; x"),
    ("[x] == -1", "x=-1 ; x"),
    ("x<>1", "~ x=1 ; x"),
    ("1:x5!=y", "~ 1:x5=&y ; 1:x5"),
    ("~ x!=-1 /\\ y=2", "& ~ ~ x=-1 y=2 ; x y"),
    ("not<>1", "~ not=1 ; not"),
    ("not not!=1 \\/ true==1", "| ~ ~ not=1 true=1 ; not true"),
    ("false<>true", "~ false=&true ; false"),
    ("x=1 => y=2", "| ~ x=1 y=2 ; x y"),
    ("x=1 => y=2 => z=3", "| | ~ x=1 ~ y=2 z=3 ; x y z"),
    (
        "x=1 \\/ y=2 => z=3 \\/ w=4",
        "| ~ | x=1 y=2 | z=3 w=4 ; x y z w",
    ),
    ("(x=1 => y=2) => z=3", "| ~ | ~ x=1 y=2 z=3 ; x y z"),
    ("~x=1=>y=2 /\\ z=3", "| ~ ~ x=1 & y=2 z=3 ; x y z"),
    ("true=1 => false=>x=1", "| | ~ true=1 ~ F x=1 ; true x"),
    ("not=1 => true=>x<>1", "| | ~ not=1 ~ T ~ x=1 ; not x"),
    ("x=1 /\\ y=2 ;", "& x=1 y=2 ; x y"),
    ("~(x=1);", "~ x=1 ; x"),
    ("true;", "T ;"),
    ("false=1;", "false=1 ; false"),
    ("", "0 left"),
    ("x", "0 left"),
    ("(x=1", "0 left"),
    ("not", "0 left"),
    ("5=1", "2 left"),
    ("x=1 y", "1 left"),
    ("x=1)", "1 left"),
    ("()", "1 left"),
    ("true true", "1 left"),
    ("[5]=1", "4 left"),
    ("x=-y /\\ z=1", "5 left"),
    ("x===1", "2 left"),
    ("x=!1", "2 left"),
    ("x<1", "1 left"),
    ("x!1", "1 left"),
    ("x<=1", "2 left"),
    ("x><1", "3 left"),
    ("x!==1", "2 left"),
    ("true!1", "1 left"),
    ("x=1 /\\ \\/ y=1", "4 left"),
    ("x=1 =", "0 left"),
    ("x=1 =>", "0 left"),
    ("x=1 = y", "1 left"),
    ("x=1 ==> y=1", "5 left"),
    ("x=1 -> y=1", "5 left"),
    ("x=>y=1", "4 left"),
    ("not=>1", "2 left"),
    ("true=>=1", "2 left"),
    ("(true=", "0 left"),
    ("x=1 => ;", "1 left"),
    ("x=1 ; y=1", "3 left"),
    ("x=1 ;;", "1 left"),
    ("(x=1;)", "2 left"),
    ("x=;", "1 left"),
    ("not;", "1 left"),
    (";", "1 left"),
    ("x=$1", "2 left"),
];

// What stands before and after `x=1`, how often, and whether there is a tree: of conditions of depth 64 there is one, and
// of deeper ones none.
pub(crate) const DEPTHS: &[(&str, &str, usize, bool)] = &[
    ("(", ")", 64, true),
    ("(", ")", 65, false),
    ("~", "", 64, true),
    ("not ", "", 65, false),
    ("~(", ")", 32, true),
    ("~ y!=1 /\\ ~(", ")", 31, true),
    ("~ y!=1 /\\ ~(", ")", 32, false),
    ("~(", ")", 33, false),
    ("y=1 => ", "", 63, true),
    ("y=1 => ", "", 64, false),
    ("(", " => y=1)", 32, true),
    ("(", " => y=1)", 33, false),
    ("", " /\\ y=1", 64, true),
    ("", " /\\ y=1", 65, false),
    ("", " \\/ y=1", 64, true),
    ("", " \\/ y=1", 65, false),
    ("y=1 /\\ (", ")", 64, true),
    ("y=1 \\/ (", ")", 65, false),
];

/// Adds the conditions that aren't read as the table says.
pub(crate) fn add_wrong_conditions(
    alloc: Global,
    rows: &[(&str, &str)],
    wrong: &mut String,
) -> Result<(), AllocError> {
    for (text, wanted) in rows {
        let found = shown(alloc, text)?;
        add_wrong(text, &found, wanted, wrong)?;
    }
    Ok(())
}

/// Adds the conditions that have a tree, or none, against the table.
pub(crate) fn add_wrong_depths(
    alloc: Global,
    rows: &[(&str, &str, usize, bool)],
    wrong: &mut String,
) -> Result<(), AllocError> {
    for (before, after, n, fine) in rows {
        let found = shown_around(alloc, before, after, *n)?;
        if found.starts_with("deep ") == *fine {
            wrong.push_str(before)?;
            wrong.push_str("\n")?;
        }
    }
    Ok(())
}
