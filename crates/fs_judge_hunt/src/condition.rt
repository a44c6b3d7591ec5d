//! The condition of a test, with its parts in a list: each before its own parts, the left one first.

use crate::rows::Row;
use fs_instr::Reg;
use fs_model::Outcome;
use std::alloc::{AllocError, Global};

/// More parts than a condition has.
const MOST_PARTS: usize = 1 << 24;

/// What a part of a condition says, apart from its own parts.
#[derive(Clone, Copy)]
pub enum Part {
    Always,
    Never,
    /// The hart's register ends with the word.
    Register { hart: u8, register: Reg, word: u32 },
    /// The location ends with the word.
    Location { location: u8, word: u32 },
    Deny,
    Both,
    Either,
}

/// A part, and how many parts it has, itself among them.
#[derive(Clone, Copy)]
pub struct Node {
    pub part: Part,
    pub size: usize,
}

/// A condition as a hunt asks it, over the runs of a test.
#[derive(Drop)]
pub struct Condition {
    pub nodes: Vec<Node>,
    /// For each of the nodes that speaks of a register, the runs of its hart with which it is true; for another no row.
    pub atoms: Vec<Row>,
    /// The truth value that the condition has where the outcome is shown.
    pub truth: bool,
}

/// A part that is to have this truth value.
#[derive(Clone, Copy)]
pub(crate) struct Wanted {
    pub(crate) node: usize,
    pub(crate) truth: bool,
}

fn part_of(outcome: &Outcome) -> Part {
    match outcome {
        Outcome::Always => Part::Always,
        Outcome::Never => Part::Never,
        Outcome::RegisterIs { hart, reg, word } => Part::Register {
            hart: *hart,
            register: *reg,
            word: *word,
        },
        Outcome::LocationIs { location, word } => Part::Location {
            location: *location,
            word: *word,
        },
        Outcome::Deny(_) => Part::Deny,
        Outcome::Both(_, _) => Part::Both,
        Outcome::Either(_, _) => Part::Either,
    }
}

/// Puts the parts of the condition on the stack, the left one on top.
fn push_parts<'a>(stack: &mut Vec<&'a Outcome>, outcome: &'a Outcome) -> Result<(), AllocError> {
    match outcome {
        Outcome::Deny(denied) => {
            stack.push(&**denied)?;
        }
        Outcome::Both(left, right) | Outcome::Either(left, right) => {
            stack.push(&**right)?;
            stack.push(&**left)?;
        }
        _ => {}
    }
    Ok(())
}

fn parts(alloc: Global, condition: &Outcome) -> Result<Vec<Part>, AllocError> {
    let mut found = Vec::new(alloc);
    let mut stack = Vec::new(alloc);
    stack.push(condition)?;
    for _ in 0..MOST_PARTS {
        let Some(outcome) = stack.pop() else {
            break;
        };
        found.push(part_of(outcome))?;
        push_parts(&mut stack, outcome)?;
    }
    Ok(found)
}

/// The size of a part, where those of the parts behind it are on the stack.
fn size_of(part: Part, sizes: &mut Vec<usize>) -> usize {
    let size = match part {
        Part::Deny => sizes.pop().unwrap_or(0),
        Part::Both | Part::Either => {
            let left = sizes.pop().unwrap_or(0);
            let right = sizes.pop().unwrap_or(0);
            left.saturating_add(right)
        }
        _ => 0,
    };
    size.saturating_add(1)
}

/// Adds the part with its size.
fn push_node(nodes: &mut Vec<Node>, sizes: &mut Vec<usize>, part: &Part) -> Result<(), AllocError> {
    let size = size_of(*part, sizes);
    sizes.push(size)?;
    nodes.push(Node { part: *part, size })?;
    Ok(())
}

/// The parts with their sizes, the last one first.
fn sized(alloc: Global, parts: &[Part]) -> Result<Vec<Node>, AllocError> {
    let mut nodes = Vec::new(alloc);
    let mut sizes = Vec::new(alloc);
    for place in 0..parts.len() {
        push_node(&mut nodes, &mut sizes, &parts[parts.len() - 1 - place])?;
    }
    Ok(nodes)
}

/// The condition's parts.
pub fn nodes(alloc: Global, condition: &Outcome) -> Result<Vec<Node>, AllocError> {
    let parts = parts(alloc, condition)?;
    let mut nodes = sized(alloc, &parts)?;
    nodes.reverse();
    Ok(nodes)
}

/// The part and all of its own parts.
pub(crate) fn within(nodes: &[Node], number: usize) -> &[Node] {
    let Some(behind) = nodes.get(number..) else {
        return &[];
    };
    match behind.first() {
        Some(node) => behind.get(..node.size).unwrap_or(&[]),
        None => &[],
    }
}

/// The number of the left part, or the only one.
pub(crate) fn left_of(number: usize) -> usize {
    number.saturating_add(1)
}

/// The number of the right part.
pub(crate) fn right_of(nodes: &[Node], number: usize) -> usize {
    let left = left_of(number);
    match nodes.get(left) {
        Some(node) => left.saturating_add(node.size),
        None => left.saturating_add(1),
    }
}
