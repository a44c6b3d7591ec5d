//! The boxes of a picture: all memory instructions of the test.

use crate::graph::Node;
use crate::labels::write_head;
use fs_instr::Instr;
use fs_kinds::{List, OperationName};
use fs_model::{Name, Test};
use std::alloc::{AllocError, Global};

/// An operation that isn't drawn in grey, and what its box says.
#[derive(Drop)]
pub(crate) struct Shown {
    pub(crate) name: OperationName,
    pub(crate) label: Name,
}

fn label_of(shown: &[Shown], name: OperationName) -> Option<&str> {
    for one in shown {
        if one.name.hart == name.hart && one.name.at == name.at {
            return Some(one.label.as_str());
        }
    }
    None
}

/// The line of the file in which the instruction stands; 0 where that isn't known.
pub(crate) fn line_of(lines: &[List<usize>], name: OperationName) -> usize {
    match lines.get(usize::from(name.hart)) {
        Some(of_hart) => of_hart.get(usize::from(name.at)).copied().unwrap_or(0),
        None => 0,
    }
}

fn grey_label(
    alloc: Global,
    lines: &[List<usize>],
    name: OperationName,
    instr: &Instr,
) -> Result<Name, AllocError> {
    let mut text = String::new(alloc);
    write_head(lines, name, instr, &mut text)?;
    Ok(Name::new(text))
}

fn node(
    alloc: Global,
    lines: &[List<usize>],
    shown: &[Shown],
    name: OperationName,
    place: u8,
    instr: &Instr,
) -> Result<Node, AllocError> {
    let (is_grey, label) = match label_of(shown, name) {
        Some(label) => (false, Name::new(String::from_str(alloc, label)?)),
        None => (true, grey_label(alloc, lines, name, instr)?),
    };
    Ok(Node {
        name,
        place,
        is_grey,
        label,
    })
}

fn push_nodes(
    alloc: Global,
    lines: &[List<usize>],
    shown: &[Shown],
    hart: u8,
    code: &[Instr],
    nodes: &mut Vec<Node>,
) -> Result<(), AllocError> {
    let mut place: u8 = 0;
    for (at, instr) in code.iter().enumerate() {
        if instr.is_memory() {
            let name = OperationName {
                hart,
                at: (at % 256) as u8,
            };
            nodes.push(node(alloc, lines, shown, name, place, instr)?)?;
            place = place.saturating_add(1);
        }
    }
    Ok(())
}

/// A box for each memory instruction of the test, in the order of the code: as they are shown here, all others in grey
/// with their lines and instructions. The instructions times those that are shown. The error is want of memory.
pub(crate) fn nodes(
    alloc: Global,
    test: &Test,
    lines: &[List<usize>],
    shown: &[Shown],
) -> Result<Vec<Node>, AllocError> {
    let mut nodes = Vec::new(alloc);
    for (hart, code) in test.codes.iter().enumerate() {
        push_nodes(
            alloc,
            lines,
            shown,
            (hart % 256) as u8,
            code.as_slice(),
            &mut nodes,
        )?;
    }
    Ok(nodes)
}
