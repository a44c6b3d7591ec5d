//! The picture of a contradiction, and of an execution.

ghost use Rattle.std.specs.Prelude.{◌≡◌, IfOk, string_bytes};
ghost use Rattle.fs_app_dot.specs.Chains.{chain_edges};
ghost use Rattle.fs_app_dot.specs.Dot.{dot_text};
ghost use Rattle.fs_app_dot.specs.Pictures.{IsChainPicture, IsPicture};

use crate::chain::{chain_edges, instr_at};
use crate::dot::dot_text;
use crate::execution::execution_edges;
use crate::graph::Node;
use crate::labels::{write_does, write_head};
use crate::nodes::{Shown, nodes};
use fs_app_why::{ChainLink, Known};
use fs_cand_witness::operation_name;
use fs_check::OrderedCandidate;
use fs_kinds::{List, Placement};
use fs_model::{Name, Operation, Test};
use std::alloc::{AllocError, Global};

/// Appends the operation of the link, with what it does as far as that is known.
fn push_link(
    alloc: Global,
    test: &Test,
    lines: &[List<usize>],
    link: &ChainLink,
    shown: &mut Vec<Shown>,
) -> Result<(), AllocError> {
    let Some(instr) = instr_at(test, link.name.hart, link.name.at) else {
        return Ok(());
    };
    let mut text = String::new(alloc);
    write_head(lines, link.name, &instr, &mut text)?;
    write_does(test.locations.as_slice(), link.known, &instr, &mut text)?;
    shown.push(Shown {
        name: link.name,
        label: Name::new(text),
    })?;
    Ok(())
}

fn on_chain(
    alloc: Global,
    test: &Test,
    lines: &[List<usize>],
    links: &[ChainLink],
) -> Result<Vec<Shown>, AllocError> {
    let mut shown = Vec::new(alloc);
    for link in links {
        push_link(alloc, test, lines, link, &mut shown)?;
    }
    Ok(shown)
}

/// Is its source an initial store?
fn is_initial(ordered: &OrderedCandidate, a: usize) -> bool {
    match ordered.order.source(a) {
        Some(store) => usize::from(store) >= ordered.order.count(),
        None => false,
    }
}

/// Appends the operation, which comes to memory behind so many, with what it does.
fn push_operation(
    alloc: Global,
    test: &Test,
    lines: &[List<usize>],
    ordered: &OrderedCandidate,
    numbers: (usize, usize),
    shown: &mut Vec<Shown>,
) -> Result<(), AllocError> {
    let (before, a) = numbers;
    let Some(name) = operation_name(&ordered.candidate, a) else {
        return Ok(());
    };
    let operation = Operation::numbered(ordered.candidate.operations.as_slice(), a);
    let known = Known {
        address: operation.address,
        loaded: operation.loaded,
        stored: operation.stored,
        is_initial: is_initial(ordered, a),
    };
    let mut text = format!(in alloc; "{}.  ", before.saturating_add(1))?;
    write_head(lines, name, &operation.instr, &mut text)?;
    write_does(
        test.locations.as_slice(),
        known,
        &operation.instr,
        &mut text,
    )?;
    shown.push(Shown {
        name,
        label: Name::new(text),
    })?;
    Ok(())
}

fn in_order(
    alloc: Global,
    test: &Test,
    lines: &[List<usize>],
    ordered: &OrderedCandidate,
) -> Result<Vec<Shown>, AllocError> {
    let mut shown = Vec::new(alloc);
    for (before, a) in ordered.order.listed().iter().enumerate() {
        let numbers = (before, usize::from(*a));
        push_operation(alloc, test, lines, ordered, numbers, &mut shown)?;
    }
    Ok(shown)
}

/// The chain with these boxes.
fn chain_dot(
    alloc: Global,
    title: &str,
    test: &Test,
    nodes: &[Node],
    links: &[ChainLink],
) -> Result<String, AllocError>
    ensures { IfOk result (λ text.
        string_bytes text ≡ dot_text title.now nodes.now (chain_edges test.now links.now)) }
{
    let edges = chain_edges(alloc, test, links)?;
    dot_text(alloc, title, nodes, &edges)
}

/// A chain of operations that no candidate has, as a picture in DOT: each arrow is a link of it. A box says what its
/// operation does as far as the chain knows it; those that aren't on it are grey. The file has its instructions in
/// these lines. The cost is that of `dot_text`. The error is want of memory.
pub(crate) fn chain_picture(
    alloc: Global,
    title: &str,
    test: &Test,
    lines: &[List<usize>],
    links: &[ChainLink],
) -> Result<String, AllocError>
    ensures { IfOk result (λ text. IsChainPicture test.now title.now links.now (string_bytes text)) }
{
    let shown = on_chain(alloc, test, lines, links)?;
    let nodes = nodes(alloc, test, lines, &shown)?;
    chain_dot(alloc, title, test, &nodes, links)
}

/// An execution with these fences as a picture in DOT. A box says when its operation comes to memory, and what it does;
/// those that the runs don't have are grey. The file has its instructions in these lines. The cost is that of
/// `execution_edges` and of `dot_text`. The error is want of memory.
pub(crate) fn execution_picture(
    alloc: Global,
    title: &str,
    test: &Test,
    placement: &Placement,
    lines: &[List<usize>],
    ordered: &OrderedCandidate,
) -> Result<String, AllocError>
    ensures { IfOk result (λ text. IsPicture title.now (string_bytes text)) }
{
    let shown = in_order(alloc, test, lines, ordered)?;
    let nodes = nodes(alloc, test, lines, &shown)?;
    let edges = execution_edges(alloc, test, placement, ordered)?;
    dot_text(alloc, title, &nodes, &edges)
}
