//! With which runs the parts of a test's condition are true.

use fs_instr::Reg;
use fs_judge_hunt::{Condition, Node, Part, Row, no_run, nodes, put, words_for};
use fs_kinds::List;
use fs_model::{Quantifier, Test};
use fs_region_refutation::Lone;
use std::alloc::{AllocError, Global};

fn ending_with(alloc: Global, runs: &[Lone], register: Reg, word: u32) -> Result<Row, AllocError> {
    let mut row = no_run(alloc, words_for(runs.len()))?;
    for (number, run) in runs.iter().enumerate() {
        if run.final_register(register) == word {
            put(&mut row, number);
        }
    }
    Ok(row)
}

/// For each part of a condition that speaks of a register, the runs of its hart with which it is true; for another part
/// no row.
fn atom_rows(alloc: Global, runs: &[List<Lone>], nodes: &[Node]) -> Result<Vec<Row>, AllocError> {
    let mut rows = Vec::new(alloc);
    for node in nodes {
        rows.push(atom_row(alloc, runs, node.part)?)?;
    }
    Ok(rows)
}

fn atom_row(alloc: Global, runs: &[List<Lone>], part: Part) -> Result<Row, AllocError> {
    let Part::Register {
        hart,
        register,
        word,
    } = part
    else {
        return Ok(Vec::new(alloc));
    };
    match runs.get(usize::from(hart)) {
        Some(runs) => ending_with(alloc, runs.as_slice(), register, word),
        None => Ok(Vec::new(alloc)),
    }
}

/// The condition of the test over the runs of its harts.
pub(crate) fn condition_of(
    alloc: Global,
    test: &Test,
    runs: &[List<Lone>],
) -> Result<Condition, AllocError> {
    let nodes = nodes(alloc, &test.condition)?;
    let atoms = atom_rows(alloc, runs, &nodes)?;
    Ok(Condition {
        nodes,
        atoms,
        truth: test.quantifier != Quantifier::Forall,
    })
}
