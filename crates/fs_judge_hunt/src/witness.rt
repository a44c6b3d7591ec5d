//! The execution that a region shows in which nothing is left to decide.

use crate::access::{Doing, Takes};
use crate::facts::Facts;
use crate::hart::Hart;
use crate::paths::sorted;
use crate::region::{Field, Region};
use crate::rows::{first_run, has_run};
use fs_cert_evidence::{ChoiceLists, Choices};
use fs_kinds::{List, OperationName, Slot};
use fs_model::Choice;
use std::alloc::{AllocError, Global};

/// The number of what the run chooses at a name.
fn key_of(doing: &Doing, run: usize) -> Option<u64> {
    for group in &doing.choices {
        if has_run(&group.row, run) {
            return Some(group.key);
        }
    }
    None
}

/// What the run chooses at a name, if it chooses something there.
fn choice(doing: &Doing, run: usize) -> Option<Choice> {
    match (doing.takes, key_of(doing, run)?) {
        (Takes::Nothing, _) | (_, 0) => None,
        (Takes::Success, 1) => Some(Choice::Success),
        (Takes::Success, _) => Some(Choice::Failure),
        (Takes::Word, key) => Some(Choice::Word(u32::try_from(key.wrapping_sub(1)).unwrap_or(0))),
    }
}

/// The choices of the run.
fn choices_of(alloc: Global, hart: &Hart, run: usize) -> Result<Choices, AllocError> {
    let mut choices = Vec::new(alloc);
    for doing in &hart.doings {
        if let Some(choice) = choice(doing, run) {
            choices.push(choice)?;
        }
    }
    Ok(Choices::new(choices))
}

/// Adds those of the first of these runs.
fn push_choices(
    alloc: Global,
    lists: &mut Vec<Choices>,
    hart: &Hart,
    row: &[u64],
) -> Result<(), AllocError> {
    let choices = choices_of(alloc, hart, first_run(row).unwrap_or(0))?;
    lists.push(choices)?;
    Ok(())
}

fn choices(alloc: Global, field: Field<'_>, region: &Region) -> Result<ChoiceLists, AllocError> {
    let mut lists = Vec::new(alloc);
    for hart in 0..field.harts.len().min(region.left.len()) {
        push_choices(
            alloc,
            &mut lists,
            &field.harts[hart],
            &region.left[hart].row,
        )?;
    }
    Ok(ChoiceLists::new(lists))
}

/// An order of the operations in which each comes after what must come before it.
fn order(
    alloc: Global,
    field: Field<'_>,
    region: &Region,
) -> Result<List<OperationName>, AllocError> {
    let facts = Facts::of(field, region);
    let mut closure = facts.edges;
    facts.add_ordered(&mut closure, region, field.count);
    closure.join(&facts.fenced);
    closure.close(field.count);
    let numbers = sorted(alloc, &closure, facts.loads | facts.stores, field.count)?;
    Ok(List::new(names_of(alloc, field, &numbers)?))
}

fn names_of(
    alloc: Global,
    field: Field<'_>,
    numbers: &[u8],
) -> Result<Vec<OperationName>, AllocError> {
    let mut names = Vec::new(alloc);
    for number in numbers {
        names.push(field.name(*number))?;
    }
    Ok(names)
}

/// An execution, by the choices of each hart and the names of the operations in their order.
#[derive(Drop)]
pub struct Execution {
    pub choices: ChoiceLists,
    pub order: List<OperationName>,
}

impl Execution {
    /// Does it keep the order of the slot's hart across the slot?
    pub(crate) fn bears(&self, slot: Slot) -> bool {
        let mut is_behind = false;
        for name in &self.order {
            if name.hart == slot.hart && name.at >= slot.at {
                is_behind = true;
            } else if name.hart == slot.hart && is_behind {
                return false;
            }
        }
        true
    }
}

/// The execution that the region shows.
pub(crate) fn execution_of(
    alloc: Global,
    field: Field<'_>,
    region: &Region,
) -> Result<Execution, AllocError> {
    Ok(Execution {
        choices: choices(alloc, field, region)?,
        order: order(alloc, field, region)?,
    })
}
