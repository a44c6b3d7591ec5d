//! The forms of a hart's runs.

use fs_judge_hunt::{Form, Outline, no_run, put};
use fs_region_refutation::Lone;
use std::alloc::{AllocError, Global};

/// Neighbouring runs of one outline, from the first number to the last.
#[derive(Clone, Copy, PartialEq, Eq, PartialOrd, Ord)]
struct Outlined {
    outline: Outline,
    first: usize,
    last: usize,
}

/// The runs by their outlines, in their order. Neighbours mostly have the same, so there are few to sort.
fn all_outlined(alloc: Global, runs: &[Lone]) -> Result<Vec<Outlined>, AllocError> {
    let mut all: Vec<Outlined> = Vec::new(alloc);
    for (number, run) in runs.iter().enumerate() {
        let outline = Outline::of(run.steps());
        match all.last_mut() {
            Some(neighbours) if neighbours.outline == outline => neighbours.last = number,
            _ => all.push(Outlined {
                outline,
                first: number,
                last: number,
            })?,
        }
    }
    Ok(all)
}

/// The forms of the runs.
pub(crate) fn forms(alloc: Global, words: usize, runs: &[Lone]) -> Result<Vec<Form>, AllocError> {
    let mut all = all_outlined(alloc, runs)?;
    all.sort_unstable();
    let mut forms: Vec<Form> = Vec::new(alloc);
    for one in &all {
        let is_new = forms.last().is_none_or(|form| form.outline != one.outline);
        if is_new {
            forms.push(Form {
                outline: one.outline,
                run: one.first,
                row: no_run(alloc, words)?,
            })?;
        }
        if let Some(form) = forms.last_mut() {
            for run in one.first..one.last.saturating_add(1) {
                put(&mut form.row, run);
            }
        }
    }
    Ok(forms)
}
