//! Where rule 4 holds in a hart with a placement of fences, form by form.

use crate::fences::{Barrier, barriers};
use crate::forms::{Form, Outline};
use crate::hart::Hart;
use crate::names::{Relation, bit, has, least};
use crate::rows::{Row, is_within, join, no_run};
use crate::rules::Numbered;
use fs_kinds::Placement;
use std::alloc::{AllocError, Global};

/// The runs in which fences put the first name before each of the later ones.
#[derive(Drop)]
struct Partly {
    first: u8,
    later: u64,
    row: Row,
}

/// Rule 4 in a hart with a placement of fences.
#[derive(Drop)]
pub(crate) struct Fenced {
    /// The number of the hart's first name.
    first: u8,
    /// For each of its names those before which a fence puts it in all runs.
    always: Vec<u64>,
    /// What fences put in order in some runs.
    partly: Vec<Partly>,
}

/// The names of a hart that load, and those that store.
#[derive(Clone, Copy)]
struct Accesses {
    loads: u64,
    stores: u64,
}

impl Accesses {
    /// In runs of the outline.
    fn of(outline: &Outline, names: &[Numbered]) -> Accesses {
        let mut accesses = Accesses {
            loads: 0,
            stores: 0,
        };
        for name in names {
            let set = bit(name.number);
            if outline.loads_at(name.name.at) {
                accesses.loads |= set;
            }
            if outline.stores_at(name.name.at) {
                accesses.stores |= set;
            }
        }
        accesses
    }

    /// Loads by the first of two bits, stores by the second.
    fn among(self, bits: u8) -> u64 {
        let loads = if bits & 1 != 0 { self.loads } else { 0 };
        let stores = if bits & 2 != 0 { self.stores } else { 0 };
        loads | stores
    }
}

/// The names from this position of the code on.
fn names_from(names: &[Numbered], at: u8) -> u64 {
    let mut found = 0;
    for name in names {
        if name.name.at >= at {
            found |= bit(name.number);
        }
    }
    found
}

/// For each of the names, in these rows, those before which the fence puts it.
fn add_barrier(rows: &mut [u64], names: &[Numbered], accesses: Accesses, barrier: &Barrier) {
    let behind = names_from(names, barrier.at);
    let behind_loads = accesses.among(barrier.pairs) & behind;
    let behind_stores = accesses.among(barrier.pairs.wrapping_shr(2)) & behind;
    for place in 0..rows.len().min(names.len()) {
        let name = &names[place];
        if name.name.at < barrier.at {
            if has(accesses.loads, name.number) {
                rows[place] |= behind_loads;
            }
            if has(accesses.stores, name.number) {
                rows[place] |= behind_stores;
            }
        }
    }
}

/// For each of the names those before which fences put it in runs of the outline.
fn rows_of(
    alloc: Global,
    outline: &Outline,
    barriers: &[Barrier],
    names: &[Numbered],
) -> Result<Vec<u64>, AllocError> {
    let mut rows = vec![in alloc; 0; names.len()]?;
    let accesses = Accesses::of(outline, names);
    for barrier in barriers {
        if outline.executes(barrier.at) {
            add_barrier(&mut rows, names, accesses, barrier);
        }
    }
    Ok(rows)
}

/// The names behind that of this place in the rows of a form.
fn later_in(rows: &[u64], place: usize) -> u64 {
    if place < rows.len() { rows[place] } else { 0 }
}

/// The names behind that of this place in all forms, and in any.
fn always_and_ever(forms: &[Vec<u64>], place: usize) -> (u64, u64) {
    let (mut always, mut ever) = (u64::MAX, 0);
    for rows in forms {
        let later = later_in(rows, place);
        always &= later;
        ever |= later;
    }
    (always & ever, ever)
}

/// Those of the names that are behind that of this place in the same forms as the least of them.
fn like_least(forms: &[Vec<u64>], place: usize, names: u64) -> u64 {
    let least = least(names);
    let mut alike = names;
    for rows in forms {
        let later = later_in(rows, place);
        alike &= if has(later, least) { later } else { !later };
    }
    alike
}

/// The runs of the forms in which the second name is behind that of this place.
fn runs_with(
    alloc: Global,
    hart: &Hart,
    forms: &[Vec<u64>],
    place: usize,
    second: u8,
) -> Result<Row, AllocError> {
    let mut row = no_run(alloc, hart.words)?;
    for number in 0..forms.len().min(hart.forms.len()) {
        if has(later_in(&forms[number], place), second) {
            join(&mut row, &hart.forms[number].row);
        }
    }
    Ok(row)
}

/// What the rows of each form are.
fn all_rows(
    alloc: Global,
    forms: &[Form],
    barriers: &[Barrier],
    names: &[Numbered],
) -> Result<Vec<Vec<u64>>, AllocError> {
    let mut all = Vec::new(alloc);
    for form in forms {
        all.push(rows_of(alloc, &form.outline, barriers, names)?)?;
    }
    Ok(all)
}

impl Fenced {
    /// Rule 4 in the hart of this number with the placement. The cost: for each form the fences times the names.
    pub(crate) fn of(
        alloc: Global,
        number: u8,
        hart: &Hart,
        placement: &Placement,
    ) -> Result<Fenced, AllocError> {
        let mut fenced = Fenced {
            first: hart.first(),
            always: Vec::new(alloc),
            partly: Vec::new(alloc),
        };
        let barriers = barriers(alloc, number, &hart.written, placement)?;
        if barriers.is_empty() {
            return Ok(fenced);
        }
        let forms = all_rows(alloc, &hart.forms, &barriers, &hart.names)?;
        for place in 0..hart.names.len() {
            let (always, ever) = always_and_ever(&forms, place);
            fenced.always.push(always)?;
            fenced.add_partly(alloc, hart, &forms, place, ever & !always)?;
        }
        Ok(fenced)
    }

    /// Adds that the name of this place is before these in some runs.
    fn add_partly(
        &mut self,
        alloc: Global,
        hart: &Hart,
        forms: &[Vec<u64>],
        place: usize,
        names: u64,
    ) -> Result<(), AllocError> {
        let Some(name) = hart.names.get(place) else {
            return Ok(());
        };
        let mut left = names;
        for _ in 0..names.count_ones() {
            if left == 0 {
                break;
            }
            let later = like_least(forms, place, left);
            let row = runs_with(alloc, hart, forms, place, least(left))?;
            self.partly.push(Partly {
                first: name.number,
                later,
                row,
            })?;
            left &= !later;
        }
        Ok(())
    }

    /// Adds what fences put in order in each of these runs.
    pub(crate) fn add_to(&self, relation: &mut Relation, runs: &[u64]) {
        let mut name = self.first;
        for later in &self.always {
            relation.add_all(name, *later);
            name = name.saturating_add(1);
        }
        for partly in &self.partly {
            if is_within(runs, &partly.row) {
                relation.add_all(partly.first, partly.later);
            }
        }
    }
}

/// Rule 4 in each hart with the placement.
pub(crate) fn all_fenced(
    alloc: Global,
    harts: &[Hart],
    placement: &Placement,
) -> Result<Vec<Fenced>, AllocError> {
    let mut all = Vec::new(alloc);
    let mut number: u8 = 0;
    for hart in harts {
        all.push(Fenced::of(alloc, number, hart, placement)?)?;
        number = number.saturating_add(1);
    }
    Ok(all)
}
