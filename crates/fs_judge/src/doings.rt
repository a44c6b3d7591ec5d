//! What the runs of a hart do at each of its names.

use crate::groups::Grouping;
use fs_instr::Instr;
use fs_judge_hunt::{
    Access, Doing, Group, Numbered, Own, Place, Row, Takes, both, class_key, class_of, do_meet,
    initial_word, is_empty, join, location_in, location_of, no_run, word_in,
};
use fs_kinds::OperationName;
use fs_model::Test;
use fs_region_refutation::Lone;
use std::alloc::{AllocError, Global};

fn takes_of(test: &Test, name: OperationName) -> Takes {
    let code = test.codes.as_slice().get(usize::from(name.hart));
    let instr = code.and_then(|code| code.as_slice().get(usize::from(name.at)));
    match instr {
        Some(Instr::Lw { .. } | Instr::Lr { .. } | Instr::Amo { .. }) => Takes::Word,
        Some(Instr::Sc { .. }) => Takes::Success,
        _ => Takes::Nothing,
    }
}

fn places(alloc: Global, words: usize, classes: &[Group]) -> Result<Vec<Place>, AllocError> {
    let mut places: Vec<Place> = Vec::new(alloc);
    for class in classes {
        let location = location_in(class.key);
        let is_new = places.last().is_none_or(|place| place.location != location);
        if is_new {
            places.push(Place {
                location,
                row: no_run(alloc, words)?,
            })?;
        }
        if let Some(place) = places.last_mut() {
            join(&mut place.row, &class.row);
        }
    }
    Ok(places)
}

/// The access of these classes.
fn access_of(alloc: Global, words: usize, classes: Vec<Group>) -> Result<Access, AllocError> {
    let mut any = no_run(alloc, words)?;
    for class in &classes {
        join(&mut any, &class.row);
    }
    let places = places(alloc, words, &classes)?;
    Ok(Access {
        any,
        classes,
        places,
    })
}

fn initial(alloc: Global, words: usize, test: &Test, loads: &[Group]) -> Result<Row, AllocError> {
    let mut row = no_run(alloc, words)?;
    for class in loads {
        if initial_word(test, location_in(class.key)) == Some(word_in(class.key)) {
            join(&mut row, &class.row);
        }
    }
    Ok(row)
}

/// What is gathered of the runs of a hart at one of its names.
#[derive(Drop)]
struct Gathering {
    name: OperationName,
    loads: Grouping,
    stores: Grouping,
    choices: Grouping,
}

impl Gathering {
    fn new(alloc: Global, words: usize, name: OperationName) -> Gathering {
        Gathering {
            name,
            loads: Grouping::new(alloc, words),
            stores: Grouping::new(alloc, words),
            choices: Grouping::new(alloc, words),
        }
    }

    /// Adds what the run of this number does.
    fn add(&mut self, alloc: Global, run: &Lone, number: usize) -> Result<(), AllocError> {
        let at = self.name.at;
        self.choices.put(alloc, run.chosen_at(at), number)?;
        let doing = run.doing_at(at);
        let Some(address) = doing.address else {
            return Ok(());
        };
        if let Some(word) = doing.loaded {
            self.loads
                .put(alloc, class_key(location_of(address), word), number)?;
        }
        if let Some(word) = doing.stored {
            self.stores
                .put(alloc, class_key(location_of(address), word), number)?;
        }
        Ok(())
    }

    fn doing(self, alloc: Global, test: &Test, words: usize) -> Result<Doing, AllocError> {
        let Gathering {
            name,
            loads,
            stores,
            choices,
        } = self;
        let loads = access_of(alloc, words, loads.groups())?;
        let stores = access_of(alloc, words, stores.groups())?;
        let choices = choices.groups();
        let initial = initial(alloc, words, test, &loads.classes)?;
        Ok(Doing {
            takes: takes_of(test, name),
            loads,
            stores,
            choices,
            initial,
            own: Vec::new(alloc),
        })
    }
}

/// What the runs do at each of the names, which are their hart's. It looks at each run once, since many runs are more
/// than a cache holds.
fn doings_at(
    alloc: Global,
    test: &Test,
    words: usize,
    runs: &[Lone],
    names: &[OperationName],
) -> Result<Vec<Doing>, AllocError> {
    let mut gatherings = Vec::new(alloc);
    for name in names {
        gatherings.push(Gathering::new(alloc, words, *name))?;
    }
    for (number, run) in runs.iter().enumerate() {
        for gathering in gatherings.iter_mut() {
            gathering.add(alloc, run, number)?;
        }
    }
    let mut doings = Vec::new(alloc);
    for gathering in gatherings {
        doings.push(gathering.doing(alloc, test, words)?)?;
    }
    Ok(doings)
}

/// Puts into the row the runs of both classes.
fn join_both(alloc: Global, row: &mut [u64], one: &[u64], other: &[u64]) -> Result<(), AllocError> {
    if do_meet(one, other) {
        let both = both(alloc, one, other)?;
        join(row, &both);
    }
    Ok(())
}

/// The runs in which the load has what the store stores.
fn agreeing(
    alloc: Global,
    words: usize,
    loads: &Access,
    stores: &Access,
) -> Result<Row, AllocError> {
    let mut row = no_run(alloc, words)?;
    for class in &loads.classes {
        if let Some(other) = class_of(&stores.classes, class.key) {
            join_both(alloc, &mut row, &class.row, &other.row)?;
        }
    }
    Ok(row)
}

/// The earlier stores of the hart with which the load agrees in some run. The first of the names has this number.
fn own_stores(
    alloc: Global,
    words: usize,
    first: u8,
    earlier: &[Doing],
    load: &Doing,
) -> Result<Vec<Own>, AllocError> {
    let mut own = Vec::new(alloc);
    let mut store = first;
    for doing in earlier {
        let row = agreeing(alloc, words, &load.loads, &doing.stores)?;
        if !is_empty(&row) {
            own.push(Own { store, row })?;
        }
        store = store.saturating_add(1);
    }
    Ok(own)
}

/// What the runs do at each of the names, with the hart's own stores that loads may have.
pub(crate) fn doings(
    alloc: Global,
    test: &Test,
    words: usize,
    runs: &[Lone],
    names: &[Numbered],
) -> Result<Vec<Doing>, AllocError> {
    let first = names.first().map_or(0, |name| name.number);
    let mut plain = Vec::new(alloc);
    for name in names {
        plain.push(name.name)?;
    }
    let mut doings: Vec<Doing> = Vec::new(alloc);
    for doing in doings_at(alloc, test, words, runs, &plain)? {
        let mut doing = doing;
        doing.own = own_stores(alloc, words, first, &doings, &doing)?;
        doings.push(doing)?;
    }
    Ok(doings)
}
