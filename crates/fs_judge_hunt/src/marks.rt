//! With which runs of a hart the members of a region may end as wanted: for all of its runs at once.

use crate::access::{Place, location_in, word_in};
use crate::condition::{Node, Part, Wanted, within};
use crate::endings::{LastWord, Outlook, Truth};
use crate::hart::Hart;
use crate::names::has;
use crate::rows::{Group, Row, both, copied, join, join_both, leave_out, narrow, no_run, without};
use std::alloc::{AllocError, Global};

/// The runs of a hart with which a condition may be true, and with which it may be false.
#[derive(Drop)]
struct Marks {
    yes: Row,
    no: Row,
}

impl Marks {
    /// The runs with which it may have this truth value.
    fn runs(&self, truth: bool) -> &[u64] {
        if truth {
            self.yes.as_slice()
        } else {
            self.no.as_slice()
        }
    }
}

/// No run twice.
fn blank(alloc: Global, words: usize) -> Result<Marks, AllocError> {
    let yes = no_run(alloc, words)?;
    let no = no_run(alloc, words)?;
    Ok(Marks { yes, no })
}

/// The marks of two parts, put into those of the left one.
fn join_marks(part: Part, left: &mut Marks, right: &Marks) {
    match part {
        Part::Both => {
            narrow(&mut left.yes, &right.yes);
            join(&mut left.no, &right.no);
        }
        _ => {
            join(&mut left.yes, &right.yes);
            narrow(&mut left.no, &right.no);
        }
    }
}

/// Denies what is on top of the stack.
fn deny(stack: &mut Vec<Marks>) -> Result<(), AllocError> {
    if let Some(Marks { yes, no }) = stack.pop() {
        stack.push(Marks { yes: no, no: yes })?;
    }
    Ok(())
}

/// Joins the two on top of the stack, the left one first.
fn join_top(stack: &mut Vec<Marks>, part: Part) -> Result<(), AllocError> {
    if let Some(mut left) = stack.pop() {
        if let Some(right) = stack.pop() {
            join_marks(part, &mut left, &right);
        }
        stack.push(left)?;
    }
    Ok(())
}

/// Puts into the marks which of the runs store the word, or another one, at the location.
fn mark_stores(marks: &mut Marks, row: &[u64], classes: &[Group], last: LastWord) {
    for class in classes {
        if location_in(class.key) == last.location {
            if word_in(class.key) == last.word {
                join_both(&mut marks.yes, row, &class.row);
            } else {
                join_both(&mut marks.no, row, &class.row);
            }
        }
    }
}

/// Drops the runs that store at the location.
fn drop_stores(row: &mut [u64], places: &[Place], location: u8) {
    for place in places {
        if place.location == location {
            leave_out(row, &place.row);
        }
    }
}

impl Outlook<'_> {
    /// The same for each of the hart's runs.
    fn same_marks(
        &self,
        alloc: Global,
        hart: u8,
        words: usize,
        truth: Truth,
    ) -> Result<Marks, AllocError> {
        let mut marks = blank(alloc, words)?;
        let row = self.region.row(hart);
        if truth.yes {
            join(&mut marks.yes, row);
        }
        if truth.no {
            join(&mut marks.no, row);
        }
        Ok(marks)
    }

    fn register_marks(&self, alloc: Global, hart: u8, number: usize) -> Result<Marks, AllocError> {
        let row = self.region.row(hart);
        let atom = self.atom_row(number);
        let yes = both(alloc, row, atom)?;
        let no = without(alloc, row, atom)?;
        Ok(Marks { yes, no })
    }

    /// The runs that leave the location as it begins, where those of the other harts may.
    fn idle(&self, alloc: Global, hart: u8, found: &Hart, location: u8) -> Result<Row, AllocError> {
        if self.is_stored_by_others(hart, location) {
            return no_run(alloc, found.words);
        }
        let mut row = copied(alloc, self.region.row(hart))?;
        for doing in &found.doings {
            drop_stores(&mut row, &doing.stores.places, location);
        }
        Ok(row)
    }

    /// Must another hart store at the location?
    fn is_stored_by_others(&self, hart: u8, location: u8) -> bool {
        let stores = self.facts.stored(location);
        for name in 0..self.field.count {
            if has(stores, name) && self.field.owner(name) != hart {
                return true;
            }
        }
        false
    }

    fn location_marks(
        &self,
        alloc: Global,
        hart: u8,
        found: &Hart,
        last: LastWord,
    ) -> Result<Marks, AllocError> {
        let others = self.stored_by_others(Some(hart), last);
        let mut marks = self.same_marks(alloc, hart, found.words, others)?;
        let idle = self.idle(alloc, hart, found, last.location)?;
        if self.initial_word(last.location) == last.word {
            join(&mut marks.yes, &idle);
        } else {
            join(&mut marks.no, &idle);
        }
        self.mark_last(&mut marks, hart, found, last);
        Ok(marks)
    }

    /// Puts into the marks what the hart's stores that may be the last ones leave.
    fn mark_last(&self, marks: &mut Marks, hart: u8, found: &Hart, last: LastWord) {
        let row = self.region.row(hart);
        let mut store = found.first();
        for doing in &found.doings {
            if self.region.before.row(store) == 0 {
                mark_stores(marks, row, &doing.stores.classes, last);
            }
            store = store.saturating_add(1);
        }
    }

    fn atom_marks(
        &self,
        alloc: Global,
        hart: u8,
        found: &Hart,
        part: Part,
        number: usize,
    ) -> Result<Marks, AllocError> {
        match part {
            Part::Location { location, word } => {
                self.location_marks(alloc, hart, found, LastWord { location, word })
            }
            Part::Register { hart: own, .. } if own == hart => self.register_marks(
                alloc, hart, number,
            ),
            _ => self.same_marks(alloc, hart, found.words, self.atom(part, number)),
        }
    }

    /// Takes the part, with those of its own parts on the stack.
    fn step_marks(
        &self,
        alloc: Global,
        hart: u8,
        found: &Hart,
        stack: &mut Vec<Marks>,
        node: (Part, usize),
    ) -> Result<(), AllocError> {
        let (part, number) = node;
        match part {
            Part::Deny => deny(stack),
            Part::Both | Part::Either => join_top(stack, part),
            _ => {
                let marks = self.atom_marks(alloc, hart, found, part, number)?;
                stack.push(marks)?;
                Ok(())
            }
        }
    }

    /// Puts the marks of the condition of this number on the stack.
    fn push_marks(
        &self,
        alloc: Global,
        hart: u8,
        found: &Hart,
        stack: &mut Vec<Marks>,
        number: usize,
    ) -> Result<(), AllocError> {
        let nodes: &[Node] = within(self.field.nodes, number);
        for place in 0..nodes.len() {
            let place = nodes.len() - 1 - place;
            let node = (nodes[place].part, number.saturating_add(place));
            self.step_marks(alloc, hart, found, stack, node)?;
        }
        Ok(())
    }

    /// Drops from the hart's runs those with which the wanted condition can't have its truth value.
    fn narrow_by(
        &self,
        alloc: Global,
        hart: u8,
        found: &Hart,
        row: &mut [u64],
        wanted: Wanted,
    ) -> Result<(), AllocError> {
        let mut stack = Vec::new(alloc);
        self.push_marks(alloc, hart, found, &mut stack, wanted.node)?;
        if let Some(marks) = stack.pop() {
            narrow(row, marks.runs(wanted.truth));
        }
        Ok(())
    }

    /// The same for each wanted condition.
    fn narrow_by_all(
        &self,
        alloc: Global,
        hart: u8,
        found: &Hart,
        row: &mut [u64],
    ) -> Result<(), AllocError> {
        for wanted in self.region.wanted.iter() {
            self.narrow_by(alloc, hart, found, row, *wanted)?;
        }
        Ok(())
    }

    /// The hart's runs with each of which every wanted condition may have its truth value.
    pub(crate) fn showing(&self, alloc: Global, hart: u8) -> Result<Row, AllocError> {
        let mut row = copied(alloc, self.region.row(hart))?;
        let place = usize::from(hart);
        if place < self.field.harts.len() {
            self.narrow_by_all(alloc, hart, &self.field.harts[place], &mut row)?;
        }
        Ok(row)
    }
}
