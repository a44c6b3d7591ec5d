//! What the runs of one hart do, as rows.

use crate::access::Doing;
use crate::fences::Barrier;
use crate::forms::Form;
use crate::rows::Row;
use crate::rules::{Forwarded, Numbered, Rule};
use fs_kinds::MOST_LOCATIONS;

/// The runs of one hart.
#[derive(Drop)]
pub struct Hart {
    pub words: usize,
    pub all: Row,
    pub names: Vec<Numbered>,
    /// For each of the names.
    pub doings: Vec<Doing>,
    pub forms: Vec<Form>,
    /// But for rules 4 and 12.
    pub rules: Vec<Rule>,
    pub forwarded: Vec<Forwarded>,
    /// The fences that the code has.
    pub written: Vec<Barrier>,
}

/// The most stores to the location in one run of the hart.
fn most_stores(hart: &Hart, location: u8) -> usize {
    let mut most = 0;
    for form in &hart.forms {
        most = form.outline.count_stores(location).max(most);
    }
    most
}

/// May one of the harts, in one run, store so often to one location?
pub(crate) fn may_store_often(harts: &[Hart], least: usize) -> bool {
    for hart in harts {
        for location in 0..MOST_LOCATIONS as u8 {
            if most_stores(hart, location) >= least {
                return true;
            }
        }
    }
    false
}

impl Hart {
    /// The number of the hart's first name.
    pub(crate) fn first(&self) -> u8 {
        if self.names.is_empty() {
            0
        } else {
            self.names[0].number
        }
    }

    /// What its runs do at the name.
    pub(crate) fn doing(&self, name: u8) -> Option<&Doing> {
        let place = usize::from(name.checked_sub(self.first())?);
        if place < self.doings.len() {
            Some(&self.doings[place])
        } else {
            None
        }
    }
}
