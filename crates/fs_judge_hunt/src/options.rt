//! By what a region may be split, in the order in which it is tried.

use crate::access::Takes;
use crate::choose::Chooser;
use crate::condition::{Node, Part, Wanted, within};
use crate::names::{Origin, bit, has};
use crate::rows::{do_meet, has_several, is_within};
use crate::splits::Decision;
use crate::trail::Trail;
use std::alloc::AllocError;

/// Where cycles ask for splits, so many of these are tried, and no others where one of them leaves few regions open.
const MOST_ASKED: usize = 8;

/// Where a split leaves so few regions open, no other is tried but of those that cycles ask for and of the harts of which
/// the wanted conditions speak.
const FEW_OPEN: usize = 3;

/// Where one leaves more, a split of theirs is taken only where it leaves fewer than these: it only narrows the region.
const SEVERAL_OPEN: usize = 2;

/// Which splits are tried before others.
#[derive(Clone, Copy, PartialEq, Eq, PartialOrd, Ord)]
enum Class {
    /// Filters.
    Filter,
    /// A source that is all that a known cycle lacks.
    Asked,
    /// Of a hart of which the wanted conditions speak.
    Named,
    Other,
}

/// A split that may be tried, and how soon: what has the least place of its class.
#[derive(Clone, Copy)]
pub(crate) struct Choice {
    pub(crate) decision: Decision,
    class: Class,
    place: usize,
}

/// The splits, first those to be tried first.
#[derive(Drop)]
pub(crate) struct Options {
    pub(crate) choices: Vec<Choice>,
    /// How many are tried at most, where one of them does.
    most: usize,
}

impl Options {
    /// Is the split of this number not worth a try, where another one leaves so many regions open? Where these are few
    /// none is that stands behind those that cycles ask for.
    pub(crate) fn is_late(&self, number: usize, choice: &Choice, open: usize) -> bool {
        open <= FEW_OPEN && (number >= self.most || choice.class == Class::Other)
    }
}

impl Choice {
    /// It is to leave fewer regions open than this, where another split leaves so many.
    pub(crate) fn limit(&self, open: usize) -> usize {
        if self.class == Class::Other {
            open.min(SEVERAL_OPEN)
        } else {
            open
        }
    }
}

/// The harts of which these parts of a condition speak: all, where one speaks of a final word.
fn harts_in(nodes: &[Node]) -> u64 {
    let mut harts = 0;
    for node in nodes {
        match node.part {
            Part::Register { hart, .. } => harts |= bit(hart),
            Part::Location { .. } => return u64::MAX,
            _ => {}
        }
    }
    harts
}

impl Chooser<'_> {
    /// Has no load a source?
    pub(crate) fn is_undecided(&self) -> bool {
        for origin in self.region.origins.iter() {
            if *origin != Origin::Unknown {
                return false;
            }
        }
        true
    }

    /// Do the runs that are left make several choices there?
    pub(crate) fn has_choices(&self, name: u8) -> bool {
        let Some(doing) = self.field.doing(name) else {
            return false;
        };
        let row = self.region.row(self.field.owner(name));
        for group in &doing.choices {
            if do_meet(row, &group.row) && !is_within(row, &group.row) {
                return true;
            }
        }
        false
    }

    /// Is it an sc.w?
    fn may_fail(&self, name: u8) -> bool {
        match self.field.doing(name) {
            Some(doing) => doing.takes == Takes::Success,
            None => false,
        }
    }

    /// Is the name worth a split by its source?
    fn may_source(&self, name: u8) -> bool {
        has(self.facts.may_load, name) && self.region.origin(name) != Origin::Initial
    }

    /// The harts of which the wanted conditions speak, a bit for each: all, where one speaks of a final word.
    fn named_harts(&self) -> u64 {
        let mut harts = 0;
        for wanted in self.region.wanted.iter() {
            let wanted: &Wanted = wanted;
            harts |= harts_in(within(self.field.nodes, wanted.node));
        }
        harts
    }

    /// Adds the filters of harts.
    fn add_filters(&self, choices: &mut Vec<Choice>) -> Result<(), AllocError> {
        let mut hart: u8 = 0;
        for left in &self.region.left {
            if has_several(&left.row) {
                choices.push(Choice {
                    decision: Decision::Filter(hart),
                    class: Class::Filter,
                    place: 0,
                })?;
            }
            hart = hart.saturating_add(1);
        }
        Ok(())
    }

    /// The split by the name, if there is one worth a try.
    fn decision_at(&self, name: u8) -> Option<Decision> {
        if self.may_source(name) {
            Some(Decision::Source(name))
        } else if self.may_fail(name) && self.has_choices(name) {
            Some(Decision::Choice(name))
        } else {
            None
        }
    }

    /// The split by the name, with how soon it is to be tried.
    fn choice_at(&self, trail: &Trail, votes: &[u16], harts: u64, name: u8) -> Option<Choice> {
        let decision = self.decision_at(name)?;
        let place = usize::from(name);
        let count = if place < votes.len() { votes[place] } else { 0 };
        let (class, place) = if count > 0 {
            (Class::Asked, usize::from(u16::MAX.saturating_sub(count)))
        } else if has(harts, self.field.owner(name)) {
            (Class::Named, usize::from(trail.open(decision)))
        } else {
            (Class::Other, usize::from(trail.open(decision)))
        };
        Some(Choice {
            decision,
            class,
            place,
        })
    }

    /// Adds the splits by names: how many of them are what cycles ask for?
    fn add_names(&self, trail: &Trail, choices: &mut Vec<Choice>) -> Result<usize, AllocError> {
        let votes = self.learned.votes(self.region, self.facts);
        let harts = self.named_harts();
        let mut asked: usize = 0;
        for name in 0..self.field.count {
            if let Some(choice) = self.choice_at(trail, &votes, harts, name) {
                if choice.class == Class::Asked {
                    asked = asked.saturating_add(1);
                }
                choices.push(choice)?;
            }
        }
        Ok(asked)
    }

    /// What is tried first: filters, as long as no load has a source, and where they leave the same runs with any
    /// fences; then the sources of loads, and whether an sc.w succeeds: what most cycles ask for, and then what left the
    /// fewest regions open further up.
    pub(crate) fn options(&self, trail: &Trail) -> Result<Options, AllocError> {
        let mut choices = Vec::new(self.alloc);
        if self.is_firm && self.is_undecided() {
            self.add_filters(&mut choices)?;
        }
        let filters = choices.len();
        let asked = self.add_names(trail, &mut choices)?;
        choices.sort_by_key(|choice| (choice.class, choice.place))?;
        let most = match asked {
            0 => usize::MAX,
            _ => filters.saturating_add(asked.min(MOST_ASKED)),
        };
        Ok(Options { choices, most })
    }
}
