//! What the members of a region may end with.

use crate::access::{location_in, word_in};
use crate::condition::{Node, Part, Wanted, within};
use crate::facts::Facts;
use crate::names::has;
use crate::region::{Field, Region};
use crate::rows::{do_meet, is_within};
use std::alloc::{AllocError, Global};

/// May a condition be true, and may it be false?
#[derive(Clone, Copy)]
pub(crate) struct Truth {
    pub(crate) yes: bool,
    pub(crate) no: bool,
}

/// A location, and a word that it may end with.
#[derive(Clone, Copy)]
pub(crate) struct LastWord {
    pub(crate) location: u8,
    pub(crate) word: u32,
}

/// A region with what must hold in it.
#[derive(Clone, Copy)]
pub(crate) struct Outlook<'a> {
    pub(crate) field: Field<'a>,
    pub(crate) region: &'a Region,
    pub(crate) facts: &'a Facts,
}

fn both_ways(part: Part, left: Truth, right: Truth) -> Truth {
    match part {
        Part::Both => Truth {
            yes: left.yes && right.yes,
            no: left.no || right.no,
        },
        _ => Truth {
            yes: left.yes || right.yes,
            no: left.no && right.no,
        },
    }
}

impl<'a> Outlook<'a> {
    /// Is the store one that may be the last of its location?
    fn may_be_last(&self, store: u8) -> bool {
        has(self.facts.may_store, store) && self.region.before.row(store) == 0
    }

    pub(crate) fn initial_word(&self, location: u8) -> u32 {
        let place = usize::from(location);
        if place < self.field.words.len() {
            self.field.words[place]
        } else {
            0
        }
    }

    /// What may be stored last at the location under the name.
    fn add_store(&self, truth: &mut Truth, store: u8, last: LastWord) {
        let Some(doing) = self.field.doing(store) else {
            return;
        };
        let row = self.region.row(self.field.owner(store));
        for class in &doing.stores.classes {
            if location_in(class.key) == last.location && do_meet(row, &class.row) {
                if word_in(class.key) == last.word {
                    truth.yes = true;
                } else {
                    truth.no = true;
                }
            }
        }
    }

    /// What the location may end with by the stores of harts but this one.
    pub(crate) fn stored_by_others(&self, hart: Option<u8>, last: LastWord) -> Truth {
        let mut truth = Truth {
            yes: false,
            no: false,
        };
        for store in 0..self.field.count {
            if self.may_be_last(store) && Some(self.field.owner(store)) != hart {
                self.add_store(&mut truth, store, last);
            }
        }
        truth
    }

    fn ends(&self, last: LastWord) -> Truth {
        let mut truth = self.stored_by_others(None, last);
        if self.facts.stored(last.location) == 0 {
            if self.initial_word(last.location) == last.word {
                truth.yes = true;
            } else {
                truth.no = true;
            }
        }
        truth
    }

    /// The runs of its hart with which the atom of this number is true.
    pub(crate) fn atom_row(&self, node: usize) -> &'a [u64] {
        if node < self.field.atoms.len() {
            self.field.atoms[node].as_slice()
        } else {
            &[]
        }
    }

    pub(crate) fn atom(&self, part: Part, number: usize) -> Truth {
        match part {
            Part::Always => Truth {
                yes: true,
                no: false,
            },
            Part::Never => Truth {
                yes: false,
                no: true,
            },
            Part::Register { hart, .. } => {
                let row = self.region.row(hart);
                let atom = self.atom_row(number);
                Truth {
                    yes: do_meet(row, atom),
                    no: !is_within(row, atom),
                }
            }
            Part::Location { location, word } => self.ends(LastWord { location, word }),
            Part::Deny | Part::Both | Part::Either => Truth {
                yes: true,
                no: true,
            },
        }
    }

    /// Takes the part, with those of its own parts on the stack.
    fn step(&self, stack: &mut Vec<Truth>, part: Part, number: usize) -> Result<(), AllocError> {
        let any = Truth {
            yes: true,
            no: true,
        };
        let truth = match part {
            Part::Deny => {
                let denied = stack.pop().unwrap_or(any);
                Truth {
                    yes: denied.no,
                    no: denied.yes,
                }
            }
            Part::Both | Part::Either => {
                let left = stack.pop().unwrap_or(any);
                let right = stack.pop().unwrap_or(any);
                both_ways(part, left, right)
            }
            _ => self.atom(part, number),
        };
        stack.push(truth)?;
        Ok(())
    }

    /// May the condition of this number have the truth value?
    fn may(&self, alloc: Global, wanted: Wanted) -> Result<bool, AllocError> {
        let nodes: &[Node] = within(self.field.nodes, wanted.node);
        let mut stack = Vec::new(alloc);
        for place in 0..nodes.len() {
            let place = nodes.len() - 1 - place;
            self.step(
                &mut stack,
                nodes[place].part,
                wanted.node.saturating_add(place),
            )?;
        }
        Ok(match stack.pop() {
            Some(Truth { yes, no }) => if wanted.truth { yes } else { no },
            None => true,
        })
    }

    /// May all wanted conditions have their truth values, as far as each by itself tells?
    pub(crate) fn may_show(&self, alloc: Global) -> Result<bool, AllocError> {
        for wanted in self.region.wanted.iter() {
            if !self.may(alloc, *wanted)? {
                return Ok(false);
            }
        }
        Ok(true)
    }
}
