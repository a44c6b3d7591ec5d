//! The cases of a condition.

use crate::condition::{Node, Part, Wanted, left_of, right_of, within};
use crate::region::{Field, Region};
use crate::splits::{Decision, Splitter};
use fs_kinds::List;
use std::alloc::{AllocError, Global};
use std::sync::Arc;

/// Where several wanted conditions have cases, they are taken apart if there are at most so many ways for all together.
const MOST_WAYS: u64 = 64;

/// In how many ways a condition gets to be true, and to be false, if it is taken apart.
#[derive(Clone, Copy)]
struct Ways {
    yes: u64,
    no: u64,
}

const ONE: Ways = Ways { yes: 1, no: 1 };

/// Those of a part, with those of its own parts on the stack.
fn ways_of(part: Part, stack: &mut Vec<Ways>) -> Ways {
    match part {
        Part::Deny => {
            let denied = stack.pop().unwrap_or(ONE);
            Ways {
                yes: denied.no,
                no: denied.yes,
            }
        }
        Part::Both | Part::Either => {
            let left = stack.pop().unwrap_or(ONE);
            let right = stack.pop().unwrap_or(ONE);
            if is_at_once(part, true) {
                Ways {
                    yes: left.yes.saturating_mul(right.yes),
                    no: left.no.saturating_add(right.no),
                }
            } else {
                Ways {
                    yes: left.yes.saturating_add(right.yes),
                    no: left.no.saturating_mul(right.no),
                }
            }
        }
        _ => ONE,
    }
}

/// In how many ways the condition gets its truth value.
fn ways_in(alloc: Global, nodes: &[Node], truth: bool) -> Result<u64, AllocError> {
    let mut stack = Vec::new(alloc);
    for place in 0..nodes.len() {
        let ways = ways_of(nodes[nodes.len() - 1 - place].part, &mut stack);
        stack.push(ways)?;
    }
    let ways = stack.pop().unwrap_or(ONE);
    Ok(if truth { ways.yes } else { ways.no })
}

/// The first wanted condition that has cases; of several only where few ways are left in all. Left whole, a region ends
/// too where one of the conditions can't have its truth value any more.
pub(crate) fn cases(
    alloc: Global,
    field: Field<'_>,
    region: &Region,
) -> Result<Option<Decision>, AllocError> {
    let mut found = None;
    let mut has_several = false;
    let mut all: u64 = 1;
    for (number, wanted) in region.wanted.iter().enumerate() {
        let wanted: &Wanted = wanted;
        let ways = ways_in(alloc, within(field.nodes, wanted.node), wanted.truth)?;
        all = all.saturating_mul(ways);
        if ways > 1 && found.is_some() {
            has_several = true;
        } else if ways > 1 {
            found = Some(Decision::Cases(number));
        }
    }
    Ok(if has_several && all > MOST_WAYS {
        None
    } else {
        found
    })
}

/// Must both parts have the truth value?
pub(crate) fn is_at_once(part: Part, truth: bool) -> bool {
    match part {
        Part::Both => truth,
        Part::Either => !truth,
        _ => false,
    }
}

fn to_be(node: usize, truth: bool) -> Wanted {
    Wanted { node, truth }
}

/// These conditions with others in the place of the one of this number.
fn replaced(
    alloc: Global,
    wanted: &[Wanted],
    number: usize,
    parts: &[Wanted],
) -> Result<Vec<Wanted>, AllocError> {
    let mut made = Vec::new(alloc);
    for (place, known) in wanted.iter().enumerate() {
        if place == number {
            made.extend_from_slice(parts)?;
        } else {
            made.push(*known)?;
        }
    }
    Ok(made)
}

impl Splitter<'_> {
    /// The region with these conditions in the place of the wanted one of this number.
    fn with_parts(
        self,
        region: &Region,
        number: usize,
        parts: &[Wanted],
    ) -> Result<Box<Region>, AllocError> {
        let wanted = replaced(self.alloc, region.wanted.as_slice(), number, parts)?;
        let wanted = Arc::new(self.alloc, List::new(wanted))?;
        let mut parted = region.copy(self.alloc)?;
        parted.wanted = wanted;
        Ok(parted)
    }

    /// What the wanted condition of this number says of its parts.
    fn wanted_part(self, region: &Region, number: usize) -> Option<(Wanted, Part)> {
        let wanted: &Wanted = region.wanted.get(number)?;
        if wanted.node < self.field.nodes.len() {
            Some((*wanted, self.field.nodes[wanted.node].part))
        } else {
            None
        }
    }

    /// In how many ways the wanted condition of this number gets its truth value.
    pub(crate) fn ways(self, region: &Region, number: usize) -> usize {
        match self.wanted_part(region, number) {
            Some((wanted, part)) => match part {
                Part::Deny => 1,
                Part::Both | Part::Either => if is_at_once(part, wanted.truth) { 1 } else { 2 },
                _ => 0,
            },
            None => 0,
        }
    }

    /// The region in which it gets it in this way.
    pub(crate) fn case(
        self,
        region: &Region,
        number: usize,
        way: usize,
    ) -> Result<Option<Box<Region>>, AllocError> {
        let Some((wanted, part)) = self.wanted_part(region, number) else {
            return Ok(None);
        };
        let Wanted { node: whole, truth } = wanted;
        let one = left_of(whole);
        let other = right_of(self.field.nodes, whole);
        let parted = match part {
            Part::Deny => self.with_parts(region, number, &[to_be(one, !truth)])?,
            Part::Both | Part::Either if is_at_once(part, truth) => {
                self.with_parts(region, number, &[to_be(one, truth), to_be(other, truth)])?
            }
            Part::Both | Part::Either => {
                let half = if way == 0 { one } else { other };
                self.with_parts(region, number, &[to_be(half, truth)])?
            }
            _ => return Ok(None),
        };
        Ok(Some(parted))
    }
}
