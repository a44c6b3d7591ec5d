//! Shortest ways and cycles in a relation.

use crate::names::{MOST_NAMES, Relation, bit, has, least, without_least};
use std::alloc::{AllocError, Global};

/// A search for a way, layer by layer: for each name that was met the one before it.
#[derive(Drop)]
struct Walk {
    parents: [u8; MOST_NAMES],
    /// With those that it doesn't go through.
    met: u64,
}

impl Walk {
    fn parent(&self, name: u8) -> u8 {
        let name = usize::from(name);
        if name < MOST_NAMES {
            self.parents[name]
        } else {
            0
        }
    }

    /// Takes the names that come after this one, and gives those that weren't met before.
    fn extend(&mut self, name: u8, later: u64) -> u64 {
        let fresh = later & !self.met;
        self.met |= fresh;
        let mut left = fresh;
        for _ in 0..fresh.count_ones() {
            let next = usize::from(least(left));
            left = without_least(left);
            if next < MOST_NAMES {
                self.parents[next] = name;
            }
        }
        fresh
    }

    /// The names from the first to the last.
    fn back(&self, alloc: Global, first: u8, last: u8) -> Result<Vec<u8>, AllocError> {
        let mut way = Vec::new(alloc);
        let mut name = last;
        for _ in 0..MOST_NAMES {
            way.push(name)?;
            if name == first {
                break;
            }
            name = self.parent(name);
        }
        way.reverse();
        Ok(way)
    }
}

/// One of the names that comes right before the last one.
pub(crate) fn before(relation: &Relation, names: u64, last: u8) -> Option<u8> {
    let mut left = names;
    for _ in 0..names.count_ones() {
        let name = least(left);
        if relation.has(name, last) {
            return Some(name);
        }
        left = without_least(left);
    }
    None
}

/// The next layer.
fn next_layer(walk: &mut Walk, relation: &Relation, layer: u64) -> u64 {
    let mut next = 0;
    let mut left = layer;
    for _ in 0..layer.count_ones() {
        let name = least(left);
        left = without_least(left);
        next |= walk.extend(name, relation.row(name));
    }
    next
}

/// A shortest way from the first to the last, which is left out, in a relation of so many names. It may be a cycle.
pub(crate) fn way(
    alloc: Global,
    relation: &Relation,
    first: u8,
    last: u8,
    count: u8,
) -> Result<Vec<u8>, AllocError> {
    way_among(alloc, relation, u64::MAX, first, last, count)
}

/// The same through these names alone, in at most so many steps.
fn way_among(
    alloc: Global,
    relation: &Relation,
    names: u64,
    first: u8,
    last: u8,
    most: u8,
) -> Result<Vec<u8>, AllocError> {
    let mut walk = Walk {
        parents: [0; MOST_NAMES],
        met: !names | bit(first),
    };
    let mut layer = bit(first);
    for _ in 0..most {
        if let Some(name) = before(relation, layer, last) {
            return walk.back(alloc, first, name);
        }
        layer = next_layer(&mut walk, relation, layer);
    }
    Ok(Vec::new(alloc))
}

/// The names that are on a cycle with this one, which is on one.
fn knot(closure: &Relation, name: u8) -> u64 {
    let later = closure.row(name);
    let mut knot = 0;
    let mut left = later;
    for _ in 0..later.count_ones() {
        let other = least(left);
        left = without_least(left);
        if closure.has(other, name) {
            knot |= bit(other);
        }
    }
    knot
}

/// The name behind the one of this place in a cycle.
pub(crate) fn name_after(cycle: &[u8], place: usize) -> u8 {
    let place = place.saturating_add(1);
    if place < cycle.len() {
        cycle[place]
    } else if cycle.is_empty() {
        0
    } else {
        cycle[0]
    }
}

/// How many steps of the cycle the relation has.
fn count_in(relation: &Relation, cycle: &[u8]) -> usize {
    let mut count: usize = 0;
    for (place, name) in cycle.iter().enumerate() {
        if relation.has(*name, name_after(cycle, place)) {
            count = count.saturating_add(1);
        }
    }
    count
}

/// A shortest cycle, with few steps that the dear relation has; none where the closure has none.
pub(crate) fn cycle(
    alloc: Global,
    relation: &Relation,
    closure: &Relation,
    dear: &Relation,
    count: u8,
) -> Result<Option<Vec<u8>>, AllocError> {
    let mut best: Option<Vec<u8>> = None;
    let mut least = (usize::MAX, usize::MAX);
    let mut names = 0;
    for name in 0..count {
        if closure.has(name, name) {
            if !has(names, name) {
                names = knot(closure, name);
            }
            // a longer one isn't better
            let most = u8::try_from(least.0).unwrap_or(count).min(count);
            let found = way_among(alloc, relation, names, name, name, most)?;
            let cost = (found.len(), count_in(dear, &found));
            if !found.is_empty() && cost < least {
                least = cost;
                best = Some(found);
            }
        }
    }
    Ok(best)
}

/// The names of the set in an order in which each comes after what the closure has before it.
pub(crate) fn sorted(
    alloc: Global,
    closure: &Relation,
    names: u64,
    count: u8,
) -> Result<Vec<u8>, AllocError> {
    let mut order = Vec::new(alloc);
    let mut left = names;
    for _ in 0..count {
        let Some(next) = foremost(closure, left, count) else {
            break;
        };
        order.push(next)?;
        left &= !bit(next);
    }
    Ok(order)
}

/// The first of the names before which none of them comes.
fn foremost(closure: &Relation, names: u64, count: u8) -> Option<u8> {
    for name in 0..count {
        if has(names, name) && before(closure, names, name).is_none() {
            return Some(name);
        }
    }
    None
}
