//! Which pairs of stores, one earlier in coherence order, an inference rests on.

use crate::access::Place;
use crate::condition::{Node, Part, Wanted, within};
use crate::endings::Outlook;
use crate::facts::Facts;
use crate::names::{Origin, Pairs, Relation, bit, has};
use crate::region::Region;
use fs_cert_evidence::Cause;
use std::alloc::AllocError;

/// Adds that the store is later than what the load returns from.
pub(crate) fn add_overwriting(
    used: &mut Pairs,
    region: &Region,
    load: u8,
    store: u8,
) -> Result<(), AllocError> {
    match region.origin(load) {
        Origin::From(source) => used.add(source, store),
        _ => Ok(()),
    }
}

/// Adds what a link of a cycle rests on.
pub(crate) fn add_link(
    used: &mut Pairs,
    region: &Region,
    cause: Cause,
    first: u8,
    second: u8,
) -> Result<(), AllocError> {
    match cause {
        Cause::Coherence => used.add(first, second),
        Cause::FromReads => add_overwriting(used, region, first, second),
        _ => Ok(()),
    }
}

/// The locations of which the wanted conditions speak, a bit for each.
fn asked(outlook: &Outlook<'_>) -> u64 {
    let mut locations = 0;
    for wanted in outlook.region.wanted.iter() {
        let wanted: &Wanted = wanted;
        locations |= locations_in(within(outlook.field.nodes, wanted.node));
    }
    locations
}

/// Those of which these parts of a condition speak.
fn locations_in(nodes: &[Node]) -> u64 {
    let mut locations = 0;
    for node in nodes {
        if let Part::Location { location, .. } = node.part {
            locations |= bit(location);
        }
    }
    locations
}

/// May the name be one that stores at one of the locations?
fn may_store_at(outlook: &Outlook<'_>, locations: u64, store: u8) -> bool {
    let facts: &Facts = outlook.facts;
    match outlook.field.doing(store) {
        Some(doing) => has(facts.may_store, store) && is_among(&doing.stores.places, locations),
        None => false,
    }
}

/// Is one of the places at one of these locations?
fn is_among(places: &[Place], locations: u64) -> bool {
    for place in places {
        if place.location < 64 && has(locations, place.location) {
            return true;
        }
    }
    false
}

/// The least name of a set.
fn least(names: u64) -> u64 {
    names & names.wrapping_neg()
}

/// What a filter rests on: of each store that isn't the last one of its location a later one, if there is one that
/// was known before.
pub(crate) fn of_filter(outlook: &Outlook<'_>, known: &Relation) -> Relation {
    let mut used = Relation::new();
    let locations = asked(outlook);
    if locations == 0 {
        return used;
    }
    for store in 0..outlook.field.count {
        let later = outlook.region.before.row(store);
        if later != 0 && may_store_at(outlook, locations, store) {
            let before = known.row(store);
            used.add_all(store, least(if before != 0 { before } else { later }));
        }
    }
    used
}
