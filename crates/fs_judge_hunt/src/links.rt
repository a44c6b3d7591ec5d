//! Links of cycles, and why each operation comes before the next.

use crate::facts::Facts;
use crate::fences::add_fences;
use crate::hart::Hart;
use crate::names::{Origin, Pairs, has};
use crate::needs::Need;
use crate::region::{Field, Region};
use crate::rows::is_within;
use crate::rules::Rule;
use crate::uses::add_link;
use fs_cert_evidence::{Cause, Inference, Link};
use fs_kinds::List;
use std::alloc::{AllocError, Global};

/// A name, and why it comes before the next one.
#[derive(Clone, Copy, PartialEq, Eq)]
pub(crate) struct Edge {
    pub(crate) name: u8,
    pub(crate) cause: Cause,
}

fn cause_of(rule: u8) -> Cause {
    match rule {
        1 => Cause::Rule1,
        2 => Cause::Rule2,
        3 => Cause::Rule3,
        4 => Cause::Rule4,
        5 => Cause::Rule5,
        6 => Cause::Rule6,
        7 => Cause::Rule7,
        8 => Cause::Rule8,
        9 => Cause::Rule9,
        10 => Cause::Rule10,
        11 => Cause::Rule11,
        12 => Cause::Rule12,
        _ => Cause::Rule13,
    }
}

/// Are the sources of the two what the rule asks for?
fn has_sources(region: &Region, rule: &Rule) -> bool {
    let (first, second) = (region.origin(rule.first), region.origin(rule.second));
    match rule.number {
        2 => first != Origin::Unknown && second != Origin::Unknown && first != second,
        3 => second == Origin::From(rule.first),
        _ => true,
    }
}

/// The rule among these that puts the one before the other in each run.
fn rule_in(rules: &[Rule], region: &Region, row: &[u64], first: u8, second: u8) -> Option<Cause> {
    for rule in rules {
        if rule.first == first
            && rule.second == second
            && has_sources(region, rule)
            && (rule.is_whole || is_within(row, &rule.row))
        {
            return Some(cause_of(rule.number));
        }
    }
    None
}

/// Does rule 12 do so?
fn is_forwarded(hart: &Hart, region: &Region, row: &[u64], first: u8, second: u8) -> bool {
    for forwarded in &hart.forwarded {
        if forwarded.first == first
            && forwarded.second == second
            && region.origin(second) == Origin::From(forwarded.store)
            && is_within(row, &forwarded.row)
        {
            return true;
        }
    }
    false
}

/// Why a rule but 4 puts the one before the other.
fn preserved(field: Field<'_>, region: &Region, first: u8, second: u8) -> Option<Cause> {
    let hart = field.hart_of(first)?;
    let row = region.row(field.owner(first));
    let found = rule_in(&hart.rules, region, row, first, second);
    if found.is_none() && is_forwarded(hart, region, row, first, second) {
        return Some(Cause::Rule12);
    }
    found
}

/// Why the one comes before the other: not by a fence, if there is another cause.
fn cause(field: Field<'_>, region: &Region, facts: &Facts, first: u8, second: u8) -> Cause {
    let is_own = field.owner(first) == field.owner(second);
    if is_own {
        if let Some(cause) = preserved(field, region, first, second) {
            return cause;
        }
    } else if region.origin(second) == Origin::From(first) {
        return Cause::ReadsFrom;
    }
    if first != second && has(facts.overwriting(region, first), second) {
        Cause::FromReads
    } else if is_own && !region.before.has(first, second) {
        Cause::Rule4
    } else {
        Cause::Coherence
    }
}

/// The edge behind the one of this place, which is the first behind the last.
pub(crate) fn edge_after(edges: &[Edge], place: usize) -> Option<&Edge> {
    let place = place.saturating_add(1);
    if place < edges.len() {
        Some(&edges[place])
    } else {
        edges.first()
    }
}

/// Adds what the links of the cycle that rule 4 gives need in the region.
pub(crate) fn add_needs(
    need: &mut Need,
    field: Field<'_>,
    region: &Region,
    edges: &[Edge],
) -> Result<(), AllocError> {
    for (place, edge) in edges.iter().enumerate() {
        if edge.cause == Cause::Rule4 {
            if let Some(next) = edge_after(edges, place) {
                add_need(need, field, region, edge.name, next.name)?;
            }
        }
    }
    Ok(())
}

/// Adds what rule 4 needs to put the one before the other.
fn add_need(
    need: &mut Need,
    field: Field<'_>,
    region: &Region,
    first: u8,
    second: u8,
) -> Result<(), AllocError> {
    let row = region.row(field.owner(first));
    let (one, other) = (field.name(first), field.name(second));
    match field.hart_of(first) {
        Some(hart) => add_fences(need, hart, row, field.fences.entries, one, other),
        None => Ok(()),
    }
}

impl Edge {
    /// The edge from the name to the next one; what it rests on is added.
    pub(crate) fn found(
        field: Field<'_>,
        region: &Region,
        facts: &Facts,
        used: &mut Pairs,
        name: u8,
        next: u8,
    ) -> Result<Edge, AllocError> {
        let cause = cause(field, region, facts, name, next);
        add_link(used, region, cause, name, next)?;
        Ok(Edge { name, cause })
    }
}

/// The place of the edge with the least name.
fn least(edges: &[Edge]) -> usize {
    let mut found = 0;
    let mut least = u8::MAX;
    for (place, edge) in edges.iter().enumerate() {
        if edge.name < least {
            least = edge.name;
            found = place;
        }
    }
    found
}

/// Adds the links of these edges.
fn push_links(links: &mut Vec<Link>, field: Field<'_>, edges: &[Edge]) -> Result<(), AllocError> {
    for edge in edges {
        links.push(Link {
            operation: field.name(edge.name),
            cause: edge.cause,
        })?;
    }
    Ok(())
}

/// The cycle of these edges, from its least name on.
pub(crate) fn inference_of(
    alloc: Global,
    field: Field<'_>,
    edges: &[Edge],
) -> Result<Inference, AllocError> {
    let least = least(edges);
    let mut links = Vec::new(alloc);
    push_links(&mut links, field, edges.get(least..).unwrap_or(&[]))?;
    push_links(&mut links, field, edges.get(..least).unwrap_or(&[]))?;
    Ok(Inference::Cycle(List::new(links)))
}
