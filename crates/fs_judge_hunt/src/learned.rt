//! Cycles that have ended regions, under whatever fences. Where one lacks only a load's source, a split by that source
//! is likely to end a region.

use crate::facts::Facts;
use crate::links::{Edge, edge_after};
use crate::names::{MOST_NAMES, Origin, bit, has};
use crate::region::Region;
use fs_cert_evidence::Cause;
use std::alloc::{AllocError, Global};
use std::sync::Arc;

/// As many cycles are kept.
const MOST_CYCLES: usize = 256;

/// A cycle, and the loads whose sources it rests on.
#[derive(Drop)]
struct Cycle {
    edges: Arc<Vec<Edge>>,
    loads: u64,
}

/// The cycles that one who hunts has learned, each once; how many of them the others were told, and how many of theirs
/// were heard.
#[derive(Drop)]
pub struct Learned {
    cycles: Vec<Cycle>,
    told: usize,
    heard: usize,
}

/// What a link lacks in a region.
#[derive(Clone, Copy)]
enum Lack {
    Nothing,
    /// What the load returns from.
    Source(u8),
    /// Something else.
    Other,
}

/// What the edge to the next name lacks.
fn lack_of(region: &Region, facts: &Facts, edge: &Edge, next: u8) -> Lack {
    let (holds, load) = match edge.cause {
        Cause::Coherence => (region.before.has(edge.name, next), None),
        Cause::FromReads => (
            has(facts.overwriting(region, edge.name), next),
            Some(edge.name),
        ),
        Cause::ReadsFrom => (facts.edges.has(edge.name, next), Some(next)),
        _ => (
            facts.edges.has(edge.name, next) || facts.fenced.has(edge.name, next),
            None,
        ),
    };
    match load {
        _ if holds => Lack::Nothing,
        Some(load) if region.origin(load) == Origin::Unknown => Lack::Source(load),
        _ => Lack::Other,
    }
}

/// The name behind that of the edge of this place.
fn next_name(edges: &[Edge], place: usize) -> u8 {
    match edge_after(edges, place) {
        Some(next) => next.name,
        None => 0,
    }
}

/// The loads whose sources the cycle rests on.
fn loads_of(edges: &[Edge]) -> u64 {
    let mut loads = 0;
    for (place, edge) in edges.iter().enumerate() {
        match edge.cause {
            Cause::FromReads => loads |= bit(edge.name),
            Cause::ReadsFrom => loads |= bit(next_name(edges, place)),
            _ => {}
        }
    }
    loads
}

/// The names that have no source.
fn without_source(region: &Region) -> u64 {
    let mut names = 0;
    for name in 0..MOST_NAMES as u8 {
        if region.origin(name) == Origin::Unknown {
            names |= bit(name);
        }
    }
    names
}

/// The load whose source is all that the cycle lacks.
fn lacking(region: &Region, facts: &Facts, edges: &[Edge]) -> Option<u8> {
    let mut found = None;
    for (place, edge) in edges.iter().enumerate() {
        match lack_of(region, facts, edge, next_name(edges, place)) {
            Lack::Nothing => {}
            Lack::Source(load) if found.is_none() || found == Some(load) => found = Some(load),
            _ => return None,
        }
    }
    found
}

impl Learned {
    /// None.
    pub fn new(alloc: Global) -> Learned {
        Learned {
            cycles: Vec::new(alloc),
            told: 0,
            heard: 0,
        }
    }

    /// How many there are. In constant time.
    pub fn count(&self) -> usize {
        self.cycles.len()
    }

    /// Is there something to tell, or to hear where the others have so many?
    pub(crate) fn has_news(&self, others: usize) -> bool {
        self.told < self.cycles.len() || self.heard < others
    }

    /// Takes over those of the other from this number on, as far as they are new and there is room.
    fn hear(&mut self, other: &Learned, from: usize) -> Result<(), AllocError> {
        for place in from..other.cycles.len() {
            let cycle = &other.cycles[place];
            if self.cycles.len() < MOST_CYCLES && !self.has(&cycle.edges) {
                self.cycles.push(Cycle {
                    edges: Arc::try_clone(&cycle.edges)?,
                    loads: cycle.loads,
                })?;
            }
        }
        Ok(())
    }

    /// Tells the others what is new here, and hears what is new there. The cost: for each new one that of a look at
    /// all.
    pub fn exchange(&mut self, others: &mut Learned) -> Result<(), AllocError> {
        others.hear(self, self.told)?;
        self.hear(others, self.heard)?;
        self.told = self.cycles.len();
        self.heard = others.cycles.len();
        Ok(())
    }

    /// Is the cycle there?
    fn has(&self, edges: &[Edge]) -> bool {
        for known in &self.cycles {
            if are_same(&known.edges, edges) {
                return true;
            }
        }
        false
    }

    /// Keeps the cycle, if it is new and there is room.
    pub(crate) fn add(&mut self, alloc: Global, edges: &[Edge]) -> Result<(), AllocError> {
        if self.cycles.len() < MOST_CYCLES && !self.has(edges) {
            let mut cycle = Vec::new(alloc);
            cycle.extend_from_slice(edges)?;
            self.cycles.push(Cycle {
                edges: Arc::new(alloc, cycle)?,
                loads: loads_of(edges),
            })?;
        }
        Ok(())
    }

    /// For each name how many cycles lack only its source: these rest on one load that has none.
    pub(crate) fn votes(&self, region: &Region, facts: &Facts) -> [u16; MOST_NAMES] {
        let mut votes = [0u16; MOST_NAMES];
        let open = without_source(region);
        for cycle in &self.cycles {
            if (cycle.loads & open).count_ones() == 1 {
                if let Some(load) = lacking(region, facts, &cycle.edges) {
                    vote(&mut votes, usize::from(load));
                }
            }
        }
        votes
    }
}

/// One more for the load.
fn vote(votes: &mut [u16; MOST_NAMES], load: usize) {
    if load < MOST_NAMES {
        votes[load] = votes[load].saturating_add(1);
    }
}

/// Is it by a rule of preserved program order?
fn is_rule(cause: Cause) -> bool {
    !matches!(
        cause,
        Cause::ReadsFrom | Cause::Coherence | Cause::FromReads
    )
}

/// Do the two lack the same? Of rules one does as well as another.
fn are_alike(known: &Edge, edge: &Edge) -> bool {
    known.name == edge.name
        && (known.cause == edge.cause || (is_rule(known.cause) && is_rule(edge.cause)))
}

/// Are the two one cycle, from the same name on?
fn are_same(known: &[Edge], edges: &[Edge]) -> bool {
    if known.len() != edges.len() {
        return false;
    }
    for place in 0..known.len().min(edges.len()) {
        if !are_alike(&known[place], &edges[place]) {
            return false;
        }
    }
    true
}
