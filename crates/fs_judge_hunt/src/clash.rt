//! What ends regions, by names: the inference is made where it is written.

use crate::links::{Edge, add_needs, inference_of};
use crate::names::{Pairs, Relation};
use crate::needs::Need;
use crate::region::{Field, Region};
use fs_cert_evidence::Inference;
use std::alloc::{AllocError, Global};

/// What can't be in a candidate that shows the outcome without a cycle.
#[derive(Drop)]
pub(crate) enum Clash {
    /// Each name before the next, and the last before the first.
    Cycle(Vec<Edge>),
    /// The load would return from a store that an own store before it overwrites.
    Stale { load: u8, store: u8 },
    /// The store of a pair would be before what the pair's load returns from.
    Reversed { load: u8, store: u8 },
    /// A store of another hart would be between the two of a pair.
    Parted { load: u8, store: u8, other: u8 },
    /// The outcome can't be.
    Outcome,
}

/// What ends a region, and the pairs of stores that it rests on.
#[derive(Drop)]
pub(crate) struct Ending {
    pub(crate) clash: Clash,
    pub(crate) used: Pairs,
}

/// The first store must come before the second: in the other order the region would end.
#[derive(Drop)]
pub(crate) struct Step {
    pub(crate) first: u8,
    pub(crate) second: u8,
    pub(crate) ending: Ending,
}

impl Step {
    /// What the step rests on, where what ends the other order does.
    pub(crate) fn used(&self) -> Relation {
        let mut used = self.ending.used.relation();
        used.remove(self.second, self.first);
        used
    }
}

impl Clash {
    /// Adds what it needs of the placement in the region.
    pub(crate) fn add_needs(
        &self,
        need: &mut Need,
        field: Field<'_>,
        region: &Region,
    ) -> Result<(), AllocError> {
        match self {
            Clash::Cycle(edges) => add_needs(need, field, region, edges),
            _ => Ok(()),
        }
    }

    /// The inference by which it ends a region.
    pub(crate) fn inference(
        &self,
        alloc: Global,
        field: Field<'_>,
    ) -> Result<Inference, AllocError> {
        Ok(match self {
            Clash::Cycle(edges) => inference_of(alloc, field, edges)?,
            Clash::Stale { load, store } => Inference::Stale {
                load: field.name(*load),
                store: field.name(*store),
            },
            Clash::Reversed { load, store } => Inference::Reversed {
                load: field.name(*load),
                store: field.name(*store),
            },
            Clash::Parted { load, store, other } => Inference::Parted {
                load: field.name(*load),
                store: field.name(*store),
                other: field.name(*other),
            },
            Clash::Outcome => Inference::Filter(0),
        })
    }
}
