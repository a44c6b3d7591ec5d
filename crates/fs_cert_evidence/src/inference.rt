//! The steps of a refutation.

use crate::evidence::Link;
use fs_kinds::{List, OperationName};

/// One step of a refutation. The first five split a region, or drop runs from it; the others end it.
#[derive(Drop)]
pub enum Inference {
    /// A region for each choice that a run makes at the name.
    ByChoice(OperationName),
    /// A region for each source of the load, and one where it isn't executed.
    BySource(OperationName),
    /// The first store is the earlier one, or the second is.
    ByOrder {
        first: OperationName,
        second: OperationName,
    },
    /// The cases of the wanted condition of this number.
    ByCases(usize),
    /// Of the hart's runs those that can show what is wanted.
    Filter(u8),
    /// Each link must come before the next one, and the last before the first.
    Cycle(List<Link>),
    /// The load would return from a store that an own store before it overwrites.
    Stale {
        load: OperationName,
        store: OperationName,
    },
    /// The store of a pair would be before what the pair's load returns from.
    Reversed {
        load: OperationName,
        store: OperationName,
    },
    /// A store of another hart would be between the two of a pair.
    Parted {
        load: OperationName,
        store: OperationName,
        other: OperationName,
    },
}
