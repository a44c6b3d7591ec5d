//! The number of a raw candidate.

/// The number of its list of runs, and its number among the raw candidates with these runs.
#[derive(Clone, Copy)]
pub(crate) struct Place {
    pub(crate) runs: u32,
    pub(crate) chosen: u32,
}
