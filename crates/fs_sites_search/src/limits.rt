//! How much a search over sites may do.

/// So many workers, rounds, and steps of a plan there may be, and inferences of each hunt.
#[derive(Clone, Copy)]
pub struct Limits {
    pub workers: u8,
    pub rounds: usize,
    pub steps: usize,
    pub inferences: usize,
}
