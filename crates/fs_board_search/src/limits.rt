//! How much a search may do.

/// How much a search may do before it ends with a fault.
#[derive(Clone, Copy)]
pub struct Limits {
    /// How many nodes the board may have below its root: from 1 to 1,000,000. Past them comes F16.
    pub nodes: usize,
    /// How many inferences each hunt may make before it gives up, and all candidates are judged in turn; F15 comes where
    /// they are too many.
    pub inferences: usize,
}
