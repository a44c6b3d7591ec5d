//! Where somebody sees how far a search is.

/// It is told how far a search by one worker is. No answer depends on it; a call of it that doesn't return stops the
/// search.
pub trait Watch {
    /// The plan asks for one more verdict.
    fn planned(&mut self);

    /// The search takes one more node. The board has so many, and the cheapest fences posted so far cost this; none
    /// where none are posted yet.
    fn searched(&mut self, nodes: usize, best: Option<u64>);
}

/// Nobody sees it.
#[derive(Clone, Copy)]
pub struct Unwatched;

impl Watch for Unwatched {
    fn planned(&mut self) {}

    fn searched(&mut self, _nodes: usize, _best: Option<u64>) {}
}
