//! Where tests look on, and hold a worker up.

use fs_board_search::Watch;

/// It says how a search begins. It is told how far the first worker is, as long as that is alone; then when a worker
/// calls the desk, but for `leave`, and when it judges: by several threads at once; and once, when all have stopped,
/// what they left. A call of it that doesn't return stops the search.
pub trait Gate {
    /// How many nodes the first worker is done with at most before the others join. Where they may help they join
    /// before; where it is none, all begin together.
    fn nodes_alone(&self) -> usize;

    /// The first worker is alone, and its plan asks for one more verdict.
    fn planned(&self);

    /// The first worker is alone, and takes one more node. The board has so many, and the cheapest fences posted so far
    /// cost this; none where none are posted yet.
    fn searched(&self, nodes: usize, best: Option<u64>);

    /// The worker will call the desk.
    fn before(&self, worker: u8);

    /// The worker will judge a placement of the node. It has no lock.
    fn judging(&self, worker: u8, node: usize);

    /// The worker has called the desk.
    fn after(&self, worker: u8);

    /// No worker is at the board: it is handed out with so many entries in its log, none where they didn't begin. Or it
    /// is given up, since its log and what they saw of it don't agree. Where the others haven't joined it isn't told.
    fn ended(&self, logged: Option<usize>);
}

/// So many nodes are many: they take some 20 ms, and threads a fraction of one to begin.
const MANY_NODES: usize = 1_000;

/// A gate that holds nobody up. The others join when the first worker is done with 1,000 nodes.
#[derive(Clone, Copy)]
pub struct Open;

impl Gate for Open {
    fn nodes_alone(&self) -> usize {
        MANY_NODES
    }

    fn planned(&self) {}

    fn searched(&self, _nodes: usize, _best: Option<u64>) {}

    fn before(&self, _worker: u8) {}

    fn judging(&self, _worker: u8, _node: usize) {}

    fn after(&self, _worker: u8) {}

    fn ended(&self, _logged: Option<usize>) {}
}

/// Tells a gate what the first worker tells as long as it is alone.
#[derive(Clone, Copy)]
pub(crate) struct Alone<'a, G> {
    pub(crate) gate: &'a G,
}

impl<G: Gate> Watch for Alone<'_, G> {
    fn planned(&mut self) {
        self.gate.planned();
    }

    fn searched(&mut self, nodes: usize, best: Option<u64>) {
        self.gate.searched(nodes, best);
    }
}
