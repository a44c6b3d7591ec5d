//! Answers, as values.

use fs_cert_evidence::Witness;
use fs_kinds::Placement;

/// The answer to a question.
#[derive(Drop)]
pub enum Answer {
    /// The cheapest placement that forbids each test's outcome, of several the first, and what it costs.
    Fenced { placement: Placement, cost: u64 },
    /// No placement does: the witness shows the outcome of the test of this number even with `rw,rw` at each site. Its
    /// widths are those at the test's places.
    None { part: usize, witness: Witness },
}
