//! Final states, each with an execution that ends in it.

use fs_cert_evidence::Witness;
use fs_kinds::List;

/// A final state of a test: the words at the places that were asked for, in their order, and an execution that ends in
/// it. The list of its widths is empty, since they play no part.
#[derive(Drop)]
pub struct State {
    pub words: List<u32>,
    pub witness: Witness,
}
