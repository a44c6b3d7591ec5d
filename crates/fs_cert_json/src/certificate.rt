//! What a certificate is made of.

use fs_cert_evidence::{Cause, Inference, WitnessFile};
use fs_kinds::{List, OperationName};

/// What a certificate claims: in the first version that no cheaper placement forbids the outcome, in the others that
/// the answer is the first of the cheapest. The fourth has a refutation in place of a list of cycles.
#[derive(Clone, Copy, PartialEq, Eq)]
pub enum Version {
    First,
    Second,
    Fourth,
}

/// The answer that a certificate is for.
#[derive(Drop)]
pub enum CertifiedAnswer {
    /// A placement: what it costs, and the words of its fences, as `P0:3=w,w`.
    Fenced { cost: u64, fences: List<String> },
    /// No placement forbids the outcome.
    NoneForbids,
}

/// An item of a certificate's tree, in preorder. Slots and witnesses count from 0.
#[derive(Drop)]
pub enum Item {
    /// A node that splits at the slot of this number.
    SplitAt(u64),
    /// A leaf that costs too much.
    Costly,
    /// A leaf that the witness of this number refutes.
    Refuted(u64),
    /// A leaf that the witnesses of these numbers bound.
    Bounded(List<u64>),
}

/// One step of a cycle: an operation, and why it comes before the next one. There is no operation where a number of its
/// name passes 255, since no operation has such a name.
#[derive(Drop)]
pub struct CertificateLink {
    pub operation: Option<OperationName>,
    pub cause: Cause,
}

/// What is to show that the answer forbids the outcome.
#[derive(Drop)]
pub enum CertifiedCycles {
    /// A cycle for each candidate execution that shows the outcome, in their order.
    Listed(List<List<CertificateLink>>),
    /// The steps of a refutation.
    Inferred(List<Inference>),
}

/// What a certificate file says.
#[derive(Drop)]
pub struct Certificate {
    pub version: Version,
    pub answer: CertifiedAnswer,
    pub cycles: CertifiedCycles,
    /// The items of the tree, in preorder.
    pub tree: List<Item>,
    /// The executions that leaves name.
    pub witnesses: List<WitnessFile>,
}
