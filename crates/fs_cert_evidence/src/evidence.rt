//! What shows that a placement allows the outcome, or that it forbids it.

use crate::ChoiceLists;
use crate::inference::Inference;
use fs_kinds::{List, OperationName, Placement};
use std::marker::Model;

/// A set of pairs of classes of operations, as one that an execution's order keeps at a slot.
#[derive(Clone, Copy, PartialEq, Eq)]
pub struct Pairs {
    pub read_read: bool,
    pub read_write: bool,
    pub write_read: bool,
    pub write_write: bool,
}

/// An execution by the choices of each hart and the names of the operations in their order, with the pairs that its
/// order keeps at each slot of the test.
#[derive(Drop)]
pub struct Witness {
    pub choices: ChoiceLists,
    pub order: List<OperationName>,
    pub widths: List<Pairs>,
}

impl Model for Witness {
    ghost use Rattle.fs_cert_evidence.specs.Evidence.{Shown};

    ghost Value = { Shown };

    ghost view = { λ w. record { witness = record { choices = w.choices; order = w.order }; widths = w.widths } };
}

/// Why an operation of a cycle comes before the next one: by a rule of preserved program order, or since the next one
/// reads from it (rfe), comes later in coherence order (co), or overwrites what it read (fr).
#[derive(Clone, Copy, PartialEq, Eq)]
pub enum Cause {
    Rule1,
    Rule2,
    Rule3,
    Rule4,
    Rule5,
    Rule6,
    Rule7,
    Rule8,
    Rule9,
    Rule10,
    Rule11,
    Rule12,
    Rule13,
    ReadsFrom,
    Coherence,
    FromReads,
}

/// One step of a cycle: an operation, and why it comes before the next one.
#[derive(Drop)]
pub struct Link {
    pub operation: OperationName,
    pub cause: Cause,
}

impl Model for Link {
    ghost use Rattle.fs_cert_evidence.specs.Certificate.{Link as LinkValue};
    ghost use Rattle.fs_cert_evidence.specs.Evidence.{cause_of};

    ghost Value = { LinkValue };

    ghost view = { λ link. record { operation = link.operation; cause = cause_of link.cause } };
}

/// What shows that a placement forbids the outcome.
#[derive(Drop)]
pub enum Cycles {
    /// A cycle for each showing candidate execution, in their order.
    Listed(List<List<Link>>),
    /// The steps of a refutation.
    Inferred(List<Inference>),
}

/// A placement that forbids the outcome, with what shows it.
#[derive(Drop)]
pub struct Forbidden {
    pub placement: Placement,
    pub cycles: Cycles,
}

impl Model for Forbidden {
    ghost use Rattle.fs_cert_evidence.specs.Evidence.{Refuted};
    ghost use Rattle.fs_cert_evidence.specs.Inferences.{cycles_of};

    ghost Value = { Refuted };

    ghost view = { λ f. record { placement = f.placement; cycles = cycles_of f.cycles } };
}
