//! Why a witness or a certificate is refused.
use std::fmt;

/// The operation of instruction number `at` of a hart, with instructions counted from 0 in the test
/// without placed fences.
#[derive(Clone, Copy, PartialEq, Eq, PartialOrd, Ord)]
pub struct OperationName {
    pub hart: u8,
    pub at: u8,
}

/// What is wrong with a witness or a certificate that is of its form. The first seven speak of an
/// execution, the others of a certificate, whose cycles, tree items and witnesses count from 0.
#[derive(Clone, Copy, PartialEq, Eq)]
pub enum Reason {
    /// The hart's choices don't fit its run.
    Choices {
        hart: u8,
    },
    /// The run accesses an address that is no location.
    Astray {
        hart: u8,
        at: u8,
    },
    /// The order doesn't have each operation once and nothing else.
    Order,
    /// The load's word isn't the word of its source.
    Load {
        load: OperationName,
    },
    /// The order has the operations the other way round than the preserved program order of this
    /// rule, from 1 to 13.
    Rule {
        rule: u8,
        first: OperationName,
        second: OperationName,
    },
    /// Another hart's store comes between the paired operations' source and store, or the source isn't
    /// before the store: then a rule is broken too, which is an earlier reason.
    Atomic {
        load: OperationName,
        store: OperationName,
    },
    /// The outcome isn't shown.
    Outcome,
    /// The answer isn't of the test and the prices.
    Answer,
    /// There isn't one cycle for each candidate execution, or the inferences of a refutation aren't one whole tree.
    Cycles,
    /// The cycle of this number isn't one, or the inference doesn't follow.
    Cycle {
        index: usize,
    },
    /// The items aren't one whole tree.
    Tree,
    /// The leaf at this place of the tree is better than the answer.
    Node {
        index: usize,
    },
    /// The witness of this number isn't there, or shows nothing against its leaf.
    Witness {
        index: u64,
    },
}

/// The operation's name, as `P0:3`.
impl fmt::Display for OperationName {
    ghost use Rattle.std.specs.Prelude.{Some};
    ghost use Rattle.fs_kinds.specs.ReasonText.{operation_name};

    ghost output = { λ o. Some (operation_name o) };

    fn fmt<W: fmt::Write>(&self, f: &mut fmt::Formatter<W>) -> fmt::Result {
        write!(f, "P{}:{}", self.hart, self.at)
    }
}

/// The reason in words, as the program prints it after `no: `: `rule 4 P0:1 P0:2`, `cycle 3`.
impl fmt::Display for Reason {
    ghost use Rattle.std.specs.Prelude.{Some};
    ghost use Rattle.fs_kinds.specs.ReasonText.{reason_text};

    ghost output = { λ reason. Some (reason_text reason) };

    fn fmt<W: fmt::Write>(&self, f: &mut fmt::Formatter<W>) -> fmt::Result {
        match self {
            Reason::Choices { hart } => write!(f, "choices P{hart}"),
            Reason::Astray { hart, at } => write!(f, "astray P{hart}:{at}"),
            Reason::Order => f.write_str("order"),
            Reason::Load { load } => write!(f, "load {load}"),
            Reason::Rule {
                rule,
                first,
                second,
            } => write!(f, "rule {rule} {first} {second}"),
            Reason::Atomic { load, store } => write!(f, "atomic {load} {store}"),
            Reason::Outcome => f.write_str("outcome"),
            Reason::Answer => f.write_str("answer"),
            Reason::Cycles => f.write_str("cycles"),
            Reason::Cycle { index } => write!(f, "cycle {index}"),
            Reason::Tree => f.write_str("tree"),
            Reason::Node { index } => write!(f, "node {index}"),
            Reason::Witness { index } => write!(f, "witness {index}"),
        }
    }
}
