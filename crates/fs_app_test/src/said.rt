//! What is said of a file.

use fs_cert_evidence::Witness;
use fs_kinds::Fault;

/// What kind of thing is said of a file.
#[derive(Clone, Copy, PartialEq, Eq)]
pub enum Kind {
    /// No execution of its test shows the outcome.
    Forbidden,
    /// Some execution does.
    Allowed,
    /// None does, for a reason that has nothing to do with the memory model.
    Vacuous,
    /// It has a fault.
    Faulty,
}

/// What is said of a file, in words.
#[derive(Drop)]
pub struct Said {
    pub kind: Kind,
    /// Why it is said; of a fault its line.
    pub why: String,
    /// Where the outcome is possible, an execution that shows it.
    pub witness: Option<Witness>,
    /// The fault, where it has one.
    pub fault: Option<Fault>,
}

/// What a test is expected to be.
#[derive(Clone, Copy)]
pub enum Expected {
    /// This is to be said of it: that it is forbidden, allowed or vacuous.
    Verdict(Kind),
    /// Something is expected, and it is none of these.
    Unclear,
}

/// What a message says of the fault of a file.
#[derive(Drop)]
pub struct Note {
    /// The line and the column of the fault, from 1 on, if it has a place.
    pub line: Option<usize>,
    pub column: Option<usize>,
    /// What was expected there, or why the file isn't read.
    pub message: String,
}

/// What is said of the file of this name.
#[derive(Drop)]
pub struct Line {
    pub name: String,
    pub said: Said,
    /// What a message says of its fault, where that is known.
    pub note: Option<Note>,
    /// What its test is expected to be, where that is known.
    pub expected: Option<Expected>,
}
