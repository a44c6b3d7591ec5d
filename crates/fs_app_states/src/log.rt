//! Logs as they are read.

use fs_kinds::List;

/// What a state says of one place: both as they are written.
#[derive(Clone, Copy)]
pub struct Item<'a> {
    /// A register, such as `0:x7`, or a location, such as `x` or `[x]`.
    pub place: &'a str,
    /// A number, or the name of a location.
    pub value: &'a str,
}

/// A state that was seen.
#[derive(Drop)]
pub struct Seen<'a> {
    /// Its line in the log, from 1 on.
    pub line: usize,
    /// How often it was seen, where the log says so.
    pub times: Option<u64>,
    pub items: List<Item<'a>>,
}

/// What a log says of one run of a test.
#[derive(Drop)]
pub struct Block<'a> {
    /// The name of the test.
    pub name: &'a str,
    pub states: List<Seen<'a>>,
}

/// A log: its blocks, in their order.
pub type Log<'a> = List<Block<'a>>;
