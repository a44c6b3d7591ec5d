//! What a condition is.

use fs_litmus_tokens::{Target, Value};

/// An atom of a condition: a register or a location has a value, as written.
#[derive(Clone, Copy)]
pub struct Atom<'a> {
    pub target: Target<'a>,
    pub value: Value<'a>,
}

/// A condition as it is grouped. `/\` binds tighter than `\/`, and `~` and `not` tighter than both; each connective
/// associates to the left. `=>`, which binds least, is a denial and `\/`.
#[derive(Drop)]
pub enum Tree<'a> {
    Atom(Atom<'a>),
    True,
    False,
    Deny(Box<Tree<'a>>),
    Both(Box<Tree<'a>>, Box<Tree<'a>>),
    Either(Box<Tree<'a>>, Box<Tree<'a>>),
}

/// A condition: its atoms in order of appearance, and its tree, which isn't there where the condition is deeper than
/// `MOST_DEPTH`.
#[derive(Drop)]
pub struct Condition<'a> {
    pub atoms: Vec<Atom<'a>>,
    pub tree: Option<Tree<'a>>,
}
