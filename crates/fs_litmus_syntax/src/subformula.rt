//! The tree of a subformula of a condition, which is built only where it isn't too deep.

ghost use Rattle.std.specs.Prelude.{◌≡◌, IfOk, option_map};
ghost use Rattle.fs_litmus_syntax.specs.Limited.{Fine, with_denial, in_parentheses, connected};
ghost use Rattle.fs_litmus_syntax.specs.Views.{connective_of, subformula_of, tree_of, shallow};

use crate::condition::Tree;
use fs_kinds::MOST_DEPTH;
use std::alloc::{AllocError, Global};

/// What joins two parts of a condition.
#[derive(Clone, Copy)]
pub enum Connective {
    And,
    Or,
}

impl Connective {
    fn tree<'a>(self, left: Box<Tree<'a>>, right: Box<Tree<'a>>) -> Tree<'a>
        ensures { tree_of result ≡ connective_of self (tree_of left.entry.value) (tree_of right.entry.value) }
    {
        match self {
            Connective::And => Tree::Both(left, right),
            Connective::Or => Tree::Either(left, right),
        }
    }
}

/// A subformula of a condition: too deep already, or with its tree; the greatest number, around an atom, `true` or
/// `false`, of parentheses and denials that are written in it; and that of connectives and denials in the tree.
#[derive(Drop)]
pub enum Subformula<'a> {
    TooDeep,
    Shallow(u8, u8, Box<Tree<'a>>),
}

impl<'a> Subformula<'a> {
    /// An atom, `true` or `false`.
    pub fn leaf(alloc: Global, tree: Tree<'a>) -> Result<Subformula<'a>, AllocError>
        ensures { IfOk result (λ p. subformula_of p ≡ Fine 0 0 (tree_of tree.entry)) }
    {
        Ok(Subformula::Shallow(0, 0, Box::new(alloc, tree)?))
    }

    /// The subformula with a denial before it.
    pub fn denied(self, alloc: Global) -> Result<Subformula<'a>, AllocError>
        ensures { IfOk result (λ p. subformula_of p ≡ with_denial (subformula_of self.entry)) }
    {
        match self {
            Subformula::TooDeep => Ok(Subformula::TooDeep),
            Subformula::Shallow(written, grouped, tree) => {
                if written >= MOST_DEPTH || grouped >= MOST_DEPTH {
                    return Ok(Subformula::TooDeep);
                }
                let tree = Box::new(alloc, Tree::Deny(tree))?;
                Ok(Subformula::Shallow(written + 1, grouped + 1, tree))
            }
        }
    }

    /// The subformula in parentheses.
    pub fn in_parentheses(self) -> Subformula<'a>
        ensures { subformula_of result ≡ in_parentheses (subformula_of self.entry) }
    {
        match self {
            Subformula::TooDeep => Subformula::TooDeep,
            Subformula::Shallow(written, grouped, tree) => {
                if written >= MOST_DEPTH {
                    return Subformula::TooDeep;
                }
                Subformula::Shallow(written + 1, grouped, tree)
            }
        }
    }

    /// The subformula, a connective and another subformula.
    pub fn connected(
        self,
        alloc: Global,
        connective: Connective,
        other: Subformula<'a>,
    ) -> Result<Subformula<'a>, AllocError>
        ensures { IfOk result (λ p. subformula_of p
            ≡ connected (connective_of connective) (subformula_of self.entry) (subformula_of other.entry)) }
    {
        match self {
            Subformula::TooDeep => Ok(Subformula::TooDeep),
            Subformula::Shallow(written, grouped, left) => match other {
                Subformula::TooDeep => Ok(Subformula::TooDeep),
                Subformula::Shallow(other_written, other_grouped, right) => {
                    let written = written.max(other_written);
                    let grouped = grouped.max(other_grouped);
                    if grouped >= MOST_DEPTH {
                        return Ok(Subformula::TooDeep);
                    }
                    let tree = Box::new(alloc, connective.tree(left, right))?;
                    Ok(Subformula::Shallow(written, grouped + 1, tree))
                }
            },
        }
    }

    /// Its tree, where it isn't too deep.
    pub fn into_tree(self) -> Option<Tree<'a>>
        ensures { option_map tree_of result ≡ shallow (subformula_of self.entry) }
    {
        match self {
            Subformula::TooDeep => None,
            Subformula::Shallow(_, _, tree) => Some(Box::into_inner(tree)),
        }
    }
}
