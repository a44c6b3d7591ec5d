//! The condition, in terms of a test's harts, registers and locations.

ghost use Rattle.std.specs.Prelude.{◌≡◌, ◌≤◌, ◌<◌, length, option_map, IfOk, IfSome, Some};
ghost use Rattle.fs_kinds.specs.Limits.{most_harts, most_locations};
ghost use Rattle.fs_litmus_syntax.specs.Views.{tree_of};
ghost use Rattle.fs_model.specs.Condition.{condition_of, SpeaksOf};
ghost use Rattle.fs_litmus.specs.Settings.{setting_of, IsThere};
ghost use Rattle.fs_litmus.specs.Atoms.{atom_at, condition_in};

use crate::names::Names;
use crate::settings::{Holder, setting_of};
use fs_instr::Reg;
use fs_litmus_syntax::Tree;
use fs_model::Outcome;
use std::alloc::{AllocError, Global};

/// The register or location has the word at the end.
fn outcome_at(columns: usize, names: &Names, holder: Holder, word: u32) -> Outcome
    requires harts { columns ≤ most_harts }
    requires locations { length names.now ≤ most_locations }
    requires there { IsThere columns (length names.now) holder }
    ensures value { condition_of result ≡ atom_at holder word }
    ensures there { SpeaksOf columns (length names.now) (condition_of result) }
{
    match holder {
        Holder::Register(hart, register) => Outcome::register_is(
            hart as u8,
            Reg::x(register),
            word,
        ),
        Holder::Location(location) => Outcome::LocationIs {
            location: location as u8,
            word,
        },
    }
}

/// Each of the two in a box.
fn boxed(
    alloc: Global,
    left: Outcome,
    right: Outcome,
) -> Result<(Box<Outcome>, Box<Outcome>), AllocError>
    ensures { IfOk result (λ boxes. (boxes.0.value ≡ left) × (boxes.1.value ≡ right)) }
{
    let left = Box::new(alloc, left)?;
    Ok((left, Box::new(alloc, right)?))
}

/// The condition that a tree is, in a test of harts and locations within the limits; nothing where an atom names what
/// isn't there. Recursion goes as deep as the tree, whose depth is within the limit.
pub fn outcome_of(
    alloc: Global,
    columns: usize,
    names: &Names,
    tree: &Tree,
) -> Result<Option<Outcome>, AllocError>
    requires harts { columns ≤ most_harts }
    requires locations { length names.now ≤ most_locations }
    ensures value { IfOk result (λ o. option_map condition_of o ≡ condition_in columns names.now (tree_of tree.now)) }
    ensures there { IfOk result (λ o. IfSome o (λ x. SpeaksOf columns (length names.now) (condition_of x))) }
{
    match tree {
        Tree::Atom(atom) => match setting_of(columns, names, atom.target, atom.value) {
            Some(setting) => Ok(Some(outcome_at(columns, names, setting.holder, setting.word))),
            None => Ok(None),
        },
        Tree::True => Ok(Some(Outcome::Always)),
        Tree::False => Ok(Some(Outcome::Never)),
        Tree::Deny(inner) => match outcome_of(alloc, columns, names, inner)? {
            Some(outcome) => Ok(Some(Outcome::Deny(Box::new(alloc, outcome)?))),
            None => Ok(None),
        },
        Tree::Both(left, right) => {
            let Some(left) = outcome_of(alloc, columns, names, left)? else {
                return Ok(None);
            };
            let Some(right) = outcome_of(alloc, columns, names, right)? else {
                return Ok(None);
            };
            let (left, right) = boxed(alloc, left, right)?;
            Ok(Some(Outcome::Both(left, right)))
        }
        Tree::Either(left, right) => {
            let Some(left) = outcome_of(alloc, columns, names, left)? else {
                return Ok(None);
            };
            let Some(right) = outcome_of(alloc, columns, names, right)? else {
                return Ok(None);
            };
            let (left, right) = boxed(alloc, left, right)?;
            Ok(Some(Outcome::Either(left, right)))
        }
    }
}
