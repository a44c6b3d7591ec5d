//! Conditions that single out a part of the states.

ghost use Rattle.std.specs.Prelude.{◌≡◌, ◌<◌, ◌≤◌, ◌+◌, ◌^◌, ◌==◌, ℕ, All, length, map, IfOk};
ghost use Rattle.fs_model.specs.Condition.{Both, condition_of, nesting, SpeaksOf};
ghost use Rattle.fs_model.specs.Shows.{holds};
ghost use Rattle.fs_judge_outcomes.specs.States.{word_of, IsPlaceOf};
ghost use Rattle.fs_judge_outcomes.specs.inner.Parts.{as_wanted, is_so, is_in, IsPartOf};

use crate::part::Atom;
use crate::place::Place;
use fs_model::Outcome;
use std::alloc::{AllocError, Global};

/// The greatest depth of a tree of atoms, which would be 2^60 of them: more than memory has.
const MOST_DEPTH: u32 = 60;

/// The place ends with the word.
fn ends_with(place: Place, word: u32) -> Outcome
    ensures holds { (r : ℕ → ℕ → ℕ) (w : ℕ → ℕ) → holds r w (condition_of result) ≡ (word_of r w place == word) }
    ensures flat { nesting (condition_of result) ≡ 0 }
    ensures speaks { (harts locations : ℕ) → IsPlaceOf harts locations place
        → SpeaksOf harts locations (condition_of result) }
{
    match place {
        Place::Register { hart, reg } => Outcome::register_is(hart, reg, word),
        Place::Location(location) => Outcome::LocationIs { location, word },
    }
}

/// The place ends with the word, or with another one.
fn atom_condition(
    alloc: Global,
    place: Place,
    word: u32,
    wanted: bool,
) -> Result<Outcome, AllocError>
    ensures holds { IfOk result (λ made. (r : ℕ → ℕ → ℕ) (w : ℕ → ℕ)
        → holds r w (condition_of made) ≡ as_wanted wanted (word_of r w place == word)) }
    ensures flat { IfOk result (λ made. nesting (condition_of made) ≤ 1) }
    ensures speaks { IfOk result (λ made. (harts locations : ℕ) → IsPlaceOf harts locations place
        → SpeaksOf harts locations (condition_of made)) }
{
    let condition = ends_with(place, word);
    if wanted {
        Ok(condition)
    } else {
        Ok(Outcome::Deny(Box::new(alloc, condition)?))
    }
}

/// The atom is true.
fn one_of(alloc: Global, places: &[Place], atom: &Atom) -> Result<Outcome, AllocError>
    requires { atom.now.index < length places.now }
    ensures holds { IfOk result (λ made. (r : ℕ → ℕ → ℕ) (w : ℕ → ℕ)
        → holds r w (condition_of made) ≡ is_so (map (word_of r w) places.now) atom.now) }
    ensures flat { IfOk result (λ made. nesting (condition_of made) ≤ 1) }
    ensures speaks { IfOk result (λ made. (harts locations : ℕ) → All (IsPlaceOf harts locations) places.now
        → SpeaksOf harts locations (condition_of made)) }
{
    atom_condition(alloc, places[atom.index], atom.word, atom.is)
}

/// Both conditions.
fn both(alloc: Global, left: Outcome, right: Outcome) -> Result<Outcome, AllocError>
    ensures { IfOk result (λ made. condition_of made ≡ Both (condition_of left) (condition_of right)) }
{
    let left = Box::new(alloc, left)?;
    let right = Box::new(alloc, right)?;
    Ok(Outcome::Both(left, right))
}

/// All atoms are true, as a tree of this depth at most above the atoms.
fn all_of(
    alloc: Global,
    places: &[Place],
    atoms: &[Atom],
    depth: u32,
) -> Result<Outcome, AllocError>
    requires few { length atoms.now ≤ 2 ^ depth }
    requires places { IsPartOf (length places.now) atoms.now }
    ensures holds { IfOk result (λ made. (r : ℕ → ℕ → ℕ) (w : ℕ → ℕ)
        → holds r w (condition_of made) ≡ is_in atoms.now (map (word_of r w) places.now)) }
    ensures depth { IfOk result (λ made. nesting (condition_of made) ≤ depth + 1) }
    ensures speaks { IfOk result (λ made. (harts locations : ℕ) → All (IsPlaceOf harts locations) places.now
        → SpeaksOf harts locations (condition_of made)) }
{
    match atoms {
        [] => Ok(Outcome::Always),
        [atom] => one_of(alloc, places, atom),
        _ => {
            let middle = atoms.len() / 2;
            let left = all_of(alloc, places, &atoms[..middle], depth - 1)?;
            let right = all_of(alloc, places, &atoms[middle..], depth - 1)?;
            both(alloc, left, right)
        }
    }
}

/// The condition that a state is in the part. Linear in the atoms.
pub(crate) fn condition(
    alloc: Global,
    places: &[Place],
    part: &[Atom],
) -> Result<Outcome, AllocError>
    requires places { IsPartOf (length places.now) part.now }
    ensures holds { IfOk result (λ made. (r : ℕ → ℕ → ℕ) (w : ℕ → ℕ)
        → holds r w (condition_of made) ≡ is_in part.now (map (word_of r w) places.now)) }
    ensures depth { IfOk result (λ made. nesting (condition_of made) ≤ 64) }
    ensures speaks { IfOk result (λ made. (harts locations : ℕ) → All (IsPlaceOf harts locations) places.now
        → SpeaksOf harts locations (condition_of made)) }
{
    all_of(alloc, places, part, MOST_DEPTH)
}
