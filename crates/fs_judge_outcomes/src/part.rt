//! Parts of the states of a test: those that have some words at some places, and don't have others at others.

ghost use Rattle.std.specs.Prelude.{◌≡◌, ◌++◌, ◌∷◌, [], true, false, filter, not, ◌==◌, slice_get, IfOk, Some};
ghost use Rattle.std.specs.List.{list_any};
ghost use Rattle.fs_model.specs.Numbers.{is_same};
ghost use Rattle.fs_judge_outcomes.specs.inner.Parts.{as_wanted, is_at, is_fixing, is_in, is_open_at, is_so};

use fs_kinds::List;
use std::alloc::{AllocError, Global};

/// Whether the place of this number has the word, or another one.
#[derive(Clone, Copy)]
pub(crate) struct Atom {
    pub(crate) index: usize,
    pub(crate) word: u32,
    pub(crate) is: bool,
}

/// The states of which all these are true.
pub(crate) type Part = List<Atom>;

/// The truth value, turned round where it isn't wanted.
pub(crate) fn as_wanted(wanted: bool, found: bool) -> bool
    ensures { result ≡ as_wanted wanted found }
{
    if wanted { found } else { !found }
}

/// Does the atom say which word the place has?
fn is_fixing(index: usize, atom: &Atom) -> bool
    ensures { result ≡ is_fixing index atom.now }
{
    atom.is && atom.index == index
}

/// Does some atom of the part say so?
fn is_fixed_at(part: &[Atom], index: usize) -> bool
    ensures { result ≡ list_any (is_fixing index) part.now }
{
    part.iter().any(|atom| is_fixing(index, atom))
}

/// Does no atom of the part say so?
pub(crate) fn is_open_at(part: &[Atom], index: usize) -> bool
    ensures { result ≡ is_open_at part.now index }
{
    !is_fixed_at(part, index)
}

fn is_elsewhere(index: usize, atom: &Atom) -> bool
    ensures { result ≡ not (atom.now.index == index) }
{
    atom.index != index
}

/// The part's states that have the word at the place: what else is said of the place needn't be said then.
pub(crate) fn with_word(
    alloc: Global,
    part: &[Atom],
    index: usize,
    word: u32,
) -> Result<Part, AllocError>
    ensures { IfOk result (λ made. made ≡ filter (λ atom. not (atom.index == index)) part.now
        ++ (record { index = index; word = word; is = true }) ∷ []) }
{
    let mut atoms: Vec<Atom> = part
        .iter()
        .copied()
        .filter(|atom| is_elsewhere(index, atom))
        .collect(alloc)?;
    atoms.push(Atom {
        index,
        word,
        is: true,
    })?;
    Ok(List::new(atoms))
}

/// The part's states that have another word at the place.
pub(crate) fn without_word(
    alloc: Global,
    part: &[Atom],
    index: usize,
    word: u32,
) -> Result<Part, AllocError>
    ensures { IfOk result (λ made. made ≡ part.now ++ (record { index = index; word = word; is = false }) ∷ []) }
{
    let mut atoms = Vec::from_slice(alloc, part)?;
    atoms.push(Atom {
        index,
        word,
        is: false,
    })?;
    Ok(List::new(atoms))
}

fn is_at(index: usize, atom: &Atom) -> bool
    ensures { result ≡ is_at index atom.now }
{
    atom.index == index
}

/// What the part says of this place alone.
pub(crate) fn said_at(alloc: Global, part: &[Atom], index: usize) -> Result<Part, AllocError>
    ensures { IfOk result (λ made. made ≡ filter (is_at index) part.now) }
{
    let atoms: Vec<Atom> = part
        .iter()
        .copied()
        .filter(|atom| is_at(index, atom))
        .collect(alloc)?;
    Ok(List::new(atoms))
}

/// Does it have the word there?
fn has_word(words: &[u32], index: usize, word: u32) -> bool
    ensures { result ≡ is_same (slice_get words.now index) (Some word) }
{
    match words.get(index) {
        Some(found) => *found == word,
        None => false,
    }
}

/// Is the atom true of the state?
fn is_so(words: &[u32], atom: &Atom) -> bool
    ensures { result ≡ is_so words.now atom.now }
{
    as_wanted(atom.is, has_word(words, atom.index, atom.word))
}

/// Is the state in the part?
pub(crate) fn is_in(part: &[Atom], words: &[u32]) -> bool
    ensures { result ≡ is_in part.now words.now }
{
    part.iter().all(|atom| is_so(words, atom))
}
