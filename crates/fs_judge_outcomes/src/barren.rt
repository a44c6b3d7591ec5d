//! Parts without states, from which it follows that other parts have none either.

ghost use Rattle.std.specs.Prelude.{◌≡◌, true, ℕ, List};
ghost use Rattle.std.specs.List.{list_any};
ghost use Rattle.fs_judge_outcomes.specs.inner.Parts.{is_in, is_same_atom, is_within, IsLeft};

use crate::part::{Atom, Part, as_wanted};

fn is_same_atom(one: &Atom, other: &Atom) -> bool
    ensures { result ≡ is_same_atom one.now other.now }
{
    one.index == other.index && one.word == other.word && as_wanted(one.is, other.is)
}

fn has(part: &[Atom], atom: &Atom) -> bool
    ensures { result ≡ list_any (is_same_atom atom.now) part.now }
{
    part.iter().any(|other| is_same_atom(atom, other))
}

/// Does the part say all that the wider one says?
fn is_within(part: &[Atom], wider: &[Atom]) -> bool
    ensures { result ≡ is_within part.now wider.now }
{
    wider.iter().all(|atom| has(part, atom))
}

/// Does it speak of the place first?
fn begins_at(index: usize, part: &[Atom]) -> bool {
    match part.first() {
        Some(atom) => atom.index == index,
        None => true,
    }
}

/// Does it follow that the part has no states, since one of these has none that is about its last place?
pub(crate) fn is_barren(barren: &[Part], part: &[Atom]) -> bool
    ensures { result ≡ true → (s : List ℕ) → is_in part.now s ≡ true → IsLeft barren.now s }
{
    let Some(last) = part.last() else {
        return false;
    };
    for wider in barren {
        if begins_at(last.index, wider.as_slice()) && is_within(part, wider.as_slice()) {
            return true;
        }
    }
    false
}
