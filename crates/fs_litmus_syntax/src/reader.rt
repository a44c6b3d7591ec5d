//! Reads a condition once, from left to right.

ghost use Rattle.std.specs.Prelude.{◌≡◌, ◌<◌, ◌+◌, ◌∷◌, ◌++◌, [], Some, None, IfOk, IfErr, OnOk, map, option_map};
ghost use Rattle.fs_litmus_tokens.specs.Tokens.{kind_of, views};
ghost use Rattle.fs_litmus_syntax.specs.Grammar.{Syntax, IsCondition};
ghost use Rattle.fs_litmus_syntax.specs.Answer.{Means, StopsAt};
ghost use Rattle.fs_litmus_tokens.specs.Values.{target_of, value_of};
ghost use Rattle.fs_litmus_syntax.specs.Machine.{next_begin, next_after, found_unit, closed, completed};
ghost use Rattle.fs_litmus_syntax.specs.Machine.{word_begun, mark_begun, named_or, compared_by, with_denial, implied};
ghost use Rattle.fs_litmus_syntax.specs.Machine.{word_place, placed_or, placed, is_greater, with_premise, said, Begin};
ghost use Rattle.fs_litmus_syntax.specs.Machine.{finished, next_atom, at, atoms_at, put_off, place_after, whole_of};
ghost use Rattle.fs_litmus_syntax.specs.Machine.{next, end_at, end_of, read, start, empty};
ghost use Rattle.fs_litmus_tokens.specs.Values.{Location};
ghost use Rattle.fs_litmus_syntax.specs.Limited.{limited};
ghost use Rattle.fs_litmus_syntax.specs.Views.{subformula_of, atom_of, atom_place_of, layer_of, below_of};
ghost use Rattle.fs_litmus_syntax.specs.Views.{place_of, reader_of, Gives};

use crate::atom::{AtomPlace, AtomStep, compared_by};
use crate::condition::{Atom, Condition, Tree};
use crate::layer::Layer;
use crate::subformula::Subformula;
use fs_litmus_tokens::{Class, Kind, Mark, Stop, Target, Token};
use std::alloc::{AllocError, Global};

/// What was read last. After one of the words `not`, `true` and `false` the next token, or the one behind `=`, decides
/// whether it names a location.
#[derive(Drop)]
enum Place<'a> {
    Begin,
    AfterNot(&'a str),
    /// One of the words `true` and `false`.
    AfterWord(bool, &'a str),
    /// The word, and `=`.
    AfterWordEquals(bool, &'a str),
    InAtom(AtomPlace<'a>),
    AfterUnit(Subformula<'a>),
    /// `=` behind a unit.
    Implying(Subformula<'a>),
    /// The semicolon behind this whole.
    Whole(Subformula<'a>),
}

/// What is read so far of a condition, but for its atoms: the layers of the parentheses that are open, the innermost
/// apart.
#[derive(Drop)]
struct Reader<'a> {
    place: Place<'a>,
    layer: Layer<'a>,
    below: Vec<Layer<'a>>,
}

/// What the first word of a unit, or the bracket of an atom, begins.
fn begin_word<'a>(kind: Kind<'a>) -> Option<Place<'a>>
    ensures { option_map place_of result ≡ word_begun (kind_of kind.entry) }
{
    match kind {
        Kind::Word(Class::Number, word) => Some(Place::InAtom(AtomPlace::AfterHart(word))),
        Kind::Word(Class::NotWord, word) => Some(Place::AfterNot(word)),
        Kind::Word(Class::TrueWord, word) => Some(Place::AfterWord(true, word)),
        Kind::Word(Class::FalseWord, word) => Some(Place::AfterWord(false, word)),
        Kind::Word(Class::Other, _) => None,
        Kind::Word(_, word) => {
            let target = Target::Location(word);
            Some(Place::InAtom(AtomPlace::AfterTarget(target)))
        }
        Kind::Sign(Mark::OpenBracket) => Some(Place::InAtom(AtomPlace::AfterBracket)),
        _ => None,
    }
}

/// An opening parenthesis before a unit.
fn begin_parenthesis<'a>(
    layer: Layer<'a>,
    mut below: Vec<Layer<'a>>,
) -> Result<Option<Reader<'a>>, AllocError>
    ensures { IfOk result (λ r. option_map reader_of r
        ≡ Some (at Begin empty (layer_of layer.entry ∷ below_of below.entry.items []))) }
{
    below.push(layer)?;
    Ok(Some(Reader {
        place: Place::Begin,
        layer: Layer::new(),
        below,
    }))
}

/// A denial, or an opening parenthesis, before a unit.
fn begin_mark<'a>(
    layer: Layer<'a>,
    below: Vec<Layer<'a>>,
    kind: Kind<'a>,
) -> Result<Option<Reader<'a>>, AllocError>
    requires { layer.denials < usize.MAX }
    ensures { IfOk result (λ r. option_map reader_of r
        ≡ mark_begun (layer_of layer.entry) (below_of below.entry.items []) (kind_of kind.entry)) }
{
    match kind {
        Kind::Sign(Mark::Tilde) => Ok(Some(Reader {
            place: Place::Begin,
            layer: layer.with_denial(),
            below,
        })),
        Kind::Sign(Mark::OpenParen) => begin_parenthesis(layer, below),
        _ => Ok(None),
    }
}

/// Before a unit.
fn begin<'a>(
    layer: Layer<'a>,
    below: Vec<Layer<'a>>,
    kind: Kind<'a>,
) -> Result<Option<Reader<'a>>, AllocError>
    requires { layer.denials < usize.MAX }
    ensures { IfOk result (λ r. option_map reader_of r
        ≡ next_begin (layer_of layer.entry) (below_of below.entry.items []) (kind_of kind.entry)) }
{
    match begin_word(kind) {
        Some(place) => Ok(Some(Reader {
            place,
            layer,
            below,
        })),
        None => begin_mark(layer, below, kind),
    }
}

/// After the word `not`.
fn after_not<'a>(
    word: &'a str,
    layer: Layer<'a>,
    below: Vec<Layer<'a>>,
    kind: Kind<'a>,
) -> Result<Option<Reader<'a>>, AllocError>
    requires { layer.denials + 1 < usize.MAX }
    ensures { IfOk result (λ r. option_map reader_of r
        ≡ named_or (compared_by (Location word.entry.now) (kind_of kind.entry)) (layer_of layer.entry)
        (below_of below.entry.items []) (next_begin (with_denial (layer_of layer.entry)) (below_of below.entry.items [])
        (kind_of kind.entry))) }
{
    match compared_by(Target::Location(word), kind) {
        Some(place) => Ok(Some(Reader {
            place: Place::InAtom(place),
            layer,
            below,
        })),
        None => begin(layer.with_denial(), below, kind),
    }
}

/// A closing parenthesis after a unit.
fn close<'a>(
    alloc: Global,
    unit: Subformula<'a>,
    layer: Layer<'a>,
    mut below: Vec<Layer<'a>>,
) -> Result<Option<Reader<'a>>, AllocError>
    ensures { IfOk result (λ r. option_map reader_of r
        ≡ closed limited (layer_of layer.entry) (below_of below.entry.items []) (subformula_of unit.entry)) }
{
    match below.pop() {
        None => Ok(None),
        Some(outer) => {
            let subformula = layer.total(alloc, unit)?;
            Ok(Some(Reader {
                place: Place::AfterUnit(subformula.in_parentheses()),
                layer: outer,
                below,
            }))
        }
    }
}

/// A semicolon behind the whole.
fn complete<'a>(
    alloc: Global,
    unit: Subformula<'a>,
    layer: Layer<'a>,
    below: Vec<Layer<'a>>,
) -> Result<Option<Reader<'a>>, AllocError>
    ensures { IfOk result (λ r. option_map reader_of r
        ≡ completed limited (layer_of layer.entry) (below_of below.entry.items []) (subformula_of unit.entry)) }
{
    if !below.is_empty() {
        return Ok(None);
    }
    let whole = layer.total(alloc, unit)?;
    Ok(Some(Reader {
        place: Place::Whole(whole),
        layer: Layer::new(),
        below,
    }))
}

/// After a unit.
fn after<'a>(
    alloc: Global,
    unit: Subformula<'a>,
    layer: Layer<'a>,
    below: Vec<Layer<'a>>,
    kind: Kind<'a>,
) -> Result<Option<Reader<'a>>, AllocError>
    ensures { IfOk result (λ r. option_map reader_of r
        ≡ next_after limited (subformula_of unit.entry) (layer_of layer.entry) (below_of below.entry.items []) (kind_of
        kind.entry)) }
{
    match kind {
        Kind::Sign(Mark::And) => {
            let layer = layer.with_unit(alloc, unit)?;
            Ok(Some(Reader {
                place: Place::Begin,
                layer,
                below,
            }))
        }
        Kind::Sign(Mark::Or) => {
            let layer = layer.with_conjunction(alloc, unit)?;
            Ok(Some(Reader {
                place: Place::Begin,
                layer,
                below,
            }))
        }
        Kind::Sign(Mark::Equals) => Ok(Some(Reader {
            place: Place::Implying(unit),
            layer,
            below,
        })),
        Kind::Sign(Mark::CloseParen) => close(alloc, unit, layer, below),
        Kind::Sign(Mark::Semicolon) => complete(alloc, unit, layer, below),
        _ => Ok(None),
    }
}

/// Is it the `>` of `=>`?
fn is_greater(kind: Kind<'_>) -> bool
    ensures { result ≡ is_greater (kind_of kind.entry) }
{
    matches!(kind, Kind::Sign(Mark::Greater))
}

/// A unit, and then `=>`.
fn imply<'a>(
    alloc: Global,
    unit: Subformula<'a>,
    layer: Layer<'a>,
    below: Vec<Layer<'a>>,
) -> Result<Option<Reader<'a>>, AllocError>
    ensures { IfOk result (λ r. option_map reader_of r
        ≡ Some (at Begin (with_premise limited (layer_of layer.entry) (subformula_of unit.entry))
        (below_of below.entry.items []))) }
{
    let layer = layer.with_premise(alloc, unit)?;
    Ok(Some(Reader {
        place: Place::Begin,
        layer,
        below,
    }))
}

/// After a unit and `=`.
fn after_equals<'a>(
    alloc: Global,
    unit: Subformula<'a>,
    layer: Layer<'a>,
    below: Vec<Layer<'a>>,
    kind: Kind<'a>,
) -> Result<Option<Reader<'a>>, AllocError>
    ensures { IfOk result (λ r. option_map reader_of r
        ≡ implied limited (subformula_of unit.entry) (layer_of layer.entry) (below_of below.entry.items [])
        (kind_of kind.entry) None) }
{
    if is_greater(kind) {
        imply(alloc, unit, layer, below)
    } else {
        Ok(None)
    }
}

/// What the word `true` or `false` says.
fn said<'a>(alloc: Global, says: bool) -> Result<Subformula<'a>, AllocError>
    ensures { IfOk result (λ p. subformula_of p ≡ said limited says) }
{
    if says {
        Subformula::leaf(alloc, Tree::True)
    } else {
        Subformula::leaf(alloc, Tree::False)
    }
}

/// The word `true` or `false`, and then `=>`.
fn imply_word<'a>(
    alloc: Global,
    says: bool,
    layer: Layer<'a>,
    below: Vec<Layer<'a>>,
) -> Result<Option<Reader<'a>>, AllocError>
    ensures { IfOk result (λ r. option_map reader_of r
        ≡ Some (at Begin (with_premise limited (layer_of layer.entry) (said limited says))
        (below_of below.entry.items []))) }
{
    let unit = said(alloc, says)?;
    imply(alloc, unit, layer, below)
}

/// Behind the word `true` or `false`, the sign of an atom, or the `=` of `=>`.
fn word_place<'a>(says: bool, word: &'a str, kind: Kind<'a>) -> Option<Place<'a>>
    ensures { option_map place_of result ≡ word_place says word.entry.now (kind_of kind.entry) }
{
    let target = Target::Location(word);
    match kind {
        Kind::Sign(Mark::Equals) => Some(Place::AfterWordEquals(says, word)),
        Kind::Sign(Mark::Less) => Some(Place::InAtom(AtomPlace::AfterLess(target))),
        Kind::Sign(Mark::Bang) => Some(Place::InAtom(AtomPlace::AfterBang(target))),
        _ => None,
    }
}

/// After `true` or `false`.
fn after_word<'a>(
    alloc: Global,
    says: bool,
    word: &'a str,
    layer: Layer<'a>,
    below: Vec<Layer<'a>>,
    kind: Kind<'a>,
) -> Result<Option<Reader<'a>>, AllocError>
    ensures { IfOk result (λ r. option_map reader_of r
        ≡ placed_or (word_place says word.entry.now (kind_of kind.entry)) (layer_of layer.entry)
        (below_of below.entry.items []) (next_after limited (said limited says) (layer_of layer.entry)
        (below_of below.entry.items []) (kind_of kind.entry))) }
{
    match word_place(says, word, kind) {
        Some(place) => Ok(Some(Reader {
            place,
            layer,
            below,
        })),
        None => {
            let unit = said(alloc, says)?;
            after(alloc, unit, layer, below, kind)
        }
    }
}

/// An atom, denied or not.
fn found_unit<'a>(alloc: Global, denies: bool, atom: Atom<'a>) -> Result<Subformula<'a>, AllocError>
    ensures { IfOk result (λ p. subformula_of p
        ≡ found_unit limited denies (target_of atom.entry.target) (value_of atom.entry.value)) }
{
    let unit = Subformula::leaf(alloc, Tree::Atom(atom))?;
    if denies { unit.denied(alloc) } else { Ok(unit) }
}

/// What one more token of an atom makes.
fn atom_place<'a>(
    alloc: Global,
    atoms: &mut Vec<Atom<'a>>,
    place: AtomPlace<'a>,
    kind: Kind<'a>,
) -> Result<Option<Place<'a>>, AllocError>
    ensures place { IfOk result (λ p. option_map place_of p
        ≡ place_after limited (next_atom (atom_place_of place.entry) (kind_of kind.entry))) }
    ensures atoms { OnOk result (map atom_of atoms.new.items
        ≡ map atom_of atoms.old.items ++ finished (next_atom (atom_place_of place.entry) (kind_of kind.entry))) }
{
    match place.step(kind) {
        AtomStep::Go(place) => Ok(Some(Place::InAtom(place))),
        AtomStep::Done(denies, atom) => {
            atoms.push(atom)?;
            let unit = found_unit(alloc, denies, atom)?;
            Ok(Some(Place::AfterUnit(unit)))
        }
        AtomStep::Bad => Ok(None),
    }
}

/// In an atom.
fn in_atom<'a>(
    alloc: Global,
    atoms: &mut Vec<Atom<'a>>,
    place: AtomPlace<'a>,
    layer: Layer<'a>,
    below: Vec<Layer<'a>>,
    kind: Kind<'a>,
) -> Result<Option<Reader<'a>>, AllocError>
    ensures reader { IfOk result (λ r. option_map reader_of r
        ≡ placed (place_after limited (next_atom (atom_place_of place.entry) (kind_of kind.entry)))
        (layer_of layer.entry) (below_of below.entry.items [])) }
    ensures atoms { OnOk result (map atom_of atoms.new.items
        ≡ map atom_of atoms.old.items ++ finished (next_atom (atom_place_of place.entry) (kind_of kind.entry))) }
{
    match atom_place(alloc, atoms, place, kind)? {
        Some(place) => Ok(Some(Reader {
            place,
            layer,
            below,
        })),
        None => Ok(None),
    }
}

/// One more token, or that it can't stand there.
fn step<'a>(
    alloc: Global,
    atoms: &mut Vec<Atom<'a>>,
    reader: Reader<'a>,
    kind: Kind<'a>,
) -> Result<Option<Reader<'a>>, AllocError>
    requires { reader.layer.denials + put_off (place_of reader.place) < usize.MAX }
    ensures reader { IfOk result (λ r. option_map reader_of r
        ≡ next limited (reader_of reader.entry) (kind_of kind.entry)) }
    ensures atoms { OnOk result (map atom_of atoms.new.items
        ≡ map atom_of atoms.old.items ++ atoms_at (place_of reader.entry.place) (kind_of kind.entry)) }
{
    let Reader {
        place,
        layer,
        below,
    } = reader;
    match place {
        Place::Begin => begin(layer, below, kind),
        Place::AfterNot(word) => after_not(word, layer, below, kind),
        Place::AfterWord(says, word) => after_word(alloc, says, word, layer, below, kind),
        Place::AfterWordEquals(says, word) => {
            if is_greater(kind) {
                return imply_word(alloc, says, layer, below);
            }
            let place = AtomPlace::AfterEquals(Target::Location(word));
            in_atom(alloc, atoms, place, layer, below, kind)
        }
        Place::InAtom(place) => in_atom(alloc, atoms, place, layer, below, kind),
        Place::AfterUnit(unit) => after(alloc, unit, layer, below, kind),
        Place::Implying(unit) => after_equals(alloc, unit, layer, below, kind),
        Place::Whole(_) => Ok(None),
    }
}

/// The whole before a semicolon.
fn whole_of<'a>(place: Place<'a>) -> Option<Subformula<'a>>
    ensures { option_map subformula_of result ≡ whole_of (place_of place.entry) }
{
    match place {
        Place::Whole(whole) => Some(whole),
        _ => None,
    }
}

/// The whole, where no parenthesis is open and the text may end.
fn end_at<'a>(
    alloc: Global,
    place: Place<'a>,
    layer: Layer<'a>,
) -> Result<Option<Subformula<'a>>, AllocError>
    ensures { IfOk result (λ p. option_map subformula_of p
        ≡ end_at limited (place_of place.entry) (layer_of layer.entry)) }
{
    let unit = match place {
        Place::AfterWord(says, _) => said(alloc, says)?,
        Place::AfterUnit(unit) => unit,
        Place::Whole(whole) => return Ok(Some(whole)),
        _ => return Ok(None),
    };
    Ok(Some(layer.total(alloc, unit)?))
}

/// The whole, where the text may end.
fn finish<'a>(alloc: Global, reader: Reader<'a>) -> Result<Option<Subformula<'a>>, AllocError>
    ensures { IfOk result (λ p. option_map subformula_of p ≡ end_of limited (reader_of reader.entry)) }
{
    let Reader {
        place,
        layer,
        below,
    } = reader;
    if !below.is_empty() {
        return Ok(whole_of(place));
    }
    end_at(alloc, place, layer)
}

/// What the machine reads.
fn read_all<'b, 'a>(alloc: Global, tokens: &'b [Token<'a>]) -> Result<Condition<'a>, Stop<'b, 'a>>
    ensures { Gives result (read limited start [] (views tokens.now)) }
{
    let mut atoms = Vec::new(alloc);
    let mut reader = Reader {
        place: Place::Begin,
        layer: Layer::new(),
        below: Vec::new(alloc),
    };
    for (i, token) in tokens.iter().enumerate() {
        match step(alloc, &mut atoms, reader, token.kind)? {
            Some(next) => reader = next,
            None => return Err(Stop::At(&tokens[i..])),
        }
    }
    match finish(alloc, reader)? {
        Some(subformula) => Ok(Condition {
            atoms,
            tree: subformula.into_tree(),
        }),
        None => Err(Stop::At(&tokens[tokens.len()..])),
    }
}

/// The condition that the tokens are, all of them, in herd7's format: units joined by `/\`, these joined by `\/`, and
/// these by `=>`, which denies what stands before it and is `\/` then. A unit is `~` or the word `not` and a unit, a
/// condition in parentheses, `true`, `false`, or an atom: a target, `=` or `==` and a value, or `<>` or `!=`, which
/// denies it. No word is reserved: where one of these comes after `not`, `true` or `false`, the word names a location.
/// A `;` may stand behind it. Stops at the first token with which the tokens so far begin no condition. Linear in the
/// tokens; at most 80 bytes of memory an open parenthesis, a few words an atom, and no recursion.
pub fn read_condition<'b, 'a>(
    alloc: Global,
    tokens: &'b [Token<'a>],
) -> Result<Condition<'a>, Stop<'b, 'a>>
    // What is read is what the tokens mean.
    ensures means { IfOk result (λ c. (s : Syntax) × IsCondition (views tokens.now) s × Means c s) }
    // They mean nothing else.
    ensures only { IfOk result (λ c. (s : Syntax) → IsCondition (views tokens.now) s → Means c s) }
    // Where they stop being a condition.
    ensures stops { IfErr result (StopsAt (views tokens.now)) }
{
    read_all(alloc, tokens)
}
