//! Reads an atom, a token at a time.

ghost use Rattle.std.specs.Prelude.{◌≡◌, option_map};
ghost use Rattle.fs_litmus_tokens.specs.Tokens.{kind_of};
ghost use Rattle.fs_litmus_tokens.specs.Sections.{Finish};
ghost use Rattle.fs_litmus_tokens.specs.Values.{target_of, value_of};
ghost use Rattle.fs_litmus_syntax.specs.Machine as machine;
ghost use Rattle.fs_litmus_syntax.specs.Views.{atom_place_of, atom_step_of};

use crate::condition::Atom;
use fs_litmus_tokens::{Class, Kind, Mark, Target, Value};

/// What was read last of an atom.
#[derive(Clone, Copy)]
pub enum AtomPlace<'a> {
    AfterHart(&'a str),
    AfterColon(&'a str),
    AfterBracket,
    AfterName(&'a str),
    AfterTarget(Target<'a>),
    AfterLess(Target<'a>),
    AfterBang(Target<'a>),
    AfterEquals(Target<'a>),
    /// The sign is whole, and denies that target and value are equal or doesn't.
    BeforeValue(bool, Target<'a>),
    AfterMinus(bool, Target<'a>),
}

/// What one more token of an atom does: there is more to come, or the atom ends with it, denied or not, or it can't stand
/// there.
#[derive(Clone, Copy)]
pub enum AtomStep<'a> {
    Go(AtomPlace<'a>),
    Done(bool, Atom<'a>),
    Bad,
}

/// The first token of the sign after a target: of `=` and `==`, `<>`, or `!=`.
pub(crate) fn compared_by<'a>(target: Target<'a>, kind: Kind<'a>) -> Option<AtomPlace<'a>>
    ensures { option_map atom_place_of result ≡ machine.compared_by (target_of target.entry) (kind_of kind.entry) }
{
    match kind {
        Kind::Sign(Mark::Equals) => Some(AtomPlace::AfterEquals(target)),
        Kind::Sign(Mark::Less) => Some(AtomPlace::AfterLess(target)),
        Kind::Sign(Mark::Bang) => Some(AtomPlace::AfterBang(target)),
        _ => None,
    }
}

/// A mark of an atom.
fn mark_step<'a>(place: AtomPlace<'a>, mark: Mark) -> AtomStep<'a>
    ensures { atom_step_of result ≡ machine.next_atom (atom_place_of place.entry) (kind_of (Kind.Sign mark)) }
{
    match (place, mark) {
        (AtomPlace::AfterHart(hart), Mark::Colon) => AtomStep::Go(AtomPlace::AfterColon(hart)),
        (AtomPlace::AfterName(name), Mark::CloseBracket) => {
            AtomStep::Go(AtomPlace::AfterTarget(Target::Location(name)))
        }
        (AtomPlace::AfterTarget(target), _) => match compared_by(target, Kind::Sign(mark)) {
            Some(place) => AtomStep::Go(place),
            None => AtomStep::Bad,
        },
        (AtomPlace::AfterLess(target), Mark::Greater)
        | (AtomPlace::AfterBang(target), Mark::Equals) => {
            AtomStep::Go(AtomPlace::BeforeValue(true, target))
        }
        (AtomPlace::AfterEquals(target), Mark::Equals) => {
            AtomStep::Go(AtomPlace::BeforeValue(false, target))
        }
        (AtomPlace::AfterEquals(target), Mark::Minus) => {
            AtomStep::Go(AtomPlace::AfterMinus(false, target))
        }
        (AtomPlace::BeforeValue(denies, target), Mark::Minus) => {
            AtomStep::Go(AtomPlace::AfterMinus(denies, target))
        }
        _ => AtomStep::Bad,
    }
}

/// An atom with this value.
fn done<'a>(denies: bool, target: Target<'a>, value: Value<'a>) -> AtomStep<'a>
    ensures { atom_step_of result ≡ Finish (denies, target_of target.entry, value_of value.entry) }
{
    AtomStep::Done(denies, Atom { target, value })
}

/// A word that is the value of an atom.
fn value_word<'a>(denies: bool, target: Target<'a>, class: Class, word: &'a str) -> AtomStep<'a>
    ensures { atom_step_of result
        ≡ machine.value_begun denies (target_of target.entry) (kind_of (Kind.Word class word.entry)) }
{
    match class {
        Class::Number => {
            let value = Value::Number {
                negative: false,
                digits: word,
            };
            done(denies, target, value)
        }
        Class::Other => AtomStep::Bad,
        _ => done(denies, target, Value::Address(word)),
    }
}

/// A word of an atom.
fn word_step<'a>(place: AtomPlace<'a>, class: Class, word: &'a str) -> AtomStep<'a>
    ensures { atom_step_of result
        ≡ machine.next_atom (atom_place_of place.entry) (kind_of (Kind.Word class word.entry)) }
{
    match (place, class) {
        (AtomPlace::AfterColon(hart), _) => AtomStep::Go(AtomPlace::AfterTarget(
            Target::Register {
                hart,
                register: word,
            },
        )),
        (AtomPlace::AfterEquals(target), _) => value_word(false, target, class, word),
        (AtomPlace::BeforeValue(denies, target), _) => value_word(denies, target, class, word),
        (AtomPlace::AfterMinus(denies, target), Class::Number) => {
            let value = Value::Number {
                negative: true,
                digits: word,
            };
            done(denies, target, value)
        }
        (_, Class::Number | Class::Other) => AtomStep::Bad,
        (AtomPlace::AfterBracket, _) => AtomStep::Go(AtomPlace::AfterName(word)),
        _ => AtomStep::Bad,
    }
}

impl<'a> AtomPlace<'a> {
    /// One more token.
    pub fn step(self, kind: Kind<'a>) -> AtomStep<'a>
        ensures { atom_step_of result ≡ machine.next_atom (atom_place_of self.entry) (kind_of kind.entry) }
    {
        match kind {
            Kind::Word(class, word) => word_step(self, class, word),
            Kind::Sign(mark) => mark_step(self, mark),
            Kind::Strange => AtomStep::Bad,
        }
    }
}
