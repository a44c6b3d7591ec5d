//! Labels that are numbers, as GNU's assembler has them: a branch names the label 1 that is ahead as `1f`.

ghost use Rattle.std.specs.Prelude.{◌≡◌, ◌∷◌, option_map, IfOk};
ghost use Rattle.fs_litmus_tokens.specs.Tokens.{kind_of, views};
ghost use Rattle.fs_instr.specs.Operands.{toks};
ghost use Rattle.fs_litmus_syntax.specs.Numbered.{is_label, before_last, begins_digit, numbered, label_in};
ghost use Rattle.fs_litmus_syntax.specs.Numbered.{name_from, named, operands};

use fs_litmus_tokens::{Class, Kind, Token, number_of};
use std::alloc::{AllocError, Global};

/// May a word of this class be a label: a name or a number?
pub(crate) fn is_label(class: Class) -> bool
    ensures { result ≡ is_label class }
{
    class.is_name() || matches!(class, Class::Number)
}

/// What stands before the `f` at the end.
fn before_f(word: &str) -> Option<&str>
    ensures { option_map (λ front. front.now) result ≡ before_last 102 word.now }
{
    word.strip_suffix('f')
}

/// What stands before the `b` at the end.
fn before_b(word: &str) -> Option<&str>
    ensures { option_map (λ front. front.now) result ≡ before_last 98 word.now }
{
    word.strip_suffix('b')
}

fn begins_digit(word: &str) -> bool
    ensures { result ≡ begins_digit word.now }
{
    match word.as_bytes().first() {
        Some(byte) => byte.is_ascii_digit(),
        None => false,
    }
}

/// The word, where it is a number.
fn numbered(word: Option<&str>) -> Option<&str>
    ensures { option_map (λ w. w.now) result ≡ numbered (option_map (λ w. w.now) word.entry) }
{
    match word {
        Some(word) => {
            if number_of(word).is_some() {
                Some(word)
            } else {
                None
            }
        }
        None => None,
    }
}

/// The label that a word as `1f` names; the word itself where it is one as `1b`.
fn label_in(word: &str) -> Option<&str>
    ensures { option_map (λ w. w.now) result ≡ label_in word.now }
{
    if !begins_digit(word) {
        return None;
    }
    name_from(word, numbered(before_f(word)), numbered(before_b(word)))
}

fn name_from<'a>(word: &'a str, ahead: Option<&'a str>, behind: Option<&'a str>) -> Option<&'a str>
    ensures { option_map (λ w. w.now) result
        ≡ name_from word.now (option_map (λ w. w.now) ahead.entry) (option_map (λ w. w.now) behind.entry) }
{
    match (ahead, behind) {
        (Some(number), _) => Some(number),
        (None, Some(_)) => Some(word),
        (None, None) => None,
    }
}

/// What the token is, as a name where it is such a word.
fn named<'a>(kind: Kind<'a>) -> Kind<'a>
    ensures { kind_of result ≡ named (kind_of kind.entry) }
{
    match kind {
        Kind::Word(Class::Other, word) => match label_in(word) {
            Some(name) => Kind::Word(Class::Name, name),
            None => kind,
        },
        other => other,
    }
}

/// The tokens of an instruction, with such words behind its mnemonic as names. Linear in the tokens.
pub(crate) fn with_names<'a>(
    alloc: Global,
    mnemonic: &Token<'a>,
    rest: &[Token<'a>],
) -> Result<Vec<Token<'a>>, AllocError>
    ensures { IfOk result (λ all. toks all.items ≡ kind_of mnemonic.now.kind ∷ operands (views rest.now)) }
{
    let mut all = Vec::new(alloc);
    all.push(*mnemonic)?;
    for token in rest {
        all.push(Token {
            kind: named(token.kind),
            line: token.line,
        })?;
    }
    Ok(all)
}
