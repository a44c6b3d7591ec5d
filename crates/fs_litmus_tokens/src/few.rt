//! The tokens of a short text, without memory.

ghost use Rattle.std.specs.Prelude.{◌≡◌, ◌+◌, ◌^◌, ◌<◌, slice_set, length};
ghost use Rattle.fs_litmus_tokens.specs.Tokens.{kind_of};
ghost use Rattle.fs_litmus_tokens.specs.Few.{IsFew, is_plain};

use crate::token::{Kind, Piece, Token, front};

/// The first tokens of a text; how many it has, up to a comment that isn't closed; whether there is no such comment;
/// and whether each of its tokens, also past the first ones, is a word or a mark.
#[derive(Clone, Copy)]
pub struct Few<'a> {
    pub tokens: [Token<'a>; 20],
    pub len: usize,
    pub closed: bool,
    pub plain: bool,
}

/// A word or a mark.
fn is_plain(kind: Kind<'_>) -> bool
    ensures { result ≡ is_plain (kind_of kind.entry) }
{
    match kind {
        Kind::Word(_, _) | Kind::Sign(_) => true,
        Kind::Strange => false,
    }
}

fn push<'a>(tokens: &mut [Token<'a>], len: usize, token: Token<'a>)
    ensures { tokens.new ≡ slice_set tokens.old len token.entry }
{
    if len < tokens.len() {
        tokens[len] = token;
    }
}

/// The first 20 tokens of a text, whose lines count from 0. Takes no memory; linear in the text.
pub fn first_tokens<'a>(text: &'a [u8]) -> Few<'a>
    ensures { IsFew text.now result }
{
    let mut tokens = [Token {
        kind: Kind::Strange,
        line: 0,
    }; 20];
    let mut len = 0;
    let mut rest = text;
    let mut line = 0;
    let mut plain = true;
    while let Some((first, after)) = rest.split_first() {
        match front(*first, after, rest, line) {
            Piece::Skip(next, at) => {
                rest = next;
                line = at;
            }
            Piece::Take(kind, next) => {
                push(&mut tokens, len, Token { kind, line });
                len += 1;
                plain &= is_plain(kind);
                rest = next;
            }
            Piece::Unclosed => return Few {
                tokens,
                len,
                closed: false,
                plain,
            },
        }
    }
    Few {
        tokens,
        len,
        closed: true,
        plain,
    }
}
