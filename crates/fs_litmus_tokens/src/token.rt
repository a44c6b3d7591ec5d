//! Bytes to tokens.

ghost use Rattle.std.specs.Prelude.{◌≡◌, ℕ, List, Bool, ◌+◌, ◌≤◌, ◌∷◌, [], ◌^◌, ◌<◌, length, map, IfOk, nat_eq};
ghost use Rattle.std.specs.Prelude.{option_map, IfSome, IsTrue, slice_index};
ghost use Rattle.std.specs.List.{prefix_len};
ghost use Rattle.fs_litmus_tokens.specs.Bytes.{is_letter, is_blank, comment_end, begins, tail};
ghost use Rattle.fs_litmus_tokens.specs.Tokens.{piece, AreTokens, piece_of, view, views, Shrinks, Lined, mark_of};

use crate::word::{Class, class_of};
use std::alloc::{AllocError, Global};

/// The marks of the format: `{ } ; | , : = ( ) [ ] ~ - * & < > !`, and `/\` (and) and `\/` (or).
#[derive(Clone, Copy, PartialEq, Eq)]
pub enum Mark {
    OpenBrace,
    CloseBrace,
    Semicolon,
    Bar,
    Comma,
    Colon,
    Equals,
    OpenParen,
    CloseParen,
    OpenBracket,
    CloseBracket,
    Tilde,
    Minus,
    Star,
    Ampersand,
    Less,
    Greater,
    Bang,
    And,
    Or,
}

/// What a token is: a word with its class and its text, a mark, or a character that belongs to no token.
#[derive(Clone, Copy)]
pub enum Kind<'a> {
    Word(Class, &'a str),
    Sign(Mark),
    Strange,
}

/// A token, and the number of its line.
#[derive(Clone, Copy)]
pub struct Token<'a> {
    pub kind: Kind<'a>,
    pub line: usize,
}

/// What stands at the front of a text, with what comes after it and its line.
#[derive(Clone, Copy)]
pub enum Piece<'a> {
    Skip(&'a [u8], usize),
    Take(Kind<'a>, &'a [u8]),
    Unclosed,
}

fn is_letter(b: u8) -> bool
    ensures { result ≡ is_letter b }
{
    b.is_ascii_alphanumeric() || b == b'_' || b == b'.'
}

fn is_blank(b: u8) -> bool
    ensures { result ≡ is_blank b }
{
    b == b' ' || b == b'\t' || b == b'\r'
}

fn mark_of(b: u8) -> Option<Mark>
    ensures { result ≡ mark_of b }
{
    match b {
        b'{' => Some(Mark::OpenBrace),
        b'}' => Some(Mark::CloseBrace),
        b';' => Some(Mark::Semicolon),
        b'|' => Some(Mark::Bar),
        b',' => Some(Mark::Comma),
        b':' => Some(Mark::Colon),
        b'=' => Some(Mark::Equals),
        b'(' => Some(Mark::OpenParen),
        b')' => Some(Mark::CloseParen),
        b'[' => Some(Mark::OpenBracket),
        b']' => Some(Mark::CloseBracket),
        b'~' => Some(Mark::Tilde),
        b'-' => Some(Mark::Minus),
        b'*' => Some(Mark::Star),
        b'&' => Some(Mark::Ampersand),
        b'<' => Some(Mark::Less),
        b'>' => Some(Mark::Greater),
        b'!' => Some(Mark::Bang),
        _ => None,
    }
}

/// How many bytes at the front are letters.
fn run_len(b: &[u8]) -> usize
    ensures value { result ≡ prefix_len is_letter b.now }
    ensures within { result ≤ length b.now }
    ensures some { 0 < length b.now → IsTrue (is_letter (slice_index b.now 0)) → 0 < result }
{
    for (i, x) in b.iter().enumerate() {
        if !is_letter(*x) {
            return i;
        }
    }
    b.len()
}

/// What comes after the `*)` that closes a comment, and its line.
fn comment_end(bytes: &[u8], line: usize) -> Option<(&[u8], usize)>
    requires { line + length bytes.now < 2 ^ 64 }
    ensures value { option_map (λ x. (x.0.now, x.1)) result ≡ comment_end bytes.now line }
    ensures shrinks { IfSome result (λ x. (length x.0.now ≤ length bytes.now)
        × (x.1 + length x.0.now ≤ line + length bytes.now)) }
{
    let mut rest = bytes;
    let mut line = line;
    let mut inner: usize = 0;
    let mut is_second = false;
    while let Some((first, after)) = rest.split_first() {
        rest = after;
        if is_second {
            is_second = false;
        } else if *first == b'*' && begins(b')', after) {
            if inner == 0 {
                return Some((tail(after), line));
            }
            inner -= 1;
            is_second = true;
        } else if *first == b'(' && begins(b'*', after) {
            inner += 1;
            is_second = true;
        } else if *first == b'\n' {
            line += 1;
        }
    }
    None
}

fn begins(c: u8, bytes: &[u8]) -> bool
    ensures { result ≡ begins c bytes.now }
{
    match bytes.first() {
        Some(b) => *b == c,
        None => false,
    }
}

fn tail(bytes: &[u8]) -> &[u8]
    ensures value { result.now ≡ tail bytes.now }
    ensures shrinks { length result.now ≤ length bytes.now }
{
    match bytes.split_first() {
        Some((_, after)) => after,
        None => bytes,
    }
}

/// What stands at the front.
pub(crate) fn front<'a>(first: u8, after: &'a [u8], all: &'a [u8], line: usize) -> Piece<'a>
    requires room { line + length all.now < 2 ^ 64 }
    requires split { all.now ≡ first ∷ after.now }
    ensures value { piece_of result ≡ piece first after.now line }
    ensures shrinks { Shrinks line (length all.now) (piece_of result) }
{
    if first == b'\n' {
        return Piece::Skip(after, line + 1);
    }
    if is_blank(first) {
        return Piece::Skip(after, line);
    }
    if is_letter(first) {
        let (word, rest) = all.split_at(run_len(all));
        return match str::from_utf8(word) {
            Ok(word) => Piece::Take(Kind::Word(class_of(word), word), rest),
            Err(_) => Piece::Take(Kind::Strange, rest),
        };
    }
    if first == b'/' && begins(b'\\', after) {
        return Piece::Take(Kind::Sign(Mark::And), tail(after));
    }
    if first == b'\\' && begins(b'/', after) {
        return Piece::Take(Kind::Sign(Mark::Or), tail(after));
    }
    if first == b'(' && begins(b'*', after) {
        return match comment_end(tail(after), line) {
            Some((rest, line)) => Piece::Skip(rest, line),
            None => Piece::Unclosed,
        };
    }
    match mark_of(first) {
        Some(mark) => Piece::Take(Kind::Sign(mark), after),
        None => Piece::Take(Kind::Strange, after),
    }
}

/// The tokens of a text whose first byte stands in line `line`, each with the number of its line, up to a comment that
/// isn't closed; and whether there is no such comment (herd7's format: words of letters, digits, `_` and `.`; comments
/// `(* .. *)`, which nest). Linear in the text; 32 bytes of memory a token. Fails only for want of memory.
pub fn tokens<'a>(
    alloc: Global,
    text: &'a [u8],
    line: usize,
) -> Result<(Vec<Token<'a>>, bool), AllocError>
    requires { line + length text.now < 2 ^ 64 }
    ensures are { IfOk result (λ x. AreTokens text.now line (views x.0.items) x.1) }
    // A text has no others.
    ensures only { IfOk result (λ x. (ts : List Lined) (closed : Bool) → AreTokens text.now line ts closed
        → (views x.0.items ≡ ts) × (x.1 ≡ closed)) }
{
    let mut out = Vec::new(alloc);
    let mut rest = text;
    let mut at = line;
    while let Some((first, after)) = rest.split_first() {
        match front(*first, after, rest, at) {
            Piece::Skip(next, next_line) => {
                rest = next;
                at = next_line;
            }
            Piece::Take(kind, next) => {
                out.push(Token { kind, line: at })?;
                rest = next;
            }
            Piece::Unclosed => return Ok((out, false)),
        }
    }
    Ok((out, true))
}
