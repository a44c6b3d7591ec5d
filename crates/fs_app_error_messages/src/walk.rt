//! A walk over the bytes of a text, from token to token.

ghost use Rattle.std.specs.Prelude.{◌≡◌, ◌∷◌, ◌≤◌, ◌<◌, length, drop, IfSome, IsNone, option_map};
ghost use Rattle.std.specs.List.{prefix_len};
ghost use Rattle.fs_litmus_tokens.specs.Bytes.{is_letter, is_blank, begins, comment_end};
ghost use Rattle.fs_litmus_tokens.specs.Tokens.{piece};
ghost use Rattle.fs_app_error_messages.specs.Walks.{AreAtMost, BeginsAt, Moves, ends_comment, begins_comment, step_of};
ghost use Rattle.fs_app_error_messages.specs.Walks.{shape_of};

use crate::slices::from;

/// What stands at the front of a text: so many bytes to skip, or a token of so many; or a comment that isn't closed.
#[derive(Clone, Copy)]
pub enum Step {
    Blank(usize),
    Token(usize),
    Open,
}

fn is_letter(b: u8) -> bool
    ensures { result ≡ is_letter b }
{
    b.is_ascii_alphanumeric() || b == b'_' || b == b'.'
}

pub(crate) fn is_blank(b: u8) -> bool
    ensures { result ≡ is_blank b }
{
    b == b' ' || b == b'\t' || b == b'\r'
}

/// How many bytes at the front are letters.
fn word_len(bytes: &[u8]) -> usize
    ensures value { result ≡ prefix_len is_letter bytes.now }
    ensures within { result ≤ length bytes.now }
{
    for (i, byte) in bytes.iter().enumerate() {
        if !is_letter(*byte) {
            return i;
        }
    }
    bytes.len()
}

pub(crate) fn begins(c: u8, bytes: &[u8]) -> bool
    ensures { result ≡ begins c bytes.now }
{
    match bytes.first() {
        Some(b) => *b == c,
        None => false,
    }
}

fn ends_comment(byte: u8, after: &[u8]) -> bool
    ensures { result ≡ ends_comment byte after.now }
{
    byte == b'*' && begins(b')', after)
}

fn begins_comment(byte: u8, after: &[u8]) -> bool
    ensures { result ≡ begins_comment byte after.now }
{
    byte == b'(' && begins(b'*', after)
}

/// How many bytes there are up to the end of the `*)` that closes a comment.
fn comment_len(bytes: &[u8]) -> Option<usize>
    ensures value { option_map (λ n. drop n bytes.now) result ≡ option_map (λ x. x.0) (comment_end bytes.now 0) }
    ensures within { IfSome result (λ n. n ≤ length bytes.now) }
{
    let mut inner: usize = 0;
    let mut is_second = false;
    for (i, byte) in bytes.iter().enumerate() {
        let after = from(bytes, i + 1);
        if is_second {
            is_second = false;
        } else if ends_comment(*byte, after) {
            if inner == 0 {
                return Some(i + 2);
            }
            inner -= 1;
            is_second = true;
        } else if begins_comment(*byte, after) {
            inner += 1;
            is_second = true;
        }
    }
    None
}

/// What stands at the front.
fn front(first: u8, after: &[u8]) -> Step
    ensures value { step_of (first ∷ after.now) result ≡ shape_of (piece first after.now 0) }
    ensures moves { Moves (length after.now) result }
{
    if first == b'\n' {
        return Step::Blank(1);
    }
    if is_blank(first) {
        return Step::Blank(1);
    }
    if is_letter(first) {
        return Step::Token(word_len(after) + 1);
    }
    if first == b'/' && begins(b'\\', after) {
        return Step::Token(2);
    }
    if first == b'\\' && begins(b'/', after) {
        return Step::Token(2);
    }
    if first == b'(' && begins(b'*', after) {
        return match comment_len(from(after, 1)) {
            Some(len) => Step::Blank(len + 2),
            None => Step::Open,
        };
    }
    Step::Token(1)
}

/// The offset of the token of this number, from 0 on, in a text whose tokens begin with its first byte. Linear in the
/// text.
pub(crate) fn token_start(text: &[u8], number: usize) -> Option<usize>
    ensures begins { IfSome result (λ at. BeginsAt number text.now (drop at text.now)) }
    ensures within { IfSome result (λ at. at < length text.now) }
    ensures absent { IsNone result → AreAtMost text.now number }
{
    let mut at = 0;
    let mut left = number;
    while let Some((first, after)) = from(text, at).split_first() {
        match front(*first, after) {
            Step::Blank(len) => at += len,
            Step::Token(len) => {
                if left == 0 {
                    return Some(at);
                }
                left -= 1;
                at += len;
            }
            Step::Open => return None,
        }
    }
    None
}
