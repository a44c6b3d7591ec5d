//! Which bytes of a test file a fault is of.

ghost use Rattle.std.specs.Prelude.{◌+◌, ◌≤◌, length};

use crate::part::{Part, Spot};
use crate::{Point, body_start, point_of};
use fs_kinds::Fault;
use fs_litmus_tokens::{Kind, Mark, Token, tokens};
use std::alloc::{AllocError, Global};

/// The bytes of a token, from the offset of the first up to an end.
#[derive(Clone, Copy)]
pub(crate) struct Span {
    pub(crate) start: usize,
    pub(crate) end: usize,
}

/// The bytes from an offset on, none where there are fewer.
fn from(bytes: &[u8], at: usize) -> &[u8] {
    if at < bytes.len() { &bytes[at..] } else { &[] }
}

/// How many bytes a token has.
fn length_of(kind: Kind<'_>) -> usize {
    match kind {
        Kind::Word(_, word) => word.len(),
        Kind::Sign(Mark::And | Mark::Or) => 2,
        _ => 1,
    }
}

fn is_blank(byte: u8) -> bool {
    matches!(byte, b' ' | b'\t' | b'\r' | b'\n')
}

/// How many bytes stand before the next token: blanks, ends of lines and comments. Linear in them.
fn skipped(bytes: &[u8]) -> usize {
    let mut depth: usize = 0;
    let mut is_second = false;
    for (i, byte) in bytes.iter().enumerate() {
        let after = from(bytes, i + 1).first().copied();
        if is_second {
            is_second = false;
        } else if *byte == b'(' && after == Some(b'*') {
            depth = depth.saturating_add(1);
            is_second = true;
        } else if depth > 0 {
            if *byte == b'*' && after == Some(b')') {
                depth -= 1;
                is_second = true;
            }
        } else if !is_blank(*byte) {
            return i;
        }
    }
    bytes.len()
}

/// The bytes of the tokens of a part, where the first of all begins behind this offset.
fn spans_between(
    alloc: Global,
    bytes: &[u8],
    start: usize,
    tokens: &[Token<'_>],
    part: Part,
) -> Result<Vec<Span>, AllocError> {
    let mut spans = Vec::new(alloc);
    let mut end = start;
    for (i, token) in tokens.iter().enumerate() {
        let start = end.saturating_add(skipped(from(bytes, end)));
        end = start.saturating_add(length_of(token.kind));
        if part.first <= i && i < part.end {
            spans.push(Span { start, end })?;
        }
    }
    Ok(spans)
}

/// The same for a fault that is pointed at by this token, in a file whose initial values begin at this offset, in this
/// line.
fn spans_behind(
    alloc: Global,
    bytes: &[u8],
    start: (usize, usize),
    number: usize,
    fault: Fault,
) -> Result<Vec<Span>, AllocError>
    requires few { start.1 ≤ start.0 + 1 }
    requires within { start.0 ≤ length bytes.now }
{
    let (tokens, _) = tokens(alloc, from(bytes, start.0), start.1)?;
    let spot = Spot {
        tokens: &tokens,
        number,
    };
    match spot.part(alloc, fault)? {
        Some(part) => spans_between(alloc, bytes, start.0, &tokens, part),
        None => Ok(Vec::new(alloc)),
    }
}

/// The bytes of the tokens that the fault is of; none where nothing is told behind it. Comments between tokens are no
/// part of them. Linear in the bytes; 16 bytes of memory a token. Fails only for want of memory.
pub(crate) fn spans_of(alloc: Global, bytes: &[u8], fault: Fault) -> Result<Vec<Span>, AllocError> {
    let Some(Point::Token(number, _)) = point_of(alloc, bytes, fault)? else {
        return Ok(Vec::new(alloc));
    };
    match body_start(bytes) {
        Some(start) => spans_behind(alloc, bytes, start, number, fault),
        None => Ok(Vec::new(alloc)),
    }
}
