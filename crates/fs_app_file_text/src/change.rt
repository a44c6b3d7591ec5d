//! The bytes of a test file with other FENCEs. Contracts don't see it: what is made here is read again.

ghost use Rattle.std.specs.Prelude.{◌≤◌, All, length};
ghost use Rattle.fs_kinds.specs.Limits.{most_harts, most_instructions};

use crate::fences::memory_kind;
use crate::rewriting::is_ours;
use crate::scan::{Span, span_at, spans_of};
use fs_instr::Instr;
use fs_kinds::{Kind, Placement, Slot};
use fs_litmus::skip_title;
use fs_model::Code;
use std::alloc::{AllocError, Global};

/// The FENCE of a kind.
fn words_of(kind: Kind) -> &'static [u8] {
    match kind {
        Kind::RR => b"fence r,r",
        Kind::RW => b"fence r,w",
        Kind::RRw => b"fence r,rw",
        Kind::WR => b"fence w,r",
        Kind::WW => b"fence w,w",
        Kind::WRw => b"fence w,rw",
        Kind::RwR => b"fence rw,r",
        Kind::RwW => b"fence rw,w",
        Kind::RwRw => b"fence rw,rw",
        Kind::Tso => b"fence.tso",
    }
}

fn set(text: &mut [u8], at: usize, byte: u8) {
    if at < text.len() {
        text[at] = byte;
    }
}

fn is_blank_at(text: &[u8], at: usize) -> bool {
    match text.get(at) {
        Some(byte) => *byte == b' ' || *byte == b'\t',
        None => false,
    }
}

/// Is there room for so many bytes from the FENCE's first on?
fn has_room(text: &[u8], span: Span, count: usize) -> bool {
    for at in span.end..span.start.saturating_add(count) {
        if !is_blank_at(text, at) {
            return false;
        }
    }
    true
}

/// Puts blanks in the place of the FENCE.
fn blank(text: &mut [u8], span: Span) {
    for at in span.start..span.end {
        set(text, at, b' ');
    }
}

/// Puts these words in the place of the FENCE, with blanks behind them. Nothing where there is no room.
fn put(text: &mut [u8], span: Span, words: &[u8]) {
    if !has_room(text, span, words.len()) {
        return;
    }
    blank(text, span);
    for (i, byte) in words.iter().enumerate() {
        set(text, span.start.saturating_add(i), *byte);
    }
}

/// Puts the kind in the place of the FENCE that is this instruction.
fn change(text: &mut [u8], span: Span, instr: &Instr, kind: Option<Kind>) {
    if !is_ours(instr) {
        return;
    }
    match kind {
        None => blank(text, span),
        Some(kind) => {
            if memory_kind(*instr) != Some(kind) {
                put(text, span, words_of(kind));
            }
        }
    }
}

fn is_spelled(instr: &Instr) -> bool {
    matches!(instr, Instr::Fence { .. } | Instr::FenceTso)
}

/// Puts the kinds of the placement in the places of the FENCEs of a hart.
fn change_code(text: &mut [u8], spans: &[Span], placement: &Placement, hart: u8, code: &[Instr])
    requires { length code.now ≤ most_instructions }
{
    let mut number: usize = 0;
    for (at, instr) in code.iter().enumerate() {
        if is_spelled(instr) {
            let slot = Slot { hart, at: at as u8 };
            if let Some(span) = span_at(spans, usize::from(hart), number) {
                change(text, span, instr, placement.get(slot));
            }
            number = number.saturating_add(1);
        }
    }
}

/// The bytes with the kinds of the placement in the places of FENCEs. Linear in the bytes.
pub(crate) fn changed(
    alloc: Global,
    bytes: &[u8],
    codes: &[Code],
    placement: &Placement,
) -> Result<Vec<u8>, AllocError>
    requires harts { length codes.now ≤ most_harts }
    requires lengths { All (λ code. length code ≤ most_instructions) codes.now }
{
    let mut text = Vec::new(alloc);
    text.extend_from_slice(bytes)?;
    if let Some(body) = skip_title(bytes) {
        let first = bytes.len().saturating_sub(body.text.len());
        let spans = spans_of(alloc, body.text, first)?;
        for (hart, code) in codes.iter().enumerate() {
            change_code(&mut text, &spans, placement, hart as u8, code.as_slice());
        }
    }
    Ok(text)
}
