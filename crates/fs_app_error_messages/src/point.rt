//! Which token of a test file a fault is of, and where it begins.

ghost use Rattle.std.specs.Prelude.{◌≡◌, ◌≢◌, ◌+◌, ◌≤◌, ◌<◌, ◌^◌, ℕ, length, drop, IfOk, IfSome, IsNone, Some};
ghost use Rattle.std.specs.Str.{IsUtf8, IsValidUpTo};
ghost use Rattle.fs_kinds.specs.FaultLine.{number};
ghost use Rattle.fs_kinds.specs.declared.fault.Fault.{Fault};
ghost use Rattle.fs_litmus_tokens.specs.Tokens.{views};
ghost use Rattle.fs_litmus.specs.Title.{HasBody};
ghost use Rattle.fs_litmus.specs.Reads.{HasTokens};
ghost use Rattle.fs_litmus.specs.Faults.{IsTestFault};
ghost use Rattle.fs_app_error_messages.specs.Apart.{apart};
ghost use Rattle.fs_app_error_messages.specs.Points.{aim_of, line_of, end_of, is_line_end, IsFaultIn, IsPlaced};
ghost use Rattle.fs_app_error_messages.specs.Points.{IsPoint};

use crate::apart::apart;
use crate::condition::atom_number;
use crate::first::first_fault;
use crate::slices::from;
use crate::title::{body_start, title_start};
use crate::walk::token_start;
use fs_kinds::Fault;
use fs_litmus_tokens::{Token, tokens};
use std::alloc::{AllocError, Global};

/// What a message points at.
#[derive(Clone, Copy)]
pub enum Point {
    /// The token of this number, from 0 on, which begins at this offset.
    Token(usize, usize),
    /// The byte at this offset, or the end of the file.
    Byte(usize),
}

/// What a fault of a test file is pointed at by.
#[derive(Clone, Copy)]
enum Aim {
    /// The first byte that isn't UTF-8.
    Encoding,
    /// The first byte of the title's line.
    Title,
    /// The token that it is of, in its line.
    InLine,
    /// The first token of an atom.
    Atom,
    Nowhere,
}

fn aim_of(fault: Fault) -> Aim
    ensures { result ≡ aim_of fault }
{
    match fault {
        Fault::BadUtf8 => Aim::Encoding,
        Fault::NotRiscv => Aim::Title,
        Fault::Syntax { .. }
        | Fault::UnknownInstr { .. }
        | Fault::BadAnnotation { .. }
        | Fault::BadLabel { .. }
        | Fault::BadInit { .. } => Aim::InLine,
        Fault::BadCondition => Aim::Atom,
        _ => Aim::Nowhere,
    }
}

fn line_of(fault: Fault) -> Option<usize>
    ensures { result ≡ line_of fault }
{
    match fault {
        Fault::Syntax { line }
        | Fault::UnknownInstr { line }
        | Fault::BadAnnotation { line }
        | Fault::BadLabel { line }
        | Fault::BadInit { line } => Some(line),
        _ => None,
    }
}

/// The number of the token in the line of the fault that was found, where that is the other but for its line.
fn number_of(found: Fault, fault: Fault) -> Option<usize>
    ensures number { IfSome result (λ n. number found ≡ number fault) }
    ensures line { IfSome result (λ n. line_of found ≡ Some (n + 2)) }
    ensures absent { IsNone result → number found ≡ number fault → (n : ℕ) → line_of found ≢ Some (n + 2) }
{
    if found.number() != fault.number() {
        return None;
    }
    line_of(found)?.checked_sub(2)
}

/// The number of the token that the fault is of, or how many there are, where it is of the end.
fn fault_number(
    alloc: Global,
    tokens: &[Token<'_>],
    closed: bool,
    fault: Fault,
) -> Result<Option<usize>, AllocError>
    ensures found { IfOk result (λ o. IfSome o (IsFaultIn (apart (views tokens.now) closed) fault)) }
    ensures absent { IfOk result (λ o. IsNone o → (n : ℕ) → ¬ IsFaultIn (apart (views tokens.now) closed) fault n) }
{
    let file = apart(alloc, tokens, closed)?;
    match first_fault(alloc, file.as_bytes())? {
        Some(found) => Ok(number_of(found, fault)),
        None => Ok(None),
    }
}

/// What the fault is pointed at by, in a file whose initial values begin at this offset, in this line.
fn text_point(
    alloc: Global,
    bytes: &[u8],
    start: usize,
    line: usize,
    fault: Fault,
) -> Result<Option<Point>, AllocError>
    requires body { HasBody bytes.now (drop start bytes.now) line }
    requires within { start ≤ length bytes.now }
    requires few { line ≤ start + 1 }
    requires aim { aim_of fault ≡ Aim.InLine }
    ensures { IfOk result (IsPlaced bytes.now fault) }
{
    let text = from(bytes, start);
    let (tokens, closed) = tokens(alloc, text, line)?;
    let Some(number) = fault_number(alloc, &tokens, closed, fault)? else {
        return Ok(None);
    };
    if number >= tokens.len() {
        return Ok(Some(Point::Byte(end_of(bytes))));
    }
    match token_start(text, number) {
        Some(at) => Ok(Some(Point::Token(number, start + at))),
        None => Ok(None),
    }
}

/// Is it an LF?
fn is_line_end(byte: Option<u8>) -> bool
    ensures { result ≡ is_line_end byte }
{
    match byte {
        Some(byte) => byte == b'\n',
        None => false,
    }
}

/// The offset behind the last line.
fn end_of(bytes: &[u8]) -> usize
    ensures value { result ≡ end_of bytes.now }
    ensures within { result ≤ length bytes.now }
{
    let last = bytes.len().saturating_sub(1);
    if is_line_end(bytes.get(last).copied()) {
        last
    } else {
        bytes.len()
    }
}

/// The first token of the atom that a fault of the condition is of, in a file whose initial values begin at this
/// offset, in this line.
fn atom_point(
    alloc: Global,
    bytes: &[u8],
    start: usize,
    line: usize,
) -> Result<Option<Point>, AllocError>
    requires body { HasBody bytes.now (drop start bytes.now) line }
    requires within { start ≤ length bytes.now }
    requires few { line ≤ start + 1 }
    ensures { IfOk result (IsPlaced bytes.now Fault.BadCondition) }
{
    let text = from(bytes, start);
    let (tokens, closed) = tokens(alloc, text, line)?;
    if !closed {
        return Ok(None);
    }
    let Some(number) = atom_number(alloc, &tokens)? else {
        return Ok(None);
    };
    match token_start(text, number) {
        Some(at) => Ok(Some(Point::Token(number, start + at))),
        None => Ok(None),
    }
}

/// What a fault of the condition is pointed at by.
fn condition_point(alloc: Global, bytes: &[u8]) -> Result<Option<Point>, AllocError>
    ensures { IfOk result (IsPlaced bytes.now Fault.BadCondition) }
{
    match body_start(bytes) {
        Some((start, line)) => atom_point(alloc, bytes, start, line),
        None => Ok(None),
    }
}

/// What a fault of the form of the text, of an instruction, a label or an initial value is pointed at by.
fn form_point(alloc: Global, bytes: &[u8], fault: Fault) -> Result<Option<Point>, AllocError>
    requires { aim_of fault ≡ Aim.InLine }
    ensures { IfOk result (IsPlaced bytes.now fault) }
{
    match body_start(bytes) {
        Some((start, line)) => text_point(alloc, bytes, start, line, fault),
        None => Ok(None),
    }
}

/// The first byte that isn't UTF-8.
fn encoding_point(bytes: &[u8]) -> Option<Point>
    ensures { IsPlaced bytes.now Fault.BadUtf8 result }
{
    match str::from_utf8(bytes) {
        Ok(_) => None,
        Err(error) => Some(Point::Byte(error.valid_up_to())),
    }
}

/// Where the fault of a test file is, where it has a place. Linear in the bytes. Fails only for want of memory.
pub fn point_of(alloc: Global, bytes: &[u8], fault: Fault) -> Result<Option<Point>, AllocError>
    ensures { IfOk result (IsPlaced bytes.now fault) }
{
    match aim_of(fault) {
        Aim::Encoding => Ok(encoding_point(bytes)),
        Aim::Title => Ok(Some(Point::Byte(title_start(bytes)))),
        Aim::InLine => form_point(alloc, bytes, fault),
        Aim::Atom => condition_point(alloc, bytes),
        Aim::Nowhere => Ok(None),
    }
}
