//! The instructions of a test in whose text FENCEs are those of a placement.

ghost use Rattle.std.specs.Prelude.{◌≡◌, ◌≤◌, All, count_by, length, map, take, IfOk};
ghost use Rattle.std.specs.List.{enumerate_from};
ghost use Rattle.fs_kinds.specs.Limits.{most_harts, most_instructions};
ghost use Rattle.fs_app_file_text.specs.Rewritten.{fence_or_gone, has_letters, is_left, is_ours, left, marked_code};
ghost use Rattle.fs_app_file_text.specs.Rewritten.{marked_instr, moved, position, rewritten_code};

use crate::fences::{is_fence, names_devices};
use fs_instr::{Instr, Letters};
use fs_kinds::{Kind, Placement, Slot};
use fs_model::{Code, Codes, fence_of};
use std::alloc::{AllocError, Global};

const NONE: Letters = Letters {
    input: false,
    output: false,
    reads: false,
    writes: false,
};

fn has_letters(letters: Letters) -> bool
    ensures { result ≡ has_letters letters }
{
    (letters.input || letters.output) || (letters.reads || letters.writes)
}

/// Doesn't it stand for a FENCE that goes?
fn is_left(instr: &Instr) -> bool
    ensures { result ≡ is_left instr.now }
{
    match instr {
        Instr::Fence { before, after } => has_letters(*before) || has_letters(*after),
        _ => true,
    }
}

/// The FENCE of a kind; for none one without letters.
fn fence_or_gone(kind: Option<Kind>) -> Instr
    ensures { result ≡ fence_or_gone kind }
{
    match kind {
        Some(kind) => fence_of(kind),
        None => Instr::Fence {
            before: NONE,
            after: NONE,
        },
    }
}

/// Is it a FENCE that orders memory and names no devices?
pub(crate) fn is_ours(instr: &Instr) -> bool
    ensures { result ≡ is_ours instr.now }
{
    is_fence(*instr) && !names_devices(*instr)
}

/// The fence of the placement in the place of such a FENCE.
fn marked_instr(placement: &Placement, hart: u8, at: u8, instr: &Instr) -> Instr
    ensures { result ≡ marked_instr placement.now hart (at, instr.now) }
{
    if is_ours(instr) {
        fence_or_gone(placement.get(Slot { hart, at }))
    } else {
        *instr
    }
}

fn marked_code(
    alloc: Global,
    placement: &Placement,
    hart: u8,
    code: &[Instr],
) -> Result<Vec<Instr>, AllocError>
    requires { length code.now ≤ most_instructions }
    ensures { IfOk result (λ made. made.items ≡ marked_code placement.now (hart, code.now)) }
{
    let mut made = Vec::new(alloc);
    for (at, instr) in code.iter().enumerate() {
        made.push(marked_instr(placement, hart, at as u8, instr))?;
    }
    Ok(made)
}

/// The first instructions, so many, or all where there are fewer.
fn before(code: &[Instr], count: u8) -> &[Instr]
    ensures { result.now ≡ take count code.now }
{
    let count = usize::from(count);
    if count < code.len() {
        &code[..count]
    } else {
        code
    }
}

fn count_left(code: &[Instr]) -> usize
    ensures { result ≡ count_by is_left code.now }
{
    code.iter().filter(|instr| is_left(instr)).count()
}

/// Where a label of instruction `at` stands in what is left.
fn position(code: &[Instr], at: u8) -> u8
    requires { length code.now ≤ most_instructions }
    ensures { result ≡ position code.now at }
{
    count_left(before(code, at)) as u8
}

/// The instruction, going to where its label stands in what is left.
fn moved(code: &[Instr], instr: &Instr) -> Instr
    requires { length code.now ≤ most_instructions }
    ensures { result ≡ moved code.now instr.now }
{
    match instr.target() {
        Some(target) => instr.with_target(position(code, target)),
        None => *instr,
    }
}

/// What is left of the code.
fn left(alloc: Global, code: &[Instr]) -> Result<Code, AllocError>
    requires { length code.now ≤ most_instructions }
    ensures { IfOk result (λ made. made ≡ left code.now) }
{
    let mut made = Vec::new(alloc);
    for instr in code {
        if is_left(instr) {
            made.push(moved(code, instr))?;
        }
    }
    Ok(Code::new(made))
}

fn rewritten_code(
    alloc: Global,
    placement: &Placement,
    hart: u8,
    code: &[Instr],
) -> Result<Code, AllocError>
    requires { length code.now ≤ most_instructions }
    ensures { IfOk result (λ made. made ≡ rewritten_code placement.now (hart, code.now)) }
{
    let marked = marked_code(alloc, placement, hart, code)?;
    left(alloc, &marked)
}

/// The codes with the fences of a placement in the places of their FENCEs. The square of a code's length at most.
pub(crate) fn rewritten_codes(
    alloc: Global,
    placement: &Placement,
    codes: &[Code],
) -> Result<Codes, AllocError>
    requires harts { length codes.now ≤ most_harts }
    requires lengths { All (λ code. length code ≤ most_instructions) codes.now }
    ensures { IfOk result (λ made. made ≡ map (rewritten_code placement.now) (enumerate_from 0 codes.now)) }
{
    let mut made = Vec::new(alloc);
    for (hart, code) in codes.iter().enumerate() {
        made.push(rewritten_code(alloc, placement, hart as u8, code.as_slice())?)?;
    }
    Ok(Codes::new(made))
}
