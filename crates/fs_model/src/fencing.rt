//! The code of a test with a FENCE before each filled slot of a placement.

ghost use Rattle.std.specs.Prelude.{◌≡◌, ◌≤◌, ℕ, All, Some, length, IfOk};
ghost use Rattle.fs_kinds.specs.Limits.{most_harts, most_instructions};
ghost use Rattle.fs_instr.specs.Instructions.{target_of};
ghost use Rattle.fs_model.specs.Fenced.{fence_of, position, moved, fences, fenced_code, fenced_codes};
ghost use Rattle.fs_model.specs.Test.{GoesForward};

use crate::lists::Code;
use fs_instr::{Instr, Letters};
use fs_kinds::{Kind, Placement, Slot};
use std::alloc::{AllocError, Global};

/// The codes with their fences, which may stand before any instruction, from hart 0 on. Labels move with what stands at
/// them, and a label at a filled slot stands before its fence. The error is want of memory. For each instruction linear
/// in the placement.
pub fn fenced_codes(
    alloc: Global,
    placement: &Placement,
    codes: &[Code],
) -> Result<Vec<Code>, AllocError>
    requires harts { length codes.now ≤ most_harts }
    requires lengths { All (λ code. length code ≤ most_instructions) codes.now }
    requires forward { All GoesForward codes.now }
    ensures { IfOk result (λ fenced. fenced.items ≡ fenced_codes placement.now codes.now) }
{
    let mut fenced = Vec::new(alloc);
    for (hart, code) in codes.iter().enumerate() {
        fenced.push(fenced_code(alloc, placement, hart as u8, code.as_slice())?)?;
    }
    Ok(fenced)
}

fn fenced_code(
    alloc: Global,
    placement: &Placement,
    hart: u8,
    code: &[Instr],
) -> Result<Code, AllocError>
    requires lengths { length code.now ≤ most_instructions }
    requires forward { GoesForward code.now }
    ensures { IfOk result (λ fenced. fenced ≡ fenced_code placement.now (hart, code.now)) }
{
    let mut fenced = Vec::new(alloc);
    for (at, instr) in code.iter().enumerate() {
        let slot = Slot { hart, at: at as u8 };
        if let Some(kind) = placement.get(slot) {
            fenced.push(fence_of(kind))?;
        }
        fenced.push(moved(placement, hart, instr))?;
    }
    Ok(Code::new(fenced))
}

/// The instruction, going to where its label stands in the fenced code.
fn moved(placement: &Placement, hart: u8, instr: &Instr) -> Instr
    requires { (target : ℕ) → target_of instr.now ≡ Some target → target ≤ most_instructions }
    ensures { result ≡ moved placement.now hart instr.now }
{
    match instr.target() {
        Some(target) => instr.with_target(position(placement, hart, target)),
        None => *instr,
    }
}

/// Where a label of instruction `at` stands in the fenced code of its hart.
fn position(placement: &Placement, hart: u8, at: u8) -> u8
    requires { at ≤ most_instructions }
    ensures { result ≡ position placement.now hart at }
{
    let mut position = at;
    for earlier in 0..at {
        let slot = Slot { hart, at: earlier };
        if placement.get(slot).is_some() {
            position += 1;
        }
    }
    position
}

const READ: Letters = Letters {
    input: false,
    output: false,
    reads: true,
    writes: false,
};

const WRITE: Letters = Letters {
    input: false,
    output: false,
    reads: false,
    writes: true,
};

const BOTH: Letters = Letters {
    input: false,
    output: false,
    reads: true,
    writes: true,
};

/// The FENCE of a kind.
pub fn fence_of(kind: Kind) -> Instr
    ensures { result ≡ fence_of kind }
{
    let (before, after) = match kind {
        Kind::RR => (READ, READ),
        Kind::RW => (READ, WRITE),
        Kind::RRw => (READ, BOTH),
        Kind::WR => (WRITE, READ),
        Kind::WW => (WRITE, WRITE),
        Kind::WRw => (WRITE, BOTH),
        Kind::RwR => (BOTH, READ),
        Kind::RwW => (BOTH, WRITE),
        Kind::RwRw => (BOTH, BOTH),
        Kind::Tso => return Instr::FenceTso,
    };
    Instr::Fence { before, after }
}
