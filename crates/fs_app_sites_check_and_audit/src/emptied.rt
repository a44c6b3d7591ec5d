//! The test in which the FENCEs at copies of sites order no memory.

ghost use Rattle.std.specs.Prelude.{◌≡◌, ◌≤◌, [], All, IfOk, length, map};
ghost use Rattle.std.specs.List.{enumerate_from};
ghost use Rattle.fs_kinds.specs.Limits.{most_harts, most_instructions};
ghost use Rattle.fs_model.specs.Test.{IsBounded, IsTest};
ghost use Rattle.fs_model_laws.specs.InPlace.{followed_code, followed_instr};
ghost use Rattle.fs_app_sites.specs.Sites.{copy_value};
ghost use Rattle.fs_app_sites_check_and_audit.specs.Copies.{emptied_at, is_copied};

use fs_app_file_text::is_fence;
use fs_app_sites::SiteCopy;
use fs_instr::{Instr, Letters};
use fs_kinds::Slot;
use fs_model::{Code, Codes, Test};
use std::alloc::{AllocError, Global};

/// Devices alone.
const DEVICES: Letters = Letters {
    input: true,
    output: true,
    reads: false,
    writes: false,
};

/// Does a copy of a site stand there?
fn is_copied(copies: &[SiteCopy], slot: Slot) -> bool
    ensures { result ≡ is_copied (map copy_value copies.now) slot }
{
    for copy in copies {
        if copy.slot == slot {
            return true;
        }
    }
    false
}

/// The instruction of the slot, or `fence io,io` in place of a FENCE that orders memory at a copy.
fn emptied_instr(copies: &[SiteCopy], slot: Slot, instr: &Instr) -> Instr
    ensures { result ≡ followed_instr (is_copied (map copy_value copies.now)) [] slot.hart (slot.at, instr.now) }
{
    if is_fence(*instr) && is_copied(copies, slot) {
        Instr::Fence {
            before: DEVICES,
            after: DEVICES,
        }
    } else {
        *instr
    }
}

/// The code of a hart.
fn emptied_code(
    alloc: Global,
    copies: &[SiteCopy],
    hart: u8,
    code: &[Instr],
) -> Result<Code, AllocError>
    requires { length code.now ≤ most_instructions }
    ensures { IfOk result (λ made. made ≡ followed_code (is_copied (map copy_value copies.now)) [] (hart, code.now)) }
{
    let mut made = Vec::new(alloc);
    for (at, instr) in code.iter().enumerate() {
        let slot = Slot { hart, at: at as u8 };
        made.push(emptied_instr(copies, slot, instr))?;
    }
    Ok(Code::new(made))
}

/// The codes of all harts.
fn emptied_codes(
    alloc: Global,
    copies: &[SiteCopy],
    codes: &[Code],
) -> Result<Vec<Code>, AllocError>
    requires harts { length codes.now ≤ most_harts }
    requires lengths { All (λ code. length code ≤ most_instructions) codes.now }
    ensures { IfOk result (λ made. made.items
        ≡ map (followed_code (is_copied (map copy_value copies.now)) []) (enumerate_from 0 codes.now)) }
{
    let mut made = Vec::new(alloc);
    for (hart, code) in codes.iter().enumerate() {
        made.push(emptied_code(alloc, copies, hart as u8, code.as_slice())?)?;
    }
    Ok(made)
}

/// The test with `fence io,io` in place of each FENCE that orders memory at one of these copies. Each instruction that is
/// a FENCE is looked for in all copies. Fails only for want of memory.
pub(crate) fn emptied_at(
    alloc: Global,
    copies: &[SiteCopy],
    mut test: Test,
) -> Result<Test, AllocError>
    requires { IsTest test }
    ensures value { IfOk result (λ made. made ≡ emptied_at (map copy_value copies.now) test) }
    ensures test { IfOk result IsTest }
{
    let codes = emptied_codes(alloc, copies, test.codes.as_slice())?;
    test.codes = Codes::new(codes);
    Ok(test)
}
