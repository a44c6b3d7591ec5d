//! The test without its FENCE instructions, but for those that name devices.

ghost use Rattle.std.specs.Prelude.{◌≡◌, ◌≤◌, All, count_by, length, map, IfOk};
ghost use Rattle.fs_kinds.specs.Limits.{most_instructions};
ghost use Rattle.fs_model.specs.Test.{IsBounded};
ghost use Rattle.fs_app_audit.specs.Unfenced.{is_kept, moved, position, unfenced, unfenced_code};

use crate::slices::before;
use fs_app_file_text::{is_fence, names_devices};
use fs_instr::Instr;
use fs_model::{Code, Codes, Test};
use std::alloc::{AllocError, Global};

fn is_kept(instr: &Instr) -> bool
    ensures { result ≡ is_kept instr.now }
{
    !is_fence(*instr) || names_devices(*instr)
}

fn count_kept(code: &[Instr]) -> usize
    ensures { result ≡ count_by is_kept code.now }
{
    code.iter().filter(|instr| is_kept(instr)).count()
}

/// Where a label of instruction `at` stands in the unfenced code. Linear in the code's length.
pub fn position(code: &[Instr], at: usize) -> u8
    requires { length code.now ≤ most_instructions }
    ensures { result ≡ position code.now at }
{
    count_kept(before(code, at)) as u8
}

/// The instruction, going to where its label stands in the unfenced code.
fn moved(code: &[Instr], instr: &Instr) -> Instr
    requires { length code.now ≤ most_instructions }
    ensures { result ≡ moved code.now instr.now }
{
    match instr.target() {
        Some(target) => instr.with_target(position(code, usize::from(target))),
        None => *instr,
    }
}

fn unfenced_code(alloc: Global, code: &[Instr]) -> Result<Code, AllocError>
    requires { length code.now ≤ most_instructions }
    ensures { IfOk result (λ made. made ≡ unfenced_code code.now) }
{
    let mut made = Vec::new(alloc);
    for instr in code {
        if is_kept(instr) {
            made.push(moved(code, instr))?;
        }
    }
    Ok(Code::new(made))
}

fn unfenced_codes(alloc: Global, codes: &[Code]) -> Result<Vec<Code>, AllocError>
    requires { All (λ code. length code ≤ most_instructions) codes.now }
    ensures { IfOk result (λ made. made.items ≡ map unfenced_code codes.now) }
{
    let mut made = Vec::new(alloc);
    for code in codes {
        made.push(unfenced_code(alloc, code.as_slice())?)?;
    }
    Ok(made)
}

/// The test without its FENCEs that order memory and name no devices; labels stay before what stood behind them. The
/// square of a code's length at most. Fails only for want of memory.
pub fn unfenced(alloc: Global, mut test: Test) -> Result<Test, AllocError>
    requires { IsBounded test }
    ensures { IfOk result (λ made. made ≡ unfenced test) }
{
    let codes = unfenced_codes(alloc, test.codes.as_slice())?;
    test.codes = Codes::new(codes);
    Ok(test)
}
