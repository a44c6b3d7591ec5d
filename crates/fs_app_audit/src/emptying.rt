//! The test in which FENCEs order no memory.

ghost use Rattle.std.specs.Prelude.{◌≡◌, map, IfOk};
ghost use Rattle.fs_model_laws.specs.InPlace.{emptied_instr, emptied_code, emptied};

use crate::easing::DEVICES;
use crate::is_fence;
use fs_instr::Instr;
use fs_model::{Code, Codes, Test};
use std::alloc::{AllocError, Global};

/// The instruction, or `fence io,io` in place of a FENCE that orders memory.
fn emptied_instr(instr: &Instr) -> Instr
    ensures { result ≡ emptied_instr instr.now }
{
    if is_fence(*instr) {
        Instr::Fence {
            before: DEVICES,
            after: DEVICES,
        }
    } else {
        *instr
    }
}

fn emptied_code(alloc: Global, code: &[Instr]) -> Result<Code, AllocError>
    ensures { IfOk result (λ made. made ≡ emptied_code code.now) }
{
    let mut made = Vec::new(alloc);
    for instr in code {
        made.push(emptied_instr(instr))?;
    }
    Ok(Code::new(made))
}

fn emptied_codes(alloc: Global, codes: &[Code]) -> Result<Vec<Code>, AllocError>
    ensures { IfOk result (λ made. made.items ≡ map emptied_code codes.now) }
{
    let mut made = Vec::new(alloc);
    for code in codes {
        made.push(emptied_code(alloc, code.as_slice())?)?;
    }
    Ok(made)
}

/// The test with `fence io,io` in place of each FENCE that orders memory. Linear in the test. Fails only for want of
/// memory.
pub fn emptied(alloc: Global, mut test: Test) -> Result<Test, AllocError>
    ensures { IfOk result (λ made. made ≡ emptied test) }
{
    let codes = emptied_codes(alloc, test.codes.as_slice())?;
    test.codes = Codes::new(codes);
    Ok(test)
}
