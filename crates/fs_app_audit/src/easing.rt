//! The test in which FENCEs that name devices order no memory.

ghost use Rattle.std.specs.Prelude.{◌≡◌, map, IfOk};
ghost use Rattle.fs_app_audit.specs.Unfenced.{devices, eased_instr, eased_code, eased};

use crate::{is_fence, names_devices};
use fs_instr::{Instr, Letters};
use fs_model::{Code, Codes, Test};
use std::alloc::{AllocError, Global};

/// `io`.
pub(crate) const DEVICES: Letters = Letters {
    input: true,
    output: true,
    reads: false,
    writes: false,
};

/// The instruction, or `fence io,io` in place of a FENCE that orders memory and names devices.
fn eased_instr(instr: &Instr) -> Instr
    ensures { result ≡ eased_instr instr.now }
{
    if is_fence(*instr) && names_devices(*instr) {
        Instr::Fence {
            before: DEVICES,
            after: DEVICES,
        }
    } else {
        *instr
    }
}

fn eased_code(alloc: Global, code: &[Instr]) -> Result<Code, AllocError>
    ensures { IfOk result (λ made. made ≡ eased_code code.now) }
{
    let mut made = Vec::new(alloc);
    for instr in code {
        made.push(eased_instr(instr))?;
    }
    Ok(Code::new(made))
}

fn eased_codes(alloc: Global, codes: &[Code]) -> Result<Vec<Code>, AllocError>
    ensures { IfOk result (λ made. made.items ≡ map eased_code codes.now) }
{
    let mut made = Vec::new(alloc);
    for code in codes {
        made.push(eased_code(alloc, code.as_slice())?)?;
    }
    Ok(made)
}

/// The test with `fence io,io` in place of each FENCE that orders memory and names devices. Linear in the test. Fails
/// only for want of memory.
pub fn eased(alloc: Global, mut test: Test) -> Result<Test, AllocError>
    ensures { IfOk result (λ made. made ≡ eased test) }
{
    let codes = eased_codes(alloc, test.codes.as_slice())?;
    test.codes = Codes::new(codes);
    Ok(test)
}
