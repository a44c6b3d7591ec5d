//! A test with fences before any of its instructions, in print.

ghost use Rattle.std.specs.Prelude.{◌≡◌, ◌≢◌, IfOk, IfErr, string_bytes};
ghost use Rattle.fs_kinds.specs.declared.fault.Fault.TheVariants.{Memory, TooBig};
ghost use Rattle.fs_kinds.specs.declared.fault.Limit.TheVariants.{Instructions};
ghost use Rattle.fs_litmus.specs.Fence.{IsShort};
ghost use Rattle.fs_model.specs.Fenced.{fenced};
ghost use Rattle.fs_model.specs.Printed.{printed};
ghost use Rattle.fs_model.specs.Test.{IsBounded, IsTest};
ghost use Rattle.fs_app_sites.specs.inner.Short.{is_short};

use fs_app_file_text::print;
use fs_kinds::{Fault, Limit, MOST_INSTRUCTIONS, Placement};
use fs_litmus::{Test, reads_back};
use fs_model::{Code, Codes, fenced_codes};
use std::alloc::{AllocError, Global};

/// The test with the fences.
fn fence(alloc: Global, mut test: Test, placement: &Placement) -> Result<Test, AllocError>
    requires { IsBounded test }
    ensures { IfOk result (λ made. made ≡ fenced test placement.now) }
{
    let codes = fenced_codes(alloc, placement, test.codes.as_slice())?;
    test.codes = Codes::new(codes);
    Ok(test)
}

/// Has no hart too many instructions?
fn is_short(codes: &[Code]) -> bool
    ensures { result ≡ is_short codes.now }
{
    codes
        .iter()
        .all(|code| code.as_slice().len() <= MOST_INSTRUCTIONS)
}

/// The printed form of the test with the placement's fences, which may stand before any instruction, as `place` prints
/// it: with a label before the fence. F9 where a hart has too many instructions with its fences, so that the text would
/// read as no test; or F19. For each instruction linear in the placement.
pub(crate) fn write_fenced(
    alloc: Global,
    test: Test,
    placement: &Placement,
) -> Result<String, Fault>
    requires { IsTest test }
    ensures ok { IfOk result (λ text. string_bytes text ≡ printed (fenced test placement.now)) }
    ensures short { IfOk result (λ text. IsShort (fenced test placement.now)) }
    ensures err { IfErr result (λ f. f ≢ Memory
        → (f ≡ TooBig Instructions) × ¬ IsShort (fenced test placement.now)) }
{
    reads_back(&test, placement);
    let made = fence(alloc, test, placement)?;
    if !is_short(made.codes.as_slice()) {
        return Err(Fault::TooBig {
            what: Limit::Instructions,
        });
    }
    print(alloc, &made)
}
