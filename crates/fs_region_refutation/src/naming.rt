//! The names of a test's memory instructions.

ghost use Rattle.std.specs.Prelude.{◌≡◌, ◌<◌, length, IfOk, IsOkUnless};
ghost use Rattle.fs_kinds.specs.Limits.{most_numbered};
ghost use Rattle.fs_kinds.specs.declared.fault.Fault.TheVariants.{Memory};
ghost use Rattle.fs_model.specs.Slots.{is_memory_at};
ghost use Rattle.fs_model.specs.Test.{IsBounded};
ghost use Rattle.fs_cert_evidence.specs.Regions.{names_in, names};
ghost use Rattle.fs_cert_evidence.specs.Trees.{is_name};

use fs_instr::Instr;
use fs_kinds::{Fault, OperationName};
use fs_model::Test;
use std::alloc::{AllocError, Global};

/// The names of the test's memory instructions, hart by hart, in the order of the code. Linear in the code. The error
/// is F19.
pub fn names(alloc: Global, test: &Test) -> Result<Vec<OperationName>, Fault>
    requires { IsBounded test.now }
    ensures ok { IfOk result (λ found. found.items ≡ names test.now) }
    ensures err { IsOkUnless result Memory }
{
    let mut found = Vec::new(alloc);
    for (hart, code) in test.codes.as_slice().iter().enumerate() {
        let here = names_in(alloc, hart as u8, code.as_slice())?;
        found.extend_from_slice(&here)?;
    }
    Ok(found)
}

/// The names of one hart's.
fn names_in(alloc: Global, hart: u8, code: &[Instr]) -> Result<Vec<OperationName>, AllocError>
    requires { length code.now < most_numbered }
    ensures { IfOk result (λ found. found.items ≡ names_in (hart, code.now)) }
{
    (0..code.len() as u8)
        .filter(|at| is_memory_at(code, *at))
        .map(|at| OperationName { hart, at })
        .collect(alloc)
}

/// Is the instruction there a memory instruction?
fn is_memory_at(code: &[Instr], at: u8) -> bool
    ensures { result ≡ is_memory_at code.now at }
{
    code.get(usize::from(at))
        .is_some_and(|instr| instr.is_memory())
}

/// Is it the name of a memory instruction of the test? In constant time.
pub fn is_name(test: &Test, name: OperationName) -> bool
    ensures { result ≡ is_name test.now name }
{
    match test.codes.get(usize::from(name.hart)) {
        Some(code) => is_memory_at(code.as_slice(), name.at),
        None => false,
    }
}
