//! The slots of a test: where a fence may be put.

ghost use Rattle.std.specs.Prelude.{◌≡◌, ◌<◌, length, IfOk, IsOkUnless, IsTrue};
ghost use Rattle.std.specs.List.{list_any};
ghost use Rattle.fs_kinds.specs.Limits.{most_numbered};
ghost use Rattle.fs_instr.specs.Instructions.{is_memory};
ghost use Rattle.fs_kinds.specs.declared.fault.Fault.TheVariants.{Memory};
ghost use Rattle.fs_kinds.specs.Slot.{is_rising};
ghost use Rattle.fs_model.specs.Slots.{is_slot, slots_in, slots};
ghost use Rattle.fs_model.specs.Test.{IsBounded};

use crate::test::Test;
use fs_instr::Instr;
use fs_kinds::{Fault, Slot};
use std::alloc::{AllocError, Global};

/// The slots of the test, in order of hart, then of position: before each memory instruction (lw, sw,
/// lr.w, sc.w or an AMO) that has an earlier one in the code of its hart. The error is F19.
pub fn slots(alloc: Global, test: &Test) -> Result<Vec<Slot>, Fault>
    requires { IsBounded test.now }
    ensures ok { IfOk result (λ found. found.items ≡ slots test.now) }
    ensures rising { IfOk result (λ found. IsTrue (is_rising found.items)) }
    ensures err { IsOkUnless result Memory }
{
    let mut found = Vec::new(alloc);
    for (hart, code) in test.codes.as_slice().iter().enumerate() {
        let here = slots_in(alloc, hart as u8, code.as_slice())?;
        found.extend_from_slice(&here)?;
    }
    Ok(found)
}

/// The slots of one hart.
fn slots_in(alloc: Global, hart: u8, code: &[Instr]) -> Result<Vec<Slot>, AllocError>
    requires { length code.now < most_numbered }
    ensures { IfOk result (λ found. found.items ≡ slots_in hart code.now) }
{
    (0..code.len() as u8)
        .filter(|at| is_slot(code, *at))
        .map(|at| Slot { hart, at })
        .collect(alloc)
}

/// Is the instruction a memory instruction, and an earlier one too?
#[tactic(auto, using(crate::proofs::AccessSteps::is_memory_at_steps))]
fn is_slot(code: &[Instr], at: u8) -> bool
    ensures { result ≡ is_slot code.now at }
{
    let at = usize::from(at);
    at < code.len() && code[at].is_memory() && has_memory_instruction(&code[..at])
}

fn has_memory_instruction(code: &[Instr]) -> bool
    ensures { result ≡ list_any is_memory code.now }
{
    code.iter().any(|instr| instr.is_memory())
}
