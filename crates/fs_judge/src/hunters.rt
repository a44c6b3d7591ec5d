//! What hunts over a test, made of its runs.

ghost use Rattle.std.specs.Prelude.{IsOkUnless};
ghost use Rattle.fs_kinds.specs.declared.fault.Fault.TheVariants.{Memory};

use crate::atoms::condition_of;
use crate::harts::harts;
use fs_judge_hunt::Hunter;
use fs_kinds::{Fault, List, OperationName};
use fs_model::Test;
use fs_region_refutation::Lone;
use std::alloc::{AllocError, Global};

/// What hunts over the test, with the names of its memory instructions and for each hart all of its runs, in choice
/// order. The cost: for each name of a hart its runs times the logarithm of how many different things they do there;
/// for each two names of it the rules of preserved program order, once for the runs that execute the same instructions
/// and access the same locations; and that of `hunter_asking`. The error is F19.
pub fn hunter_of(
    alloc: Global,
    test: &Test,
    names: &[OperationName],
    runs: &[List<Lone>],
) -> Result<Hunter, Fault>
    ensures err { IsOkUnless result Memory }
{
    let harts = harts(alloc, test, names, runs)?;
    let condition = condition_of(alloc, test, runs)?;
    Ok(Hunter::new(alloc, test, names, harts, condition)?)
}

/// What hunts over another test with the same program, and so the same runs. The cost: for each part of its condition
/// that speaks of a register, the runs of a hart.
pub fn hunter_asking(
    alloc: Global,
    hunter: &Hunter,
    test: &Test,
    runs: &[List<Lone>],
) -> Result<Hunter, AllocError> {
    let condition = condition_of(alloc, test, runs)?;
    hunter.asking(condition)
}
