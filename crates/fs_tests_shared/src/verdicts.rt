//! Verdicts on placements, from texts: for the tests of refused memory too.
ghost use Rattle.std.specs.Prelude.{◌≡◌, List, IfOk};
ghost use Rattle.std.specs.Arc.{arc_value};
ghost use Rattle.fs_kinds.specs.declared.placement.Entry.{Entry};
ghost use Rattle.fs_kinds.specs.Placement.{slots_of};
ghost use Rattle.fs_model.specs.Slots.{slots};
ghost use Rattle.fs_model.specs.Test.{IsBounded};
ghost use Rattle.fs_judge.specs.Verdicts.{IsVerdict};

use crate::questions::placement_of;
use fs_cert_evidence::Cycles;
use fs_judge::{Problem, USUAL_INFERENCES, Verdict};
use fs_kinds::Fault;
use fs_litmus::read_test;
use std::alloc::Global;
use std::sync::Arc;

/// The problem of the test that the text holds.
pub fn problem_of(alloc: Global, text: &str) -> Result<Arc<Problem>, Fault>
    ensures { IfOk result (λ problem. IsBounded (arc_value problem)) }
{
    let test = Arc::new(alloc, read_test(alloc, text.as_bytes())?)?;
    Problem::shared(alloc, test, USUAL_INFERENCES)
}

/// The verdict on the placement that the words name.
pub fn verdict_on(alloc: Global, problem: &Problem, words: &str) -> Result<Verdict, Fault>
    requires { IsBounded problem.now }
    ensures ok { IfOk result
        (λ verdict. (p : List Entry) × (slots_of p ≡ slots problem.now) × IsVerdict problem.now p verdict) }
{
    let placement = placement_of(alloc, problem.test(), words)?;
    problem.verdict(alloc, &placement, &[])
}

/// How many cycles there are, or inferences.
pub fn count_of(cycles: &Cycles) -> usize {
    match cycles {
        Cycles::Listed(cycles) => cycles.len(),
        Cycles::Inferred(inferences) => inferences.len(),
    }
}
