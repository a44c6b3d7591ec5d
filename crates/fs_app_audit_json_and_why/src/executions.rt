//! Executions that show the outcome of a test.

ghost use Rattle.std.specs.Prelude.{◌≡◌, ◌≢◌, IfErr, IfOk, IsOkUnless, string_bytes};
ghost use Rattle.std.specs.Arc.{arc_value};
ghost use Rattle.fs_model.specs.Allows.{Allows};
ghost use Rattle.fs_model.specs.Test.{IsTest};
ghost use Rattle.fs_cert_evidence.specs.CandidateFaults.{IsCandidateFault};
ghost use Rattle.fs_cert_evidence.specs.Shown.{IsShownBy};
ghost use Rattle.fs_app_audit_json_and_why.specs.Why.{TellsSome};

use fs_app_why::{file_of, told, verdict_on};
use fs_cert_evidence::Witness;
use fs_judge::Verdict;
use fs_kinds::{Fault, List, Placement};
use fs_litmus::Test;
use std::alloc::Global;
use std::sync::Arc;

/// The execution of the test with these fences that the witness gives, below this heading. The cost is that of `told`.
pub(crate) fn shown_text(
    alloc: Global,
    heading: &str,
    test: &Test,
    lines: &[List<usize>],
    placement: &Placement,
    witness: &Witness,
) -> Result<String, Fault>
    requires test { IsTest test.now }
    requires shown { IsShownBy test.now placement.now witness.now.witness }
    ensures told { IfOk result (λ text.
        TellsSome test.now placement.now lines.now heading.now (string_bytes text)) }
    ensures err { IsOkUnless result Fault.Memory }
{
    let file = file_of(alloc, witness.choices.as_slice(), witness.order.as_slice())?;
    let found = told(alloc, heading, test, lines, placement, &file)?;
    match found {
        Some(text) => Ok(text),
        None => unreachable!(),
    }
}

/// An execution of a test that allows its outcome with these fences, below this heading. The faults are those of
/// `verdict_on`. The cost is that of a verdict, and that of `told`.
pub(crate) fn some_text(
    alloc: Global,
    heading: &str,
    test: &Arc<Test>,
    lines: &[List<usize>],
    placement: &Placement,
    inferences: usize,
) -> Result<String, Fault>
    requires test { IsTest (arc_value test.now) }
    requires allowed { Allows (arc_value test.now) placement.now }
    ensures told { IfOk result (λ text.
        TellsSome (arc_value test.now) placement.now lines.now heading.now (string_bytes text)) }
    ensures err { IfErr result (λ f. f ≢ Fault.Memory → IsCandidateFault (arc_value test.now) f) }
{
    let verdict = verdict_on(alloc, test, placement, inferences)?;
    match verdict {
        Verdict::Allowed(witness) => shown_text(alloc, heading, test, lines, placement, &witness),
        Verdict::Forbids(_) => unreachable!(),
    }
}
