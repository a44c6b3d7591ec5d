//! Executions that show the outcome.

ghost use Rattle.std.specs.Prelude.{◌≡◌, ◌<◌, ℕ, All, length, IfSome, IfNone, IfOk, IsOkUnless};
ghost use Rattle.fs_kinds.specs.declared.fault.Fault.TheVariants.{Memory};
ghost use Rattle.fs_model.specs.Test.{IsBounded, IsStart};
ghost use Rattle.fs_model.specs.Operations.{steps_of};
ghost use Rattle.fs_model.specs.Execution.{IsTrace};
ghost use Rattle.fs_model_axioms.specs.Final.{AreFinal};
ghost use Rattle.fs_model_brute_force.specs.Allowing.{AreWhole};
ghost use Rattle.fs_hart.specs.Steps.{steps_in};
ghost use Rattle.fs_model_brute_force.specs.Decisions.{Decides, ShowsOutcome};
ghost use Rattle.fs_model_brute_force.specs.Whole.{AreRuns, IsWholeRun};

use crate::axioms::obeys_axioms;
use crate::runs::registers_after;
use fs_hart::{Steps, Trace, operations};
use fs_kinds::{Fault, Placement};
use fs_model::{Step, Test};
use fs_model_axioms::{GlobalOrder, has_outcome};
use std::alloc::{AllocError, Global};

/// The run of these steps, with its registers at the end; nothing where they aren't a run of the hart.
fn whole_run(
    alloc: Global,
    test: &Test,
    hart: u8,
    steps: &[Step],
) -> Result<Option<Trace>, AllocError>
    requires test { IsBounded test.now }
    requires starts { All IsStart test.now.starts }
    requires hart { hart < length test.now.codes }
    ensures { IfOk result (IsWholeRun test.now hart steps.now) }
{
    let Some(registers) = registers_after(test, hart, steps) else {
        return Ok(None);
    };
    let steps = Steps::new(Vec::from_slice(alloc, steps)?);
    Ok(Some(Trace { steps, registers }))
}

/// The runs of these steps; nothing where they aren't runs of the test's harts, one for each.
fn whole_runs(alloc: Global, test: &Test, runs: &[Steps]) -> Result<Option<Vec<Trace>>, AllocError>
    requires test { IsBounded test.now }
    requires starts { All IsStart test.now.starts }
    ensures some { IfOk result (λ found.
        IfSome found (λ traces. (steps_in traces.items ≡ runs.now) × AreWhole test.now traces.items)) }
    ensures none { IfOk result (λ found. IfNone found (AreRuns test.now runs.now → ⊥)) }
{
    if runs.len() != test.codes.as_slice().len() {
        return Ok(None);
    }
    let mut traces = Vec::new(alloc);
    for (hart, steps) in runs.iter().enumerate() {
        let Some(trace) = whole_run(alloc, test, hart as u8, steps.as_slice())? else {
            return Ok(None);
        };
        traces.push(trace)?;
    }
    Ok(Some(traces))
}

/// Are these whole runs of the test's harts, with this order of their operations, an execution of the test with the
/// placement's fences, and does it show the outcome? It is as slow as `obeys_axioms`.
pub(crate) fn traces_show(
    alloc: Global,
    test: &Test,
    traces: &[Trace],
    placement: &Placement,
    order: &[u8],
) -> Result<bool, Fault>
    requires test { IsBounded test.now }
    requires last { AreFinal test.now traces.now }
    requires runs { (hart : ℕ) → hart < length test.now.codes
        → IsTrace test.now hart (steps_of (steps_in traces.now) hart) }
    ensures ok { IfOk result (λ shown.
        Decides shown (ShowsOutcome test.now placement.now (record { traces = steps_in traces.now; order = order.now }))) }
    ensures err { IsOkUnless result Memory }
{
    if !obeys_axioms(alloc, test, traces, placement, order)? {
        return Ok(false);
    }
    let operations = operations(alloc, test, traces)?;
    let order = GlobalOrder::new(alloc, operations.as_slice(), order)?;
    Ok(has_outcome(test, traces, operations.as_slice(), &order))
}

/// Are these steps, hart by hart, runs of the test's harts, and are they with this order of their operations an
/// execution of the test with the placement's fences that shows the outcome? The time is that of `is_run` for each
/// hart, and then that of `obeys_axioms`. The error is F19.
pub fn shows(
    alloc: Global,
    test: &Test,
    runs: &[Steps],
    placement: &Placement,
    order: &[u8],
) -> Result<bool, Fault>
    requires test { IsBounded test.now }
    requires starts { All IsStart test.now.starts }
    ensures ok { IfOk result (λ shown.
        Decides shown (ShowsOutcome test.now placement.now (record { traces = runs.now; order = order.now }))) }
    ensures err { IsOkUnless result Memory }
{
    match whole_runs(alloc, test, runs)? {
        Some(traces) => traces_show(alloc, test, &traces, placement, order),
        None => Ok(false),
    }
}
