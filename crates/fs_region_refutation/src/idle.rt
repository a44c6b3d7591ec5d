//! A candidate in which one hart runs and the others do nothing.

ghost use Rattle.std.specs.Prelude.{◌≡◌, ◌<◌, ℕ, [], Some, length, map, slice_get, IfOk, IsOkUnless};
ghost use Rattle.fs_kinds.specs.declared.fault.Fault.TheVariants.{Memory};
ghost use Rattle.fs_model.specs.Numbers.{numbers_below};
ghost use Rattle.fs_model.specs.Test.{IsBounded};
ghost use Rattle.fs_model.specs.Execution.{code_of};
ghost use Rattle.fs_hart.specs.Steps.{steps_in};
ghost use Rattle.fs_cert_evidence.specs.Musts.{traces_of};
ghost use Rattle.fs_region_refutation.specs.Alone.{IsRun};
ghost use Rattle.fs_region_refutation.specs.inner.Tables.{IsAlone};

use fs_cand::{Candidate, Sources, StoreOrder, Traces};
use fs_hart::{Steps, Trace};
use fs_instr::Instr;
use fs_kinds::Fault;
use fs_model::Test;
use std::alloc::{AllocError, Global};

/// The code of the hart.
pub(crate) fn code_of(test: &Test, hart: u8) -> &[Instr]
    requires { hart < length test.now.codes }
    ensures { result.now ≡ code_of test.now hart }
{
    test.codes.as_slice()[usize::from(hart)].as_slice()
}

/// A run of no steps.
fn idle(alloc: Global) -> Trace
    ensures { result.steps ≡ [] }
{
    Trace {
        steps: Steps::new(Vec::new(alloc)),
        registers: [0; 32],
    }
}

/// So many runs of no steps.
fn idle_traces(alloc: Global, harts: usize) -> Result<Vec<Trace>, AllocError>
    ensures { IfOk result (λ idle. steps_in idle.items ≡ map (λ h. []) (numbers_below harts)) }
{
    let mut traces = Vec::with_capacity(alloc, harts)?;
    for hart in 0..harts {
        traces.push(idle(alloc))?;
    }
    Ok(traces)
}

/// The run of the hart, and runs of no steps of the others.
fn traces(alloc: Global, test: &Test, hart: u8, trace: Trace) -> Result<Traces, AllocError>
    requires { hart < length test.now.codes }
    ensures steps { IfOk result (λ traces. steps_in traces ≡ traces_of test.now hart trace.steps) }
    ensures own { IfOk result (λ traces. slice_get traces hart ≡ Some trace) }
{
    let mut traces = idle_traces(alloc, test.codes.len())?;
    traces[usize::from(hart)] = trace;
    Ok(Traces::new(traces))
}

/// The candidate with the run of the hart, runs of no steps of the others, and no sources and orders. The error is F19.
pub(crate) fn candidate_of(
    alloc: Global,
    test: &Test,
    hart: u8,
    trace: Trace,
) -> Result<Candidate, Fault>
    requires test { IsBounded test.now }
    requires run { IsRun test.now hart trace }
    ensures ok { IfOk result (λ candidate. IsAlone test.now hart trace.steps candidate) }
    ensures err { IsOkUnless result Memory }
{
    let traces = traces(alloc, test, hart, trace)?;
    let sources = Sources::new(Vec::new(alloc));
    let orders = StoreOrder::new(Vec::new(alloc));
    Candidate::new(alloc, test, traces, sources, orders)
}
