//! The runs of a witness.

ghost use Rattle.std.specs.Prelude.{◌≡◌, All, length, Some, IfOk, IfErr, IsOkUnless};
ghost use Rattle.fs_kinds.specs.declared.fault.Fault.TheVariants.{Memory};
ghost use Rattle.fs_model.specs.Test.{IsBounded, IsStart};
ghost use Rattle.fs_check.specs.inner.WitnessRuns.{reason_of, AreRunsOf};

use fs_cand::Traces;
use fs_cert_evidence::Choices;
use fs_hart::{Run, Trace, trace_of};
use fs_kinds::{Fault, Reason};
use fs_model::Test;
use std::alloc::Global;

// What choices make of the harts: a whole run of each, or the first reason why there are none.
#[derive(Drop)]
pub(crate) enum Runs {
    Whole(Traces),
    Stopped(Reason),
}

/// What the choices make of the harts of the test.
pub(crate) fn make_runs(alloc: Global, test: &Test, choices: &[Choices]) -> Result<Runs, Fault>
    requires test { IsBounded test.now }
    requires starts { All IsStart test.now.starts }
    requires lists { length choices.now ≡ length test.now.codes }
    ensures ok { IfOk result (AreRunsOf test.now choices.now) }
    ensures err { IsOkUnless result Memory }
{
    let mut traces = Vec::new(alloc);
    for (hart, list) in choices.iter().enumerate() {
        let hart = hart as u8;
        match whole(hart, trace_of(alloc, test, hart, list.as_slice())?) {
            Ok(trace) => traces.push(trace)?,
            Err(reason) => return Ok(Runs::Stopped(reason)),
        }
    }
    Ok(Runs::Whole(Traces::new(traces)))
}

/// The run of the hart, where it is whole; else the reason against its choices.
fn whole(hart: u8, run: Run) -> Result<Trace, Reason>
    ensures ok { IfOk result (λ trace. run ≡ Run.Whole trace) }
    ensures err { IfErr result (λ reason. reason_of hart run ≡ Some reason) }
{
    match run {
        Run::Whole(trace) => Ok(trace),
        Run::Astray(at) => Err(Reason::Astray { hart, at }),
        Run::Short | Run::Long | Run::BadChoice | Run::BadSc => Err(Reason::Choices { hart }),
    }
}
