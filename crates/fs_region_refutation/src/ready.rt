//! Runs that are made ready to be asked.

ghost use Rattle.std.specs.Prelude.{◌≡◌, ℕ, [], All, length, map, IfOk, IsOkUnless};
ghost use Rattle.std.specs.Arc.{arc_value};
ghost use Rattle.std.specs.List.{slice_index_or};
ghost use Rattle.fs_kinds.specs.declared.fault.Fault.TheVariants.{Memory};
ghost use Rattle.fs_model.specs.Test.{IsBounded};
ghost use Rattle.fs_region_refutation.specs.Alone.{IsRun};
ghost use Rattle.fs_region_refutation.specs.Beside.{IsBeside};
ghost use Rattle.fs_region_refutation.specs.Runs.{all_asked, asked_of, lone_of, AreReady, AreRunsOfEach, HasProgramOf};

use crate::doings::Doings;
use crate::lone::Lone;
use fs_hart::{Steps, Trace};
use fs_kinds::{Fault, List};
use fs_model::Test;
use std::alloc::{AllocError, Global};
use std::sync::Arc;

fn copy(alloc: Global, trace: &Trace) -> Result<Trace, AllocError>
    ensures { IfOk result (λ copy. copy ≡ trace.now) }
{
    let steps = Steps::new(Vec::from_slice(alloc, trace.steps())?);
    let registers = trace.registers;
    Ok(Trace { steps, registers })
}

/// A run of the hart: the one of this number among those whose doings are listed.
fn lone(
    alloc: Global,
    test: &Arc<Test>,
    hart: u8,
    trace: &Trace,
    doings: &Arc<Doings>,
    number: usize,
) -> Result<Lone, Fault>
    requires bounded { IsBounded (arc_value test.now) }
    requires run { IsRun (arc_value test.now) hart trace.now }
    requires beside { IsBeside (arc_value doings.now) number trace.now.steps }
    ensures ok { IfOk result (λ lone. lone ≡ lone_of (arc_value test.now) hart trace.now) }
    ensures err { IsOkUnless result Memory }
{
    let trace = copy(alloc, trace)?;
    Lone::new(alloc, test, hart, trace, doings, number)
}

/// Runs of the hart, in their order. What they do is listed once for all of them.
fn ready(alloc: Global, test: &Arc<Test>, hart: u8, traces: &[Trace]) -> Result<List<Lone>, Fault>
    requires bounded { IsBounded (arc_value test.now) }
    requires runs { All (IsRun (arc_value test.now) hart) traces.now }
    ensures ok { IfOk result (λ runs. runs ≡ map (lone_of (arc_value test.now) hart) traces.now) }
    ensures err { IsOkUnless result Memory }
{
    let doings = Arc::new(alloc, Doings::new(alloc, test, hart, traces)?)?;
    let mut runs = Vec::new(alloc);
    for (number, trace) in traces.iter().enumerate() {
        runs.push(lone(alloc, test, hart, trace, &doings, number)?)?;
    }
    Ok(List::new(runs))
}

/// For each hart its runs, in their order. The error is F19.
pub(crate) fn all_ready(
    alloc: Global,
    test: &Arc<Test>,
    lists: &[List<Trace>],
) -> Result<Vec<List<Lone>>, Fault>
    requires bounded { IsBounded (arc_value test.now) }
    requires harts { length lists.now ≡ length (arc_value test.now).codes }
    requires runs { AreRunsOfEach (arc_value test.now) lists.now }
    ensures ok { IfOk result (λ runs. AreReady (arc_value test.now) lists.now runs.items) }
    ensures err { IsOkUnless result Memory }
{
    let mut runs = Vec::new(alloc);
    for (hart, traces) in lists.iter().enumerate() {
        runs.push(ready(alloc, test, hart as u8, traces.as_slice())?)?;
    }
    Ok(runs)
}

/// The same runs of a test with the same program.
fn asked(alloc: Global, test: &Arc<Test>, runs: &[Lone]) -> Result<List<Lone>, AllocError>
    requires { All (HasProgramOf (arc_value test.now)) runs.now }
    ensures { IfOk result (λ made. made ≡ map (asked_of (arc_value test.now)) runs.now) }
{
    let mut made = Vec::new(alloc);
    for run in runs {
        made.push(run.asking(test)?)?;
    }
    Ok(List::new(made))
}

/// For each hart the same runs of a test with the same program. Two counts for each run.
pub(crate) fn all_asked(
    alloc: Global,
    test: &Arc<Test>,
    lists: &[List<Lone>],
) -> Result<Vec<List<Lone>>, AllocError>
    requires { (hart : ℕ) → All (HasProgramOf (arc_value test.now)) (slice_index_or lists.now hart []) }
    ensures { IfOk result (λ made. made.items ≡ all_asked (arc_value test.now) lists.now) }
{
    let mut made = Vec::new(alloc);
    for list in lists {
        made.push(asked(alloc, test, list.as_slice())?)?;
    }
    Ok(made)
}
