//! Does a test allow its outcome, where loads take words of given sets? All runs are listed, and all orders.

ghost use Rattle.std.specs.Prelude.{◌≡◌, List, All, length, ◌++◌, IfOk, OnOk, IfErr, IsOkUnless};
ghost use Rattle.std.specs.List.Sorted.{IsStrictlyIncreasing};
ghost use Rattle.fs_kinds.specs.declared.fault.Fault.TheVariants.{Memory};
ghost use Rattle.fs_model.specs.Test.{IsBounded, IsStart};
ghost use Rattle.fs_hart.specs.declared.trace.Trace.{Trace};
ghost use Rattle.fs_model_brute_force.specs.Decisions.{Decides};
ghost use Rattle.fs_model_brute_force.specs.Allowing.{AllowsOver, AreWhole, AreChosen, ShowsAmong, AreListed, HaveRuns};
ghost use Rattle.fs_model_brute_force.specs.Allowing.{IsListingFault};

use crate::orders::shows_in_some_order;
use fs_hart::{Steps, Trace, Words, traces_over};
use fs_kinds::{Fault, Placement};
use fs_model::Test;
use std::alloc::{AllocError, Global};
use std::marker::Model;

// Runs of one hart.
#[derive(Drop)]
struct Runs {
    traces: Vec<Trace>,
}

impl Model for Runs {
    ghost use Rattle.std.specs.Prelude.{List};
    ghost use Rattle.fs_hart.specs.declared.trace.Trace.{Trace};

    ghost Value = { List Trace };

    ghost view = { λ r. r.traces.items };
}

impl Runs {
    fn as_slice(&self) -> &[Trace]
        ensures { result.now ≡ self.now }
    {
        self.traces.as_slice()
    }
}

fn copy(alloc: Global, trace: &Trace) -> Result<Trace, AllocError>
    ensures { IfOk result (λ copy. copy ≡ trace.now) }
{
    let steps = Steps::new(Vec::from_slice(alloc, trace.steps())?);
    let registers = trace.registers;
    Ok(Trace { steps, registers })
}

/// All runs of each hart over the sets.
fn runs_over(alloc: Global, test: &Test, sets: &[Words]) -> Result<Vec<Runs>, Fault>
    requires test { IsBounded test.now }
    requires starts { All IsStart test.now.starts }
    requires sets { All IsStrictlyIncreasing sets.now }
    ensures harts { IfOk result (λ lists. length lists.items ≡ length test.now.codes) }
    ensures ok { IfOk result (λ lists. AreListed test.now sets.now lists.items) }
    ensures err { IfErr result (IsListingFault test.now sets.now) }
{
    let mut lists = Vec::new(alloc);
    for hart in 0..test.codes.as_slice().len() {
        let traces = traces_over(alloc, test, hart as u8, sets)?;
        lists.push(Runs { traces })?;
    }
    Ok(lists)
}

/// Do these runs, with one out of each list behind them, show the outcome in some order?
fn shows_among(
    alloc: Global,
    test: &Test,
    placement: &Placement,
    lists: &[Runs],
    traces: &mut Vec<Trace>,
) -> Result<bool, Fault>
    requires test { IsBounded test.now }
    requires whole { (chosen : List Trace) → AreChosen lists.now chosen
        → AreWhole test.now (traces.old.items ++ chosen) }
    ensures traces { OnOk result (traces.new.items ≡ traces.old.items) }
    ensures ok { IfOk result (λ shows. Decides shows (ShowsAmong test.now placement.now lists.now traces.old.items)) }
    ensures err { IsOkUnless result Memory }
{
    let Some((list, rest)) = lists.split_first() else {
        return shows_in_some_order(alloc, test, traces, placement);
    };
    for trace in list.as_slice() {
        traces.push(copy(alloc, trace)?)?;
        let found = shows_among(alloc, test, placement, rest, traces)?;
        traces.pop();
        if found {
            return Ok(true);
        }
    }
    Ok(false)
}

/// Does the test with the placement's fences allow its outcome, by an execution whose loads take words of these sets?
/// There is a set for each location, with its words rising. It is decided by listing: all runs of each hart, all ways
/// to take one of each, and all orders of their operations. So the time is the product of the numbers of runs, times
/// the factorial of the number of operations, times that of `obeys_axioms`: for tests of a few instructions. F13 and
/// F14 as `traces_over` of the first hart that has one; F19.
pub fn allows_over(
    alloc: Global,
    test: &Test,
    placement: &Placement,
    sets: &[Words],
) -> Result<bool, Fault>
    requires test { IsBounded test.now }
    requires starts { All IsStart test.now.starts }
    requires sets { All IsStrictlyIncreasing sets.now }
    ensures ok { IfOk result (λ allowed. Decides allowed (AllowsOver test.now placement.now sets.now)) }
    ensures runs { OnOk result (HaveRuns test.now sets.now) }
    ensures err { IfErr result (IsListingFault test.now sets.now) }
{
    let lists = runs_over(alloc, test, sets)?;
    let mut traces = Vec::new(alloc);
    shows_among(alloc, test, placement, &lists, &mut traces)
}
