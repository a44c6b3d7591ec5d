//! All orders of the operations of given runs.

ghost use Rattle.std.specs.Prelude.{◌≡◌, ◌==◌, ◌≤◌, [], length, IfOk, OnOk, IsOkUnless};
ghost use Rattle.std.specs.List.{list_any};
ghost use Rattle.fs_kinds.specs.Limits.{most_numbered};
ghost use Rattle.fs_kinds.specs.declared.fault.Fault.TheVariants.{Memory};
ghost use Rattle.fs_model.specs.Test.{IsBounded};
ghost use Rattle.fs_model.specs.Operations.{accesses};
ghost use Rattle.fs_model.specs.Execution.{pre_execution};
ghost use Rattle.fs_hart.specs.Steps.{steps_in};
ghost use Rattle.fs_model_brute_force.specs.Decisions.{Decides};
ghost use Rattle.fs_model_brute_force.specs.Allowing.{AreWhole, ShowsFrom};

use crate::executions::traces_show;
use fs_hart::{Trace, operations};
use fs_kinds::{Fault, Placement};
use fs_model::Test;
use fs_model_axioms::count_accesses;
use std::alloc::Global;

/// Is the number in the list?
fn has_number(numbers: &[u8], a: u8) -> bool
    ensures { result ≡ list_any (λ number. number == a) numbers.now }
{
    numbers.iter().any(|number| *number == a)
}

/// Does some order that goes on so show the outcome? It tries each number below `count` that the order doesn't have
/// yet.
fn shows_from(
    alloc: Global,
    test: &Test,
    traces: &[Trace],
    placement: &Placement,
    count: usize,
    order: &mut Vec<u8>,
) -> Result<bool, Fault>
    requires test { IsBounded test.now }
    requires whole { AreWhole test.now traces.now }
    requires count { count ≡ length (accesses (pre_execution test.now (steps_in traces.now))) }
    requires few { count ≤ most_numbered }
    requires within { length order.old.items ≤ count }
    ensures order { OnOk result (order.new.items ≡ order.old.items) }
    ensures ok { IfOk result (λ shows. Decides shows (ShowsFrom test.now placement.now traces.now order.old.items)) }
    ensures err { IsOkUnless result Memory }
{
    if order.len() == count {
        return traces_show(alloc, test, traces, placement, order);
    }
    for a in 0..count {
        if !has_number(order, a as u8) {
            order.push(a as u8)?;
            let found = shows_from(alloc, test, traces, placement, count, order)?;
            order.pop();
            if found {
                return Ok(true);
            }
        }
    }
    Ok(false)
}

/// Do these runs, one of each hart, show the outcome in some order of their operations? It tries all orders: the time
/// is the factorial of the number of operations, times that of `traces_show`.
pub(crate) fn shows_in_some_order(
    alloc: Global,
    test: &Test,
    traces: &[Trace],
    placement: &Placement,
) -> Result<bool, Fault>
    requires test { IsBounded test.now }
    requires whole { AreWhole test.now traces.now }
    ensures ok { IfOk result (λ shows. Decides shows (ShowsFrom test.now placement.now traces.now [])) }
    ensures err { IsOkUnless result Memory }
{
    let operations = operations(alloc, test, traces)?;
    let count = count_accesses(operations.as_slice());
    let mut order = Vec::new(alloc);
    shows_from(alloc, test, traces, placement, count, &mut order)
}
