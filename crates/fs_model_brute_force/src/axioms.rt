//! The axioms of the memory model (RISC-V Unprivileged ISA 20191213, section "Memory Model Axioms").

ghost use Rattle.std.specs.Prelude.{◌≡◌, ◌≤◌, All, length, true, IfOk, IsOkUnless};
ghost use Rattle.std.specs.List.{list_all};
ghost use Rattle.fs_kinds.specs.Limits.{most_harts, most_instructions, most_numbered};
ghost use Rattle.fs_kinds.specs.declared.fault.Fault.TheVariants.{Memory};
ghost use Rattle.fs_model.specs.Test.{IsBounded};
ghost use Rattle.fs_model.specs.Numbers.{numbers_below};
ghost use Rattle.fs_model.specs.Operations.{accesses, operations as operations_of};
ghost use Rattle.fs_model.specs.Source.{gmo, source_in, lists_each_once};
ghost use Rattle.fs_model.specs.Execution.{ObeysAxioms};
ghost use Rattle.fs_model.specs.Tests.{returns_source, goes_forward, keeps_atomicity};
ghost use Rattle.fs_model_brute_force.specs.Whole.{pre_execution_of};
ghost use Rattle.fs_model_brute_force.specs.Decisions.{Decides};

use crate::rules::Executed;
use fs_hart::{Trace, operations};
use fs_kinds::{Fault, Placement};
use fs_model::Test;
use fs_model_axioms::{Ordered, lists_each_once};
use std::alloc::Global;

/// How many operations the harts have.
fn count(test: &Test, traces: &[Trace], ordered: &Ordered) -> usize
    requires { ordered.now.operations ≡ operations_of (pre_execution_of test.now traces.now) }
    ensures { result ≡ length (accesses (pre_execution_of test.now traces.now)) }
{
    ordered.count()
}

/// Does a, where it is a load, return the word of its source?
fn returns_source(test: &Test, traces: &[Trace], ordered: &Ordered, a: usize) -> bool
    requires { ordered.now.operations ≡ operations_of (pre_execution_of test.now traces.now) }
    ensures { let x = pre_execution_of test.now traces.now in result
        ≡ returns_source x (source_in x ordered.now.listed) a }
{
    ordered.returns_source(a)
}

/// Does a stand before b, where preserved program order has it so?
fn goes_forward(
    test: &Test,
    traces: &[Trace],
    placement: &Placement,
    ordered: &Ordered,
    a: usize,
    b: usize,
) -> bool
    requires { ordered.now.operations ≡ operations_of (pre_execution_of test.now traces.now) }
    ensures { let x = pre_execution_of test.now traces.now in
        result ≡ goes_forward x placement.now (source_in x ordered.now.listed) (gmo x ordered.now.listed) a b }
{
    let executed = Executed {
        traces,
        operations: ordered.operations(),
        placement,
        sources: ordered.sources(),
    };
    !executed.ppo(a, b) || ordered.stands_before(a, b)
}

/// Do r and w, where they are paired, keep atomicity?
fn keeps_atomicity(test: &Test, traces: &[Trace], ordered: &Ordered, r: usize, w: usize) -> bool
    requires { ordered.now.operations ≡ operations_of (pre_execution_of test.now traces.now) }
    ensures { let x = pre_execution_of test.now traces.now in
        result ≡ keeps_atomicity x (source_in x ordered.now.listed) (gmo x ordered.now.listed) r w }
{
    ordered.keeps_atomicity(traces, r, w)
}

/// Does each load return the word of its source?
fn all_return(test: &Test, traces: &[Trace], ordered: &Ordered) -> bool
    requires { ordered.now.operations ≡ operations_of (pre_execution_of test.now traces.now) }
    ensures { let x = pre_execution_of test.now traces.now in
        result ≡ list_all (returns_source x (source_in x ordered.now.listed)) (numbers_below (length (accesses x))) }
{
    (0..count(test, traces, ordered)).all(|a| returns_source(test, traces, ordered, a))
}

/// Does a stand before all operations that preserved program order puts after it?
fn all_after(
    test: &Test,
    traces: &[Trace],
    placement: &Placement,
    ordered: &Ordered,
    a: usize,
) -> bool
    requires { ordered.now.operations ≡ operations_of (pre_execution_of test.now traces.now) }
    ensures { let x = pre_execution_of test.now traces.now in
        result ≡ list_all (goes_forward x placement.now (source_in x ordered.now.listed) (gmo x ordered.now.listed) a)
        (numbers_below (length (accesses x))) }
{
    (0..count(test, traces, ordered)).all(|b| goes_forward(test, traces, placement, ordered, a, b))
}

/// Does the order respect preserved program order?
fn all_go_forward(test: &Test, traces: &[Trace], placement: &Placement, ordered: &Ordered) -> bool
    requires { ordered.now.operations ≡ operations_of (pre_execution_of test.now traces.now) }
    ensures { let x = pre_execution_of test.now traces.now in
        result ≡ list_all (λ a. list_all (goes_forward x placement.now (source_in x ordered.now.listed) (gmo x ordered.now.listed) a)
        (numbers_below (length (accesses x)))) (numbers_below (length (accesses x))) }
{
    (0..count(test, traces, ordered)).all(|a| all_after(test, traces, placement, ordered, a))
}

/// Does r keep atomicity with all operations that it is paired with?
fn all_paired(test: &Test, traces: &[Trace], ordered: &Ordered, r: usize) -> bool
    requires { ordered.now.operations ≡ operations_of (pre_execution_of test.now traces.now) }
    ensures { let x = pre_execution_of test.now traces.now in
        result ≡ list_all (keeps_atomicity x (source_in x ordered.now.listed) (gmo x ordered.now.listed) r)
        (numbers_below (length (accesses x))) }
{
    (0..count(test, traces, ordered)).all(|w| keeps_atomicity(test, traces, ordered, r, w))
}

/// Do all pairs keep atomicity?
fn all_keep_atomicity(test: &Test, traces: &[Trace], ordered: &Ordered) -> bool
    requires { ordered.now.operations ≡ operations_of (pre_execution_of test.now traces.now) }
    ensures { let x = pre_execution_of test.now traces.now in
        result ≡ list_all (λ r. list_all (keeps_atomicity x (source_in x ordered.now.listed) (gmo x ordered.now.listed) r)
        (numbers_below (length (accesses x)))) (numbers_below (length (accesses x))) }
{
    (0..count(test, traces, ordered)).all(|r| all_paired(test, traces, ordered, r))
}

/// Do all operations pass the tests, in an order that lists each once?
fn all_pass(test: &Test, traces: &[Trace], placement: &Placement, ordered: &Ordered) -> bool
    requires runs { ordered.now.operations ≡ operations_of (pre_execution_of test.now traces.now) }
    requires once { lists_each_once (pre_execution_of test.now traces.now) ordered.now.listed ≡ true }
    ensures { Decides result (ObeysAxioms (pre_execution_of test.now traces.now) placement.now ordered.now.listed) }
{
    if !all_return(test, traces, ordered) {
        return false;
    }
    if !all_go_forward(test, traces, placement, ordered) {
        return false;
    }
    all_keep_atomicity(test, traces, ordered)
}

/// Do these runs of the test's harts, with this order of their operations, obey the axioms of RVWMO with the
/// placement's fences? The runs are any short ones, with at most 256 operations. Each two operations are tried, by the
/// definitions as they stand, and a dependency may take time exponential in the steps between: so it is for small
/// tests. The error is F19.
pub fn obeys_axioms(
    alloc: Global,
    test: &Test,
    traces: &[Trace],
    placement: &Placement,
    order: &[u8],
) -> Result<bool, Fault>
    requires test { IsBounded test.now }
    requires harts { length traces.now ≤ most_harts }
    requires steps { All (λ trace. length trace.steps ≤ most_instructions) traces.now }
    requires few { length (operations_of (pre_execution_of test.now traces.now)) ≤ most_numbered }
    ensures ok { IfOk result
        (λ obeys. Decides obeys (ObeysAxioms (pre_execution_of test.now traces.now) placement.now order.now)) }
    ensures err { IsOkUnless result Memory }
{
    let ordered = Ordered::new(alloc, operations(alloc, test, traces)?, order)?;
    if !lists_each_once(ordered.count(), order) {
        return Ok(false);
    }
    Ok(all_pass(test, traces, placement, &ordered))
}
