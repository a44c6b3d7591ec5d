//! The memory operations of runs.

ghost use Rattle.std.specs.Prelude.{◌+◌, ◌≡◌, ◌<◌, ◌≤◌, ◌++◌, ℕ, List, All, length, IfOk, OnOk, IsOkUnless};
ghost use Rattle.fs_kinds.specs.Limits.{most_harts, most_instructions, most_accesses, most_locations};
ghost use Rattle.fs_kinds.specs.declared.fault.Fault.TheVariants.{Memory};
ghost use Rattle.fs_model.specs.declared.test.Test.{Test};
ghost use Rattle.fs_model.specs.Test.{IsBounded};
ghost use Rattle.fs_model.specs.declared.step.Step.{Step};
ghost use Rattle.fs_model.specs.Operations.{access_of, accesses_of, initial_store, operations, steps_of};
ghost use Rattle.fs_model.specs.Execution.{IsTrace, pre_execution};
ghost use Rattle.fs_hart.specs.Steps.{steps_in};

use crate::lists::Operations;
use crate::trace::Trace;
use fs_instr::Instr;
use fs_kinds::Fault;
use fs_model::{Location, Operation, Step, Test};
use std::alloc::{AllocError, Global};

/// The operation of a step of the hart.
fn access(hart: u8, place: u8, step: &Step) -> Operation
    ensures { result ≡ access_of hart (place, step.now) }
{
    Operation {
        hart: Some(hart),
        place,
        instr: step.instr,
        address: step.address,
        loaded: step.loaded,
        stored: step.stored,
    }
}

/// The store of a location's initial word.
fn initial_store(location: u8, word: u32) -> Operation
    ensures { result ≡ initial_store (location, word) }
{
    Operation {
        hart: None,
        place: 0,
        instr: Instr::NOP,
        address: Some(Location::address(location)),
        loaded: None,
        stored: Some(word),
    }
}

/// Puts the operations of a run of the hart behind those that are there.
fn add_accesses(operations: &mut Vec<Operation>, hart: u8, steps: &[Step]) -> Result<(), AllocError>
    requires { length steps.now ≤ most_instructions }
    ensures { OnOk result (operations.new.items ≡ operations.old.items ++ accesses_of (hart, steps.now)) }
{
    for (place, step) in steps.iter().enumerate() {
        if step.address.is_some() {
            operations.push(access(hart, place as u8, step))?;
        }
    }
    Ok(())
}

/// The memory operations of runs of the test's harts, from hart 0 on, by their numbers: hart by hart in program order,
/// and then the initial stores. A run of a bounded test has at most 32 steps. The error is F19.
pub fn operations(alloc: Global, test: &Test, traces: &[Trace]) -> Result<Operations, Fault>
    requires test { IsBounded test.now }
    requires harts { length traces.now ≤ most_harts }
    requires steps { All (λ trace. length trace.steps ≤ most_instructions) traces.now }
    ensures ok { IfOk result (λ all. all ≡ operations (pre_execution test.now (steps_in traces.now))) }
    ensures err { IsOkUnless result Memory }
{
    let mut operations = Vec::new(alloc);
    for (hart, trace) in traces.iter().enumerate() {
        add_accesses(&mut operations, hart as u8, trace.steps())?;
    }
    for (location, declared) in test.locations.as_slice().iter().enumerate() {
        operations.push(initial_store(location as u8, declared.word))?;
    }
    Ok(Operations::new(operations))
}

/// Runs of the harts of a bounded test have at most 56 operations: 48 of the harts, and 8 initial stores.
#[tactic(auto, using(crate::proofs::Few::few_operations))]
pub fn operations_are_few()
    ensures { (t : Test) (traces : List (List Step)) → IsBounded t → length traces ≡ length t.codes
        → ((hart : ℕ) → hart < length t.codes → IsTrace t hart (steps_of traces hart))
        → length (operations (pre_execution t traces)) ≤ most_accesses + most_locations }
{}
