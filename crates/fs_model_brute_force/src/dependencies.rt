//! Syntactic dependencies between the steps of a run, by their recursive definition.

ghost use Rattle.std.specs.Prelude.{◌≡◌, ◌<◌};
ghost use Rattle.std.specs.List.{list_any};
ghost use Rattle.fs_kinds.specs.Limits.{most_numbered};
ghost use Rattle.fs_instr.specs.Instructions.{sources_of};
ghost use Rattle.fs_model.specs.Numbers.{between};
ghost use Rattle.fs_model.specs.Operations.{instr_at};
ghost use Rattle.fs_model.specs.Dependencies.{writes, depends_within, depends, address_depends, data_depends};
ghost use Rattle.fs_model.specs.Dependencies.{control_depends};
ghost use Rattle.fs_model_brute_force.specs.inner.Dependencies.{writes_last, leads_through};

use crate::steps::{address_source, data_source, first_source, instr_at, second_source, writes};
use fs_model::Step;

/// Does a step between i and j write the register?
fn is_written_between(steps: &[Step], i: usize, j: usize, register: Option<u8>) -> bool
    requires { i < most_numbered }
    ensures { result ≡ list_any (λ m. writes steps.now m register) (between i j) }
{
    (i + 1..j).any(|m| writes(steps, m, register))
}

/// Does step i write the register, and no step between i and j?
fn writes_last(steps: &[Step], i: usize, j: usize, register: Option<u8>) -> bool
    requires { i < most_numbered }
    ensures { result ≡ writes_last steps.now i j register }
{
    writes(steps, i, register) && !is_written_between(steps, i, j, register)
}

/// Does a dependency lead from step i through step m to step j and its source `register`, where each part is at most so
/// long?
#[cycle(within)]
#[tactic(auto, using(crate::proofs::Between::any_of_two))]
fn leads_through(
    distance: usize,
    steps: &[Step],
    i: usize,
    m: usize,
    j: usize,
    register: Option<u8>,
) -> bool
    requires first { i < most_numbered }
    requires second { m < most_numbered }
    requires third { j < most_numbered }
    ensures { result ≡ leads_through distance steps.now i j register m }
{
    if !instr_at(steps, m).carries() {
        return false;
    }
    if !depends_within(distance, steps, i, m, first_source(steps, m))
        && !depends_within(distance, steps, i, m, second_source(steps, m))
    {
        return false;
    }
    depends_within(distance, steps, m, j, register)
}

/// Does step j depend on step i through its source `register`, where they are at most so far apart? Either i writes the
/// register and no step between does, or a dependency leads through a step between.
#[cycle(within)]
fn depends_within(distance: usize, steps: &[Step], i: usize, j: usize, register: Option<u8>) -> bool
    requires first { i < most_numbered }
    requires second { j < most_numbered }
    ensures { result ≡ depends_within distance steps.now i j register }
{
    if distance == 0 {
        return false;
    }
    if writes_last(steps, i, j, register) {
        return true;
    }
    for m in i + 1..j {
        if leads_through(distance - 1, steps, i, m, j, register) {
            return true;
        }
    }
    false
}

/// Does step j depend on step i through its source `register`?
fn depends(steps: &[Step], i: usize, j: usize, register: Option<u8>) -> bool
    requires first { i < most_numbered }
    requires second { j < most_numbered }
    ensures { result ≡ depends steps.now i j register }
{
    i < j && depends_within(j - i, steps, i, j, register)
}

/// Has step j an address dependency on step i? Steps count from 0. At worst exponential in the steps between.
pub fn address_depends(steps: &[Step], i: usize, j: usize) -> bool
    requires first { i < most_numbered }
    requires second { j < most_numbered }
    ensures { result ≡ address_depends steps.now i j }
{
    depends(steps, i, j, address_source(steps, j))
}

/// Has step j a data dependency on step i? Steps count from 0. At worst exponential in the steps between.
pub fn data_depends(steps: &[Step], i: usize, j: usize) -> bool
    requires first { i < most_numbered }
    requires second { j < most_numbered }
    ensures { result ≡ data_depends steps.now i j }
{
    depends(steps, i, j, data_source(steps, j))
}

/// Does step j depend on step i through one of its sources?
fn depends_through_any(steps: &[Step], i: usize, j: usize) -> bool
    requires first { i < most_numbered }
    requires second { j < most_numbered }
    ensures { result ≡ list_any (depends steps.now i j) (sources_of (instr_at steps.now j)) }
{
    depends(steps, i, j, first_source(steps, j)) || depends(steps, i, j, second_source(steps, j))
}

/// Has step j a control dependency on step i: does a branch between them depend on i? Steps count from 0. At worst
/// exponential in the steps between.
pub fn control_depends(steps: &[Step], i: usize, j: usize) -> bool
    requires first { i < most_numbered }
    requires second { j < most_numbered }
    ensures { result ≡ control_depends steps.now i j }
{
    (i + 1..j).any(|m| instr_at(steps, m).is_conditional() && depends_through_any(steps, i, m))
}
