//! What is told of an execution.

ghost use Rattle.std.specs.Prelude.{◌≡◌, ◌≤◌, None, length, map, IfOk};
ghost use Rattle.std.specs.List.{slice_index_or};
ghost use Rattle.fs_model.specs.Numbers.{numbers_below};
ghost use Rattle.fs_model.specs.Operations.{nothing};
ghost use Rattle.fs_cand_witness.specs.Naming.{name_at as name_there};
ghost use Rattle.fs_check.specs.Ordered.{IsOrdered, runs_in};
ghost use Rattle.fs_app_why.specs.Executions.{told_of, operation_at, name_at, source_at};

use fs_cand::Candidate;
use fs_cand_witness::operation_name;
use fs_check::OrderedCandidate;
use fs_hart::Operations;
use fs_kinds::{List, OperationName};
use fs_model::{Operation, Test};
use fs_model_axioms::Ordered;
use std::alloc::{AllocError, Global};

/// What is told of an execution. Operations go by their numbers.
#[derive(Drop)]
pub struct Told {
    /// The operations of the runs, and the initial stores.
    pub operations: Operations,
    /// Of each its name, if it is a hart's.
    pub names: List<Option<OperationName>>,
    /// Of each its source, if it has one; it is shown of what loads.
    pub sources: List<Option<u8>>,
    /// The harts' operations, in the order in which they come to memory.
    pub order: List<u8>,
}

/// The names of the operations.
fn names(alloc: Global, candidate: &Candidate) -> Result<List<Option<OperationName>>, AllocError>
    ensures { IfOk result (λ names.
        names ≡ map (name_there candidate.now) (numbers_below (length candidate.now.operations))) }
{
    let mut names = Vec::new(alloc);
    for a in 0..candidate.operations.len() {
        names.push(operation_name(candidate, a))?;
    }
    Ok(List::new(names))
}

/// The operations.
fn operations(alloc: Global, candidate: &Candidate) -> Result<Operations, AllocError>
    ensures { IfOk result (λ operations. operations ≡ candidate.now.operations) }
{
    let operations = Vec::from_slice(alloc, candidate.operations.as_slice())?;
    Ok(Operations::new(operations))
}

/// The sources in this order.
fn sources(
    alloc: Global,
    test: &Test,
    ordered: &OrderedCandidate,
) -> Result<List<Option<u8>>, AllocError>
    requires { IsOrdered test.now ordered.now }
    ensures { IfOk result (λ sources. sources
        ≡ (told_of (runs_in test.now ordered.now) ordered.now.order.listed).sources) }
{
    let _ = test;
    let sources = Vec::from_slice(alloc, ordered.order.sources())?;
    Ok(List::new(sources))
}

/// The harts' operations in their order.
fn order(alloc: Global, order: &Ordered) -> Result<List<u8>, AllocError>
    ensures { IfOk result (λ listed. listed ≡ order.now.listed) }
{
    let listed = Vec::from_slice(alloc, order.listed())?;
    Ok(List::new(listed))
}

/// What is told of the runs with their order. Linear in the operations.
pub fn told_by(alloc: Global, test: &Test, ordered: &OrderedCandidate) -> Result<Told, AllocError>
    requires { IsOrdered test.now ordered.now }
    ensures { IfOk result (λ told. told ≡ told_of (runs_in test.now ordered.now) ordered.now.order.listed) }
{
    Ok(Told {
        operations: operations(alloc, &ordered.candidate)?,
        names: names(alloc, &ordered.candidate)?,
        sources: sources(alloc, test, ordered)?,
        order: order(alloc, &ordered.order)?,
    })
}

impl Told {
    /// The operation of this number.
    pub fn operation(&self, a: u8) -> Operation
        ensures { result ≡ operation_at self.now a }
    {
        Operation::numbered(self.operations.as_slice(), usize::from(a))
    }

    /// Its name.
    pub fn name(&self, a: u8) -> Option<OperationName>
        ensures { result ≡ name_at self.now a }
    {
        self.names.as_slice().get(usize::from(a)).copied().flatten()
    }

    /// Its source.
    pub fn source(&self, a: u8) -> Option<u8>
        ensures { result ≡ source_at self.now a }
    {
        self.sources
            .as_slice()
            .get(usize::from(a))
            .copied()
            .flatten()
    }
}
