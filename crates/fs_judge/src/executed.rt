//! The candidate of an execution: the sources of its loads, and the coherence orders, that its order gives.

ghost use Rattle.std.specs.Prelude.{◌≡◌, None, is_some, length, map, filter, if◌then◌else◌, IfOk, IsOkUnless};
ghost use Rattle.std.specs.List.{slice_index_or};
ghost use Rattle.fs_kinds.specs.declared.fault.Fault.TheVariants.{Memory};
ghost use Rattle.fs_model.specs.Test.{IsBounded, address_of};
ghost use Rattle.fs_model.specs.Numbers.{numbers_below};
ghost use Rattle.fs_model.specs.Execution.{initial_words};
ghost use Rattle.fs_model_axioms.specs.Among.{at, stores_at};
ghost use Rattle.fs_model_axioms.specs.Ordered.{source_at};
ghost use Rattle.fs_cand.specs.Candidates.{candidate_of, IsMade};
ghost use Rattle.fs_check.specs.Ordered.{IsOrdered, execution_in};
ghost use Rattle.fs_verdict_laws.specs.Decide.{candidate_of as candidate_in};

use fs_cand::{Candidate, StoreOrder, Stores};
use fs_check::OrderedCandidate;
use fs_kinds::{Fault, List};
use fs_model::{Location, Operation, Test};
use fs_model_axioms::source_at;
use std::alloc::{AllocError, Global};

/// Is it the number of a store to the address?
fn is_store_at(operations: &[Operation], address: u32, a: u8) -> bool
    ensures { result ≡ stores_at operations.now address a }
{
    let storing = Operation::numbered(operations, usize::from(a));
    storing.is_store() && storing.address == Some(address)
}

/// The stores to the location, in this order.
fn stores_in(
    alloc: Global,
    operations: &[Operation],
    order: &[u8],
    location: u8,
) -> Result<Stores, AllocError>
    ensures { IfOk result (λ stores. stores ≡ filter (stores_at operations.now (address_of location)) order.now) }
{
    let address = Location::address(location);
    let stores = order
        .iter()
        .copied()
        .filter(|a| is_store_at(operations, address, *a))
        .collect(alloc)?;
    Ok(List::new(stores))
}

/// The stores to each location, in this order.
fn store_order(
    alloc: Global,
    operations: &[Operation],
    order: &[u8],
    locations: u8,
) -> Result<StoreOrder, AllocError>
    ensures { IfOk result (λ all. all
        ≡ map (λ location. filter (stores_at operations.now (address_of location)) order.now)
        (numbers_below locations)) }
{
    let mut all = Vec::new(alloc);
    for location in 0..locations {
        all.push(stores_in(alloc, operations, order, location)?)?;
    }
    Ok(List::new(all))
}

/// The source of an operation, where it loads.
fn source_of(operations: &[Operation], sources: &[Option<u8>], a: usize) -> Option<u8>
    ensures { result ≡ (if is_some (at operations.now a).loaded then source_at sources.now a else None) }
{
    if Operation::numbered(operations, a).is_load() {
        source_at(sources, a)
    } else {
        None
    }
}

/// The source of each load, and none of the other operations.
fn sources_of(
    alloc: Global,
    operations: &[Operation],
    sources: &[Option<u8>],
) -> Result<Vec<Option<u8>>, AllocError>
    ensures { IfOk result (λ made. made.items
        ≡ map (λ a. if is_some (at operations.now a).loaded then source_at sources.now a else None)
        (numbers_below (length operations.now))) }
{
    (0..operations.len())
        .map(|a| source_of(operations, sources, a))
        .collect(alloc)
}

/// The candidate of the execution that the runs and the order are. The stores of each location are looked for among all
/// operations.
pub(crate) fn candidate_of(
    alloc: Global,
    test: &Test,
    ordered: OrderedCandidate,
) -> Result<Candidate, Fault>
    requires bounded { IsBounded test.now }
    requires ordered { IsOrdered test.now ordered }
    ensures made { IfOk result (IsMade (initial_words test.now)) }
    ensures is { IfOk result (λ c. candidate_of c ≡ candidate_in test.now (execution_in ordered)) }
    ensures err { IsOkUnless result Memory }
{
    let OrderedCandidate { candidate, order } = ordered;
    let operations = candidate.operations.as_slice();
    let locations = test.locations.len() as u8;
    let source = sources_of(alloc, operations, candidate.source.as_slice())?;
    let store_order = store_order(alloc, operations, order.order().as_slice(), locations)?;
    let mut candidate = candidate;
    candidate.source = List::new(source);
    candidate.store_order = store_order;
    Ok(candidate)
}
