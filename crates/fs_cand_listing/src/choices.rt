//! What may be chosen with given runs: the sources of each operation, and the stores of each location.

ghost use Rattle.std.specs.Prelude.{◌≡◌, ◌≤◌, ◌<◌, ◌-◌, map, filter, length, IfOk};
ghost use Rattle.fs_model.specs.Numbers.{is_same, numbers_below};
ghost use Rattle.fs_model.specs.Operations.{PreExecution, accesses, operations as operations_of};
ghost use Rattle.fs_cand_listing.specs.RawCandidates.{all_sources};
ghost use Rattle.fs_cand_listing.specs.inner.Listed.{is_source_among, number_of_sources, sources_within, sources_among};
ghost use Rattle.fs_cand_listing.specs.inner.Listed.{stores_among, own_among};
ghost use Rattle.fs_cand_listing.specs.inner.Chosen.{AreChoices};

use fs_kinds::List;
use fs_model::{Location, Operation};
use fs_model_axioms::count_accesses;
use std::alloc::{AllocError, Global};

/// Are both there, and the same word?
fn is_same(word: Option<u32>, other: Option<u32>) -> bool
    ensures { result ≡ is_same word other }
{
    match (word, other) {
        (Some(word), Some(other)) => word == other,
        _ => false,
    }
}

/// Is s another operation, which stores what a loads?
fn is_source(operations: &[Operation], a: usize, s: usize) -> bool
    ensures { result ≡ is_source_among operations.now a s }
{
    let loading = Operation::numbered(operations, a);
    let storing = Operation::numbered(operations, s);
    storing.is_store()
        && storing.is_same_word(&loading)
        && s != a
        && is_same(storing.stored, loading.loaded)
}

/// What operation a may read from among these operations.
fn sources_within(
    alloc: Global,
    operations: &[Operation],
    a: usize,
    from: usize,
    to: usize,
) -> Result<Vec<Option<u8>>, AllocError>
    requires { to ≤ 256 }
    ensures { IfOk result (λ list. list.items ≡ sources_within operations.now a from (to - from)) }
{
    (from..to)
        .filter(|s| is_source(operations, a, *s))
        .map(|s| Some(s as u8))
        .collect(alloc)
}

/// What operation a may read from, where the first `count` operations are the harts': the initial store first. What is
/// no load has no source.
fn sources(
    alloc: Global,
    operations: &[Operation],
    count: usize,
    a: usize,
) -> Result<Vec<Option<u8>>, AllocError>
    requires few { length operations.now ≤ 256 }
    requires count { count ≤ length operations.now }
    ensures { IfOk result (λ list. list.items ≡ sources_among operations.now count a) }
{
    if !Operation::numbered(operations, a).is_load() {
        return Vec::from_slice(alloc, &[None]);
    }
    let mut sources = sources_within(alloc, operations, a, count, operations.len())?;
    sources.extend_from_slice(&sources_within(alloc, operations, a, 0, count)?)?;
    Ok(sources)
}

/// How many other operations store what a loads.
fn count_storing(operations: &[Operation], a: usize) -> usize
    ensures { result ≡ length (filter (is_source_among operations.now a) (numbers_below (length operations.now))) }
{
    (0..operations.len())
        .filter(|s| is_source(operations, a, *s))
        .count()
}

/// How many sources operation a may have. What is no load has one way to have none. Linear in the operations.
pub(crate) fn count_sources(operations: &[Operation], a: usize) -> usize
    ensures { result ≡ number_of_sources operations.now a }
{
    if Operation::numbered(operations, a).is_load() {
        count_storing(operations, a)
    } else {
        1
    }
}

/// Does operation a store to the location?
fn stores_to(operations: &[Operation], location: u8, a: usize) -> bool
    ensures { result ≡ stores_among operations.now location a }
{
    let storing = Operation::numbered(operations, a);
    storing.is_store() && is_same(storing.address, Some(Location::address(location)))
}

/// The harts' stores to a location, where the first `count` operations are the harts'.
fn own_stores(
    alloc: Global,
    operations: &[Operation],
    count: usize,
    location: u8,
) -> Result<Vec<u8>, AllocError>
    requires { count ≤ 256 }
    ensures { IfOk result (λ list. list.items ≡ own_among operations.now count location) }
{
    (0..count)
        .filter(|a| stores_to(operations, location, *a))
        .map(|a| a as u8)
        .collect(alloc)
}

/// How many stores to a location the harts have, where the first `count` operations are the harts'.
pub(crate) fn count_own_stores(operations: &[Operation], count: usize, location: u8) -> usize
    ensures { result ≡ length (own_among operations.now count location) }
{
    (0..count)
        .filter(|a| stores_to(operations, location, *a))
        .count()
}

/// The sources of all operations.
fn all_sources(
    alloc: Global,
    operations: &[Operation],
    count: usize,
) -> Result<Vec<List<Option<u8>>>, AllocError>
    requires few { length operations.now ≤ 256 }
    requires count { count ≤ length operations.now }
    ensures { IfOk result (λ lists. lists.items
        ≡ map (sources_among operations.now count) (numbers_below (length operations.now))) }
{
    let mut lists = Vec::new(alloc);
    for a in 0..operations.len() {
        lists.push(List::new(sources(alloc, operations, count, a)?))?;
    }
    Ok(lists)
}

/// The harts' stores to all locations.
fn all_stores(
    alloc: Global,
    operations: &[Operation],
    count: usize,
    locations: u8,
) -> Result<Vec<List<u8>>, AllocError>
    requires { count ≤ 256 }
    ensures { IfOk result (λ lists. lists.items ≡ map (own_among operations.now count) (numbers_below locations)) }
{
    let mut lists = Vec::new(alloc);
    for location in 0..locations {
        lists.push(List::new(own_stores(alloc, operations, count, location)?))?;
    }
    Ok(lists)
}

/// What may be chosen with given runs.
#[derive(Drop)]
pub(crate) struct Choices {
    // For each operation its sources.
    pub(crate) sources: Vec<List<Option<u8>>>,
    // For each location the harts' stores.
    pub(crate) stores: Vec<List<u8>>,
    // How many operations are the harts'.
    pub(crate) count: usize,
}

impl Choices {
    /// What may be chosen with the runs of these operations, in a test with so many locations.
    pub(crate) fn of(
        alloc: Global,
        operations: &[Operation],
        locations: u8,
    ) -> Result<Choices, AllocError>
        requires { length operations.now ≤ 256 }
        ensures { IfOk result (λ choices. (x : PreExecution) → operations.now ≡ operations_of x
            → AreChoices x locations choices) }
    {
        let count = count_accesses(operations);
        Ok(Choices {
            sources: all_sources(alloc, operations, count)?,
            stores: all_stores(alloc, operations, count, locations)?,
            count,
        })
    }
}
