//! How many raw candidates there are with given runs, up to a limit.

ghost use Rattle.std.specs.Prelude.{◌≡◌, ◌≤◌, ◌+◌, ◌*◌, map, length};
ghost use Rattle.fs_model.specs.Numbers.{numbers_below};
ghost use Rattle.fs_model.specs.Operations.{PreExecution, operations as operations_of};
ghost use Rattle.fs_cert_evidence.specs.CandidateFaults.{most_candidates};
ghost use Rattle.fs_cand_listing.specs.Ways.{factorial, product_by, product_of_lengths};
ghost use Rattle.fs_cand_listing.specs.RawCandidates.{all_sources, own_stores};
ghost use Rattle.fs_cand_listing.specs.inner.Listed.{capped, number_of_orders, number_of_sources, orders_among};

use crate::choices::{Choices, count_own_stores, count_sources};
use fs_kinds::List;
use fs_model::Operation;
use fs_model_axioms::count_accesses;

/// How many candidates and lists of runs there may be.
pub(crate) const MOST_CANDIDATES: u32 = 4_000_000;

/// The number, or one more than there may be.
fn cap(number: u64) -> u32
    ensures exact { result ≡ capped number }
    ensures most { result ≤ most_candidates + 1 }
{
    if number > u64::from(MOST_CANDIDATES) {
        MOST_CANDIDATES + 1
    } else {
        number as u32
    }
}

/// The product, or one more than there may be.
pub(crate) fn times(count: u32, factor: usize) -> u32
    requires { count ≤ most_candidates + 1 }
    ensures exact { result ≡ capped (count * factor) }
    ensures most { result ≤ most_candidates + 1 }
{
    let factor = cap(factor as u64);
    cap(count as u64 * factor as u64)
}

/// How many orders so many stores have.
pub(crate) fn count_orders(stores: usize) -> u32
    ensures exact { result ≡ capped (factorial stores) }
    ensures most { result ≤ most_candidates + 1 }
{
    let mut count = 1;
    for k in 0..stores {
        count = times(count, k + 1);
    }
    count
}

/// The product of the lengths.
pub(crate) fn count_choices<T>(lists: &[List<T>]) -> u32
    ensures exact { result ≡ capped (product_of_lengths lists.now) }
    ensures most { result ≤ most_candidates + 1 }
{
    let mut count = 1;
    for list in lists {
        count = times(count, list.len());
    }
    count
}

/// The product of the numbers of orders.
pub(crate) fn count_store_orders(stores: &[List<u8>]) -> u32
    ensures exact { result ≡ capped (product_by number_of_orders stores.now) }
    ensures most { result ≤ most_candidates + 1 }
{
    let mut count = 1;
    for list in stores {
        count = times(count, count_orders(list.len()) as usize);
    }
    count
}

impl Choices {
    /// How many ways there are to choose the sources, or one more than there may be.
    pub(crate) fn count_sources(&self) -> u32
        ensures exact { result ≡ capped (product_of_lengths self.now.sources.items) }
        ensures most { result ≤ most_candidates + 1 }
    {
        count_choices(&self.sources)
    }

    /// How many ways there are to order the stores, or one more than there may be.
    pub(crate) fn count_orders(&self) -> u32
        ensures exact { result ≡ capped (product_by number_of_orders self.now.stores.items) }
        ensures most { result ≤ most_candidates + 1 }
    {
        count_store_orders(&self.stores)
    }
}

/// How many ways there are to choose the sources of these operations, or one more than there may be.
fn count_sources_among(operations: &[Operation]) -> u32
    ensures exact { result
        ≡ capped (product_by (number_of_sources operations.now) (numbers_below (length operations.now))) }
    ensures most { result ≤ most_candidates + 1 }
{
    let mut count = 1;
    for a in 0..operations.len() {
        count = times(count, count_sources(operations, a));
    }
    count
}

/// How many ways there are to order the stores to each location, or one more than there may be, where the first `count`
/// operations are the harts'.
fn count_orders_among(operations: &[Operation], count: usize, locations: u8) -> u32
    ensures exact { result ≡ capped (product_by (orders_among operations.now count) (numbers_below locations)) }
    ensures most { result ≤ most_candidates + 1 }
{
    let mut orders = 1;
    for location in 0..locations {
        let stores = count_own_stores(operations, count, location);
        orders = times(orders, count_orders(stores) as usize);
    }
    orders
}

/// How many raw candidates there are with the runs of these operations, in a test with so many locations, or one more
/// than there may be. The square of the operations, and nothing is listed.
pub(crate) fn count_raw(operations: &[Operation], locations: u8) -> u32
    ensures exact { (x : PreExecution) → operations.now ≡ operations_of x
        → result ≡ capped (product_of_lengths (all_sources x) * product_by number_of_orders
        (map (own_stores x) (numbers_below locations))) }
    ensures most { result ≤ most_candidates + 1 }
{
    let count = count_accesses(operations);
    let orders = count_orders_among(operations, count, locations);
    times(count_sources_among(operations), orders as usize)
}
