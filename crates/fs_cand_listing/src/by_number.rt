//! Sources and coherence orders by number.

ghost use Rattle.std.specs.Prelude.{◌≡◌, ◌≤◌, ◌<◌, ◌+◌, ◌++◌, ◌∷◌, [], length, IfOk, OnOk};
ghost use Rattle.std.specs.List.{slice_index_or};
ghost use Rattle.fs_cert_evidence.specs.CandidateFaults.{most_candidates};
ghost use Rattle.fs_model.proofs.ListedNumbers.{AreOnce};
ghost use Rattle.fs_cand_listing.specs.Ways.{factorial, orders, others, products, product_by, product_of_lengths};
ghost use Rattle.fs_cand_listing.specs.inner.Listed.{number_of_orders};
ghost use Rattle.fs_cand_listing.specs.inner.Ordered.{orders_from, AreEachOnce};

use crate::counting::{count_choices, count_orders, count_store_orders};
use fs_kinds::List;
use std::alloc::{AllocError, Global};

/// Puts the sources of this number behind the others, one of each list. The last list's sources change first.
pub(crate) fn push_sources(
    lists: &[List<Option<u8>>],
    number: u32,
    sources: &mut Vec<Option<u8>>,
) -> Result<(), AllocError>
    requires few { product_of_lengths lists.now ≤ most_candidates }
    requires number { number < product_of_lengths lists.now }
    ensures { OnOk result (sources.new.items ≡ sources.old.items ++ slice_index_or (products lists.now) number []) }
{
    let Some((list, rest)) = lists.split_first() else {
        return Ok(());
    };
    let count = count_choices(rest);
    sources.push(list[(number / count) as usize])?;
    push_sources(rest, number % count, sources)
}

/// The stores without this one.
fn others(alloc: Global, stores: &[u8], taken: u8) -> Result<Vec<u8>, AllocError>
    ensures { IfOk result (λ rest. rest.items ≡ others stores.now taken) }
{
    stores
        .iter()
        .copied()
        .filter(|store| *store != taken)
        .collect(alloc)
}

/// Puts the order of this number of the stores behind the others. The last store changes first.
fn push_order(
    alloc: Global,
    stores: &[u8],
    number: u32,
    order: &mut Vec<u8>,
) -> Result<(), AllocError>
    requires once { AreOnce stores.now }
    requires few { factorial (length stores.now) ≤ most_candidates }
    requires number { number < factorial (length stores.now) }
    ensures { OnOk result (order.new.items ≡ order.old.items ++ slice_index_or (orders stores.now) number []) }
{
    if stores.is_empty() {
        return Ok(());
    }
    let count = count_orders(stores.len() - 1);
    let next = stores[(number / count) as usize];
    order.push(next)?;
    push_order(alloc, &others(alloc, stores, next)?, number % count, order)
}

/// The order of this number of a location's stores, behind the initial one.
fn order_of(alloc: Global, first: u8, stores: &[u8], number: u32) -> Result<List<u8>, AllocError>
    requires once { AreOnce stores.now }
    requires few { factorial (length stores.now) ≤ most_candidates }
    requires number { number < factorial (length stores.now) }
    ensures { IfOk result (λ order. order ≡ first ∷ slice_index_or (orders stores.now) number []) }
{
    let mut order = Vec::from_slice(alloc, &[first])?;
    push_order(alloc, stores, number, &mut order)?;
    Ok(List::new(order))
}

/// Puts the coherence orders of this number behind the others, one of each location's stores, where the initial store
/// of the first location has the number `first`. The last location's order changes first.
pub(crate) fn push_orders(
    alloc: Global,
    first: u8,
    stores: &[List<u8>],
    number: u32,
    orders: &mut Vec<List<u8>>,
) -> Result<(), AllocError>
    requires low { first + length stores.now ≤ 255 }
    requires once { AreEachOnce stores.now }
    requires few { product_by number_of_orders stores.now ≤ most_candidates }
    requires number { number < product_by number_of_orders stores.now }
    ensures { OnOk result (orders.new.items
        ≡ orders.old.items ++ slice_index_or (products (orders_from first stores.now)) number []) }
{
    let Some((list, rest)) = stores.split_first() else {
        return Ok(());
    };
    let count = count_store_orders(rest);
    orders.push(order_of(alloc, first, list, number / count)?)?;
    push_orders(alloc, first + 1, rest, number % count, orders)
}
