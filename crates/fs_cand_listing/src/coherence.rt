//! Coherence of a raw candidate: each load returns a store that its own hart has not overwritten before it.

ghost use Rattle.std.specs.Prelude.{◌≡◌, ◌&&◌, not, length};
ghost use Rattle.std.specs.List.{list_any, list_all};
ghost use Rattle.fs_model.specs.Numbers.{numbers_below};
ghost use Rattle.fs_cand_listing.specs.inner.Tested.{stands_in, source_in, older_among, newer_among, coherent_among};
ghost use Rattle.fs_cand_listing.specs.inner.Tested.{all_coherent_among};

use fs_kinds::List;
use fs_model::{Operation, stands_before};

/// Does a stand before b in one of the orders?
pub(crate) fn stands_in(orders: &[List<u8>], a: usize, b: usize) -> bool
    ensures { result ≡ stands_in orders.now a b }
{
    orders.iter().any(|stores| stands_before(stores, a, b))
}

/// The source of an operation; past the last one there is none.
pub(crate) fn source_in(sources: &[Option<u8>], a: usize) -> Option<u8>
    ensures { result ≡ source_in sources.now a }
{
    sources.get(a).copied().flatten()
}

/// Is m a store to the word of a that precedes it in program order?
fn is_older(operations: &[Operation], a: usize, m: usize) -> bool
    ensures { result ≡ older_among operations.now a m }
{
    let loading = Operation::numbered(operations, a);
    let storing = Operation::numbered(operations, m);
    storing.is_store() && storing.is_same_word(&loading) && storing.precedes(&loading)
}

/// Is m such a store, and later than s?
fn is_newer(operations: &[Operation], orders: &[List<u8>], a: usize, s: u8, m: usize) -> bool
    ensures { result ≡ newer_among operations.now orders.now a s m }
{
    is_older(operations, a, m) && stands_in(orders, usize::from(s), m)
}

fn any_newer(operations: &[Operation], orders: &[List<u8>], a: usize, s: u8) -> bool
    ensures { result ≡ list_any (newer_among operations.now orders.now a s) (numbers_below (length operations.now)) }
{
    (0..operations.len()).any(|m| is_newer(operations, orders, a, s, m))
}

/// May operation a have this source?
fn is_coherent(operations: &[Operation], orders: &[List<u8>], a: usize, source: Option<u8>) -> bool
    ensures { result ≡ coherent_among operations.now orders.now a source }
{
    let Some(s) = source else {
        return true;
    };
    let loading = Operation::numbered(operations, a);
    let storing = Operation::numbered(operations, usize::from(s));
    (!storing.is_same_hart(&loading) || storing.precedes(&loading))
        && !any_newer(operations, orders, a, s)
}

/// May each operation have its source?
pub(crate) fn are_coherent(
    operations: &[Operation],
    sources: &[Option<u8>],
    orders: &[List<u8>],
) -> bool
    ensures { result ≡ all_coherent_among operations.now sources.now orders.now }
{
    (0..operations.len()).all(|a| is_coherent(operations, orders, a, source_in(sources, a)))
}
