//! Atomicity of a raw candidate: no other hart stores between the source of an lr.w and the store of its sc.w.

ghost use Rattle.std.specs.Prelude.{◌≡◌, length};
ghost use Rattle.std.specs.List.{list_any, list_all};
ghost use Rattle.fs_model.specs.Numbers.{numbers_below};
ghost use Rattle.fs_hart.specs.Steps.{steps_in};
ghost use Rattle.fs_cand_listing.specs.inner.Tested.{pair_among, any_pair_among, foreign_among, closely_among};
ghost use Rattle.fs_cand_listing.specs.inner.Tested.{atomic_among, all_atomic_among};

use crate::coherence::{source_in, stands_in};
use fs_hart::{Trace, steps_of};
use fs_kinds::List;
use fs_model::{Operation, are_paired};

/// Are r and w a pair of an lr.w and a later sc.w of its hart?
fn is_pair(traces: &[Trace], operations: &[Operation], r: usize, w: usize) -> bool
    ensures { result ≡ pair_among (steps_in traces.now) operations.now r w }
{
    let first = Operation::numbered(operations, r);
    let second = Operation::numbered(operations, w);
    first.precedes(&second)
        && are_paired(
            steps_of(traces, first.hart),
            usize::from(first.place),
            usize::from(second.place),
        )
}

fn is_pair_with_any(traces: &[Trace], operations: &[Operation], r: usize) -> bool
    ensures { result
        ≡ list_any (pair_among (steps_in traces.now) operations.now r) (numbers_below (length operations.now)) }
{
    (0..operations.len()).any(|w| is_pair(traces, operations, r, w))
}

/// Is there a pair?
pub(crate) fn any_pair(traces: &[Trace], operations: &[Operation]) -> bool
    ensures { result ≡ any_pair_among (steps_in traces.now) operations.now }
{
    (0..operations.len()).any(|r| is_pair_with_any(traces, operations, r))
}

/// Is m of another hart than w, after s and before w?
fn is_foreign_between(
    operations: &[Operation],
    orders: &[List<u8>],
    s: u8,
    w: usize,
    m: usize,
) -> bool
    ensures { result ≡ foreign_among operations.now orders.now s w m }
{
    let ending = Operation::numbered(operations, w);
    !Operation::numbered(operations, m).is_same_hart(&ending)
        && stands_in(orders, usize::from(s), m)
        && stands_in(orders, m, w)
}

fn any_foreign_between(operations: &[Operation], orders: &[List<u8>], s: u8, w: usize) -> bool
    ensures { result ≡ list_any (foreign_among operations.now orders.now s w) (numbers_below (length operations.now)) }
{
    (0..operations.len()).any(|m| is_foreign_between(operations, orders, s, w, m))
}

/// Does the source precede w, with no store of another hart between?
fn follows_closely(
    operations: &[Operation],
    orders: &[List<u8>],
    source: Option<u8>,
    w: usize,
) -> bool
    ensures { result ≡ closely_among operations.now orders.now source w }
{
    let Some(s) = source else {
        return true;
    };
    stands_in(orders, usize::from(s), w) && !any_foreign_between(operations, orders, s, w)
}

fn is_atomic(
    traces: &[Trace],
    operations: &[Operation],
    sources: &[Option<u8>],
    orders: &[List<u8>],
    r: usize,
    w: usize,
) -> bool
    ensures { result ≡ atomic_among (steps_in traces.now) operations.now sources.now orders.now r w }
{
    !is_pair(traces, operations, r, w)
        || follows_closely(operations, orders, source_in(sources, r), w)
}

fn are_atomic_with(
    traces: &[Trace],
    operations: &[Operation],
    sources: &[Option<u8>],
    orders: &[List<u8>],
    r: usize,
) -> bool
    ensures { result
        ≡ list_all (atomic_among (steps_in traces.now) operations.now sources.now orders.now r) (numbers_below
        (length operations.now)) }
{
    (0..operations.len()).all(|w| is_atomic(traces, operations, sources, orders, r, w))
}

/// Do all pairs keep atomicity?
pub(crate) fn are_atomic(
    traces: &[Trace],
    operations: &[Operation],
    sources: &[Option<u8>],
    orders: &[List<u8>],
) -> bool
    ensures { result ≡ all_atomic_among (steps_in traces.now) operations.now sources.now orders.now }
{
    (0..operations.len()).all(|r| are_atomic_with(traces, operations, sources, orders, r))
}
