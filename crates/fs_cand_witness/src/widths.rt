//! The widths of an order.

ghost use Rattle.std.specs.Prelude.{◌≡◌, IfOk};
ghost use Rattle.std.specs.List.{list_all};
ghost use Rattle.fs_kinds.specs.Placement.{slots_of};
ghost use Rattle.fs_cert_evidence.specs.Evidence.{pairs_at, widths_of};
ghost use Rattle.fs_cand_witness.specs.inner.Keeping.{are_ordered, before_in, after_in, is_kept, keeps_all, width_in};

use crate::Sides;
use crate::rows::Rows;
use fs_cert_evidence::Pairs;
use fs_kinds::{List, Placement, Slot};
use std::alloc::{AllocError, Global};

// Operations that load, or those that store.
#[derive(Clone, Copy)]
pub(crate) enum Class {
    Reads,
    Writes,
}

/// The operations of this class before the place, as bits.
pub(crate) fn before_in(sides: &Sides, class: Class) -> u64
    ensures { result ≡ before_in class sides.now }
{
    match class {
        Class::Reads => sides.reads_before,
        Class::Writes => sides.writes_before,
    }
}

/// Those after it.
pub(crate) fn after_in(sides: &Sides, class: Class) -> u64
    ensures { result ≡ after_in class sides.now }
{
    match class {
        Class::Reads => sides.reads_after,
        Class::Writes => sides.writes_after,
    }
}

/// Have the rows an edge from each of the first to each of the second?
pub(crate) fn are_ordered(rows: &Rows, first: u64, second: u64) -> bool
    ensures { result ≡ are_ordered rows.now first second }
{
    let mut left = first;
    while left != 0 {
        let a = left.trailing_zeros() as u8;
        left &= !(1 << a);
        if !rows.row(a) & second != 0 {
            return false;
        }
    }
    true
}

/// Where the place is at the slot: does the order have each operation of the first class before it ahead of each of the
/// second class after it?
fn is_kept(order: &Rows, slot: Slot, first: Class, second: Class, side: &Sides) -> bool
    ensures { result ≡ is_kept order.now slot first second side.now }
{
    slot != side.slot || are_ordered(order, before_in(side, first), after_in(side, second))
}

/// Is it so at each place?
fn keeps(order: &Rows, sides: &[Sides], slot: Slot, first: Class, second: Class) -> bool
    ensures { result ≡ keeps_all order.now sides.now slot first second }
{
    sides
        .iter()
        .all(|side| is_kept(order, slot, first, second, side))
}

/// The pairs that the order keeps at the slot.
fn pairs_at(order: &Rows, sides: &[Sides], slot: Slot) -> Pairs
    ensures { result ≡ pairs_at (width_in order.now sides.now) slot }
{
    Pairs {
        read_read: keeps(order, sides, slot, Class::Reads, Class::Reads),
        read_write: keeps(order, sides, slot, Class::Reads, Class::Writes),
        write_read: keeps(order, sides, slot, Class::Writes, Class::Reads),
        write_write: keeps(order, sides, slot, Class::Writes, Class::Writes),
    }
}

/// The pairs that it keeps at each of these slots.
fn pairs_at_each(
    alloc: Global,
    order: &Rows,
    sides: &[Sides],
    slots: &[Slot],
) -> Result<Vec<Pairs>, AllocError>
    ensures { IfOk result (λ widths. widths.items ≡ widths_of (width_in order.now sides.now) slots.now) }
{
    slots
        .iter()
        .map(|slot| pairs_at(order, sides, *slot))
        .collect(alloc)
}

/// The slots of the placement.
fn slots_of(alloc: Global, placement: &Placement) -> Result<Vec<Slot>, AllocError>
    ensures { IfOk result (λ slots. slots.items ≡ slots_of placement.now) }
{
    placement
        .as_slice()
        .iter()
        .map(|entry| entry.slot)
        .collect(alloc)
}

/// The pairs that the order, as rows, keeps at each slot of the placement. The slots times the sides.
pub(crate) fn widths(
    alloc: Global,
    placement: &Placement,
    order: &Rows,
    sides: &[Sides],
) -> Result<List<Pairs>, AllocError>
    ensures { IfOk result (λ widths. widths ≡ widths_of (width_in order.now sides.now) (slots_of placement.now)) }
{
    let slots = slots_of(alloc, placement)?;
    Ok(List::new(pairs_at_each(alloc, order, sides, &slots)?))
}
