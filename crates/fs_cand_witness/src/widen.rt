//! Relations that are widened: edges are added as long as an order extends them.

ghost use Rattle.std.specs.Prelude.{◌≡◌, ◌≤◌, ℕ, Some, slice_get};
ghost use Rattle.std.specs.List.{list_any};
ghost use Rattle.fs_kinds.specs.Slot.{is_same_slot};
ghost use Rattle.fs_cand_witness.specs.declared.points.Sides.{Sides};
ghost use Rattle.fs_cand_witness.specs.inner.Widening.{AreTried, HasOrder, IsMadeAt, IsMadeBy, IsMadeOf, IsTried};
ghost use Rattle.fs_cand_witness.specs.inner.Widening.{IsWider};

use crate::Sides;
use crate::cycles::has_order;
use crate::rows::Rows;
use crate::widths::are_ordered;
use fs_kinds::Slot;

/// The relation with edges from each of some numbers to each of others, where an order extends it; else the relation.
/// Nothing is tried where they are there already, as at an instruction that accesses no memory, whose pairs are those
/// of the next that does.
fn with_edges(rows: Rows, n: usize, from: u64, to: u64) -> Rows
    requires fits { n ≤ 64 }
    requires order { HasOrder rows n }
    ensures wider { IsWider n rows result }
    ensures tried { IsTried n result from to }
    ensures made { IsMadeBy rows from to result }
{
    if are_ordered(&rows, from, to) {
        return rows;
    }
    let mut wider = Rows::new();
    wider.union(&rows);
    wider.add_to_each(from, to);
    if has_order(&wider, n) { wider } else { rows }
}

/// The relation with each pair of classes kept at the place that can be.
fn with_sides(rows: Rows, n: usize, sides: &Sides) -> Rows
    requires fits { n ≤ 64 }
    requires order { HasOrder rows n }
    ensures wider { IsWider n rows result }
    ensures tried { AreTried n result sides.now }
    ensures made { IsMadeAt rows sides.now result }
{
    let mut wider = with_edges(rows, n, sides.reads_before, sides.reads_after);
    wider = with_edges(wider, n, sides.reads_before, sides.writes_after);
    wider = with_edges(wider, n, sides.writes_before, sides.reads_after);
    with_edges(wider, n, sides.writes_before, sides.writes_after)
}

/// Is the slot among these?
fn is_among(slots: &[Slot], slot: Slot) -> bool
    ensures { result ≡ list_any (λ s. is_same_slot s slot) slots.now }
{
    slots.iter().any(|other| *other == slot)
}

/// The relation with each pair of classes kept that can be, at the places of these slots before the others: no other
/// pair can be added, and nothing but pairs is. For each place four times what it takes to judge a relation.
pub(crate) fn widened(rows: &Rows, n: usize, sides: &[Sides], first: &[Slot]) -> Rows
    requires fits { n ≤ 64 }
    requires order { HasOrder rows.now n }
    ensures wider { IsWider n rows.now result }
    ensures widest { (k : ℕ) (side : Sides) → slice_get sides.now k ≡ Some side → AreTried n result side }
    ensures made { IsMadeOf rows.now sides.now result }
{
    let mut wider = Rows::new();
    wider.union(rows);
    for side in sides {
        if is_among(first, side.slot) {
            wider = with_sides(wider, n, side);
        }
    }
    for side in sides {
        if !is_among(first, side.slot) {
            wider = with_sides(wider, n, side);
        }
    }
    wider
}
