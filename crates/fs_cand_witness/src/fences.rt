//! The edges of placed fences, as rows.

ghost use Rattle.std.specs.Prelude.{◌≡◌, ◌&&◌, ◌||◌, ℕ, true, false};
ghost use Rattle.std.specs.List.{list_any};
ghost use Rattle.fs_kinds.specs.Kind.{orders};
ghost use Rattle.fs_cand_witness.specs.Edges.{has_edge, has_bit};
ghost use Rattle.fs_cand_witness.specs.Fencing.{after, orders_at};

use crate::points::Sides;
use crate::rows::Rows;
use fs_kinds::{Classes, Kind, Placement};

const READS: Classes = Classes {
    reads: true,
    writes: false,
};

const WRITES: Classes = Classes {
    reads: false,
    writes: true,
};

/// The numbers of the word where they are asked for, and none where not.
fn where_asked(word: u64, is_asked: bool) -> u64
    ensures { (a : ℕ) → has_bit result a ≡ (is_asked && has_bit word a) }
{
    if is_asked { word } else { 0 }
}

/// The operations after the fence before which it orders those of these classes, one of reads and writes.
fn ordered_after(kind: Kind, first: Classes, sides: &Sides) -> u64
    ensures { (b : ℕ) → has_bit result b ≡ orders kind first (after sides.now b) }
{
    where_asked(sides.reads_after, kind.orders(first, READS))
        | where_asked(sides.writes_after, kind.orders(first, WRITES))
}

/// Adds the edges of the fence that is placed there, if any.
fn add_fence(rows: &mut Rows, sides: &Sides, placement: &Placement)
    ensures { (a b : ℕ) → has_edge rows.new a b ≡ (has_edge rows.old a b || orders_at placement.now a b sides.now) }
{
    if let Some(kind) = placement.get(sides.slot) {
        rows.add_to_each(sides.reads_before, ordered_after(kind, READS, sides));
        rows.add_to_each(sides.writes_before, ordered_after(kind, WRITES, sides));
    }
}

/// The edges of the placed fences alone, slot by slot: from each operation that a fence orders to each before which it
/// orders it. With the sides of a candidate: rule 4 for the placed fences. The steps of its runs times the slots.
pub fn fence_rows(sides: &[Sides], placement: &Placement) -> Rows
    ensures { (a b : ℕ) → has_edge result a b ≡ list_any (orders_at placement.now a b) sides.now }
{
    let mut rows = Rows::new();
    for side in sides {
        add_fence(&mut rows, side, placement);
    }
    rows
}
