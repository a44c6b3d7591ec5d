//! What it costs to break a witness at each slot: an execution whose order doesn't keep a pair there is ruled out by a
//! fence that orders it.

ghost use Rattle.std.specs.Prelude.{◌≡◌, IfOk};
ghost use Rattle.fs_check_certificate.specs.Breaks.{widths_in, breaks_of, all_breaks};

use fs_board_offers::{Offers, break_at};
use fs_cert_evidence::Pairs;
use fs_kinds::{List, Slot};
use std::alloc::{AllocError, Global};

/// The widths, where there are any.
fn widths_in(kept: &Option<List<Pairs>>) -> &[Pairs]
    ensures { result.now ≡ widths_in kept.now }
{
    match kept {
        Some(widths) => widths.as_slice(),
        None => &[],
    }
}

/// What the cheapest fence costs that is offered at each of these slots and orders a pair that isn't kept there.
fn breaks_of(
    alloc: Global,
    offers: &Offers,
    slots: &[Slot],
    widths: &[Pairs],
) -> Result<Vec<Option<u32>>, AllocError>
    ensures { IfOk result (λ breaks. breaks.items ≡ breaks_of offers.now slots.now widths.now) }
{
    slots
        .iter()
        .zip(widths)
        .map(|(slot, pairs)| break_at(offers, *slot, *pairs))
        .collect(alloc)
}

/// The same of each witness: nothing for one that doesn't show the outcome. For each witness it takes time of slots
/// times slots and kinds.
pub(crate) fn all_breaks(
    alloc: Global,
    offers: &Offers,
    slots: &[Slot],
    shown: &[Option<List<Pairs>>],
) -> Result<Vec<List<Option<u32>>>, AllocError>
    ensures { IfOk result (λ breaks. breaks.items ≡ all_breaks offers.now slots.now shown.now) }
{
    let mut breaks = Vec::new(alloc);
    for kept in shown {
        breaks.push(List::new(breaks_of(alloc, offers, slots, widths_in(kept))?))?;
    }
    Ok(breaks)
}
