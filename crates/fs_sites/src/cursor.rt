//! The cursor of a walk over all placements: what is decided at the first sites.

ghost use Rattle.std.specs.Prelude.{◌≡◌, ◌<◌, ◌≤◌, true, false, MatchOption, IfOk, IsTrue, Some};
ghost use Rattle.fs_kinds.specs.Kind.{table_index};
ghost use Rattle.fs_kinds.specs.Placement.{rank};
ghost use Rattle.fs_board_offers.specs.Offers.{is_offered};
ghost use Rattle.fs_sites.specs.Sinking.{Begins};
ghost use Rattle.fs_sites.specs.Walks.{IsNext, IsLast, Follows, IsEnd};

use fs_board_offers::Offer;
use fs_kinds::{Entry, Kind};
use std::alloc::AllocError;

/// The place of a kind or none in the order of what costs the same: none first, and then the kinds in table order.
fn rank(kind: Option<Kind>) -> usize
    ensures { result ≡ rank kind }
{
    match kind {
        None => 0,
        Some(kind) => 1 + kind.table_index(),
    }
}

/// Is this kind not before that place in this order, and offered?
fn is_left(offer: &Offer, place: usize, kind: Kind) -> bool
    ensures yes { IsTrue result → (place ≤ table_index kind) × (is_offered offer.now (Some kind) ≡ true) }
    ensures no { result ≡ false → is_offered offer.now (Some kind) ≡ true → table_index kind < place }
{
    place <= kind.table_index() && offer.is_offered(Some(kind))
}

/// The next kind in this order that is offered.
fn next_kind(offer: &Offer, kind: Option<Kind>) -> Option<Kind>
    ensures { MatchOption result (IsLast offer.now kind) (IsNext offer.now kind) }
{
    let place = rank(kind);
    for next in &Kind::ALL {
        if is_left(offer, place, *next) {
            return Some(*next);
        }
    }
    None
}

/// Moves the cursor right behind all that begins with it. False, and then it is empty, where nothing is behind that.
pub(crate) fn advance(offers: &[Offer], cursor: &mut Vec<Entry>) -> Result<bool, AllocError>
    requires { Begins offers.now cursor.old.items }
    ensures on { IfOk result (λ on. IsTrue on → Follows offers.now cursor.old.items cursor.new.items) }
    ensures off { IfOk result (λ on. on ≡ false → IsEnd offers.now cursor.old.items) }
{
    while let Some(last) = cursor.pop() {
        if let Some(kind) = next_kind(&offers[cursor.len()], last.kind) {
            cursor.push(Entry {
                slot: last.slot,
                kind: Some(kind),
            })?;
            return Ok(true);
        }
    }
    Ok(false)
}
