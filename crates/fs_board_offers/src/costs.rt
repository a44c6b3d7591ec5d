//! Costs of placements and of the floors of parts, and which of two placements is better.

ghost use Rattle.std.specs.Prelude.{◌≡◌, ◌≤◌, ◌*◌, IsTrue, Some, length, option_map, unwrap_or};
ghost use Rattle.fs_cert_evidence.specs.Evidence.{placement_in};
ghost use Rattle.fs_board_offers.specs.Offers.{entry_cost, cost, precedes, is_better, first_kind, offer_at};
ghost use Rattle.fs_board_offers.specs.Parts.{floor, earliest};
ghost use Rattle.fs_board_offers.specs.Pruning.{first_at, is_no_better};
ghost use Rattle.fs_board_offers.specs.Bests.{is_best};

use crate::Offers;
use fs_cert_evidence::{Decision, Forbidden};
use fs_kinds::Entry;
use std::sync::Arc;

/// What the entry costs at its slot, and nothing where its kind isn't offered there.
fn entry_cost(offers: &Offers, entry: Entry) -> u128
    ensures value { result ≡ entry_cost offers.now entry }
    ensures most { result ≤ 1000000000 }
{
    u128::from(offers.cost_at(entry.slot, entry.kind))
}

/// What the placement costs. It takes time of entries that have a kind times slots.
pub fn cost(offers: &Offers, placement: &[Entry]) -> u128
    ensures value { result ≡ cost offers.now placement.now }
    ensures most { result ≤ 1000000000 * length placement.now }
{
    let mut total = 0;
    for entry in placement {
        total += entry_cost(offers, *entry);
    }
    total
}

/// What the part's floor costs.
pub fn floor_cost(offers: &Offers, part: &[Decision]) -> u128
    ensures value { result ≡ cost offers.now (floor part.now) }
    ensures most { result ≤ 1000000000 * length part.now }
{
    let mut total = 0;
    for decision in part {
        total += entry_cost(offers, decision.least());
    }
    total
}

/// Is the placement before the other one in the order of those of equal cost? It calls itself once for each slot, of
/// which a test has 48 at most.
pub fn precedes(offers: &Offers, placement: &[Entry], other: &[Entry]) -> bool
    ensures { result ≡ precedes offers.now placement.now other.now }
{
    let [entry, placement @ ..] = placement else {
        return false;
    };
    let [above, other @ ..] = other else {
        return false;
    };
    let mine = offers.rank(*entry);
    let theirs = offers.rank(*above);
    mine < theirs || mine == theirs && precedes(offers, placement, other)
}

/// Does the placement cost less than the other one, or as much and is before it?
pub fn is_better(offers: &Offers, placement: &[Entry], other: &[Entry]) -> bool
    ensures { result ≡ is_better offers.now placement.now other.now }
{
    let mine = cost(offers, placement);
    let theirs = cost(offers, other);
    mine < theirs || mine == theirs && precedes(offers, placement, other)
}

/// Is the placement better than the best one posted, or is there none?
pub fn is_best(offers: &Offers, bound: Option<&Arc<Forbidden>>, placement: &[Entry]) -> bool
    ensures { result ≡ is_best offers.now (option_map (λ f. placement_in f.now) bound.entry) placement.now }
{
    match bound {
        None => true,
        Some(bound) => is_better(offers, placement, bound.placement.as_slice()),
    }
}

/// Are both the same placement? It calls itself once for each slot.
pub fn is_same(placement: &[Entry], other: &[Entry]) -> bool
    ensures yes { IsTrue result → placement.now ≡ other.now }
    ensures no { placement.now ≡ other.now → IsTrue result }
{
    let [entry, placement @ ..] = placement else {
        return other.is_empty();
    };
    let [above, other @ ..] = other else {
        return false;
    };
    *entry == *above && is_same(placement, other)
}

/// Is the part's floor before the placement in the order of those of equal cost? It calls itself once for each slot, of
/// which a test has 48 at most.
pub fn floor_precedes(offers: &Offers, part: &[Decision], placement: &[Entry]) -> bool
    ensures { result ≡ precedes offers.now (floor part.now) placement.now }
{
    let [decision, part @ ..] = part else {
        return false;
    };
    let [entry, placement @ ..] = placement else {
        return false;
    };
    let mine = offers.rank(decision.least());
    let theirs = offers.rank(*entry);
    mine < theirs || mine == theirs && floor_precedes(offers, part, placement)
}

/// The slot with what is decided, or with what comes first there of what costs the same.
fn earliest_at(offers: &Offers, decision: &Decision) -> Entry
    ensures { result ≡ record {
      slot = decision.now.slot;
      kind = unwrap_or decision.now.decided (first_kind (offer_at
          offers.now decision.now.slot));
    } }
{
    let kind = match decision.decided {
        Some(kind) => kind,
        None => offers.first(decision.slot),
    };
    Entry {
        slot: decision.slot,
        kind,
    }
}

/// Is the part's earliest completion before the placement in the order of those of equal cost? It calls itself once for
/// each slot, of which a test has 48 at most.
pub fn earliest_precedes(offers: &Offers, part: &[Decision], placement: &[Entry]) -> bool
    ensures { result ≡ precedes offers.now (earliest offers.now part.now) placement.now }
{
    let [decision, part @ ..] = part else {
        return false;
    };
    let [entry, placement @ ..] = placement else {
        return false;
    };
    let mine = offers.rank(earliest_at(offers, decision));
    let theirs = offers.rank(*entry);
    mine < theirs || mine == theirs && earliest_precedes(offers, part, placement)
}

/// Is the first completion of the part that may cost so much before the placement?
fn first_precedes(offers: &Offers, part: &[Decision], placement: &[Entry], least: u128) -> bool
    ensures { result ≡ precedes offers.now (first_at offers.now part.now least) placement.now }
{
    if floor_cost(offers, part) == least {
        floor_precedes(offers, part, placement)
    } else {
        earliest_precedes(offers, part, placement)
    }
}

/// Is what is under the part no better than the placement, where it costs at least so much, or can't be had at all?
pub fn is_no_better(
    offers: &Offers,
    placement: &[Entry],
    part: &[Decision],
    least: Option<u128>,
) -> bool
    ensures { result ≡ is_no_better offers.now (Some placement.now) part.now least }
{
    let Some(least) = least else {
        return true;
    };
    let cost = cost(offers, placement);
    cost < least || cost == least && !first_precedes(offers, part, placement, least)
}
