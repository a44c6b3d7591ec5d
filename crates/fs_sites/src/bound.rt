//! What placements that begin with what is decided and break all bars cost at least.

ghost use Rattle.std.specs.Prelude.{◌≡◌, ◌+◌, ◌≤◌, true, false, IfOk, IsTrue, List, ◌++◌, length, option_copied};
ghost use Rattle.fs_kinds.specs.declared.placement.Entry.{Entry as EntryValue};
ghost use Rattle.fs_board_offers.specs.Breaks.{break_cost, least_of};
ghost use Rattle.fs_sites.specs.Plans.{is_within, breaks_all};
ghost use Rattle.fs_sites.specs.Sinking.{Fills, paid, least_at, least_in, sunk_price};
ghost use Rattle.fs_sites.specs.Sinking.{cheaper_offer, sunk_offer, sunk, IsAtMost, HasPaid};
ghost use Rattle.fs_sites.specs.Walks.{Closes};

use crate::breaking::{fits, unbroken_rest};
use fs_board_offers::{OPTIONS, Offer, Offers, cost, lesser};
use fs_cert_evidence::Pairs;
use fs_kinds::{Entry, Kind, List, Placement};
use std::alloc::{AllocError, Global};

/// What the kind costs, where it is offered and orders a pair that isn't kept.
fn break_cost(offer: &Offer, pairs: Pairs, kind: Option<Kind>) -> Option<u32>
    ensures { result ≡ break_cost offer.now pairs kind }
{
    if offer.is_offered(kind) && !fits(pairs, kind) {
        Some(offer.cost(kind))
    } else {
        None
    }
}

/// What the cheapest of these kinds costs that is offered and orders a pair that isn't kept. It calls itself once for
/// each kind.
fn least_of(offer: &Offer, pairs: Pairs, kinds: &[Option<Kind>]) -> Option<u32>
    ensures { result ≡ least_of (break_cost offer.now pairs) kinds.now }
{
    let [kind, kinds @ ..] = kinds else {
        return None;
    };
    lesser(
        break_cost(offer, pairs, *kind),
        least_of(offer, pairs, kinds),
    )
}

/// What the cheapest way costs to break the bar at this site.
fn least_at(pairs: Pairs, offer: &Offer) -> Option<u32>
    ensures { result ≡ least_at pairs offer.now }
{
    if fits(pairs, Some(Kind::RwRw)) {
        None
    } else {
        least_of(offer, pairs, &OPTIONS)
    }
}

/// What the cheapest way costs to break the bar at one of these sites. It calls itself once for each site.
fn least_in(bar: &[Pairs], offers: &[Offer]) -> Option<u32>
    ensures { result ≡ least_in bar.now offers.now }
{
    let [pairs, bar @ ..] = bar else {
        return None;
    };
    let [offer, offers @ ..] = offers else {
        return None;
    };
    lesser(least_at(*pairs, offer), least_in(bar, offers))
}

/// What the kind costs, so much less where it orders a pair that isn't kept.
fn sunk_price(offer: &Offer, pairs: Pairs, kind: Kind, less: u32) -> Option<u32>
    ensures { result ≡ sunk_price less pairs offer.now kind }
{
    let price = offer.price(kind)?;
    if fits(pairs, Some(kind)) {
        Some(price)
    } else {
        Some(price.saturating_sub(less))
    }
}

/// The offer with each such kind so much cheaper.
fn cheaper_offer(offer: &Offer, pairs: Pairs, less: u32) -> Offer
    ensures { result ≡ cheaper_offer less pairs offer.now }
{
    Offer {
        slot: offer.slot,
        costs: [
            sunk_price(offer, pairs, Kind::RR, less),
            sunk_price(offer, pairs, Kind::RW, less),
            sunk_price(offer, pairs, Kind::RRw, less),
            sunk_price(offer, pairs, Kind::WR, less),
            sunk_price(offer, pairs, Kind::WW, less),
            sunk_price(offer, pairs, Kind::WRw, less),
            sunk_price(offer, pairs, Kind::RwR, less),
            sunk_price(offer, pairs, Kind::RwW, less),
            sunk_price(offer, pairs, Kind::RwRw, less),
            sunk_price(offer, pairs, Kind::Tso, less),
        ],
        written: offer.written,
    }
}

/// Makes each way to break the bar at this site so much cheaper.
fn sink_at(pairs: Pairs, offer: &mut Offer, less: u32)
    ensures { offer.new ≡ sunk_offer less pairs offer.old }
{
    if !fits(pairs, Some(Kind::RwRw)) {
        *offer = cheaper_offer(offer, pairs, less);
    }
}

/// Makes each way to break the bar at these sites so much cheaper.
fn sink(bar: &[Pairs], offers: &mut [Offer], less: u32)
    ensures { offers.new ≡ sunk less bar.now offers.old }
{
    for site in 0..bar.len().min(offers.len()) {
        sink_at(bar[site], &mut offers[site], less);
    }
}

/// Pays for a bar that isn't broken by what is decided: what the cheapest way costs to break it, by which each way
/// becomes cheaper; none where it can't be broken.
fn pay(bar: &[Pairs], decided: &[Entry], offers: &mut [Offer]) -> Option<u32>
    ensures { (rest : List EntryValue) → Fills offers.old rest → is_within bar.now (decided.now ++ rest) ≡ false
        → HasPaid result offers.old offers.new rest }
{
    let Some(rest) = unbroken_rest(bar, decided) else {
        return Some(0);
    };
    let least = least_in(rest, offers)?;
    sink(rest, offers, least);
    Some(least)
}

/// The same offers.
fn copied(alloc: Global, offers: &[Offer]) -> Result<Vec<Offer>, AllocError>
    ensures { IfOk result (λ copy. copy.items ≡ offers.now) }
{
    let mut copy = Vec::new(alloc);
    for offer in offers {
        copy.push(Offer {
            slot: offer.slot,
            costs: offer.costs,
            written: offer.written,
        })?;
    }
    Ok(copy)
}

/// What placements cost at least that have these fences at the first sites, which cost so much, and break all bars;
/// none where there is no such placement. The bars are taken in the order of these numbers. It takes time of bars,
/// undecided sites and kinds.
fn bound(
    alloc: Global,
    undecided: &[Offer],
    bars: &[List<Pairs>],
    order: &[usize],
    decided: &[Entry],
    cost: u128,
) -> Result<Option<u128>, AllocError>
    ensures { IfOk result (λ least. (rest : List EntryValue) → Fills undecided.now rest
        → breaks_all bars.now (decided.now ++ rest) ≡ true → IsAtMost least (cost + paid undecided.now rest)) }
{
    let mut offers = copied(alloc, undecided)?;
    let mut least = cost;
    for number in order {
        let Some(bar) = bars.get(*number) else {
            continue;
        };
        let Some(paid) = pay(bar.as_slice(), decided, &mut offers) else {
            return Ok(None);
        };
        least = least.saturating_add(u128::from(paid));
    }
    Ok(Some(least))
}

/// Is it known that what begins with these fences and breaks all bars costs no less than the best placement?
pub(crate) fn is_closed(
    alloc: Global,
    offers: &Offers,
    bars: &[List<Pairs>],
    order: &[usize],
    decided: &[Entry],
    best: Option<&Placement>,
) -> Result<bool, AllocError>
    requires { length decided.now ≤ length offers.now }
    ensures { IfOk result (λ closed. IsTrue closed
        → Closes offers.now bars.now (option_copied best.entry) decided.now) }
{
    let undecided = &offers.as_slice()[decided.len()..];
    let least = bound(
        alloc,
        undecided,
        bars,
        order,
        decided,
        cost(offers, decided),
    )?;
    Ok(match (least, best) {
        (None, _) => true,
        (_, None) => false,
        (Some(least), Some(best)) => cost(offers, best.as_slice()) <= least,
    })
}
