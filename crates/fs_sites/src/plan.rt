//! Finds the first of the cheapest placements that break all bars.

ghost use Rattle.std.specs.Prelude.{◌≢◌, ◌≡◌, ◌<◌, ◌≤◌, false, None, IsTrue, IfOk, IfErr, IsOkUnless, MatchOption};
ghost use Rattle.std.specs.Prelude.{length, option_copied};
ghost use Rattle.fs_kinds.specs.declared.fault.Fault.TheVariants.{Memory, NodeLimit};
ghost use Rattle.fs_kinds.specs.Placement.{has_slot, with_kind};
ghost use Rattle.fs_board_offers.specs.Offers.{IsPlacement};
ghost use Rattle.fs_sites.specs.Plans.{ArePlain, IsFirstBreaking, NoneBreaks};
ghost use Rattle.fs_sites.specs.Sinking.{Begins};
ghost use Rattle.fs_sites.specs.Walks.{CostsLess, CostsNoLess, IsBestBefore, IsBestWith};

use crate::bound::is_closed;
use crate::breaking::{breaks_all, fits};
use crate::cursor::advance;
use fs_board_offers::{OPTIONS, Offer, Offers, cost};
use fs_cert_evidence::Pairs;
use fs_kinds::{Entry, Fault, List, Placement};
use std::alloc::{AllocError, Global};

/// The entries as a placement. The error is F19.
fn placement_of(alloc: Global, offers: &Offers, entries: &[Entry]) -> Result<Placement, Fault>
    requires { IsPlacement offers.now entries.now }
    ensures ok { IfOk result (λ p. p ≡ entries.now) }
    ensures err { IsOkUnless result Fault.Memory }
{
    let slots = offers.slots(alloc)?;
    let mut placement = Placement::bottom(alloc, &slots)?;
    for entry in entries {
        put(&mut placement, *entry);
    }
    Ok(placement)
}

/// Puts the entry's kind at its slot.
fn put(placement: &mut Placement, entry: Entry)
    requires { IsTrue (has_slot entry.slot placement.old) }
    ensures { placement.new ≡ with_kind entry.slot entry.kind placement.old }
{
    match placement.with(entry.slot, entry.kind) {
        Ok(()) | Err(_) => {}
    }
}

/// In how many ways can a bar be broken?
fn count_ways(offers: &[Offer], bar: &[Pairs]) -> usize {
    let mut ways: usize = 0;
    for (offer, pairs) in offers.iter().zip(bar) {
        for kind in OPTIONS {
            if offer.is_offered(kind) && !fits(*pairs, kind) {
                ways = ways.saturating_add(1);
            }
        }
    }
    ways
}

/// The numbers of the bars, those first that can be broken in few ways.
fn order_of(
    alloc: Global,
    offers: &[Offer],
    bars: &[List<Pairs>],
) -> Result<Vec<usize>, AllocError> {
    let mut counted = Vec::new(alloc);
    for (number, bar) in bars.iter().enumerate() {
        counted.push((count_ways(offers, bar.as_slice()), number))?;
    }
    counted.sort_unstable();
    let mut order = Vec::new(alloc);
    for (_, number) in &counted {
        order.push(*number)?;
    }
    Ok(order)
}

/// Does the placement cost less than the best one, or is there none?
fn is_cheaper(offers: &Offers, placement: &[Entry], best: Option<&Placement>) -> bool
    ensures yes { IsTrue result → CostsLess offers.now (option_copied best.entry) placement.now }
    ensures no { result ≡ false → CostsNoLess offers.now (option_copied best.entry) placement.now }
{
    match best {
        None => true,
        Some(best) => cost(offers, placement) < cost(offers, best.as_slice()),
    }
}

/// The best placement, now that the whole one at the cursor is seen. The error is F19.
fn with_this(
    alloc: Global,
    offers: &Offers,
    bars: &[List<Pairs>],
    cursor: &[Entry],
    best: Option<Placement>,
) -> Result<Option<Placement>, Fault>
    requires plain { ArePlain offers.now }
    requires begins { Begins offers.now cursor.now }
    requires whole { length cursor.now ≡ length offers.now }
    requires before { IsBestBefore offers.now bars.now cursor.now best }
    ensures ok { IfOk result (IsBestWith offers.now bars.now cursor.now) }
    ensures err { IsOkUnless result Fault.Memory }
{
    let _are = offers.as_slice();
    if breaks_all(bars, cursor) && is_cheaper(offers, cursor, best.as_ref()) {
        Ok(Some(placement_of(alloc, offers, cursor)?))
    } else {
        Ok(best)
    }
}

/// Is all seen that begins with the cursor? And the best placement, after that or as it was. The error is F19.
fn visit(
    alloc: Global,
    offers: &Offers,
    bars: &[List<Pairs>],
    order: &[usize],
    cursor: &[Entry],
    best: Option<Placement>,
) -> Result<(bool, Option<Placement>), Fault>
    requires plain { ArePlain offers.now }
    requires begins { Begins offers.now cursor.now }
    requires short { length cursor.now ≤ length offers.now }
    requires before { IsBestBefore offers.now bars.now cursor.now best }
    ensures seen { IfOk result (λ found. IsTrue found.0 → IsBestWith offers.now bars.now cursor.now found.1) }
    ensures short { IfOk result (λ found. found.0 ≡ false → length cursor.now < length offers.now) }
    ensures before { IfOk result (λ found. found.0 ≡ false
        → IsBestBefore offers.now bars.now cursor.now found.1) }
    ensures err { IsOkUnless result Fault.Memory }
{
    if cursor.len() == offers.as_slice().len() {
        let found = with_this(alloc, offers, bars, cursor, best)?;
        return Ok((true, found));
    }
    let is_seen = is_closed(alloc, offers, bars, order, cursor, best.as_ref())?;
    Ok((is_seen, best))
}

/// The offer's slot with no fence.
fn empty_at(offer: &Offer) -> Entry
    ensures { result ≡ record { slot = offer.now.slot; kind = None } }
{
    Entry {
        slot: offer.slot,
        kind: None,
    }
}

/// Of the placements that the offers allow the cheapest that breaks all bars, and of these the first; none where no
/// placement does. A bar has the pairs that an execution keeps at each site, in order; no kind may be written at any
/// site. F16 where that isn't found out in so many steps, each of which takes time of bars, sites and kinds; else the
/// error is F19.
pub fn first_breaking(
    alloc: Global,
    offers: &Offers,
    bars: &[List<Pairs>],
    most_steps: usize,
) -> Result<Option<Placement>, Fault>
    requires { ArePlain offers.now }
    ensures ok { IfOk result (λ found. MatchOption found (NoneBreaks offers.now bars.now)
        (IsFirstBreaking offers.now bars.now)) }
    ensures err { IfErr result (λ f. f ≢ Memory → f ≡ NodeLimit) }
{
    let sites = offers.as_slice();
    let order = order_of(alloc, sites, bars)?;
    let mut cursor = Vec::new(alloc);
    let mut best = None;
    for _ in 0..most_steps {
        let (is_seen, found) = visit(alloc, offers, bars, &order, &cursor, best)?;
        best = found;
        if !is_seen {
            cursor.push(empty_at(&sites[cursor.len()]))?;
            continue;
        }
        if !advance(sites, &mut cursor)? {
            return Ok(best);
        }
    }
    Err(Fault::NodeLimit)
}
