//! What may stand at each slot, and what it costs there.

ghost use Rattle.std.specs.Prelude.{◌≡◌, ◌≤◌, ◌*◌, IsTrue, IfOk, IfSome, IsOkUnless, Option, option_map};
ghost use Rattle.std.specs.List.{find};
ghost use Rattle.fs_kinds.specs.Slot.{IsSlot, is_same_slot, is_rising};
ghost use Rattle.fs_kinds.specs.PriceTable.{price_of as price_in, weight_of};
ghost use Rattle.fs_model.specs.Test.{IsBounded};
ghost use Rattle.fs_board_offers.specs.Offers.{price_of, is_offered, kind_cost, is_kind, is_kept, rank_in, rank_at};
ghost use Rattle.fs_board_offers.specs.Offers.{first_kind, slots, AreOffers, offer_at, entry_cost, cost, offer_of};
ghost use Rattle.fs_board_offers.specs.Offers.{offers_for, offers_of};

use fs_kinds::{Entry, Fault, Kind, Placement, Prices, Slot};
use fs_model::Test;
use std::alloc::{AllocError, Global};
use std::marker::Model;

/// What may stand at a slot: none, and each kind that has a cost, which `costs` has by its place in the table of kinds.
/// The kind that is written there, if any, comes before none in the order of what costs the same, unless it costs
/// nothing.
#[derive(Drop)]
pub struct Offer {
    pub slot: Slot,
    pub costs: [Option<u32>; 10],
    pub written: Option<Kind>,
}

impl Model for Offer {
    ghost use Rattle.fs_board_offers.specs.Offers.{Offer as OfferValue};

    ghost Value = { OfferValue };

    ghost view = { λ o. record { slot = o.slot; costs = o.costs; written = o.written } };
}

impl Offer {
    /// What a fence of the kind costs, where it is offered.
    pub fn price(&self, kind: Kind) -> Option<u32>
        ensures { result ≡ price_of self.now kind }
    {
        self.costs[kind.table_index()]
    }

    /// Is the slot left empty, or the kind offered?
    pub fn is_offered(&self, kind: Option<Kind>) -> bool
        ensures { result ≡ is_offered self.now kind }
    {
        match kind {
            None => true,
            Some(kind) => self.price(kind).is_some(),
        }
    }

    /// What the kind costs where it is offered, and none costs nothing.
    pub fn cost(&self, kind: Option<Kind>) -> u32
        ensures { result ≡ kind_cost self.now kind }
    {
        match kind {
            None => 0,
            Some(kind) => self.price(kind).unwrap_or(0),
        }
    }

    /// Is this kind written there, and does it cost something?
    fn is_kept(&self, kind: Kind) -> bool
        ensures { result ≡ is_kept self.now kind }
    {
        is_kind(self.written, kind) && 0 < self.cost(Some(kind))
    }

    /// The place of a kind or none in the order of what costs the same.
    pub fn rank(&self, kind: Option<Kind>) -> usize
        ensures { result ≡ rank_in self.now kind }
    {
        let Some(kind) = kind else {
            return 1;
        };
        if self.is_kept(kind) {
            0
        } else {
            2 + kind.table_index()
        }
    }

    /// What comes first in this order: the written kind where it costs something, else none.
    pub fn first(&self) -> Option<Kind>
        ensures { result ≡ first_kind self.now }
    {
        let written = self.written?;
        if self.is_kept(written) {
            Some(written)
        } else {
            None
        }
    }

    /// At the slot each kind that has a price, for its price times the slot's weight.
    fn priced(prices: &Prices, slot: Slot) -> Offer
        ensures { result ≡ offer_of prices.now slot }
    {
        Offer {
            slot,
            costs: [
                price_at(prices, slot, Kind::RR),
                price_at(prices, slot, Kind::RW),
                price_at(prices, slot, Kind::RRw),
                price_at(prices, slot, Kind::WR),
                price_at(prices, slot, Kind::WW),
                price_at(prices, slot, Kind::WRw),
                price_at(prices, slot, Kind::RwR),
                price_at(prices, slot, Kind::RwW),
                price_at(prices, slot, Kind::RwRw),
                price_at(prices, slot, Kind::Tso),
            ],
            written: None,
        }
    }
}

/// Is it this kind?
fn is_kind(found: Option<Kind>, kind: Kind) -> bool
    ensures { result ≡ is_kind found kind }
{
    match found {
        None => false,
        Some(other) => other.table_index() == kind.table_index(),
    }
}

/// The price of the kind times the slot's weight, where it has one.
fn price_at(prices: &Prices, slot: Slot, kind: Kind) -> Option<u32>
    ensures value { result ≡ option_map (λ n. n * weight_of prices.now slot) (price_in prices.now kind) }
    ensures most { IfSome result (λ n. n ≤ 1000000000) }
{
    let price = prices.of(kind)?;
    Some(price * prices.weight(slot))
}

/// What may stand at each slot of a question, and what it costs there. The slots rise, and no fence costs more than
/// 1,000,000,000.
#[derive(Drop)]
pub struct Offers {
    offers: Vec<Offer>,
}

impl Model for Offers {
    ghost use Rattle.fs_board_offers.specs.Offers.{Offers as OffersValue, AreOffers};

    ghost Value = { OffersValue };

    ghost view = { λ o. o.offers.items };

    ghost invariant = { λ o. AreOffers o.offers.items };
}

impl Offers {
    /// These offers.
    pub fn new(offers: Vec<Offer>) -> Offers
        requires { AreOffers offers.items }
        ensures { result ≡ offers.items }
    {
        Offers { offers }
    }

    /// What the prices offer at the slots of the test. The error is F19.
    pub fn priced(alloc: Global, test: &Test, prices: &Prices) -> Result<Offers, Fault>
        requires { IsBounded test.now }
        ensures ok { IfOk result (λ offers. offers ≡ offers_of test.now prices.now) }
        ensures err { IsOkUnless result Fault.Memory }
    {
        let slots = fs_model::slots(alloc, test)?;
        let offers = offers_for(alloc, prices, &slots)?;
        let _in_range = prices.of(Kind::RwRw);
        Ok(Offers::new(offers))
    }

    /// The offer for the slot, if it is one of the slots. It takes time of slots.
    pub fn at(&self, slot: Slot) -> Option<&Offer>
        ensures value { option_map (λ o. o.now) result ≡ find (λ o. is_same_slot o.slot slot) self.now }
        ensures small { IfSome result (λ o. (kind : Option Kind) → kind_cost o.now kind ≤ 1000000000) }
    {
        self.offers.iter().find(|offer| offer.slot == slot)
    }

    /// Is the slot left empty, or the kind offered there? None takes constant time, a kind time of slots.
    #[tactic(auto, using(crate::proofs::Nothing::nothing_offered))]
    pub fn is_offered(&self, slot: Slot, kind: Option<Kind>) -> bool
        ensures { result ≡ is_offered (offer_at self.now slot) kind }
    {
        let Some(kind) = kind else {
            return true;
        };
        match self.at(slot) {
            None => false,
            Some(offer) => offer.is_offered(Some(kind)),
        }
    }

    /// What the kind costs at the slot, where it is offered there, and none costs nothing. None takes constant time, a
    /// kind time of slots.
    #[tactic(auto, using(crate::proofs::Nothing::nothing_costs))]
    pub fn cost_at(&self, slot: Slot, kind: Option<Kind>) -> u32
        ensures value { result ≡ kind_cost (offer_at self.now slot) kind }
        ensures most { result ≤ 1000000000 }
    {
        let Some(kind) = kind else {
            return 0;
        };
        match self.at(slot) {
            None => 0,
            Some(offer) => offer.cost(Some(kind)),
        }
    }

    /// What the placement costs: the sum over its slots. It takes time of entries that have a kind times slots.
    pub fn cost(&self, placement: &Placement) -> u64
        ensures { result ≡ cost self.now placement.now }
    {
        let mut total = 0;
        for entry in placement.as_slice() {
            total += self.entry_cost(*entry);
        }
        total
    }

    /// What the entry costs at its slot.
    fn entry_cost(&self, entry: Entry) -> u64
        ensures value { result ≡ entry_cost self.now entry }
        ensures most { result ≤ 1000000000 }
        ensures in_range { IsSlot entry.slot }
    {
        u64::from(self.cost_at(entry.slot, entry.kind))
    }

    /// The place of the entry's kind in the order at its slot of what costs the same.
    #[tactic(auto, using(crate::proofs::Nothing::nothing_ranks))]
    pub fn rank(&self, entry: Entry) -> usize
        ensures { result ≡ rank_at self.now entry }
    {
        let Some(kind) = entry.kind else {
            return 1;
        };
        match self.at(entry.slot) {
            None => 2 + kind.table_index(),
            Some(offer) => offer.rank(Some(kind)),
        }
    }

    /// What comes first at the slot of what costs the same.
    pub fn first(&self, slot: Slot) -> Option<Kind>
        ensures { result ≡ first_kind (offer_at self.now slot) }
    {
        self.at(slot)?.first()
    }

    /// The slots, in rising order.
    pub fn slots(&self, alloc: Global) -> Result<Vec<Slot>, AllocError>
        ensures value { IfOk result (λ found. found.items ≡ slots self.now) }
        ensures rising { IsTrue (is_rising (slots self.now)) }
    {
        self.offers.iter().map(|offer| offer.slot).collect(alloc)
    }

    /// The offers, in order of their slots.
    pub fn as_slice(&self) -> &[Offer]
        ensures value { result.now ≡ self.now }
        ensures are { AreOffers self.now }
    {
        &self.offers
    }
}

/// What the prices offer at these slots.
fn offers_for(alloc: Global, prices: &Prices, slots: &[Slot]) -> Result<Vec<Offer>, AllocError>
    ensures { IfOk result (λ offers. offers.items ≡ offers_for prices.now slots.now) }
{
    slots
        .iter()
        .map(|slot| Offer::priced(prices, *slot))
        .collect(alloc)
}
