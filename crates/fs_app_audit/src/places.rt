//! The places of the FENCEs of a test, what may stand in each, and what it costs there.

ghost use Rattle.std.specs.Prelude.{◌≡◌, ◌≤◌, ◌<◌, ◌*◌, ◌^◌, All, IfOk, IsTrue, length, map};
ghost use Rattle.fs_kinds.specs.Limits.{most_harts, most_instructions, most_numbered};
ghost use Rattle.fs_kinds.specs.Kind.{all_kinds};
ghost use Rattle.fs_kinds.specs.PriceTable.{most_weight};
ghost use Rattle.fs_kinds.specs.Slot.{is_rising};
ghost use Rattle.fs_model_laws.specs.InPlace.{is_place, places, places_in};
ghost use Rattle.fs_app_audit.specs.Standing.{access_after};
ghost use Rattle.fs_app_audit.specs.InPlace.{offer_in_place, offers_in_place, price_in_place};
ghost use Rattle.fs_app_audit.specs.InPlace.{weighed, weighed_by, weight_in_place, weight_there, written_cost};

use crate::advice::{code_of, kind_there, slot_of};
use crate::prices::cost_in_place;
use crate::standing::access_after;
use fs_board_offers::{Offer, Offers};
use fs_instr::Instr;
use fs_kinds::{Kind, Prices, Slot};
use fs_litmus::Code;
use std::alloc::{AllocError, Global};

// ---- the places

fn is_place(code: &[Instr], at: u8) -> bool
    ensures { result ≡ is_place code.now at }
{
    kind_there(code, usize::from(at)).is_some()
}

/// The places of one hart.
fn places_in(alloc: Global, hart: u8, code: &[Instr]) -> Result<Vec<Slot>, AllocError>
    requires { length code.now < most_numbered }
    ensures { IfOk result (λ found. found.items ≡ places_in hart code.now) }
{
    (0..code.len() as u8)
        .filter(|at| is_place(code, *at))
        .map(|at| Slot { hart, at })
        .collect(alloc)
}

/// The places of the FENCEs that order memory, by hart and then by instruction.
fn places(alloc: Global, codes: &[Code]) -> Result<Vec<Slot>, AllocError>
    requires harts { length codes.now ≤ most_harts }
    requires lengths { All (λ code. length code ≤ most_instructions) codes.now }
    ensures value { IfOk result (λ found. found.items ≡ places codes.now) }
    ensures rising { IfOk result (λ found. IsTrue (is_rising found.items)) }
{
    let mut found = Vec::new(alloc);
    for (hart, code) in codes.iter().enumerate() {
        let here = places_in(alloc, hart as u8, code.as_slice())?;
        found.extend_from_slice(&here)?;
    }
    Ok(found)
}

// ---- its weight

/// The slot whose weight a FENCE at `at` has: that of the access at which it stands, or else of the instruction behind
/// it.
fn weighed_by(hart: u8, code: &[Instr], at: u8) -> Slot
    requires { length code.now ≤ most_instructions }
    ensures { result ≡ weighed_by hart code.now at (access_after code.now at) }
{
    let at = usize::from(at);
    match access_after(code, at) {
        Some(access) => slot_of(hart, code, access),
        None => slot_of(hart, code, at + 1),
    }
}

fn weight_there(prices: &Prices, hart: u8, code: &[Instr], at: u8) -> u32
    requires { length code.now ≤ most_instructions }
    ensures weight { result ≡ weight_there prices.now hart code.now at }
    ensures most { result ≤ most_weight }
{
    prices.weight(weighed_by(hart, code, at))
}

// ---- what may stand in a place

/// What may stand in a place of this code, of a FENCE of this kind, which is 0 to 1,000 times as dear there.
fn offer_of(prices: &Prices, place: Slot, weight: u32, own: Option<Kind>) -> Offer
    requires { weight ≤ most_weight }
    ensures { result ≡ record {
      slot = place;
      costs = map (λ kind. weighed weight (price_in_place prices.now own kind)) all_kinds;
      written = own;
    } }
{
    Offer {
        slot: place,
        costs: [
            cost_in_place(prices, weight, own, Kind::RR),
            cost_in_place(prices, weight, own, Kind::RW),
            cost_in_place(prices, weight, own, Kind::RRw),
            cost_in_place(prices, weight, own, Kind::WR),
            cost_in_place(prices, weight, own, Kind::WW),
            cost_in_place(prices, weight, own, Kind::WRw),
            cost_in_place(prices, weight, own, Kind::RwR),
            cost_in_place(prices, weight, own, Kind::RwW),
            cost_in_place(prices, weight, own, Kind::RwRw),
            cost_in_place(prices, weight, own, Kind::Tso),
        ],
        written: own,
    }
}

fn offer_in_place(prices: &Prices, codes: &[Code], place: Slot) -> Offer
    requires { All (λ code. length code ≤ most_instructions) codes.now }
    ensures { result ≡ offer_in_place prices.now codes.now place }
{
    let code = code_of(codes, usize::from(place.hart));
    let weight = weight_there(prices, place.hart, code, place.at);
    let own = kind_there(code, usize::from(place.at));
    offer_of(prices, place, weight, own)
}

/// The same of each of these places.
fn offers_at(
    alloc: Global,
    prices: &Prices,
    codes: &[Code],
    places: &[Slot],
) -> Result<Vec<Offer>, AllocError>
    requires { All (λ code. length code ≤ most_instructions) codes.now }
    ensures { IfOk result (λ offers. offers.items ≡ map (offer_in_place prices.now codes.now) places.now) }
{
    places
        .iter()
        .map(|place| offer_in_place(prices, codes, *place))
        .collect(alloc)
}

/// What may stand in the places of the FENCEs of this code: none, the FENCE that is written, and each kind that has a
/// price and orders less. A written kind without a price costs what the cheapest does that orders all that it orders.
/// The cube of a code's length at most. Fails only for want of memory.
pub fn offers_in_place(alloc: Global, prices: &Prices, codes: &[Code]) -> Result<Offers, AllocError>
    requires harts { length codes.now ≤ most_harts }
    requires lengths { All (λ code. length code ≤ most_instructions) codes.now }
    ensures { IfOk result (λ offers. offers ≡ offers_in_place prices.now codes.now) }
{
    let places = places(alloc, codes)?;
    let offers = offers_at(alloc, prices, codes, &places)?;
    let _table = prices.of(Kind::RwRw);
    Ok(Offers::new(offers))
}

/// What the FENCEs cost as they are written. It calls itself once for each place.
pub fn written_cost(offers: &[Offer]) -> u128
    ensures value { result ≡ written_cost offers.now }
    ensures most { result ≤ 2 ^ 32 * length offers.now }
{
    let [offer, offers @ ..] = offers else {
        return 0;
    };
    u128::from(offer.cost(offer.written)) + written_cost(offers)
}
