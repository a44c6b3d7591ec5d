//! Prices of fences.
ghost use Rattle.std.specs.Prelude.{◌≡◌, ◌≤◌, ◌<◌, ◌^◌, IsTrue, IfSome, IsSome, IfOk, OnOk, OnErr, IfErr, IsErrOf};
ghost use Rattle.std.specs.Prelude.{IsOkUnless, Some, None, unwrap_or};
ghost use Rattle.std.specs.Map.{lookup};
ghost use Rattle.serde_json.specs.Data.{Members};
ghost use Rattle.serde_json.specs.View.{view};
ghost use Rattle.fs_kinds.specs.Kind.{word};
ghost use Rattle.fs_kinds.specs.Slot.{IsSlot, slot_name, is_same_slot};
ghost use Rattle.fs_kinds.specs.PriceTable.{most_price, most_weight, is_offered, are_offered, entry_cost, cost};
ghost use Rattle.fs_kinds.specs.PriceObject.{whole, IsWeight, AreWeights, weight_at, price_in, IsPrice, ArePrices};
ghost use Rattle.fs_kinds.specs.PriceObject.{IsPriceValue, IsTableOf, IsPriceFault, IsWeightFault};
ghost use Rattle.fs_kinds.specs.declared.slot.Slot.{Slot};

use crate::fault::Fault;
use crate::kind::Kind;
use crate::placement::{Entry, Placement};
use crate::slot::Slot;
use serde_json::Value;
use std::alloc::Global;
use std::collections::BTreeMap;
use std::marker::Model;

/// What a fence of each offered kind costs, and the weight of each slot by which its fence's price is
/// multiplied. `rw,rw` is offered. A stronger kind may be cheaper.
#[derive(Drop)]
pub struct Prices {
    prices: [Option<u32>; 10],
    weights: BTreeMap<Slot, u32>,
}

impl Model for Prices {
    ghost use Rattle.fs_kinds.specs.PriceTable.{PriceTable};
    ghost use Rattle.fs_kinds.specs.PriceTable.{IsPriceTable};

    ghost Value = { PriceTable };

    ghost view = { λ p. record { prices = p.prices; weights = p.weights.entries } };

    ghost invariant = { λ p. IsPriceTable (record { prices = p.prices; weights = p.weights.entries }) };
}

impl Prices {
    ghost use Rattle.fs_kinds.specs.PriceTable.{IsPriceTable, price_of, weight_of};

    /// The price of a fence of this kind, from 1 to 1,000,000, where the kind is offered. A call tells of all prices and
    /// weights that they are in range, and that `rw,rw` is offered.
    pub fn of(&self, kind: Kind) -> Option<u32>
        ensures price { result ≡ price_of self.now kind }
        ensures in_range { IfSome result (λ n. (1 ≤ n) × (n ≤ most_price)) }
        ensures top { kind ≡ Kind.RwRw → IsSome result }
        ensures table { IsPriceTable self.now }
    {
        self.prices[kind.table_index()]
    }

    /// The weight of the slot, from 0 to 1,000: 1 where the prices say nothing of it.
    pub fn weight(&self, slot: Slot) -> u32
        ensures weight { result ≡ weight_of self.now slot }
        ensures in_range { result ≤ most_weight }
    {
        self.weights.get(&slot).copied().unwrap_or(1)
    }

    /// What the placement costs: the sum over its slots of price times weight. Its kinds must be offered.
    pub fn cost(&self, placement: &Placement) -> u64
        requires { IsTrue (are_offered self.now placement.now) }
        ensures { result ≡ cost self.now placement.now }
    {
        let mut total = 0;
        for entry in placement.as_slice() {
            total += self.entry_cost(*entry);
        }
        total
    }

    /// What the fence at the slot costs: price times weight, or nothing where there is no fence. Its kind must be
    /// offered.
    fn entry_cost(&self, entry: Entry) -> u64
        requires { IsTrue (is_offered self.now entry.kind) }
        ensures value { result ≡ entry_cost self.now entry }
        ensures most { result ≤ 1000000000 }
        ensures in_range { IsSlot entry.slot }
    {
        let price = match entry.kind {
            None => 0,
            Some(kind) => self.of(kind).unwrap(),
        };
        u64::from(price) * u64::from(self.weight(entry.slot))
    }
}

/// The greatest price.
const MOST_PRICE: u64 = 1_000_000;

/// The greatest weight.
const MOST_WEIGHT: u64 = 1_000;

/// Reads prices from the bytes of a JSON object: from kinds to whole numbers from 1 to 1,000,000, and
/// from `weights`, which may be missing, to an object from slots' names to whole numbers from 0 to
/// 1,000. F10 where the bytes aren't such an object, F11 where they are and `rw,rw` has no price, F19.
/// Where a key comes twice, its last value counts.
pub fn read_prices(alloc: Global, bytes: &[u8]) -> Result<Prices, Fault>
    ensures ok { IfOk result (λ p. (ms : Members) × ArePrices bytes.now ms × IsTableOf ms p) }
    ensures bad { IsErrOf result Fault.BadPrices → (ms : Members) → ¬ ArePrices bytes.now ms }
    ensures no_top { IsErrOf result Fault.NoTop → (ms : Members) × ArePrices bytes.now ms
        × (price_in ms Kind.RwRw ≡ None) }
    ensures err { IfErr result IsPriceFault }
{
    let value = match Value::from_slice(alloc, bytes) {
        Ok(value) => value,
        Err(error) if error.is_memory() => return Err(Fault::Memory),
        Err(_) => return Err(Fault::BadPrices),
    };
    prices_of(alloc, &value)
}

/// The prices that the value says.
fn prices_of(alloc: Global, value: &Value) -> Result<Prices, Fault>
    ensures ok { IfOk result (λ p. (ms : Members) × IsPriceValue (view value.now) ms × IsTableOf ms p) }
    ensures bad { IsErrOf result Fault.BadPrices → (ms : Members) → ¬ IsPriceValue (view value.now) ms }
    ensures no_top { IsErrOf result Fault.NoTop → (ms : Members) × IsPriceValue (view value.now) ms
        × (price_in ms Kind.RwRw ≡ None) }
    ensures err { IfErr result IsPriceFault }
{
    let Some(members) = value.as_object() else {
        return Err(Fault::BadPrices);
    };
    let mut prices = [None; 10];
    let mut weights = BTreeMap::new(alloc);
    for (name, value) in members {
        if name.as_str() == "weights" {
            weights = read_weights(alloc, value)?;
        } else {
            let (kind, price) = read_price(name.as_str(), value)?;
            prices[kind.table_index()] = Some(price);
        }
    }
    if prices[Kind::RwRw.table_index()].is_none() {
        return Err(Fault::NoTop);
    }
    Ok(Prices { prices, weights })
}

/// The kind and the price of a member of the object of prices.
fn read_price(name: &str, value: &Value) -> Result<(Kind, u32), Fault>
    ensures kind { IfOk result (λ p. name.now ≡ word p.0) }
    ensures price { IfOk result (λ p. whole 1 most_price (view value.now) ≡ Some p.1) }
    ensures bad { OnErr result (¬ IsPrice name.now (view value.now)) }
    ensures err { IsOkUnless result Fault.BadPrices }
{
    let Some(kind) = Kind::of(name) else {
        return Err(Fault::BadPrices);
    };
    let Some(price) = whole(value, 1, MOST_PRICE) else {
        return Err(Fault::BadPrices);
    };
    Ok((kind, price))
}

/// The slots' weights that the value says.
fn read_weights(alloc: Global, value: &Value) -> Result<BTreeMap<Slot, u32>, Fault>
    ensures weights { OnOk result (AreWeights (view value.now)) }
    ensures found { IfOk result (λ w. (s : Slot) → IsSlot s
        → lookup (is_same_slot s) w.entries ≡ weight_at s (view value.now)) }
    ensures most { IfOk result (λ w. (s : Slot)
        → unwrap_or (lookup (is_same_slot s) w.entries) 1 ≤ most_weight) }
    ensures bad { IsErrOf result Fault.BadPrices → ¬ AreWeights (view value.now) }
    ensures err { IfErr result IsWeightFault }
{
    let Some(members) = value.as_object() else {
        return Err(Fault::BadPrices);
    };
    let mut weights = BTreeMap::new(alloc);
    for (name, value) in members {
        let (slot, weight) = read_weight(name.as_str(), value)?;
        weights.insert(slot, weight)?;
    }
    Ok(weights)
}

/// The slot and the weight of a member of the object of weights.
fn read_weight(name: &str, value: &Value) -> Result<(Slot, u32), Fault>
    ensures slot { IfOk result (λ w. IsSlot w.0 × (name.now ≡ slot_name w.0)) }
    ensures weight { IfOk result (λ w. whole 0 most_weight (view value.now) ≡ Some w.1) }
    ensures bad { OnErr result (¬ IsWeight name.now (view value.now)) }
    ensures err { IsOkUnless result Fault.BadPrices }
{
    let Some(slot) = Slot::of(name) else {
        return Err(Fault::BadPrices);
    };
    let Some(weight) = whole(value, 0, MOST_WEIGHT) else {
        return Err(Fault::BadPrices);
    };
    Ok((slot, weight))
}

/// The whole number that the value is, where it is one from `least` to `most`.
pub fn whole(value: &Value, least: u64, most: u64) -> Option<u32>
    requires { most < 2 ^ 32 }
    ensures { result ≡ whole least most (view value.now) }
{
    let number = value.as_u64()?;
    if least <= number && number <= most {
        Some(number as u32)
    } else {
        None
    }
}
