//! Prices of fences at sites.

ghost use Rattle.std.specs.Prelude.{◌≡◌, ◌≢◌, ◌≤◌, ◌⊎◌, Some, IfOk, IfErr, IfSome, Decides, IsErrOf, option_and_then};
ghost use Rattle.std.specs.Str.{IsUtf8};
ghost use Rattle.serde_json.specs.Data.{Data};
ghost use Rattle.serde_json.specs.Find.{get};
ghost use Rattle.serde_json.specs.Read.{read};
ghost use Rattle.serde_json.specs.View.{view};
ghost use Rattle.fs_kinds.specs.PriceObject.{weights_key, whole};
ghost use Rattle.fs_kinds.specs.PriceTable.{most_price, most_weight};
ghost use Rattle.fs_kinds.specs.declared.fault.Fault.TheVariants.{BadPrices, Memory};
ghost use Rattle.fs_app_sites.specs.SitePrices.{AreSitePrices, AreSiteWeights, IsPriceValue, IsSitePrice};
ghost use Rattle.fs_app_sites.specs.SitePrices.{IsSitePricesFault, cost_at, price_of, weight_of};

use fs_kinds::{Fault, Kind, whole};
use serde_json::Value;
use std::alloc::Global;
use std::marker::Model;

/// The greatest price.
const MOST_PRICE: u64 = 1_000_000;

/// The greatest weight.
const MOST_WEIGHT: u64 = 1_000;

/// What a fence of each offered kind costs, and by what the prices at each site are multiplied, as a JSON object says
/// it, which contracts see. `read_site_prices` makes it, and then `rw,rw` is offered. A stronger kind may be cheaper.
#[derive(Drop)]
pub struct SitePrices {
    object: Value,
}

impl Model for SitePrices {
    ghost use Rattle.std.specs.Coded.{codes};
    ghost use Rattle.serde_json.specs.contracts.value.Value as value;
    ghost use Rattle.serde_json.specs.declared.value.Value.{Value as Object};

    ghost Value = { Object };

    ghost view = { λ prices. prices.object };

    ghost coded = { Prim.hlevel (codes, value.the_row.coded) };
}

impl SitePrices {
    /// The price of a fence of this kind, from 1 to 1,000,000, where the kind is offered.
    pub fn of(&self, kind: Kind) -> Option<u32>
        ensures price { result ≡ price_of (view self.now) kind }
        ensures in_range { IfSome result (λ n. (1 ≤ n) × (n ≤ most_price)) }
    {
        whole(self.object.get(kind.name())?, 1, MOST_PRICE)
    }

    /// The weight of the site of this name, from 0 to 1,000: 1 where the prices say nothing of it.
    pub fn weight(&self, name: &str) -> u32
        ensures weight { result ≡ weight_of (view self.now) name.now }
        ensures in_range { result ≤ most_weight }
    {
        self.given_weight(name).unwrap_or(1)
    }

    /// The weight that the site was given.
    fn given_weight(&self, name: &str) -> Option<u32>
        ensures weight { result ≡ option_and_then (whole 0 most_weight)
            (option_and_then (get name.now) (get weights_key (view self.now))) }
        ensures in_range { IfSome result (λ n. n ≤ most_weight) }
    {
        whole(self.object.get("weights")?.get(name)?, 0, MOST_WEIGHT)
    }

    /// What a fence of the kind costs at the site of this name, once for all its copies: price times weight, where the
    /// kind is offered.
    pub fn cost_at(&self, name: &str, kind: Kind) -> Option<u32>
        ensures value { result ≡ cost_at (view self.now) name.now kind }
        ensures most { IfSome result (λ n. n ≤ 1000000000) }
    {
        let price = self.of(kind)?;
        Some(price * self.weight(name))
    }
}

/// Whether the bytes hold prices for sites; nothing else is done. The faults are those of `read_site_prices`.
pub fn check_prices(alloc: Global, bytes: &[u8]) -> Result<(), Fault>
    ensures { IfErr result (λ f. f ≢ Memory → IsSitePricesFault bytes.now f) }
{
    let _prices = read_site_prices(alloc, bytes)?;
    Ok(())
}

/// Reads prices for sites from the bytes of a JSON object: from kinds to whole numbers from 1 to 1,000,000, and from
/// `weights`, which may be missing, to an object from names to whole numbers from 0 to 1,000. F10 where the bytes
/// aren't such an object, F11 where they are and `rw,rw` has no price, F19. Where a key comes twice, its last value
/// counts. A name of no site is no fault.
pub fn read_site_prices(alloc: Global, bytes: &[u8]) -> Result<SitePrices, Fault>
    ensures ok { IfOk result (λ prices. AreSitePrices bytes.now (view prices)) }
    ensures err { IfErr result (λ f. f ≢ Memory → IsSitePricesFault bytes.now f) }
{
    let object = read_value(alloc, bytes)?;
    if !are_prices(&object) {
        return Err(Fault::BadPrices);
    }
    let prices = SitePrices { object };
    match prices.of(Kind::RwRw) {
        Some(_) => Ok(prices),
        None => Err(Fault::NoTop),
    }
}

/// The value of which the bytes are the JSON text. F10 where they are none, F19.
fn read_value(alloc: Global, bytes: &[u8]) -> Result<Value, Fault>
    ensures utf8 { IfOk result (λ _. IsUtf8 bytes.now) }
    ensures reads { IfOk result (λ value. read bytes.now ≡ Some (view value)) }
    ensures bad { IsErrOf result BadPrices → (d : Data) → IsUtf8 bytes.now → ¬ (read bytes.now ≡ Some d) }
    ensures err { IfErr result (λ f. (f ≡ BadPrices) ⊎ (f ≡ Memory)) }
{
    match Value::from_slice(alloc, bytes) {
        Ok(value) => Ok(value),
        Err(error) if error.is_memory() => Err(Fault::Memory),
        Err(_) => Err(Fault::BadPrices),
    }
}

/// Is the value an object of prices, with or without `rw,rw`?
fn are_prices(value: &Value) -> bool
    ensures { Decides result (IsPriceValue (view value.now)) }
{
    let Some(members) = value.as_object() else {
        return false;
    };
    for (name, value) in members {
        if !is_price(name.as_str(), value) {
            return false;
        }
    }
    true
}

/// Are they a kind and its price, or the weights?
fn is_price(name: &str, value: &Value) -> bool
    ensures { Decides result (IsSitePrice name.now (view value.now)) }
{
    if name == "weights" {
        are_weights(value)
    } else {
        Kind::of(name).is_some() && whole(value, 1, MOST_PRICE).is_some()
    }
}

/// Is the value an object of weights?
fn are_weights(value: &Value) -> bool
    ensures { Decides result (AreSiteWeights (view value.now)) }
{
    let Some(members) = value.as_object() else {
        return false;
    };
    for (_, weight) in members {
        if whole(weight, 0, MOST_WEIGHT).is_none() {
            return false;
        }
    }
    true
}
