//! The price of a kind in the place of a FENCE.

ghost use Rattle.std.specs.Prelude.{◌≡◌, ◌≤◌, IfSome};
ghost use Rattle.fs_kinds.specs.Kind.{all_kinds};
ghost use Rattle.fs_kinds.specs.PriceTable.{most_weight};
ghost use Rattle.fs_board_offers.specs.Breaks.{least_of};
ghost use Rattle.fs_app_audit.specs.Prices.{price_above, price_below, price_in_place, weighed, written_price};

use fs_board_offers::lesser;
use fs_kinds::{Kind, Prices};

/// The price of the second kind, where it orders all that the first one orders.
fn price_above(prices: &Prices, own: Kind, above: Kind) -> Option<u32>
    ensures value { result ≡ price_above prices.now own above }
    ensures most { IfSome result (λ n. n ≤ 1000000) }
{
    if own.no_stronger(above) {
        prices.of(above)
    } else {
        None
    }
}

/// The least of these prices. It calls itself once for each kind.
fn least_above(prices: &Prices, own: Kind, kinds: &[Kind]) -> Option<u32>
    ensures value { result ≡ least_of (price_above prices.now own) kinds.now }
    ensures most { IfSome result (λ n. n ≤ 1000000) }
{
    let [kind, kinds @ ..] = kinds else {
        return None;
    };
    lesser(
        price_above(prices, own, *kind),
        least_above(prices, own, kinds),
    )
}

/// What the written kind costs; one that has no price costs what the cheapest does that orders all that it orders.
fn written_price(prices: &Prices, own: Kind) -> Option<u32>
    ensures value { result ≡ written_price prices.now own }
    ensures most { IfSome result (λ n. n ≤ 1000000) }
{
    match prices.of(own) {
        Some(price) => Some(price),
        None => least_above(prices, own, &Kind::ALL),
    }
}

/// What a kind costs where this one is written: there may stand that one, and what orders less.
fn price_below(prices: &Prices, own: Kind, kind: Kind) -> Option<u32>
    ensures value { result ≡ price_below prices.now own kind }
    ensures most { IfSome result (λ n. n ≤ 1000000) }
{
    if !kind.no_stronger(own) {
        None
    } else if own.no_stronger(kind) {
        written_price(prices, own)
    } else {
        prices.of(kind)
    }
}

/// What a kind costs in the place of a FENCE of this kind; nothing where it can't stand there. It takes constant time.
fn price_in_place(prices: &Prices, own: Option<Kind>, kind: Kind) -> Option<u32>
    ensures value { result ≡ price_in_place prices.now own kind }
    ensures most { IfSome result (λ n. n ≤ 1000000) }
{
    let own = own?;
    price_below(prices, own, kind)
}

/// The same, times the weight. It takes constant time.
pub(crate) fn cost_in_place(
    prices: &Prices,
    weight: u32,
    own: Option<Kind>,
    kind: Kind,
) -> Option<u32>
    requires { weight ≤ most_weight }
    ensures { result ≡ weighed weight (price_in_place prices.now own kind) }
{
    let price = price_in_place(prices, own, kind)?;
    Some(price * weight)
}
