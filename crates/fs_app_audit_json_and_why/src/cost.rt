//! What fences cost, in numbers that JSON has.

ghost use Rattle.std.specs.Prelude.{◌≡◌, ◌≤◌, length, option_copied, IfSome, IsTrue};
ghost use Rattle.fs_kinds.specs.PriceTable.{are_offered};
ghost use Rattle.fs_app_audit.specs.InPlace.{written_cost};
ghost use Rattle.fs_app_audit_json_and_why.specs.Objects.{cost_of};

use fs_app_audit::written_cost;
use fs_board_offers::Offer;
use fs_kinds::{Placement, Prices};

/// What the FENCEs cost as they are written, of which a test has 256 at most.
pub(crate) fn written_of(offers: &[Offer]) -> u64
    requires { length offers.now ≤ 256 }
    ensures { result ≡ written_cost offers.now }
{
    written_cost(offers) as u64
}

/// What the fences of the placement cost, if there is one.
pub(crate) fn cost_of(prices: &Prices, placement: Option<&Placement>) -> Option<u64>
    requires { IfSome (option_copied placement) (λ p. IsTrue (are_offered prices.now p)) }
    ensures { result ≡ cost_of prices.now (option_copied placement.entry) }
{
    match placement {
        Some(placement) => Some(prices.cost(placement)),
        None => None,
    }
}
