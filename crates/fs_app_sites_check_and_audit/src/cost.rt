//! What the FENCEs of sites cost as they are written.

ghost use Rattle.std.specs.Prelude.{◌≡◌, ◌≤◌, length};
ghost use Rattle.fs_board_offers.specs.Breaks.{least_of};
ghost use Rattle.fs_app_sites.specs.Sites.{most_sites};
ghost use Rattle.fs_app_sites_check_and_audit.specs.Marks.{all_cost, all_cost_from, cost_from, costs_there, fence_cost};
ghost use Rattle.fs_app_sites_check_and_audit.specs.Marks.{price_above, written_cost};

use crate::marks::{Mark, agree, own_fence};
use fs_board_offers::{Offer, lesser};
use fs_kinds::Kind;

/// What the second kind costs at the site, where it orders all that the first one orders.
fn price_above(offer: &Offer, own: Kind, above: Kind) -> Option<u32>
    ensures { result ≡ price_above offer.now own above }
{
    if own.no_stronger(above) {
        offer.price(above)
    } else {
        None
    }
}

/// The least of these prices. It calls itself once for each kind.
fn least_above(offer: &Offer, own: Kind, kinds: &[Kind]) -> Option<u32>
    ensures { result ≡ least_of (price_above offer.now own) kinds.now }
{
    let [kind, kinds @ ..] = kinds else {
        return None;
    };
    lesser(
        price_above(offer, own, *kind),
        least_above(offer, own, kinds),
    )
}

/// What a FENCE costs at the site; one without a price costs what the cheapest does that orders all that it orders.
fn fence_cost(offer: &Offer, fence: Option<Kind>) -> u32
    ensures { result ≡ fence_cost offer.now fence }
{
    let Some(own) = fence else {
        return 0;
    };
    match offer.price(own) {
        Some(price) => price,
        None => least_above(offer, own, &Kind::ALL).unwrap_or(0),
    }
}

/// What the FENCEs of all sites cost, once for all copies of each.
fn own_cost(marks: &[Mark], offers: &[Offer]) -> u64
    requires { length offers.now ≤ most_sites }
    ensures { result ≡ cost_from marks.now 0 offers.now }
{
    let mut cost = 0;
    for (site, offer) in offers.iter().enumerate() {
        cost += u64::from(fence_cost(offer, own_fence(marks, site)));
    }
    cost
}

/// The same where the copies of each site agree. The square of the copies, and each copy is looked at for each site.
pub(crate) fn written_cost(marks: &[Mark], offers: &[Offer]) -> Option<u64>
    requires { length offers.now ≤ most_sites }
    ensures { result ≡ written_cost marks.now offers.now }
{
    if agree(marks) {
        Some(own_cost(marks, offers))
    } else {
        None
    }
}

/// Is there no FENCE, or does it cost something at the site?
fn costs_there(offer: &Offer, fence: Option<Kind>) -> bool
    ensures { result ≡ costs_there offer.now fence }
{
    fence.is_none() || fence_cost(offer, fence) != 0
}

/// Does each FENCE that the first copy of a site has cost something? Where one doesn't, to cost no more says nothing of
/// whether it is needed. Each copy is looked at for each site.
pub(crate) fn all_cost(marks: &[Mark], offers: &[Offer]) -> bool
    ensures { result ≡ all_cost marks.now offers.now }
{
    for (site, offer) in offers.iter().enumerate() {
        if !costs_there(offer, own_fence(marks, site)) {
            return false;
        }
    }
    true
}
