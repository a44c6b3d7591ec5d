//! What breaks a witness: an execution whose order doesn't keep a pair at a slot is ruled out by a fence there that
//! orders it.

ghost use Rattle.std.specs.Prelude.{◌≡◌, ℕ, ◌≤◌, IfSome, Option};
ghost use Rattle.fs_kinds.specs.declared.kind.Kind.{Kind as KindValue};
ghost use Rattle.std.specs.List.{list_any};
ghost use Rattle.fs_board_offers.specs.Offers.{kind_cost, offer_at};
ghost use Rattle.fs_board_offers.specs.Breaks.{fits, is_kept, is_break, break_cost, lesser_of, least_of, all_options};
ghost use Rattle.fs_board_offers.specs.Breaks.{break_at};

use crate::options::OPTIONS;
use crate::{Offer, Offers};
use fs_cert_evidence::{Decision, Pairs};
use fs_kinds::{Kind, Slot};

/// Does the kind, or none, order only these pairs?
fn fits(pairs: Pairs, kind: Option<Kind>) -> bool
    ensures { result ≡ fits pairs kind }
{
    let Some(kind) = kind else {
        return true;
    };
    match kind {
        Kind::RR => pairs.read_read,
        Kind::RW => pairs.read_write,
        Kind::RRw => pairs.read_read && pairs.read_write,
        Kind::WR => pairs.write_read,
        Kind::WW => pairs.write_write,
        Kind::WRw => pairs.write_read && pairs.write_write,
        Kind::RwR => pairs.read_read && pairs.write_read,
        Kind::RwW => pairs.read_write && pairs.write_write,
        Kind::RwRw => {
            pairs.read_read && pairs.read_write && pairs.write_read && pairs.write_write
        }
        Kind::Tso => pairs.read_read && pairs.read_write && pairs.write_write,
    }
}

/// Does each slot of the part order only what is kept there, where undecided slots have this kind or none? It calls
/// itself once for each slot, of which a test has 48 at most.
pub fn is_kept(part: &[Decision], widths: &[Pairs], kind: Option<Kind>) -> bool
    ensures { result ≡ is_kept kind part.now widths.now }
{
    let [decision, part @ ..] = part else {
        return true;
    };
    let [pairs, widths @ ..] = widths else {
        return true;
    };
    fits(*pairs, decision.decided.unwrap_or(kind)) && is_kept(part, widths, kind)
}

/// Is the kind offered, and does it order a pair that isn't kept?
fn is_break(offer: &Offer, pairs: Pairs, kind: Option<Kind>) -> bool
    ensures { result ≡ is_break offer.now pairs kind }
{
    offer.is_offered(kind) && !fits(pairs, kind)
}

/// The lesser of two costs, where there are any.
pub fn lesser(first: Option<u32>, second: Option<u32>) -> Option<u32>
    ensures value { result ≡ lesser_of first second }
    ensures most { (k : ℕ) → IfSome first (λ n. n ≤ k) → IfSome second (λ n. n ≤ k) → IfSome result (λ n. n ≤ k) }
{
    match (first, second) {
        (None, _) => second,
        (_, None) => first,
        (Some(first), Some(second)) => Some(if first < second { first } else { second }),
    }
}

/// What the kind costs, where it is offered and orders a pair that isn't kept.
fn break_cost(offer: &Offer, pairs: Pairs, kind: Option<Kind>) -> Option<u32>
    requires { (kind : Option KindValue) → kind_cost offer.now kind ≤ 1000000000 }
    ensures value { result ≡ break_cost offer.now pairs kind }
    ensures most { IfSome result (λ n. n ≤ 1000000000) }
{
    if is_break(offer, pairs, kind) {
        Some(offer.cost(kind))
    } else {
        None
    }
}

/// What the cheapest of these kinds costs that is offered and orders a pair that isn't kept.
#[tactic(auto, using(crate::proofs::LeastCosts::least_more))]
fn least_of(offer: &Offer, pairs: Pairs, kinds: &[Option<Kind>]) -> Option<u32>
    requires { (kind : Option KindValue) → kind_cost offer.now kind ≤ 1000000000 }
    ensures value { result ≡ least_of (break_cost offer.now pairs) kinds.now }
    ensures most { IfSome result (λ n. n ≤ 1000000000) }
{
    let mut least = None;
    for kind in kinds {
        least = lesser(least, break_cost(offer, pairs, *kind));
    }
    least
}

/// Is a kind offered at the slot that orders a pair that isn't kept there?
#[tactic(auto, using(crate::proofs::Nothing::nothing_breaks))]
pub fn has_break(offers: &Offers, slot: Slot, pairs: Pairs) -> bool
    ensures { result ≡ list_any (is_break (offer_at offers.now slot) pairs) all_options }
{
    match offers.at(slot) {
        None => false,
        Some(offer) => OPTIONS.iter().any(|kind| is_break(offer, pairs, *kind)),
    }
}

/// What the cheapest fence costs that is offered at the slot and orders a pair that isn't kept there. It takes time of
/// slots and kinds.
#[tactic(auto, using(crate::proofs::Nothing::nothing_least))]
pub fn break_at(offers: &Offers, slot: Slot, pairs: Pairs) -> Option<u32>
    ensures value { result ≡ break_at offers.now slot pairs }
    ensures most { IfSome result (λ n. n ≤ 1000000000) }
{
    let offer = offers.at(slot)?;
    least_of(offer, pairs, &OPTIONS)
}
