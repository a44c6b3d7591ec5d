//! What a witness shows of a part, by its widths: whether it is within them, and what it costs to break it.

ghost use Rattle.std.specs.Prelude.{◌≡◌, ℕ, ◌≤◌, IfSome, map};
ghost use Rattle.std.specs.List.{list_all};
ghost use Rattle.fs_board_offers.specs.Parts.{floor};
ghost use Rattle.fs_board_offers.specs.Pruning.{is_breakable};
ghost use Rattle.fs_board_offers.specs.Offers.{cost};
ghost use Rattle.fs_board_offers.specs.Breaks.{is_kept, breaks_one, break_apart, bound_of};
ghost use Rattle.fs_board.specs.inner.Breaks.{everywhere, least_at, least_in, is_breakable_at, widths_in};

use fs_board_offers::{Offers, break_at, floor_cost, has_break, is_kept, lesser};
use fs_cert_evidence::{Decision, Pairs, Witness};
use fs_kinds::Kind;
use std::sync::Arc;

/// Does a fence that may still be put at the slot order a pair that isn't kept there?
pub(crate) fn is_breakable(offers: &Offers, pairs: Pairs, decision: &Decision) -> bool
    ensures { result ≡ is_breakable offers.now (everywhere pairs) decision.now }
{
    decision.is_free() && has_break(offers, decision.slot, pairs)
}

/// What the cheapest fence costs that may still be put at the slot and orders a pair that isn't kept there.
fn least_at(offers: &Offers, pairs: Pairs, decision: &Decision) -> Option<u32>
    ensures value { result ≡ least_at offers.now pairs decision.now }
    ensures most { IfSome result (λ n. n ≤ 1000000000) }
{
    if decision.is_free() {
        break_at(offers, decision.slot, pairs)
    } else {
        None
    }
}

/// What the cheapest fence costs that may still be put at a slot of the part and orders a pair that isn't kept there.
/// It calls itself once for each slot.
pub(crate) fn least_in(offers: &Offers, part: &[Decision], widths: &[Pairs]) -> Option<u32>
    ensures value { result ≡ least_in offers.now part.now widths.now }
    ensures most { IfSome result (λ n. n ≤ 1000000000) }
{
    let [decision, part @ ..] = part else {
        return None;
    };
    let [pairs, widths @ ..] = widths else {
        return None;
    };
    lesser(
        least_at(offers, *pairs, decision),
        least_in(offers, part, widths),
    )
}

/// Is slot number k breakable for the witness?
fn is_breakable_at(offers: &Offers, k: usize, decision: &Decision, witness: &Witness) -> bool
    ensures { result ≡ is_breakable_at offers.now k decision.now witness.now.widths }
{
    match witness.widths.get(k) {
        None => false,
        Some(pairs) => is_breakable(offers, *pairs, decision),
    }
}

/// Is slot number k breakable for one of the witnesses at most?
#[tactic(auto, using(crate::proofs::Pruned::count_widths))]
fn breaks_one(offers: &Offers, k: usize, decision: &Decision, witnesses: &[Arc<Witness>]) -> bool
    ensures { result ≡ breaks_one (is_breakable_at offers.now) k decision.now (map widths_in witnesses.now) }
{
    let mut count: usize = 0;
    for witness in witnesses {
        if is_breakable_at(offers, k, decision, witness) {
            count += 1;
        }
    }
    count < 2
}

/// Do no two of the witnesses share a breakable slot of the part? It takes time of slots times kinds times witnesses.
pub(crate) fn break_apart(offers: &Offers, part: &[Decision], witnesses: &[Arc<Witness>]) -> bool
    ensures { result ≡ break_apart (is_breakable_at offers.now) 0 part.now (map widths_in witnesses.now) }
{
    part.iter()
        .enumerate()
        .all(|(k, decision)| breaks_one(offers, k, decision, witnesses))
}

/// What the cheapest fence costs that may still be put at a slot of the part and breaks the witness.
fn least_break(offers: &Offers, part: &[Decision], witness: &Witness) -> Option<u32>
    ensures value { result ≡ least_in offers.now part.now witness.now.widths }
    ensures most { IfSome result (λ n. n ≤ 1000000000) }
{
    least_in(offers, part, &witness.widths)
}

/// What the floor costs, and breaking each of the witnesses. Nothing where one of them can't be broken. It takes time
/// of slots times kinds times witnesses.
pub(crate) fn bound_of(
    offers: &Offers,
    part: &[Decision],
    witnesses: &[Arc<Witness>],
) -> Option<u128>
    ensures { result ≡ bound_of (least_in offers.now part.now) (cost offers.now (floor part.now))
        (map widths_in witnesses.now) }
{
    let mut total = floor_cost(offers, part);
    for witness in witnesses {
        let Some(least) = least_break(offers, part, witness) else {
            return None;
        };
        total += u128::from(least);
    }
    Some(total)
}

/// Are all the witnesses within the part, where undecided slots have this kind or none?
pub(crate) fn are_kept(part: &[Decision], witnesses: &[Arc<Witness>], kind: Option<Kind>) -> bool
    ensures { result ≡ list_all (λ w. is_kept kind part.now (widths_in w)) witnesses.now }
{
    witnesses
        .iter()
        .all(|witness| is_kept(part, &witness.widths, kind))
}
