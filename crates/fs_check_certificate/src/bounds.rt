//! Whether the witnesses that a leaf of the tree names refute its part or bound it, by their widths. A witness is a
//! number in a list that has for each witness its widths, by the test's slots, or nothing where it doesn't show the
//! outcome. A second list has for each what it costs at each slot to break it.

ghost use Rattle.std.specs.Prelude.{◌≡◌, None, Some, List, not, map};
ghost use Rattle.std.specs.List.{find};
ghost use Rattle.fs_kinds.specs.declared.kind.Kind.TheVariants.{RwRw};
ghost use Rattle.fs_board_offers.specs.Offers.{cost};
ghost use Rattle.fs_model.specs.declared.test.Test.{Test};
ghost use Rattle.fs_model.specs.Test.{IsBounded};
ghost use Rattle.fs_model.specs.Slots.{slots};
ghost use Rattle.fs_model.specs.Witness.{Witness};
ghost use Rattle.fs_board_offers.specs.Parts.{filled, floor, slots_in_part};
ghost use Rattle.fs_board_offers.specs.Valid.{Refutes};
ghost use Rattle.fs_board_offers.specs.Breaks.{breaks_one, break_apart, bound_of};
ghost use Rattle.fs_check_certificate.specs.Breaks.{is_shown_under, all_breaks, breaks_at, least_in, is_breakable_at};
ghost use Rattle.fs_check_certificate.specs.Breaks.{is_bounded};
ghost use Rattle.fs_check_certificate.specs.Leaves.{Decides, AreShown, IsBounding};

use fs_board_offers::{Offers, floor_cost, is_kept, is_no_better, lesser};
use fs_cert_evidence::{Decision, Pairs};
use fs_kinds::{Entry, Kind, List};

/// What is said of a leaf that witnesses are to bound.
pub enum Bounding {
    /// They bound it.
    Holds,
    /// The first of them that doesn't show the outcome under the floor has this number.
    Unshown(u64),
    /// They show the outcome under the floor, and don't bound the leaf.
    Fails,
}

/// Does the witness of this number show the outcome with what is decided, and this kind or none at each undecided slot?
fn is_shown_under(
    part: &[Decision],
    shown: &[Option<List<Pairs>>],
    kind: Option<Kind>,
    number: u64,
) -> bool
    ensures { result ≡ is_shown_under kind part.now shown.now number }
{
    match shown.get(number as usize) {
        Some(Some(widths)) => is_kept(part, widths.as_slice(), kind),
        Some(None) | None => false,
    }
}

/// Does the witness of this number show the outcome with what the part decides and `rw,rw` elsewhere? Linear in the
/// slots.
pub fn refutes(part: &[Decision], shown: &[Option<List<Pairs>>], number: u64) -> bool
    ensures { (t : Test) (ws : List Witness) → IsBounded t → slots_in_part part.now ≡ slots t → AreShown t ws shown.now
        → Decides result (Refutes t ws (filled part.now) number) }
{
    is_shown_under(part, shown, Some(Kind::RwRw), number)
}

/// The first of the witnesses of these numbers that doesn't show the outcome under the part's floor.
fn first_unshown(part: &[Decision], shown: &[Option<List<Pairs>>], numbers: &[u64]) -> Option<u64>
    ensures { result ≡ find (λ j. not (is_shown_under None part.now shown.now j)) numbers.now }
{
    numbers
        .iter()
        .copied()
        .find(|number| !is_shown_under(part, shown, None, *number))
}

/// What it costs at each slot to break the witness of this number.
fn breaks_at(breaks: &[List<Option<u32>>], number: u64) -> &[Option<u32>]
    ensures { result.now ≡ breaks_at breaks.now number }
{
    match breaks.get(number as usize) {
        Some(breaks) => breaks.as_slice(),
        None => &[],
    }
}

/// What the cheapest fence costs that may still be put at a slot of the part and breaks a witness, by what that costs
/// at each slot. It calls itself once for each slot.
fn least_in(part: &[Decision], breaks: &[Option<u32>]) -> Option<u32>
    ensures { result ≡ least_in part.now breaks.now }
{
    let [decision, part @ ..] = part else {
        return None;
    };
    let [cost, breaks @ ..] = breaks else {
        return None;
    };
    let least = least_in(part, breaks);
    if decision.is_free() {
        lesser(*cost, least)
    } else {
        least
    }
}

/// Is slot number k undecided, and breakable for a witness, by what that costs at each slot?
fn is_breakable_at(k: usize, decision: &Decision, breaks: &[Option<u32>]) -> bool
    ensures { result ≡ is_breakable_at k decision.now breaks.now }
{
    match breaks.get(k) {
        Some(cost) => cost.is_some() && decision.is_free(),
        None => false,
    }
}

/// Is slot number k breakable for one of the witnesses of these numbers at most?
#[tactic(auto, using(crate::proofs::Pruned::count_breaks))]
fn breaks_one(k: usize, decision: &Decision, breaks: &[List<Option<u32>>], numbers: &[u64]) -> bool
    ensures { result ≡ breaks_one is_breakable_at k decision.now (map (breaks_at breaks.now) numbers.now) }
{
    let mut count: usize = 0;
    for number in numbers {
        if is_breakable_at(k, decision, breaks_at(breaks, *number)) {
            count += 1;
        }
    }
    count < 2
}

/// Do no two of the witnesses of these numbers share a breakable slot of the part? It takes time of slots times
/// numbers.
fn break_apart(part: &[Decision], breaks: &[List<Option<u32>>], numbers: &[u64]) -> bool
    ensures { result ≡ break_apart is_breakable_at 0 part.now (map (breaks_at breaks.now) numbers.now) }
{
    part.iter()
        .enumerate()
        .all(|(k, decision)| breaks_one(k, decision, breaks, numbers))
}

/// What the floor costs, and breaking each of the witnesses of these numbers. Nothing where one of them can't be
/// broken. It takes time of slots times numbers.
fn bound_of(
    offers: &Offers,
    part: &[Decision],
    breaks: &[List<Option<u32>>],
    numbers: &[u64],
) -> Option<u128>
    ensures { result ≡ bound_of (least_in part.now) (cost offers.now (floor part.now))
        (map (breaks_at breaks.now) numbers.now) }
{
    let mut total = floor_cost(offers, part);
    for number in numbers {
        let Some(least) = least_in(part, breaks_at(breaks, *number)) else {
            return None;
        };
        total += u128::from(least);
    }
    Some(total)
}

/// Do the witnesses of these numbers bound the part, where each shows the outcome under its floor?
fn is_bounded(
    offers: &Offers,
    answer: &[Entry],
    part: &[Decision],
    breaks: &[List<Option<u32>>],
    numbers: &[u64],
) -> bool
    ensures { result ≡ is_bounded offers.now (Some answer.now) part.now (map (breaks_at breaks.now) numbers.now) }
{
    break_apart(part, breaks, numbers)
        && is_no_better(
            offers,
            answer,
            part,
            bound_of(offers, part, breaks, numbers),
        )
}

/// What is said of a leaf that the witnesses of these numbers are to bound, against the answer, by what it costs at
/// each slot to break each witness. It takes time of slots times numbers.
pub fn judge_bounded(
    offers: &Offers,
    answer: &[Entry],
    part: &[Decision],
    shown: &[Option<List<Pairs>>],
    breaks: &[List<Option<u32>>],
    numbers: &[u64],
) -> Bounding
    ensures { (t : Test) (ws : List Witness) → IsBounded t → slots_in_part part.now ≡ slots t → AreShown t ws shown.now
        → breaks.now ≡ all_breaks offers.now (slots
        t) shown.now → IsBounding t offers.now ws answer.now part.now numbers.now result }
{
    if let Some(number) = first_unshown(part, shown, numbers) {
        return Bounding::Unshown(number);
    }
    if is_bounded(offers, answer, part, breaks, numbers) {
        Bounding::Holds
    } else {
        Bounding::Fails
    }
}
