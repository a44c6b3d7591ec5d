//! The placement that a certificate answers.

ghost use Rattle.std.specs.Prelude.{◌≡◌, ◌≢◌, ◌<◌, map, length, string_bytes, slice_get, Some, None, IfSome, IfNone};
ghost use Rattle.std.specs.Prelude.{IfOk, IsOkUnless, IsTrue};
ghost use Rattle.std.specs.List.{AllByRecursion};
ghost use Rattle.fs_kinds.specs.declared.fault.Fault.TheVariants.{Memory};
ghost use Rattle.fs_kinds.specs.declared.kind.Kind.{Kind};
ghost use Rattle.fs_kinds.specs.Placement.{all_with};
ghost use Rattle.fs_kinds.specs.Slot.{IsSlot, fence_word, is_rising};
ghost use Rattle.fs_board_offers.specs.Offers.{slots as slots_of};
ghost use Rattle.fs_cert_evidence.specs.Certificate.{Fenced};
ghost use Rattle.fs_check_certificate.specs.inner.Filled.{IsFilling, IsPlacementFor};

use fs_board_offers::Offers;
use fs_kinds::{Fault, Kind, Placement, Slot, read_fence};
use std::alloc::Global;

/// The kind of the fence that the word names, where it names one at this slot.
fn kind_of(word: &str, slot: Slot) -> Option<Kind>
    ensures named { IfSome result (λ kind. word.now ≡ fence_word slot kind) }
    ensures none { IfNone result ((kind : Kind) → word.now ≢ fence_word slot kind) }
{
    let (named, kind) = read_fence(word)?;
    if named == slot { Some(kind) } else { None }
}

/// The kind of the fence that the word of this number names, where it names one at this slot.
fn kind_at(words: &[String], number: usize, slot: Slot) -> Option<Kind>
    ensures named { IfSome result (λ kind. slice_get (map string_bytes words.now) number
        ≡ Some (fence_word slot kind)) }
    ensures low { IfSome result (λ kind. number < length words.now) }
    ensures none { IfNone result ((kind : Kind) → slice_get (map string_bytes words.now) number
        ≢ Some (fence_word slot kind)) }
{
    match words.get(number) {
        Some(word) => kind_of(word.as_str(), slot),
        None => None,
    }
}

/// The placement with the fences that the words name, where they name fences of offered kinds at its slots, in slot
/// order.
fn fill(
    placement: Placement,
    slots: &[Slot],
    offers: &Offers,
    words: &[String],
) -> Option<Placement>
    requires rising { IsTrue (is_rising slots.now) }
    requires small { AllByRecursion IsSlot slots.now }
    requires empty { placement ≡ all_with None slots.now }
    ensures { IsFilling offers.now slots.now (map string_bytes words.now) result }
{
    let mut placement = placement;
    let mut used = 0;
    for slot in slots {
        if let Some(kind) = kind_at(words, used, *slot) {
            if !offers.is_offered(*slot, Some(kind)) {
                return None;
            }
            match placement.with(*slot, Some(kind)) {
                Ok(()) => used += 1,
                Err(_) => return None,
            }
        }
    }
    if used == words.len() {
        Some(placement)
    } else {
        None
    }
}

/// The placement whose cost this is, and the words of whose fences in slot order these are: over the slots of the
/// offers, with offered kinds. None where there is no such placement. The error is `Memory`. It takes time of slots
/// times slots.
pub(crate) fn answered_placement(
    alloc: Global,
    offers: &Offers,
    cost: u64,
    fences: &[String],
) -> Result<Option<Placement>, Fault>
    requires { AllByRecursion IsSlot (slots_of offers.now) }
    ensures ok { IfOk result (IsPlacementFor offers.now (Fenced cost (map string_bytes fences.now))) }
    ensures err { IsOkUnless result Memory }
{
    let slots = offers.slots(alloc)?;
    let empty = Placement::bottom(alloc, &slots)?;
    let Some(placement) = fill(empty, &slots, offers, fences) else {
        return Ok(None);
    };
    if offers.cost(&placement) == cost {
        Ok(Some(placement))
    } else {
        Ok(None)
    }
}
