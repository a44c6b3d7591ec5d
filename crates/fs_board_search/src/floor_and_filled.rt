//! What to try at a node, its least placement (the floor) and the one filled with `rw,rw`, apart from the event that
//! tries it.

ghost use Rattle.std.specs.Prelude.{◌≡◌, ◌≢◌, ℕ, List, Some, IfOk, IfErr, IfSome, IsOkUnless, slice_get};
ghost use Rattle.std.specs.Arc.{arc_value};
ghost use Rattle.fs_kinds.specs.declared.placement.Entry.{Entry};
ghost use Rattle.fs_model.specs.declared.test.Test.{Test};
ghost use Rattle.fs_kinds.specs.Placement.{slots_of};
ghost use Rattle.fs_model.specs.Execution.{Execution};
ghost use Rattle.fs_cert_evidence.specs.CandidateFaults.{IsCandidateFault};
ghost use Rattle.fs_board_offers.specs.Parts.{slots_in_part};
ghost use Rattle.fs_board.specs.Growth.{AreWitnesses};
ghost use Rattle.fs_cert_evidence.specs.Evidence.{IsWitnessAt};
ghost use Rattle.fs_judge.specs.Verdicts.{IsVerdict};
ghost use Rattle.fs_board_search.specs.Tries.{IsPostable};

use crate::store::Store;
use fs_board::Part;
use fs_board_offers::Offers;
use fs_cert_evidence::{Forbidden, Witness};
use fs_judge::{Judge, Verdict};
use fs_kinds::{Fault, Kind, Slot};
use std::alloc::{AllocError, Global};
use std::sync::Arc;

/// What was decided last at the node of this part, whose parent was split at the slot. None of a node whose parent
/// isn't known.
fn newest_decision(part: &Part, slot: Option<Slot>) -> Option<Option<Kind>> {
    let slot = slot?;
    for decision in part.as_slice() {
        if decision.slot == slot {
            return decision.decided;
        }
    }
    None
}

/// Is the least placement worth judging? Where none was decided last, it is the parent's, and allowed: that is known by
/// then.
pub(crate) fn is_floor_new(part: &Part, slot: Option<Slot>) -> bool {
    newest_decision(part, slot) != Some(None)
}

/// Is the placement with `rw,rw` in each undecided slot worth judging? Where `rw,rw` was decided last, it is the
/// parent's.
pub(crate) fn is_filled_new(part: &Part, slot: Option<Slot>) -> bool {
    newest_decision(part, slot) != Some(Some(Kind::RwRw))
}

/// The newest stored witness that shows the outcome with `rw,rw` in each undecided slot.
pub(crate) fn stored_over_filled(
    alloc: Global,
    store: &Store,
    part: &Part,
) -> Result<Option<Arc<Witness>>, AllocError>
    ensures { IfOk result (λ found. IfSome found (λ w. (k : ℕ) × (slice_get store.now k ≡ Some (arc_value w)))) }
{
    let filled = part.filled(alloc)?;
    let Some(found) = store.newest_over(filled.as_slice()) else {
        return Ok(None);
    };
    Ok(Some(Arc::try_clone(found)?))
}

/// Looks for a witness that shows the outcome with `rw,rw` in each undecided slot, and stores it.
pub(crate) fn look_at_filled(
    alloc: Global,
    judge: &mut Judge,
    offers: &Offers,
    store: &mut Store,
    part: &Part,
) -> Result<Option<Arc<Witness>>, Fault>
    requires { AreWitnesses judge.old (slots_in_part part.now) store.old }
    ensures judge { judge.new ≡ judge.old }
    ensures known { AreWitnesses judge.old (slots_in_part part.now) store.new }
    ensures ok { IfOk result (λ found. IfSome found
        (λ w. (e : Execution) × IsWitnessAt judge.old (slots_in_part part.now) (arc_value w) e)) }
    ensures err { IsOkUnless result Fault.Memory }
{
    let filled = part.filled(alloc)?;
    let open = part.undecided_slots(alloc)?;
    let looked = judge.look(alloc, &filled, &open)?;
    let Some(found) = looked else {
        return Ok(None);
    };
    let witness = store.add(alloc, offers, part.as_slice(), found)?;
    Ok(Some(witness))
}

/// What forbids the outcome, where the verdict is that; else the verdict's witness is stored. The decisions of the part
/// are those of any node.
pub(crate) fn forbidden_or_stored(
    alloc: Global,
    offers: &Offers,
    store: &mut Store,
    part: &Part,
    verdict: Verdict,
) -> Result<Option<Forbidden>, AllocError>
    ensures known { (t : Test) (p : List Entry) → IsVerdict t p verdict → AreWitnesses t (slots_of p) store.old
        → AreWitnesses t (slots_of p) store.new }
    ensures ok { (t : Test) (p : List Entry) → IsVerdict t p verdict
        → IfOk result (λ found. IfSome found (IsPostable t)) }
{
    match verdict {
        Verdict::Allowed(found) => {
            store.add(alloc, offers, part.as_slice(), found)?;
            Ok(None)
        }
        Verdict::Forbids(forbidden) => Ok(Some(forbidden)),
    }
}

/// Does a stored witness show the outcome with the least placement?
pub(crate) fn is_floor_allowed(
    alloc: Global,
    store: &Store,
    part: &Part,
) -> Result<bool, AllocError> {
    let floor = part.floor(alloc)?;
    Ok(store.newest_over(floor.as_slice()).is_some())
}

/// Judges the least placement. Where it allows the outcome a witness is stored, which is widened at the undecided slots
/// before the others.
pub(crate) fn judge_floor(
    alloc: Global,
    judge: &mut Judge,
    offers: &Offers,
    store: &mut Store,
    part: &Part,
) -> Result<Option<Forbidden>, Fault>
    requires { AreWitnesses judge.old (slots_in_part part.now) store.old }
    ensures judge { judge.new ≡ judge.old }
    ensures known { AreWitnesses judge.old (slots_in_part part.now) store.new }
    ensures ok { IfOk result (λ found. IfSome found (IsPostable judge.old)) }
    ensures err { IfErr result (λ f. f ≢ Fault.Memory → IsCandidateFault judge.old f) }
{
    let floor = part.floor(alloc)?;
    let open = part.undecided_slots(alloc)?;
    let verdict = judge.verdict(alloc, &floor, &open)?;
    Ok(forbidden_or_stored(alloc, offers, store, part, verdict)?)
}
