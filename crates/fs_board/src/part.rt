//! Partial placements.

ghost use Rattle.std.specs.Prelude.{◌≡◌, IsTrue, IfOk, IfSome, IfNone, true, false, map, filter, ◌&&◌, is_none};
ghost use Rattle.std.specs.Prelude.{unwrap_or, option_map, Some, None, if◌then◌else◌};
ghost use Rattle.std.specs.List.{find, list_any};
ghost use Rattle.fs_kinds.specs.declared.slot.Slot.{Slot};
ghost use Rattle.fs_kinds.specs.Placement.{all_with};
ghost use Rattle.fs_kinds.specs.Slot.{is_same_slot, is_rising};
ghost use Rattle.fs_board_offers.specs.Parts.{is_undecided, decide, filled_with, floor, filled};
ghost use Rattle.fs_board_offers.specs.Parts.{slots_in_part};
ghost use Rattle.fs_board.specs.inner.Fills.{put_at};

use fs_cert_evidence::Decision;
use fs_kinds::{Entry, Kind, Placement, Slot};
use std::alloc::{AllocError, Global};
use std::marker::Model;

/// For each slot of a test, in slot order, no decision yet, or a kind or none.
#[derive(Drop)]
pub struct Part {
    decisions: Vec<Decision>,
}

impl Model for Part {
    ghost use Rattle.fs_board_offers.specs.Parts.{Part as PartValue};
    ghost use Rattle.std.specs.Prelude.{IsTrue};
    ghost use Rattle.fs_kinds.specs.Slot.{is_rising};
    ghost use Rattle.fs_board_offers.specs.Parts.{slots_in_part};

    ghost Value = { PartValue };

    ghost view = { λ p. p.decisions.items };

    ghost invariant = { λ p. IsTrue (is_rising (slots_in_part p.decisions.items)) };
}

/// Puts what is decided into the placement. Nothing changes where the slot is undecided or none of the placement's.
#[tactic(auto, using(crate::proofs::Filling::put_nowhere))]
fn put_into(decision: &Decision, placement: &mut Placement)
    ensures { placement.new ≡ put_at decision.now placement.old }
{
    if let Some(kind) = decision.decided {
        match placement.with(decision.slot, kind) {
            Ok(()) | Err(_) => {}
        }
    }
}

impl Part {
    /// No slot of these is decided. The slots must rise. It takes time of slots.
    pub fn undecided(alloc: Global, slots: &[Slot]) -> Result<Part, AllocError>
        requires { IsTrue (is_rising slots.now) }
        ensures { IfOk result (λ p. p ≡ map (λ slot. record { slot = slot; decided = None }) slots.now) }
    {
        let mut decisions = Vec::new(alloc);
        for slot in slots {
            decisions.push(Decision::open(*slot))?;
        }
        Ok(Part { decisions })
    }

    /// Is the slot one of the part's, and undecided? It takes time of slots.
    pub fn is_undecided(&self, slot: Slot) -> bool
        ensures { result ≡ is_undecided slot self.now }
    {
        self.decisions
            .iter()
            .any(|decision| decision.is_open_at(slot))
    }

    /// The part with the slot decided so. It takes time of slots.
    pub fn decide(&self, alloc: Global, slot: Slot, kind: Option<Kind>) -> Result<Part, AllocError>
        ensures { IfOk result (λ p. p ≡ decide slot self.now kind) }
    {
        let mut decisions = Vec::new(alloc);
        for decision in self.as_slice() {
            decisions.push(decision.decided_at(slot, kind))?;
        }
        Ok(Part { decisions })
    }

    /// The entries of the least completion: what is decided, and none elsewhere.
    pub(crate) fn least(&self, alloc: Global) -> Result<Vec<Entry>, AllocError>
        ensures { IfOk result (λ entries. entries.items ≡ floor self.now) }
    {
        let mut entries = Vec::new(alloc);
        for decision in self.as_slice() {
            entries.push(decision.least())?;
        }
        Ok(entries)
    }

    /// The least completion: what is decided, and none elsewhere. It takes time of slots squared.
    pub fn floor(&self, alloc: Global) -> Result<Placement, AllocError>
        ensures { IfOk result (λ p. p ≡ floor self.now) }
    {
        let slots = self.slots(alloc)?;
        let Ok(bottom) = Placement::bottom(alloc, &slots) else {
            return Err(AllocError);
        };
        Ok(self.filled_with(bottom, None))
    }

    /// The strongest completion: what is decided, and `rw,rw` elsewhere. It takes time of slots squared.
    pub fn filled(&self, alloc: Global) -> Result<Placement, AllocError>
        ensures { IfOk result (λ p. p ≡ filled self.now) }
    {
        let slots = self.slots(alloc)?;
        let Ok(top) = Placement::top(alloc, &slots) else {
            return Err(AllocError);
        };
        Ok(self.filled_with(top, Some(Kind::RwRw)))
    }

    /// What is decided, put into a placement that has this kind or none at each of the slots.
    #[tactic(auto, using(crate::proofs::Filling::put_drop))]
    fn filled_with(&self, uniform: Placement, kind: Option<Kind>) -> Placement
        requires { uniform ≡ all_with kind (slots_in_part self.now) }
        ensures { result ≡ filled_with kind self.now }
    {
        let mut placement = uniform;
        for decision in self.as_slice() {
            put_into(decision, &mut placement);
        }
        placement
    }

    /// The slots.
    fn slots(&self, alloc: Global) -> Result<Vec<Slot>, AllocError>
        ensures value { IfOk result (λ slots. slots.items ≡ slots_in_part self.now) }
        ensures rising { IsTrue (is_rising (slots_in_part self.now)) }
    {
        let mut slots = Vec::new(alloc);
        for decision in self.as_slice() {
            slots.push(decision.slot)?;
        }
        Ok(slots)
    }

    /// The first slot that is undecided. It takes time of slots.
    #[tactic(auto, using(crate::proofs::Filling::find_drop))]
    pub fn first_undecided(&self) -> Option<Slot>
        ensures first { result ≡ option_map (λ d. d.slot) (find (λ d. is_none d.decided) self.now) }
        ensures some { IfSome result (λ s. is_undecided s self.now ≡ true) }
        ensures none { IfNone result (list_any (λ d. is_none d.decided) self.now ≡ false) }
    {
        for decision in self.as_slice() {
            if decision.is_free() {
                return Some(decision.slot);
            }
        }
        None
    }

    /// The slots that are undecided, in order. It takes time of slots.
    pub fn undecided_slots(&self, alloc: Global) -> Result<Vec<Slot>, AllocError>
        ensures { IfOk result (λ slots. slots.items ≡ map (λ d. d.slot) (filter (λ d. is_none d.decided) self.now)) }
    {
        let mut slots = Vec::new(alloc);
        for decision in self.as_slice() {
            if decision.is_free() {
                slots.push(decision.slot)?;
            }
        }
        Ok(slots)
    }

    /// The slots in order, each with its decision.
    pub fn as_slice(&self) -> &[Decision]
        ensures value { result.now ≡ self.now }
        ensures rising { IsTrue (is_rising (slots_in_part self.now)) }
    {
        self.decisions.as_slice()
    }
}
