//! The parts that items are still to cover.

ghost use Rattle.std.specs.Prelude.{◌≡◌, [], ◌∷◌, ◌++◌, IfOk, OnOk, IfSome, IfNone, None, map, length, ◌==◌};
ghost use Rattle.std.specs.List.{list_any};
ghost use Rattle.fs_board_offers.specs.Parts.{Part as PartValue, decide, is_undecided, child_parts};

use fs_board_offers::{OPTIONS, Offers};
use fs_cert_evidence::Decision;
use fs_kinds::{Kind, List, Slot};
use std::alloc::{AllocError, Global};
use std::marker::Model;

/// For each slot of a test, in slot order, no decision yet, or a kind or none.
pub(crate) type Part = List<Decision>;

/// No slot of these is decided.
pub(crate) fn undecided(alloc: Global, slots: &[Slot]) -> Result<Part, AllocError>
    ensures { IfOk result (λ p. p ≡ map (λ slot. record { slot = slot; decided = None }) slots.now) }
{
    let mut decisions = Vec::new(alloc);
    for slot in slots {
        decisions.push(Decision::open(*slot))?;
    }
    Ok(Part::new(decisions))
}

/// Is the slot one of the part's, and undecided?
pub(crate) fn is_undecided(part: &[Decision], slot: Slot) -> bool
    ensures { result ≡ is_undecided slot part.now }
{
    part.iter().any(|decision| decision.is_open_at(slot))
}

/// The part with the slot decided so.
fn decide(
    alloc: Global,
    part: &[Decision],
    slot: Slot,
    kind: Option<Kind>,
) -> Result<Part, AllocError>
    ensures { IfOk result (λ p. p ≡ decide slot part.now kind) }
{
    let mut decisions = Vec::new(alloc);
    for decision in part {
        decisions.push(decision.decided_at(slot, kind))?;
    }
    Ok(Part::new(decisions))
}

/// Parts, of which the next one that an item is to cover is the first. The walk keeps no more of them than the test's
/// slots times the ways to decide one.
#[derive(Drop)]
pub(crate) struct Stack {
    parts: Vec<Part>,
}

impl Model for Stack {
    ghost use Rattle.std.specs.Prelude.{List, reverse};
    ghost use Rattle.fs_board_offers.specs.Parts.{Part};

    ghost Value = { List Part };

    ghost view = { λ s. reverse s.parts.items };
}

impl Stack {
    /// The part alone in which no slot of these is decided.
    pub(crate) fn new(alloc: Global, slots: &[Slot]) -> Result<Stack, AllocError>
        ensures { IfOk result (λ s. s ≡ map (λ slot. record { slot = slot; decided = None }) slots.now ∷ []) }
    {
        let mut parts = Vec::new(alloc);
        parts.push(undecided(alloc, slots)?)?;
        Ok(Stack { parts })
    }

    /// Is no part left?
    pub(crate) fn is_empty(&self) -> bool
        ensures { result ≡ (length self.now == 0) }
    {
        self.parts.is_empty()
    }

    /// Takes the first part off.
    pub(crate) fn pop(&mut self) -> Option<Part>
        ensures some { IfSome result (λ part. self.old ≡ part ∷ self.new) }
        ensures none { IfNone result (self.old ≡ []) }
    {
        self.parts.pop()
    }

    /// Puts a part before the others.
    fn push(&mut self, part: Part) -> Result<(), AllocError>
        ensures { OnOk result (self.new ≡ part ∷ self.old) }
    {
        self.parts.push(part)?;
        Ok(())
    }

    /// Puts the part with the slot decided in each way that is offered before the others.
    pub(crate) fn push_children(
        &mut self,
        alloc: Global,
        offers: &Offers,
        part: &[Decision],
        slot: Slot,
    ) -> Result<(), AllocError>
        ensures { OnOk result (self.new ≡ child_parts offers.now slot part.now ++ self.old) }
    {
        for way in (0..OPTIONS.len()).rev() {
            let kind = OPTIONS[way];
            if offers.is_offered(slot, kind) {
                self.push(decide(alloc, part, slot, kind)?)?;
            }
        }
        Ok(())
    }
}
