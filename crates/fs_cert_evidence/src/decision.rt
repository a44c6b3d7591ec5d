//! Decisions on slots.

ghost use Rattle.std.specs.Prelude.{◌≡◌, ◌&&◌, is_none, unwrap_or, Some, None, if◌then◌else◌};
ghost use Rattle.fs_kinds.specs.Slot.{is_same_slot};

use fs_kinds::{Entry, Kind, Slot};
use std::marker::Model;

/// A slot, undecided or decided with a kind or none.
#[derive(Drop)]
pub struct Decision {
    pub slot: Slot,
    pub decided: Option<Option<Kind>>,
}

impl Model for Decision {
    ghost use Rattle.fs_cert_evidence.specs.Parts.{Decision as DecisionValue};

    ghost Value = { DecisionValue };

    ghost view = { λ d. record { slot = d.slot; decided = d.decided } };
}

impl Decision {
    /// The slot, not yet decided.
    pub fn open(slot: Slot) -> Decision
        ensures { result ≡ record { slot = slot; decided = None } }
    {
        Decision {
            slot,
            decided: None,
        }
    }

    /// The slot with what is decided, or with none.
    pub fn least(&self) -> Entry
        ensures { result ≡ record { slot = self.now.slot; kind = unwrap_or self.now.decided None } }
    {
        Entry {
            slot: self.slot,
            kind: self.decided.unwrap_or(None),
        }
    }

    /// Is it undecided?
    pub fn is_free(&self) -> bool
        ensures { result ≡ is_none self.now.decided }
    {
        self.decided.is_none()
    }

    /// Is it this slot's, and undecided?
    pub fn is_open_at(&self, slot: Slot) -> bool
        ensures { result ≡ (is_same_slot self.now.slot slot && is_none self.now.decided) }
    {
        self.slot == slot && self.decided.is_none()
    }

    /// The same, or where it is this slot's the slot decided so.
    pub fn decided_at(&self, slot: Slot, kind: Option<Kind>) -> Decision
        ensures { result
            ≡ (if is_same_slot self.now.slot slot then record { slot = self.now.slot; decided = Some kind } else
            self.now) }
    {
        let decided = if self.slot == slot {
            Some(kind)
        } else {
            self.decided
        };
        Decision {
            slot: self.slot,
            decided,
        }
    }
}
