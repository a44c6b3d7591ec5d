//! Placements of fences: their strength, and the order of those of equal cost.
ghost use Rattle.std.specs.Prelude.{◌≡◌, ◌≤◌, map, IsTrue, IfOk, IsOkUnless, Some, None, false};
ghost use Rattle.fs_kinds.specs.Placement.{all_with};

use crate::fault::Fault;
use crate::kind::Kind;
use crate::slot::Slot;
use std::alloc::{AllocError, Global};
use std::marker::Model;

/// A slot with the kind of the fence there, or none.
#[derive(Clone, Copy, PartialEq, Eq)]
pub struct Entry {
    pub slot: Slot,
    pub kind: Option<Kind>,
}

/// Slots in rising order, each with a kind or none.
#[derive(Drop)]
pub struct Placement {
    entries: Vec<Entry>,
}

impl Model for Placement {
    ghost use Rattle.std.specs.Prelude.{List, IsTrue};
    ghost use Rattle.fs_kinds.specs.declared.placement.Entry.{Entry};

    ghost Value = { List Entry };

    ghost use Rattle.fs_kinds.specs.Placement.{slots_of};
    ghost use Rattle.fs_kinds.specs.Slot.{is_rising};

    ghost view = { λ p. p.entries.items };

    ghost invariant = { λ p. IsTrue (is_rising (slots_of p.entries.items)) };
}

impl Placement {
    ghost use Rattle.std.specs.Prelude.{OnOk, OnErr, ◌↔◌, IsOk, IsErrOf, ◌≢◌, IsNone, position};
    ghost use Rattle.fs_kinds.specs.Slot.{is_rising, is_same_slot};
    ghost use Rattle.fs_kinds.specs.Placement.{slots_of, all_with, has_slot, with_kind, kind_at, is_weaker, precedes};

    /// No fence at any of the slots. The slots must rise. The error is F19.
    pub fn bottom(alloc: Global, slots: &[Slot]) -> Result<Placement, Fault>
        requires { IsTrue (is_rising slots.now) }
        ensures ok { IfOk result (λ p. p ≡ all_with None slots.now) }
        ensures err { IsOkUnless result Fault.Memory }
    {
        Placement::uniform(alloc, slots, None)
    }

    /// `rw,rw` at each of the slots. The slots must rise. The error is F19.
    pub fn top(alloc: Global, slots: &[Slot]) -> Result<Placement, Fault>
        requires { IsTrue (is_rising slots.now) }
        ensures ok { IfOk result (λ p. p ≡ all_with (Some Kind.RwRw) slots.now) }
        ensures err { IsOkUnless result Fault.Memory }
    {
        Placement::uniform(alloc, slots, Some(Kind::RwRw))
    }

    fn uniform(alloc: Global, slots: &[Slot], kind: Option<Kind>) -> Result<Placement, Fault>
        requires { IsTrue (is_rising slots.now) }
        ensures ok { IfOk result (λ p. p ≡ all_with kind slots.now) }
        ensures err { IsOkUnless result Fault.Memory }
    {
        Ok(Placement {
            entries: entries_at(alloc, slots, kind)?,
        })
    }

    /// An equal placement. The error is F19.
    pub fn copy(&self) -> Result<Placement, Fault>
        ensures ok { IfOk result (λ p. p ≡ self.now) }
        ensures err { IsOkUnless result Fault.Memory }
    {
        Ok(Placement {
            entries: self.entries.clone()?,
        })
    }

    /// The slots in rising order, each with its kind or none.
    pub fn as_slice(&self) -> &[Entry]
        ensures entries { result.now ≡ self.now }
        ensures rising { IsTrue (is_rising (slots_of self.now)) }
    {
        &self.entries
    }

    /// Puts the kind, or none, at the slot in place of what is there. F12, and no change, where the
    /// placement lacks the slot.
    pub fn with(&mut self, slot: Slot, kind: Option<Kind>) -> Result<(), Fault>
        ensures ok { OnOk result (IsTrue (has_slot slot self.old)) }
        ensures changed { OnOk result (self.new ≡ with_kind slot kind self.old) }
        ensures lacking { OnErr result (has_slot slot self.old ≡ false) }
        ensures err { IsOkUnless result Fault.BadFence }
        ensures unchanged { OnErr result (self.new ≡ self.old) }
    {
        let Some(index) = self.index_of(slot) else {
            return Err(Fault::BadFence);
        };
        self.entries[index].kind = kind;
        Ok(())
    }

    /// The kind of the fence at the slot: none where there is no fence, or no such slot.
    pub fn get(&self, slot: Slot) -> Option<Kind>
        ensures { result ≡ kind_at slot self.now }
    {
        let index = self.index_of(slot)?;
        self.entries[index].kind
    }

    /// Where the slot stands in the list.
    fn index_of(&self, slot: Slot) -> Option<usize>
        ensures { result ≡ position (λ e. is_same_slot e.slot slot) self.now }
    {
        self.entries.iter().position(|entry| entry.slot == slot)
    }

    /// Does each slot keep only pairs that `other` keeps there too? Both must have the same slots.
    pub fn weaker_eq(&self, other: &Placement) -> bool
        requires { slots_of self.now ≡ slots_of other.now }
        ensures { result ≡ is_weaker self.now other.now }
    {
        self.entries
            .iter()
            .zip(other.entries.iter())
            .all(|(entry, above)| entry.is_weaker(above))
    }

    /// Does the placement come before `other` among those of equal cost? The first slot at which they
    /// differ decides: none comes first, then the kinds in table order. Both must have the same slots.
    pub fn before(&self, other: &Placement) -> bool
        requires { slots_of self.now ≡ slots_of other.now }
        ensures { result ≡ precedes self.now other.now }
    {
        for (entry, above) in self.as_slice().iter().zip(other.as_slice()) {
            let (here, there) = (entry.rank(), above.rank());
            if here != there {
                return here < there;
            }
        }
        false
    }
}

impl Entry {
    ghost use Rattle.fs_kinds.specs.Kind.{is_subset};
    ghost use Rattle.fs_kinds.specs.Placement.{pairs_kept, rank};

    /// Does the entry keep only pairs that `other` keeps too?
    fn is_weaker(&self, other: &Entry) -> bool
        ensures { result ≡ is_subset (pairs_kept self.now.kind) (pairs_kept other.now.kind) }
    {
        match (self.kind, other.kind) {
            (None, _) => true,
            (Some(_), None) => false,
            (Some(kind), Some(above)) => kind.no_stronger(above),
        }
    }

    /// The place of the entry's kind in the order of placements of equal cost.
    fn rank(&self) -> usize
        ensures { result ≡ rank self.now.kind }
    {
        self.kind.map_or(0, |kind| 1 + kind.table_index())
    }
}

/// The slots, each with the kind.
fn entries_at(alloc: Global, slots: &[Slot], kind: Option<Kind>) -> Result<Vec<Entry>, AllocError>
    ensures { IfOk result (λ entries. entries.items ≡ all_with kind slots.now) }
{
    slots
        .iter()
        .map(|slot| Entry { slot: *slot, kind })
        .collect(alloc)
}
