//! The walk over the items of a certificate's tree.

ghost use Rattle.std.specs.Prelude.{◌≡◌, [], ◌∷◌, IfOk, IfSome, IfNone, Some, false, true, map, slice_get};
ghost use Rattle.fs_model.specs.declared.test.Test.{Test};
ghost use Rattle.fs_model.specs.Slots as its;
ghost use Rattle.fs_model.specs.Test.{IsBounded};
ghost use Rattle.fs_board_offers.specs.Offers.{slots};
ghost use Rattle.fs_board_offers.specs.Parts.{undecided, is_undecided, slots_in_part};
ghost use Rattle.fs_cert_evidence.specs.Certificate.{Certificate, SplitAt, Costly, Refuted, Bounded};
ghost use Rattle.fs_board_offers.specs.Valid.{is_costly};
ghost use Rattle.fs_board_offers.specs.Refusals.{is_free};
ghost use Rattle.fs_check_certificate.specs.Breaks.{all_breaks};
ghost use Rattle.fs_check_certificate.specs.Leaves.{AreShown};
ghost use Rattle.fs_cert_json.specs.Kept.{version_of, item_of};
ghost use Rattle.fs_check_certificate.specs.inner.Walks.{AreOfTest, AreGrounds, IsTaken, IsLeaf, IsWalked};

use crate::costs::{is_dearer, is_no_better};
use crate::stack::{Stack, is_undecided};
use crate::{Bounding, judge_bounded, refutes};
use fs_board_offers::Offers;
use fs_cert_evidence::{Decision, Pairs};
use fs_cert_json::{Item, Version};
use fs_kinds::{Entry, List, Reason, Slot};
use std::alloc::{AllocError, Global};

/// By what the leaves of a tree are judged: the answer's placement, what is kept of the witnesses, and what it costs to
/// break them.
#[derive(Clone, Copy)]
pub(crate) struct Grounds<'a> {
    pub(crate) version: Version,
    pub(crate) offers: &'a Offers,
    pub(crate) slots: &'a [Slot],
    pub(crate) answer: &'a [Entry],
    pub(crate) shown: &'a [Option<List<Pairs>>],
    pub(crate) breaks: &'a [List<Option<u32>>],
}

impl Grounds<'_> {
    /// Is nothing under the part better than the answer, by the rule of the version?
    fn is_costly(&self, part: &[Decision]) -> bool
        ensures { result ≡ is_costly (version_of self.now.version) self.now.offers.now self.now.answer.now part.now }
    {
        match self.version {
            Version::First => is_dearer(self.offers, self.answer, part),
            Version::Second | Version::Fourth => is_no_better(self.offers, self.answer, part),
        }
    }

    /// Why the leaf that says that its part costs too much fails.
    fn costly_reason(&self, part: &[Decision], index: usize) -> Option<Reason>
        ensures { (t : Test) (c : Certificate) → c.version ≡ version_of self.now.version
            → IsLeaf t self.now.offers.now c self.now.answer.now part.now Costly index result }
    {
        if self.is_costly(part) {
            None
        } else {
            Some(Reason::Node { index })
        }
    }

    /// Why the leaf that the witness of this number is to refute fails.
    fn refuted_reason(&self, part: &[Decision], number: u64, index: usize) -> Option<Reason>
        ensures { (t : Test) (c : Certificate) → IsBounded t → slots_in_part part.now ≡ its.slots t
            → AreShown t c.witnesses self.now.shown.now
            → IsLeaf t self.now.offers.now c self.now.answer.now part.now (Refuted number) index result }
    {
        let _at = index;
        if refutes(part, self.shown, number) {
            None
        } else {
            Some(Reason::Witness { index: number })
        }
    }

    /// Why the leaf that the witnesses of these numbers are to bound fails.
    fn bounded_reason(&self, part: &[Decision], numbers: &[u64], index: usize) -> Option<Reason>
        ensures { (t : Test) (c : Certificate) → IsBounded t → slots_in_part part.now ≡ its.slots t
            → AreShown t c.witnesses self.now.shown.now
            → self.now.breaks.now ≡ all_breaks self.now.offers.now (its.slots t) self.now.shown.now
            → IsLeaf t self.now.offers.now c self.now.answer.now part.now (Bounded numbers.now) index result }
    {
        match judge_bounded(
            self.offers,
            self.answer,
            part,
            self.shown,
            self.breaks,
            numbers,
        ) {
            Bounding::Holds => None,
            Bounding::Unshown(number) => Some(Reason::Witness { index: number }),
            Bounding::Fails => Some(Reason::Node { index }),
        }
    }

    /// The slot of this number, where the part leaves it undecided.
    fn free_slot(&self, part: &[Decision], number: u64) -> Option<Slot>
        ensures some { IfSome result (λ slot. (slice_get self.now.slots.now number ≡ Some slot)
            × (is_undecided slot part.now ≡ true)) }
        ensures none { (t : Test) → slots self.now.offers.now ≡ its.slots t → self.now.slots.now ≡ its.slots t
            → IfNone result (is_free self.now.offers.now number part.now ≡ false) }
    {
        let slot = *self.slots.get(number as usize)?;
        if is_undecided(part, slot) {
            Some(slot)
        } else {
            None
        }
    }

    /// Puts the children of a split at the slot of this number before the other parts, or says why it fails.
    fn split(
        &self,
        alloc: Global,
        stack: &mut Stack,
        part: &[Decision],
        number: u64,
        index: usize,
    ) -> Result<Option<Reason>, AllocError>
        ensures { (t : Test) (c : Certificate) → slots self.now.offers.now ≡ its.slots t
            → self.now.slots.now ≡ its.slots t → slots_in_part part.now ≡ its.slots t → AreOfTest t stack.old
            → IfOk result (λ why. IsTaken t self.now.offers.now c self.now.answer.now (part.now ∷ stack.old)
            (SplitAt number) index why stack.new) }
    {
        let _at = index;
        match self.free_slot(part, number) {
            Some(slot) => {
                stack.push_children(alloc, self.offers, part, slot)?;
                Ok(None)
            }
            None => Ok(Some(Reason::Tree)),
        }
    }

    /// Takes the first part off, and judges the item that is to cover it: why it fails, or else what it leaves.
    fn take_item(
        &self,
        alloc: Global,
        stack: &mut Stack,
        item: &Item,
        index: usize,
    ) -> Result<Option<Reason>, AllocError>
        ensures { (t : Test) (c : Certificate) → AreGrounds t self.now.offers.now c self.now.version self.now.slots.now self.now.shown.now self.now.breaks.now → AreOfTest t stack.old
            → IfOk result (λ why. IsTaken t self.now.offers.now c self.now.answer.now stack.old (item_of item.now) index
            why stack.new) }
    {
        let Some(part) = stack.pop() else {
            return Ok(Some(Reason::Tree));
        };
        match item {
            Item::SplitAt(slot) => self.split(alloc, stack, &part, *slot, index),
            Item::Costly => Ok(self.costly_reason(&part, index)),
            Item::Refuted(witness) => Ok(self.refuted_reason(&part, *witness, index)),
            Item::Bounded(witnesses) => Ok(self.bounded_reason(&part, witnesses, index)),
        }
    }

    /// Why the items are no tree of the part in which no slot is decided: the reason at the first that fails. None
    /// where they cover it. Linear in the items, beside what their leaves cost.
    pub(crate) fn first_failing(
        &self,
        alloc: Global,
        tree: &[Item],
    ) -> Result<Option<Reason>, AllocError>
        ensures { (t : Test) (c : Certificate) → AreGrounds t self.now.offers.now c self.now.version self.now.slots.now self.now.shown.now self.now.breaks.now
            → IfOk result (IsWalked t self.now.offers.now c self.now.answer.now (undecided self.now.offers.now ∷ [])
            (map item_of tree.now)) }
    {
        let mut stack = Stack::new(alloc, self.slots)?;
        for (index, item) in tree.iter().enumerate() {
            let why = self.take_item(alloc, &mut stack, item, index)?;
            if why.is_some() {
                return Ok(why);
            }
        }
        if stack.is_empty() {
            Ok(None)
        } else {
            Ok(Some(Reason::Tree))
        }
    }
}
