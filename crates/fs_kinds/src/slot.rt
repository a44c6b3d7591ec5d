//! Places for a fence, and the words that name them.
ghost use Rattle.std.specs.Prelude.{◌≡◌, ◌≢◌, IfSome, IfNone};
ghost use Rattle.fs_kinds.specs.Slot.{IsSlot, fence_word};
ghost use Rattle.fs_kinds.specs.declared.slot.Slot.{Slot};
ghost use Rattle.fs_kinds.specs.declared.kind.Kind.{Kind};

use crate::kind::Kind;
use crate::place::read_place;
use std::fmt;

/// A place for a fence: before the memory instruction number `at` of a hart, where an earlier memory
/// instruction of that hart stands. Instructions count from 0 in the test without placed fences.
/// Slots are in order of hart, then `at`.
#[derive(Clone, Copy, PartialEq, Eq, PartialOrd, Ord)]
pub struct Slot {
    pub hart: u8,
    pub at: u8,
}

/// The slot's name, as `P0:3`.
impl fmt::Display for Slot {
    ghost use Rattle.std.specs.Prelude.{Some};
    ghost use Rattle.fs_kinds.specs.Slot.{slot_name};

    ghost output = { λ slot. Some (slot_name slot) };

    fn fmt<W: fmt::Write>(&self, f: &mut fmt::Formatter<W>) -> fmt::Result {
        write!(f, "P{}:{}", self.hart, self.at)
    }
}

impl Slot {
    ghost use Rattle.fs_kinds.specs.Slot.{slot_name, IsSlot};

    /// The slot of this name: `P`, the hart's number, `:`, the instruction's number, the numbers from
    /// 0 to 255 in decimal without leading zeros. No other text names a slot.
    pub fn of(text: &str) -> Option<Slot>
        ensures named { IfSome result (λ slot. text.now ≡ slot_name slot) }
        ensures in_range { IfSome result IsSlot }
        ensures none { IfNone result ((slot : Slot) → IsSlot slot → text.now ≢ slot_name slot) }
    {
        let (hart, at) = read_place(text)?;
        Some(Slot {
            hart: hart?,
            at: at?,
        })
    }
}

/// The slot and the kind of a word for a placed fence: the slot's name, `=`, the kind's word, as
/// `P0:3=w,w`. No other text is such a word.
pub fn read_fence(text: &str) -> Option<(Slot, Kind)>
    ensures named { IfSome result (λ fence. text.now ≡ fence_word fence.0 fence.1) }
    ensures none { IfNone result ((slot : Slot) (kind : Kind) → IsSlot slot
        → text.now ≢ fence_word slot kind) }
{
    let (slot, kind) = text.split_once('=')?;
    Some((Slot::of(slot)?, Kind::of(kind)?))
}
