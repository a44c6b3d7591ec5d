//! What is advised of each FENCE of a code, and of each access that lacks one.

ghost use Rattle.std.specs.Prelude.{◌≡◌, ◌≤◌, [], All, length};
ghost use Rattle.std.specs.List.{slice_index_or};
ghost use Rattle.fs_kinds.specs.Limits.{most_harts, most_instructions};
ghost use Rattle.fs_kinds.specs.Placement.{has_slot};
ghost use Rattle.fs_app_audit.specs.Standing.{is_at};
ghost use Rattle.fs_app_audit.specs.Advice.{graded, kind_there, advice_for, missing, is_device_fence, slot_of};
ghost use Rattle.fs_app_audit.specs.Advice.{off_slot, advice_at, advice_of, changes_nothing, is_content, is_right_code};
ghost use Rattle.fs_app_audit.specs.Advice.{advised_kind, is_right};

use crate::standing::{
    access_after, answering, covers, is_between_accesses, is_fence_at, is_memory_at, is_of,
};
use crate::{memory_kind, position};
use fs_instr::Instr;
use fs_kinds::{Kind, Placement, Slot};
use fs_litmus::Code;

/// What is advised of a FENCE, or of an access at which none stands, by fences that rule an outcome out at the least
/// cost.
#[derive(Clone, Copy)]
pub enum Advice {
    /// It is one of these fences.
    Needed,
    /// It is one of these fences, of a kind without a price.
    Unpriced,
    /// This kind, which orders less, is enough in its place.
    Enough(Kind),
    /// This kind is one of these fences, in its place. It doesn't order all that this kind orders.
    Instead(Kind),
    /// None of these fences stands there, or another FENCE stands for it.
    NotNeeded,
    /// It stands at no slot.
    NoSlot,
    /// No access stands before it, or none behind it.
    Idle,
    /// It orders devices alone, or the fetching of instructions.
    Devices,
    /// One of this kind is missing.
    Missing(Kind),
}

/// The kind of fence that is advised where this one stands, or where none does: of a FENCE that stays its own, or none.
/// In constant time.
pub fn advised_kind(own: Option<Kind>, advice: Advice) -> Option<Kind>
    ensures { result ≡ advised_kind own advice }
{
    match advice {
        Advice::Needed | Advice::Unpriced => own,
        Advice::Enough(kind) | Advice::Instead(kind) | Advice::Missing(kind) => Some(kind),
        Advice::NotNeeded | Advice::NoSlot | Advice::Idle | Advice::Devices => None,
    }
}

/// Is it a FENCE, or `fence.i`? Of one that orders memory this isn't asked.
fn is_device_fence(instr: Instr) -> bool
    ensures { result ≡ is_device_fence instr }
{
    matches!(instr, Instr::Fence { .. } | Instr::FenceI)
}

pub(crate) fn is_device_fence_at(code: &[Instr], at: usize) -> bool
    ensures { result ≡ is_at is_device_fence code.now at }
{
    match code.get(at) {
        Some(instr) => is_device_fence(*instr),
        None => false,
    }
}

/// Of the FENCE that stands for this kind, by its own.
fn graded(kind: Kind, own: Option<Kind>) -> Advice
    ensures { result ≡ graded kind own }
{
    if is_of(kind, own) {
        Advice::Needed
    } else if covers(kind, own) {
        Advice::Enough(kind)
    } else {
        Advice::Instead(kind)
    }
}

/// The kind of the FENCE there.
pub(crate) fn kind_there(code: &[Instr], at: usize) -> Option<Kind>
    ensures { result ≡ kind_there code.now at }
{
    match code.get(at) {
        Some(instr) => memory_kind(*instr),
        None => None,
    }
}

/// Of a FENCE at a slot where the placement has this.
fn advice_for(code: &[Instr], at: usize, access: usize, kind: Option<Kind>) -> Advice
    ensures { result ≡ advice_for code.now at access kind }
{
    let Some(kind) = kind else {
        return Advice::NotNeeded;
    };
    if answering(code, access, kind).is_some_and(|found| found == at) {
        graded(kind, kind_there(code, at))
    } else {
        Advice::NotNeeded
    }
}

/// Of an access at which no FENCE stands, where the placement has this.
fn missing(code: &[Instr], access: usize, kind: Option<Kind>) -> Option<Advice>
    ensures { result ≡ missing code.now access kind }
{
    let kind = kind?;
    if answering(code, access, kind).is_none() {
        Some(Advice::Missing(kind))
    } else {
        None
    }
}

/// The slot of an access in the unfenced test, if it is one.
pub(crate) fn slot_of(hart: u8, code: &[Instr], access: usize) -> Slot
    requires { length code.now ≤ most_instructions }
    ensures { result ≡ slot_of hart code.now access }
{
    let at = position(code, access);
    Slot { hart, at }
}

/// Has the placement this slot?
fn has_slot(placement: &Placement, slot: Slot) -> bool
    ensures { result ≡ has_slot slot placement.now }
{
    placement.as_slice().iter().any(|entry| entry.slot == slot)
}

/// Of a FENCE at no slot.
fn off_slot(code: &[Instr], at: usize) -> Advice
    ensures { result ≡ off_slot code.now at }
{
    if is_between_accesses(code, at) {
        Advice::NoSlot
    } else {
        Advice::Idle
    }
}

/// Of a FENCE that stands at this access.
fn advice_at(
    placement: &Placement,
    hart: u8,
    code: &[Instr],
    at: usize,
    access: Option<usize>,
) -> Advice
    requires { length code.now ≤ most_instructions }
    ensures { result ≡ advice_at placement.now hart code.now at access }
{
    let Some(access) = access else {
        return off_slot(code, at);
    };
    let slot = slot_of(hart, code, access);
    if has_slot(placement, slot) {
        advice_for(code, at, access, placement.get(slot))
    } else {
        off_slot(code, at)
    }
}

/// What is advised anew of instruction `at`, mostly nothing. The cube of the code's length at most.
pub fn advice_of(placement: &Placement, hart: u8, code: &[Instr], at: usize) -> Option<Advice>
    requires { length code.now ≤ most_instructions }
    ensures { result ≡ advice_of placement.now hart code.now at }
{
    if is_fence_at(code, at) {
        let access = access_after(code, at);
        Some(advice_at(placement, hart, code, at, access))
    } else if is_memory_at(code, at) {
        missing(code, at, placement.get(slot_of(hart, code, at)))
    } else if is_device_fence_at(code, at) {
        Some(Advice::Devices)
    } else {
        None
    }
}

/// Is there nothing to change?
pub(crate) fn is_content(advice: Option<Advice>) -> bool
    ensures { result ≡ is_content advice }
{
    match advice {
        Some(advice) => changes_nothing(advice),
        None => true,
    }
}

fn changes_nothing(advice: Advice) -> bool
    ensures { result ≡ changes_nothing advice }
{
    matches!(advice, Advice::Needed | Advice::Unpriced | Advice::Devices)
}

fn is_right_code(placement: &Placement, hart: u8, code: &[Instr]) -> bool
    requires { length code.now ≤ most_instructions }
    ensures { result ≡ is_right_code placement.now hart code.now }
{
    (0..code.len()).all(|at| is_content(advice_of(placement, hart, code, at)))
}

/// The code of the hart.
pub(crate) fn code_of(codes: &[Code], hart: usize) -> &[Instr]
    ensures { result.now ≡ slice_index_or codes.now hart [] }
{
    if hart < codes.len() {
        codes[hart].as_slice()
    } else {
        &[]
    }
}

/// Is each FENCE needed, and none missing?
pub(crate) fn is_right(codes: &[Code], placement: &Placement) -> bool
    requires harts { length codes.now ≤ most_harts }
    requires lengths { All (λ code. length code ≤ most_instructions) codes.now }
    ensures { result ≡ is_right codes.now placement.now }
{
    (0..codes.len()).all(|hart| is_right_code(placement, hart as u8, code_of(codes, hart)))
}
