//! Slots that are sites of their own.

ghost use Rattle.std.specs.Prelude.{◌≡◌, ◌≤◌, ℕ, List, length, map, string_bytes, IfNone, IfOk, IfSome, IsOkUnless};
ghost use Rattle.std.specs.Prelude.{OnOk};
ghost use Rattle.std.specs.List.{insert};
ghost use Rattle.fs_kinds.specs.declared.fault.Fault.TheVariants.{Memory};
ghost use Rattle.fs_model.specs.Slots.{slots};
ghost use Rattle.fs_model.specs.Test.{IsBounded};
ghost use Rattle.fs_app_sites.specs.Sites.{copy_value, own_copy, prefix_of, with_slot, with_slots};

use crate::content::{File, SiteCopy, is_before};
use fs_kinds::{Fault, Slot};
use fs_litmus::Test;
use std::alloc::{AllocError, Global};

/// What stands before the slot in the name of a site of its own in this file: nothing where it is the one file, and
/// else its name and `:`.
pub(crate) fn prefix_of(alloc: Global, files: &[File], file: &File) -> Result<String, AllocError>
    ensures { IfOk result (λ prefix. string_bytes prefix ≡ prefix_of files.now file.now) }
{
    if files.len() == 1 {
        Ok(String::new(alloc))
    } else {
        format!(in alloc; "{}:", file.name.as_str())
    }
}

/// The copy of the site that is this slot.
fn own_copy(alloc: Global, prefix: &str, slot: Slot) -> Result<SiteCopy, AllocError>
    ensures { IfOk result (λ copy. copy_value copy ≡ own_copy prefix.now slot) }
{
    Ok(SiteCopy {
        slot,
        name: format!(in alloc; "{}{}", prefix, slot)?,
    })
}

/// Before which copy that of the slot is put: the first one that stands later, or behind all. None where one stands at
/// the slot.
fn place_among(copies: &[SiteCopy], slot: Slot) -> Option<usize>
    ensures within { IfSome result (λ at. at ≤ length copies.now) }
    ensures some { IfSome result (λ at. (prefix : List ℕ) → with_slot prefix (map copy_value copies.now) slot
        ≡ insert (map copy_value copies.now) at (own_copy prefix slot)) }
    ensures none { IfNone result ((prefix : List ℕ) → with_slot prefix (map copy_value copies.now) slot
        ≡ map copy_value copies.now) }
{
    for (at, copy) in copies.iter().enumerate() {
        if copy.slot == slot {
            return None;
        }
        if is_before(slot, copy.slot) {
            return Some(at);
        }
    }
    Some(copies.len())
}

/// Adds the copy of the slot, unless one stands there.
fn add_slot(
    alloc: Global,
    copies: &mut Vec<SiteCopy>,
    slot: Slot,
    prefix: &str,
) -> Result<(), AllocError>
    ensures { OnOk result (map copy_value copies.new.items
        ≡ with_slot prefix.now (map copy_value copies.old.items) slot) }
{
    if let Some(at) = place_among(copies, slot) {
        copies.insert(at, own_copy(alloc, prefix, slot)?)?;
    }
    Ok(())
}

/// Adds the copies of the slots of the test at which none stands. Each slot is held against all copies.
pub(crate) fn add_slots(
    alloc: Global,
    copies: &mut Vec<SiteCopy>,
    test: &Test,
    prefix: &str,
) -> Result<(), Fault>
    requires { IsBounded test.now }
    ensures ok { OnOk result (map copy_value copies.new.items
        ≡ with_slots prefix.now (map copy_value copies.old.items) (slots test.now)) }
    ensures err { IsOkUnless result Memory }
{
    let slots = fs_model::slots(alloc, test)?;
    for slot in &slots {
        add_slot(alloc, copies, *slot, prefix)?;
    }
    Ok(())
}
