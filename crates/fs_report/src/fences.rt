//! The lines of a placement.

ghost use Rattle.std.specs.Prelude.{◌≡◌, ◌++◌, IfOk, OnOk, string_bytes};
ghost use Rattle.std.specs.List.{flat_map};
ghost use Rattle.fs_cert_evidence.specs.Texts.{fence_line, fenced_lines};

use fs_kinds::{Entry, Placement};
use std::alloc::{AllocError, Global};

/// The line `fenced` with the cost, and below it a line for each filled slot in slot order, as `fence P0 2 w,r` for a
/// fence before instruction 2 of hart 0. The error is want of memory.
pub fn fenced_text(alloc: Global, placement: &Placement, cost: u64) -> Result<String, AllocError>
    ensures { IfOk result (λ text. string_bytes text ≡ fenced_lines cost placement.now) }
{
    let mut text = format!(in alloc; "fenced {}\n", cost)?;
    write_fences(placement.as_slice(), &mut text)?;
    Ok(text)
}

/// Appends the lines of the filled slots.
fn write_fences(entries: &[Entry], text: &mut String) -> Result<(), AllocError>
    ensures { OnOk result (string_bytes text.new
        ≡ string_bytes text.old ++ flat_map (λ e. fence_line e.slot e.kind) entries.now) }
{
    for entry in entries {
        write_fence(entry, text)?;
    }
    Ok(())
}

/// Appends the line of the slot, where it is filled.
fn write_fence(entry: &Entry, text: &mut String) -> Result<(), AllocError>
    ensures { OnOk result (string_bytes text.new
        ≡ string_bytes text.old ++ fence_line entry.now.slot entry.now.kind) }
{
    if let Some(kind) = entry.kind {
        let slot = entry.slot;
        writeln!(text, "fence P{} {} {}", slot.hart, slot.at, kind.name())?;
    }
    Ok(())
}
