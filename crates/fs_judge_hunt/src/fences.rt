//! Rule 4: fences between two operations of a run.

use crate::forms::Outline;
use crate::hart::Hart;
use crate::needs::{Need, SlotPairs};
use crate::rows::do_meet;
use fs_instr::Instr;
use fs_kinds::{Classes, Entry, Kind, OperationName, Placement};
use fs_model::Test;
use std::alloc::{AllocError, Global};

const READ: Classes = Classes {
    reads: true,
    writes: false,
};

const WRITE: Classes = Classes {
    reads: false,
    writes: true,
};

/// A fence before the instruction at this position of the code, or in its place, with the pairs that it orders: a bit
/// for each.
#[derive(Clone, Copy)]
pub struct Barrier {
    pub(crate) at: u8,
    pub(crate) pairs: u8,
}

fn pair_bits(read_read: bool, read_write: bool, write_read: bool, write_write: bool) -> u8 {
    u8::from(read_read)
        | u8::from(read_write).wrapping_shl(1)
        | u8::from(write_read).wrapping_shl(2)
        | u8::from(write_write).wrapping_shl(3)
}

fn bits_of(kind: Kind) -> u8 {
    pair_bits(
        kind.orders(READ, READ),
        kind.orders(READ, WRITE),
        kind.orders(WRITE, READ),
        kind.orders(WRITE, WRITE),
    )
}

/// What the instruction orders.
fn bits_in(instr: &Instr) -> u8 {
    match *instr {
        Instr::Fence { before, after } => pair_bits(
            before.reads && after.reads,
            before.reads && after.writes,
            before.writes && after.reads,
            before.writes && after.writes,
        ),
        Instr::FenceTso => bits_of(Kind::Tso),
        _ => 0,
    }
}

/// The pairs that are ordered at each of these slots.
pub(crate) fn pairs_at(entries: &[Entry]) -> SlotPairs {
    let mut pairs = SlotPairs::new();
    for (place, entry) in entries.iter().enumerate() {
        if let Some(kind) = entry.kind {
            pairs.put(place, bits_of(kind));
        }
    }
    pairs
}

/// The fences that the hart's code has.
pub fn written(alloc: Global, test: &Test, hart: u8) -> Result<Vec<Barrier>, AllocError> {
    let mut barriers = Vec::new(alloc);
    let Some(code) = test.codes.as_slice().get(usize::from(hart)) else {
        return Ok(barriers);
    };
    let mut at: u8 = 0;
    for instr in code {
        let pairs = bits_in(instr);
        if pairs != 0 {
            barriers.push(Barrier { at, pairs })?;
        }
        at = at.saturating_add(1);
    }
    Ok(barriers)
}

/// These, and those that the placement puts into the hart's code.
pub(crate) fn barriers(
    alloc: Global,
    hart: u8,
    written: &[Barrier],
    placement: &Placement,
) -> Result<Vec<Barrier>, AllocError> {
    let mut barriers = Vec::new(alloc);
    barriers.extend_from_slice(written)?;
    for entry in placement.as_slice() {
        if let Some(kind) = entry.kind {
            if entry.slot.hart == hart {
                barriers.push(Barrier {
                    at: entry.slot.at,
                    pairs: bits_of(kind),
                })?;
            }
        }
    }
    Ok(barriers)
}

/// The pairs that order the two, a bit for each.
fn wanted(outline: &Outline, first: u8, second: u8) -> u8 {
    let (first_reads, first_writes) = (outline.loads_at(first), outline.stores_at(first));
    let (second_reads, second_writes) = (outline.loads_at(second), outline.stores_at(second));
    pair_bits(
        first_reads && second_reads,
        first_reads && second_writes,
        first_writes && second_reads,
        first_writes && second_writes,
    )
}

/// Does one of the fences order the two operations in runs of this outline?
fn are_fenced(outline: &Outline, barriers: &[Barrier], first: u8, second: u8) -> bool {
    let wanted = wanted(outline, first, second);
    for barrier in barriers {
        if first < barrier.at
            && barrier.at <= second
            && barrier.pairs & wanted != 0
            && outline.executes(barrier.at)
        {
            return true;
        }
    }
    false
}

/// The pairs at slots of which one orders the two operations of a hart in runs of this outline.
fn ordering(
    outline: &Outline,
    entries: &[Entry],
    first: OperationName,
    second: OperationName,
) -> SlotPairs {
    let wanted = wanted(outline, first.at, second.at);
    let mut pairs = SlotPairs::new();
    for (place, entry) in entries.iter().enumerate() {
        let at = entry.slot.at;
        let is_between = entry.slot.hart == first.hart && first.at < at && at <= second.at;
        if is_between && outline.executes(at) {
            pairs.put(place, wanted);
        }
    }
    pairs
}

/// Adds what rule 4 needs to put the first operation of a hart before the second in each of these runs.
pub(crate) fn add_fences(
    need: &mut Need,
    hart: &Hart,
    row: &[u64],
    entries: &[Entry],
    first: OperationName,
    second: OperationName,
) -> Result<(), AllocError> {
    for form in &hart.forms {
        let outline = &form.outline;
        if do_meet(row, &form.row) && !are_fenced(outline, &hart.written, first.at, second.at) {
            need.add(ordering(outline, entries, first, second))?;
        }
    }
    Ok(())
}
