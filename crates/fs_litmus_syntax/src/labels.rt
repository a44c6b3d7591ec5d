//! Where the labels of a hart stand.

ghost use Rattle.std.specs.Prelude.{◌≡◌, ℕ, List, IfOk};
ghost use Rattle.std.specs.Str.{bytes_eq};
ghost use Rattle.indexmap.specs.IndexMap.{get_by};
ghost use Rattle.fs_litmus_syntax.specs.Labels.{position, IsTwice};
ghost use Rattle.fs_kinds.specs.FaultOrder.{IsFirstOf};

use crate::listing::{Listing, Mark};
use fs_kinds::{Fault, earliest};
use indexmap::IndexMap;
use std::alloc::{AllocError, Global};

/// The position of each label of a hart, the first where it stands twice: how many instructions stand before it; and
/// the first fault of a label that stands twice. Fails only for want of memory.
pub(crate) fn read_positions<'a>(
    alloc: Global,
    listing: &Listing<'a>,
) -> Result<(IndexMap<&'a str, usize>, Option<Fault>), AllocError>
    ensures positions { IfOk result (λ x. (w : List ℕ) → get_by (λ k. bytes_eq w k.now) x.0 ≡ position w listing.now) }
    ensures twice { IfOk result (λ x. IsFirstOf (IsTwice listing.now) x.1) }
{
    let mut positions = IndexMap::new(alloc);
    let mut fault = None;
    let mut number = 0;
    for mark in listing.marks.iter() {
        match *mark {
            Mark::Label { name, line } => {
                if positions.contains_key(name) {
                    fault = earliest(fault, Some(Fault::BadLabel { line }));
                } else {
                    positions.insert(name, number)?;
                }
            }
            Mark::Instruction { .. } => number += 1,
        }
    }
    Ok((positions, fault))
}
