//! The code of one hart.

ghost use Rattle.std.specs.Prelude.{◌≡◌, ◌<◌, ℕ, List, IfOk};
ghost use Rattle.std.specs.Str.{bytes_eq};
ghost use Rattle.indexmap.specs.IndexMap.{get_by};
ghost use Rattle.fs_litmus_syntax.specs.Columns.{column, cells_of};
ghost use Rattle.fs_litmus_syntax.specs.Labels.{position, IsLabelFault};
ghost use Rattle.fs_litmus_syntax.specs.Codes.{ReadsHart, ReadsListing};
ghost use Rattle.fs_kinds.specs.FaultOrder.{IsFirstOf};

use crate::branches::{first_stray, instruction_count, resolve};
use crate::column::read_column;
use crate::labels::read_positions;
use crate::listing::Listing;
use fs_instr::Instr;
use fs_kinds::{Fault, MOST_INSTRUCTIONS, earliest};
use fs_litmus_tokens::Token;
use indexmap::IndexMap;
use std::alloc::{AllocError, Global};

/// The code of a hart: its instructions, or how many they are where they are too many.
#[derive(Drop)]
pub enum HartCode {
    /// At most `MOST_INSTRUCTIONS`, each branch with the number of the instruction that it goes to as its target, or
    /// how many instructions there are where it goes to the end.
    Short(Vec<Instr>),
    /// More than these: how many.
    Long(usize),
}

/// The code of a hart from what stands in its cells, or the first fault of its labels and branches.
fn read_listing(alloc: Global, listing: &Listing<'_>) -> Result<Result<HartCode, Fault>, AllocError>
    ensures { IfOk result (λ read. ReadsListing listing.now read) }
{
    let (positions, twice) = read_positions(alloc, listing)?;
    let stray = first_stray(listing, &positions);
    code_of(alloc, listing, &positions, earliest(twice, stray))
}

/// The code of a hart whose labels are at these positions; or its fault, the first of its labels and branches.
fn code_of(
    alloc: Global,
    listing: &Listing<'_>,
    positions: &IndexMap<&str, usize>,
    fault: Option<Fault>,
) -> Result<Result<HartCode, Fault>, AllocError>
    requires positions { (w : List ℕ) → get_by (λ k. bytes_eq w k.now) positions.now ≡ position w listing.now }
    requires first { IsFirstOf (IsLabelFault listing.now) fault }
    ensures { IfOk result (ReadsListing listing.now) }
{
    if let Some(fault) = fault {
        return Ok(Err(fault));
    }
    let count = instruction_count(listing);
    if count > MOST_INSTRUCTIONS {
        return Ok(Ok(HartCode::Long(count)));
    }
    Ok(Ok(HartCode::Short(resolve(alloc, listing, positions)?)))
}

/// The code of a hart, or its first fault. Fails only for want of memory.
pub(crate) fn read_hart(
    alloc: Global,
    columns: usize,
    cells: &[&[Token<'_>]],
) -> Result<Result<HartCode, Fault>, AllocError>
    requires { 0 < columns }
    ensures { IfOk result (λ read. ReadsHart (column columns 0 (cells_of cells.now)) read) }
{
    let (listing, fault) = read_column(alloc, columns, cells)?;
    match fault {
        Some(fault) => Ok(Err(fault)),
        None => read_listing(alloc, &listing),
    }
}
