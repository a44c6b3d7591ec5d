//! The column of a hart.

ghost use Rattle.std.specs.Prelude.{◌<◌, IfOk};
ghost use Rattle.fs_litmus_syntax.specs.Cells.{IsListing};
ghost use Rattle.fs_litmus_syntax.specs.Columns.{column, cells_of};

use crate::cell::read_cell;
use crate::listing::Listing;
use crate::slices::skip;
use fs_kinds::{Fault, earliest};
use fs_litmus_tokens::Token;
use std::alloc::{AllocError, Global};

/// What stands in each cell of a hart, whose cells are the first of these, and then each that is as many further on as
/// there are columns; and the first fault of its cells, where the listing is of no use. Linear in the tokens. Fails
/// only for want of memory.
pub(crate) fn read_column<'a>(
    alloc: Global,
    columns: usize,
    cells: &[&[Token<'a>]],
) -> Result<(Listing<'a>, Option<Fault>), AllocError>
    requires { 0 < columns }
    ensures { IfOk result (λ x. IsListing (column columns 0 (cells_of cells.now)) x.0 x.1) }
{
    let mut listing = Listing::new(alloc);
    let mut fault = None;
    let mut rest = cells;
    while let Some((cell, after)) = rest.split_first() {
        let found = read_cell(alloc, cell, &mut listing)?;
        fault = earliest(fault, found);
        rest = skip(after, columns - 1);
    }
    Ok((listing, fault))
}
