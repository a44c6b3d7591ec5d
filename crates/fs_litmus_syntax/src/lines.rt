//! The lines in which the instructions of each hart stand.

ghost use Rattle.std.specs.Prelude.{◌≡◌, ◌<◌, List as Items, IfOk};
ghost use Rattle.fs_litmus_syntax.specs.Cells.{Item, AreCells};
ghost use Rattle.fs_litmus_syntax.specs.Columns.{column, cells_of};
ghost use Rattle.fs_litmus_syntax.specs.Lines.{lines_of, AreLines};

use crate::column::read_column;
use crate::listing::{Listing, Mark};
use crate::slices::skip;
use fs_kinds::List;
use fs_litmus_tokens::Token;
use std::alloc::{AllocError, Global};

/// The lines in which the instructions of each hart stand: of each the line of its mnemonic. The cells are those that
/// `read_codes` takes; of a hart with a cell that isn't of the form nothing is said. Linear in the tokens and the
/// columns. Fails only for want of memory.
pub fn read_lines(
    alloc: Global,
    columns: usize,
    cells: &[&[Token<'_>]],
) -> Result<Vec<List<usize>>, AllocError>
    ensures { IfOk result (λ lines. AreLines columns (cells_of cells.now) lines.items) }
{
    let mut lines = Vec::new(alloc);
    for hart in 0..columns {
        lines.push(hart_lines(alloc, columns, skip(cells, hart))?)?;
    }
    Ok(lines)
}

/// The lines of the hart whose cells are the first of these, and then each that is as many further on as there are
/// columns.
fn hart_lines(
    alloc: Global,
    columns: usize,
    cells: &[&[Token<'_>]],
) -> Result<List<usize>, AllocError>
    requires { 0 < columns }
    ensures { IfOk result (λ lines. (items : Items Item) → AreCells (column columns 0 (cells_of cells.now)) items
        → lines ≡ lines_of items) }
{
    let (listing, _) = read_column(alloc, columns, cells)?;
    Ok(List::new(lines_of(alloc, &listing)?))
}

/// The lines of the instructions.
fn lines_of(alloc: Global, listing: &Listing<'_>) -> Result<Vec<usize>, AllocError>
    ensures { IfOk result (λ lines. lines.items ≡ lines_of listing.now) }
{
    let mut lines = Vec::new(alloc);
    for mark in listing.marks.iter() {
        match *mark {
            Mark::Label { .. } => {}
            Mark::Instruction { line, .. } => lines.push(line)?,
        }
    }
    Ok(lines)
}
