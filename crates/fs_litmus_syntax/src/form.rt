//! All sections, up to the condition.

ghost use Rattle.std.specs.Prelude.{◌≡◌, ◌<◌, IfOk, IfErr};
ghost use Rattle.fs_litmus_tokens.specs.Tokens.{views};
ghost use Rattle.fs_litmus_tokens.specs.Sections.{Takes};
ghost use Rattle.fs_litmus_syntax.specs.Reading.{IsEnd, Refuses};
ghost use Rattle.fs_litmus_syntax.specs.Body.{cells_of, column_of, flatten};
ghost use Rattle.fs_litmus_syntax.specs.Form.{IsForm, form_of};

use crate::header::read_header;
use crate::init::{Entry, read_init};
use crate::rows::{Quantifier, read_body};
use fs_litmus_tokens::{Stop, Token};
use std::alloc::{AllocError, Global};

/// A test file below its first line and before its condition: the initial values, the number of columns (one a hart),
/// the cells row after row, and the quantifier.
#[derive(Drop)]
pub struct Form<'b, 'a> {
    pub entries: Vec<Entry<'a>>,
    pub columns: usize,
    pub cells: Vec<&'b [Token<'a>]>,
    pub quantifier: Quantifier,
}

impl<'b, 'a> Form<'b, 'a> {
    /// The cells of a column, counted from 0, from the first row to the last: what a hart runs. Linear in the rows; 16
    /// bytes of memory a row. Fails only for want of memory.
    pub fn column(&self, alloc: Global, number: usize) -> Result<Vec<&'b [Token<'a>]>, AllocError>
        requires within { number < self.now.columns }
        requires whole { cells_of self.now.cells.items ≡ flatten (form_of self.now).rows }
        ensures { IfOk result (λ v. cells_of v.items ≡ column_of number (form_of self.now).rows) }
    {
        let mut cells = Vec::new(alloc);
        let mut row = 0;
        while row < self.cells.len() {
            cells.push(self.cells[row + number])?;
            row += self.columns;
        }
        Ok(cells)
    }
}

/// The sections at the front of the tokens, from the initial values to the quantifier, and the tokens after them, where
/// the condition begins. Linear in the tokens; fails for want of memory, or at the first token with which no such form
/// begins.
pub fn read_form<'b, 'a>(
    alloc: Global,
    tokens: &'b [Token<'a>],
) -> Result<(Form<'b, 'a>, &'b [Token<'a>]), Stop<'b, 'a>>
    ensures ok { IfOk result (λ x. Takes IsForm (views tokens.now) (form_of x.0) (views x.1.now)) }
    ensures some { IfOk result (λ x. 0 < x.0.columns) }
    // No cell is left over that isn't in a row.
    ensures whole { IfOk result (λ x. cells_of x.0.cells.items ≡ flatten (form_of x.0).rows) }
    ensures bad { IfErr result (Refuses IsForm tokens.now) }
    ensures rest { IfOk result (λ x. IsEnd tokens.now x.1.now) }
{
    let (entries, rest) = read_init(alloc, tokens)?;
    let (columns, rest) = read_header(alloc, rest)?;
    let (body, rest) = read_body(alloc, rest, columns)?;
    Ok((
        Form {
            entries,
            columns,
            cells: body.cells,
            quantifier: body.quantifier,
        },
        rest,
    ))
}
