//! The cells of a hart: labels, and at most one instruction.

ghost use Rattle.std.specs.Prelude.{◌≡◌, ◌≤◌, length, drop, option_map, IfSome, IfOk};
ghost use Rattle.fs_litmus_tokens.specs.Tokens.{view, views};
ghost use Rattle.fs_litmus_syntax.specs.Cells.{is_colon, front_label, AddsLabels, AddsCell};

use crate::listing::Listing;
use crate::numbered::{is_label, with_names};
use crate::slices::skip;
use fs_instr::{Refused, read_tokens};
use fs_kinds::Fault;
use fs_litmus_tokens::{Kind, Mark, Token};
use std::alloc::{AllocError, Global};

/// Is it a colon?
fn is_colon(token: &Token<'_>) -> bool
    ensures { result ≡ is_colon (view token.now) }
{
    matches!(token.kind, Kind::Sign(Mark::Colon))
}

/// The label at the front, and its line.
fn front_label<'a>(tokens: &[Token<'a>]) -> Option<(&'a str, usize)>
    ensures value { option_map (λ x. (x.0.now, x.1)) result ≡ front_label (views tokens.now) }
    ensures room { IfSome result (λ x. 2 ≤ length tokens.now) }
{
    match tokens {
        [first, second, ..] => match first.kind {
            Kind::Word(class, name) => {
                if is_label(class) && is_colon(second) {
                    Some((name, first.line))
                } else {
                    None
                }
            }
            _ => None,
        },
        _ => None,
    }
}

/// Appends the labels at the front of a cell to the hart's listing; how many tokens they are.
fn read_labels<'a>(cell: &[Token<'a>], listing: &mut Listing<'a>) -> Result<usize, AllocError>
    ensures room { IfOk result (λ taken. taken ≤ length cell.now) }
    ensures labels { IfOk result
        (λ taken. AddsLabels (views cell.now) listing.old listing.new (views (drop taken cell.now))) }
{
    let mut taken = 0;
    while let Some((name, line)) = front_label(skip(cell, taken)) {
        listing.push_label(name, line)?;
        taken += 2;
    }
    Ok(taken)
}

/// Appends what stands in a cell to the hart's listing; or the cell's fault, and then the listing is of no use. Linear
/// in the tokens. Fails only for want of memory.
pub(crate) fn read_cell<'a>(
    alloc: Global,
    cell: &[Token<'a>],
    listing: &mut Listing<'a>,
) -> Result<Option<Fault>, AllocError>
    ensures { IfOk result (λ fault. AddsCell (views cell.now) listing.old listing.new fault) }
{
    let Some((first, _)) = cell.split_first() else {
        return Ok(None);
    };
    let taken = read_labels(cell, listing)?;
    let rest = skip(cell, taken);
    let Some((mnemonic, after)) = rest.split_first() else {
        return Ok(None);
    };
    let tokens = with_names(alloc, mnemonic, after)?;
    match read_tokens(&tokens) {
        Ok(parsed) => {
            listing.push_instruction(parsed.instr, parsed.label, mnemonic.line)?;
            Ok(None)
        }
        Err(Refused::Form) => Ok(Some(Fault::Syntax { line: first.line })),
        Err(Refused::Name) => Ok(Some(Fault::UnknownInstr {
            line: mnemonic.line,
        })),
        Err(Refused::Suffix) => Ok(Some(Fault::BadAnnotation {
            line: mnemonic.line,
        })),
    }
}
