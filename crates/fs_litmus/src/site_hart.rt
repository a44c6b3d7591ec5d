//! The site labels of a hart.

ghost use Rattle.std.specs.Prelude.{◌≡◌, ◌++◌, IfOk, option_map};
ghost use Rattle.fs_litmus_tokens.specs.Tokens.{view, views};
ghost use Rattle.fs_litmus_syntax.specs.Body.{cells_of};
ghost use Rattle.fs_litmus.specs.SiteLabels.{word_of, end_word, end_words, sites_from, hart_sites, all_of};
ghost use Rattle.fs_litmus.specs.inner.Fronts.{words_of};

use crate::site_cell::push_cell;
use crate::site_label::SiteLabel;
use fs_litmus_tokens::{Kind, Token};
use std::alloc::{AllocError, Global};

/// The token's word.
fn word_of<'a>(token: &Token<'a>) -> Option<&'a str>
    ensures { option_map (λ w. w.now) result ≡ word_of (view token.now) }
{
    match token.kind {
        Kind::Word(_, word) => Some(word),
        _ => None,
    }
}

/// The word that is the cell's last token.
fn end_word<'a>(cell: &[Token<'a>]) -> Option<&'a str>
    ensures { option_map (λ w. w.now) result ≡ end_word (views cell.now) }
{
    match cell.split_last() {
        Some((last, _)) => word_of(last),
        None => None,
    }
}

/// The words in which cells end. Fails only for want of memory.
fn end_words<'a>(alloc: Global, cells: &[&[Token<'a>]]) -> Result<Vec<&'a str>, AllocError>
    ensures { IfOk result (λ words. words_of words.items ≡ end_words (cells_of cells.now)) }
{
    let mut words = Vec::new(alloc);
    for cell in cells {
        if let Some(word) = end_word(cell) {
            words.push(word)?;
        }
    }
    Ok(words)
}

/// Appends the site labels of these cells of a hart whose cells end in these words.
fn push_cells<'a>(
    hart: usize,
    ends: &[&str],
    cells: &[&[Token<'a>]],
    sites: &mut Vec<SiteLabel<'a>>,
) -> Result<(), AllocError>
    ensures { IfOk result (λ _. all_of sites.new.items
        ≡ all_of sites.old.items ++ sites_from (words_of ends.now) hart 0 (cells_of cells.now)) }
{
    let mut at = 0;
    for cell in cells {
        at = push_cell(hart, at, ends, cell, sites)?;
    }
    Ok(())
}

/// Appends the site labels of the hart of this number, which has these cells. Fails only for want of memory.
pub(crate) fn push_hart<'a>(
    alloc: Global,
    hart: usize,
    cells: &[&[Token<'a>]],
    sites: &mut Vec<SiteLabel<'a>>,
) -> Result<(), AllocError>
    ensures { IfOk result (λ _. all_of sites.new.items
        ≡ all_of sites.old.items ++ hart_sites hart (cells_of cells.now)) }
{
    let ends = end_words(alloc, cells)?;
    push_cells(hart, &ends, cells, sites)
}
