//! The site labels of a cell.

ghost use Rattle.std.specs.Prelude.{◌≡◌, ◌∷◌, ◌++◌, ◌+◌, ◌^◌, ◌<◌, ◌≤◌, ◌==◌, IfOk, IfSome, IsNone, length, drop};
ghost use Rattle.std.specs.List.{list_any};
ghost use Rattle.std.specs.Str.{bytes_eq};
ghost use Rattle.fs_litmus_tokens.specs.Tokens.{view, views};
ghost use Rattle.fs_litmus_syntax.specs.Cells.{is_colon};
ghost use Rattle.fs_litmus_syntax.specs.Numbered.{is_label};
ghost use Rattle.fs_litmus.specs.SiteLabels.{is_site, cell_sites, position_after, all_of};
ghost use Rattle.fs_litmus.specs.inner.Fronts.{label_of, words_of, BeginsWith, BeginsWithNone};

use crate::site_label::SiteLabel;
use crate::site_name::site_name;
use fs_litmus_tokens::{Class, Kind, Mark, Token};
use std::alloc::AllocError;

/// A label: its word, what that may be read as, and its line.
#[derive(Clone, Copy)]
pub(crate) struct Label<'a> {
    pub(crate) class: Class,
    pub(crate) word: &'a str,
    pub(crate) line: usize,
}

/// May a word of this class be a label: a name or a number?
fn is_label(class: Class) -> bool
    ensures { result ≡ is_label class }
{
    class.is_name() || matches!(class, Class::Number)
}

/// Is it a colon?
fn is_colon(token: &Token<'_>) -> bool
    ensures { result ≡ is_colon (view token.now) }
{
    matches!(token.kind, Kind::Sign(Mark::Colon))
}

/// The label at the front, of two tokens.
fn front_label<'a>(tokens: &[Token<'a>]) -> Option<Label<'a>>
    ensures some { IfSome result (λ l. BeginsWith (views tokens.now) (label_of l) (views (drop 2 tokens.now))) }
    ensures room { IfSome result (λ l. 2 ≤ length tokens.now) }
    ensures none { IsNone result → BeginsWithNone (views tokens.now) (length tokens.now == 0) }
{
    let (first, rest) = tokens.split_first()?;
    let (second, _) = rest.split_first()?;
    match first.kind {
        Kind::Word(class, word) => {
            if is_label(class) && is_colon(second) {
                Some(Label {
                    class,
                    word,
                    line: first.line,
                })
            } else {
                None
            }
        }
        _ => None,
    }
}

/// Is it one of the words?
fn contains(words: &[&str], word: &str) -> bool
    ensures { result ≡ list_any (λ v. bytes_eq v word.now) (words_of words.now) }
{
    for other in words {
        if *other == word {
            return true;
        }
    }
    false
}

/// Is the label of a hart whose cells end in these words one of a site?
fn is_site(ends: &[&str], label: Label<'_>) -> bool
    ensures { result ≡ is_site (words_of ends.now) (label_of label.entry) }
{
    label.class.is_name() && !contains(ends, label.word)
}

/// Appends the site labels of a cell of this hart, whose cells end in these words and which has so many instructions
/// before this cell; how many it has behind it. Fails only for want of memory.
pub(crate) fn push_cell<'a>(
    hart: usize,
    at: usize,
    ends: &[&str],
    cell: &[Token<'a>],
    sites: &mut Vec<SiteLabel<'a>>,
) -> Result<usize, AllocError>
    requires { at + 1 < 2 ^ 64 }
    ensures sites { IfOk result (λ _. all_of sites.new.items
        ≡ all_of sites.old.items ++ cell_sites (words_of ends.now) hart at (views cell.now)) }
    ensures position { IfOk result (λ behind. behind ≡ position_after at (views cell.now)) }
{
    let mut rest = cell;
    while let Some(label) = front_label(rest) {
        if is_site(ends, label) {
            sites.push(SiteLabel {
                hart,
                at,
                name: site_name(label.word),
                line: label.line,
            })?;
        }
        rest = &rest[2..];
    }
    if rest.is_empty() { Ok(at) } else { Ok(at + 1) }
}
