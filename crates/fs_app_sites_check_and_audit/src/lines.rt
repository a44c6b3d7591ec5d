//! What is advised of the FENCEs of each site, in lines.

ghost use Rattle.std.specs.Prelude.{◌≡◌, ◌++◌, Some, IfOk, OnOk};
ghost use Rattle.std.specs.List.{flat_map, list_any};
ghost use Rattle.fs_app_audit.specs.Advice.{changes_nothing, graded};
ghost use Rattle.fs_app_sites_check_and_audit.specs.Lines.{advice_for, advised, are_content, fence_line, is_kept, is_same_row};
ghost use Rattle.fs_app_sites_check_and_audit.specs.Lines.{lines_of, rows_of, site_lines, told, with_mark, with_row};

use crate::marks::{Mark, Row, is_same_fence, own_fence};
use fs_app_audit::Advice;
use fs_app_test::Kind as Verdict;
use fs_kinds::{Entry, Kind, List};
use std::alloc::{AllocError, Global};

/// What is said of the copies of a site that have the same fence.
#[derive(Drop)]
pub struct Line {
    /// The number of the site.
    pub site: usize,
    /// The kind of the FENCE that they have; nothing where they have none.
    pub fence: Option<Kind>,
    pub advice: Advice,
    /// Where they stand.
    pub rows: List<Row>,
}

// ---- what is advised

/// Is what is written what is advised, since copies agree, each outcome is forbidden, and nothing costs less?
pub(crate) fn is_kept(kind: Verdict, written: Option<u64>, cheapest: u64) -> bool
    ensures { result ≡ is_kept kind written cheapest }
{
    match (kind, written) {
        (Verdict::Forbidden, Some(written)) => written <= cheapest,
        _ => false,
    }
}

/// The fence that the site of this number is to have: what is written, or that of the entry of the same number.
pub(crate) fn advised(kept: bool, marks: &[Mark], entries: &[Entry], site: usize) -> Option<Kind>
    ensures { result ≡ advised kept marks.now entries.now site }
{
    if kept {
        return own_fence(marks, site);
    }
    match entries.get(site) {
        Some(entry) => entry.kind,
        None => None,
    }
}

/// Of copies that have this FENCE.
fn graded(kind: Kind, own: Kind) -> Advice
    ensures { result ≡ graded kind (Some own) }
{
    if !kind.no_stronger(own) {
        Advice::Instead(kind)
    } else if own.no_stronger(kind) {
        Advice::Needed
    } else {
        Advice::Enough(kind)
    }
}

/// Of copies that have the second fence, where their site is to have the first.
fn advice_for(wanted: Option<Kind>, own: Option<Kind>) -> Option<Advice>
    ensures { result ≡ advice_for wanted own }
{
    match (wanted, own) {
        (None, None) => None,
        (None, Some(_)) => Some(Advice::NotNeeded),
        (Some(kind), None) => Some(Advice::Missing(kind)),
        (Some(kind), Some(own)) => Some(graded(kind, own)),
    }
}

// ---- which copies have a fence

fn is_same_row(row: Row, other: Row) -> bool
    ensures { result ≡ is_same_row row other }
{
    row.file == other.file && row.line == other.line
}

/// Is it one of the rows?
fn has_row(rows: &[Row], row: Row) -> bool
    ensures { result ≡ list_any (is_same_row row) rows.now }
{
    rows.iter().any(|other| is_same_row(row, *other))
}

/// Appends the row, unless it is there.
fn add_row(row: Row, rows: &mut Vec<Row>) -> Result<(), AllocError>
    ensures { OnOk result (rows.new.items ≡ with_row rows.old.items row) }
{
    if !has_row(rows, row) {
        rows.push(row)?;
    }
    Ok(())
}

/// Appends the row of a copy that is of the site and has the fence, unless it is there.
fn add_mark(
    site: usize,
    own: Option<Kind>,
    mark: &Mark,
    rows: &mut Vec<Row>,
) -> Result<(), AllocError>
    ensures { OnOk result (rows.new.items ≡ with_mark site own rows.old.items mark.now) }
{
    if mark.site == site && is_same_fence(mark.fence, own) {
        add_row(mark.row, rows)?;
    }
    Ok(())
}

/// In which rows copies of the site have the fence.
fn rows_of(
    alloc: Global,
    marks: &[Mark],
    site: usize,
    own: Option<Kind>,
) -> Result<Vec<Row>, AllocError>
    ensures { IfOk result (λ rows. rows.items ≡ rows_of marks.now site own) }
{
    let mut rows = Vec::new(alloc);
    for mark in marks {
        add_mark(site, own, mark, &mut rows)?;
    }
    Ok(rows)
}

// ---- lines

/// Appends a line, where there is something to say and some copy has the fence.
fn push_told(
    site: usize,
    own: Option<Kind>,
    advice: Option<Advice>,
    rows: Vec<Row>,
    lines: &mut Vec<Line>,
) -> Result<(), AllocError>
    ensures { OnOk result (lines.new.items ≡ lines.old.items ++ told site own advice rows.items) }
{
    let Some(advice) = advice else {
        return Ok(());
    };
    if !rows.is_empty() {
        lines.push(Line {
            site,
            fence: own,
            advice,
            rows: List::new(rows),
        })?;
    }
    Ok(())
}

/// Appends the line of the copies of the site that have this fence.
fn push_line(
    alloc: Global,
    marks: &[Mark],
    site: usize,
    wanted: Option<Kind>,
    own: Option<Kind>,
    lines: &mut Vec<Line>,
) -> Result<(), AllocError>
    ensures { OnOk result (lines.new.items ≡ lines.old.items ++ fence_line marks.now site wanted own) }
{
    let rows = rows_of(alloc, marks, site, own)?;
    push_told(site, own, advice_for(wanted, own), rows, lines)
}

/// Appends the lines of the copies of the site that have FENCEs of these kinds.
fn push_kinds(
    alloc: Global,
    marks: &[Mark],
    site: usize,
    wanted: Option<Kind>,
    kinds: &[Kind],
    lines: &mut Vec<Line>,
) -> Result<(), AllocError>
    ensures { OnOk result (lines.new.items
        ≡ lines.old.items ++ flat_map (λ kind. fence_line marks.now site wanted (Some kind)) kinds.now) }
{
    for kind in kinds {
        push_line(alloc, marks, site, wanted, Some(*kind), lines)?;
    }
    Ok(())
}

/// Appends the lines of the site: of copies without a fence first, then by kind.
fn push_site(
    alloc: Global,
    marks: &[Mark],
    site: usize,
    wanted: Option<Kind>,
    lines: &mut Vec<Line>,
) -> Result<(), AllocError>
    ensures { OnOk result (lines.new.items ≡ lines.old.items ++ site_lines marks.now site wanted) }
{
    push_line(alloc, marks, site, wanted, None, lines)?;
    push_kinds(alloc, marks, site, wanted, &Kind::ALL, lines)
}

/// The lines of so many sites, of which what is written is what is advised, or the fences of these entries. Each copy is
/// looked at some ten times for each site. Fails only for want of memory.
pub(crate) fn lines_of(
    alloc: Global,
    sites: usize,
    marks: &[Mark],
    kept: bool,
    entries: &[Entry],
) -> Result<Vec<Line>, AllocError>
    ensures { IfOk result (λ lines. lines.items ≡ lines_of sites marks.now (advised kept marks.now entries.now)) }
{
    let mut lines = Vec::new(alloc);
    for site in 0..sites {
        let wanted = advised(kept, marks, entries, site);
        push_site(alloc, marks, site, wanted, &mut lines)?;
    }
    Ok(lines)
}

fn changes_nothing(advice: Advice) -> bool
    ensures { result ≡ changes_nothing advice }
{
    matches!(advice, Advice::Needed | Advice::Unpriced | Advice::Devices)
}

/// Is there nothing to change?
pub(crate) fn are_content(lines: &[Line]) -> bool
    ensures { result ≡ are_content lines.now }
{
    lines.iter().all(|line| changes_nothing(line.advice))
}
