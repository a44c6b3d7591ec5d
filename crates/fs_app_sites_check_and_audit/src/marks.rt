//! The copies of all sites as they are written.

ghost use Rattle.std.specs.Prelude.{◌≡◌, ◌++◌, ◌==◌, IfOk, OnOk, map, option_map, string_bytes};
ghost use Rattle.std.specs.List.{find};
ghost use Rattle.fs_app_sites_check_and_audit.specs.Marks.{agree, file_marks, is_same_fence, marked, marks_of, own_fence};

use crate::held::{Held, Written};
use fs_app_sites::places_of;
use fs_kinds::Kind;
use fs_sites::Place;
use std::alloc::{AllocError, Global};

/// A line of a file.
#[derive(Clone, Copy)]
pub struct Row {
    /// The number of the file, from 0 on.
    pub file: usize,
    pub line: usize,
}

/// A copy of a site as it is written.
#[derive(Clone, Copy)]
pub struct Mark {
    /// The number of its site.
    pub site: usize,
    /// The kind of its FENCE, if it has one.
    pub fence: Option<Kind>,
    /// Where it stands.
    pub row: Row,
}

/// Appends the copies of the file of this number, which has these places and these FENCEs in them.
fn push_marks(
    file: usize,
    places: &[Place],
    written: &[Written],
    marks: &mut Vec<Mark>,
) -> Result<(), AllocError>
    ensures { OnOk result (marks.new.items ≡ marks.old.items ++ marked file places.now written.now) }
{
    let mut written = written;
    for place in places {
        match written.split_first() {
            Some((here, later)) => {
                marks.push(Mark {
                    site: place.site,
                    fence: here.fence,
                    row: Row {
                        file,
                        line: here.line,
                    },
                })?;
                written = later;
            }
            None => return Ok(()),
        }
    }
    Ok(())
}

/// Appends the copies of a file, which has this number and whose sites have some of these names.
fn push_file(
    alloc: Global,
    names: &[String],
    file: usize,
    held: &Held,
    marks: &mut Vec<Mark>,
) -> Result<(), AllocError>
    ensures { OnOk result (marks.new.items
        ≡ marks.old.items ++ file_marks (map string_bytes names.now) (file, held.now)) }
{
    let places = places_of(alloc, names, &held.copies)?;
    push_marks(file, &places, &held.written, marks)
}

/// The copies of the sites of these names in files that hold this, in the order of the files and then of their slots.
/// Each copy's name is looked for in all names. Fails only for want of memory.
pub(crate) fn marks_of(
    alloc: Global,
    names: &[String],
    held: &[Held],
) -> Result<Vec<Mark>, AllocError>
    ensures { IfOk result (λ marks. marks.items ≡ marks_of (map string_bytes names.now) held.now) }
{
    let mut marks = Vec::new(alloc);
    for (file, here) in held.iter().enumerate() {
        push_file(alloc, names, file, here, &mut marks)?;
    }
    Ok(marks)
}

// ---- do copies agree?

pub(crate) fn is_same_fence(fence: Option<Kind>, other: Option<Kind>) -> bool
    ensures { result ≡ is_same_fence fence other }
{
    match (fence, other) {
        (None, None) => true,
        (Some(kind), Some(other)) => kind.table_index() == other.table_index(),
        _ => false,
    }
}

/// The first copy of the site.
fn first_of(marks: &[Mark], site: usize) -> Option<&Mark>
    ensures { option_map (λ mark. mark.now) result ≡ find (λ mark. mark.site == site) marks.now }
{
    marks.iter().find(|mark| mark.site == site)
}

/// What the first copy of the site has. It takes time of all copies.
pub(crate) fn own_fence(marks: &[Mark], site: usize) -> Option<Kind>
    ensures { result ≡ own_fence marks.now site }
{
    match first_of(marks, site) {
        Some(mark) => mark.fence,
        None => None,
    }
}

/// Have all copies of each site the same FENCE, or all none? The square of the copies.
pub(crate) fn agree(marks: &[Mark]) -> bool
    ensures { result ≡ agree marks.now }
{
    marks.iter().all(|mark| is_same_fence(mark.fence, own_fence(marks, mark.site)))
}
