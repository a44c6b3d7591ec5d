//! The names of a test's operations, parted by harts.

ghost use Rattle.std.specs.Prelude.{◌≡◌, filter, IfOk};
ghost use Rattle.std.specs.List.{list_any};
ghost use Rattle.fs_cert_evidence.specs.Regions.{names, stored_at};
ghost use Rattle.fs_region_refutation.specs.Views.{region_of, runs_of, accesses_at};
ghost use Rattle.fs_region_refutation.specs.inner.Each.{is_last, IsParted, AreNames};
ghost use Rattle.fs_region_refutation.specs.inner.Each.{stores_there, own_are_quiet, others_are_quiet, AreMarks};

use crate::basis::Basis;
use crate::lone::Lone;
use crate::musts::{Access, accesses};
use crate::region::Region;
use fs_kinds::{List, OperationName};
use std::alloc::{AllocError, Global};

// Names of one hart, and those of the others.
#[derive(Drop)]
pub(crate) struct Parted {
    pub(crate) own: List<OperationName>,
    pub(crate) others: List<OperationName>,
}

// A hart, and by it the names of all operations, and of those that come before no other in coherence order. And by
// locations, whether it is known that no run stores there under the hart's names, and under the last ones of the others.
#[derive(Drop)]
pub(crate) struct Names {
    pub(crate) hart: u8,
    pub(crate) all: Parted,
    pub(crate) last: Parted,
    pub(crate) own_quiet: Vec<bool>,
    pub(crate) others_quiet: Vec<bool>,
}

/// Those of the hart, and those of the other harts.
fn split(alloc: Global, names: &[OperationName], hart: u8) -> Result<Parted, AllocError>
    ensures { IfOk result (IsParted hart names.now) }
{
    let mut own = Vec::new(alloc);
    let mut others = Vec::new(alloc);
    for name in names {
        if name.hart == hart {
            own.push(*name)?;
        } else {
            others.push(*name)?;
        }
    }
    Ok(Parted {
        own: List::new(own),
        others: List::new(others),
    })
}

/// Does the store come before another?
fn is_overtaken(basis: &Basis, region: &Region<'_>, name: OperationName) -> bool
    ensures { result ≡ list_any ((region_of region.now).before name) (names basis.now) }
{
    for other in basis.names() {
        if region.is_before(name, *other) {
            return true;
        }
    }
    false
}

/// Those that come before no other.
fn last_names(
    alloc: Global,
    basis: &Basis,
    region: &Region<'_>,
) -> Result<Vec<OperationName>, AllocError>
    ensures { IfOk result (λ last. last.items
        ≡ filter (is_last basis.now (region_of region.now)) (names basis.now)) }
{
    basis
        .names()
        .iter()
        .copied()
        .filter(|name| !is_overtaken(basis, region, *name))
        .collect(alloc)
}

/// Does the run store at the location under one of the names?
fn stores_there(run: &Lone, names: &[OperationName], location: u8) -> bool
    ensures { result ≡ stores_there names.now location run.now.steps }
{
    for name in names {
        if accesses(run, Access::Store, name.at, location) {
            return true;
        }
    }
    false
}

/// Does one of the runs store there under one of the names?
fn any_stores_there(runs: &[&Lone], names: &[OperationName], location: u8) -> bool
    ensures { result ≡ list_any (stores_there names.now location) (runs_of runs.now) }
{
    for run in runs {
        if stores_there(run, names, location) {
            return true;
        }
    }
    false
}

/// Does one of the runs store there under the name?
fn any_stores(runs: &[&Lone], name: OperationName, location: u8) -> bool
    ensures { result ≡ list_any (accesses_at stored_at name.at location) (runs_of runs.now) }
{
    for run in runs {
        if accesses(run, Access::Store, name.at, location) {
            return true;
        }
    }
    false
}

/// Does some run store there under the name of its hart?
fn some_store(region: &Region<'_>, names: &[OperationName], location: u8) -> bool
    ensures { result ≡ list_any (λ a. list_any (accesses_at stored_at a.at location)
        ((region_of region.now).runs a.hart)) names.now }
{
    for name in names {
        if any_stores(region.runs(name.hart), *name, location) {
            return true;
        }
    }
    false
}

/// The number of locations that are asked for: all or none.
fn locations_of(basis: &Basis, is_asked: bool) -> u8 {
    if is_asked {
        basis.test().locations.len() as u8
    } else {
        0
    }
}

/// For each location that is asked for, whether no run stores there under these names of its hart.
fn own_marks(
    alloc: Global,
    runs: &[&Lone],
    names: &[OperationName],
    locations: u8,
) -> Result<Vec<bool>, AllocError>
    ensures { IfOk result (λ marks. AreMarks (own_are_quiet (runs_of runs.now) names.now) marks.items) }
{
    let mut marks = Vec::new(alloc);
    for location in 0..locations {
        marks.push(!any_stores_there(runs, names, location))?;
    }
    Ok(marks)
}

/// The same of names of many harts.
fn others_marks(
    alloc: Global,
    region: &Region<'_>,
    names: &[OperationName],
    locations: u8,
) -> Result<Vec<bool>, AllocError>
    ensures { IfOk result (λ marks. AreMarks (others_are_quiet (region_of region.now) names.now) marks.items) }
{
    let mut marks = Vec::new(alloc);
    for location in 0..locations {
        marks.push(!some_store(region, names, location))?;
    }
    Ok(marks)
}

/// The names parted by this hart. What no run stores is looked for where that is asked: in time of the runs of each
/// hart, times its names and the locations.
pub(crate) fn parted_names(
    alloc: Global,
    basis: &Basis,
    region: &Region<'_>,
    hart: u8,
    is_asked: bool,
) -> Result<Names, AllocError>
    ensures hart { IfOk result (λ names. names.hart ≡ hart) }
    ensures names { IfOk result (AreNames basis.now (region_of region.now)) }
{
    let last = last_names(alloc, basis, region)?;
    let all = split(alloc, basis.names(), hart)?;
    let last = split(alloc, &last, hart)?;
    let locations = locations_of(basis, is_asked);
    let own_quiet = own_marks(alloc, region.runs(hart), all.own.as_slice(), locations)?;
    let others_quiet = others_marks(alloc, region, last.others.as_slice(), locations)?;
    Ok(Names {
        hart,
        all,
        last,
        own_quiet,
        others_quiet,
    })
}
