//! What must hold in all candidates of a region.

ghost use Rattle.std.specs.Prelude.{◌≡◌};
ghost use Rattle.std.specs.List.{list_all};
ghost use Rattle.fs_cert_evidence.specs.Regions.{same_name, address_at};
ghost use Rattle.fs_cert_evidence.specs.Musts.{is_before, must_be, must_meet, is_later_than, overwrites, must_pair};
ghost use Rattle.fs_region_refutation.specs.Views.{region_of, known_source, runs_of, access_of, accesses_at, IsOf};
ghost use Rattle.fs_region_refutation.specs.Orders.{OrdersAll};
ghost use Rattle.fs_region_refutation.specs.inner.Asked.{PairsAll};

use crate::basis::Basis;
use crate::filters::is_same;
use crate::lone::Lone;
use crate::region::Region;
use crate::source::{Source, Sourced};
use fs_kinds::{OperationName, Placement};
use fs_model::Location;

/// How an operation accesses memory.
#[derive(Clone, Copy)]
pub enum Access {
    Load,
    Store,
}

/// The address that the run accesses at the position, and the word that it loads or stores there.
pub(crate) fn accessed(run: &Lone, access: Access, at: u8) -> (Option<u32>, Option<u32>)
    ensures address { result.0 ≡ address_at run.now.steps at }
    ensures word { result.1 ≡ access_of access run.now.steps at }
{
    let doing = run.doing_at(at);
    match access {
        Access::Load => (doing.address, doing.loaded),
        Access::Store => (doing.address, doing.stored),
    }
}

/// Does the run access the location there?
pub(crate) fn accesses(run: &Lone, access: Access, at: u8, location: u8) -> bool
    ensures { result ≡ accesses_at (access_of access) at location run.now.steps }
{
    let (address, word) = accessed(run, access, at);
    word.is_some() && is_same(address, Some(Location::address(location)))
}

/// Does each of the runs?
fn all_access(runs: &[&Lone], access: Access, at: u8, location: u8) -> bool
    ensures { result ≡ list_all (accesses_at (access_of access) at location) (runs_of runs.now) }
{
    for run in runs {
        if !accesses(run, access, at, location) {
            return false;
        }
    }
    true
}

/// Must the operation be executed, and access the location? At most linear in the runs of its hart.
pub(crate) fn must_be(
    basis: &Basis,
    region: &Region<'_>,
    access: Access,
    name: OperationName,
    location: u8,
) -> bool
    ensures { result ≡ must_be basis.now (region_of region.now) (access_of access) name location }
{
    basis.is_hart(name.hart) && all_access(region.runs(name.hart), access, name.at, location)
}

/// Must the two accesses be to one location? In time of the runs of their harts, for each of the locations.
pub fn must_meet(
    basis: &Basis,
    region: &Region<'_>,
    first: (Access, OperationName),
    second: (Access, OperationName),
) -> bool
    ensures { result ≡ must_meet basis.now (region_of region.now) (access_of first.0)
        (access_of second.0) first.1 second.1 }
{
    let locations = basis.test().locations.len() as u8;
    (0..locations).any(|location| {
        must_be(basis, region, first.0, first.1, location)
            && must_be(basis, region, second.0, second.1, location)
    })
}

/// Is the store before this source?
pub fn is_before_source(region: &Region<'_>, store: OperationName, source: Option<Source>) -> bool
    ensures { result ≡ is_before (region_of region.now) store (known_source source) }
{
    match source {
        Some(Source::From(other)) => region.is_before(store, other),
        _ => false,
    }
}

/// Must the store be later in coherence order than this source of the load?
fn is_later_than(
    basis: &Basis,
    region: &Region<'_>,
    store: OperationName,
    load: OperationName,
    source: Option<Source>,
) -> bool
    ensures { result ≡ is_later_than basis.now (region_of region.now) store load (known_source source) }
{
    match source {
        None => false,
        Some(Source::Initial) => must_meet(
            basis,
            region,
            (Access::Load, load),
            (Access::Store, store),
        ),
        Some(Source::From(other)) => region.is_before(other, store),
    }
}

/// Must the store be later than what the load returns from? In time of the runs of their harts, for each of the
/// locations.
pub fn overwrites(
    basis: &Basis,
    region: &Region<'_>,
    store: OperationName,
    load: OperationName,
) -> bool
    ensures { result ≡ overwrites basis.now (region_of region.now) store load }
{
    is_later_than(basis, region, store, load, region.source(load))
}

/// Does the rule of this number order the two in each of the runs, which are of the hart of the first one? Each run is
/// asked at most once.
pub fn all_order(
    placement: &Placement,
    rule: u8,
    first: Sourced,
    second: Sourced,
    runs: &[&Lone],
) -> bool
    ensures { OrdersAll placement.now rule first second runs.now result }
{
    for run in runs {
        if !run.is_rule(placement, rule, first, second) {
            return false;
        }
    }
    true
}

/// Are they one name?
pub fn is_same_name(name: OperationName, other: OperationName) -> bool
    ensures { result ≡ same_name name other }
{
    name.hart == other.hart && name.at == other.at
}

/// Is each of the runs one in which the two are a pair?
fn all_pair(load: OperationName, store: OperationName, runs: &[&Lone]) -> bool
    ensures { PairsAll load store runs.now result }
{
    for run in runs {
        if !run.is_pair(load, store) {
            return false;
        }
    }
    true
}

/// Must the two be an lr.w and its sc.w, which succeeds? Each run of the hart is asked at most once.
pub fn must_pair(
    basis: &Basis,
    region: &Region<'_>,
    load: OperationName,
    store: OperationName,
) -> bool
    requires { IsOf basis.now region.now }
    ensures { result ≡ must_pair basis.now (region_of region.now) load store }
{
    load.hart == store.hart
        && (basis.is_hart(load.hart) && all_pair(load, store, region.runs(load.hart)))
}
