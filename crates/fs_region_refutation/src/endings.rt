//! What the members of a region may end with where one hart has this run or that: asked for all of its runs at once, so
//! that what the other harts may do is looked at once.

ghost use Rattle.std.specs.Prelude.{◌≡◌, ◌&&◌, not, true, Some, map, slice_get, unwrap_or, IfOk};
ghost use Rattle.std.specs.List.{list_any, zip};
ghost use Rattle.fs_model.specs.Condition.{condition_of};
ghost use Rattle.fs_model.specs.declared.test.Test.{Test};
ghost use Rattle.fs_model.specs.Execution.{initial_words};
ghost use Rattle.fs_cert_evidence.specs.Regions.{stored_at};
ghost use Rattle.fs_cert_evidence.specs.Musts.{has_truth, passes, stores_such, must_be};
ghost use Rattle.fs_region_refutation.specs.Views.{region_of, runs_of, IsOf};
ghost use Rattle.fs_region_refutation.specs.inner.Asked.{ends_so, EndsSome};
ghost use Rattle.fs_region_refutation.specs.inner.Each.{AreNames, is_ending, stores_under, ends_with, joins, may_each};
ghost use Rattle.fs_region_refutation.specs.inner.Each.{may_all_with, registers_each, ends_each};

use crate::basis::Basis;
use crate::filters::is_same;
use crate::lone::Lone;
use crate::musts::{Access, accesses, must_be};
use crate::parted::{Names, parted_names};
use crate::region::Region;
use fs_instr::Reg;
use fs_kinds::OperationName;
use fs_model::{Location, Outcome};
use std::alloc::{AllocError, Global};

// A word, and whether something is to end with it.
#[derive(Clone, Copy)]
struct Ending {
    word: u32,
    truth: bool,
}

/// Is what a test gives this truth value?
fn has_truth(truth: bool, given: bool) -> bool
    ensures { result ≡ has_truth truth given }
{
    if truth { given } else { !given }
}

/// Is the word as wanted?
fn is_ending(ending: Ending, word: u32) -> bool
    ensures { result ≡ is_ending ending word }
{
    has_truth(ending.truth, word == ending.word)
}

fn passes(ending: Ending, word: Option<u32>) -> bool
    ensures { result ≡ passes (is_ending ending) word }
{
    match word {
        Some(word) => is_ending(ending, word),
        None => false,
    }
}

/// Does the run store such a word at the location?
fn stores_such(run: &Lone, name: OperationName, location: u8, ending: Ending) -> bool
    ensures { result ≡ stores_such location (is_ending ending) name run.now.steps }
{
    is_same(run.address_at(name.at), Some(Location::address(location)))
        && passes(ending, run.stored_at(name.at))
}

/// Does one of the runs?
fn any_stores_such(runs: &[&Lone], name: OperationName, location: u8, ending: Ending) -> bool
    ensures { result ≡ list_any (stores_such location (is_ending ending) name)
        (runs_of runs.now) }
{
    for run in runs {
        if stores_such(run, name, location, ending) {
            return true;
        }
    }
    false
}

/// The word that the location begins with.
fn initial_word(basis: &Basis, location: u8) -> u32
    ensures { result ≡ unwrap_or (slice_get (initial_words basis.now) location) 0 }
{
    match basis.test().locations.get(usize::from(location)) {
        Some(location) => location.word,
        None => 0,
    }
}

/// Must something be stored at the location under one of the names?
fn must_be_stored(basis: &Basis, region: &Region<'_>, names: &[OperationName], location: u8) -> bool
    ensures { result ≡ list_any (λ a. must_be basis.now (region_of region.now) stored_at a location) names.now }
{
    for name in names {
        if must_be(basis, region, Access::Store, *name, location) {
            return true;
        }
    }
    false
}

/// May the location keep such a word from its beginning, whatever is stored under other names than these?
fn may_stay(
    basis: &Basis,
    region: &Region<'_>,
    names: &[OperationName],
    location: u8,
    ending: Ending,
) -> bool
    ensures { result ≡ (is_ending ending (unwrap_or (slice_get (initial_words basis.now) location) 0)
        && not (list_any (λ a. must_be basis.now (region_of region.now) stored_at a location) names.now)) }
{
    is_ending(ending, initial_word(basis, location))
        && !must_be_stored(basis, region, names, location)
}

/// May such a word be stored at the location under one of the names?
fn may_be_stored(region: &Region<'_>, names: &[OperationName], location: u8, ending: Ending) -> bool
    ensures { result ≡ list_any (λ a. list_any (stores_such location (is_ending ending) a)
        ((region_of region.now).runs a.hart)) names.now }
{
    for name in names {
        if any_stores_such(region.runs(name.hart), *name, location, ending) {
            return true;
        }
    }
    false
}

/// Is the location marked?
fn is_marked(marks: &[bool], location: u8) -> bool
    ensures { result ≡ true → slice_get marks.now location ≡ Some true }
{
    match marks.get(usize::from(location)) {
        Some(mark) => *mark,
        None => false,
    }
}

/// May such a word be stored there under one of the last names of the other harts?
fn others_may(region: &Region<'_>, names: &Names, location: u8, ending: Ending) -> bool
    ensures { (t : Test) → AreNames t (region_of region.now) names.now
        → result ≡ list_any (λ a. list_any (stores_such location (is_ending ending) a)
        ((region_of region.now).runs a.hart)) names.now.last.others }
{
    if is_marked(&names.others_quiet, location) {
        return false;
    }
    may_be_stored(region, names.last.others.as_slice(), location, ending)
}

/// Does the run store at the location under the name, which is a hart's?
fn stores_under(basis: &Basis, run: &Lone, name: OperationName, location: u8) -> bool
    ensures { result ≡ stores_under basis.now location run.now.steps name }
{
    basis.is_hart(name.hart) && accesses(run, Access::Store, name.at, location)
}

/// Does it under one of the names?
fn stores_at(basis: &Basis, run: &Lone, names: &[OperationName], location: u8) -> bool
    ensures { result ≡ list_any (stores_under basis.now location run.now.steps) names.now }
{
    for name in names {
        if stores_under(basis, run, *name, location) {
            return true;
        }
    }
    false
}

/// Does it store such a word there under one of the names?
fn stores_some(run: &Lone, names: &[OperationName], location: u8, ending: Ending) -> bool
    ensures { result ≡ list_any (λ a. stores_such location (is_ending ending) a run.now.steps) names.now }
{
    for name in names {
        if stores_such(run, *name, location, ending) {
            return true;
        }
    }
    false
}

/// May the location end with such a word by what the run does?
fn ends_with(
    basis: &Basis,
    names: &Names,
    location: u8,
    ending: Ending,
    begins: bool,
    run: &Lone,
) -> bool
    ensures { result ≡ ends_with basis.now location ending begins names.now.all.own names.now.last.own run.now.steps }
{
    (begins && !stores_at(basis, run, names.all.own.as_slice(), location))
        || stores_some(run, names.last.own.as_slice(), location, ending)
}

/// The same for each of the runs.
fn same_each(alloc: Global, runs: &[&Lone], mark: bool) -> Result<Vec<bool>, AllocError>
    ensures { IfOk result (λ marks. marks.items ≡ map (λ run. mark) runs.now) }
{
    runs.iter().map(|_run| mark).collect(alloc)
}

/// With which runs of the hart may the location end with such a word?
fn ends_each(
    alloc: Global,
    basis: &Basis,
    region: &Region<'_>,
    names: &Names,
    location: u8,
    ending: Ending,
) -> Result<Vec<bool>, AllocError>
    requires { AreNames basis.now (region_of region.now) names.now }
    ensures { IfOk result (λ marks. marks.items
        ≡ ends_each basis.now names.now.hart (region_of region.now) location ending) }
{
    let runs = region.runs(names.hart);
    let stored = others_may(region, names, location, ending);
    if stored {
        let marks = same_each(alloc, runs, true)?;
        return Ok(marks);
    }
    let begins = may_stay(basis, region, names.all.others.as_slice(), location, ending);
    if is_marked(&names.own_quiet, location) {
        let marks = same_each(alloc, runs, begins)?;
        return Ok(marks);
    }
    let marks = runs
        .iter()
        .map(|run| ends_with(basis, names, location, ending, begins, run))
        .collect(alloc)?;
    Ok(marks)
}

/// May the register end with such a word in one of the runs, which are of the hart?
fn may_end_register(runs: &[&Lone], register: Reg, ending: Ending) -> bool
    ensures { EndsSome register ending runs.now result }
{
    runs.iter()
        .any(|run| is_ending(ending, run.final_register(register)))
}

/// With which of the runs does it?
fn register_each(
    alloc: Global,
    runs: &[&Lone],
    register: Reg,
    ending: Ending,
) -> Result<Vec<bool>, AllocError>
    ensures { IfOk result (λ marks. marks.items ≡ map (ends_so register ending) runs.now) }
{
    runs.iter()
        .map(|run| is_ending(ending, run.final_register(register)))
        .collect(alloc)
}

/// With which runs of the hart may a register of this or of another one end with such a word?
fn registers_each(
    alloc: Global,
    region: &Region<'_>,
    hart: u8,
    own: u8,
    register: Reg,
    ending: Ending,
) -> Result<Vec<bool>, AllocError>
    ensures { (t : Test) → IsOf t region.now → IfOk result (λ marks. marks.items
        ≡ registers_each t hart (region_of region.now) own register ending) }
{
    if own == hart {
        let marks = register_each(alloc, region.runs(hart), register, ending)?;
        Ok(marks)
    } else {
        let ends = may_end_register(region.runs(own), register, ending);
        let marks = same_each(alloc, region.runs(hart), ends)?;
        Ok(marks)
    }
}

fn joins(at_once: bool, first: bool, second: bool) -> bool
    ensures { result ≡ joins at_once first second }
{
    if at_once {
        first && second
    } else {
        first || second
    }
}

/// For each run both at once, or one or the other.
fn joined(
    alloc: Global,
    first: &[bool],
    second: &[bool],
    at_once: bool,
) -> Result<Vec<bool>, AllocError>
    ensures { IfOk result (λ marks. marks.items
        ≡ map (λ pair. joins at_once pair.0 pair.1) (zip first.now second.now)) }
{
    first
        .iter()
        .zip(second)
        .map(|(first, second)| joins(at_once, *first, *second))
        .collect(alloc)
}

/// With which runs of the hart may the condition have this truth value? Its depth is bounded by that of the test's
/// condition. An atom takes the runs of a hart times its names, for each of the harts once; of a location at which no run
/// stores it takes the runs of the hart.
fn may_each(
    alloc: Global,
    basis: &Basis,
    region: &Region<'_>,
    names: &Names,
    condition: &Outcome,
    truth: bool,
) -> Result<Vec<bool>, AllocError>
    requires of { IsOf basis.now region.now }
    requires names { AreNames basis.now (region_of region.now) names.now }
    ensures { IfOk result (λ marks. marks.items
        ≡ may_each basis.now names.now.hart (region_of region.now) (condition_of condition.now) truth) }
{
    match condition {
        Outcome::Always => same_each(alloc, region.runs(names.hart), truth),
        Outcome::Never => same_each(alloc, region.runs(names.hart), !truth),
        Outcome::RegisterIs { hart, reg, word } => {
            let ending = Ending { word: *word, truth };
            registers_each(alloc, region, names.hart, *hart, *reg, ending)
        }
        Outcome::LocationIs { location, word } => {
            let ending = Ending { word: *word, truth };
            ends_each(alloc, basis, region, names, *location, ending)
        }
        Outcome::Deny(denied) => may_each(alloc, basis, region, names, denied, !truth),
        Outcome::Both(left, right) => {
            let first = may_each(alloc, basis, region, names, left, truth)?;
            let second = may_each(alloc, basis, region, names, right, truth)?;
            joined(alloc, &first, &second, truth)
        }
        Outcome::Either(left, right) => {
            let first = may_each(alloc, basis, region, names, left, truth)?;
            let second = may_each(alloc, basis, region, names, right, truth)?;
            joined(alloc, &first, &second, !truth)
        }
    }
}

/// How many atoms of the condition speak of locations?
fn location_atoms(condition: &Outcome) -> usize {
    match condition {
        Outcome::LocationIs { .. } => 1,
        Outcome::Deny(denied) => location_atoms(denied),
        Outcome::Both(left, right) => location_atoms(left).saturating_add(location_atoms(right)),
        Outcome::Either(left, right) => location_atoms(left).saturating_add(location_atoms(right)),
        _ => 0,
    }
}

/// Do so many atoms of the wanted conditions speak of locations that it is worth while to ask of each location once
/// whether something is stored there?
fn has_many(basis: &Basis, region: &Region<'_>) -> bool {
    let mut atoms: usize = 0;
    for wanted in region.wanted.iter() {
        atoms = atoms.saturating_add(location_atoms(wanted.condition));
    }
    atoms / 2 > basis.test().locations.len()
}

/// With which runs of the hart of these names may each wanted condition have its truth value?
fn may_all_under(
    alloc: Global,
    basis: &Basis,
    region: &Region<'_>,
    names: &Names,
) -> Result<Vec<bool>, AllocError>
    requires of { IsOf basis.now region.now }
    requires names { AreNames basis.now (region_of region.now) names.now }
    ensures { IfOk result (λ marks. marks.items
        ≡ map (may_all_with basis.now names.now.hart (region_of region.now) (region_of region.now).wanted)
        ((region_of region.now).runs names.now.hart)) }
{
    let mut marks = same_each(alloc, region.runs(names.hart), true)?;
    for wanted in region.wanted.iter() {
        let more = may_each(alloc, basis, region, names, wanted.condition, wanted.truth)?;
        marks = joined(alloc, &marks, &more, true)?;
    }
    Ok(marks)
}

/// With which runs of the hart may each wanted condition have its truth value?
pub(crate) fn may_all_each(
    alloc: Global,
    basis: &Basis,
    region: &Region<'_>,
    hart: u8,
) -> Result<Vec<bool>, AllocError>
    requires { IsOf basis.now region.now }
    ensures { IfOk result (λ marks. marks.items
        ≡ map (may_all_with basis.now hart (region_of region.now) (region_of region.now).wanted)
        ((region_of region.now).runs hart)) }
{
    let names = parted_names(alloc, basis, region, hart, has_many(basis, region))?;
    let marks = may_all_under(alloc, basis, region, &names)?;
    Ok(marks)
}
