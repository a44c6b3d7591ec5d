//! How a region is split into smaller ones.

ghost use Rattle.std.specs.Prelude.{◌≡◌, ◌≢◌, ℕ, ◌++◌, ◌+◌, ◌∷◌, ◌<◌, [], List, Bool, map, filter, length, nat_lt};
ghost use Rattle.std.specs.Prelude.{take, drop, false, slice_get, unwrap_or, if◌then◌else◌};
ghost use Rattle.std.specs.Prelude.{IfOk, IfSome, IfNone, OnOk};
ghost use Rattle.std.specs.List.{list_any};
ghost use Rattle.fs_model.specs.declared.test.Test.{Test};
ghost use Rattle.fs_model.specs.declared.step.Step.{Step};
ghost use Rattle.fs_model.specs.Condition.{condition_of};
ghost use Rattle.fs_cert_evidence.specs.Regions.{Region as SpecRegion, From, same_source};
ghost use Rattle.fs_cert_evidence.specs.Splits.{keep, agree, chosen_at, rising, by_choice, from_store, from_initial};
ghost use Rattle.fs_cert_evidence.specs.Splits.{from_nothing, from_source, is_left, can_be_source, sources_for};
ghost use Rattle.fs_cert_evidence.specs.Splits.{by_source, by_order, ways, ways_of, by_cases, by_outcome, with_source};
ghost use Rattle.fs_cert_evidence.specs.Trees.{is_open};
ghost use Rattle.fs_region_refutation.specs.Alone.{source_of};
ghost use Rattle.fs_region_refutation.specs.declared.musts.Access.TheVariants.{Load};
ghost use Rattle.fs_region_refutation.specs.Views.{region_of, regions_of, all_wanted, list_at, runs_of, known_source};
ghost use Rattle.fs_region_refutation.specs.Views.{IsOf, AreOf};
ghost use Rattle.fs_region_refutation.specs.inner.Pairs.{ArePairs};

use crate::basis::Basis;
use crate::endings::may_all_each;
use crate::filters::{
    agreeing_alone, agreeing_loads, agreeing_stores, choosing, loading_initial, not_loading, pairs,
    push_if,
};
use crate::lone::Lone;
use crate::musts::{Access, is_same_name};
use crate::region::{Region, Runs, Wanted};
use crate::source::Source;
use fs_kinds::{List, OperationName};
use fs_model::Outcome;
use std::alloc::{AllocError, Global};

/// The region with these of the hart's runs.
fn keep<'a>(
    alloc: Global,
    region: &Region<'a>,
    hart: u8,
    kept: Runs<'a>,
) -> Result<Region<'a>, AllocError>
    ensures kept { (test : List Step → Bool) → kept.entry ≡ filter (λ run. test run.now.steps) (list_at region.now hart)
        → IfOk result (λ smaller. region_of smaller ≡ keep hart test (region_of region.now)) }
    ensures of { (test : List Step → Bool) → kept.entry ≡ filter (λ run. test run.now.steps) (list_at region.now hart)
        → (t : Test) → IsOf t region.now → IfOk result (IsOf t) }
    ensures others { (h : ℕ) → h ≢ hart → IfOk result (λ smaller. list_at smaller h ≡ list_at region.now h) }
{
    let smaller = region.with_runs(alloc, hart, kept)?;
    Ok(smaller)
}

/// Does each hart have a run left?
fn is_open(basis: &Basis, region: &Region<'_>) -> bool
    ensures { result ≡ is_open basis.now (region_of region.now) }
{
    let harts = basis.test().codes.len() as u8;
    (0..harts).all(|hart| has_run(region, hart))
}

fn has_run(region: &Region<'_>, hart: u8) -> bool
    ensures { result ≡ nat_lt 0 (length ((region_of region.now).runs hart)) }
{
    !region.runs(hart).is_empty()
}

/// Puts the region behind those that are there, if it is open.
pub(crate) fn add_open<'a>(
    basis: &Basis,
    regions: &mut Vec<Region<'a>>,
    region: Region<'a>,
) -> Result<(), AllocError>
    ensures regions { OnOk result (regions_of regions.new.items
        ≡ regions_of regions.old.items ++ filter (is_open basis.now) (region_of region.entry ∷ [])) }
    ensures of { OnOk result (AreOf basis.now regions.old.items → IsOf basis.now region.entry
        → AreOf basis.now regions.new.items) }
{
    if is_open(basis, &region) {
        regions.push(region)?;
    }
    Ok(())
}

/// The same of a region that is left out where it isn't open: none is given then.
fn add_found<'a>(
    basis: &Basis,
    regions: &mut Vec<Region<'a>>,
    found: Option<Region<'a>>,
) -> Result<(), AllocError>
    ensures regions { (it : SpecRegion) → IfSome found.entry (λ region. region_of region ≡ it)
        → IfNone found.entry (is_open basis.now it ≡ false)
        → OnOk result (regions_of regions.new.items
        ≡ regions_of regions.old.items ++ filter (is_open basis.now) (it ∷ [])) }
    ensures of { OnOk result (AreOf basis.now regions.old.items → IfSome found.entry (IsOf basis.now)
        → AreOf basis.now regions.new.items) }
{
    if let Some(region) = found {
        add_open(basis, regions, region)?;
    }
    Ok(())
}

/// The number of what each run chooses at the position.
fn chosen(alloc: Global, runs: &[&Lone], at: u8) -> Result<Vec<u64>, AllocError>
    ensures { IfOk result (λ numbers. numbers.items ≡ map (λ run. chosen_at at run.now.steps) runs.now) }
{
    runs.iter().map(|run| run.chosen_at(at)).collect(alloc)
}

/// The numbers of what the runs choose at the position, each once and rising.
fn choices(alloc: Global, runs: &[&Lone], at: u8) -> Result<Vec<u64>, AllocError>
    ensures { IfOk result (λ numbers. numbers.items ≡ rising (map (chosen_at at) (runs_of runs.now))) }
{
    let mut numbers = chosen(alloc, runs, at)?;
    numbers.sort()?;
    numbers.dedup();
    Ok(numbers)
}

/// A region for each choice that some run makes at the name. In time of the runs of its hart, for each of the choices.
pub fn by_choice<'a>(
    alloc: Global,
    basis: &Basis,
    name: OperationName,
    region: &Region<'a>,
) -> Result<Vec<Region<'a>>, AllocError>
    requires { IsOf basis.now region.now }
    ensures regions { IfOk result (λ left. regions_of left.items
        ≡ filter (is_open basis.now) (by_choice name (region_of region.now))) }
    ensures of { IfOk result (λ left. AreOf basis.now left.items) }
{
    let runs = region.runs(name.hart);
    let numbers = choices(alloc, runs, name.at)?;
    let mut left = Vec::new(alloc);
    for number in &numbers {
        let kept = choosing(alloc, runs, name.at, *number)?;
        add_open(basis, &mut left, keep(alloc, region, name.hart, kept)?)?;
    }
    Ok(left)
}

/// The runs in which the load agrees with a store of its own hart.
fn keep_within<'a>(
    alloc: Global,
    load: OperationName,
    region: &Region<'a>,
    store: OperationName,
) -> Result<Region<'a>, AllocError>
    ensures region { IfOk result (λ smaller. region_of smaller
        ≡ keep load.hart (λ run. agree run load run store) (region_of region.now)) }
    ensures of { (t : Test) → IsOf t region.now → IfOk result (IsOf t) }
{
    let kept = agreeing_alone(alloc, region.runs(load.hart), load, store)?;
    let smaller = keep(alloc, region, load.hart, kept)?;
    Ok(smaller)
}

/// The runs of both harts in which the load agrees with the store in some run of the other: where no store does, no
/// load is looked at, and none is given, as that hart would have no run left.
fn keep_between<'a>(
    alloc: Global,
    basis: &Basis,
    load: OperationName,
    region: &Region<'a>,
    store: OperationName,
    loaded: &[(u32, u32)],
) -> Result<Option<Region<'a>>, AllocError>
    requires other { store.hart ≢ load.hart }
    requires loaded { ArePairs Load load.at ((region_of region.now).runs load.hart) loaded.now }
    ensures some { IfOk result (λ found. IfSome found (λ smaller.
        with_source load (From store) (region_of smaller) ≡ from_store load (region_of region.now) store)) }
    ensures none { IfOk result (λ found. IfNone found
        (is_open basis.now (from_store load (region_of region.now) store) ≡ false)) }
    ensures of { (t : Test) → IsOf t region.now → IfOk result (λ found. IfSome found (IsOf t)) }
{
    let loading = region.runs(load.hart);
    let storing = region.runs(store.hart);
    let stores = agreeing_stores(alloc, storing, store, loaded)?;
    if stores.is_empty() && basis.is_hart(store.hart) {
        return Ok(None);
    }
    let loads = agreeing_loads(alloc, loading, load, stores.as_slice(), store)?;
    let smaller = keep(alloc, region, store.hart, stores)?;
    let smallest = keep(alloc, &smaller, load.hart, loads)?;
    Ok(Some(smallest))
}

/// The runs in which the load agrees with the store. None where no run of the store's hart would be left.
fn keep_agreeing<'a>(
    alloc: Global,
    basis: &Basis,
    load: OperationName,
    region: &Region<'a>,
    store: OperationName,
    loaded: &[(u32, u32)],
) -> Result<Option<Region<'a>>, AllocError>
    requires { ArePairs Load load.at ((region_of region.now).runs load.hart) loaded.now }
    ensures some { IfOk result (λ found. IfSome found (λ smaller.
        with_source load (From store) (region_of smaller) ≡ from_store load (region_of region.now) store)) }
    ensures none { IfOk result (λ found. IfNone found
        (is_open basis.now (from_store load (region_of region.now) store) ≡ false)) }
    ensures of { (t : Test) → IsOf t region.now → IfOk result (λ found. IfSome found (IsOf t)) }
{
    if store.hart == load.hart {
        let smaller = keep_within(alloc, load, region, store)?;
        Ok(Some(smaller))
    } else {
        keep_between(alloc, basis, load, region, store, loaded)
    }
}

/// The load returns from this store. None where no run of the store's hart would be left.
fn from_store<'a>(
    alloc: Global,
    basis: &Basis,
    load: OperationName,
    region: &Region<'a>,
    store: OperationName,
    loaded: &[(u32, u32)],
) -> Result<Option<Region<'a>>, AllocError>
    requires { ArePairs Load load.at ((region_of region.now).runs load.hart) loaded.now }
    ensures some { IfOk result (λ found. IfSome found (λ smaller.
        region_of smaller ≡ from_store load (region_of region.now) store)) }
    ensures none { IfOk result (λ found. IfNone found
        (is_open basis.now (from_store load (region_of region.now) store) ≡ false)) }
    ensures of { (t : Test) → IsOf t region.now → IfOk result (λ found. IfSome found (IsOf t)) }
{
    match keep_agreeing(alloc, basis, load, region, store, loaded)? {
        Some(smaller) => {
            let sourced = smaller.with_source(alloc, load, Source::From(store))?;
            Ok(Some(sourced))
        }
        None => Ok(None),
    }
}

/// The load returns from the initial store of its location.
fn from_initial<'a>(
    alloc: Global,
    basis: &Basis,
    load: OperationName,
    region: &Region<'a>,
) -> Result<Region<'a>, AllocError>
    ensures region { IfOk result (λ smaller. region_of smaller ≡ from_initial basis.now load (region_of region.now)) }
    ensures of { (t : Test) → IsOf t region.now → IfOk result (IsOf t) }
{
    let kept = loading_initial(alloc, basis, region.runs(load.hart), load)?;
    let smaller = keep(alloc, region, load.hart, kept)?;
    let sourced = smaller.with_source(alloc, load, Source::Initial)?;
    Ok(sourced)
}

/// The load isn't executed.
fn from_nothing<'a>(
    alloc: Global,
    load: OperationName,
    region: &Region<'a>,
) -> Result<Region<'a>, AllocError>
    ensures region { IfOk result (λ smaller. region_of smaller ≡ from_nothing load (region_of region.now)) }
    ensures of { (t : Test) → IsOf t region.now → IfOk result (IsOf t) }
{
    let kept = not_loading(alloc, region.runs(load.hart), load.at)?;
    let smaller = keep(alloc, region, load.hart, kept)?;
    Ok(smaller)
}

/// The load, which has these pairs, returns from this source. None where no run of the source's hart would be left.
fn from_source<'a>(
    alloc: Global,
    basis: &Basis,
    load: OperationName,
    region: &Region<'a>,
    source: &Source,
    loaded: &[(u32, u32)],
) -> Result<Option<Region<'a>>, AllocError>
    requires { ArePairs Load load.at ((region_of region.now).runs load.hart) loaded.now }
    ensures some { IfOk result (λ found. IfSome found (λ smaller.
        region_of smaller ≡ from_source basis.now load (region_of region.now) (source_of source.now))) }
    ensures none { IfOk result (λ found. IfNone found
        (is_open basis.now (from_source basis.now load (region_of region.now) (source_of source.now)) ≡ false)) }
    ensures of { (t : Test) → IsOf t region.now → IfOk result (λ found. IfSome found (IsOf t)) }
{
    match source {
        Source::Initial => Ok(Some(from_initial(alloc, basis, load, region)?)),
        Source::From(store) => from_store(alloc, basis, load, region, *store, loaded),
    }
}

fn is_same_source(source: Source, other: Source) -> bool
    ensures { result ≡ same_source (source_of source) (source_of other) }
{
    match (source, other) {
        (Source::Initial, Source::Initial) => true,
        (Source::From(store), Source::From(other)) => is_same_name(store, other),
        _ => false,
    }
}

/// Is the source the one that is known, if one is?
fn is_left(known: Option<Source>, source: Source) -> bool
    ensures { result ≡ is_left (known_source known) (source_of source) }
{
    match known {
        Some(known) => is_same_source(known, source),
        None => true,
    }
}

/// Is the store of another hart, or before the load?
fn can_be_source(load: OperationName, store: OperationName) -> bool
    ensures { result ≡ can_be_source load store }
{
    store.hart != load.hart || store.at < load.at
}

/// Puts the source behind those that are there, if it may be the load's.
fn add_left(
    sources: &mut Vec<Source>,
    known: Option<Source>,
    source: Source,
) -> Result<(), AllocError>
    ensures { OnOk result (map source_of sources.new.items
        ≡ map source_of sources.old.items ++ filter (is_left (known_source known)) (source_of source ∷ [])) }
{
    if is_left(known, source) {
        sources.push(source)?;
    }
    Ok(())
}

/// Puts the store behind those that are there, if it may be the load's source.
fn add_store(
    sources: &mut Vec<Source>,
    load: OperationName,
    known: Option<Source>,
    store: &OperationName,
) -> Result<(), AllocError>
    ensures { OnOk result (map source_of sources.new.items ≡ map source_of sources.old.items
        ++ filter (is_left (known_source known)) (map From (filter (can_be_source load) (store.now ∷ [])))) }
{
    if can_be_source(load, *store) {
        add_left(sources, known, Source::From(*store))?;
    }
    Ok(())
}

/// The sources from which the load may return.
fn sources_for(
    alloc: Global,
    basis: &Basis,
    load: OperationName,
    region: &Region<'_>,
) -> Result<Vec<Source>, AllocError>
    ensures { IfOk result (λ sources. map source_of sources.items
        ≡ sources_for basis.now load (region_of region.now)) }
{
    let known = region.source(load);
    let mut sources = Vec::new(alloc);
    add_left(&mut sources, known, Source::Initial)?;
    for store in basis.names() {
        add_store(&mut sources, load, known, store)?;
    }
    Ok(sources)
}

/// A region for each source of the load, and one where it isn't executed. In time of the runs of its hart and of the
/// source's, for each of the sources, beside a sort of the source's where it is of another hart, and one of the load's.
pub fn by_source<'a>(
    alloc: Global,
    basis: &Basis,
    load: OperationName,
    region: &Region<'a>,
) -> Result<Vec<Region<'a>>, AllocError>
    requires { IsOf basis.now region.now }
    ensures regions { IfOk result (λ left. regions_of left.items
        ≡ filter (is_open basis.now) (by_source basis.now load (region_of region.now))) }
    ensures of { IfOk result (λ left. AreOf basis.now left.items) }
{
    let sources = sources_for(alloc, basis, load, region)?;
    let loaded = pairs(alloc, region.runs(load.hart), Access::Load, load.at)?;
    let mut left = Vec::new(alloc);
    add_open(basis, &mut left, from_nothing(alloc, load, region)?)?;
    for source in &sources {
        let found = from_source(alloc, basis, load, region, source, &loaded)?;
        add_found(basis, &mut left, found)?;
    }
    Ok(left)
}

/// The first store is the earlier one, or the second is. In time of the orders that are known.
pub fn by_order<'a>(
    alloc: Global,
    basis: &Basis,
    first: OperationName,
    second: OperationName,
    region: &Region<'a>,
) -> Result<Vec<Region<'a>>, AllocError>
    requires { IsOf basis.now region.now }
    ensures regions { IfOk result (λ left. regions_of left.items
        ≡ filter (is_open basis.now) (by_order first second (region_of region.now))) }
    ensures of { IfOk result (λ left. AreOf basis.now left.items) }
{
    let mut left = Vec::new(alloc);
    add_open(basis, &mut left, region.with_order(alloc, first, second)?)?;
    add_open(basis, &mut left, region.with_order(alloc, second, first)?)?;
    Ok(left)
}

/// Has the condition parts?
fn has_parts(condition: &Outcome, truth: bool) -> bool
    ensures { result ≡ nat_lt 0 (length (ways (condition_of condition.now) truth)) }
{
    match condition {
        Outcome::Deny(_) | Outcome::Both(_, _) | Outcome::Either(_, _) => {
            let _truth = truth;
            true
        }
        _ => false,
    }
}

/// Is there a condition of this number that is wanted, and has it parts?
pub fn has_cases(region: &Region<'_>, number: usize) -> bool
    ensures { result ≡ nat_lt 0 (length (ways_of (slice_get (region_of region.now).wanted number))) }
{
    match region.wanted.get(number) {
        Some(wanted) => has_parts(wanted.condition, wanted.truth),
        None => false,
    }
}

/// Wanted conditions, one or two.
fn one<'a>(
    alloc: Global,
    condition: &'a Outcome,
    truth: bool,
) -> Result<List<Wanted<'a>>, AllocError>
    ensures { IfOk result (λ way. all_wanted way ≡ (condition_of condition.now, truth) ∷ []) }
{
    let mut way = Vec::new(alloc);
    way.push(Wanted { condition, truth })?;
    Ok(List::new(way))
}

fn two<'a>(
    alloc: Global,
    left: &'a Outcome,
    right: &'a Outcome,
    truth: bool,
) -> Result<List<Wanted<'a>>, AllocError>
    ensures { IfOk result (λ way. all_wanted way
        ≡ (condition_of left.now, truth) ∷ (condition_of right.now, truth) ∷ []) }
{
    let mut way = Vec::new(alloc);
    way.push(Wanted {
        condition: left,
        truth,
    })?;
    way.push(Wanted {
        condition: right,
        truth,
    })?;
    Ok(List::new(way))
}

/// The ways of two parts: both at once, or one or the other.
fn ways_of_two<'a>(
    alloc: Global,
    left: &'a Outcome,
    right: &'a Outcome,
    truth: bool,
    at_once: bool,
) -> Result<Vec<List<Wanted<'a>>>, AllocError>
    ensures { IfOk result (λ found. map all_wanted found.items ≡ (if at_once
        then ((condition_of left.now, truth) ∷ (condition_of right.now, truth) ∷ []) ∷ []
        else ((condition_of left.now, truth) ∷ []) ∷ ((condition_of right.now, truth) ∷ []) ∷ [])) }
{
    let mut found = Vec::new(alloc);
    if at_once {
        found.push(two(alloc, left, right, truth)?)?;
    } else {
        found.push(one(alloc, left, truth)?)?;
        found.push(one(alloc, right, truth)?)?;
    }
    Ok(found)
}

/// The ways in which its parts give the condition this truth value.
fn ways<'a>(
    alloc: Global,
    condition: &'a Outcome,
    truth: bool,
) -> Result<Vec<List<Wanted<'a>>>, AllocError>
    ensures { IfOk result (λ found. map all_wanted found.items ≡ ways (condition_of condition.now) truth) }
{
    match condition {
        Outcome::Deny(denied) => ways_of_one(alloc, denied, !truth),
        Outcome::Both(left, right) => ways_of_two(alloc, left, right, truth, truth),
        Outcome::Either(left, right) => ways_of_two(alloc, left, right, truth, !truth),
        _ => Ok(Vec::new(alloc)),
    }
}

fn ways_of_one<'a>(
    alloc: Global,
    part: &'a Outcome,
    truth: bool,
) -> Result<Vec<List<Wanted<'a>>>, AllocError>
    ensures { IfOk result (λ found. map all_wanted found.items ≡ ((condition_of part.now, truth) ∷ []) ∷ []) }
{
    let mut found = Vec::new(alloc);
    found.push(one(alloc, part, truth)?)?;
    Ok(found)
}

/// The wanted conditions with these in the place of the one of this number.
fn replace<'a>(
    alloc: Global,
    wanted: &[Wanted<'a>],
    number: usize,
    way: &[Wanted<'a>],
) -> Result<List<Wanted<'a>>, AllocError>
    requires { number < length wanted.now }
    ensures { IfOk result (λ others. others ≡ take number wanted.now ++ way.now ++ drop (number + 1) wanted.now) }
{
    let mut others = Vec::new(alloc);
    others.extend_from_slice(&wanted[..number])?;
    others.extend_from_slice(way)?;
    others.extend_from_slice(&wanted[number + 1..])?;
    Ok(List::new(others))
}

/// The cases of the wanted condition of this number. In time of the conditions that are wanted.
pub fn by_cases<'a>(
    alloc: Global,
    basis: &Basis,
    number: usize,
    region: &Region<'a>,
) -> Result<Vec<Region<'a>>, AllocError>
    requires { IsOf basis.now region.now }
    ensures regions { IfOk result (λ left. regions_of left.items
        ≡ filter (is_open basis.now) (by_cases number (region_of region.now))) }
    ensures of { IfOk result (λ left. AreOf basis.now left.items) }
{
    let mut left = Vec::new(alloc);
    let wanted = region.wanted.as_slice();
    let Some(parted) = wanted.get(number) else {
        return Ok(left);
    };
    for way in &ways(alloc, parted.condition, parted.truth)? {
        let others = replace(alloc, wanted, number, way.as_slice())?;
        add_open(basis, &mut left, region.with_wanted(alloc, others)?)?;
    }
    Ok(left)
}

/// Is the run of this number marked?
fn mark_at(marks: &[bool], number: usize) -> bool
    ensures { result ≡ unwrap_or (slice_get marks.now number) false }
{
    marks.get(number).copied().unwrap_or(false)
}

/// Those of the runs that are marked.
fn marked<'a>(alloc: Global, runs: &[&'a Lone], marks: &[bool]) -> Result<Runs<'a>, AllocError>
    ensures { (test : List Step → Bool) → marks.now ≡ map test (runs_of runs.now)
        → IfOk result (λ kept. kept ≡ filter (λ run. test run.now.steps) runs.now) }
{
    let mut kept = Vec::new(alloc);
    for (number, run) in runs.iter().enumerate() {
        push_if(&mut kept, run, mark_at(marks, number))?;
    }
    Ok(List::new(kept))
}

/// The hart's runs with each of which every wanted condition may have its truth value. An atom of a condition takes the
/// runs of a hart times its names, for each of the harts once.
pub fn by_outcome<'a>(
    alloc: Global,
    basis: &Basis,
    hart: u8,
    region: &Region<'a>,
) -> Result<Vec<Region<'a>>, AllocError>
    requires { IsOf basis.now region.now }
    ensures regions { IfOk result (λ left. regions_of left.items
        ≡ filter (is_open basis.now) (by_outcome basis.now hart (region_of region.now))) }
    ensures of { IfOk result (λ left. AreOf basis.now left.items) }
{
    let marks = may_all_each(alloc, basis, region, hart)?;
    let kept = marked(alloc, region.runs(hart), &marks)?;
    let mut left = Vec::new(alloc);
    add_open(basis, &mut left, keep(alloc, region, hart, kept)?)?;
    Ok(left)
}
