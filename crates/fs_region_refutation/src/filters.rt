//! Runs of a hart that pass a test.

ghost use Rattle.std.specs.Prelude.{◌≡◌, ◌==◌, ◌&&◌, ◌++◌, ◌∷◌, [], not, List, filter, Some, if◌then◌else◌, IfOk, OnOk};
ghost use Rattle.std.specs.List.{list_any, filter_map};
ghost use Rattle.std.specs.List.Sorted.{IsSorted};
ghost use Rattle.fs_kinds.specs.declared.reason.OperationName.{OperationName as Name};
ghost use Rattle.fs_model.specs.declared.step.Step.{Step};
ghost use Rattle.fs_model.specs.Test.{address_of};
ghost use Rattle.fs_cert_evidence.specs.Regions.{address_at, loaded_at, loads_at};
ghost use Rattle.fs_cert_evidence.specs.Splits.{chosen_at, agree, agrees_initially};
ghost use Rattle.fs_model.specs.Numbers.{is_same};
ghost use Rattle.fs_region_refutation.specs.declared.musts.Access.TheVariants.{Load};
ghost use Rattle.fs_region_refutation.specs.Views.{runs_of};
ghost use Rattle.fs_region_refutation.specs.inner.Pairs.{both, pair_at, is_among, by_pair, ArePairs};

use crate::basis::Basis;
use crate::lone::Lone;
use crate::musts::{Access, accessed};
use crate::region::Runs;
use fs_kinds::{List, OperationName};
use fs_model::Location;
use std::alloc::{AllocError, Global};

/// Those that make the choice of this number at the position.
pub(crate) fn choosing<'a>(
    alloc: Global,
    runs: &[&'a Lone],
    at: u8,
    number: u64,
) -> Result<Runs<'a>, AllocError>
    ensures { IfOk result (λ kept. kept ≡ filter (λ run. chosen_at at run.now.steps == number) runs.now) }
{
    let kept = runs
        .iter()
        .copied()
        .filter(|run| run.chosen_at(at) == number)
        .collect(alloc)?;
    Ok(List::new(kept))
}

/// Those that load nothing at the position.
pub(crate) fn not_loading<'a>(
    alloc: Global,
    runs: &[&'a Lone],
    at: u8,
) -> Result<Runs<'a>, AllocError>
    ensures { IfOk result (λ kept. kept ≡ filter (λ run. not (loads_at run.now.steps at)) runs.now) }
{
    let kept = runs
        .iter()
        .copied()
        .filter(|run| !run.loads_at(at))
        .collect(alloc)?;
    Ok(List::new(kept))
}

/// Both are there, and the same.
pub(crate) fn is_same(word: Option<u32>, other: Option<u32>) -> bool
    ensures { result ≡ is_same word other }
{
    match (word, other) {
        (Some(word), Some(other)) => word == other,
        _ => false,
    }
}

/// Does the run load this word from the location?
fn loads_from(run: &Lone, load: OperationName, location: u8, word: u32) -> bool
    ensures { result ≡ (is_same (address_at run.now.steps load.at) (Some (address_of location))
        && is_same (loaded_at run.now.steps load.at) (Some word)) }
{
    let doing = run.doing_at(load.at);
    is_same(doing.address, Some(Location::address(location))) && is_same(doing.loaded, Some(word))
}

/// Does the run load the word that its location begins with?
fn agrees_initially(basis: &Basis, load: OperationName, run: &Lone) -> bool
    ensures { result ≡ agrees_initially basis.now load run.now.steps }
{
    for (number, location) in basis.test().locations.as_slice().iter().enumerate() {
        if loads_from(run, load, number as u8, location.word) {
            return true;
        }
    }
    false
}

/// Those that load the word that its location begins with.
pub(crate) fn loading_initial<'a>(
    alloc: Global,
    basis: &Basis,
    runs: &[&'a Lone],
    load: OperationName,
) -> Result<Runs<'a>, AllocError>
    ensures { IfOk result (λ kept. kept ≡ filter (λ run. agrees_initially basis.now load run.now.steps) runs.now) }
{
    let kept = runs
        .iter()
        .copied()
        .filter(|run| agrees_initially(basis, load, run))
        .collect(alloc)?;
    Ok(List::new(kept))
}

/// Does the load of one run have the address and the word of the store of the other?
fn agree(run: &Lone, load: OperationName, other: &Lone, store: OperationName) -> bool
    ensures { result ≡ agree run.now.steps load other.now.steps store }
{
    let (loading, storing) = (run.doing_at(load.at), other.doing_at(store.at));
    is_same(loading.address, storing.address) && is_same(loading.loaded, storing.stored)
}

/// An address and a word, if both are there.
fn both(address: Option<u32>, word: Option<u32>) -> Option<(u32, u32)>
    ensures { result ≡ both address word }
{
    Some((address?, word?))
}

/// The address and the word of the run's access at the position.
fn pair_at(run: &Lone, access: Access, at: u8) -> Option<(u32, u32)>
    ensures { result ≡ pair_at access at run.now.steps }
{
    let (address, word) = accessed(run, access, at);
    both(address, word)
}

/// The addresses and words of the runs' accesses at the position.
fn listed(
    alloc: Global,
    runs: &[&Lone],
    access: Access,
    at: u8,
) -> Result<Vec<(u32, u32)>, AllocError>
    ensures { IfOk result (λ pairs. pairs.items ≡ filter_map (λ run. pair_at access at run.now.steps) runs.now) }
{
    runs.iter()
        .filter_map(|run| pair_at(run, access, at))
        .collect(alloc)
}

/// The same, each once and in order. Neighbours mostly have one pair: so there are few to sort.
pub(crate) fn pairs(
    alloc: Global,
    runs: &[&Lone],
    access: Access,
    at: u8,
) -> Result<Vec<(u32, u32)>, AllocError>
    ensures { IfOk result (λ pairs. ArePairs access at (runs_of runs.now) pairs.items) }
{
    let mut pairs = listed(alloc, runs, access, at)?;
    pairs.dedup();
    pairs.sort()?;
    pairs.dedup();
    Ok(pairs)
}

/// Is the pair there, and among these? By halving.
fn is_among(pairs: &[(u32, u32)], pair: Option<(u32, u32)>) -> bool
    ensures { IsSorted by_pair pairs.now → result ≡ is_among pairs.now pair }
{
    match pair {
        Some(pair) => pairs.binary_search(&pair).is_ok(),
        None => false,
    }
}

/// The same, where it's known whether the last pair is: neighbours mostly have one pair.
fn is_among_after(
    pairs: &[(u32, u32)],
    pair: Option<(u32, u32)>,
    last: Option<(u32, u32)>,
    was_among: bool,
) -> bool
    requires sorted { IsSorted by_pair pairs.now }
    requires last { was_among ≡ is_among pairs.now last }
    ensures { result ≡ is_among pairs.now pair }
{
    match (pair, last) {
        (Some(one), Some(other)) if one == other => was_among,
        _ => is_among(pairs, pair),
    }
}

/// Puts the run behind those that are there, if it passes.
pub(crate) fn push_if<'a>(
    runs: &mut Vec<&'a Lone>,
    run: &&'a Lone,
    passes: bool,
) -> Result<(), AllocError>
    ensures { OnOk result (runs.new.items ≡ runs.old.items ++ (if passes then run.now ∷ [] else [])) }
{
    if passes {
        runs.push(*run)?;
    }
    Ok(())
}

/// Those whose access at the position has one of the pairs. In constant time where there is none.
fn keep_among<'a>(
    alloc: Global,
    runs: &[&'a Lone],
    access: Access,
    at: u8,
    pairs: &[(u32, u32)],
) -> Result<Runs<'a>, AllocError>
    requires { IsSorted by_pair pairs.now }
    ensures { IfOk result (λ kept.
        kept ≡ filter (λ run. is_among pairs.now (pair_at access at run.now.steps)) runs.now) }
{
    if pairs.is_empty() {
        return Ok(List::new(Vec::new(alloc)));
    }
    let mut kept = Vec::new(alloc);
    let mut last = None;
    let mut among = false;
    for run in runs {
        let pair = pair_at(run, access, at);
        among = is_among_after(pairs, pair, last, among);
        last = pair;
        push_if(&mut kept, run, among)?;
    }
    Ok(List::new(kept))
}

/// Those whose load agrees with their own store.
pub(crate) fn agreeing_alone<'a>(
    alloc: Global,
    runs: &[&'a Lone],
    load: OperationName,
    store: OperationName,
) -> Result<Runs<'a>, AllocError>
    ensures { IfOk result (λ kept. kept ≡ filter (λ run. agree run.now.steps load run.now.steps store) runs.now) }
{
    let kept = runs
        .iter()
        .copied()
        .filter(|run| agree(run, load, run, store))
        .collect(alloc)?;
    Ok(List::new(kept))
}

/// Those whose load agrees with the store of some of the others.
pub(crate) fn agreeing_loads<'a>(
    alloc: Global,
    runs: &[&'a Lone],
    load: OperationName,
    others: &[&Lone],
    store: OperationName,
) -> Result<Runs<'a>, AllocError>
    ensures { IfOk result (λ kept.
        kept ≡ filter (λ run. list_any (λ other. agree run.now.steps load other store) (runs_of others.now)) runs.now) }
{
    let pairs = pairs(alloc, others, Access::Store, store.at)?;
    let kept = keep_among(alloc, runs, Access::Load, load.at, &pairs)?;
    Ok(kept)
}

/// Those whose store agrees with the load of some of others, whose loads have these pairs.
pub(crate) fn agreeing_stores<'a>(
    alloc: Global,
    runs: &[&'a Lone],
    store: OperationName,
    loaded: &[(u32, u32)],
) -> Result<Runs<'a>, AllocError>
    requires { IsSorted by_pair loaded.now }
    ensures { (load : Name) → (others : List (List Step)) → ArePairs Load load.at others loaded.now
        → IfOk result (λ kept. kept
        ≡ filter (λ run. list_any (λ other. agree other load run.now.steps store) others) runs.now) }
{
    let kept = keep_among(alloc, runs, Access::Store, store.at, loaded)?;
    Ok(kept)
}
