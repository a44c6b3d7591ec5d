//! Regions: what is known of the candidates that are in one.

ghost use Rattle.std.specs.Prelude.{◌≡◌, ◌≢◌, ◌≤◌, ◌<◌, ◌∷◌, ℕ, length, slice_set, IfOk};
ghost use Rattle.fs_kinds.specs.declared.reason.OperationName.{OperationName as Name};
ghost use Rattle.fs_model.specs.declared.test.Test.{Test};
ghost use Rattle.fs_cert_evidence.specs.Splits.{with_source, with_order, with_wanted};
ghost use Rattle.fs_region_refutation.specs.Alone.{source_of};
ghost use Rattle.fs_region_refutation.specs.Views.{region_of, known_source, runs_of, all_wanted, with_runs, source_in};
ghost use Rattle.fs_region_refutation.specs.Views.{Shares, source_after, lists_in, list_at, IsOf, AreRunsOf};

use crate::lone::Lone;
use crate::musts::is_same_name;
use crate::source::Source;
use fs_kinds::{List, OperationName};
use fs_model::Outcome;
use std::alloc::{AllocError, Global};
use std::sync::Arc;

// A load, and what it returns from.
#[derive(Clone, Copy)]
pub(crate) struct Sourced {
    pub(crate) load: OperationName,
    pub(crate) source: Source,
}

// Two stores, the first earlier in coherence order.
#[derive(Clone, Copy)]
pub(crate) struct Ordered {
    pub(crate) first: OperationName,
    pub(crate) second: OperationName,
}

// A condition, and the truth value that it is to have.
#[derive(Clone, Copy)]
pub(crate) struct Wanted<'a> {
    pub(crate) condition: &'a Outcome,
    pub(crate) truth: bool,
}

// Runs of one hart.
pub(crate) type Runs<'a> = List<&'a Lone>;

/// The candidates with these runs, sources, orders and truth values. Regions share their lists, so that one which is
/// made of another takes the memory of what it changes.
#[derive(Drop)]
pub struct Region<'a> {
    pub(crate) runs: Vec<Arc<Runs<'a>>>,
    pub(crate) sources: Arc<List<Sourced>>,
    pub(crate) orders: Arc<List<Ordered>>,
    pub(crate) wanted: Arc<List<Wanted<'a>>>,
}

impl<'a> Region<'a> {
    /// The runs of the hart that are left; none where it is no hart.
    pub fn runs(&self, hart: u8) -> &[&'a Lone]
        ensures { result.now ≡ list_at self.now hart }
    {
        if usize::from(hart) < self.runs.len() {
            let runs: &Runs<'a> = &self.runs[usize::from(hart)];
            runs.as_slice()
        } else {
            &[]
        }
    }

    /// What the load returns from, where it is known. In time of the sources that are known.
    pub fn source(&self, load: OperationName) -> Option<Source>
        ensures { known_source result ≡ (region_of self.now).source load }
    {
        for known in self.sources.iter() {
            if is_same_name(load, known.load) {
                return Some(known.source);
            }
        }
        None
    }

    /// Is the first store known to be the earlier one? In time of the orders that are known.
    pub fn is_before(&self, first: OperationName, second: OperationName) -> bool
        ensures { result ≡ (region_of self.now).before first second }
    {
        for known in self.orders.iter() {
            if is_same_name(first, known.first) && is_same_name(second, known.second) {
                return true;
            }
        }
        false
    }

    /// The same region, which shares its lists.
    pub(crate) fn shared(&self, alloc: Global) -> Result<Region<'a>, AllocError>
        ensures lists { IfOk result (λ region. lists_in region.runs.items ≡ lists_in self.now.runs.items) }
        ensures rest { IfOk result (Shares self.now) }
        ensures region { IfOk result (λ region. region_of region ≡ region_of self.now) }
        ensures of { (t : Test) → IsOf t self.now → IfOk result (IsOf t) }
    {
        Ok(Region {
            runs: share(alloc, &self.runs)?,
            sources: Arc::try_clone(&self.sources)?,
            orders: Arc::try_clone(&self.orders)?,
            wanted: Arc::try_clone(&self.wanted)?,
        })
    }

    /// The region with these runs of the hart, where it is one.
    pub(crate) fn with_runs(
        &self,
        alloc: Global,
        hart: u8,
        runs: Runs<'a>,
    ) -> Result<Region<'a>, AllocError>
        ensures hart { hart < length self.now.runs.items
            → IfOk result (λ region. region_of region ≡ with_runs hart (runs_of runs.entry) (region_of self.now)) }
        ensures past { length self.now.runs.items ≤ hart
            → IfOk result (λ region. region_of region ≡ region_of self.now) }
        ensures others { (h : ℕ) → h ≢ hart → IfOk result (λ region. list_at region h ≡ list_at self.now h) }
        ensures of { (t : Test) → IsOf t self.now → AreRunsOf t hart runs.entry → IfOk result (IsOf t) }
    {
        let runs = Arc::new(alloc, runs)?;
        let mut region = self.shared(alloc)?;
        set(&mut region.runs, hart, runs);
        Ok(region)
    }

    /// The region where the load returns from this source.
    pub(crate) fn with_source(
        mut self,
        alloc: Global,
        load: OperationName,
        source: Source,
    ) -> Result<Region<'a>, AllocError>
        ensures region { IfOk result (λ region. region_of region
            ≡ with_source load (source_of source) (region_of self.entry)) }
        ensures of { (t : Test) → IsOf t self.entry → IfOk result (IsOf t) }
    {
        let sources = put(alloc, self.sources.as_slice(), load, source)?;
        self.sources = Arc::new(alloc, sources)?;
        Ok(self)
    }

    /// The region where the first store is the earlier one.
    pub(crate) fn with_order(
        &self,
        alloc: Global,
        first: OperationName,
        second: OperationName,
    ) -> Result<Region<'a>, AllocError>
        ensures region { IfOk result (λ region. region_of region ≡ with_order first second (region_of self.now)) }
        ensures of { (t : Test) → IsOf t self.now → IfOk result (IsOf t) }
    {
        let orders = and_before(alloc, self.orders.as_slice(), first, second)?;
        let mut region = self.shared(alloc)?;
        region.orders = Arc::new(alloc, orders)?;
        Ok(region)
    }

    /// The region where these conditions are wanted.
    pub(crate) fn with_wanted(
        &self,
        alloc: Global,
        wanted: List<Wanted<'a>>,
    ) -> Result<Region<'a>, AllocError>
        ensures region { IfOk result (λ region. region_of region
            ≡ with_wanted (all_wanted wanted.entry) (region_of self.now)) }
        ensures of { (t : Test) → IsOf t self.now → IfOk result (IsOf t) }
    {
        let mut region = self.shared(alloc)?;
        region.wanted = Arc::new(alloc, wanted)?;
        Ok(region)
    }
}

/// The same lists, shared.
fn share<'a>(alloc: Global, runs: &[Arc<Runs<'a>>]) -> Result<Vec<Arc<Runs<'a>>>, AllocError>
    ensures { IfOk result (λ shared. lists_in shared.items ≡ lists_in runs.now) }
{
    let mut shared = Vec::new(alloc);
    for list in runs {
        shared.push(Arc::try_clone(list)?)?;
    }
    Ok(shared)
}

/// Puts the list in the place of the hart's, where it is a hart.
fn set<'a>(lists: &mut Vec<Arc<Runs<'a>>>, hart: u8, runs: Arc<Runs<'a>>)
    ensures { lists.new.items ≡ slice_set lists.old.items hart runs.entry }
{
    if usize::from(hart) < lists.len() {
        lists[usize::from(hart)] = runs;
    }
}

/// The sources with this one of the load, in the place of another one.
fn put(
    alloc: Global,
    sources: &[Sourced],
    load: OperationName,
    source: Source,
) -> Result<List<Sourced>, AllocError>
    ensures { IfOk result (λ all. (name : Name) → source_in all name
        ≡ source_after load (source_of source) sources.now name) }
{
    let others: Vec<Sourced> = sources
        .iter()
        .copied()
        .filter(|known| !is_same_name(known.load, load))
        .collect(alloc)?;
    let mut all = Vec::new(alloc);
    all.push(Sourced { load, source })?;
    all.extend_from_slice(&others)?;
    Ok(List::new(all))
}

/// The orders, and before them this one.
fn and_before(
    alloc: Global,
    orders: &[Ordered],
    first: OperationName,
    second: OperationName,
) -> Result<List<Ordered>, AllocError>
    ensures { IfOk result (λ all. all ≡ record { first = first; second = second } ∷ orders.now) }
{
    let mut all = Vec::new(alloc);
    all.push(Ordered { first, second })?;
    all.extend_from_slice(orders)?;
    Ok(List::new(all))
}
