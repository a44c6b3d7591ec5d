//! Candidate executions.

ghost use Rattle.std.specs.Prelude.{◌≡◌, ◌≤◌, Some, length, IfOk, IsOkUnless};
ghost use Rattle.fs_kinds.specs.Limits.{most_harts};
ghost use Rattle.fs_kinds.specs.declared.fault.Fault.TheVariants.{Memory};
ghost use Rattle.fs_model.specs.Test.{IsBounded};
ghost use Rattle.fs_model.specs.Execution.{initial_words};
ghost use Rattle.fs_model.specs.Numbers.{is_same};
ghost use Rattle.fs_cert_evidence.specs.Judged.{fr};
ghost use Rattle.fs_cert_evidence.specs.Candidates.{co};
ghost use Rattle.fs_cand.specs.Candidates.{IsMade, AreShort, candidate_of, rf};

use crate::lists::{Dependencies, Sources, StoreOrder, Traces};
use fs_hart::{Operations, operations};
use fs_kinds::Fault;
use fs_model::{Test, stands_before};
use std::alloc::Global;

/// A candidate execution: a run of each hart, a source for each load, and an order of each location's stores. It has no
/// global memory order.
///
/// Operations go by their numbers: hart by hart in program order, and then the initial stores by location.
#[derive(Drop)]
pub struct Candidate {
    /// A run of each hart.
    pub traces: Traces,
    /// The dependencies in each hart's run.
    pub deps: Dependencies,
    /// The operations of the runs, and the initial stores.
    pub operations: Operations,
    /// For each operation the one that wrote what it loads, where it loads.
    pub source: Sources,
    /// The stores of each location in order, the initial one first.
    pub store_order: StoreOrder,
}

impl Candidate {
    /// The candidate of these runs of the test's harts, sources and orders: its operations and dependencies are made of
    /// the runs, and sources and orders are taken as they are. A run of a bounded test has at most 32 steps. The error
    /// is F19.
    pub fn new(
        alloc: Global,
        test: &Test,
        traces: Traces,
        source: Sources,
        store_order: StoreOrder,
    ) -> Result<Candidate, Fault>
        requires test { IsBounded test.now }
        requires harts { length traces ≤ most_harts }
        requires steps { AreShort traces }
        ensures made { IfOk result (λ candidate. IsMade (initial_words test.now) candidate) }
        ensures traces { IfOk result (λ candidate. candidate.traces ≡ traces) }
        ensures source { IfOk result (λ candidate. candidate.source ≡ source) }
        ensures store_order { IfOk result (λ candidate. candidate.store_order ≡ store_order) }
        ensures err { IsOkUnless result Memory }
    {
        let operations = operations(alloc, test, traces.as_slice())?;
        let deps = Dependencies::of(alloc, traces.as_slice())?;
        Ok(Candidate {
            traces,
            deps,
            operations,
            source,
            store_order,
        })
    }

    /// The operation that wrote what operation a loads.
    pub fn source_of(&self, a: usize) -> Option<u8>
        ensures { result ≡ rf self.now a }
    {
        self.source.as_slice().get(a).copied().flatten()
    }

    /// Does b load what a stores?
    pub fn reads_from(&self, b: usize, a: usize) -> bool
        ensures { result ≡ is_same (rf self.now b) (Some a) }
    {
        self.source_of(b)
            .is_some_and(|store| usize::from(store) == a)
    }

    /// Does a come before b in coherence order? Linear in the stores.
    pub fn precedes_in_coherence(&self, a: usize, b: usize) -> bool
        ensures { result ≡ co (candidate_of self.now) a b }
    {
        self.store_order
            .iter()
            .any(|stores| stands_before(stores, a, b))
    }

    /// From-reads: b is another store, later in coherence order than what a returns. Linear in the stores.
    pub fn is_from_read(&self, a: usize, b: usize) -> bool
        ensures { result ≡ fr (candidate_of self.now) a b }
    {
        match self.source_of(a) {
            Some(store) => a != b && self.precedes_in_coherence(usize::from(store), b),
            None => false,
        }
    }
}
