//! Runs of each hart with all that their raw candidates are made of.

ghost use Rattle.std.specs.Prelude.{◌≡◌, ◌&&◌, ℕ, Option, List, IfOk, IsOkUnless};
ghost use Rattle.fs_kinds.specs.declared.fault.Fault.TheVariants.{Memory};
ghost use Rattle.fs_model.specs.Test.{IsBounded};
ghost use Rattle.fs_hart.specs.Steps.{steps_in};
ghost use Rattle.fs_cand_listing.specs.RawCandidates.{candidate};
ghost use Rattle.fs_cand_listing.specs.ShowingTests.{has_outcome, shows};
ghost use Rattle.fs_cand_listing.specs.inner.Places.{CanBePrepared, IsPrepared};
ghost use Rattle.fs_cand_listing.specs.inner.Tested.{any_pair_among, all_coherent_among, all_atomic_among};

use crate::atomicity::{any_pair, are_atomic};
use crate::choices::Choices;
use crate::coherence::are_coherent;
use crate::shown_outcome::has_outcome;
use fs_hart::{Operations, Trace, operations};
use fs_kinds::{Fault, List};
use fs_model::Test;
use std::alloc::Global;

/// Runs of each hart, their operations, and what may be chosen with them.
#[derive(Drop)]
pub(crate) struct Prepared {
    pub(crate) traces: List<Trace>,
    pub(crate) operations: Operations,
    pub(crate) choices: Choices,
    // Is there a pair of an lr.w and an sc.w?
    pub(crate) has_pairs: bool,
}

impl Prepared {
    /// What the raw candidates with these runs are made of. The square of the operations.
    pub(crate) fn of(alloc: Global, test: &Test, traces: List<Trace>) -> Result<Prepared, Fault>
        requires test { IsBounded test.now }
        requires runs { CanBePrepared test.now traces }
        ensures runs { IfOk result (λ p. p.traces ≡ traces) }
        ensures ok { IfOk result (IsPrepared test.now) }
        ensures err { IsOkUnless result Memory }
    {
        let operations = operations(alloc, test, traces.as_slice())?;
        let locations = test.locations.as_slice().len() as u8;
        let choices = Choices::of(alloc, operations.as_slice(), locations)?;
        let has_pairs = any_pair(traces.as_slice(), operations.as_slice());
        Ok(Prepared {
            traces,
            operations,
            choices,
            has_pairs,
        })
    }

    /// Do the runs with these coherence orders show the outcome?
    fn has_outcome(&self, test: &Test, orders: &[List<u8>]) -> bool
        requires { IsPrepared test.now self.now }
        ensures { (sources : List (Option ℕ)) → result
            ≡ has_outcome test.now (candidate (steps_in self.now.traces) sources orders.now) }
    {
        has_outcome(
            test,
            self.traces.as_slice(),
            self.operations.as_slice(),
            orders,
        )
    }

    /// Does each pair keep atomicity? Where there is no pair, no two operations are looked at.
    fn is_atomic(&self, sources: &[Option<u8>], orders: &[List<u8>]) -> bool
        requires { self.now.has_pairs ≡ any_pair_among (steps_in self.now.traces) self.now.operations }
        ensures { result ≡ all_atomic_among (steps_in self.now.traces) self.now.operations sources.now orders.now }
    {
        if !self.has_pairs {
            return true;
        }
        are_atomic(
            self.traces.as_slice(),
            self.operations.as_slice(),
            sources,
            orders,
        )
    }

    /// Are the sources coherent with the coherence orders, and does each pair keep atomicity?
    fn is_consistent(&self, sources: &[Option<u8>], orders: &[List<u8>]) -> bool
        requires { self.now.has_pairs ≡ any_pair_among (steps_in self.now.traces) self.now.operations }
        ensures { result ≡ (all_coherent_among self.now.operations sources.now orders.now
            && all_atomic_among (steps_in self.now.traces) self.now.operations sources.now orders.now) }
    {
        are_coherent(self.operations.as_slice(), sources, orders) && self.is_atomic(sources, orders)
    }

    /// Does the raw candidate with these sources and coherence orders show the outcome?
    pub(crate) fn shows(&self, test: &Test, sources: &[Option<u8>], orders: &[List<u8>]) -> bool
        requires { IsPrepared test.now self.now }
        ensures { result ≡ shows test.now (candidate (steps_in self.now.traces) sources.now orders.now) }
    {
        self.has_outcome(test, orders) && self.is_consistent(sources, orders)
    }
}
