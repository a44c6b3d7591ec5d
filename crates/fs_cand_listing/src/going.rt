//! Going over the raw candidates of given runs.

ghost use Rattle.std.specs.Prelude.{◌≡◌, ◌≤◌, ◌<◌, ◌*◌, ◌++◌, [], map, length, IfOk, OnOk, IsOkUnless};
ghost use Rattle.std.specs.List.{slice_index_or};
ghost use Rattle.fs_kinds.specs.declared.fault.Fault.TheVariants.{Memory};
ghost use Rattle.fs_model.specs.Test.{IsBounded};
ghost use Rattle.fs_model.specs.Execution.{initial_words, pre_execution};
ghost use Rattle.fs_hart.specs.Steps.{steps_in};
ghost use Rattle.fs_cert_evidence.specs.CandidateFaults.{most_candidates};
ghost use Rattle.fs_cand.specs.Candidates.{candidate_of, IsMade};
ghost use Rattle.fs_cand_listing.specs.Ways.{products, product_of_lengths, product_by};
ghost use Rattle.fs_cand_listing.specs.RawCandidates.{all_orders};
ghost use Rattle.fs_cand_listing.specs.inner.Listed.{number_of_orders};
ghost use Rattle.fs_cand_listing.specs.inner.Places.{place, count_with, numbered_with, showing_from, IsPrepared};

use crate::by_number::{push_orders, push_sources};
use crate::place::Place;
use crate::prepared::Prepared;
use fs_cand::{Candidate, StoreOrder};
use fs_kinds::{Fault, List};
use fs_model::Test;
use std::alloc::{AllocError, Global};

impl Prepared {
    /// The coherence orders of this number.
    fn orders(&self, alloc: Global, test: &Test, number: u32) -> Result<Vec<List<u8>>, AllocError>
        requires prepared { IsPrepared test.now self.now }
        requires few { product_by number_of_orders self.now.choices.stores.items ≤ most_candidates }
        requires number { number < product_by number_of_orders self.now.choices.stores.items }
        ensures { IfOk result (λ orders. orders.items
            ≡ slice_index_or (products
            (all_orders test.now (pre_execution test.now (steps_in self.now.traces)))) number []) }
    {
        let mut orders = Vec::new(alloc);
        let first = self.choices.count as u8;
        push_orders(alloc, first, &self.choices.stores, number, &mut orders)?;
        Ok(orders)
    }

    /// The sources of this number.
    fn sources(&self, alloc: Global, number: u32) -> Result<Vec<Option<u8>>, AllocError>
        requires few { product_of_lengths self.now.choices.sources.items ≤ most_candidates }
        requires number { number < product_of_lengths self.now.choices.sources.items }
        ensures { IfOk result (λ sources. sources.items
            ≡ slice_index_or (products self.now.choices.sources.items) number []) }
    {
        let mut sources = Vec::new(alloc);
        push_sources(&self.choices.sources, number, &mut sources)?;
        Ok(sources)
    }

    /// Puts the numbers of those raw candidates with the sources of the number `first` that show the outcome behind the
    /// others.
    fn add_with(
        &self,
        alloc: Global,
        test: &Test,
        runs: u32,
        first: u32,
        kept: &mut Vec<Place>,
    ) -> Result<(), AllocError>
        requires prepared { IsPrepared test.now self.now }
        requires few { count_with test.now self.now.traces ≤ most_candidates }
        requires first { first < product_of_lengths self.now.choices.sources.items }
        ensures { OnOk result (kept.new.items
            ≡ kept.old.items ++ map (place runs) (showing_from test.now self.now.traces
            (first * product_by number_of_orders self.now.choices.stores.items) (product_by number_of_orders self.now.choices.stores.items))) }
    {
        let sources = self.sources(alloc, first)?;
        let count = self.choices.count_orders();
        for second in 0..count {
            let orders = self.orders(alloc, test, second)?;
            if self.shows(test, &sources, &orders) {
                let chosen = first * count + second;
                kept.push(Place { runs, chosen })?;
            }
        }
        Ok(())
    }

    /// Puts the numbers of the raw candidates that show the outcome behind the others. Each raw candidate is tried, by
    /// tests of each two operations.
    pub(crate) fn add_showing(
        &self,
        alloc: Global,
        test: &Test,
        runs: u32,
        kept: &mut Vec<Place>,
    ) -> Result<(), AllocError>
        requires prepared { IsPrepared test.now self.now }
        requires few { count_with test.now self.now.traces ≤ most_candidates }
        ensures { OnOk result (kept.new.items ≡ kept.old.items
            ++ map (place runs) (showing_from test.now self.now.traces 0 (count_with test.now self.now.traces))) }
    {
        for first in 0..self.choices.count_sources() {
            self.add_with(alloc, test, runs, first, kept)?;
        }
        Ok(())
    }

    /// The raw candidate of this number.
    pub(crate) fn candidate(
        self,
        alloc: Global,
        test: &Test,
        chosen: u32,
    ) -> Result<Candidate, Fault>
        requires bounded { IsBounded test.now }
        requires prepared { IsPrepared test.now self }
        requires few { count_with test.now self.traces ≤ most_candidates }
        requires chosen { chosen < count_with test.now self.traces }
        ensures ok { IfOk result (λ c. candidate_of c ≡ numbered_with test.now self.traces chosen) }
        ensures made { IfOk result (IsMade (initial_words test.now)) }
        ensures harts { IfOk result (λ c. length c.traces ≤ 8) }
        ensures operations { IfOk result (λ c. length c.operations ≤ 64) }
        ensures err { IsOkUnless result Memory }
    {
        let count = self.choices.count_orders();
        let sources = self.sources(alloc, chosen / count)?;
        let orders = self.orders(alloc, test, chosen % count)?;
        Candidate::new(
            alloc,
            test,
            self.traces,
            List::new(sources),
            StoreOrder::new(orders),
        )
    }
}
