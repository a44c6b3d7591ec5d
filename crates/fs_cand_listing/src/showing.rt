//! The candidates of a test that show its outcome, listed.

ghost use Rattle.std.specs.Prelude.{◌≡◌, ◌≢◌, ◌≤◌, ◌<◌, ◌++◌, Some, All, length, map, slice_get, IfOk, OnOk, IfErr};
ghost use Rattle.std.specs.Prelude.{IsOkUnless};
ghost use Rattle.std.specs.Arc.{arc_value};
ghost use Rattle.fs_kinds.specs.declared.fault.Fault.TheVariants.{Memory, TooManyCandidates};
ghost use Rattle.fs_model.specs.Test.{IsBounded, IsStart};
ghost use Rattle.fs_model.specs.Execution.{initial_words};
ghost use Rattle.fs_hart.specs.Listing.{IsOffered};
ghost use Rattle.fs_cert_evidence.specs.CandidateFaults.{HasTooMany};
ghost use Rattle.fs_cert_evidence.specs.Listings.{IsListing};
ghost use Rattle.fs_cand.specs.Candidates.{candidate_of, IsMade};
ghost use Rattle.fs_values.specs.Sets.{AreValues};
ghost use Rattle.fs_values.specs.Rounds.{HasNoFault};
ghost use Rattle.fs_cand_listing.specs.Ways.{product_of_lengths};
ghost use Rattle.fs_cand_listing.specs.inner.Places.{places_below, places_with, AreListable};

use crate::counting::count_choices;
use crate::place::Place;
use crate::prepared::Prepared;
use crate::runs::runs_at;
use crate::shown_outcome::may_show;
use crate::total::check_few;
use fs_cand::Candidate;
use fs_hart::Trace;
use fs_kinds::{Fault, List};
use fs_model::Test;
use fs_values::{Values, runs_over};
use std::alloc::Global;
use std::marker::Model;
use std::sync::Arc;

/// All candidates of a test that show its outcome, each once and in their order. It keeps the runs of each hart, and
/// eight bytes for each candidate; the candidate itself is made when it is asked for.
#[derive(Drop)]
pub struct Showing {
    test: Arc<Test>,
    lists: Vec<List<Trace>>,
    kept: Vec<Place>,
}

impl Model for Showing {
    ghost use Rattle.std.specs.Prelude.{map};
    ghost use Rattle.std.specs.Arc.{arc_value};
    ghost use Rattle.std.specs.Coded.{codes};
    ghost use Rattle.fs_model.specs.contracts.outcome.Outcome as outcome;
    ghost use Rattle.fs_cand_listing.specs.Showing.{Listed};
    ghost use Rattle.fs_cand_listing.specs.inner.Places.{candidate_at, AreKept};

    ghost Value = { Listed };

    ghost view = { λ s. record { test = arc_value s.test; candidates = map (candidate_at (arc_value s.test) s.lists.items) s.kept.items } };

    ghost coded = { Prim.hlevel (codes, outcome.the_row.coded) };

    ghost invariant = { λ s. AreKept (arc_value s.test) s.lists.items s.kept.items };
}

/// Puts the numbers of the raw candidates with the runs of this number that show the outcome behind the others. Where
/// the final registers rule the outcome out, nothing more is made of the runs.
fn add_places(
    alloc: Global,
    test: &Test,
    lists: &[List<Trace>],
    number: u32,
    kept: &mut Vec<Place>,
) -> Result<(), Fault>
    requires lists { AreListable test.now lists.now }
    requires few { HasTooMany test.now → ⊥ }
    requires number { number < product_of_lengths lists.now }
    ensures ok { OnOk result (kept.new.items ≡ kept.old.items ++ places_with test.now lists.now number) }
    ensures err { IsOkUnless result Memory }
{
    let traces = runs_at(alloc, lists, number)?;
    if !may_show(test, traces.as_slice()) {
        return Ok(());
    }
    let prepared = Prepared::of(alloc, test, traces)?;
    Ok(prepared.add_showing(alloc, test, number, kept)?)
}

/// The numbers of all raw candidates that show the outcome.
fn places(alloc: Global, test: &Test, lists: &[List<Trace>]) -> Result<Vec<Place>, Fault>
    requires lists { AreListable test.now lists.now }
    requires few { HasTooMany test.now → ⊥ }
    ensures ok { IfOk result (λ kept. kept.items ≡ places_below test.now lists.now (product_of_lengths lists.now)) }
    ensures err { IsOkUnless result Memory }
{
    let mut kept = Vec::new(alloc);
    for number in 0..count_choices(lists) {
        add_places(alloc, test, lists, number, &mut kept)?;
    }
    Ok(kept)
}

impl Showing {
    /// The candidates of the test that show its outcome, where these are its value sets and no hart has a fault over
    /// them. F15 where there are more than 4,000,000 lists of runs, one of each hart, or more than 4,000,000 raw
    /// candidates, whether they show the outcome or not, and then none is tried; F19. The cost: for each list of runs
    /// the square of its operations, to count its raw candidates; and for each raw candidate of those whose final
    /// registers may show the outcome again this square, times the stores of a location.
    pub fn of(alloc: Global, test: Arc<Test>, values: &Values) -> Result<Showing, Fault>
        requires test { IsBounded (arc_value test) }
        requires starts { All IsStart (arc_value test).starts }
        requires sets { AreValues (arc_value test) values.now }
        requires clean { HasNoFault (arc_value test) (IsOffered values.now) }
        ensures test { IfOk result (λ s. s.test ≡ arc_value test) }
        ensures ok { IfOk result (λ s. IsListing s.test s.candidates) }
        ensures clean { OnOk result (HasTooMany (arc_value test) → ⊥) }
        ensures err { IfErr result (λ f. f ≢ Memory → (f ≡ TooManyCandidates) × HasTooMany (arc_value test)) }
    {
        let lists = runs_over(alloc, &test, values.as_slice())?;
        check_few(alloc, &test, &lists)?;
        let kept = places(alloc, &test, &lists)?;
        Ok(Showing { test, lists, kept })
    }

    /// How many candidates there are.
    pub fn len(&self) -> usize
        ensures { result ≡ length self.now.candidates }
    {
        self.kept.len()
    }

    /// The test.
    pub fn test(&self) -> &Arc<Test>
        ensures { arc_value result.now ≡ self.now.test }
    {
        &self.test
    }

    /// The candidate of this number, counted from 0. The error is F19. It is made anew: the square of its operations.
    pub fn get(&self, alloc: Global, k: usize) -> Result<Candidate, Fault>
        requires { k < length self.now.candidates }
        ensures ok { IfOk result (λ c. slice_get self.now.candidates k ≡ Some (candidate_of c)) }
        ensures made { IfOk result (IsMade (initial_words self.now.test)) }
        ensures harts { IfOk result (λ c. length c.traces ≤ 8) }
        ensures operations { IfOk result (λ c. length c.operations ≤ 64) }
        ensures err { IsOkUnless result Memory }
    {
        let place = self.kept[k];
        let traces = runs_at(alloc, &self.lists, place.runs)?;
        let prepared = Prepared::of(alloc, &self.test, traces)?;
        prepared.candidate(alloc, &self.test, place.chosen)
    }
}
