//! The value sets of a test.

ghost use Rattle.std.specs.Prelude.{◌≡◌, ◌≢◌, ◌<◌, [], All, length, IfOk, OnOk, IfErr};
ghost use Rattle.std.specs.List.{slice_index_or};
ghost use Rattle.std.specs.List.Sorted.{IsStrictlyIncreasing};
ghost use Rattle.fs_kinds.specs.declared.fault.Fault.{Fault};
ghost use Rattle.fs_kinds.specs.declared.fault.Fault.TheVariants.{Memory};
ghost use Rattle.fs_model.specs.Test.{IsBounded, IsStart};
ghost use Rattle.fs_model.specs.TooMany.{IsRunFault};
ghost use Rattle.fs_model.specs.Values.{IsValueAfter};
ghost use Rattle.fs_hart.specs.Listing.{IsOffered};
ghost use Rattle.fs_values.specs.ThinAir.{BeginsWithWords, CanBeListed, IsAlwaysGrounded};
ghost use Rattle.fs_values.specs.AllRuns.{AreListed};
ghost use Rattle.fs_values.specs.Sets.{AreSets, AreValues};
ghost use Rattle.fs_values.specs.Rounds.{IsInNext, HasNoFault};
ghost use Rattle.fs_values.specs.inner.Stores.{AreStoresBelow};

use crate::rounds::rounds;
use crate::stores::{Round, Store, round_over, with_stores};
use fs_hart::{Trace, Words};
use fs_kinds::{Fault, List};
use fs_model::{Location, Test};
use std::alloc::{AllocError, Global};
use std::marker::Model;

/// The value sets of a test, and for each hart all its runs over them.
#[derive(Drop)]
pub(crate) struct Listed {
    pub(crate) values: Values,
    pub(crate) runs: Vec<List<Trace>>,
}

/// For each location of a test the words that it can come to hold, as a set whose words rise. Contracts see the list of
/// the sets.
#[derive(Drop)]
pub struct Values {
    sets: Vec<Words>,
}

impl Model for Values {
    ghost use Rattle.std.specs.Prelude.{ℕ, List};

    ghost Value = { List (List ℕ) };

    ghost view = { λ values. values.sets.items };
}

impl Values {
    /// The words that the locations begin with.
    fn initial(alloc: Global, test: &Test) -> Result<Values, AllocError>
        ensures sets { IfOk result (AreSets test.now (IsValueAfter test.now 0)) }
        ensures words { OnOk result (BeginsWithWords test.now) }
    {
        let mut sets = Vec::new(alloc);
        for declared in test.locations.as_slice() {
            let word = declared.word;
            sets.push(Words::new(Vec::from_slice(alloc, &[word])?))?;
        }
        Ok(Values { sets })
    }

    /// These words, and those that are stored: these stores are of runs whose loads take these words.
    fn joined(&self, alloc: Global, test: &Test, stores: &[Store]) -> Result<Values, AllocError>
        requires test { IsBounded test.now }
        requires locations { length self.now ≡ length test.now.locations }
        requires stores { AreStoresBelow test.now (IsOffered self.now) (length test.now.codes) stores.now }
        ensures { IfOk result (AreSets test.now (IsInNext test.now (IsOffered self.now))) }
    {
        let _ = test;
        let mut sets = Vec::new(alloc);
        for (location, set) in self.sets.iter().enumerate() {
            let address = Location::address(location as u8);
            sets.push(with_stores(alloc, set.as_slice(), stores, address)?)?;
        }
        Ok(Values { sets })
    }

    /// The value sets of the test, with the runs over them: what `of` says of both. The last round that adds nothing has
    /// listed these runs, so they aren't listed again.
    pub(crate) fn listed(alloc: Global, test: &Test) -> Result<Listed, Fault>
        requires test { IsBounded test.now }
        requires starts { All IsStart test.now.starts }
        ensures values { IfOk result (λ listed. AreValues test.now listed.values) }
        ensures harts { IfOk result (λ listed. length listed.runs.items ≡ length test.now.codes) }
        ensures runs { IfOk result (λ listed. AreListed test.now listed.values listed.runs.items) }
        ensures clean { OnOk result ((f : Fault) → IsRunFault test.now f → ⊥) }
        ensures err { IfErr result (λ f. f ≢ Memory → IsRunFault test.now f) }
        ensures listable { OnOk result (CanBeListed test.now) }
        ensures grounded { OnOk result (IsAlwaysGrounded test.now) }
        ensures no_fault { IfOk result (λ listed. HasNoFault test.now (IsOffered listed.values)) }
    {
        let mut values = Values::initial(alloc, test)?;
        let most = rounds(test);
        for _ in 0..most {
            let Round { runs, stores } = round_over(alloc, test, &values.sets)?;
            let more = values.joined(alloc, test, &stores)?;
            if more.sets.as_slice() == values.sets.as_slice() {
                return Ok(Listed { values, runs });
            }
            values = more;
        }
        // What is stored over the last sets is not asked for, but these runs may have a fault.
        let Round { runs, .. } = round_over(alloc, test, &values.sets)?;
        Ok(Listed { values, runs })
    }

    /// The value sets of the test, found in rounds: at first the initial words, and in each round also what a run
    /// stores whose loads take words of the sets before. There are as many rounds as the test has instructions that
    /// store, and none after one that adds nothing. The fault is the first that is met, round by round and hart by
    /// hart: F13 where more than 100,000 choice lists of the hart end over the sets, else F14; or F19. In a test with
    /// these sets every execution is grounded.
    pub fn of(alloc: Global, test: &Test) -> Result<Values, Fault>
        requires test { IsBounded test.now }
        requires starts { All IsStart test.now.starts }
        ensures ok { IfOk result (AreValues test.now) }
        ensures clean { OnOk result ((f : Fault) → IsRunFault test.now f → ⊥) }
        ensures err { IfErr result (λ f. f ≢ Memory → IsRunFault test.now f) }
        ensures listable { OnOk result (CanBeListed test.now) }
        ensures grounded { OnOk result (IsAlwaysGrounded test.now) }
        ensures no_fault { IfOk result (λ values. HasNoFault test.now (IsOffered values)) }
    {
        let Listed { values, .. } = Values::listed(alloc, test)?;
        Ok(values)
    }

    /// The words that the location can come to hold.
    pub fn at(&self, location: u8) -> &[u32]
        requires { location < length self.now }
        ensures { result.now ≡ slice_index_or self.now location [] }
    {
        self.sets[usize::from(location)].as_slice()
    }

    /// The sets, from that of location 0 on.
    pub fn as_slice(&self) -> &[Words]
        ensures { result.now ≡ self.now }
    {
        self.sets.as_slice()
    }
}
