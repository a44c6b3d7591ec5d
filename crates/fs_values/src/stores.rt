//! What runs store.

ghost use Rattle.std.specs.Prelude.{◌≡◌, ◌≢◌, ◌++◌, ◌⊎◌, ◌↔◌, ℕ, All, length, IfOk, OnOk, IfErr};
ghost use Rattle.std.specs.List.{Contains};
ghost use Rattle.std.specs.List.Sorted.{IsStrictlyIncreasing};
ghost use Rattle.fs_kinds.specs.declared.fault.Fault.TheVariants.{Memory};
ghost use Rattle.fs_model.specs.Test.{IsBounded, IsStart};
ghost use Rattle.fs_hart.specs.Listing.{IsOffered};
ghost use Rattle.fs_values.specs.AllRuns.{AreListed};
ghost use Rattle.fs_values.specs.Rounds.{HasNoFault, IsFirstHartFault};
ghost use Rattle.fs_values.specs.inner.Stores.{store_of, stores_of, stores_in, AreStoresBelow};

use crate::rising::rising;
use fs_hart::{Trace, Words, traces_over};
use fs_kinds::{Fault, List};
use fs_model::{Step, Test};
use std::alloc::{AllocError, Global};

// A word that is stored at an address.
#[derive(Clone, Copy)]
pub(crate) struct Store {
    pub(crate) address: u32,
    pub(crate) word: u32,
}

/// What the step stores.
fn store_of(step: &Step) -> Option<Store>
    ensures { result ≡ store_of step.now }
{
    match (step.address, step.stored) {
        (Some(address), Some(word)) => Some(Store { address, word }),
        _ => None,
    }
}

/// Puts the stores of a run behind those that are there.
fn add_stores(stores: &mut Vec<Store>, steps: &[Step]) -> Result<(), AllocError>
    ensures { OnOk result (stores.new.items ≡ stores.old.items ++ stores_of steps.now) }
{
    for step in steps {
        if let Some(store) = store_of(step) {
            stores.push(store)?;
        }
    }
    Ok(())
}

/// Puts the stores of these runs behind those that are there.
fn add_all_stores(stores: &mut Vec<Store>, traces: &[Trace]) -> Result<(), AllocError>
    ensures { OnOk result (stores.new.items ≡ stores.old.items ++ stores_in traces.now) }
{
    for trace in traces {
        add_stores(stores, trace.steps())?;
    }
    Ok(())
}

/// What one round finds: for each hart its runs, and the stores of all of these.
#[derive(Drop)]
pub(crate) struct Round {
    pub(crate) runs: Vec<List<Trace>>,
    pub(crate) stores: Vec<Store>,
}

/// For each hart its runs in which each load takes a word of its location's set, as `traces_over` of each, and what
/// they store. The fault is the first that is met, hart by hart.
pub(crate) fn round_over(alloc: Global, test: &Test, sets: &[Words]) -> Result<Round, Fault>
    requires test { IsBounded test.now }
    requires starts { All IsStart test.now.starts }
    requires sets { All IsStrictlyIncreasing sets.now }
    ensures harts { IfOk result (λ round. length round.runs.items ≡ length test.now.codes) }
    ensures runs { IfOk result (λ round. AreListed test.now sets.now round.runs.items) }
    ensures stores { IfOk result
        (λ round. AreStoresBelow test.now (IsOffered sets.now) (length test.now.codes) round.stores.items) }
    ensures clean { OnOk result (HasNoFault test.now (IsOffered sets.now)) }
    ensures err { IfErr result (λ fault. fault ≢ Memory → IsFirstHartFault test.now (IsOffered sets.now) fault) }
{
    let mut runs = Vec::new(alloc);
    let mut stores = Vec::new(alloc);
    for hart in 0..test.codes.as_slice().len() {
        let traces = traces_over(alloc, test, hart as u8, sets)?;
        add_all_stores(&mut stores, &traces)?;
        runs.push(List::new(traces))?;
    }
    Ok(Round { runs, stores })
}

/// The set with the words that are stored at this address.
pub(crate) fn with_stores(
    alloc: Global,
    set: &[u32],
    stores: &[Store],
    address: u32,
) -> Result<Words, AllocError>
    ensures rising { IfOk result IsStrictlyIncreasing }
    ensures words { IfOk result (λ more. (word : ℕ) → Contains more word
        ↔ (Contains set.now word ⊎ Contains stores.now (record { address = address; word = word }))) }
{
    let mut words = Vec::from_slice(alloc, set)?;
    for store in stores {
        if store.address == address {
            words.push(store.word)?;
        }
    }
    rising(words)
}
