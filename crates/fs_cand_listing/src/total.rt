//! How many raw candidates a test has, and whether there are too many.

ghost use Rattle.std.specs.Prelude.{◌≡◌, ◌≢◌, ◌≤◌, ◌<◌, ◌+◌, All, length, map, IfOk, OnOk, IfErr, IsOkUnless};
ghost use Rattle.fs_kinds.specs.declared.fault.Fault.TheVariants.{Memory, TooManyCandidates};
ghost use Rattle.fs_model.specs.Test.{IsBounded};
ghost use Rattle.fs_cert_evidence.specs.CandidateFaults.{most_candidates, HasTooMany};
ghost use Rattle.fs_hart.specs.Steps.{steps_in};
ghost use Rattle.fs_values.specs.AllRuns.{HaveFinal};
ghost use Rattle.fs_cand_listing.specs.RawCandidates.{AreAllRuns};
ghost use Rattle.fs_cand_listing.specs.Ways.{product_of_lengths};
ghost use Rattle.fs_cand_listing.specs.inner.Totals.{capped_with};

use crate::counting::{MOST_CANDIDATES, count_choices, count_raw};
use crate::runs::runs_at;
use fs_hart::{Trace, operations};
use fs_kinds::{Fault, List};
use fs_model::Test;
use std::alloc::Global;

/// How many raw candidates there are with the runs of this number, or one more than there may be.
fn count_with(alloc: Global, test: &Test, lists: &[List<Trace>], number: u32) -> Result<u32, Fault>
    requires test { IsBounded test.now }
    requires runs { AreAllRuns test.now (map steps_in lists.now) }
    requires registers { HaveFinal test.now lists.now }
    requires few { product_of_lengths lists.now ≤ most_candidates }
    requires number { number < product_of_lengths lists.now }
    ensures ok { IfOk result (λ count. count ≡ capped_with test.now lists.now number) }
    ensures most { IfOk result (λ count. count ≤ most_candidates + 1) }
    ensures err { IsOkUnless result Memory }
{
    let traces = runs_at(alloc, lists, number)?;
    let operations = operations(alloc, test, traces.as_slice())?;
    let locations = test.locations.as_slice().len() as u8;
    Ok(count_raw(operations.as_slice(), locations))
}

/// Goes over the lists of runs, where these are all runs of each hart over the value sets, and counts the raw
/// candidates, as far as the limit. The error is F15 where there are more than 4,000,000 lists of runs or raw
/// candidates, or F19. Nothing is listed: it makes the operations of each list of runs in turn, and multiplies how many
/// choices there are.
pub(crate) fn check_few(alloc: Global, test: &Test, lists: &[List<Trace>]) -> Result<(), Fault>
    requires test { IsBounded test.now }
    requires runs { AreAllRuns test.now (map steps_in lists.now) }
    requires registers { HaveFinal test.now lists.now }
    ensures clean { OnOk result (HasTooMany test.now → ⊥) }
    ensures err { IfErr result (λ fault. fault ≢ Memory → (fault ≡ TooManyCandidates) × HasTooMany test.now) }
{
    let runs = count_choices(lists);
    if runs > MOST_CANDIDATES {
        return Err(Fault::TooManyCandidates);
    }
    let mut total = 0;
    for number in 0..runs {
        total += count_with(alloc, test, lists, number)?;
        if total > MOST_CANDIDATES {
            return Err(Fault::TooManyCandidates);
        }
    }
    Ok(())
}
