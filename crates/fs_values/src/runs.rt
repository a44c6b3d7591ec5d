//! All runs of each hart of a test.

ghost use Rattle.std.specs.Prelude.{◌≡◌, ◌≢◌, All, length, IfOk, OnOk, IfErr, IsOkUnless};
ghost use Rattle.std.specs.List.Sorted.{IsStrictlyIncreasing};
ghost use Rattle.fs_kinds.specs.declared.fault.Fault.TheVariants.{Memory};
ghost use Rattle.fs_model.specs.Test.{IsBounded, IsStart};
ghost use Rattle.fs_model.specs.TooMany.{IsRunFault};
ghost use Rattle.fs_hart.specs.Listing.{IsOffered};
ghost use Rattle.fs_values.specs.ThinAir.{CanBeListed};
ghost use Rattle.fs_values.specs.Rounds.{HasNoFault};
ghost use Rattle.fs_values.specs.AllRuns.{AreListed, HaveFinal, runs_in};
ghost use Rattle.fs_model.specs.Values.{HasAllRuns};

use crate::values::{Listed, Values};
use fs_hart::{Trace, Words, traces_over};
use fs_kinds::{Fault, List};
use fs_model::Test;
use std::alloc::Global;

/// For each hart its runs over these sets, which make no fault: as `traces_over` of each. F19.
pub fn runs_over(alloc: Global, test: &Test, sets: &[Words]) -> Result<Vec<List<Trace>>, Fault>
    requires test { IsBounded test.now }
    requires starts { All IsStart test.now.starts }
    requires sets { All IsStrictlyIncreasing sets.now }
    requires clean { HasNoFault test.now (IsOffered sets.now) }
    ensures harts { IfOk result (λ lists. length lists.items ≡ length test.now.codes) }
    ensures ok { IfOk result (λ lists. AreListed test.now sets.now lists.items) }
    ensures err { IsOkUnless result Memory }
{
    let mut lists = Vec::new(alloc);
    for hart in 0..test.codes.as_slice().len() {
        let traces = traces_over(alloc, test, hart as u8, sets)?;
        lists.push(List::new(traces))?;
    }
    Ok(lists)
}

/// For each hart all its runs over the value sets of the test, in choice order. So the test's runs can be listed. The
/// fault and the cost are those of `Values::of`.
pub fn all_runs(alloc: Global, test: &Test) -> Result<Vec<List<Trace>>, Fault>
    requires test { IsBounded test.now }
    requires starts { All IsStart test.now.starts }
    ensures harts { IfOk result (λ lists. length lists.items ≡ length test.now.codes) }
    ensures ok { IfOk result (λ lists. HasAllRuns test.now (runs_in lists.items)) }
    ensures registers { IfOk result (λ lists. HaveFinal test.now lists.items) }
    ensures listable { OnOk result (CanBeListed test.now) }
    ensures err { IfErr result (λ f. f ≢ Memory → IsRunFault test.now f) }
{
    let Listed { runs, .. } = Values::listed(alloc, test)?;
    Ok(runs)
}
