//! The candidates that show the outcome, of a test alone.

ghost use Rattle.std.specs.Prelude.{◌≡◌, ◌≢◌, All, IfOk, OnOk, IfErr};
ghost use Rattle.std.specs.Arc.{arc_value};
ghost use Rattle.fs_kinds.specs.declared.fault.Fault.{Fault as RunFault};
ghost use Rattle.fs_kinds.specs.declared.fault.Fault.TheVariants.{Memory, TooManyCandidates};
ghost use Rattle.fs_model.specs.Test.{IsBounded, IsStart};
ghost use Rattle.fs_hart.specs.Listing.{IsOffered};
ghost use Rattle.fs_cert_evidence.specs.CandidateFaults.{HasTooMany, IsCandidateFault};
ghost use Rattle.fs_cert_evidence.specs.Listings.{IsListing};
ghost use Rattle.fs_values.specs.ThinAir.{CanBeListed};
ghost use Rattle.fs_values.specs.Sets.{AreValues};
ghost use Rattle.fs_values.specs.Rounds.{HasNoFault};

use crate::showing::Showing;
use crate::total::check_few;
use fs_kinds::Fault;
use fs_model::Test;
use fs_values::{Values, runs_over};
use std::alloc::Global;
use std::sync::Arc;

/// The candidates of the test that show its outcome. The fault is the first of its value sets, `TooManyTraces` or
/// `Astray`, where a hart's runs can't be listed, else `TooManyCandidates` where there are too many candidates or lists
/// of runs; or `Memory`. The cost is that of `Values::of` and `Showing::of`.
pub fn showing_of(alloc: Global, test: Arc<Test>) -> Result<Showing, Fault>
    requires test { IsBounded (arc_value test) }
    requires starts { All IsStart (arc_value test).starts }
    ensures test { IfOk result (λ showing. showing.test ≡ arc_value test) }
    ensures listing { IfOk result (λ showing. IsListing showing.test showing.candidates) }
    ensures listable { OnOk result (CanBeListed (arc_value test)) }
    ensures clean { OnOk result ((f : RunFault) → IsCandidateFault (arc_value test) f → ⊥) }
    ensures err { IfErr result (λ f. f ≢ Memory → IsCandidateFault (arc_value test) f) }
{
    let values = Values::of(alloc, &test)?;
    Showing::of(alloc, test, &values)
}

/// Checks that there are neither too many candidates of the test nor too many lists of runs, where these are its value
/// sets.
fn check_over(alloc: Global, test: &Test, values: &Values) -> Result<(), Fault>
    requires test { IsBounded test.now }
    requires starts { All IsStart test.now.starts }
    requires sets { AreValues test.now values.now }
    requires clean { HasNoFault test.now (IsOffered values.now) }
    ensures clean { OnOk result (HasTooMany test.now → ⊥) }
    ensures err { IfErr result (λ f. f ≢ Memory → (f ≡ TooManyCandidates) × HasTooMany test.now) }
{
    let lists = runs_over(alloc, test, values.as_slice())?;
    check_few(alloc, test, &lists)
}

/// Checks that the test's candidates can be listed, without listing them. The faults are those of `showing_of`. The
/// cost is that of `Values::of`, and for each list of runs, one of each hart, the square of its operations.
pub fn check_number(alloc: Global, test: &Test) -> Result<(), Fault>
    requires test { IsBounded test.now }
    requires starts { All IsStart test.now.starts }
    ensures clean { OnOk result ((f : RunFault) → IsCandidateFault test.now f → ⊥) }
    ensures err { IfErr result (λ f. f ≢ Memory → IsCandidateFault test.now f) }
{
    let values = Values::of(alloc, test)?;
    check_over(alloc, test, &values)
}
