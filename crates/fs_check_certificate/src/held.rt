//! What is to show that a placement forbids the outcome, and what it is held against.

ghost use Rattle.std.specs.Prelude.{◌≡◌, ◌≢◌, All, IfOk, OnOk, IfErr, IsOkUnless};
ghost use Rattle.std.specs.Arc.{arc_value};
ghost use Rattle.fs_kinds.specs.declared.fault.Fault.TheVariants.{Memory};
ghost use Rattle.fs_model.specs.Test.{IsBounded, IsStart};
ghost use Rattle.fs_cert_evidence.specs.CandidateFaults.{IsCyclesFault, HasNoCyclesFault};
ghost use Rattle.fs_cert_evidence.specs.Certificate.{Cycles};
ghost use Rattle.fs_values.specs.ThinAir.{CanBeListed};
ghost use Rattle.fs_cert_json.specs.Kept.{KeepsCycles};
ghost use Rattle.fs_check_certificate.specs.Cycles.{IsCyclesVerdict};
ghost use Rattle.fs_check_certificate.specs.Held.{test_in, HasListing, Holds};

use crate::cycles::first_bad_cycle;
use fs_cand_listing::{Showing, showing_of};
use fs_cert_evidence::Inference;
use fs_cert_json::{CertificateLink, CertifiedCycles};
use fs_kinds::{Fault, List, Placement, Reason};
use fs_model::Test;
use fs_region_refutation::{Basis, reason_against};
use std::alloc::Global;
use std::sync::Arc;

/// Cycles, and the candidates that show the outcome; or inferences, and the runs of the test.
#[derive(Drop)]
pub enum Held<'a> {
    Listed(Showing, &'a [List<CertificateLink>]),
    Inferred(Basis, &'a [Inference]),
}

/// The cycles with what they are held against. The fault is `TooManyTraces` or `Astray` where the runs of the test
/// can't be listed; else, of a list of cycles, `TooManyCandidates`; or `Memory`. The cost is that of listing the
/// candidates, or of inferences the runs.
pub fn hold<'a>(
    alloc: Global,
    test: Arc<Test>,
    cycles: &'a CertifiedCycles,
) -> Result<Held<'a>, Fault>
    requires test { IsBounded (arc_value test) }
    requires starts { All IsStart (arc_value test).starts }
    ensures test { IfOk result (λ held. test_in held ≡ arc_value test) }
    ensures listing { IfOk result HasListing }
    ensures holds { (said : Cycles) → KeepsCycles cycles.now said → IfOk result (λ held. Holds held said) }
    ensures listable { OnOk result (CanBeListed (arc_value test)) }
    ensures clean { (said : Cycles) → KeepsCycles cycles.now said
        → OnOk result (HasNoCyclesFault said (arc_value test)) }
    ensures err { (said : Cycles) → KeepsCycles cycles.now said
        → IfErr result (λ f. f ≢ Memory → IsCyclesFault said (arc_value test) f) }
{
    match cycles {
        CertifiedCycles::Listed(cycles) => {
            let showing = showing_of(alloc, test)?;
            Ok(Held::Listed(showing, cycles.as_slice()))
        }
        CertifiedCycles::Inferred(inferences) => {
            let basis = Basis::new(alloc, &test)?;
            Ok(Held::Inferred(basis, inferences.as_slice()))
        }
    }
}

impl Held<'_> {
    /// The test.
    pub fn test(&self) -> &Test
        ensures { result.now ≡ test_in self.now }
    {
        match self {
            Held::Listed(showing, _) => showing.test(),
            Held::Inferred(basis, _) => basis.test(),
        }
    }

    /// The first reason why they don't show that the placement forbids the outcome, where there is one. The error is
    /// `Memory`. The cost is that of `first_bad_cycle`, or of `reason_against`.
    pub fn first_reason(
        &self,
        alloc: Global,
        placement: &Placement,
    ) -> Result<Option<Reason>, Fault>
        requires test { IsBounded (test_in self.now) }
        requires listing { HasListing self.now }
        ensures ok { (said : Cycles) → Holds self.now said
            → IfOk result (IsCyclesVerdict (test_in self.now) placement.now said) }
        ensures err { IsOkUnless result Memory }
    {
        match self {
            Held::Listed(showing, cycles) => first_bad_cycle(alloc, showing, placement, cycles),
            Held::Inferred(basis, inferences) => reason_against(
                alloc, basis, placement, inferences,
            ),
        }
    }
}
