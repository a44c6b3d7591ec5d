//! The refutation of each test.

ghost use Rattle.std.specs.Prelude.{◌≡◌, ◌≢◌, All, IsTrue, IfOk, IfErr, IfNone, length};
ghost use Rattle.std.specs.List.{AllZip};
ghost use Rattle.fs_kinds.specs.declared.fault.Fault.TheVariants.{Memory};
ghost use Rattle.fs_cert_evidence.specs.CandidateFaults.{IsCandidateFault};
ghost use Rattle.fs_sites.specs.Answers.{IsPartFault};
ghost use Rattle.fs_sites.specs.Questions.{IsPart};
ghost use Rattle.fs_sites_check.specs.Valid.{IsRefutedWith};

use fs_cert_evidence::Inference;
use fs_kinds::{Fault, List, Placement};
use fs_region_refutation::{Basis, reason_against};
use fs_sites::{Part, image};
use std::alloc::Global;

/// Do the inferences refute the test with these fences of the sites? F13 or F14 where its runs can't be listed; or F19.
fn is_refuted(
    alloc: Global,
    part: &Part,
    placement: &Placement,
    inferences: &[Inference],
) -> Result<bool, Fault>
    requires { IsPart part.now }
    ensures ok { IfOk result (λ holds. IsTrue holds → IsRefutedWith placement.now part.now inferences.now) }
    ensures err { IfErr result (λ f. f ≢ Memory → IsCandidateFault part.now.test f) }
{
    let basis = Basis::new(alloc, &part.test)?;
    let fences = image(alloc, &part.places, placement)?;
    match reason_against(alloc, &basis, &fences, inferences)? {
        Some(_) => Ok(false),
        None => Ok(true),
    }
}

/// The number of the first test that its inferences don't refute with these fences of the sites. It costs for each test
/// what `Basis::new` and `reason_against` cost. F13 or F14 where the runs of a test can't be listed; or F19.
pub(crate) fn first_unrefuted(
    alloc: Global,
    parts: &[Part],
    placement: &Placement,
    cycles: &[List<Inference>],
) -> Result<Option<usize>, Fault>
    requires parts { All IsPart parts.now }
    requires same { length cycles.now ≡ length parts.now }
    ensures ok { IfOk result (λ found. IfNone found
        (AllZip (IsRefutedWith placement.now) parts.now cycles.now)) }
    ensures err { IfErr result (λ f. f ≢ Memory → IsPartFault parts.now f) }
{
    for number in 0..parts.len() {
        if !is_refuted(alloc, &parts[number], placement, &cycles[number])? {
            return Ok(Some(number));
        }
    }
    Ok(None)
}
