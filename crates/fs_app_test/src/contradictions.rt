//! What shows that an outcome is forbidden, in words.

ghost use Rattle.std.specs.Prelude.{◌≡◌, count_by, map, IfOk, string_bytes};
ghost use Rattle.fs_cert_evidence.specs.Inferences.{cycles_of, inference_of};
ghost use Rattle.fs_app_test.specs.Words.{contradictions_in, forbidden_words, is_contradiction, no_contradictions};

use crate::words::counted;
use fs_cert_evidence::{Cycles, Inference};
use std::alloc::{AllocError, Global};

/// Does the inference end candidates by a contradiction?
fn is_contradiction(inference: &Inference) -> bool
    ensures { result ≡ is_contradiction (inference_of inference.now) }
{
    match inference {
        Inference::Cycle(_)
        | Inference::Stale { .. }
        | Inference::Reversed { .. }
        | Inference::Parted { .. } => true,
        Inference::ByChoice(_)
        | Inference::BySource(_)
        | Inference::ByOrder { .. }
        | Inference::ByCases(_)
        | Inference::Filter(_) => false,
    }
}

/// How many of the inferences do?
fn count_contradictions(inferences: &[Inference]) -> usize
    ensures { result ≡ count_by is_contradiction (map inference_of inferences.now) }
{
    inferences
        .iter()
        .filter(|inference| is_contradiction(inference))
        .count()
}

/// How many cycles there are, or contradictions of a refutation.
pub(crate) fn contradictions_in(cycles: &Cycles) -> usize
    ensures { result ≡ contradictions_in (cycles_of cycles.now) }
{
    match cycles {
        Cycles::Listed(listed) => listed.len(),
        Cycles::Inferred(inferences) => count_contradictions(inferences.as_slice()),
    }
}

/// The words where there are none.
fn no_contradictions(cycles: &Cycles) -> &'static str
    ensures { result.now ≡ no_contradictions (cycles_of cycles.now) }
{
    match cycles {
        Cycles::Listed(_) => "no candidate shows it",
        Cycles::Inferred(_) => "no sources for its loads",
    }
}

/// How many contradictions there are, in words, or that there are none.
pub(crate) fn forbidden_words(alloc: Global, cycles: &Cycles) -> Result<String, AllocError>
    ensures { IfOk result (λ text. string_bytes text ≡ forbidden_words (cycles_of cycles.now)) }
{
    let contradictions = contradictions_in(cycles);
    if contradictions == 0 {
        String::from_str(alloc, no_contradictions(cycles))
    } else {
        counted(alloc, contradictions, "contradiction")
    }
}
