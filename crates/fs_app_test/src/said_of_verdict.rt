//! What a verdict comes to.

ghost use Rattle.std.specs.Prelude.{◌≡◌, ◌≢◌, ◌⊎◌, ◌≤◌, true, false, IfOk, IfErr, string_bytes};
ghost use Rattle.fs_kinds.specs.Placement.{slots_of};
ghost use Rattle.fs_kinds.specs.declared.fault.Fault.TheVariants.{Memory, TooManyCandidates};
ghost use Rattle.fs_model.specs.declared.test.Test.{Test as Tests};
ghost use Rattle.fs_model.specs.Allows.{Allows, no_fences};
ghost use Rattle.fs_model.specs.Slots.{slots};
ghost use Rattle.fs_cert_evidence.specs.CandidateFaults.{IsCandidateFault};
ghost use Rattle.fs_cert_evidence.specs.Valid.{Forbid};
ghost use Rattle.fs_cert_evidence.specs.Inferences.{cycles_of};
ghost use Rattle.fs_judge.specs.Verdicts.{IsVerdict};
ghost use Rattle.fs_app_test.specs.SaidVerdicts.{IsForbidden, IsLeftOpen, IsSettled, Says, witness_in};
ghost use Rattle.fs_app_test.specs.Words.{contradictions_in};

use crate::contradictions::{contradictions_in, forbidden_words};
use crate::ordered::{order_words, overtaking};
use crate::said::{Kind, Said};
use fs_cert_evidence::Cycles;
use fs_judge::{Problem, Verdict};
use fs_kinds::{Fault, Placement};
use std::alloc::Global;

/// Does the placement forbid the outcome? The fault is that of the test's candidates, or `Memory`. The cost is that of
/// `Problem::verdict` of fs_judge.
pub fn forbids(alloc: Global, problem: &Problem, placement: &Placement) -> Result<bool, Fault>
    requires { slots_of placement.now ≡ slots problem.now }
    ensures yes { IfOk result (λ is. is ≡ true → Allows problem.now placement.now → ⊥) }
    ensures no { IfOk result (λ is. is ≡ false → Allows problem.now placement.now) }
    ensures err { IfErr result (λ f. f ≢ Memory → IsCandidateFault problem.now f) }
{
    match problem.verdict(alloc, placement, &[])? {
        Verdict::Forbids(_) => Ok(true),
        Verdict::Allowed(_) => Ok(false),
    }
}

/// What is said of a test that isn't vacuous, by the verdict on it with no fence placed. Where it isn't settled that it
/// isn't, since it has too many runs, and what forbids the outcome has no contradiction, the fault is
/// `TooManyCandidates`; else it is `Memory`.
pub fn said_of(alloc: Global, verdict: Verdict, is_settled: bool) -> Result<Said, Fault>
    ensures ok { (t : Tests) → IsVerdict t (no_fences t) verdict → IsSettled t is_settled
        → IfOk result (λ said. Says t said.kind (string_bytes said.why) (witness_in said.witness)) }
    ensures err { (t : Tests) → IsVerdict t (no_fences t) verdict → IsSettled t is_settled
        → IfErr result (λ f. f ≢ Memory → (f ≡ TooManyCandidates) × IsLeftOpen t) }
{
    match verdict {
        Verdict::Forbids(forbidden) => said_forbidden(alloc, &forbidden.cycles, is_settled),
        Verdict::Allowed(witness) => Ok(Said {
            kind: Kind::Allowed,
            why: order_words(alloc, overtaking(witness.order.as_slice()))?,
            witness: Some(witness),
            fault: None,
        }),
    }
}

/// Is it left open what is to be said? It is where they have no contradiction, and it isn't settled that the test isn't
/// vacuous.
fn is_left_open(cycles: &Cycles, is_settled: bool) -> bool
    ensures none { result ≡ true → contradictions_in (cycles_of cycles.now) ≡ 0 }
    ensures unsettled { result ≡ true → is_settled ≡ false }
    ensures no { result ≡ false → (is_settled ≡ true) ⊎ (1 ≤ contradictions_in (cycles_of cycles.now)) }
{
    contradictions_in(cycles) == 0 && !is_settled
}

/// The same of a test that these cycles, or this refutation, show to be forbidden.
fn said_forbidden(alloc: Global, cycles: &Cycles, is_settled: bool) -> Result<Said, Fault>
    ensures ok { (t : Tests) → IsForbidden t → Forbid t (no_fences t) (cycles_of cycles.now) → IsSettled t is_settled
        → IfOk result (λ said. Says t said.kind (string_bytes said.why) (witness_in said.witness)) }
    ensures err { (t : Tests) → IsForbidden t → Forbid t (no_fences t) (cycles_of cycles.now) → IsSettled t is_settled
        → IfErr result (λ f. f ≢ Memory → (f ≡ TooManyCandidates) × IsLeftOpen t) }
{
    if is_left_open(cycles, is_settled) {
        return Err(Fault::TooManyCandidates);
    }
    Ok(Said {
        kind: Kind::Forbidden,
        why: forbidden_words(alloc, cycles)?,
        witness: None,
        fault: None,
    })
}
