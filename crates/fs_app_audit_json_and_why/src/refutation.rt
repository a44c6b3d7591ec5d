//! Why a test as it is advised rules its outcome out.

ghost use Rattle.std.specs.Prelude.{◌≡◌, ◌≢◌, IfErr, IfOk, string_bytes};
ghost use Rattle.std.specs.Arc.{arc_value};
ghost use Rattle.fs_model.specs.Allows.{Allows};
ghost use Rattle.fs_model.specs.Test.{IsTest};
ghost use Rattle.fs_model.specs.TooMany.{IsRunFault};
ghost use Rattle.fs_cert_evidence.specs.CandidateFaults.{IsCandidateFault};
ghost use Rattle.fs_cert_evidence.specs.Inferences.{cycles_of};
ghost use Rattle.fs_cert_evidence.specs.Valid.{Forbid};
ghost use Rattle.fs_app_why.specs.Forbidden.{AreKinds, cycles_text};
ghost use Rattle.fs_app_why.specs.Why.{TellsForbidden};

use fs_app_why::{ChainKind, Telling, contradictions_text, inferred_kinds, verdict_on};
use fs_cert_evidence::Cycles;
use fs_judge::Verdict;
use fs_kinds::{Fault, List, Placement};
use fs_litmus::Test;
use std::alloc::{AllocError, Global};
use std::sync::Arc;

/// What is told of a refutation, and the kinds of contradictions in it.
#[derive(Drop)]
pub(crate) struct Refutation {
    pub(crate) text: String,
    pub(crate) kinds: Vec<ChainKind>,
}

/// The kinds of the ends to which inferences come; of a list of cycles there are none.
fn kinds_by(
    alloc: Global,
    test: &Arc<Test>,
    placement: &Placement,
    cycles: &Cycles,
) -> Result<Vec<ChainKind>, Fault>
    requires { IsTest (arc_value test.now) }
    ensures ok { IfOk result (λ kinds.
        AreKinds (arc_value test.now) placement.now (cycles_of cycles.now) kinds.items) }
    ensures err { IfErr result (λ f. f ≢ Fault.Memory → IsRunFault (arc_value test.now) f) }
{
    match cycles {
        Cycles::Listed(_) => Ok(Vec::new(alloc)),
        Cycles::Inferred(inferences) => {
            inferred_kinds(alloc, test, placement, inferences.as_slice())
        }
    }
}

/// The kinds in print; of a list of cycles nothing.
fn cycles_text(
    alloc: Global,
    test: &Test,
    lines: &[List<usize>],
    telling: Telling,
    cycles: &Cycles,
    kinds: &[ChainKind],
) -> Result<String, AllocError>
    requires { IsTest test.now }
    ensures { IfOk result (λ text. string_bytes text
        ≡ cycles_text test.now lines.now telling (cycles_of cycles.now) kinds.now) }
{
    match cycles {
        Cycles::Listed(_) => Ok(String::new(alloc)),
        Cycles::Inferred(_) => contradictions_text(alloc, test, lines, telling, kinds),
    }
}

/// What is told of what shows that the outcome is forbidden.
fn refuted_by(
    alloc: Global,
    test: &Arc<Test>,
    lines: &[List<usize>],
    telling: Telling,
    placement: &Placement,
    cycles: &Cycles,
) -> Result<Refutation, Fault>
    requires test { IsTest (arc_value test.now) }
    requires shows { Forbid (arc_value test.now) placement.now (cycles_of cycles.now) }
    ensures told { IfOk result (λ made.
        (told : TellsForbidden (arc_value test.now) lines.now telling placement.now (string_bytes made.text))
        × (told.kinds ≡ made.kinds.items)) }
    ensures err { IfErr result (λ f. f ≢ Fault.Memory → IsRunFault (arc_value test.now) f) }
{
    let kinds = kinds_by(alloc, test, placement, cycles)?;
    let text = cycles_text(alloc, test, lines, telling, cycles, &kinds)?;
    Ok(Refutation { text, kinds })
}

/// Why the test forbids its outcome with these fences: the contradictions of what a verdict shows. The faults are those
/// of `verdict_on`. The cost is that of `forbidden_text` of fs_app_why.
pub(crate) fn refuted(
    alloc: Global,
    test: &Arc<Test>,
    lines: &[List<usize>],
    telling: Telling,
    placement: &Placement,
    inferences: usize,
) -> Result<Refutation, Fault>
    requires test { IsTest (arc_value test.now) }
    requires forbidden { Allows (arc_value test.now) placement.now → ⊥ }
    ensures told { IfOk result (λ made.
        (told : TellsForbidden (arc_value test.now) lines.now telling placement.now (string_bytes made.text))
        × (told.kinds ≡ made.kinds.items)) }
    ensures err { IfErr result (λ f. f ≢ Fault.Memory → IsCandidateFault (arc_value test.now) f) }
{
    let verdict = verdict_on(alloc, test, placement, inferences)?;
    match verdict {
        Verdict::Forbids(forbidden) => {
            let made = refuted_by(alloc, test, lines, telling, placement, &forbidden.cycles)?;
            Ok(made)
        }
        Verdict::Allowed(_) => unreachable!(),
    }
}
