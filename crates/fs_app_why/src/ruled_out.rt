//! Why a test forbids its outcome as it is written.

ghost use Rattle.std.specs.Prelude.{◌≡◌, ◌≢◌, ◌⊎◌, List as Items, IfOk, IfErr, IfSome, IfNone, map, string_bytes};
ghost use Rattle.std.specs.Arc.{arc_value};
ghost use Rattle.fs_kinds.specs.declared.fault.Fault.TheVariants.{Memory};
ghost use Rattle.fs_model.specs.Allows.{Allows};
ghost use Rattle.fs_model.specs.Test.{IsTest};
ghost use Rattle.fs_model.specs.TooMany.{IsRunFault};
ghost use Rattle.fs_litmus.specs.Faults.{IsTestFault};
ghost use Rattle.fs_cert_evidence.specs.CandidateFaults.{IsCandidateFault};
ghost use Rattle.fs_cert_evidence.specs.Certificate.{Inferred};
ghost use Rattle.fs_cert_evidence.specs.Inferences.{cycles_of, inference_of};
ghost use Rattle.fs_cert_evidence.specs.Valid.{Forbid};
ghost use Rattle.fs_judge.specs.Verdicts.{IsVerdict};
ghost use Rattle.fs_app_why.specs.Kinds.{ChainKind as Kinds};
ghost use Rattle.fs_app_why.specs.Contradictions.{contradictions_text};
ghost use Rattle.fs_app_why.specs.Forbidden.{AreKinds};
ghost use Rattle.fs_app_why.specs.Why.{HasCandidateFault, IsAllowed, IsForbiddenWhy, TellsForbidden, TellsUnless};
ghost use Rattle.fs_app_why.specs.Why.{is_written, lacks_written, unwritten_text};

use crate::contradictions::contradictions_text;
use crate::forbidden::inferred_kinds;
use crate::instruction_words::instr_named;
use crate::order::lines_of;
use crate::possible::no_fences;
use crate::telling::Telling;
use fs_cert_evidence::{Cycles, Inference};
use fs_instr::Instr;
use fs_judge::{Problem, Verdict};
use fs_kinds::{Fault, List, OperationName, Placement};
use fs_litmus::{Test, read_test};
use std::alloc::{AllocError, Global};
use std::sync::Arc;

/// The contradictions to which the inferences come.
fn inferred_text(
    alloc: Global,
    test: &Arc<Test>,
    lines: &[List<usize>],
    telling: Telling,
    placement: &Placement,
    inferences: &[Inference],
) -> Result<String, Fault>
    requires { IsTest (arc_value test.now) }
    ensures told { IfOk result (λ text. (kinds : Items Kinds)
        × AreKinds (arc_value test.now) placement.now (Inferred (map inference_of inferences.now)) kinds
        × (string_bytes text ≡ contradictions_text (arc_value test.now) lines.now telling kinds)) }
    ensures err { IfErr result (λ f. f ≢ Memory → IsRunFault (arc_value test.now) f) }
{
    let kinds = inferred_kinds(alloc, test, placement, inferences)?;
    let text = contradictions_text(alloc, test, lines, telling, &kinds)?;
    Ok(text)
}

/// The contradictions of what shows that the outcome is forbidden: of a list of cycles nothing.
fn shown_text(
    alloc: Global,
    test: &Arc<Test>,
    lines: &[List<usize>],
    telling: Telling,
    placement: &Placement,
    cycles: &Cycles,
) -> Result<String, Fault>
    requires test { IsTest (arc_value test.now) }
    requires shows { Forbid (arc_value test.now) placement.now (cycles_of cycles.now) }
    ensures told { IfOk result (λ text.
        TellsForbidden (arc_value test.now) lines.now telling placement.now (string_bytes text)) }
    ensures err { IfErr result (λ f. f ≢ Memory → IsRunFault (arc_value test.now) f) }
{
    match cycles {
        Cycles::Listed(_) => Ok(String::new(alloc)),
        Cycles::Inferred(inferences) => {
            inferred_text(
                alloc,
                test,
                lines,
                telling,
                placement,
                inferences.as_slice(),
            )
        }
    }
}

/// The verdict on the test with these fences: that of a judge that has judged nothing, whose hunts may make so many
/// inferences. The faults are those of `verdict` of fs_judge.
pub fn verdict_on(
    alloc: Global,
    test: &Arc<Test>,
    placement: &Placement,
    inferences: usize,
) -> Result<Verdict, Fault>
    requires { IsTest (arc_value test.now) }
    ensures ok { IfOk result (IsVerdict (arc_value test.now) placement.now) }
    ensures err { IfErr result (λ f. f ≢ Memory → IsCandidateFault (arc_value test.now) f) }
{
    let problem = Problem::new(alloc, Arc::try_clone(test)?, inferences)?;
    problem.judged(alloc, placement, &[])
}

/// Why the test forbids its outcome with these fences, as `why_forbidden` tells it; none where it allows it. The lines are
/// those of its instructions, hart by hart. The faults are those of `verdict_on`. The cost is that of `why_forbidden`
/// without reading.
pub fn forbidden_text(
    alloc: Global,
    test: &Arc<Test>,
    lines: &[List<usize>],
    telling: Telling,
    placement: &Placement,
    inferences: usize,
) -> Result<Option<String>, Fault>
    requires { IsTest (arc_value test.now) }
    ensures some { IfOk result (λ found. IfSome found (λ text.
        TellsForbidden (arc_value test.now) lines.now telling placement.now (string_bytes text))) }
    ensures none { IfOk result (λ found. IfNone found (Allows (arc_value test.now) placement.now)) }
    ensures err { IfErr result (λ f. f ≢ Memory → IsCandidateFault (arc_value test.now) f) }
{
    let verdict = verdict_on(alloc, test, placement, inferences)?;
    match verdict {
        Verdict::Forbids(forbidden) => {
            let text = shown_text(alloc, test, lines, telling, placement, &forbidden.cycles)?;
            Ok(Some(text))
        }
        Verdict::Allowed(_) => Ok(None),
    }
}

/// Is it a FENCE?
fn is_written(instr: Option<Instr>) -> bool
    ensures { result ≡ is_written instr }
{
    match instr {
        Some(instr) => matches!(instr, Instr::Fence { .. } | Instr::FenceTso),
        None => false,
    }
}

/// Is a fence asked for where the test has none?
pub fn lacks_written(telling: Telling, test: &Test) -> bool
    ensures { result ≡ lacks_written telling test.now }
{
    match telling {
        Telling::One { hart, at } => !is_written(instr_named(test, OperationName { hart, at })),
        Telling::Few | Telling::All => false,
    }
}

/// The line that says that it has none there; nothing where none is asked for. The error is want of memory.
pub fn unwritten_text(alloc: Global, telling: Telling) -> Result<String, AllocError>
    ensures { IfOk result (λ text. string_bytes text ≡ unwritten_text telling) }
{
    match telling {
        Telling::One { hart, at } => {
            let name = OperationName { hart, at };
            format!(in alloc; "\nno fence stands at {}\n", name)
        }
        Telling::Few | Telling::All => Ok(String::new(alloc)),
    }
}

/// The same, as far as it is asked for.
fn asked_text(
    alloc: Global,
    test: &Arc<Test>,
    lines: &[List<usize>],
    telling: Telling,
    placement: &Placement,
    inferences: usize,
) -> Result<Option<String>, Fault>
    requires { IsTest (arc_value test.now) }
    ensures some { IfOk result (λ found. IfSome found (λ text.
        TellsUnless (lacks_written telling (arc_value test.now)) (unwritten_text telling)
        (TellsForbidden (arc_value test.now) lines.now telling placement.now) (string_bytes text))) }
    ensures none { IfOk result (λ found. IfNone found (Allows (arc_value test.now) placement.now)) }
    ensures err { IfErr result (λ f. f ≢ Memory → IsCandidateFault (arc_value test.now) f) }
{
    if lacks_written(telling, test) {
        let text = unwritten_text(alloc, telling)?;
        return Ok(Some(text));
    }
    forbidden_text(alloc, test, lines, telling, placement, inferences)
}

/// What is told of a test that forbids its outcome as it is written: the ends of a refutation as chains of operations,
/// those that are the same but for the harts together, as many as `telling` says; nothing where a list of candidates
/// shows it. Where one fence is asked for, and the instruction is no FENCE, a line says so. None where an execution
/// shows the outcome. The test is judged once more, as `judge_test` of fs_app_test does, by a hunt of at most so many
/// inferences. The faults are those of
/// `read_test`, of `Problem::new` and of `Problem::judged`. The cost is that of these three, of `chains` and `kinds_of`
/// of fs_app_why, and of `contradictions_text`.
pub fn why_forbidden(
    alloc: Global,
    telling: Telling,
    test: &[u8],
    inferences: usize,
) -> Result<Option<String>, Fault>
    ensures some { IfOk result (λ found.
        IfSome found (λ text. IsForbiddenWhy telling test.now (string_bytes text))) }
    ensures none { IfOk result (λ found. IfNone found (IsAllowed test.now)) }
    ensures fault { IfErr result (λ f. f ≢ Memory → HasCandidateFault test.now f ⊎ IsTestFault test.now f) }
{
    let read = read_test(alloc, test)?;
    let lines = lines_of(alloc, test)?;
    let placement = no_fences(alloc, &read)?;
    let read = Arc::new(alloc, read)?;
    asked_text(alloc, &read, &lines, telling, &placement, inferences)
}
