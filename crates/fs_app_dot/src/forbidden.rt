//! Pictures of why a test forbids its outcome as it is written.

ghost use Rattle.std.specs.Prelude.{◌≡◌, ◌≢◌, ◌⊎◌, List as Items, IfErr, IfOk, map};
ghost use Rattle.std.specs.Arc.{arc_value};
ghost use Rattle.fs_kinds.specs.declared.fault.Fault.TheVariants.{Memory};
ghost use Rattle.fs_model.specs.Test.{IsTest};
ghost use Rattle.fs_model.specs.TooMany.{IsRunFault};
ghost use Rattle.fs_litmus.specs.Faults.{IsTestFault};
ghost use Rattle.fs_cert_evidence.specs.CandidateFaults.{IsCandidateFault};
ghost use Rattle.fs_cert_evidence.specs.Certificate.{Inferred};
ghost use Rattle.fs_cert_evidence.specs.Inferences.{cycles_of, inference_of};
ghost use Rattle.fs_cert_evidence.specs.Valid.{Forbid};
ghost use Rattle.fs_app_why.specs.Kinds.{ChainKind as Kinds};
ghost use Rattle.fs_app_why.specs.Forbidden.{AreKinds};
ghost use Rattle.fs_app_why.specs.Why.{HasCandidateFault};
ghost use Rattle.fs_app_dot.specs.Kinds.{AreOfKinds};
ghost use Rattle.fs_app_dot.specs.Told.{AreForbiddenPictures, AreOfRefutation, AreOfVerdict};

use crate::kinds::kind_pictures;
use crate::picture::{Page, Picture};
use fs_app_why::{Telling, inferred_kinds, lines_of, no_fences, verdict_on};
use fs_cert_evidence::{Cycles, Inference};
use fs_judge::Verdict;
use fs_kinds::{Fault, Placement};
use fs_litmus::{Test, read_test};
use std::alloc::Global;
use std::sync::Arc;

/// The kinds of the ends to which the inferences come.
fn inferred_pictures(
    alloc: Global,
    page: Page<'_>,
    test: &Arc<Test>,
    telling: Telling,
    placement: &Placement,
    inferences: &[Inference],
) -> Result<Vec<Picture>, Fault>
    requires is_test { IsTest (arc_value test.now) }
    requires same { page.test.now ≡ arc_value test.now }
    ensures told { IfOk result (λ pictures. (kinds : Items Kinds)
        × AreKinds (arc_value test.now) placement.now (Inferred (map inference_of inferences.now)) kinds
        × AreOfKinds (arc_value test.now) page.entry.title.now telling kinds pictures.items) }
    ensures err { IfErr result (λ f. f ≢ Memory → IsRunFault (arc_value test.now) f) }
{
    let kinds = inferred_kinds(alloc, test, placement, inferences)?;
    let pictures = kind_pictures(alloc, page, telling, &kinds)?;
    Ok(pictures)
}

/// Those of what shows that the outcome is forbidden: of a list of cycles none.
fn shown_pictures(
    alloc: Global,
    page: Page<'_>,
    test: &Arc<Test>,
    telling: Telling,
    placement: &Placement,
    cycles: &Cycles,
) -> Result<Vec<Picture>, Fault>
    requires is_test { IsTest (arc_value test.now) }
    requires same { page.test.now ≡ arc_value test.now }
    requires shows { Forbid (arc_value test.now) placement.now (cycles_of cycles.now) }
    ensures told { IfOk result (λ pictures.
        AreOfRefutation (arc_value test.now) page.entry.title.now telling placement.now pictures.items) }
    ensures err { IfErr result (λ f. f ≢ Memory → IsRunFault (arc_value test.now) f) }
{
    match cycles {
        Cycles::Listed(_) => Ok(Vec::new(alloc)),
        Cycles::Inferred(inferences) => {
            inferred_pictures(alloc, page, test, telling, placement, inferences.as_slice())
        }
    }
}

/// Those of a test that forbids its outcome with these fences; none where it allows it.
fn judged_pictures(
    alloc: Global,
    page: Page<'_>,
    test: &Arc<Test>,
    telling: Telling,
    placement: &Placement,
    inferences: usize,
) -> Result<Vec<Picture>, Fault>
    requires is_test { IsTest (arc_value test.now) }
    requires same { page.test.now ≡ arc_value test.now }
    ensures told { IfOk result (λ pictures.
        AreOfVerdict (arc_value test.now) page.entry.title.now telling placement.now pictures.items) }
    ensures err { IfErr result (λ f. f ≢ Memory → IsCandidateFault (arc_value test.now) f) }
{
    match verdict_on(alloc, test, placement, inferences)? {
        Verdict::Forbids(forbidden) => {
            let pictures = shown_pictures(
                alloc,
                page,
                test,
                telling,
                placement,
                &forbidden.cycles,
            )?;
            Ok(pictures)
        }
        Verdict::Allowed(_) => Ok(Vec::new(alloc)),
    }
}

/// The pictures of a test that forbids its outcome as it is written: of each kind of contradiction that `why_forbidden`
/// of fs_app_why tells its chain, by the name `cycle-1`, `stale-1` or `not-atomic-1` with the kind's number there. None
/// where an execution shows the outcome, or a list of candidates that none does. The test is judged once more,
/// by a hunt of at most so many inferences. The
/// faults are those of `read_test`, of `Problem::new` and of `Problem::judged`. The cost is that of these three, of
/// `chains` and `kinds_of` of fs_app_why, and of `chain_picture` for each kind.
pub fn forbidden_pictures(
    alloc: Global,
    title: &str,
    telling: Telling,
    test: &[u8],
    inferences: usize,
) -> Result<Vec<Picture>, Fault>
    ensures told { IfOk result (λ pictures.
        AreForbiddenPictures title.now telling test.now pictures.items) }
    ensures fault { IfErr result (λ f. f ≢ Memory → HasCandidateFault test.now f ⊎ IsTestFault test.now f) }
{
    let read = read_test(alloc, test)?;
    let lines = lines_of(alloc, test)?;
    let placement = no_fences(alloc, &read)?;
    let read = Arc::new(alloc, read)?;
    let page = Page {
        title,
        test: &read,
        lines: &lines,
    };
    judged_pictures(alloc, page, &read, telling, &placement, inferences)
}
