//! A test that is made ready, and verdicts on placements: of the problem, and of a judge, who keeps what it found last.
ghost use Rattle.std.specs.Prelude.{◌≡◌, IfOk};
ghost use Rattle.std.specs.Arc.{arc_value};
ghost use Rattle.fs_model.specs.Test.{IsBounded, IsTest};

use crate::printing::say_refused;
use fs_cert_evidence::Witness;
use fs_judge::{Judge, Problem, USUAL_INFERENCES, Verdict};
use fs_kinds::Fault;
use fs_model::Test;
use fs_tests_shared::{PRICES, SB, count_of, placement_of, question_of, verdict_on};
use std::alloc::Global;
use std::sync::Arc;

/// The problem of the test, to be shared by several judges.
fn problem_of(alloc: Global, test: &Arc<Test>) -> Result<Arc<Problem>, Fault>
    requires { IsTest (arc_value test.now) }
    ensures { IfOk result (λ problem. arc_value problem ≡ arc_value test.now) }
{
    Problem::shared(alloc, Arc::try_clone(test)?, USUAL_INFERENCES)
}

/// What a judge sees at a quick look at the placement that the words name.
fn look_on(alloc: Global, judge: &mut Judge, words: &str) -> Result<Option<Witness>, Fault>
    requires { IsBounded judge.old }
    ensures { judge.new ≡ judge.old }
{
    let placement = placement_of(alloc, judge.problem().test(), words)?;
    judge.look(alloc, &placement, &[])
}

/// A judge's verdict on the placement that the words name.
fn judged_on(alloc: Global, judge: &mut Judge, words: &str) -> Result<Verdict, Fault>
    requires { IsBounded judge.old }
    ensures { judge.new ≡ judge.old }
{
    let placement = placement_of(alloc, judge.problem().test(), words)?;
    judge.verdict(alloc, &placement, &[])
}

/// Prints what a look found.
fn print_look<R: Print>(rt: &R, found: &Option<Witness>) {
    match found {
        Some(witness) => {
            let _ = println!(rt; "seen with {} operations", witness.order.len());
        }
        None => {
            let _ = rt.println("nothing seen");
        }
    }
}

/// Prints the verdict on a placement.
fn print_verdict<R: Print>(rt: &R, verdict: &Verdict) {
    match verdict {
        Verdict::Allowed(witness) => {
            let _ = println!(rt; "allowed with {} operations", witness.order.len());
        }
        Verdict::Forbids(forbidden) => {
            let _ = println!(rt; "forbidden by {}", count_of(&forbidden.cycles));
        }
    }
}

/// Prints the problem's own verdict on the placement that the words name.
fn print_verdict_on<R: Print>(
    rt: &R,
    alloc: Global,
    problem: &Problem,
    words: &str,
) -> Result<(), Fault>
    requires { IsBounded problem.now }
{
    let verdict = twice!(rt, verdict_on(alloc, problem, words))?;
    print_verdict(rt, &verdict);
    Ok(())
}

/// Prints what the judge sees at a quick look at the placement that the words name.
fn print_look_on<R: Print>(
    rt: &R,
    alloc: Global,
    judge: &mut Judge,
    words: &str,
) -> Result<(), Fault>
    requires { IsBounded judge.old }
    ensures { judge.new ≡ judge.old }
{
    let found = twice!(rt, look_on(alloc, judge, words))?;
    print_look(rt, &found);
    Ok(())
}

/// Prints the judge's verdict on the placement that the words name.
fn print_judged_on<R: Print>(
    rt: &R,
    alloc: Global,
    judge: &mut Judge,
    words: &str,
) -> Result<(), Fault>
    requires { IsBounded judge.old }
    ensures { judge.new ≡ judge.old }
{
    let judged = twice!(rt, judged_on(alloc, judge, words))?;
    print_verdict(rt, &judged);
    Ok(())
}

/// Judges the placement that the words name: by the problem itself, and by the judge.
fn judge_on<R: Print>(rt: &R, alloc: Global, judge: &mut Judge, words: &str) -> Result<(), Fault>
    requires { IsBounded judge.old }
    ensures { judge.new ≡ judge.old }
{
    print_verdict_on(rt, alloc, judge.problem(), words)?;
    print_look_on(rt, alloc, judge, words)?;
    print_judged_on(rt, alloc, judge, words)
}

/// Judges store buffering without fences, and with those that are needed.
pub(crate) fn make<R: Print + AllocGlobal>(rt: &R) -> Result<(), Fault> {
    let alloc = rt.alloc();
    let question = question_of(alloc, SB, PRICES)?;
    let _ = rt.println("verdicts");
    let problem = twice!(rt, problem_of(alloc, question.test()))?;
    let mut judge = Judge::new(alloc, problem);
    judge_on(rt, alloc, &mut judge, "")?;
    judge_on(rt, alloc, &mut judge, "P0:2=w,r P1:2=w,r")
}
