//! Judges of one problem, beside what the problem itself says.
ghost use Rattle.std.specs.Prelude.{◌≡◌};
ghost use Rattle.std.specs.Arc.{arc_value};
ghost use Rattle.fs_model.specs.Test.{IsBounded};

use fs_judge::{Judge, Problem, Verdict};
use fs_kinds::Fault;
use fs_model::Choice;
use fs_tests_shared::{placement_of, problem_of, verdict_on};
use std::alloc::{AllocError, Global};
use std::sync::Arc;

/// Store buffering in which hart 1 may load either word.
const EITHER: &str = "RISCV SB
{
0:x6=x; 0:x8=y;
1:x6=y; 1:x8=x;
}
 P0          | P1          ;
 ori x5,x0,1 | ori x5,x0,1 ;
 sw x5,0(x6) | sw x5,0(x6) ;
 lw x7,0(x8) | lw x7,0(x8) ;
exists (0:x7=0)
";

/// Fences that leave the outcome only where hart 1 loads 1.
const BOTH: &str = "P0:2=w,r P1:2=w,r";

/// Writes the words that a hart loads.
fn write_words(choices: &[Choice], text: &mut String) -> Result<(), AllocError> {
    for choice in choices {
        if let Choice::Word(word) = choice {
            write!(text, "[{word}]")?;
        }
    }
    Ok(())
}

/// Writes what the harts load in the verdict's witness.
fn write_verdict(verdict: &Verdict, text: &mut String) -> Result<(), AllocError> {
    match verdict {
        Verdict::Allowed(witness) => {
            for choices in witness.choices.as_slice() {
                write_words(choices.as_slice(), text)?;
            }
            text.push_str(" ")
        }
        Verdict::Forbids(_) => text.push_str("forbidden "),
    }
}

/// Writes the judge's verdict on the placement that the words name.
fn write_judged(
    alloc: Global,
    judge: &mut Judge,
    words: &str,
    text: &mut String,
) -> Result<(), Fault>
    requires { IsBounded judge.old }
    ensures { judge.new ≡ judge.old }
{
    let placement = placement_of(alloc, judge.problem().test(), words)?;
    let verdict = judge.verdict(alloc, &placement, &[])?;
    Ok(write_verdict(&verdict, text)?)
}

/// Writes the problem's own verdict on the placement that the words name.
fn write_verdict_on(
    alloc: Global,
    problem: &Problem,
    words: &str,
    text: &mut String,
) -> Result<(), Fault>
    requires { IsBounded problem.now }
{
    let verdict = verdict_on(alloc, problem, words)?;
    Ok(write_verdict(&verdict, text)?)
}

/// Writes what a judge of the problem says in turn.
fn write_by_judge(alloc: Global, problem: Arc<Problem>, text: &mut String) -> Result<(), Fault>
    requires { IsBounded (arc_value problem) }
{
    let mut judge = Judge::new(alloc, problem);
    write_judged(alloc, &mut judge, BOTH, text)?;
    write_judged(alloc, &mut judge, "", text)
}

/// What a judge of a problem says in turn, and the problem. A judge tries the candidates first that it has found. The
/// problem finds the first one of all.
pub(crate) fn judged_in_turn(alloc: Global) -> Result<String, Fault> {
    let problem = problem_of(alloc, EITHER)?;
    let mut text = String::new(alloc);
    write_by_judge(alloc, Arc::try_clone(&problem)?, &mut text)?;
    write_verdict_on(alloc, &problem, "", &mut text)?;
    Ok(text)
}

/// What they say.
pub(crate) const JUDGED: &str = "[0][1] [0][1] [0][0] ";
