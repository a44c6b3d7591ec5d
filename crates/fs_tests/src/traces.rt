//! What choices make of a hart, the dependencies in its runs, and all runs over sets of words.
ghost use Rattle.std.specs.List.Sorted.{IsStrictlyIncreasing};

use crate::choices::choices_of;
use crate::wrong::add_wrong;
use fs_deps::Deps;
use fs_hart::{Run, Trace, trace_of};
use fs_kinds::Fault;
use fs_litmus::read_test;
use fs_tests_shared::{FORWARDED, LBC, LRSC, LRSCY, MPA, MPB, POINTER, runs_of, told};
use std::alloc::{AllocError, Global};

/// Loads from the address that it has loaded.
const LOADED: &str = "RISCV Loaded
{ 0:x6=x; x=y; }
 P0          ;
 lw x5,0(x6) ;
 lw x7,0(x5) ;
exists (0:x7=0)
";

/// Writes the words that the steps load, and behind `=` those that the others store; `-0` for a step that does neither,
/// and `|` at the end.
fn write_words(trace: &Trace, text: &mut String) -> Result<(), AllocError> {
    for step in trace.steps() {
        let (sign, word) = match (step.loaded, step.stored) {
            (Some(word), _) => ("", word),
            (None, Some(word)) => ("=", word),
            (None, None) => ("-", 0),
        };
        write!(text, "{sign}{word} ")?;
    }
    text.push_str("| ")
}

/// Writes the dependencies between the first six steps, where there are as many: `03:4` for an address dependency of
/// step 3 on step 0, 2 in place of 4 for one of data and 1 for one of control, and the sum where there are several.
fn write_dependencies(deps: &Deps, text: &mut String) -> Result<(), AllocError> {
    for pair in 0..36usize {
        let (from, to) = (pair / 6, pair % 6);
        let address = 4 * u8::from(deps.addr(from, to));
        let data = 2 * u8::from(deps.data(from, to));
        let code = address + data + u8::from(deps.ctrl(from, to));
        if code > 0 {
            write!(text, "{from}{to}:{code} ")?;
        }
    }
    Ok(())
}

/// The words and the dependencies of the run.
fn trace_text(alloc: Global, trace: &Trace) -> Result<String, Fault> {
    if trace.steps().len() > 32 {
        return Err(Fault::BadWitness);
    }
    let deps = Deps::of(alloc, trace)?;
    let mut text = String::new(alloc);
    write_words(trace, &mut text)?;
    write_dependencies(&deps, &mut text)?;
    Ok(text)
}

/// The words and the dependencies of the run; or why there is no whole one.
fn told_run(alloc: Global, run: &Run) -> Result<String, Fault> {
    let why = match run {
        Run::Whole(trace) => return trace_text(alloc, trace),
        Run::Short => "short",
        Run::Long => "long",
        Run::BadChoice => "bad choice",
        Run::BadSc => "bad sc.w",
        Run::Astray(_) => "astray",
    };
    Ok(String::from_str(alloc, why)?)
}

/// What is told of the run that the choices make of the hart.
fn run_text(alloc: Global, text: &str, hart: u8, choices: &str) -> Result<String, Fault> {
    let choices = choices_of(alloc, choices)?;
    let test = read_test(alloc, text.as_bytes())?;
    if usize::from(hart) >= test.codes.as_slice().len() {
        return Err(Fault::BadWitness);
    }
    let run = trace_of(alloc, &test, hart, &choices)?;
    told_run(alloc, &run)
}

/// Tests, harts, and their runs by these choices.
pub(crate) const RUNS: &[(&str, u8, &str, &str)] = &[
    (MPB, 1, "1", "short"),
    (MPB, 1, "1 0 0", "long"),
    (MPB, 1, "success", "bad choice"),
    (LRSCY, 0, "0 success", "bad sc.w"),
    (LRSCY, 0, "0 failure", "0 -0 | "),
    // An address depends on a load through arithmetic,
    (MPA, 1, "1 0", "1 -0 -0 0 | 03:4 13:4 23:4 "),
    // a branch controls what follows it,
    (MPB, 1, "1 0", "1 -0 0 | 02:1 "),
    (LBC, 0, "1", "1 -0 -0 =1 | 02:1 03:1 23:2 "),
    // and a load carries nothing.
    (FORWARDED, 0, "0 0", "0 =0 0 | 01:2 "),
    (POINTER, 0, "4128 0", "4128 0 =0 | 01:4 "),
];

/// Adds the tests whose runs aren't those of the table.
pub(crate) fn add_wrong_runs(
    alloc: Global,
    rows: &[(&str, u8, &str, &str)],
    wrong: &mut String,
) -> Result<(), AllocError> {
    for (text, hart, choices, wanted) in rows {
        let found = told(alloc, run_text(alloc, text, *hart, choices))?;
        add_wrong(text, &found, wanted, wrong)?;
    }
    Ok(())
}

/// The words of the runs of the first hart.
fn first_runs(alloc: Global, runs: &[Vec<Trace>]) -> Result<String, AllocError> {
    let mut text = String::new(alloc);
    if let Some(first) = runs.first() {
        for trace in first {
            write_words(trace, &mut text)?;
        }
    }
    Ok(text)
}

/// The words of all whole runs of hart 0, where loads take these words, which must rise.
fn runs_text(alloc: Global, text: &str, words: &[u32]) -> Result<String, Fault>
    requires { IsStrictlyIncreasing words.now }
{
    let test = read_test(alloc, text.as_bytes())?;
    let runs = runs_of(alloc, &test, words)?;
    Ok(first_runs(alloc, &runs)?)
}

/// Adds the words of these runs, or the line of the fault, unless that is what was wanted.
fn add_wrong_list(
    alloc: Global,
    text: &str,
    words: &[u32],
    wanted: &str,
    wrong: &mut String,
) -> Result<(), AllocError>
    requires { IsStrictlyIncreasing words.now }
{
    let line = told(alloc, runs_text(alloc, text, words))?;
    add_wrong(text, &line, wanted, wrong)
}

/// Words rise and success comes before failure; what can't be is left out; a loaded address leads on, or astray. x and
/// y have the addresses 4096 and 4112.
pub(crate) fn add_wrong_lists(alloc: Global, wrong: &mut String) -> Result<(), AllocError> {
    let both = "0 =1 | 0 -0 | 2 =1 | 2 -0 | ";
    add_wrong_list(alloc, LRSC, &[0, 2], both, wrong)?;
    add_wrong_list(alloc, LRSCY, &[3, 7], "3 -0 | 7 -0 | ", wrong)?;
    let four = "4096 4096 | 4096 4112 | 4112 4096 | 4112 4112 | ";
    add_wrong_list(alloc, LOADED, &[4096, 4112], four, wrong)?;
    add_wrong_list(alloc, LOADED, &[4112, 4113], "fault F14 Astray P0:1", wrong)
}
