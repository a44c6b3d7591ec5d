//! Whole executions: what `check_order` says of them, what a plain program says that computes the definition, and how
//! many of them are known to show the outcome.
ghost use Rattle.std.specs.Prelude.{◌≡◌, ◌≤◌, All, length};
ghost use Rattle.std.specs.List.Sorted.{IsStrictlyIncreasing};
ghost use Rattle.fs_model.specs.Test.{IsBounded, IsStart};
ghost use Rattle.fs_cand.specs.Candidates.{AreShort};

use fs_cand::Traces;
use fs_check::{OrderVerdict, check_order};
use fs_hart::{Operation, Step, Steps, Trace, operations};
use fs_instr::Instr;
use fs_kinds::{Fault, Placement};
use fs_litmus::{Test, read_test};
use fs_model_axioms::count_accesses;
use fs_model_brute_force::shows;
use fs_tests_shared::{
    ADD2, CO_RR, Digits, FORWARDED, LB, LBC, LBD, LRSC, LRSCF, MANY, MP, MP11, MPA, MPB, POINTER,
    SB, SBF, SBX, SBXA, TWO_WRITES, order_of, picked, placement_of, runs_of, runs_over,
};
use fs_values::Values;
use std::alloc::{AllocError, Global};

/// Writes the choice of the step, where it has one, as a witness file has it.
fn write_choice(step: &Step, text: &mut String) -> Result<(), AllocError> {
    let comma = if text.len() > 1 { "," } else { "" };
    match (step.instr, step.loaded) {
        (Instr::Sc { .. }, _) => write!(text, "{comma}{}", step.stored.is_some()),
        (_, Some(word)) => write!(text, "{comma}{word}"),
        _ => Ok(()),
    }
}

/// The choices of a run, as a witness file has them.
fn choices_text(alloc: Global, run: &Trace) -> Result<String, AllocError> {
    let mut text = String::from_str(alloc, "[")?;
    for step in run.steps() {
        write_choice(step, &mut text)?;
    }
    text.push_str("]")?;
    Ok(text)
}

/// The name of the operation, as a witness file has it.
fn name_text(alloc: Global, traces: &[Trace], operation: &Operation) -> Result<String, AllocError> {
    let hart = operation.hart.unwrap_or(255);
    let at = match traces.get(usize::from(hart)) {
        Some(trace) => trace
            .steps()
            .get(usize::from(operation.place))
            .map_or(255, |step| step.at),
        None => 255,
    };
    format!(in alloc; "\"P{hart}:{at}\"")
}

/// The choices of the runs, with commas between.
fn all_choices_text(alloc: Global, traces: &[Trace]) -> Result<String, AllocError> {
    let mut text = String::new(alloc);
    for run in traces {
        if !text.is_empty() {
            text.push_str(",")?;
        }
        text.push_str(choices_text(alloc, run)?.as_str())?;
    }
    Ok(text)
}

/// The names of the operations in this order, with commas between.
fn names_text(
    alloc: Global,
    traces: &[Trace],
    operations: &[Operation],
    order: &[u8],
) -> Result<String, AllocError> {
    let mut text = String::new(alloc);
    for a in order {
        if !text.is_empty() {
            text.push_str(",")?;
        }
        if let Some(operation) = operations.get(usize::from(*a)) {
            text.push_str(name_text(alloc, traces, operation)?.as_str())?;
        }
    }
    Ok(text)
}

/// The witness file of the runs with this order of their operations.
fn witness_text(
    alloc: Global,
    traces: &[Trace],
    operations: &[Operation],
    order: &[u8],
) -> Result<String, AllocError> {
    let choices = all_choices_text(alloc, traces)?;
    let names = names_text(alloc, traces, operations, order)?;
    format!(in alloc; "{{\"choices\":[{choices}],\"order\":[{names}]}}")
}

/// The steps of the runs.
fn steps_of(alloc: Global, traces: &[Trace]) -> Result<Vec<Steps>, AllocError> {
    let mut runs = Vec::new(alloc);
    for trace in traces {
        runs.push(Steps::new(Vec::from_slice(alloc, trace.steps())?))?;
    }
    Ok(runs)
}

/// What comparing has found.
#[derive(Drop)]
struct Count {
    /// How many executions show the outcome.
    showing: usize,
    /// On how many orders the two differ.
    differing: usize,
}

/// Compares on all orders of the operations of these runs.
fn compare_orders(
    alloc: Global,
    test: &Test,
    traces: &Traces,
    placement: &Placement,
    count: &mut Count,
) -> Result<(), Fault>
    requires test { IsBounded test.now }
    requires starts { All IsStart test.now.starts }
    requires harts { length traces.now ≤ 8 }
    requires steps { AreShort traces.now }
{
    let traces = traces.as_slice();
    let all = operations(alloc, test, traces)?;
    let runs = steps_of(alloc, traces)?;
    for number in 0..MANY {
        let mut digits = Digits { rest: number };
        let order = order_of(alloc, count_accesses(all.as_slice()), &mut digits)?;
        if digits.rest > 0 {
            return Ok(());
        }
        let witness = witness_text(alloc, traces, all.as_slice(), &order)?;
        let verdict = check_order(alloc, test, placement, witness.as_bytes())?;
        let is_shown = shows(alloc, test, &runs, placement, &order)?;
        if is_shown {
            count.showing = count.showing.saturating_add(1);
        }
        if is_shown != (verdict == OrderVerdict::Yes) {
            count.differing = count.differing.saturating_add(1);
        }
    }
    Ok(())
}

/// Compares on all these runs, a list for each hart, and all orders of their operations, with the fences that the words
/// name: how many executions show the outcome, or `usize::MAX` where the two differ on an order.
fn compare_runs(
    alloc: Global,
    test: &Test,
    runs: &[Vec<Trace>],
    words: &str,
) -> Result<usize, Fault>
    requires test { IsBounded test.now }
    requires starts { All IsStart test.now.starts }
{
    let placement = placement_of(alloc, test, words)?;
    let mut count = Count {
        showing: 0,
        differing: 0,
    };
    for number in 0..MANY {
        let mut digits = Digits { rest: number };
        let traces = picked(alloc, runs, &mut digits)?;
        if digits.rest > 0 {
            break;
        }
        compare_orders(alloc, test, &traces, &placement, &mut count)?;
    }
    Ok(if count.differing == 0 {
        count.showing
    } else {
        usize::MAX
    })
}

/// How many executions show the outcome where loads take these words, which must rise, with the fences that the words
/// name; and no such number where the two differ on an order.
fn showing(alloc: Global, text: &str, loaded: &[u32], words: &str) -> Result<usize, Fault>
    requires { IsStrictlyIncreasing loaded.now }
{
    let test = read_test(alloc, text.as_bytes())?;
    let runs = runs_of(alloc, &test, loaded)?;
    compare_runs(alloc, &test, &runs, words)
}

/// Compares on the runs over the words that the locations begin with: nothing else is stored.
fn compare_values(alloc: Global, text: &str) -> Result<usize, Fault> {
    let test = read_test(alloc, text.as_bytes())?;
    let values = Values::of(alloc, &test)?;
    let runs = runs_over(alloc, &test, values.as_slice())?;
    compare_runs(alloc, &test, &runs, "")
}

/// Of four operations, orders that must have two pairs in their sequence are a quarter of all 24: so many show SB, MP,
/// LB and 2+2W. A third pair between them leaves one order, and a fourth one none. Fences leave fewer executions.
const SHOWING: &[(&str, &str, usize)] = &[
    (SB, "", 6),
    (MP, "", 6),
    (LB, "", 6),
    (TWO_WRITES, "", 6),
    (MP11, "", 6),
    (SBX, "", 6),
    (MPB, "", 6),
    (MPA, "", 1),
    (SBXA, "", 0),
    (CO_RR, "", 0),
    (LBD, "", 0),
    (LBC, "", 0),
    (LRSC, "", 0),
    (LRSCF, "", 1),
    (ADD2, "", 0),
    (FORWARDED, "", 2),
    (SB, "P0:2=w,r", 1),
    (SB, "P0:2=rw,rw", 1),
    (SB, "P0:2=tso P1:2=tso", 6),
    (SB, "P0:2=w,r P1:2=w,r", 0),
    (MP, "P0:3=w,w", 1),
    (MP, "P1:1=r,r", 1),
    (MP, "P0:3=w,w P1:1=r,r", 0),
    (MP11, "P0:3=rw,rw P1:1=rw,rw", 1),
    (MPB, "P0:3=w,w", 1),
    (MPB, "P0:3=w,w P1:2=r,r", 0),
    (LB, "P0:2=r,w", 1),
    (LB, "P0:2=r,w P1:2=tso", 0),
    (LB, "P0:2=r,w P1:2=r,w", 0),
    (MPA, "P0:3=w,w", 0),
    (TWO_WRITES, "P0:3=w,w", 1),
    (TWO_WRITES, "P0:3=w,w P1:3=w,w", 0),
    (SBX, "P0:2=r,r P1:2=r,r", 0),
    (LRSCF, "P0:1=rw,rw", 1),
];

/// A hart may load its own store before others see it, so the two loads of the outcome that return own stores bind
/// nothing.
const FORWARDING: &[(&str, &str, usize)] = &[(SBF, "", 180)];

/// Adds the tests that as many executions don't show as the table says, where loads take these words, which must rise.
fn add_wrong_counts(
    alloc: Global,
    rows: &[(&str, &str, usize)],
    loaded: &[u32],
    wrong: &mut String,
) -> Result<(), Fault>
    requires { IsStrictlyIncreasing loaded.now }
{
    for (text, words, wanted) in rows {
        let found = showing(alloc, text, loaded, words)?;
        if found != *wanted {
            wrong.push_str(words)?;
            wrong.push_str(" in ")?;
            wrong.push_str(text)?;
        }
    }
    Ok(())
}

/// Adds the test, unless so many executions over the words of its locations show the outcome.
fn add_wrong_value(
    alloc: Global,
    text: &str,
    wanted: usize,
    wrong: &mut String,
) -> Result<(), Fault> {
    if compare_values(alloc, text)? != wanted {
        wrong.push_str(text)?;
    }
    Ok(())
}

/// The tests that as many executions don't show as is known. Of POINTER the loaded address binds the store behind the
/// second load too: it may only be the last or the second one.
pub(crate) fn wrong_counts(alloc: Global) -> Result<String, Fault> {
    let mut wrong = String::new(alloc);
    add_wrong_counts(alloc, SHOWING, &[0, 1, 2], &mut wrong)?;
    add_wrong_counts(alloc, FORWARDING, &[0, 1], &mut wrong)?;
    add_wrong_value(alloc, POINTER, 2, &mut wrong)?;
    Ok(wrong)
}
