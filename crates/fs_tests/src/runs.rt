//! What one run does at each name, and which rules hold in it.
ghost use Rattle.std.specs.Prelude.{IfOk};
ghost use Rattle.std.specs.Arc.{arc_value};
ghost use Rattle.fs_model.specs.Test.{IsTest};

use crate::choices::choices_of;
use crate::wrong::add_wrong;
use fs_hart::{Run, trace_of};
use fs_instr::Reg;
use fs_kinds::{Fault, Limit, OperationName, Placement};
use fs_litmus::{Test, read_test};
use fs_region_refutation::{Doings, Lone, Source, Sourced, names};
use fs_tests_shared::{ANNOTATED, CO_RR, FORWARDED, LRSC, MPA, SB, placement_of, told};
use std::alloc::{AllocError, Global};
use std::sync::Arc;

/// The run that the choices make of the hart, by itself.
fn lone_of(alloc: Global, test: &Arc<Test>, hart: u8, choices: &str) -> Result<Lone, Fault>
    requires { IsTest (arc_value test.now) }
{
    let choices = choices_of(alloc, choices)?;
    if usize::from(hart) < test.codes.len() {
        if let Run::Whole(trace) = trace_of(alloc, test, hart, &choices)? {
            let doings = Arc::new(alloc, Doings::none(alloc))?;
            return Lone::new(alloc, test, hart, trace, &doings, 0);
        }
    }
    Err(Fault::TooBig {
        what: Limit::Instructions,
    })
}

/// The test that the text reads as.
fn test_of(alloc: Global, text: &str) -> Result<Arc<Test>, Fault>
    ensures { IfOk result (λ test. IsTest (arc_value test)) }
{
    let test = read_test(alloc, text.as_bytes())?;
    Ok(Arc::new(alloc, test)?)
}

/// Writes the word, if there is one.
fn write_word(text: &mut String, word: Option<u32>) -> Result<(), AllocError> {
    match word {
        Some(word) => write!(text, "Some({word}) "),
        None => text.push_str("None "),
    }
}

/// Writes what the run does there.
fn write_done(text: &mut String, lone: &Lone, name: OperationName) -> Result<(), AllocError> {
    write!(text, "P{}:{} ", name.hart, name.at)?;
    write_word(text, lone.address_at(name.at))?;
    write_word(text, lone.loaded_at(name.at))?;
    write_word(text, lone.stored_at(name.at))?;
    write!(text, "{}; ", lone.chosen_at(name.at))
}

/// What the run does at each name of its hart, and the word of x7 at its end.
fn done(alloc: Global, text: &str, hart: u8, choices: &str) -> Result<String, Fault> {
    let test = test_of(alloc, text)?;
    let lone = lone_of(alloc, &test, hart, choices)?;
    let mut text = String::new(alloc);
    for name in &names(alloc, &test)? {
        if name.hart == lone.hart() {
            write_done(&mut text, &lone, *name)?;
        }
    }
    write!(text, "x7={}", lone.final_register(Reg::x(7)))?;
    Ok(text)
}

/// Writes these numbers.
fn write_rules(
    text: &mut String,
    lone: &Lone,
    placement: &Placement,
    first: Sourced,
    second: Sourced,
) -> Result<(), AllocError> {
    for rule in 1..14 {
        if lone.is_rule(placement, rule, first, second) {
            write!(text, "{rule} ")?;
        }
    }
    if lone.is_pair(first.name, second.name) {
        write!(text, "pair")?;
    }
    Ok(())
}

/// An operation by its hart and place, and what is known of its source: that it is a store, by hart and place, or
/// `INITIAL`; or `UNKNOWN`.
pub(crate) type Known = ((u8, u8), (u8, u8));

const UNKNOWN: (u8, u8) = (99, 0);

const INITIAL: (u8, u8) = (98, 0);

/// What is known of the source.
fn source_of(hart: u8, at: u8) -> Option<Source> {
    match hart {
        99 => None,
        98 => Some(Source::Initial),
        _ => Some(Source::From(OperationName { hart, at })),
    }
}

/// The operation with what is known of its source.
fn sourced(known: Known) -> Sourced {
    let (name, source) = known;
    Sourced {
        name: OperationName {
            hart: name.0,
            at: name.1,
        },
        source: source_of(source.0, source.1),
    }
}

/// The numbers of the rules that order the first operation before the second, with the fences that the words name, and
/// `pair` where they are a pair.
fn ordered(
    alloc: Global,
    run: (&str, u8, &str),
    fences: &str,
    first: Known,
    second: Known,
) -> Result<String, Fault> {
    let (text, hart, choices) = run;
    let test = test_of(alloc, text)?;
    let lone = lone_of(alloc, &test, hart, choices)?;
    let placement = placement_of(alloc, &test, fences)?;
    let mut text = String::new(alloc);
    write_rules(
        &mut text,
        &lone,
        &placement,
        sourced(first),
        sourced(second),
    )?;
    Ok(text)
}

/// Tests, harts, choices, and what the run does.
pub(crate) const DONE: &[(&str, &str, &str)] = &[
    (
        SB,
        "1",
        "P0:1 Some(4096) None Some(1) 1; P0:2 Some(4112) Some(1) None 2; x7=1",
    ),
    (
        LRSC,
        "0 success",
        "P0:0 Some(4096) Some(0) None 1; P0:1 Some(4096) None Some(1) 1; x7=0",
    ),
    (
        LRSC,
        "1 failure",
        "P0:0 Some(4096) Some(1) None 2; P0:1 None None None 2; x7=1",
    ),
];

/// Adds the tests whose first hart does something else than the table says.
pub(crate) fn add_wrong_done(
    alloc: Global,
    rows: &[(&str, &str, &str)],
    wrong: &mut String,
) -> Result<(), AllocError> {
    for (text, choices, wanted) in rows {
        let found = told(alloc, done(alloc, text, 0, choices))?;
        add_wrong(text, &found, wanted, wrong)?;
    }
    Ok(())
}

const PLAIN: (&str, u8, &str) = (SB, 0, "0");

const DEPENDENT: (&str, u8, &str) = (MPA, 1, "1 0");

const PAIRED: (&str, u8, &str) = (LRSC, 0, "0 success");

const FAILED: (&str, u8, &str) = (LRSC, 0, "0 failure");

const LOADS: (&str, u8, &str) = (CO_RR, 1, "1 1");

const ATOMIC: (&str, u8, &str) = (ANNOTATED, 0, "0 0 0");

const FORWARDING: (&str, u8, &str) = (FORWARDED, 0, "1 1");

/// The manual's rules by hand. Both loads of CO_RR are of one word; in ANNOTATED an AMO stands before a load of its
/// word; in FORWARDED a load returns from a store whose word depends on an earlier load.
pub(crate) const RULES: &[((&str, u8, &str), &str, Known, Known, &str)] = &[
    (PLAIN, "", ((0, 1), UNKNOWN), ((0, 2), INITIAL), ""),
    (
        PLAIN,
        "P0:2=w,r",
        ((0, 1), UNKNOWN),
        ((0, 2), INITIAL),
        "4 ",
    ),
    (PLAIN, "P0:2=w,r", ((0, 1), UNKNOWN), ((1, 2), INITIAL), ""),
    (
        DEPENDENT,
        "P1:3=r,r",
        ((1, 0), UNKNOWN),
        ((1, 3), UNKNOWN),
        "4 9 ",
    ),
    (PAIRED, "", ((0, 0), INITIAL), ((0, 1), UNKNOWN), "1 8 pair"),
    (FAILED, "", ((0, 0), INITIAL), ((0, 1), UNKNOWN), ""),
    (LOADS, "", ((1, 0), (0, 1)), ((1, 1), INITIAL), "2 "),
    (LOADS, "", ((1, 0), (0, 1)), ((1, 1), (0, 1)), ""),
    (ATOMIC, "", ((0, 0), INITIAL), ((0, 1), (0, 0)), "2 3 "),
    (ATOMIC, "", ((0, 0), INITIAL), ((0, 1), (1, 0)), "2 "),
    (FORWARDING, "", ((0, 0), INITIAL), ((0, 2), (0, 1)), "12 "),
    (FORWARDING, "", ((0, 0), INITIAL), ((0, 2), (1, 1)), ""),
];

/// Adds the runs in which other rules hold than the table says.
pub(crate) fn add_wrong_rules(
    alloc: Global,
    rows: &[((&str, u8, &str), &str, Known, Known, &str)],
    wrong: &mut String,
) -> Result<(), AllocError> {
    for (run, fences, first, second, wanted) in rows {
        let found = told(alloc, ordered(alloc, *run, fences, *first, *second))?;
        add_wrong(run.0, &found, wanted, wrong)?;
    }
    Ok(())
}
