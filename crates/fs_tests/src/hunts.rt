//! What hunts find is right: trees by the check of trees, executions by the check of executions.

ghost use Rattle.std.specs.Prelude.{All, IfOk};
ghost use Rattle.std.specs.Arc.{arc_value};
ghost use Rattle.fs_model.specs.Test.{IsBounded, IsStart, IsTest};

use crate::texts::{ADDERS, ALWAYS, CASES, LAST, LOCK, LOCK3, PAIRS, SEEN, SOURCES, THREE, UNTOLD};
use fs_cert_evidence::{Names, WitnessFile};
use fs_check::shown_by;
use fs_judge::hunter_of;
use fs_judge_hunt::{Execution, Found, Hunter, Kept, Refutation};
use fs_kinds::{Fault, Placement};
use fs_litmus::{Test, read_test};
use fs_model::Choice;
use fs_region_refutation::{Basis, reason_against};
use fs_tests_shared::{
    CO_RR, FORWARDED, LB, LRSC, LRSCF, MP, MP11, MPA, MPB, POINTER, SB, SBXA, TWO_WRITES,
    placement_of,
};
use std::alloc::{AllocError, Global};
use std::sync::Arc;

/// How a hunt is made.
#[derive(Clone, Copy)]
struct Way {
    is_first: bool,
    most: usize,
}

const ANY: Way = Way {
    is_first: false,
    most: 1000000,
};

const FIRST: Way = Way {
    is_first: true,
    most: 1000000,
};

/// Writes the choice.
fn write_choice(choice: &Choice, text: &mut String) -> Result<(), AllocError> {
    match choice {
        Choice::Word(word) => write!(text, " Word({word})"),
        Choice::Success => text.push_str(" Success"),
        Choice::Failure => text.push_str(" Failure"),
    }
}

/// Writes the choices of each hart.
fn write_choices(file: &WitnessFile, text: &mut String) -> Result<(), AllocError> {
    for choices in file.choices.iter() {
        text.push_str(";")?;
        for choice in choices.iter() {
            write_choice(choice, text)?;
        }
    }
    Ok(())
}

/// Writes the order of the operations.
fn write_order(file: &WitnessFile, text: &mut String) -> Result<(), AllocError> {
    text.push_str(" :")?;
    for name in file.order.iter().flatten() {
        write!(text, " P{}:{}", name.hart, name.at)?;
    }
    Ok(())
}

/// The execution as a witness file has it.
fn file_of(alloc: Global, execution: Execution) -> Result<WitnessFile, AllocError> {
    let mut order = Vec::new(alloc);
    for name in &execution.order {
        order.push(Some(*name))?;
    }
    Ok(WitnessFile {
        choices: execution.choices,
        order: Names::new(order),
    })
}

/// Whether the inferences refute the test.
fn refuted_words(
    alloc: Global,
    basis: &Basis,
    placement: &Placement,
    tree: &Refutation,
) -> Result<&'static str, Fault> {
    match reason_against(alloc, basis, placement, tree.inferences.as_slice())? {
        None => Ok("refuted, None"),
        Some(_) => Ok("refuted, but not so"),
    }
}

/// Writes whether the execution shows the outcome, and of a first one which it is.
fn write_shown(
    alloc: Global,
    test: &Test,
    placement: &Placement,
    file: &WitnessFile,
    is_first: bool,
    text: &mut String,
) -> Result<(), Fault>
    requires bounded { IsBounded test.now }
    requires starts { All IsStart test.now.starts }
{
    let is_right = shown_by(alloc, test, placement, file)?.is_some();
    write!(text, "shown {is_right}")?;
    if is_first {
        write_choices(file, text)?;
        write_order(file, text)?;
    }
    Ok(())
}

/// What was found, in words.
fn told(
    alloc: Global,
    basis: &Basis,
    test: &Test,
    placement: &Placement,
    found: Found,
    way: Way,
) -> Result<String, Fault>
    requires bounded { IsBounded test.now }
    requires starts { All IsStart test.now.starts }
{
    let mut text = String::new(alloc);
    match found {
        Found::Refuted(tree) => text.push_str(refuted_words(alloc, basis, placement, &tree)?)?,
        Found::Shown(execution) => {
            let file = file_of(alloc, execution)?;
            write_shown(alloc, test, placement, &file, way.is_first, &mut text)?;
        }
        Found::GaveUp => text.push_str("gave up")?,
    }
    Ok(text)
}

/// A test that is ready for hunts.
#[derive(Drop)]
pub(crate) struct Prepared {
    pub(crate) test: Arc<Test>,
    pub(crate) basis: Basis,
    pub(crate) hunter: Hunter,
}

/// The test of this text.
pub(crate) fn prepare(alloc: Global, text: &str) -> Result<Prepared, Fault>
    ensures { IfOk result (λ ready. IsTest (arc_value ready.test)) }
{
    let test = Arc::new(alloc, read_test(alloc, text.as_bytes())?)?;
    let basis = Basis::new(alloc, &test)?;
    let hunter = hunter_of(alloc, &test, basis.names(), basis.runs())?;
    Ok(Prepared {
        test,
        basis,
        hunter,
    })
}

/// What a hunt finds.
fn found_by(
    alloc: Global,
    hunter: &Hunter,
    placement: &Placement,
    way: Way,
) -> Result<Found, Fault> {
    if way.is_first {
        return hunter.first(alloc, placement, way.most);
    }
    hunter.hunt(alloc, &mut Kept::new(), placement, way.most)
}

/// What is found on the test of this text with the fences that the words name.
fn hunted(alloc: Global, text: &str, fences: &str, way: Way) -> Result<String, Fault> {
    let ready = prepare(alloc, text)?;
    let placement = placement_of(alloc, &ready.test, fences)?;
    let found = found_by(alloc, &ready.hunter, &placement, way)?;
    told(alloc, &ready.basis, &ready.test, &placement, found, way)
}

/// Writes the same for each of the tests, a line for each.
fn write_hunted(
    alloc: Global,
    rows: &[(&str, &str)],
    way: Way,
    lines: &mut String,
) -> Result<(), Fault> {
    for (text, fences) in rows {
        let line = hunted(alloc, text, fences, way)?;
        lines.push_str(&line)?;
        lines.push_str("\n")?;
    }
    Ok(())
}

/// Two harts whose accesses are in order by fences or without.
const PLAIN: &[(&str, &str)] = &[
    (SB, ""),
    (SB, "P0:2=rw,rw"),
    (SB, "P0:2=rw,rw P1:2=w,r"),
    (MP, "P0:3=w,w"),
    (MP, "P0:3=w,w P1:1=r,r"),
    (MPA, "P0:3=w,w"),
    (MPB, "P0:3=w,w P1:2=r,r"),
    (LB, ""),
    (LB, "P0:2=r,w P1:2=rw,rw"),
    (TWO_WRITES, ""),
    (TWO_WRITES, "P0:3=w,w P1:3=w,w"),
    (CO_RR, ""),
];

pub(crate) const LOCK3_FENCES: &str = "P0:3=r,r P0:7=w,w P1:3=r,r P1:7=w,w P2:3=r,r P2:7=w,w";

/// Pairs, AMOs, forwarding, and conditions of other forms.
const OTHERS: &[(&str, &str)] = &[
    (LRSC, ""),
    (LRSCF, ""),
    (SBXA, ""),
    (POINTER, ""),
    (FORWARDED, ""),
    (ALWAYS, ""),
    (ALWAYS, "P0:2=rw,rw P1:2=rw,rw"),
    (CASES, ""),
    (CASES, "P0:2=rw,rw P1:2=rw,rw"),
    (LOCK, ""),
    (LOCK, "P0:3=r,r P0:7=w,w P1:3=r,r P1:7=w,w"),
    (LOCK, "P0:3=r,r P0:7=w,w P1:7=w,w"),
    (LOCK3, LOCK3_FENCES),
];

/// Tests of which the first execution is asked for. It is told by its choices, which are the least that show the
/// outcome, and by its order. In those below the lock a hunt for any execution finds one that isn't the first: with
/// greater words, another source, or another order of stores.
const FIRSTS: &[(&str, &str)] = &[
    (MP11, ""),
    (MP11, "P0:3=rw,rw P1:1=rw,rw"),
    (SB, ""),
    (LOCK, "P0:7=w,w P1:3=r,r"),
    (UNTOLD, ""),
    (SEEN, ""),
    (PAIRS, ""),
    (SOURCES, ""),
    (THREE, ""),
    (LAST, ""),
];

/// What is found of these tests, in their order.
pub(crate) const FOUND: &str = "shown true
shown true
refuted, None
shown true
refuted, None
refuted, None
refuted, None
shown true
refuted, None
shown true
refuted, None
refuted, None
refuted, None
shown true
refuted, None
shown true
shown true
shown true
refuted, None
shown true
refuted, None
shown true
refuted, None
shown true
refuted, None
shown true;; Word(1) Word(1) : P0:1 P0:3 P1:0 P1:1
shown true;; Word(1) Word(1) : P0:1 P0:3 P1:0 P1:1
shown true; Word(0); Word(0) : P0:2 P1:1 P1:2 P0:1
shown true; Word(0) Word(0) Word(1); Word(0) Word(0) Word(1) : P0:3 P1:1 P1:3 P1:7 P0:1 P0:5 P0:7 P1:5
shown true; Word(0); Word(0) : P0:2 P1:1 P1:2 P0:1
shown true;; Word(0) Word(1) : P0:1 P1:0 P0:2 P1:1
shown true; Word(0) Success; Word(0) Failure : P0:1 P1:1 P0:2
shown true;;; Word(1) : P0:1 P2:0 P1:1
shown true;;; : P0:1 P2:1 P1:1
shown true;; : P0:2 P1:2 P1:3 P0:3
";

/// What is found of all these tests.
pub(crate) fn all_hunted(alloc: Global) -> Result<String, Fault> {
    let mut lines = String::new(alloc);
    write_hunted(alloc, PLAIN, ANY, &mut lines)?;
    write_hunted(alloc, OTHERS, ANY, &mut lines)?;
    write_hunted(alloc, FIRSTS, FIRST, &mut lines)?;
    Ok(lines)
}

/// How many inferences the refutation has that a hunt finds; 0 where it finds none.
fn refuted_by(
    alloc: Global,
    hunter: &Hunter,
    placement: &Placement,
    most: usize,
) -> Result<usize, Fault> {
    match hunter.hunt(alloc, &mut Kept::new(), placement, most)? {
        Found::Refuted(tree) => Ok(tree.inferences.len()),
        _ => Ok(0),
    }
}

/// Writes the numbers for a limit of a million inferences, of as many as the refutation then has, and of one less: a
/// hunt gives up where the refutation would pass its limit, and not before.
fn write_bounds(
    alloc: Global,
    hunter: &Hunter,
    placement: &Placement,
    text: &mut String,
) -> Result<(), Fault> {
    let size = refuted_by(alloc, hunter, placement, ANY.most)?;
    let within = refuted_by(alloc, hunter, placement, size)?;
    let beyond = refuted_by(alloc, hunter, placement, size.saturating_sub(1))?;
    let is_long = size > 100;
    Ok(write!(text, "{is_long} {} {beyond}\n", within == size)?)
}

/// The same for each of the tests.
pub(crate) fn bounds_of(alloc: Global, rows: &[(&str, &str)]) -> Result<String, Fault> {
    let mut text = String::new(alloc);
    for (test, fences) in rows {
        let ready = prepare(alloc, test)?;
        let placement = placement_of(alloc, &ready.test, fences)?;
        write_bounds(alloc, &ready.hunter, &placement, &mut text)?;
    }
    Ok(text)
}

/// Locks of three harts and additions of five, which have more than 4,000,000 candidates.
pub(crate) const LONG: &[(&str, &str)] = &[(LOCK3, LOCK3_FENCES), (ADDERS, "")];

/// The numbers of these.
pub(crate) const BOUNDS: &str = "true true 0
true true 0
";
