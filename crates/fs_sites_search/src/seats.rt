//! A seat for each test, at which its judge sits: what is asked there, and what was said.

ghost use Rattle.std.specs.Prelude.{◌≡◌, ◌≢◌, ◌<◌, [], All, IfOk, IfErr, IfSome, MatchOption, IsOkUnless, OnOk, List, length};
ghost use Rattle.std.specs.Arc.{arc_value};
ghost use Rattle.fs_kinds.specs.declared.fault.Fault.TheVariants.{Memory};
ghost use Rattle.fs_kinds.specs.declared.placement.Entry.{Entry};
ghost use Rattle.fs_model.specs.declared.test.Test.{Test as Tested};
ghost use Rattle.fs_model.specs.Test.{IsBounded, IsStart};
ghost use Rattle.fs_cert_evidence.specs.CandidateFaults.{IsCandidateFault};
ghost use Rattle.fs_judge.specs.Verdicts.{IsVerdict};
ghost use Rattle.fs_sites.specs.Questions.{IsPart, image};
ghost use Rattle.fs_sites_search.specs.Seats.{Asked, FailsAt, ForbidBelow, ForbidsAt, IsOfTest, IsPlaceOf, IsSaid, ShowsAt};

use fs_cert_evidence::Witness;
use fs_judge::{Judge, Problem, Verdict};
use fs_kinds::{Fault, Placement};
use fs_model::Test;
use fs_sites::{Part, image};
use std::alloc::Global;
use std::marker::Model;
use std::mem;
use std::sync::Arc;

/// A test and its judge, who comes with the first question, and how many inferences each of its hunts may make; the
/// fences that it is asked about, and what was said of them. Contracts see what is asked.
#[derive(Drop)]
pub(crate) struct Seat {
    number: usize,
    test: Arc<Test>,
    inferences: usize,
    judge: Option<Judge>,
    fences: Placement,
    said: Result<Option<Witness>, Fault>,
}

impl Model for Seat {
    ghost use Rattle.std.specs.Prelude.{◌≡◌, All, IfSome};
    ghost use Rattle.std.specs.Arc.{arc_value};
    ghost use Rattle.std.specs.Coded.{codes};
    ghost use Rattle.fs_model.specs.contracts.outcome.Outcome as outcome;
    ghost use Rattle.fs_model.specs.Test.{IsBounded, IsStart};
    ghost use Rattle.fs_sites_search.specs.Seats.{Asked, IsSaid};

    ghost Value = { Asked };

    ghost view = { λ s. record { number = s.number; test = arc_value s.test; fences = s.fences } };

    ghost coded = { Prim.hlevel (codes, outcome.the_row.coded) };

    ghost invariant = { λ s. IsBounded (arc_value s.test) × All IsStart (arc_value s.test).starts
        × IfSome s.judge (λ judge. judge ≡ arc_value s.test) × IsSaid (arc_value s.test) s.fences s.said };
}

/// A judge of the test.
fn judge_of(alloc: Global, test: &Arc<Test>, inferences: usize) -> Result<Judge, Fault>
    requires bounded { IsBounded (arc_value test.now) }
    requires starts { All IsStart (arc_value test.now).starts }
    ensures ok { IfOk result (λ judge. judge ≡ arc_value test.now) }
    ensures err { IfErr result (λ f. f ≢ Memory → IsCandidateFault (arc_value test.now) f) }
{
    let test = Arc::try_clone(test)?;
    let problem = Problem::shared(alloc, test, inferences)?;
    Ok(Judge::new(alloc, problem))
}

/// What a verdict says.
fn said_by(verdict: Result<Verdict, Fault>) -> Result<Option<Witness>, Fault>
    ensures { (t : Tested) (p : List Entry) → IfOk verdict (IsVerdict t p)
        → IfErr verdict (λ f. f ≢ Memory → IsCandidateFault t f) → IsSaid t p result }
{
    match verdict {
        Ok(Verdict::Allowed(witness)) => Ok(Some(witness)),
        Ok(Verdict::Forbids(_)) => Ok(None),
        Err(fault) => Err(fault),
    }
}

impl Seat {
    /// A seat of the test of this number, at which nothing was asked yet.
    fn new(alloc: Global, number: usize, part: &Part, inferences: usize) -> Result<Seat, Fault>
        requires { IsPart part.now }
        ensures number { IfOk result (λ seat. seat.number ≡ number) }
        ensures test { IfOk result (λ seat. seat.test ≡ part.now.test) }
        ensures err { IsOkUnless result Memory }
    {
        let test = Arc::try_clone(&part.test)?;
        let fences = Placement::bottom(alloc, &[])?;
        Ok(Seat {
            number,
            test,
            inferences,
            judge: None,
            fences,
            said: Err(Fault::Memory),
        })
    }

    /// Which test it is of.
    pub(crate) fn number(&self) -> usize
        ensures { result ≡ self.now.number }
    {
        self.number
    }

    /// The same with what these fences of the sites put into the test, of which nothing was said yet.
    pub(crate) fn fenced(
        self,
        alloc: Global,
        part: &Part,
        placement: &Placement,
    ) -> Result<Seat, Fault>
        requires { IsPart part.now }
        ensures test { IfOk result (λ seat. (seat.number ≡ self.number) × (seat.test ≡ self.test)) }
        ensures fences { IfOk result (λ seat. seat.fences ≡ image part.now.places placement.now) }
        ensures err { IsOkUnless result Memory }
    {
        let Seat {
            number,
            test,
            inferences,
            judge,
            ..
        } = self;
        let fences = image(alloc, &part.places, placement)?;
        Ok(Seat {
            number,
            test,
            inferences,
            judge,
            fences,
            said: Err(Fault::Memory),
        })
    }

    /// The judge, who leaves the seat.
    fn called(&mut self, alloc: Global) -> Result<Judge, Fault>
        ensures same { self.new ≡ self.old }
        ensures ok { IfOk result (λ judge. judge ≡ self.old.test) }
        ensures err { IfErr result (λ f. f ≢ Memory → IsCandidateFault self.old.test f) }
    {
        match self.judge.take() {
            Some(judge) => Ok(judge),
            None => judge_of(alloc, &self.test, self.inferences),
        }
    }

    /// What the judge says.
    fn asked(&mut self, alloc: Global) -> Result<Option<Witness>, Fault>
        ensures same { self.new ≡ self.old }
        ensures said { IsSaid self.old.test self.old.fences result }
    {
        let mut judge = match self.called(alloc) {
            Ok(judge) => judge,
            Err(fault) => return Err(fault),
        };
        let verdict = judge.verdict(alloc, &self.fences, &[]);
        self.judge = Some(judge);
        said_by(verdict)
    }

    /// Asks, and keeps what is said.
    pub(crate) fn ask(&mut self, alloc: Global)
        ensures { self.new ≡ self.old }
    {
        self.said = self.asked(alloc);
    }

    /// What was said, which the seat forgets.
    fn take(&mut self) -> Result<Option<Witness>, Fault>
        ensures same { self.new ≡ self.old }
        ensures said { IsSaid self.old.test self.old.fences result }
    {
        mem::replace(&mut self.said, Err(Fault::Memory))
    }
}

/// Adds a seat of the test of this number.
fn add_seat(
    alloc: Global,
    parts: &[Part],
    number: usize,
    seats: &mut Vec<Seat>,
    inferences: usize,
) -> Result<(), Fault>
    requires parts { All IsPart parts.now }
    requires low { number < length parts.now }
    requires seats { All (IsOfTest parts.now) seats.old.items }
    ensures ok { OnOk result (All (IsOfTest parts.now) seats.new.items) }
    ensures err { IsOkUnless result Memory }
{
    seats.push(Seat::new(alloc, number, &parts[number], inferences)?)?;
    Ok(())
}

/// A seat for each test. They are dealt to so many workers by turns, so that each gets some of tests that are alike,
/// which mostly stand side by side.
pub(crate) fn seats_of(
    alloc: Global,
    parts: &[Part],
    workers: usize,
    inferences: usize,
) -> Result<Vec<Seat>, Fault>
    requires parts { All IsPart parts.now }
    requires some { 0 < workers }
    ensures ok { IfOk result (λ seats. All (IsOfTest parts.now) seats.items) }
    ensures err { IsOkUnless result Memory }
{
    let mut seats = Vec::new(alloc);
    for worker in 0..workers {
        for number in 0..parts.len() {
            if number % workers == worker {
                add_seat(alloc, parts, number, &mut seats, inferences)?;
            }
        }
    }
    Ok(seats)
}

/// Where the seat of the test of this number is.
fn place_of(seats: &[Seat], number: usize) -> Option<usize>
    ensures { IfSome result (IsPlaceOf seats.now number) }
{
    for place in 0..seats.len() {
        if seats[place].number() == number {
            return Some(place);
        }
    }
    None
}

/// What was said of the test of this number, which is forgotten. The error is its fault, or F19.
fn said_of(seats: &mut [Seat], number: usize) -> Result<Option<Witness>, Fault>
    ensures same { seats.new ≡ seats.old }
    ensures ok { IfOk result (λ found. MatchOption found (ForbidsAt seats.old number) (ShowsAt seats.old number)) }
    ensures err { IfErr result (λ f. f ≢ Memory → FailsAt seats.old f) }
{
    match place_of(seats, number) {
        Some(place) => seats[place].take(),
        None => Err(Fault::Memory),
    }
}

/// Of so many tests the first that wasn't said to forbid its outcome: its number and a witness, or its fault.
pub(crate) fn first_allowing(
    seats: &mut [Seat],
    tests: usize,
) -> Result<Option<(usize, Witness)>, Fault>
    ensures same { seats.new ≡ seats.old }
    ensures ok { IfOk result (λ found. MatchOption found (ForbidBelow seats.old tests)
        (λ shown. ShowsAt seats.old shown.0 shown.1)) }
    ensures err { IfErr result (λ f. f ≢ Memory → FailsAt seats.old f) }
{
    for number in 0..tests {
        if let Some(witness) = said_of(seats, number)? {
            return Ok(Some((number, witness)));
        }
    }
    Ok(None)
}

/// Of so many tests all that were said to allow their outcomes, with a witness each. Where there are none, the fault of
/// the first that has one.
pub(crate) fn all_allowing(
    alloc: Global,
    seats: &mut [Seat],
    tests: usize,
) -> Result<Vec<(usize, Witness)>, Fault>
    ensures same { seats.new ≡ seats.old }
    ensures shown { IfOk result (λ found. All (λ shown. ShowsAt seats.old shown.0 shown.1) found.items) }
    ensures none { IfOk result (λ found. found.items ≡ [] → ForbidBelow seats.old tests) }
    ensures err { IfErr result (λ f. f ≢ Memory → FailsAt seats.old f) }
{
    let mut found = Vec::new(alloc);
    let mut failed = None;
    for number in 0..tests {
        match said_of(seats, number) {
            Ok(None) => {}
            Ok(Some(witness)) => found.push((number, witness))?,
            Err(fault) => {
                if failed.is_none() {
                    failed = Some(fault);
                }
            }
        }
    }
    if found.is_empty() {
        if let Some(fault) = failed {
            return Err(fault);
        }
    }
    Ok(found)
}
