//! The answer to a question in rounds, as one worker finds it; but that in a round all tests are judged, and each that
//! allows its outcome gives a bar.

ghost use Rattle.std.specs.Prelude.{◌≡◌, ◌≢◌, ◌<◌, [], All, IfOk, IfErr, MatchOption, IsOkUnless, OnOk};
ghost use Rattle.fs_kinds.specs.declared.fault.Fault.TheVariants.{Memory};
ghost use Rattle.fs_board_offers.specs.Questions.{HasTop};
ghost use Rattle.fs_sites.specs.Plans.{ArePlain};
ghost use Rattle.fs_sites.specs.Questions.{AllowsIn, IsPart, IsQuestion, top};
ghost use Rattle.fs_sites.specs.Answers.{IsAnswer, IsShownIn, IsSolveFault, IsPartFault};
ghost use Rattle.fs_sites.specs.inner.Bars.{AreBars, IsShownBySome};
ghost use Rattle.fs_sites_search.specs.Seats.{IsAskedIn, IsOfTest};

use crate::limits::Limits;
use crate::rounds::{bar_by, fenced, solve_broken};
use crate::seats::{Seat, all_allowing, first_allowing, seats_of};
use fs_board_offers::Offers;
use fs_cert_evidence::{Pairs, Witness};
use fs_kinds::{Fault, List, Placement};
use fs_sites::{Answer, Part, Question, first_breaking};
use std::alloc::{AllocError, Global};
use std::thread;
use std::thread::Threads;

/// The seats, asked of these fences of the sites, where nothing was said yet.
fn fenced_seats(
    alloc: Global,
    parts: &[Part],
    seats: Vec<Seat>,
    placement: &Placement,
) -> Result<Vec<Seat>, Fault>
    requires parts { All IsPart parts.now }
    requires seats { All (IsOfTest parts.now) seats.items }
    ensures ok { IfOk result (λ seats. All (IsAskedIn parts.now placement.now) seats.items) }
    ensures err { IsOkUnless result Memory }
{
    let mut asked = Vec::new(alloc);
    for seat in seats {
        let part = &parts[seat.number()];
        asked.push(seat.fenced(alloc, part, placement)?)?;
    }
    Ok(asked)
}

/// Asks at all seats, in so many threads at most.
fn ask_all<R: Threads + Sync>(rt: &R, alloc: Global, seats: &mut [Seat], workers: usize)
    requires { 0 < workers }
    ensures { seats.new ≡ seats.old }
{
    thread::for_each_mut(rt, seats, workers, &|_, seat| seat.ask(alloc));
}

/// The seats, at which was said whether these fences of the sites forbid the outcome of each test.
fn asked_seats<R: Threads + Sync>(
    rt: &R,
    alloc: Global,
    parts: &[Part],
    seats: Vec<Seat>,
    placement: &Placement,
    workers: usize,
) -> Result<Vec<Seat>, Fault>
    requires parts { All IsPart parts.now }
    requires seats { All (IsOfTest parts.now) seats.items }
    requires some { 0 < workers }
    ensures ok { IfOk result (λ seats. All (IsAskedIn parts.now placement.now) seats.items) }
    ensures err { IsOkUnless result Memory }
{
    let mut asked = fenced_seats(alloc, parts, seats, placement)?;
    ask_all(rt, alloc, asked.as_mut_slice(), workers);
    Ok(asked)
}

/// The first test that even `rw,rw` at each site allows its outcome, by its number, and a witness; none where they
/// forbid all outcomes. It comes with the seats.
fn allowing_top<R: Threads + Sync>(
    rt: &R,
    alloc: Global,
    parts: &[Part],
    offers: &Offers,
    seats: Vec<Seat>,
    workers: usize,
) -> Result<(Vec<Seat>, Option<(usize, Witness)>), Fault>
    requires parts { All IsPart parts.now }
    requires seats { All (IsOfTest parts.now) seats.items }
    requires some { 0 < workers }
    ensures seats { IfOk result (λ found. All (IsOfTest parts.now) found.0.items) }
    ensures ok { IfOk result (λ found. MatchOption found.1 (AllowsIn parts.now (top offers.now) → ⊥)
        (λ shown. IsShownIn parts.now (top offers.now) shown.0 shown.1)) }
    ensures err { IfErr result (λ f. f ≢ Memory → IsPartFault parts.now f) }
{
    let sites = offers.slots(alloc)?;
    let top = Placement::top(alloc, &sites)?;
    let mut asked = asked_seats(rt, alloc, parts, seats, &top, workers)?;
    let found = first_allowing(asked.as_mut_slice(), parts.len())?;
    Ok((asked, found))
}

/// The tests whose outcomes these fences of the sites allow, by their numbers, with a witness each; none where they
/// forbid all outcomes. They come with the seats.
fn allowing<R: Threads + Sync>(
    rt: &R,
    alloc: Global,
    parts: &[Part],
    seats: Vec<Seat>,
    placement: &Placement,
    workers: usize,
) -> Result<(Vec<Seat>, Vec<(usize, Witness)>), Fault>
    requires parts { All IsPart parts.now }
    requires seats { All (IsOfTest parts.now) seats.items }
    requires some { 0 < workers }
    ensures seats { IfOk result (λ found. All (IsOfTest parts.now) found.0.items) }
    ensures shown { IfOk result (λ found. All (λ shown. IsShownIn parts.now placement.now shown.0 shown.1)
        found.1.items) }
    ensures none { IfOk result (λ found. found.1.items ≡ [] → AllowsIn parts.now placement.now → ⊥) }
    ensures err { IfErr result (λ f. f ≢ Memory → IsPartFault parts.now f) }
{
    let mut asked = asked_seats(rt, alloc, parts, seats, placement, workers)?;
    let found = all_allowing(alloc, asked.as_mut_slice(), parts.len())?;
    Ok((asked, found))
}

/// Adds the bars of these executions, and the executions to those that are to be broken.
fn add_bars(
    alloc: Global,
    parts: &[Part],
    offers: &Offers,
    found: Vec<(usize, Witness)>,
    bars: &mut Vec<List<Pairs>>,
    broken: &mut Vec<(usize, Witness)>,
) -> Result<(), AllocError>
    requires parts { All IsPart parts.now }
    requires shown { All (λ shown. IsShownBySome parts.now shown.0 shown.1) found.items }
    requires bars { AreBars parts.now offers.now bars.old.items }
    ensures { OnOk result (AreBars parts.now offers.now bars.new.items) }
{
    for (number, witness) in found {
        bars.push(bar_by(alloc, parts, offers, number, &witness)?)?;
        broken.push((number, witness))?;
    }
    Ok(())
}

/// The answer, where `rw,rw` at each site forbids all outcomes; and the executions that the last plan breaks.
fn by_rounds<R: Threads + Sync>(
    rt: &R,
    alloc: Global,
    parts: &[Part],
    offers: &Offers,
    seats: Vec<Seat>,
    limits: Limits,
) -> Result<(Answer, Vec<(usize, Witness)>), Fault>
    requires parts { All IsPart parts.now }
    requires top { HasTop offers.now }
    requires plain { ArePlain offers.now }
    requires seats { All (IsOfTest parts.now) seats.items }
    requires some { 0 < limits.workers }
    requires forbidden { AllowsIn parts.now (top offers.now) → ⊥ }
    ensures ok { IfOk result (λ found. IsAnswer (record { parts = parts.now; offers = offers.now }) found.0) }
    ensures err { IfErr result (λ f. f ≢ Memory → IsSolveFault parts.now f) }
{
    let workers = usize::from(limits.workers);
    let mut seats = seats;
    let mut bars = Vec::new(alloc);
    let mut broken = Vec::new(alloc);
    for _ in 0..limits.rounds {
        let breaking = first_breaking(alloc, offers, &bars, limits.steps)?;
        let Some(placement) = breaking else {
            unreachable!()
        };
        let (asked, found) = allowing(rt, alloc, parts, seats, &placement, workers)?;
        if found.is_empty() {
            return Ok((fenced(offers, placement), broken));
        }
        add_bars(alloc, parts, offers, found, &mut bars, &mut broken)?;
        seats = asked;
    }
    Err(Fault::NodeLimit)
}

/// The same by several workers.
fn solve_together<R: Threads + Sync>(
    rt: &R,
    alloc: Global,
    question: &Question,
    limits: Limits,
) -> Result<(Answer, Vec<(usize, Witness)>), Fault>
    requires question { IsQuestion question.now }
    requires some { 0 < limits.workers }
    ensures ok { IfOk result (λ found. IsAnswer question.now found.0) }
    ensures err { IfErr result (λ f. f ≢ Memory → IsSolveFault question.now.parts f) }
{
    let parts = question.parts.as_slice();
    let offers = &question.offers;
    let workers = usize::from(limits.workers);
    let seats = seats_of(alloc, parts, workers, limits.inferences)?;
    let (seats, found) = allowing_top(rt, alloc, parts, offers, seats, workers)?;
    if let Some((part, witness)) = found {
        return Ok((Answer::None { part, witness }, Vec::new(alloc)));
    }
    by_rounds(rt, alloc, parts, offers, seats, limits)
}

/// The answer to a question, as `solve` gives it, by up to so many workers: that of `solve_broken_by`.
pub fn solve_by<R: Threads + Sync>(
    rt: &R,
    alloc: Global,
    question: &Question,
    limits: Limits,
) -> Result<Answer, Fault>
    requires { IsQuestion question.now }
    ensures ok { IfOk result (IsAnswer question.now) }
    ensures err { IfErr result (λ f. f ≢ Memory → IsSolveFault question.now.parts f) }
{
    let (answer, _) = solve_broken_by(rt, alloc, question, limits)?;
    Ok(answer)
}

/// The answer to a question and the executions that fences must break, as `solve_broken` gives them, by
/// up to so many workers. In a round all tests are judged with its plan, those that are dealt to one worker in a thread
/// of its own, and each that allows its outcome gives a bar. So there are mostly fewer rounds than with one worker, who
/// judges only up to the first such test. The answer is the same; which executions are broken may differ from those of
/// one worker, and is the same for any larger number of them. The faults are those of `solve_broken`:
/// in a round in which no test allows its outcome, that of the first test that has one. Where no thread can be made
/// the tests are judged in turn.
pub fn solve_broken_by<R: Threads + Sync>(
    rt: &R,
    alloc: Global,
    question: &Question,
    limits: Limits,
) -> Result<(Answer, Vec<(usize, Witness)>), Fault>
    requires { IsQuestion question.now }
    ensures ok { IfOk result (λ found. IsAnswer question.now found.0) }
    ensures err { IfErr result (λ f. f ≢ Memory → IsSolveFault question.now.parts f) }
{
    if limits.workers < 2 {
        return solve_broken(alloc, question, limits);
    }
    solve_together(rt, alloc, question, limits)
}
