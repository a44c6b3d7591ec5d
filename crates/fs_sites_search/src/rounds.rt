//! The answer to a question, in rounds: a plan breaks all bars, and is judged by each test; where one allows its outcome,
//! the execution that shows it makes a new bar.

ghost use Rattle.std.specs.Prelude.{◌≡◌, ◌≢◌, ◌≤◌, ◌⊎◌, true, map, length, All, IfOk, IfErr, MatchOption, IsOkUnless};
ghost use Rattle.fs_kinds.specs.declared.fault.Fault.TheVariants.{Memory, NodeLimit};
ghost use Rattle.fs_board_offers.specs.Offers.{cost};
ghost use Rattle.fs_board_offers.specs.Questions.{HasTop};
ghost use Rattle.fs_cert_evidence.specs.CandidateFaults.{IsCandidateFault};
ghost use Rattle.fs_judge.specs.Verdicts.{IsVerdict};
ghost use Rattle.fs_sites.specs.Plans.{ArePlain};
ghost use Rattle.fs_sites.specs.Questions.{AllowsIn, IsPart, IsQuestion, image, top};
ghost use Rattle.fs_sites.specs.Answers.{IsAnswer, IsShownIn, IsSolveFault, IsPartFault};
ghost use Rattle.fs_sites.specs.inner.Bars.{IsBarOf, IsShownBySome, ForbidBetween};

use crate::limits::Limits;
use fs_board_offers::Offers;
use fs_cert_evidence::{Cycles, Inference, Pairs, Witness};
use fs_judge::{Judge, Problem, Verdict};
use fs_kinds::{Fault, List, Placement};
use fs_sites::{Answer, Part, Question, bar_of, first_breaking, image};
use std::alloc::{AllocError, Global};
use std::sync::Arc;

/// A judge of the test.
fn judge_of(alloc: Global, part: &Part, inferences: usize) -> Result<Judge, Fault>
    requires { IsPart part.now }
    ensures ok { IfOk result (λ judge. judge ≡ part.now.test) }
    ensures err { IfErr result (λ f. f ≢ Memory → IsCandidateFault part.now.test f) }
{
    let test = Arc::try_clone(&part.test)?;
    let problem = Problem::shared(alloc, test, inferences)?;
    Ok(Judge::new(alloc, problem))
}

/// A judge of each test.
fn judges_of(alloc: Global, parts: &[Part], inferences: usize) -> Result<Vec<Judge>, Fault>
    requires { All IsPart parts.now }
    ensures ok { IfOk result (λ judges. judges.items ≡ map (λ part. part.test) parts.now) }
    ensures err { IfErr result (λ f. f ≢ Memory → IsPartFault parts.now f) }
{
    let mut judges = Vec::new(alloc);
    for part in parts {
        judges.push(judge_of(alloc, part, inferences)?)?;
    }
    Ok(judges)
}

/// Whether these fences of the sites forbid the outcome of the test.
fn verdict(
    alloc: Global,
    part: &Part,
    judge: &mut Judge,
    placement: &Placement,
) -> Result<Verdict, Fault>
    requires part { IsPart part.now }
    requires same { judge.old ≡ part.now.test }
    ensures value { judge.new ≡ judge.old }
    ensures ok { IfOk result (IsVerdict part.now.test (image part.now.places placement.now)) }
    ensures err { IfErr result (λ f. f ≢ Memory → IsCandidateFault part.now.test f) }
{
    let fences = image(alloc, &part.places, placement)?;
    judge.verdict(alloc, &fences, &[])
}

/// Of the tests from one number up to another the first whose outcome these fences of the sites allow, by its number,
/// and a witness.
fn allowing_between(
    alloc: Global,
    parts: &[Part],
    judges: &mut [Judge],
    from: usize,
    to: usize,
    placement: &Placement,
) -> Result<Option<(usize, Witness)>, Fault>
    requires parts { All IsPart parts.now }
    requires same { judges.old ≡ map (λ part. part.test) parts.now }
    requires most { to ≤ length parts.now }
    ensures value { judges.new ≡ judges.old }
    ensures ok { IfOk result (λ found. MatchOption found (ForbidBetween parts.now from to placement.now)
        (λ shown. IsShownIn parts.now placement.now shown.0 shown.1)) }
    ensures err { IfErr result (λ f. f ≢ Memory → IsPartFault parts.now f) }
{
    for number in from..to {
        match verdict(alloc, &parts[number], &mut judges[number], placement)? {
            Verdict::Allowed(witness) => return Ok(Some((number, witness))),
            Verdict::Forbids(_) => {}
        }
    }
    Ok(None)
}

/// A test whose outcome these fences of the sites allow, by its number, and a witness; none where they forbid all
/// outcomes. The test of the first number is judged first.
fn allowing(
    alloc: Global,
    parts: &[Part],
    judges: &mut [Judge],
    first: usize,
    placement: &Placement,
) -> Result<Option<(usize, Witness)>, Fault>
    requires parts { All IsPart parts.now }
    requires same { judges.old ≡ map (λ part. part.test) parts.now }
    requires most { first ≤ length parts.now }
    ensures value { judges.new ≡ judges.old }
    ensures ok { IfOk result (λ found. MatchOption found (AllowsIn parts.now placement.now → ⊥)
        (λ shown. IsShownIn parts.now placement.now shown.0 shown.1)) }
    ensures err { IfErr result (λ f. f ≢ Memory → IsPartFault parts.now f) }
{
    let found = allowing_between(alloc, parts, judges, first, parts.len(), placement)?;
    if found.is_some() {
        return Ok(found);
    }
    allowing_between(alloc, parts, judges, 0, first, placement)
}

/// The same of `rw,rw` at each site.
fn allowing_top(
    alloc: Global,
    parts: &[Part],
    offers: &Offers,
    judges: &mut [Judge],
) -> Result<Option<(usize, Witness)>, Fault>
    requires parts { All IsPart parts.now }
    requires same { judges.old ≡ map (λ part. part.test) parts.now }
    ensures value { judges.new ≡ judges.old }
    ensures ok { IfOk result (λ found. MatchOption found (AllowsIn parts.now (top offers.now) → ⊥)
        (λ shown. IsShownIn parts.now (top offers.now) shown.0 shown.1)) }
    ensures err { IfErr result (λ f. f ≢ Memory → IsPartFault parts.now f) }
{
    let sites = offers.slots(alloc)?;
    let top = Placement::top(alloc, &sites)?;
    allowing(alloc, parts, judges, 0, &top)
}

/// The bar of the execution that the witness gives, of the test of this number: for each site the pairs that it keeps
/// there. It takes time of sites times places. The error is F19.
pub fn bar_by(
    alloc: Global,
    parts: &[Part],
    offers: &Offers,
    number: usize,
    witness: &Witness,
) -> Result<List<Pairs>, AllocError>
    requires parts { All IsPart parts.now }
    requires shown { IsShownBySome parts.now number witness.now }
    ensures { IfOk result (IsBarOf parts.now offers.now) }
{
    let part = &parts[number];
    let sites = offers.as_slice().len();
    bar_of(alloc, &part.places, &witness.widths, sites)
}

/// The placement as an answer, with its cost, which takes time of its fences times sites.
pub fn fenced(offers: &Offers, placement: Placement) -> Answer
    ensures { result ≡ Answer.Fenced placement (cost offers.now placement) }
{
    let cost = offers.cost(&placement);
    Answer::Fenced { placement, cost }
}

/// The answer by at most so many rounds, where `rw,rw` at each site forbids all outcomes; and the executions that the
/// last plan breaks.
fn by_rounds(
    alloc: Global,
    parts: &[Part],
    offers: &Offers,
    judges: &mut [Judge],
    limits: Limits,
) -> Result<(Answer, Vec<(usize, Witness)>), Fault>
    requires parts { All IsPart parts.now }
    requires top { HasTop offers.now }
    requires plain { ArePlain offers.now }
    requires same { judges.old ≡ map (λ part. part.test) parts.now }
    requires forbidden { AllowsIn parts.now (top offers.now) → ⊥ }
    ensures ok { IfOk result (λ found. IsAnswer (record { parts = parts.now; offers = offers.now }) found.0) }
    ensures err { IfErr result (λ f. f ≢ Memory → IsSolveFault parts.now f) }
{
    let mut bars = Vec::new(alloc);
    let mut broken = Vec::new(alloc);
    let mut first = 0;
    for _ in 0..limits.rounds {
        let found = first_breaking(alloc, offers, &bars, limits.steps)?;
        let Some(placement) = found else {
            unreachable!()
        };
        match allowing(alloc, parts, judges, first, &placement)? {
            None => return Ok((fenced(offers, placement), broken)),
            Some((number, witness)) => {
                bars.push(bar_by(alloc, parts, offers, number, &witness)?)?;
                broken.push((number, witness))?;
                first = number;
            }
        }
    }
    Err(Fault::NodeLimit)
}

/// The cheapest fences of the sites that forbid the outcome of each test, and of those the first; or that even `rw,rw`
/// at each site allows one. One worker searches. F16 where that isn't found in as many rounds as there may be, or where a
/// plan takes more steps than it may;
/// F13 to F15 where a verdict can't be made for the candidates of a test; or F19. The cost is that of a judge for each
/// test, and in each round that of a plan and of at most one verdict for each test.
pub fn solve(alloc: Global, question: &Question, limits: Limits) -> Result<Answer, Fault>
    requires { IsQuestion question.now }
    ensures ok { IfOk result (IsAnswer question.now) }
    ensures err { IfErr result (λ f. f ≢ Memory → IsSolveFault question.now.parts f) }
{
    let (answer, _) = solve_broken(alloc, question, limits)?;
    Ok(answer)
}

/// The same, with the executions that fences must break, each by the number of its test: the answer is the first of the
/// cheapest that break them. None where even `rw,rw` at each site allows an outcome.
pub fn solve_broken(
    alloc: Global,
    question: &Question,
    limits: Limits,
) -> Result<(Answer, Vec<(usize, Witness)>), Fault>
    requires { IsQuestion question.now }
    ensures ok { IfOk result (λ found. IsAnswer question.now found.0) }
    ensures err { IfErr result (λ f. f ≢ Memory → IsSolveFault question.now.parts f) }
{
    let parts = question.parts.as_slice();
    let offers = &question.offers;
    let mut judges = judges_of(alloc, parts, limits.inferences)?;
    if let Some((part, witness)) = allowing_top(alloc, parts, offers, &mut judges)? {
        return Ok((Answer::None { part, witness }, Vec::new(alloc)));
    }
    by_rounds(alloc, parts, offers, &mut judges, limits)
}

/// The inferences, where what shows that an outcome is forbidden isn't a list of cycles.
fn inferences_in(cycles: Cycles) -> Result<List<Inference>, Fault>
    ensures { IfErr result (λ f. f ≡ NodeLimit) }
{
    match cycles {
        Cycles::Inferred(inferences) => Ok(inferences),
        Cycles::Listed(_) => Err(Fault::NodeLimit),
    }
}

/// The inferences that refute the test with these fences of the sites, which forbid its outcome. F16 where a refutation
/// isn't found; else as a verdict.
fn refutation(
    alloc: Global,
    part: &Part,
    placement: &Placement,
    inferences: usize,
) -> Result<List<Inference>, Fault>
    requires { IsPart part.now }
    ensures { IfErr result (λ f. f ≢ Memory → (f ≡ NodeLimit) ⊎ IsCandidateFault part.now.test f) }
{
    let mut judge = judge_of(alloc, part, inferences)?;
    match verdict(alloc, part, &mut judge, placement)? {
        Verdict::Forbids(found) => inferences_in(found.cycles),
        Verdict::Allowed(_) => Err(Fault::NodeLimit),
    }
}

/// For each test the inferences that refute it with these fences of the sites, which forbid its outcome. F16 where a
/// hunt for them gives up; else as a verdict, which is what it costs for each test.
pub fn refutations(
    alloc: Global,
    parts: &[Part],
    placement: &Placement,
    inferences: usize,
) -> Result<Vec<List<Inference>>, Fault>
    requires { All IsPart parts.now }
    ensures { IfErr result (λ f. f ≢ Memory → IsSolveFault parts.now f) }
{
    let mut cycles = Vec::new(alloc);
    for part in parts {
        cycles.push(refutation(alloc, part, placement, inferences)?)?;
    }
    Ok(cycles)
}
