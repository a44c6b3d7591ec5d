//! Judging placements one after the other.

ghost use Rattle.std.specs.Prelude.{◌≡◌, ◌≢◌, All, IfOk, IfErr, IfSome, IsOkUnless};
ghost use Rattle.std.specs.Arc.{arc_value};
ghost use Rattle.fs_kinds.specs.declared.fault.Fault.TheVariants.{Memory};
ghost use Rattle.fs_model.specs.Test.{IsBounded};
ghost use Rattle.fs_cert_evidence.specs.CandidateFaults.{IsCandidateFault};
ghost use Rattle.fs_judge.specs.Verdicts.{IsShownWith, IsVerdict};
ghost use Rattle.fs_judge.specs.inner.Bases.{IsKnown};

use crate::known::Known;
use crate::problem::Problem;
use crate::sought::Sought;
use crate::team::Team;
use crate::verdict::Verdict;
use fs_cert_evidence::Witness;
use fs_judge_hunt::{Alone, Kept};
use fs_kinds::{Fault, Placement, Slot};
use fs_model::Test;
use std::alloc::Global;
use std::marker::Model;
use std::sync::Arc;

/// A problem, which several judges may share; the candidates that this judge's hunts have found, of which one may have
/// no cycle with the next placement either; and what its hunts have kept. Which witness or refutation a judge finds
/// depends on what it judged before. Contracts see the test.
#[derive(Drop)]
pub struct Judge {
    problem: Arc<Problem>,
    // The newest last.
    known: Vec<Known>,
    kept: Kept,
}

impl Model for Judge {
    ghost use Rattle.std.specs.Prelude.{All};
    ghost use Rattle.std.specs.Arc.{arc_value};
    ghost use Rattle.std.specs.Coded.{codes};
    ghost use Rattle.fs_model.specs.contracts.outcome.Outcome as outcome;
    ghost use Rattle.fs_model.specs.declared.test.Test.{Test};
    ghost use Rattle.fs_judge.specs.inner.Bases.{IsKnown};

    ghost Value = { Test };

    ghost view = { λ j. arc_value j.problem };

    ghost coded = { Prim.hlevel (codes, outcome.the_row.coded) };

    ghost invariant = { λ j. All (IsKnown (arc_value j.problem)) j.known.items };
}

/// The witness of the newest of these candidates that has no cycle with the placed fences.
fn witness_among(
    alloc: Global,
    test: &Test,
    known: &[Known],
    placement: &Placement,
    first: &[Slot],
) -> Result<Option<Witness>, Fault>
    requires bounded { IsBounded test.now }
    requires known { All (IsKnown test.now) known.now }
    ensures ok { IfOk result (λ found. IfSome found (IsShownWith test.now placement.now)) }
    ensures err { IsOkUnless result Memory }
{
    for one in known.iter().rev() {
        let found = one.witness(alloc, test, placement, first)?;
        if found.is_some() {
            return Ok(found);
        }
    }
    Ok(None)
}

/// The slots at which a witness is widened before the others: these, or where there are none those that it is known to
/// bear.
fn widened_first<'a>(first: &'a [Slot], borne: &'a [Slot]) -> &'a [Slot] {
    if first.is_empty() { borne } else { first }
}

impl Judge {
    /// A judge of the problem, which has judged nothing yet.
    pub fn new(alloc: Global, problem: Arc<Problem>) -> Judge
        ensures { result ≡ arc_value problem }
    {
        Judge {
            problem,
            known: Vec::new(alloc),
            kept: Kept::widening(),
        }
    }

    /// How often what a hunt found didn't hold, which no test has met. In constant time.
    pub fn refusals(&self) -> usize {
        self.kept.refusals()
    }

    /// The problem, whose own verdicts don't depend on what was judged before.
    pub fn problem(&self) -> &Problem
        ensures { result.now ≡ self.now }
    {
        &self.problem
    }

    /// A quick look for an execution that shows the outcome with the placed fences, among those that were found before.
    /// Its witness is widened at the first slots before the others. No witness promises nothing. The cost: for each
    /// candidate that was found the steps of its runs times the slots, and for the witness that of `widest_witness`.
    /// The error is F19.
    pub fn look(
        &mut self,
        alloc: Global,
        placement: &Placement,
        first: &[Slot],
    ) -> Result<Option<Witness>, Fault>
        ensures value { self.new ≡ self.old }
        ensures ok { IfOk result (λ found. IfSome found (IsShownWith self.old placement.now)) }
        ensures err { IsOkUnless result Memory }
    {
        witness_among(alloc, self.problem.test(), &self.known, placement, first)
    }

    /// Whether the placement forbids the outcome, wherever its fences stand: the executions that were found before are
    /// tried first, and then a hunt, which begins with what earlier ones have kept, finds a refutation or a new
    /// execution. Where it gives up, all candidates are judged in turn, and F15 comes where they are too many;
    /// else the error is F19. The cost is that of `look`, of the hunt, and of checking what it
    /// finds, as of `Problem::verdict`.
    pub fn verdict(
        &mut self,
        alloc: Global,
        placement: &Placement,
        first: &[Slot],
    ) -> Result<Verdict, Fault>
        ensures value { self.new ≡ self.old }
        ensures ok { IfOk result (IsVerdict self.old placement.now) }
        ensures err { IfErr result (λ f. f ≢ Memory → IsCandidateFault self.old f) }
    {
        self.verdict_by(alloc, placement, first, &Alone)
    }

    /// The same, where the team may hunt: others join where one has looked at many regions. What is found is checked as
    /// any hunt's is, by all where there are 1,000 inferences. Which witness or refutation it is depends on their turns,
    /// whether it is a witness doesn't; but near the end of what a hunt may infer whether F15 comes may.
    pub fn verdict_by<T: Team>(
        &mut self,
        alloc: Global,
        placement: &Placement,
        first: &[Slot],
        team: &T,
    ) -> Result<Verdict, Fault>
        requires { T.may_hunt }
        ensures value { self.new ≡ self.old }
        ensures ok { IfOk result (IsVerdict self.old placement.now) }
        ensures err { IfErr result (λ f. f ≢ Memory → IsCandidateFault self.old f) }
    {
        if let Some(witness) = self.look(alloc, placement, first)? {
            return Ok(Verdict::Allowed(witness));
        }
        match self.problem.sought(alloc, &mut self.kept, placement, team)? {
            Sought::Refuted(inferences) => self.problem.refuted(placement, inferences),
            Sought::Shown(known) => {
                let slots = widened_first(first, self.kept.borne());
                let verdict = self.problem.shown(alloc, &known, placement, slots)?;
                self.known.push(known)?;
                Ok(verdict)
            }
            Sought::Nothing => self.problem.by_list(alloc, placement, first),
        }
    }
}
