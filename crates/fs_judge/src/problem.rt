//! A test that is ready to be judged.

ghost use Rattle.std.specs.Prelude.{◌≡◌, ◌≢◌, true, All, IfOk, OnOk, IfErr, IfSome, IsOkUnless};
ghost use Rattle.std.specs.Arc.{arc_value};
ghost use Rattle.fs_kinds.specs.declared.fault.Fault.{Fault};
ghost use Rattle.fs_kinds.specs.declared.fault.Fault.TheVariants.{Memory};
ghost use Rattle.fs_model.specs.Allows.{Allows};
ghost use Rattle.fs_model.specs.OfTests.{program_of};
ghost use Rattle.fs_model.specs.Test.{IsBounded, IsStart};
ghost use Rattle.fs_model.specs.TooMany.{IsRunFault};
ghost use Rattle.fs_cert_evidence.specs.CandidateFaults.{IsCandidateFault};
ghost use Rattle.fs_values.specs.ThinAir.{CanBeListed};
ghost use Rattle.fs_judge.specs.Verdicts.{IsVerdict};
ghost use Rattle.fs_judge.specs.inner.Findings.{IsSought};

use crate::hunters::{hunter_asking, hunter_of};
use crate::known::Known;
use crate::listed::verdict_by_list;
use crate::sought::{Sought, checked, refuted};
use crate::team::Team;
use crate::verdict::{Verdict, forbidden};
use fs_cand_listing::check_number;
use fs_cert_evidence::{Cycles, Inference};
use fs_judge_hunt::{Alone, Found, Hunter, Kept};
use fs_kinds::{Fault, List, Placement, Slot};
use fs_model::Test;
use fs_region_refutation::Basis;
use std::alloc::Global;
use std::marker::Model;
use std::sync::Arc;

/// How many inferences a hunt may make before it gives up, where nobody asks for another number.
pub const USUAL_INFERENCES: usize = 1_000_000;

/// A test with all that judging a placement takes: all runs of each hart, and what hunts over them need. No call
/// changes it, so several workers may share one. Contracts see the test.
#[derive(Drop)]
pub struct Problem {
    test: Arc<Test>,
    basis: Basis,
    hunter: Hunter,
    inferences: usize,
}

impl Model for Problem {
    ghost use Rattle.std.specs.Arc.{arc_value};
    ghost use Rattle.std.specs.Coded.{codes};
    ghost use Rattle.fs_model.specs.contracts.outcome.Outcome as outcome;
    ghost use Rattle.fs_model.specs.declared.test.Test.{Test};
    ghost use Rattle.fs_judge.specs.inner.Bases.{IsReady};

    ghost Value = { Test };

    ghost view = { λ p. arc_value p.test };

    ghost coded = { Prim.hlevel (codes, outcome.the_row.coded) };

    ghost invariant = { λ p. IsReady (arc_value p.test) p.basis };
}

/// What hunts over the runs of the test. F15 where a hart may store 11 times or more to one location in one run, and
/// there are too many candidates or lists of runs; else the error is F19.
fn hunter_over(alloc: Global, basis: &Basis) -> Result<Hunter, Fault>
    requires listable { CanBeListed basis.now }
    requires starts { All IsStart basis.now.starts }
    ensures err { IfErr result (λ f. f ≢ Memory → IsCandidateFault basis.now f) }
{
    let test = basis.test();
    let hunter = hunter_of(alloc, test, basis.names(), basis.runs())?;
    if hunter.has_many_stores() {
        check_number(alloc, test)?;
    }
    Ok(hunter)
}

impl Problem {
    /// Finds all runs of the test's harts, and makes them ready. Each hunt may make so many inferences before it gives
    /// up. The test is bounded, and its harts start with whole registers. The fault is F13 or F14 where a hart's runs
    /// can't be listed; else that of `Problem::over`. The cost is that of `Basis::new` and of `Problem::over`.
    pub fn new(alloc: Global, test: Arc<Test>, inferences: usize) -> Result<Problem, Fault>
        requires bounded { IsBounded (arc_value test) }
        requires starts { All IsStart (arc_value test).starts }
        ensures value { IfOk result (λ p. p ≡ arc_value test) }
        ensures clean { OnOk result ((f : Fault) → IsRunFault (arc_value test) f → ⊥) }
        ensures err { IfErr result (λ f. f ≢ Memory → IsCandidateFault (arc_value test) f) }
    {
        let basis = Basis::new(alloc, &test)?;
        let problem = Problem::over(alloc, test, basis, inferences)?;
        Ok(problem)
    }

    /// The same of a test whose runs are found. The fault is F15 where a hart may store 11 times or more to one
    /// location in one run, and there are too many candidates or lists of runs; or F19. The cost is that of
    /// `hunter_of`, and where so many stores are possible that of `check_number`.
    pub fn over(
        alloc: Global,
        test: Arc<Test>,
        basis: Basis,
        inferences: usize,
    ) -> Result<Problem, Fault>
        requires same { basis ≡ arc_value test }
        requires listable { CanBeListed (arc_value test) }
        requires starts { All IsStart (arc_value test).starts }
        ensures value { IfOk result (λ p. p ≡ arc_value test) }
        ensures err { IfErr result (λ f. f ≢ Memory → IsCandidateFault (arc_value test) f) }
    {
        let hunter = hunter_over(alloc, &basis)?;
        Ok(Problem {
            test,
            basis,
            hunter,
            inferences,
        })
    }

    /// The problem of another test with the same program, whose runs are these, and whose hunts give up as soon. The
    /// error is F19. The cost is that of `Basis::asking` and of `hunter_asking`.
    pub fn asking(&self, alloc: Global, test: Arc<Test>) -> Result<Problem, Fault>
        requires bounded { IsBounded (arc_value test) }
        requires same { program_of self.now ≡ program_of (arc_value test) }
        ensures value { IfOk result (λ p. p ≡ arc_value test) }
        ensures err { IsOkUnless result Memory }
    {
        let basis = self.basis.asking(alloc, &test)?;
        let hunter = hunter_asking(alloc, &self.hunter, &test, basis.runs())?;
        Ok(Problem {
            test,
            basis,
            hunter,
            inferences: self.inferences,
        })
    }

    /// The same as of `Problem::new`, to be shared by several judges.
    pub fn shared(alloc: Global, test: Arc<Test>, inferences: usize) -> Result<Arc<Problem>, Fault>
        requires bounded { IsBounded (arc_value test) }
        requires starts { All IsStart (arc_value test).starts }
        ensures value { IfOk result (λ p. arc_value p ≡ arc_value test) }
        ensures clean { OnOk result ((f : Fault) → IsRunFault (arc_value test) f → ⊥) }
        ensures err { IfErr result (λ f. f ≢ Memory → IsCandidateFault (arc_value test) f) }
    {
        let problem = Problem::new(alloc, test, inferences)?;
        Ok(Arc::new(alloc, problem)?)
    }

    /// The test.
    pub fn test(&self) -> &Test
        ensures value { result.now ≡ self.now }
        ensures bounded { IsBounded self.now }
        ensures starts { All IsStart self.now.starts }
    {
        &self.test
    }

    /// What a hunt of the team finds for the placement, if it doesn't give up; none where that doesn't hold. The error
    /// is F19.
    fn hunted<T: Team>(
        &self,
        alloc: Global,
        kept: &mut Kept,
        placement: &Placement,
        team: &T,
    ) -> Result<Option<Sought>, Fault>
        requires { T.may_hunt }
        ensures ok { IfOk result (λ found. IfSome found (IsSought self.now placement.now)) }
        ensures err { IsOkUnless result Memory }
    {
        let found = self
            .hunter
            .hunt_by(alloc, kept, placement, self.inferences, team)?;
        if matches!(&found, Found::GaveUp) {
            return Ok(Some(Sought::Nothing));
        }
        match checked(alloc, &self.basis, placement, found, team)? {
            Sought::Nothing => Ok(None),
            sought => Ok(Some(sought)),
        }
    }

    /// What a hunt of the team finds for the placement, as far as it holds. The hunt begins with what earlier ones have
    /// kept; where what it finds doesn't hold, another one begins with nothing. The error is F19.
    pub(crate) fn sought<T: Team>(
        &self,
        alloc: Global,
        kept: &mut Kept,
        placement: &Placement,
        team: &T,
    ) -> Result<Sought, Fault>
        requires { T.may_hunt }
        ensures ok { IfOk result (IsSought self.now placement.now) }
        ensures err { IsOkUnless result Memory }
    {
        if let Some(sought) = self.hunted(alloc, kept, placement, team)? {
            return Ok(sought);
        }
        kept.refuse();
        match self.hunted(alloc, kept, placement, team)? {
            Some(sought) => Ok(sought),
            None => Ok(Sought::Nothing),
        }
    }

    /// The verdict where the inferences refute the test.
    pub(crate) fn refuted(
        &self,
        placement: &Placement,
        inferences: List<Inference>,
    ) -> Result<Verdict, Fault>
        requires { IsSought self.now placement.now (Sought.Refuted inferences) }
        ensures ok { IfOk result (IsVerdict self.now placement.now) }
        ensures err { IsOkUnless result Memory }
    {
        let _ = &self.test;
        forbidden(placement, Cycles::Inferred(inferences))
    }

    /// The verdict where the candidate has no cycle with the placed fences; else that by the list of candidates.
    pub(crate) fn shown(
        &self,
        alloc: Global,
        known: &Known,
        placement: &Placement,
        first: &[Slot],
    ) -> Result<Verdict, Fault>
        requires { IsSought self.now placement.now (Sought.Shown known.now) }
        ensures ok { IfOk result (IsVerdict self.now placement.now) }
        ensures err { IfErr result (λ f. f ≢ Memory → IsCandidateFault self.now f) }
    {
        let _ = &self.test;
        match known.witness(alloc, self.test(), placement, first)? {
            Some(witness) => Ok(Verdict::Allowed(witness)),
            None => self.by_list(alloc, placement, first),
        }
    }

    /// The verdict by the list of all candidates that show the outcome: the last resort, where a hunt gives up, or what
    /// it finds doesn't hold.
    pub(crate) fn by_list(
        &self,
        alloc: Global,
        placement: &Placement,
        first: &[Slot],
    ) -> Result<Verdict, Fault>
        ensures ok { IfOk result (IsVerdict self.now placement.now) }
        ensures err { IfErr result (λ f. f ≢ Memory → IsCandidateFault self.now f) }
    {
        let _ = &self.test;
        verdict_by_list(alloc, &self.test, placement, first)
    }

    /// The verdict of a judge that has judged nothing, which is the soonest: of several executions any is the witness.
    pub fn judged(
        &self,
        alloc: Global,
        placement: &Placement,
        first: &[Slot],
    ) -> Result<Verdict, Fault>
        ensures ok { IfOk result (IsVerdict self.now placement.now) }
        ensures err { IfErr result (λ f. f ≢ Memory → IsCandidateFault self.now f) }
    {
        match self.sought(alloc, &mut Kept::new(), placement, &Alone)? {
            Sought::Refuted(inferences) => self.refuted(placement, inferences),
            Sought::Shown(known) => self.shown(alloc, &known, placement, first),
            Sought::Nothing => self.by_list(alloc, placement, first),
        }
    }

    /// Whether the placement forbids the outcome, wherever its fences stand. A hunt finds a refutation, or of the
    /// executions that show the outcome the one whose candidate comes first, whose witness is widened at the first
    /// slots before the others. What is answered doesn't depend on earlier calls, unlike what a `Judge` answers. Where
    /// the hunt gives up, all candidates are judged in turn, and F15 comes where they are too many;
    /// else the error is F19. The cost is that of `Hunter::first`, and that of checking what it finds: of
    /// `reason_against`, or of `shown_by` and `widest_witness`.
    pub fn verdict(
        &self,
        alloc: Global,
        placement: &Placement,
        first: &[Slot],
    ) -> Result<Verdict, Fault>
        ensures ok { IfOk result (IsVerdict self.now placement.now) }
        ensures err { IfErr result (λ f. f ≢ Memory → IsCandidateFault self.now f) }
    {
        let found = self.hunter.first(alloc, placement, self.inferences)?;
        match checked(alloc, &self.basis, placement, found, &Alone)? {
            Sought::Refuted(inferences) => self.refuted(placement, inferences),
            Sought::Shown(known) => self.shown(alloc, &known, placement, first),
            Sought::Nothing => self.by_list(alloc, placement, first),
        }
    }

    /// Does a hunt of at most so many inferences refute the test under the placement? If so the placement forbids the
    /// outcome; else nothing is said. The cost is that of the hunt, and of `reason_against`. The error is F19.
    pub fn is_refuted_within(
        &self,
        alloc: Global,
        placement: &Placement,
        most: usize,
    ) -> Result<bool, Fault>
        ensures ok { IfOk result (λ yes. yes ≡ true → Allows self.now placement.now → ⊥) }
        ensures err { IsOkUnless result Memory }
    {
        let found = self.hunter.hunt(alloc, &mut Kept::new(), placement, most)?;
        let Found::Refuted(refutation) = found else {
            return Ok(false);
        };
        match refuted(alloc, &self.basis, placement, refutation, &Alone)? {
            Sought::Refuted(_) => Ok(true),
            _ => Ok(false),
        }
    }
}
