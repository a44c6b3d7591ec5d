//! One run of one hart.

ghost use Rattle.std.specs.Prelude.{◌≡◌, [], Some, IfOk, IsOkUnless};
ghost use Rattle.std.specs.Arc.{arc_value};
ghost use Rattle.std.specs.Option.{option_copied};
ghost use Rattle.fs_kinds.specs.declared.fault.Fault.TheVariants.{Memory};
ghost use Rattle.fs_model.specs.Numbers.{is_same};
ghost use Rattle.fs_model.specs.OfTests.{program_of};
ghost use Rattle.fs_model.specs.Operations.{steps_of};
ghost use Rattle.fs_model.specs.Test.{IsBounded};
ghost use Rattle.fs_model.specs.Preserved.{Rule, Rule8};
ghost use Rattle.fs_model.specs.Shows.{final_register};
ghost use Rattle.fs_ppo.specs.Rules.{number_of as number_of_rule};
ghost use Rattle.fs_hart.specs.Steps.{steps_in};
ghost use Rattle.fs_cert_evidence.specs.Regions.{Region, step_at, address_at, loaded_at, stored_at, loads_at};
ghost use Rattle.fs_cert_evidence.specs.Musts.{traces_of, number_of, is_rule};
ghost use Rattle.fs_cert_evidence.specs.Splits.{chosen_at};
ghost use Rattle.fs_region_refutation.specs.Alone.{IsRun, Knows, execution_of};
ghost use Rattle.fs_region_refutation.specs.declared.doings.Doing.{Doing};
ghost use Rattle.fs_region_refutation.specs.Beside.{doing_of, IsBeside};
ghost use Rattle.fs_region_refutation.specs.inner.Ordered.{IsOwn, number_from, is_unnamed, count_as_one};
ghost use Rattle.fs_region_refutation.specs.inner.Tables.{IsReady};

use crate::choice::choice_number;
use crate::doings::{Doing, Doings, doing_from};
use crate::idle::{candidate_of, code_of};
use crate::naming::is_name;
use crate::rules::{Returned, is_ordered};
use crate::source::{Source, Sourced, is_same_source};
use crate::tables::{Table, listed_at, numbers, places, step_of};
use fs_cand::Candidate;
use fs_hart::{Step, Trace, steps_of};
use fs_instr::Reg;
use fs_kinds::{Fault, OperationName, Placement};
use fs_model::Test;
use fs_ppo::rule;
use std::alloc::{AllocError, Global};
use std::marker::Model;
use std::sync::Arc;

/// What a run is asked: all that doesn't depend on the test's condition.
#[derive(Drop)]
struct Made {
    // The run, and empty runs of the other harts. No load has a source.
    candidate: Candidate,
    // By positions of the code: the place of the step that executes the instruction there.
    places: Table,
    // And the number of the operation that this is.
    numbers: Table,
}

/// The run of the hart, and what stands where in it. The error is F19.
fn made_of(alloc: Global, test: &Test, hart: u8, trace: Trace) -> Result<Made, Fault>
    requires test { IsBounded test.now }
    requires run { IsRun test.now hart trace }
    ensures ready { IfOk result (λ made. IsReady test.now hart made.candidate made.places.items made.numbers.items) }
    ensures steps { IfOk result (λ made. steps_of (steps_in made.candidate.traces) hart ≡ trace.steps) }
    ensures err { IsOkUnless result Memory }
{
    let candidate = candidate_of(alloc, test, hart, trace)?;
    let positions = code_of(test, hart).len();
    let steps = steps_of(candidate.traces.as_slice(), Some(hart));
    let operations = candidate.operations.as_slice();
    let places = places(alloc, positions, steps)?;
    let numbers = numbers(alloc, positions, hart, steps, operations)?;
    Ok(Made {
        candidate,
        places,
        numbers,
    })
}

/// One run of one hart of a test, made ready to be asked what it does at each position of the code, and which rules of
/// preserved program order hold in it. It keeps the run, its operations and dependencies, and registers for each hart,
/// and shares them with the same run of tests with the same program; and what it does at each position with other runs
/// of the hart. Contracts see the test, the hart and the steps.
#[derive(Drop)]
pub struct Lone {
    test: Arc<Test>,
    hart: u8,
    made: Arc<Made>,
    // What runs of the hart do, and the number of this one among them.
    doings: Arc<Doings>,
    number: usize,
}

/// The same test.
fn shared(test: &Arc<Test>) -> Result<Arc<Test>, AllocError>
    ensures { IfOk result (λ same. arc_value same ≡ arc_value test.now) }
{
    test.clone()
}

impl Model for Lone {
    ghost use Rattle.std.specs.Arc.{arc_value};
    ghost use Rattle.std.specs.Coded.{codes};
    ghost use Rattle.fs_model.specs.contracts.outcome.Outcome as outcome;
    ghost use Rattle.fs_model.specs.Operations.{steps_of};
    ghost use Rattle.fs_hart.specs.Steps.{steps_in};
    ghost use Rattle.fs_region_refutation.specs.Alone.{RunOf};
    ghost use Rattle.fs_region_refutation.specs.Beside.{IsBeside};
    ghost use Rattle.fs_region_refutation.specs.inner.Tables.{IsReady};

    ghost Value = { RunOf };

    ghost view = { λ l. record {
      test = arc_value l.test;
      hart = l.hart;
      steps = steps_of (steps_in (arc_value l.made).candidate.traces) l.hart;
    } };

    ghost coded = { Prim.hlevel (codes, outcome.the_row.coded) };

    ghost invariant = { λ l. IsReady (arc_value l.test) l.hart (arc_value l.made).candidate
        (arc_value l.made).places.items (arc_value l.made).numbers.items
        × IsBeside (arc_value l.doings) l.number (steps_of (steps_in (arc_value l.made).candidate.traces) l.hart) };
}

impl Lone {
    /// The hart's run, whose registers are those at its end: the one of this number among those whose doings are
    /// listed, if it is one of them. The test is bounded. The cost: for each position of the code the steps of the run
    /// and its operations, and what `Candidate::new` takes. The error is F19.
    pub fn new(
        alloc: Global,
        test: &Arc<Test>,
        hart: u8,
        trace: Trace,
        doings: &Arc<Doings>,
        number: usize,
    ) -> Result<Lone, Fault>
        requires test { IsBounded (arc_value test.now) }
        requires run { IsRun (arc_value test.now) hart trace }
        requires beside { IsBeside (arc_value doings.now) number trace.steps }
        ensures ok { IfOk result (λ lone.
            lone ≡ record { test = arc_value test.now; hart = hart; steps = trace.steps }) }
        ensures err { IsOkUnless result Memory }
    {
        let made = made_of(alloc, test, hart, trace)?;
        Ok(Lone {
            test: shared(test)?,
            hart,
            made: Arc::new(alloc, made)?,
            doings: Arc::try_clone(doings)?,
            number,
        })
    }

    /// The same run of a test with the same program. In constant time.
    pub fn asking(&self, test: &Arc<Test>) -> Result<Lone, AllocError>
        requires { program_of self.now.test ≡ program_of (arc_value test.now) }
        ensures { IfOk result (λ lone. lone
            ≡ record { test = arc_value test.now; hart = self.now.hart; steps = self.now.steps }) }
    {
        Ok(Lone {
            test: shared(test)?,
            hart: self.hart,
            made: Arc::try_clone(&self.made)?,
            doings: Arc::try_clone(&self.doings)?,
            number: self.number,
        })
    }

    /// The number of the hart.
    pub fn hart(&self) -> u8
        ensures { result ≡ self.now.hart }
    {
        self.hart
    }

    /// The steps of the run, in program order.
    pub fn steps(&self) -> &[Step]
        ensures { result.now ≡ self.now.steps }
    {
        steps_of(self.made.candidate.traces.as_slice(), Some(self.hart))
    }

    /// The step that executes the instruction at this position of the code.
    fn step_at(&self, at: u8) -> Option<&Step>
        ensures { option_copied result ≡ step_at self.now.steps at }
    {
        step_of(self.steps(), listed_at(&self.made.places, at))
    }

    /// What the run does at this position of the code, where it is listed.
    fn listed(&self, at: u8) -> Option<&Doing>
        ensures { (doing : Doing) → option_copied result ≡ Some doing → doing ≡ doing_of self.now.steps at }
    {
        self.doings.at(at, self.number)
    }

    /// What the run does at this position of the code. In constant time.
    pub fn doing_at(&self, at: u8) -> Doing
        ensures { result ≡ doing_of self.now.steps at }
    {
        match self.listed(at) {
            Some(doing) => *doing,
            None => doing_from(self.step_at(at)),
        }
    }

    /// The address that the run accesses there. In constant time.
    pub fn address_at(&self, at: u8) -> Option<u32>
        ensures { result ≡ address_at self.now.steps at }
    {
        self.doing_at(at).address
    }

    /// The word that it loads there. In constant time.
    pub fn loaded_at(&self, at: u8) -> Option<u32>
        ensures { result ≡ loaded_at self.now.steps at }
    {
        self.doing_at(at).loaded
    }

    /// The word that it stores there. In constant time.
    pub fn stored_at(&self, at: u8) -> Option<u32>
        ensures { result ≡ stored_at self.now.steps at }
    {
        self.doing_at(at).stored
    }

    /// Does it load there? In constant time.
    pub fn loads_at(&self, at: u8) -> bool
        ensures { result ≡ loads_at self.now.steps at }
    {
        self.loaded_at(at).is_some()
    }

    /// A number for what it chooses there, in choice order: 0 where it doesn't execute the instruction, 1 where this
    /// takes no choice or an sc.w succeeds, 2 where it fails, and of a load one more than the word. In constant time.
    pub fn chosen_at(&self, at: u8) -> u64
        ensures { result ≡ chosen_at at self.now.steps }
    {
        match self.step_at(at) {
            Some(step) => choice_number(step),
            None => 0,
        }
    }

    /// The word of the register at the end of the run. In constant time.
    pub fn final_register(&self, register: Reg) -> u32
        ensures { result ≡ final_register self.now.test (traces_of self.now.test self.now.hart self.now.steps)
            self.now.hart register }
    {
        match self.made.candidate.traces.get(usize::from(self.hart)) {
            Some(trace) => trace.final_reg(register),
            None => 0,
        }
    }

    /// The number of the operation of this name, where the run executes it.
    fn number_of(&self, name: OperationName) -> Option<u8>
        ensures { result ≡ number_of (execution_of self.now) name }
    {
        if name.hart == self.hart {
            listed_at(&self.made.numbers, name.at)
        } else {
            None
        }
    }

    /// Is the source a name that neither the run nor the test has?
    fn is_unnamed(&self, source: Source) -> bool
        ensures { result ≡ is_unnamed self.now source }
    {
        match source {
            Source::Initial => false,
            Source::From(name) => self.number_of(name).is_none() && !is_name(&self.test, name),
        }
    }

    /// Are they the same? Names that neither the run nor the test has count as one.
    fn count_as_one(&self, first: Source, second: Source) -> bool
        ensures { result ≡ count_as_one self.now first second }
    {
        is_same_source(first, second) || self.is_unnamed(first) && self.is_unnamed(second)
    }

    /// Are both sources known, and do they count as one?
    fn are_same(&self, first: Option<Source>, second: Option<Source>) -> bool
        ensures { (region : Region) → result
            ≡ is_same (number_from self.now region first) (number_from self.now region second) }
    {
        match (first, second) {
            (Some(first), Some(second)) => self.count_as_one(first, second),
            _ => false,
        }
    }

    /// The number of the source, where it is known and is an operation of the run.
    fn own_store(&self, source: Option<Source>) -> Option<u8>
        ensures { (region : Region) → IsOwn (execution_of self.now) (number_from self.now region source) result }
    {
        match source {
            Some(Source::From(store)) => self.number_of(store),
            _ => None,
        }
    }

    /// Does the rule of this number, 1 to 13, order the first operation before the second, with the placement's fences,
    /// where this is known of what they return from? Not where the run doesn't execute both, nor of another hart's.
    /// Sources count for rules 2, 3 and 12 alone (`sources_serve_three`), and the placement for rule 4; for rule 2
    /// sources that aren't known count as different. At most linear in the operations and in the steps of the run, for
    /// rule 4 times the slots of the placement.
    pub fn is_rule(&self, placement: &Placement, rule: u8, first: Sourced, second: Sourced) -> bool
        ensures { (region : Region) → Knows region first → Knows region second → (r : Rule) → number_of_rule r ≡ rule
            → result ≡ is_rule self.now.test region placement.now r first.name second.name (execution_of self.now) }
    {
        match (self.number_of(first.name), self.number_of(second.name)) {
            (Some(a), Some(b)) => {
                let returned = Returned {
                    are_same: self.are_same(first.source, second.source),
                    store: self.own_store(second.source),
                };
                let (a, b) = (usize::from(a), usize::from(b));
                is_ordered(&self.made.candidate, placement, rule, a, b, returned)
            }
            _ => false,
        }
    }

    /// Are the two an lr.w and its sc.w, which succeeds? Not where the run doesn't execute both. Linear in the steps of
    /// the run.
    pub fn is_pair(&self, load: OperationName, store: OperationName) -> bool
        ensures { (region : Region) → result
            ≡ is_rule self.now.test region [] Rule8 load store (execution_of self.now) }
    {
        match (self.number_of(load), self.number_of(store)) {
            (Some(a), Some(b)) => rule(8, &self.made.candidate, usize::from(a), usize::from(b)),
            _ => false,
        }
    }
}
