//! What all regions of a test are over.

ghost use Rattle.std.specs.Prelude.{◌≡◌, ◌≢◌, All, length, nat_lt, IfOk, OnOk, IfErr};
ghost use Rattle.std.specs.Arc.{arc_value};
ghost use Rattle.fs_kinds.specs.declared.fault.Fault.TheVariants.{Memory};
ghost use Rattle.fs_model.specs.OfTests.{program_of};
ghost use Rattle.fs_model.specs.Test.{IsBounded, IsStart};
ghost use Rattle.fs_model.specs.TooMany.{IsRunFault};
ghost use Rattle.fs_cert_evidence.specs.Regions.{names};
ghost use Rattle.fs_cert_evidence.specs.Trees.{AreItsRuns};
ghost use Rattle.fs_values.specs.ThinAir.{CanBeListed};
ghost use Rattle.fs_region_refutation.specs.Runs.{runs_over, AreOfEach};

use crate::lone::Lone;
use crate::naming::names;
use crate::ready::{all_asked, all_ready};
use fs_kinds::{Fault, List, OperationName};
use fs_model::Test;
use fs_values::all_runs;
use std::alloc::{AllocError, Global};
use std::marker::Model;
use std::sync::Arc;

/// What all refutations of a test are over: all runs of each hart, made ready to be asked, and the names of the memory
/// instructions. Contracts see the test.
#[derive(Drop)]
pub struct Basis {
    test: Arc<Test>,
    // For each hart, from hart 0 on, its runs in choice order.
    runs: Vec<List<Lone>>,
    // Hart by hart, in the order of the code.
    names: List<OperationName>,
}

/// The same test.
fn shared(test: &Arc<Test>) -> Result<Arc<Test>, AllocError>
    ensures { IfOk result (λ same. arc_value same ≡ arc_value test.now) }
{
    test.clone()
}

impl Model for Basis {
    ghost use Rattle.std.specs.Arc.{arc_value};
    ghost use Rattle.std.specs.Coded.{codes};
    ghost use Rattle.fs_model.specs.contracts.outcome.Outcome as outcome;
    ghost use Rattle.fs_model.specs.declared.test.Test.{Test};
    ghost use Rattle.fs_region_refutation.specs.Runs.{IsBasis};

    ghost Value = { Test };

    ghost view = { λ b. arc_value b.test };

    ghost coded = { Prim.hlevel (codes, outcome.the_row.coded) };

    ghost invariant = { λ b. IsBasis (arc_value b.test) b.runs.items b.names };
}

impl Basis {
    /// What the test's refutations are over. The fault is that of its runs, as of `all_runs`: F13 or F14; or F19. The
    /// cost is that of `all_runs`, and that of `Lone::new` for each run.
    pub fn new(alloc: Global, test: &Arc<Test>) -> Result<Basis, Fault>
        requires bounded { IsBounded (arc_value test.now) }
        requires starts { All IsStart (arc_value test.now).starts }
        ensures value { IfOk result (λ basis. basis ≡ arc_value test.now) }
        ensures listable { OnOk result (CanBeListed (arc_value test.now)) }
        ensures err { IfErr result (λ f. f ≢ Memory → IsRunFault (arc_value test.now) f) }
    {
        let lists = all_runs(alloc, test)?;
        let runs = all_ready(alloc, test, &lists)?;
        let names = names(alloc, test)?;
        Ok(Basis {
            test: shared(test)?,
            runs,
            names: List::new(names),
        })
    }

    /// The same of another test with the same program, whose runs are these. The cost: two counts for each run, which
    /// are shared.
    pub fn asking(&self, alloc: Global, test: &Arc<Test>) -> Result<Basis, AllocError>
        requires bounded { IsBounded (arc_value test.now) }
        requires same { program_of self.now ≡ program_of (arc_value test.now) }
        ensures { IfOk result (λ basis. basis ≡ arc_value test.now) }
    {
        let runs = all_asked(alloc, test, &self.runs)?;
        let names = Vec::from_slice(alloc, self.names.as_slice())?;
        Ok(Basis {
            test: shared(test)?,
            runs,
            names: List::new(names),
        })
    }

    /// The test.
    pub fn test(&self) -> &Test
        ensures value { result.now ≡ self.now }
        ensures bounded { IsBounded self.now }
    {
        &self.test
    }

    /// Is it the number of a hart?
    pub fn is_hart(&self, hart: u8) -> bool
        ensures { result ≡ nat_lt hart (length self.now.codes) }
    {
        usize::from(hart) < self.test.codes.len()
    }

    /// The names of the test's memory instructions, hart by hart, in the order of the code.
    pub fn names(&self) -> &[OperationName]
        ensures { result.now ≡ names self.now }
    {
        self.names.as_slice()
    }

    /// For each hart all of its runs, in choice order.
    pub fn runs(&self) -> &[List<Lone>]
        ensures all { AreItsRuns self.now (runs_over result.now) }
        ensures of { AreOfEach self.now result.now }
    {
        &self.runs
    }
}
