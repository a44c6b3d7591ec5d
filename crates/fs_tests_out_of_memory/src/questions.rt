//! What workers ask of a board or a desk, and what verdicts on placements hold.
ghost use Rattle.std.specs.Prelude.{◌≡◌, IfOk, map};
ghost use Rattle.std.specs.Arc.{arc_value};
ghost use Rattle.fs_model.specs.Test.{IsBounded, IsTest};
ghost use Rattle.fs_model.specs.Allows.{Allows};
ghost use Rattle.fs_model.specs.Execution.{Execution};
ghost use Rattle.fs_model.specs.Slots.{slots};
ghost use Rattle.fs_cert_evidence.specs.Evidence.{ShowsForbidden, placement_in, IsWitnessAt};
ghost use Rattle.fs_board.specs.Growth.{AreWitnesses};

use fs_board_offers::Question;
use fs_cert_evidence::{Forbidden, Witness};
use fs_judge::{Problem, USUAL_INFERENCES, Verdict};
use fs_kinds::{Fault, List, Slot};
use fs_tests_shared::verdict_on;
use std::alloc::Global;
use std::sync::Arc;

/// What a worker asks of a board or a desk.
#[derive(Clone, Copy)]
pub(crate) enum Request {
    Take,
    Claim(usize),
    Adopt(usize),
    Split(usize, Slot),
    CutCost(usize),
    /// That the node be closed by the witness of the verdict on the placement that the words name.
    CutWitness(usize, &'static str),
    /// The same by a list of this witness.
    CutBound(usize, &'static str),
    /// That the placement that the words name be posted, which forbids the outcome.
    Post(usize, &'static str),
    Peek(usize),
}

/// The problem of the question's test.
pub(crate) fn problem_of(alloc: Global, question: &Question) -> Result<Problem, Fault>
    requires { IsTest question.now.test }
    ensures { IfOk result (λ problem. problem ≡ question.now.test) }
{
    Problem::new(alloc, Arc::try_clone(question.test())?, USUAL_INFERENCES)
}

/// The witness of the verdict on the placement that the words name. `BadFence` where it forbids the outcome.
pub(crate) fn witness_on(
    alloc: Global,
    problem: &Problem,
    words: &str,
) -> Result<Arc<Witness>, Fault>
    requires { IsBounded problem.now }
    ensures { IfOk result (λ w. (e : Execution) × IsWitnessAt problem.now (slots problem.now) (arc_value w) e) }
{
    match verdict_on(alloc, problem, words)? {
        Verdict::Allowed(witness) => Ok(Arc::new(alloc, witness)?),
        Verdict::Forbids(_) => Err(Fault::BadFence),
    }
}

/// A list of this witness.
pub(crate) fn witnesses_on(
    alloc: Global,
    problem: &Problem,
    words: &str,
) -> Result<List<Arc<Witness>>, Fault>
    requires { IsBounded problem.now }
    ensures { IfOk result (λ ws. AreWitnesses problem.now (slots problem.now) (map arc_value ws)) }
{
    let witness = witness_on(alloc, problem, words)?;
    let mut witnesses = Vec::new(alloc);
    witnesses.push(witness)?;
    Ok(List::new(witnesses))
}

/// That the placement that the words name forbids the outcome, with what shows it. `BadFence` where it allows the
/// outcome.
pub(crate) fn forbidden_on(
    alloc: Global,
    problem: &Problem,
    words: &str,
) -> Result<Arc<Forbidden>, Fault>
    requires { IsBounded problem.now }
    ensures cycles { IfOk result (λ f. ShowsForbidden problem.now (arc_value f)) }
    ensures forbids { IfOk result (λ f. Allows problem.now (placement_in f) → ⊥) }
{
    match verdict_on(alloc, problem, words)? {
        Verdict::Allowed(_) => Err(Fault::BadFence),
        Verdict::Forbids(forbidden) => Ok(Arc::new(alloc, forbidden)?),
    }
}
