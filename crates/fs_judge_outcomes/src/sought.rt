//! Asking the judge for a state that isn't known yet.

ghost use Rattle.std.specs.Prelude.{◌≡◌, ◌≢◌, true, ℕ, List, length, IfOk, IfErr, IfNone, IfSome, IsOkUnless};
ghost use Rattle.std.specs.Arc.{arc_value};
ghost use Rattle.fs_kinds.specs.declared.fault.Fault.TheVariants.{Memory};
ghost use Rattle.fs_kinds.specs.Placement.{slots_of};
ghost use Rattle.fs_model.specs.Allows.{Allows};
ghost use Rattle.fs_model.specs.Slots.{slots};
ghost use Rattle.fs_model.specs.Test.{IsBounded};
ghost use Rattle.fs_cert_evidence.specs.CandidateFaults.{IsCandidateFault};
ghost use Rattle.fs_judge_outcomes.specs.States.{ArePlacesOf, IsState};
ghost use Rattle.fs_judge_outcomes.specs.inner.Parts.{is_in, AsksFor, EndsIn, IsFoundIn, IsPartOf};

use crate::asked::asked;
use crate::condition::condition;
use crate::ended::{Found, ended};
use crate::part::Atom;
use crate::place::Place;
use fs_judge::{Problem, Verdict};
use fs_kinds::{Fault, Placement};
use fs_model::Test;
use std::alloc::Global;
use std::sync::Arc;

/// How many inferences a short hunt may make.
const FEW_INFERENCES: usize = 16;

/// A state in which the problem's test shows its outcome with these fences; none where it can't.
fn shown_state(
    alloc: Global,
    problem: &Problem,
    placement: &Placement,
    places: &[Place],
) -> Result<Option<Found>, Fault>
    requires { slots_of placement.now ≡ slots problem.now }
    ensures some { IfOk result (λ found. IfSome found
        (λ f. EndsIn problem.now placement.now places.now f.state.witness.witness f.state.words)) }
    ensures none { IfOk result (λ found. IfNone found (Allows problem.now placement.now → ⊥)) }
    ensures err { IfErr result (λ f. f ≢ Memory → IsCandidateFault problem.now f) }
{
    match problem.judged(alloc, placement, &[])? {
        Verdict::Forbids(_) => Ok(None),
        Verdict::Allowed(witness) => {
            let Some(found) = ended(alloc, problem.test(), placement, places, witness)? else {
                unreachable!()
            };
            Ok(Some(found))
        }
    }
}

/// The test, asking for a state in the part. Linear in the test and the part. The error is F19.
pub(crate) fn asking(
    alloc: Global,
    test: &Test,
    places: &[Place],
    part: &[Atom],
) -> Result<Arc<Test>, Fault>
    requires bounded { IsBounded test.now }
    requires places { ArePlacesOf test.now places.now }
    requires part { IsPartOf (length places.now) part.now }
    ensures ok { IfOk result (λ made. AsksFor test.now places.now part.now (arc_value made)) }
    ensures err { IsOkUnless result Memory }
{
    let condition = condition(alloc, places, part)?;
    let asked = asked(alloc, test, condition)?;
    Ok(Arc::new(alloc, asked)?)
}

/// A state in the part in which the problem's test can end with these fences, whatever its condition; none where there
/// is no such state. The cost is that of copying the test, of `Problem::asking` and `Problem::judged` of fs_judge, and
/// of `ended`. The fault is that of the test's candidates, or F19.
pub(crate) fn sought(
    alloc: Global,
    problem: &Problem,
    placement: &Placement,
    places: &[Place],
    part: &[Atom],
) -> Result<Option<Found>, Fault>
    requires placement { slots_of placement.now ≡ slots problem.now }
    requires places { ArePlacesOf problem.now places.now }
    requires part { IsPartOf (length places.now) part.now }
    ensures some { IfOk result (λ found. IfSome found
        (λ f. IsFoundIn problem.now placement.now places.now part.now f.state)) }
    ensures none { IfOk result (λ found. IfNone found ((s : List ℕ) → IsState problem.now placement.now places.now s
        → is_in part.now s ≡ true → ⊥)) }
    ensures err { IfErr result (λ f. f ≢ Memory → IsCandidateFault problem.now f) }
{
    let asked = asking(alloc, problem.test(), places, part)?;
    let asking_problem = problem.asking(alloc, asked)?;
    shown_state(alloc, &asking_problem, placement, places)
}

/// Does a short hunt show that the part has no states? The cost is that of copying the test, of `Problem::asking`, and
/// of such a hunt. The error is F19.
pub(crate) fn has_none(
    alloc: Global,
    problem: &Problem,
    placement: &Placement,
    places: &[Place],
    part: &[Atom],
) -> Result<bool, Fault>
    requires places { ArePlacesOf problem.now places.now }
    requires part { IsPartOf (length places.now) part.now }
    ensures ok { IfOk result (λ none. none ≡ true → (s : List ℕ) → IsState problem.now placement.now places.now s
        → is_in part.now s ≡ true → ⊥) }
    ensures err { IsOkUnless result Memory }
{
    let asked = asking(alloc, problem.test(), places, part)?;
    let asking_problem = problem.asking(alloc, asked)?;
    asking_problem.is_refuted_within(alloc, placement, FEW_INFERENCES)
}
