//! The list of all final states.

ghost use Rattle.std.specs.Prelude.{◌≡◌, ◌≢◌, ◌≤◌, ◌++◌, ◌∷◌, [], List, All, length, IfOk, IfErr, OnOk, IsOkUnless};
ghost use Rattle.std.specs.Arc.{arc_value};
ghost use Rattle.fs_kinds.specs.declared.fault.Fault.{Fault as Faults};
ghost use Rattle.fs_kinds.specs.declared.placement.Entry.{Entry};
ghost use Rattle.fs_model.specs.declared.test.Test.{Test as Tests};
ghost use Rattle.fs_judge_outcomes.specs.declared.place.Place.{Place as Places};
ghost use Rattle.fs_kinds.specs.declared.fault.Fault.TheVariants.{Memory};
ghost use Rattle.fs_kinds.specs.Placement.{slots_of};
ghost use Rattle.fs_model.specs.Slots.{slots};
ghost use Rattle.fs_model.specs.Test.{IsBounded, IsStart};
ghost use Rattle.fs_model.specs.TooMany.{IsRunFault};
ghost use Rattle.fs_cert_evidence.specs.CandidateFaults.{IsCandidateFault};
ghost use Rattle.fs_judge_outcomes.specs.States.{AreStates, ArePlacesOf, IsShownState, IsStatesFault, most_states};
ghost use Rattle.fs_judge_outcomes.specs.States.{words_of};
ghost use Rattle.fs_judge_outcomes.specs.inner.Parts.{states_in, IsListed, IsLore};

use crate::known::{Known, keep, listed};
use crate::limit::are_too_many;
use crate::lore::{Lore, found_in, no_lore};
use crate::part::Part;
use crate::place::Place;
use crate::splitting::split;
use crate::state::State;
use fs_judge::Problem;
use fs_kinds::{Fault, List, Placement};
use fs_model::Test;
use std::alloc::{AllocError, Global};
use std::sync::Arc;

// The states that are known, the parts that may have others (each other state is in one of them), and what is learned.
#[derive(Drop)]
struct Listing {
    known: Known,
    parts: Vec<Part>,
    lore: Lore,
}

/// All states, before any is known: one part has them all.
fn begun(alloc: Global, test: &Test, places: &[Place]) -> Result<Listing, Fault>
    requires bounded { IsBounded test.now }
    requires places { ArePlacesOf test.now places.now }
    ensures listed { (p : List Entry)
        → IfOk result (λ l. IsListed test.now p places.now (states_in l.known) l.parts.items) }
    ensures lore { (p : List Entry)
        → IfOk result (λ l. IsLore test.now p places.now (arc_value l.lore.whole) l.lore.barren.items) }
    ensures err { IsOkUnless result Memory }
{
    let lore = no_lore(alloc, test, places)?;
    let known = Known::new(alloc);
    let mut parts = Vec::new(alloc);
    let all: Part = List::new(Vec::new(alloc));
    parts.push(all)?;
    Ok(Listing { known, parts, lore })
}

/// Asks for a state in the part. Where there is one it is known from then on, and what is left of the part beside it is
/// asked later.
fn advance(
    alloc: Global,
    problem: &Problem,
    placement: &Placement,
    places: &[Place],
    listing: &mut Listing,
    part: Part,
) -> Result<(), Fault>
    requires placement { slots_of placement.now ≡ slots problem.now }
    requires places { ArePlacesOf problem.now places.now }
    requires listed { IsListed problem.now placement.now places.now (states_in listing.old.known)
        (listing.old.parts.items ++ part ∷ []) }
    requires lore { IsLore problem.now placement.now places.now (arc_value listing.old.lore.whole)
        listing.old.lore.barren.items }
    ensures ok { OnOk result
        (IsListed problem.now placement.now places.now (states_in listing.new.known) listing.new.parts.items) }
    ensures lore { OnOk result (IsLore problem.now placement.now places.now (arc_value listing.new.lore.whole)
        listing.new.lore.barren.items) }
    ensures err { IfErr result (λ f. f ≢ Memory → IsCandidateFault problem.now f) }
{
    let lore = &mut listing.lore;
    let found = found_in(alloc, problem, placement, places, lore, part.as_slice())?;
    if let Some(state) = found {
        split(alloc, &mut listing.parts, part, state.words.as_slice())?;
        keep(alloc, &mut listing.known, state)?;
    }
    Ok(())
}

/// The same as of `states`, of a problem: its test, whose runs can be listed.
fn all_states(
    alloc: Global,
    problem: &Problem,
    placement: &Placement,
    places: &[Place],
) -> Result<List<State>, Fault>
    requires placement { slots_of placement.now ≡ slots problem.now }
    requires places { ArePlacesOf problem.now places.now }
    requires clean { (f : Faults) → IsRunFault problem.now f → ⊥ }
    ensures ok { IfOk result (λ found. AreStates problem.now placement.now places.now (words_of found)) }
    ensures shown { IfOk result (All (IsShownState problem.now placement.now places.now)) }
    ensures few { IfOk result (λ found. length found ≤ most_states) }
    ensures err { IfErr result (λ f. f ≢ Memory → IsStatesFault problem.now placement.now places.now f) }
{
    let mut listing = begun(alloc, problem.test(), places)?;
    for _ in 0..u64::MAX {
        if are_too_many(listing.known.len()) {
            return Err(Fault::TooManyCandidates);
        }
        let Some(part) = listing.parts.pop() else {
            return Ok(listed(alloc, listing.known)?);
        };
        advance(alloc, problem, placement, places, &mut listing, part)?;
    }
    Err(Fault::Memory) // no list of so many states takes so many steps
}

/// Which final states RVWMO allows the test with the placement's fences: of each state in which some execution ends
/// the words at the places, in their order, and an execution that ends in it. The states rise by their words, those
/// at the first place before the others. The test's condition plays no part. The placement is one of the test's
/// slots, and the places are the test's own. Each hunt may make so many inferences before it gives up.
///
/// The fault is F13 or F14 where a hart's runs can't be listed; else F15 where a hart may store 11 times or more to
/// one location in one run and there are too many candidates or lists of runs, where no hunt gives a verdict and there
/// are too many candidates, or where there are more than 200,000 states; or F19.
///
/// The cost: that of `Problem::new` of fs_judge; and for each state, and for each beginning of a state that isn't
/// whole, at most four checks of an execution, by `shown_by` of fs_check, and a verdict on the test with another
/// condition. Where a state is found near the last one, by the check of an execution in which one operation stands
/// elsewhere, no verdict is asked, nor where a short hunt has shown that a place has no other words; of such hunts
/// there are at most 64 for each place. Verdicts share the runs alone: each is that of `Problem::asking` and
/// `Problem::judged`. Each state is kept in a number of steps that is logarithmic in the states.
pub fn states(
    alloc: Global,
    test: &Arc<Test>,
    placement: &Placement,
    places: &[Place],
    inferences: usize,
) -> Result<List<State>, Fault>
    requires bounded { IsBounded (arc_value test.now) }
    requires starts { All IsStart (arc_value test.now).starts }
    requires placement { slots_of placement.now ≡ slots (arc_value test.now) }
    requires places { ArePlacesOf (arc_value test.now) places.now }
    ensures ok { IfOk result (λ found. AreStates (arc_value test.now) placement.now places.now (words_of found)) }
    ensures shown { IfOk result (All (IsShownState (arc_value test.now) placement.now places.now)) }
    ensures clean { OnOk result ((f : Faults) → IsRunFault (arc_value test.now) f → ⊥) }
    ensures few { IfOk result (λ found. length found ≤ most_states) }
    ensures err { IfErr result (λ f. f ≢ Memory → IsStatesFault (arc_value test.now) placement.now places.now f) }
{
    let problem = Problem::new(alloc, Arc::try_clone(test)?, inferences)?;
    all_states(alloc, &problem, placement, places)
}
