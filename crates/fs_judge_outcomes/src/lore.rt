//! What is learned while states are looked for.

ghost use Rattle.std.specs.Prelude.{◌≡◌, ◌≢◌, true, ℕ, List, All, length};
ghost use Rattle.std.specs.Prelude.{IfErr, IfNone, IfOk, IfSome, OnOk, IsOkUnless};
ghost use Rattle.std.specs.Arc.{arc_value};
ghost use Rattle.fs_kinds.specs.declared.fault.Fault.TheVariants.{Memory};
ghost use Rattle.fs_kinds.specs.declared.placement.Entry.{Entry};
ghost use Rattle.fs_kinds.specs.Placement.{slots_of};
ghost use Rattle.fs_model.specs.Slots.{slots};
ghost use Rattle.fs_model.specs.Test.{IsBounded, IsStart};
ghost use Rattle.fs_cert_evidence.specs.CandidateFaults.{IsCandidateFault};
ghost use Rattle.fs_judge_outcomes.specs.States.{ArePlacesOf, IsState};
ghost use Rattle.fs_judge_outcomes.specs.inner.Parts.{is_in, IsFoundIn, IsLore, IsPartOf};

use crate::barren::is_barren;
use crate::ended::Found;
use crate::nearby::nearby;
use crate::part::{Atom, Part, said_at};
use crate::place::Place;
use crate::sought::{asking, has_none, sought};
use crate::state::State;
use fs_check::OrderedCandidate;
use fs_judge::Problem;
use fs_kinds::{Fault, Placement};
use fs_model::Test;
use std::alloc::Global;
use std::sync::Arc;

/// Up to how many words it is asked whether a place has others.
const MOST_WORDS: usize = 64;

/// What helps to find a state of a part, or that there is none.
#[derive(Drop)]
pub(crate) struct Lore {
    /// The test, asking for any state.
    pub(crate) whole: Arc<Test>,
    /// Parts that have no states, each about one place and few words of it.
    pub(crate) barren: Vec<Part>,
    /// For each place of how many words it was last asked whether it has others.
    tried: Vec<usize>,
    /// The newest execution.
    newest: Option<OrderedCandidate>,
}

/// Nothing yet. Linear in the test and the places. The error is F19.
pub(crate) fn no_lore(alloc: Global, test: &Test, places: &[Place]) -> Result<Lore, Fault>
    requires bounded { IsBounded test.now }
    requires places { ArePlacesOf test.now places.now }
    ensures ok { (p : List Entry)
        → IfOk result (λ lore. IsLore test.now p places.now (arc_value lore.whole) lore.barren.items) }
    ensures err { IsOkUnless result Memory }
{
    let whole = asking(alloc, test, places, &[])?;
    let mut tried = Vec::new(alloc);
    for _ in places {
        tried.push(0)?;
    }
    Ok(Lore {
        whole,
        barren: Vec::new(alloc),
        tried,
        newest: None,
    })
}

/// Was the place never asked of so many words, and are they few? From now on it was.
fn is_untried(tried: &mut Vec<usize>, index: usize, words: usize) -> bool {
    if words > MOST_WORDS {
        return false;
    }
    if let Some(most) = tried.get_mut(index) {
        if *most < words {
            *most = words;
            return true;
        }
    }
    false
}

/// The part has no states: keeps what it says of its last place alone, if a short hunt shows that this has none
/// either. Of each place that is asked once for each number of words, up to `MOST_WORDS`.
fn learn(
    alloc: Global,
    problem: &Problem,
    placement: &Placement,
    places: &[Place],
    lore: &mut Lore,
    part: &[Atom],
) -> Result<(), Fault>
    requires places { ArePlacesOf problem.now places.now }
    requires part { IsPartOf (length places.now) part.now }
    requires lore { IsLore problem.now placement.now places.now (arc_value lore.old.whole) lore.old.barren.items }
    ensures lore { OnOk result
        (IsLore problem.now placement.now places.now (arc_value lore.new.whole) lore.new.barren.items) }
    ensures err { IsOkUnless result Memory }
{
    let Some(last) = part.last() else {
        return Ok(());
    };
    let own = said_at(alloc, part, last.index)?;
    if !is_untried(&mut lore.tried, last.index, own.len()) {
        return Ok(());
    }
    if has_none(alloc, problem, placement, places, own.as_slice())? {
        lore.barren.push(own)?;
    }
    Ok(())
}

/// A state in the part that is found near the newest one.
fn near_newest(
    alloc: Global,
    test: &Test,
    placement: &Placement,
    places: &[Place],
    lore: &Lore,
    part: &[Atom],
) -> Result<Option<Found>, Fault>
    requires starts { All IsStart test.now.starts }
    requires lore { IsLore test.now placement.now places.now (arc_value lore.now.whole) lore.now.barren.items }
    ensures ok { IfOk result (λ found. IfSome found
        (λ f. IsFoundIn test.now placement.now places.now part.now f.state)) }
    ensures err { IsOkUnless result Memory }
{
    match &lore.newest {
        Some(newest) => nearby(alloc, &lore.whole, placement, places, part, newest),
        None => Ok(None),
    }
}

/// A state in the part, near the newest one or by the judge; none where it has none.
fn found_anew(
    alloc: Global,
    problem: &Problem,
    placement: &Placement,
    places: &[Place],
    lore: &Lore,
    part: &[Atom],
) -> Result<Option<Found>, Fault>
    requires placement { slots_of placement.now ≡ slots problem.now }
    requires places { ArePlacesOf problem.now places.now }
    requires part { IsPartOf (length places.now) part.now }
    requires lore { IsLore problem.now placement.now places.now (arc_value lore.now.whole) lore.now.barren.items }
    ensures some { IfOk result (λ found. IfSome found
        (λ f. IsFoundIn problem.now placement.now places.now part.now f.state)) }
    ensures none { IfOk result (λ found. IfNone found ((s : List ℕ) → IsState problem.now placement.now places.now s
        → is_in part.now s ≡ true → ⊥)) }
    ensures err { IfErr result (λ f. f ≢ Memory → IsCandidateFault problem.now f) }
{
    match near_newest(alloc, problem.test(), placement, places, lore, part)? {
        Some(found) => Ok(Some(found)),
        None => sought(alloc, problem, placement, places, part),
    }
}

/// The state; its execution is the newest from now on.
fn keep_newest(lore: &mut Lore, found: Found) -> State
    ensures state { result ≡ found.state }
    ensures whole { lore.new.whole ≡ lore.old.whole }
    ensures barren { lore.new.barren ≡ lore.old.barren }
{
    let Found { state, ordered } = found;
    lore.newest = Some(ordered);
    state
}

/// A state in the part in which the problem's test can end with these fences, whatever its condition; none where there
/// is no such state. No verdict is asked where the part says all that one without states says, nor where a state is
/// found near the newest one; else the cost is that of `sought`. The fault is that of the test's candidates, or F19.
pub(crate) fn found_in(
    alloc: Global,
    problem: &Problem,
    placement: &Placement,
    places: &[Place],
    lore: &mut Lore,
    part: &[Atom],
) -> Result<Option<State>, Fault>
    requires placement { slots_of placement.now ≡ slots problem.now }
    requires places { ArePlacesOf problem.now places.now }
    requires part { IsPartOf (length places.now) part.now }
    requires lore { IsLore problem.now placement.now places.now (arc_value lore.old.whole) lore.old.barren.items }
    ensures some { IfOk result (λ found. IfSome found (IsFoundIn problem.now placement.now places.now part.now)) }
    ensures none { IfOk result (λ found. IfNone found ((s : List ℕ) → IsState problem.now placement.now places.now s
        → is_in part.now s ≡ true → ⊥)) }
    ensures lore { OnOk result
        (IsLore problem.now placement.now places.now (arc_value lore.new.whole) lore.new.barren.items) }
    ensures err { IfErr result (λ f. f ≢ Memory → IsCandidateFault problem.now f) }
{
    if is_barren(lore.barren.as_slice(), part) {
        return Ok(None);
    }
    match found_anew(alloc, problem, placement, places, lore, part)? {
        Some(found) => Ok(Some(keep_newest(lore, found))),
        None => {
            learn(alloc, problem, placement, places, lore, part)?;
            Ok(None)
        }
    }
}
