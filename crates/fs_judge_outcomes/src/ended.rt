//! The state in which the execution of a witness ends.

ghost use Rattle.std.specs.Prelude.{◌≡◌, All, map, IfNone, IfOk, IfSome, IsOkUnless};
ghost use Rattle.fs_kinds.specs.declared.fault.Fault.TheVariants.{Memory};
ghost use Rattle.fs_model.specs.Test.{IsBounded, IsStart};
ghost use Rattle.fs_model.specs.Witness.{Witness as Witnesses};
ghost use Rattle.fs_cert_evidence.specs.Shown.{IsShownBy};
ghost use Rattle.fs_cert_evidence.specs.WitnessFile.{KeepsWitness, in_range};
ghost use Rattle.fs_model_axioms.specs.Final.{AreFinal};
ghost use Rattle.fs_check.specs.Ordered.{IsOrdered, execution_in};
ghost use Rattle.fs_judge_outcomes.specs.States.{word_at, state_of};
ghost use Rattle.fs_judge_outcomes.specs.inner.Parts.{EndsIn};

use crate::place::Place;
use crate::state::State;
use fs_cert_evidence::{Names, Witness, WitnessFile};
use fs_check::{OrderedCandidate, shown_by};
use fs_kinds::{Fault, List, OperationName, Placement};
use fs_model::Test;
use fs_model_axioms::{final_register, final_word};
use std::alloc::{AllocError, Global};

/// A state, and the execution that ends in it.
#[derive(Drop)]
pub(crate) struct Found {
    pub(crate) state: State,
    pub(crate) ordered: OrderedCandidate,
}

/// The words in which an execution ends, and the execution.
#[derive(Drop)]
struct Ending {
    words: List<u32>,
    ordered: OrderedCandidate,
}

/// The name, which each byte can be part of.
fn named(name: OperationName) -> Option<OperationName>
    ensures { result ≡ in_range name }
{
    Some(name)
}

/// The names, as a witness file has them.
fn all_named(
    alloc: Global,
    order: &[OperationName],
) -> Result<Vec<Option<OperationName>>, AllocError>
    ensures { IfOk result (λ names. names.items ≡ map in_range order.now) }
{
    order.iter().map(|name| named(*name)).collect(alloc)
}

/// The final word at a place.
fn word_at(test: &Test, ordered: &OrderedCandidate, place: Place) -> u32
    requires ordered { IsOrdered test.now ordered.now }
    requires last { AreFinal test.now ordered.now.candidate.traces }
    ensures { result ≡ word_at test.now (execution_in ordered.now) place }
{
    let _ = test;
    let candidate = &ordered.candidate;
    match place {
        Place::Register { hart, reg } => final_register(candidate.traces.as_slice(), hart, reg),
        Place::Location(location) => final_word(
            candidate.operations.as_slice(),
            ordered.order.order(),
            location,
        ),
    }
}

/// The final words at the places.
fn words_at(
    alloc: Global,
    test: &Test,
    ordered: &OrderedCandidate,
    places: &[Place],
) -> Result<List<u32>, AllocError>
    requires ordered { IsOrdered test.now ordered.now }
    requires last { AreFinal test.now ordered.now.candidate.traces }
    ensures { IfOk result (λ words. words ≡ state_of test.now places.now (execution_in ordered.now)) }
{
    let mut words = Vec::new(alloc);
    for place in places {
        words.push(word_at(test, ordered, *place))?;
    }
    Ok(List::new(words))
}

/// How the execution of the witness ends, where it gives one that shows the outcome.
fn ending_of(
    alloc: Global,
    test: &Test,
    placement: &Placement,
    places: &[Place],
    file: &WitnessFile,
) -> Result<Option<Ending>, Fault>
    requires test { IsBounded test.now }
    requires starts { All IsStart test.now.starts }
    ensures some { (w : Witnesses) → KeepsWitness file.now w → IfOk result (λ found.
        IfSome found (λ e. EndsIn test.now placement.now places.now w e.words)) }
    ensures none { (w : Witnesses) → KeepsWitness file.now w → IfOk result (λ found.
        IfNone found (IsShownBy test.now placement.now w → ⊥)) }
    ensures err { IsOkUnless result Memory }
{
    let Some(ordered) = shown_by(alloc, test, placement, file)? else {
        return Ok(None);
    };
    let words = words_at(alloc, test, &ordered, places)?;
    Ok(Some(Ending { words, ordered }))
}

/// The state in which the execution of the witness ends, where it gives one that shows the test's outcome; of its
/// widths nothing is kept. The cost is that of `shown_by`, and for each place at most linear in the operations. The
/// error is F19.
pub(crate) fn ended(
    alloc: Global,
    test: &Test,
    placement: &Placement,
    places: &[Place],
    witness: Witness,
) -> Result<Option<Found>, Fault>
    requires test { IsBounded test.now }
    requires starts { All IsStart test.now.starts }
    ensures some { IfOk result (λ found. IfSome found
        (λ e. EndsIn test.now placement.now places.now e.state.witness.witness e.state.words)) }
    ensures none { IfOk result (λ found. IfNone found (IsShownBy test.now placement.now witness.witness → ⊥)) }
    ensures err { IsOkUnless result Memory }
{
    let Witness {
        choices,
        order,
        widths,
    } = witness;
    drop(widths);
    let names = Names::new(all_named(alloc, order.as_slice())?);
    let file = WitnessFile {
        choices,
        order: names,
    };
    let Some(ending) = ending_of(alloc, test, placement, places, &file)? else {
        return Ok(None);
    };
    let Ending { words, ordered } = ending;
    let witness = Witness {
        choices: file.choices,
        order,
        widths: List::new(Vec::new(alloc)),
    };
    Ok(Some(Found {
        state: State { words, witness },
        ordered,
    }))
}
