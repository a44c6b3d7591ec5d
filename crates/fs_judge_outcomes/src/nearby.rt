//! States that are found near others: in executions that differ in one operation's place, which are only checked.

ghost use Rattle.std.specs.Prelude.{All, IfOk, IfSome, IsOkUnless};
ghost use Rattle.fs_kinds.specs.declared.fault.Fault.TheVariants.{Memory};
ghost use Rattle.fs_model.specs.Test.{IsBounded, IsStart};
ghost use Rattle.fs_judge_outcomes.specs.inner.Parts.{EndsWithin};

use crate::ended::{Found, ended};
use crate::moved::{Move, moved, moves_for};
use crate::part::{Atom, is_in};
use crate::place::Place;
use fs_cert_evidence::Witness;
use fs_check::OrderedCandidate;
use fs_kinds::{Fault, Placement};
use fs_model::Test;
use std::alloc::{AllocError, Global};

/// The state in which the execution of the witness ends, where it gives one that shows the test's outcome, and the
/// state is in the part.
fn found_by(
    alloc: Global,
    test: &Test,
    placement: &Placement,
    places: &[Place],
    part: &[Atom],
    witness: Witness,
) -> Result<Option<Found>, Fault>
    requires test { IsBounded test.now }
    requires starts { All IsStart test.now.starts }
    ensures ok { IfOk result (λ found. IfSome found
        (λ e. EndsWithin test.now placement.now places.now part.now e.state)) }
    ensures err { IsOkUnless result Memory }
{
    let Some(found) = ended(alloc, test, placement, places, witness)? else {
        return Ok(None);
    };
    if is_in(part, found.state.words.as_slice()) {
        Ok(Some(found))
    } else {
        Ok(None)
    }
}

/// The moves that may lead to a state in the part, by its last place.
fn moves(
    alloc: Global,
    base: &OrderedCandidate,
    places: &[Place],
    part: &[Atom],
) -> Result<Vec<Move>, AllocError> {
    let Some(last) = part.last() else {
        return Ok(Vec::new(alloc));
    };
    match places.get(last.index) {
        Some(place) => moves_for(alloc, base, *place, part, last.index),
        None => Ok(Vec::new(alloc)),
    }
}

/// A state in the part in which an execution ends that differs from this one in the place of one operation, if a few
/// tries find one. Each try costs what `ended` does. The error is F19.
pub(crate) fn nearby(
    alloc: Global,
    test: &Test,
    placement: &Placement,
    places: &[Place],
    part: &[Atom],
    base: &OrderedCandidate,
) -> Result<Option<Found>, Fault>
    requires test { IsBounded test.now }
    requires starts { All IsStart test.now.starts }
    ensures ok { IfOk result (λ found. IfSome found
        (λ e. EndsWithin test.now placement.now places.now part.now e.state)) }
    ensures err { IsOkUnless result Memory }
{
    for step in moves(alloc, base, places, part)? {
        let witness = moved(alloc, base, step)?;
        let found = found_by(alloc, test, placement, places, part, witness)?;
        if found.is_some() {
            return Ok(found);
        }
    }
    Ok(None)
}
