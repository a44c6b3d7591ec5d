//! The places that the conditions of tests name.
ghost use Rattle.std.specs.Prelude.{IfOk, OnOk};
ghost use Rattle.fs_judge_outcomes.specs.States.{ArePlacesOf};

use fs_judge_outcomes::Place;
use fs_litmus::Test;
use fs_model::Outcome;
use std::alloc::{AllocError, Global};

/// Adds the place, where it is one of the test's.
fn add_place(test: &Test, place: Place, places: &mut Vec<Place>) -> Result<(), AllocError>
    requires { ArePlacesOf test.now places.old.items }
    ensures { OnOk result (ArePlacesOf test.now places.new.items) }
{
    let is_own = match place {
        Place::Register { hart, .. } => usize::from(hart) < test.codes.as_slice().len(),
        Place::Location(location) => usize::from(location) < test.locations.as_slice().len(),
    };
    if is_own {
        places.push(place)?;
    }
    Ok(())
}

/// Adds the places that the condition names, each as often as it does.
fn add_places(test: &Test, condition: &Outcome, places: &mut Vec<Place>) -> Result<(), AllocError>
    requires { ArePlacesOf test.now places.old.items }
    ensures { OnOk result (ArePlacesOf test.now places.new.items) }
{
    match condition {
        Outcome::Always => Ok(()),
        Outcome::Never => Ok(()),
        Outcome::RegisterIs { hart, reg, .. } => {
            add_place(test, Place::register(*hart, *reg), places)
        }
        Outcome::LocationIs { location, .. } => {
            add_place(test, Place::Location(*location), places)
        }
        Outcome::Deny(denied) => add_places(test, denied, places),
        Outcome::Both(left, right) => {
            add_places(test, left, places)?;
            add_places(test, right, places)
        }
        Outcome::Either(left, right) => {
            add_places(test, left, places)?;
            add_places(test, right, places)
        }
    }
}

/// The places that the test's condition names, each as often as it does.
pub(crate) fn places_of(alloc: Global, test: &Test) -> Result<Vec<Place>, AllocError>
    ensures { IfOk result (λ places. ArePlacesOf test.now places.items) }
{
    let mut places = Vec::new(alloc);
    add_places(test, &test.condition, &mut places)?;
    Ok(places)
}
