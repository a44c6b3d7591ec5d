//! What is asked.

use fs_board_offers::Offers;
use fs_kinds::{List, Slot};
use fs_model::Test;
use std::marker::Model;
use std::sync::Arc;

/// A place in a test, which is a copy of a site: before the instruction of this slot stands the fence of the site of
/// this number. Any instruction will do, and a site past the last one has no fence.
#[derive(Clone, Copy)]
pub struct Place {
    pub slot: Slot,
    pub site: usize,
}

/// A test, whose outcome is to be ruled out, and its places in the order of their slots.
#[derive(Drop)]
pub struct Part {
    pub test: Arc<Test>,
    pub places: List<Place>,
}

impl Model for Part {
    ghost use Rattle.std.specs.Arc.{arc_value};
    ghost use Rattle.std.specs.Coded.{codes};
    ghost use Rattle.fs_model.specs.contracts.outcome.Outcome as outcome;
    ghost use Rattle.fs_sites.specs.Questions.{Part as Tested};

    ghost Value = { Tested };

    ghost view = { λ part. record { test = arc_value part.test; places = part.places } };

    ghost coded = { Prim.hlevel (codes, outcome.the_row.coded) };
}

/// The tests, and what may stand at the sites: offer number k is that of site number k. The slots of the offers are
/// names only.
#[derive(Drop)]
pub struct Question {
    pub parts: List<Part>,
    pub offers: Offers,
}

impl Model for Question {
    ghost use Rattle.std.specs.Coded.{codes};
    ghost use Rattle.fs_model.specs.contracts.outcome.Outcome as outcome;
    ghost use Rattle.fs_sites.specs.Questions.{Question as Asked};

    ghost Value = { Asked };

    ghost view = { λ q. record { parts = q.parts; offers = q.offers } };

    ghost coded = { Prim.hlevel (codes, outcome.the_row.coded) };
}
