//! What is asked of a test.

use fs_kinds::Prices;
use fs_model::Test;
use std::marker::Model;
use std::sync::Arc;

/// A test, whose outcome is to be ruled out, and the prices of fences.
#[derive(Drop)]
pub struct Priced {
    pub test: Arc<Test>,
    pub prices: Prices,
}

impl Model for Priced {
    ghost use Rattle.std.specs.Arc.{arc_value};
    ghost use Rattle.std.specs.Coded.{codes};
    ghost use Rattle.fs_model.specs.contracts.outcome.Outcome as outcome;
    ghost use Rattle.fs_app_audit.specs.Priced.{Priced as PricedValue};

    ghost Value = { PricedValue };

    ghost view = { λ q. record { test = arc_value q.test; prices = q.prices } };

    ghost coded = { Prim.hlevel (codes, outcome.the_row.coded) };
}
