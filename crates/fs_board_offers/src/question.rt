//! What a search is asked.

ghost use Rattle.std.specs.Prelude.{◌≡◌, IfOk, IsOkUnless};
ghost use Rattle.std.specs.Arc.{arc_value};
ghost use Rattle.fs_model.specs.Test.{IsBounded};
ghost use Rattle.fs_board_offers.specs.Offers.{offers_of, AreOffers};

use crate::Offers;
use fs_kinds::{Fault, Prices};
use fs_model::Test;
use std::alloc::Global;
use std::marker::Model;
use std::sync::Arc;

/// A test, whose outcome is to be ruled out, and what may stand where: before any instructions, which needn't be the
/// test's slots.
#[derive(Drop)]
pub struct Question {
    test: Arc<Test>,
    offers: Offers,
}

impl Model for Question {
    ghost use Rattle.std.specs.Arc.{arc_value};
    ghost use Rattle.std.specs.Coded.{codes};
    ghost use Rattle.fs_model.specs.contracts.outcome.Outcome as outcome;
    ghost use Rattle.fs_board_offers.specs.Questions.{Question as Asked};

    ghost Value = { Asked };

    ghost view = { λ q. record { test = arc_value q.test; offers = q.offers } };

    ghost coded = { Prim.hlevel (codes, outcome.the_row.coded) };
}

impl Question {
    /// The test with these offers.
    pub fn new(test: Arc<Test>, offers: Offers) -> Question
        ensures { result ≡ record { test = arc_value test; offers = offers } }
    {
        Question { test, offers }
    }

    /// The test with what the prices offer at its slots. The error is F19.
    pub fn priced(alloc: Global, test: Arc<Test>, prices: &Prices) -> Result<Question, Fault>
        requires { IsBounded (arc_value test) }
        ensures ok { IfOk result (λ q. q
            ≡ record { test = arc_value test; offers = offers_of (arc_value test) prices.now }) }
        ensures err { IsOkUnless result Fault.Memory }
    {
        let offers = Offers::priced(alloc, &test, prices)?;
        Ok(Question::new(test, offers))
    }

    /// The test.
    pub fn test(&self) -> &Arc<Test>
        ensures { arc_value result.now ≡ self.now.test }
    {
        &self.test
    }

    /// What may stand where.
    pub fn offers(&self) -> &Offers
        ensures value { result.now ≡ self.now.offers }
        ensures are { AreOffers self.now.offers }
    {
        let _are = self.offers.as_slice();
        &self.offers
    }
}
