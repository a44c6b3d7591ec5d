//! The fences that are advised in the places of a test's FENCEs.

ghost use Rattle.std.specs.Prelude.{◌≡◌, ◌≢◌, ◌≤◌, ◌⊎◌, All, List as Items, IfOk, IfErr};
ghost use Rattle.std.specs.Arc.{arc_value};
ghost use Rattle.fs_kinds.specs.declared.placement.Entry.{Entry as EntryValue};
ghost use Rattle.fs_model.specs.declared.test.Test.{Test as Tests};
ghost use Rattle.fs_model.specs.Allows.{Allows};
ghost use Rattle.fs_model.specs.Test.{IsBounded, IsSame, IsStart};
ghost use Rattle.fs_board_offers.specs.Offers.{IsCheapest, IsPlacement};
ghost use Rattle.fs_board_search.specs.Answers.{IsLimitFault};
ghost use Rattle.fs_litmus.specs.Faults.{IsTestFault};
ghost use Rattle.fs_litmus.specs.Reads.{Reads};
ghost use Rattle.fs_model_laws.specs.InPlace.{emptied};
ghost use Rattle.fs_app_test.specs.SaidVerdicts.{IsForbidden};
ghost use Rattle.fs_app_audit.specs.InPlace.{offers_in_place};

use crate::emptied;
use crate::places::offers_in_place;
use fs_board_offers::{Offers, Question};
use fs_board_search::{Limits, Unwatched, cheapest, problem_of};
use fs_kinds::{Fault, Kind, Placement, Prices};
use fs_litmus::{Test, read_test};
use std::alloc::{AllocError, Global};
use std::sync::Arc;

/// What was found in place.
#[derive(Drop)]
pub struct InPlace {
    /// The test in which FENCEs order no memory.
    pub empty: Arc<Test>,
    /// What may stand in the places of the FENCEs.
    pub offers: Offers,
    /// The fences that are advised there.
    pub advised: Placement,
}

/// The test of the bytes in which FENCEs order no memory.
fn read_emptied(alloc: Global, bytes: &[u8]) -> Result<Arc<Test>, Fault>
    ensures same { IfOk result (λ made. (t : Tests) → Reads bytes.now t → IsSame (arc_value made) (emptied t)) }
    ensures bounded { IfOk result (λ made. IsBounded (arc_value made)) }
    ensures starts { IfOk result (λ made. All IsStart (arc_value made).starts) }
    ensures err { IfErr result (λ f. f ≢ Fault.Memory → IsTestFault bytes.now f) }
{
    let test = read_test(alloc, bytes)?;
    let made = emptied(alloc, test)?;
    Ok(Arc::new(alloc, made)?)
}

/// The first of the cheapest of the offers of a question that rule the outcome out, where some do.
fn searched(alloc: Global, question: Arc<Question>, limits: Limits) -> Result<Placement, Fault>
    requires bounded { IsBounded (arc_value question).test }
    requires starts { All IsStart (arc_value question).test.starts }
    requires some { (p : Items EntryValue) × IsPlacement (arc_value question).offers p
        × (Allows (arc_value question).test p → ⊥) }
    requires most { limits.nodes ≤ 1000000 }
    ensures ok { IfOk result (λ p. IsCheapest (arc_value question).test (arc_value question).offers p) }
    ensures err { IfErr result (λ f. f ≢ Fault.Memory → IsLimitFault (arc_value question) limits.nodes f) }
{
    let problem = problem_of(alloc, &question, limits.inferences)?;
    let found = cheapest(alloc, question, problem, limits.nodes, &mut Unwatched)?;
    found.placement.copy()
}

/// The test with these offers.
fn asked_in_place(
    alloc: Global,
    test: &Arc<Test>,
    offers: Offers,
) -> Result<Arc<Question>, AllocError>
    ensures { IfOk result (λ question. arc_value question
        ≡ record { test = arc_value test.now; offers = offers }) }
{
    let test = Arc::try_clone(test)?;
    Ok(Arc::new(alloc, Question::new(test, offers))?)
}

/// The first of the cheapest of these offers that rule the outcome out, where some do.
fn advised_of(
    alloc: Global,
    test: &Arc<Test>,
    offers: Offers,
    limits: Limits,
) -> Result<Placement, Fault>
    requires bounded { IsBounded (arc_value test.now) }
    requires starts { All IsStart (arc_value test.now).starts }
    requires some { (p : Items EntryValue) × IsPlacement offers p × (Allows (arc_value test.now) p → ⊥) }
    requires most { limits.nodes ≤ 1000000 }
    ensures ok { IfOk result (λ p. IsCheapest (arc_value test.now) offers p) }
    ensures err { IfErr result (λ f. f ≢ Fault.Memory
        → IsLimitFault (record { test = arc_value test.now; offers = offers }) limits.nodes f) }
{
    let question = asked_in_place(alloc, test, offers)?;
    searched(alloc, question, limits)
}

/// What is found in place of a test that is forbidden as it is written, at these prices. The faults are those of reading
/// and of the search of the test in which FENCEs order no memory, and so is the cost.
pub fn find_in_place(
    alloc: Global,
    bytes: &[u8],
    prices: &Prices,
    own: &Test,
    limits: Limits,
) -> Result<InPlace, Fault>
    requires reads { Reads bytes.now own.now }
    requires bounded { IsBounded own.now }
    requires forbidden { IsForbidden own.now }
    requires most { limits.nodes ≤ 1000000 }
    ensures offers { IfOk result (λ found. found.offers ≡ offers_in_place prices.now own.now.codes) }
    ensures same { IfOk result (λ found. IsSame (arc_value found.empty) (emptied own.now)) }
    ensures cheapest { IfOk result (λ found.
        IsCheapest (arc_value found.empty) (offers_in_place prices.now own.now.codes) found.advised) }
    ensures fault { IfErr result (λ f. f ≢ Fault.Memory
        → IsTestFault bytes.now f ⊎ ((u : Tests) × IsSame u (emptied own.now)
        × IsLimitFault (record { test = u; offers = offers_in_place prices.now own.now.codes }) limits.nodes f)) }
{
    let codes = own.codes.as_slice();
    let _table = prices.of(Kind::RwRw);
    let empty = read_emptied(alloc, bytes)?;
    let asked = offers_in_place(alloc, prices, codes)?;
    let advised = advised_of(alloc, &empty, asked, limits)?;
    let offers = offers_in_place(alloc, prices, codes)?;
    Ok(InPlace {
        empty,
        offers,
        advised,
    })
}
