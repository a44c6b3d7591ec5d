//! Placements, prices and questions from texts, and answers as text.
ghost use Rattle.std.specs.Prelude.{◌≡◌, IfOk};
ghost use Rattle.std.specs.Arc.{arc_value};
ghost use Rattle.fs_kinds.specs.Placement.{slots_of};
ghost use Rattle.fs_model.specs.Slots.{slots};
ghost use Rattle.fs_model.specs.Test.{IsBounded, IsTest};
ghost use Rattle.fs_board_offers.specs.Questions.{HasTop, IsAtSlots};

use fs_board_offers::Question;
use fs_kinds::{Fault, Kind, Placement, Prices, read_prices};
use fs_litmus::{Test, read_fences, read_test};
use std::alloc::{AllocError, Global};
use std::sync::Arc;

/// Prices for six of the kinds.
pub const PRICES: &str = r#"{"r,r":3,"r,w":3,"w,w":2,"w,r":9,"tso":5,"rw,rw":10}"#;

/// The question of this test, with what these prices offer.
fn priced(alloc: Global, test: Test, prices: &Prices) -> Result<Arc<Question>, Fault>
    requires { IsTest test }
    ensures test { IfOk result (λ question. IsTest (arc_value question).test) }
    ensures slots { IfOk result (λ question. IsAtSlots (arc_value question)) }
    ensures top { IfOk result (λ question. HasTop (arc_value question).offers) }
{
    let _top = prices.of(Kind::RwRw);
    let test = Arc::new(alloc, test)?;
    let question = Question::priced(alloc, test, prices)?;
    let shared = Arc::new(alloc, question)?;
    Ok(shared)
}

/// The question of the test that this text holds, with what the prices in the other one offer.
pub fn question_of(alloc: Global, text: &str, prices: &str) -> Result<Arc<Question>, Fault>
    ensures test { IfOk result (λ question. IsTest (arc_value question).test) }
    ensures slots { IfOk result (λ question. IsAtSlots (arc_value question)) }
    ensures top { IfOk result (λ question. HasTop (arc_value question).offers) }
{
    let prices = read_prices(alloc, prices.as_bytes())?;
    let test = read_test(alloc, text.as_bytes())?;
    priced(alloc, test, &prices)
}

/// The placement that the words name, which spaces part.
pub fn placement_of(alloc: Global, test: &Test, words: &str) -> Result<Placement, Fault>
    requires { IsBounded test.now }
    ensures { IfOk result (λ placement. slots_of placement ≡ slots test.now) }
{
    let mut fences = Vec::new(alloc);
    for word in words.split_whitespace() {
        fences.push(String::from_str(alloc, word)?)?;
    }
    read_fences(alloc, test, None, &fences)
}

/// Writes the words of the placement's fences, with a space before each.
pub fn write_fences(placement: &Placement, text: &mut String) -> Result<(), AllocError> {
    for entry in placement.as_slice() {
        if let Some(kind) = entry.kind {
            write!(text, " {}={}", entry.slot, kind.name())?;
        }
    }
    Ok(())
}

/// The answer, or the line of the fault.
pub fn told(alloc: Global, answer: Result<String, Fault>) -> Result<String, AllocError> {
    match answer {
        Ok(text) => Ok(text),
        Err(fault) => fault.to_string(alloc),
    }
}
