//! What `place` answers.
ghost use Rattle.std.specs.Prelude.{◌≡◌, ◌++◌, ◌≢◌, ℕ, List, Option, IfOk, IfErr, IfSome, IsOkUnless, IsTrue, map};
ghost use Rattle.std.specs.Prelude.{string_bytes};
ghost use Rattle.std.specs.Option.{option_copied};
ghost use Rattle.fs_kinds.specs.Placement.{slots_of};
ghost use Rattle.fs_kinds.specs.PriceTable.{are_offered};
ghost use Rattle.fs_model.specs.Fenced.{fenced};
ghost use Rattle.fs_model.specs.Printed.{printed};
ghost use Rattle.fs_model.specs.Slots.{slots};
ghost use Rattle.fs_model.specs.Test.{IsBounded, IsTest};
ghost use Rattle.fs_litmus.specs.Reads.{Reads};
ghost use Rattle.fs_app_place_and_order.specs.Place.{ArePriced, IsFencedText, IsPricesFault, IsFirstPlaceFault, cost_line};

use fs_app_io::{Output, Status};
use fs_kinds::{Fault, Placement, Prices, read_prices};
use fs_litmus::{Test, read_fences, read_test, write_fenced};
use std::alloc::Global;

/// What `place` prints for a test file: the test in the printed form of herd7's format, with the fences that the words
/// name, and where prices are given, their cost on a last line. The files are bytes as they were read.
///
/// The first fault in this order: `BadPrices` and `NoTop`, those of a test file by number and then line, `BadFence`.
/// `Memory` may come in place of any answer.
pub fn run_place(
    alloc: Global,
    test: &[u8],
    prices: Option<&[u8]>,
    fences: &[String],
) -> Result<Output, Fault>
    ensures text { IfOk result (λ output.
        IsFencedText test.now (option_copied prices.entry) (map string_bytes fences.now) (string_bytes output.text)) }
    ensures status { IfOk result (λ output. output.status ≡ Status.Success) }
    ensures fault { IfErr result
        (IsFirstPlaceFault test.now (option_copied prices.entry) (map string_bytes fences.now)) }
{
    let prices = given_prices(alloc, prices)?;
    place_priced(alloc, test, prices.as_ref(), fences)
}

/// What `place` prints with these prices.
fn place_priced(
    alloc: Global,
    test: &[u8],
    prices: Option<&Prices>,
    fences: &[String],
) -> Result<Output, Fault>
    ensures text { IfOk result (λ output. (given : Option (List ℕ)) → ArePriced given (option_copied prices.entry)
        → IsFencedText test.now given (map string_bytes fences.now) (string_bytes output.text)) }
    ensures status { IfOk result (λ output. output.status ≡ Status.Success) }
    ensures fault { IfErr result (λ fault. (given : Option (List ℕ)) → ArePriced given (option_copied prices.entry)
        → IsFirstPlaceFault test.now given (map string_bytes fences.now) fault) }
{
    let test = read_test(alloc, test)?;
    place_fences(alloc, &test, prices, fences)
}

/// What `place` prints for a test that was read.
fn place_fences(
    alloc: Global,
    test: &Test,
    prices: Option<&Prices>,
    fences: &[String],
) -> Result<Output, Fault>
    requires { IsTest test.now }
    ensures text { IfOk result (λ output. (given : Option (List ℕ)) (bytes : List ℕ)
        → ArePriced given (option_copied prices.entry) → Reads bytes test.now
        → IsFencedText bytes given (map string_bytes fences.now) (string_bytes output.text)) }
    ensures status { IfOk result (λ output. output.status ≡ Status.Success) }
    ensures fault { IfErr result (λ fault. (given : Option (List ℕ)) (bytes : List ℕ)
        → ArePriced given (option_copied prices.entry) → Reads bytes test.now
        → IsFirstPlaceFault bytes given (map string_bytes fences.now) fault) }
{
    let placement = read_fences(alloc, test, prices, fences)?;
    let text = fenced_text(alloc, test, &placement, prices)?;
    Ok(Output {
        text,
        status: Status::Success,
    })
}

/// The prices that the file holds, where one is given.
fn given_prices(alloc: Global, bytes: Option<&[u8]>) -> Result<Option<Prices>, Fault>
    ensures ok { IfOk result (ArePriced (option_copied bytes.entry)) }
    ensures err { IfErr result (λ fault. fault ≢ Fault.Memory → IsPricesFault (option_copied bytes.entry) fault) }
{
    match bytes {
        Some(bytes) => Ok(Some(read_prices(alloc, bytes)?)),
        None => Ok(None),
    }
}

/// The fenced test in print, and where prices are given, the line with the cost.
fn fenced_text(
    alloc: Global,
    test: &Test,
    placement: &Placement,
    prices: Option<&Prices>,
) -> Result<String, Fault>
    requires valid { IsBounded test.now }
    requires slots { slots_of placement.now ≡ slots test.now }
    requires offered { IfSome (option_copied prices) (λ table. IsTrue (are_offered table placement.now)) }
    ensures ok { IfOk result (λ text. string_bytes text
        ≡ printed (fenced test.now placement.now) ++ cost_line (option_copied prices.entry) placement.now) }
    ensures err { IsOkUnless result Fault.Memory }
{
    let mut text = write_fenced(alloc, test, placement)?;
    if let Some(prices) = prices {
        writeln!(text, "(* cost {} *)", prices.cost(placement))?;
    }
    Ok(text)
}
