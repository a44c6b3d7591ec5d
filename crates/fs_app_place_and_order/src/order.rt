//! What `order` answers.
ghost use Rattle.std.specs.Prelude.{◌≡◌, ◌++◌, ℕ, List, None, Some, IfOk, IfErr, IsOkUnless, map, string_bytes};
ghost use Rattle.fs_model.specs.Placed.{IsPlaced};
ghost use Rattle.fs_model.specs.Slots.{slots};
ghost use Rattle.fs_model.specs.Test.{IsTest};
ghost use Rattle.fs_litmus.specs.Reads.{Reads};
ghost use Rattle.fs_app_place_and_order.specs.Order.{IsOrderAnswer, IsFirstOrderFault, verdict_line, verdict_status};

use fs_app_io::{Output, Status};
use fs_check::{OrderVerdict, check_order};
use fs_kinds::{Fault, Placement};
use fs_litmus::{Test, read_fences, read_test};
use std::alloc::Global;

/// What `order` prints for a test file, a witness and the words of fences to place: `yes` where the witness gives an
/// execution, under RVWMO, of the test with these fences that shows the outcome of its condition; else `no: ` and the
/// first reason against it. The files are bytes as they were read.
///
/// The first fault in this order: those of a test file by number and then line, `BadFence`, `BadWitness`. `Memory` may
/// come in place of any answer.
pub fn run_order(
    alloc: Global,
    test: &[u8],
    witness: &[u8],
    fences: &[String],
) -> Result<Output, Fault>
    ensures answer { IfOk result (λ output.
        IsOrderAnswer test.now witness.now (map string_bytes fences.now) (string_bytes output.text) output.status) }
    ensures fault { IfErr result (IsFirstOrderFault test.now witness.now (map string_bytes fences.now)) }
{
    let test = read_test(alloc, test)?;
    judge(alloc, &test, witness, fences)
}

/// What `order` prints for a test that was read.
fn judge(alloc: Global, test: &Test, witness: &[u8], fences: &[String]) -> Result<Output, Fault>
    requires { IsTest test.now }
    ensures answer { IfOk result (λ output. (bytes : List ℕ) → Reads bytes test.now
        → IsOrderAnswer bytes witness.now (map string_bytes fences.now) (string_bytes output.text) output.status) }
    ensures fault { IfErr result (λ fault. (bytes : List ℕ) → Reads bytes test.now
        → IsFirstOrderFault bytes witness.now (map string_bytes fences.now) fault) }
{
    let placement = read_fences(alloc, test, None, fences)?;
    judge_placed(alloc, test, &placement, witness)
}

/// What `order` prints for a test with this placement.
fn judge_placed(
    alloc: Global,
    test: &Test,
    placement: &Placement,
    witness: &[u8],
) -> Result<Output, Fault>
    requires { IsTest test.now }
    ensures answer { IfOk result (λ output. (bytes : List ℕ) (words : List (List ℕ)) → Reads bytes test.now
        → IsPlaced None (slots test.now) words (Some placement.now)
        → IsOrderAnswer bytes witness.now words (string_bytes output.text) output.status) }
    ensures fault { IfErr result (λ fault. (bytes : List ℕ) (words : List (List ℕ)) → Reads bytes test.now
        → IsPlaced None (slots test.now) words (Some placement.now)
        → IsFirstOrderFault bytes witness.now words fault) }
{
    let verdict = check_order(alloc, test, placement, witness)?;
    Ok(Output {
        text: verdict_text(alloc, verdict)?,
        status: status_of(verdict),
    })
}

/// The line of the verdict.
fn verdict_text(alloc: Global, verdict: OrderVerdict) -> Result<String, Fault>
    ensures ok { IfOk result (λ text. string_bytes text ≡ verdict_line verdict) }
    ensures err { IsOkUnless result Fault.Memory }
{
    let mut text = String::new(alloc);
    match verdict {
        OrderVerdict::Yes => writeln!(text, "yes")?,
        OrderVerdict::No(reason) => writeln!(text, "no: {}", reason)?,
    }
    Ok(text)
}

fn status_of(verdict: OrderVerdict) -> Status
    ensures { result ≡ verdict_status verdict }
{
    match verdict {
        OrderVerdict::Yes => Status::Success,
        OrderVerdict::No(_) => Status::Denied,
    }
}
