//! What `check` answers.

ghost use Rattle.std.specs.Prelude.{◌≡◌, ◌≢◌, ℕ, List, None, Some, IfOk, IfErr, IsOkUnless, string_bytes};
ghost use Rattle.fs_kinds.specs.PriceTable.{PriceTable};
ghost use Rattle.fs_model.specs.declared.test.Test.{Test as Tests};
ghost use Rattle.fs_model.specs.Test.{IsBounded, IsTest};
ghost use Rattle.fs_cert_evidence.specs.Certificate.{Certificate as Said};
ghost use Rattle.fs_check_certificate.specs.declared.certificate_verdict.CheckVerdict.TheVariants.{Yes, No};
ghost use Rattle.fs_check_certificate.specs.Checks.{IsCheckVerdict, IsCheckFault};
ghost use Rattle.fs_app_place_and_order.specs.Place.{ArePricesOf};
ghost use Rattle.fs_app_solve_and_check.specs.Check.{AreOneVerdict, PrintsVerdict, PrintsFileVerdict, IsChecked};
ghost use Rattle.fs_app_solve_and_check.specs.Check.{IsFirstCheckFault, refusal_line};

use crate::certified::{fenced_answer, none_answer};
use crate::checked::Checked;
use crate::objects::no_object;
use fs_app_io::{Output, Status};
use fs_cert_json::Certificate;
use fs_check_certificate::{CheckVerdict, check};
use fs_kinds::{Fault, Placement, Prices, Reason, read_prices};
use fs_litmus::{Test, read_test};
use std::alloc::{AllocError, Global};
use std::sync::Arc;

/// What `check` prints for a test file, a file of prices and a certificate, in lines or as JSON: where the certificate
/// is valid, `yes` and below it the answer as `solve` prints it, and status 0; else `no: ` and the first reason against
/// it, and status 1. The files are bytes as they were read. Nothing of the search is called.
///
/// The first fault in this order: `BadPrices` and `NoTop`; those of a test file by number and then line;
/// `BadCertificate`; `TooManyTraces` and `Astray`; and `TooManyCandidates`, but not where the certificate has a
/// refutation. `Memory` may come in place of any answer. The cost is that of `check` of fs_check_certificate.
pub fn run_check(
    alloc: Global,
    test: &[u8],
    prices: &[u8],
    certificate: &[u8],
) -> Result<Checked, Fault>
    ensures answer { IfOk result (λ made.
        IsChecked test.now prices.now certificate.now (string_bytes made.output.text) made.output.status) }
    ensures object { IfOk result (λ made. AreOneVerdict (string_bytes made.output.text) (string_bytes made.object)) }
    ensures fault { IfErr result (IsFirstCheckFault test.now prices.now certificate.now) }
{
    let table = read_prices(alloc, prices)?;
    check_priced(alloc, test, &table, certificate)
}

/// What `check` prints with these prices.
fn check_priced(
    alloc: Global,
    test: &[u8],
    prices: &Prices,
    certificate: &[u8],
) -> Result<Checked, Fault>
    ensures answer { IfOk result (λ made. (bytes : List ℕ) → ArePricesOf bytes prices.now
        → IsChecked test.now bytes certificate.now (string_bytes made.output.text) made.output.status) }
    ensures object { IfOk result (λ made. AreOneVerdict (string_bytes made.output.text) (string_bytes made.object)) }
    ensures fault { IfErr result (λ fault. (bytes : List ℕ) → ArePricesOf bytes prices.now
        → IsFirstCheckFault test.now bytes certificate.now fault) }
{
    let read = read_test(alloc, test)?;
    check_test(alloc, read, prices, certificate)
}

/// What `check` prints for a test that was read.
fn check_test(
    alloc: Global,
    test: Test,
    prices: &Prices,
    certificate: &[u8],
) -> Result<Checked, Fault>
    requires { IsTest test }
    ensures answer { IfOk result (λ made.
        PrintsFileVerdict test prices.now certificate.now (string_bytes made.output.text) made.output.status) }
    ensures object { IfOk result (λ made. AreOneVerdict (string_bytes made.output.text) (string_bytes made.object)) }
    ensures fault { IfErr result (λ fault. fault ≢ Fault.Memory → IsCheckFault test certificate.now fault) }
{
    let test = Arc::new(alloc, test)?;
    let verdict = check(alloc, test, prices, certificate)?;
    verdict_output(alloc, &verdict)
}

/// The verdict in print, and the status that goes with it.
fn verdict_output(alloc: Global, verdict: &CheckVerdict) -> Result<Checked, Fault>
    ensures answer { IfOk result (λ made. (t : Tests) (prices : PriceTable) (c : Said) → IsBounded t
        → IsCheckVerdict t prices c verdict.now → PrintsVerdict t prices c (string_bytes
        made.output.text) made.output.status) }
    ensures object { IfOk result (λ made. (t : Tests) (prices : PriceTable) (c : Said) → IsBounded t
        → IsCheckVerdict t prices c verdict.now
        → AreOneVerdict (string_bytes made.output.text) (string_bytes made.object)) }
    ensures err { IsOkUnless result Fault.Memory }
{
    match verdict {
        CheckVerdict::Yes(certificate, answer) => yes_output(alloc, certificate, answer),
        CheckVerdict::No(reason) => refusal(alloc, *reason),
    }
}

/// A yes to a certificate with this answer.
fn yes_output(
    alloc: Global,
    certificate: &Certificate,
    answer: &Option<Placement>,
) -> Result<Checked, Fault>
    ensures answer { IfOk result (λ made. (t : Tests) (prices : PriceTable) (c : Said) → IsBounded t
        → IsCheckVerdict t prices c (Yes certificate.now answer.now)
        → PrintsVerdict t prices c (string_bytes made.output.text) made.output.status) }
    ensures object { IfOk result (λ made. (t : Tests) (prices : PriceTable) (c : Said) → IsBounded t
        → IsCheckVerdict t prices c (Yes certificate.now answer.now)
        → AreOneVerdict (string_bytes made.output.text) (string_bytes made.object)) }
    ensures err { IsOkUnless result Fault.Memory }
{
    match answer {
        Some(placement) => fenced_output(alloc, certificate, placement),
        None => none_output(alloc, certificate),
    }
}

/// A yes to a certificate that answers this placement.
fn fenced_output(
    alloc: Global,
    certificate: &Certificate,
    placement: &Placement,
) -> Result<Checked, Fault>
    ensures answer { IfOk result (λ made. (t : Tests) (prices : PriceTable) (c : Said) → IsBounded t
        → IsCheckVerdict t prices c (Yes certificate.now (Some placement.now))
        → PrintsVerdict t prices c (string_bytes made.output.text) made.output.status) }
    ensures object { IfOk result (λ made. (t : Tests) (prices : PriceTable) (c : Said) → IsBounded t
        → IsCheckVerdict t prices c (Yes certificate.now (Some placement.now))
        → AreOneVerdict (string_bytes made.output.text) (string_bytes made.object)) }
    ensures err { IsOkUnless result Fault.Memory }
{
    fenced_answer(alloc, certificate, placement)
}

/// A yes to a certificate that answers none.
fn none_output(alloc: Global, certificate: &Certificate) -> Result<Checked, Fault>
    ensures answer { IfOk result (λ made. (t : Tests) (prices : PriceTable) (c : Said) → IsBounded t
        → IsCheckVerdict t prices c (Yes certificate.now None)
        → PrintsVerdict t prices c (string_bytes made.output.text) made.output.status) }
    ensures object { IfOk result (λ made. (t : Tests) (prices : PriceTable) (c : Said) → IsBounded t
        → IsCheckVerdict t prices c (Yes certificate.now None)
        → AreOneVerdict (string_bytes made.output.text) (string_bytes made.object)) }
    ensures err { IsOkUnless result Fault.Memory }
{
    none_answer(alloc, certificate)
}

/// A no in print, with its reason.
fn refusal(alloc: Global, reason: Reason) -> Result<Checked, Fault>
    ensures answer { IfOk result (λ made. (t : Tests) (prices : PriceTable) (c : Said) → IsBounded t
        → IsCheckVerdict t prices c (No reason)
        → PrintsVerdict t prices c (string_bytes made.output.text) made.output.status) }
    ensures object { IfOk result (λ made. (t : Tests) (prices : PriceTable) (c : Said) → IsBounded t
        → IsCheckVerdict t prices c (No reason)
        → AreOneVerdict (string_bytes made.output.text) (string_bytes made.object)) }
    ensures err { IsOkUnless result Fault.Memory }
{
    Ok(Checked {
        output: Output {
            text: refusal_text(alloc, reason)?,
            status: Status::Denied,
        },
        object: no_object(alloc, reason)?,
    })
}

/// The line `no: ` with the reason.
fn refusal_text(alloc: Global, reason: Reason) -> Result<String, AllocError>
    ensures { IfOk result (λ text. string_bytes text ≡ refusal_line reason) }
{
    format!(in alloc; "no: {}\n", reason)
}
