//! What `audit --why` tells.

ghost use Rattle.std.specs.Prelude.{◌≡◌, ◌≢◌, ◌≤◌, ◌⊎◌, ℕ, List as Items, Option, IfErr, IfOk, IsOkUnless};
ghost use Rattle.std.specs.Prelude.{string_bytes};
ghost use Rattle.fs_kinds.specs.PriceTable.{PriceTable};
ghost use Rattle.fs_model.specs.declared.test.Test.{Test as Tests};
ghost use Rattle.fs_model.specs.Allows.{no_fences};
ghost use Rattle.fs_model.specs.Test.{IsBounded, IsSame, IsTest};
ghost use Rattle.fs_model.specs.Witness.{Witness as Witnesses};
ghost use Rattle.fs_litmus.specs.Faults.{IsTestFault};
ghost use Rattle.fs_litmus.specs.Reads.{Reads};
ghost use Rattle.fs_app_place_and_order.specs.Place.{ArePricesOf};
ghost use Rattle.fs_app_test.specs.SaidVerdicts.{IsTestedAs, witness_in};
ghost use Rattle.fs_app_why.specs.Why.{TellsForbidden, allowed_heading};
ghost use Rattle.fs_app_audit_json_and_why.specs.Advised.{as_advised};
ghost use Rattle.fs_app_audit_json_and_why.specs.Why.{AreAdvised, IsAdvisedFault, IsAuditWhy, IsFirstWhyFault, TellsAdvised};
ghost use Rattle.fs_app_audit_json_and_why.specs.Why.{TellsAs, TellsInPlace, TellsSome};

use crate::advised::read_advised;
use crate::executions::shown_text;
use crate::page::Page;
use crate::places::places_text;
use crate::refutation::{Refutation, refuted};
use fs_app_audit::{Limits, find_in_place, read_shared};
use fs_app_test::{Kind, Said, judge_test};
use fs_app_why::{Telling, lacks_written, lines_of, no_fences, unwritten_text};
use fs_kinds::{Fault, Placement, Prices, read_prices};
use std::alloc::Global;

/// Why the test with these fences in place rules its outcome out, as it is advised.
fn refuted_in_place(
    alloc: Global,
    page: Page<'_>,
    placement: &Placement,
) -> Result<Refutation, Fault>
    requires reads { Reads page.bytes.now page.test.now }
    requires advised { (table : PriceTable) × AreAdvised page.test.now table placement.now }
    ensures told { IfOk result (λ made. (u : Tests) × IsSame u (as_advised page.entry.test.now placement.now)
        × (told : TellsForbidden u page.entry.lines.now page.entry.telling (no_fences u) (string_bytes made.text))
        × (told.kinds ≡ made.kinds.items)) }
    ensures err { IfErr result (λ f. f ≢ Fault.Memory
        → IsTestFault page.entry.bytes.now f ⊎ IsAdvisedFault page.entry.test.now placement.now f) }
{
    let test = read_advised(alloc, page.bytes, placement)?;
    let none = no_fences(alloc, &test)?;
    refuted(
        alloc,
        &test,
        page.lines,
        page.telling,
        &none,
        page.inferences,
    )
}

/// What is told of a test with these fences in place.
fn advised_text(alloc: Global, page: Page<'_>, placement: &Placement) -> Result<String, Fault>
    requires reads { Reads page.bytes.now page.test.now }
    requires advised { (table : PriceTable) × AreAdvised page.test.now table placement.now }
    ensures told { IfOk result (λ text. TellsAdvised page.entry.test.now page.entry.lines.now page.entry.telling
        placement.now (string_bytes text)) }
    ensures err { IfErr result (λ f. f ≢ Fault.Memory
        → IsTestFault page.entry.bytes.now f ⊎ IsAdvisedFault page.entry.test.now placement.now f) }
{
    let refutation = refuted_in_place(alloc, page, placement)?;
    let Refutation { mut text, kinds } = refutation;
    let fences = places_text(alloc, page, placement, &kinds)?;
    text.push_str(fences.as_str())?;
    Ok(text)
}

/// What is told of a test that is forbidden as it is written, of what is advised in place.
fn in_place_text(
    alloc: Global,
    page: Page<'_>,
    prices: &Prices,
    limits: Limits,
) -> Result<String, Fault>
    requires reads { Reads page.bytes.now page.test.now }
    requires bounded { IsBounded page.test.now }
    requires tested { (why : Items ℕ) × (witness : Option Witnesses)
        × IsTestedAs page.test.now Kind.Forbidden why witness }
    requires most { limits.nodes ≤ 1000000 }
    ensures told { IfOk result (λ text. TellsInPlace page.entry.test.now prices.now page.entry.lines.now
        page.entry.telling (string_bytes text)) }
    ensures fault { IfErr result (λ f. (file : Items ℕ) → ArePricesOf file prices.now
        → IsFirstWhyFault page.entry.bytes.now file limits.nodes f) }
{
    let found = find_in_place(alloc, page.bytes, prices, page.test, limits)?;
    advised_text(alloc, page, &found.advised)
}

/// The same, as far as it is asked for.
fn forbidden_text(
    alloc: Global,
    page: Page<'_>,
    prices: &Prices,
    limits: Limits,
) -> Result<String, Fault>
    requires reads { Reads page.bytes.now page.test.now }
    requires bounded { IsBounded page.test.now }
    requires tested { (why : Items ℕ) × (witness : Option Witnesses)
        × IsTestedAs page.test.now Kind.Forbidden why witness }
    requires most { limits.nodes ≤ 1000000 }
    ensures told { IfOk result (λ text. TellsAs Kind.Forbidden page.entry.test.now prices.now page.entry.lines.now
        page.entry.telling (string_bytes text)) }
    ensures fault { IfErr result (λ f. (file : Items ℕ) → ArePricesOf file prices.now
        → IsFirstWhyFault page.entry.bytes.now file limits.nodes f) }
{
    if lacks_written(page.telling, page.test) {
        let text = unwritten_text(alloc, page.telling)?;
        return Ok(text);
    }
    in_place_text(alloc, page, prices, limits)
}

/// What is told of a test that is allowed as it is written: the execution that shows it.
fn allowed_text(alloc: Global, page: Page<'_>, said: &Said) -> Result<String, Fault>
    requires test { IsTest page.test.now }
    requires tested { IsTestedAs page.test.now Kind.Allowed (string_bytes said.now.why) (witness_in said.now.witness) }
    ensures told { IfOk result (λ text.
        TellsSome page.entry.test.now (no_fences page.entry.test.now) page.entry.lines.now allowed_heading
        (string_bytes text)) }
    ensures err { IsOkUnless result Fault.Memory }
{
    let Some(witness) = &said.witness else {
        unreachable!()
    };
    let heading = "\nThe outcome can be, in the order of memory:\n";
    let none = no_fences(alloc, page.test)?;
    shown_text(alloc, heading, page.test, page.lines, &none, witness)
}

/// What is told of a test, by what is said of it as it is written.
fn told_text(
    alloc: Global,
    page: Page<'_>,
    prices: &Prices,
    said: &Said,
    limits: Limits,
) -> Result<String, Fault>
    requires reads { Reads page.bytes.now page.test.now }
    requires test { IsTest page.test.now }
    requires tested { IsTestedAs page.test.now said.now.kind (string_bytes said.now.why) (witness_in said.now.witness) }
    requires most { limits.nodes ≤ 1000000 }
    ensures told { IfOk result (λ text. TellsAs said.now.kind page.entry.test.now prices.now page.entry.lines.now
        page.entry.telling (string_bytes text)) }
    ensures fault { IfErr result (λ f. (file : Items ℕ) → ArePricesOf file prices.now
        → IsFirstWhyFault page.entry.bytes.now file limits.nodes f) }
{
    match said.kind {
        Kind::Forbidden => forbidden_text(alloc, page, prices, limits),
        Kind::Allowed => allowed_text(alloc, page, said),
        Kind::Vacuous => Ok(String::new(alloc)),
        Kind::Faulty => unreachable!(),
    }
}

/// What `audit --why` prints below what `run_audit` of fs_app_audit answers, for a test file and a file of prices.
///
/// Of a test that is forbidden as it is written first come, as many as `telling` says, the contradictions that rule the
/// outcome out in the test in which each FENCE is as it is advised in place: it stays, or another one stands there, or
/// `fence io,io`. Then of each fence that is advised comes a line that says in which kinds of contradictions it is
/// needed, and below it an execution that shows the outcome where this one is missing too. Where one FENCE is asked
/// for, and the instruction is none, a line says so. Of a test that is allowed as it is written comes an execution that
/// shows the outcome, and of a vacuous one nothing.
///
/// The first fault in this order: those of `run_audit` but for its search anew, and those of `verdict_on` of fs_app_why
/// for each test that is judged. The test is judged and searched in place once more, as `run_audit` does; the cost is
/// also that of `forbidden_text` of fs_app_why, and for each fence that of reading the test, of a verdict, and of
/// `told` of fs_app_why.
pub fn why_audit(
    alloc: Global,
    telling: Telling,
    test: &[u8],
    prices: &[u8],
    limits: Limits,
) -> Result<String, Fault>
    requires { limits.nodes ≤ 1000000 }
    ensures told { IfOk result (λ text. IsAuditWhy telling test.now prices.now (string_bytes text)) }
    ensures fault { IfErr result (IsFirstWhyFault test.now prices.now limits.nodes) }
{
    let table = read_prices(alloc, prices)?;
    let own = read_shared(alloc, test)?;
    let said = judge_test(alloc, &own, limits.inferences)?;
    let lines = lines_of(alloc, test)?;
    let page = Page {
        bytes: test,
        test: &own,
        lines: &lines,
        telling,
        inferences: limits.inferences,
    };
    told_text(alloc, page, &table, &said, limits)
}
