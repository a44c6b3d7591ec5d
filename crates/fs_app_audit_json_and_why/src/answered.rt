//! From the bytes of a test to its object.

ghost use Rattle.std.specs.Prelude.{◌≡◌, ◌≤◌, ℕ, List as Items, Option, length, IfOk, IfErr, string_bytes};
ghost use Rattle.std.specs.Arc.{arc_value};
ghost use Rattle.fs_model.specs.Test.{IsBounded, IsTest};
ghost use Rattle.fs_model.specs.Witness.{Witness as Shown};
ghost use Rattle.fs_litmus.specs.Reads.{Reads};
ghost use Rattle.fs_report.specs.Objects.{json_line};
ghost use Rattle.fs_app_place_and_order.specs.Place.{ArePricesOf};
ghost use Rattle.fs_app_test.specs.SaidVerdicts.{IsTestedAs};
ghost use Rattle.fs_app_audit.specs.Audit.{IsFirstAnewFault, IsFirstAuditFault, saved_in_place};
ghost use Rattle.fs_app_audit.specs.InPlace.{in_place_status, offers_in_place, written_cost};
ghost use Rattle.fs_app_audit.specs.Report.{audit_status};
ghost use Rattle.fs_app_audit.specs.inner.Made.{IsSound, findings_of};
ghost use Rattle.fs_app_audit_json_and_why.specs.Answered.{IsObjectAnew, IsObjectAudit};
ghost use Rattle.fs_app_audit_json_and_why.specs.Objects.{anew_value, in_place_value, vacuous_value};

use crate::cost::written_of;
use crate::objects::{anew_value, in_place_value, vacuous_value};
use fs_app_audit::{
    Audited, Findings, InPlace, Limits, Purpose, Written, find, find_in_place, find_judged,
    in_place_status, offers_in_place, read_shared, status_of, written_cost,
};
use fs_app_io::{Output, Status};
use fs_app_test::{Kind, judge_test};
use fs_kinds::{Fault, Prices, read_prices};
use fs_litmus::Test;
use fs_report::json_line;
use std::alloc::{AllocError, Global};
use std::sync::Arc;

// ---- a test that is forbidden

/// What is printed of it.
fn output_in_place(
    alloc: Global,
    name: &str,
    found: &Findings,
    in_place: &InPlace,
) -> Result<Audited, AllocError>
    requires sound { IsSound found.now }
    requires offers { in_place.now.offers
        ≡ offers_in_place (findings_of found.now).prices (findings_of found.now).test.codes }
    requires few { length in_place.now.offers ≤ 256 }
    ensures text { IfOk result (λ made. string_bytes made.output.text
        ≡ json_line (in_place_value name.now (findings_of found.now) in_place.now.advised)) }
    ensures status { IfOk result (λ made. made.output.status
        ≡ in_place_status (findings_of found.now).prices (findings_of found.now).test.codes in_place.now.advised) }
    ensures kind { IfOk result (λ made. made.kind ≡ Kind.Forbidden) }
    ensures saved { IfOk result (λ made. made.saved ≡ saved_in_place (findings_of found.now) in_place.now.advised) }
{
    let value = in_place_value(alloc, name, found, in_place)?;
    let text = json_line(alloc, &value)?;
    let codes = found.written.test.codes.as_slice();
    let written = written_cost(in_place.offers.as_slice());
    let cost = in_place.offers.cost(&in_place.advised);
    let status = in_place_status(&found.question.prices, codes, &in_place.advised);
    Ok(Audited {
        output: Output { text, status },
        kind: Kind::Forbidden,
        saved: written.saturating_sub(u128::from(cost)),
    })
}

/// The answer to it.
fn answer_in_place(
    alloc: Global,
    name: &str,
    bytes: &[u8],
    prices: Prices,
    own: Arc<Test>,
    limits: Limits,
) -> Result<Audited, Fault>
    requires reads { Reads bytes.now (arc_value own) }
    requires test { IsTest (arc_value own) }
    requires tested { (why : Items ℕ) × (witness : Option Shown)
        × IsTestedAs (arc_value own) Kind.Forbidden why witness }
    requires least { 1 ≤ limits.nodes }
    requires most { limits.nodes ≤ 1000000 }
    ensures answer { IfOk result (λ made. (given : Items ℕ) → ArePricesOf given prices
        → IsObjectAudit name.now bytes.now given (string_bytes made.output.text)
        made.output.status made.kind made.saved) }
    ensures fault { IfErr result (λ f. (given : Items ℕ) → ArePricesOf given prices
        → IsFirstAuditFault bytes.now given limits.nodes f) }
{
    let in_place = find_in_place(alloc, bytes, &prices, &own, limits)?;
    let written = Written {
        test: own,
        kind: Kind::Forbidden,
    };
    let found = find_judged(alloc, Purpose::Advise, bytes, prices, written, limits)?;
    Ok(output_in_place(alloc, name, &found, &in_place)?)
}

// ---- a test that is vacuous

/// What is printed of it.
fn output_vacuous(
    alloc: Global,
    name: &str,
    prices: &Prices,
    own: &Test,
    why: &str,
) -> Result<Audited, AllocError>
    requires { IsBounded own.now }
    ensures text { IfOk result (λ made. string_bytes made.output.text
        ≡ json_line (vacuous_value name.now why.now (written_cost (offers_in_place prices.now own.now.codes)))) }
    ensures status { IfOk result (λ made. made.output.status ≡ Status.Vacuous) }
    ensures kind { IfOk result (λ made. made.kind ≡ Kind.Vacuous) }
    ensures saved { IfOk result (λ made. made.saved ≡ 0) }
{
    let offers = offers_in_place(alloc, prices, own.codes.as_slice())?;
    let written = written_of(offers.as_slice());
    let value = vacuous_value(alloc, name, why, written)?;
    let text = json_line(alloc, &value)?;
    Ok(Audited {
        output: Output {
            text,
            status: Status::Vacuous,
        },
        kind: Kind::Vacuous,
        saved: 0,
    })
}

/// The answer to it.
fn answer_vacuous(
    alloc: Global,
    name: &str,
    bytes: &[u8],
    prices: &Prices,
    own: &Test,
    why: &str,
) -> Result<Audited, Fault>
    requires reads { Reads bytes.now own.now }
    requires test { IsTest own.now }
    requires tested { (witness : Option Shown) × IsTestedAs own.now Kind.Vacuous why.now witness }
    ensures answer { IfOk result (λ made. (given : Items ℕ) → ArePricesOf given prices.now
        → IsObjectAudit name.now bytes.now given (string_bytes made.output.text)
        made.output.status made.kind made.saved) }
    ensures fault { IfErr result (λ f. (given : Items ℕ) → ArePricesOf given prices.now → (limit : ℕ)
        → IsFirstAuditFault bytes.now given limit f) }
{
    Ok(output_vacuous(alloc, name, prices, own, why)?)
}

// ---- what is found anew

/// What is printed of it.
fn output_anew(alloc: Global, name: &str, found: &Findings) -> Result<Audited, AllocError>
    requires { IsSound found.now }
    ensures text { IfOk result (λ made. string_bytes made.output.text
        ≡ json_line (anew_value name.now (findings_of found.now))) }
    ensures status { IfOk result (λ made. made.output.status
        ≡ audit_status found.now.written.kind (findings_of found.now).codes found.now.best) }
    ensures kind { IfOk result (λ made. made.kind ≡ found.now.written.kind) }
    ensures saved { IfOk result (λ made. made.saved ≡ 0) }
{
    let value = anew_value(alloc, name, found)?;
    let text = json_line(alloc, &value)?;
    let status = status_of(found);
    Ok(Audited {
        output: Output { text, status },
        kind: found.written.kind,
        saved: 0,
    })
}

/// The answer to a test whose outcome is possible.
fn answer_anew(
    alloc: Global,
    name: &str,
    bytes: &[u8],
    prices: Prices,
    own: Arc<Test>,
    limits: Limits,
) -> Result<Audited, Fault>
    requires reads { Reads bytes.now (arc_value own) }
    requires test { IsTest (arc_value own) }
    requires tested { (why : Items ℕ) × (witness : Option Shown)
        × IsTestedAs (arc_value own) Kind.Allowed why witness }
    requires least { 1 ≤ limits.nodes }
    requires most { limits.nodes ≤ 1000000 }
    ensures answer { IfOk result (λ made. (given : Items ℕ) → ArePricesOf given prices
        → IsObjectAudit name.now bytes.now given (string_bytes made.output.text)
        made.output.status made.kind made.saved) }
    ensures fault { IfErr result (λ f. (given : Items ℕ) → ArePricesOf given prices
        → IsFirstAnewFault bytes.now given limits.nodes f) }
{
    let written = Written {
        test: own,
        kind: Kind::Allowed,
    };
    let found = find_judged(alloc, Purpose::Advise, bytes, prices, written, limits)?;
    Ok(output_anew(alloc, name, &found)?)
}

// ---- the command

/// The answer to a test that was read.
fn answer(
    alloc: Global,
    name: &str,
    bytes: &[u8],
    prices: Prices,
    own: Arc<Test>,
    limits: Limits,
) -> Result<Audited, Fault>
    requires reads { Reads bytes.now (arc_value own) }
    requires test { IsTest (arc_value own) }
    requires least { 1 ≤ limits.nodes }
    requires most { limits.nodes ≤ 1000000 }
    ensures answer { IfOk result (λ made. (given : Items ℕ) → ArePricesOf given prices
        → IsObjectAudit name.now bytes.now given (string_bytes made.output.text)
        made.output.status made.kind made.saved) }
    ensures fault { IfErr result (λ f. (given : Items ℕ) → ArePricesOf given prices
        → IsFirstAuditFault bytes.now given limits.nodes f) }
{
    let said = judge_test(alloc, &own, limits.inferences)?;
    match said.kind {
        Kind::Forbidden => answer_in_place(alloc, name, bytes, prices, own, limits),
        Kind::Vacuous => answer_vacuous(alloc, name, bytes, &prices, &own, said.why.as_str()),
        Kind::Allowed => answer_anew(alloc, name, bytes, prices, own, limits),
        Kind::Faulty => unreachable!(),
    }
}

/// What `audit --json` prints of a test file of this name and a file of prices: the object of what `run_audit` of
/// fs_app_audit prints in lines, as a line. Status, faults and cost are those of `run_audit`.
pub fn run_audit_object(
    alloc: Global,
    name: &str,
    test: &[u8],
    prices: &[u8],
    limits: Limits,
) -> Result<Audited, Fault>
    requires least { 1 ≤ limits.nodes }
    requires most { limits.nodes ≤ 1000000 }
    ensures answer { IfOk result (λ made. IsObjectAudit name.now test.now prices.now
        (string_bytes made.output.text) made.output.status made.kind made.saved) }
    ensures fault { IfErr result (IsFirstAuditFault test.now prices.now limits.nodes) }
{
    let table = read_prices(alloc, prices)?;
    let own = read_shared(alloc, test)?;
    answer(alloc, name, test, table, own, limits)
}

/// What `audit --anew --json` prints: the object of what `run_anew` of fs_app_audit prints in lines, as a line. Status,
/// faults and cost are those of `run_anew`.
pub fn run_anew_object(
    alloc: Global,
    name: &str,
    test: &[u8],
    prices: &[u8],
    limits: Limits,
) -> Result<Audited, Fault>
    requires least { 1 ≤ limits.nodes }
    requires most { limits.nodes ≤ 1000000 }
    ensures answer { IfOk result (λ made. IsObjectAnew name.now test.now prices.now
        (string_bytes made.output.text) made.output.status made.kind) }
    ensures saved { IfOk result (λ made. made.saved ≡ 0) }
    ensures fault { IfErr result (IsFirstAnewFault test.now prices.now limits.nodes) }
{
    let found = find(alloc, Purpose::Advise, test, prices, limits)?;
    Ok(output_anew(alloc, name, &found)?)
}
