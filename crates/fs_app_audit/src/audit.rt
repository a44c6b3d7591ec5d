//! What `audit` answers.

ghost use Rattle.std.specs.Prelude.{◌≡◌, ◌≤◌, ◌++◌, ℕ, List as Items, Option, IfOk, IfErr, IsOkUnless, string_bytes};
ghost use Rattle.std.specs.Arc.{arc_value};
ghost use Rattle.fs_model.specs.Test.{IsBounded, IsTest};
ghost use Rattle.fs_model.specs.Witness.{Witness as Shown};
ghost use Rattle.fs_litmus.specs.Reads.{Reads};
ghost use Rattle.fs_app_place_and_order.specs.Place.{ArePricesOf};
ghost use Rattle.fs_app_test.specs.SaidVerdicts.{IsTestedAs, witness_in};
ghost use Rattle.fs_app_audit.specs.Audit.{IsAudited, IsAuditedAnew, audit_text};
ghost use Rattle.fs_app_audit.specs.Audit.{in_place_text, saved_in_place};
ghost use Rattle.fs_app_audit.specs.Audit.{IsFirstAnewFault, IsFirstAuditFault};
ghost use Rattle.fs_app_audit.specs.InPlace.{in_place_status, offers_in_place, vacuous_line, written_cost};
ghost use Rattle.fs_app_audit.specs.Report.{audit_status};
ghost use Rattle.fs_app_audit.specs.inner.Made.{IsSound, findings_of};

use crate::asked::Purpose;
use crate::findings::{Findings, Written, find, find_judged, read_shared};
use crate::in_place::{InPlace, find_in_place};
use crate::places::{offers_in_place, written_cost};
use crate::report::{audit_status, below, first_line};
use crate::report_in_place::{costs_line, in_place_status, lines_in_place, vacuous_line};
use fs_app_io::{Output, Status};
use fs_app_test::{Kind, Said, judge_test};
use fs_board_search::Limits;
use fs_kinds::{Fault, Prices, read_prices};
use fs_litmus::Test;
use std::alloc::{AllocError, Global};
use std::sync::Arc;

/// What is printed of a test, and what is counted of it beside others.
#[derive(Drop)]
pub struct Audited {
    pub output: Output,
    /// What it is as it is written.
    pub kind: Kind,
    /// How much less the fences cost that are advised in place.
    pub saved: u128,
}

/// What `audit` prints in place, for a test file and a file of prices, of a test that is forbidden as it is written. In
/// the places of its FENCEs that order memory those fences are found that rule the outcome out at the least cost; there
/// may stand none, the FENCE that is written, and each kind with a price that orders less. Of several cheapest ones
/// they are those that differ first in that a FENCE stays that costs something, or else in that none stands there. A
/// first line has what the FENCEs cost as they are written, what these fences cost, and what the cheapest fences that
/// `run_anew` finds. Then comes a line for each FENCE, by hart and place. The status is 0 where each stays, else 1.
///
/// Of a test that is vacuous one line says what its FENCEs cost, and why; the status is 4. Of one whose outcome is
/// possible the answer is that of `run_anew`. The files are bytes as they were read. One worker searches, and the call
/// ends.
///
/// The faults are those of `run_anew`, and in place those of the search of the test in which FENCEs order no memory.
/// The cost is that of `run_anew`, of reading the test once more, and of the search in place.
pub fn run_audit(
    alloc: Global,
    test: &[u8],
    prices: &[u8],
    limits: Limits,
) -> Result<Audited, Fault>
    requires least { 1 ≤ limits.nodes }
    requires most { limits.nodes ≤ 1000000 }
    ensures answer { IfOk result (λ made.
        IsAudited test.now prices.now (string_bytes made.output.text) made.output.status made.kind made.saved) }
    ensures fault { IfErr result (IsFirstAuditFault test.now prices.now limits.nodes) }
{
    let table = read_prices(alloc, prices)?;
    let own = read_shared(alloc, test)?;
    let said = judge_test(alloc, &own, limits.inferences)?;
    answer(alloc, test, table, own, said, limits)
}

/// The answer to a test that was judged as it is written.
fn answer(
    alloc: Global,
    bytes: &[u8],
    prices: Prices,
    own: Arc<Test>,
    said: Said,
    limits: Limits,
) -> Result<Audited, Fault>
    requires reads { Reads bytes.now (arc_value own) }
    requires test { IsTest (arc_value own) }
    requires tested { IsTestedAs (arc_value own) said.kind (string_bytes said.why) (witness_in said.witness) }
    requires least { 1 ≤ limits.nodes }
    requires most { limits.nodes ≤ 1000000 }
    ensures answer { IfOk result (λ made. (file : Items ℕ) → ArePricesOf file prices
        → IsAudited bytes.now file (string_bytes made.output.text) made.output.status made.kind made.saved) }
    ensures fault { IfErr result (λ f. (file : Items ℕ) → ArePricesOf file prices
        → IsFirstAuditFault bytes.now file limits.nodes f) }
{
    match said.kind {
        Kind::Forbidden => answer_in_place(alloc, bytes, prices, own, limits),
        Kind::Vacuous => answer_vacuous(alloc, &prices, &own, said.why.as_str()),
        Kind::Allowed => answer_anew(alloc, bytes, prices, own, limits),
        Kind::Faulty => unreachable!(),
    }
}

/// The answer to a test that is forbidden.
fn answer_in_place(
    alloc: Global,
    bytes: &[u8],
    prices: Prices,
    own: Arc<Test>,
    limits: Limits,
) -> Result<Audited, Fault>
    requires reads { Reads bytes.now (arc_value own) }
    requires test { IsTest (arc_value own) }
    requires tested { (why : Items ℕ) × (witness : Option Shown)
        × IsTestedAs (arc_value own) Kind.Forbidden why witness }
    requires least { 1 ≤ limits.nodes }
    requires most { limits.nodes ≤ 1000000 }
    ensures answer { IfOk result (λ made. (file : Items ℕ) → ArePricesOf file prices
        → IsAudited bytes.now file (string_bytes made.output.text) made.output.status made.kind made.saved) }
    ensures fault { IfErr result (λ f. (file : Items ℕ) → ArePricesOf file prices
        → IsFirstAuditFault bytes.now file limits.nodes f) }
{
    let in_place = find_in_place(alloc, bytes, &prices, &own, limits)?;
    let written = Written {
        test: own,
        kind: Kind::Forbidden,
    };
    let found = find_judged(alloc, Purpose::Advise, bytes, prices, written, limits)?;
    Ok(output_in_place(alloc, &found, &in_place)?)
}

/// What is printed of it.
fn output_in_place(
    alloc: Global,
    found: &Findings,
    in_place: &InPlace,
) -> Result<Audited, AllocError>
    requires sound { IsSound found.now }
    requires offers { in_place.now.offers
        ≡ offers_in_place (findings_of found.now).prices (findings_of found.now).test.codes }
    ensures text { IfOk result (λ made. string_bytes made.output.text
        ≡ in_place_text (findings_of found.now) in_place.now.advised) }
    ensures status { IfOk result (λ made. made.output.status
        ≡ in_place_status (findings_of found.now).prices (findings_of found.now).test.codes in_place.now.advised) }
    ensures kind { IfOk result (λ made. made.kind ≡ Kind.Forbidden) }
    ensures saved { IfOk result (λ made. made.saved ≡ saved_in_place (findings_of found.now) in_place.now.advised) }
{
    let prices = &found.question.prices;
    let codes = found.written.test.codes.as_slice();
    let advised = &in_place.advised;
    let written = written_cost(in_place.offers.as_slice());
    let cost = in_place.offers.cost(advised);
    let mut text = costs_line(alloc, written, cost, prices, found.best.as_ref())?;
    let below = lines_in_place(alloc, prices, &found.lines, codes, advised)?;
    text.push_str(below.as_str())?;
    let status = in_place_status(prices, codes, advised);
    Ok(Audited {
        output: Output { text, status },
        kind: Kind::Forbidden,
        saved: written.saturating_sub(u128::from(cost)),
    })
}

/// The answer to a test that is vacuous, for this reason.
fn answer_vacuous(alloc: Global, prices: &Prices, own: &Test, why: &str) -> Result<Audited, Fault>
    requires { IsBounded own.now }
    ensures text { IfOk result (λ made. string_bytes made.output.text
        ≡ vacuous_line (written_cost (offers_in_place prices.now own.now.codes)) why.now) }
    ensures status { IfOk result (λ made. made.output.status ≡ Status.Vacuous) }
    ensures kind { IfOk result (λ made. made.kind ≡ Kind.Vacuous) }
    ensures saved { IfOk result (λ made. made.saved ≡ 0) }
    ensures err { IsOkUnless result Fault.Memory }
{
    let offers = offers_in_place(alloc, prices, own.codes.as_slice())?;
    let text = vacuous_line(alloc, written_cost(offers.as_slice()), why)?;
    Ok(Audited {
        output: Output {
            text,
            status: Status::Vacuous,
        },
        kind: Kind::Vacuous,
        saved: 0,
    })
}

/// The answer to a test whose outcome is possible.
fn answer_anew(
    alloc: Global,
    bytes: &[u8],
    prices: Prices,
    own: Arc<Test>,
    limits: Limits,
) -> Result<Audited, Fault>
    requires reads { Reads bytes.now (arc_value own) }
    requires test { IsTest (arc_value own) }
    requires tested { (why : Items ℕ) × (witness : Option Shown)
        × IsTestedAs (arc_value own) Kind.Allowed why witness }
    requires least { 1 ≤ limits.nodes }
    requires most { limits.nodes ≤ 1000000 }
    ensures answer { IfOk result (λ made. (file : Items ℕ) → ArePricesOf file prices
        → IsAudited bytes.now file (string_bytes made.output.text) made.output.status made.kind made.saved) }
    ensures fault { IfErr result (λ f. (file : Items ℕ) → ArePricesOf file prices
        → IsFirstAnewFault bytes.now file limits.nodes f) }
{
    let written = Written {
        test: own,
        kind: Kind::Allowed,
    };
    let found = find_judged(alloc, Purpose::Advise, bytes, prices, written, limits)?;
    Ok(found_anew(alloc, &found)?)
}

/// What is printed of what was found anew.
fn found_anew(alloc: Global, found: &Findings) -> Result<Audited, AllocError>
    requires { IsSound found.now }
    ensures text { IfOk result (λ made. string_bytes made.output.text ≡ audit_text (findings_of found.now)) }
    ensures status { IfOk result (λ made. made.output.status
        ≡ audit_status found.now.written.kind (findings_of found.now).codes found.now.best) }
    ensures kind { IfOk result (λ made. made.kind ≡ found.now.written.kind) }
    ensures saved { IfOk result (λ made. made.saved ≡ 0) }
{
    let text = audit_text(alloc, found)?;
    let status = status_of(found);
    Ok(Audited {
        output: Output { text, status },
        kind: found.written.kind,
        saved: 0,
    })
}

/// What `audit --anew` prints for a test file and a file of prices. Its FENCE instructions that order memory are taken
/// out, or order none where they name devices, and fences are found that rule the outcome out over the slots of that
/// test, and of which none cost less: those that are written, as far as each stands at a slot, if they do and each of
/// them costs something; or else the first of the cheapest. A first line says whether the outcome is possible as the
/// test is written, what its FENCEs cost, where each stands at a slot of its own with a kind that has a price, and what
/// the cheapest fences cost. Then come a line for each FENCE and for each fence that is missing, by hart and place,
/// with the line of the file. The status is 4 where the outcome is vacuous, else 1 where it is possible or there is
/// something to change, else 0. The files are bytes as they were read. One worker searches, and the call ends.
///
/// The first fault in this order: `BadPrices` and `NoTop`; those of a test file by number and then line; those of
/// `judge_test` of fs_app_test; those of a search for the cheapest fences with this limit of nodes. `Memory` may come
/// in place of any answer. The cost is that of reading the test four times, of judging it twice, of the search, and of
/// each hart the fourth power of its code's length.
pub fn run_anew(alloc: Global, test: &[u8], prices: &[u8], limits: Limits) -> Result<Audited, Fault>
    requires least { 1 ≤ limits.nodes }
    requires most { limits.nodes ≤ 1000000 }
    ensures answer { IfOk result (λ made.
        IsAuditedAnew test.now prices.now (string_bytes made.output.text) made.output.status made.kind) }
    ensures saved { IfOk result (λ made. made.saved ≡ 0) }
    ensures fault { IfErr result (IsFirstAnewFault test.now prices.now limits.nodes) }
{
    let found = find(alloc, Purpose::Advise, test, prices, limits)?;
    Ok(found_anew(alloc, &found)?)
}

fn audit_text(alloc: Global, found: &Findings) -> Result<String, AllocError>
    requires { IsSound found.now }
    ensures { IfOk result (λ text. string_bytes text ≡ audit_text (findings_of found.now)) }
{
    let prices = &found.question.prices;
    let best = found.best.as_ref();
    let fences = if found.all_fit {
        Some(&found.fences)
    } else {
        None
    };
    let mut text = first_line(alloc, found.written.kind, prices, fences, best)?;
    let below = below(
        alloc,
        &found.lines,
        found.written.test.codes.as_slice(),
        best,
    )?;
    text.push_str(below.as_str())?;
    Ok(text)
}

/// The exit status of what was found anew.
pub fn status_of(found: &Findings) -> Status
    requires { IsSound found.now }
    ensures { result ≡ audit_status found.now.written.kind (findings_of found.now).codes found.now.best }
{
    audit_status(
        found.written.kind,
        found.asked.codes.as_slice(),
        found.best.as_ref(),
    )
}
