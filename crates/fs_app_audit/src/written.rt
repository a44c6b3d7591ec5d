//! What `audit --write` prints.

ghost use Rattle.std.specs.Prelude.{◌≡◌, ◌≤◌, ℕ, List as Items, Option, IfOk, IfErr, IfSome, IsOkUnless, string_bytes};
ghost use Rattle.std.specs.Prelude.{true};
ghost use Rattle.std.specs.Arc.{arc_value};
ghost use Rattle.fs_kinds.specs.Placement.{slots_of};
ghost use Rattle.fs_model.specs.Fenced.{fenced};
ghost use Rattle.fs_model.specs.Printed.{printed};
ghost use Rattle.fs_model.specs.Slots.{slots};
ghost use Rattle.fs_model.specs.Test.{IsBounded, IsTest};
ghost use Rattle.fs_model.specs.Witness.{Witness as Shown};
ghost use Rattle.fs_litmus.specs.Reads.{Reads};
ghost use Rattle.fs_app_place_and_order.specs.Place.{ArePricesOf};
ghost use Rattle.fs_app_test.specs.SaidVerdicts.{IsForbidden, IsTestedAs, witness_in};
ghost use Rattle.fs_app_audit.specs.Audit.{IsFirstWrittenFault, IsRewritten, IsWritten, fenced_text, written_status};
ghost use Rattle.fs_app_audit.specs.inner.Made.{IsSound, findings_of};

use crate::asked::Purpose;
use crate::audit::status_of;
use crate::findings::{Findings, Written, find_judged, read_shared};
use crate::in_place::find_in_place;
use fs_app_file_text::{Rewritten, rewrite};
use fs_app_io::{Output, Status};
use fs_app_test::{Kind, Said, judge_test};
use fs_board_search::Limits;
use fs_kinds::{Fault, Placement, Prices, read_prices};
use fs_litmus::{Test, write_fenced};
use std::alloc::Global;
use std::sync::Arc;

// ---- the file with other FENCEs

/// Is it said of a test that it is forbidden?
fn says_forbidden(said: &Said) -> bool
    ensures { result ≡ true → said.now.kind ≡ Kind.Forbidden }
{
    match said.kind {
        Kind::Forbidden => true,
        _ => false,
    }
}

/// Is the outcome of the test forbidden as it is written, and the test not vacuous?
#[tactic(auto, using(crate::proofs::Answered::forbidden_as))]
fn is_forbidden(alloc: Global, test: &Arc<Test>, inferences: usize) -> Result<bool, Fault>
    requires { IsTest (arc_value test.now) }
    ensures yes { IfOk result (λ is. is ≡ true → IsForbidden (arc_value test.now)) }
    ensures err { IsOkUnless result Fault.Memory }
{
    match judge_test(alloc, test, inferences) {
        Ok(said) => Ok(says_forbidden(&said)),
        Err(Fault::Memory) => Err(Fault::Memory),
        Err(_) => Ok(false),
    }
}

/// The file with the fences that are advised in place, where that can be and they forbid the outcome.
fn rewritten_text(
    alloc: Global,
    bytes: &[u8],
    own: &Test,
    advised: &Placement,
    inferences: usize,
) -> Result<Option<String>, Fault>
    requires { IsTest own.now }
    ensures text { IfOk result (λ found. IfSome found (λ text.
        IsRewritten bytes.now own.now advised.now (string_bytes text))) }
    ensures err { IsOkUnless result Fault.Memory }
{
    let Some(made) = rewrite(alloc, bytes, own, advised)? else {
        return Ok(None);
    };
    let Rewritten { text, test } = made;
    let test = Arc::new(alloc, test)?;
    if is_forbidden(alloc, &test, inferences)? {
        Ok(Some(text))
    } else {
        Ok(None)
    }
}

/// 0 where nothing changed, else 1.
fn written_status(bytes: &[u8], text: &str) -> Status
    ensures { result ≡ written_status bytes.now text.now }
{
    if bytes == text.as_bytes() {
        Status::Success
    } else {
        Status::Denied
    }
}

/// The output of a test that is forbidden, where it is the file with other FENCEs.
fn output_of_file(
    alloc: Global,
    bytes: &[u8],
    prices: &Prices,
    own: &Test,
    limits: Limits,
) -> Result<Option<Output>, Fault>
    requires reads { Reads bytes.now own.now }
    requires test { IsTest own.now }
    requires tested { (why : Items ℕ) × (witness : Option Shown) × IsTestedAs own.now Kind.Forbidden why witness }
    requires most { limits.nodes ≤ 1000000 }
    ensures answer { IfOk result (λ found. IfSome found (λ output. (file : Items ℕ) → ArePricesOf file prices.now
        → IsWritten bytes.now file (string_bytes output.text) output.status)) }
    ensures fault { IfErr result (λ f. (file : Items ℕ) → ArePricesOf file prices.now
        → IsFirstWrittenFault bytes.now file limits.nodes f) }
{
    let in_place = find_in_place(alloc, bytes, prices, own, limits)?;
    let Some(text) = rewritten_text(alloc, bytes, own, &in_place.advised, limits.inferences)? else {
        return Ok(None);
    };
    let status = written_status(bytes, text.as_str());
    Ok(Some(Output { text, status }))
}

/// The output of a test that is forbidden.
fn written_in_place(
    alloc: Global,
    bytes: &[u8],
    prices: Prices,
    own: Arc<Test>,
    limits: Limits,
) -> Result<Output, Fault>
    requires reads { Reads bytes.now (arc_value own) }
    requires test { IsTest (arc_value own) }
    requires tested { (why : Items ℕ) × (witness : Option Shown)
        × IsTestedAs (arc_value own) Kind.Forbidden why witness }
    requires least { 1 ≤ limits.nodes }
    requires most { limits.nodes ≤ 1000000 }
    ensures answer { IfOk result (λ output. (file : Items ℕ) → ArePricesOf file prices
        → IsWritten bytes.now file (string_bytes output.text) output.status) }
    ensures fault { IfErr result (λ f. (file : Items ℕ) → ArePricesOf file prices
        → IsFirstWrittenFault bytes.now file limits.nodes f) }
{
    match output_of_file(alloc, bytes, &prices, &own, limits)? {
        Some(output) => Ok(output),
        None => {
            let written = Written {
                test: own,
                kind: Kind::Forbidden,
            };
            written_anew(alloc, bytes, prices, written, limits)
        }
    }
}

// ---- the test in the printed form

fn mended_text(alloc: Global, found: &Findings) -> Result<String, Fault>
    requires { IsSound found.now }
    ensures ok { IfOk result (λ text. string_bytes text ≡ fenced_text (findings_of found.now).bare found.now.best) }
    ensures err { IsOkUnless result Fault.Memory }
{
    match &found.best {
        Some(best) => mended(alloc, &found.question.test, best),
        None => Ok(String::new(alloc)),
    }
}

/// The test with the fences of a placement over its slots.
fn mended(alloc: Global, test: &Test, best: &Placement) -> Result<String, Fault>
    requires bounded { IsBounded test.now }
    requires slots { slots_of best.now ≡ slots test.now }
    ensures ok { IfOk result (λ text. string_bytes text ≡ printed (fenced test.now best.now)) }
    ensures err { IsOkUnless result Fault.Memory }
{
    match write_fenced(alloc, test, best) {
        Ok(text) => Ok(text),
        Err(_) => Err(Fault::Memory), // the slots are the test's, so it can be nothing else
    }
}

/// The output of a test with fences that were found anew.
fn written_anew(
    alloc: Global,
    bytes: &[u8],
    prices: Prices,
    written: Written,
    limits: Limits,
) -> Result<Output, Fault>
    requires reads { Reads bytes.now (arc_value written.test) }
    requires test { IsTest (arc_value written.test) }
    requires tested { (why : Items ℕ) × (witness : Option Shown)
        × IsTestedAs (arc_value written.test) written.kind why witness }
    requires least { 1 ≤ limits.nodes }
    requires most { limits.nodes ≤ 1000000 }
    ensures answer { IfOk result (λ output. (file : Items ℕ) → ArePricesOf file prices
        → IsWritten bytes.now file (string_bytes output.text) output.status) }
    ensures fault { IfErr result (λ f. (file : Items ℕ) → ArePricesOf file prices
        → IsFirstWrittenFault bytes.now file limits.nodes f) }
{
    let found = find_judged(alloc, Purpose::Write, bytes, prices, written, limits)?;
    let text = mended_text(alloc, &found)?;
    Ok(Output {
        text,
        status: status_of(&found),
    })
}

// ---- the command

/// The output of a test that was judged as it is written.
fn written(
    alloc: Global,
    bytes: &[u8],
    prices: Prices,
    own: Arc<Test>,
    said: Said,
    limits: Limits,
) -> Result<Output, Fault>
    requires reads { Reads bytes.now (arc_value own) }
    requires test { IsTest (arc_value own) }
    requires tested { IsTestedAs (arc_value own) said.kind (string_bytes said.why) (witness_in said.witness) }
    requires least { 1 ≤ limits.nodes }
    requires most { limits.nodes ≤ 1000000 }
    ensures answer { IfOk result (λ output. (file : Items ℕ) → ArePricesOf file prices
        → IsWritten bytes.now file (string_bytes output.text) output.status) }
    ensures fault { IfErr result (λ f. (file : Items ℕ) → ArePricesOf file prices
        → IsFirstWrittenFault bytes.now file limits.nodes f) }
{
    match said.kind {
        Kind::Forbidden => written_in_place(alloc, bytes, prices, own, limits),
        _ => {
            let written = Written {
                test: own,
                kind: said.kind,
            };
            written_anew(alloc, bytes, prices, written, limits)
        }
    }
}

/// A test that has fences which rule the outcome out.
///
/// Where the test is forbidden as it is written this is its file, and nothing changes but FENCEs. Each that orders
/// memory and names no devices becomes the fence that `run_audit` advises in its place, with blanks behind it up to its
/// old length, or else blanks. What is printed is read again, and judged, so that it is the test with these fences, and
/// no execution of that test shows the outcome. The status is 0 where the file stays as it is, else 1.
///
/// Else the test comes in the printed form of herd7's format, and nothing is printed where no fences rule the outcome
/// out. Each FENCE that names devices stays as it is, with all that it orders. The others are taken out, and of the
/// fences that come in their place none cost less: they are found as those of `run_anew`, over the slots of what is
/// left. The status is that of `run_anew` if of the FENCEs that stay nothing were said. The test comes so, too, where a
/// FENCE of the file can't become what is advised: a comment or the end of a line stands inside it, or it becomes
/// longer, as `fence.tso` alone does, and has no blank behind it.
///
/// The faults are those of `run_anew`, and in place those of `run_audit`; a search may end with another one. The cost
/// is that of `run_audit` at most, and of judging the test once more.
pub fn run_written(
    alloc: Global,
    test: &[u8],
    prices: &[u8],
    limits: Limits,
) -> Result<Output, Fault>
    requires least { 1 ≤ limits.nodes }
    requires most { limits.nodes ≤ 1000000 }
    ensures answer { IfOk result (λ output.
        IsWritten test.now prices.now (string_bytes output.text) output.status) }
    ensures fault { IfErr result (IsFirstWrittenFault test.now prices.now limits.nodes) }
{
    let table = read_prices(alloc, prices)?;
    let own = read_shared(alloc, test)?;
    let said = judge_test(alloc, &own, limits.inferences)?;
    written(alloc, test, table, own, said, limits)
}
