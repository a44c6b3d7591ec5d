//! What `order --sites` answers.

ghost use Rattle.std.specs.Prelude.{◌≡◌, ◌≤◌, Bool, ℕ, List, IfOk, IfErr, IsOkUnless, length, map, string_bytes, true};
ghost use Rattle.fs_kinds.specs.Slot.{is_rising};
ghost use Rattle.fs_model.specs.Test.{IsTest};
ghost use Rattle.fs_sites.specs.Questions.{slots_at};
ghost use Rattle.fs_app_place_and_order.specs.Order.{verdict_line, verdict_status};
ghost use Rattle.fs_app_sites.specs.Sites.{most_sites};
ghost use Rattle.fs_app_sites.specs.Sited.{AreFences, AreSites};
ghost use Rattle.fs_app_sites.specs.Order.{IsFirstSitesOrderFault, IsSitesOrderAnswer};

use crate::sited::{Sites, read_sited};
use crate::words::read_kinds;
use fs_app_io::{Output, Status};
use fs_check::{OrderVerdict, check_order};
use fs_kinds::{Fault, Placement};
use fs_litmus::Test;
use fs_sites::{Place, image};
use std::alloc::Global;

/// What `order --sites` prints for a test file, a witness and words of sites: `yes` where the witness gives an
/// execution, under RVWMO, of the test with the fences that the words name at all copies of each site, and one that
/// shows the outcome of its condition; else `no: ` and the first reason against it. With `is_free` each slot at which
/// no label names a site is a site of its own, such as `P0:3`. The files are bytes as they were read. The cost is that
/// of `check_order` of fs_check; each slot is held against all copies, and each copy's name and each word against the
/// names of all sites.
///
/// The first fault in this order: those of a test file by number and then line; `BadLabel` of a second site label at a
/// place; `NodeLimit` where there are more than 65,536 sites; `BadFence`; `BadWitness`. `Memory` may come in place of
/// any answer.
pub fn run_order_sites(
    alloc: Global,
    test: &[u8],
    witness: &[u8],
    words: &[String],
    is_free: bool,
) -> Result<Output, Fault>
    ensures answer { IfOk result (λ output. IsSitesOrderAnswer is_free test.now witness.now
        (map string_bytes words.now) (string_bytes output.text) output.status) }
    ensures fault { IfErr result (IsFirstSitesOrderFault is_free test.now witness.now (map string_bytes words.now)) }
{
    let (test, sites) = read_sited(alloc, test, is_free)?;
    judge(alloc, &test, &sites, witness, words)
}

/// What is printed of a test that was read, with its sites.
fn judge(
    alloc: Global,
    test: &Test,
    sites: &Sites,
    witness: &[u8],
    words: &[String],
) -> Result<Output, Fault>
    requires test { IsTest test.now }
    requires rising { is_rising (slots_at sites.now.places) ≡ true }
    requires few { length sites.now.names ≤ most_sites }
    ensures answer { IfOk result (λ output. (is_free : Bool) (bytes : List ℕ)
        → AreSites is_free bytes test.now sites.now.places (map string_bytes sites.now.names)
        → IsSitesOrderAnswer is_free bytes witness.now (map string_bytes words.now)
        (string_bytes output.text) output.status) }
    ensures fault { IfErr result (λ f. (is_free : Bool) (bytes : List ℕ)
        → AreSites is_free bytes test.now sites.now.places (map string_bytes sites.now.names)
        → IsFirstSitesOrderFault is_free bytes witness.now (map string_bytes words.now) f) }
{
    let kinds = read_kinds(alloc, &sites.names, words)?;
    judge_fenced(alloc, test, &sites.places, &kinds, witness)
}

/// What is printed of a test with these fences of sites.
fn judge_fenced(
    alloc: Global,
    test: &Test,
    places: &[Place],
    kinds: &Placement,
    witness: &[u8],
) -> Result<Output, Fault>
    requires test { IsTest test.now }
    requires rising { is_rising (slots_at places.now) ≡ true }
    ensures answer { IfOk result (λ output. (is_free : Bool) (bytes : List ℕ) (words : List (List ℕ))
        → AreFences is_free bytes words test.now places.now kinds.now
        → IsSitesOrderAnswer is_free bytes witness.now words (string_bytes output.text) output.status) }
    ensures fault { IfErr result (λ f. (is_free : Bool) (bytes : List ℕ) (words : List (List ℕ))
        → AreFences is_free bytes words test.now places.now kinds.now
        → IsFirstSitesOrderFault is_free bytes witness.now words f) }
{
    let fences = image(alloc, places, kinds)?;
    let verdict = check_order(alloc, test, &fences, witness)?;
    Ok(Output {
        text: verdict_text(alloc, verdict)?,
        status: status_of(verdict),
    })
}

/// The line of the verdict.
fn verdict_text(alloc: Global, verdict: OrderVerdict) -> Result<String, Fault>
    ensures ok { IfOk result (λ text. string_bytes text ≡ verdict_line verdict) }
    ensures err { IsOkUnless result Fault.Memory }
{
    let mut text = String::new(alloc);
    match verdict {
        OrderVerdict::Yes => writeln!(text, "yes")?,
        OrderVerdict::No(reason) => writeln!(text, "no: {}", reason)?,
    }
    Ok(text)
}

fn status_of(verdict: OrderVerdict) -> Status
    ensures { result ≡ verdict_status verdict }
{
    match verdict {
        OrderVerdict::Yes => Status::Success,
        OrderVerdict::No(_) => Status::Denied,
    }
}
