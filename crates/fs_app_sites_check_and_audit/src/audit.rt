//! What `audit --sites` answers.

ghost use Rattle.std.specs.Prelude.{◌≡◌, ◌≢◌, All, IfErr, IfOk, IsSome, map, string_bytes};
ghost use Rattle.serde_json.specs.View.{view};
ghost use Rattle.fs_kinds.specs.declared.fault.Fault.TheVariants.{Memory};
ghost use Rattle.fs_kinds.specs.declared.kind.Kind.TheVariants.{RwRw};
ghost use Rattle.fs_app_sites.specs.SitePrices.{price_of};
ghost use Rattle.fs_app_sites.specs.Sites.{IsSound};
ghost use Rattle.fs_app_sites_check_and_audit.specs.Audited.{AreFound, IsAudited, IsFindFault, IsFirstFault};

use crate::asked::{Asked, asked_of};
use crate::findings::Findings;
use crate::held::{Held, read_files};
use crate::output::printed;
use crate::said::{said_of_files, together};
use fs_app_io::Output;
use fs_app_sites::{File, Limits, SitePrices, read_site_prices};
use fs_app_test::Kind;
use fs_kinds::Fault;
use fs_sites::Answer;
use fs_sites_search::solve;
use std::alloc::Global;

/// What `audit --sites` answers for files of tests, in this order, whose labels name sites, and a file of prices. A FENCE
/// that orders memory and stands right behind the label of a site is that copy's; all others are the client's, and stay.
/// In the tests in which the copies' FENCEs order no memory, the first of the cheapest fences of sites are found that rule
/// each outcome out. They are advised, unless the copies of each site agree, each outcome is forbidden as it is written,
/// each FENCE costs something, and all together cost no more; then what is written is.
///
/// A first line says whether an outcome is possible as the tests are written, what the copies' FENCEs cost, once for each
/// site, or that copies differ, and what the fences cost that were found. A FENCE of a kind without a price costs what
/// the cheapest does that orders all that it orders. Then come, site by site, a line for each fence that its copies have,
/// with what is advised and where they stand, each line of a file once; none for copies that have none and are to have
/// none. Where no fences rule the outcomes out there is none of them, but the first file whose outcome is shown with
/// `rw,rw` at every site, and an execution that shows it. Or the same is a JSON object. The status is 4 where all outcomes
/// are vacuous, else 1 where one is possible or something is to be changed, else 0. The files are bytes as they were read.
/// One worker searches, and no contract says how long.
///
/// The first fault in this order: `BadPrices` and `NoTop`; of each file in turn those of a test by number and then line,
/// and `BadLabel` of a second site label at a place; `NodeLimit` where there are more than 65,536 sites; `TooManyTraces`,
/// `Astray` and `TooManyCandidates` of some test without the copies' FENCEs, or `NodeLimit` where the search takes more
/// rounds or steps than there may be; of each file in turn those of `test_file`, as it is written. `Memory` may come in place
/// of any answer.
pub fn run_audit_sites(
    alloc: Global,
    files: &[File],
    prices: &[u8],
    is_json: bool,
    limits: Limits,
) -> Result<Output, Fault>
    ensures answer { IfOk result (λ output. IsAudited is_json files.now prices.now (string_bytes output.text)
        output.status) }
    ensures fault { IfErr result (IsFirstFault files.now prices.now) }
{
    let table = read_site_prices(alloc, prices)?;
    let held = read_files(alloc, files)?;
    let findings = find(alloc, files, &held, &table, limits)?;
    Ok(printed(alloc, files, &findings, is_json)?)
}

/// What is found of files that hold this, at prices with one of `rw,rw`.
fn find(
    alloc: Global,
    files: &[File],
    held: &[Held],
    prices: &SitePrices,
    limits: Limits,
) -> Result<Findings, Fault>
    requires sound { All (λ h. IsSound h.asked) held.now }
    requires top { IsSome (price_of (view prices.now) RwRw) }
    ensures ok { IfOk result (AreFound files.now (view prices.now) held.now) }
    ensures err { IfErr result (λ f. f ≢ Memory → IsFindFault files.now (view prices.now) held.now f) }
{
    let asked = asked_of(alloc, held, prices)?;
    let found = solve(alloc, &asked.question, limits)?;
    let kinds = said_of_files(alloc, files, limits.inferences)?;
    Ok(findings_of(asked, together(&kinds), found))
}

/// What is found.
fn findings_of(asked: Asked, kind: Kind, found: Answer) -> Findings
    ensures { result ≡ record {
      names = map string_bytes asked.names;
      marks = asked.marks;
      written = asked.written;
      all_cost = asked.all_cost;
      kind = kind;
      found = found;
    } }
{
    Findings {
        names: asked.names,
        marks: asked.marks,
        written: asked.written,
        all_cost: asked.all_cost,
        kind,
        found,
    }
}
