//! What `audit --sites` answers of its files.

ghost use Rattle.std.specs.Prelude.{◌≡◌, List, IfOk, string_bytes};
ghost use Rattle.fs_app_sites.specs.declared.content.File.{File as SitesFile};
ghost use Rattle.fs_app_sites_check_and_audit.specs.Audited.{IsAudited};
ghost use Rattle.fs_app.specs.Answers.{AnswersAuditSites};

use crate::program::{Voice, say_notes};
use crate::sites::{MOST_ROUNDS, blame, failed, read_tests};
use fs_app_command_line::{AuditSites, MOST_NODES};
use fs_app_io::{Output, Source, sources};
use fs_app_sites::{Limits, check_prices};
use fs_app_sites_check_and_audit::run_audit_sites;
use fs_app_test::Papers;
use fs_kinds::Fault;
use std::rt::Files;

/// What `audit --sites` answers of its files. A fault of a file is said as `answer_sites` says it.
pub(crate) fn answer_audit_sites<'a, R: Files + Input + Eprint + AllocGlobal>(
    rt: &R,
    audit: &'a AuditSites<'a>,
    voice: Voice,
    papers: &mut Papers<'a>,
) -> Result<Output, Fault>
    ensures { IfOk result (AnswersAuditSites audit.now papers.new) }
{
    papers.read_prices(rt, audit.prices)?;
    check_prices(rt.alloc(), &papers.prices.bytes)?;
    let sources = sources(rt, &audit.files)?;
    let mut blamed = Papers::new(rt.alloc(), papers.forms, papers.inferences);
    match audited(rt, audit, &sources, &papers.prices.bytes, &mut blamed) {
        Ok(output) => {
            say_notes(rt, voice, blamed.notes.as_str());
            Ok(output)
        }
        Err(fault) => failed(rt, audit.json, fault, voice, &blamed),
    }
}

/// What is said of the FENCEs of the sites. Where there is a fault the file that has it is left in `blamed`.
fn audited<'b, R: Files + Input + AllocGlobal>(
    rt: &R,
    audit: &AuditSites<'_>,
    sources: &'b [Source],
    prices: &[u8],
    blamed: &mut Papers<'b>,
) -> Result<Output, Fault>
    ensures { IfOk result (λ output. (files : List SitesFile)
        × IsAudited audit.now.json files prices.now (string_bytes output.text) output.status) }
{
    let tests = read_tests(rt, sources, false, blamed)?;
    let limits = Limits {
        workers: 1,
        rounds: MOST_ROUNDS,
        steps: audit.nodes.clamp(1, MOST_NODES) as usize,
        inferences: blamed.inferences,
    };
    match run_audit_sites(rt.alloc(), &tests.files, prices, audit.json, limits) {
        Ok(output) => Ok(output),
        Err(fault) => {
            blame(rt.alloc(), sources, &tests, prices, fault, blamed)?;
            Err(fault)
        }
    }
}
