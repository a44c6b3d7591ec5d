//! What `check --sites` answers.

ghost use Rattle.std.specs.Prelude.{IfOk, IfErr, string_bytes};
ghost use Rattle.fs_app_sites_check_and_audit.specs.Checked.{IsFirstSitesCheckFault, IsSitesChecked};

use crate::check_objects::verdict_output;
use crate::read::read_certificate;
use fs_app_sites::{Tests, read_question};
use fs_app_solve_and_check::Checked;
use fs_kinds::Fault;
use fs_sites_check::judge;
use std::alloc::Global;

/// The most steps of the plan of witnesses: as many as a search may take at most.
const MOST_STEPS: usize = 1_000_000;

/// What `check --sites` prints for tests, in this order, a file of prices and a certificate, in lines or as
/// JSON: where the certificate is valid, `yes` and below it the answer as `solve --sites` prints it, and status 0; else
/// `no: ` and a reason against it, and status 1. The files are bytes as they were read. Nothing of the search is
/// called.
///
/// The first fault in this order: those of `read_question`; `BadCertificate`; `TooManyTraces` and `Astray` of some
/// test, or `NodeLimit` where the plan of the witnesses takes more than a million steps. `Memory` may come in place of
/// any answer. The cost is that of `judge` of fs_sites_check.
pub fn run_sites_check(
    alloc: Global,
    tests: &Tests,
    prices: &[u8],
    certificate: &[u8],
) -> Result<Checked, Fault>
    ensures answer { IfOk result (λ made. IsSitesChecked tests.now prices.now certificate.now
        (string_bytes made.output.text) (string_bytes made.object) made.output.status) }
    ensures fault { IfErr result (IsFirstSitesCheckFault tests.now prices.now certificate.now) }
{
    let asked = read_question(alloc, tests, prices)?;
    let names = asked.names.as_slice();
    let said = read_certificate(alloc, certificate)?;
    let verdict = judge(alloc, &asked.question, names, &said, MOST_STEPS)?;
    verdict_output(alloc, tests, names, &verdict)
}
