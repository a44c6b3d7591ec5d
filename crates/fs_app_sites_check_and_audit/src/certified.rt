//! What `solve --sites` answers with a certificate, which is checked as it is written.

ghost use Rattle.std.specs.Prelude.{◌≡◌, ◌≢◌, ◌++◌, IsTrue, IfOk, IfErr, IfSome, All, map, string_bytes, false};
ghost use Rattle.fs_kinds.specs.declared.fault.Fault.TheVariants.{Memory};
ghost use Rattle.fs_app_io.specs.declared.status.Status.TheVariants.{Success};
ghost use Rattle.fs_sites.specs.Answers.{IsAnswer, IsSolveFault};
ghost use Rattle.fs_sites.specs.Questions.{IsPart, IsQuestion};
ghost use Rattle.fs_app_solve_and_check.specs.Check.{yes_line};
ghost use Rattle.fs_app_sites.specs.Printed.{answer_text, status_of};
ghost use Rattle.fs_app_sites.specs.Solved.{IsFirstSitesFault, IsSolved};
ghost use Rattle.fs_app_sites_check_and_audit.specs.Certified.{IsAccepted, IsCertified};

use crate::check::run_sites_check;
use crate::write::{Grounds, certificate_text};
use fs_app_io::Status;
use fs_app_sites::{Solved, Tests, answer_text, read_question, solved_of};
use fs_app_solve_and_check::Checked;
use fs_cert_evidence::Inference;
use fs_kinds::{Fault, List};
use fs_sites::{Answer, Part, Question};
use fs_sites_search::{Limits, refutations, solve_broken_by};
use std::alloc::{AllocError, Global};
use std::thread::Threads;

/// What `solve --sites` answers, and a certificate of the answer.
#[derive(Drop)]
pub struct Certified {
    pub solved: Solved,
    /// The text of a certificate that `run_sites_check` accepts for the same files and prices, with the same answer.
    /// None where it doesn't accept what was written.
    pub certificate: Option<String>,
}

/// What `run_sites` answers, and a certificate of it. The text is read again and checked by `run_sites_check`, and is
/// given only where that says yes and prints the same answer.
///
/// The first fault is that of `run_sites`; `NodeLimit` also where a refutation of some test isn't found. The cost is
/// that of `run_sites`, for each test that of another verdict, and that of `run_sites_check`.
pub fn run_sites_certified<R: Threads + Sync>(
    rt: &R,
    alloc: Global,
    tests: &Tests,
    prices: &[u8],
    is_json: bool,
    limits: Limits,
) -> Result<Certified, Fault>
    ensures ok { IfOk result (λ made. IsSolved is_json tests.now prices.now
        (string_bytes made.solved.output.text) made.solved.output.status) }
    ensures certificate { IfOk result (λ made. IfSome made.certificate (λ text. IsCertified is_json tests.now prices.now
        (string_bytes made.solved.output.text) made.solved.output.status (string_bytes text))) }
    ensures fault { IfErr result (IsFirstSitesFault tests.now prices.now) }
{
    let asked = read_question(alloc, tests, prices)?;
    let names = asked.names.as_slice();
    let (answer, grounds) = answer_of(rt, alloc, &asked.question, limits)?;
    let solved = solved_of(alloc, tests, names, &answer, is_json)?;
    let certificate = certificate_of(alloc, tests, prices, names, &answer, &grounds)?;
    Ok(Certified {
        solved,
        certificate,
    })
}

/// The answer to the question, and what shows it.
fn answer_of<R: Threads + Sync>(
    rt: &R,
    alloc: Global,
    question: &Question,
    limits: Limits,
) -> Result<(Answer, Grounds), Fault>
    requires { IsQuestion question.now }
    ensures ok { IfOk result (λ found. IsAnswer question.now found.0) }
    ensures err { IfErr result (λ f. f ≢ Memory → IsSolveFault question.now.parts f) }
{
    let (answer, broken) = solve_broken_by(rt, alloc, question, limits)?;
    let parts = question.parts.as_slice();
    let cycles = cycles_of(alloc, parts, &answer, limits.inferences)?;
    Ok((answer, Grounds { cycles, broken }))
}

/// For each test the inferences of a refutation of it under the answer; nothing where that is none.
fn cycles_of(
    alloc: Global,
    parts: &[Part],
    answer: &Answer,
    inferences: usize,
) -> Result<Vec<List<Inference>>, Fault>
    requires { All IsPart parts.now }
    ensures { IfErr result (λ f. f ≢ Memory → IsSolveFault parts.now f) }
{
    match answer {
        Answer::Fenced { placement, .. } => refutations(alloc, parts, placement, inferences),
        Answer::None { .. } => Ok(Vec::new(alloc)),
    }
}

/// The certificate's text, where `run_sites_check` accepts it with this answer. The error is F19.
fn certificate_of(
    alloc: Global,
    tests: &Tests,
    prices: &[u8],
    names: &[String],
    answer: &Answer,
    grounds: &Grounds,
) -> Result<Option<String>, Fault>
    ensures ok { IfOk result (λ found. IfSome found (λ text. IsAccepted tests.now prices.now (string_bytes text)
        (answer_text false tests.now (map string_bytes names.now) answer.now))) }
    ensures err { IfErr result (λ f. f ≡ Memory) }
{
    let text = certificate_text(alloc, names, answer, grounds)?;
    let lines = answer_text(alloc, tests, names, answer, false)?;
    let holds = is_accepted(alloc, tests, prices, text.as_bytes(), lines.as_str())?;
    if !holds {
        return Ok(None);
    }
    Ok(Some(text))
}

/// Does `run_sites_check` accept the bytes, and print these lines below `yes`? The error is F19.
fn is_accepted(
    alloc: Global,
    tests: &Tests,
    prices: &[u8],
    certificate: &[u8],
    lines: &str,
) -> Result<bool, Fault>
    ensures ok { IfOk result (λ holds. IsTrue holds
        → IsAccepted tests.now prices.now certificate.now lines.now) }
    ensures err { IfErr result (λ f. f ≡ Memory) }
{
    match run_sites_check(alloc, tests, prices, certificate) {
        Ok(checked) => Ok(is_yes(alloc, &checked, lines)?),
        Err(Fault::Memory) => Err(Fault::Memory),
        Err(_) => Ok(false),
    }
}

/// Is this a yes with these lines below it?
fn is_yes(alloc: Global, checked: &Checked, lines: &str) -> Result<bool, AllocError>
    ensures text { IfOk result (λ holds. IsTrue holds
        → string_bytes checked.now.output.text ≡ yes_line ++ lines.now) }
    ensures status { IfOk result (λ holds. IsTrue holds → checked.now.output.status ≡ Success) }
{
    let wanted = format!(in alloc; "yes\n{}", lines)?;
    let output = &checked.output;
    Ok(output.status == Status::Success && output.text.as_str() == wanted.as_str())
}
