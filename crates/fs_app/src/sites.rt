//! What `solve --sites` answers of its files, and what `check --sites` says of a certificate of such an answer.

ghost use Rattle.std.specs.Prelude.{◌≡◌, [], false, IfOk, string_bytes};
ghost use Rattle.fs_app_io.specs.declared.status.Status.TheVariants.{Failure as Failed};
ghost use Rattle.fs_app_sites.specs.Solved.{IsSolved};
ghost use Rattle.fs_app_sites.specs.declared.content.Tests.{Tests as Questioned};
ghost use Rattle.fs_app_sites_check_and_audit.specs.Checked.{IsSitesChecked};
ghost use Rattle.fs_app.specs.Answers.{AnswersSites, AnswersCheckSites};

use crate::failure::Failure;
use crate::program::{CERTIFICATE_LIMIT, Voice, failure_of, in_form, refused, report, say_notes};
use fs_app_command_line::{CheckSites, MOST_NODES, MOST_WORKERS, Sites};
use fs_app_error_messages::{explain_test, shown_name};
use fs_app_io::{Output, Source, sources, tell, write_whole};
use fs_app_sites::{
    File, Limits, Solved, Tests, add_copies, check_file, check_prices, first_at_fault, needs_text,
    read_all_copies, run_place_sites, run_sites,
};
use fs_app_sites_check_and_audit::{run_sites_certified, run_sites_check};
use fs_app_solve_and_check::Checked;
use fs_app_test::{Note, Paper, Papers, fault_object, test_file, test_objects};
use fs_kinds::{Fault, List};
use fs_litmus::read_test;
use std::alloc::{AllocError, Global};
use std::rt::Files;
use std::thread::Threads;

/// The most rounds of plan and verdicts.
pub(crate) const MOST_ROUNDS: usize = 100_000;

/// What is said where no label names a site.
const NO_SITE: &str = "note: no file has a label that names a site\n";

/// What is said where a place has two sites.
const TWO_SITES: &str = "two labels before one instruction name sites: write `nop` between them";

/// What is said of words that give sites no fences; the names of the sites follow.
const SITE_WORDS: &str =
    "each word is a site, `=` and a kind (with PRICES one that has a price), and each site stands once; sites here:";

/// What `solve --sites` answers of its files. The first file that has a fault ends the run: the fault is said here,
/// with the name of the file, and nothing but its object is printed.
pub(crate) fn answer_sites<'a, R: Files + Input + Eprint + AllocGlobal + Threads + Sync>(
    rt: &R,
    sites: &'a Sites<'a>,
    voice: Voice,
    papers: &mut Papers<'a>,
) -> Result<Output, Fault>
    ensures { IfOk result (AnswersSites sites.now papers.new) }
{
    papers.read_prices(rt, sites.prices)?;
    check_prices(rt.alloc(), &papers.prices.bytes)?;
    let sources = sources(rt, &sites.files)?;
    let mut blamed = Papers::new(rt.alloc(), papers.forms, papers.inferences);
    match solved(
        rt,
        sites,
        &sources,
        &papers.prices.bytes,
        voice,
        &mut blamed,
    ) {
        Ok(solved) => {
            say_notes(rt, voice, blamed.notes.as_str());
            Ok(noted(rt, sites.free, voice, solved))
        }
        Err(fault) => failed(rt, sites.json, fault, voice, &blamed),
    }
}

/// The output. That no label names a site is said on standard error, unless slots are sites too.
fn noted<R: Files + Eprint + AllocGlobal>(
    rt: &R,
    is_free: bool,
    voice: Voice,
    solved: Solved,
) -> Output
    ensures { result ≡ solved.output }
{
    if solved.sites == 0 && voice.notes && !is_free {
        tell(rt, &NO_SITE);
    }
    solved.output
}

/// What is answered. Where there is a fault the file that has it is left in `blamed`.
fn solved<'b, R: Files + Input + Eprint + AllocGlobal + Threads + Sync>(
    rt: &R,
    sites: &Sites<'_>,
    sources: &'b [Source],
    prices: &[u8],
    voice: Voice,
    blamed: &mut Papers<'b>,
) -> Result<Solved, Fault>
    ensures { IfOk result (λ solved. (tests : Questioned) × (tests.is_free ≡ sites.now.free)
        × IsSolved sites.now.json tests prices.now (string_bytes solved.output.text) solved.output.status) }
{
    let tests = read_tests(rt, sources, sites.free, blamed)?;
    match answered(rt, sites, &tests, prices, blamed.inferences) {
        Ok(solved) => {
            note_needs(rt, sites, voice, &tests, prices, blamed.inferences);
            Ok(solved)
        }
        Err(fault) => {
            blame(rt.alloc(), sources, &tests, prices, fault, blamed)?;
            Err(fault)
        }
    }
}

/// Says which test needs which sites, where that is asked for and found.
fn note_needs<R: Files + Eprint + AllocGlobal>(
    rt: &R,
    sites: &Sites<'_>,
    voice: Voice,
    tests: &Tests,
    prices: &[u8],
    inferences: usize,
) {
    if !voice.tells_needs {
        return;
    }
    let limits = Limits {
        workers: 1,
        rounds: MOST_ROUNDS,
        steps: sites.nodes.clamp(1, MOST_NODES) as usize,
        inferences,
    };
    if let Ok(text) = needs_text(rt.alloc(), tests, prices, limits) {
        tell(rt, &text.as_str());
    }
}

/// The answer. Where a certificate of it is asked for, that is written first.
fn answered<R: Files + AllocGlobal + Threads + Sync>(
    rt: &R,
    sites: &Sites<'_>,
    tests: &Tests,
    prices: &[u8],
    inferences: usize,
) -> Result<Solved, Fault>
    ensures { IfOk result (λ solved.
        IsSolved sites.now.json tests.now prices.now (string_bytes solved.output.text) solved.output.status) }
{
    let limits = Limits {
        workers: sites.workers.clamp(1, MOST_WORKERS),
        rounds: MOST_ROUNDS,
        steps: sites.nodes.clamp(1, MOST_NODES) as usize,
        inferences,
    };
    match sites.certificate {
        Some(path) => certified(rt, path, tests, prices, sites.json, limits),
        None => run_sites(rt, rt.alloc(), tests, prices, sites.json, limits),
    }
}

/// The answer, once its certificate is written. F22 where the checker refuses what was made; no test meets it.
fn certified<R: Files + AllocGlobal + Threads + Sync>(
    rt: &R,
    path: &str,
    tests: &Tests,
    prices: &[u8],
    is_json: bool,
    limits: Limits,
) -> Result<Solved, Fault>
    ensures { IfOk result (λ solved.
        IsSolved is_json tests.now prices.now (string_bytes solved.output.text) solved.output.status) }
{
    let made = run_sites_certified(rt, rt.alloc(), tests, prices, is_json, limits)?;
    let Some(certificate) = &made.certificate else {
        return Err(Fault::Unmatched);
    };
    write_whole(rt, path, certificate.as_bytes())?;
    Ok(made.solved)
}

/// The tests, of which each file is read and checked before the next one, so that the first fault is that of the first
/// file.
pub(crate) fn read_tests<'b, R: Files + Input + AllocGlobal>(
    rt: &R,
    sources: &'b [Source],
    is_free: bool,
    blamed: &mut Papers<'b>,
) -> Result<Tests, Fault>
    ensures { IfOk result (λ tests. tests.is_free ≡ is_free) }
{
    let mut files = Vec::new(rt.alloc());
    for source in sources {
        blamed.read_source(rt, source)?;
        check_file(rt.alloc(), &blamed.test.bytes)?;
        files.push(copied(rt.alloc(), &blamed.test)?)?;
    }
    Ok(Tests {
        files: List::new(files),
        is_free,
    })
}

fn copied(alloc: Global, paper: &Paper<'_>) -> Result<File, AllocError> {
    Ok(File {
        name: String::from_str(alloc, paper.name)?,
        bytes: Vec::from_slice(alloc, &paper.bytes)?,
    })
}

/// Leaves in `blamed` the file to which a fault of the search is due, and nothing where it is due to none.
pub(crate) fn blame<'b>(
    alloc: Global,
    sources: &'b [Source],
    tests: &Tests,
    prices: &[u8],
    fault: Fault,
    blamed: &mut Papers<'b>,
) -> Result<(), Fault> {
    *blamed = Papers::new(alloc, blamed.forms, blamed.inferences);
    if !matches!(
        fault,
        Fault::TooManyTraces | Fault::Astray { .. } | Fault::TooManyCandidates
    ) {
        return Ok(());
    }
    if let Some(number) = first_at_fault(alloc, tests, prices, fault, blamed.inferences) {
        if let (Some(source), Some(file)) = (sources.get(number), tests.files.get(number)) {
            blamed.test = Paper {
                name: source.name.as_str(),
                bytes: Vec::from_slice(alloc, &file.bytes)?,
            };
        }
    }
    Ok(())
}

/// What `check --sites` answers of its files and a certificate. A fault is said as `answer_sites` says it.
pub(crate) fn answer_check_sites<'a, R: Files + Input + Eprint + AllocGlobal>(
    rt: &R,
    check: &'a CheckSites<'a>,
    voice: Voice,
    papers: &mut Papers<'a>,
) -> Result<Output, Fault>
    ensures { IfOk result (AnswersCheckSites check.now papers.new) }
{
    papers.read_prices(rt, check.prices)?;
    check_prices(rt.alloc(), &papers.prices.bytes)?;
    papers.read_evidence(rt, check.certificate, CERTIFICATE_LIMIT)?;
    let sources = sources(rt, &check.files)?;
    let mut blamed = Papers::new(rt.alloc(), papers.forms, papers.inferences);
    match checked(rt, &sources, check.free, papers, &mut blamed) {
        Ok(checked) => {
            say_notes(rt, voice, blamed.notes.as_str());
            Ok(in_form(checked.output, checked.object, check.json))
        }
        Err(fault) => failed(rt, check.json, fault, voice, &blamed),
    }
}

/// The verdict on the certificate that was read. Where there is a fault of a file that file is left in `blamed`.
fn checked<'b, R: Files + Input + AllocGlobal>(
    rt: &R,
    sources: &'b [Source],
    is_free: bool,
    papers: &Papers<'_>,
    blamed: &mut Papers<'b>,
) -> Result<Checked, Fault>
    ensures { IfOk result (λ checked. (tests : Questioned) × (tests.is_free ≡ is_free)
        × IsSitesChecked tests papers.now.prices.bytes.items papers.now.evidence.bytes.items
        (string_bytes checked.output.text) (string_bytes checked.object) checked.output.status) }
{
    let tests = read_tests(rt, sources, is_free, blamed)?;
    let (prices, certificate) = (&papers.prices.bytes, &papers.evidence.bytes);
    match run_sites_check(rt.alloc(), &tests, prices, certificate) {
        Ok(checked) => Ok(checked),
        Err(fault) => {
            blame(rt.alloc(), sources, &tests, prices, fault, blamed)?;
            Err(fault)
        }
    }
}

/// Says the fault of a file, and answers its object where JSON is asked for.
pub(crate) fn failed<R: Files + Eprint + AllocGlobal>(
    rt: &R,
    is_json: bool,
    fault: Fault,
    voice: Voice,
    blamed: &Papers<'_>,
) -> Result<Output, Fault>
    ensures status { IfOk result (λ output. output.status ≡ Failed) }
    ensures text { IfOk result (λ output. is_json ≡ false → string_bytes output.text ≡ []) }
{
    if fault == Fault::Memory {
        return Err(fault);
    }
    report(rt, &failure_of_file(rt.alloc(), fault, voice, blamed));
    let mut output = refused(rt.alloc());
    if !is_json {
        return Ok(output);
    }
    if let Some(object) = object_of(rt.alloc(), fault, blamed)? {
        output.text.push_str(object.as_str())?;
    }
    Ok(output)
}

/// The line, where it is that of a second site label at a place: of such a fault the test itself knows nothing.
fn clash_of(alloc: Global, fault: Fault, blamed: &Papers<'_>) -> Option<usize> {
    let Fault::BadLabel { line } = fault else {
        return None;
    };
    match explain_test(alloc, blamed.test.name, &blamed.test.bytes) {
        Ok(None) => Some(line),
        _ => None,
    }
}

/// The failure of a run that a fault of this file ended, or of the search, of which no file is named.
fn failure_of_file(alloc: Global, fault: Fault, voice: Voice, blamed: &Papers<'_>) -> Failure {
    if !voice.explains {
        return failure_of(alloc, fault, voice, blamed);
    }
    if let Some(line) = clash_of(alloc, fault, blamed) {
        return match clash_text(alloc, fault, line, blamed.test.name) {
            Ok(message) => Failure::Told(fault, message),
            Err(_) => Failure::NoAnswer(fault),
        };
    }
    if blamed.test.name.is_empty() && fault != Fault::ReadFault {
        return Failure::NoAnswer(fault);
    }
    failure_of(alloc, fault, voice, blamed)
}

/// The message of a second site label at a place.
fn clash_text(alloc: Global, fault: Fault, line: usize, name: &str) -> Result<String, AllocError> {
    let name = shown_name(alloc, name)?;
    format!(in alloc; "{}:{}: {}\n  {}\n", name.as_str(), line, fault, TWO_SITES)
}

/// Words that give sites fences.
#[derive(Clone, Copy)]
pub(crate) struct SiteWords<'a> {
    pub words: &'a [String],
    /// Whether each slot without a site is one of its own.
    pub is_free: bool,
    /// The prices that the kinds must have, where some were read.
    pub prices: Option<&'a [u8]>,
}

/// The failure of a run over the sites of one file.
pub(crate) fn failure_of_sites(
    alloc: Global,
    words: SiteWords<'_>,
    fault: Fault,
    voice: Voice,
    papers: &Papers<'_>,
) -> Failure {
    match fault {
        Fault::BadFence if voice.explains => failure_of_words(alloc, words, papers),
        Fault::BadLabel { .. } => failure_of_file(alloc, fault, voice, papers),
        _ => failure_of(alloc, fault, voice, papers),
    }
}

/// The failure of words that give the sites of the file no fences: the first one at fault, and which sites there are.
fn failure_of_words(alloc: Global, words: SiteWords<'_>, papers: &Papers<'_>) -> Failure {
    let fault = Fault::BadFence;
    match words_text(alloc, words, papers) {
        Ok(message) => Failure::Told(fault, message),
        Err(_) => Failure::NoAnswer(fault),
    }
}

/// The first of the words with which, and with those before it, the sites of the test get no fences; empty where there
/// is none. In time of as many calls of `place` as there are words.
fn word_at_fault<'a>(alloc: Global, test: &[u8], given: SiteWords<'a>) -> &'a str {
    for (number, word) in given.words.iter().enumerate() {
        let first = first_of(given.words, number.saturating_add(1));
        let placed = run_place_sites(alloc, test, given.prices, first, given.is_free);
        if matches!(placed, Err(Fault::BadFence)) {
            return word.as_str();
        }
    }
    ""
}

/// The first so many words, or all where there are fewer.
fn first_of(words: &[String], count: usize) -> &[String] {
    if count < words.len() {
        &words[..count]
    } else {
        words
    }
}

/// The message of such words.
fn words_text(alloc: Global, words: SiteWords<'_>, papers: &Papers<'_>) -> Result<String, Fault> {
    let bytes = papers.test.bytes.as_slice();
    let test = read_test(alloc, bytes)?;
    let copies = read_all_copies(alloc, bytes, &test, words.is_free)?;
    let mut names = Vec::new(alloc);
    add_copies(alloc, &mut names, &copies)?;
    let word = shown_name(alloc, word_at_fault(alloc, bytes, words))?;
    let mut text = format!(in alloc; "{}: {}\n  {}", word.as_str(), Fault::BadFence, SITE_WORDS)?;
    for name in &names {
        write!(text, " {}", name.as_str())?;
    }
    text.push_str("\n")?;
    Ok(text)
}

/// The object of a fault.
fn object_of(alloc: Global, fault: Fault, blamed: &Papers<'_>) -> Result<Option<String>, Fault> {
    match clash_of(alloc, fault, blamed) {
        Some(line) => Ok(Some(clash_object(alloc, fault, line, blamed.test.name)?)),
        None => fault_object(alloc, fault, blamed),
    }
}

/// That of a second site label at a place.
fn clash_object(alloc: Global, fault: Fault, line: usize, name: &str) -> Result<String, Fault> {
    let mut said = test_file(alloc, name, Err(fault), 0)?;
    said.note = Some(Note {
        line: Some(line),
        column: None,
        message: String::from_str(alloc, TWO_SITES)?,
    });
    let mut lines = Vec::new(alloc);
    lines.push(said)?;
    Ok(test_objects(alloc, &lines, false)?.text)
}
