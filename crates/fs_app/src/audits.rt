//! What `audit` answers, of one file or of several, one after the other or side by side.

ghost use Rattle.std.specs.Prelude.{◌≡◌, ◌≤◌, ◌∷◌, [], IfOk, IfErr, IfSome, map, string_bytes};
ghost use Rattle.fs_app.specs.Answers.{AnswersAudit, AnswersBlocks, AnswersObjects, AnswersOneAudit};
ghost use Rattle.fs_app.specs.Answers.{IsAuditFault, IsAuditText, wants_one};
ghost use Rattle.fs_app.specs.Telling.{IsToldBy};
ghost use Rattle.fs_app_audit_json_and_why.specs.Why.{IsAuditWhy};

use crate::failure::Failure;
use crate::program::{Voice, mended, refused, report};
use crate::telling::{telling_of, with_below};
use fs_app_audit::{
    Found, Limits, audit_file, blocks_of, blocks_output, run_anew, run_audit, run_written,
};
use fs_app_audit_json_and_why::{
    FoundObject, object_of_file, objects_of, objects_output, why_audit,
};
use fs_app_command_line::{Audit, MOST_NODES};
use fs_app_file_text::keeps;
use fs_app_io::{Output, Source, Status, sources, tell, write_whole};
use fs_app_plain::{Forms, Plain};
use fs_app_test::{Papers, Unusable, message_of_file, plain_text};
use fs_app_why::Telling;
use fs_kinds::{Fault, read_prices};
use std::alloc::{AllocError, Global};
use std::rt::Files;
use std::thread;
use std::thread::Threads;

/// So many files each thread judges before all go on to the next ones.
const AT_ONCE: usize = 4;

/// A file that was read: its name, and its test or why it has none.
#[derive(Drop)]
struct Taken<'a> {
    name: &'a str,
    file: Result<Plain, Unusable>,
}

/// What is asked of each file.
#[derive(Clone, Copy)]
struct Asked<'a> {
    prices: &'a [u8],
    is_anew: bool,
    is_json: bool,
    limits: Limits,
    /// Whether messages are wanted.
    explains: bool,
    forms: Forms,
}

/// What was found of files, in their order, in lines or as objects, and messages of those that aren't tests, or weren't
/// read.
#[derive(Drop)]
struct Batch<'a> {
    files: Vec<Found<'a>>,
    objects: Vec<FoundObject<'a>>,
    messages: Vec<String>,
}

/// What `audit` answers of its files, or nothing where a file is mended.
pub(crate) fn answer_audit<'a, R: Files + Input + Eprint + AllocGlobal + Threads + Sync>(
    rt: &R,
    audit: &'a Audit<'a>,
    voice: Voice,
    papers: &mut Papers<'a>,
) -> Result<Output, Fault>
    ensures { IfOk result (AnswersAudit audit.now papers.new) }
{
    if audit.in_place {
        return answer_in_place(rt, audit, papers);
    }
    answer_said(rt, audit, voice, papers)
}

/// What `audit` says of its files. Where one word names one file its fault ends the run, but not with objects.
fn answer_said<'a, R: Files + Input + Eprint + AllocGlobal + Threads + Sync>(
    rt: &R,
    audit: &'a Audit<'a>,
    voice: Voice,
    papers: &mut Papers<'a>,
) -> Result<Output, Fault>
    ensures { IfOk result (AnswersAudit audit.now papers.new) }
{
    let files = sources(rt, &audit.files)?;
    if audit.json {
        return answer_objects(rt, audit, &files, voice, papers);
    }
    if let Some(word) = only(audit.files.as_slice()) {
        if is_alone(word, &files) {
            return answer_alone(rt, audit, word, papers);
        }
    }
    if wants_one(audit) {
        report(rt, &Failure::OneTest);
        return Ok(refused(rt.alloc()));
    }
    answer_files(rt, audit, &files, voice, papers)
}

/// Is a file to be written, or is something to be told of it? Then it is the only one.
fn wants_one(audit: &Audit<'_>) -> bool
    ensures { result ≡ wants_one audit.now }
{
    audit.write || telling_of(audit.why).is_some()
}

/// The only word, if there is one.
fn only(words: &[String]) -> Option<&str>
    ensures { IfSome result (λ word. map string_bytes words.now ≡ word.now ∷ []) }
{
    match words {
        [word] => Some(word.as_str()),
        _ => None,
    }
}

/// Is the word itself the only file?
fn is_alone(word: &str, files: &[Source]) -> bool {
    match files {
        [file] => file.name.as_str() == word,
        _ => false,
    }
}

/// How much a search may do. The command line has no other numbers of nodes; here it is said once more for the proof.
fn limits_of(audit: &Audit<'_>, inferences: usize) -> Limits
    ensures least { 1 ≤ result.nodes }
    ensures most { result.nodes ≤ 1000000 }
{
    Limits {
        nodes: audit.nodes.clamp(1, MOST_NODES) as usize,
        inferences,
    }
}

// ---- one file

/// The answer of one file.
fn answer_alone<'a, R: Files + Input + AllocGlobal>(
    rt: &R,
    audit: &'a Audit<'a>,
    word: &'a str,
    papers: &mut Papers<'a>,
) -> Result<Output, Fault>
    ensures { IfOk result (AnswersOneAudit audit.now word.now papers.new) }
{
    papers.read_test(rt, word)?;
    papers.read_prices(rt, audit.prices)?;
    let limits = limits_of(audit, papers.inferences);
    let said = audited(rt.alloc(), papers, audit.write, audit.anew, limits)?;
    let below = told_below(rt.alloc(), telling_of(audit.why), papers, limits)?;
    let output = with_below(said, &below)?;
    Ok(output)
}

/// What is told below what is said of the FENCEs of the test that was read, where that is asked for.
fn told_below(
    alloc: Global,
    asked: Option<Telling>,
    papers: &Papers<'_>,
    limits: Limits,
) -> Result<String, Fault>
    requires least { 1 ≤ limits.nodes }
    requires most { limits.nodes ≤ 1000000 }
    ensures { IfOk result (λ text. IsToldBy asked
        (λ telling. IsAuditWhy telling papers.now.test.bytes.items papers.now.prices.bytes.items) (string_bytes text)) }
{
    let (test, prices) = (&papers.test.bytes, &papers.prices.bytes);
    match asked {
        Some(telling) => why_audit(alloc, telling, test, prices, limits),
        None => Ok(String::new(alloc)),
    }
}

/// Is it the name of a file, and not of standard input?
fn names_a_file(word: &str) -> bool {
    word != "-" && word != "stdin"
}

/// Mends the only file; where there are several, or standard input, none.
fn answer_in_place<'a, R: Files + Input + Eprint + AllocGlobal>(
    rt: &R,
    audit: &'a Audit<'a>,
    papers: &mut Papers<'a>,
) -> Result<Output, Fault>
    ensures { IfOk result (λ output. string_bytes output.text ≡ []) }
{
    let files = sources(rt, &audit.files)?;
    if let Some(word) = only(audit.files.as_slice()) {
        if names_a_file(word) && is_alone(word, &files) {
            return mend_in_place(rt, audit, word, papers);
        }
    }
    report(rt, &Failure::OneTest);
    Ok(refused(rt.alloc()))
}

/// Writes the advised FENCEs into the file, where nothing else changes, and prints nothing. Else the file stays as it is,
/// with status 1, or 4 where the outcome is vacuous.
fn mend_in_place<'a, R: Files + Input + Eprint + AllocGlobal>(
    rt: &R,
    audit: &'a Audit<'a>,
    word: &'a str,
    papers: &mut Papers<'a>,
) -> Result<Output, Fault>
    ensures { IfOk result (λ output. string_bytes output.text ≡ []) }
{
    papers.read_test(rt, word)?;
    papers.read_prices(rt, audit.prices)?;
    let (test, prices) = (&papers.test.bytes, &papers.prices.bytes);
    let written = run_written(
        rt.alloc(),
        test,
        prices,
        limits_of(audit, papers.inferences),
    )?;
    if !keeps(test, written.text.as_bytes()) {
        return Ok(not_mended(rt, written.status));
    }
    if written.status != Status::Denied {
        return Ok(silent(rt.alloc(), Status::Success));
    }
    match mended(rt.alloc(), written.text.as_str(), papers)? {
        Some(text) => {
            write_whole(rt, word, &text)?;
            Ok(silent(rt.alloc(), Status::Success))
        }
        None => Ok(not_mended(rt, written.status)),
    }
}

/// No output, where the file stays as it is.
fn not_mended<R: Files + Eprint + AllocGlobal>(rt: &R, status: Status) -> Output
    ensures { string_bytes result.text ≡ [] }
{
    report(rt, &Failure::NotMended);
    silent(rt.alloc(), kept_status(status))
}

/// The status where a file stays as it is, of which `--write` would end with this one.
fn kept_status(status: Status) -> Status {
    match status {
        Status::Vacuous => status,
        _ => Status::Denied,
    }
}

/// No output, with this status.
fn silent(alloc: Global, status: Status) -> Output
    ensures { string_bytes result.text ≡ [] }
{
    Output {
        text: String::new(alloc),
        status,
    }
}

/// What is said of the FENCEs of the test that was read, in place or anew, or that test mended.
fn audited(
    alloc: Global,
    papers: &Papers<'_>,
    is_mended: bool,
    is_anew: bool,
    limits: Limits,
) -> Result<Output, Fault>
    requires least { 1 ≤ limits.nodes }
    requires most { limits.nodes ≤ 1000000 }
    ensures answer { IfOk result (λ output. IsAuditText is_mended is_anew papers.now.test.bytes.items
        papers.now.prices.bytes.items (string_bytes output.text) output.status) }
    ensures fault { IfErr result
        (IsAuditFault is_mended is_anew papers.now.test.bytes.items papers.now.prices.bytes.items limits.nodes) }
{
    let (test, prices) = (&papers.test.bytes, &papers.prices.bytes);
    if is_mended {
        run_written(alloc, test, prices, limits)
    } else if is_anew {
        Ok(run_anew(alloc, test, prices, limits)?.output)
    } else {
        Ok(run_audit(alloc, test, prices, limits)?.output)
    }
}

// ---- several

/// The answer of several files. Messages come before it, and only where there is memory for it. A fault of the prices
/// ends the run.
fn answer_files<'a, R: Files + Input + Eprint + AllocGlobal + Threads + Sync>(
    rt: &R,
    audit: &'a Audit<'a>,
    files: &[Source],
    voice: Voice,
    papers: &mut Papers<'a>,
) -> Result<Output, Fault>
    ensures { IfOk result (AnswersBlocks audit.now files.now papers.new) }
{
    papers.read_prices(rt, audit.prices)?;
    let _table = read_prices(rt.alloc(), &papers.prices.bytes)?;
    let asked = asked_of(
        audit,
        voice,
        papers.forms,
        papers.inferences,
        &papers.prices.bytes,
    );
    let batch = audit_all(rt, files, audit.jobs, asked)?;
    let Batch {
        files: found,
        messages,
        ..
    } = batch;
    let blocks = blocks_of(rt.alloc(), files, found, &papers.prices.bytes, audit.anew)?;
    let output = blocks_output(rt.alloc(), &blocks, audit.anew)?;
    for message in &messages {
        tell(rt, message);
    }
    Ok(output)
}

/// The objects of files. Messages come before them.
fn answer_objects<'a, R: Files + Input + Eprint + AllocGlobal + Threads + Sync>(
    rt: &R,
    audit: &'a Audit<'a>,
    files: &[Source],
    voice: Voice,
    papers: &mut Papers<'a>,
) -> Result<Output, Fault>
    ensures { IfOk result (AnswersObjects audit.now files.now papers.new) }
{
    papers.read_prices(rt, audit.prices)?;
    let _table = read_prices(rt.alloc(), &papers.prices.bytes)?;
    let asked = asked_of(
        audit,
        voice,
        papers.forms,
        papers.inferences,
        &papers.prices.bytes,
    );
    let batch = audit_all(rt, files, audit.jobs, asked)?;
    let Batch {
        objects,
        messages,
        ..
    } = batch;
    let blocks = objects_of(rt.alloc(), files, objects, &papers.prices.bytes, audit.anew)?;
    let output = objects_output(rt.alloc(), &blocks)?;
    for message in &messages {
        tell(rt, message);
    }
    Ok(output)
}

/// What is asked of each file, at these prices.
fn asked_of<'p>(
    audit: &Audit<'_>,
    voice: Voice,
    forms: Forms,
    inferences: usize,
    prices: &'p [u8],
) -> Asked<'p> {
    Asked {
        prices,
        is_anew: audit.anew,
        is_json: audit.json,
        limits: limits_of(audit, inferences),
        explains: voice.explains,
        forms,
    }
}

/// What is found of all files. With more than one job so many threads judge files side by side, which changes nothing
/// of what is found: files are read here alone, in their order.
fn audit_all<'a, R: Files + Input + AllocGlobal + Threads + Sync>(
    rt: &R,
    files: &[Source],
    jobs: u8,
    asked: Asked<'a>,
) -> Result<Batch<'a>, Fault> {
    let alloc = rt.alloc();
    if jobs == 1 {
        return audit_in_turn(rt, files, asked);
    }
    let mut found = Batch::new(alloc);
    for round in files.chunks(usize::from(jobs.max(1)) * AT_ONCE) {
        let batches = read_batches(rt, round, asked.forms)?;
        let said = thread::map_vec(
            rt,
            batches,
            &|batch: Vec<Taken<'_>>| { audit_batch(alloc, batch, asked) },
        )?;
        for batch in said {
            found.add(batch?)?;
        }
    }
    Ok(found)
}

/// One file after the other; of each no more is kept than what is found of it.
fn audit_in_turn<'a, R: Files + Input + AllocGlobal>(
    rt: &R,
    files: &[Source],
    asked: Asked<'a>,
) -> Result<Batch<'a>, Fault> {
    let mut found = Batch::new(rt.alloc());
    for source in files {
        found.audit(rt.alloc(), take(rt, source, asked.forms), asked)?;
    }
    Ok(found)
}

/// The file, read.
fn take<'a, R: Files + Input + AllocGlobal>(rt: &R, source: &'a Source, forms: Forms) -> Taken<'a> {
    Taken {
        name: source.name.as_str(),
        file: plain_text(rt.alloc(), source.read(rt), forms),
    }
}

/// The files, read in their order, in batches for a thread each.
fn read_batches<'a, R: Files + Input + AllocGlobal>(
    rt: &R,
    files: &'a [Source],
    forms: Forms,
) -> Result<Vec<Vec<Taken<'a>>>, AllocError> {
    let mut batches = Vec::new(rt.alloc());
    for sources in files.chunks(AT_ONCE) {
        let mut batch = Vec::new(rt.alloc());
        for source in sources {
            batch.push(take(rt, source, forms))?;
        }
        batches.push(batch)?;
    }
    Ok(batches)
}

/// What is found of the files of a batch.
fn audit_batch<'a>(
    alloc: Global,
    batch: Vec<Taken<'_>>,
    asked: Asked<'a>,
) -> Result<Batch<'a>, Fault> {
    let mut found = Batch::new(alloc);
    for taken in batch {
        found.audit(alloc, taken, asked)?;
    }
    Ok(found)
}

impl<'a> Batch<'a> {
    fn new(alloc: Global) -> Self {
        Batch {
            files: Vec::new(alloc),
            objects: Vec::new(alloc),
            messages: Vec::new(alloc),
        }
    }

    /// Adds what is found of a file, with its message where that is wanted. Where there is no memory for a message it is
    /// left out.
    fn audit(&mut self, alloc: Global, taken: Taken<'_>, asked: Asked<'a>) -> Result<(), Fault> {
        let Taken { name, file } = taken;
        if asked.explains {
            self.add_message(message_of_file(alloc, name, &file));
        }
        let file = file.map(|plain| plain.text);
        let limits = Limits {
            nodes: asked.limits.nodes.clamp(1, MOST_NODES as usize),
            inferences: asked.limits.inferences,
        };
        if asked.is_json {
            let found = object_of_file(alloc, name, file, asked.prices, asked.is_anew, limits)?;
            self.objects.push(found)?;
            return Ok(());
        }
        let file = file.map_err(|why| why.fault());
        let found = audit_file(alloc, name, file, asked.prices, asked.is_anew, limits)?;
        self.files.push(found)?;
        Ok(())
    }

    fn add_message(&mut self, message: Option<String>) {
        if let Some(message) = message {
            let _ = self.messages.push(message);
        }
    }

    /// Adds what was found of later files.
    fn add(&mut self, later: Batch<'a>) -> Result<(), AllocError> {
        for file in later.files {
            self.files.push(file)?;
        }
        for object in later.objects {
            self.objects.push(object)?;
        }
        for message in later.messages {
            self.add_message(Some(message));
        }
        Ok(())
    }
}
