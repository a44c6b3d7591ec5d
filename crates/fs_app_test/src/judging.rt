//! What `test` says of files, one after the other or side by side.

ghost use Rattle.std.specs.Prelude.{IfOk, map};
ghost use Rattle.fs_app_test.specs.Judging.{AreJudged};

use crate::expecting::Expecting;
use crate::papers::{message_of_file, note_of_file, note_or};
use crate::said::{Expected, Kind, Line, Note};
use crate::tested::test_file;
use crate::unusable::{Unusable, plain_text};
use fs_app_io::Source;
use fs_app_plain::{Forms, Plain};
use fs_kinds::Fault;
use std::alloc::{AllocError, Global};
use std::marker::Model;
use std::rt::Files;
use std::thread;
use std::thread::Threads;

/// So many files each thread judges before all go on to the next ones.
const AT_ONCE: usize = 8;

/// A file that was read: its name, its test or why it has none, and what that is expected to be.
#[derive(Drop)]
struct Taken<'a> {
    name: &'a str,
    file: Result<Plain, Unusable>,
    expected: Option<Expected>,
}

/// What is wanted beside lines: of faults messages and notes, and tests.
#[derive(Clone, Copy)]
pub struct Wants {
    /// Messages for people.
    pub messages: bool,
    /// Notes for those who read JSON.
    pub notes: bool,
    /// Whether tests are kept of whose outcome more can be told: that it is allowed, or forbidden.
    pub tests: bool,
    /// Which forms of a test are read beside the reader's own.
    pub forms: Forms,
    /// How many inferences each hunt may make.
    pub inferences: usize,
}

/// What is said of files, in their order: a line of each, and messages of those that aren't tests, or weren't read.
#[derive(Drop)]
pub struct Judged {
    pub lines: Vec<Line>,
    pub messages: Vec<String>,
    /// Of each line the bytes of its test; nothing where tests aren't kept, or this one neither allows nor forbids its
    /// outcome.
    pub tests: Vec<Vec<u8>>,
}

/// A file of which something is said: its line, and its bytes where they are kept. Contracts see neither.
#[derive(Drop)]
struct Tested {
    line: Line,
    test: Vec<u8>,
}

impl Model for Tested {
    ghost use Rattle.fs_app_test.specs.Judging.{IsJudged};

    ghost Value = { Unit {0} };

    ghost view = { λ t. tt };

    ghost invariant = { λ t. IsJudged t.line t.test.items };
}

/// Can more be told of a test of which this is said?
fn has_more(kind: Kind) -> bool {
    match kind {
        Kind::Allowed | Kind::Forbidden => true,
        Kind::Vacuous | Kind::Faulty => false,
    }
}

/// What is said of a file that was read.
fn tested_bytes(alloc: Global, name: &str, bytes: Vec<u8>, wants: Wants) -> Result<Tested, Fault> {
    let kept = if wants.tests {
        Vec::from_slice(alloc, &bytes)?
    } else {
        Vec::new(alloc)
    };
    let line = test_file(alloc, name, Ok(bytes), wants.inferences)?;
    if has_more(line.said.kind) {
        return Ok(Tested { line, test: kept });
    }
    Ok(Tested {
        line,
        test: Vec::new(alloc),
    })
}

/// What is said of a file that wasn't read, for this fault.
fn unread(alloc: Global, name: &str, fault: Fault) -> Result<Tested, Fault> {
    let line = test_file(alloc, name, Err(fault), 0)?;
    Ok(Tested {
        line,
        test: Vec::new(alloc),
    })
}

/// What is said of a file.
fn tested_file(
    alloc: Global,
    name: &str,
    file: Result<Vec<u8>, Unusable>,
    wants: Wants,
) -> Result<Tested, Fault> {
    match file {
        Ok(bytes) => tested_bytes(alloc, name, bytes, wants),
        Err(why) => unread(alloc, name, why.fault()),
    }
}

impl Tested {
    /// The same, where this is expected.
    fn with_expected(self, expected: Option<Expected>) -> Tested {
        let Tested { line, test } = self;
        let mut line = line;
        line.expected = expected;
        Tested { line, test }
    }

    /// The same with this note, or where there is none the one that its fault has by itself.
    fn with_note(self, alloc: Global, note: Option<Note>) -> Result<Tested, Fault> {
        let Tested { line, test } = self;
        let mut line = line;
        line.note = note_or(alloc, note, line.said.fault)?;
        Ok(Tested { line, test })
    }
}

/// What is said of files, in their order, and messages of those that aren't tests, or weren't read.
#[derive(Drop)]
struct Batch {
    files: Vec<Tested>,
    messages: Vec<String>,
}

impl Batch {
    fn new(alloc: Global) -> Self {
        Batch {
            files: Vec::new(alloc),
            messages: Vec::new(alloc),
        }
    }

    /// Adds what is said of a file, with its message, its note and its bytes where they are wanted. Where there is no
    /// memory for a message it is left out.
    fn judge(&mut self, alloc: Global, taken: Taken<'_>, wants: Wants) -> Result<(), Fault> {
        let Taken {
            name,
            file,
            expected,
        } = taken;
        if wants.messages {
            self.add_message(message_of_file(alloc, name, &file));
        }
        let file = file.map(|plain| plain.text);
        let note = if wants.notes {
            note_of_file(alloc, &file)?
        } else {
            None
        };
        let tested = tested_file(alloc, name, file, wants)?.with_expected(expected);
        let noted = if wants.notes {
            tested.with_note(alloc, note)?
        } else {
            tested
        };
        self.files.push(noted)?;
        Ok(())
    }

    fn add_message(&mut self, message: Option<String>) {
        if let Some(message) = message {
            let _ = self.messages.push(message);
        }
    }

    /// Adds what was said of later files.
    fn add(&mut self, later: Batch) -> Result<(), AllocError> {
        for file in later.files {
            self.files.push(file)?;
        }
        for message in later.messages {
            self.add_message(Some(message));
        }
        Ok(())
    }
}

/// The lines and the tests.
fn parted(alloc: Global, batch: Batch) -> Result<Judged, AllocError>
    ensures { IfOk result (λ judged. AreJudged judged.lines.items (map (λ test. test.items) judged.tests.items)) }
{
    let Batch { files, messages } = batch;
    let mut lines = Vec::new(alloc);
    let mut tests = Vec::new(alloc);
    for file in files {
        let Tested { line, test } = file;
        lines.push(line)?;
        tests.push(test)?;
    }
    Ok(Judged {
        lines,
        messages,
        tests,
    })
}

/// Judges the files, in their order, and explains their faults where that is asked for. With more than one job so many
/// threads judge files side by side, which changes nothing of what is said: files are read here alone, in their order.
/// Of up to eight files for each job the bytes are kept at once.
pub fn judge_files<R: Files + Input + AllocGlobal + Threads + Sync>(
    rt: &R,
    files: &[Source],
    jobs: u8,
    wants: Wants,
    expecting: &mut Expecting<'_>,
) -> Result<Judged, Fault>
    ensures { IfOk result (λ judged. AreJudged judged.lines.items (map (λ test. test.items) judged.tests.items)) }
{
    let batch = judge_all(rt, files, jobs, wants, expecting)?;
    Ok(parted(rt.alloc(), batch)?)
}

/// What is said of all files.
fn judge_all<R: Files + Input + AllocGlobal + Threads + Sync>(
    rt: &R,
    files: &[Source],
    jobs: u8,
    wants: Wants,
    expecting: &mut Expecting<'_>,
) -> Result<Batch, Fault> {
    if jobs == 1 {
        return judge_in_turn(rt, files, wants, expecting);
    }
    let mut judged = Batch::new(rt.alloc());
    for round in files.chunks(usize::from(jobs.max(1)) * AT_ONCE) {
        let batches = read_batches(rt, round, wants.forms, expecting)?;
        let alloc = rt.alloc();
        let said = thread::map_vec(
            rt,
            batches,
            &|batch: Vec<Taken<'_>>| { judge_batch(alloc, batch, wants) },
        )?;
        add_batches(&mut judged, said)?;
    }
    Ok(judged)
}

/// One file after the other; of each no more is kept than what is said of it.
fn judge_in_turn<R: Files + Input + AllocGlobal>(
    rt: &R,
    files: &[Source],
    wants: Wants,
    expecting: &mut Expecting<'_>,
) -> Result<Batch, Fault> {
    let mut judged = Batch::new(rt.alloc());
    for source in files {
        judged.judge(rt.alloc(), take(rt, source, wants.forms, expecting)?, wants)?;
    }
    Ok(judged)
}

/// The file, read.
fn take<'a, R: Files + Input + AllocGlobal>(
    rt: &R,
    source: &'a Source,
    forms: Forms,
    expecting: &mut Expecting<'_>,
) -> Result<Taken<'a>, AllocError> {
    let file = plain_text(rt.alloc(), source.read(rt), forms);
    let expected = match &file {
        Ok(plain) => expecting.expected(rt.alloc(), &plain.text)?,
        Err(_) => None,
    };
    Ok(Taken {
        name: source.name.as_str(),
        file,
        expected,
    })
}

/// The files, read in their order, in batches for a thread each.
fn read_batches<'a, R: Files + Input + AllocGlobal>(
    rt: &R,
    files: &'a [Source],
    forms: Forms,
    expecting: &mut Expecting<'_>,
) -> Result<Vec<Vec<Taken<'a>>>, AllocError> {
    let mut batches = Vec::new(rt.alloc());
    for batch in files.chunks(AT_ONCE) {
        batches.push(read_batch(rt, batch, forms, expecting)?)?;
    }
    Ok(batches)
}

fn read_batch<'a, R: Files + Input + AllocGlobal>(
    rt: &R,
    files: &'a [Source],
    forms: Forms,
    expecting: &mut Expecting<'_>,
) -> Result<Vec<Taken<'a>>, AllocError> {
    let mut batch = Vec::new(rt.alloc());
    for source in files {
        batch.push(take(rt, source, forms, expecting)?)?;
    }
    Ok(batch)
}

/// What is said of the files of a batch.
fn judge_batch(alloc: Global, batch: Vec<Taken<'_>>, wants: Wants) -> Result<Batch, Fault> {
    let mut judged = Batch::new(alloc);
    for taken in batch {
        judged.judge(alloc, taken, wants)?;
    }
    Ok(judged)
}

/// Adds what was said of the batches. An error where a thread had one.
fn add_batches(judged: &mut Batch, said: Vec<Result<Batch, Fault>>) -> Result<(), Fault> {
    for batch in said {
        judged.add(batch?)?;
    }
    Ok(())
}
