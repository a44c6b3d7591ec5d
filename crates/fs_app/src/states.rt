//! What `states` answers: the states of each file, or what a log has of them.
use crate::failure::Failure;
use crate::program::{Voice, failure_of, report, say_notes};
use fs_app_command_line::States;
use fs_app_error_messages::{explain_all_of_test, shown_name};
use fs_app_io::{Output, Source, Status, sources};
use fs_app_plain::Forms;
use fs_app_states::{
    Block, Compared, Expected, Item, Log, LogError, MOST_BYTES, Shown, compare, left_over,
    read_log, run_states,
};
use fs_app_test::{Papers, fault_object};
use fs_kinds::Fault;
use fs_litmus::read_test;
use fs_litmus_tokens::number_of;
use std::alloc::{AllocError, Global};
use std::rt::Files;

/// What is asked of each file.
#[derive(Clone, Copy)]
struct Asked {
    shown: Shown,
    voice: Voice,
    forms: Forms,
    inferences: usize,
}

fn asked_of(states: &States<'_>, voice: Voice, forms: Forms, inferences: usize) -> Asked {
    Asked {
        shown: Shown {
            all: states.all,
            witnesses: states.witnesses,
            json: states.json,
            guarded: false,
        },
        voice,
        forms,
        inferences,
    }
}

/// The states of each file, in their order. The fault of one is said on standard error, as JSON also where the states
/// are printed, and the others go on.
pub(crate) fn answer_states<R: Files + Input + Eprint + AllocGlobal>(
    rt: &R,
    states: &States<'_>,
    voice: Voice,
    forms: Forms,
    inferences: usize,
) -> Result<Output, Fault> {
    let mut output = nothing(rt);
    let asked = asked_of(states, voice, forms, inferences);
    let files = sources(rt, &states.files)?;
    for source in &files {
        add_states(rt, source, &states.fences, asked, &mut output)?;
    }
    Ok(output)
}

/// No text, and that all is well.
fn nothing<R: AllocGlobal>(rt: &R) -> Output {
    Output {
        text: String::new(rt.alloc()),
        status: Status::Success,
    }
}

/// Adds the states of a file, or its fault.
fn add_states<'a, R: Files + Input + Eprint + AllocGlobal>(
    rt: &R,
    source: &'a Source,
    fences: &'a [String],
    asked: Asked,
    output: &mut Output,
) -> Result<(), Fault> {
    let mut papers = Papers::new(rt.alloc(), asked.forms, asked.inferences);
    papers.fences = fences;
    match read_states(rt, source, asked.shown, &mut papers) {
        Ok(block) => {
            say_notes(rt, asked.voice, papers.notes.as_str());
            output.text.push_str(block.as_str())?;
        }
        Err(fault) => {
            say_fault(rt, fault, asked.voice, &papers)?;
            add_fault(rt.alloc(), fault, asked.shown.json, &papers, output)?;
        }
    }
    Ok(())
}

/// Makes it the status that a file has a fault, and adds its object where JSON is asked for.
fn add_fault(
    alloc: Global,
    fault: Fault,
    is_json: bool,
    papers: &Papers<'_>,
    output: &mut Output,
) -> Result<(), Fault> {
    output.status = Status::Failure;
    if is_json {
        if let Some(object) = fault_object(alloc, fault, papers)? {
            output.text.push_str(object.as_str())?;
        }
    }
    Ok(())
}

fn read_states<'a, R: Files + Input + AllocGlobal>(
    rt: &R,
    source: &'a Source,
    shown: Shown,
    papers: &mut Papers<'a>,
) -> Result<String, Fault> {
    papers.read_source(rt, source)?;
    let mut shown = shown;
    shown.guarded = papers.is_guarded;
    run_states(
        rt.alloc(),
        &papers.test.bytes,
        papers.fences,
        shown,
        papers.inferences,
    )
}

/// Says the fault of a file on standard error, unless it ends the run.
fn say_fault<R: Files + Eprint + AllocGlobal>(
    rt: &R,
    fault: Fault,
    voice: Voice,
    papers: &Papers<'_>,
) -> Result<(), Fault> {
    if fault == Fault::Memory {
        return Err(fault);
    }
    report(rt, &failure_of_file(rt.alloc(), fault, voice, papers));
    Ok(())
}

/// The failure of a file. An item of `locations` is refused beside the reader of tests, so its message has no place.
fn failure_of_file(alloc: Global, fault: Fault, voice: Voice, papers: &Papers<'_>) -> Failure {
    if !matches!(fault, Fault::Syntax { .. }) || !voice.explains {
        return failure_of(alloc, fault, voice, papers);
    }
    match test_text(alloc, fault, papers) {
        Ok(message) => Failure::Told(fault, message),
        Err(_) => Failure::NoAnswer(fault),
    }
}

/// The message of a fault of a test's form.
fn test_text(alloc: Global, fault: Fault, papers: &Papers<'_>) -> Result<String, AllocError> {
    match explain_all_of_test(alloc, papers.test.name, &papers.test.bytes)? {
        Some(message) => Ok(message),
        None => noted_text(alloc, fault, papers),
    }
}

/// The message of a fault that has no place.
fn noted_text(alloc: Global, fault: Fault, papers: &Papers<'_>) -> Result<String, AllocError> {
    let name = shown_name(alloc, papers.test.name)?;
    let mut text = format!(in alloc; "{}: {}\n", name.as_str(), fault)?;
    if let Some(noted) = papers.noted(alloc, fault)? {
        write!(text, "  {}\n", noted.note.message.as_str())?;
    }
    Ok(text)
}

/// What the log at this path has of the tests of the files, in their order, and of others.
pub(crate) fn answer_log<'a, R: Files + Input + Eprint + AllocGlobal>(
    rt: &R,
    states: &'a States<'a>,
    path: &'a str,
    voice: Voice,
    papers: &mut Papers<'a>,
) -> Result<Output, Fault> {
    papers.read_evidence(rt, path, MOST_BYTES)?;
    match read_log(rt.alloc(), &papers.evidence.bytes) {
        Ok(log) => {
            let files = sources(rt, &states.files)?;
            let asked = asked_of(states, voice, papers.forms, papers.inferences);
            compare_files(rt, &files, &states.fences, &log, asked)
        }
        Err(LogError::Fault(fault)) => Err(fault),
        Err(error) => {
            report(rt, &Failure::BadLog(error));
            let mut output = nothing(rt);
            output.status = Status::Failure;
            Ok(output)
        }
    }
}

/// What is said of the files beside the log, and of the tests of the log that none of them has.
fn compare_files<'a, R: Files + Input + Eprint + AllocGlobal>(
    rt: &R,
    files: &'a [Source],
    fences: &'a [String],
    log: &Log<'_>,
    asked: Asked,
) -> Result<Output, Fault> {
    let mut output = nothing(rt);
    let mut names = Vec::new(rt.alloc());
    for source in files {
        if let Some(compared) = compare_file(rt, source, fences, log, asked)? {
            output.text.push_str(compared.text.as_str())?;
            output.status = worse(output.status, compared.status);
            names.push(compared.name)?;
        } else {
            output.status = worse(output.status, Status::Failure);
        }
    }
    // a file that has a fault may be of any test of the log
    if names.len() == files.len() {
        output
            .text
            .push_str(left_over(rt.alloc(), log, &names)?.as_str())?;
    }
    Ok(output)
}

/// That a forbidden state was seen is the worst, and then that a file has a fault.
fn worse(status: Status, other: Status) -> Status {
    match status {
        Status::Denied => status,
        Status::Success => other,
        _ if other == Status::Denied => other,
        _ => status,
    }
}

/// What is said of a file. None where it, or what the log has of its test, has a fault, which is said on standard
/// error.
fn compare_file<'a, R: Files + Input + Eprint + AllocGlobal>(
    rt: &R,
    source: &'a Source,
    fences: &'a [String],
    log: &Log<'_>,
    asked: Asked,
) -> Result<Option<Compared>, Fault> {
    let mut papers = Papers::new(rt.alloc(), asked.forms, asked.inferences);
    papers.fences = fences;
    match compared_file(rt, source, log, &mut papers) {
        Ok(compared) => Ok(Some(compared)),
        Err(LogError::Fault(fault)) => {
            say_fault(rt, fault, asked.voice, &papers)?;
            Ok(None)
        }
        Err(error) => {
            report(rt, &Failure::BadLog(error));
            Ok(None)
        }
    }
}

fn compared_file<'a, R: Files + Input + AllocGlobal>(
    rt: &R,
    source: &'a Source,
    log: &Log<'_>,
    papers: &mut Papers<'a>,
) -> Result<Compared, LogError> {
    papers.read_source(rt, source)?;
    if papers.is_wide {
        let test = read_test(rt.alloc(), &papers.test.bytes)?;
        refuse_unsigned(log, test.name.as_str())?;
    }
    compare(
        rt.alloc(),
        log,
        &papers.test.bytes,
        papers.fences,
        papers.inferences,
    )
}

/// Refuses the first state of the test that has a number which no word is, extended by its sign to 64 bits.
fn refuse_unsigned(log: &Log<'_>, name: &str) -> Result<(), LogError> {
    for block in log.as_slice() {
        if block.name == name {
            refuse_unsigned_in(block)?;
        }
    }
    Ok(())
}

fn refuse_unsigned_in(block: &Block<'_>) -> Result<(), LogError> {
    for seen in block.states.as_slice() {
        if seen.items.as_slice().iter().any(|item| is_unsigned(item)) {
            return Err(LogError::Line {
                line: seen.line,
                expected: Expected::Value,
            });
        }
    }
    Ok(())
}

/// Is the value a number without a minus that as a word is negative?
fn is_unsigned(item: &Item<'_>) -> bool {
    match number_of(item.value) {
        Some(number) => number >> 31 == 1,
        None => false,
    }
}
