//! A run of the program: from the words of its command line to what it prints and its exit status.

ghost use Rattle.std.specs.Prelude.{◌≡◌, ℕ, List, [], IfOk, IfErr, IsSome, None, false, if◌then◌else◌, is_some};
ghost use Rattle.std.specs.Prelude.{map, string_bytes};
ghost use Rattle.std.specs.Arc.{arc_value};
ghost use Rattle.std.specs.Option.{option_copied};
ghost use Rattle.fs_app_io.specs.declared.status.Status.TheVariants.{Success, Denied, Failure as Failed};
ghost use Rattle.fs_app_test.specs.Judging.{AreJudged};
ghost use Rattle.fs_app_solve_and_check.specs.Found.{IsFound, Prints, lines_of};
ghost use Rattle.fs_app_solve_and_check.specs.Check.{IsChecked, AreOneVerdict, IsFirstCheckFault};
ghost use Rattle.fs_app_test.specs.Report.{report_text, json_text};
ghost use Rattle.fs_app_test.specs.Status.{report_status};
ghost use Rattle.fs_app.specs.Answers.{IsSolveText, IsSolvedAndTold, IsSolvedIn, offered, in_form, Answers};
ghost use Rattle.fs_app.specs.Answers.{AnswersTest, AnswersPlace, IsOrderFault, IsOrderText, IsPlaceFault, IsPlacedText};
ghost use Rattle.fs_app.specs.Answers.{AnswersLines, AnswersOrder, AnswersSolve, AnswersCheck};
ghost use Rattle.fs_app.specs.Telling.{is_yes, telling_of};

use crate::audit_sites::answer_audit_sites;
use crate::audits::answer_audit;
use crate::failure::Failure;
use crate::pictures::{draw_certified, draw_found, draw_ordered, draw_tests};
use crate::progress::Progress;
use crate::sites::{SiteWords, answer_check_sites, answer_sites, failure_of_sites};
use crate::states::{answer_log, answer_states};
use crate::telling::{answer_why, is_yes, order_why, solve_why, telling_of, tests_why, with_below};
use crate::write::fenced_file;
use clap::error::ErrorKind;
use fs_app_command_line::{
    Check, Expectations, MOST_NODES, MOST_WORKERS, Order, Place, Request, Solve, Task, Test, Why,
    completion_script, read_request,
};
use fs_app_error_messages::shown_name;
use fs_app_io::{
    INPUT_LIMIT, Output, Status, has_stack, room_of, sources, tell, write_whole, write_within,
};
use fs_app_place_and_order::{run_order, run_place};
use fs_app_plain::{Forms, in_file, widened};
use fs_app_sites::{run_order_sites, run_place_sites};
use fs_app_solve_and_check::{Checked, Found, Limits, run_check, run_solve, run_solve_alone};
use fs_app_test::{
    Expecting, Judged, Line, ListError, Papers, Wants, fault_object, in_width, judge_files,
    read_rows, test_objects, test_report, vacuous_note,
};
use fs_app_why::Telling;
use fs_kinds::Fault;
use std::alloc::Global;
use std::process::ExitCode;
use std::rt::{Clock, Env, Files};
use std::sync::Wait;
use std::thread::Threads;
use std::{env, io};

/// Certificates are read up to this many bytes.
pub(crate) const CERTIFICATE_LIMIT: usize = 1_073_741_824;

/// What is said on standard error beside the line of a fault.
#[derive(Clone, Copy)]
pub(crate) struct Voice {
    /// Whether notes of an answer are said.
    pub notes: bool,
    /// Whether a message explains a fault.
    pub explains: bool,
    /// Whether is said which test needs which sites.
    pub tells_needs: bool,
    /// Whether a line says how far a search is.
    shows_progress: bool,
}

impl Voice {
    /// What is said for a request, of which some depends on whether standard error is a terminal. `quiet` outdoes all
    /// else. Whoever writes a test has `test`, `states` and `audit` judge it, and with `--sites` there are several, so there
    /// faults are always explained.
    fn of(request: &Request<'_>, is_terminal: bool) -> Voice {
        let notes = !request.quiet;
        let judges = matches!(
            request.task,
            Task::Test(_)
                | Task::States(_)
                | Task::Audit(_)
                | Task::AuditSites(_)
                | Task::Sites(_)
                | Task::CheckSites(_)
        );
        Voice {
            notes,
            explains: notes && (request.verbose || is_terminal || judges),
            tells_needs: notes && request.verbose,
            shows_progress: notes && is_terminal,
        }
    }

    /// Whether more is said of the fault than its line. Which file isn't read, and why, no line of a fault tells.
    fn tells(self, fault: Fault) -> bool {
        self.explains || (self.notes && fault == Fault::ReadFault)
    }
}

/// Does what the process's command line asks for, and answers the exit status: 0 where it was done or the answer is
/// yes, fenced or forbidden, 1 where it is no, none or allowed, 2 for a fault or a bad command line, 3 where memory ran
/// out, 4 where tests are vacuous and nothing is worse. A fault or a bad command line prints on standard error, and
/// nothing on standard output unless it was standard output that failed; but a fault of a file of `test` stands in its
/// line. Where standard error is a terminal, as the caller says, a message explains a fault, and a long search has a
/// line there while it goes on.
pub fn run<R: Env + Files + Input + Print + Eprint + AllocGlobal + Clock + Threads + Wait + Sync>(
    rt: &R,
    is_terminal: bool,
) -> ExitCode {
    let status = match status_of_run(rt, is_terminal) {
        Ok(status) => status,
        Err(failure) => {
            report(rt, &failure);
            failure.status()
        }
    };
    ExitCode::from(status.code())
}

fn status_of_run<
    R: Env + Files + Input + Print + Eprint + AllocGlobal + Clock + Threads + Wait + Sync,
>(rt: &R, is_terminal: bool) -> Result<Status, Failure> {
    if !has_stack(rt) {
        return Err(Failure::NoStack);
    }
    let words = words(rt)?;
    let request = match read_request(rt.alloc(), words.as_slice()) {
        Ok(request) => request,
        Err(error) => return explain(rt, shown_error(rt, error, words.as_slice())?),
    };
    if request.task.asks_unclearly() {
        return Err(Failure::NoPlace);
    }
    let voice = Voice::of(&request, is_terminal);
    let mut papers = Papers::new(rt.alloc(), forms_of(&request), request.work as usize);
    match answer(rt, &request.task, voice, &mut papers) {
        Ok(output) => print_answer(rt, &request.task, output, voice, &papers),
        Err(fault) => {
            if request.task.is_json() {
                print_fault(rt, fault, &papers)?;
            }
            Err(failure_of_task(rt.alloc(), &request.task, fault, voice, &papers))
        }
    }
}

/// Prints the answer, in the form of the file that was read, once notes on that are said, and gives its status.
fn print_answer<R: Files + Print + Eprint + AllocGlobal>(
    rt: &R,
    task: &Task<'_>,
    output: Output,
    voice: Voice,
    papers: &Papers<'_>,
) -> Result<Status, Failure> {
    let output = as_in_file(rt.alloc(), task, output, papers)?;
    // these two say nothing of all executions
    if !matches!(task, Task::Place(_) | Task::Order(_)) {
        say_notes(rt, voice, papers.notes.as_str());
    }
    print(rt, &output)
}

/// Says notes on tests that were read, where there are some.
pub(crate) fn say_notes<R: Files + Eprint + AllocGlobal>(rt: &R, voice: Voice, notes: &str) {
    if voice.notes && !notes.is_empty() {
        tell(rt, &notes);
    }
}

/// Which forms of tests are read. One that is held against a log has no other condition than the log's.
fn forms_of(request: &Request<'_>) -> Forms {
    let mut forms = Forms {
        unroll: request.unroll,
        zalasr: request.zalasr,
        filter: true,
        sites: false,
        all: false,
    };
    match &request.task {
        Task::States(states) => {
            forms.filter = states.log.is_none();
            forms.all = states.all;
        }
        Task::Sites(_) | Task::AuditSites(_) | Task::CheckSites(_) => forms.sites = true,
        Task::Place(place) => forms.sites = place.sites,
        Task::Order(order) => forms.sites = order.sites,
        _ => {}
    }
    forms
}

/// The output in the form of the file that was read, of whose plain form it speaks: a test, or what is told of one.
fn as_in_file(
    alloc: Global,
    task: &Task<'_>,
    output: Output,
    papers: &Papers<'_>,
) -> Result<Output, Fault> {
    let Output { text, status } = output;
    let text = match task {
        Task::Place(_) => wide_test(alloc, text, papers.is_wide)?,
        Task::Solve(solve) if solve.write => written(alloc, text, papers)?,
        Task::Audit(audit) if audit.write => written(alloc, text, papers)?,
        Task::Solve(solve) if !solve.json => in_width(alloc, text, papers.is_wide)?,
        Task::Check(check) if !check.json => in_width(alloc, text, papers.is_wide)?,
        Task::Audit(_) | Task::Order(_) => in_width(alloc, text, papers.is_wide)?,
        _ => text,
    };
    Ok(Output { text, status })
}

/// The test, with accesses of 64 bits where those of a word stand for them.
fn wide_test(alloc: Global, text: String, is_wide: bool) -> Result<String, Fault> {
    if !is_wide {
        return Ok(text);
    }
    let wide = widened(alloc, text.as_bytes())?;
    Ok(String::from_utf8(wide).unwrap_or(text))
}

/// The file with what was changed in its plain form; or that form, changed, where the file can't be.
fn written(alloc: Global, text: String, papers: &Papers<'_>) -> Result<String, Fault> {
    match mended(alloc, text.as_str(), papers)? {
        Some(bytes) => Ok(String::from_utf8(bytes).unwrap_or(text)),
        None => wide_test(alloc, text, papers.is_wide),
    }
}

/// The file that was read with what was changed in its plain form, as `in_file` of fs_app_plain has it.
pub(crate) fn mended(
    alloc: Global,
    text: &str,
    papers: &Papers<'_>,
) -> Result<Option<Vec<u8>>, Fault> {
    match &papers.file {
        Some(file) => {
            let plain = &papers.test.bytes;
            match in_file(alloc, file, plain, text.as_bytes(), papers.forms) {
                Ok(made) => Ok(made),
                Err(why) => Err(why.fault()),
            }
        }
        None => Ok(Some(Vec::from_slice(alloc, text.as_bytes())?)),
    }
}

/// The failure of a run that a fault ended. Of sites messages of a test know nothing.
fn failure_of_task(
    alloc: Global,
    task: &Task<'_>,
    fault: Fault,
    voice: Voice,
    papers: &Papers<'_>,
) -> Failure {
    match task {
        Task::Place(place) if place.sites => {
            let given = SiteWords {
                words: &place.fences,
                is_free: place.free,
                prices: offered(place, papers),
            };
            failure_of_sites(alloc, given, fault, voice, papers)
        }
        Task::Order(order) if order.sites => {
            let given = SiteWords {
                words: &order.fences,
                is_free: order.free,
                prices: None,
            };
            failure_of_sites(alloc, given, fault, voice, papers)
        }
        _ => failure_of(alloc, fault, voice, papers),
    }
}

/// Prints the answer, and gives its status.
fn print<R: Files + Print>(rt: &R, output: &Output) -> Result<Status, Failure>
    ensures { IfOk result (λ status. status ≡ output.now.status) }
{
    let room = room_of(rt, "/dev/stdout");
    write_within(&mut io::writer(rt), output.text.as_bytes(), room)?;
    Ok(output.status)
}

/// Prints the object of a fault that ended the run, where it has one.
fn print_fault<R: Files + Print + AllocGlobal>(
    rt: &R,
    fault: Fault,
    papers: &Papers<'_>,
) -> Result<(), Fault> {
    match fault_object(rt.alloc(), fault, papers)? {
        Some(object) => {
            let room = room_of(rt, "/dev/stdout");
            write_within(&mut io::writer(rt), object.as_bytes(), room)
        }
        None => Ok(()),
    }
}

/// The failure of a run that a fault ended, with its message where that is said.
pub(crate) fn failure_of(
    alloc: Global,
    fault: Fault,
    voice: Voice,
    papers: &Papers<'_>,
) -> Failure {
    if !voice.tells(fault) {
        return Failure::NoAnswer(fault);
    }
    match papers.message(alloc, fault) {
        Some(message) => Failure::Told(fault, message),
        None => Failure::NoAnswer(fault),
    }
}

/// The words of the command line, the program's name first.
fn words<R: Env + AllocGlobal>(rt: &R) -> Result<Vec<String>, Failure> {
    match env::args(rt) {
        Ok(words) => words
            .collect(rt.alloc())
            .map_err(|_| Failure::NoAnswer(Fault::Memory)),
        Err(refused) => match refused.kind() {
            io::ErrorKind::OutOfMemory => Err(Failure::NoAnswer(Fault::Memory)),
            _ => Err(Failure::NotUtf8),
        },
    }
}

/// The same of the words as they are shown, so that nothing that a terminal would obey is printed of them.
fn shown_error<R: AllocGlobal>(
    rt: &R,
    error: clap::Error,
    words: &[String],
) -> Result<clap::Error, Fault> {
    let mut shown = Vec::new(rt.alloc());
    for word in words {
        shown.push(shown_name(rt.alloc(), word.as_str())?)?;
    }
    match read_request(rt.alloc(), shown.as_slice()) {
        Ok(_) => Ok(error),
        Err(shown_error) => Ok(shown_error),
    }
}

/// Prints help or the version on standard output, where the words ask for one. Any other error is a failure.
fn explain<R: Files + Print + AllocGlobal>(rt: &R, error: clap::Error) -> Result<Status, Failure> {
    if matches!(error.kind(), ErrorKind::OutOfMemory) {
        return Err(Failure::NoAnswer(Fault::Memory));
    }
    if error.use_stderr() {
        return Err(Failure::NoRequest(error));
    }
    let text = said(rt.alloc(), &error)?;
    print(
        rt,
        &Output {
            text,
            status: Status::Success,
        },
    )
}

/// What an error prints.
fn said(alloc: Global, error: &clap::Error) -> Result<String, Fault> {
    Ok(format!(in alloc; "{error}")?)
}

/// Prints the error on standard error. Where that fails too, the status alone tells.
pub(crate) fn report<R: Files + Eprint + AllocGlobal>(rt: &R, error: &Failure) {
    tell(rt, error);
}

/// What the command answers. What it reads it leaves in `papers`, also where it has a fault.
fn answer<'a, R: Files + Input + Eprint + AllocGlobal + Clock + Threads + Wait + Sync>(
    rt: &R,
    task: &'a Task<'a>,
    voice: Voice,
    papers: &mut Papers<'a>,
) -> Result<Output, Fault>
    ensures { IfOk result (Answers task.now papers.new) }
{
    match task {
        Task::Test(test) => answer_test(rt, test, voice, papers),
        Task::States(states) => match states.log {
            Some(path) => answer_log(rt, states, path, voice, papers),
            None => answer_states(rt, states, voice, papers.forms, papers.inferences),
        },
        Task::Place(place) => answer_place(rt, place, papers),
        Task::Order(order) => answer_order(rt, order, papers),
        Task::Solve(solve) => answer_solve(rt, solve, voice, papers),
        Task::Sites(sites) => answer_sites(rt, sites, voice, papers),
        Task::Audit(audit) => answer_audit(rt, audit, voice, papers),
        Task::AuditSites(audit) => answer_audit_sites(rt, audit, voice, papers),
        Task::Check(check) => answer_check(rt, check, papers),
        Task::CheckSites(check) => answer_check_sites(rt, check, voice, papers),
        Task::Completions(shell) => Ok(Output {
            text: completion_script(rt.alloc(), *shell)?,
            status: Status::Success,
        }),
    }
}

fn answer_test<'a, R: Files + Input + Eprint + AllocGlobal + Threads + Sync>(
    rt: &R,
    test: &'a Test<'a>,
    voice: Voice,
    papers: &mut Papers<'a>,
) -> Result<Output, Fault>
    ensures { IfOk result (AnswersTest test.now) }
{
    match test.expect {
        Some(Expectations::List(path)) => answer_listed(rt, test, path, voice, papers),
        _ => judged_tests(
            rt,
            test,
            voice,
            papers.forms,
            &mut Expecting::Comments,
            papers.inferences,
        ),
    }
}

/// The same where the list at this path says what is expected.
fn answer_listed<'a, R: Files + Input + Eprint + AllocGlobal + Threads + Sync>(
    rt: &R,
    test: &'a Test<'a>,
    path: &'a str,
    voice: Voice,
    papers: &mut Papers<'a>,
) -> Result<Output, Fault>
    requires { IsSome test.now.expect }
    ensures { IfOk result (AnswersTest test.now) }
{
    papers.read_evidence(rt, path, INPUT_LIMIT)?;
    match expecting_of(rt.alloc(), &papers.evidence.bytes) {
        Ok(expecting) => {
            let mut expecting = expecting;
            judged_tests(
                rt,
                test,
                voice,
                papers.forms,
                &mut expecting,
                papers.inferences,
            )
        }
        Err(ListError::Fault(fault)) => Err(fault),
        Err(error) => {
            report(rt, &Failure::BadList(error));
            Ok(refused(rt.alloc()))
        }
    }
}

/// What the list expects.
fn expecting_of(alloc: Global, list: &[u8]) -> Result<Expecting<'_>, ListError> {
    Expecting::by_list(alloc, read_rows(alloc, list)?)
}

/// The same output, with status 1.
fn denied(output: Output) -> Output
    ensures text { result.text ≡ output.text }
    ensures status { result.status ≡ Denied }
{
    Output {
        text: output.text,
        status: Status::Denied,
    }
}

/// No output, with status 2.
pub(crate) fn refused(alloc: Global) -> Output
    ensures text { string_bytes result.text ≡ [] }
    ensures status { result.status ≡ Failed }
{
    Output {
        text: String::new(alloc),
        status: Status::Failure,
    }
}

/// What is said of the files, beside what is expected. Messages come before the lines, and only where there is memory
/// for these. A test of which something is expected and that isn't there counts as one that isn't as expected.
fn judged_tests<R: Files + Input + Eprint + AllocGlobal + Threads + Sync>(
    rt: &R,
    test: &Test<'_>,
    voice: Voice,
    forms: Forms,
    expecting: &mut Expecting<'_>,
    inferences: usize,
) -> Result<Output, Fault>
    ensures { IfOk result (AnswersTest test.now) }
{
    let wants = Wants {
        messages: voice.explains,
        notes: test.json,
        tests: telling_of(test.why).is_some() || test.dot.is_some(),
        forms,
        inferences,
    };
    let files = sources(rt, &test.files)?;
    let judged = judge_files(rt, &files, test.jobs, wants, expecting)?;
    let not_met = expecting.not_met(rt.alloc())?;
    let output = tests_output(rt.alloc(), test, &judged, not_met.is_empty(), inferences)?;
    if let Some(folder) = test.dot {
        draw_tests(rt, folder, test.why, &judged, inferences)?;
    }
    for message in &judged.messages {
        tell(rt, message);
    }
    if test.expect.is_some() && !not_met.is_empty() {
        tell(rt, &not_met);
    }
    Ok(output)
}

/// The lines in print, and what is told below them. Where something is expected, the status is 1 unless all of which it
/// is are there.
fn tests_output(
    alloc: Global,
    test: &Test<'_>,
    judged: &Judged,
    are_there: bool,
    inferences: usize,
) -> Result<Output, Fault>
    requires { AreJudged judged.now.lines.items (map (λ test. test.items) judged.now.tests.items) }
    ensures { IfOk result (AnswersTest test.now) }
{
    let output = lines_output(alloc, test, judged, inferences)?;
    if are_there || test.expect.is_none() {
        return Ok(output);
    }
    Ok(denied(output))
}

/// The lines in print, and what is told below them.
fn lines_output(
    alloc: Global,
    test: &Test<'_>,
    judged: &Judged,
    inferences: usize,
) -> Result<Output, Fault>
    requires { AreJudged judged.now.lines.items (map (λ test. test.items) judged.now.tests.items) }
    ensures { IfOk result (AnswersLines test.now) }
{
    let said = said_output(alloc, test, &judged.lines)?;
    let below = tests_why(
        alloc,
        telling_of(test.why),
        &judged.lines,
        &judged.tests,
        inferences,
    )?;
    let output = with_below(said, &below)?;
    Ok(output)
}

/// The lines in print.
fn said_output(alloc: Global, test: &Test<'_>, lines: &[Line]) -> Result<Output, Fault>
    ensures text { IfOk result (λ output. string_bytes output.text ≡ in_form test.now.json
        (report_text (is_some test.now.expect) lines.now) (json_text (is_some test.now.expect) lines.now)) }
    ensures status { IfOk result (λ output. output.status ≡ report_status (is_some test.now.expect) lines.now) }
{
    let expects = test.expect.is_some();
    if test.json {
        test_objects(alloc, lines, expects)
    } else {
        test_report(alloc, lines, expects)
    }
}

fn answer_place<'a, R: Files + Input + AllocGlobal>(
    rt: &R,
    place: &'a Place<'a>,
    papers: &mut Papers<'a>,
) -> Result<Output, Fault>
    ensures { IfOk result (AnswersPlace place.now papers.new) }
{
    // of words of sites messages know nothing
    if !place.sites {
        papers.fences = &place.fences;
    }
    papers.read_test(rt, place.test)?;
    if let Some(path) = place.prices {
        papers.read_prices(rt, path)?;
    }
    placed(rt.alloc(), place, papers)
}

/// The prices that were read, where some were to be.
fn offered<'p>(place: &Place<'_>, papers: &'p Papers<'_>) -> Option<&'p [u8]>
    ensures { option_copied result ≡ offered place.now papers.now }
{
    match place.prices {
        Some(_) => Some(&papers.prices.bytes),
        None => None,
    }
}

/// The test that was read, with the fences, and with the prices where some were to be read.
fn placed(alloc: Global, place: &Place<'_>, papers: &Papers<'_>) -> Result<Output, Fault>
    ensures text { IfOk result (λ output. IsPlacedText place.now.sites place.now.free papers.now.test.bytes.items
        (offered place.now papers.now) (map string_bytes place.now.fences.items) (string_bytes output.text)) }
    ensures status { IfOk result (λ output. output.status ≡ Success) }
{
    fenced(alloc, place, &papers.test.bytes, offered(place, papers))
}

/// The test with the fences, of slots or of sites.
fn fenced(
    alloc: Global,
    place: &Place<'_>,
    test: &[u8],
    prices: Option<&[u8]>,
) -> Result<Output, Fault>
    ensures text { IfOk result (λ output. IsPlacedText place.now.sites place.now.free test.now
        (option_copied prices.entry) (map string_bytes place.now.fences.items) (string_bytes output.text)) }
    ensures status { IfOk result (λ output. output.status ≡ Success) }
    ensures fault { IfErr result (IsPlaceFault place.now.sites place.now.free test.now (option_copied prices.entry)
        (map string_bytes place.now.fences.items)) }
{
    let words = &place.fences;
    if place.sites {
        run_place_sites(alloc, test, prices, words, place.free)
    } else {
        run_place(alloc, test, prices, words)
    }
}

fn answer_order<'a, R: Files + Input + AllocGlobal>(
    rt: &R,
    order: &'a Order<'a>,
    papers: &mut Papers<'a>,
) -> Result<Output, Fault>
    ensures { IfOk result (AnswersOrder order.now papers.new) }
{
    if !order.sites {
        papers.fences = &order.fences;
    }
    papers.read_test(rt, order.test)?;
    papers.read_evidence(rt, order.witness, INPUT_LIMIT)?;
    let verdict = ordered(rt.alloc(), order, papers)?;
    let below = order_why(rt.alloc(), order.why, papers, &order.fences)?;
    if let Some(folder) = order.dot {
        draw_ordered(rt, folder, papers)?;
    }
    let output = with_below(verdict, &below)?;
    Ok(output)
}

/// The verdict on the witness that was read, in the test with the same fences.
fn ordered(alloc: Global, order: &Order<'_>, papers: &Papers<'_>) -> Result<Output, Fault>
    ensures answer { IfOk result (λ output. IsOrderText order.now.sites order.now.free papers.now.test.bytes.items
        papers.now.evidence.bytes.items (map string_bytes order.now.fences.items) (string_bytes output.text)
        output.status) }
    ensures fault { IfErr result (IsOrderFault order.now.sites order.now.free papers.now.test.bytes.items
        papers.now.evidence.bytes.items (map string_bytes order.now.fences.items)) }
{
    let (test, witness) = (&papers.test.bytes, &papers.evidence.bytes);
    let words = &order.fences;
    if order.sites {
        run_order_sites(alloc, test, witness, words, order.free)
    } else {
        run_order(alloc, test, witness, words)
    }
}

/// While it searches it says how far it is, and wipes that before anything else is printed.
fn answer_solve<'a, R: Files + Input + Eprint + AllocGlobal + Clock + Threads + Wait + Sync>(
    rt: &R,
    solve: &'a Solve<'a>,
    voice: Voice,
    papers: &mut Papers<'a>,
) -> Result<Output, Fault>
    ensures { IfOk result (AnswersSolve solve.now papers.new) }
{
    papers.read_test(rt, solve.test)?;
    papers.read_prices(rt, solve.prices)?;
    let mut progress = Progress::new(rt, voice.shows_progress);
    let found = found(rt, solve, papers, &mut progress);
    progress.wipe();
    let found = found?;
    let output = printed(rt.alloc(), &found, solve.json)?;
    let output = certified(rt, solve, papers, &found, output)?;
    if let Some(folder) = solve.dot {
        draw_found(rt, folder, solve.why, papers, &found)?;
    }
    if voice.notes && found.is_free() {
        note_vacuous(rt, &papers.test.bytes)?;
    }
    let output = said_or_written(rt.alloc(), solve, papers, &found, output)?;
    Ok(output)
}

/// What was said; or, where that is asked for and the answer is fences, the file with these.
fn said_or_written(
    alloc: Global,
    solve: &Solve<'_>,
    papers: &Papers<'_>,
    found: &Found,
    said: Output,
) -> Result<Output, Fault>
    requires found { (limit : ℕ) × IsFound papers.now.test.bytes.items papers.now.prices.bytes.items limit
        (arc_value found.now.question) found.now.solved }
    requires said { IsSolvedAndTold solve.now.json (telling_of solve.now.why) papers.now.test.bytes.items
        papers.now.prices.bytes.items said }
    ensures { IfOk result
        (IsSolveText solve.now papers.now.test.bytes.items papers.now.prices.bytes.items) }
{
    if !solve.write {
        return Ok(said);
    }
    match fenced_file(alloc, &papers.test.bytes, found)? {
        Some(text) => Ok(Output {
            text,
            status: Status::Success,
        }),
        None => Ok(said),
    }
}

/// Is a certificate of the answer asked for, or what one tells?
fn needs_certificate(solve: &Solve<'_>) -> bool
    ensures { result ≡ false → telling_of solve.now.why ≡ None }
{
    telling_of(solve.why).is_some() || solve.certificate.is_some()
}

/// The output, with what is told below it, once the certificate is written: both where they are asked for.
fn certified<R: Files + AllocGlobal>(
    rt: &R,
    solve: &Solve<'_>,
    papers: &Papers<'_>,
    found: &Found,
    output: Output,
) -> Result<Output, Fault>
    requires found { (limit : ℕ) × IsFound papers.now.test.bytes.items papers.now.prices.bytes.items limit
        (arc_value found.now.question) found.now.solved }
    requires answer { IsSolvedIn solve.now.json papers.now.test.bytes.items papers.now.prices.bytes.items
        (lines_of found.now.solved.answer) (string_bytes output.text) output.status }
    requires prints { Prints found.now.solved.answer (lines_of found.now.solved.answer) output.status }
    ensures { IfOk result (IsSolvedAndTold solve.now.json (telling_of solve.now.why) papers.now.test.bytes.items
        papers.now.prices.bytes.items) }
{
    if !needs_certificate(solve) {
        return Ok(output);
    }
    let certificate = found.certificate(rt.alloc())?;
    if let Some(path) = solve.certificate {
        write_whole(rt, path, certificate.as_bytes())?;
    }
    solve_why(
        rt.alloc(),
        telling_of(solve.why),
        output,
        &papers.test.bytes,
        certificate.as_bytes(),
    )
}

/// What was found, in lines or as an object.
fn printed(alloc: Global, found: &Found, is_json: bool) -> Result<Output, Fault>
    ensures answer { IfOk result (λ output. (test prices : List ℕ) (limit : ℕ)
        → IsFound test prices limit (arc_value found.now.question) found.now.solved
        → IsSolvedIn is_json test prices (lines_of found.now.solved.answer) (string_bytes output.text) output.status) }
    ensures prints { IfOk result (λ output.
        Prints found.now.solved.answer (lines_of found.now.solved.answer) output.status) }
{
    let output = found.output(alloc)?;
    if !is_json {
        return Ok(output);
    }
    let object = found.object(alloc)?;
    Ok(Output {
        text: object,
        status: output.status,
    })
}

/// Says on standard error that the test is vacuous, where it is. Then it needs no fence, so of other answers nothing is
/// asked.
fn note_vacuous<R: Files + Eprint + AllocGlobal>(rt: &R, test: &[u8]) -> Result<(), Fault> {
    if let Some(note) = vacuous_note(rt.alloc(), test)? {
        tell(rt, &note);
    }
    Ok(())
}

/// The output, or with its status the object in its place.
pub(crate) fn in_form(output: Output, object: String, is_json: bool) -> Output
    ensures text { string_bytes result.text ≡ in_form is_json (string_bytes output.text) (string_bytes object) }
    ensures status { result.status ≡ output.status }
{
    if is_json {
        Output {
            text: object,
            status: output.status,
        }
    } else {
        output
    }
}

/// The answer to the test and the prices that were read. One worker needs no thread, and its search is proved to end.
fn found<R: Eprint + AllocGlobal + Clock + Threads + Wait + Sync>(
    rt: &R,
    solve: &Solve<'_>,
    papers: &Papers<'_>,
    progress: &mut Progress<'_, R>,
) -> Result<Found, Fault>
    ensures { IfOk result (λ found. (limit : ℕ) × IsFound papers.now.test.bytes.items papers.now.prices.bytes.items
        limit (arc_value found.question) found.solved) }
{
    let (test, prices) = (&papers.test.bytes, &papers.prices.bytes);
    // the command line has no other numbers; here it is said once more for the proof
    let workers = solve.workers.clamp(1, MOST_WORKERS);
    let limits = Limits {
        nodes: solve.nodes.clamp(1, MOST_NODES) as usize,
        inferences: papers.inferences,
    };
    if workers == 1 {
        return run_solve_alone(rt.alloc(), test, prices, limits, progress);
    }
    run_solve(rt, rt.alloc(), test, prices, workers, limits, progress)
}

fn answer_check<'a, R: Files + Input + AllocGlobal>(
    rt: &R,
    check: &'a Check<'a>,
    papers: &mut Papers<'a>,
) -> Result<Output, Fault>
    ensures { IfOk result (AnswersCheck check.now papers.new) }
{
    papers.read_test(rt, check.test)?;
    papers.read_prices(rt, check.prices)?;
    papers.read_evidence(rt, check.certificate, CERTIFICATE_LIMIT)?;
    let checked = checked(rt.alloc(), papers)?;
    let below = answer_why(
        rt.alloc(),
        telling_by(checked.output.status, check.why),
        &papers.test.bytes,
        &papers.evidence.bytes,
    )?;
    draw_checked(rt, check, checked.output.status, papers)?;
    let shown = in_form(checked.output, checked.object, check.json);
    let output = with_below(shown, &below)?;
    Ok(output)
}

/// Draws what is told below a yes, where that is asked for.
fn draw_checked<R: Files + AllocGlobal>(
    rt: &R,
    check: &Check<'_>,
    status: Status,
    papers: &Papers<'_>,
) -> Result<(), Fault> {
    match check.dot {
        Some(folder) if is_yes(status) => {
            draw_certified(rt, folder, check.why, papers, &papers.evidence.bytes)
        }
        _ => Ok(()),
    }
}

/// Which contradictions are to be told below a verdict on a certificate: none below a no.
fn telling_by(status: Status, why: Why<'_>) -> Option<Telling>
    ensures { result ≡ if is_yes status then telling_of why.entry else None }
{
    if is_yes(status) {
        telling_of(why)
    } else {
        None
    }
}

/// The verdict on the certificate that was read.
fn checked(alloc: Global, papers: &Papers<'_>) -> Result<Checked, Fault>
    ensures answer { IfOk result (λ made. IsChecked papers.now.test.bytes.items papers.now.prices.bytes.items
        papers.now.evidence.bytes.items (string_bytes made.output.text) made.output.status) }
    ensures object { IfOk result (λ made. AreOneVerdict (string_bytes made.output.text) (string_bytes made.object)) }
    ensures fault { IfErr result (IsFirstCheckFault papers.now.test.bytes.items papers.now.prices.bytes.items
        papers.now.evidence.bytes.items) }
{
    run_check(
        alloc,
        &papers.test.bytes,
        &papers.prices.bytes,
        &papers.evidence.bytes,
    )
}
