//! What is told below answers, where `--why` asks for it.

ghost use Rattle.std.specs.Prelude.{◌≡◌, ◌++◌, ℕ, Bool, true, List, [], IfOk, OnOk, codes, map, string_bytes};
ghost use Rattle.std.specs.List.{slice_index_or};
ghost use Rattle.fs_app_test.specs.Judging.{AreJudged, IsJudged};
ghost use Rattle.fs_app_solve_and_check.specs.Solve.{IsCertified};
ghost use Rattle.fs_app_test.specs.Report.{shown_name};
ghost use Rattle.fs_app_test.specs.SaidVerdicts.{witness_in};
ghost use Rattle.fs_app_why.specs.Why.{IsCertifiedWhy, IsOrderWhy};
ghost use Rattle.fs_app.specs.Answers.{IsSolvedAndTold, IsSolvedIn};
ghost use Rattle.fs_app.specs.Telling.{AreTold, IsBlock, IsForbiddenBlock, IsTestTold, IsTold, IsToldBy};
ghost use Rattle.fs_app.specs.Telling.{is_allowed, is_forbidden, is_yes, named, telling_of};

use fs_app_command_line::Why;
use fs_app_error_messages::shown_name;
use fs_app_io::{Output, Status};
use fs_app_test::{Kind, Line, Papers};
use fs_app_why::{Telling, why_allowed, why_certified, why_forbidden, why_order};
use fs_kinds::Fault;
use std::alloc::{AllocError, Global};

/// The output with this text below its own.
pub(crate) fn with_below(output: Output, below: &String) -> Result<Output, Fault>
    ensures text { IfOk result (λ made.
        string_bytes made.text ≡ string_bytes output.text ++ string_bytes below.now) }
    ensures status { IfOk result (λ made. made.status ≡ output.status) }
{
    let Output { mut text, status } = output;
    text.push_str(below.as_str())?;
    Ok(Output { text, status })
}

/// Which contradictions are to be told, where any are.
pub(crate) fn telling_of(why: Why<'_>) -> Option<Telling>
    ensures { result ≡ telling_of why.entry }
{
    match why {
        Why::Untold | Why::Unclear(_) => None,
        Why::Few => Some(Telling::Few),
        Why::All => Some(Telling::All),
        Why::Fence { hart, at } => Some(Telling::One { hart, at }),
    }
}

/// Is the answer yes?
pub(crate) fn is_yes(status: Status) -> bool
    ensures { result ≡ is_yes status }
{
    match status {
        Status::Success => true,
        Status::Denied | Status::Failure | Status::OutOfMemory | Status::Vacuous => false,
    }
}

/// What is told below the verdict on the witness that was read.
pub(crate) fn order_why(
    alloc: Global,
    why: bool,
    papers: &Papers<'_>,
    words: &[String],
) -> Result<String, Fault>
    ensures { IfOk result (λ text. IsTold why (IsOrderWhy papers.now.test.bytes.items
        papers.now.evidence.bytes.items (map string_bytes words.now)) (string_bytes text)) }
{
    if !why {
        return Ok(String::new(alloc));
    }
    why_order(alloc, &papers.test.bytes, &papers.evidence.bytes, words)
}

/// What is told below an answer with this certificate.
pub(crate) fn answer_why(
    alloc: Global,
    asked: Option<Telling>,
    test: &[u8],
    certificate: &[u8],
) -> Result<String, Fault>
    ensures { IfOk result (λ text.
        IsToldBy asked (λ telling. IsCertifiedWhy telling test.now certificate.now) (string_bytes text)) }
{
    match asked {
        Some(telling) => why_certified(alloc, telling, test, certificate),
        None => Ok(String::new(alloc)),
    }
}

/// The output of `solve`, with what is told below it by this certificate of its answer.
pub(crate) fn solve_why(
    alloc: Global,
    asked: Option<Telling>,
    output: Output,
    test: &[u8],
    certificate: &[u8],
) -> Result<Output, Fault>
    ensures { (is_json : Bool) (prices lines : List ℕ)
        → IsSolvedIn is_json test.now prices lines (string_bytes output.text) output.status
        → IsCertified test.now prices lines output.status certificate.now
        → IfOk result (IsSolvedAndTold is_json asked test.now prices) }
{
    let below = answer_why(alloc, asked, test, certificate)?;
    let told = with_below(output, &below)?;
    Ok(told)
}

/// Appends what is told below the name.
fn push_below(name: &str, told: &str, text: &mut String) -> Result<(), AllocError>
    ensures { OnOk result (string_bytes text.new ≡ string_bytes text.old ++ (codes "\n" ++ (name.now ++ told.now))) }
{
    write!(text, "\n{}{}", name, told)
}

/// Appends what is told below the name in the line, as it is shown.
fn push_named(alloc: Global, line: &Line, told: &str, text: &mut String) -> Result<(), AllocError>
    ensures { OnOk result (string_bytes text.new
        ≡ string_bytes text.old ++ (codes "\n" ++ (shown_name line.now ++ told.now))) }
{
    let name = shown_name(alloc, line.name.as_str())?;
    push_below(name.as_str(), told, text)
}

/// Is the outcome allowed?
fn is_allowed(kind: Kind) -> bool
    ensures { result ≡ is_allowed kind }
{
    match kind {
        Kind::Allowed => true,
        Kind::Forbidden | Kind::Vacuous | Kind::Faulty => false,
    }
}

/// Appends what is told of a test that allows its outcome: below its name an execution of the witness in its line.
fn push_shown(alloc: Global, line: &Line, test: &[u8], text: &mut String) -> Result<(), Fault>
    requires judged { IsJudged line.now test.now }
    requires allowed { is_allowed line.now.said.kind ≡ true }
    ensures { OnOk result ((told : List ℕ)
        × IsBlock (shown_name line.now) (witness_in line.now.said.witness) test.now told
        × (string_bytes text.new ≡ string_bytes text.old ++ told)) }
{
    let Some(witness) = &line.said.witness else {
        unreachable!()
    };
    let (choices, order) = (witness.choices.as_slice(), witness.order.as_slice());
    match why_allowed(alloc, test, choices, order)? {
        Some(told) => Ok(push_named(alloc, line, told.as_str(), text)?),
        None => unreachable!(),
    }
}

/// Is the outcome forbidden?
fn is_forbidden(kind: Kind) -> bool
    ensures { result ≡ is_forbidden kind }
{
    match kind {
        Kind::Forbidden => true,
        Kind::Allowed | Kind::Vacuous | Kind::Faulty => false,
    }
}

/// Appends what is told below the name in the line, if there is any.
fn push_some(alloc: Global, line: &Line, told: &str, text: &mut String) -> Result<(), AllocError>
    ensures { OnOk result (string_bytes text.new
        ≡ string_bytes text.old ++ named (shown_name line.now) told.now) }
{
    if told.is_empty() {
        return Ok(());
    }
    push_named(alloc, line, told, text)
}

/// Appends what is told of a test that forbids its outcome: below its name why that is so.
fn push_forbidden(
    alloc: Global,
    telling: Telling,
    line: &Line,
    test: &[u8],
    text: &mut String,
    inferences: usize,
) -> Result<(), Fault>
    requires judged { IsJudged line.now test.now }
    requires forbidden { is_forbidden line.now.said.kind ≡ true }
    ensures { OnOk result ((told : List ℕ) × IsForbiddenBlock telling (shown_name line.now) test.now told
        × (string_bytes text.new ≡ string_bytes text.old ++ told)) }
{
    match why_forbidden(alloc, telling, test, inferences)? {
        Some(told) => Ok(push_some(alloc, line, told.as_str(), text)?),
        None => unreachable!(),
    }
}

/// Appends what is told of the test that has this line: nothing where its outcome is neither allowed nor forbidden.
fn push_told(
    alloc: Global,
    telling: Telling,
    line: &Line,
    test: &[u8],
    text: &mut String,
    inferences: usize,
) -> Result<(), Fault>
    requires { IsJudged line.now test.now }
    ensures { OnOk result ((told : List ℕ) × IsTestTold telling line.now test.now told
        × (string_bytes text.new ≡ string_bytes text.old ++ told)) }
{
    if is_allowed(line.said.kind) {
        return push_shown(alloc, line, test, text);
    }
    if is_forbidden(line.said.kind) {
        return push_forbidden(alloc, telling, line, test, text, inferences);
    }
    Ok(())
}

/// The bytes of the test of this number; none where there is no such test.
pub(crate) fn test_at(tests: &[Vec<u8>], number: usize) -> &[u8]
    ensures { result.now ≡ slice_index_or (map (λ test. test.items) tests.now) number [] }
{
    if number < tests.len() {
        tests[number].as_slice()
    } else {
        &[]
    }
}

/// What is told of the tests that have these lines.
fn all_told(
    alloc: Global,
    telling: Telling,
    lines: &[Line],
    tests: &[Vec<u8>],
    inferences: usize,
) -> Result<String, Fault>
    requires { AreJudged lines.now (map (λ test. test.items) tests.now) }
    ensures { IfOk result (λ text.
        AreTold telling lines.now (map (λ test. test.items) tests.now) (string_bytes text)) }
{
    let mut text = String::new(alloc);
    for (number, line) in lines.iter().enumerate() {
        push_told(
            alloc,
            telling,
            line,
            test_at(tests, number),
            &mut text,
            inferences,
        )?;
    }
    Ok(text)
}

/// What is told below the lines of these tests.
pub(crate) fn tests_why(
    alloc: Global,
    asked: Option<Telling>,
    lines: &[Line],
    tests: &[Vec<u8>],
    inferences: usize,
) -> Result<String, Fault>
    requires { AreJudged lines.now (map (λ test. test.items) tests.now) }
    ensures { IfOk result (λ text. IsToldBy asked
        (λ telling. AreTold telling lines.now (map (λ test. test.items) tests.now)) (string_bytes text)) }
{
    match asked {
        Some(telling) => all_told(alloc, telling, lines, tests, inferences),
        None => Ok(String::new(alloc)),
    }
}
