//! Reads a test file.

ghost use Rattle.std.specs.Prelude.{◌≡◌, ◌≢◌, IfOk, IfErr};
ghost use Rattle.fs_litmus_syntax.specs.Body.{cells_of, flatten};
ghost use Rattle.fs_litmus_syntax.specs.Form.{form_of};
ghost use Rattle.fs_model.specs.Test.{IsTest, IsSame};
ghost use Rattle.fs_model.specs.declared.test.Test as tests;
ghost use Rattle.fs_litmus_tokens.specs.Tokens.{views};
ghost use Rattle.fs_kinds.specs.declared.fault.Fault as faults;
ghost use Rattle.fs_litmus.specs.Faults.{HasFault, IsTestFault};
ghost use Rattle.fs_litmus.specs.inner.Sections.{AreSections, IsTextStop, fault_of};
ghost use Rattle.fs_litmus.specs.Reads.{Reads};

use crate::meaning::interpret;
use crate::title::{Body, last_line, read_title, skip_title};
use fs_kinds::Fault;
use fs_litmus_syntax::{Condition, Form, read_condition, read_form};
use fs_litmus_tokens::{Stop, Token, tokens};
use fs_model::Test;
use std::alloc::Global;

/// The fault where the tokens stop being of the form: in the line of the first that can't stand there, or in the last
/// line.
pub(crate) fn stopped(stop: Stop, last: usize) -> Fault
    ensures { result ≡ fault_of stop.entry last }
{
    match stop {
        Stop::Memory => Fault::Memory,
        Stop::At(rest) => match rest.first() {
            Some(token) => Fault::Syntax { line: token.line },
            None => Fault::Syntax { line: last },
        },
    }
}

/// The sections and the condition that the tokens are, all of them.
pub(crate) fn read_sections<'b, 'a>(
    alloc: Global,
    tokens: &'b [Token<'a>],
) -> Result<(Form<'b, 'a>, Condition<'a>), Stop<'b, 'a>>
    ensures ok { IfOk result (λ x. AreSections (views tokens.now) (form_of x.0) x.1) }
    ensures whole { IfOk result (λ x. cells_of x.0.cells.items ≡ flatten (form_of x.0).rows) }
    ensures stops { IfErr result (IsTextStop (views tokens.now)) }
{
    let (form, rest) = read_form(alloc, tokens)?;
    let condition = read_condition(alloc, rest)?;
    Ok((form, condition))
}

/// The litmus test that the bytes of a file in herd7's format for RISC-V read as.
///
/// The faults, of which the one of least number is given, and of that number the least line: F1 not UTF-8; F2 the
/// title's line; F3 the form of the text, or of a cell; F4 an unknown mnemonic; F5 `lr.w.rl` or `sc.w.aq`; F6 a label;
/// F7 an initial value; F8 an atom of the condition; F9 a limit, the first of harts, instructions, accesses, locations
/// and depth. F19 where memory was refused. Linear in the bytes.
pub fn read_test(alloc: Global, bytes: &[u8]) -> Result<Test, Fault>
    // The bytes read as this test.
    ensures ok { IfOk result (Reads bytes.now) }
    // They read as no other.
    ensures once { IfOk result (λ t. (u : tests.Test) → Reads bytes.now u → IsSame t u) }
    // It is a test in all its parts.
    ensures test { IfOk result IsTest }
    // Then the file has no fault.
    ensures clean { IfOk result (λ t. (f : faults.Fault) → ¬ HasFault bytes.now f) }
    // Else the first fault of the file is given.
    ensures err { IfErr result (λ f. f ≢ Fault.Memory → IsTestFault bytes.now f) }
{
    let Ok(content) = str::from_utf8(bytes) else {
        return Err(Fault::BadUtf8);
    };
    let Some(title) = read_title(content) else {
        return Err(Fault::NotRiscv);
    };
    let last = last_line(bytes);
    let Some(Body { text, line }) = skip_title(bytes) else {
        return Err(Fault::Syntax { line: last });
    };
    let (tokens, closed) = tokens(alloc, text, line)?;
    let (form, condition) = match read_sections(alloc, &tokens) {
        Ok(sections) => sections,
        Err(stop) => return Err(stopped(stop, last)),
    };
    if !closed {
        return Err(Fault::Syntax { line: last });
    }
    interpret(alloc, title, &form, &condition)
}
