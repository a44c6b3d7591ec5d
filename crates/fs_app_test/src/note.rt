//! The note that `solve` gives of a test that is vacuous.

ghost use Rattle.std.specs.Prelude.{◌≡◌, ◌≢◌, ◌++◌, codes, IfOk, IfErr, IfSome, IfNone, string_bytes};
ghost use Rattle.std.specs.Arc.{arc_value};
ghost use Rattle.fs_kinds.specs.declared.fault.Fault.TheVariants.{Memory};
ghost use Rattle.fs_model.specs.Test.{IsTest};
ghost use Rattle.fs_model.specs.TooMany.{IsRunFault};
ghost use Rattle.fs_app_test.specs.Notes.{IsNoted, IsSerious, Notes, note_line};
ghost use Rattle.fs_app_test.specs.SaidVerdicts.{MayBeSerious};
ghost use Rattle.fs_app_test.specs.Verdicts.{IsFirstTestFault};

use crate::Said;
use crate::judged::shared;
use crate::vacuous::{Vacuity, vacuous};
use fs_kinds::Fault;
use fs_litmus::read_test;
use fs_model::Test;
use fs_region_refutation::Basis;
use std::alloc::{AllocError, Global};

/// A line that says of a test file that its test is vacuous, and why, as `test` does. None where it isn't, or where
/// that is left open. The cost is that of `read_test`, of `Basis::new`, and of `is_vacuous` of
/// fs_judge_outcomes.
///
/// The first fault in this order: those of a test file by number and then line; `TooManyTraces` and `Astray`. `Memory`
/// may come in place of any answer.
pub fn vacuous_note(alloc: Global, bytes: &[u8]) -> Result<Option<String>, Fault>
    ensures some { IfOk result (λ found. IfSome found (λ text. IsNoted bytes.now (string_bytes text))) }
    ensures none { IfOk result (λ found. IfNone found (IsSerious bytes.now)) }
    ensures fault { IfErr result (IsFirstTestFault bytes.now) }
{
    let test = read_test(alloc, bytes)?;
    note_of(alloc, test)
}

/// The note of the test, where it is vacuous.
fn note_of(alloc: Global, test: Test) -> Result<Option<String>, Fault>
    requires { IsTest test }
    ensures some { IfOk result (λ found. IfSome found (λ text. Notes test (string_bytes text))) }
    ensures none { IfOk result (λ found. IfNone found (MayBeSerious test)) }
    ensures err { IfErr result (λ f. f ≢ Memory → IsRunFault test f) }
{
    let test = shared(alloc, test)?;
    let basis = Basis::new(alloc, &test)?;
    match vacuous(alloc, &test, &basis)? {
        Vacuity::Vacuous(said) => Ok(Some(note(alloc, &said)?)),
        Vacuity::Serious => Ok(None),
        Vacuity::Open => Ok(None),
    }
}

/// What is said of the test as a note.
fn note(alloc: Global, said: &Said) -> Result<String, AllocError>
    ensures { IfOk result (λ text. string_bytes text ≡ note_line (string_bytes said.now.why)) }
{
    format!(in alloc; "note: vacuous: {}\n", said.why.as_str())
}
