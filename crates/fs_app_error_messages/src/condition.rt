//! Which token of a test file a fault of its condition is of.

ghost use Rattle.std.specs.Prelude.{◌≡◌, ◌+◌, ◌<◌, ◌≤◌, ℕ, List, length, IfErr, IfOk, IfSome, IsNone, None};
ghost use Rattle.fs_litmus_tokens.specs.Tokens.{Lined, views};
ghost use Rattle.fs_litmus_tokens.specs.Sections.{Takes};
ghost use Rattle.fs_litmus_syntax.specs.Reading.{IsEnd};
ghost use Rattle.fs_litmus_syntax.specs.Form.{Form, IsForm};
ghost use Rattle.fs_litmus_syntax.specs.Grammar.{Syntax, IsCondition};
ghost use Rattle.fs_litmus.specs.Faults.{IsText};
ghost use Rattle.fs_litmus.specs.inner.Sections.{IsTextStop};
ghost use Rattle.fs_app_error_messages.specs.Atoms.{HasNoBadAtom, IsBadAtom};

use crate::atoms::bad_atom;
use fs_litmus_syntax::{read_condition, read_form};
use fs_litmus_tokens::{Stop, Token};
use std::alloc::{AllocError, Global};

/// Nothing, unless memory was refused.
fn nothing(stop: Stop<'_, '_>) -> Result<Option<usize>, AllocError>
    ensures none { IfOk result (λ o. o ≡ None) }
    ensures stopped { IfOk result (λ o. (ts : List Lined) → IsTextStop ts stop.entry → (s : Syntax) → ¬ IsText ts s) }
{
    match stop {
        Stop::Memory => Err(AllocError),
        Stop::At(_) => Ok(None),
    }
}

/// How many columns a test file has, and the tokens of its condition.
fn read_columns<'b, 'a>(
    alloc: Global,
    tokens: &'b [Token<'a>],
) -> Result<(usize, &'b [Token<'a>]), Stop<'b, 'a>>
    ensures ok { IfOk result (λ x. (form : Form) × (form.columns ≡ x.0)
        × Takes IsForm (views tokens.now) form (views x.1.now)) }
    ensures rest { IfOk result (λ x. IsEnd tokens.now x.1.now) }
    ensures condition { IfOk result (λ x. (s : Syntax) × IsCondition (views x.1.now) s) }
    ensures stops { IfErr result (IsTextStop (views tokens.now)) }
{
    let (form, rest) = read_form(alloc, tokens)?;
    let _condition = read_condition(alloc, rest)?;
    Ok((form.columns, rest))
}

/// The number, among these tokens, of one that has this number in the rest.
fn whole_number(tokens: &[Token<'_>], rest: &[Token<'_>], number: usize) -> usize
    requires rest { length rest.now ≤ length tokens.now }
    requires number { number < length rest.now }
    ensures { result + length rest.now ≡ length tokens.now + number }
{
    tokens.len() - rest.len() + number
}

/// The number of the token with which the first atom of the condition begins that can't be true or false, since a hart
/// or a register isn't there or a number is out of range. Linear in the tokens.
pub(crate) fn atom_number(alloc: Global, tokens: &[Token<'_>]) -> Result<Option<usize>, AllocError>
    ensures found { IfOk result (λ o. IfSome o (IsBadAtom (views tokens.now))) }
    ensures absent { IfOk result (λ o. IsNone o → HasNoBadAtom (views tokens.now)) }
    ensures within { IfOk result (λ o. IfSome o (λ n. n < length tokens.now)) }
{
    let (columns, rest) = match read_columns(alloc, tokens) {
        Ok(read) => read,
        Err(stop) => return nothing(stop),
    };
    match bad_atom(columns, rest) {
        Some(before) => Ok(Some(whole_number(tokens, rest, before))),
        None => Ok(None),
    }
}
