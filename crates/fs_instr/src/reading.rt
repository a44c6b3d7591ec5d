//! Instructions from tokens, by the table.

ghost use Rattle.std.specs.Prelude.{◌≡◌, List, ℕ, Option, Some, None, Ok, IfOk};
ghost use Rattle.fs_instr.specs.Operands.{toks};
ghost use Rattle.fs_instr.specs.Reading.{outcome_of, read_row, read_tokens, is_alone, is_refused};
ghost use Rattle.fs_instr.specs.Spelled.{Answers, Spells};
ghost use Rattle.fs_instr.specs.OfTable.{IsOfTable};
ghost use Rattle.fs_instr.specs.declared.instr.Instr.{Instr};

use crate::instr::{Instr, build, parts};
use crate::names::{Ann, Op};
use crate::operands::read_parts;
use fs_litmus_tokens::{Kind, Token};

/// An instruction as read; a branch or a jump has the target 0 still, and the label that it names.
#[derive(Clone, Copy)]
pub struct Parsed<'a> {
    pub instr: Instr,
    pub label: Option<&'a str>,
}

/// Why tokens are no instruction.
#[derive(Clone, Copy)]
pub enum Refused {
    /// They don't begin with a word, or the table has the name with operands of another shape or range.
    Form,
    /// They begin with a word that is no name of the table.
    Name,
    /// `lr.w.rl`, `lw.rl`, `sc.w.aq` or `sw.aq`, which this profile leaves out, with operands of the right shape.
    Suffix,
}

fn is_refused(op: Op) -> bool
    ensures { result ≡ is_refused op }
{
    match op {
        Op::Lw(ann) | Op::Lr(ann) => !ann.acquire && ann.release,
        Op::Sw(ann) | Op::Sc(ann) => ann.acquire && !ann.release,
        _ => false,
    }
}

/// A fence with no letters is a row of its own.
fn row(op: Op, alone: bool) -> Op
    ensures { result ≡ is_alone op alone }
{
    match op {
        Op::Fence => { if alone { Op::FenceAll } else { Op::Fence } }
        other => other,
    }
}

#[tactic(auto, unfolding(crate::specs::Reading::read_row))]
fn read_row<'a>(op: Op, tokens: &[Token<'a>]) -> Result<Parsed<'a>, Refused>
    ensures { outcome_of result ≡ read_row op (toks tokens.now) }
{
    let op = row(op, tokens.is_empty());
    match read_parts(parts(op), tokens) {
        None => Err(Refused::Form),
        Some((operands, label)) => {
            if is_refused(op) {
                return Err(Refused::Suffix);
            }
            Ok(Parsed {
                instr: build(op, operands),
                label,
            })
        }
    }
}

#[tactic(auto, unfolding(crate::specs::Reading::read_tokens))]
fn read_named<'a>(tokens: &[Token<'a>]) -> Result<Parsed<'a>, Refused>
    ensures { outcome_of result ≡ read_tokens (toks tokens.now) }
{
    match tokens.split_first() {
        Some((token, rest)) => match token.kind {
            Kind::Word(_, word) => match Op::of(word) {
                Some(op) => read_row(op, rest),
                None => Err(Refused::Name),
            },
            _ => Err(Refused::Form),
        },
        None => Err(Refused::Form),
    }
}

/// The instruction that these tokens spell, without labels in front; else why they spell none (herd7's format, with the
/// instructions of the table). Takes no memory; linear in the tokens, of which it reads fewer than 20.
pub fn read_tokens<'a>(tokens: &[Token<'a>]) -> Result<Parsed<'a>, Refused>
    ensures answers { Answers (toks tokens.now) (outcome_of result) }
    // It is one of the table: operands in range, annotations that the table lists.
    ensures table { IfOk result (λ p. IsOfTable p.instr) }
    // No tokens spell two instructions.
    ensures only { (i : Instr) (l : Option (List ℕ)) → Spells (toks tokens.now) i l → outcome_of result ≡ Ok (i, l) }
{
    read_named(tokens)
}
