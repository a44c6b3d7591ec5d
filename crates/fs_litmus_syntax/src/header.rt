//! The header row.

ghost use Rattle.std.specs.Prelude.{◌≡◌, ◌+◌, ◌^◌, ◌<◌, ◌≤◌, IfOk, IfErr};
ghost use Rattle.fs_litmus_tokens.specs.Tokens.{kind_of, views};
ghost use Rattle.fs_litmus_tokens.specs.Sections.{Takes};
ghost use Rattle.fs_litmus_syntax.specs.Reading.{IsEnd, Refuses};
ghost use Rattle.fs_litmus_syntax.specs.Header.{IsHeader, is_column, next_in, column_of, column_after, move_of};

use fs_litmus_tokens::{Kind, Mark, Stop, Token};
use std::alloc::{AllocError, Global};

/// What was read last: which column's word, or the mark before it.
#[derive(Clone, Copy)]
pub enum Position {
    BeforeWord(usize),
    AfterWord(usize),
}

/// What one more token does.
#[derive(Clone, Copy)]
pub enum Transition {
    Go(Position),
    Finish(usize),
    Bad,
}

/// Is this the column's word, P and its number?
fn is_column(alloc: Global, column: usize, word: &str) -> Result<bool, AllocError>
    ensures { IfOk result (λ b. b ≡ is_column column word.now) }
{
    let expected = format!(in alloc; "P{column}")?;
    Ok(word == expected.as_str())
}

/// One more token.
fn take(alloc: Global, position: Position, token: Kind) -> Result<Transition, AllocError>
    requires { column_of position + 1 < 2 ^ 64 }
    ensures value { IfOk result (λ s. move_of s ≡ next_in position (kind_of token.entry)) }
    ensures small { IfOk result (λ s. column_after s ≤ column_of position + 1) }
{
    match position {
        Position::BeforeWord(column) => match token {
            Kind::Word(_, word) => {
                if is_column(alloc, column, word)? {
                    Ok(Transition::Go(Position::AfterWord(column)))
                } else {
                    Ok(Transition::Bad)
                }
            }
            _ => Ok(Transition::Bad),
        },
        Position::AfterWord(column) => match token {
            Kind::Sign(Mark::Semicolon) => Ok(Transition::Finish(column + 1)),
            Kind::Sign(Mark::Bar) => Ok(Transition::Go(Position::BeforeWord(column + 1))),
            _ => Ok(Transition::Bad),
        },
    }
}

/// How many columns the header row `P0 | P1 | .. ;` at the front of the tokens has, at least one, and the tokens after
/// it. The numbers have no leading zeros. Linear in the tokens; fails for want of memory, or at the first token with
/// which no such row begins.
pub fn read_header<'b, 'a>(
    alloc: Global,
    tokens: &'b [Token<'a>],
) -> Result<(usize, &'b [Token<'a>]), Stop<'b, 'a>>
    ensures ok { IfOk result (λ x. Takes IsHeader (views tokens.now) x.0 (views x.1.now)) }
    ensures some { IfOk result (λ x. 0 < x.0) }
    ensures bad { IfErr result (Refuses IsHeader tokens.now) }
    ensures rest { IfOk result (λ x. IsEnd tokens.now x.1.now) }
{
    let mut position = Position::BeforeWord(0);
    for (i, token) in tokens.iter().enumerate() {
        match take(alloc, position, token.kind)? {
            Transition::Go(next) => position = next,
            Transition::Finish(columns) => return Ok((columns, &tokens[i + 1..])),
            Transition::Bad => return Err(Stop::At(&tokens[i..])),
        }
    }
    Err(Stop::At(&tokens[tokens.len()..]))
}
