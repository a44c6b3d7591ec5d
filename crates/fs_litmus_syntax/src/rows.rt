//! The rows of cells, the locations and the quantifier.

ghost use Rattle.std.specs.Prelude.{◌≡◌, ◌+◌, ◌-◌, ◌<◌, ◌≤◌, length, slice_range, slice_index_or, option_map, IfOk};
ghost use Rattle.std.specs.Prelude.{IfErr};
ghost use Rattle.fs_litmus_tokens.specs.Tokens.{view, kind_of, views};
ghost use Rattle.fs_litmus_tokens.specs.Sections.{Takes};
ghost use Rattle.fs_litmus_syntax.specs.Reading.{IsEnd, Refuses};
ghost use Rattle.fs_litmus_syntax.specs.Body.{IsBody, flatten, cells_of};
ghost use Rattle.fs_litmus_syntax.specs.Rows.{body_of, position_of, turn_of, move_of, IsFine, IsFineTransition};
ghost use Rattle.fs_litmus_syntax.specs.Rows.{cell_token_of, quantifier_begun, rows_stopped, after_rows, cell_next};
ghost use Rattle.fs_litmus_syntax.specs.Rows.{next_in};

use fs_litmus_tokens::{Class, Kind, Mark, Stop, Token};
use std::alloc::{AllocError, Global};

/// What a test asks of its condition: that it may hold, that it can't, or that it always does.
#[derive(Clone, Copy)]
pub enum Quantifier {
    Exists,
    NotExists,
    Forall,
}

/// The cells, row after row, and the quantifier. A cell is the cell_token of the tokens that it takes.
#[derive(Drop)]
pub struct Body<'b, 'a> {
    pub cells: Vec<&'b [Token<'a>]>,
    pub quantifier: Quantifier,
}

/// What was read last, after the rows.
#[derive(Clone, Copy)]
pub enum Tail {
    AfterLocationsWord,
    InLocations,
    BeforeQuantifier,
    AfterTilde,
}

/// What one more token does after the rows.
#[derive(Clone, Copy)]
pub enum Turn {
    Go(Tail),
    Finish(Quantifier),
    Bad,
}

/// What was read last.
#[derive(Clone, Copy)]
pub enum Position {
    BeforeRow,
    /// In a cell with so many cells after it in its row, which begins at an index.
    InCell(usize, usize),
    InTail(Tail),
}

/// What one more token does.
#[derive(Clone, Copy)]
pub enum Transition {
    Go(Position),
    Finish(Quantifier),
    Bad,
}

/// What a token is in a row.
#[derive(Clone, Copy)]
pub enum CellToken {
    Plain,
    Bar,
    Semicolon,
    Strange,
}

fn cell_token_of(token: Kind) -> CellToken
    ensures { result ≡ cell_token_of (kind_of token.entry) }
{
    match token {
        Kind::Sign(Mark::Bar) => CellToken::Bar,
        Kind::Sign(Mark::Semicolon) => CellToken::Semicolon,
        Kind::Strange => CellToken::Strange,
        _ => CellToken::Plain,
    }
}

/// The first token of the quantifier.
fn begin_quantifier(token: Kind) -> Turn
    ensures { turn_of result ≡ quantifier_begun (kind_of token.entry) }
{
    match token {
        Kind::Word(Class::ExistsWord, _) => Turn::Finish(Quantifier::Exists),
        Kind::Word(Class::ForallWord, _) => Turn::Finish(Quantifier::Forall),
        Kind::Sign(Mark::Tilde) => Turn::Go(Tail::AfterTilde),
        _ => Turn::Bad,
    }
}

/// What a token does that stops the rows.
fn stop_rows(token: Kind) -> Option<Turn>
    ensures { option_map turn_of result ≡ rows_stopped (kind_of token.entry) }
{
    match token {
        Kind::Word(Class::LocationsWord, _) => Some(Turn::Go(Tail::AfterLocationsWord)),
        Kind::Word(Class::ExistsWord, _) => Some(Turn::Finish(Quantifier::Exists)),
        Kind::Word(Class::ForallWord, _) => Some(Turn::Finish(Quantifier::Forall)),
        Kind::Sign(Mark::Tilde) => Some(Turn::Go(Tail::AfterTilde)),
        _ => None,
    }
}

/// A token after the rows.
fn take_after(tail: Tail, token: Kind) -> Turn
    ensures { turn_of result ≡ after_rows tail (kind_of token.entry) }
{
    match tail {
        Tail::AfterLocationsWord => match token {
            Kind::Sign(Mark::OpenBracket) => Turn::Go(Tail::InLocations),
            _ => Turn::Bad,
        },
        Tail::InLocations => match token {
            Kind::Sign(Mark::CloseBracket) => Turn::Go(Tail::BeforeQuantifier),
            Kind::Strange => Turn::Bad,
            _ => Turn::Go(Tail::InLocations),
        },
        Tail::BeforeQuantifier => begin_quantifier(token),
        Tail::AfterTilde => match token {
            Kind::Word(Class::ExistsWord, _) => Turn::Finish(Quantifier::NotExists),
            _ => Turn::Bad,
        },
    }
}

/// A token at an index, in a cell that begins at start.
fn take_in_cell<'b, 'a>(
    cells: &mut Vec<&'b [Token<'a>]>,
    tokens: &'b [Token<'a>],
    left: usize,
    start: usize,
    at: usize,
    token: Token<'a>,
) -> Result<Transition, AllocError>
    requires order { start ≤ at }
    requires within { at < length tokens.now }
    requires item { slice_index_or tokens.now at token ≡ token }
    ensures value { IfOk result (λ s. move_of tokens.now (at + 1) cells.new.items s
        ≡ cell_next left (views (slice_range tokens.now start at)) (cells_of cells.old.items) (view token.entry)) }
    ensures fine { IfOk result (IsFineTransition (at + 1)) }
{
    match cell_token_of(token.kind) {
        CellToken::Bar => {
            if left == 0 {
                return Ok(Transition::Bad);
            }
            cells.push(&tokens[start..at])?;
            Ok(Transition::Go(Position::InCell(left - 1, at + 1)))
        }
        CellToken::Semicolon => {
            if left != 0 {
                return Ok(Transition::Bad);
            }
            cells.push(&tokens[start..at])?;
            Ok(Transition::Go(Position::BeforeRow))
        }
        CellToken::Strange => Ok(Transition::Bad),
        CellToken::Plain => Ok(Transition::Go(Position::InCell(left, start))),
    }
}

impl From<Turn> for Transition {
    ghost use Rattle.std.specs.Prelude.{◌≡◌};
    ghost use Rattle.fs_litmus_syntax.specs.Rows.{transition_from};

    ghost from_gives = { λ t s. s ≡ transition_from t };

    fn from(turn: Turn) -> Self {
        match turn {
            Turn::Go(tail) => Transition::Go(Position::InTail(tail)),
            Turn::Finish(quantifier) => Transition::Finish(quantifier),
            Turn::Bad => Transition::Bad,
        }
    }
}

/// A token at an index.
fn take<'b, 'a>(
    cells: &mut Vec<&'b [Token<'a>]>,
    tokens: &'b [Token<'a>],
    columns: usize,
    position: Position,
    at: usize,
    token: Token<'a>,
) -> Result<Transition, AllocError>
    requires some { 0 < columns }
    requires within { at < length tokens.now }
    requires item { slice_index_or tokens.now at token ≡ token }
    requires fine { IsFine at position }
    ensures value { IfOk result (λ s. move_of tokens.now (at + 1) cells.new.items s
        ≡ next_in (columns - 1) (position_of tokens.now at position) (cells_of cells.old.items) (view token.entry)) }
    ensures fine { IfOk result (IsFineTransition (at + 1)) }
{
    match position {
        Position::BeforeRow => match stop_rows(token.kind) {
            Some(turn) => Ok(turn.into()),
            None => take_in_cell(cells, tokens, columns - 1, at, at, token),
        },
        Position::InCell(left, start) => take_in_cell(cells, tokens, left, start, at, token),
        Position::InTail(tail) => Ok(take_after(tail, token.kind).into()),
    }
}

/// The rows at the front of the tokens, each of as many cells as there are columns, and the quantifier; then the tokens
/// after it. Cells are split by `|`, a row ends with `;`, and a cell is any tokens but these and characters of no
/// token. Rows stop where one would begin with locations, exists, forall or `~`. Before the quantifier may stand the
/// word locations and any tokens in brackets, which are skipped. Linear in the tokens; 16 bytes of memory a cell; fails
/// for want of memory, or at the first token with which no such rows and quantifier begin.
pub fn read_body<'b, 'a>(
    alloc: Global,
    tokens: &'b [Token<'a>],
    columns: usize,
) -> Result<(Body<'b, 'a>, &'b [Token<'a>]), Stop<'b, 'a>>
    requires { 0 < columns }
    ensures ok { IfOk result (λ x. Takes (IsBody columns) (views tokens.now) (body_of columns x.0) (views x.1.now)) }
    // No cell is left over that isn't in a row.
    ensures whole { IfOk result (λ x. cells_of x.0.cells.items ≡ flatten (body_of columns x.0).rows) }
    ensures bad { IfErr result (Refuses (IsBody columns) tokens.now) }
    ensures rest { IfOk result (λ x. IsEnd tokens.now x.1.now) }
{
    let mut cells = Vec::new(alloc);
    let mut position = Position::BeforeRow;
    for (i, token) in tokens.iter().enumerate() {
        match take(&mut cells, tokens, columns, position, i, *token)? {
            Transition::Go(next) => position = next,
            Transition::Finish(quantifier) => {
                return Ok((Body { cells, quantifier }, &tokens[i + 1..]));
            }
            Transition::Bad => return Err(Stop::At(&tokens[i..])),
        }
    }
    Err(Stop::At(&tokens[tokens.len()..]))
}
