//! The initial values.

ghost use Rattle.std.specs.Prelude.{◌≡◌, option_map, IfOk, IfErr};
ghost use Rattle.fs_litmus_tokens.specs.Tokens.{view, kind_of, views};
ghost use Rattle.fs_litmus_tokens.specs.Values.{target_of, value_of};
ghost use Rattle.fs_litmus_tokens.specs.Sections.{Takes};
ghost use Rattle.fs_litmus_syntax.specs.Reading.{IsEnd, Refuses};
ghost use Rattle.fs_litmus_syntax.specs.Init.{IsInit, entry_of, entries_of, position_of, turn_of, move_of};
ghost use Rattle.fs_litmus_syntax.specs.Init.{target_begun, entry_begun, target_followed, valued, value_begun};
ghost use Rattle.fs_litmus_syntax.specs.Init.{minus_followed, ampersand_followed, entry_ended, target_ended};
ghost use Rattle.fs_litmus_syntax.specs.Init.{type_followed, name_followed, next_in};

use fs_litmus_tokens::{Class, Kind, Mark, Stop, Target, Token, Value};
use std::alloc::{AllocError, Global};

/// An initial value as written, and the line of the first token of its target.
#[derive(Clone, Copy)]
pub struct Entry<'a> {
    pub line: usize,
    pub target: Target<'a>,
    pub value: Value<'a>,
}

/// What was read last; the line is that of the target's first token, or of a name, which may be that of a type.
#[derive(Clone, Copy)]
pub enum Position<'a> {
    BeforeBrace,
    BeforeEntry,
    AfterStar,
    AfterName(usize, &'a str),
    AfterHart(usize, &'a str),
    AfterColon(usize, &'a str),
    AfterBracket(usize),
    AfterBracketedName(usize, &'a str),
    AfterTarget(usize, Target<'a>),
    AfterEquals(usize, Target<'a>),
    AfterMinus(usize, Target<'a>),
    AfterAmpersand(usize, Target<'a>),
    AfterValue(Entry<'a>),
}

/// What one more token does.
#[derive(Clone, Copy)]
pub enum Transition<'a> {
    Go(Position<'a>),
    Finish,
    Bad,
}

/// The first token of a target, or a name of its type.
fn begin_target<'a>(token: Token<'a>) -> Transition<'a>
    ensures { turn_of result ≡ target_begun (view token.entry) }
{
    match token.kind {
        Kind::Word(Class::Number, hart) => Transition::Go(Position::AfterHart(token.line, hart)),
        Kind::Word(Class::Other, _) => Transition::Bad,
        Kind::Word(_, name) => Transition::Go(Position::AfterName(token.line, name)),
        Kind::Sign(Mark::OpenBracket) => Transition::Go(Position::AfterBracket(token.line)),
        _ => Transition::Bad,
    }
}

/// The first token of an entry, or the brace after the last.
fn begin_entry<'a>(token: Token<'a>) -> Transition<'a>
    ensures { turn_of result ≡ entry_begun (view token.entry) }
{
    match token.kind {
        Kind::Sign(Mark::CloseBrace) => Transition::Finish,
        _ => begin_target(token),
    }
}

/// A token within a target.
fn follow_target<'a>(position: Position<'a>, token: Kind<'a>) -> Transition<'a>
    ensures { turn_of result ≡ target_followed (position_of position.entry) (kind_of token.entry) }
{
    match position {
        Position::AfterHart(line, hart) => match token {
            Kind::Sign(Mark::Colon) => Transition::Go(Position::AfterColon(line, hart)),
            _ => Transition::Bad,
        },
        Position::AfterColon(line, hart) => match token {
            Kind::Word(_, register) => {
                Transition::Go(Position::AfterTarget(line, Target::Register { hart, register }))
            }
            _ => Transition::Bad,
        },
        Position::AfterBracket(line) => match token {
            Kind::Word(Class::Number | Class::Other, _) => Transition::Bad,
            Kind::Word(_, name) => Transition::Go(Position::AfterBracketedName(line, name)),
            _ => Transition::Bad,
        },
        Position::AfterBracketedName(line, name) => match token {
            Kind::Sign(Mark::CloseBracket) => {
                Transition::Go(Position::AfterTarget(line, Target::Location(name)))
            }
            _ => Transition::Bad,
        },
        _ => Transition::Bad,
    }
}

fn valued<'a>(line: usize, target: Target<'a>, value: Value<'a>) -> Transition<'a>
    ensures { turn_of result ≡ valued line (target_of target.entry) (value_of value.entry) }
{
    Transition::Go(Position::AfterValue(Entry {
        line,
        target,
        value,
    }))
}

/// The first token of a value.
fn begin_value<'a>(line: usize, target: Target<'a>, token: Kind<'a>) -> Transition<'a>
    ensures { turn_of result ≡ value_begun line (target_of target.entry) (kind_of token.entry) }
{
    match token {
        Kind::Word(Class::Number, digits) => valued(
            line,
            target,
            Value::Number {
                negative: false,
                digits,
            },
        ),
        Kind::Word(Class::Other, _) => Transition::Bad,
        Kind::Word(_, name) => valued(line, target, Value::Address(name)),
        Kind::Sign(Mark::Minus) => Transition::Go(Position::AfterMinus(line, target)),
        Kind::Sign(Mark::Ampersand) => Transition::Go(Position::AfterAmpersand(line, target)),
        _ => Transition::Bad,
    }
}

/// The number after a minus.
fn follow_minus<'a>(line: usize, target: Target<'a>, token: Kind<'a>) -> Transition<'a>
    ensures { turn_of result ≡ minus_followed line (target_of target.entry) (kind_of token.entry) }
{
    match token {
        Kind::Word(Class::Number, digits) => valued(
            line,
            target,
            Value::Number {
                negative: true,
                digits,
            },
        ),
        _ => Transition::Bad,
    }
}

/// The name after `&`.
fn follow_ampersand<'a>(line: usize, target: Target<'a>, token: Kind<'a>) -> Transition<'a>
    ensures { turn_of result ≡ ampersand_followed line (target_of target.entry) (kind_of token.entry) }
{
    match token {
        Kind::Word(Class::Number | Class::Other, _) => Transition::Bad,
        Kind::Word(_, name) => valued(line, target, Value::Address(name)),
        _ => Transition::Bad,
    }
}

/// The token after an entry.
fn end_entry<'a>(
    entry: Entry<'a>,
    entries: &mut Vec<Entry<'a>>,
    token: Kind<'a>,
) -> Result<Transition<'a>, AllocError>
    ensures { IfOk result (λ s. move_of s entries.new.items
        ≡ entry_ended (entry_of entry.entry) (entries_of entries.old.items) (kind_of token.entry)) }
{
    match token {
        Kind::Sign(Mark::Semicolon) => {
            entries.push(entry)?;
            Ok(Transition::Go(Position::BeforeEntry))
        }
        Kind::Sign(Mark::CloseBrace) => {
            entries.push(entry)?;
            Ok(Transition::Finish)
        }
        _ => Ok(Transition::Bad),
    }
}

/// The token after a target: without `=` its value is 0.
fn end_target<'a>(
    line: usize,
    target: Target<'a>,
    entries: &mut Vec<Entry<'a>>,
    token: Kind<'a>,
) -> Result<Transition<'a>, AllocError>
    ensures { IfOk result (λ s. move_of s entries.new.items
        ≡ target_ended line (target_of target.entry) (entries_of entries.old.items) (kind_of token.entry)) }
{
    match token {
        Kind::Sign(Mark::Equals) => Ok(Transition::Go(Position::AfterEquals(line, target))),
        _ => {
            let value = Value::Number {
                negative: false,
                digits: "0",
            };
            let entry = Entry {
                line,
                target,
                value,
            };
            end_entry(entry, entries, token)
        }
    }
}

/// The token after a name of a type: a target begins, or `*` follows. Behind other names stands another.
fn follow_type<'a>(token: Token<'a>) -> Option<Transition<'a>>
    ensures { option_map turn_of result ≡ type_followed (view token.entry) }
{
    match token.kind {
        Kind::Word(_, _) | Kind::Sign(Mark::OpenBracket) => Some(begin_target(token)),
        Kind::Sign(Mark::Star) => Some(Transition::Go(Position::AfterStar)),
        _ => None,
    }
}

/// The token after a name, which is that of a type where a target or `*` follows.
fn follow_name<'a>(
    line: usize,
    name: &'a str,
    entries: &mut Vec<Entry<'a>>,
    token: Token<'a>,
) -> Result<Transition<'a>, AllocError>
    ensures { IfOk result (λ s. move_of s entries.new.items
        ≡ name_followed line name.entry.now (entries_of entries.old.items) (view token.entry)) }
{
    match follow_type(token) {
        Some(transition) => Ok(transition),
        None => end_target(line, Target::Location(name), entries, token.kind),
    }
}

/// One more token.
fn take<'a>(
    position: Position<'a>,
    entries: &mut Vec<Entry<'a>>,
    token: Token<'a>,
) -> Result<Transition<'a>, AllocError>
    ensures { IfOk result (λ s. move_of s entries.new.items
        ≡ next_in (position_of position.entry) (entries_of entries.old.items) (view token.entry)) }
{
    match position {
        Position::BeforeBrace => match token.kind {
            Kind::Sign(Mark::OpenBrace) => Ok(Transition::Go(Position::BeforeEntry)),
            _ => Ok(Transition::Bad),
        },
        Position::BeforeEntry => Ok(begin_entry(token)),
        Position::AfterStar => Ok(begin_target(token)),
        Position::AfterName(line, name) => follow_name(line, name, entries, token),
        Position::AfterTarget(line, target) => end_target(line, target, entries, token.kind),
        Position::AfterEquals(line, target) => Ok(begin_value(line, target, token.kind)),
        Position::AfterMinus(line, target) => Ok(follow_minus(line, target, token.kind)),
        Position::AfterAmpersand(line, target) => Ok(follow_ampersand(line, target, token.kind)),
        Position::AfterValue(entry) => end_entry(entry, entries, token.kind),
        _ => Ok(follow_target(position, token.kind)),
    }
}

/// The initial values, in braces, at the front of the tokens, and the tokens after them: entries ended by `;`, of which
/// the last may be missing. An entry is a target, `=` and a value, or a target alone, whose value is 0; before a name
/// that is a value `&` may stand. Before the target may stand a type, which changes nothing: names, each with `*` behind
/// it or without. Linear in the tokens; fails for want of memory, or at the first token with which no such block begins.
pub fn read_init<'b, 'a>(
    alloc: Global,
    tokens: &'b [Token<'a>],
) -> Result<(Vec<Entry<'a>>, &'b [Token<'a>]), Stop<'b, 'a>>
    ensures ok { IfOk result (λ x. Takes IsInit (views tokens.now) (entries_of x.0.items) (views x.1.now)) }
    ensures bad { IfErr result (Refuses IsInit tokens.now) }
    ensures rest { IfOk result (λ x. IsEnd tokens.now x.1.now) }
{
    let mut position = Position::BeforeBrace;
    let mut entries = Vec::new(alloc);
    for (i, token) in tokens.iter().enumerate() {
        match take(position, &mut entries, *token)? {
            Transition::Go(next) => position = next,
            Transition::Finish => return Ok((entries, &tokens[i + 1..])),
            Transition::Bad => return Err(Stop::At(&tokens[i..])),
        }
    }
    Err(Stop::At(&tokens[tokens.len()..]))
}
