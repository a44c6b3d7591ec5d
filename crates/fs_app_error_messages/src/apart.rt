//! A test file with the same tokens, each in a line of its own.

ghost use Rattle.std.specs.Prelude.{◌≡◌, string_bytes, IfOk};
ghost use Rattle.fs_litmus_tokens.specs.Tokens.{kind_of, views};
ghost use Rattle.fs_app_error_messages.specs.Apart.{mark_text, token_text, ending, apart};

use fs_litmus_tokens::{Kind, Mark, Token};
use std::alloc::{AllocError, Global};

/// A mark as it is written.
pub(crate) fn mark_text(mark: Mark) -> &'static str
    ensures { result.now ≡ mark_text mark }
{
    match mark {
        Mark::OpenBrace => "{",
        Mark::CloseBrace => "}",
        Mark::Semicolon => ";",
        Mark::Bar => "|",
        Mark::Comma => ",",
        Mark::Colon => ":",
        Mark::Equals => "=",
        Mark::OpenParen => "(",
        Mark::CloseParen => ")",
        Mark::OpenBracket => "[",
        Mark::CloseBracket => "]",
        Mark::Tilde => "~",
        Mark::Minus => "-",
        Mark::Star => "*",
        Mark::Ampersand => "&",
        Mark::Less => "<",
        Mark::Greater => ">",
        Mark::Bang => "!",
        Mark::And => "/\\",
        Mark::Or => "\\/",
    }
}

fn token_text<'a>(kind: Kind<'a>) -> &'a str
    ensures { result.now ≡ token_text (kind_of kind.entry) }
{
    match kind {
        Kind::Word(_, word) => word,
        Kind::Sign(mark) => mark_text(mark),
        Kind::Strange => "#",
    }
}

fn ending(closed: bool) -> &'static str
    ensures { result.now ≡ ending closed }
{
    if closed { "\n " } else { "\n(*" }
}

/// A test file with these tokens, of which number n, from 0 on, stands in line n + 2; below them comes one line more,
/// a blank one or a comment that isn't closed. Linear in the tokens. Fails only for want of memory.
pub(crate) fn apart(alloc: Global, tokens: &[Token<'_>], closed: bool) -> Result<String, AllocError>
    ensures { IfOk result (λ text. string_bytes text ≡ apart (views tokens.now) closed) }
{
    let mut text = String::from_str(alloc, "RISCV T")?;
    for token in tokens {
        text.push_str("\n")?;
        text.push_str(token_text(token.kind))?;
    }
    text.push_str(ending(closed))?;
    Ok(text)
}
