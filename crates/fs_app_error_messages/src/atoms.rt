//! Where a condition has an atom that can't be true or false, since a hart or a register isn't there or a number is
//! out of range.

ghost use Rattle.std.specs.Bool.{Decides};
ghost use Rattle.std.specs.Prelude.{◌≡◌, ◌∷◌, ℕ, false, IfSome, IsNone, List, length, option_map, ◌<◌};
ghost use Rattle.fs_litmus_tokens.specs.Numbers.{number_of};
ghost use Rattle.fs_litmus_tokens.specs.Tokens.{Lined, Sign, Word, kind_of, views};
ghost use Rattle.fs_litmus_tokens.specs.declared.word.Class.TheVariants as class;
ghost use Rattle.fs_litmus_tokens.specs.declared.token.Mark.TheVariants as mark;
ghost use Rattle.fs_litmus_tokens.specs.Values.{IsTarget, IsValue, target_of, value_of};
ghost use Rattle.fs_app_error_messages.specs.Atoms.{BeginsBad, BeginsTarget, BeginsValue, IsBad, IsBadAfter, is_absent};
ghost use Rattle.fs_app_error_messages.specs.Atoms.{is_hart_number, is_far, is_out_of_range, opens, behind_sign};

use fs_instr::Reg;
use fs_litmus_tokens::{Class, Kind, Mark, Target, Token, Value, number_of};

/// Is it the number of a hart that is there?
fn is_hart(columns: usize, word: &str) -> bool
    ensures { result ≡ is_hart_number columns (number_of word.now) }
{
    match number_of(word) {
        Some(number) => (number as usize) < columns,
        None => false,
    }
}

/// Is it a number that no word is, or is the negative of?
fn is_far(negative: bool, digits: &str) -> bool
    ensures { result ≡ is_far negative (number_of digits.now) }
{
    match number_of(digits) {
        Some(number) => negative && number > 1 << 31,
        None => true,
    }
}

/// Has the target a hart or a register that isn't there?
fn is_absent(columns: usize, target: Target<'_>) -> bool
    ensures { result ≡ is_absent columns (target_of target.entry) }
{
    match target {
        Target::Register { hart, register } => !is_hart(columns, hart)
            || Reg::of(register).is_none(),
        Target::Location(_) => false,
    }
}

/// Is the number out of range?
fn is_out_of_range(value: Value<'_>) -> bool
    ensures { result ≡ is_out_of_range (value_of value.entry) }
{
    match value {
        Value::Number { negative, digits } => is_far(negative, digits),
        Value::Address(_) => false,
    }
}

fn is_this_mark(token: &Token<'_>, mark: Mark) -> bool
    ensures { Decides result (kind_of token.now.kind ≡ Sign mark) }
{
    match token.kind {
        Kind::Sign(found) => found == mark,
        _ => false,
    }
}

/// The register behind a hart's number.
fn take_register<'b, 'a>(
    hart: &'a str,
    tokens: &'b [Token<'a>],
) -> Option<(Target<'a>, &'b [Token<'a>])>
    ensures found { IfSome result (λ x. (line : ℕ)
        → IsTarget ((Word class.Number hart.entry.now, line) ∷ views tokens.now) (target_of x.0) (views x.1.now)) }
    ensures absent { IsNone result → (line : ℕ)
        → ¬ BeginsTarget ((Word class.Number hart.entry.now, line) ∷ views tokens.now) }
{
    let (colon, rest) = tokens.split_first()?;
    let (register, rest) = rest.split_first()?;
    if !is_this_mark(colon, Mark::Colon) {
        return None;
    }
    match register.kind {
        Kind::Word(_, register) => Some((Target::Register { hart, register }, rest)),
        _ => None,
    }
}

/// The location whose name stands in brackets.
fn take_bracketed<'b, 'a>(tokens: &'b [Token<'a>]) -> Option<(Target<'a>, &'b [Token<'a>])>
    ensures found { IfSome result (λ x. (line : ℕ)
        → IsTarget ((Sign mark.OpenBracket, line) ∷ views tokens.now) (target_of x.0) (views x.1.now)) }
    ensures absent { IsNone result → (line : ℕ) → ¬ BeginsTarget ((Sign mark.OpenBracket, line) ∷ views tokens.now) }
{
    let (name, rest) = tokens.split_first()?;
    let (close, rest) = rest.split_first()?;
    if !is_this_mark(close, Mark::CloseBracket) {
        return None;
    }
    match name.kind {
        Kind::Word(class, name) => {
            if class.is_name() {
                Some((Target::Location(name), rest))
            } else {
                None
            }
        }
        _ => None,
    }
}

/// The target at the front.
fn take_target<'b, 'a>(tokens: &'b [Token<'a>]) -> Option<(Target<'a>, &'b [Token<'a>])>
    ensures found { IfSome result (λ x. IsTarget (views tokens.now) (target_of x.0) (views x.1.now)) }
    ensures absent { IsNone result → ¬ BeginsTarget (views tokens.now) }
{
    let (first, rest) = tokens.split_first()?;
    match first.kind {
        Kind::Word(Class::Number, hart) => take_register(hart, rest),
        Kind::Word(class, name) => {
            if class.is_name() {
                Some((Target::Location(name), rest))
            } else {
                None
            }
        }
        Kind::Sign(Mark::OpenBracket) => take_bracketed(rest),
        _ => None,
    }
}

/// Is it the class of numbers?
fn is_number(found: Class) -> bool
    ensures { Decides result (found ≡ class.Number) }
{
    matches!(found, Class::Number)
}

/// The value behind a minus.
fn take_negative<'a>(tokens: &[Token<'a>]) -> Option<Value<'a>>
    ensures found { IfSome result (λ v. (after : List Lined)
        × ((line : ℕ) → IsValue ((Sign mark.Minus, line) ∷ views tokens.now) (value_of v) after)) }
    ensures absent { IsNone result → (line : ℕ) → ¬ BeginsValue ((Sign mark.Minus, line) ∷ views tokens.now) }
{
    let (number, _) = tokens.split_first()?;
    match number.kind {
        Kind::Word(class, digits) => {
            if is_number(class) {
                Some(Value::Number {
                    negative: true,
                    digits,
                })
            } else {
                None
            }
        }
        _ => None,
    }
}

/// The value at the front.
fn take_value<'a>(tokens: &[Token<'a>]) -> Option<Value<'a>>
    ensures found { IfSome result (λ v. (after : List Lined) × IsValue (views tokens.now) (value_of v) after) }
    ensures absent { IsNone result → ¬ BeginsValue (views tokens.now) }
{
    let (first, rest) = tokens.split_first()?;
    match first.kind {
        Kind::Word(class, word) => {
            if is_number(class) {
                return Some(Value::Number {
                    negative: false,
                    digits: word,
                });
            }
            if class.is_name() {
                return Some(Value::Address(word));
            }
            None
        }
        Kind::Sign(Mark::Minus) => take_negative(rest),
        _ => None,
    }
}

/// Are they, whatever locations there are, no register or location and its word?
fn is_bad(columns: usize, target: Target<'_>, value: Value<'_>) -> bool
    ensures { Decides result (IsBad columns (target_of target.entry) (value_of value.entry)) }
{
    is_absent(columns, target) || is_out_of_range(value)
}

/// What stands behind the sign of an atom: `=` or `==`, `<>`, or `!=`.
fn behind_sign<'b, 'a>(tokens: &'b [Token<'a>]) -> Option<&'b [Token<'a>]>
    ensures { option_map (λ rest. views rest.now) result ≡ behind_sign (views tokens.now) }
{
    let (first, rest) = tokens.split_first()?;
    match first.kind {
        Kind::Sign(Mark::Equals) => match rest.split_first() {
            Some((second, behind)) => match second.kind {
                Kind::Sign(Mark::Equals) => Some(behind),
                _ => Some(rest),
            },
            None => Some(rest),
        },
        Kind::Sign(Mark::Less) => match rest.split_first() {
            Some((second, behind)) => match second.kind {
                Kind::Sign(Mark::Greater) => Some(behind),
                _ => None,
            },
            None => None,
        },
        Kind::Sign(Mark::Bang) => match rest.split_first() {
            Some((second, behind)) => match second.kind {
                Kind::Sign(Mark::Equals) => Some(behind),
                _ => None,
            },
            None => None,
        },
        _ => None,
    }
}

/// Do the tokens begin with a target, a sign and a value that are bad?
fn begins_bad(columns: usize, tokens: &[Token<'_>]) -> bool
    ensures { Decides result (BeginsBad columns (views tokens.now)) }
{
    let Some((target, rest)) = take_target(tokens) else {
        return false;
    };
    let Some(rest) = behind_sign(rest) else {
        return false;
    };
    match take_value(rest) {
        Some(value) => is_bad(columns, target, value),
        None => false,
    }
}

/// Does a target go on behind the token?
fn opens(kind: Kind<'_>) -> bool
    ensures { result ≡ opens (kind_of kind.entry) }
{
    matches!(kind, Kind::Sign(Mark::Colon | Mark::OpenBracket))
}

/// Does a bad atom begin with the tokens, and no target before them go on there?
fn is_bad_behind(columns: usize, is_open: bool, tokens: &[Token<'_>]) -> bool
    ensures { Decides result ((is_open ≡ false) × BeginsBad columns (views tokens.now)) }
{
    !is_open && begins_bad(columns, tokens)
}

/// How many tokens of a condition stand before its first atom that is bad. Linear in the tokens.
pub(crate) fn bad_atom(columns: usize, tokens: &[Token<'_>]) -> Option<usize>
    ensures bad { IfSome result (λ i. IsBadAfter columns (views tokens.now) i) }
    ensures first { IfSome result (λ i. (j : ℕ) → j < i → ¬ IsBadAfter columns (views tokens.now) j) }
    ensures none { IsNone result → (j : ℕ) → ¬ IsBadAfter columns (views tokens.now) j }
    ensures within { IfSome result (λ i. i < length tokens.now) }
{
    let mut is_open = false;
    for (i, token) in tokens.iter().enumerate() {
        if is_bad_behind(columns, is_open, &tokens[i..]) {
            return Some(i);
        }
        is_open = opens(token.kind);
    }
    None
}
