//! The operands of an instruction, read part by part. An instruction has fewer than 20 tokens.

ghost use Rattle.std.specs.Prelude.{◌≡◌, ℕ, List, Option, option_map};
ghost use Rattle.fs_litmus_tokens.specs.Tokens.{Tok};
ghost use Rattle.fs_instr.specs.declared.letters.Letters.{Letters};
ghost use Rattle.fs_instr.specs.declared.operands.Operands.{Operands};
ghost use Rattle.fs_instr.specs.declared.operands.OperandPart.TheVariants.{Zero, Immediate, Offset, Below, Constant};
ghost use Rattle.fs_instr.specs.declared.operands.OperandPart.TheVariants.{NoOffset};
ghost use Rattle.fs_instr.specs.Operands.{filled, toks, take_word, take_name, is_mark, take_sign, take_register};
ghost use Rattle.fs_instr.specs.Operands.{take_letters, take_unsigned, take_number, immediate_of, below_of, constant_of};
ghost use Rattle.fs_instr.specs.Operands.{read_part, read_parts, blank};

use crate::letters::Letters;
use crate::reg::Reg;
use fs_litmus_tokens::{Kind, Mark, Token, number_of};

/// A part of the operands, in the order of the text.
#[derive(Clone, Copy)]
pub enum OperandPart {
    /// The destination.
    Rd,
    /// The first source.
    First,
    /// The second source.
    Second,
    /// x0, by any of its names.
    Zero,
    /// A comma or a parenthesis.
    Sign(Mark),
    /// A number from -2048 to 2047.
    Immediate,
    /// A number from -2048 to 2047, or nothing before a parenthesis, which is 0.
    Offset,
    /// A number below this limit.
    Below(u32),
    /// A number from -2^31 to 2^32 - 1, taken modulo 2^32.
    Constant,
    /// Nothing, or an offset that is 0.
    NoOffset,
    /// The name of a label.
    Label,
    /// The letters of the first side of a FENCE.
    Before,
    /// The letters of the second side.
    After,
}

/// The operands of an instruction; those that its row lacks are as in `BLANK`.
#[derive(Clone, Copy)]
pub struct Operands {
    pub rd: Reg,
    pub first: Reg,
    pub second: Reg,
    pub imm: i32,
    pub constant: u32,
    pub target: u8,
    pub before: Letters,
    pub after: Letters,
}

impl Operands {
    /// Before anything is read.
    pub const BLANK: Operands = Operands {
        rd: Reg::ZERO,
        first: Reg::ZERO,
        second: Reg::ZERO,
        imm: 0,
        constant: 0,
        target: 0,
        before: Letters::ALL,
        after: Letters::ALL,
    };
}

#[tactic(auto, unfolding(crate::specs::Operands::take_word))]
fn take_word<'b, 'a>(tokens: &'b [Token<'a>]) -> Option<(&'a str, &'b [Token<'a>])>
    ensures { option_map (λ x. (x.0.now, toks x.1.now)) result ≡ take_word (toks tokens.now) }
{
    match tokens.split_first() {
        Some((token, rest)) => match token.kind {
            Kind::Word(_, word) => Some((word, rest)),
            _ => None,
        },
        None => None,
    }
}

#[tactic(auto, unfolding(crate::specs::Operands::take_name))]
fn take_name<'b, 'a>(tokens: &'b [Token<'a>]) -> Option<(&'a str, &'b [Token<'a>])>
    ensures { option_map (λ x. (x.0.now, toks x.1.now)) result ≡ take_name (toks tokens.now) }
{
    match tokens.split_first() {
        Some((token, rest)) => match token.kind {
            Kind::Word(class, word) => {
                if class.is_name() {
                    Some((word, rest))
                } else {
                    None
                }
            }
            _ => None,
        },
        None => None,
    }
}

fn is_mark(found: Mark, wanted: Mark) -> bool
    ensures { result ≡ is_mark found wanted }
{
    found == wanted
}

#[tactic(auto, unfolding(crate::specs::Operands::take_sign))]
fn take_sign<'b, 'a>(mark: Mark, tokens: &'b [Token<'a>]) -> Option<&'b [Token<'a>]>
    ensures { option_map (λ x. toks x.now) result ≡ take_sign mark (toks tokens.now) }
{
    match tokens.split_first() {
        Some((token, rest)) => match token.kind {
            Kind::Sign(found) => {
                if is_mark(found, mark) {
                    Some(rest)
                } else {
                    None
                }
            }
            _ => None,
        },
        None => None,
    }
}

#[tactic(auto, unfolding(crate::specs::Operands::take_register))]
fn read_register<'b, 'a>(
    register: &mut Reg,
    label: Option<&'a str>,
    tokens: &'b [Token<'a>],
) -> Option<(Option<&'a str>, &'b [Token<'a>])>
    ensures { option_map (λ x. (register.new, option_map (λ w. w.now) x.0, toks x.1.now)) result
        ≡ option_map {U = ℕ × Option (List ℕ) × List Tok} (λ x. (x.0, option_map (λ w. w.now) label.entry, x.1))
        (take_register (toks tokens.now)) }
{
    let (word, rest) = take_word(tokens)?;
    *register = Reg::of(word)?;
    Some((label, rest))
}

#[tactic(auto, unfolding(crate::specs::Operands::take_letters))]
fn read_letters<'b, 'a>(
    letters: &mut Letters,
    label: Option<&'a str>,
    tokens: &'b [Token<'a>],
) -> Option<(Option<&'a str>, &'b [Token<'a>])>
    ensures { option_map (λ x. (letters.new, option_map (λ w. w.now) x.0, toks x.1.now)) result
        ≡ option_map {U = Letters × Option (List ℕ) × List Tok} (λ x. (x.0, option_map (λ w. w.now) label.entry, x.1))
        (take_letters (toks tokens.now)) }
{
    let (word, rest) = take_word(tokens)?;
    *letters = Letters::of(word)?;
    Some((label, rest))
}

#[tactic(auto, unfolding(crate::specs::Operands::take_unsigned))]
fn take_unsigned<'b, 'a>(tokens: &'b [Token<'a>]) -> Option<(u32, &'b [Token<'a>])>
    ensures { option_map (λ x. (x.0, toks x.1.now)) result ≡ take_unsigned (toks tokens.now) }
{
    let (word, rest) = take_word(tokens)?;
    let number = number_of(word)?;
    Some((number, rest))
}

#[tactic(auto, unfolding(crate::specs::Operands::take_number))]
fn take_number<'b, 'a>(tokens: &'b [Token<'a>]) -> Option<(bool, u32, &'b [Token<'a>])>
    ensures { option_map (λ x. (x.0, x.1, toks x.2.now)) result ≡ take_number (toks tokens.now) }
{
    match take_sign(Mark::Minus, tokens) {
        Some(rest) => {
            let (number, rest) = take_unsigned(rest)?;
            if number <= 1 << 31 {
                Some((true, number, rest))
            } else {
                None
            }
        }
        None => {
            let (number, rest) = take_unsigned(tokens)?;
            Some((false, number, rest))
        }
    }
}

fn immediate_of(minus: bool, number: u32) -> Option<i32>
    ensures { result ≡ immediate_of minus number }
{
    if minus {
        if number <= 2048 {
            Some(-(number as i32))
        } else {
            None
        }
    } else {
        if number < 2048 {
            Some(number as i32)
        } else {
            None
        }
    }
}

fn below_of(limit: u32, minus: bool, number: u32) -> Option<u32>
    ensures { result ≡ below_of limit minus number }
{
    if number < limit && (!minus || number == 0) {
        Some(number)
    } else {
        None
    }
}

fn constant_of(minus: bool, number: u32) -> u32
    ensures { result ≡ constant_of minus number }
{
    if minus {
        0u32.wrapping_sub(number)
    } else {
        number
    }
}

fn read_immediate<'b, 'a>(
    operands: &mut Operands,
    label: Option<&'a str>,
    tokens: &'b [Token<'a>],
) -> Option<(Option<&'a str>, &'b [Token<'a>])>
    ensures { option_map (λ x. (filled operands.new x.0, toks x.1.now)) result
        ≡ read_part Immediate (filled operands.old label.entry) (toks tokens.now) }
{
    let (minus, number, rest) = take_number(tokens)?;
    operands.imm = immediate_of(minus, number)?;
    Some((label, rest))
}

fn read_offset<'b, 'a>(
    operands: &mut Operands,
    label: Option<&'a str>,
    tokens: &'b [Token<'a>],
) -> Option<(Option<&'a str>, &'b [Token<'a>])>
    ensures { option_map (λ x. (filled operands.new x.0, toks x.1.now)) result
        ≡ read_part Offset (filled operands.old label.entry) (toks tokens.now) }
{
    if take_sign(Mark::OpenParen, tokens).is_some() {
        return Some((label, tokens));
    }
    let (minus, number, rest) = take_number(tokens)?;
    operands.imm = immediate_of(minus, number)?;
    Some((label, rest))
}

fn read_below<'b, 'a>(
    limit: u32,
    operands: &mut Operands,
    label: Option<&'a str>,
    tokens: &'b [Token<'a>],
) -> Option<(Option<&'a str>, &'b [Token<'a>])>
    ensures { option_map (λ x. (filled operands.new x.0, toks x.1.now)) result
        ≡ read_part (Below limit) (filled operands.old label.entry) (toks tokens.now) }
{
    let (minus, number, rest) = take_number(tokens)?;
    operands.constant = below_of(limit, minus, number)?;
    Some((label, rest))
}

fn read_constant<'b, 'a>(
    operands: &mut Operands,
    label: Option<&'a str>,
    tokens: &'b [Token<'a>],
) -> Option<(Option<&'a str>, &'b [Token<'a>])>
    ensures { option_map (λ x. (filled operands.new x.0, toks x.1.now)) result
        ≡ read_part Constant (filled operands.old label.entry) (toks tokens.now) }
{
    let (minus, number, rest) = take_number(tokens)?;
    operands.constant = constant_of(minus, number);
    Some((label, rest))
}

#[tactic(auto, unfolding(crate::specs::Operands::take_register))]
fn read_zero<'b, 'a>(
    operands: &mut Operands,
    label: Option<&'a str>,
    tokens: &'b [Token<'a>],
) -> Option<(Option<&'a str>, &'b [Token<'a>])>
    ensures { option_map (λ x. (filled operands.new x.0, toks x.1.now)) result
        ≡ read_part Zero (filled operands.old label.entry) (toks tokens.now) }
{
    let (word, rest) = take_word(tokens)?;
    let register = Reg::of(word)?;
    if register.number() == 0 {
        Some((label, rest))
    } else {
        None
    }
}

fn read_no_offset<'b, 'a>(
    label: Option<&'a str>,
    tokens: &'b [Token<'a>],
) -> Option<(Option<&'a str>, &'b [Token<'a>])>
    ensures { (o : Operands) → option_map (λ x. (filled o x.0, toks x.1.now)) result
        ≡ read_part NoOffset (filled o label.entry) (toks tokens.now) }
{
    if take_sign(Mark::OpenParen, tokens).is_some() {
        return Some((label, tokens));
    }
    let (_, number, rest) = take_number(tokens)?;
    if number == 0 {
        Some((label, rest))
    } else {
        None
    }
}

fn read_part<'b, 'a>(
    part: OperandPart,
    operands: &mut Operands,
    label: Option<&'a str>,
    tokens: &'b [Token<'a>],
) -> Option<(Option<&'a str>, &'b [Token<'a>])>
    ensures { option_map (λ x. (filled operands.new x.0, toks x.1.now)) result
        ≡ read_part part (filled operands.old label.entry) (toks tokens.now) }
{
    match part {
        OperandPart::Rd => read_register(&mut operands.rd, label, tokens),
        OperandPart::First => read_register(&mut operands.first, label, tokens),
        OperandPart::Second => read_register(&mut operands.second, label, tokens),
        OperandPart::Zero => read_zero(operands, label, tokens),
        OperandPart::Sign(mark) => {
            let rest = take_sign(mark, tokens)?;
            Some((label, rest))
        }
        OperandPart::Immediate => read_immediate(operands, label, tokens),
        OperandPart::Offset => read_offset(operands, label, tokens),
        OperandPart::Below(limit) => read_below(limit, operands, label, tokens),
        OperandPart::Constant => read_constant(operands, label, tokens),
        OperandPart::NoOffset => read_no_offset(label, tokens),
        OperandPart::Label => {
            let (word, rest) = take_name(tokens)?;
            Some((Some(word), rest))
        }
        OperandPart::Before => read_letters(&mut operands.before, label, tokens),
        OperandPart::After => read_letters(&mut operands.after, label, tokens),
    }
}

fn read_all<'b, 'a>(
    parts: &[OperandPart],
    operands: &mut Operands,
    label: Option<&'a str>,
    tokens: &'b [Token<'a>],
) -> Option<Option<&'a str>>
    ensures { option_map (λ l. filled operands.new l) result
        ≡ read_parts parts.now (filled operands.old label.entry) (toks tokens.now) }
{
    match parts.split_first() {
        Some((part, more)) => {
            let (label, rest) = read_part(*part, operands, label, tokens)?;
            read_all(more, operands, label, rest)
        }
        None => { if tokens.is_empty() { Some(label) } else { None } }
    }
}

/// The operands and the label of tokens that are these parts in order, and no more.
pub fn read_parts<'a>(
    parts: &[OperandPart],
    tokens: &[Token<'a>],
) -> Option<(Operands, Option<&'a str>)>
    ensures { option_map (λ x. filled x.0 x.1) result ≡ read_parts parts.now blank (toks tokens.now) }
{
    let mut operands = Operands::BLANK;
    let label = read_all(parts, &mut operands, None, tokens)?;
    Some((operands, label))
}
