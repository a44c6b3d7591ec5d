//! The text of a test file in the reader's form.

ghost use Rattle.std.specs.Prelude.{◌≡◌, ◌≢◌, true, false, All, IfOk, IfSome, OnOk};
ghost use Rattle.fs_kinds.specs.declared.fault.Fault.TheVariants.{Memory};
ghost use Rattle.fs_model.specs.Test.{IsBounded, IsStart, IsTest};
ghost use Rattle.fs_values.specs.ThinAir.{CanBeListed};
ghost use Rattle.fs_app_plain.specs.Wide.{IsExactTest};
ghost use Rattle.fs_app_plain.specs.Exactly.{IsExactText};

use crate::guard::{Asked, asked_of, is_balanced, push_line};
use crate::lexemes::{Lexeme, lexemes, line_at, part, word_at};
use crate::loops::{Loops, Turn, loops_of};
use crate::ordered::hidden;
use crate::restore::restored;
use crate::sheet::{Sheet, sheet_of};
use crate::turns::{OneTurn, Registers, doubtful, read_at_end};
use crate::width::{Widths, has_great_number, narrowed, widths_of};
use crate::words::inexact;
use fs_kinds::Fault;
use fs_litmus::{read_test, skip_title};
use fs_model::Test;
use std::alloc::{AllocError, AllocFailed, Global};
use thiserror::Error;

/// Which forms are asked for by words of the command line.
#[derive(Clone, Copy)]
pub struct Forms {
    /// Loops, in one turn.
    pub unroll: bool,
    /// lw and sw with annotations, of the extension Zalasr.
    pub zalasr: bool,
    /// A `filter`.
    pub filter: bool,
    /// Whether labels name sites. Those that name loops alone are none.
    pub sites: bool,
    /// Whether all registers are shown that a test has at the end. Then loops may not change those either that the file
    /// doesn't name behind its rows.
    pub all: bool,
}

/// A text in the reader's form.
#[derive(Drop)]
pub struct Plain {
    pub text: Vec<u8>,
    /// The file of which it is made, where that isn't in this form.
    pub file: Option<Vec<u8>>,
    /// The loops of which one turn may not be as good as several.
    pub turns: Vec<OneTurn>,
    /// Its condition is `(G) /\ (C)`, behind `forall` `(G) => (C)`: the states that count are those with G.
    pub is_guarded: bool,
    /// Accesses of a word stand in it for those of 64 bits.
    pub is_wide: bool,
    /// Loads and stores have annotations in it that aren't read: what stands there for these is no mnemonic.
    pub is_hidden: bool,
}

impl Plain {
    /// The same, made of this file.
    pub fn of_file(self, file: Vec<u8>) -> Plain
        ensures text { result.text ≡ self.text }
        ensures width { result.is_wide ≡ self.is_wide }
    {
        let mut plain = self;
        plain.file = Some(file);
        plain
    }
}

/// Why there is no such text.
#[derive(Clone, Copy, Debug, Error)]
pub enum Unplain {
    #[error("line {line}: accesses of 64 bits don't go with those of a word: all have one width")]
    BothWidths { line: usize },
    #[error("P{hart}:{at} may make a word of more than 32 bits: with accesses of 64 bits none is judged")]
    Word { hart: u8, at: u8 },
    #[error("it has a number of more than 31 bits: with accesses of 64 bits none is judged")]
    Number,
    #[error("with accesses of 64 bits its runs must be known, and they can't be listed: {0}")]
    Runs(Fault),
    #[error("there is no memory for it")]
    NoMemory,
}

impl Unplain {
    /// The fault of a run that ends by it.
    pub fn fault(self) -> Fault {
        match self {
            Unplain::BothWidths { line } => Fault::BothWidths { line },
            Unplain::Word { hart, at } => Fault::WideWord { hart, at },
            Unplain::Number => Fault::ReadFault,
            Unplain::Runs(fault) => fault,
            Unplain::NoMemory => Fault::Memory,
        }
    }
}

impl From<AllocError> for Unplain {
    fn from(_refused: AllocError) -> Unplain {
        Unplain::NoMemory
    }
}

impl<T: Drop> From<AllocFailed<T>> for Unplain {
    fn from(_refused: AllocFailed<T>) -> Unplain {
        Unplain::NoMemory
    }
}

/// What becomes of a byte.
#[derive(Clone, Copy)]
enum Mark {
    Kept,
    Blank,
    /// It begins a label in whose place the one of the next turn stands.
    NextTurn,
    Gone,
}

/// A file, and what of it is another in what is made.
#[derive(Drop)]
struct Making<'a> {
    bytes: &'a [u8],
    lexemes: &'a [Lexeme],
    sheet: &'a Sheet,
    asked: Asked,
    loops: Option<Loops>,
    marks: Vec<Mark>,
    /// The first byte of the condition, and the first one behind it.
    condition: (usize, usize),
    /// The first byte of what stands behind `filter`, and the first one behind that.
    filter: Option<(usize, usize)>,
}

/// The bytes of these lexemes: from the first one's on up to the end of the one before the second.
fn span(lexemes: &[Lexeme], from: usize, to: usize) -> Option<(usize, usize)> {
    if from >= to {
        return None;
    }
    let first = lexemes.get(from)?;
    let last = lexemes.get(to - 1)?;
    Some((first.start, last.end))
}

fn set(marks: &mut [Mark], at: usize, mark: Mark) {
    if at < marks.len() {
        marks[at] = mark;
    }
}

fn set_all(marks: &mut [Mark], from: usize, to: usize, mark: Mark) {
    for at in from..to {
        set(marks, at, mark);
    }
}

fn mark_branches(marks: &mut [Mark], lexemes: &[Lexeme], loops: &Loops) {
    for branch in &loops.branches {
        if let Some(lexeme) = lexemes.get(*branch) {
            set_all(marks, lexeme.start, lexeme.end, Mark::Gone);
            set(marks, lexeme.start, Mark::NextTurn);
        }
    }
}

/// Takes out the labels to which no branch is left.
fn mark_labels(marks: &mut [Mark], lexemes: &[Lexeme], loops: &Loops) {
    for label in &loops.labels {
        // the label and its colon
        if let Some((from, to)) = span(lexemes, *label, label.saturating_add(2)) {
            set_all(marks, from, to, Mark::Blank);
        }
    }
}

impl<'a> Making<'a> {
    /// What is to be made; nothing where the file is in the reader's form, or in none that is known.
    fn new(
        alloc: Global,
        bytes: &'a [u8],
        lexemes: &'a [Lexeme],
        sheet: &'a Sheet,
        forms: Forms,
    ) -> Result<Option<Making<'a>>, AllocError> {
        let Some(asked) = asked_of(bytes, lexemes, sheet.tail) else {
            return Ok(None);
        };
        let Some(condition) = span(lexemes, asked.condition.0, asked.condition.1) else {
            return Ok(None);
        };
        if !is_balanced(bytes, lexemes, asked.condition.0, asked.condition.1) {
            return Ok(None);
        }
        let loops = if forms.unroll {
            loops_of(alloc, bytes, lexemes, sheet)?
        } else {
            None
        };
        if asked.filter.is_some() && !forms.filter || loops.is_none() && asked.filter.is_none() {
            return Ok(None);
        }
        let mut marks = Vec::new(alloc);
        for _ in bytes {
            marks.push(Mark::Kept)?;
        }
        let mut filter = None;
        if let Some((begin, end)) = asked.filter {
            filter = span(lexemes, begin.saturating_add(1), end);
            if filter.is_none() || !is_balanced(bytes, lexemes, begin, end) {
                return Ok(None);
            }
            if let Some((from, to)) = span(lexemes, begin, end) {
                set_all(&mut marks, from, to, Mark::Blank);
            }
        }
        if let Some(found) = &loops {
            mark_branches(&mut marks, lexemes, found);
            if forms.sites {
                mark_labels(&mut marks, lexemes, found);
            }
        }
        Ok(Some(Making {
            bytes,
            lexemes,
            sheet,
            asked,
            loops,
            marks,
            condition,
            filter,
        }))
    }

    /// Appends what stands before the condition.
    fn push_guard(&self, alloc: Global, text: &mut Vec<u8>) -> Result<(), AllocError> {
        text.push(b'(')?;
        if let Some((from, to)) = self.filter {
            text.extend_from_slice(b"( ")?; // no comment begins with it
            push_line(text, part(self.bytes, from, to))?;
            text.push(b')')?;
        }
        if let Some(loops) = &self.loops {
            loops.push_marks(alloc, text, self.filter.is_none())?;
        }
        text.extend_from_slice(if self.asked.is_forall {
            b") => ( "
        } else {
            b") /\\ ( "
        })
    }

    /// Appends the byte of this number, or what stands for it.
    fn push_byte(&self, text: &mut Vec<u8>, at: usize, byte: u8) -> Result<(), AllocError> {
        match self.marks.get(at) {
            Some(Mark::Blank) if byte != b'\n' => text.push(b' ')?,
            Some(Mark::NextTurn) => {
                if let Some(loops) = &self.loops {
                    text.extend_from_slice(loops.next_turn.as_bytes())?;
                }
            }
            Some(Mark::Gone) => {}
            _ => text.push(byte)?,
        }
        Ok(())
    }

    /// The text. Linear in the file.
    fn made(&self, alloc: Global) -> Result<Vec<u8>, AllocError> {
        let mut text = Vec::new(alloc);
        let rows_end = match self.lexemes.get(self.sheet.rows_end) {
            Some(lexeme) => lexeme.end,
            None => 0,
        };
        for (at, byte) in self.bytes.iter().enumerate() {
            if at == rows_end {
                if let Some(loops) = &self.loops {
                    loops.push_rows(alloc, &mut text, self.sheet.columns)?;
                }
            }
            if at == self.condition.0 {
                self.push_guard(alloc, &mut text)?;
            }
            if at == self.condition.1 {
                text.push(b')')?;
            }
            self.push_byte(&mut text, at, *byte)?;
        }
        if self.condition.1 == self.bytes.len() {
            text.push(b')')?;
        }
        Ok(text)
    }
}

/// A text in the reader's form, and the branches of the file that go back.
#[derive(Drop)]
struct Made {
    text: Vec<u8>,
    turns: Vec<Turn>,
    is_guarded: bool,
}

/// The text with loops and `filter` in the reader's form, where it has some.
fn unrolled(
    alloc: Global,
    bytes: &[u8],
    lexemes: &[Lexeme],
    sheet: &Sheet,
    forms: Forms,
) -> Result<Option<Made>, AllocError> {
    let Some(making) = Making::new(alloc, bytes, lexemes, sheet, forms)? else {
        return Ok(None);
    };
    let turns = match &making.loops {
        Some(loops) => Vec::from_slice(alloc, &loops.turns)?,
        None => Vec::new(alloc),
    };
    Ok(Some(Made {
        text: making.made(alloc)?,
        turns,
        is_guarded: true,
    }))
}

/// The text in the reader's form; nothing where the file is in that, or in no form that is known.
fn made_of(
    alloc: Global,
    bytes: &[u8],
    lexemes: &[Lexeme],
    sheet: &Sheet,
    forms: Forms,
    is_wide: bool,
) -> Result<Option<Made>, AllocError> {
    if !is_wide {
        return unrolled(alloc, bytes, lexemes, sheet, forms);
    }
    let text = narrowed(alloc, bytes, lexemes, sheet)?;
    if let Some(made) = unrolled(alloc, &text, lexemes, sheet, forms)? {
        return Ok(Some(made));
    }
    Ok(Some(Made {
        text,
        turns: Vec::new(alloc),
        is_guarded: false,
    }))
}

/// Is what was made a test?
fn reads(alloc: Global, made: Option<Made>) -> Result<bool, Unplain> {
    let Some(made) = made else {
        return Ok(false);
    };
    match read_test(alloc, &made.text) {
        Ok(_) => Ok(true),
        Err(Fault::Memory) => Err(Unplain::NoMemory),
        Err(_) => Ok(false),
    }
}

/// Is it a test that is the same with accesses of 64 bits?
fn check_words(alloc: Global, test: &Test) -> Result<(), Unplain>
    requires test { IsBounded test.now }
    requires starts { All IsStart test.now.starts }
    ensures exact { OnOk result (IsExactTest test.now) }
    ensures listable { OnOk result (CanBeListed test.now) }
{
    match inexact(alloc, test) {
        Ok(Some(place)) => Err(Unplain::Word {
            hart: place.hart as u8,
            at: place.at,
        }),
        Ok(None) => Ok(()),
        Err(Fault::Memory) => Err(Unplain::NoMemory),
        Err(fault) => Err(Unplain::Runs(fault)),
    }
}

/// Is it want of memory?
fn is_memory(fault: Fault) -> bool
    ensures { result ≡ false → fault ≢ Memory }
{
    matches!(fault, Fault::Memory)
}

/// The test that the text reads as, once it is known to be the same with accesses of 64 bits, where it stands for one
/// that has those. Nothing where the text is no test.
#[tactic(auto, using(crate::proofs::Refused::reads_as_none))]
fn checked_test(alloc: Global, text: &[u8], is_wide: bool) -> Result<Option<Test>, Unplain>
    ensures test { IfOk result (λ found. IfSome found IsTest) }
    ensures exact { OnOk result (is_wide ≡ true → IsExactText text.now) }
{
    let test = match read_test(alloc, text) {
        Ok(test) => test,
        Err(fault) => {
            if is_memory(fault) {
                return Err(Unplain::NoMemory);
            }
            return Ok(None);
        }
    };
    if is_wide {
        check_words(alloc, &test)?;
    }
    Ok(Some(test))
}

/// The loops of the text of which one turn may not be as good as several, once it is known to be a test that is the
/// same with the accesses that the file has. Nothing where it is no test.
fn checked(
    alloc: Global,
    made: &Made,
    at_end: &[Registers],
    is_wide: bool,
) -> Result<Vec<OneTurn>, Unplain>
    ensures exact { OnOk result (is_wide ≡ true → IsExactText made.now.text.items) }
{
    if !is_wide && made.turns.is_empty() {
        return Ok(Vec::new(alloc));
    }
    let Some(test) = checked_test(alloc, &made.text, is_wide)? else {
        return Ok(Vec::new(alloc));
    };
    if made.turns.is_empty() {
        return Ok(Vec::new(alloc));
    }
    Ok(doubtful(alloc, &test, &made.turns, at_end)?)
}

/// What was made, once it is known to be good.
fn finished(
    alloc: Global,
    made: Made,
    at_end: &[Registers],
    is_wide: bool,
) -> Result<Plain, Unplain>
    ensures exact { IfOk result (λ plain. plain.is_wide ≡ true → IsExactText plain.text.items) }
{
    let turns = checked(alloc, &made, at_end, is_wide)?;
    Ok(Plain {
        text: made.text,
        file: None,
        turns,
        is_guarded: made.is_guarded,
        is_wide,
        is_hidden: false,
    })
}

/// The text of a test file in the reader's form; nothing where it is in that, or in no form that is known.
fn readable_form(
    alloc: Global,
    bytes: &[u8],
    lexemes: &[Lexeme],
    forms: Forms,
) -> Result<Option<Plain>, Unplain>
    ensures exact { IfOk result (λ made. IfSome made (λ plain. plain.is_wide ≡ true → IsExactText plain.text.items)) }
{
    let sheet = sheet_of(alloc, bytes, lexemes)?;
    if !sheet.is_whole {
        return Ok(None);
    }
    let widths = widths_of(bytes, lexemes, &sheet);
    if let Widths::Both(other) = widths {
        let made = made_of(alloc, bytes, lexemes, &sheet, forms, true)?;
        if reads(alloc, made)? {
            let line = line_at(bytes, lexemes, other);
            return Err(Unplain::BothWidths { line });
        }
    }
    let is_wide = matches!(widths, Widths::Doubles);
    if is_wide && has_great_number(bytes, lexemes) {
        return Err(Unplain::Number);
    }
    let Some(made) = made_of(alloc, bytes, lexemes, &sheet, forms, is_wide)? else {
        return Ok(None);
    };
    let at_end = read_at_end(alloc, bytes, lexemes, sheet.tail, forms.all)?;
    Ok(Some(finished(alloc, made, &at_end, is_wide)?))
}

/// The text in the reader's form, in which mnemonics are hidden.
fn hidden_form(
    alloc: Global,
    text: Vec<u8>,
    lexemes: &[Lexeme],
    forms: Forms,
) -> Result<Plain, Unplain>
    ensures exact { IfOk result (λ plain. plain.is_wide ≡ true → IsExactText plain.text.items) }
{
    if let Some(plain) = readable_form(alloc, &text, lexemes, forms)? {
        let mut plain = plain;
        plain.is_hidden = true;
        return Ok(plain);
    }
    Ok(Plain {
        text,
        file: None,
        turns: Vec::new(alloc),
        is_guarded: false,
        is_wide: false,
        is_hidden: true,
    })
}

/// The text of a test file in the reader's form; nothing where it is in that, or in no form that is known.
///
/// - Where all accesses have 64 bits, accesses of a word stand in their place. It is refused where a run of the test
///   makes a word that takes more than 32 bits with its sign, or its runs can't be listed. So is a file that would be a
///   test if all its accesses had one width.
/// - A `filter` becomes part of the condition.
/// - Where it is asked for, each branch that goes back ends its hart's attempt: it goes to the end of the code, past an
///   instruction that writes 1 to a register which the file doesn't name, and the condition asks that this is 1.
/// - Where loads and stores with annotations aren't asked for, and the file has some, a letter of their mnemonics is
///   another, so that it is refused as by a reader who doesn't know them.
///
/// Positions of instructions stay, and lines but for those of a `filter`. Linear in the bytes; of accesses of 64 bits,
/// and of loops, also the cost of listing the test's runs.
pub fn plain_form(alloc: Global, bytes: &[u8], forms: Forms) -> Result<Option<Plain>, Unplain>
    // What stands for accesses of 64 bits is a test that is the same with those, where it is a test.
    ensures exact { IfOk result (λ made. IfSome made (λ plain. plain.is_wide ≡ true → IsExactText plain.text.items)) }
{
    let Some(body) = skip_title(bytes) else {
        return Ok(None);
    };
    let first = bytes.len().saturating_sub(body.text.len());
    let lexemes = lexemes(alloc, bytes, first)?;
    if !forms.zalasr {
        if let Some(text) = hidden(alloc, bytes, &lexemes)? {
            return Ok(Some(hidden_form(alloc, text, &lexemes, forms)?));
        }
    }
    readable_form(alloc, bytes, &lexemes, forms)
}

/// Do both have the same words and signs? Linear in the texts.
fn have_same_words(alloc: Global, one: &[u8], other: &[u8]) -> Result<bool, AllocError> {
    let of_one = lexemes(alloc, one, 0)?;
    let of_other = lexemes(alloc, other, 0)?;
    for number in 0..of_one.len().max(of_other.len()) {
        if word_at(one, &of_one, number) != word_at(other, &of_other, number) {
            return Ok(false);
        }
    }
    Ok(true)
}

/// The file with a change that was made in its plain form: with lines put in, or parts of cells changed. Nothing where
/// that can't be done, or the file with it would have another plain form. The cost is that of `plain_form`.
pub fn in_file(
    alloc: Global,
    file: &[u8],
    plain: &[u8],
    changed: &[u8],
    forms: Forms,
) -> Result<Option<Vec<u8>>, Unplain> {
    let Some(made) = restored(alloc, file, plain, changed)? else {
        return Ok(None);
    };
    match plain_form(alloc, &made, forms)? {
        Some(again) if have_same_words(alloc, &again.text, changed)? => Ok(Some(made)),
        _ => Ok(None),
    }
}
