//! The branches of a test file that go back.

use crate::lexemes::{Lexeme, part, word_at};
use crate::sheet::{Instruction, Label, MOST_HARTS, Sheet};
use fs_instr::Reg;
use fs_litmus_tokens::number_of;
use std::alloc::{AllocError, Global};

/// How many registers a hart has.
const REGISTERS: usize = 32;

/// How the label begins to which branches go that have no other turn to make.
const NEXT_TURN: &str = "NextTurn";

/// A branch that goes back, by positions in its hart's code.
#[derive(Clone, Copy)]
pub(crate) struct Turn {
    pub(crate) hart: usize,
    pub(crate) at: usize,
    /// Where it goes.
    pub(crate) to: usize,
    /// Its line in the file, from 1 on.
    pub(crate) line: usize,
}

/// The branches of a test that go back, and what stands for them.
#[derive(Drop)]
pub(crate) struct Loops {
    pub(crate) turns: Vec<Turn>,
    /// The lexemes of the labels in these branches.
    pub(crate) branches: Vec<usize>,
    /// The lexemes of labels to which no other branch goes.
    pub(crate) labels: Vec<usize>,
    /// Of each hart whether one of its branches goes back.
    pub(crate) harts: Vec<bool>,
    /// A register that the file doesn't name.
    pub(crate) register: usize,
    /// A label that it doesn't name, to which branches go that have no other turn to make.
    pub(crate) next_turn: String,
}

fn is_branch(mnemonic: &str) -> bool {
    matches!(
        mnemonic,
        "beq"
            | "bne"
            | "blt"
            | "bge"
            | "bltu"
            | "bgeu"
            | "beqz"
            | "bnez"
            | "blez"
            | "bgez"
            | "bltz"
            | "bgtz"
            | "bgt"
            | "ble"
            | "bgtu"
            | "bleu"
            | "j"
            | "jal"
    )
}

fn is_number(label: &str) -> bool {
    label.bytes().all(|byte| byte.is_ascii_digit())
}

/// Does a branch call this label, a number, with the letter behind it?
fn is_numbered(label: &str, word: &str, letter: char) -> bool {
    match word.strip_suffix(letter) {
        Some(number) => number == label && is_number(label),
        None => false,
    }
}

/// May a branch that names it so go back to this label?
fn is_named(label: &str, word: &str) -> bool {
    is_numbered(label, word, 'b') || label == word && !is_number(label)
}

/// The one label of the hart that the branch names; nothing where there are none or several.
fn label_of(
    text: &[u8],
    lexemes: &[Lexeme],
    labels: &[Label],
    branch: &Instruction,
) -> Option<Label> {
    let word = word_at(text, lexemes, branch.last);
    let mut found = None;
    for label in labels {
        if label.hart == branch.hart && is_named(word_at(text, lexemes, label.name), word) {
            if found.is_some() {
                return None;
            }
            found = Some(*label);
        }
    }
    found
}

/// The label to which the instruction goes back, if it does.
fn goes_back_to(
    text: &[u8],
    lexemes: &[Lexeme],
    labels: &[Label],
    instruction: &Instruction,
) -> Option<Label> {
    if !is_branch(word_at(text, lexemes, instruction.mnemonic))
        || instruction.last == instruction.mnemonic
    {
        return None;
    }
    let label = label_of(text, lexemes, labels, instruction)?;
    if label.at <= instruction.at {
        Some(label)
    } else {
        None
    }
}

/// For each instruction the label to which it goes back, if it does.
fn labels_behind(
    alloc: Global,
    text: &[u8],
    lexemes: &[Lexeme],
    sheet: &Sheet,
) -> Result<Vec<Option<Label>>, AllocError> {
    let mut found = Vec::new(alloc);
    for instruction in &sheet.instructions {
        found.push(goes_back_to(text, lexemes, &sheet.labels, instruction))?;
    }
    Ok(found)
}

/// Does a branch that doesn't go back end in this label?
fn is_ahead(
    text: &[u8],
    lexemes: &[Lexeme],
    sheet: &Sheet,
    behind: &[Option<Label>],
    label: &Label,
) -> bool {
    let name = word_at(text, lexemes, label.name);
    for (number, instruction) in sheet.instructions.iter().enumerate() {
        let goes_back = matches!(behind.get(number), Some(Some(_)));
        let word = word_at(text, lexemes, instruction.last);
        if instruction.hart == label.hart
            && !goes_back
            && is_branch(word_at(text, lexemes, instruction.mnemonic))
            && (word == name || is_numbered(name, word, 'f'))
        {
            return true;
        }
    }
    false
}

/// The greatest register that no word of the file names.
fn free_register(alloc: Global, text: &[u8], lexemes: &[Lexeme]) -> Result<usize, AllocError> {
    let mut named = Vec::from_array(alloc, [false; REGISTERS])?;
    for lexeme in lexemes {
        if let Some(register) = Reg::of(lexeme.word(text)) {
            let number = usize::from(register.number());
            if number < named.len() {
                named[number] = true;
            }
        }
    }
    for number in 1..named.len() {
        let greatest = named.len() - number;
        if !named[greatest] {
            return Ok(greatest);
        }
    }
    Ok(0)
}

/// The least number behind `NextTurn` with which no word of the file has it; 0 stands for none. Linear in the lexemes.
fn free_number(alloc: Global, text: &[u8], lexemes: &[Lexeme]) -> Result<usize, AllocError> {
    let mut named = Vec::new(alloc);
    for _ in 0..lexemes.len() {
        named.push(false)?;
    }
    for lexeme in lexemes {
        if let Some(more) = lexeme.word(text).strip_prefix(NEXT_TURN) {
            let number = number_of(more).unwrap_or(0) as usize;
            if number < named.len() {
                named[number] = true;
            }
        }
    }
    for number in 0..named.len() {
        if !named[number] {
            return Ok(number);
        }
    }
    Ok(named.len())
}

/// The label of this number.
fn next_turn(alloc: Global, number: usize) -> Result<String, AllocError> {
    if number == 0 {
        return String::from_str(alloc, NEXT_TURN);
    }
    format!(in alloc; "{NEXT_TURN}{number}")
}

/// A place in a text: its byte, and its line, from 1 on.
#[derive(Clone, Copy)]
struct Place {
    byte: usize,
    line: usize,
}

impl Place {
    /// The place of a byte that isn't before this one. Linear in the bytes between them.
    fn later(self, text: &[u8], byte: usize) -> Place {
        let mut line = self.line;
        for passed in part(text, self.byte, byte) {
            if *passed == b'\n' {
                line = line.saturating_add(1);
            }
        }
        Place { byte, line }
    }
}

/// The branches that go back, each to this label of its instruction's. Linear in the text.
fn turns_of(
    alloc: Global,
    text: &[u8],
    lexemes: &[Lexeme],
    sheet: &Sheet,
    behind: &[Option<Label>],
) -> Result<Vec<Turn>, AllocError> {
    let mut turns = Vec::new(alloc);
    let mut place = Place { byte: 0, line: 1 };
    for (number, instruction) in sheet.instructions.iter().enumerate() {
        if let Some(lexeme) = lexemes.get(instruction.mnemonic) {
            place = place.later(text, lexeme.start);
        }
        if let Some(Some(label)) = behind.get(number) {
            turns.push(Turn {
                hart: instruction.hart,
                at: instruction.at,
                to: label.at,
                line: place.line,
            })?;
        }
    }
    Ok(turns)
}

/// The branches that go back. Nothing where there are none, or no register is free.
pub(crate) fn loops_of(
    alloc: Global,
    text: &[u8],
    lexemes: &[Lexeme],
    sheet: &Sheet,
) -> Result<Option<Loops>, AllocError> {
    let mut branches = Vec::new(alloc);
    let mut labels = Vec::new(alloc);
    let mut harts = Vec::from_array(alloc, [false; MOST_HARTS])?;
    let behind = labels_behind(alloc, text, lexemes, sheet)?;
    let turns = turns_of(alloc, text, lexemes, sheet, &behind)?;
    for (number, instruction) in sheet.instructions.iter().enumerate() {
        if let Some(Some(label)) = behind.get(number) {
            branches.push(instruction.last)?;
            if !is_ahead(text, lexemes, sheet, &behind, label) {
                labels.push(label.name)?;
            }
            if instruction.hart < harts.len() {
                harts[instruction.hart] = true;
            }
        }
    }
    let register = free_register(alloc, text, lexemes)?;
    if branches.is_empty() || register == 0 {
        return Ok(None);
    }
    let number = free_number(alloc, text, lexemes)?;
    Ok(Some(Loops {
        turns,
        branches,
        labels,
        harts,
        register,
        next_turn: next_turn(alloc, number)?,
    }))
}

/// Appends a row with this cell in the columns of these harts.
fn push_row(
    text: &mut Vec<u8>,
    columns: usize,
    harts: &[bool],
    cell: &[u8],
) -> Result<(), AllocError> {
    for column in 0..columns {
        if column > 0 {
            text.extend_from_slice(b" |")?;
        }
        if harts.get(column) == Some(&true) {
            text.push(b' ')?;
            text.extend_from_slice(cell)?;
        }
    }
    text.extend_from_slice(b" ;")
}

impl Loops {
    /// Appends the rows that end the code of each hart with a loop: the register becomes 1, and behind that stands the
    /// label to which branches go that have no other turn to make.
    pub(crate) fn push_rows(
        &self,
        alloc: Global,
        text: &mut Vec<u8>,
        columns: usize,
    ) -> Result<(), AllocError> {
        let mark = format!(in alloc; "li x{},1", self.register)?;
        push_row(text, columns, &self.harts, mark.as_bytes())?;
        let label = format!(in alloc; "{}:", self.next_turn.as_str())?;
        push_row(text, columns, &self.harts, label.as_bytes())
    }

    /// Appends for each hart with a loop that its register is 1, joined by `/\`.
    pub(crate) fn push_marks(
        &self,
        alloc: Global,
        text: &mut Vec<u8>,
        is_first: bool,
    ) -> Result<(), AllocError> {
        let mut is_first = is_first;
        for (hart, has_loop) in self.harts.iter().enumerate() {
            if *has_loop {
                if !is_first {
                    text.extend_from_slice(b" /\\ ")?;
                }
                is_first = false;
                let atom = format!(in alloc; "{}:x{}=1", hart, self.register)?;
                text.extend_from_slice(atom.as_bytes())?;
            }
        }
        Ok(())
    }
}
