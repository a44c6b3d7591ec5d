//! The rows of a test file, and what stands behind them.

use crate::lexemes::{Lexeme, word_at};
use std::alloc::{AllocError, Global};

/// More harts no test has.
pub(crate) const MOST_HARTS: usize = 8;

/// More instructions no test has: 8 harts have 32 each.
const MOST_INSTRUCTIONS: usize = 256;

/// So many labels are looked at.
const MOST_LABELS: usize = 1024;

/// An instruction, by numbers of lexemes: its mnemonic, and the last one of its cell.
#[derive(Clone, Copy)]
pub(crate) struct Instruction {
    pub(crate) hart: usize,
    /// So many instructions of the hart stand before it.
    pub(crate) at: usize,
    pub(crate) mnemonic: usize,
    pub(crate) last: usize,
}

/// A label, by the number of its lexeme.
#[derive(Clone, Copy)]
pub(crate) struct Label {
    pub(crate) hart: usize,
    /// So many instructions of the hart stand before it.
    pub(crate) at: usize,
    pub(crate) name: usize,
}

/// A test file, by numbers of lexemes.
#[derive(Drop)]
pub(crate) struct Sheet {
    pub(crate) columns: usize,
    pub(crate) instructions: Vec<Instruction>,
    pub(crate) labels: Vec<Label>,
    /// The `;` that ends the last row.
    pub(crate) rows_end: usize,
    /// The first one behind the rows.
    pub(crate) tail: usize,
    /// There aren't more instructions, labels or harts than are looked at.
    pub(crate) is_whole: bool,
    /// So many instructions of each hart.
    counts: Vec<usize>,
}

/// The part of the file in which a lexeme stands.
#[derive(Clone, Copy)]
enum Part {
    Entries,
    Header,
    Rows,
}

/// Where the walk through the rows is.
#[derive(Clone, Copy)]
struct Walk {
    part: Part,
    hart: usize,
    /// The first lexeme of the cell.
    first: usize,
}

/// Does it end the rows, where a row would begin with it?
fn stops_rows(word: &str, next: &str) -> bool {
    match word {
        "locations" | "exists" | "forall" | "~" => true,
        "filter" => next != ":",
        _ => false,
    }
}

impl Sheet {
    fn new(alloc: Global, tail: usize) -> Result<Sheet, AllocError> {
        Ok(Sheet {
            columns: 1,
            instructions: Vec::new(alloc),
            labels: Vec::new(alloc),
            rows_end: 0,
            tail,
            is_whole: true,
            counts: Vec::from_array(alloc, [0; MOST_HARTS])?,
        })
    }

    /// So many instructions of the hart stand before what comes next.
    fn position(&self, hart: usize) -> usize {
        match self.counts.get(hart) {
            Some(count) => *count,
            None => 0,
        }
    }

    fn add_label(&mut self, hart: usize, name: usize) -> Result<(), AllocError> {
        let at = self.position(hart);
        self.labels.push(Label { hart, at, name })?;
        Ok(())
    }

    fn add_instruction(
        &mut self,
        hart: usize,
        mnemonic: usize,
        end: usize,
    ) -> Result<(), AllocError> {
        let at = self.position(hart);
        self.instructions.push(Instruction {
            hart,
            at,
            mnemonic,
            last: end.saturating_sub(1),
        })?;
        if let Some(count) = self.counts.get_mut(hart) {
            *count = at.saturating_add(1);
        }
        Ok(())
    }

    /// Adds the cell of these lexemes. False where there are too many.
    fn add_cell(
        &mut self,
        text: &[u8],
        lexemes: &[Lexeme],
        hart: usize,
        first: usize,
        end: usize,
    ) -> Result<bool, AllocError> {
        let mut is_label = true;
        for number in first..end {
            let next = number.saturating_add(1);
            if is_label && word_at(text, lexemes, number) != ":" {
                is_label = next < end && word_at(text, lexemes, next) == ":";
                if is_label {
                    self.add_label(hart, number)?;
                } else {
                    self.add_instruction(hart, number, end)?;
                }
            }
        }
        self.is_whole = hart < MOST_HARTS
            && self.labels.len() <= MOST_LABELS
            && self.instructions.len() <= MOST_INSTRUCTIONS;
        Ok(self.is_whole)
    }

    /// Takes the lexeme of this number. False where nothing behind it counts.
    fn take(
        &mut self,
        text: &[u8],
        lexemes: &[Lexeme],
        walk: &mut Walk,
        number: usize,
    ) -> Result<bool, AllocError> {
        let word = word_at(text, lexemes, number);
        match walk.part {
            Part::Entries => {
                if word == "}" {
                    walk.part = Part::Header;
                }
                Ok(true)
            }
            Part::Header => {
                if word == "|" {
                    self.columns = self.columns.saturating_add(1);
                } else if word == ";" {
                    walk.part = Part::Rows;
                    walk.first = number.saturating_add(1);
                }
                Ok(true)
            }
            Part::Rows => {
                let next = word_at(text, lexemes, number.saturating_add(1));
                if walk.hart == 0 && walk.first == number && stops_rows(word, next) {
                    self.tail = number;
                    return Ok(false);
                }
                if word != "|" && word != ";" {
                    return Ok(true);
                }
                let goes_on = self.add_cell(text, lexemes, walk.hart, walk.first, number)?;
                walk.first = number.saturating_add(1);
                walk.hart = walk.hart.saturating_add(1);
                if word == ";" {
                    walk.hart = 0;
                    self.rows_end = number;
                }
                Ok(goes_on)
            }
        }
    }
}

/// The rows of a text of these lexemes, and what stands behind them. Linear in the text.
pub(crate) fn sheet_of(
    alloc: Global,
    text: &[u8],
    lexemes: &[Lexeme],
) -> Result<Sheet, AllocError> {
    let mut sheet = Sheet::new(alloc, lexemes.len())?;
    let mut walk = Walk {
        part: Part::Entries,
        hart: 0,
        first: 0,
    };
    for number in 0..lexemes.len() {
        if !sheet.take(text, lexemes, &mut walk, number)? {
            return Ok(sheet);
        }
    }
    Ok(sheet)
}
