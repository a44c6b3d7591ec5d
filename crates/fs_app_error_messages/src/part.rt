//! Which tokens of a test file a fault is of. These promise nothing: what is left without them is read again.

use fs_kinds::Fault;
use fs_litmus_syntax::read_form;
use fs_litmus_tokens::{Class, Kind, Mark, Stop, Token};
use std::alloc::{AllocError, Global};

/// Tokens, from the number of the first up to an end.
#[derive(Clone, Copy)]
pub(crate) struct Part {
    pub(crate) first: usize,
    pub(crate) end: usize,
}

/// The tokens of a file, and the number of the one that a fault is pointed at by.
#[derive(Clone, Copy)]
pub(crate) struct Spot<'b, 'a> {
    pub(crate) tokens: &'b [Token<'a>],
    pub(crate) number: usize,
}

fn is_mark(kind: Option<Kind<'_>>, mark: Mark) -> bool {
    match kind {
        Some(Kind::Sign(found)) => found == mark,
        _ => false,
    }
}

/// Is it a word that may be a label?
fn is_label(kind: Option<Kind<'_>>) -> bool {
    match kind {
        Some(Kind::Word(class, _)) => class.is_name() || matches!(class, Class::Number),
        _ => false,
    }
}

fn ends_cell(kind: Kind<'_>) -> bool {
    matches!(kind, Kind::Sign(Mark::Bar | Mark::Semicolon))
}

fn ends_entry(kind: Kind<'_>) -> bool {
    matches!(kind, Kind::Sign(Mark::Semicolon | Mark::CloseBrace))
}

fn begins_entry(kind: Kind<'_>) -> bool {
    matches!(kind, Kind::Sign(Mark::Semicolon | Mark::OpenBrace))
}

/// May the entry be told apart that breaks off at this token?
fn is_in_entry(kind: Option<Kind<'_>>) -> bool {
    match kind {
        Some(Kind::Word(_, _)) => true,
        Some(Kind::Sign(mark)) => !matches!(mark, Mark::OpenBrace | Mark::CloseBrace | Mark::Bar),
        _ => false,
    }
}

impl<'b, 'a> Spot<'b, 'a> {
    /// The token of this number.
    fn at(self, number: usize) -> Option<Kind<'a>> {
        Some(self.tokens.get(number)?.kind)
    }

    /// Does a colon stand behind the token of this number?
    fn has_colon(self, number: usize) -> bool {
        is_mark(self.at(number.saturating_add(1)), Mark::Colon)
    }

    /// The end of a cell in which the token of this number stands.
    fn cell_end(self, number: usize) -> usize {
        for (i, token) in self.tokens.iter().enumerate() {
            if number <= i && ends_cell(token.kind) {
                return i;
            }
        }
        self.tokens.len()
    }

    /// The rest of a cell, from this token on.
    fn rest_of_cell(self, first: usize) -> Part {
        Part {
            first,
            end: self.cell_end(first),
        }
    }

    /// A cell that begins with the token, without the labels at its front.
    fn cell(self) -> Part {
        let mut first = self.number;
        for _label in 0..self.tokens.len() {
            if !is_label(self.at(first)) || !self.has_colon(first) {
                break;
            }
            first = first.saturating_add(2);
        }
        self.rest_of_cell(first)
    }

    /// The label, or else the instruction that goes to one.
    fn label(self) -> Part {
        if self.has_colon(self.number) {
            return Part {
                first: self.number,
                end: self.number.saturating_add(2),
            };
        }
        self.rest_of_cell(self.number)
    }

    /// Where the entry begins in which the token stands.
    fn entry_start(self) -> usize {
        let mut start = 0;
        for (i, token) in self.tokens.iter().enumerate() {
            if i < self.number && begins_entry(token.kind) {
                start = i.saturating_add(1);
            }
        }
        start
    }

    /// The end of that entry, behind its `;`.
    fn entry_end(self) -> usize {
        for (i, token) in self.tokens.iter().enumerate() {
            if self.number <= i && ends_entry(token.kind) {
                return if is_mark(Some(token.kind), Mark::CloseBrace) {
                    i
                } else {
                    i.saturating_add(1)
                };
            }
        }
        self.tokens.len()
    }

    fn entry(self) -> Part {
        Part {
            first: self.entry_start(),
            end: self.entry_end(),
        }
    }

    /// Does the token stand among the initial values?
    fn is_initial(self) -> bool {
        for (i, token) in self.tokens.iter().enumerate() {
            if i < self.number && is_mark(Some(token.kind), Mark::CloseBrace) {
                return false;
            }
        }
        true
    }

    /// Does the token stand in the rows, of a text whose form they don't break?
    fn is_in_rows(self, alloc: Global) -> Result<bool, AllocError> {
        match read_form(alloc, self.tokens) {
            Ok((_, rest)) => Ok(self.number.saturating_add(rest.len()) < self.tokens.len()),
            Err(Stop::Memory) => Err(AllocError),
            Err(Stop::At(_)) => Ok(false),
        }
    }

    /// An entry or a cell of another form.
    fn malformed(self, alloc: Global) -> Result<Option<Part>, AllocError> {
        if self.is_initial() {
            return Ok(if is_in_entry(self.at(self.number)) {
                Some(self.entry())
            } else {
                None
            });
        }
        if self.is_in_rows(alloc)? {
            Ok(Some(self.cell()))
        } else {
            Ok(None)
        }
    }

    /// The tokens that the fault is of; none where it can't be told apart from what is behind it. Linear in the
    /// tokens. Fails only for want of memory.
    pub(crate) fn part(self, alloc: Global, fault: Fault) -> Result<Option<Part>, AllocError> {
        match fault {
            Fault::Syntax { .. } => self.malformed(alloc),
            Fault::UnknownInstr { .. } | Fault::BadAnnotation { .. } => {
                Ok(Some(self.rest_of_cell(self.number)))
            }
            Fault::BadLabel { .. } => Ok(Some(self.label())),
            Fault::BadInit { .. } => Ok(Some(self.entry())),
            _ => Ok(None),
        }
    }
}
