//! What stands in a hart's cells, as it is read.

ghost use Rattle.std.specs.Prelude.{◌≡◌, ◌∷◌, ◌++◌, [], option_map, IfOk};
ghost use Rattle.fs_litmus_syntax.specs.Cells.{Label, Instruction};

use fs_instr::Instr;
use std::alloc::{AllocError, Global};
use std::marker::Model;

/// A label before the next instruction or at the end, or an instruction, with its line.
#[derive(Clone, Copy)]
pub(crate) enum Mark<'a> {
    Label {
        name: &'a str,
        line: usize,
    },
    /// The instruction of this number, and the label that it names where it is a branch.
    Instruction {
        number: usize,
        target: Option<&'a str>,
        line: usize,
    },
}

/// What stands in a hart's cells. Contracts see the list of the labels and instructions.
#[derive(Drop)]
pub(crate) struct Listing<'a> {
    pub(crate) marks: Vec<Mark<'a>>,
    pub(crate) code: Vec<Instr>,
}

impl<'a> Model for Listing<'a> {
    ghost use Rattle.std.specs.Prelude.{List};
    ghost use Rattle.fs_litmus_syntax.specs.Cells.{Item};
    ghost use Rattle.fs_litmus_syntax.specs.inner.Listings.{marked, AreWithin};

    ghost Value = { List Item };

    ghost view = { λ l. marked l.code.items l.marks.items };

    ghost invariant = { λ l. AreWithin l.code.items l.marks.items };
}

impl<'a> Listing<'a> {
    /// Nothing.
    pub(crate) fn new(alloc: Global) -> Listing<'a>
        ensures { result ≡ [] }
    {
        Listing {
            marks: Vec::new(alloc),
            code: Vec::new(alloc),
        }
    }

    /// Appends a label. Fails only for want of memory.
    pub(crate) fn push_label(&mut self, name: &'a str, line: usize) -> Result<(), AllocError>
        ensures { IfOk result (λ _. self.new ≡ self.old ++ Label name.now line ∷ []) }
    {
        self.marks.push(Mark::Label { name, line })?;
        Ok(())
    }

    /// Appends an instruction, and the label that it names where it is a branch. Fails only for want of memory.
    pub(crate) fn push_instruction(
        &mut self,
        instr: Instr,
        target: Option<&'a str>,
        line: usize,
    ) -> Result<(), AllocError>
        ensures { IfOk result (λ _. self.new
            ≡ self.old ++ Instruction instr (option_map (λ w. w.now) target.entry) line ∷ []) }
    {
        let number = self.code.len();
        self.code.push(instr)?;
        self.marks.push(Mark::Instruction {
            number,
            target,
            line,
        })?;
        Ok(())
    }
}
