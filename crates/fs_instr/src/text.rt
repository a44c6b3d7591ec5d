//! Instructions from text.

ghost use Rattle.std.specs.Prelude.{◌≡◌, List, ℕ, Option, Ok, IfOk};
ghost use Rattle.fs_instr.specs.OfTable.{IsOfTable};
ghost use Rattle.fs_instr.specs.Reading.{outcome_of};
ghost use Rattle.fs_instr.specs.Texts.{TextAnswers, SpellsText, IsReading, text_outcome, fault_of};
ghost use Rattle.fs_instr.specs.declared.instr.Instr.{Instr};

use crate::reading::{Parsed, Refused, read_tokens};
use fs_kinds::Fault;
use fs_litmus_tokens::first_tokens;

fn fault_of(refused: Refused) -> Fault
    ensures { result ≡ fault_of refused }
{
    match refused {
        Refused::Form => Fault::Syntax { line: 1 },
        Refused::Name => Fault::UnknownInstr { line: 1 },
        Refused::Suffix => Fault::BadAnnotation { line: 1 },
    }
}

fn read_text<'a>(text: &'a str) -> Result<Parsed<'a>, Refused>
    ensures answers { TextAnswers text.now (outcome_of result) }
    ensures only { (i : Instr) (l : Option (List ℕ)) → SpellsText text.now i l → outcome_of result ≡ Ok (i, l) }
{
    let few = first_tokens(text.as_bytes());
    if !few.closed || !few.plain {
        return Err(Refused::Form);
    }
    let kept = few.len.min(20);
    read_tokens(&few.tokens[..kept])
}

/// The instruction that a text spells, without labels in front; comments and line ends are blanks. Takes no memory;
/// linear in the text. Its faults have line 1: `Syntax` where a comment isn't closed or a character belongs to no
/// token, whatever else is wrong, where the text doesn't begin with a word, or where the table has its first word with
/// other operands; `UnknownInstr` where the first word is no name of the table; `BadAnnotation` for `lr.w.rl`,
/// `lw.rl`, `sc.w.aq` and `sw.aq` with operands of the right shape.
pub fn read_instr<'a>(text: &'a str) -> Result<Parsed<'a>, Fault>
    ensures reading { IsReading text.now (text_outcome result) }
    // It is one of the table: operands in range, annotations that the table lists.
    ensures table { IfOk result (λ p. IsOfTable p.instr) }
    // No text spells two instructions.
    ensures only { (i : Instr) (l : Option (List ℕ)) → SpellsText text.now i l → text_outcome result ≡ Ok (i, l) }
{
    match read_text(text) {
        Ok(parsed) => Ok(parsed),
        Err(refused) => Err(fault_of(refused)),
    }
}
