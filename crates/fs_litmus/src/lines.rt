//! The lines in which the instructions of a test file stand.

ghost use Rattle.std.specs.Prelude.{◌≢◌, ℕ, IfOk, IfErr};
ghost use Rattle.fs_litmus.specs.Faults.{IsBroken};
ghost use Rattle.fs_litmus.specs.Lines.{StandIn};

use crate::reader::{read_sections, stopped};
use crate::title::{Body, last_line, skip_title};
use fs_kinds::{Fault, List};
use fs_litmus_tokens::tokens;
use std::alloc::Global;

/// The lines in which the instructions of each hart stand, of a file that `read_test` reads: of each the line of its
/// mnemonic, the first line being line 1. F3 where the bytes aren't of the form; or F19. Linear in the bytes.
pub fn read_lines(alloc: Global, bytes: &[u8]) -> Result<Vec<List<usize>>, Fault>
    ensures ok { IfOk result (λ lines. StandIn bytes.now lines.items) }
    ensures err { IfErr result (λ f. f ≢ Fault.Memory → (line : ℕ) × IsBroken bytes.now line) }
{
    let last = last_line(bytes);
    let Some(Body { text, line }) = skip_title(bytes) else {
        return Err(Fault::Syntax { line: last });
    };
    let (tokens, closed) = tokens(alloc, text, line)?;
    let (form, _condition) = match read_sections(alloc, &tokens) {
        Ok(sections) => sections,
        Err(stop) => return Err(stopped(stop, last)),
    };
    if !closed {
        return Err(Fault::Syntax { line: last });
    }
    Ok(fs_litmus_syntax::read_lines(alloc, form.columns, &form.cells)?)
}
