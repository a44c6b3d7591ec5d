//! Cells of a table.

ghost use Rattle.std.specs.Prelude.{◌≡◌, IfOk, string_bytes};
ghost use Rattle.fs_report.specs.Cells.{padded};

use std::alloc::{AllocError, Global};

/// The text with blanks behind it up to this many bytes; a longer text as it is. The error is want of memory.
pub fn padded(alloc: Global, width: usize, text: &str) -> Result<String, AllocError>
    ensures { IfOk result (λ padding. string_bytes padding ≡ padded width text.now) }
{
    let mut padding = String::from_str(alloc, text)?;
    let blanks = " ".repeat(alloc, width.saturating_sub(text.len()))?;
    padding.push_str(blanks.as_str())?;
    Ok(padding)
}
