//! Lines of lists.

ghost use Rattle.std.specs.Prelude.{◌≡◌, map, IfOk};
ghost use Rattle.std.specs.Str.Lines.{lines};
ghost use Rattle.fs_app_io.specs.Lines.{says};

use std::alloc::{AllocError, Global};

/// Says the line, without the blanks at its ends, something?
pub fn says(line: &str) -> bool
    ensures { result ≡ says line.now }
{
    match line.as_bytes().first() {
        Some(byte) => *byte != b'#',
        None => false,
    }
}

/// The lines of a text, without their ends.
pub fn lines_of<'a>(alloc: Global, text: &'a str) -> Result<Vec<&'a str>, AllocError>
    ensures { IfOk result (λ made. map (λ line. line.now) made.items ≡ lines text.now) }
{
    text.lines().collect(alloc)
}
