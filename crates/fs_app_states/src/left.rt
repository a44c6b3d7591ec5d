//! The tests of a log that weren't given.

ghost use Rattle.std.specs.Prelude.{◌≡◌, ◌++◌, map, string_bytes, IfOk, OnOk};
ghost use Rattle.fs_app_states.specs.Left.{left_line, left_over};

use crate::Log;
use fs_app_error_messages::shown_name;
use std::alloc::{AllocError, Global};
use std::collections::BTreeSet;

/// Appends the line of a test.
fn push_line(alloc: Global, text: &mut String, name: &str) -> Result<(), AllocError>
    ensures { OnOk result (string_bytes text.new ≡ string_bytes text.old ++ left_line name.now) }
{
    let name = shown_name(alloc, name)?;
    writeln!(text, "{}: in the log, and not given", name.as_str())
}

/// A line for each test of the log whose name is none of these, in the order of the log, and once for each name. Fails
/// only for want of memory. Nearly linear in log and names.
pub fn left_over(alloc: Global, log: &Log<'_>, names: &[String]) -> Result<String, AllocError>
    ensures { IfOk result (λ text. string_bytes text
        ≡ left_over (map string_bytes names.now) (map (λ block. block.name.now) log.now)) }
{
    let mut named = BTreeSet::new(alloc);
    for name in names {
        named.insert(name.as_str())?;
    }
    let mut text = String::new(alloc);
    for block in log.as_slice() {
        if named.insert(block.name)? {
            push_line(alloc, &mut text, block.name)?;
        }
    }
    Ok(text)
}
