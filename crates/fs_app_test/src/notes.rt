//! What is said of a file that is read in a wider form.

use fs_app_error_messages::shown_name;
use fs_app_plain::{OneTurn, widened_words, with_ordered};
use std::alloc::{AllocError, Global};

/// A line for each of these loops of the file, which says that the answer is of one turn, and why. The error is want of
/// memory.
pub(crate) fn turn_notes(
    alloc: Global,
    name: &str,
    turns: &[OneTurn],
) -> Result<String, AllocError> {
    let mut text = String::new(alloc);
    for turn in turns {
        let file = shown_name(alloc, name)?;
        write!(
            text,
            "note: {}: in one turn of the loop at P{}:{}",
            file.as_str(),
            turn.hart,
            turn.at
        )?;
        write!(text, " (line {}): {}\n", turn.line, turn.doubt)?;
    }
    Ok(text)
}

/// The message of a fault of such a file, with mnemonics as the file has them. The error is want of memory.
pub(crate) fn in_form(
    alloc: Global,
    message: String,
    is_wide: bool,
    is_hidden: bool,
) -> Result<String, AllocError> {
    let message = in_width(alloc, message, is_wide)?;
    if !is_hidden {
        return Ok(message);
    }
    let shown = with_ordered(alloc, message.as_bytes())?;
    Ok(String::from_utf8(shown).unwrap_or(message))
}

/// The text; of a file with accesses of 64 bits with these wherever it names those of a word. The error is want of memory.
pub fn in_width(alloc: Global, text: String, is_wide: bool) -> Result<String, AllocError> {
    if !is_wide {
        return Ok(text);
    }
    let wide = widened_words(alloc, text.as_bytes())?;
    Ok(String::from_utf8(wide).unwrap_or(text))
}
