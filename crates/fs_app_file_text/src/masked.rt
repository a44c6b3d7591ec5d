//! A test file without its comments. Contracts don't see it: what is made of it is read again.

use std::alloc::{AllocError, Global};

/// Stands for an LF of a comment.
const ENDED: u8 = 11;

/// Stands for a byte of a comment that takes no column: of a character all but the first.
const NARROW: u8 = 12;

/// Does a line end with it, be it in a comment?
pub(crate) fn ends_line(byte: u8) -> bool {
    byte == b'\n' || byte == ENDED
}

/// Does it take a column?
pub(crate) fn is_wide(byte: u8) -> bool {
    byte != b'\r' && byte != NARROW && !ends_line(byte)
}

/// A blank, an LF, or what stands for a byte of a comment.
pub(crate) fn is_space(byte: u8) -> bool {
    byte == b' ' || byte == b'\t' || !is_wide(byte)
}

/// What stands for a byte of a comment.
fn hidden(byte: u8) -> u8 {
    if byte == b'\t' {
        b'\t'
    } else if byte == b'\n' {
        ENDED
    } else if byte >= 0x80 && byte < 0xc0 {
        NARROW
    } else {
        b' '
    }
}

/// The comments that are open.
#[derive(Clone, Copy)]
struct Comments {
    depth: usize,
    /// The byte before is the first one of a mark.
    is_second: bool,
}

impl Comments {
    /// What stands for the first byte of the rest.
    fn take(&mut self, byte: u8, rest: &[u8]) -> u8 {
        if self.is_second {
            self.is_second = false;
            return b' ';
        }
        if rest.starts_with(b"(*") {
            self.depth = self.depth.saturating_add(1);
            self.is_second = true;
            return b' ';
        }
        if self.depth == 0 {
            return byte;
        }
        if rest.starts_with(b"*)") {
            self.depth -= 1;
            self.is_second = true;
        }
        hidden(byte)
    }
}

/// As many bytes: from number `first` on blanks, or what stands for them, in the place of comments.
pub(crate) fn masked(alloc: Global, bytes: &[u8], first: usize) -> Result<Vec<u8>, AllocError> {
    let mut made = Vec::new(alloc);
    let mut comments = Comments {
        depth: 0,
        is_second: false,
    };
    for (i, byte) in bytes.iter().enumerate() {
        let shown = if i < first {
            *byte
        } else {
            comments.take(*byte, &bytes[i..])
        };
        made.push(shown)?;
    }
    Ok(made)
}
