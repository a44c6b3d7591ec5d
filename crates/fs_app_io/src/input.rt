//! The files that a run reads.
use crate::bytes::read_bytes;
use crate::missing::Missing;
use crate::unread::Unread;
use std::fs::File;
use std::rt::Files;

/// Tests, prices and witnesses are read up to this many bytes.
pub const INPUT_LIMIT: usize = 1_048_576;

/// Is this the name of standard input?
pub(crate) fn is_standard_input(path: &str) -> bool {
    path == "-" || path == "stdin"
}

/// The bytes of a test: of standard input where it is called `-` or `stdin`, else of the file.
pub fn read_input<R: Files + Input + AllocGlobal>(rt: &R, path: &str) -> Result<Vec<u8>, Missing> {
    if is_standard_input(path) {
        return Ok(read_bytes(rt.alloc(), &mut rt.reader(), INPUT_LIMIT)?);
    }
    read_file(rt, path, INPUT_LIMIT)
}

/// The bytes of the file, where there are at most `limit`.
pub fn read_file<R: Files + AllocGlobal>(
    rt: &R,
    path: &str,
    limit: usize,
) -> Result<Vec<u8>, Missing> {
    match File::open(rt, path) {
        Ok(mut file) => Ok(read_bytes(rt.alloc(), &mut file, limit)?),
        Err(error) => Err(Missing::Unread(Unread::of(error.kind()))),
    }
}
