//! What the system lets a run use: how much files may grow, and how large its stack is.
use crate::bytes::write_text;
use fs_kinds::Fault;
use std::alloc::{AllocError, Global};
use std::fmt::Display;
use std::fs::{File, Metadata, metadata};
use std::io::{Read, Write};
use std::rt::Files;

/// So many bytes of stack are asked for: four times what runs on hostile files were seen to need.
const LEAST_STACK: u64 = 524_288;

/// Where the system says what it lets a run use: a line for each limit, with its name, the limit, and the greatest that
/// may be asked for.
const LIMITS: &str = "/proc/self/limits";

/// So much of it is looked at: some 1,400 bytes are there.
const MOST_LIMITS: usize = 4096;

/// The limit of this name, where there is one and the system says it.
fn limit<R: Files>(rt: &R, name: &str) -> Option<u64> {
    let mut file = File::open(rt, LIMITS).ok()?;
    let mut bytes = [0u8; MOST_LIMITS];
    let count = file.read(&mut bytes).ok()?;
    limit_in(str::from_utf8(&bytes[..count]).ok()?, name)
}

/// The number behind this name in the text. None where there is none, as with `unlimited`.
fn limit_in(text: &str, name: &str) -> Option<u64> {
    for line in text.lines() {
        if let Some(rest) = line.strip_prefix(name) {
            return rest.split_ascii_whitespace().next()?.parse().ok();
        }
    }
    None
}

/// Whether the stack is large enough for any run.
pub fn has_stack<R: Files>(rt: &R) -> bool {
    match limit(rt, "Max stack size") {
        Some(most) => most >= LEAST_STACK,
        None => true,
    }
}

/// How many bytes may be appended to an open file. None: as many as there is room for on its disk.
pub(crate) fn room_in<R: Files>(rt: &R, found: &Metadata) -> Option<usize> {
    if !found.is_file() {
        return None;
    }
    let most = limit(rt, "Max file size")?;
    Some(usize::try_from(most.saturating_sub(found.len())).unwrap_or(usize::MAX))
}

/// The same of the file that is standard output, `/dev/stdout`, or standard error, `/dev/stderr`.
pub fn room_of<R: Files>(rt: &R, stream: &str) -> Option<usize> {
    match metadata(rt, stream) {
        Ok(found) => room_in(rt, &found),
        Err(_) => None,
    }
}

/// Writes the whole text. Of one for which there is no room what fits is written: the first byte behind that would end
/// the run by a signal, and so it is a `WriteFault`.
pub fn write_within<W: Write>(
    writer: &mut W,
    text: &[u8],
    room: Option<usize>,
) -> Result<(), Fault> {
    let count = room.unwrap_or(usize::MAX).min(text.len());
    write_text(writer, &text[..count])?;
    if count < text.len() {
        return Err(Fault::WriteFault);
    }
    Ok(())
}

/// The lines of the text that fit into so many bytes, from the first on.
fn lines_within(alloc: Global, text: &str, room: usize) -> Result<String, AllocError> {
    let mut kept = String::new(alloc);
    for line in text.split_inclusive('\n') {
        if kept.len().saturating_add(line.len()) > room {
            break;
        }
        kept.push_str(line)?;
    }
    Ok(kept)
}

/// Prints on standard error the lines for which there is room. Where that fails the status alone tells.
pub fn tell<R: Files + Eprint + AllocGlobal>(rt: &R, said: &impl Display) {
    let Some(room) = room_of(rt, "/dev/stderr") else {
        let _ = rt.eprint(said);
        return;
    };
    if let Ok(text) = format!(in rt.alloc(); "{said}") {
        if let Ok(kept) = lines_within(rt.alloc(), text.as_str(), room) {
            let _ = rt.eprint(kept.as_str());
        }
    }
}
