//! Reading a whole input and writing a whole text.
ghost use Rattle.std.specs.Prelude.{◌≡◌, ◌≤◌, true, false, vec_len, OnOk, OnErr, IfOk, IfErr};
ghost use Rattle.std.specs.Io.{ReadsAtMost, WritesAtMost};
ghost use Rattle.std.specs.Io.KnownBytes.{Appends, Consumes, IsAtEnd, ReadConsumes, WriteAppends};
ghost use Rattle.fs_app_io.specs.Bytes.{TakesFront, TakesMore, WritesPrefix};
ghost use Rattle.fs_app_io.specs.Unread.{is_too_long};

use crate::unread::Unread;
use fs_kinds::Fault;
use std::alloc::Global;
use std::io::{ErrorKind, Read, Write};

/// How many bytes one read asks for.
const CHUNK: usize = 8192;

/// So many times in a row a call that a signal interrupted is made: no clock ends it, and that it ends is proved.
const MOST_TRIES: u64 = u64::MAX;

/// One read, made again where a signal interrupts it.
fn read_some<R: Read>(reader: &mut R, chunk: &mut [u8]) -> Result<usize, Unread>
    ensures bound { ReadsAtMost result chunk.new }
    ensures bytes { ReadConsumes (R.remaining reader.old) (R.remaining reader.new) result chunk.new }
    ensures kind { IfErr result (λ why. is_too_long why ≡ false) }
{
    for _ in 0..MOST_TRIES {
        match reader.read(chunk) {
            Ok(count) => return Ok(count),
            Err(error) if error.kind() == ErrorKind::Interrupted => {}
            Err(error) => return Err(Unread::of(error.kind())),
        }
    }
    Err(Unread::Failed)
}

/// One write, made again where a signal interrupts it.
fn write_some<W: Write>(writer: &mut W, text: &[u8]) -> Result<usize, Fault>
    ensures bound { WritesAtMost result text.now }
    ensures bytes { WriteAppends (W.contents writer.old) (W.contents writer.new) result text.now }
    ensures fault { IfErr result (λ fault. fault ≡ Fault.WriteFault) }
{
    for _ in 0..MOST_TRIES {
        match writer.write(text) {
            Ok(count) => return Ok(count),
            Err(error) if error.kind() == ErrorKind::Interrupted => {}
            Err(_) => return Err(Fault::WriteFault),
        }
    }
    Err(Fault::WriteFault)
}

/// All bytes that the reader has left, where they are at most `limit`. It reads at most `limit + 1` times, but for
/// reads that a signal interrupts: these are made again.
///
/// `TooLong` where more than `limit` bytes come: so many were taken then. After another error some bytes were.
pub fn read_bytes<R: Read>(alloc: Global, reader: &mut R, limit: usize) -> Result<Vec<u8>, Unread>
    ensures within { IfOk result (λ bytes. vec_len bytes ≤ limit) }
    ensures taken { IfOk result (λ bytes.
        Consumes (R.remaining reader.old) (R.remaining reader.new) bytes.items) }
    ensures all { OnOk result (IsAtEnd (R.remaining reader.new)) }
    ensures front { OnErr result (TakesFront (R.remaining reader.old) (R.remaining reader.new)) }
    ensures long { IfErr result (λ why. is_too_long why ≡ true
        → TakesMore limit (R.remaining reader.old) (R.remaining reader.new)) }
{
    let mut bytes = Vec::new(alloc);
    let mut chunk = [0u8; CHUNK];
    while bytes.len() <= limit {
        match read_some(reader, &mut chunk) {
            Ok(0) => return Ok(bytes),
            Ok(count) => {
                if bytes.extend_from_slice(&chunk[..count]).is_err() {
                    return Err(Unread::NoMemory);
                }
            }
            Err(why) => return Err(why),
        }
    }
    Err(Unread::TooLong(limit))
}

/// Writes the whole text, in at most as many writes as it has bytes, but for those that a signal interrupts.
///
/// `WriteFault` where a write fails, for whatever other cause, or takes nothing; the bytes written are then a prefix
/// of the text.
pub fn write_text<W: Write>(writer: &mut W, text: &[u8]) -> Result<(), Fault>
    ensures whole { OnOk result (Appends (W.contents writer.old) (W.contents writer.new) text.now) }
    ensures fault { IfErr result (λ fault. fault ≡ Fault.WriteFault) }
    ensures prefix { OnErr result
        (WritesPrefix (W.contents writer.old) (W.contents writer.new) text.now) }
{
    let mut written = 0;
    while written < text.len() {
        match write_some(writer, &text[written..]) {
            Ok(0) => return Err(Fault::WriteFault),
            Ok(count) => written += count,
            Err(fault) => return Err(fault),
        }
    }
    Ok(())
}
