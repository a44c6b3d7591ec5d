//! What `audit` prints of several files as JSON.

ghost use Rattle.std.specs.Prelude.{◌≡◌, ◌≤◌, ◌∷◌, [], ℕ, Bool, List as Items, true, false, IfOk};
ghost use Rattle.std.specs.Prelude.{IsOkUnless, string_bytes};
ghost use Rattle.fs_app_test.specs.Report.{json_text};
ghost use Rattle.fs_app_test.specs.SaidVerdicts.{witness_in};
ghost use Rattle.fs_app_test.specs.Verdicts.{NamesFault};
ghost use Rattle.fs_app_audit.specs.Blocks.{are_named, blocks_status};
ghost use Rattle.fs_app_audit_json_and_why.specs.Answered.{IsObjectBy};
ghost use Rattle.fs_app_audit_json_and_why.specs.Files.{AreObjectBlocks, IsObjectBlock, objects_text};

use crate::answered::{run_anew_object, run_audit_object};
use fs_app_audit::{Audited, Block, Limits, are_named, blocks_status};
use fs_app_io::{Output, Source, Status};
use fs_app_test::{Kind, Line, Note, Unusable, note_of_file, note_or, test_file, test_objects};
use fs_kinds::Fault;
use std::alloc::{AllocError, Global};
use std::marker::Model;

/// The object of a file, and at which prices it was made. Contracts don't see it.
#[derive(Drop)]
pub struct FoundObject<'a> {
    prices: &'a [u8],
    is_anew: bool,
    block: Block,
}

impl<'a> Model for FoundObject<'a> {
    ghost use Rattle.fs_app_audit_json_and_why.specs.Files.{IsObjectBlock};

    ghost Value = { Unit {0} };

    ghost view = { λ f. tt };

    ghost invariant = { λ f. IsObjectBlock f.is_anew f.prices.now f.block };
}

// ---- one file

/// The object of a file of this name that was read, in place or anew.
fn said_of(
    alloc: Global,
    name: &str,
    test: &[u8],
    prices: &[u8],
    is_anew: bool,
    limits: Limits,
) -> Result<Audited, Fault>
    requires least { 1 ≤ limits.nodes }
    requires most { limits.nodes ≤ 1000000 }
    ensures { IfOk result (λ made. IsObjectBy is_anew name.now test.now prices.now
        (string_bytes made.output.text) made.output.status made.kind made.saved) }
{
    if is_anew {
        run_anew_object(alloc, name, test, prices, limits)
    } else {
        run_audit_object(alloc, name, test, prices, limits)
    }
}

/// The same of a file that may not have been read.
fn told(
    alloc: Global,
    name: &str,
    file: Result<Vec<u8>, Unusable>,
    prices: &[u8],
    is_anew: bool,
    limits: Limits,
) -> Result<Audited, Fault>
    requires least { 1 ≤ limits.nodes }
    requires most { limits.nodes ≤ 1000000 }
    ensures { IfOk result (λ made. (test : Items ℕ) × IsObjectBy is_anew name.now test prices.now
        (string_bytes made.output.text) made.output.status made.kind made.saved) }
{
    match file {
        Ok(test) => said_of(alloc, name, &test, prices, is_anew, limits),
        Err(why) => Err(why.fault()),
    }
}

/// What `test` says of a fault, with this note, or with the one that the fault has by itself.
fn faulty_line(alloc: Global, name: &str, fault: Fault, note: Option<Note>) -> Result<Line, Fault>
    ensures name { IfOk result (λ line. string_bytes line.name ≡ name.now) }
    ensures names { IfOk result
        (λ line. NamesFault fault line.said.kind (string_bytes line.said.why) (witness_in line.said.witness)) }
    ensures err { IsOkUnless result Fault.Memory }
{
    let mut line = test_file(alloc, name, Err(fault), 0)?;
    line.note = note_or(alloc, note, Some(fault))?;
    Ok(line)
}

/// The object of the line.
fn line_object(alloc: Global, line: Line) -> Result<String, Fault>
    ensures ok { IfOk result (λ text. string_bytes text ≡ json_text false (line ∷ [])) }
    ensures err { IsOkUnless result Fault.Memory }
{
    let mut lines = Vec::new(alloc);
    lines.push(line)?;
    let output = test_objects(alloc, &lines, false)?;
    Ok(output.text)
}

/// The block of the fault of a file.
fn block_of_fault(
    alloc: Global,
    name: &str,
    fault: Fault,
    note: Option<Note>,
) -> Result<Block, Fault>
    ensures ok { IfOk result (λ block. (is_anew : Bool) (prices : Items ℕ) → IsObjectBlock is_anew prices block) }
    ensures err { IsOkUnless result Fault.Memory }
{
    let line = faulty_line(alloc, name, fault, note)?;
    let text = line_object(alloc, line)?;
    let name = String::from_str(alloc, name)?;
    Ok(Block {
        name,
        text,
        status: Status::Failure,
        kind: Kind::Faulty,
        saved: 0,
    })
}

/// The block of what is said of the file of this name.
fn named(alloc: Global, name: &str, said: Audited) -> Result<Block, AllocError>
    ensures name { IfOk result (λ block. string_bytes block.name ≡ name.now) }
    ensures text { IfOk result (λ block. block.text ≡ said.output.text) }
    ensures status { IfOk result (λ block. block.status ≡ said.output.status) }
    ensures kind { IfOk result (λ block. block.kind ≡ said.kind) }
    ensures saved { IfOk result (λ block. block.saved ≡ said.saved) }
{
    let name = String::from_str(alloc, name)?;
    let Audited {
        output,
        kind,
        saved,
    } = said;
    let Output { text, status } = output;
    Ok(Block {
        name,
        text,
        status,
        kind,
        saved,
    })
}

/// The block of the file of this name.
fn block_of(
    alloc: Global,
    name: &str,
    file: Result<Vec<u8>, Unusable>,
    prices: &[u8],
    is_anew: bool,
    limits: Limits,
) -> Result<Block, Fault>
    requires least { 1 ≤ limits.nodes }
    requires most { limits.nodes ≤ 1000000 }
    ensures ok { IfOk result (IsObjectBlock is_anew prices.now) }
    ensures err { IsOkUnless result Fault.Memory }
{
    let note = note_of_file(alloc, &file)?;
    match told(alloc, name, file, prices, is_anew, limits) {
        Ok(said) => Ok(named(alloc, name, said)?),
        Err(fault) => block_of_fault(alloc, name, fault, note),
    }
}

/// The object of the file of this name, in place or anew, at these prices; of a file with a fault that of `test`. The
/// file is its bytes as they were read, or why it wasn't. There may be from 1 to 1,000,000 nodes. The cost is
/// that of `run_audit_object` or `run_anew_object`, and of reading the test once more. The error is `Memory`.
pub fn object_of_file<'a>(
    alloc: Global,
    name: &str,
    file: Result<Vec<u8>, Unusable>,
    prices: &'a [u8],
    is_anew: bool,
    limits: Limits,
) -> Result<FoundObject<'a>, Fault>
    requires least { 1 ≤ limits.nodes }
    requires most { limits.nodes ≤ 1000000 }
    ensures err { IsOkUnless result Fault.Memory }
{
    let block = block_of(alloc, name, file, prices, is_anew, limits)?;
    Ok(FoundObject {
        prices,
        is_anew,
        block,
    })
}

// ---- all of them

/// Are they the same?
fn is_same(bytes: &[u8], others: &[u8]) -> bool
    ensures { result ≡ true → bytes.now ≡ others.now }
{
    bytes == others
}

/// The same of two answers.
fn is_alike(answer: bool, other: bool) -> bool
    ensures { result ≡ true → answer ≡ other }
{
    answer == other
}

/// The block, which was made at these prices. A fault where it wasn't: `Unmatched`.
fn block_at(found: FoundObject<'_>, prices: &[u8], is_anew: bool) -> Result<Block, Fault>
    ensures { IfOk result (IsObjectBlock is_anew prices.now) }
{
    let FoundObject {
        prices: own,
        is_anew: was_anew,
        block,
    } = found;
    if is_alike(was_anew, is_anew) && is_same(own, prices) {
        Ok(block)
    } else {
        Err(Fault::Unmatched)
    }
}

/// The blocks of what was found, all at these prices, in place or anew.
fn blocks_at(
    alloc: Global,
    found: Vec<FoundObject<'_>>,
    prices: &[u8],
    is_anew: bool,
) -> Result<Vec<Block>, Fault>
    ensures { IfOk result (λ blocks. AreObjectBlocks is_anew prices.now blocks.items) }
{
    let mut blocks = Vec::new(alloc);
    for one in found {
        let block = block_at(one, prices, is_anew)?;
        blocks.push(block)?;
    }
    Ok(blocks)
}

/// The objects of these files, in their order, all at these prices, in place or anew. Where something was found of
/// another file or at other prices the fault is `Unmatched`; else the error is `Memory`. Each reads the prices and its
/// name once.
pub fn objects_of(
    alloc: Global,
    files: &[Source],
    found: Vec<FoundObject<'_>>,
    prices: &[u8],
    is_anew: bool,
) -> Result<Vec<Block>, Fault>
    ensures blocks { IfOk result (λ blocks. AreObjectBlocks is_anew prices.now blocks.items) }
    ensures named { IfOk result (λ blocks. are_named files.now blocks.items ≡ true) }
{
    let blocks = blocks_at(alloc, found, prices, is_anew)?;
    if are_named(files, blocks.as_slice()) {
        Ok(blocks)
    } else {
        Err(Fault::Unmatched)
    }
}

/// An object a line, in their order, and the status of `blocks_output` of fs_app_audit. The error is want of memory.
pub fn objects_output(alloc: Global, blocks: &[Block]) -> Result<Output, AllocError>
    ensures text { IfOk result (λ output. string_bytes output.text ≡ objects_text blocks.now) }
    ensures status { IfOk result (λ output. output.status ≡ blocks_status blocks.now) }
{
    let mut text = String::new(alloc);
    for block in blocks {
        text.push_str(block.text.as_str())?;
    }
    Ok(Output {
        text,
        status: blocks_status(blocks),
    })
}
