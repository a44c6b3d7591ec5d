//! What `audit` prints of several files.

ghost use Rattle.std.specs.Prelude.{◌≡◌, ◌≢◌, ◌≤◌, ◌++◌, codes, map, true, IfOk, OnOk};
ghost use Rattle.std.specs.Prelude.{IsOkUnless, string_bytes};
ghost use Rattle.std.specs.List.{flat_map, list_all, zip};
ghost use Rattle.fs_kinds.specs.FaultLine.{fault_line};
ghost use Rattle.fs_model.specs.Printed.{ended, joined};
ghost use Rattle.fs_app_test.specs.Report.{count_text};
ghost use Rattle.fs_app_audit.specs.Blocks.{AreBlocks, IsBlock, IsSaidBy, all_saved, are_named, block_text};
ghost use Rattle.fs_app_audit.specs.Blocks.{blocks_status, blocks_text, count_of, count_piece, has, is_named};
ghost use Rattle.fs_app_audit.specs.Blocks.{pieces, saved_text, summary};

use crate::audit::{Audited, run_anew, run_audit};
use fs_app_error_messages::shown_name;
use fs_app_io::{Output, Source, Status};
use fs_app_test::{Kind, counted};
use fs_board_search::Limits;
use fs_kinds::Fault;
use std::alloc::{AllocError, Global};
use std::marker::Model;

/// What is printed of a file.
#[derive(Drop)]
pub struct Block {
    /// Its name.
    pub name: String,
    /// Its lines, or that of its fault.
    pub text: String,
    /// How the run would end if it were the only file.
    pub status: Status,
    /// What its test is as it is written.
    pub kind: Kind,
    /// How much less the fences cost that are advised in place.
    pub saved: u128,
}

/// What was found of a file, and at which prices. Contracts don't see it.
#[derive(Drop)]
pub struct Found<'a> {
    prices: &'a [u8],
    is_anew: bool,
    block: Block,
}

impl<'a> Model for Found<'a> {
    ghost use Rattle.fs_app_audit.specs.Blocks.{IsBlock};

    ghost Value = { Unit {0} };

    ghost view = { λ f. tt };

    ghost invariant = { λ f. IsBlock f.is_anew f.prices.now f.block };
}

// ---- one file

/// What is said of the bytes of a file, in place or anew.
fn said_of(
    alloc: Global,
    test: &[u8],
    prices: &[u8],
    is_anew: bool,
    limits: Limits,
) -> Result<Audited, Fault>
    requires least { 1 ≤ limits.nodes }
    requires most { limits.nodes ≤ 1000000 }
    ensures { IfOk result (λ made. IsSaidBy is_anew test.now prices.now (string_bytes made.output.text)
        made.output.status made.kind made.saved) }
{
    if is_anew {
        run_anew(alloc, test, prices, limits)
    } else {
        run_audit(alloc, test, prices, limits)
    }
}

/// The line of a fault. The error is want of memory, as it is of that fault.
fn faulty(alloc: Global, fault: Fault) -> Result<Audited, Fault>
    ensures known { IfOk result (λ made. fault ≢ Fault.Memory) }
    ensures text { IfOk result (λ made. string_bytes made.output.text ≡ ended (fault_line fault)) }
    ensures kind { IfOk result (λ made. made.kind ≡ Kind.Faulty) }
    ensures status { IfOk result (λ made. made.output.status ≡ Status.Failure) }
    ensures saved { IfOk result (λ made. made.saved ≡ 0) }
    ensures err { IsOkUnless result Fault.Memory }
{
    if let Fault::Memory = fault {
        return Err(Fault::Memory);
    }
    let text = format!(in alloc; "{}\n", fault)?;
    Ok(Audited {
        output: Output {
            text,
            status: Status::Failure,
        },
        kind: Kind::Faulty,
        saved: 0,
    })
}

/// The block of what is said of the file of this name.
fn named(alloc: Global, name: &str, said: Audited) -> Result<Block, AllocError>
    ensures text { IfOk result (λ block. block.text ≡ said.output.text) }
    ensures status { IfOk result (λ block. block.status ≡ said.output.status) }
    ensures kind { IfOk result (λ block. block.kind ≡ said.kind) }
    ensures saved { IfOk result (λ block. block.saved ≡ said.saved) }
{
    let name = String::from_str(alloc, name)?;
    let Audited {
        output,
        kind,
        saved,
    } = said;
    let Output { text, status } = output;
    Ok(Block {
        name,
        text,
        status,
        kind,
        saved,
    })
}

/// The block of the fault of a file.
fn block_of_fault(
    alloc: Global,
    name: &str,
    prices: &[u8],
    is_anew: bool,
    fault: Fault,
) -> Result<Block, Fault>
    ensures ok { IfOk result (IsBlock is_anew prices.now) }
    ensures err { IsOkUnless result Fault.Memory }
{
    let _ = prices;
    let _ = is_anew;
    let said = faulty(alloc, fault)?;
    Ok(named(alloc, name, said)?)
}

/// The block of the bytes of a file.
fn block_of_bytes(
    alloc: Global,
    name: &str,
    test: &[u8],
    prices: &[u8],
    is_anew: bool,
    limits: Limits,
) -> Result<Block, Fault>
    requires least { 1 ≤ limits.nodes }
    requires most { limits.nodes ≤ 1000000 }
    ensures ok { IfOk result (IsBlock is_anew prices.now) }
    ensures err { IsOkUnless result Fault.Memory }
{
    match said_of(alloc, test, prices, is_anew, limits) {
        Ok(said) => Ok(named(alloc, name, said)?),
        Err(fault) => block_of_fault(alloc, name, prices, is_anew, fault),
    }
}

/// The block of the file of this name.
fn block_of(
    alloc: Global,
    name: &str,
    file: Result<Vec<u8>, Fault>,
    prices: &[u8],
    is_anew: bool,
    limits: Limits,
) -> Result<Block, Fault>
    requires least { 1 ≤ limits.nodes }
    requires most { limits.nodes ≤ 1000000 }
    ensures ok { IfOk result (IsBlock is_anew prices.now) }
    ensures err { IsOkUnless result Fault.Memory }
{
    match file {
        Ok(test) => block_of_bytes(alloc, name, &test, prices, is_anew, limits),
        Err(fault) => block_of_fault(alloc, name, prices, is_anew, fault),
    }
}

/// What is printed of the file of this name, in place or anew, at these prices. The file is its bytes as they were
/// read, or the fault of reading it. There may be from 1 to 1,000,000 nodes. The cost is that of `run_audit` or
/// `run_anew`. The error is `Memory`.
pub fn audit_file<'a>(
    alloc: Global,
    name: &str,
    file: Result<Vec<u8>, Fault>,
    prices: &'a [u8],
    is_anew: bool,
    limits: Limits,
) -> Result<Found<'a>, Fault>
    requires least { 1 ≤ limits.nodes }
    requires most { limits.nodes ≤ 1000000 }
    ensures err { IsOkUnless result Fault.Memory }
{
    let block = block_of(alloc, name, file, prices, is_anew, limits)?;
    Ok(Found {
        prices,
        is_anew,
        block,
    })
}

// ---- all of them

/// Are they the same?
fn is_same(bytes: &[u8], others: &[u8]) -> bool
    ensures { result ≡ true → bytes.now ≡ others.now }
{
    bytes == others
}

/// The same of two answers.
fn is_alike(answer: bool, other: bool) -> bool
    ensures { result ≡ true → answer ≡ other }
{
    answer == other
}

/// The block, which was made at these prices. A fault where it wasn't: `Unmatched`.
fn block_at(found: Found<'_>, prices: &[u8], is_anew: bool) -> Result<Block, Fault>
    ensures { IfOk result (IsBlock is_anew prices.now) }
{
    let Found {
        prices: own,
        is_anew: was_anew,
        block,
    } = found;
    if is_alike(was_anew, is_anew) && is_same(own, prices) {
        Ok(block)
    } else {
        Err(Fault::Unmatched)
    }
}

/// Has the block the name of the file?
fn is_named(file: &Source, block: &Block) -> bool
    ensures { result ≡ is_named (file.now, block.now) }
{
    file.name.as_str() == block.name.as_str()
}

/// Has each block the name of the file at its place?
fn have_names(files: &[Source], blocks: &[Block]) -> bool
    ensures { result ≡ list_all is_named (zip files.now blocks.now) }
{
    files
        .iter()
        .zip(blocks.iter())
        .all(|(file, block)| is_named(file, block))
}

/// Are these the blocks of the files, by their names, in their order?
pub fn are_named(files: &[Source], blocks: &[Block]) -> bool
    ensures { result ≡ are_named files.now blocks.now }
{
    files.len() == blocks.len() && have_names(files, blocks)
}

/// The blocks of what was found, all at these prices, in place or anew.
fn blocks_at(
    alloc: Global,
    found: Vec<Found<'_>>,
    prices: &[u8],
    is_anew: bool,
) -> Result<Vec<Block>, Fault>
    ensures { IfOk result (λ blocks. AreBlocks is_anew prices.now blocks.items) }
{
    let mut blocks = Vec::new(alloc);
    for one in found {
        let block = block_at(one, prices, is_anew)?;
        blocks.push(block)?;
    }
    Ok(blocks)
}

/// The blocks of what was found of these files, in their order, all at these prices, in place or anew. Where something
/// was found of another file or at other prices the fault is `Unmatched`; else the error is `Memory`. Each reads the
/// prices and its name once.
pub fn blocks_of(
    alloc: Global,
    files: &[Source],
    found: Vec<Found<'_>>,
    prices: &[u8],
    is_anew: bool,
) -> Result<Vec<Block>, Fault>
    ensures blocks { IfOk result (λ blocks. AreBlocks is_anew prices.now blocks.items) }
    ensures named { IfOk result (λ blocks. are_named files.now blocks.items ≡ true) }
{
    let blocks = blocks_at(alloc, found, prices, is_anew)?;
    if are_named(files, blocks.as_slice()) {
        Ok(blocks)
    } else {
        Err(Fault::Unmatched)
    }
}

// ---- what is printed

/// Appends the block, with an empty line behind it.
fn write_block(alloc: Global, block: &Block, text: &mut String) -> Result<(), AllocError>
    ensures { OnOk result (string_bytes text.new ≡ string_bytes text.old ++ block_text block.now) }
{
    let name = shown_name(alloc, block.name.as_str())?;
    writeln!(text, "{}\n{}", name.as_str(), block.text.as_str())
}

/// All blocks.
fn written_blocks(alloc: Global, blocks: &[Block]) -> Result<String, AllocError>
    ensures { IfOk result (λ text. string_bytes text ≡ flat_map block_text blocks.now) }
{
    let mut text = String::new(alloc);
    for block in blocks {
        write_block(alloc, block, &mut text)?;
    }
    Ok(text)
}

/// How many of the tests are of the kind.
fn count_of(kind: Kind, blocks: &[Block]) -> usize
    ensures { result ≡ count_of kind blocks.now }
{
    blocks.iter().filter(|block| kind == block.kind).count()
}

/// That so many are of the kind.
fn count_text(alloc: Global, kind: Kind, count: usize) -> Result<String, AllocError>
    ensures { IfOk result (λ text. string_bytes text ≡ count_text kind count) }
{
    match kind {
        Kind::Forbidden => format!(in alloc; "{} forbidden", count),
        Kind::Allowed => format!(in alloc; "{} allowed", count),
        Kind::Vacuous => format!(in alloc; "{} vacuous", count),
        Kind::Faulty => counted(alloc, count, "fault"),
    }
}

/// Appends how many tests are of the kind, if any are.
fn push_count(
    alloc: Global,
    kind: Kind,
    blocks: &[Block],
    pieces: &mut Vec<String>,
) -> Result<(), AllocError>
    ensures { OnOk result (map string_bytes pieces.new.items
        ≡ map string_bytes pieces.old.items ++ count_piece blocks.now kind) }
{
    let count = count_of(kind, blocks);
    if count != 0 {
        pieces.push(count_text(alloc, kind, count)?)?;
    }
    Ok(())
}

/// How many tests are of each kind, of which there are any.
fn pieces(alloc: Global, blocks: &[Block]) -> Result<Vec<String>, AllocError>
    ensures { IfOk result (λ made. map string_bytes made.items ≡ pieces blocks.now) }
{
    let mut pieces = Vec::new(alloc);
    push_count(alloc, Kind::Forbidden, blocks, &mut pieces)?;
    push_count(alloc, Kind::Allowed, blocks, &mut pieces)?;
    push_count(alloc, Kind::Vacuous, blocks, &mut pieces)?;
    push_count(alloc, Kind::Faulty, blocks, &mut pieces)?;
    Ok(pieces)
}

/// The same in one text.
fn joined_pieces(alloc: Global, blocks: &[Block]) -> Result<String, AllocError>
    ensures { IfOk result (λ text. string_bytes text ≡ joined (codes ", ") (pieces blocks.now)) }
{
    let pieces = pieces(alloc, blocks)?;
    pieces.join(alloc, ", ")
}

/// How much can be saved in all tests. `Unmatched` where that is more than a number holds.
fn all_saved(blocks: &[Block]) -> Result<u128, Fault>
    ensures { IfOk result (λ sum. sum ≡ all_saved blocks.now) }
{
    let mut sum = 0u128;
    for block in blocks {
        let Some(more) = sum.checked_add(block.saved) else {
            return Err(Fault::Unmatched);
        };
        sum = more;
    }
    Ok(sum)
}

/// What the last line says of that.
fn saved_text(alloc: Global, blocks: &[Block], is_anew: bool) -> Result<String, Fault>
    ensures { IfOk result (λ text. string_bytes text ≡ saved_text is_anew blocks.now) }
{
    if is_anew {
        return Ok(String::new(alloc));
    }
    let saved = all_saved(blocks)?;
    Ok(format!(in alloc; "; {} could be saved in place", saved)?)
}

/// The last line.
fn summary(alloc: Global, blocks: &[Block], is_anew: bool) -> Result<String, Fault>
    ensures { IfOk result (λ text. string_bytes text ≡ summary is_anew blocks.now) }
{
    let tests = counted(alloc, blocks.len(), "test")?;
    let pieces = joined_pieces(alloc, blocks)?;
    let saved = saved_text(alloc, blocks, is_anew)?;
    Ok(format!(in alloc;
        "{}: {}{}\n",
        tests.as_str(),
        pieces.as_str(),
        saved.as_str()
    )?)
}

/// Does some block end so?
fn has(status: Status, blocks: &[Block]) -> bool
    ensures { result ≡ has status blocks.now }
{
    blocks.iter().any(|block| status == block.status)
}

/// The exit status of a run: 1 where that is the status of some file; else 2 where one has a fault; else 4 where one is
/// vacuous; else 0.
pub fn blocks_status(blocks: &[Block]) -> Status
    ensures { result ≡ blocks_status blocks.now }
{
    if has(Status::Denied, blocks) {
        Status::Denied
    } else if has(Status::Failure, blocks) {
        Status::Failure
    } else if has(Status::Vacuous, blocks) {
        Status::Vacuous
    } else {
        Status::Success
    }
}

/// The blocks in their order, each with the name of its file above it and an empty line behind it, and a last line that
/// counts the tests, and what could be saved in place. The status is 1 where it is of some file, else 2 where one has a
/// fault, else 4 where one is vacuous, else 0. The error is `Memory`; or `Unmatched` where what could be saved is more
/// than 128 bits hold, as of no blocks that memory holds.
pub fn blocks_output(alloc: Global, blocks: &[Block], is_anew: bool) -> Result<Output, Fault>
    ensures text { IfOk result (λ output. string_bytes output.text ≡ blocks_text is_anew blocks.now) }
    ensures status { IfOk result (λ output. output.status ≡ blocks_status blocks.now) }
{
    let mut text = written_blocks(alloc, blocks)?;
    let summary = summary(alloc, blocks, is_anew)?;
    text.push_str(summary.as_str())?;
    Ok(Output {
        text,
        status: blocks_status(blocks),
    })
}
