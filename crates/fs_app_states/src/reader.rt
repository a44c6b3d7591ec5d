//! Reads a log, line by line.

ghost use Rattle.std.specs.Prelude.{◌≡◌, ◌<◌, ◌≤◌, ◌+◌, length, map, option_map, option_and_then, Ok, IfOk, IfErr};
ghost use Rattle.std.specs.Result.{result_map_both};
ghost use Rattle.std.specs.Str.Lines.{lines};
ghost use Rattle.fs_app_states.specs.Blocks.{begins_block, block_at, count_at, line_at, missing, outcome_at};
ghost use Rattle.fs_app_states.specs.Blocks.{outcome_of, state_at, states_from, title_at};
ghost use Rattle.fs_app_states.specs.Blocks.{pairs_now, read_block, read_state, seen_so, state_of, IsOfLines};
ghost use Rattle.fs_app_states.specs.Blocks.{IsReadFrom};
ghost use Rattle.fs_app_states.specs.Errors.{IsLog, IsLogError};
ghost use Rattle.fs_app_states.specs.Lines.{count_of, title_of};
ghost use Rattle.fs_app_states.specs.inner.Reading.{IsBlocksError, IsErrorOf, IsLinesError};

use crate::error::{Expected, LogError};
use crate::log::{Block, Item, Log, Seen};
use crate::spelling::{Count, begins_title, count_of, is_outcome, items_of, times_of, title_of};
use fs_kinds::List;
use std::alloc::{AllocError, Global};

/// How long a log may be.
pub const MOST_BYTES: usize = 1_073_741_824;

/// The line of this index, from 0 on, without the blanks at its ends.
fn line_at<'a>(lines: &[&'a str], index: usize) -> Option<&'a str>
    ensures { option_map (λ line. line.now) result ≡ line_at (map (λ line. line.now) lines.now) index }
{
    Some(lines.get(index)?.trim())
}

/// The error that something else should stand in this line: where there is no such line, in the last one.
fn missing(lines: usize, index: usize, expected: Expected) -> LogError
    ensures { result ≡ missing lines index expected }
{
    let line = lines.min(index.saturating_add(1));
    LogError::Line { line, expected }
}

/// Does this line begin a block?
fn begins_block(lines: &[&str], index: usize) -> bool
    ensures { result ≡ begins_block (map (λ line. line.now) lines.now) index }
{
    match line_at(lines, index) {
        Some(line) => begins_title(line),
        None => false,
    }
}

fn title_in<'a>(lines: &[&'a str], index: usize) -> Option<&'a str>
    ensures { option_map (λ name. name.now) result
        ≡ option_and_then title_of (line_at (map (λ line. line.now) lines.now) index) }
{
    title_of(line_at(lines, index)?)
}

/// The name of the test whose block begins in this line.
fn title_at<'a>(lines: &[&'a str], index: usize) -> Result<&'a str, LogError>
    ensures { result_map_both (λ name. name.now) (λ e. e) result ≡ title_at (map (λ line. line.now) lines.now) index }
{
    match title_in(lines, index) {
        Some(name) => Ok(name),
        None => Err(missing(lines.len(), index, Expected::Title)),
    }
}

fn count_in(lines: &[&str], index: usize) -> Option<Count>
    ensures { result ≡ option_and_then count_of (line_at (map (λ line. line.now) lines.now) index) }
{
    count_of(line_at(lines, index)?)
}

/// How many states follow this line.
fn count_at(lines: &[&str], index: usize) -> Result<Count, LogError>
    ensures { result ≡ count_at (map (λ line. line.now) lines.now) index }
{
    match count_in(lines, index) {
        Some(count) => Ok(count),
        None => Err(missing(lines.len(), index, Expected::Count)),
    }
}

/// The state of a line whose number this is, from 1 on.
fn seen(line: usize, times: Option<u64>, items: Option<List<Item<'_>>>) -> Option<Seen<'_>>
    ensures { option_map read_state result ≡ option_map (seen_so line times) (pairs_now items.entry) }
{
    let items = items?;
    Some(Seen { line, times, items })
}

/// The state of a line, where each has a count or none has.
fn state_of<'a>(
    alloc: Global,
    number: usize,
    line: &'a str,
    counted: bool,
) -> Result<Option<Seen<'a>>, AllocError>
    ensures { IfOk result (λ found. option_map read_state found ≡ state_of number counted line.now) }
{
    if !counted {
        return Ok(seen(number, None, items_of(alloc, line)?));
    }
    let Some((times, items)) = times_of(line) else {
        return Ok(None);
    };
    Ok(seen(number, Some(times), items_of(alloc, items)?))
}

fn state_in<'a>(
    alloc: Global,
    lines: &[&'a str],
    index: usize,
    counted: bool,
) -> Result<Option<Seen<'a>>, AllocError>
    requires { index ≤ length lines.now }
    ensures { IfOk result (λ found. option_map read_state found
        ≡ option_and_then (state_of (index + 1) counted) (line_at (map (λ line. line.now) lines.now) index)) }
{
    match line_at(lines, index) {
        Some(line) => state_of(alloc, index + 1, line, counted),
        None => Ok(None),
    }
}

/// The state that this line is.
fn state_at<'a>(
    alloc: Global,
    lines: &[&'a str],
    index: usize,
    counted: bool,
) -> Result<Seen<'a>, LogError>
    requires { index ≤ length lines.now }
    ensures ok { IfOk result (λ seen. state_at (map (λ line. line.now) lines.now) counted index
        ≡ Ok (read_state seen)) }
    ensures err { IfErr result (IsErrorOf (state_at (map (λ line. line.now) lines.now) counted index)) }
{
    match state_in(alloc, lines, index, counted)? {
        Some(seen) => Ok(seen),
        None => Err(missing(lines.len(), index, Expected::State)),
    }
}

/// So many states from this line on.
fn states_from<'a>(
    alloc: Global,
    lines: &[&'a str],
    index: usize,
    count: Count,
) -> Result<Vec<Seen<'a>>, LogError>
    requires { index ≤ length lines.now }
    ensures ok { IfOk result (λ states. states_from (map (λ line. line.now) lines.now) count.counted index count.states
        ≡ Ok (map read_state states.items)) }
    ensures err { IfErr result
        (IsErrorOf (states_from (map (λ line. line.now) lines.now) count.counted index count.states)) }
    ensures within { IfOk result (λ states. index + length states.items ≤ length lines.now) }
{
    let mut states = Vec::new(alloc);
    for _ in 0..count.states {
        states.push(state_at(alloc, lines, index + states.len(), count.counted)?)?;
    }
    Ok(states)
}

fn outcome_in<'a>(lines: &[&'a str], index: usize) -> Option<&'a str>
    ensures { option_map (λ line. line.now) result
        ≡ option_and_then outcome_of (line_at (map (λ line. line.now) lines.now) index) }
{
    let line = line_at(lines, index)?;
    if is_outcome(line) { Some(line) } else { None }
}

/// What should stand behind the last state.
fn outcome_at<'a>(lines: &[&'a str], index: usize) -> Result<&'a str, LogError>
    ensures { result_map_both (λ line. line.now) (λ e. e) result ≡ outcome_at (map (λ line. line.now) lines.now) index }
{
    match outcome_in(lines, index) {
        Some(line) => Ok(line),
        None => Err(missing(lines.len(), index, Expected::Outcome)),
    }
}

/// The block that begins in this line.
fn read_block<'a>(alloc: Global, lines: &[&'a str], index: usize) -> Result<Block<'a>, LogError>
    requires { index < length lines.now }
    ensures ok { IfOk result (λ block. block_at (map (λ line. line.now) lines.now) index ≡ Ok (read_block block)) }
    ensures err { IfErr result (IsErrorOf (block_at (map (λ line. line.now) lines.now) index)) }
    ensures within { IfOk result (λ block. index + 3 + length block.states ≤ length lines.now) }
{
    let name = title_at(lines, index)?;
    let count = count_at(lines, index + 1)?;
    let states = states_from(alloc, lines, index + 2, count)?;
    outcome_at(lines, index + 2 + states.len())?;
    Ok(Block {
        name,
        states: List::new(states),
    })
}

/// The blocks of the lines, none or more.
fn read_blocks<'a>(alloc: Global, lines: &[&'a str]) -> Result<Vec<Block<'a>>, LogError>
    ensures ok { IfOk result
        (λ blocks. IsReadFrom (map (λ line. line.now) lines.now) 0 (Ok (map read_block blocks.items))) }
    ensures err { IfErr result (IsBlocksError (map (λ line. line.now) lines.now)) }
{
    let mut blocks = Vec::new(alloc);
    let mut index = 0;
    while index < lines.len() {
        if begins_block(lines, index) {
            let block = read_block(alloc, lines, index)?;
            index += 3 + block.states.len();
            blocks.push(block)?;
        } else {
            index += 1;
        }
    }
    Ok(blocks)
}

/// The lines as a log.
fn read_lines<'a>(alloc: Global, lines: &[&'a str]) -> Result<Log<'a>, LogError>
    ensures ok { IfOk result (λ log. IsOfLines (map (λ line. line.now) lines.now) (Ok (map read_block log))) }
    ensures err { IfErr result (IsLinesError (map (λ line. line.now) lines.now)) }
{
    let blocks = read_blocks(alloc, lines)?;
    if blocks.is_empty() {
        return Err(LogError::NoBlock);
    }
    Ok(List::new(blocks))
}

/// The lines of a text, without their ends.
fn lines_of<'a>(alloc: Global, text: &'a str) -> Result<Vec<&'a str>, AllocError>
    ensures { IfOk result (λ made. map (λ line. line.now) made.items ≡ lines text.now) }
{
    text.lines().collect(alloc)
}

/// The text as a log.
fn read_text<'a>(alloc: Global, text: &'a str) -> Result<Log<'a>, LogError>
    ensures ok { IfOk result (λ log. IsOfLines (lines text.now) (Ok (map read_block log))) }
    ensures err { IfErr result (IsLinesError (lines text.now)) }
{
    let lines = lines_of(alloc, text)?;
    read_lines(alloc, &lines)
}

/// Reads a log of herd7 or litmus7: its blocks, from a line such as `Test SB Allowed` to the line `Ok` or `No`. All
/// other lines are skipped. Linear in the bytes.
///
/// The error is `TooLong` or `NotUtf8`; else the first line that isn't what it should be, or the last line where the
/// log ends within a block; else `NoBlock`; or want of memory.
pub fn read_log<'a>(alloc: Global, bytes: &'a [u8]) -> Result<Log<'a>, LogError>
    ensures log { IfOk result (λ log. IsLog bytes.now (map read_block log)) }
    ensures error { IfErr result (IsLogError bytes.now) }
{
    if bytes.len() > MOST_BYTES {
        return Err(LogError::TooLong);
    }
    match str::from_utf8(bytes) {
        Ok(text) => read_text(alloc, text),
        Err(_) => Err(LogError::NotUtf8),
    }
}
