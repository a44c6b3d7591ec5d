//! What `audit --anew` prints, and its exit status.

ghost use Rattle.std.specs.Prelude.{◌≡◌, ◌≤◌, ◌++◌, [], All, codes, decimal, length, option_copied, IfOk, IfSome};
ghost use Rattle.std.specs.Prelude.{IsTrue, string_bytes};
ghost use Rattle.std.specs.List.{slice_index_or};
ghost use Rattle.fs_kinds.specs.Limits.{most_harts, most_instructions};
ghost use Rattle.fs_kinds.specs.PriceTable.{are_offered};
ghost use Rattle.fs_kinds.specs.Slot.{place_name};
ghost use Rattle.fs_report.specs.Cells.{padded};
ghost use Rattle.fs_app_audit.specs.Report.{fence_letters, about, advice_text, line_text, line_of, advised, code_text};
ghost use Rattle.fs_app_audit.specs.Report.{lines_text, cost_text, best_text, first_line, below, is_as_advised};
ghost use Rattle.fs_app_audit.specs.Report.{audit_status};

use crate::advice::{Advice, advice_of, is_right};
use crate::names_devices;
use fs_app_io::Status;
use fs_app_test::{Kind, kind_text};
use fs_instr::Instr;
use fs_kinds::{List, OperationName, Placement, Prices};
use fs_litmus::Code;
use fs_report::padded;
use std::alloc::{AllocError, Global};

/// The bytes that the line's number takes with its word, and the names of instructions, and the letters of FENCEs.
const LINE_WIDTH: usize = 8;

const PLACE_WIDTH: usize = 5;

const FENCE_WIDTH: usize = 9;

/// The letters of a FENCE, such as `rw,w` or `tso`; of `fence.i` its one; of another instruction `none`. The error is
/// want of memory.
pub fn fence_letters(alloc: Global, instr: Instr) -> Result<String, AllocError>
    ensures { IfOk result (λ text. string_bytes text ≡ fence_letters instr) }
{
    match instr {
        Instr::Fence { before, after } => {
            format!(in alloc; "{},{}", before.text(), after.text())
        }
        Instr::FenceTso => format!(in alloc; "tso"),
        Instr::FenceI => format!(in alloc; "i"),
        _ => format!(in alloc; "none"),
    }
}

/// Of a FENCE that names devices too, memory alone is spoken of.
fn about(instr: Instr) -> &'static str
    ensures { result.now ≡ about instr }
{
    if names_devices(instr) {
        " for memory"
    } else {
        ""
    }
}

/// The words of the advice on this instruction. The error is want of memory.
pub fn advice_text(alloc: Global, instr: Instr, advice: Advice) -> Result<String, AllocError>
    ensures { IfOk result (λ text. string_bytes text ≡ advice_text instr advice) }
{
    let about = about(instr);
    match advice {
        Advice::Needed => format!(in alloc; "needed{}", about),
        Advice::Unpriced => format!(in alloc; "needed{} (no price)", about),
        Advice::Enough(kind) => format!(in alloc; "{} is enough{}", kind.name(), about),
        Advice::Instead(kind) => format!(in alloc; "{} instead{}", kind.name(), about),
        Advice::NotNeeded => format!(in alloc; "not needed{}", about),
        Advice::NoSlot => format!(in alloc; "at no slot"),
        Advice::Idle => format!(in alloc; "orders nothing{}", about),
        Advice::Devices => format!(in alloc; "not for memory"),
        Advice::Missing(kind) => format!(in alloc; "{} is missing", kind.name()),
    }
}

fn line_cell(alloc: Global, line: usize) -> Result<String, AllocError>
    ensures { IfOk result (λ text. string_bytes text ≡ padded 8 (codes "line " ++ decimal line)) }
{
    let text = format!(in alloc; "line {}", line)?;
    padded(alloc, LINE_WIDTH, text.as_str())
}

fn place_cell(alloc: Global, place: OperationName) -> Result<String, AllocError>
    ensures { IfOk result (λ text. string_bytes text ≡ padded 5 (place_name place.hart place.at)) }
{
    let text = format!(in alloc; "{}", place)?;
    padded(alloc, PLACE_WIDTH, text.as_str())
}

fn fence_cell(alloc: Global, instr: Instr) -> Result<String, AllocError>
    ensures { IfOk result (λ text. string_bytes text ≡ padded 9 (fence_letters instr)) }
{
    let text = fence_letters(alloc, instr)?;
    padded(alloc, FENCE_WIDTH, text.as_str())
}

/// The line of the file, the instruction, the FENCE that is there, and the advice.
fn line_text(
    alloc: Global,
    line: usize,
    place: OperationName,
    instr: &Instr,
    advice: Advice,
) -> Result<String, AllocError>
    ensures { IfOk result (λ text. string_bytes text ≡ line_text line place.hart place.at instr.now advice) }
{
    let line = line_cell(alloc, line)?;
    let place = place_cell(alloc, place)?;
    let fence = fence_cell(alloc, *instr)?;
    let advice = advice_text(alloc, *instr, advice)?;
    format!(in alloc;
        "{}  {}  {}  {}\n",
        line.as_str(),
        place.as_str(),
        fence.as_str(),
        advice.as_str()
    )
}

fn lines_of_hart(lines: &[List<usize>], hart: u8) -> &[usize]
    ensures { result.now ≡ slice_index_or lines.now hart [] }
{
    if usize::from(hart) < lines.len() {
        lines[usize::from(hart)].as_slice()
    } else {
        &[]
    }
}

/// The line of the file in which instruction `at` of the hart stands; 0 where there is none.
pub fn line_of(lines: &[List<usize>], hart: u8, at: usize) -> usize
    ensures { result ≡ line_of lines.now hart at }
{
    lines_of_hart(lines, hart).get(at).copied().unwrap_or(0)
}

pub(crate) fn advised(
    alloc: Global,
    line: usize,
    place: OperationName,
    instr: &Instr,
    advice: Option<Advice>,
) -> Result<String, AllocError>
    ensures { IfOk result (λ text. string_bytes text ≡ advised line place.hart place.at instr.now advice) }
{
    match advice {
        Some(advice) => line_text(alloc, line, place, instr, advice),
        None => Ok(String::new(alloc)),
    }
}

/// What is said of the FENCEs of one hart.
fn code_text(
    alloc: Global,
    lines: &[List<usize>],
    placement: &Placement,
    hart: u8,
    code: &[Instr],
) -> Result<String, AllocError>
    requires { length code.now ≤ most_instructions }
    ensures { IfOk result (λ text. string_bytes text ≡ code_text lines.now placement.now (hart, code.now)) }
{
    let mut text = String::new(alloc);
    for (at, instr) in code.iter().enumerate() {
        let line = line_of(lines, hart, at);
        let place = OperationName { hart, at: at as u8 };
        let advice = advice_of(placement, hart, code, at);
        let said = advised(alloc, line, place, instr, advice)?;
        text.push_str(said.as_str())?;
    }
    Ok(text)
}

/// What is said of the FENCEs of all harts.
fn lines_text(
    alloc: Global,
    lines: &[List<usize>],
    codes: &[Code],
    placement: &Placement,
) -> Result<String, AllocError>
    requires harts { length codes.now ≤ most_harts }
    requires lengths { All (λ code. length code ≤ most_instructions) codes.now }
    ensures { IfOk result (λ text. string_bytes text ≡ lines_text lines.now codes.now placement.now) }
{
    let mut text = String::new(alloc);
    for (hart, code) in codes.iter().enumerate() {
        let said = code_text(alloc, lines, placement, hart as u8, code.as_slice())?;
        text.push_str(said.as_str())?;
    }
    Ok(text)
}

/// What the FENCEs cost, where that is known.
fn cost_text(
    alloc: Global,
    prices: &Prices,
    fences: Option<&Placement>,
) -> Result<String, AllocError>
    requires { IfSome (option_copied fences) (λ p. IsTrue (are_offered prices.now p)) }
    ensures { IfOk result (λ text. string_bytes text ≡ cost_text prices.now (option_copied fences.entry)) }
{
    match fences {
        Some(fences) => format!(in alloc; ", {}", prices.cost(fences)),
        None => Ok(String::new(alloc)),
    }
}

fn best_text(alloc: Global, prices: &Prices, best: Option<&Placement>) -> Result<String, AllocError>
    requires { IfSome (option_copied best) (λ p. IsTrue (are_offered prices.now p)) }
    ensures { IfOk result (λ text. string_bytes text ≡ best_text prices.now (option_copied best.entry)) }
{
    match best {
        Some(best) => format!(in alloc; "cheapest {}", prices.cost(best)),
        None => format!(in alloc; "no fences rule it out"),
    }
}

/// What stands in the first line: such as `forbidden as written, 20; cheapest 10`.
pub(crate) fn first_line(
    alloc: Global,
    kind: Kind,
    prices: &Prices,
    fences: Option<&Placement>,
    best: Option<&Placement>,
) -> Result<String, AllocError>
    requires fences { IfSome (option_copied fences) (λ p. IsTrue (are_offered prices.now p)) }
    requires best { IfSome (option_copied best) (λ p. IsTrue (are_offered prices.now p)) }
    ensures { IfOk result (λ text. string_bytes text
        ≡ first_line kind prices.now (option_copied fences.entry) (option_copied best.entry)) }
{
    let cost = cost_text(alloc, prices, fences)?;
    let best = best_text(alloc, prices, best)?;
    format!(in alloc;
        "{} as written{}; {}\n",
        kind_text(kind),
        cost.as_str(),
        best.as_str()
    )
}

/// The lines below the first one.
pub(crate) fn below(
    alloc: Global,
    lines: &[List<usize>],
    codes: &[Code],
    best: Option<&Placement>,
) -> Result<String, AllocError>
    requires harts { length codes.now ≤ most_harts }
    requires lengths { All (λ code. length code ≤ most_instructions) codes.now }
    ensures { IfOk result (λ text. string_bytes text ≡ below lines.now codes.now (option_copied best.entry)) }
{
    match best {
        Some(best) => lines_text(alloc, lines, codes, best),
        None => Ok(String::new(alloc)),
    }
}

fn is_as_advised(codes: &[Code], best: Option<&Placement>) -> bool
    requires harts { length codes.now ≤ most_harts }
    requires lengths { All (λ code. length code ≤ most_instructions) codes.now }
    ensures { result ≡ is_as_advised codes.now (option_copied best.entry) }
{
    match best {
        Some(best) => is_right(codes, best),
        None => false,
    }
}

/// The exit status: 4 where the outcome is vacuous; else 1 where it is possible, or there is something to change; else
/// 0.
pub(crate) fn audit_status(kind: Kind, codes: &[Code], best: Option<&Placement>) -> Status
    requires harts { length codes.now ≤ most_harts }
    requires lengths { All (λ code. length code ≤ most_instructions) codes.now }
    ensures { result ≡ audit_status kind codes.now (option_copied best.entry) }
{
    match kind {
        Kind::Vacuous => Status::Vacuous,
        Kind::Forbidden => {
            if is_as_advised(codes, best) {
                Status::Success
            } else {
                Status::Denied
            }
        }
        _ => Status::Denied,
    }
}
