//! The lines that `audit` prints below its first one, as values.

ghost use Rattle.std.specs.Prelude.{◌≡◌, ◌≤◌, ◌++◌, All, length, option_copied, IfOk, OnOk};
ghost use Rattle.fs_kinds.specs.Limits.{most_harts, most_instructions};
ghost use Rattle.fs_app_audit_json_and_why.specs.Rows.{code_anew, code_rows, row_of, rows_anew, rows_below, rows_in_place};

use fs_app_audit::{Advice, advice_in_place, advice_of, line_of};
use fs_instr::Instr;
use fs_kinds::{List, OperationName, Placement, Prices};
use fs_litmus::Code;
use std::alloc::{AllocError, Global};

/// What is said of a FENCE, or of an access at which one is missing.
#[derive(Clone, Copy)]
pub struct Row {
    /// The line of the file in which it stands.
    pub line: usize,
    pub place: OperationName,
    pub instr: Instr,
    pub advice: Advice,
}

/// Appends what is said of an instruction, if something is.
fn push_row(
    line: usize,
    place: OperationName,
    instr: Instr,
    advice: Option<Advice>,
    rows: &mut Vec<Row>,
) -> Result<(), AllocError>
    ensures { OnOk result (rows.new.items ≡ rows.old.items ++ row_of line place instr advice) }
{
    if let Some(advice) = advice {
        rows.push(Row {
            line,
            place,
            instr,
            advice,
        })?;
    }
    Ok(())
}

// ---- in place

/// The rows of one hart.
fn code_rows(
    alloc: Global,
    prices: &Prices,
    lines: &[List<usize>],
    placement: &Placement,
    hart: u8,
    code: &[Instr],
) -> Result<Vec<Row>, AllocError>
    requires { length code.now ≤ most_instructions }
    ensures { IfOk result (λ rows. rows.items ≡ code_rows prices.now lines.now placement.now (hart, code.now)) }
{
    let mut rows = Vec::new(alloc);
    for (at, instr) in code.iter().enumerate() {
        let line = line_of(lines, hart, at);
        let place = OperationName { hart, at: at as u8 };
        let advice = advice_in_place(prices, placement, hart, code, at);
        push_row(line, place, *instr, advice, &mut rows)?;
    }
    Ok(rows)
}

/// What is said of the FENCEs of all harts, whose instructions stand in these lines, by what the placement has in their
/// places. The error is want of memory. Of each hart the cost is the square of its code's length.
pub fn rows_in_place(
    alloc: Global,
    prices: &Prices,
    lines: &[List<usize>],
    codes: &[Code],
    placement: &Placement,
) -> Result<Vec<Row>, AllocError>
    requires harts { length codes.now ≤ most_harts }
    requires lengths { All (λ code. length code ≤ most_instructions) codes.now }
    ensures { IfOk result (λ rows. rows.items ≡ rows_in_place prices.now lines.now codes.now placement.now) }
{
    let mut rows = Vec::new(alloc);
    for (hart, code) in codes.iter().enumerate() {
        let here = code_rows(alloc, prices, lines, placement, hart as u8, code.as_slice())?;
        rows.extend_from_slice(&here)?;
    }
    Ok(rows)
}

// ---- anew

/// The rows of one hart.
fn code_anew(
    alloc: Global,
    lines: &[List<usize>],
    placement: &Placement,
    hart: u8,
    code: &[Instr],
) -> Result<Vec<Row>, AllocError>
    requires { length code.now ≤ most_instructions }
    ensures { IfOk result (λ rows. rows.items ≡ code_anew lines.now placement.now (hart, code.now)) }
{
    let mut rows = Vec::new(alloc);
    for (at, instr) in code.iter().enumerate() {
        let line = line_of(lines, hart, at);
        let place = OperationName { hart, at: at as u8 };
        let advice = advice_of(placement, hart, code, at);
        push_row(line, place, *instr, advice, &mut rows)?;
    }
    Ok(rows)
}

/// The same by a placement over the slots of the test without FENCEs; and of the accesses at which one is missing. Of
/// each hart the cost is the fourth power of its code's length.
pub fn rows_anew(
    alloc: Global,
    lines: &[List<usize>],
    codes: &[Code],
    placement: &Placement,
) -> Result<Vec<Row>, AllocError>
    requires harts { length codes.now ≤ most_harts }
    requires lengths { All (λ code. length code ≤ most_instructions) codes.now }
    ensures { IfOk result (λ rows. rows.items ≡ rows_anew lines.now codes.now placement.now) }
{
    let mut rows = Vec::new(alloc);
    for (hart, code) in codes.iter().enumerate() {
        let here = code_anew(alloc, lines, placement, hart as u8, code.as_slice())?;
        rows.extend_from_slice(&here)?;
    }
    Ok(rows)
}

/// The same where some fences rule the outcome out, else none.
pub(crate) fn rows_below(
    alloc: Global,
    lines: &[List<usize>],
    codes: &[Code],
    best: Option<&Placement>,
) -> Result<Vec<Row>, AllocError>
    requires harts { length codes.now ≤ most_harts }
    requires lengths { All (λ code. length code ≤ most_instructions) codes.now }
    ensures { IfOk result (λ rows. rows.items ≡ rows_below lines.now codes.now (option_copied best.entry)) }
{
    match best {
        Some(best) => rows_anew(alloc, lines, codes, best),
        None => Ok(Vec::new(alloc)),
    }
}
