//! What `audit` prints in place, and its exit status.

ghost use Rattle.std.specs.Prelude.{◌≡◌, ◌≤◌, ◌++◌, All, codes, decimal, length, option_copied, IfOk, IfSome};
ghost use Rattle.std.specs.Prelude.{IsTrue, string_bytes};
ghost use Rattle.fs_kinds.specs.Limits.{most_harts, most_instructions};
ghost use Rattle.fs_kinds.specs.PriceTable.{are_offered};
ghost use Rattle.fs_app_audit.specs.InPlace.{anew_text, code_in_place, costs_line, in_place_status, lines_in_place};
ghost use Rattle.fs_app_audit.specs.InPlace.{vacuous_line};

use crate::in_place_advice::{advice_in_place, are_kept};
use crate::report::{advised, line_of};
use fs_app_io::Status;
use fs_instr::Instr;
use fs_kinds::{List, OperationName, Placement, Prices};
use fs_litmus::Code;
use std::alloc::{AllocError, Global};

/// What is said of the FENCEs of one hart.
fn code_in_place(
    alloc: Global,
    prices: &Prices,
    lines: &[List<usize>],
    placement: &Placement,
    hart: u8,
    code: &[Instr],
) -> Result<String, AllocError>
    requires { length code.now ≤ most_instructions }
    ensures { IfOk result (λ text. string_bytes text
        ≡ code_in_place prices.now lines.now placement.now (hart, code.now)) }
{
    let mut text = String::new(alloc);
    for (at, instr) in code.iter().enumerate() {
        let line = line_of(lines, hart, at);
        let place = OperationName { hart, at: at as u8 };
        let advice = advice_in_place(prices, placement, hart, code, at);
        let said = advised(alloc, line, place, instr, advice)?;
        text.push_str(said.as_str())?;
    }
    Ok(text)
}

/// What is said of the FENCEs of all harts.
pub(crate) fn lines_in_place(
    alloc: Global,
    prices: &Prices,
    lines: &[List<usize>],
    codes: &[Code],
    placement: &Placement,
) -> Result<String, AllocError>
    requires harts { length codes.now ≤ most_harts }
    requires lengths { All (λ code. length code ≤ most_instructions) codes.now }
    ensures { IfOk result (λ text. string_bytes text ≡ lines_in_place prices.now lines.now codes.now placement.now) }
{
    let mut text = String::new(alloc);
    for (hart, code) in codes.iter().enumerate() {
        let said = code_in_place(alloc, prices, lines, placement, hart as u8, code.as_slice())?;
        text.push_str(said.as_str())?;
    }
    Ok(text)
}

/// What fences cost that are found anew.
fn anew_text(alloc: Global, prices: &Prices, best: Option<&Placement>) -> Result<String, AllocError>
    requires { IfSome (option_copied best) (λ p. IsTrue (are_offered prices.now p)) }
    ensures { IfOk result (λ text. string_bytes text ≡ anew_text prices.now (option_copied best.entry)) }
{
    match best {
        Some(best) => format!(in alloc; "anew {}", prices.cost(best)),
        None => format!(in alloc; "no fences rule it out"),
    }
}

/// The first line of a test that is forbidden: such as `forbidden as written, 16; in place 9; anew 5`.
pub(crate) fn costs_line(
    alloc: Global,
    written: u128,
    in_place: u64,
    prices: &Prices,
    best: Option<&Placement>,
) -> Result<String, AllocError>
    requires { IfSome (option_copied best) (λ p. IsTrue (are_offered prices.now p)) }
    ensures { IfOk result (λ text. string_bytes text
        ≡ costs_line written in_place (anew_text prices.now (option_copied best.entry))) }
{
    let found = anew_text(alloc, prices, best)?;
    format!(in alloc;
        "forbidden as written, {}; in place {}; {}\n",
        written,
        in_place,
        found.as_str()
    )
}

/// The only line of one that is vacuous: such as `vacuous as written, 70; x14 of P1 never ends as 2`.
pub(crate) fn vacuous_line(alloc: Global, written: u128, why: &str) -> Result<String, AllocError>
    ensures { IfOk result (λ text. string_bytes text ≡ vacuous_line written why.now) }
{
    format!(in alloc; "vacuous as written, {}; {}\n", written, why)
}

/// The exit status of one that is forbidden: 0 where each FENCE stays as it is, else 1.
pub fn in_place_status(prices: &Prices, codes: &[Code], placement: &Placement) -> Status
    requires harts { length codes.now ≤ most_harts }
    requires lengths { All (λ code. length code ≤ most_instructions) codes.now }
    ensures { result ≡ in_place_status prices.now codes.now placement.now }
{
    if are_kept(prices, codes, placement) {
        Status::Success
    } else {
        Status::Denied
    }
}
