//! What is advised of each FENCE of a code by fences in the places of the FENCEs.

ghost use Rattle.std.specs.Prelude.{◌≡◌, ◌≤◌, ◌<◌, All, length};
ghost use Rattle.fs_kinds.specs.Limits.{most_harts, most_instructions, most_numbered};
ghost use Rattle.fs_app_audit.specs.InPlace.{advice_by, advice_there, advice_in_place, are_kept, goes, is_kept_code};
ghost use Rattle.fs_app_audit.specs.InPlace.{stays};

use crate::advice::{Advice, code_of, is_content, is_device_fence_at, kind_there};
use crate::standing::is_between_accesses;
use fs_instr::Instr;
use fs_kinds::{Kind, Placement, Prices, Slot};
use fs_litmus::Code;

/// Of a FENCE that stays, of a kind with this price.
fn stays(price: Option<u32>) -> Advice
    ensures { result ≡ stays price }
{
    match price {
        Some(_) => Advice::Needed,
        None => Advice::Unpriced,
    }
}

/// Of a FENCE that goes, which stands between accesses or not.
fn goes(is_between: bool) -> Advice
    ensures { result ≡ goes is_between }
{
    if is_between {
        Advice::NotNeeded
    } else {
        Advice::Idle
    }
}

/// Of a FENCE of this kind where the placement has this.
fn advice_by(prices: &Prices, is_between: bool, own: Kind, kind: Option<Kind>) -> Advice
    ensures { result ≡ advice_by prices.now is_between own kind }
{
    let Some(kind) = kind else {
        return goes(is_between);
    };
    if own.no_stronger(kind) {
        stays(prices.of(own))
    } else {
        Advice::Enough(kind)
    }
}

/// Of instruction `at`, which is a FENCE of this kind, or else none that orders memory.
fn advice_there(
    prices: &Prices,
    placement: &Placement,
    hart: u8,
    code: &[Instr],
    at: u8,
    own: Option<Kind>,
) -> Option<Advice>
    ensures { result ≡ advice_there prices.now placement.now hart code.now at own }
{
    let Some(own) = own else {
        return if is_device_fence_at(code, usize::from(at)) {
            Some(Advice::Devices)
        } else {
            None
        };
    };
    let is_between = is_between_accesses(code, usize::from(at));
    let kind = placement.get(Slot { hart, at });
    Some(advice_by(prices, is_between, own, kind))
}

/// What is advised in place of instruction `at`, mostly nothing. Linear in the code's length, and in that of the placement.
pub fn advice_in_place(
    prices: &Prices,
    placement: &Placement,
    hart: u8,
    code: &[Instr],
    at: usize,
) -> Option<Advice>
    requires { at < most_numbered }
    ensures { result ≡ advice_in_place prices.now placement.now hart code.now at }
{
    let own = kind_there(code, at);
    advice_there(prices, placement, hart, code, at as u8, own)
}

fn is_kept_code(prices: &Prices, placement: &Placement, hart: u8, code: &[Instr]) -> bool
    requires { length code.now ≤ most_instructions }
    ensures { result ≡ is_kept_code prices.now placement.now hart code.now }
{
    (0..code.len()).all(|at| is_content(advice_in_place(prices, placement, hart, code, at)))
}

/// Does each FENCE stay as it is?
pub(crate) fn are_kept(prices: &Prices, codes: &[Code], placement: &Placement) -> bool
    requires harts { length codes.now ≤ most_harts }
    requires lengths { All (λ code. length code ≤ most_instructions) codes.now }
    ensures { result ≡ are_kept prices.now codes.now placement.now }
{
    (0..codes.len()).all(|hart| is_kept_code(prices, placement, hart as u8, code_of(codes, hart)))
}
