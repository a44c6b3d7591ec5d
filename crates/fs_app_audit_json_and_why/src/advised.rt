//! The test in which each FENCE is as `audit` advises in place.

ghost use Rattle.std.specs.Prelude.{◌≡◌, ◌≢◌, ◌≤◌, All, List, IfErr, IfOk, length, map};
ghost use Rattle.std.specs.Arc.{arc_value};
ghost use Rattle.std.specs.List.{enumerate_from};
ghost use Rattle.fs_kinds.specs.Limits.{most_harts, most_instructions};
ghost use Rattle.fs_model.specs.declared.test.Test.{Test as Tests};
ghost use Rattle.fs_model.specs.Test.{IsBounded, IsSame, IsTest};
ghost use Rattle.fs_model_laws.specs.InPlace.{followed_code, followed_instr, written_at};
ghost use Rattle.fs_litmus.specs.Faults.{IsTestFault};
ghost use Rattle.fs_litmus.specs.Reads.{Reads};
ghost use Rattle.fs_app_audit_json_and_why.specs.Advised.{as_advised, is_changed, stays};

use crate::fences::fence_for;
use fs_app_audit::{is_fence, memory_kind};
use fs_app_why::instr_named;
use fs_instr::Instr;
use fs_kinds::{Fault, Kind, OperationName, Placement, Slot};
use fs_litmus::{Test, read_test};
use fs_model::{Code, Codes};
use std::alloc::{AllocError, Global};
use std::sync::Arc;

/// The kind of the FENCE in this place, if one stands there that orders memory.
fn written_at(test: &Test, place: Slot) -> Option<Kind>
    ensures { result ≡ written_at test.now.codes place }
{
    let Slot { hart, at } = place;
    match instr_named(test, OperationName { hart, at }) {
        Some(instr) => memory_kind(instr),
        None => None,
    }
}

/// Does a FENCE of this kind stay as it is where this is advised?
fn stays(own: Option<Kind>, advised: Option<Kind>) -> bool
    ensures { result ≡ stays own advised }
{
    match (own, advised) {
        (None, _) => true,
        (Some(_), None) => false,
        (Some(own), Some(kind)) => own.no_stronger(kind),
    }
}

/// Does the FENCE in this place become another one, or go?
fn is_changed(test: &Test, placement: &Placement, place: Slot) -> bool
    ensures { result ≡ is_changed test.now placement.now place }
{
    !stays(written_at(test, place), placement.get(place))
}

/// The instruction in this place as it is advised.
fn advised_instr(test: &Test, placement: &Placement, hart: u8, at: u8, instr: &Instr) -> Instr
    ensures { result ≡ followed_instr (is_changed test.now placement.now) placement.now hart (at, instr.now) }
{
    let place = Slot { hart, at };
    if is_fence(*instr) && is_changed(test, placement, place) {
        fence_for(placement.get(place))
    } else {
        *instr
    }
}

fn advised_code(
    alloc: Global,
    test: &Test,
    placement: &Placement,
    hart: u8,
    code: &[Instr],
) -> Result<Code, AllocError>
    requires { length code.now ≤ most_instructions }
    ensures { IfOk result (λ made. made
        ≡ followed_code (is_changed test.now placement.now) placement.now (hart, code.now)) }
{
    let mut made = Vec::new(alloc);
    for (at, instr) in code.iter().enumerate() {
        made.push(advised_instr(test, placement, hart, at as u8, instr))?;
    }
    Ok(Code::new(made))
}

fn advised_codes(alloc: Global, test: &Test, placement: &Placement) -> Result<Codes, AllocError>
    requires harts { length test.now.codes ≤ most_harts }
    requires lengths { All (λ code. length code ≤ most_instructions) test.now.codes }
    ensures { IfOk result (λ made. made
        ≡ map (followed_code (is_changed test.now placement.now) placement.now) (enumerate_from 0 test.now.codes)) }
{
    let codes = test.codes.as_slice();
    let mut made = Vec::new(alloc);
    for (hart, code) in codes.iter().enumerate() {
        made.push(advised_code(alloc, test, placement, hart as u8, code.as_slice())?)?;
    }
    Ok(Codes::new(made))
}

/// The test in which in place of each FENCE that orders memory stands what this placement has there, or `fence io,io`
/// where it has none; but a FENCE that orders no more than what the placement has there stays as it is. Linear in the
/// test, for the placement at most 32 times. Fails only for want of memory.
pub fn as_advised(alloc: Global, mut test: Test, placement: &Placement) -> Result<Test, AllocError>
    requires { IsBounded test }
    ensures { IfOk result (λ made. made ≡ as_advised test placement.now) }
{
    let codes = advised_codes(alloc, &test, placement)?;
    test.codes = codes;
    Ok(test)
}

/// The same of the test of these bytes. The faults are those of `read_test`.
pub(crate) fn read_advised(
    alloc: Global,
    bytes: &[u8],
    placement: &Placement,
) -> Result<Arc<Test>, Fault>
    ensures same { IfOk result (λ made.
        (t : Tests) → Reads bytes.now t → IsSame (arc_value made) (as_advised t placement.now)) }
    ensures test { IfOk result (λ made. IsTest (arc_value made)) }
    ensures err { IfErr result (λ f. f ≢ Fault.Memory → IsTestFault bytes.now f) }
{
    let test = read_test(alloc, bytes)?;
    let made = as_advised(alloc, test, placement)?;
    Ok(Arc::new(alloc, made)?)
}
