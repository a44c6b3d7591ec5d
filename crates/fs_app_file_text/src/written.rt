//! The text of a test file with the fences of a placement, read again.

ghost use Rattle.std.specs.Prelude.{◌≡◌, IfOk, IfSome, IsOkUnless, IsTrue, false, string_bytes, true};
ghost use Rattle.fs_model.specs.Test.{IsBounded, IsSame, IsTest};
ghost use Rattle.fs_litmus.specs.Reads.{Reads};
ghost use Rattle.fs_app_file_text.specs.Kept.{keeps};
ghost use Rattle.fs_app_file_text.specs.Rewritten.{rewritten};

use crate::change::changed;
use crate::kept::keeps;
use crate::rewriting::rewritten_codes;
use crate::same::{are_same_codes, is_same_rest};
use fs_kinds::{Fault, Placement};
use fs_litmus::read_test;
use fs_model::Test;
use std::alloc::{AllocError, Global};

/// A text, and the test that it is.
#[derive(Drop)]
pub struct Rewritten {
    pub text: String,
    pub test: Test,
}

/// Is the second test the first one with the fences of the placement in the places of its FENCEs?
fn is_rewritten(
    alloc: Global,
    own: &Test,
    placement: &Placement,
    made: &Test,
) -> Result<bool, AllocError>
    requires { IsBounded own.now }
    ensures { IfOk result (λ is. IsTrue is → IsSame made.now (rewritten placement.now own.now)) }
{
    let codes = rewritten_codes(alloc, placement, own.codes.as_slice())?;
    Ok(are_same_codes(&made.codes, &codes) && is_same_rest(made, own))
}

/// The text and the test that it reads as, where that is the test with these fences.
fn read_again(
    alloc: Global,
    own: &Test,
    placement: &Placement,
    text: String,
) -> Result<Option<Rewritten>, Fault>
    requires { IsBounded own.now }
    ensures text { IfOk result (λ found. IfSome found (λ made. made.text ≡ text)) }
    ensures reads { IfOk result (λ found. IfSome found (λ made. Reads (string_bytes text) made.test)) }
    ensures test { IfOk result (λ found. IfSome found (λ made. IsTest made.test)) }
    ensures same { IfOk result (λ found. IfSome found (λ made. IsSame made.test (rewritten placement.now own.now))) }
    ensures err { IsOkUnless result Fault.Memory }
{
    match read_test(alloc, text.as_bytes()) {
        Ok(test) => {
            if is_rewritten(alloc, own, placement, &test)? {
                Ok(Some(Rewritten { text, test }))
            } else {
                Ok(None)
            }
        }
        Err(Fault::Memory) => Err(Fault::Memory),
        Err(_) => Ok(None),
    }
}

/// The text of the test file in which the fences of the placement stand in the places of the FENCEs that order memory
/// and name no devices: the bytes of such a FENCE, from its mnemonic to its last operand, become the new one with
/// blanks behind it, or blanks where the placement has none. All else stays: comments, labels, and the numbers of
/// lines. Nothing where that can't be: where a comment or an LF stands inside a FENCE that changes, or a FENCE becomes
/// longer that has no blanks behind it. The fault is `Memory`. Linear in the bytes, for the placement at most 32 times.
pub fn rewrite(
    alloc: Global,
    bytes: &[u8],
    own: &Test,
    placement: &Placement,
) -> Result<Option<Rewritten>, Fault>
    requires { IsBounded own.now }
    // The text reads as the test with these fences, with labels before what stood behind them.
    ensures reads { IfOk result (λ found. IfSome found (λ made. Reads (string_bytes made.text) made.test)) }
    ensures test { IfOk result (λ found. IfSome found (λ made. IsTest made.test)) }
    ensures same { IfOk result (λ found. IfSome found (λ made. IsSame made.test (rewritten placement.now own.now))) }
    // It is as long as the file, and each byte is the same, but where FENCEs stood.
    ensures kept { IfOk result (λ found. IfSome found (λ made. keeps false bytes.now (string_bytes made.text) ≡ true)) }
    ensures err { IsOkUnless result Fault.Memory }
{
    let text = changed(alloc, bytes, own.codes.as_slice(), placement)?;
    let Ok(text) = String::from_utf8(text) else {
        return Ok(None);
    };
    if keeps(bytes, text.as_bytes()) {
        read_again(alloc, own, placement, text)
    } else {
        Ok(None)
    }
}
