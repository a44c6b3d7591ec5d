//! The text of a test file with the fences of a placement, read again.

ghost use Rattle.std.specs.Prelude.{◌≡◌, ◌≢◌, ℕ, List, IfErr, IfOk, IfSome, IsOkUnless, IsTrue, OnOk, false, true};
ghost use Rattle.std.specs.Prelude.{string_bytes};
ghost use Rattle.fs_kinds.specs.declared.placement.Entry.{Entry};
ghost use Rattle.fs_kinds.specs.Placement.{slots_of};
ghost use Rattle.fs_model.specs.declared.test.Test as tests;
ghost use Rattle.fs_model.specs.Fenced.{fenced};
ghost use Rattle.fs_model.specs.Printed.{printed};
ghost use Rattle.fs_model.specs.Slots.{slots};
ghost use Rattle.fs_model.specs.Test.{IsBounded};
ghost use Rattle.fs_litmus.specs.Reads.{Reads};
ghost use Rattle.fs_app_file_text.specs.Added.{adds};
ghost use Rattle.fs_app_file_text.specs.Inserted.{IsInserted, ReadsOnlyFenced, ReadsShortFenced};

use crate::added::adds;
use crate::rows::with_rows;
use fs_kinds::{Fault, Placement};
use fs_litmus::{read_test, slots, write_fenced};
use fs_model::Test;
use std::alloc::Global;

/// A text, and the test that it reads as.
#[derive(Drop)]
struct Made {
    text: String,
    test: Test,
}

/// The printed form of the test, as `place` prints it without FENCE words. The error is F19.
pub fn print(alloc: Global, test: &Test) -> Result<String, Fault>
    requires { IsBounded test.now }
    ensures ok { IfOk result (λ text. string_bytes text ≡ printed test.now) }
    ensures err { IsOkUnless result Fault.Memory }
{
    let places = slots(alloc, test)?;
    let none = Placement::bottom(alloc, &places)?;
    match write_fenced(alloc, test, &none) {
        Ok(text) => Ok(text),
        Err(_) => Err(Fault::Memory), // the slots are the test's, so it can be nothing else
    }
}

/// Is this the printed form of the test?
fn prints_as(alloc: Global, test: &Test, shown: &str) -> Result<bool, Fault>
    requires { IsBounded test.now }
    ensures is { IfOk result (λ is. IsTrue is → shown.now ≡ printed test.now) }
    ensures err { IsOkUnless result Fault.Memory }
{
    let text = print(alloc, test)?;
    Ok(text.as_str() == shown)
}

/// The text and the test that it reads as, where this is the printed form of that.
fn read_again(alloc: Global, text: String, shown: &str) -> Result<Option<Made>, Fault>
    ensures text { IfOk result (λ found. IfSome found (λ made. made.text ≡ text)) }
    ensures reads { IfOk result (λ found. IfSome found (λ made. Reads (string_bytes text) made.test)) }
    ensures shown { IfOk result (λ found. IfSome found (λ made. shown.now ≡ printed made.test)) }
    ensures err { IsOkUnless result Fault.Memory }
{
    match read_test(alloc, text.as_bytes()) {
        Ok(test) => {
            if prints_as(alloc, &test, shown)? {
                Ok(Some(Made { text, test }))
            } else {
                Ok(None)
            }
        }
        Err(Fault::Memory) => Err(Fault::Memory),
        Err(_) => Ok(None),
    }
}

/// The file with rows of these fences, where it reads as a test of which this is the printed form.
fn in_file(
    alloc: Global,
    bytes: &[u8],
    placement: &Placement,
    shown: &str,
) -> Result<Option<Made>, Fault>
    ensures added { IfOk result (λ found.
        IfSome found (λ made. adds true false bytes.now (string_bytes made.text) ≡ true)) }
    ensures reads { IfOk result (λ found. IfSome found (λ made. Reads (string_bytes made.text) made.test)) }
    ensures shown { IfOk result (λ found. IfSome found (λ made. shown.now ≡ printed made.test)) }
    ensures err { IsOkUnless result Fault.Memory }
{
    let Some(text) = with_rows(alloc, bytes, placement)? else {
        return Ok(None);
    };
    let Ok(text) = String::from_utf8(text) else {
        return Ok(None);
    };
    if adds(bytes, text.as_bytes()) {
        read_again(alloc, text, shown)
    } else {
        Ok(None)
    }
}

/// The file with rows of these fences, where it reads as the fenced test, of which this is the printed form; or that
/// form.
fn in_file_or_shown(
    alloc: Global,
    bytes: &[u8],
    own: &Test,
    placement: &Placement,
    shown: String,
) -> Result<String, Fault>
    requires reads { Reads bytes.now own.now }
    requires shown { string_bytes shown ≡ printed (fenced own.now placement.now) }
    ensures text { IfOk result (λ text. IsInserted bytes.now own.now placement.now (string_bytes text)) }
    ensures err { IsOkUnless result Fault.Memory }
{
    let _own = own;
    let found = in_file(alloc, bytes, placement, shown.as_str())?;
    match found {
        Some(made) => Ok(made.text),
        None => Ok(shown),
    }
}

/// The text of the file of a test with the fences of a placement. Before each row with an instruction that gets a fence
/// comes a line with a row of the same columns: the fence stands where the instruction does in its cell, behind the
/// labels that stood before it, in whose place are blanks now, and all else in the row is blank. Where the fence is longer
/// than its cell the cell grows. All else stays. What is made is read again; where it isn't the fenced test the text is
/// what `place` prints: where a row that gets a fence doesn't begin its line, a label stands in another line than its
/// instruction or has a comment inside, or a hart has more instructions with its fences than the limit.
///
/// F12 where the placement isn't over the slots of the test, else F19. Linear in the bytes, and for each instruction in
/// the placement.
pub fn inserted(
    alloc: Global,
    bytes: &[u8],
    own: &Test,
    placement: &Placement,
) -> Result<String, Fault>
    requires { Reads bytes.now own.now }
    ensures text { IfOk result (λ text. IsInserted bytes.now own.now placement.now (string_bytes text)) }
    ensures slots { OnOk result (slots_of placement.now ≡ slots own.now) }
    ensures bad_fence { result ≡ Err Fault.BadFence → slots_of placement.now ≢ slots own.now }
    ensures err { IfErr result (λ fault. fault ≢ Fault.BadFence → fault ≡ Fault.Memory) }
{
    let shown = write_fenced(alloc, own, placement)?;
    in_file_or_shown(alloc, bytes, own, placement, shown)
}

/// A law: a text that `inserted` gives reads as the fenced test, where no hart of that is too long, and as no other
/// test.
pub fn inserted_reads_fenced()
    ensures reads { (file : List ℕ) (t : tests.Test) (p : List Entry) (text : List ℕ)
        → Reads file t → IsInserted file t p text → ReadsShortFenced t p text }
    ensures once { (file : List ℕ) (t : tests.Test) (p : List Entry) (text : List ℕ)
        → Reads file t → IsInserted file t p text → ReadsOnlyFenced t p text }
{}
