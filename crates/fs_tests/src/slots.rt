//! Which slots a test has, and where they are in the fenced test, read back from its printed form.
ghost use Rattle.fs_model.specs.Test.{IsBounded, IsTest};

use crate::wrong::add_wrong;
use fs_kinds::{Fault, Placement, Slot};
use fs_litmus::{Test, fence, read_test, slots};
use fs_tests_shared::{MP, MPB, placement_of, told};
use std::alloc::{AllocError, Global};

/// No hart has an access before another one.
const NO_SLOT: &str = "RISCV T
{ }
P0 | P1 ;
lw x5,0(x6) | fence rw,rw ;
fence w,w | sw x5,0(x6) ;
exists (0:x5=0)
";

/// 32 loads, which leave no room for a fence.
const FULL: &str = "RISCV Full
{ 0:x6=x; }
P0 ;
lw x5,0(x6) ; lw x5,0(x6) ; lw x5,0(x6) ; lw x5,0(x6) ; lw x5,0(x6) ; lw x5,0(x6) ; lw x5,0(x6) ; lw x5,0(x6) ;
lw x5,0(x6) ; lw x5,0(x6) ; lw x5,0(x6) ; lw x5,0(x6) ; lw x5,0(x6) ; lw x5,0(x6) ; lw x5,0(x6) ; lw x5,0(x6) ;
lw x5,0(x6) ; lw x5,0(x6) ; lw x5,0(x6) ; lw x5,0(x6) ; lw x5,0(x6) ; lw x5,0(x6) ; lw x5,0(x6) ; lw x5,0(x6) ;
lw x5,0(x6) ; lw x5,0(x6) ; lw x5,0(x6) ; lw x5,0(x6) ; lw x5,0(x6) ; lw x5,0(x6) ; lw x5,0(x6) ; lw x5,0(x6) ;
exists (0:x5=0)
";

/// The slots in print.
fn slots_text(alloc: Global, slots: &[Slot]) -> Result<String, AllocError> {
    let mut text = String::new(alloc);
    for slot in slots {
        write!(text, "P{}:{} ", slot.hart, slot.at)?;
    }
    Ok(text)
}

/// The slots of the test, in print.
fn slots_of(alloc: Global, test: &Test) -> Result<String, Fault>
    requires { IsBounded test.now }
{
    let found = slots(alloc, test)?;
    Ok(slots_text(alloc, &found)?)
}

/// The slots of the test with the placement's fences in it.
fn slots_with(alloc: Global, test: &Test, placement: &Placement) -> Result<String, Fault>
    requires { IsTest test.now }
{
    let fenced = fence(alloc, test, placement)?;
    slots_of(alloc, &fenced)
}

/// The slots of the test that the text reads as, once the fences stand in it that these words name.
fn fenced_slots(alloc: Global, text: &str, words: &str) -> Result<String, Fault> {
    let test = read_test(alloc, text.as_bytes())?;
    let placement = placement_of(alloc, &test, words)?;
    slots_with(alloc, &test, &placement)
}

/// Tests, fences, and the slots of the test with these.
pub(crate) const SLOTS: &[(&str, &str, &str)] = &[
    (MP, "", "P0:3 P1:1 "),
    (MP, "P0:3=w,w P1:1=r,r", "P0:4 P1:2 "),
    (MPB, "", "P0:3 P1:2 "),
    (MPB, "P1:2=r,r", "P0:3 P1:3 "),
    (NO_SLOT, "", ""),
    (FULL, "P0:31=r,r", "fault F9 TooBig instructions"),
    (FULL, "P0:32=r,r", "fault F12 BadFence"),
];

/// Adds the tests that have other slots than the table says.
pub(crate) fn add_wrong_slots(
    alloc: Global,
    rows: &[(&str, &str, &str)],
    wrong: &mut String,
) -> Result<(), AllocError> {
    for (text, words, wanted) in rows {
        let found = told(alloc, fenced_slots(alloc, text, words))?;
        add_wrong(text, &found, wanted, wrong)?;
    }
    Ok(())
}
