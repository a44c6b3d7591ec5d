//! The printed form of a test, read again.

ghost use Rattle.std.specs.Prelude.{◌≡◌, ◌≢◌, IfOk, OnOk, IfErr};
ghost use Rattle.fs_kinds.specs.Placement.{slots_of};
ghost use Rattle.fs_model.specs.Fenced.{fenced};
ghost use Rattle.fs_model.specs.Printed.{printed};
ghost use Rattle.fs_model.specs.Slots.{slots};
ghost use Rattle.fs_model.specs.Test.{IsTest, IsSame};
ghost use Rattle.fs_litmus.specs.Reads.{Reads};
ghost use Rattle.fs_litmus.specs.Fence.{IsFenceFault, ReadsBack};

use crate::reader::read_test;
use fs_kinds::{Fault, Placement};
use fs_model::{Test, write_fenced};
use std::alloc::Global;

/// A law: the printed form of a test reads as that test, and that of a fenced test as the fenced test; where a hart has
/// too many instructions with its fences, that is the fault of the printed form.
pub fn reads_back(test: &Test, placement: &Placement)
    ensures plain { IsTest test.now → Reads (printed test.now) test.now }
    ensures fenced { IsTest test.now → ReadsBack test.now placement.now }
{
    let _test = test;
    let _placement = placement;
}

/// The test fenced by the placement, as a test of its own: what the reader reads from its printed form.
///
/// F12 where the placement isn't over the slots of the test; F9 where a hart has too many instructions with its fences;
/// F19. Linear in the printed form.
pub fn fence(alloc: Global, test: &Test, placement: &Placement) -> Result<Test, Fault>
    requires { IsTest test.now }
    ensures ok { IfOk result (λ u. IsSame u (fenced test.now placement.now)) }
    ensures test { IfOk result IsTest }
    ensures slots { OnOk result (slots_of placement.now ≡ slots test.now) }
    ensures err { IfErr result (λ f. f ≢ Fault.Memory → IsFenceFault test.now placement.now f) }
{
    let text = write_fenced(alloc, test, placement)?;
    read_test(alloc, text.as_bytes())
}
