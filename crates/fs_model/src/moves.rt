//! Where things stand in the fenced test.

ghost use Rattle.fs_model.specs.Fenced.{fenced};
ghost use Rattle.fs_model.specs.Moved.{IsMovedTest};

use crate::test::Test;
use fs_kinds::Placement;

/// A law: in the fenced test each instruction stands where the placement's fences before it move it, a branch goes to
/// where its label stands, each filled slot has the fence of its kind right before the slot's instruction, and nothing
/// else is added or changed. The slots of the fenced test are those of the test, moved with their instructions.
pub fn fences_move(test: &Test, placement: &Placement)
    ensures { IsMovedTest test.now placement.now (fenced test.now placement.now) }
{
    let _test = test;
    let _placement = placement;
}
