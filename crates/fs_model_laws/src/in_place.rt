//! Laws on tests whose FENCEs order no memory.

ghost use Rattle.std.specs.Prelude.{◌↔◌, Bool, List};
ghost use Rattle.fs_kinds.specs.declared.placement.Entry.{Entry};
ghost use Rattle.fs_kinds.specs.declared.slot.Slot.{Slot};
ghost use Rattle.fs_model.specs.declared.test.Test.{Test};
ghost use Rattle.fs_model.specs.Allows.{Allows, no_fences};
ghost use Rattle.fs_model_laws.specs.Strength.{KeepsNoMore};
ghost use Rattle.fs_model_laws.specs.InPlace.{IsFollowed, as_written, emptied, followed};

/// A law: with the FENCEs as a placement, each in its own place, the test in which they order no memory allows its
/// outcome exactly where the test does as it is written.
pub fn written_means_placement()
    ensures { (t : Test) → Allows (emptied t) (as_written t) ↔ Allows t (no_fences t) }
{}

/// A law: where fences in the places of a test's FENCEs rule its outcome out, so does each test that is the same but
/// for its FENCEs, of which each orders all that the fence in its place does. Such a test is the one in which some of
/// the fences are taken over and the other FENCEs stay, where none of these fences orders more than the FENCE in its
/// place. A FENCE that goes stands there as `fence io,io`.
pub fn followed_lines_rule_out()
    ensures alike { (t u : Test) (p : List Entry) → IsFollowed t p u → (Allows (emptied t) p → ⊥)
        → Allows u (no_fences u) → ⊥ }
    ensures lines { (t : Test) (p : List Entry) (lines : Slot → Bool) → KeepsNoMore p (as_written t)
        → IsFollowed t p (followed lines t p) }
{}
