//! That a witness has one verdict.

ghost use Rattle.std.specs.Prelude.{◌≡◌, All, List};
ghost use Rattle.fs_kinds.specs.declared.placement.Entry.{Entry};
ghost use Rattle.fs_kinds.specs.declared.reason.Reason.{Reason};
ghost use Rattle.fs_model.specs.declared.test.Test.{Test};
ghost use Rattle.fs_model.specs.Test.{GoesForward};
ghost use Rattle.fs_model.specs.Witness.{Witness};
ghost use Rattle.fs_model.specs.Reasons.{IsYes, IsReason};

/// A law: a witness has one verdict at most, in a test whose branches go forward. Where there is a reason against it,
/// it gives no execution that shows the outcome, and there is no other reason. With a branch that goes back, a run may
/// have an instruction twice, and then two operations have one name.
pub fn one_verdict()
    ensures apart { (t : Test) (p : List Entry) (w : Witness) (why : Reason) → All GoesForward t.codes
        → IsReason t p w why → IsYes t p w → ⊥ }
    ensures once { (t : Test) (p : List Entry) (w : Witness) (why other : Reason) → All GoesForward t.codes
        → IsReason t p w why → IsReason t p w other → why ≡ other }
{}
