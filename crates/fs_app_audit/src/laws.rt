//! What the lines of `audit` are good for.

ghost use Rattle.std.specs.Prelude.{◌≡◌, ℕ, Bool, List, None, Some};
ghost use Rattle.fs_kinds.specs.declared.kind.Kind.{Kind};
ghost use Rattle.fs_kinds.specs.declared.slot.Slot.{Slot};
ghost use Rattle.fs_kinds.specs.Placement.{kind_at, with_kind};
ghost use Rattle.fs_model.specs.declared.test.Test.{Test};
ghost use Rattle.fs_model.specs.Allows.{Allows, no_fences};
ghost use Rattle.fs_model_laws.specs.InPlace.{IsFollowed, emptied, followed};
ghost use Rattle.fs_app_io.specs.declared.status.Status.{Status};
ghost use Rattle.fs_app_audit.specs.Audit.{IsInPlace};

/// A law: whichever lines of `audit` are followed, and whichever FENCEs stay as they are, no execution shows the
/// outcome. A FENCE that goes stands there as `fence io,io`. So it is of each test that is the same but for its FENCEs,
/// of which each orders all that the fence does that is advised in its place.
pub fn lines_can_be_followed()
    ensures lines { (test prices text : List ℕ) (status : Status) (in_place : IsInPlace test prices text status)
        (lines : Slot → Bool)
        → let u = followed lines in_place.findings.test in_place.advised in Allows u (no_fences u) → ⊥ }
    ensures alike { (test prices text : List ℕ) (status : Status) (in_place : IsInPlace test prices text status)
        (u : Test)
        → IsFollowed in_place.findings.test in_place.advised u → Allows u (no_fences u) → ⊥ }
{}

/// A law: each fence that `audit` advises in place of a FENCE is needed, be it the FENCE or a weaker kind. Without it,
/// the others as advised, some execution shows the outcome.
pub fn advised_fences_are_needed()
    ensures { (test prices text : List ℕ) (status : Status) (in_place : IsInPlace test prices text status)
        (place : Slot) (kind : Kind) → kind_at place in_place.advised ≡ Some kind
        → Allows (emptied in_place.findings.test) (with_kind place None in_place.advised) }
{}
