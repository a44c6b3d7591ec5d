//! What it is to refute, as a walk meets it.

ghost use Rattle.std.specs.Prelude.{◌≡◌, ◌↔◌, ℕ, List, None, true};
ghost use Rattle.fs_kinds.specs.declared.placement.Entry.{Entry};
ghost use Rattle.fs_model.specs.declared.test.Test.{Test};
ghost use Rattle.fs_cert_evidence.specs.Regions.{Region};
ghost use Rattle.fs_cert_evidence.specs.Certificate.{Inference};
ghost use Rattle.fs_cert_evidence.specs.Trees.{refutes};
ghost use Rattle.fs_cert_evidence.specs.Refusals.{first_wrong};

/// A law: inferences refute regions exactly where there is no reason against them, whichever number the first of them
/// has.
pub fn refutations_are_right()
    ensures { (t : Test) (p : List Entry) (regions : List Region) (inferences : List Inference) (k : ℕ)
        → first_wrong t p regions inferences k ≡ None ↔ refutes t p regions inferences ≡ true }
{}
