//! What it is to be vacuous.

ghost use Rattle.std.specs.Prelude.{List};
ghost use Rattle.fs_kinds.specs.declared.placement.Entry.{Entry};
ghost use Rattle.fs_model.specs.declared.test.Test.{Test};
ghost use Rattle.fs_model.specs.Allows.{Allows, no_fences};
ghost use Rattle.fs_cert_evidence.specs.Candidates.{Candidate, IsShowing, last_word};
ghost use Rattle.fs_values.specs.ThinAir.{CanBeListed};
ghost use Rattle.fs_judge_outcomes.specs.Vacuous.{IsWay, IsVacuous};

/// A law: the runs and last words of each showing candidate are a way to the outcome. So in a test whose runs can be
/// listed no execution shows an outcome that is vacuous, as the test is written or with any fences.
pub fn vacuous_forbids()
    ensures way { (t : Test) (c : Candidate) → IsShowing t c → IsWay t c.traces (last_word t c) }
    ensures forbidden { (t : Test) → CanBeListed t → IsVacuous t → Allows t (no_fences t) → ⊥ }
    ensures fenced { (t : Test) → CanBeListed t → IsVacuous t → (p : List Entry) → Allows t p → ⊥ }
{}
