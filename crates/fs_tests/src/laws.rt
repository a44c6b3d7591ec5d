//! Laws cited where code would cite them: what a verdict rests on.
ghost use Rattle.std.specs.Prelude.{List};
ghost use Rattle.fs_kinds.specs.declared.placement.Entry.{Entry};
ghost use Rattle.fs_model.specs.declared.test.Test.{Test};
ghost use Rattle.fs_model.specs.Allows.{Allows};
ghost use Rattle.fs_model.specs.Execution.{Execution, IsExecution};
ghost use Rattle.fs_model.specs.Values.{IsGrounded};
ghost use Rattle.fs_values.specs.ThinAir.{CanBeListed};
ghost use Rattle.fs_verdict_laws.specs.Decide.{HasAcyclic};

use fs_values::nothing_out_of_thin_air;
use fs_verdict_laws::cycles_decide;

/// In a test whose runs can be listed an outcome is forbidden where no showing candidate is acyclic, and no value of an
/// execution is out of thin air.
pub(crate) fn verdicts_rest_on_candidates()
    ensures forbidden { (t : Test) → CanBeListed t → (p : List Entry) → (HasAcyclic t p → ⊥) → Allows t p → ⊥ }
    ensures grounded { (t : Test) → CanBeListed t → (p : List Entry) (e : Execution) → IsExecution t p e
        → IsGrounded t e }
{
    cycles_decide();
    nothing_out_of_thin_air();
}
