//! What listing over the value sets decides.

ghost use Rattle.std.specs.Prelude.{◌↔◌, ℕ, List};
ghost use Rattle.fs_kinds.specs.declared.placement.Entry.{Entry};
ghost use Rattle.fs_model.specs.declared.test.Test.{Test};
ghost use Rattle.fs_model.specs.Allows.{Allows};
ghost use Rattle.fs_model_brute_force.specs.Allowing.{AllowsOver};
ghost use Rattle.fs_values.specs.ThinAir.{IsAlwaysGrounded};
ghost use Rattle.fs_values.specs.Sets.{AreValues};

/// A law: where every execution of a test is grounded, as where its runs can be listed, the executions whose loads take
/// words of the value sets are all that matter: over these sets the outcome is allowed exactly where it is allowed.
pub fn value_sets_decide()
    ensures { (t : Test) (sets : List (List ℕ)) → AreValues t sets → IsAlwaysGrounded t
        → (p : List Entry) → AllowsOver t p sets ↔ Allows t p }
{}
