//! Executions with accesses of 64 bits.

ghost use Rattle.std.specs.Prelude.{◌≡◌, ◌↔◌, List};
ghost use Rattle.fs_kinds.specs.declared.placement.Entry.{Entry};
ghost use Rattle.fs_model.specs.declared.test.Test.{Test};
ghost use Rattle.fs_model.specs.Test.{IsTest};
ghost use Rattle.fs_model.specs.Execution.{Execution, IsExecution};
ghost use Rattle.fs_model.specs.Shows.{has_outcome};
ghost use Rattle.fs_model.specs.Allows.{Allows};
ghost use Rattle.fs_values.specs.ThinAir.{MeetsNoFault};
ghost use Rattle.fs_app_plain.specs.Wide.{AllowsWide, IsExactTest, IsWideExecution};
ghost use Rattle.fs_app_plain.specs.Wide.{extended_execution, has_wide_outcome};

/// A law: where in no run of a test over its value sets a step makes more than 32 bits hold, and its runs can be listed,
/// the executions with 64 bits are those with 32, all words extended by their signs, whatever fences are placed. They
/// show the outcome where these do; so it is allowed with 64 bits where it is with 32.
pub fn wide_executions_are_extended()
    ensures forth { (t : Test) (p : List Entry) (e : Execution) → IsTest t → MeetsNoFault t → IsExactTest t
        → IsExecution t p e → IsWideExecution t p (extended_execution e)
        × (has_wide_outcome t (extended_execution e) ≡ has_outcome t e) }
    ensures back { (t : Test) (p : List Entry) (e : Execution) → IsTest t → MeetsNoFault t → IsExactTest t
        → IsWideExecution t p e → (f : Execution) × IsExecution t p f × (extended_execution f ≡ e) }
    ensures allowed { (t : Test) (p : List Entry) → IsTest t → MeetsNoFault t → IsExactTest t
        → AllowsWide t p ↔ Allows t p }
{}
