//! Laws of the definitions.

ghost use Rattle.std.specs.Prelude.{ℕ, List};
ghost use Rattle.fs_kinds.specs.declared.placement.Entry.{Entry};
ghost use Rattle.fs_model.specs.Operations.{PreExecution};
ghost use Rattle.fs_model.specs.Execution.{ObeysAxioms};
ghost use Rattle.fs_model.specs.Tests.{PassesTests};

/// A law: an order obeys the axioms just where the harts' operations pass the tests, each one and every two of them.
pub fn tests_decide()
    ensures passing { (x : PreExecution) (p : List Entry) (order : List ℕ) → PassesTests x p order
        → ObeysAxioms x p order }
    ensures obeying { (x : PreExecution) (p : List Entry) (order : List ℕ) → ObeysAxioms x p order
        → PassesTests x p order }
{}
