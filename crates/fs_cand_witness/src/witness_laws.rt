//! That a witness gives one execution.

ghost use Rattle.std.specs.Prelude.{◌≡◌};
ghost use Rattle.fs_model.specs.declared.test.Test.{Test};
ghost use Rattle.fs_model.specs.Test.{IsBounded};
ghost use Rattle.fs_model.specs.Execution.{Execution};
ghost use Rattle.fs_model.specs.Witness.{Witness, IsOfWitness};

/// A law: a witness gives one execution at most, in a test whose branches go forward. The choices decide the runs, and
/// since no instruction runs twice the names decide the operations.
pub fn witnesses_give_one_execution()
    ensures { (t : Test) (w : Witness) (e f : Execution) → IsBounded t → IsOfWitness t w e → IsOfWitness t w f → e ≡ f }
{}
