//! How many operations there are of harts.

ghost use Rattle.std.specs.Prelude.{◌≡◌, ◌≤◌, length};
ghost use Rattle.fs_model.specs.Operations.{PreExecution, operations as operations_of, accesses};
ghost use Rattle.fs_model_axioms.specs.Among.{count_of_harts};

use fs_model::Operation;

/// How many of a test's operations are the harts': the others are initial stores.
pub fn count_accesses(operations: &[Operation]) -> usize
    ensures harts { result ≡ count_of_harts operations.now }
    ensures count { (x : PreExecution) → operations.now ≡ operations_of x → result ≡ length (accesses x) }
    ensures most { result ≤ length operations.now }
{
    operations
        .iter()
        .filter(|operation| operation.hart.is_some())
        .count()
}
