//! The names of a candidate's operations.

ghost use Rattle.std.specs.Prelude.{◌≡◌};
ghost use Rattle.fs_model.specs.Witness.{name_of};
ghost use Rattle.fs_ppo.specs.Rules.{OfRuns};
ghost use Rattle.fs_cand_witness.specs.Naming.{name_at};

use fs_cand::Candidate;
use fs_hart::steps_of;
use fs_kinds::OperationName;
use fs_model::Operation;

/// The name of operation a: its hart and the position of its instruction. An initial store has none.
pub fn operation_name(candidate: &Candidate, a: usize) -> Option<OperationName>
    ensures read { result ≡ name_at candidate.now a }
    ensures runs { OfRuns candidate.now (λ x. result ≡ name_of x a) }
{
    let operation = Operation::numbered(candidate.operations.as_slice(), a);
    let hart = operation.hart?;
    let steps = steps_of(candidate.traces.as_slice(), Some(hart));
    let step = steps.get(usize::from(operation.place))?;
    Some(OperationName { hart, at: step.at })
}
