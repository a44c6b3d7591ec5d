//! What is said of a placement.

ghost use Rattle.std.specs.Prelude.{IfOk, IsOkUnless};
ghost use Rattle.fs_kinds.specs.declared.fault.Fault.TheVariants.{Memory};
ghost use Rattle.fs_model.specs.declared.test.Test.{Test};
ghost use Rattle.fs_model.specs.Allows.{Allows};
ghost use Rattle.fs_cert_evidence.specs.Evidence.{ShowsForbidden};
ghost use Rattle.fs_cert_evidence.specs.Inferences.{cycles_of};
ghost use Rattle.fs_judge.specs.Verdicts.{IsVerdict};

use fs_cert_evidence::{Cycles, Forbidden, Witness};
use fs_kinds::{Fault, Placement};

/// Whether a placement forbids the outcome.
#[derive(Drop)]
pub enum Verdict {
    /// It allows the outcome, as the witness shows.
    Allowed(Witness),
    /// It forbids the outcome, and what shows that.
    Forbids(Forbidden),
}

/// The placement forbids the outcome, as this shows. The error is F19.
pub(crate) fn forbidden(placement: &Placement, cycles: Cycles) -> Result<Verdict, Fault>
    ensures ok { (t : Test) → ShowsForbidden t (record { placement = placement.now; cycles = cycles_of cycles })
        → (Allows t placement.now → ⊥)
        → IfOk result (IsVerdict t placement.now) }
    ensures err { IsOkUnless result Memory }
{
    let placement = placement.copy()?;
    Ok(Verdict::Forbids(Forbidden { placement, cycles }))
}
