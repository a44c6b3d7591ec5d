//! What is said of a test that is vacuous.

ghost use Rattle.std.specs.Prelude.{◌≡◌, IfOk, IsOkUnless};
ghost use Rattle.std.specs.Arc.{arc_value};
ghost use Rattle.fs_kinds.specs.declared.fault.Fault.TheVariants.{Memory};
ghost use Rattle.fs_values.specs.ThinAir.{CanBeListed};
ghost use Rattle.fs_app_test.specs.inner.Vacuities.{IsVacuity};

use crate::never::vacuous_text;
use crate::{Kind, Said};
use fs_judge_outcomes::is_vacuous;
use fs_kinds::Fault;
use fs_model::Test;
use fs_region_refutation::Basis;
use std::alloc::Global;
use std::sync::Arc;

/// Whether a test is vacuous, as far as that is known.
#[derive(Drop)]
pub(crate) enum Vacuity {
    /// It is, and this is said of it.
    Vacuous(Said),
    /// It isn't.
    Serious,
    /// It has so many runs that this is left open.
    Open,
}

/// Whether the test with these runs is vacuous, and where it is what is said of it. The error is F19. The cost is that
/// of `is_vacuous` of fs_judge_outcomes.
pub(crate) fn vacuous(alloc: Global, test: &Arc<Test>, basis: &Basis) -> Result<Vacuity, Fault>
    requires same { basis.now ≡ arc_value test.now }
    requires listable { CanBeListed (arc_value test.now) }
    ensures ok { IfOk result (IsVacuity (arc_value test.now)) }
    ensures err { IsOkUnless result Memory }
{
    let _ = test;
    match is_vacuous(alloc, basis)? {
        Some(true) => Ok(Vacuity::Vacuous(Said {
            kind: Kind::Vacuous,
            why: vacuous_text(alloc, basis)?,
            witness: None,
            fault: None,
        })),
        Some(false) => Ok(Vacuity::Serious),
        None => Ok(Vacuity::Open),
    }
}
