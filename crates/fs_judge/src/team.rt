//! Those who judge together.

ghost use Rattle.std.specs.Prelude.{◌≡◌, true, IfOk};
ghost use Rattle.fs_region_refutation.specs.Subtrees.{AreOfTheTest, AreRefuted};

use fs_judge_hunt::{Alone, Crew};
use fs_region_refutation::Subtrees;
use std::alloc::{AllocError, Global};

/// A crew that also looks together at what it finds.
pub trait Team: Crew {
    /// Do the inferences of each of the subtrees refute its region?
    fn check(&self, alloc: Global, subtrees: &Subtrees<'_>) -> Result<bool, AllocError>
        requires may { Self.may_hunt }
        requires of { AreOfTheTest subtrees.now }
        ensures { IfOk result (λ yes. yes ≡ true → AreRefuted subtrees.now) };
}

impl Team for Alone {
    fn check(&self, alloc: Global, subtrees: &Subtrees<'_>) -> Result<bool, AllocError> {
        let are_refuted = subtrees.are_refuted_in_turn(alloc, 0, 1)?;
        Ok(are_refuted)
    }
}
