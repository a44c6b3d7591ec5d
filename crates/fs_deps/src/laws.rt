//! Laws of the dependencies.

ghost use Rattle.std.specs.Prelude.{List};
ghost use Rattle.fs_model.specs.declared.step.Step.{Step};
ghost use Rattle.fs_deps.specs.declared.deps.Masks.{Masks};
ghost use Rattle.fs_deps.specs.Masks.{IsDepsOf, HasNoOthers};

/// A law: a step that isn't there depends on none, and none on it.
pub fn no_other_steps()
    ensures { (steps : List Step) (masks : List Masks) → IsDepsOf steps masks → HasNoOthers steps masks }
{}
