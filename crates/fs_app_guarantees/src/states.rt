//! What the final states of a test tell of its outcome.

ghost use Rattle.std.specs.Prelude.{◌↔◌, ℕ, List};
ghost use Rattle.fs_kinds.specs.declared.placement.Entry.{Entry};
ghost use Rattle.fs_model.specs.declared.test.Test.{Test};
ghost use Rattle.fs_model.specs.Allows.{Allows};
ghost use Rattle.fs_model.specs.Condition.{condition_of};
ghost use Rattle.fs_litmus.specs.Reads.{Reads};
ghost use Rattle.fs_judge_outcomes.specs.declared.place.Place.{Place};
ghost use Rattle.fs_judge_outcomes.specs.States.{AreStates};
ghost use Rattle.fs_app_guarantees.specs.Headline.{IsRuledOut, StaysPossible};
ghost use Rattle.fs_app_guarantees.specs.States.{NamesOnly, SomeMakesOutcome};

/// A law: `states` agrees with `test`, `solve` and `order`. Where the final states of a test with some fences are
/// listed at all places that its condition names, and any others, the outcome is allowed with these fences exactly
/// where some state in the list makes it true. Of a test that is read, it then stays possible in the test with these
/// fences as instructions, and else it is ruled out.
pub fn states_tell_the_outcome()
    ensures allowed { (t : Test) (p : List Entry) (places : List Place) (states : List (List ℕ))
        → AreStates t p places states
        → NamesOnly places (condition_of t.condition) → Allows t p ↔ SomeMakesOutcome t places states }
    ensures possible { (bytes : List ℕ) (t : Test) (p : List Entry) (places : List Place) (states : List (List ℕ))
        → Reads bytes t
        → AreStates t p places states → NamesOnly places (condition_of t.condition)
        → (SomeMakesOutcome t places states → StaysPossible t p) × ((SomeMakesOutcome t places states → ⊥)
        → IsRuledOut t p) }
{}
