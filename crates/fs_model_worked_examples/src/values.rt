//! Which words a location can come to hold.

ghost use Rattle.std.specs.Prelude.{◌≡◌, ◌⊎◌, ◌↔◌, ℕ};
ghost use Rattle.fs_model.specs.Values.{IsValue, IsValueAfter};
ghost use Rattle.fs_model_worked_examples.specs.Adding.{two_adds};

/// A law: where two harts each add 1 to a location that holds 0 at first, it can hold 0, 1 and 2 and no other word.
/// After one round these are 0 and 1: a load of what one hart stores comes in the second round.
pub fn values_of_two_adds()
    ensures first_round { (word : ℕ) → IsValueAfter two_adds 1 0 word ↔ ((word ≡ 0) ⊎ (word ≡ 1)) }
    ensures all { (word : ℕ) → IsValue two_adds 0 word ↔ ((word ≡ 0) ⊎ ((word ≡ 1) ⊎ (word ≡ 2))) }
{}
