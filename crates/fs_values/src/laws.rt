//! Laws of rounds. The functions do nothing: each stands for the laws that it promises.

ghost use Rattle.std.specs.Prelude.{◌↔◌, ◌≤◌, ℕ, List};
ghost use Rattle.fs_kinds.specs.declared.fault.Fault.{Fault};
ghost use Rattle.fs_model.specs.declared.test.Test.{Test};
ghost use Rattle.fs_model.specs.Values.{IsValueAfter};
ghost use Rattle.fs_model.specs.TooMany.{IsHartFault};
ghost use Rattle.fs_hart.specs.Listing.{IsOffered};
ghost use Rattle.fs_values.specs.Rounds.{AreSameSets, AddsNothing};

/// A law: the faults of a hart depend on which words there are at each location alone. So they are the same over two
/// lists of sets with the same words, and over the values after some rounds and sets that have these words.
pub fn same_sets_fail_alike()
    ensures sets { (t : Test) (xs ys : List (List ℕ)) → AreSameSets (IsOffered xs) (IsOffered ys)
        → (hart : ℕ) (f : Fault) → IsHartFault t (IsOffered xs) hart f ↔ IsHartFault t (IsOffered ys) hart f }
    ensures values { (t : Test) (n : ℕ) (sets : List (List ℕ)) → AreSameSets (IsOffered sets) (IsValueAfter t n)
        → (hart : ℕ) (f : Fault) → IsHartFault t (IsOffered sets) hart f ↔ IsHartFault t (IsValueAfter t n) hart f }
{}

/// A law: after a round that adds nothing, no later round adds a word or meets another fault.
pub fn rounds_come_to_an_end()
    ensures values { (t : Test) (n : ℕ) → AddsNothing t n → (m : ℕ) → n ≤ m
        → AreSameSets (IsValueAfter t n) (IsValueAfter t m) }
    ensures faults { (t : Test) (n : ℕ) → AddsNothing t n → (m : ℕ) → n ≤ m
        → (hart : ℕ) (f : Fault) → IsHartFault t (IsValueAfter t n) hart f ↔ IsHartFault t (IsValueAfter t m) hart f }
{}
