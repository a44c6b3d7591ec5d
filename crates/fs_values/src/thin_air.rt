//! The laws on which value sets stand: nothing comes out of thin air.

ghost use Rattle.std.specs.Prelude.{◌≡◌, ℕ, Bool, true};
ghost use Rattle.fs_model.specs.declared.test.Test.{Test};
ghost use Rattle.fs_model.specs.Test.{IsBounded};
ghost use Rattle.fs_model.specs.Values.{IsValueAfter};
ghost use Rattle.fs_values.specs.Readings.{SaysTheSame};
ghost use Rattle.fs_values.specs.ThinAir.{BeginsWithWords, HasRunsOverValues, IsAlwaysGrounded, KeepsStores};
ghost use Rattle.fs_values.specs.ThinAir.{MeetsNoFault, NeverAstray, RestsOnNoCycle};

/// A law: a run stores what it stores by the words of the loads on which the store rests alone. Where these are words
/// of a set, some run all of whose loads take words of the set stores the same word at the same location, if none over
/// the set goes astray.
pub fn stores_rest_on_their_loads()
    ensures tests { (t : Test) (test : ℕ → ℕ → Bool) → IsBounded t → BeginsWithWords t
        → KeepsStores t (λ k word. test k word ≡ true) }
    ensures rounds { (t : Test) (n : ℕ) → IsBounded t → BeginsWithWords t → KeepsStores t (IsValueAfter t n) }
{}

/// A law: in an execution nothing rests on itself, whether directly or by sources of loads.
pub fn nothing_rests_on_itself()
    ensures { (t : Test) → RestsOnNoCycle t }
{}

/// A law: where the listing of runs meets no fault, no run over the value sets goes astray.
pub fn no_fault_none_astray()
    ensures { (t : Test) → MeetsNoFault t → NeverAstray t }
{}

/// A law: nothing comes out of thin air. Where no run over the value sets goes astray, and so where the listing of runs
/// meets no fault, every execution is grounded, whatever fences are placed; and its runs are among those of candidates.
pub fn nothing_out_of_thin_air()
    ensures grounded { (t : Test) → IsBounded t → BeginsWithWords t → NeverAstray t → IsAlwaysGrounded t }
    ensures listed { (t : Test) → IsBounded t → BeginsWithWords t → MeetsNoFault t → IsAlwaysGrounded t }
    ensures runs { (t : Test) → IsBounded t → BeginsWithWords t → MeetsNoFault t → HasRunsOverValues t }
{}

/// A law: of such a test, what shows the outcome, what allows it and which placement is the answer can be said without
/// the word grounded.
pub fn grounded_says_nothing_more()
    ensures { (t : Test) → IsBounded t → BeginsWithWords t → MeetsNoFault t → SaysTheSame t }
{}
