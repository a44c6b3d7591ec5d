//! That the fenced test, read as a test of its own, means the test under its placement.

ghost use Rattle.std.specs.Prelude.{◌↔◌, List, []};
ghost use Rattle.fs_kinds.specs.declared.placement.Entry.{Entry};
ghost use Rattle.fs_model.specs.declared.test.Test.{Test};
ghost use Rattle.fs_model.specs.Test.{IsSame};
ghost use Rattle.fs_model.specs.Allows.{Allows, Shows, no_fences};
ghost use Rattle.fs_model.specs.Execution.{Execution, IsExecution};
ghost use Rattle.fs_model_laws.specs.Fenced.{AllowsAlike, AllowsAsRead, ExecutesAlike, KeepsOutcome, ShowsAlike};
ghost use Rattle.fs_model_laws.specs.Fenced.{KeepsApart, KeepsChoices};

/// A law: the executions of the fenced test, with no fence in its slots, are those of the test under the placement,
/// with the fences as steps. Two such executions show the outcome together. So the fenced test allows the outcome
/// exactly where the test does under the placement; and so does each test that is the same as the fenced one, such as
/// the one that is read from its printed form.
pub fn fenced_test_means_placement()
    ensures executions { (t : Test) (p : List Entry) → ExecutesAlike t p }
    ensures outcome { (t : Test) (p : List Entry) → KeepsOutcome t p }
    ensures shown { (t : Test) (p : List Entry) → ShowsAlike t p }
    ensures allowed { (t : Test) (p : List Entry) → AllowsAlike t p }
    ensures read { (t : Test) (p : List Entry) → AllowsAsRead t p }
{}

/// A law: fences as steps change no choice of a run, and executions that differ do so with their fences.
pub fn fences_keep_runs()
    ensures choices { (t : Test) (p : List Entry) → KeepsChoices t p }
    ensures apart { (t : Test) (p : List Entry) → KeepsApart t p }
{}

/// A law: a placement with no entry means the same as one with no fence in each slot.
pub fn no_entries_no_fences()
    ensures executions { (t : Test) (e : Execution) → IsExecution t [] e ↔ IsExecution t (no_fences t) e }
    ensures shown { (t : Test) (e : Execution) → Shows t [] e ↔ Shows t (no_fences t) e }
    ensures allowed { (t : Test) → Allows t [] ↔ Allows t (no_fences t) }
{}

/// A law: where the parts of a test's condition lie in memory changes nothing.
pub fn same_tests_show_alike()
    ensures { (t u : Test) (p : List Entry) (e : Execution) → IsSame t u → Shows t p e ↔ Shows u p e }
{}
