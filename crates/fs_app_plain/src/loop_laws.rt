//! Turns that can be left out, and executions in which no branch goes back.

ghost use Rattle.std.specs.Prelude.{◌≡◌, ◌<◌, ◌↔◌, ℕ, Bool, List, [], length};
ghost use Rattle.fs_kinds.specs.declared.placement.Entry.{Entry};
ghost use Rattle.fs_model.specs.declared.step.Step.{Step};
ghost use Rattle.fs_model.specs.declared.test.Test.{Test};
ghost use Rattle.fs_model.specs.Condition.{condition_of};
ghost use Rattle.fs_model.specs.Execution.{Execution, IsExecution};
ghost use Rattle.fs_model.specs.Allows.{Allows, Shows};
ghost use Rattle.fs_instr.specs.declared.names.Ann.{Ann};
ghost use Rattle.fs_model.specs.Test.{GoesForward};
ghost use Rattle.fs_model.specs.Execution.{code_of};
ghost use Rattle.fs_app_plain.specs.Waiting.{OnlyWaits, OnlyWaitsOrSwaps, StartsWithZero, LocksAreFreeOrTaken};
ghost use Rattle.fs_app_plain.specs.Waiting.{OnlyLocks};
ghost use Rattle.fs_app_plain.specs.WaitedOnce.{waiting, waited_once};
ghost use Rattle.fs_app_plain.specs.Waiting.{waits_for_a_flag, waits_for_a_lock};
ghost use Rattle.fs_app_plain.specs.OneTurn.{IsMark, IsStraightened, ReachesMarks, EndsAsIn};
ghost use Rattle.fs_app_plain.specs.Turns.{HasIdleTurn, IsLeftOut, IsInOneTurn, TurnsAreIdle, EndTheSame, AsksFor};

/// A law: an idle turn can be left out. With any fences, an execution in which a hart's run has one has another, of the
/// runs without it, that ends with the same words in memory; and in registers, but for those that the turn writes and
/// nothing after it does.
pub fn idle_turns_can_be_left_out()
    ensures { (t : Test) (p : List Entry) (e : Execution) (hart : ℕ) (before turn after : List Step)
        → IsExecution t p e → hart < length t.codes → HasIdleTurn t e hart before turn after
        → IsLeftOut t p e hart before turn after }
{}

/// A law: where each hart's first step that goes back ends an idle turn, one turn is as good as any number. With any
/// fences, each execution has another in which no step goes back, and which ends the same, in memory and in the
/// registers asked for. So an outcome that asks for no others is allowed where such an execution shows it.
pub fn one_turn_is_enough()
    ensures ends { (asked : ℕ → ℕ → Bool) (t : Test) (p : List Entry) (e : Execution) → TurnsAreIdle asked t p
        → IsExecution t p e → (f : Execution) × IsExecution t p f × IsInOneTurn t f × EndTheSame asked t e f }
    ensures shown { (asked : ℕ → ℕ → Bool) (t : Test) (p : List Entry) → TurnsAreIdle asked t p
        → AsksFor asked (condition_of t.condition) → Allows t p ↔ ((e : Execution) × Shows t p e × IsInOneTurn t e) }
{}

/// A law: where the only branches that go back are those of waiting loops, a load of another register than its base and
/// a branch back to it, the first step of a hart that goes back ends an idle turn, whatever the outcome asks for and
/// whatever fences are placed. So it is of `lw x5,0(x6)`, `bnez x5` back to it and `lw x7,0(x8)` beside harts without
/// loops; `waited_once` is an execution in which such a hart goes back. Of a swap and a `bnez` back to it the same holds
/// where in each execution with these fences that swap finds 0, or the word that it stores. It does where all harts do
/// nothing but `amoswap.w x5,x9,(x6)`, `bnez x5` back to it and `sw x0,0(x6)`, all with one word in x9, and all
/// locations begin with 0 or that word.
pub fn waiting_is_idle()
    ensures flags { (asked : ℕ → ℕ → Bool) (t : Test) (p : List Entry)
        → ((hart : ℕ) → hart < length t.codes → OnlyWaits (code_of t hart)) → TurnsAreIdle asked t p }
    ensures locks { (asked : ℕ → ℕ → Bool) (t : Test) (p : List Entry) → StartsWithZero t → LocksAreFreeOrTaken t p
        → ((hart : ℕ) → hart < length t.codes → OnlyWaitsOrSwaps (code_of t hart)) → TurnsAreIdle asked t p }
    ensures one_flag { (asked : ℕ → ℕ → Bool) (t : Test) (p : List Entry) → code_of t 0 ≡ waits_for_a_flag
        → ((hart : ℕ) → 0 < hart → hart < length t.codes → GoesForward (code_of t hart)) → TurnsAreIdle asked t p }
    ensures one_lock { (asked : ℕ → ℕ → Bool) (t : Test) (p : List Entry) (ann : Ann)
        → code_of t 0 ≡ waits_for_a_lock ann
        → ((hart : ℕ) → 0 < hart → hart < length t.codes → GoesForward (code_of t hart))
        → StartsWithZero t → LocksAreFreeOrTaken t p → TurnsAreIdle asked t p }
    ensures only_locks { (asked : ℕ → ℕ → Bool) (t : Test) (p : List Entry) (taken : ℕ) → OnlyLocks t taken
        → TurnsAreIdle asked t p }
    ensures is_execution { IsExecution waiting [] waited_once }
    ensures goes_back { IsInOneTurn waiting waited_once → ⊥ }
{}

/// A law: what `--unroll 1` makes of a test means the test's executions in which no step goes back. With any fences,
/// each of these has an execution of the straightened test in which each hart that had a branch back comes to its mark,
/// and each such execution has one of these. Both end with the same words in memory, and in all registers but the mark.
pub fn plain_means_one_turn()
    ensures forth { (mark : ℕ) (t u : Test) → IsMark mark t → IsStraightened mark t u → (p : List Entry) (f : Execution)
        → IsExecution t p f → IsInOneTurn t f
        → (e : Execution) × IsExecution u p e × ReachesMarks mark t u e × EndsAsIn mark t u f e }
    ensures back { (mark : ℕ) (t u : Test) → IsMark mark t → IsStraightened mark t u → (p : List Entry) (e : Execution)
        → IsExecution u p e → ReachesMarks mark t u e
        → (f : Execution) × IsExecution t p f × IsInOneTurn t f × EndsAsIn mark t u f e }
{}
