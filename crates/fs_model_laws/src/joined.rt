//! Laws that join the model of programs, in which fences are instructions, with placements.

ghost use Rattle.std.specs.Prelude.{◌≡◌, ◌↔◌, ◌||◌, ◌&&◌, ℕ, Option, List, [], true};
ghost use Rattle.fs_instr.specs.declared.instr.Instr.{Instr};
ghost use Rattle.fs_kinds.specs.declared.kind.Classes.{Classes};
ghost use Rattle.fs_kinds.specs.declared.placement.Entry.{Entry};
ghost use Rattle.fs_kinds.specs.Placements.{PriceTable};
ghost use Rattle.fs_model.specs.declared.test.Test.{Test};
ghost use Rattle.fs_model.specs.Operations.{PreExecution, po};
ghost use Rattle.fs_model.specs.Rules as rules;
ghost use Rattle.fs_model.specs.Executions as executions;
ghost use Rattle.fs_model.specs.Executions.{Execution};
ghost use Rattle.fs_model.specs.Answers as answers;
ghost use Rattle.fs_model.specs.Answers.{NothingRulesOut};
ghost use Rattle.fs_model.specs.OfTests.{program_of, outcome_of};
ghost use Rattle.fs_model.specs.Fences.{placed_between};
ghost use Rattle.fs_model.specs.Preserved.{ppo};
ghost use Rattle.fs_model.specs.Execution.{IsExecution};
ghost use Rattle.fs_model.specs.Allows.{Allows, IsCheapest, no_fences};
ghost use Rattle.fs_model_laws.specs.Letters as letters;
ghost use Rattle.fs_model_laws.specs.Strength.{AllAreRefuted};

/// A law: with placed fences a comes before b in preserved program order where it does without them, or where b is
/// later in program order and a placed fence that orders the two stands between them.
pub fn rule_4_with_placements()
    ensures { (x : PreExecution) (p : List Entry) (rf : ℕ → Option ℕ) (a b : ℕ)
        → (ppo x p rf a b ≡ true) ↔ ((rules.ppo x rf a b || po x a b && placed_between x p a b) ≡ true) }
{}

/// A law: a FENCE orders by its letters what it orders by pairs of classes, and so rule 4 is the same by either.
pub fn rule_4_by_letters()
    ensures orders { (first second : Classes) (i : Instr) → letters.orders first second i
        ≡ rules.instr_orders first second i }
    ensures between { (x : PreExecution) (a b : ℕ) → letters.fence_between x a b ≡ rules.fence_between x a b }
{}

/// A law: with no placement the executions of a test are those of its program, and it allows its outcome where the
/// program does.
pub fn model_means_no_placement()
    ensures executions { (t : Test) (e : Execution) → executions.IsExecution (program_of t) e ↔ IsExecution t [] e }
    ensures allowed { (t : Test) → executions.Allows (program_of t) (outcome_of t) ↔ Allows t [] }
{}

/// A law: what `solve` and `test` answer of a test, said of its program, in which fences are instructions. The fenced
/// program allows the outcome exactly where the test does under the placement; so the cheapest placement is the same,
/// an execution that shows the outcome with `rw,rw` in every slot is there exactly where no fences in the slots rule it
/// out, and without fences the two allow the same.
pub fn solve_means()
    ensures fenced { (t : Test) (p : List Entry)
        → executions.Allows (answers.fenced (program_of t) p) (outcome_of t) ↔ Allows t p }
    ensures cheapest { (t : Test) (prices : PriceTable) (p : List Entry)
        → IsCheapest t prices p ↔ answers.IsCheapest (program_of t) (outcome_of t) prices p }
    ensures none { (t : Test) → AllAreRefuted t ↔ NothingRulesOut (program_of t) (outcome_of t) }
    ensures tested { (t : Test) → executions.Allows (program_of t) (outcome_of t) ↔ Allows t (no_fences t) }
{}
