//! Laws of runs.

ghost use Rattle.std.specs.Prelude.{ℕ, List};
ghost use Rattle.fs_instr.specs.declared.instr.Instr.{Instr};
ghost use Rattle.fs_model.specs.declared.step.Choice.{Choice};
ghost use Rattle.fs_model.specs.Choices.{MakeOneRun, StopOnce, NeverDoBoth};

/// A law: the choices of a hart decide its run. They make at most one whole run, or stop in at most one way, and not
/// both.
pub fn choices_decide()
    ensures whole { (n : ℕ) (code : List Instr) (registers : List ℕ) (choices : List Choice)
        → MakeOneRun n code registers choices }
    ensures stopped { (n : ℕ) (code : List Instr) (registers : List ℕ) (choices : List Choice)
        → StopOnce n code registers choices }
    ensures apart { (n : ℕ) (code : List Instr) (registers : List ℕ) (choices : List Choice)
        → NeverDoBoth n code registers choices }
{}
