//! That the lines which `solve` prints, and `check` below a `yes`, say one answer, and that `solve` has one answer to
//! the same files.

ghost use Rattle.std.specs.Prelude.{ℕ, List};
ghost use Rattle.fs_model.specs.declared.test.Test.{Test};
ghost use Rattle.fs_litmus.specs.Reads.{Reads};
ghost use Rattle.fs_app_io.specs.declared.status.Status.{Status};
ghost use Rattle.fs_app_solve_and_check.specs.Solve.{IsSolved};
ghost use Rattle.fs_app_guarantees.specs.Lines.{IsOneAnswer, SayOneAnswer};

/// A law: of a test that is read, the lines `fenced ..` and `fence ..` say one placement over its slots, those of
/// `none` one witness, and no lines are of both kinds. So a reader who has the test and the lines has the placement or
/// the witness.
pub fn lines_say_one_answer()
    ensures { (bytes : List ℕ) (t : Test) → Reads bytes t → SayOneAnswer t }
{}

/// A law: two runs of `solve` over the bytes of the same test and prices that answer, be it with different numbers of
/// workers or of nodes, end with the same status, and where that is success they print the same lines, byte for byte.
/// Where they say `none`, their executions may differ. The contracts of `Found` of fs_app_solve_and_check say that what
/// they print is an answer for every number of workers.
pub fn solve_answers_once()
    ensures { (test prices text other : List ℕ) (status end : Status) → IsSolved test prices text status
        → IsSolved test prices other end
        → IsOneAnswer text other status end }
{}
