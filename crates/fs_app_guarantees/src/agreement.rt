//! What `order` says of the answers that `solve` prints, and that it says one thing only.

ghost use Rattle.std.specs.Prelude.{◌≡◌, ℕ, List};
ghost use Rattle.fs_model.specs.declared.test.Test.{Test};
ghost use Rattle.fs_litmus.specs.Reads.{Reads};
ghost use Rattle.fs_app_io.specs.declared.status.Status.{Status};
ghost use Rattle.fs_app_solve_and_check.specs.Solve.{IsSolved};
ghost use Rattle.fs_app_place_and_order.specs.Order.{IsOrderAnswer};
ghost use Rattle.fs_app_guarantees.specs.Agreement.{OrderAgrees, HaveOnePlacement};

/// A law: `order` agrees with `solve`. Where `solve` prints `none` and a witness, `order` says yes to that witness as a
/// file, with its line end or without, with `rw,rw` in every slot and with any other fences. Where it prints a
/// placement, `order` says yes to no witness file with these fences, and for each better placement over the same slots
/// and kinds (one that costs less, or as much and is earlier) it says yes to some witness file with the fences of that.
/// It says yes where yes is what it prints if it answers: a run may still lack memory.
pub fn order_agrees()
    ensures { (test prices text : List ℕ) (status : Status) → IsSolved test prices text status
        → OrderAgrees test prices text }
{}

/// A law: in a test that is read, each placement over the slots has words for `order` that place it, and words place
/// one placement at most.
pub fn words_place_fences()
    ensures { (bytes : List ℕ) (t : Test) → Reads bytes t → HaveOnePlacement t }
{}

/// A law: `order` has one answer at most to a test file, words and a witness file. So where it says yes, it says
/// nothing else.
pub fn order_answers_once()
    ensures { (test witness : List ℕ) (words : List (List ℕ)) (text other : List ℕ) (status end : Status)
        → IsOrderAnswer test witness words text status → IsOrderAnswer test witness words other end → (text
        ≡ other) × (status ≡ end) }
{}
