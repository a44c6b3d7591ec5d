//! What an answer of `solve` means.

ghost use Rattle.std.specs.Prelude.{ℕ, List};
ghost use Rattle.fs_app_io.specs.declared.status.Status.{Status};
ghost use Rattle.fs_app_guarantees.specs.Headline.{IsTrueOfFiles};
ghost use Rattle.fs_app_solve_and_check.specs.Solve.{IsSolved};

/// A law, the promise of `solve`. Where it answers, the bytes read as a test and as prices, and what it prints is true
/// of whatever test and prices they read as. Where it ends with success, it gives a placement: no execution of the
/// test with these fences shows the outcome, and with any better placement over the same slots and kinds (one that
/// costs less, or as much and is earlier) some execution does. Where it ends with a denial, it says `none`: some
/// execution shows the outcome whatever fences stand in the slots, and `order` says yes to the one that is printed,
/// with `rw,rw` in every slot. It ends in no other way where it has an answer.
pub fn headline()
    ensures { (test prices text : List ℕ) (status : Status) → IsSolved test prices text status
        → IsTrueOfFiles test prices text status }
{}
