//! What the test means that `audit --write` prints.

ghost use Rattle.std.specs.Prelude.{ℕ, List};
ghost use Rattle.fs_app_io.specs.declared.status.Status.{Status};
ghost use Rattle.fs_app_audit.specs.Audit.{IsMended, IsWritten};
ghost use Rattle.fs_app_guarantees.specs.Audits.{IsNothingOrKeepsDevices, IsNothingOrMended};

/// A law: the fences that `audit` advises rule the outcome out. Where `audit --write` prints a test, and it is read
/// again, no execution of it shows its outcome. The file with other FENCEs is read; a test in the printed form is unless
/// a hart has more than 32 instructions with these fences.
pub fn mended_is_ruled_out()
    ensures { (test prices text : List ℕ) (status : Status) → IsWritten test prices text status
        → IsNothingOrMended text }
{}

/// A law: where `audit --write` prints a test anew, and it is read again, it has in each hart the FENCEs of the file that
/// have `i` or `o` among their letters, each with all its letters, in the same order.
pub fn mended_keeps_devices()
    ensures { (test prices text : List ℕ) (status : Status) → IsMended test prices text status
        → IsNothingOrKeepsDevices test text }
{}
