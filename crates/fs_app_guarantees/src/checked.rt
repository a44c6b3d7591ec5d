//! What a yes of `check` means, and that the certificate of `solve --cert` gets one.

ghost use Rattle.std.specs.Prelude.{ℕ, List};
ghost use Rattle.fs_app_io.specs.declared.status.Status.{Status};
ghost use Rattle.fs_app_io.specs.declared.status.Status.TheVariants.{Success};
ghost use Rattle.fs_app_solve_and_check.specs.Solve.{IsCertified};
ghost use Rattle.fs_app_solve_and_check.specs.Check.{IsChecked};
ghost use Rattle.fs_app_guarantees.specs.Checked.{IsTrueYes, IsYesTo};

/// A law, the promise of `check`. Where it says `yes`, the bytes read as a test, as prices and as a certificate, and
/// what it prints below is true of whatever they read as, whoever made the certificate. Of a certificate of the second
/// or the fourth version it means what the same lines of `solve` mean. Of one of the first version the placement rules
/// the outcome out and none that costs less does, and ties are left open. Where it says `none`, some execution shows
/// the outcome whatever fences stand in the slots.
pub fn yes_is_true()
    ensures { (test prices certificate text : List ℕ) → IsChecked test prices certificate text Success
        → IsTrueYes test prices certificate text }
{}

/// A law: where `check` answers of what `solve --cert` wrote, for the bytes of the same test and prices, it says yes,
/// and below the `yes` stands what `solve` printed, byte for byte. Faults are no answers: the contract of `run_check`
/// says which may come. F18 isn't among them here, since the certificate is one, nor are F13 to F15, since nothing is
/// in the way of judging it.
pub fn certified_is_accepted()
    ensures { (test prices text certificate verdict : List ℕ) (status end : Status)
        → IsCertified test prices text status certificate
        → IsChecked test prices certificate verdict end → IsYesTo text verdict end }
{}
