//! That `--why` leaves out no fence of an answer.

ghost use Rattle.std.specs.Prelude.{◌≡◌, ◌≢◌, ◌++◌, ℕ, List};
ghost use Rattle.fs_cert_evidence.specs.Certificate.{Certificate, First};
ghost use Rattle.fs_cert_evidence.specs.CertificateFile.{IsCertificateFile};
ghost use Rattle.fs_app_io.specs.declared.status.Status.{Status};
ghost use Rattle.fs_app_io.specs.declared.status.Status.TheVariants.{Success};
ghost use Rattle.fs_app_solve_and_check.specs.Check.{IsChecked, yes_line};
ghost use Rattle.fs_app_solve_and_check.specs.Solve.{IsCertified};
ghost use Rattle.fs_app_why.specs.Why.{IsCertifiedWhy};
ghost use Rattle.fs_app_guarantees.specs.FencesTold.{AsksForAll, FencesAreTold};
ghost use Rattle.fs_app_why.specs.declared.telling.Telling.{Telling};

/// A law: what `solve --why` tells below fences ends with each of them and an execution without it, and so does what
/// `check --why` tells below a yes, whoever made the certificate, where not one fence alone is asked for. A certificate of the first version, which leaves ties
/// open, may have none for a fence that costs nothing, at a slot that weighs nothing.
pub fn each_fence_is_told()
    ensures solved { (telling : Telling) (test prices lines certificate text : List ℕ) (status : Status) → AsksForAll telling
        → IsCertified test prices lines status certificate → IsCertifiedWhy telling test certificate text
        → FencesAreTold telling test lines text }
    ensures checked { (telling : Telling) (test prices lines certificate text : List ℕ) (c : Certificate) → AsksForAll telling
        → IsChecked test prices certificate lines Success → IsCertificateFile certificate c → c.version ≢ First
        → IsCertifiedWhy telling test certificate text
        → (below : List ℕ) × (lines ≡ yes_line ++ below) × FencesAreTold telling test below text }
{}
