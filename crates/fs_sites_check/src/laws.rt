//! Laws of certificates of questions over sites.

ghost use Rattle.std.specs.Prelude.{ℕ, List};
ghost use Rattle.fs_sites.specs.Answers.{IsAnswer};
ghost use Rattle.fs_sites.specs.Questions.{Question, IsQuestion};
ghost use Rattle.fs_sites.specs.declared.answer.Answer.{Answer};
ghost use Rattle.fs_sites_check.specs.Valid.{IsValid};
ghost use Rattle.fs_sites_check.specs.declared.certificate.SitesCertificate.{SitesCertificate};

/// A law: a valid certificate's answer is right. Its fences are the first of the cheapest that forbid the outcome of
/// each test: each test's refutation forbids it with them, and whatever is better leaves the execution of some witness.
/// None is right since even `rw,rw` at each site leaves one.
pub fn valid_is_right()
    ensures { (q : Question) (names : List (List ℕ)) (c : SitesCertificate) (a : Answer) → IsQuestion q
        → IsValid q names c a → IsAnswer q a }
{}
