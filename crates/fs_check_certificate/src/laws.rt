//! Laws of certificates.

ghost use Rattle.std.specs.Prelude.{◌≡◌, ◌≢◌, ℕ, Option, None, Some, List, slice_get};
ghost use Rattle.fs_kinds.specs.declared.kind.Kind.{Kind};
ghost use Rattle.fs_kinds.specs.declared.placement.Entry.{Entry};
ghost use Rattle.fs_kinds.specs.declared.slot.Slot.{Slot};
ghost use Rattle.fs_kinds.specs.Placement.{with_kind};
ghost use Rattle.fs_kinds.specs.PriceTable.{PriceTable};
ghost use Rattle.fs_model.specs.declared.test.Test.{Test};
ghost use Rattle.fs_model.specs.Allows.{IsPlacement};
ghost use Rattle.fs_cert_evidence.specs.Certificate.{Certificate, First, IsRight};
ghost use Rattle.fs_cert_evidence.specs.CertificateFile.{IsCertificateFile};
ghost use Rattle.fs_board_offers.specs.Priced.{IsValid, IsValidFor};
ghost use Rattle.fs_check_certificate.specs.Shown.{IsBetterBy, IsShown};
ghost use Rattle.fs_values.specs.ThinAir.{CanBeListed};

/// A law: a file says one certificate at most. So what is said of the one that a call has read is said of the file.
pub fn file_says_one_certificate()
    ensures { (bytes : List ℕ) (c d : Certificate) → IsCertificateFile bytes c → IsCertificateFile bytes d → c ≡ d }
{}

/// A law: where a test's runs can be listed, a valid certificate's answer is right. A placement forbids the outcome, by
/// a cycle for each showing candidate or by a refutation, and by the tree every better placement allows it, or in the
/// first version every cheaper one. None is right since even `rw,rw` in every slot allows the outcome.
pub fn valid_is_right()
    ensures { (t : Test) (prices : PriceTable) → CanBeListed t → (c : Certificate) (answer : Option (List Entry))
        → IsValid t prices c answer → IsRight c.version t prices answer }
{}

/// A law: a valid certificate has for each placement that is better than its answer a witness that shows the outcome
/// under it. So it has one for each fence of the answer, which shows it where this fence alone is left out: that costs
/// less, or where the slot weighs nothing as much, and comes first. In the first version, in which ties are left open,
/// it has one where it costs less.
pub fn fences_have_executions()
    ensures better { (t : Test) (prices : PriceTable) (c : Certificate) (p q : List Entry) → IsValidFor t prices c p
        → IsPlacement t prices q → IsBetterBy c.version prices q p → IsShown t c.witnesses q }
    ensures fences { (t : Test) (prices : PriceTable) (c : Certificate) (p : List Entry) → IsValidFor t prices c p
        → c.version ≢ First → (k : ℕ) (slot : Slot) (kind : Kind)
        → slice_get p k ≡ Some (record { slot = slot; kind = Some kind })
        → IsShown t c.witnesses (with_kind slot None p) }
{}
