//! A certificate has one verdict. The function does nothing: it stands for the laws that it promises.

ghost use Rattle.std.specs.Prelude.{◌≡◌, Option, List};
ghost use Rattle.fs_kinds.specs.declared.placement.Entry.{Entry};
ghost use Rattle.fs_kinds.specs.declared.reason.Reason.{Reason};
ghost use Rattle.fs_kinds.specs.PriceTable.{PriceTable};
ghost use Rattle.fs_model.specs.declared.test.Test.{Test};
ghost use Rattle.fs_model.specs.Test.{IsBounded};
ghost use Rattle.fs_cert_evidence.specs.Certificate.{Certificate};
ghost use Rattle.fs_board_offers.specs.Priced.{IsValid, IsRefusal};

/// A law: for a test within the limits, and whatever the prices, a certificate that is valid has one answer, a
/// placement or none; one that is valid isn't refused; and one that is refused has one reason against it. So of all
/// that a checker may say of a certificate one thing at most is right.
pub fn one_verdict()
    ensures answer { (t : Test) (prices : PriceTable) (c : Certificate) (a b : Option (List Entry)) → IsBounded t
        → IsValid t prices c a → IsValid t prices c b → a ≡ b }
    ensures apart { (t : Test) (prices : PriceTable) (c : Certificate) (a : Option (List Entry)) (why : Reason)
        → IsBounded t
        → IsValid t prices c a → IsRefusal t prices c why → ⊥ }
    ensures once { (t : Test) (prices : PriceTable) (c : Certificate) (why other : Reason) → IsBounded t
        → IsRefusal t prices c why → IsRefusal t prices c other → why ≡ other }
{}
