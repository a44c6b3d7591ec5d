//! The order of placements.

ghost use Rattle.std.specs.Prelude.{◌≡◌, List, true, false};
ghost use Rattle.fs_kinds.specs.declared.placement.Entry.{Entry};
ghost use Rattle.fs_kinds.specs.Placement.{slots_of};
ghost use Rattle.fs_kinds.specs.PriceTable.{PriceTable};
ghost use Rattle.fs_model.specs.declared.test.Test.{Test};
ghost use Rattle.fs_model.specs.Allows.{IsCheapest, is_better};
ghost use Rattle.fs_model_laws.specs.Bounds.{AreRanked};

/// A law: which placement is better is a total order. No placement is better than itself, what is better than a better
/// one is better, and of two different ones over the same slots one is better. So a test and prices have one cheapest
/// placement at most.
pub fn better_is_total_order()
    ensures irreflexive { (prices : PriceTable) (p : List Entry) → is_better prices p p ≡ false }
    ensures transitive { (prices : PriceTable) (p q r : List Entry)
        → is_better prices p q ≡ true → is_better prices q r ≡ true → is_better prices p r ≡ true }
    ensures total { (prices : PriceTable) (p q : List Entry) → slots_of p ≡ slots_of q → AreRanked prices p q }
    ensures one { (t : Test) (prices : PriceTable) (p q : List Entry)
        → IsCheapest t prices p → IsCheapest t prices q → p ≡ q }
{}
