//! What the offers mean that prices make.

ghost use Rattle.std.specs.Prelude.{◌≡◌, ◌↔◌, List, length};
ghost use Rattle.fs_kinds.specs.declared.placement.Entry.{Entry};
ghost use Rattle.fs_kinds.specs.Placement.{slots_of};
ghost use Rattle.fs_kinds.specs.PriceTable.{PriceTable, IsPriceTable};
ghost use Rattle.fs_kinds.specs.PriceTable as priced;
ghost use Rattle.fs_model.specs.declared.test.Test.{Test};
ghost use Rattle.fs_model.specs.Slots.{slots};
ghost use Rattle.fs_model.specs.Allows as priced_placements;
ghost use Rattle.fs_cert_evidence.specs.Sizes as priced_sizes;
ghost use Rattle.fs_board_offers.specs.Offers.{offers_of, cost, is_better, IsPlacement, IsCheapest};
ghost use Rattle.fs_board_offers.specs.Offers as offers;
ghost use Rattle.fs_board_offers.specs.Questions.{HasTop};
ghost use Rattle.fs_board_offers.specs.Sizes.{whole_tree};

/// A law: the offers that prices make for a test say of placements over its slots what the prices say. They have the
/// test's slots; a placement costs as much; of two the same is better; the placements are the same, and so is the
/// cheapest that forbids the outcome. The tree of all placements is as large. And `rw,rw` is offered at each slot.
pub fn offers_of_prices()
    ensures slots { (t : Test) (prices : PriceTable) → offers.slots (offers_of t prices) ≡ slots t }
    ensures costs { (t : Test) (prices : PriceTable) (p : List Entry) → slots_of p ≡ slots t
        → cost (offers_of t prices) p ≡ priced.cost prices p }
    ensures better { (t : Test) (prices : PriceTable) (p q : List Entry) → slots_of p ≡ slots t → slots_of q ≡ slots t
        → is_better (offers_of t prices) p q ≡ priced_placements.is_better prices p q }
    ensures placements { (t : Test) (prices : PriceTable) (p : List Entry)
        → IsPlacement (offers_of t prices) p ↔ priced_placements.IsPlacement t prices p }
    ensures cheapest { (t : Test) (prices : PriceTable) (p : List Entry)
        → IsCheapest t (offers_of t prices) p ↔ priced_placements.IsCheapest t prices p }
    ensures sizes { (t : Test) (prices : PriceTable)
        → whole_tree (offers_of t prices) ≡ priced_sizes.tree_size prices (length (slots t)) }
    ensures top { (t : Test) (prices : PriceTable) → IsPriceTable prices → HasTop (offers_of t prices) }
{}
