//! When nothing under a partial placement is better than the best placement so far.

ghost use Rattle.std.specs.Prelude.{◌≡◌, ◌≤◌, ◌⊎◌, ◌↔◌, not, Option, None, Some, List, [], ◌∷◌, map, true, false};
ghost use Rattle.std.specs.List.{All, list_any};
ghost use Rattle.fs_kinds.specs.declared.placement.Entry.{Entry};
ghost use Rattle.fs_kinds.specs.Placement.{slots_of};
ghost use Rattle.fs_kinds.specs.Slot.{is_rising};
ghost use Rattle.fs_model.specs.declared.test.Test.{Test};
ghost use Rattle.fs_model.specs.Execution.{Execution};
ghost use Rattle.fs_model.specs.Allows.{Shows, Allows};
ghost use Rattle.fs_board_offers.specs.Offers.{Offers, slots, cost, is_better, are_offered, IsCheapest};
ghost use Rattle.fs_board_offers.specs.Questions.{HasTop};
ghost use Rattle.fs_cert_evidence.specs.Widths.{Width, width};
ghost use Rattle.fs_board_offers.specs.Parts.{Part, slots_in_part, floor, filled, is_under};
ghost use Rattle.fs_board_offers.specs.Pruning.{is_breakable, is_pruned};
ghost use Rattle.fs_board_offers.specs.Bounds.{AreRanked, IsNoBetter};

/// A law: with no execution, a part is pruned exactly where its floor isn't better than the best placement so far. As
/// long as there is no such placement nothing is pruned so.
pub fn cost_alone_prunes()
    ensures bound { (offers : Offers) (p : List Entry) (part : Part)
        → is_pruned offers (Some p) part [] ≡ not (is_better offers (floor part) p) }
    ensures unbound { (offers : Offers) (part : Part) → is_pruned offers None part [] ≡ false }
{}

/// A law: the floor of a part is its cheapest completion, and of those that cost as much the first. So nothing under
/// the part is better than its floor, whatever the offers.
pub fn floor_is_least()
    ensures cheapest { (offers : Offers) (part : Part) (q : List Entry)
        → is_under part q ≡ true → cost offers (floor part) ≤ cost offers q }
    ensures best { (offers : Offers) (part : Part) (q : List Entry)
        → is_under part q ≡ true → is_better offers q (floor part) ≡ false }
{}

/// A law: which placement is better is a total order. No placement is better than itself, what is better than a better
/// one is better, and of two different ones over the same slots one is better. So a test and offers have one cheapest
/// placement at most.
pub fn better_is_total_order()
    ensures irreflexive { (offers : Offers) (p : List Entry) → is_better offers p p ≡ false }
    ensures transitive { (offers : Offers) (p q r : List Entry)
        → is_better offers p q ≡ true → is_better offers q r ≡ true → is_better offers p r ≡ true }
    ensures total { (offers : Offers) (p q : List Entry) → slots_of p ≡ slots_of q → AreRanked offers p q }
    ensures one { (t : Test) (offers : Offers) (p q : List Entry)
        → IsCheapest t offers p → IsCheapest t offers q → p ≡ q }
{}

/// A law: let a part be pruned by executions that show the outcome under its floor. Then each placement under the part
/// allows the outcome, or is no better than the best placement so far. As long as there is no such placement, all of
/// them allow it.
pub fn bounded_part()
    ensures { (t : Test) (offers : Offers) (bound : Option (List Entry)) (part : Part) (es : List Execution)
        (q : List Entry)
        → is_rising (slots_in_part part) ≡ true → All (Shows t (floor part)) es
        → is_pruned offers bound part (map (width t) es) ≡ true
        → are_offered offers q ≡ true → is_under part q ≡ true → Allows t q ⊎ IsNoBetter offers bound q }
{}

/// A law: where `rw,rw` is offered at each slot, an execution that shows the outcome under the floor of a part has no
/// breakable slot exactly where it shows the outcome with `rw,rw` in each undecided slot too. Then it prunes the part by
/// itself, whatever the best placement so far.
pub fn one_witness_prunes()
    ensures shows { (t : Test) (offers : Offers) (part : Part) (e : Execution)
        → HasTop offers → is_rising (slots offers) ≡ true → slots_in_part part ≡ slots offers → Shows t (floor part) e
        → (list_any (is_breakable offers (width t e)) part ≡ false) ↔ Shows t (filled part) e }
    ensures prunes { (offers : Offers) (bound : Option (List Entry)) (part : Part) (w : Width)
        → list_any (is_breakable offers w) part ≡ false → is_pruned offers bound part (w ∷ []) ≡ true }
{}
