//! Stronger fences never allow more.

ghost use Rattle.std.specs.Prelude.{◌≡◌, List, [], true, ◌↔◌};
ghost use Rattle.fs_kinds.specs.declared.placement.Entry.{Entry};
ghost use Rattle.fs_kinds.specs.Placement.{slots_of, is_weaker};
ghost use Rattle.fs_kinds.specs.PriceTable.{PriceTable, IsPriceTable};
ghost use Rattle.fs_model.specs.declared.test.Test.{Test};
ghost use Rattle.fs_model.specs.Slots.{slots};
ghost use Rattle.fs_model.specs.Execution.{Execution, IsExecution};
ghost use Rattle.fs_model.specs.Allows.{Shows, RefutesAll};
ghost use Rattle.fs_cert_evidence.specs.Widths.{IsExactWidth};
ghost use Rattle.fs_model_laws.specs.Strength.{KeepsNoMore, KeepsTheSame, AllowsNoLess, AllAreRefuted, IsAlwaysAllowed};
ghost use Rattle.fs_model_laws.specs.Strength.{HasNoAnswer};

/// A law: whatever is allowed under stronger fences is allowed under weaker ones, by the same execution. So it is for
/// two placements with the same slots, and for any two lists of fences, where a slot that isn't listed has no fence.
/// The test without fences allows whatever it allows with any.
pub fn weaker_fences_allow_more()
    ensures placements { (t : Test) (p q : List Entry) → slots_of p ≡ slots_of q → is_weaker p q ≡ true
        → AllowsNoLess t p q }
    ensures lists { (t : Test) (p q : List Entry) → KeepsNoMore p q → AllowsNoLess t p q }
    ensures unfenced { (t : Test) (q : List Entry) → AllowsNoLess t [] q }
{}

/// A law: whether fences can forbid the outcome is decided by `rw,rw` in every slot. An execution that shows the
/// outcome with these fences shows it with every placement over the test's slots, and then no placement is the answer,
/// whatever the prices. There is such an execution if and only if the outcome is allowed with every placement that the
/// prices offer.
pub fn full_fences_decide()
    ensures shown { (t : Test) (e : Execution) → RefutesAll t e → (p : List Entry) → slots_of p ≡ slots t
        → Shows t p e }
    ensures unanswered { (t : Test) → AllAreRefuted t → (prices : PriceTable) → HasNoAnswer t prices }
    ensures decides { (t : Test) (prices : PriceTable) → IsPriceTable prices
        → AllAreRefuted t ↔ IsAlwaysAllowed t prices }
{}

/// A law: of the kinds of fence only the pairs that they keep in order matter, and a slot that has none in a placement
/// is as good as one that isn't listed. Fences that keep the same pairs have the same executions.
pub fn kept_pairs_decide()
    ensures { (t : Test) (p q : List Entry) → KeepsTheSame p q → AllowsNoLess t p q × AllowsNoLess t q p }
{}

/// A law: widths are exact. An execution without placed fences is one with the fences of a placement exactly where each
/// of them orders only pairs that the execution's order keeps at its slot.
pub fn widths_are_exact()
    ensures { (t : Test) (e : Execution) → IsExecution t [] e → IsExactWidth t e }
{}
