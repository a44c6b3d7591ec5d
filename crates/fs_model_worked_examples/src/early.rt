//! Bounds at work in store buffering, by computation.

ghost use Rattle.std.specs.Prelude.{◌≡◌, ◌<◌, None, Some, List, [], ◌∷◌, map, true, false};
ghost use Rattle.std.proofs.Common.{Box};
ghost use Rattle.std.specs.declared.alloc.Global.{Global};
ghost use Rattle.fs_kinds.specs.declared.kind.Kind.TheVariants.{WR};
ghost use Rattle.fs_kinds.specs.declared.placement.Entry.{Entry};
ghost use Rattle.fs_kinds.specs.PriceTable.{cost};
ghost use Rattle.fs_model.specs.Allows.{Shows, Allows, IsPlacement};
ghost use Rattle.fs_cert_evidence.specs.Widths.{width};
ghost use Rattle.fs_board_offers.specs.Offers.{cost as cost_in};
ghost use Rattle.fs_board_offers.specs.Parts.{floor};
ghost use Rattle.fs_board_offers.specs.Pruning.{are_apart, is_pruned, lower_bound};
ghost use Rattle.fs_model_worked_examples.specs.StoreBuffering.{sb, fences};
ghost use Rattle.fs_model_worked_examples.specs.Rows.{prices, offers};
ghost use Rattle.fs_model_worked_examples.specs.EarlyReads.{root, reads_early, keeps_all, first_slot, second_slot};
ghost use Rattle.fs_model_worked_examples.specs.EarlyReads.{first_early, second_early, KeepsAt};

/// A law: two executions, of which one reads early in hart 0 and one in hart 1, cost 9 each to break. So they bound
/// what has nothing decided by 18. It is pruned against a placement that costs 17. It isn't against `w,r` twice, which
/// costs as much and comes after the floor, and not as long as there is no placement. Two executions that are broken at
/// the same slot are not apart. One that keeps all pairs can't be broken, and so gives no lower bound: it prunes even
/// then.
pub fn early_widths()
    ensures both { lower_bound offers root (reads_early first_slot ∷ reads_early second_slot ∷ []) ≡ Some 18 }
    ensures dearer { (p : List Entry) → cost_in offers p ≡ 17
        → is_pruned offers (Some p) root (reads_early first_slot ∷ reads_early second_slot ∷ []) ≡ true }
    ensures equal { is_pruned offers (Some (fences (Some WR) (Some WR))) root
        (reads_early first_slot ∷ reads_early second_slot ∷ []) ≡ false }
    ensures unbound { is_pruned offers None root (reads_early first_slot ∷ reads_early second_slot ∷ []) ≡ false }
    ensures shared { are_apart offers root (reads_early first_slot ∷ reads_early first_slot ∷ []) ≡ false }
    ensures unbroken { lower_bound offers root (keeps_all ∷ []) ≡ None }
    ensures pruned { is_pruned offers None root (keeps_all ∷ []) ≡ true }
{}

/// A law: store buffering has such executions, and they show the outcome without fences. They are apart and bound what
/// has nothing decided by 18, so each placement that costs less allows the outcome.
pub fn early_reads()
    ensures first_shows { (p q : Box (Unit {0}) Global) → Shows (sb p q) (floor root) first_early }
    ensures second_shows { (p q : Box (Unit {0}) Global) → Shows (sb p q) (floor root) second_early }
    ensures first_keeps { (p q : Box (Unit {0}) Global) → KeepsAt (sb p q) first_early (reads_early first_slot) }
    ensures second_keeps { (p q : Box (Unit {0}) Global) → KeepsAt (sb p q) second_early (reads_early second_slot) }
    ensures apart { (p q : Box (Unit {0}) Global)
        → are_apart offers root (map (width (sb p q)) (first_early ∷ second_early ∷ [])) ≡ true }
    ensures bound { (p q : Box (Unit {0}) Global)
        → lower_bound offers root (map (width (sb p q)) (first_early ∷ second_early ∷ [])) ≡ Some 18 }
    ensures cheap { (p q : Box (Unit {0}) Global) (r : List Entry)
        → IsPlacement (sb p q) prices r → cost prices r < 18 → Allows (sb p q) r }
{}
