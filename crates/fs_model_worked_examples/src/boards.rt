//! Histories of the search board: a limit that stops a split, placements of equal cost, and witnesses.

ghost use Rattle.std.specs.Prelude.{◌≡◌, false, true, None, Some, length};
ghost use Rattle.std.proofs.Common.{Box};
ghost use Rattle.std.specs.declared.alloc.Global.{Global};
ghost use Rattle.fs_kinds.specs.declared.kind.Kind.TheVariants.{WW, WRw, RwRw};
ghost use Rattle.fs_kinds.specs.PriceTable.{cost};
ghost use Rattle.fs_model.specs.Slots.{slots, slot_at};
ghost use Rattle.fs_model.specs.Allows.{Allows};
ghost use Rattle.fs_board_offers.specs.Offers.{options, offer_at};
ghost use Rattle.fs_board_offers.specs.Board.{Board, is_full};
ghost use Rattle.fs_board_offers.specs.Histories.{IsHistory};
ghost use Rattle.fs_board_offers.specs.Sizes.{whole_tree};
ghost use Rattle.fs_model_worked_examples.specs.StoreBuffering.{sb};
ghost use Rattle.fs_model_worked_examples.specs.Rows.{offers};
ghost use Rattle.fs_model_worked_examples.specs.Limits.{until_full, split_once};
ghost use Rattle.fs_model_worked_examples.specs.MessagePassing.{mp11, passing_offers};
ghost use Rattle.fs_model_worked_examples.specs.Witnessed.{closed_root, held_root};
ghost use Rattle.fs_model_worked_examples.specs.Ties.{two_writes, equal_prices, equal_offers};
ghost use Rattle.fs_model_worked_examples.specs.Ties.{between_stores, earlier_last, earlier_first};

/// A law: in store buffering a board with limit 13 has no room for a second split, since the last child would be node
/// 14. To split a node one must hold it: not so a node that is open, that another worker holds, or that isn't there. A
/// decided slot isn't split again.
pub fn full_board()
    ensures history { (p q : Box (Unit {0}) Global) → (board : Board) × IsHistory (sb p q) offers 13 until_full board }
{}

/// A law: two stores in each of two harts, with prices at which `w,w` costs as much as `w,rw`. Say that `w,rw` twice
/// forbids the outcome, and `w,rw` with `w,w` too. Posted after the other, the second one lowers the bound, since it is
/// earlier in order; and once it is the bound, the first one is pruned.
pub fn equal_costs()
    ensures earlier_last { (p q : Box (Unit {0}) Global)
        → (Allows (two_writes p q) (between_stores (Some WRw) (Some WRw)) → ⊥)
        → (Allows (two_writes p q) (between_stores (Some WRw) (Some WW)) → ⊥)
        → (board : Board) × IsHistory (two_writes p q) equal_offers 8 earlier_last board × (board.bound
        ≡ Some (between_stores (Some WRw) (Some WW))) }
    ensures earlier_first { (p q : Box (Unit {0}) Global)
        → (Allows (two_writes p q) (between_stores (Some WRw) (Some WW)) → ⊥)
        → (board : Board) × IsHistory (two_writes p q) equal_offers 8 earlier_first board × (board.bound
        ≡ Some (between_stores (Some WRw) (Some WW))) }
    ensures cost_later { cost equal_prices (between_stores (Some WRw) (Some WRw)) ≡ 4 }
    ensures cost_earlier { cost equal_prices (between_stores (Some WRw) (Some WW)) ≡ 4 }
    ensures cost_greater { cost equal_prices (between_stores (Some WRw) (Some RwRw)) ≡ 5 }
    ensures cost_less { cost equal_prices (between_stores (Some WRw) None) ≡ 2 }
{}

/// A law: the tree of all placements of store buffering. At each of the two slots there are 7 ways to decide, six kinds
/// and none, so the tree has 7 and 49 nodes below its root. After one split there is room for 7 more nodes with limit
/// 14, and not with 13.
pub fn sizes()
    ensures slots { (p q : Box (Unit {0}) Global) → length (slots (sb p q)) ≡ 2 }
    ensures options { length (options (offer_at offers (slot_at 1 2))) ≡ 7 }
    ensures tree { whole_tree offers ≡ 56 }
    ensures room { is_full offers (slot_at 1 2) (split_once 14) ≡ false }
    ensures full { is_full offers (slot_at 1 2) (split_once 13) ≡ true }
{}

/// A law: a board with limit 1 that a witness ends, and one that it doesn't. Where both loads of message passing return
/// 1, the witness closes the root for the worker that holds it, since it shows the outcome with `rw,rw` in both slots.
/// In store buffering the loads can't come before the stores with `rw,rw`, so the witness covers too little.
pub fn witnessed_boards()
    ensures closed { (p q : Box (Unit {0}) Global)
        → (board : Board) × IsHistory (mp11 p q) passing_offers 1 closed_root board }
    ensures held { (p q : Box (Unit {0}) Global) → (board : Board) × IsHistory (sb p q) offers 1 held_root board }
{}
