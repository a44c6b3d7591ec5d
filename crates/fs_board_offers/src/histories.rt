//! What holds of a board after each legal history.

ghost use Rattle.std.specs.Prelude.{◌≡◌, ℕ, ◌+◌, ◌<◌, ◌≤◌, true, Some, None, List, length};
ghost use Rattle.std.specs.List.{sum_by};
ghost use Rattle.fs_kinds.specs.declared.placement.Entry.{Entry};
ghost use Rattle.fs_kinds.specs.declared.slot.Slot.{Slot};
ghost use Rattle.fs_kinds.specs.Slot.{is_rising};
ghost use Rattle.fs_model.specs.declared.test.Test.{Test};
ghost use Rattle.fs_model.specs.Allows.{Allows};
ghost use Rattle.fs_board_offers.specs.Offers.{Offers, slots, IsPlacement, IsCheapest};
ghost use Rattle.fs_board_offers.specs.Questions.{HasTop};
ghost use Rattle.fs_board_offers.specs.Parts.{Part};
ghost use Rattle.fs_board_offers.specs.Board.{Board, Node, Split, SplitAt, Post, Closed, Full, is_finished};
ghost use Rattle.fs_board_offers.specs.Histories.{LogEntry, IsHistory, Steps};
ghost use Rattle.fs_board_offers.specs.Sizes.{whole_tree};
ghost use Rattle.fs_board_offers.specs.Trees.{IsNode, IsPart, IsSplitAt, HasOneLeaf, room};
ghost use Rattle.fs_board_offers.specs.Closing.{IsClosedFor, IsForbidden, IsFinalAnswer};

/// A law: after each legal history each node's part is one of the offers, and every placement of the offers lies under
/// exactly one node that isn't split. For a node that is split hands on what lies under it to its children, each
/// placement to one.
pub fn one_leaf()
    ensures parts { (t : Test) (offers : Offers) (limit : ℕ) (log : List LogEntry) (board : Board)
        → IsHistory t offers limit log board → (k : ℕ) (node : Node) → IsNode board k node → IsPart offers node.part }
    ensures leaf { (t : Test) (offers : Offers) (limit : ℕ) (log : List LogEntry) (board : Board)
        → is_rising (slots offers) ≡ true → IsHistory t offers limit log board → (p : List Entry) → IsPlacement offers p
        → HasOneLeaf board p }
{}

/// A law: a placement that allows the outcome is never posted on the board.
pub fn posted_placements_forbid()
    ensures { (t : Test) (offers : Offers) (old new : Board) (worker node : ℕ) (p : List Entry)
        → Steps t offers old worker (Post node p) Closed new → Allows t p → ⊥ }
{}

/// A law: after each legal history each closed node has its reason, against the bound as it is now and by witnesses of
/// the board; and the bound forbids the outcome. So a finished board's leaves are those of a certificate.
pub fn closed_nodes_hold()
    ensures closed { (t : Test) (offers : Offers) (limit : ℕ) (log : List LogEntry) (board : Board)
        → IsHistory t offers limit log board → (k : ℕ) (node : Node) → IsNode board k node
        → IsClosedFor t offers board.bound board.witnesses node.part node.status }
    ensures bound { (t : Test) (offers : Offers) (limit : ℕ) (log : List LogEntry) (board : Board)
        → IsHistory t offers limit log board → (p : List Entry) → board.bound ≡ Some p → IsForbidden t offers p }
{}

/// A law: a finished board has the answer. Its bound is the cheapest placement that forbids the outcome. With no bound
/// each placement of the offers allows it; and where `rw,rw` is offered at each slot, even `rw,rw` in every slot does,
/// as one of the board's witnesses shows: the one of the leaf over that placement, or, where the leaf is bounded by a
/// list, one that no offered kind breaks at a slot which the leaf leaves undecided.
pub fn finished_board_answers()
    ensures cheapest { (t : Test) (offers : Offers) (limit : ℕ) (log : List LogEntry) (board : Board)
        → is_rising (slots offers) ≡ true → IsHistory t offers limit log board → is_finished board ≡ true
        → (p : List Entry) → board.bound ≡ Some p → IsCheapest t offers p }
    ensures none { (t : Test) (offers : Offers) (limit : ℕ) (log : List LogEntry) (board : Board)
        → is_rising (slots offers) ≡ true → IsHistory t offers limit log board → is_finished board ≡ true
        → board.bound ≡ None → (q : List Entry) → IsPlacement offers q → Allows t q }
    ensures answer { (t : Test) (offers : Offers) (limit : ℕ) (log : List LogEntry) (board : Board)
        → is_rising (slots offers) ≡ true → HasTop offers → IsHistory t offers limit log board
        → is_finished board ≡ true → IsFinalAnswer t offers board.witnesses board.bound }
{}

/// A law: the nodes of a board but the root, and those that there may be below its leaves, are no more than the tree of
/// all placements may have below its root. A board never has more nodes than its limit and the root. So a split is
/// refused for want of nodes only where the tree of all placements may be larger than the limit.
pub fn nodes_fit()
    ensures size { (t : Test) (offers : Offers) (limit : ℕ) (log : List LogEntry) (board : Board)
        → is_rising (slots offers) ≡ true → IsHistory t offers limit log board
        → length board.nodes + sum_by (room offers) board.nodes ≤ 1 + whole_tree offers }
    ensures limit { (t : Test) (offers : Offers) (limit : ℕ) (log : List LogEntry) (board : Board)
        → IsHistory t offers limit log board → (board.limit ≡ limit) × (length board.nodes ≤ limit + 1) }
    ensures full { (t : Test) (offers : Offers) (limit : ℕ) (log : List LogEntry) (board : Board)
        → is_rising (slots offers) ≡ true → IsHistory t offers limit log board
        → (worker k : ℕ) (slot : Slot) (new : Board)
        → Steps t offers board worker (SplitAt k slot) Full new → limit < whole_tree offers }
{}

/// A law: a node that is split has its children behind one another, from the number on that its status says, one for
/// each way to decide the slot. They come after the node, so a walk over the tree ends.
pub fn children_stand()
    ensures { (t : Test) (offers : Offers) (limit : ℕ) (log : List LogEntry) (board : Board)
        → IsHistory t offers limit log board → (k : ℕ) (part : Part) (slot : Slot) (first : ℕ)
        → IsNode board k (record
        { part = part; status = Split slot first }) → IsSplitAt offers board.nodes k part slot first }
{}
