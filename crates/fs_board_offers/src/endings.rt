//! What holds of the nodes that are done with, and of the bound, whatever is done on the board later.

ghost use Rattle.std.specs.Prelude.{◌≡◌, ◌⊎◌, ℕ, ◌≤◌, true, Some, List};
ghost use Rattle.std.specs.List.{count_by};
ghost use Rattle.fs_kinds.specs.declared.placement.Entry.{Entry};
ghost use Rattle.fs_board_offers.specs.Offers.{Offers, is_better};
ghost use Rattle.fs_model.specs.declared.test.Test.{Test};
ghost use Rattle.fs_board_offers.specs.Board.{Board, Node, Event, Reply};
ghost use Rattle.fs_board_offers.specs.Histories.{LogEntry, Steps, Lead, HoldsNode};
ghost use Rattle.fs_board_offers.specs.Trees.{is_ended, ends_node, IsNode};

/// A law: a node that is closed or split stays as it is, whatever comes after. Where a step closed or split it, the
/// worker of that step held it; and of the entries that lead from one board to another, one at most closes or splits a
/// given node. The bound never becomes worse: it stays, or a better placement takes its place.
pub fn ended_nodes_stay()
    ensures stays { (t : Test) (offers : Offers) (old new : Board) (log : List LogEntry) → Lead t offers old log new
        → (k : ℕ) (node : Node) → IsNode old k node → is_ended node.status ≡ true → IsNode new k node }
    ensures holder { (t : Test) (offers : Offers) (old new : Board) (worker k : ℕ) (event : Event) (reply : Reply)
        (node : Node)
        → Steps t offers old worker event reply new → IsNode new k node → is_ended node.status ≡ true
        → IsNode old k node ⊎ (HoldsNode old worker k node.part × (ends_node k event reply ≡ true)) }
    ensures once { (t : Test) (offers : Offers) (old new : Board) (log : List LogEntry) → Lead t offers old log new
        → (k : ℕ) → count_by (λ entry. ends_node k entry.event entry.reply) log ≤ 1 }
    ensures bound { (t : Test) (offers : Offers) (old new : Board) (log : List LogEntry) (p : List Entry)
        → Lead t offers old log new → old.bound ≡ Some p
        → (q : List Entry) × (new.bound ≡ Some q) × ((q ≡ p) ⊎ (is_better offers q p ≡ true)) }
{}
