//! What is said of executions: worked reasons, a history of the board and a cycle.

ghost use Rattle.std.specs.Prelude.{◌≡◌, false, None, Some, []};
ghost use Rattle.std.proofs.Common.{Box};
ghost use Rattle.std.specs.declared.alloc.Global.{Global};
ghost use Rattle.fs_kinds.specs.declared.kind.Kind.TheVariants.{WR};
ghost use Rattle.fs_kinds.specs.declared.reason.Reason.TheVariants.{Choices};
ghost use Rattle.fs_kinds.specs.PriceTable.{cost};
ghost use Rattle.fs_model.specs.Preserved.{Rule1};
ghost use Rattle.fs_cert_evidence.specs.Candidates.{IsShowing, runs_of};
ghost use Rattle.fs_cert_evidence.specs.Judged.{Preserved, is_edge};
ghost use Rattle.fs_cert_evidence.specs.Cycles.{IsCycle};
ghost use Rattle.fs_model_worked_examples.specs.CoherentReads.{corr, stale, circle};
ghost use Rattle.fs_model.specs.Allows.{Allows};
ghost use Rattle.fs_model.specs.Reasons.{IsYes, IsReason};
ghost use Rattle.fs_board_offers.specs.Board.{Board};
ghost use Rattle.fs_board_offers.specs.Histories.{IsHistory};
ghost use Rattle.fs_model_worked_examples.specs.StoreBuffering.{sb, fences};
ghost use Rattle.fs_model_worked_examples.specs.Rows.{loads_first, against_rule_4, one_choice, prices};
ghost use Rattle.fs_model_worked_examples.specs.Rows.{offers, two_workers};

/// A law: the witness with both loads first shows store buffering without fences. With `w,r` before the load of hart 0
/// rule 4 speaks against it, and without a choice for hart 1 its choices do.
pub fn reasons()
    ensures unfenced { (p q : Box (Unit {0}) Global) → IsYes (sb p q) (fences None None) loads_first }
    ensures fenced { (p q : Box (Unit {0}) Global)
        → IsReason (sb p q) (fences (Some WR) None) loads_first against_rule_4 }
    ensures short { (p q : Box (Unit {0}) Global) → IsReason (sb p q) (fences None None) one_choice (Choices 1) }
{}

/// A law: where `w,r` before both loads forbids store buffering, this history of two workers is a legal one, and they
/// find it: it costs 18. After that a node with `rw,rw` before one load is still cheaper, and one with `rw,rw` beside
/// `w,r` is closed.
pub fn board()
    ensures history { (p q : Box (Unit {0}) Global) → (Allows (sb p q) (fences (Some WR) (Some WR)) → ⊥)
        → (board : Board) × IsHistory (sb p q) offers 14 two_workers board × (board.bound
        ≡ Some (fences (Some WR) (Some WR))) }
    ensures cost { cost prices (fences (Some WR) (Some WR)) ≡ 18 }
{}

/// A law: in coherent reads there is a candidate that shows a store and then the initial word. The store, the two loads
/// and back is a cycle against it; the loads are not in order by rule 1.
pub fn cycles()
    ensures showing { (p q : Box (Unit {0}) Global) → IsShowing (corr p q) stale }
    ensures cycle { (p q : Box (Unit {0}) Global) → IsCycle (corr p q) [] stale circle }
    ensures reason { (p q : Box (Unit {0}) Global) → is_edge (runs_of (corr p q) stale) [] stale 1 2 (Preserved Rule1)
        ≡ false }
{}
