//! Certificates, valid ones and refused ones, and the listings of candidates that they rest on.

ghost use Rattle.std.specs.Prelude.{[], ◌∷◌};
ghost use Rattle.std.proofs.Common.{Box};
ghost use Rattle.std.specs.declared.alloc.Global.{Global};
ghost use Rattle.fs_kinds.specs.declared.reason.Reason.TheVariants.{Answer, Cycles, Cycle, Tree, Node, Witness};
ghost use Rattle.fs_cert_evidence.specs.Certificate.{First, Second, Filter, Costly, Refuted, Bounded};
ghost use Rattle.fs_cert_evidence.specs.Listings.{IsListing};
ghost use Rattle.fs_cert_evidence.specs.Valid.{IsValidForNone};
ghost use Rattle.fs_board_offers.specs.Parts.{undecided};
ghost use Rattle.fs_board_offers.specs.Priced.{IsValidFor, IsRefusal};
ghost use Rattle.fs_board_offers.specs.Refusals.{Fails};
ghost use Rattle.fs_model_worked_examples.specs.Rows.{prices, offers};
ghost use Rattle.fs_model_worked_examples.specs.StoreBuffering.{sb};
ghost use Rattle.fs_model_worked_examples.specs.Bounded.{both_fences, bounded_by};
ghost use Rattle.fs_model_worked_examples.specs.CoherentReads.{corr, stale};
ghost use Rattle.fs_model_worked_examples.specs.CoherentCertificates.{unfenced, right_circle, wrong_rule, wrong_edge};
ghost use Rattle.fs_model_worked_examples.specs.CoherentCertificates.{no_operation, certificate, with_tree, leaf};
ghost use Rattle.fs_model_worked_examples.specs.CoherentCertificates.{six_leaves};
ghost use Rattle.fs_model_worked_examples.specs.MessagePassing.{mp, mp11, overtaken, passes};
ghost use Rattle.fs_model_worked_examples.specs.PassingCertificates.{fenced, seven_leaves, nothing_helps};
ghost use Rattle.fs_model_worked_examples.specs.PassingCertificates.{nothing_inferred};

/// A law: in coherent reads one candidate alone shows a store and then the initial word. The outcome says what the
/// loads return, and so which stores they return; and the initial store is first in coherence order. The same goes for
/// message passing.
pub fn one_candidate()
    ensures listing { (p q : Box (Unit {0}) Global) → IsListing (corr p q) (stale ∷ []) }
    ensures passing { (p q : Box (Unit {0}) Global) → IsListing (mp p q) (overtaken ∷ []) }
{}

/// A law: certificates that coherent reads need no fence, in both versions. The tree is one leaf, or is split at its
/// slot, with seven leaves for none and the six kinds.
pub fn valid_certificates()
    ensures first { (p q : Box (Unit {0}) Global)
        → IsValidFor (corr p q) prices (certificate First 0 (right_circle ∷ []) leaf) unfenced }
    ensures second { (p q : Box (Unit {0}) Global)
        → IsValidFor (corr p q) prices (certificate Second 0 (right_circle ∷ []) leaf) unfenced }
    ensures first_split { (p q : Box (Unit {0}) Global)
        → IsValidFor (corr p q) prices (certificate First 0 (right_circle ∷ []) (six_leaves 0 leaf)) unfenced }
    ensures second_split { (p q : Box (Unit {0}) Global)
        → IsValidFor (corr p q) prices (certificate Second 0 (right_circle ∷ []) (six_leaves 0 leaf)) unfenced }
{}

/// A law: trees that are refused. A leaf is missing, or is one too many; the slot isn't there; a second tree stands
/// after the first. A leaf that a witness should refute is refused for the witness, where there is none.
pub fn refused_trees()
    ensures fewer { (p q : Box (Unit {0}) Global) → IsRefusal (corr p q) prices (with_tree (six_leaves 0 [])) Tree }
    ensures more { (p q : Box (Unit {0}) Global)
        → IsRefusal (corr p q) prices (with_tree (six_leaves 0 (Costly ∷ leaf))) Tree }
    ensures no_slot { (p q : Box (Unit {0}) Global) → IsRefusal (corr p q) prices (with_tree (six_leaves 1 leaf)) Tree }
    ensures two_trees { (p q : Box (Unit {0}) Global) → IsRefusal (corr p q) prices (with_tree (Costly ∷ leaf)) Tree }
    ensures no_tree { (p q : Box (Unit {0}) Global) → IsRefusal (corr p q) prices (with_tree []) Tree }
    ensures no_witness { (p q : Box (Unit {0}) Global)
        → IsRefusal (corr p q) prices (with_tree (Refuted 0 ∷ [])) (Witness 0) }
{}

/// A law: answers and cycles that are refused. An answer without fences doesn't cost 1; there is no cycle for the
/// candidate; or a step of its cycle has a wrong reason or a wrong name.
pub fn refused_cycles()
    ensures cost { (p q : Box (Unit {0}) Global)
        → IsRefusal (corr p q) prices (certificate First 1 (right_circle ∷ []) leaf) Answer }
    ensures none { (p q : Box (Unit {0}) Global) → IsRefusal (corr p q) prices (certificate First 0 [] leaf) Cycles }
    ensures rule { (p q : Box (Unit {0}) Global)
        → IsRefusal (corr p q) prices (certificate First 0 (wrong_rule ∷ []) leaf) (Cycle 0) }
    ensures edge { (p q : Box (Unit {0}) Global)
        → IsRefusal (corr p q) prices (certificate First 0 (wrong_edge ∷ []) leaf) (Cycle 0) }
    ensures name { (p q : Box (Unit {0}) Global)
        → IsRefusal (corr p q) prices (certificate First 0 (no_operation ∷ []) leaf) (Cycle 0) }
{}

/// A law: message passing with `w,w` and `r,r`, which cost 5. The certificate's cycle is one, but a leaf at the root
/// costs 0, and so does the leaf without a fence between the stores, which is the item after the root. These fences
/// don't cost 6.
pub fn cheap_leaves()
    ensures root { (p q : Box (Unit {0}) Global) → IsRefusal (mp p q) prices (fenced 5 (Costly ∷ [])) (Node 0) }
    ensures first_leaf { (p q : Box (Unit {0}) Global) → IsRefusal (mp p q) prices (fenced 5 seven_leaves) (Node 1) }
    ensures cost { (p q : Box (Unit {0}) Global) → IsRefusal (mp p q) prices (fenced 6 (Costly ∷ [])) Answer }
{}

/// A law: a certificate that no fences help where both loads of message passing return 1. It has no tree, and its one
/// witness; in message passing itself that witness shows nothing. In the fourth version it is one too, and has no
/// inference.
pub fn certificates_of_none()
    ensures valid { (p q : Box (Unit {0}) Global) → IsValidForNone (mp11 p q) (nothing_helps [] (passes ∷ [])) }
    ensures no_witness { (p q : Box (Unit {0}) Global) → IsRefusal (mp11 p q) prices (nothing_helps [] []) Answer }
    ensures tree { (p q : Box (Unit {0}) Global)
        → IsRefusal (mp11 p q) prices (nothing_helps (Costly ∷ []) (passes ∷ [])) Answer }
    ensures other_test { (p q : Box (Unit {0}) Global)
        → IsRefusal (mp p q) prices (nothing_helps [] (passes ∷ [])) (Witness 0) }
    ensures fourth { (p q : Box (Unit {0}) Global) → IsValidForNone (mp11 p q) (nothing_inferred []) }
    ensures inference { (p q : Box (Unit {0}) Global)
        → IsRefusal (mp11 p q) prices (nothing_inferred (Filter 0 ∷ [])) Answer }
{}

/// A law: leaves of store buffering that witnesses are to bound. Where one of two witnesses isn't there, the leaf fails
/// for that witness and not for its bound. The other one alone leaves a bound of 9, since `w,r` before one load breaks
/// it; that is less than 18.
pub fn bounded_leaves()
    ensures missing { (p q : Box (Unit {0}) Global)
        → Fails (sb p q) offers (bounded_by (0 ∷ 1 ∷ [])) both_fences (undecided offers ∷ []) (Bounded (0 ∷ 1 ∷ []) ∷
        []) 0 (Witness 1) }
    ensures before_node { (p q : Box (Unit {0}) Global)
        → Fails (sb p q) offers (bounded_by (0 ∷ 1 ∷ [])) both_fences (undecided offers ∷ []) (Bounded (0 ∷ 1 ∷ []) ∷
        []) 0 (Node 0) → ⊥ }
    ensures cheap { (p q : Box (Unit {0}) Global)
        → Fails (sb p q) offers (bounded_by (0 ∷ [])) both_fences (undecided offers ∷ []) (Bounded (0 ∷ []) ∷
        []) 0 (Node 0) }
{}
