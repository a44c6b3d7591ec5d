//! What a refutation shows.

ghost use Rattle.std.specs.Prelude.{◌≡◌, ◌≤◌, List, [], All, true, length};
ghost use Rattle.fs_kinds.specs.declared.placement.Entry.{Entry};
ghost use Rattle.fs_kinds.specs.Placement.{slots_of, is_weaker};
ghost use Rattle.fs_kinds.specs.declared.reason.OperationName.{OperationName as Name};
ghost use Rattle.fs_model.specs.declared.test.Test.{Test};
ghost use Rattle.fs_model.specs.Test.{GoesForward, IsBounded};
ghost use Rattle.fs_model.specs.Allows.{Allows, no_fences};
ghost use Rattle.fs_model.specs.Fenced.{fenced};
ghost use Rattle.fs_cert_evidence.specs.Candidates.{Candidate, IsRaw, IsShowing, runs_of};
ghost use Rattle.fs_cert_evidence.specs.Certificate.{Link};
ghost use Rattle.fs_cert_evidence.specs.Judged.{Cause};
ghost use Rattle.fs_cert_evidence.specs.Cycles.{HasCycles, most_links};
ghost use Rattle.fs_cert_evidence.specs.Listings.{IsListing};
ghost use Rattle.fs_model.specs.Operations.{operations};
ghost use Rattle.fs_model_laws.specs.Strength.{KeepsNoMore};
ghost use Rattle.fs_values.specs.ThinAir.{CanBeListed};
ghost use Rattle.fs_verdict_laws.specs.Local.{HasLink};
ghost use Rattle.fs_cert_evidence.specs.Regions.{Region, In};
ghost use Rattle.fs_cert_evidence.specs.Musts.{must};
ghost use Rattle.fs_cert_evidence.specs.Certificate.{Inference};
ghost use Rattle.fs_cert_evidence.specs.Trees.{IsRefuted, RefutesNoLess, Covers, cycles_in};

/// A law: what must hold in a region is so in each raw candidate that is in it: the operations of both names are
/// there, and the first must come before the second, for the cause that is given.
pub fn musts_hold()
    ensures { (t : Test) (c : Candidate) → All GoesForward t.codes → IsRaw t c → (region : Region) → In t c region
        → (p : List Entry) (cause : Cause) (a b : Name) → must t region p cause a b ≡ true → HasLink t p c a b cause }
{}

/// A law: where a tree of inferences refutes a test under a placement, each showing candidate has one of the tree's
/// cycles. So no execution shows the outcome, where the test's runs can be listed, and none of the fenced test, whose
/// fences are instructions, does. A cycle for each showing candidate does the same. Where the outcome is forbidden, and
/// no showing candidate has more than 64 operations, there are such cycles.
pub fn covers_forbid()
    ensures covers { (t : Test) (p : List Entry) (inferences : List Inference) → IsBounded t → IsRefuted t p inferences
        → Covers t p (cycles_in inferences) }
    ensures listed { (t : Test) (p : List Entry) (cycles : List (List Link)) → HasCycles t p cycles
        → Covers t p cycles }
    ensures forbids { (t : Test) → CanBeListed t → (p : List Entry) (cycles : List (List Link)) → Covers t p cycles
        → Allows t p → ⊥ }
    ensures refuted { (t : Test) → CanBeListed t → (p : List Entry) (inferences : List Inference)
        → IsRefuted t p inferences → Allows t p → ⊥ }
    ensures fenced { (t : Test) → CanBeListed t → (p : List Entry) (inferences : List Inference)
        → IsRefuted t p inferences → Allows (fenced t p) (no_fences (fenced t p)) → ⊥ }
    ensures exist { (t : Test) (p : List Entry) (cs : List Candidate) → IsListing t cs
        → ((c : Candidate) → IsShowing t c → length (operations (runs_of t c)) ≤ most_links) → (Allows t p → ⊥)
        → (cycles : List (List Link)) × Covers t p cycles }
{}

/// A law: what refutes under weaker fences refutes under stronger ones, by the same tree. So it is for two placements
/// with the same slots, and for any two lists of fences, where a slot that isn't listed has no fence. A tree that
/// needs no fence serves every placement.
pub fn stronger_fences_refute_more()
    ensures placements { (t : Test) (p q : List Entry) → slots_of p ≡ slots_of q → is_weaker p q ≡ true
        → RefutesNoLess t p q }
    ensures lists { (t : Test) (p q : List Entry) → KeepsNoMore p q → RefutesNoLess t p q }
    ensures unfenced { (t : Test) (q : List Entry) → RefutesNoLess t [] q }
{}
