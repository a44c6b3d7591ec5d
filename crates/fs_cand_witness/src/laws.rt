//! What the rows are for: how they join to the judged relation with placed fences. The functions do nothing: each
//! stands for the law that it promises.

ghost use Rattle.std.specs.Prelude.{◌≡◌, ◌||◌, ◌<◌, ℕ, List, [], true, length};
ghost use Rattle.fs_kinds.specs.declared.placement.Entry.{Entry};
ghost use Rattle.fs_model.specs.declared.test.Test.{Test};
ghost use Rattle.fs_model.specs.Operations.{operations};
ghost use Rattle.fs_cert_evidence.specs.Candidates.{Candidate, IsRaw, runs_of};
ghost use Rattle.fs_cert_evidence.specs.Judged.{is_judged};
ghost use Rattle.fs_cand_witness.specs.Fencing.{is_fenced};

/// A law: the edges of the judged relation are those without placed fences and those of the placed fences. So rows of
/// both joined are its rows.
pub fn fences_join()
    ensures { (t : Test) (p : List Entry) (c : Candidate) (a b : ℕ)
        → is_judged (runs_of t c) p c a b ≡ (is_judged (runs_of t c) [] c a b || is_fenced (runs_of t c) p a b) }
{}

/// A law: the edges of a raw candidate are between its operations.
pub fn edges_join_operations()
    ensures { (t : Test) (p : List Entry) (c : Candidate) (a b : ℕ) → IsRaw t c → is_judged (runs_of t c) p c a b ≡ true
        → (a < length (operations (runs_of t c))) × (b < length (operations (runs_of t c))) }
{}
