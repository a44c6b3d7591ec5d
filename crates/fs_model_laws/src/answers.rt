//! What is shown by a certificate for none and by a cycle; and which placement is better.

ghost use Rattle.std.specs.Prelude.{◌≡◌, ℕ, ◌≤◌, List, length};
ghost use Rattle.fs_kinds.specs.declared.placement.Entry.{Entry};
ghost use Rattle.fs_kinds.specs.PriceTable.{PriceTable};
ghost use Rattle.fs_model.specs.declared.test.Test.{Test};
ghost use Rattle.fs_model.specs.Execution.{Execution};
ghost use Rattle.fs_model.specs.Allows.{RefutesAll};
ghost use Rattle.fs_cert_evidence.specs.Candidates.{Candidate};
ghost use Rattle.fs_cert_evidence.specs.Certificate.{Certificate, Link, Version};
ghost use Rattle.fs_cert_evidence.specs.Cycles.{IsCycle};
ghost use Rattle.fs_cert_evidence.specs.Valid.{IsValidForNone};
ghost use Rattle.fs_model.specs.Witness.{Witness, IsOfWitness};
ghost use Rattle.fs_model_laws.specs.Answers.{none_by, IsByCostAndOrder};
ghost use Rattle.fs_model_laws.specs.Strength.{HasNoAnswer};

/// A law: a valid certificate for none is right, whatever the prices: no placement is the answer. And there is one for
/// each execution that shows the outcome with `rw,rw` in every slot, by any witness that gives it.
pub fn one_witness_refutes_all()
    ensures right { (t : Test) (c : Certificate) → IsValidForNone t c → (prices : PriceTable) → HasNoAnswer t prices }
    ensures there { (t : Test) (version : Version) (w : Witness) (e : Execution) → IsOfWitness t w e → RefutesAll t e
        → IsValidForNone t (none_by version w) }
{}

/// A law: a cycle in a certificate has 1 to 64 operations.
pub fn cycles_are_short()
    ensures { (t : Test) (p : List Entry) (c : Candidate) (links : List Link) → IsCycle t p c links
        → (1 ≤ length links) × (length links ≤ 64) }
{}

/// A law: the better of two placements is the one that costs less, and where they cost the same the earlier one.
pub fn cost_and_order_decide()
    ensures { (prices : PriceTable) (p q : List Entry) → IsByCostAndOrder prices p q }
{}
