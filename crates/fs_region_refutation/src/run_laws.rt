//! Laws of runs by themselves.

ghost use Rattle.std.specs.Prelude.{◌≡◌, ◌<◌, ℕ, List, All, length, true};
ghost use Rattle.fs_kinds.specs.declared.placement.Entry.{Entry};
ghost use Rattle.fs_kinds.specs.declared.reason.OperationName.{OperationName as Name};
ghost use Rattle.fs_model.specs.declared.test.Test.{Test};
ghost use Rattle.fs_model.specs.Operations.{PreExecution};
ghost use Rattle.fs_model.specs.Preserved.{Rule};
ghost use Rattle.fs_hart.specs.declared.trace.Trace.{Trace};
ghost use Rattle.fs_hart.specs.Listing.{AreTraces};
ghost use Rattle.fs_verdict_laws.specs.Local.{is_local};
ghost use Rattle.fs_cert_evidence.specs.Regions.{Region};
ghost use Rattle.fs_cert_evidence.specs.Musts.{is_rule};
ghost use Rattle.fs_region_refutation.specs.Alone.{IsRun};

/// A law: what a region knows of sources counts for rules 2, 3 and 12 alone. Of the others a run has the same pairs in
/// all regions.
pub fn sources_serve_three()
    ensures { (t : Test) (region other : Region) (p : List Entry) (r : Rule) → is_local r ≡ true
        → (a b : Name) (x : PreExecution) → is_rule t region p r a b x ≡ is_rule t other p r a b x }
{}

/// A law: what lists the runs of a hart gives runs of it, with the registers at their ends.
pub fn listed_are_runs()
    ensures { (t : Test) (hart : ℕ) (sets : List (List ℕ)) (traces : List Trace) → hart < length t.codes
        → AreTraces t hart sets traces → All (IsRun t hart) traces }
{}
