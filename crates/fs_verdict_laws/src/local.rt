//! The laws of locality.

ghost use Rattle.std.specs.Prelude.{◌≡◌, ◌↔◌, ◌≤◌, ℕ, Bool, true, false, ◌&&◌, not, Option, Some, None, List, ◌++◌};
ghost use Rattle.std.specs.Prelude.{All, length, take, drop};
ghost use Rattle.std.specs.List.{Contains, AllZip};
ghost use Rattle.fs_kinds.specs.declared.placement.Entry.{Entry};
ghost use Rattle.fs_kinds.specs.declared.reason.OperationName.{OperationName as Name};
ghost use Rattle.fs_model.specs.declared.test.Test.{Test};
ghost use Rattle.fs_model.specs.Test.{GoesForward};
ghost use Rattle.fs_model.specs.declared.step.Step.{Step};
ghost use Rattle.fs_model.specs.Numbers.{is_same};
ghost use Rattle.fs_model.specs.Operations.{PreExecution, accesses, operation, place, steps_of, same_hart};
ghost use Rattle.fs_model.specs.Preserved.{Rule, Rule2, Rule3, Rule12, rule};
ghost use Rattle.fs_model.specs.Witness.{name_of};
ghost use Rattle.fs_cert_evidence.specs.Candidates.{Candidate, IsRaw, runs_of, rf};
ghost use Rattle.fs_cert_evidence.specs.Judged.{Preserved, is_edge};
ghost use Rattle.fs_cert_evidence.specs.Certificate.{Link};
ghost use Rattle.fs_cert_evidence.specs.Cycles.{IsCycle, most_links};
ghost use Rattle.fs_verdict_laws.specs.Local.{access_at, is_local, local_rule, through, place_of, named_rule, always};
ghost use Rattle.fs_verdict_laws.specs.Local.{never, named_through, always_through, source_name, HasLink};

/// A law: an operation of a hart is what its run has at its place. What a rule asks of two operations of one hart,
/// the run of that hart alone decides by their places, for all rules but three: of rules 2 and 3 a fact on sources is
/// left beside it, and rule 12 asks the run of the store that the load returns from, where that is the hart's own.
pub fn rules_are_local()
    ensures operation { (x : PreExecution) (a h : ℕ) → (operation x a).hart ≡ Some h
        → operation x a ≡ access_at h (steps_of x.traces h) (place x a) }
    ensures alone { (x : PreExecution) (p : List Entry) (rf : ℕ → Option ℕ) (h a b : ℕ) → (operation x a).hart ≡ Some h
        → (operation x b).hart ≡ Some h → (r : Rule) → is_local r ≡ true
        → rule x p rf a b r ≡ local_rule h (steps_of x.traces h) p (place x a) (place x b) r }
    ensures two { (x : PreExecution) (h a b : ℕ) → (operation x a).hart ≡ Some h → (operation x b).hart ≡ Some h
        → (p : List Entry) (rf : ℕ → Option ℕ)
        → rule x p rf a b Rule2
        ≡ (local_rule h (steps_of x.traces h) p (place x a) (place x b) Rule2 && not (is_same (rf a) (rf b))) }
    ensures three { (x : PreExecution) (h a b : ℕ) → (operation x a).hart ≡ Some h → (operation x b).hart ≡ Some h
        → (p : List Entry) (rf : ℕ → Option ℕ)
        → rule x p rf a b Rule3
        ≡ (local_rule h (steps_of x.traces h) p (place x a) (place x b) Rule3 && is_same (rf b) (Some a)) }
    ensures twelve { (x : PreExecution) (h a b : ℕ) → (operation x a).hart ≡ Some h → (operation x b).hart ≡ Some h
        → (p : List Entry) (rf : ℕ → Option ℕ) (m : ℕ) → rf b ≡ Some m → (operation x m).hart ≡ Some h
        → rule x p rf a b Rule12
        ≡ through (steps_of x.traces h) (place x a) (place x m) (place x b) }
    ensures twelve_far { (x : PreExecution) (h a b : ℕ) → (operation x a).hart ≡ Some h → (operation x b).hart ≡ Some h
        → (p : List Entry) (rf : ℕ → Option ℕ) (m : ℕ) → rf b ≡ Some m → same_hart x m b ≡ false
        → rule x p rf a b Rule12 ≡ false }
    ensures twelve_none { (x : PreExecution) (h a b : ℕ) → (operation x a).hart ≡ Some h → (operation x b).hart ≡ Some h
        → (p : List Entry) (rf : ℕ → Option ℕ) → rf b ≡ None → rule x p rf a b Rule12 ≡ false }
    ensures alike { (x y : PreExecution) (p : List Entry) (rf src : ℕ → Option ℕ) (h a b i j : ℕ)
        → steps_of x.traces h ≡ steps_of y.traces h → (operation x a).hart ≡ Some h → (operation x b).hart ≡ Some h
        → (operation y i).hart ≡ Some h → (operation y j).hart ≡ Some h → place x a ≡ place y i → place x b ≡ place y j
        → (r : Rule) → is_local r ≡ true → rule x p rf a b r ≡ rule y p src i j r }
    ensures part { (x : PreExecution) (h a b : ℕ) → (operation x a).hart ≡ Some h → (operation x b).hart ≡ Some h
        → (p : List Entry) (rf : ℕ → Option ℕ) (r : Rule) → rule x p rf a b r ≡ true
        → local_rule h (steps_of x.traces h) p (place x a) (place x b) r ≡ true }
{}

/// A law: no rule orders operations of two harts, nor an initial store or what is no operation.
pub fn rules_keep_to_harts()
    ensures apart { (x : PreExecution) (p : List Entry) (rf : ℕ → Option ℕ) (a b : ℕ) (r : Rule)
        → same_hart x a b ≡ false
        → rule x p rf a b r ≡ false }
    ensures first { (x : PreExecution) (p : List Entry) (rf : ℕ → Option ℕ) (a b : ℕ) (r : Rule)
        → length (accesses x) ≤ a
        → rule x p rf a b r ≡ false }
    ensures second { (x : PreExecution) (p : List Entry) (rf : ℕ → Option ℕ) (a b : ℕ) (r : Rule)
        → length (accesses x) ≤ b
        → rule x p rf a b r ≡ false }
{}

/// A law: in a test whose branches go forward, a candidate has an edge between operations of these names of one hart,
/// by a rule that looks at the run alone, exactly where the rule holds of that hart's run by names. Of rules 2 and 3
/// a fact on sources is left. So the candidate has a link of a cycle exactly where the run says so.
pub fn names_decide()
    ensures places { (t : Test) (p : List Entry) (c : Candidate) → All GoesForward t.codes → IsRaw t c
        → (a : ℕ) (n : Name)
        → name_of (runs_of t c) a ≡ Some n → place_of (steps_of c.traces n.hart) n.at ≡ Some (place (runs_of t c) a) }
    ensures edges { (t : Test) (p : List Entry) (c : Candidate) → All GoesForward t.codes → IsRaw t c
        → (a b : ℕ) (n m : Name) (r : Rule)
        → name_of (runs_of t c) a ≡ Some n → name_of (runs_of t c) b ≡ Some m → m.hart ≡ n.hart → is_local r ≡ true
        → is_edge (runs_of t c) p c a b (Preserved r) ≡ named_rule n.hart (steps_of c.traces n.hart) p n.at m.at r }
    ensures two { (t : Test) (p : List Entry) (c : Candidate) → All GoesForward t.codes → IsRaw t c
        → (a b : ℕ) (n m : Name)
        → name_of (runs_of t c) a ≡ Some n → name_of (runs_of t c) b ≡ Some m → m.hart ≡ n.hart
        → is_edge (runs_of t c) p c a b (Preserved Rule2)
        ≡ (named_rule n.hart (steps_of c.traces n.hart) p n.at m.at Rule2 && not (is_same (rf c a) (rf c b))) }
    ensures three { (t : Test) (p : List Entry) (c : Candidate) → All GoesForward t.codes → IsRaw t c
        → (a b : ℕ) (n m : Name)
        → name_of (runs_of t c) a ≡ Some n → name_of (runs_of t c) b ≡ Some m → m.hart ≡ n.hart
        → is_edge (runs_of t c) p c a b (Preserved Rule3)
        ≡ (named_rule n.hart (steps_of c.traces n.hart) p n.at m.at Rule3 && is_same (rf c b) (Some a)) }
    ensures twelve { (t : Test) (p : List Entry) (c : Candidate) → All GoesForward t.codes → IsRaw t c
        → (a b s : ℕ) (n m k : Name)
        → name_of (runs_of t c) a ≡ Some n → name_of (runs_of t c) b ≡ Some m → m.hart ≡ n.hart
        → rf c b ≡ Some s → name_of (runs_of t c) s ≡ Some k → k.hart ≡ n.hart
        → is_edge (runs_of t c) p c a b (Preserved Rule12) ≡ named_through (steps_of c.traces n.hart) n.at k.at m.at }
    ensures links { (t : Test) (p : List Entry) (c : Candidate) → All GoesForward t.codes → IsRaw t c → (n m : Name)
        → m.hart ≡ n.hart
        → (r : Rule) → is_local r ≡ true
        → HasLink t p c n m (Preserved r) ↔ (named_rule n.hart (steps_of c.traces n.hart) p n.at m.at r ≡ true) }
{}

/// A law: where the rule holds by names of each run in a list, each candidate whose run of that hart is in the list
/// has the link, and the edge between its operations of these names.
pub fn runs_serve()
    ensures links { (t : Test) (p : List Entry) (c : Candidate) → All GoesForward t.codes → IsRaw t c → (n m : Name)
        → m.hart ≡ n.hart
        → (r : Rule) → is_local r ≡ true → (runs : List (List Step)) → always n.hart runs p n.at m.at r ≡ true
        → Contains runs (steps_of c.traces n.hart) → HasLink t p c n m (Preserved r) }
    ensures edges { (t : Test) (p : List Entry) (c : Candidate) → All GoesForward t.codes → IsRaw t c → (n m : Name)
        → m.hart ≡ n.hart
        → (r : Rule) → is_local r ≡ true → (runs : List (List Step)) → always n.hart runs p n.at m.at r ≡ true
        → Contains runs (steps_of c.traces n.hart) → (a b : ℕ) → name_of (runs_of t c) a ≡ Some n → name_of (runs_of t
        c) b ≡ Some m
        → is_edge (runs_of t c) p c a b (Preserved r) ≡ true }
    ensures alike { (t : Test) (p : List Entry) (c d : Candidate) → All GoesForward t.codes → IsRaw t c → IsRaw t d
        → (a b i j : ℕ)
        (n m : Name) (r : Rule) → is_local r ≡ true → m.hart ≡ n.hart → steps_of c.traces n.hart ≡ steps_of d.traces n.hart
        → name_of (runs_of t c) a ≡ Some n → name_of (runs_of t c) b ≡ Some m → name_of (runs_of t d) i ≡ Some n
        → name_of (runs_of t d) j ≡ Some m
        → is_edge (runs_of t c) p c a b (Preserved r) ≡ is_edge (runs_of t d) p d i j (Preserved r) }
    ensures none { (t : Test) (p : List Entry) (c : Candidate) → All GoesForward t.codes → IsRaw t c → (n m : Name)
        → m.hart ≡ n.hart
        → (r : Rule) (runs : List (List Step)) → never n.hart runs p n.at m.at r ≡ true
        → Contains runs (steps_of c.traces n.hart) → HasLink t p c n m (Preserved r) → ⊥ }
{}

/// A law: the same of rules 2, 3 and 12, where sources are known by their names as well. The two loads return from
/// stores of different names; the load returns from the first operation; or it returns from one of some stores
/// between, each of which depends on the first operation in each of the runs.
pub fn runs_and_sources_serve()
    ensures two { (t : Test) (p : List Entry) (c : Candidate) → All GoesForward t.codes → IsRaw t c → (n m : Name)
        → m.hart ≡ n.hart
        → (runs : List (List Step)) → Contains runs (steps_of c.traces
        n.hart) → always n.hart runs p n.at m.at Rule2 ≡ true
        → ((a b : ℕ) → name_of (runs_of t c) a ≡ Some n → name_of (runs_of t c) b ≡ Some m
        → source_name (runs_of t c) c a ≡ source_name (runs_of t c) c b → ⊥)
        → HasLink t p c n m (Preserved Rule2) }
    ensures three { (t : Test) (p : List Entry) (c : Candidate) → All GoesForward t.codes → IsRaw t c → (n m : Name)
        → m.hart ≡ n.hart
        → (runs : List (List Step)) → Contains runs (steps_of c.traces
        n.hart) → always n.hart runs p n.at m.at Rule3 ≡ true
        → ((b : ℕ) → name_of (runs_of t c) b ≡ Some m → source_name (runs_of t c) c b ≡ Some n)
        → HasLink t p c n m (Preserved Rule3) }
    ensures twelve { (t : Test) (p : List Entry) (c : Candidate) → All GoesForward t.codes → IsRaw t c → (n m : Name)
        → m.hart ≡ n.hart
        → (runs : List (List Step)) → Contains runs (steps_of c.traces
        n.hart) → always n.hart runs p n.at m.at Rule12 ≡ true
        → ((b : ℕ) → name_of (runs_of t c) b ≡ Some m
        → (k : Name) × (source_name (runs_of t c) c b ≡ Some k) × (k.hart ≡ n.hart)
        × (always_through runs n.at k.at m.at ≡ true))
        → HasLink t p c n m (Preserved Rule12) }
{}

/// A law: a cycle is its links. The candidate has it exactly where it has each link, with the next one's operation,
/// by itself.
pub fn links_make_cycles()
    ensures cycle { (t : Test) (p : List Entry) (c : Candidate) → All GoesForward t.codes → IsRaw t c
        → (links : List Link)
        → 1 ≤ length links → length links ≤ most_links
        → AllZip (λ link next. HasLink t p c link.operation next.operation link.cause) links (drop 1 links ++ take
        1 links)
        → IsCycle t p c links }
    ensures links { (t : Test) (p : List Entry) (c : Candidate) → All GoesForward t.codes → IsRaw t c
        → (links : List Link)
        → IsCycle t p c links
        → AllZip (λ link next. HasLink t p c link.operation next.operation link.cause) links (drop 1 links ++ take 1
        links) }
{}
