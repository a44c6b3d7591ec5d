//! Candidates, their judged relations and executions.

ghost use Rattle.std.specs.List.{list_any};
ghost use Rattle.std.specs.Prelude.{◌≡◌, ◌↔◌, ◌⊎◌, ◌||◌, ◌<◌, ◌≤◌, ℕ, List, [], true, length};
ghost use Rattle.fs_kinds.specs.declared.placement.Entry.{Entry};
ghost use Rattle.fs_model.specs.declared.test.Test.{Test};
ghost use Rattle.fs_model.specs.Operations.{accesses, operations};
ghost use Rattle.fs_model.specs.Execution.{Execution, IsExecution};
ghost use Rattle.fs_model.specs.Allows.{Shows, Allows};
ghost use Rattle.fs_cert_evidence.specs.Candidates.{Candidate, IsRaw, IsShowing, runs_of, rf};
ghost use Rattle.fs_model.specs.Preserved.{rule, Rule4};
ghost use Rattle.fs_cert_evidence.specs.Judged.{all_causes, is_edge, is_judged};
ghost use Rattle.fs_cert_evidence.specs.Listings.{IsListing};
ghost use Rattle.fs_cert_evidence.specs.Certificate.{Link};
ghost use Rattle.fs_cert_evidence.specs.Cycles.{IsCycle, HasCycles, most_links};
ghost use Rattle.fs_values.specs.ThinAir.{CanBeListed};
ghost use Rattle.fs_verdict_laws.specs.Decide.{IsOrdered, IsExecuted, IsSorted, IsRound, IsAcyclic, HasOrdered};
ghost use Rattle.fs_verdict_laws.specs.Decide.{HasAcyclic, candidate_of, ordered_by, of_harts};

/// A law: a showing candidate with an order that respects its judged relation is an execution that shows the outcome,
/// by the candidate's sources and coherence orders. The order of each execution respects the judged relation of its own
/// sources and coherence orders, and where it shows the outcome they are a showing candidate. So in a test whose runs
/// can be listed the outcome is allowed exactly where some showing candidate has such an order.
pub fn candidates_decide()
    ensures executed { (t : Test) (p : List Entry) (c : Candidate) (order : List ℕ) → IsShowing t c
        → IsOrdered t p c order
        → IsExecuted t p c order }
    ensures ordered { (t : Test) (p : List Entry) (e : Execution) → IsExecution t p e
        → IsOrdered t p (candidate_of t e) e.order }
    ensures showing { (t : Test) → CanBeListed t → (p : List Entry) (e : Execution) → Shows t p e
        → IsShowing t (candidate_of t e) }
    ensures exactly { (t : Test) (p : List Entry) (c : Candidate) (order : List ℕ) → IsShowing t c
        → IsOrdered t p c order ↔ (IsExecution t p (ordered_by c order) × (candidate_of t (ordered_by c order) ≡ c)) }
    ensures decides { (t : Test) → CanBeListed t → (p : List Entry) → Allows t p ↔ HasOrdered t p }
{}

/// A law: acyclic equals ordered. The judged relation of a candidate has an order that respects it, or a cycle of no
/// more operations than there are, and not both. So a showing candidate has an execution, with its sources and
/// coherence orders, exactly where it has no cycle, and the outcome is allowed exactly where some showing candidate has
/// none.
pub fn cycles_decide()
    ensures either { (t : Test) (p : List Entry) (c : Candidate) → IsRaw t c
        → ((order : List ℕ) × IsOrdered t p c order)
        ⊎ ((numbers : List ℕ) × IsRound (is_judged (runs_of t c) p c) numbers × (length numbers ≤ length (operations (runs_of t c)))) }
    ensures acyclic { (t : Test) (p : List Entry) (c : Candidate) → IsRaw t c
        → ((order : List ℕ) × IsOrdered t p c order) ↔ IsAcyclic (is_judged (runs_of t c) p c) }
    ensures executed { (t : Test) (p : List Entry) (c : Candidate) → IsShowing t c
        → ((order : List ℕ) × IsExecution t p (ordered_by c order) × (candidate_of t (ordered_by c order) ≡ c))
        ↔ IsAcyclic (is_judged (runs_of t c) p c) }
    ensures decides { (t : Test) → CanBeListed t → (p : List Entry) → Allows t p ↔ HasAcyclic t p }
{}

/// A law: the placed fences add to the judged relation without them the edges of rule 4, and no others.
pub fn fences_add_edges()
    ensures { (t : Test) (p : List Entry) (c : Candidate) (a b : ℕ)
        → is_judged (runs_of t c) p c a b ≡ (is_judged (runs_of t c) [] c a b
        || rule (runs_of t c) p (rf c) a b Rule4) }
{}

/// A law: the judged relation has an edge exactly where some cause gives it.
pub fn causes_make_edges()
    ensures { (t : Test) (p : List Entry) (c : Candidate) (a b : ℕ)
        → is_judged (runs_of t c) p c a b ≡ list_any (is_edge (runs_of t c) p c a b) all_causes }
{}

/// A law: no edge of the judged relation enters an initial store. So a list of all operations that goes the way of each
/// edge, as sorting the relation gives it, is an order once the initial stores are taken out.
pub fn edges_enter_harts()
    ensures enters { (t : Test) (p : List Entry) (c : Candidate) (a b : ℕ) → IsRaw t c
        → is_judged (runs_of t c) p c a b ≡ true
        → b < length (accesses (runs_of t c)) }
    ensures sorted { (t : Test) (p : List Entry) (c : Candidate) (sorted : List ℕ) → IsRaw t c → IsSorted t p c sorted
        → IsOrdered t p c (of_harts t c sorted) }
{}

/// A law: a cycle of the judged relation excludes every order, and a cycle for each showing candidate forbids the
/// outcome. Where the outcome is forbidden, and no showing candidate has more than 64 operations, there are such
/// cycles.
pub fn cycles_forbid()
    ensures rounds { (t : Test) (p : List Entry) (c : Candidate) (numbers order : List ℕ)
        → IsRound (is_judged (runs_of t c) p c) numbers
        → IsOrdered t p c order → ⊥ }
    ensures cycles { (t : Test) (p : List Entry) (c : Candidate) (links : List Link) (order : List ℕ)
        → IsCycle t p c links
        → IsOrdered t p c order → ⊥ }
    ensures forbids { (t : Test) → CanBeListed t → (p : List Entry) (cycles : List (List Link)) → HasCycles t p cycles
        → Allows t p → ⊥ }
    ensures exist { (t : Test) (p : List Entry) (cs : List Candidate) → IsListing t cs
        → ((c : Candidate) → IsShowing t c → length (operations (runs_of t c)) ≤ most_links) → (Allows t p → ⊥)
        → (cycles : List (List Link)) × HasCycles t p cycles }
{}
