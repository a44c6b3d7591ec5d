//! What two tests have alike that are the same but for where the parts of their conditions lie in memory.

ghost use Rattle.std.specs.Prelude.{◌≡◌, ◌↔◌, ℕ, List, Option};
ghost use Rattle.fs_kinds.specs.declared.fault.Fault.{Fault};
ghost use Rattle.fs_kinds.specs.declared.placement.Entry.{Entry};
ghost use Rattle.fs_kinds.specs.declared.reason.Reason.{Reason};
ghost use Rattle.fs_kinds.specs.PriceTable.{PriceTable};
ghost use Rattle.fs_model.specs.declared.test.Test.{Test};
ghost use Rattle.fs_model.specs.Slots.{slots};
ghost use Rattle.fs_model.specs.Test.{IsSame};
ghost use Rattle.fs_model.specs.Allows.{Allows, IsPlacement, IsCheapest, RefutesAll};
ghost use Rattle.fs_model.specs.Execution.{Execution};
ghost use Rattle.fs_model.specs.Reasons.{IsReason, IsYes};
ghost use Rattle.fs_model.specs.TooMany.{IsRunFault};
ghost use Rattle.fs_model.specs.Witness.{Witness, IsOfWitness};
ghost use Rattle.fs_cert_evidence.specs.Candidates.{Candidate, IsShowing};
ghost use Rattle.fs_cert_evidence.specs.CandidateFaults.{HasTooMany, IsCandidateFault};
ghost use Rattle.fs_cert_evidence.specs.Certificate.{Certificate, IsLeastCost};
ghost use Rattle.fs_cert_evidence.specs.Listings.{IsListing};
ghost use Rattle.fs_cert_evidence.specs.Shown.{IsShownBy};
ghost use Rattle.fs_cert_evidence.specs.Widths.{width};
ghost use Rattle.fs_cert_evidence.specs.Sizes.{IsNodeLimit};
ghost use Rattle.fs_board_offers.specs.Offers.{Offers};
ghost use Rattle.fs_board_offers.specs.Board.{Board, Event, Reply};
ghost use Rattle.fs_board_offers.specs.Histories.{LogEntry, Steps, IsHistory};
ghost use Rattle.fs_board_offers.specs.Priced.{IsValid, IsRefusal};

/// A law: the same tests have the same slots, and are refused for the same faults: those of their runs, and too many
/// candidates.
pub fn same_tests_fail_alike()
    ensures places { (t u : Test) → IsSame t u → slots t ≡ slots u }
    ensures runs { (t u : Test) → IsSame t u → (f : Fault) → IsRunFault t f ↔ IsRunFault u f }
    ensures candidates { (t u : Test) → IsSame t u → (f : Fault) → IsCandidateFault t f ↔ IsCandidateFault u f }
    ensures many { (t u : Test) → IsSame t u → HasTooMany t ↔ HasTooMany u }
{}

/// A law: the same tests have the same showing candidates, and so the same listing of them.
pub fn same_tests_list_alike()
    ensures showing { (t u : Test) → IsSame t u → (c : Candidate) → IsShowing t c ↔ IsShowing u c }
    ensures listing { (t u : Test) → IsSame t u → (cs : List Candidate) → IsListing t cs ↔ IsListing u cs }
{}

/// A law: the same tests have the same placements, and under each of them both allow the outcome or both forbid it. So
/// they have the same cheapest one. A witness gives the same execution of both. It shows the outcome of both under the
/// same placements, and has the same width at each slot.
pub fn same_tests_allow_alike()
    ensures placements { (t u : Test) → IsSame t u → (prices : PriceTable) (p : List Entry)
        → IsPlacement t prices p ↔ IsPlacement u prices p }
    ensures allowed { (t u : Test) → IsSame t u → (p : List Entry) → Allows t p ↔ Allows u p }
    ensures cheapest { (t u : Test) → IsSame t u → (prices : PriceTable) (p : List Entry)
        → IsCheapest t prices p ↔ IsCheapest u prices p }
    ensures least { (t u : Test) → IsSame t u → (prices : PriceTable) (p : List Entry)
        → IsLeastCost t prices p ↔ IsLeastCost u prices p }
    ensures refuted { (t u : Test) → IsSame t u → (e : Execution) → RefutesAll t e ↔ RefutesAll u e }
    ensures given { (t u : Test) → IsSame t u → (w : Witness) (e : Execution) → IsOfWitness t w e ↔ IsOfWitness u w e }
    ensures shown { (t u : Test) → IsSame t u → (p : List Entry) (w : Witness) → IsShownBy t p w ↔ IsShownBy u p w }
    ensures widths { (t u : Test) → IsSame t u → (e : Execution) → width t e ≡ width u e }
{}

/// A law: the search boards of the same tests have the same steps and histories, and a search of one may end for want
/// of nodes where a search of the other may.
pub fn same_tests_search_alike()
    ensures steps { (t u : Test) → IsSame t u
        → (offers : Offers) (old : Board) (worker : ℕ) (event : Event) (reply : Reply) (new : Board)
        → Steps t offers old worker event reply new ↔ Steps u offers old worker event reply new }
    ensures histories { (t u : Test) → IsSame t u
        → (offers : Offers) (limit : ℕ) (log : List LogEntry) (board : Board)
        → IsHistory t offers limit log board ↔ IsHistory u offers limit log board }
    ensures limits { (t u : Test) → IsSame t u → (prices : PriceTable) (limit : ℕ)
        → IsNodeLimit t prices limit ↔ IsNodeLimit u prices limit }
{}

/// A law: of the same tests a certificate is valid for the same answer, or refused for the same reason.
pub fn same_tests_certify_alike()
    ensures valid { (t u : Test) → IsSame t u → (prices : PriceTable) (c : Certificate) (answer : Option (List Entry))
        → IsValid t prices c answer ↔ IsValid u prices c answer }
    ensures refused { (t u : Test) → IsSame t u → (prices : PriceTable) (c : Certificate) (why : Reason)
        → IsRefusal t prices c why ↔ IsRefusal u prices c why }
{}

/// A law: the same is said of a witness for each of the same tests: yes, or the first reason against it.
pub fn same_tests_are_judged_alike()
    ensures agreed { (t u : Test) → IsSame t u → (p : List Entry) (w : Witness) → IsYes t p w ↔ IsYes u p w }
    ensures refused { (t u : Test) → IsSame t u → (p : List Entry) (w : Witness) (why : Reason)
        → IsReason t p w why ↔ IsReason u p w why }
{}
