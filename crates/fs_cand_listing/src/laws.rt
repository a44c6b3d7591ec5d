//! Laws of the listing: what the raw candidates of all runs are, and how many.

ghost use Rattle.std.specs.Prelude.{◌≡◌, ◌*◌, length, List};
ghost use Rattle.fs_model.specs.declared.test.Test.{Test};
ghost use Rattle.fs_model.specs.declared.step.Step.{Step};
ghost use Rattle.fs_model.specs.Execution.{pre_execution};
ghost use Rattle.fs_cert_evidence.specs.Listings.{IsListing};
ghost use Rattle.fs_cert_evidence.specs.CandidateFaults.{HasTooMany};
ghost use Rattle.fs_cand_listing.specs.Ways.{product_of_lengths};
ghost use Rattle.fs_cand_listing.specs.RawCandidates.{AreAllRuns, all_sources, all_orders, candidates_with, AreOver};
ghost use Rattle.fs_cand_listing.specs.ShowingTests.{showing_candidates};

/// A law: the raw candidates of all runs that pass the tests are all candidates that show the outcome, each once and in
/// their order.
pub fn candidates_are_listed()
    ensures { (t : Test) (lists : List (List (List Step))) → AreAllRuns t lists
        → IsListing t (showing_candidates t lists) }
{}

/// A law: there are too many candidates just where the lists are too long.
pub fn lengths_decide()
    ensures many { (t : Test) (lists : List (List (List Step))) → AreAllRuns t lists → AreOver t lists → HasTooMany t }
    ensures few { (t : Test) (lists : List (List (List Step))) → AreAllRuns t lists → (AreOver t lists → ⊥)
        → HasTooMany t → ⊥ }
{}

/// A law: how many raw candidates there are with the same runs is a product, one factor for each operation and for each
/// location.
pub fn raw_candidates_are_counted()
    ensures { (t : Test) (traces : List (List Step)) → length (candidates_with t traces)
        ≡ product_of_lengths (all_sources (pre_execution t traces)) * product_of_lengths (all_orders t
        (pre_execution t traces)) }
{}
