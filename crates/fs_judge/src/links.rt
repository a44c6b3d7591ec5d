//! Cycles of the judged relation as their links: the operations' names, each with why it comes before the next one.

ghost use Rattle.std.specs.Prelude.{◌≡◌, ◌≤◌, ◌<◌, ℕ, Some, true, length, slice_index, IfOk, IsOkUnless};
ghost use Rattle.fs_kinds.specs.declared.fault.Fault.TheVariants.{Memory};
ghost use Rattle.fs_model.specs.declared.test.Test.{Test};
ghost use Rattle.fs_model.specs.Execution.{initial_words};
ghost use Rattle.fs_model.specs.Operations.{accesses};
ghost use Rattle.fs_model.specs.Witness.{name_of};
ghost use Rattle.fs_cert_evidence.specs.Candidates.{IsRaw, runs_of};
ghost use Rattle.fs_cert_evidence.specs.Judged.{is_judged};
ghost use Rattle.fs_cert_evidence.specs.Cycles.{IsCycle};
ghost use Rattle.fs_cand.specs.Candidates.{candidate_of, IsMade};
ghost use Rattle.fs_ppo.specs.Rules.{OfRuns};
ghost use Rattle.fs_cand_witness.specs.Edges.{has_edge};
ghost use Rattle.fs_cand_witness.specs.Orders.{IsCycleBelow};
ghost use Rattle.fs_judge.specs.inner.Links.{IsLink, followers};

use crate::causes::cause;
use fs_cand::Candidate;
use fs_cand_witness::{Rows, operation_name};
use fs_cert_evidence::Link;
use fs_kinds::{Fault, List, OperationName, Placement};
use std::alloc::Global;

/// The number after the one at this place of a cycle: the next one, or the first after the last.
fn follower(cycle: &[u8], place: usize) -> u8
    requires { place < length cycle.now }
    ensures { result ≡ slice_index (followers cycle.now) place }
{
    if place + 1 < cycle.len() {
        cycle[place + 1]
    } else {
        cycle[0]
    }
}

/// The name of an operation of a hart. Of another number nothing is promised.
fn name(candidate: &Candidate, a: usize) -> OperationName
    ensures { OfRuns candidate.now (λ x. a < length (accesses x) → name_of x a ≡ Some result) }
{
    operation_name(candidate, a).unwrap_or(OperationName { hart: 0, at: 0 })
}

/// The step of a cycle from a to b, where a is an operation of a hart that must come before b.
fn link(candidate: &Candidate, placement: &Placement, a: usize, b: usize) -> Link
    ensures { OfRuns candidate.now (λ x. a < length (accesses x)
        → is_judged x placement.now (candidate_of candidate.now) a b ≡ true
        → IsLink x placement.now (candidate_of candidate.now) a b result) }
{
    Link {
        operation: name(candidate, a),
        cause: cause(candidate, placement, a, b),
    }
}

/// The links of a cycle of a raw candidate's judged relation, which the rows are.
pub(crate) fn links_of(
    alloc: Global,
    candidate: &Candidate,
    placement: &Placement,
    rows: &Rows,
    cycle: &[u8],
) -> Result<List<Link>, Fault>
    requires operations { length candidate.now.operations ≤ 64 }
    requires cycle { IsCycleBelow (has_edge rows.now) (length candidate.now.operations) cycle.now }
    ensures ok { (t : Test) → IsMade (initial_words t) candidate.now → IsRaw t (candidate_of candidate.now)
        → ((a b : ℕ) → has_edge rows.now a b
        ≡ is_judged (runs_of t (candidate_of candidate.now)) placement.now (candidate_of candidate.now) a b)
        → IfOk result (IsCycle t placement.now (candidate_of candidate.now)) }
    ensures err { IsOkUnless result Memory }
{
    let mut links = Vec::new(alloc);
    for place in 0..cycle.len() {
        let a = usize::from(cycle[place]);
        let b = usize::from(follower(cycle, place));
        links.push(link(candidate, placement, a, b))?;
    }
    Ok(List::new(links))
}
