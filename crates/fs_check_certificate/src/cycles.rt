//! A list of cycles: one of the judged relation for each candidate that shows the outcome.

ghost use Rattle.std.specs.Prelude.{◌≡◌, ◌<◌, List, length, option_map, slice_get, slice_index, IfOk, IsOkUnless};
ghost use Rattle.std.specs.List.{AllZip, position};
ghost use Rattle.fs_kinds.specs.declared.fault.Fault.TheVariants.{Memory};
ghost use Rattle.fs_model.specs.Test.{IsBounded};
ghost use Rattle.fs_model.specs.Witness.{step_name};
ghost use Rattle.fs_hart.specs.Steps.{steps_in};
ghost use Rattle.fs_cert_evidence.specs.Certificate.{Link};
ghost use Rattle.fs_cert_evidence.specs.Listings.{IsListing};
ghost use Rattle.fs_cand.specs.Candidates.{candidate_of};
ghost use Rattle.fs_cand.specs.inner.NamedOrder.{name_in, is_same_name, number_of, numbers_of};
ghost use Rattle.fs_ppo.specs.Rules.{OfRuns};
ghost use Rattle.fs_check_certificate.specs.Cycles.{names_in, wanted, followers, have_edges, is_cycle, IsListVerdict};
ghost use Rattle.fs_cert_json.specs.Kept.{KeepsCycle};

use fs_cand::Candidate;
use fs_cand_listing::Showing;
use fs_cert_json::CertificateLink;
use fs_hart::{Step, Trace, steps_of};
use fs_kinds::{Fault, List, OperationName, Placement, Reason};
use fs_model::Operation;
use fs_ppo::is_edge;
use std::alloc::Global;

/// How many links a cycle may have.
const MOST_LINKS: usize = 64;

/// The name of the operation that this step of a hart's run makes, where there is such a step.
fn step_name(steps: &[Step], hart: u8, place: u8) -> Option<OperationName>
    ensures { result ≡ option_map (step_name hart) (slice_get steps.now place) }
{
    let step = steps.get(usize::from(place))?;
    Some(OperationName { hart, at: step.at })
}

/// The name of the operation: its hart and the position of its instruction. An initial store has none.
fn name(traces: &[Trace], operation: &Operation) -> Option<OperationName>
    ensures { result ≡ name_in (steps_in traces.now) operation.now }
{
    match operation.hart {
        Some(hart) => step_name(steps_of(traces, Some(hart)), hart, operation.place),
        None => None,
    }
}

/// Are both there, and the same?
fn is_same(first: Option<OperationName>, second: Option<OperationName>) -> bool
    ensures { result ≡ is_same_name first second }
{
    match (first, second) {
        (Some(first), Some(second)) => first.hart == second.hart && first.at == second.at,
        _ => false,
    }
}

/// Has the operation this name?
fn is_named(traces: &[Trace], operation: &Operation, wanted: Option<OperationName>) -> bool
    ensures { result ≡ is_same_name (name_in (steps_in traces.now) operation.now) wanted }
{
    is_same(name(traces, operation), wanted)
}

/// The place of the first operation with this name.
fn index_of(
    operations: &[Operation],
    traces: &[Trace],
    wanted: Option<OperationName>,
) -> Option<usize>
    ensures { result
        ≡ position (λ operation. is_same_name (name_in (steps_in traces.now) operation) wanted) operations.now }
{
    operations
        .iter()
        .position(|operation| is_named(traces, operation, wanted))
}

/// The number of the candidate's operation with this name.
fn number(candidate: &Candidate, wanted: Option<OperationName>) -> Option<usize>
    ensures { result ≡ number_of (names_in candidate.now) wanted }
{
    index_of(
        candidate.operations.as_slice(),
        candidate.traces.as_slice(),
        wanted,
    )
}

/// The numbers of the operations that the links name, where each name is that of an operation.
fn numbers(
    alloc: Global,
    candidate: &Candidate,
    links: &[CertificateLink],
) -> Result<Option<Vec<usize>>, Fault>
    ensures ok { IfOk result (λ found. option_map (λ numbers. numbers.items) found
        ≡ numbers_of (names_in candidate.now) (wanted links.now)) }
    ensures err { IsOkUnless result Memory }
{
    let mut found = Vec::new(alloc);
    for link in links {
        let Some(number) = number(candidate, link.operation) else {
            return Ok(None);
        };
        found.push(number)?;
    }
    Ok(Some(found))
}

/// The number after the one at this place: the next one, or the first after the last.
fn follower(numbers: &[usize], place: usize) -> usize
    requires { place < length numbers.now }
    ensures { result ≡ slice_index (followers numbers.now) place }
{
    if place + 1 < numbers.len() {
        numbers[place + 1]
    } else {
        numbers[0]
    }
}

/// Are there edges for the links' causes between the operations of these numbers, from each to the next one and from
/// the last to the first?
fn have_edges(
    candidate: &Candidate,
    placement: &Placement,
    links: &[CertificateLink],
    numbers: &[usize],
) -> bool
    requires { length numbers.now ≡ length links.now }
    ensures { OfRuns candidate.now (λ x. result
        ≡ have_edges x placement.now (candidate_of candidate.now) links.now numbers.now) }
{
    for (place, link) in links.iter().enumerate() {
        let next = follower(numbers, place);
        if !is_edge(candidate, placement, numbers[place], next, link.cause) {
            return false;
        }
    }
    true
}

/// Are the links a cycle of the candidate's judged relation under the placement? For each link linear in the
/// operations, and one test of an edge.
fn is_cycle(
    alloc: Global,
    candidate: &Candidate,
    placement: &Placement,
    links: &[CertificateLink],
) -> Result<bool, Fault>
    ensures ok { OfRuns candidate.now (λ x. IfOk result (λ is. is
        ≡ is_cycle x placement.now (candidate_of candidate.now) links.now)) }
    ensures err { IsOkUnless result Memory }
{
    if links.is_empty() || links.len() > MOST_LINKS {
        return Ok(false);
    }
    match numbers(alloc, candidate, links)? {
        Some(numbers) => Ok(have_edges(candidate, placement, links, &numbers)),
        None => Ok(false),
    }
}

/// The first reason against a list of cycles, where there is one: there isn't one for each candidate that shows the
/// outcome, or one isn't a cycle of its candidate's judged relation under the placement. The error is `Memory`. Each
/// candidate is made once; for each link linear in the operations, and one test of an edge.
pub(crate) fn first_bad_cycle(
    alloc: Global,
    showing: &Showing,
    placement: &Placement,
    cycles: &[List<CertificateLink>],
) -> Result<Option<Reason>, Fault>
    requires test { IsBounded showing.now.test }
    requires listing { IsListing showing.now.test showing.now.candidates }
    ensures ok { (said : List (List Link)) → AllZip KeepsCycle cycles.now said
        → IfOk result (IsListVerdict showing.now.test placement.now showing.now.candidates said) }
    ensures err { IsOkUnless result Memory }
{
    if cycles.len() != showing.len() {
        return Ok(Some(Reason::Cycles));
    }
    for (index, links) in cycles.iter().enumerate() {
        let candidate = showing.get(alloc, index)?;
        if !is_cycle(alloc, &candidate, placement, links)? {
            return Ok(Some(Reason::Cycle { index }));
        }
    }
    Ok(None)
}
