//! The walk over a tree of inferences.

ghost use Rattle.std.specs.Prelude.{◌≡◌, ◌++◌, ◌∷◌, [], ℕ, List, map, true, drop, IfOk, OnOk, IsOkUnless};
ghost use Rattle.std.specs.List.{list_all, zip};
ghost use Rattle.fs_kinds.specs.declared.placement.Entry.{Entry};
ghost use Rattle.fs_kinds.specs.declared.fault.Fault.TheVariants.{Memory};
ghost use Rattle.fs_model.specs.declared.step.Step.{Step};
ghost use Rattle.fs_model.specs.declared.test.Test.{Test};
ghost use Rattle.fs_model.specs.Shows.{is_outcome};
ghost use Rattle.fs_cert_evidence.specs.Musts.{must};
ghost use Rattle.fs_cert_evidence.specs.Certificate.{ByOrder};
ghost use Rattle.fs_cert_evidence.specs.Trees.{must_be_cycle, follows, left_after, roots, AreItsRuns};
ghost use Rattle.fs_cert_evidence.specs.Refusals.{first_wrong};
ghost use Rattle.fs_cert_evidence.specs.Inferences.{inference_of};
ghost use Rattle.fs_region_refutation.specs.Runs.{AreRoots};
ghost use Rattle.fs_region_refutation.specs.Views.{region_of, regions_of, IsOf, AreOf};
ghost use Rattle.fs_region_refutation.specs.inner.Stacks.{stacked};

use crate::causes::must;
use crate::naming::is_name;
use crate::{
    Access, Basis, Region, by_cases, by_choice, by_order, by_outcome, by_source, has_cases,
    is_before_source, is_same_name, must_meet, must_pair, overwrites, roots,
};
use fs_cert_evidence::{Inference, Link};
use fs_kinds::{Fault, OperationName, Placement, Reason};
use fs_model::Quantifier;
use std::alloc::{AllocError, Global};

// The greatest number of links of a cycle.
const MOST_LINKS: usize = 64;

/// Must the first link come before the second?
fn is_linked(
    basis: &Basis,
    placement: &Placement,
    region: &Region<'_>,
    link: &Link,
    next: &Link,
) -> bool
    requires { IsOf basis.now region.now }
    ensures { result ≡ must basis.now
        (region_of region.now) placement.now link.now.cause link.now.operation next.now.operation }
{
    must(
        basis,
        placement,
        region,
        link.cause,
        link.operation,
        next.operation,
    )
}

/// Must each link come before the next one, and the last before this one?
fn is_chain(
    basis: &Basis,
    placement: &Placement,
    region: &Region<'_>,
    links: &[Link],
    last: &Link,
) -> bool
    requires { IsOf basis.now region.now }
    ensures { result ≡ list_all (λ pair. must basis.now
        (region_of region.now) placement.now pair.0.cause pair.0.operation pair.1.operation)
        (zip links.now (drop 1 links.now ++ last.now ∷ [])) }
{
    for (number, link) in links.iter().enumerate() {
        let next = links.get(number + 1).unwrap_or(last);
        if !is_linked(basis, placement, region, link, next) {
            return false;
        }
    }
    true
}

/// Must each link come before the next one, and the last before the first?
fn must_be_cycle(basis: &Basis, placement: &Placement, region: &Region<'_>, links: &[Link]) -> bool
    requires { IsOf basis.now region.now }
    ensures { result ≡ must_be_cycle basis.now placement.now (region_of region.now) links.now }
{
    let Some(first) = links.first() else {
        return false;
    };
    links.len() <= MOST_LINKS && is_chain(basis, placement, region, links, first)
}

/// May the two stores be put in an order?
fn may_order(
    basis: &Basis,
    region: &Region<'_>,
    first: OperationName,
    second: OperationName,
) -> bool
    ensures { (p : List Entry) → result ≡ follows basis.now p (region_of region.now) (ByOrder first second) }
{
    must_meet(
        basis,
        region,
        (Access::Store, first),
        (Access::Store, second),
    ) && (!is_same_name(first, second)
        && (!region.is_before(first, second) && !region.is_before(second, first)))
}

/// Can the inference be drawn from the region?
fn follows(basis: &Basis, placement: &Placement, region: &Region<'_>, inference: &Inference) -> bool
    requires { IsOf basis.now region.now }
    ensures { result ≡ follows basis.now placement.now (region_of region.now) (inference_of inference.now) }
{
    match inference {
        Inference::ByChoice(name) | Inference::BySource(name) => is_name(basis.test(), *name),
        Inference::ByOrder { first, second } => may_order(basis, region, *first, *second),
        Inference::ByCases(number) => has_cases(region, *number),
        Inference::Filter(hart) => basis.is_hart(*hart),
        Inference::Cycle(links) => must_be_cycle(basis, placement, region, links.as_slice()),
        Inference::Stale { load, store } => {
            store.hart == load.hart
                && (store.at < load.at && overwrites(basis, region, *store, *load))
        }
        Inference::Reversed { load, store } => {
            must_pair(basis, region, *load, *store)
                && is_before_source(region, *store, region.source(*load))
        }
        Inference::Parted { load, store, other } => {
            must_pair(basis, region, *load, *store)
                && (other.hart != store.hart
                    && (region.is_before(*other, *store)
                        && overwrites(basis, region, *other, *load)))
        }
    }
}

/// The regions that the inference leaves open.
fn left_after<'a>(
    alloc: Global,
    basis: &Basis,
    region: &Region<'a>,
    inference: &Inference,
) -> Result<Vec<Region<'a>>, AllocError>
    requires { IsOf basis.now region.now }
    ensures regions { IfOk result (λ left. regions_of left.items
        ≡ left_after basis.now (region_of region.now) (inference_of inference.now)) }
    ensures of { IfOk result (λ left. AreOf basis.now left.items) }
{
    match inference {
        Inference::ByChoice(name) => by_choice(alloc, basis, *name, region),
        Inference::BySource(load) => by_source(alloc, basis, *load, region),
        Inference::ByOrder { first, second } => by_order(alloc, basis, *first, *second, region),
        Inference::ByCases(number) => by_cases(alloc, basis, *number, region),
        Inference::Filter(hart) => by_outcome(alloc, basis, *hart, region),
        _ => Ok(Vec::new(alloc)),
    }
}

/// Puts the regions on the stack, the first one on top.
fn push_all<'a>(stack: &mut Vec<Region<'a>>, mut left: Vec<Region<'a>>) -> Result<(), AllocError>
    ensures regions { OnOk result (stacked stack.new.items ≡ regions_of left.entry.items ++ stacked stack.old.items) }
    ensures of { (t : Test) → OnOk result (AreOf t left.entry.items → AreOf t stack.old.items
        → AreOf t stack.new.items) }
{
    while let Some(region) = left.pop() {
        stack.push(region)?;
    }
    Ok(())
}

/// The truth value that the condition has in the outcome.
fn is_outcome(quantifier: Quantifier) -> bool
    ensures { result ≡ is_outcome quantifier true }
{
    match quantifier {
        Quantifier::Exists | Quantifier::NotExists => true,
        Quantifier::Forall => false,
    }
}

/// Can the inference be drawn from the region? If so what it leaves open comes on the stack, the first region on top.
pub(crate) fn is_drawn<'a>(
    alloc: Global,
    basis: &Basis,
    placement: &Placement,
    stack: &mut Vec<Region<'a>>,
    region: &Region<'a>,
    inference: &Inference,
) -> Result<bool, AllocError>
    requires { IsOf basis.now region.now }
    ensures drawn { IfOk result (λ drawn.
        drawn ≡ follows basis.now placement.now (region_of region.now) (inference_of inference.now)) }
    ensures regions { IfOk result (λ drawn. drawn ≡ true → stacked stack.new.items
        ≡ left_after basis.now (region_of region.now) (inference_of inference.now) ++ stacked stack.old.items) }
    ensures of { IfOk result (λ drawn. drawn ≡ true → AreOf basis.now stack.old.items
        → AreOf basis.now stack.new.items) }
{
    if !follows(basis, placement, region, inference) {
        return Ok(false);
    }
    push_all(stack, left_after(alloc, basis, region, inference)?)?;
    Ok(true)
}

/// The reason against the inferences as a refutation of these regions, of which the last one comes first, if there is
/// one.
pub(crate) fn reason_from(
    alloc: Global,
    basis: &Basis,
    placement: &Placement,
    regions: Vec<Region<'_>>,
    inferences: &[Inference],
) -> Result<Option<Reason>, AllocError>
    requires { AreOf basis.now regions.items }
    ensures { IfOk result (λ why. why
        ≡ first_wrong basis.now placement.now (stacked regions.entry.items) (map inference_of inferences.now) 0) }
{
    let mut stack = regions;
    for (index, inference) in inferences.iter().enumerate() {
        let Some(region) = stack.pop() else {
            return Ok(Some(Reason::Cycles)); // one too many
        };
        let drawn = is_drawn(alloc, basis, placement, &mut stack, &region, inference)?;
        if !drawn {
            return Ok(Some(Reason::Cycle { index }));
        }
    }
    if stack.is_empty() {
        Ok(None)
    } else {
        Ok(Some(Reason::Cycles))
    }
}

/// The regions that are open at first, on a stack.
pub(crate) fn first_open<'a>(alloc: Global, basis: &'a Basis) -> Result<Vec<Region<'a>>, AllocError>
    ensures regions { IfOk result (λ regions. AreRoots basis.now (stacked regions.items)) }
    ensures of { IfOk result (λ regions. AreOf basis.now regions.items) }
{
    let truth = is_outcome(basis.test().quantifier);
    let mut stack = Vec::new(alloc);
    push_all(&mut stack, roots(alloc, basis, truth)?)?;
    Ok(stack)
}

/// The reason against the inferences as a refutation of the test under the placement, if there is one: the first
/// that can't be drawn from its region, by its number from 0, or that one is left over, whichever comes first; or
/// else that one is missing. Without a reason the placement forbids the outcome.
///
/// Each inference is looked at once. The cost: of a split, the tests that it makes of the runs of its harts, for
/// each region that it gives; of a source in another hart, besides a sort of the runs of both; of an end, the runs
/// of the harts that it speaks of. The memory is that of the regions that are open at once. A region shares the
/// lists of the one that it is split from, and takes besides the runs of the harts whose runs it drops. The error
/// is F19.
pub fn reason_against(
    alloc: Global,
    basis: &Basis,
    placement: &Placement,
    inferences: &[Inference],
) -> Result<Option<Reason>, Fault>
    ensures exact { IfOk result (λ why. (runs : ℕ → List (List Step)) × AreItsRuns basis.now runs
        × (why ≡ first_wrong basis.now placement.now (roots basis.now runs) (map inference_of inferences.now) 0)) }
    ensures err { IsOkUnless result Memory }
{
    let regions = first_open(alloc, basis)?;
    let why = reason_from(alloc, basis, placement, regions, inferences)?;
    Ok(why)
}
