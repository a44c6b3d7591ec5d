//! The walk over a refutation to its ends.

ghost use Rattle.std.specs.Prelude.{◌≡◌, ◌++◌, ℕ, List as Items, map, true, IfOk, IsOkUnless, OnOk};
ghost use Rattle.fs_kinds.specs.declared.fault.Fault.TheVariants.{Memory};
ghost use Rattle.fs_model.specs.declared.step.Step.{Step};
ghost use Rattle.fs_model.specs.declared.test.Test.{Test};
ghost use Rattle.fs_model.specs.Shows.{is_outcome};
ghost use Rattle.fs_cert_evidence.specs.Inferences.{inference_of};
ghost use Rattle.fs_cert_evidence.specs.Trees.{AreItsRuns, left_after, roots};
ghost use Rattle.fs_region_refutation.specs.Views.{AreOf, IsOf, region_of, regions_of};
ghost use Rattle.fs_region_refutation.specs.inner.Stacks.{stacked};
ghost use Rattle.fs_app_why.specs.Chains.{chains_of};
ghost use Rattle.fs_app_why.specs.Ends.{ends};

use crate::chain::Chain;
use crate::ended::push_end;
use fs_cert_evidence::Inference;
use fs_kinds::{Fault, Placement};
use fs_model::Quantifier;
use fs_region_refutation::{
    Basis, Region, by_cases, by_choice, by_order, by_outcome, by_source, roots,
};
use std::alloc::{AllocError, Global};

/// The regions that the inference leaves open.
fn left_after<'a>(
    alloc: Global,
    basis: &Basis,
    region: &Region<'a>,
    inference: &Inference,
) -> Result<Vec<Region<'a>>, AllocError>
    requires { IsOf basis.now region.now }
    ensures regions { IfOk result (λ left. regions_of left.items
        ≡ left_after basis.now (region_of region.now) (inference_of inference.now)) }
    ensures of { IfOk result (λ left. AreOf basis.now left.items) }
{
    match inference {
        Inference::ByChoice(name) => by_choice(alloc, basis, *name, region),
        Inference::BySource(load) => by_source(alloc, basis, *load, region),
        Inference::ByOrder { first, second } => by_order(alloc, basis, *first, *second, region),
        Inference::ByCases(number) => by_cases(alloc, basis, *number, region),
        Inference::Filter(hart) => by_outcome(alloc, basis, *hart, region),
        _ => Ok(Vec::new(alloc)),
    }
}

/// Puts the regions on the stack, the first one on top.
fn push_all<'a>(stack: &mut Vec<Region<'a>>, mut left: Vec<Region<'a>>) -> Result<(), AllocError>
    ensures regions { OnOk result (stacked stack.new.items ≡ regions_of left.entry.items ++ stacked stack.old.items) }
    ensures of { (t : Test) → OnOk result (AreOf t left.entry.items → AreOf t stack.old.items
        → AreOf t stack.new.items) }
{
    while let Some(region) = left.pop() {
        stack.push(region)?;
    }
    Ok(())
}

/// The truth value that the condition has in the outcome.
fn is_outcome(quantifier: Quantifier) -> bool
    ensures { result ≡ is_outcome quantifier true }
{
    match quantifier {
        Quantifier::Exists | Quantifier::NotExists => true,
        Quantifier::Forall => false,
    }
}

/// The ends of a refutation of the test under the placement as chains, in its order; of inferences that are none, those
/// to which they come. The cost is that of `reason_against`, and for each end what is linear in the runs of its harts.
/// The error is F19.
pub fn chains(
    alloc: Global,
    basis: &Basis,
    placement: &Placement,
    inferences: &[Inference],
) -> Result<Vec<Chain>, Fault>
    ensures made { IfOk result (λ made. (runs : ℕ → Items (Items Step)) × AreItsRuns basis.now runs
        × (made.items ≡ chains_of basis.now placement.now (ends basis.now (roots basis.now runs) (map inference_of inferences.now)))) }
    ensures err { IsOkUnless result Memory }
{
    let truth = is_outcome(basis.test().quantifier);
    let mut made = Vec::new(alloc);
    let mut stack = Vec::new(alloc);
    push_all(&mut stack, roots(alloc, basis, truth)?)?;
    for (index, inference) in inferences.iter().enumerate() {
        let _ = index;
        let Some(region) = stack.pop() else {
            return Ok(made);
        };
        push_end(alloc, basis, placement, &region, inference, &mut made)?;
        push_all(&mut stack, left_after(alloc, basis, &region, inference)?)?;
    }
    Ok(made)
}
