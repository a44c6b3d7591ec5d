//! What a hunt finds, once it is checked: nothing of a hunt is believed.

ghost use Rattle.std.specs.Prelude.{◌≡◌, true, All, map, IfOk, IsOkUnless};
ghost use Rattle.fs_kinds.specs.declared.fault.Fault.TheVariants.{Memory};
ghost use Rattle.fs_model.specs.Test.{IsStart};
ghost use Rattle.fs_cert_evidence.specs.Inferences.{inference_of};
ghost use Rattle.fs_cert_evidence.specs.Trees.{IsRefuted};
ghost use Rattle.fs_cert_evidence.specs.WitnessFile.{KeepsWitness, in_range};
ghost use Rattle.fs_values.specs.ThinAir.{CanBeListed};
ghost use Rattle.fs_judge.specs.inner.Findings.{IsSought};

use crate::known::Known;
use crate::team::Team;
use fs_cert_evidence::{Inference, Names, WitnessFile};
use fs_check::shown_by;
use fs_judge_hunt::{Execution, Found, Refutation};
use fs_kinds::{Fault, List, OperationName, Placement};
use fs_model::Test;
use fs_region_refutation::{Basis, reason_against, small_subtrees};
use std::alloc::{AllocError, Global};

/// One looks at fewer inferences than these alone: that takes less time than threads take to start.
const FEW_INFERENCES: usize = 1_000;

/// What was found for a placement.
#[derive(Drop)]
pub(crate) enum Sought {
    /// The inferences refute the test.
    Refuted(List<Inference>),
    /// This candidate shows the outcome; whether it has a cycle with the placed fences isn't said.
    Shown(Known),
    /// Nothing that holds.
    Nothing,
}

/// Does one see that the inferences refute the test?
fn is_refuted(
    alloc: Global,
    basis: &Basis,
    placement: &Placement,
    inferences: &List<Inference>,
) -> Result<bool, Fault>
    ensures ok { IfOk result (λ yes. yes ≡ true → IsRefuted basis.now placement.now (map inference_of inferences.now)) }
    ensures err { IsOkUnless result Memory }
{
    match reason_against(alloc, basis, placement, inferences.as_slice())? {
        None => Ok(true),
        Some(_) => Ok(false),
    }
}

/// Does the team see that the inferences refute the test? Where there are many, one walks above the small subtrees, and
/// all look at these.
fn is_refuted_by<T: Team>(
    alloc: Global,
    basis: &Basis,
    placement: &Placement,
    refutation: &Refutation,
    team: &T,
) -> Result<bool, Fault>
    requires { T.may_hunt }
    ensures ok { IfOk result (λ yes. yes ≡ true
        → IsRefuted basis.now placement.now (map inference_of refutation.now.inferences)) }
    ensures err { IsOkUnless result Memory }
{
    let inferences = &refutation.inferences;
    if team.is_alone() || inferences.len() < FEW_INFERENCES {
        return is_refuted(alloc, basis, placement, inferences);
    }
    let Some(left) = small_subtrees(alloc, basis, placement, inferences, &refutation.sizes)? else {
        return Ok(false);
    };
    Ok(team.check(alloc, &left)?)
}

/// The inferences, where they refute the test.
pub(crate) fn refuted<T: Team>(
    alloc: Global,
    basis: &Basis,
    placement: &Placement,
    refutation: Refutation,
    team: &T,
) -> Result<Sought, Fault>
    requires { T.may_hunt }
    ensures ok { IfOk result (IsSought basis.now placement.now) }
    ensures err { IsOkUnless result Memory }
{
    if is_refuted_by(alloc, basis, placement, &refutation, team)? {
        Ok(Sought::Refuted(refutation.inferences))
    } else {
        Ok(Sought::Nothing)
    }
}

/// The name, which each byte can be part of.
fn named(name: OperationName) -> Option<OperationName>
    ensures { result ≡ in_range name }
{
    Some(name)
}

/// The names, as a witness has them.
fn all_named(
    alloc: Global,
    order: &[OperationName],
) -> Result<Vec<Option<OperationName>>, AllocError>
    ensures { IfOk result (λ names. names.items ≡ map in_range order.now) }
{
    order.iter().map(|name| named(*name)).collect(alloc)
}

/// The execution as a witness.
fn witness_of(alloc: Global, execution: Execution) -> Result<WitnessFile, AllocError>
    ensures { IfOk result
        (λ file. KeepsWitness file (record { choices = execution.choices; order = execution.order })) }
{
    let order = all_named(alloc, execution.order.as_slice())?;
    Ok(WitnessFile {
        choices: execution.choices,
        order: Names::new(order),
    })
}

/// The candidate of the execution, where it is one that shows the outcome.
fn shown(
    alloc: Global,
    basis: &Basis,
    placement: &Placement,
    execution: Execution,
) -> Result<Sought, Fault>
    requires listable { CanBeListed basis.now }
    requires starts { All IsStart basis.now.starts }
    ensures ok { IfOk result (IsSought basis.now placement.now) }
    ensures err { IsOkUnless result Memory }
{
    let test = basis.test();
    let file = witness_of(alloc, execution)?;
    let Some(ordered) = shown_by(alloc, test, placement, &file)? else {
        return Ok(Sought::Nothing);
    };
    match Known::of(alloc, test, ordered)? {
        Some(known) => Ok(Sought::Shown(known)),
        None => Ok(Sought::Nothing),
    }
}

/// What is left of a hunt's finding: the refutation or the execution, where it is one. The cost is that of
/// `reason_against`, which the team shares, or of `shown_by`. The error is F19.
pub(crate) fn checked<T: Team>(
    alloc: Global,
    basis: &Basis,
    placement: &Placement,
    found: Found,
    team: &T,
) -> Result<Sought, Fault>
    requires team { T.may_hunt }
    requires listable { CanBeListed basis.now }
    requires starts { All IsStart basis.now.starts }
    ensures ok { IfOk result (IsSought basis.now placement.now) }
    ensures err { IsOkUnless result Memory }
{
    match found {
        Found::Refuted(refutation) => refuted(alloc, basis, placement, refutation, team),
        Found::Shown(execution) => shown(alloc, basis, placement, execution),
        Found::GaveUp => Ok(Sought::Nothing),
    }
}
