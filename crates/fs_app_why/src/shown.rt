//! The execution of a witness, and one with the same sources that keeps more of program order.

ghost use Rattle.std.specs.Prelude.{◌≡◌, All, map, IfOk, IfSome, IfNone, IsOkUnless};
ghost use Rattle.fs_kinds.specs.declared.fault.Fault.TheVariants.{Memory};
ghost use Rattle.fs_model.specs.Test.{IsBounded, IsStart};
ghost use Rattle.fs_model.specs.Witness.{Witness};
ghost use Rattle.fs_model_axioms.specs.Final.{AreFinal};
ghost use Rattle.fs_cert_evidence.specs.Shown.{IsShownBy, ShowsAs};
ghost use Rattle.fs_cert_evidence.specs.WitnessFile.{KeepsWitness, in_range};
ghost use Rattle.fs_check.specs.Ordered.{IsOrdered, execution_in};
ghost use Rattle.fs_app_why.specs.Reordered.{IsToldOf};

use crate::alike::is_alike;
use crate::relation::nearer_order;
use fs_cert_evidence::{ChoiceLists, Choices, Names, WitnessFile};
use fs_check::{OrderedCandidate, shown_by};
use fs_kinds::{Fault, OperationName, Placement, Slot};
use fs_model::Test;
use std::alloc::{AllocError, Global};

/// The same choices.
fn copied(alloc: Global, lists: &[Choices]) -> Result<ChoiceLists, AllocError>
    ensures { IfOk result (λ made. made ≡ lists.now) }
{
    let mut made = Vec::new(alloc);
    for choices in lists {
        made.push(Choices::new(Vec::from_slice(alloc, choices.as_slice())?))?;
    }
    Ok(ChoiceLists::new(made))
}

/// The name, which each byte can be part of.
fn named(name: OperationName) -> Option<OperationName>
    ensures { result ≡ in_range name }
{
    Some(name)
}

/// The names, as a witness file has them.
fn all_named(
    alloc: Global,
    order: &[OperationName],
) -> Result<Vec<Option<OperationName>>, AllocError>
    ensures { IfOk result (λ names. names.items ≡ map in_range order.now) }
{
    order.iter().map(|name| named(*name)).collect(alloc)
}

/// The witness of these choices and this order, as a file has it.
pub fn file_of(
    alloc: Global,
    choices: &[Choices],
    order: &[OperationName],
) -> Result<WitnessFile, AllocError>
    ensures choices { IfOk result (λ file. file.choices ≡ choices.now) }
    ensures order { IfOk result (λ file. file.order ≡ map in_range order.now) }
{
    let choices = copied(alloc, choices)?;
    let order = Names::new(all_named(alloc, order)?);
    Ok(WitnessFile { choices, order })
}

/// The execution that these choices and this order give, if it shows the outcome with these fences.
fn shown_in(
    alloc: Global,
    test: &Test,
    placement: &Placement,
    choices: &[Choices],
    order: &[OperationName],
) -> Result<Option<OrderedCandidate>, Fault>
    requires test { IsBounded test.now }
    requires starts { All IsStart test.now.starts }
    ensures ordered { IfOk result (λ found. IfSome found (IsOrdered test.now)) }
    ensures last { IfOk result (λ found. IfSome found (λ o. AreFinal test.now o.candidate.traces)) }
    ensures some { (w : Witness) → w.choices ≡ choices.now → w.order ≡ order.now → IfOk result (λ found.
        IfSome found (λ o. ShowsAs test.now placement.now w (execution_in o))) }
    ensures err { IsOkUnless result Memory }
{
    let file = file_of(alloc, choices, order)?;
    shown_by(alloc, test, placement, &file)
}

/// The same, where it also has the sources and coherence orders of the other one.
fn reordered(
    alloc: Global,
    test: &Test,
    placement: &Placement,
    choices: &[Choices],
    order: &[OperationName],
    found: &OrderedCandidate,
) -> Result<Option<OrderedCandidate>, Fault>
    requires test { IsBounded test.now }
    requires starts { All IsStart test.now.starts }
    requires found { IsOrdered test.now found.now }
    ensures ordered { IfOk result (λ other. IfSome other (IsOrdered test.now)) }
    ensures last { IfOk result (λ other. IfSome other (λ o. AreFinal test.now o.candidate.traces)) }
    ensures some { (w : Witness) → w.choices ≡ choices.now → ShowsAs test.now placement.now w (execution_in found.now)
        → IfOk result (λ other. IfSome other (λ o. IsToldOf test.now placement.now w (execution_in o))) }
    ensures err { IsOkUnless result Memory }
{
    let Some(other) = shown_in(alloc, test, placement, choices, order)? else {
        return Ok(None);
    };
    let same = is_alike(alloc, test, found, &other)?;
    if same { Ok(Some(other)) } else { Ok(None) }
}

/// An execution that shows the outcome with these fences: with the choices, sources and coherence orders of the one
/// that the witness gives, and with more of program order where that can be kept. What a fence in the slot would order
/// is given up before all else. None where the witness gives no such execution. The cost is that of `nearer_order`, and
/// twice that of `shown_by`. The error is F19.
pub fn nearer(
    alloc: Global,
    test: &Test,
    placement: &Placement,
    slot: Option<Slot>,
    file: &WitnessFile,
) -> Result<Option<OrderedCandidate>, Fault>
    requires test { IsBounded test.now }
    requires starts { All IsStart test.now.starts }
    ensures ordered { IfOk result (λ found. IfSome found (IsOrdered test.now)) }
    ensures last { IfOk result (λ found. IfSome found (λ o. AreFinal test.now o.candidate.traces)) }
    ensures some { (w : Witness) → KeepsWitness file.now w → IfOk result (λ found.
        IfSome found (λ o. IsToldOf test.now placement.now w (execution_in o))) }
    ensures none { (w : Witness) → KeepsWitness file.now w → IfOk result (λ found.
        IfNone found (IsShownBy test.now placement.now w → ⊥)) }
    ensures err { IsOkUnless result Memory }
{
    let Some(found) = shown_by(alloc, test, placement, file)? else {
        return Ok(None);
    };
    let order = nearer_order(alloc, placement, slot, &found)?;
    match reordered(
        alloc,
        test,
        placement,
        file.choices.as_slice(),
        &order,
        &found,
    )? {
        Some(nearer) => Ok(Some(nearer)),
        None => Ok(Some(found)),
    }
}
