//! The witnesses of a board, each of which a certificate has once.

ghost use Rattle.std.specs.Prelude.{◌≡◌, ◌++◌, IfOk, OnOk, IfSome, IfNone, IsTrue, List, Some, map, slice_get};
ghost use Rattle.fs_model.specs.Witness.{Witness as Defined};
ghost use Rattle.fs_cert_evidence.specs.Evidence.{witness_in};
ghost use Rattle.fs_cert.specs.Certified.{AreDistinct};
ghost use Rattle.fs_cert.specs.inner.Copies.{AreCopiedWitnesses, HasNoCopy, IsCopiedWitness, StandsAt, IsNumbering};

use crate::copied::witness_of;
use fs_cert_evidence::{ChoiceLists, Witness, WitnessFile};
use fs_kinds::{List, OperationName};
use std::alloc::{AllocError, Global};
use std::sync::Arc;

/// Witnesses as a certificate has them, and numbers in their list.
#[derive(Drop)]
pub(crate) struct Numbering {
    pub(crate) files: Vec<WitnessFile>,
    pub(crate) numbers: Vec<u64>,
}

/// Are both the same choices?
fn are_same(choices: &ChoiceLists, other: &ChoiceLists) -> bool
    ensures yes { IsTrue result → choices.now ≡ other.now }
    ensures no { choices.now ≡ other.now → IsTrue result }
{
    choices == other
}

/// Are these the names of the operations? It calls itself once for each of them.
fn are_names(names: &[Option<OperationName>], operations: &[OperationName]) -> bool
    ensures yes { IsTrue result → names.now ≡ map (λ operation. Some operation) operations.now }
    ensures no { names.now ≡ map (λ operation. Some operation) operations.now → IsTrue result }
{
    let [name, names @ ..] = names else {
        return operations.is_empty();
    };
    let [operation, operations @ ..] = operations else {
        return false;
    };
    *name == Some(*operation) && are_names(names, operations)
}

/// Does the file say these choices and this order?
fn says(file: &WitnessFile, choices: &ChoiceLists, order: &List<OperationName>) -> bool
    ensures choices { IsTrue result → file.now.choices ≡ choices.now }
    ensures order { IsTrue result → file.now.order ≡ map (λ operation. Some operation) order.now }
    ensures no { file.now.choices ≡ choices.now → file.now.order ≡ map (λ operation. Some operation) order.now
        → IsTrue result }
{
    are_same(&file.choices, choices) && are_names(file.order.as_slice(), order.as_slice())
}

/// Is the file a copy of the witness?
fn is_of(file: &WitnessFile, witness: &Witness) -> bool
    ensures yes { (w : Defined) → IsTrue result → IsCopiedWitness file.now w → w ≡ witness.now.witness }
    ensures no { IsCopiedWitness file.now witness.now.witness → IsTrue result }
{
    says(file, &witness.choices, &witness.order)
}

/// The number of the witness among these, where it is there.
fn number_of(files: &[WitnessFile], witness: &Witness) -> Option<usize>
    ensures some { IfSome result (λ n. (ws : List Defined) → AreCopiedWitnesses files.now ws → slice_get ws n
        ≡ Some witness.now.witness) }
    ensures none { IfNone result (HasNoCopy files.now witness.now.witness) }
{
    for (number, file) in files.iter().enumerate() {
        if is_of(file, witness) {
            return Some(number);
        }
    }
    None
}

/// The number of the witness among these, to which it is added where it isn't there.
fn add(alloc: Global, files: &mut Vec<WitnessFile>, witness: &Witness) -> Result<u64, AllocError>
    ensures once { OnOk result (AreDistinct files.old.items → AreDistinct files.new.items) }
    ensures number { IfOk result (λ n. (ws : List Defined) → AreCopiedWitnesses files.old.items ws
        → (more : List Defined) × AreCopiedWitnesses files.new.items (ws ++ more) × StandsAt (ws ++
        more) witness.now.witness n) }
{
    if let Some(number) = number_of(files, witness) {
        return Ok(number as u64);
    }
    let number = files.len();
    files.push(witness_of(alloc, witness)?)?;
    Ok(number as u64)
}

/// The witnesses, each once, in the order in which they come first, and the number of each. It takes time of the
/// witnesses times the different ones among them.
pub(crate) fn number_all(alloc: Global, witnesses: &[Arc<Witness>]) -> Result<Numbering, AllocError>
    ensures numbers { IfOk result (λ n. IsNumbering n.files.items n.numbers.items (map witness_in witnesses.now)) }
    ensures once { IfOk result (λ n. AreDistinct n.files.items) }
{
    let mut files = Vec::new(alloc);
    let mut numbers = Vec::new(alloc);
    for witness in witnesses {
        numbers.push(add(alloc, &mut files, witness)?)?;
    }
    Ok(Numbering { files, numbers })
}
