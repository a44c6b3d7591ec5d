//! Witnesses as a certificate has them.

ghost use Rattle.std.specs.Prelude.{IfOk};
ghost use Rattle.std.specs.List.{AllZip};
ghost use Rattle.fs_cert.specs.inner.Copies.{IsCopiedChoice, AreCopiedChoices, IsCopiedName, IsCopiedWitness};

use fs_cert_evidence::{ChoiceLists, Choices, Names, Witness, WitnessFile};
use fs_kinds::{List, OperationName};
use fs_model::Choice;
use std::alloc::{AllocError, Global};

/// The choice, as it is.
fn choice_of(choice: Choice) -> Choice
    ensures { IsCopiedChoice result choice }
{
    choice
}

/// The choices of one hart.
fn choices_of(alloc: Global, choices: &[Choice]) -> Result<Choices, AllocError>
    ensures { IfOk result (λ copy. AreCopiedChoices copy choices.now) }
{
    let mut copy = Vec::new(alloc);
    for choice in choices {
        copy.push(choice_of(*choice))?;
    }
    Ok(Choices::new(copy))
}

/// The choices of each hart.
fn lists_of(alloc: Global, lists: &[Choices]) -> Result<ChoiceLists, AllocError>
    ensures { IfOk result (λ copy. AllZip AreCopiedChoices copy lists.now) }
{
    let mut copy = Vec::new(alloc);
    for choices in lists {
        copy.push(choices_of(alloc, choices.as_slice())?)?;
    }
    Ok(ChoiceLists::new(copy))
}

/// The operation's name, which is there.
pub(crate) fn name_of(name: OperationName) -> Option<OperationName>
    ensures { IsCopiedName result name }
{
    Some(name)
}

/// The operations' names.
fn names_of(alloc: Global, names: &[OperationName]) -> Result<Names, AllocError>
    ensures { IfOk result (λ copy. AllZip IsCopiedName copy names.now) }
{
    let mut copy = Vec::new(alloc);
    for name in names {
        copy.push(name_of(*name))?;
    }
    Ok(Names::new(copy))
}

/// What a file says of these choices and this order.
fn file_of(
    alloc: Global,
    choices: &ChoiceLists,
    order: &List<OperationName>,
) -> Result<WitnessFile, AllocError>
    ensures choices { IfOk result (λ file. AllZip AreCopiedChoices file.choices choices.now) }
    ensures order { IfOk result (λ file. AllZip IsCopiedName file.order order.now) }
{
    let choices = lists_of(alloc, choices.as_slice())?;
    let order = names_of(alloc, order.as_slice())?;
    Ok(WitnessFile { choices, order })
}

/// What a file says of the witness: its choices and its order.
pub(crate) fn witness_of(alloc: Global, witness: &Witness) -> Result<WitnessFile, AllocError>
    ensures { IfOk result (λ file. IsCopiedWitness file witness.now.witness) }
{
    file_of(alloc, &witness.choices, &witness.order)
}
