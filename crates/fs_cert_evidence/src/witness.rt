//! Witness files.

ghost use Rattle.std.specs.Prelude.{◌≡◌, ℕ, List, IfOk, IfErr, IsErrOf, Some, None, map, option_map};
ghost use Rattle.std.specs.Str.{IsUtf8};
ghost use Rattle.serde_json.specs.Events.{members_len};
ghost use Rattle.serde_json.specs.Find.{as_object};
ghost use Rattle.serde_json.specs.Read.{read};
ghost use Rattle.fs_kinds.specs.PriceObject.{whole};
ghost use Rattle.serde_json.specs.View.{view};
ghost use Rattle.fs_kinds.specs.declared.reason.OperationName.{OperationName};
ghost use Rattle.fs_model.specs.declared.step.Choice.{Choice};
ghost use Rattle.fs_model.specs.Witness.{Witness};
ghost use Rattle.fs_cert_evidence.specs.WitnessFile.{IsWitnessFile, IsWitnessValue, KeepsWitness, IsWitnessFault};
ghost use Rattle.fs_cert_evidence.specs.WitnessFile.{IsArrayOf, IsChoice, IsName, choice_in, in_range, most_word};

use crate::lists::{ChoiceLists, Choices, Names};
use crate::name::read_name;
use fs_kinds::{Fault, OperationName};
use fs_model::Choice;
use serde_json::Value;
use std::alloc::Global;

/// What a witness file says of an execution.
#[derive(Drop)]
pub struct WitnessFile {
    /// The choices of each hart.
    pub choices: ChoiceLists,
    /// The operations in their order, without the initial stores.
    pub order: Names,
}

/// Reads a witness for a test with so many harts from the bytes of a JSON object with two members. `choices` has a list
/// for each hart: a number from 0 to 4294967295 is a loaded word, and true and false are the success and the failure of
/// an sc.w. `order` has the operations' names, as `P0:2` for instruction 2 of hart 0. F17 where the bytes aren't such
/// an object, F19. Where a key comes twice, its last value counts.
pub fn read_witness(alloc: Global, harts: usize, bytes: &[u8]) -> Result<WitnessFile, Fault>
    ensures ok { IfOk result (λ file. (w : Witness) × IsWitnessFile harts bytes.now w × KeepsWitness file w) }
    ensures bad { IsErrOf result Fault.BadWitness → (w : Witness) → ¬ IsWitnessFile harts bytes.now w }
    ensures err { IfErr result IsWitnessFault }
{
    let value = read_json(alloc, bytes)?;
    let file = witness_of(alloc, &value)?;
    if file.choices.as_slice().len() != harts {
        return Err(Fault::BadWitness);
    }
    Ok(file)
}

/// The value that the bytes are the JSON text of.
fn read_json(alloc: Global, bytes: &[u8]) -> Result<Value, Fault>
    ensures ok { IfOk result (λ value. IsUtf8 bytes.now × (read bytes.now ≡ Some (view value))) }
    ensures bad { IsErrOf result Fault.BadWitness → IsUtf8 bytes.now → read bytes.now ≡ None }
    ensures err { IfErr result IsWitnessFault }
{
    match Value::from_slice(alloc, bytes) {
        Ok(value) => Ok(value),
        Err(error) if error.is_memory() => Err(Fault::Memory),
        Err(_) => Err(Fault::BadWitness),
    }
}

/// The witness that the JSON value says, with choices for any number of harts. F17 where the value isn't an object as
/// in a witness file, F19.
pub fn witness_of(alloc: Global, value: &Value) -> Result<WitnessFile, Fault>
    ensures ok { IfOk result (λ file. (w : Witness) × IsWitnessValue (view value.now) w × KeepsWitness file w) }
    ensures bad { IsErrOf result Fault.BadWitness → (w : Witness) → ¬ IsWitnessValue (view value.now) w }
    ensures err { IfErr result IsWitnessFault }
{
    if key_count(value) != Some(2) {
        return Err(Fault::BadWitness);
    }
    let Some(choices) = value.get("choices") else {
        return Err(Fault::BadWitness);
    };
    let Some(order) = value.get("order") else {
        return Err(Fault::BadWitness);
    };
    Ok(WitnessFile {
        choices: read_choice_lists(alloc, choices)?,
        order: read_order(alloc, order)?,
    })
}

/// How many keys the value has, where it is an object.
#[tactic(auto, using(crate::proofs::Items::keys_view))]
fn key_count(value: &Value) -> Option<usize>
    ensures { result ≡ option_map members_len (as_object (view value.now)) }
{
    Some(value.as_object()?.len())
}

/// The lists of choices that the value says.
fn read_choice_lists(alloc: Global, value: &Value) -> Result<ChoiceLists, Fault>
    ensures ok { IfOk result (λ lists. IsArrayOf (IsArrayOf IsChoice) (view value.now) lists) }
    ensures bad { IsErrOf result Fault.BadWitness → (lists : List (List Choice))
        → ¬ IsArrayOf (IsArrayOf IsChoice) (view value.now) lists }
    ensures err { IfErr result IsWitnessFault }
{
    let Some(items) = value.as_array() else {
        return Err(Fault::BadWitness);
    };
    let mut lists = Vec::new(alloc);
    for item in items {
        lists.push(read_choices(alloc, item)?)?;
    }
    Ok(ChoiceLists::new(lists))
}

/// The choices of one hart that the value says.
fn read_choices(alloc: Global, value: &Value) -> Result<Choices, Fault>
    ensures ok { IfOk result (λ choices. IsArrayOf IsChoice (view value.now) choices) }
    ensures bad { IsErrOf result Fault.BadWitness → (choices : List Choice)
        → ¬ IsArrayOf IsChoice (view value.now) choices }
    ensures err { IfErr result IsWitnessFault }
{
    let Some(items) = value.as_array() else {
        return Err(Fault::BadWitness);
    };
    let mut choices = Vec::new(alloc);
    for item in items {
        let Some(choice) = choice_in(item) else {
            return Err(Fault::BadWitness);
        };
        choices.push(choice)?;
    }
    Ok(Choices::new(choices))
}

/// The choice that the value says.
fn choice_in(value: &Value) -> Option<Choice>
    ensures { result ≡ choice_in (view value.now) }
{
    match value.as_bool() {
        Some(true) => Some(Choice::Success),
        Some(false) => Some(Choice::Failure),
        None => word_in(value).map(Choice::Word),
    }
}

/// The word that the value says as a whole number.
fn word_in(value: &Value) -> Option<u32>
    ensures { result ≡ whole 0 most_word (view value.now) }
{
    u32::try_from(value.as_u64()?).ok()
}

/// The operations that the value names.
fn read_order(alloc: Global, value: &Value) -> Result<Names, Fault>
    ensures ok { IfOk result (λ order. (names : List OperationName) × IsArrayOf IsName (view value.now) names
        × (order ≡ map in_range names)) }
    ensures bad { IsErrOf result Fault.BadWitness → (names : List OperationName)
        → ¬ IsArrayOf IsName (view value.now) names }
    ensures err { IfErr result IsWitnessFault }
{
    let Some(items) = value.as_array() else {
        return Err(Fault::BadWitness);
    };
    let mut names = Vec::new(alloc);
    for item in items {
        let Some(text) = item.as_str() else {
            return Err(Fault::BadWitness);
        };
        names.push(read_name(text)?)?;
    }
    Ok(Names::new(names))
}
