//! The tree of a certificate, read.

ghost use Rattle.std.specs.Prelude.{◌≡◌, ℕ, List, IfOk, IfErr, IsErrOf, MatchOption, map};
ghost use Rattle.serde_json.specs.View.{view};
ghost use Rattle.fs_cert_evidence.specs.Certificate as said;
ghost use Rattle.fs_cert_evidence.specs.CertificateFile.{IsItem, IsNumber, version_number};
ghost use Rattle.fs_cert_evidence.specs.WitnessFile.{IsArrayOf};
ghost use Rattle.fs_cert_json.specs.Kept.{IsCertificateFault, item_of, version_of};
ghost use Rattle.fs_cert_json.specs.inner.Leaves.{IsLeaf};

use crate::certificate::{Item, Version};
use crate::json_values::{is_text, number_in, pair_in};
use fs_kinds::{Fault, List};
use serde_json::Value;
use std::alloc::Global;

/// The version that the value says.
pub(crate) fn version_in(value: &Value) -> Option<Version>
    ensures { MatchOption result ((version : said.Version) → ¬ IsNumber (view value.now) (version_number version))
        (λ version. IsNumber (view value.now) (version_number (version_of version))) }
{
    match number_in(value)? {
        1 => Some(Version::First),
        2 => Some(Version::Second),
        4 => Some(Version::Fourth),
        _ => None,
    }
}

/// The items that the value says, in a certificate of this version.
pub(crate) fn read_tree(alloc: Global, version: Version, value: &Value) -> Result<List<Item>, Fault>
    ensures ok { IfOk result (λ tree. IsArrayOf (IsItem (version_of version)) (view value.now) (map item_of tree)) }
    ensures bad { IsErrOf result Fault.BadCertificate → (tree : List said.Item)
        → ¬ IsArrayOf (IsItem (version_of version)) (view value.now) tree }
    ensures err { IfErr result IsCertificateFault }
{
    let Some(items) = value.as_array() else {
        return Err(Fault::BadCertificate);
    };
    let mut tree = Vec::new(alloc);
    for item in items {
        tree.push(read_item(alloc, version, item)?)?;
    }
    Ok(List::new(tree))
}

/// The item that the value says.
fn read_item(alloc: Global, version: Version, value: &Value) -> Result<Item, Fault>
    ensures ok { IfOk result (λ item. IsItem (version_of version) (view value.now) (item_of item)) }
    ensures bad { IsErrOf result Fault.BadCertificate → (item : said.Item)
        → ¬ IsItem (version_of version) (view value.now) item }
    ensures err { IfErr result IsCertificateFault }
{
    if let Some(slot) = number_in(value) {
        return Ok(Item::SplitAt(slot));
    }
    if is_text(value, "c") {
        return Ok(Item::Costly);
    }
    match pair_in(value) {
        Some((letter, argument)) => read_leaf(alloc, version, letter, argument),
        None => Err(Fault::BadCertificate),
    }
}

/// The leaf that a letter and its argument say.
fn read_leaf(
    alloc: Global,
    version: Version,
    letter: &Value,
    argument: &Value,
) -> Result<Item, Fault>
    ensures ok { IfOk result
        (λ item. IsLeaf (version_of version) (view letter.now) (view argument.now) (item_of item)) }
    ensures bad { IsErrOf result Fault.BadCertificate → (item : said.Item)
        → ¬ IsLeaf (version_of version) (view letter.now) (view argument.now) item }
    ensures err { IfErr result IsCertificateFault }
{
    if is_text(letter, "w") {
        return match number_in(argument) {
            Some(witness) => Ok(Item::Refuted(witness)),
            None => Err(Fault::BadCertificate),
        };
    }
    if version == Version::First || !is_text(letter, "b") {
        return Err(Fault::BadCertificate);
    }
    let witnesses = read_numbers(alloc, argument)?;
    if witnesses.is_empty() {
        return Err(Fault::BadCertificate);
    }
    Ok(Item::Bounded(witnesses))
}

/// The numbers that the value says.
fn read_numbers(alloc: Global, value: &Value) -> Result<List<u64>, Fault>
    ensures ok { IfOk result (λ numbers. IsArrayOf IsNumber (view value.now) numbers) }
    ensures bad { IsErrOf result Fault.BadCertificate → (numbers : List ℕ)
        → ¬ IsArrayOf IsNumber (view value.now) numbers }
    ensures err { IfErr result IsCertificateFault }
{
    let Some(items) = value.as_array() else {
        return Err(Fault::BadCertificate);
    };
    let mut numbers = Vec::new(alloc);
    for item in items {
        let Some(number) = number_in(item) else {
            return Err(Fault::BadCertificate);
        };
        numbers.push(number)?;
    }
    Ok(List::new(numbers))
}
