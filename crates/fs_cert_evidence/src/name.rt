//! Names of operations in a witness file.

ghost use Rattle.std.specs.Prelude.{◌≡◌, IfOk, OnErr, IsOkUnless};
ghost use Rattle.fs_kinds.specs.declared.reason.OperationName.{OperationName};
ghost use Rattle.fs_kinds.specs.PlaceNames.{IsOperationName, byte_of};
ghost use Rattle.fs_cert_evidence.specs.WitnessFile.{in_range};

use fs_kinds::{Fault, OperationName, read_place};

/// The operation of this name: `P`, the hart's number, `:`, the instruction's number, both in decimal without leading
/// zeros and of any length. It is none where a number passes 255, since no operation has such a name. F17 where the
/// text is no name.
pub fn read_name(text: &str) -> Result<Option<OperationName>, Fault>
    ensures ok { IfOk result (λ found. (name : OperationName) × IsOperationName text.now name
        × (found ≡ in_range name)) }
    ensures bad { OnErr result ((name : OperationName) → ¬ IsOperationName text.now name) }
    ensures err { IsOkUnless result Fault.BadWitness }
{
    match read_place(text) {
        Some((hart, at)) => Ok(operation(hart, at)),
        None => Err(Fault::BadWitness),
    }
}

/// The operation with both numbers, where there are both.
fn operation(hart: Option<u8>, at: Option<u8>) -> Option<OperationName>
    ensures { (name : OperationName) → hart ≡ byte_of name.hart → at ≡ byte_of name.at → result ≡ in_range name }
{
    Some(OperationName {
        hart: hart?,
        at: at?,
    })
}
