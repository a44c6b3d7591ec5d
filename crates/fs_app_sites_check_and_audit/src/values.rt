//! What a JSON value is.

ghost use Rattle.std.specs.Prelude.{◌≡◌, IfOk, IfErr, IsErrOf, Some, None, option_map};
ghost use Rattle.std.specs.Bool.{Decides};
ghost use Rattle.std.specs.Str.{IsUtf8};
ghost use Rattle.serde_json.specs.Data.{no_items};
ghost use Rattle.serde_json.specs.Events.{members_len};
ghost use Rattle.serde_json.specs.Find.{as_array, as_object};
ghost use Rattle.serde_json.specs.Read.{read};
ghost use Rattle.serde_json.specs.View.{view};
ghost use Rattle.fs_kinds.specs.PriceObject.{whole};
ghost use Rattle.fs_cert_evidence.specs.CertificateFile.{IsNumber, most_number};
ghost use Rattle.fs_cert_json.specs.Kept.{IsCertificateFault};

use fs_kinds::Fault;
use serde_json::Value;
use std::alloc::Global;

/// The value that the bytes are the JSON text of.
pub(crate) fn read_json(alloc: Global, bytes: &[u8]) -> Result<Value, Fault>
    ensures ok { IfOk result (λ value. IsUtf8 bytes.now × (read bytes.now ≡ Some (view value))) }
    ensures bad { IsErrOf result Fault.BadCertificate → IsUtf8 bytes.now → read bytes.now ≡ None }
    ensures err { IfErr result IsCertificateFault }
{
    match Value::from_slice(alloc, bytes) {
        Ok(value) => Ok(value),
        Err(error) if error.is_memory() => Err(Fault::Memory),
        Err(_) => Err(Fault::BadCertificate),
    }
}

/// How many keys the value has, where it is an object.
#[tactic(auto, using(fs_cert_evidence::proofs::Items::keys_view))]
pub(crate) fn key_count(value: &Value) -> Option<usize>
    ensures { result ≡ option_map members_len (as_object (view value.now)) }
{
    Some(value.as_object()?.len())
}

/// The whole number of 64 bits that the value is.
pub(crate) fn number_in(value: &Value) -> Option<u64>
    ensures { result ≡ whole 0 most_number (view value.now) }
{
    value.as_u64()
}

/// Is the value the number of the version?
pub(crate) fn is_fifth(value: &Value) -> bool
    ensures { Decides result (IsNumber (view value.now) 5) }
{
    number_in(value) == Some(5)
}

/// Is the value an array of nothing?
pub(crate) fn is_empty(value: &Value) -> bool
    ensures { Decides result (as_array (view value.now) ≡ Some no_items) }
{
    match value.as_array() {
        Some(items) => items.is_empty(),
        None => false,
    }
}
