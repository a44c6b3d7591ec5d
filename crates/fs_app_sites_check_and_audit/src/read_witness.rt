//! A witness of a certificate over sites, read.

ghost use Rattle.std.specs.Prelude.{◌≡◌, IfOk, IfErr, IsErrOf, MatchOption};
ghost use Rattle.serde_json.specs.Data.{Data};
ghost use Rattle.serde_json.specs.View.{view};
ghost use Rattle.fs_model.specs.Witness.{Witness};
ghost use Rattle.fs_cert_evidence.specs.WitnessFile.{IsWitnessValue, KeepsWitness};
ghost use Rattle.fs_cert_json.specs.Kept.{IsCertificateFault};
ghost use Rattle.fs_cert_json.specs.inner.Written.{witness_object};
ghost use Rattle.fs_app_sites_check_and_audit.specs.Kept.{KeepsTestWitness};
ghost use Rattle.fs_app_sites_check_and_audit.specs.SitesFile.{HasParts, IsTestWitness, SayWitness, TestWitness};

use crate::values::{key_count, number_in};
use fs_cert_evidence::{WitnessFile, witness_of};
use fs_kinds::Fault;
use fs_sites_check::SitesWitness;
use serde_json::{Value, json};
use std::alloc::{AllocError, Global};

/// The values at the keys of a witness.
#[derive(Clone, Copy)]
struct Parts<'a> {
    choices: &'a Value,
    order: &'a Value,
    test: &'a Value,
}

/// The values at the three keys, where the value is an object with these and no further one.
fn parts_of(value: &Value) -> Option<Parts<'_>>
    ensures { MatchOption result ((l n t : Data) → ¬ HasParts (view value.now) l n t)
        (λ p. HasParts (view value.now) (view p.choices.now) (view p.order.now) (view p.test.now)) }
{
    if key_count(value) != Some(3) {
        return None;
    }
    Some(Parts {
        choices: value.get("choices")?,
        order: value.get("order")?,
        test: value.get("test")?,
    })
}

/// An object of these choices and this order, as in a witness file.
fn pair_of(alloc: Global, choices: &Value, order: &Value) -> Result<Value, AllocError>
    ensures { IfOk result (λ value. view value ≡ witness_object (view choices.now) (view order.now)) }
{
    let choices = choices.clone()?;
    let order = order.clone()?;
    json!(in alloc; {"choices": choices, "order": order})
}

/// The certificate's fault for one of a witness's.
fn certificate_fault(fault: Fault) -> Fault
    ensures bad { fault ≡ Fault.BadWitness → result ≡ Fault.BadCertificate }
    ensures memory { fault ≡ Fault.Memory → result ≡ Fault.Memory }
{
    match fault {
        Fault::Memory => Fault::Memory,
        _ => Fault::BadCertificate,
    }
}

/// The witness that the value says, as in a witness file.
fn witness_in(alloc: Global, value: &Value) -> Result<WitnessFile, Fault>
    ensures ok { IfOk result (λ kept. (w : Witness) × IsWitnessValue (view value.now) w × KeepsWitness kept w) }
    ensures bad { IsErrOf result Fault.BadCertificate → (w : Witness) → ¬ IsWitnessValue (view value.now) w }
    ensures err { IfErr result IsCertificateFault }
{
    match witness_of(alloc, value) {
        Ok(witness) => Ok(witness),
        Err(fault) => Err(certificate_fault(fault)),
    }
}

/// The witness that values of choices and of an order say.
fn read_pair(alloc: Global, choices: &Value, order: &Value) -> Result<WitnessFile, Fault>
    ensures ok { IfOk result (λ kept. (w : Witness) × SayWitness (view choices.now) (view order.now) w
        × KeepsWitness kept w) }
    ensures bad { IsErrOf result Fault.BadCertificate → (w : Witness)
        → ¬ SayWitness (view choices.now) (view order.now) w }
    ensures err { IfErr result IsCertificateFault }
{
    let pair = pair_of(alloc, choices, order)?;
    witness_in(alloc, &pair)
}

/// The witness that the value says, with the number of its test.
pub(crate) fn read_witness(alloc: Global, value: &Value) -> Result<SitesWitness, Fault>
    ensures ok { IfOk result (λ kept. (w : TestWitness) × IsTestWitness (view value.now) w × KeepsTestWitness kept w) }
    ensures bad { IsErrOf result Fault.BadCertificate → (w : TestWitness) → ¬ IsTestWitness (view value.now) w }
    ensures err { IfErr result IsCertificateFault }
{
    let Some(parts) = parts_of(value) else {
        return Err(Fault::BadCertificate);
    };
    let Some(test) = number_in(parts.test) else {
        return Err(Fault::BadCertificate);
    };
    let file = read_pair(alloc, parts.choices, parts.order)?;
    Ok(SitesWitness {
        test: test as usize,
        file,
    })
}
