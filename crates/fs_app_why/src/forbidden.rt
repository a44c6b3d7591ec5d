//! The contradictions of a certificate: why its fences rule the outcome out.

ghost use Rattle.std.specs.Prelude.{◌≡◌, ◌≢◌, map, IfOk, IfErr, string_bytes};
ghost use Rattle.std.specs.Arc.{arc_value};
ghost use Rattle.fs_instr.specs.Writing.{instr_text};
ghost use Rattle.fs_kinds.specs.declared.fault.Fault.TheVariants.{Memory};
ghost use Rattle.fs_model.specs.Test.{IsTest};
ghost use Rattle.fs_model.specs.TooMany.{IsRunFault};
ghost use Rattle.fs_cert_evidence.specs.Certificate.{Cycles, Inferred};
ghost use Rattle.fs_cert_evidence.specs.Inferences.{inference_of};
ghost use Rattle.fs_cert_json.specs.Kept.{KeepsCycles};
ghost use Rattle.fs_app_why.specs.Forbidden.{AreKinds, cycles_text};

use crate::contradictions::contradictions_text;
use crate::instruction_words::instr_text;
use crate::kinds::{ChainKind, kinds_of};
use crate::telling::Telling;
use crate::walk::chains;
use fs_cert_evidence::Inference;
use fs_cert_json::CertifiedCycles;
use fs_instr::Instr;
use fs_kinds::{Fault, List, Placement};
use fs_litmus::Test;
use fs_model::{Code, Name};
use fs_region_refutation::Basis;
use std::alloc::{AllocError, Global};
use std::sync::Arc;

fn text_of(alloc: Global, instr: Instr) -> Result<Name, AllocError>
    ensures { IfOk result (λ text. text ≡ instr_text instr) }
{
    Ok(Name::new(instr_text(alloc, instr)?))
}

fn texts_of_code(alloc: Global, code: &[Instr]) -> Result<List<Name>, AllocError>
    ensures { IfOk result (λ texts. texts ≡ map instr_text code.now) }
{
    let mut texts = Vec::new(alloc);
    for instr in code {
        texts.push(text_of(alloc, *instr)?)?;
    }
    Ok(List::new(texts))
}

/// The instructions in print, hart by hart.
fn texts_of(alloc: Global, codes: &[Code]) -> Result<Vec<List<Name>>, AllocError>
    ensures { IfOk result (λ texts. texts.items ≡ map (map instr_text) codes.now) }
{
    let mut texts = Vec::new(alloc);
    for code in codes {
        texts.push(texts_of_code(alloc, code.as_slice())?)?;
    }
    Ok(texts)
}

/// The kinds of the ends to which the inferences come, in the order in which they are told. The cost is that of
/// `chains` and `kinds_of` of fs_app_why; the faults are those of `Basis::new`.
pub fn inferred_kinds(
    alloc: Global,
    test: &Arc<Test>,
    placement: &Placement,
    inferences: &[Inference],
) -> Result<Vec<ChainKind>, Fault>
    requires { IsTest (arc_value test.now) }
    ensures ok { IfOk result (λ kinds. AreKinds (arc_value test.now) placement.now
        (Inferred (map inference_of inferences.now)) kinds.items) }
    ensures err { IfErr result (λ f. f ≢ Memory → IsRunFault (arc_value test.now) f) }
{
    let basis = Basis::new(alloc, test)?;
    let chains = chains(alloc, &basis, placement, inferences)?;
    let texts = texts_of(alloc, test.codes.as_slice())?;
    let kinds = kinds_of(alloc, &texts, chains)?;
    Ok(kinds)
}

/// The same of a certificate's inferences; of a list of cycles there are none.
pub(crate) fn kinds_by(
    alloc: Global,
    test: &Arc<Test>,
    placement: &Placement,
    cycles: &CertifiedCycles,
) -> Result<Vec<ChainKind>, Fault>
    requires { IsTest (arc_value test.now) }
    ensures ok { (said : Cycles) → KeepsCycles cycles.now said
        → IfOk result (λ kinds. AreKinds (arc_value test.now) placement.now said kinds.items) }
    ensures err { IfErr result (λ f. f ≢ Memory → IsRunFault (arc_value test.now) f) }
{
    match cycles {
        CertifiedCycles::Listed(_) => Ok(Vec::new(alloc)),
        CertifiedCycles::Inferred(inferences) => {
            inferred_kinds(alloc, test, placement, inferences.as_slice())
        }
    }
}

/// The kinds in print, in which each chain is one of operations with what all runs that are left there agree on; of a
/// list of cycles nothing. The cost is that of `contradictions_text`.
pub(crate) fn cycles_text(
    alloc: Global,
    test: &Test,
    lines: &[List<usize>],
    telling: Telling,
    cycles: &CertifiedCycles,
    kinds: &[ChainKind],
) -> Result<String, AllocError>
    requires { IsTest test.now }
    ensures { (said : Cycles) → KeepsCycles cycles.now said
        → IfOk result (λ text. string_bytes text ≡ cycles_text test.now lines.now telling said kinds.now) }
{
    match cycles {
        CertifiedCycles::Listed(_) => Ok(String::new(alloc)),
        CertifiedCycles::Inferred(_) => contradictions_text(alloc, test, lines, telling, kinds),
    }
}
