//! What `order --why` prints below its verdict.

ghost use Rattle.std.specs.Prelude.{◌≡◌, ◌++◌, ◌⊎◌, [], List as Items, None, Some, IfOk, IfErr, IsOkUnless, map};
ghost use Rattle.std.specs.Prelude.{string_bytes};
ghost use Rattle.fs_kinds.specs.declared.fault.Fault.TheVariants.{Memory};
ghost use Rattle.fs_model.specs.declared.test.Test.{Test as Tests};
ghost use Rattle.fs_model.specs.Test.{IsTest};
ghost use Rattle.fs_model.specs.Witness.{Witness as Witnesses};
ghost use Rattle.fs_model_axioms.specs.Final.{AreFinal};
ghost use Rattle.fs_litmus.specs.Lines.{StandIn};
ghost use Rattle.fs_litmus.specs.Reads.{Reads};
ghost use Rattle.fs_cert_evidence.specs.Shown.{IsShownBy};
ghost use Rattle.fs_cert_evidence.specs.WitnessFile.{KeepsWitness};
ghost use Rattle.fs_check.specs.Ordered.{IsOrdered, execution_in};
ghost use Rattle.fs_app_place_and_order.specs.Order.{IsFirstOrderFault};
ghost use Rattle.fs_app_why.specs.Traces.{trace_text};
ghost use Rattle.fs_app_why.specs.Why.{IsOrderWhy, TellsGiven, order_heading};

use crate::trace::trace_text;
use fs_cert_evidence::{WitnessFile, read_witness};
use fs_check::{OrderedCandidate, shown_by};
use fs_kinds::{Fault, List, Placement};
use fs_litmus::{Test, read_fences, read_lines, read_test};
use std::alloc::{AllocError, Global};

/// The lines in which the instructions of a test stand. The error is F19.
pub fn lines_of(alloc: Global, bytes: &[u8]) -> Result<Vec<List<usize>>, Fault>
    requires { (t : Tests) × Reads bytes.now t }
    ensures ok { IfOk result (λ lines. StandIn bytes.now lines.items) }
    ensures err { IsOkUnless result Memory }
{
    read_lines(alloc, bytes)
}

/// The execution below this heading.
pub(crate) fn told_below(
    alloc: Global,
    heading: &str,
    test: &Test,
    lines: &[List<usize>],
    ordered: &OrderedCandidate,
) -> Result<String, AllocError>
    requires test { IsTest test.now }
    requires ordered { IsOrdered test.now ordered.now }
    requires last { AreFinal test.now ordered.now.candidate.traces }
    ensures { IfOk result (λ text.
        string_bytes text ≡ heading.now ++ trace_text test.now lines.now (execution_in ordered.now)) }
{
    let trace = trace_text(alloc, test, lines, ordered)?;
    format!(in alloc; "{}{}", heading, trace.as_str())
}

/// What is told of a witness with these fences.
fn given_text(
    alloc: Global,
    test: &Test,
    lines: &[List<usize>],
    placement: &Placement,
    file: &WitnessFile,
) -> Result<String, Fault>
    requires { IsTest test.now }
    ensures told { (w : Witnesses) → KeepsWitness file.now w → IfOk result (λ text.
        TellsGiven test.now lines.now placement.now w (string_bytes text)
        ⊎ ((IsShownBy test.now placement.now w → ⊥) × (string_bytes text ≡ []))) }
    ensures err { IsOkUnless result Memory }
{
    match shown_by(alloc, test, placement, file)? {
        Some(shown) => Ok(told_below(alloc, "\nIn the order of memory:\n", test, lines, &shown)?),
        None => Ok(String::new(alloc)),
    }
}

/// What is told below a yes of `order`, of the same files and words: the execution that the witness gives, in the order
/// of memory. Nothing where the verdict is a no. The faults are those of `run_order`. The cost is that of `check_order`
/// of fs_check, and at most quartic in the operations.
pub fn why_order(
    alloc: Global,
    test: &[u8],
    witness: &[u8],
    fences: &[String],
) -> Result<String, Fault>
    ensures told { IfOk result (λ text.
        IsOrderWhy test.now witness.now (map string_bytes fences.now) (string_bytes text)) }
    ensures fault { IfErr result (IsFirstOrderFault test.now witness.now (map string_bytes fences.now)) }
{
    let read = read_test(alloc, test)?;
    let placement = read_fences(alloc, &read, None, fences)?;
    let file = read_witness(alloc, read.codes.as_slice().len(), witness)?;
    let lines = lines_of(alloc, test)?;
    given_text(alloc, &read, &lines, &placement, &file)
}
