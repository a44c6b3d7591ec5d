//! What each fence of an answer is for: an execution without it.

ghost use Rattle.std.specs.Prelude.{◌≡◌, ◌++◌, List as Items, IfOk, IsOkUnless, IsTrue};
ghost use Rattle.std.specs.Prelude.{string_bytes};
ghost use Rattle.std.specs.List.{AllZip};
ghost use Rattle.fs_kinds.specs.declared.fault.Fault.TheVariants.{Memory};
ghost use Rattle.fs_kinds.specs.Placement.{has_slot};
ghost use Rattle.fs_model.specs.Test.{IsTest};
ghost use Rattle.fs_model.specs.Witness.{Witness};
ghost use Rattle.fs_model_axioms.specs.Final.{AreFinal};
ghost use Rattle.fs_cert_evidence.specs.WitnessFile.{KeepsWitness};
ghost use Rattle.fs_check.specs.Ordered.{IsOrdered, execution_in};
ghost use Rattle.fs_app_why.specs.Traces.{trace_text};
ghost use Rattle.fs_app_why.specs.declared.fences.Fence.TheVariants.{Placed};
ghost use Rattle.fs_app_why.specs.Counted.{in_text};
ghost use Rattle.fs_app_why.specs.Told.{fence_key};
ghost use Rattle.fs_app_why.specs.Why.{NoWitnessShows, TellsFences, TellsFirst, TellsWithout, asked, fence_line};
ghost use Rattle.fs_app_why.specs.Why.{head_text, instr_at, is_passed, named_text};
ghost use Rattle.fs_app_why.specs.Weaker.{without_or_with};

use crate::counted::in_text;
use crate::fences::Fence;
use crate::first::first_without;
use crate::instruction_words::{code_of, instr_text, line_of};
use crate::kinds::ChainKind;
use crate::order::told_below;
use crate::telling::{Telling, fence_key};
use crate::weaker::{weaker_kinds, without_or_with};
use fs_cert_evidence::WitnessFile;
use fs_check::OrderedCandidate;
use fs_kinds::{Entry, Fault, Kind, List, OperationName, Placement, Slot};
use fs_litmus::Test;
use std::alloc::{AllocError, Global};

/// The instruction before which the slot is, in print.
fn instruction(alloc: Global, test: &Test, slot: Slot) -> Result<String, AllocError>
    ensures { IfOk result (λ text. string_bytes text ≡ instr_at test.now slot) }
{
    match code_of(test, slot.hart).get(usize::from(slot.at)).copied() {
        Some(instr) => instr_text(alloc, instr),
        None => Ok(String::new(alloc)),
    }
}

/// Which fence it is, as `w,w before P0:3 (line 13, sw x7,0(x8))`.
fn named_text(
    alloc: Global,
    test: &Test,
    lines: &[List<usize>],
    slot: Slot,
    kind: Kind,
) -> Result<String, AllocError>
    ensures { IfOk result (λ text. string_bytes text ≡ named_text test.now lines.now slot kind) }
{
    let name = OperationName {
        hart: slot.hart,
        at: slot.at,
    };
    let line = line_of(lines, name);
    let instr = instruction(alloc, test, slot)?;
    format!(in alloc;
        "\n{} before {} (line {}, {})",
        kind.name(),
        slot,
        line,
        instr.as_str()
    )
}

/// In which of the kinds the fence is needed.
fn kinds_text(
    alloc: Global,
    telling: Telling,
    kinds: &[ChainKind],
    slot: Slot,
    kind: Kind,
) -> Result<String, AllocError>
    ensures { IfOk result (λ text. string_bytes text ≡ in_text telling kinds.now (fence_key (Placed slot kind))) }
{
    in_text(
        alloc,
        telling,
        kinds,
        fence_key(Fence::Placed { slot, kind }),
    )
}

/// The line of the fence.
fn fence_line(
    alloc: Global,
    test: &Test,
    lines: &[List<usize>],
    telling: Telling,
    kinds: &[ChainKind],
    fence: (Slot, Kind),
) -> Result<String, AllocError>
    ensures { IfOk result (λ text.
        string_bytes text ≡ fence_line test.now lines.now telling kinds.now fence.0 fence.1) }
{
    let (slot, kind) = fence;
    let named = named_text(alloc, test, lines, slot, kind)?;
    let cycles = kinds_text(alloc, telling, kinds, slot, kind)?;
    format!(in alloc; "{}{}\n", named.as_str(), cycles.as_str())
}

/// The same of a slot, if there is a fence in it.
fn head_text(
    alloc: Global,
    test: &Test,
    lines: &[List<usize>],
    telling: Telling,
    kinds: &[ChainKind],
    entry: Entry,
) -> Result<String, AllocError>
    ensures { IfOk result (λ text. string_bytes text
        ≡ head_text test.now lines.now telling kinds.now entry.slot entry.kind) }
{
    match entry.kind {
        Some(kind) => fence_line(alloc, test, lines, telling, kinds, (entry.slot, kind)),
        None => Ok(String::new(alloc)),
    }
}

/// The execution without the fence, below a line that says so, and with which of these kinds it is one as well.
fn shown_text(
    alloc: Global,
    test: &Test,
    lines: &[List<usize>],
    ordered: &OrderedCandidate,
    kinds: &[Kind],
) -> Result<String, AllocError>
    requires test { IsTest test.now }
    requires ordered { IsOrdered test.now ordered.now }
    requires last { AreFinal test.now ordered.now.candidate.traces }
    ensures { IfOk result (λ text. string_bytes text
        ≡ without_or_with kinds.now ++ trace_text test.now lines.now (execution_in ordered.now)) }
{
    let heading = without_or_with(alloc, kinds)?;
    told_below(alloc, heading.as_str(), test, lines, ordered)
}

/// What is told of the test without the fence.
fn first_text(
    alloc: Global,
    test: &Test,
    lines: &[List<usize>],
    placement: &Placement,
    files: &[WitnessFile],
    fence: (Slot, Kind),
) -> Result<String, Fault>
    requires test { IsTest test.now }
    requires there { IsTrue (has_slot fence.0 placement.now) }
    ensures told { (ws : Items Witness) → AllZip KeepsWitness files.now ws → IfOk result (λ text.
        TellsFirst test.now lines.now ws (NoWitnessShows test.now ws) placement.now fence.0 fence.1
        (string_bytes text)) }
    ensures err { IsOkUnless result Memory }
{
    let (slot, kind) = fence;
    match first_without(alloc, test, placement, slot, files)? {
        Some(shown) => {
            let kinds = weaker_kinds(alloc, test, &shown, placement, slot, kind)?;
            let told = shown_text(alloc, test, lines, &shown, &kinds)?;
            Ok(told)
        }
        None => Ok(String::new(alloc)),
    }
}

/// The same of a slot, if there is a fence in it.
fn without_text(
    alloc: Global,
    test: &Test,
    lines: &[List<usize>],
    placement: &Placement,
    files: &[WitnessFile],
    entry: Entry,
) -> Result<String, Fault>
    requires test { IsTest test.now }
    requires there { IsTrue (has_slot entry.slot placement.now) }
    ensures told { (ws : Items Witness) → AllZip KeepsWitness files.now ws → IfOk result (λ text.
        TellsWithout test.now lines.now ws (NoWitnessShows test.now ws) placement.now entry.slot entry.kind
        (string_bytes text)) }
    ensures err { IsOkUnless result Memory }
{
    match entry.kind {
        Some(kind) => first_text(alloc, test, lines, placement, files, (entry.slot, kind)),
        None => Ok(String::new(alloc)),
    }
}

/// Is something else asked for than the fence in the slot?
fn is_passed(telling: Telling, slot: Slot) -> bool
    ensures { result ≡ is_passed telling slot }
{
    match telling {
        Telling::One { hart, at } => !(slot.hart == hart && slot.at == at),
        Telling::Few | Telling::All => false,
    }
}

/// The slot, as one without a fence where it isn't asked for.
pub fn asked(telling: Telling, entry: Entry) -> Entry
    ensures { result ≡ asked telling entry }
{
    let Entry { slot, kind } = entry;
    let kind = if is_passed(telling, slot) { None } else { kind };
    Entry { slot, kind }
}

/// What is told of each fence that is asked for, in the order of their slots: which of these kinds of contradictions
/// it is in, and where one of the witnesses shows the outcome without it, an execution of the first that does, and which
/// weaker fences would let that through. The error is F19.
pub(crate) fn fences_text(
    alloc: Global,
    test: &Test,
    lines: &[List<usize>],
    telling: Telling,
    kinds: &[ChainKind],
    placement: &Placement,
    files: &[WitnessFile],
) -> Result<String, Fault>
    requires { IsTest test.now }
    ensures told { (ws : Items Witness) → AllZip KeepsWitness files.now ws → IfOk result (λ text.
        TellsFences test.now lines.now telling kinds.now ws (NoWitnessShows test.now ws) placement.now placement.now
        (string_bytes text)) }
    ensures err { IsOkUnless result Memory }
{
    let mut text = String::new(alloc);
    for entry in placement.as_slice() {
        let entry = asked(telling, *entry);
        let head = head_text(alloc, test, lines, telling, kinds, entry)?;
        let told = without_text(alloc, test, lines, placement, files, entry)?;
        text.push_str(head.as_str())?;
        text.push_str(told.as_str())?;
    }
    Ok(text)
}
