//! What each fence is for that is advised in place: an execution without it.

ghost use Rattle.std.specs.Prelude.{◌≡◌, ◌≢◌, ◌⊎◌, IfErr, IfOk, IsOkUnless, IsTrue, None, Some, string_bytes};
ghost use Rattle.fs_kinds.specs.declared.kind.Kind.{Kind as Kinds};
ghost use Rattle.fs_kinds.specs.Placement.{has_slot, with_kind};
ghost use Rattle.fs_kinds.specs.PriceTable.{PriceTable};
ghost use Rattle.fs_model.specs.Allows.{Allows, no_fences};
ghost use Rattle.fs_litmus.specs.Faults.{IsTestFault};
ghost use Rattle.fs_litmus.specs.Reads.{Reads};
ghost use Rattle.fs_app_why.specs.declared.fences.Fence.TheVariants.{Written};
ghost use Rattle.fs_app_why.specs.Counted.{in_text};
ghost use Rattle.fs_app_why.specs.Told.{fence_key};
ghost use Rattle.fs_app_audit_json_and_why.specs.Advised.{as_advised};
ghost use Rattle.fs_app_audit_json_and_why.specs.Why.{AreAdvised, IsAdvisedFault, TellsPlace, TellsPlaces, TellsWithout};
ghost use Rattle.fs_app_audit_json_and_why.specs.Why.{fence_line};

use crate::advised::read_advised;
use crate::executions::some_text;
use crate::page::Page;
use fs_app_why::{ChainKind, Fence, Telling, asked, fence_key, in_text, no_fences, place_text};
use fs_kinds::{Entry, Fault, Kind, OperationName, Placement, Slot};
use std::alloc::{AllocError, Global};

/// In which of the kinds the fence in this place is needed.
fn needed_text(
    alloc: Global,
    telling: Telling,
    kinds: &[ChainKind],
    place: Slot,
) -> Result<String, AllocError>
    ensures { IfOk result (λ text. string_bytes text
        ≡ in_text telling kinds.now (fence_key (Written place.hart place.at))) }
{
    let Slot { hart, at } = place;
    in_text(
        alloc,
        telling,
        kinds,
        fence_key(Fence::Written { hart, at }),
    )
}

/// The line of the fence in this place.
fn fence_line(
    alloc: Global,
    page: Page<'_>,
    kinds: &[ChainKind],
    place: Slot,
    kind: Kind,
) -> Result<String, AllocError>
    ensures { IfOk result (λ text. string_bytes text
        ≡ fence_line page.entry.lines.now page.entry.telling kinds.now place kind) }
{
    let Slot { hart, at } = place;
    let there = place_text(alloc, page.lines, OperationName { hart, at })?;
    let needed = needed_text(alloc, page.telling, kinds, place)?;
    format!(in alloc;
        "\n{} at {}{}\n",
        kind.name(),
        there.as_str(),
        needed.as_str()
    )
}

/// The placement with no fence in this place.
fn without(placement: &Placement, place: Slot) -> Result<Placement, Fault>
    requires { IsTrue (has_slot place placement.now) }
    ensures ok { IfOk result (λ others. others ≡ with_kind place None placement.now) }
    ensures err { IsOkUnless result Fault.Memory }
{
    let mut others = placement.copy()?;
    others.with(place, None)?;
    Ok(others)
}

/// What is told of the test without the fence in this place, the others as advised.
fn without_text(
    alloc: Global,
    page: Page<'_>,
    placement: &Placement,
    place: Slot,
) -> Result<String, Fault>
    requires reads { Reads page.bytes.now page.test.now }
    requires there { IsTrue (has_slot place placement.now) }
    requires allowed { Allows (as_advised page.test.now (with_kind place None placement.now))
        (no_fences (as_advised page.test.now (with_kind place None placement.now))) }
    ensures told { IfOk result (λ text.
        TellsWithout page.entry.test.now page.entry.lines.now placement.now place (string_bytes text)) }
    ensures err { IfErr result (λ f. f ≢ Fault.Memory
        → IsTestFault page.entry.bytes.now f ⊎ IsAdvisedFault page.entry.test.now placement.now f) }
{
    let others = without(placement, place)?;
    let test = read_advised(alloc, page.bytes, &others)?;
    let none = no_fences(alloc, &test)?;
    let heading = "Without it, in the order of memory:\n";
    some_text(alloc, heading, &test, page.lines, &none, page.inferences)
}

/// What is told of the fence in this place.
fn fence_text(
    alloc: Global,
    page: Page<'_>,
    placement: &Placement,
    kinds: &[ChainKind],
    place: Slot,
    kind: Kind,
) -> Result<String, Fault>
    requires reads { Reads page.bytes.now page.test.now }
    requires there { IsTrue (has_slot place placement.now) }
    requires allowed { Allows (as_advised page.test.now (with_kind place None placement.now))
        (no_fences (as_advised page.test.now (with_kind place None placement.now))) }
    ensures told { IfOk result (λ text. TellsPlace page.entry.test.now page.entry.lines.now page.entry.telling
        kinds.now placement.now place (Some kind) (string_bytes text)) }
    ensures err { IfErr result (λ f. f ≢ Fault.Memory
        → IsTestFault page.entry.bytes.now f ⊎ IsAdvisedFault page.entry.test.now placement.now f) }
{
    let mut text = fence_line(alloc, page, kinds, place, kind)?;
    let without = without_text(alloc, page, placement, place)?;
    text.push_str(without.as_str())?;
    Ok(text)
}

/// The same of a place, if there is a fence in it.
fn told_there(
    alloc: Global,
    page: Page<'_>,
    placement: &Placement,
    kinds: &[ChainKind],
    entry: Entry,
) -> Result<String, Fault>
    requires reads { Reads page.bytes.now page.test.now }
    requires there { IsTrue (has_slot entry.slot placement.now) }
    requires allowed { (kind : Kinds) → entry.kind ≡ Some kind
        → Allows (as_advised page.test.now (with_kind entry.slot None placement.now))
        (no_fences (as_advised page.test.now (with_kind entry.slot None placement.now))) }
    ensures told { IfOk result (λ text. TellsPlace page.entry.test.now page.entry.lines.now page.entry.telling
        kinds.now placement.now entry.slot entry.kind (string_bytes text)) }
    ensures err { IfErr result (λ f. f ≢ Fault.Memory
        → IsTestFault page.entry.bytes.now f ⊎ IsAdvisedFault page.entry.test.now placement.now f) }
{
    match entry.kind {
        Some(kind) => fence_text(alloc, page, placement, kinds, entry.slot, kind),
        None => Ok(String::new(alloc)),
    }
}

/// What is told of each fence of the placement that is asked for, in the order of their places: in which of these kinds
/// of contradictions it is needed, and an execution that shows the outcome without it. The faults are those
/// of `verdict_on`. The cost is that of reading the test for each, and of `some_text`.
pub(crate) fn places_text(
    alloc: Global,
    page: Page<'_>,
    placement: &Placement,
    kinds: &[ChainKind],
) -> Result<String, Fault>
    requires reads { Reads page.bytes.now page.test.now }
    requires advised { (table : PriceTable) × AreAdvised page.test.now table placement.now }
    ensures told { IfOk result (λ text. TellsPlaces page.entry.test.now page.entry.lines.now page.entry.telling
        kinds.now placement.now placement.now (string_bytes text)) }
    ensures err { IfErr result (λ f. f ≢ Fault.Memory
        → IsTestFault page.entry.bytes.now f ⊎ IsAdvisedFault page.entry.test.now placement.now f) }
{
    let mut text = String::new(alloc);
    for entry in placement.as_slice() {
        let entry = asked(page.telling, *entry);
        let told = told_there(alloc, page, placement, kinds, entry)?;
        text.push_str(told.as_str())?;
    }
    Ok(text)
}
