//! Pictures of what each fence of an answer is for: an execution without it.

ghost use Rattle.std.specs.Prelude.{◌≡◌, ◌++◌, None, List as Items, IfOk, IsOkUnless, IsTrue, codes, string_bytes};
ghost use Rattle.std.specs.List.{AllZip};
ghost use Rattle.fs_kinds.specs.declared.fault.Fault.TheVariants.{Memory};
ghost use Rattle.fs_kinds.specs.Placement.{has_slot, with_kind};
ghost use Rattle.fs_model.specs.Test.{IsTest};
ghost use Rattle.fs_model.specs.Witness.{Witness};
ghost use Rattle.fs_cert_evidence.specs.WitnessFile.{KeepsWitness};
ghost use Rattle.fs_app_dot.specs.Pictures.{IsPicture};
ghost use Rattle.fs_app_why.specs.Why.{asked, is_passed};
ghost use Rattle.fs_app_dot.specs.Executions.{AreOfFences, IsOfEntry, IsWithout, without_name, without_title};

use crate::executions::drawn;
use crate::picture::{Page, Picture, push_found};
use fs_app_why::{Telling, first_without};
use fs_cert_evidence::WitnessFile;
use fs_check::OrderedCandidate;
use fs_kinds::{Entry, Fault, Kind, Placement, Slot};
use std::alloc::{AllocError, Global};

/// The placement with no fence in the slot. The error is F19.
fn without(placement: &Placement, slot: Slot) -> Result<Placement, Fault>
    requires { IsTrue (has_slot slot placement.now) }
    ensures ok { IfOk result (λ other. other ≡ with_kind slot None placement.now) }
    ensures err { IsOkUnless result Memory }
{
    let mut other = placement.copy()?;
    other.with(slot, None)?;
    Ok(other)
}

fn without_name(alloc: Global, slot: Slot) -> Result<String, AllocError>
    ensures { IfOk result (λ name. string_bytes name ≡ without_name slot) }
{
    format!(in alloc; "without-P{}-{}", slot.hart, slot.at)
}

fn without_title(alloc: Global, title: &str, slot: Slot, kind: Kind) -> Result<String, AllocError>
    ensures { IfOk result (λ text. string_bytes text ≡ without_title title.now slot kind) }
{
    format!(in alloc; "{} without {} before {}", title, kind.name(), slot)
}

/// The execution without the fence in the slot.
fn drawn_without(
    alloc: Global,
    page: Page<'_>,
    placement: &Placement,
    slot: Slot,
    kind: Kind,
    ordered: &OrderedCandidate,
) -> Result<Picture, Fault>
    requires { IsTrue (has_slot slot placement.now) }
    ensures named { IfOk result (λ picture. string_bytes picture.name ≡ without_name slot) }
    ensures drawn { IfOk result (λ picture.
        IsPicture (without_title page.entry.title.now slot kind) (string_bytes picture.text)) }
    ensures err { IsOkUnless result Memory }
{
    let other = without(placement, slot)?;
    let title = without_title(alloc, page.title, slot, kind)?;
    let name = without_name(alloc, slot)?;
    let page = Page {
        title: title.as_str(),
        test: page.test,
        lines: page.lines,
    };
    let picture = drawn(alloc, page, &other, name.as_str(), ordered)?;
    Ok(picture)
}

/// An execution without the fence of this kind in the slot, of the first of the witnesses that shows the outcome so.
fn without_picture(
    alloc: Global,
    page: Page<'_>,
    placement: &Placement,
    files: &[WitnessFile],
    slot: Slot,
    kind: Kind,
) -> Result<Option<Picture>, Fault>
    requires test { IsTest page.test.now }
    requires there { IsTrue (has_slot slot placement.now) }
    ensures shown { (ws : Items Witness) → AllZip KeepsWitness files.now ws
        → IfOk result (IsWithout page.entry.test.now page.entry.title.now ws placement.now slot kind) }
    ensures err { IsOkUnless result Memory }
{
    match first_without(alloc, page.test, placement, slot, files)? {
        Some(ordered) => {
            let picture = drawn_without(alloc, page, placement, slot, kind, &ordered)?;
            Ok(Some(picture))
        }
        None => Ok(None),
    }
}

/// The same of a slot, if there is a fence in it.
fn entry_picture(
    alloc: Global,
    page: Page<'_>,
    placement: &Placement,
    files: &[WitnessFile],
    entry: Entry,
) -> Result<Option<Picture>, Fault>
    requires test { IsTest page.test.now }
    requires there { IsTrue (has_slot entry.slot placement.now) }
    ensures shown { (ws : Items Witness) → AllZip KeepsWitness files.now ws
        → IfOk result (IsOfEntry page.entry.test.now page.entry.title.now ws placement.now entry.slot entry.kind) }
    ensures err { IsOkUnless result Memory }
{
    match entry.kind {
        Some(kind) => without_picture(alloc, page, placement, files, entry.slot, kind),
        None => Ok(None),
    }
}

/// Is something else asked for than the fence in the slot?
fn is_passed(telling: Telling, slot: Slot) -> bool
    ensures { result ≡ is_passed telling slot }
{
    match telling {
        Telling::One { hart, at } => !(slot.hart == hart && slot.at == at),
        Telling::Few | Telling::All => false,
    }
}

/// The slot, as one without a fence where it isn't asked for.
fn asked(telling: Telling, entry: Entry) -> Entry
    ensures { result ≡ asked telling entry }
{
    let Entry { slot, kind } = entry;
    let kind = if is_passed(telling, slot) { None } else { kind };
    Entry { slot, kind }
}

/// Of each fence that is asked for, in the order of their slots: an execution without it, of the first of the witnesses
/// that shows the outcome so, if one does. The error is F19.
pub(crate) fn fence_pictures(
    alloc: Global,
    page: Page<'_>,
    telling: Telling,
    placement: &Placement,
    files: &[WitnessFile],
) -> Result<Vec<Picture>, Fault>
    requires { IsTest page.test.now }
    ensures shown { (ws : Items Witness) → AllZip KeepsWitness files.now ws → IfOk result (λ pictures.
        AreOfFences page.entry.test.now page.entry.title.now telling ws placement.now placement.now pictures.items) }
    ensures err { IsOkUnless result Memory }
{
    let mut pictures = Vec::new(alloc);
    for entry in placement.as_slice() {
        let entry = asked(telling, *entry);
        let found = entry_picture(alloc, page, placement, files, entry)?;
        push_found(found, &mut pictures)?;
    }
    Ok(pictures)
}
