//! What the order of an execution keeps at places of its test.

ghost use Rattle.std.specs.Prelude.{◌≡◌, ◌∷◌, [], All, IfOk, IsOkUnless, None, Some};
ghost use Rattle.fs_kinds.specs.declared.fault.Fault.TheVariants.{Memory};
ghost use Rattle.fs_model.specs.Execution.{Execution};
ghost use Rattle.fs_model.specs.Test.{IsBounded, IsStart};
ghost use Rattle.fs_model.specs.Witness.{Witness};
ghost use Rattle.fs_cert_evidence.specs.Evidence.{pairs_at, widths_of};
ghost use Rattle.fs_cert_evidence.specs.Shown.{IsShownBy, ShowsAs};
ghost use Rattle.fs_cert_evidence.specs.Widths.{width};
ghost use Rattle.fs_cert_evidence.specs.WitnessFile.{KeepsWitness};
ghost use Rattle.fs_sites.specs.Questions.{slots_at};
ghost use Rattle.fs_sites_check.specs.Valid.{IsShownAs};

use fs_cert_evidence::{Pairs, WitnessFile};
use fs_check::shown_by;
use fs_kinds::{Fault, Kind, Placement, Slot};
use fs_model::Test;
use fs_sites::Place;
use std::alloc::Global;

/// Does the witness give an execution that shows the outcome with these fences? It costs what `shown_by` costs. The
/// error is F19.
pub(crate) fn is_shown(
    alloc: Global,
    test: &Test,
    fences: &Placement,
    file: &WitnessFile,
) -> Result<bool, Fault>
    requires test { IsBounded test.now }
    requires starts { All IsStart test.now.starts }
    ensures ok { (w : Witness) → KeepsWitness file.now w
        → IfOk result (IsShownAs test.now fences.now w) }
    ensures err { IsOkUnless result Memory }
{
    match shown_by(alloc, test, fences, file)? {
        Some(_) => Ok(true),
        None => Ok(false),
    }
}

/// Puts the kind at the slot, the only one that is there.
fn put(placement: &mut Placement, slot: Slot, kind: Kind)
    requires { placement.old ≡ record { slot = slot; kind = None } ∷ [] }
    ensures { placement.new ≡ record { slot = slot; kind = Some kind } ∷ [] }
{
    let _there = placement.with(slot, Some(kind));
}

/// A fence of this kind at this slot, and no other. The error is F19.
fn single(alloc: Global, slot: Slot, kind: Kind) -> Result<Placement, Fault>
    ensures ok { IfOk result (λ p. p ≡ record { slot = slot; kind = Some kind } ∷ []) }
    ensures err { IsOkUnless result Memory }
{
    let mut placement = Placement::bottom(alloc, &[slot])?;
    put(&mut placement, slot, kind);
    Ok(placement)
}

/// Does the witness give an execution that shows the outcome with a fence of this kind alone at this slot?
fn is_kept(
    alloc: Global,
    test: &Test,
    slot: Slot,
    kind: Kind,
    file: &WitnessFile,
) -> Result<bool, Fault>
    requires test { IsBounded test.now }
    requires starts { All IsStart test.now.starts }
    ensures ok { (w : Witness) → KeepsWitness file.now w
        → IfOk result (IsShownAs test.now (record { slot = slot; kind = Some kind } ∷ []) w) }
    ensures err { IsOkUnless result Memory }
{
    let fences = single(alloc, slot, kind)?;
    is_shown(alloc, test, &fences, file)
}

/// The pairs that the execution's order keeps at the slot, where the witness gives one.
fn pairs_at(alloc: Global, test: &Test, slot: Slot, file: &WitnessFile) -> Result<Pairs, Fault>
    requires test { IsBounded test.now }
    requires starts { All IsStart test.now.starts }
    ensures ok { (w : Witness) (e : Execution) → KeepsWitness file.now w → ShowsAs test.now [] w e
        → IfOk result (λ pairs. pairs ≡ pairs_at (width test.now e) slot) }
    ensures err { IsOkUnless result Memory }
{
    let read_read = is_kept(alloc, test, slot, Kind::RR, file)?;
    let read_write = is_kept(alloc, test, slot, Kind::RW, file)?;
    let write_read = is_kept(alloc, test, slot, Kind::WR, file)?;
    let write_write = is_kept(alloc, test, slot, Kind::WW, file)?;
    Ok(Pairs {
        read_read,
        read_write,
        write_read,
        write_write,
    })
}

/// The pairs that the execution's order keeps at each place, where the witness gives an execution that shows the
/// outcome without placed fences. For each place it costs four times what `shown_by` costs. The error is F19.
pub(crate) fn widths_at(
    alloc: Global,
    test: &Test,
    places: &[Place],
    file: &WitnessFile,
) -> Result<Vec<Pairs>, Fault>
    requires test { IsBounded test.now }
    requires starts { All IsStart test.now.starts }
    ensures ok { (w : Witness) (e : Execution) → KeepsWitness file.now w → ShowsAs test.now [] w e
        → IfOk result (λ widths. widths.items ≡ widths_of (width test.now e) (slots_at places.now)) }
    ensures err { IsOkUnless result Memory }
{
    let mut widths = Vec::new(alloc);
    for place in places {
        widths.push(pairs_at(alloc, test, place.slot, file)?)?;
    }
    Ok(widths)
}
