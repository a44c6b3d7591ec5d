//! An execution without a fence, of the first witness that shows the outcome so.

ghost use Rattle.std.specs.Prelude.{◌≡◌, None, IfOk, IfSome, IfNone, IsOkUnless, IsTrue};
ghost use Rattle.fs_kinds.specs.declared.fault.Fault.TheVariants.{Memory};
ghost use Rattle.fs_kinds.specs.Placement.{has_slot, with_kind};
ghost use Rattle.fs_model.specs.Test.{IsTest};
ghost use Rattle.fs_model_axioms.specs.Final.{AreFinal};
ghost use Rattle.fs_check.specs.Ordered.{IsOrdered};
ghost use Rattle.fs_app_why.specs.First.{IsOfFirst, NoneShows};

use crate::shown::nearer;
use fs_cert_evidence::WitnessFile;
use fs_check::OrderedCandidate;
use fs_kinds::{Fault, Placement, Slot};
use fs_model::Test;
use std::alloc::Global;

/// The placement with no fence in the slot. The error is F19.
fn without(placement: &Placement, slot: Slot) -> Result<Placement, Fault>
    requires { IsTrue (has_slot slot placement.now) }
    ensures ok { IfOk result (λ other. other ≡ with_kind slot None placement.now) }
    ensures err { IsOkUnless result Memory }
{
    let mut other = placement.copy()?;
    other.with(slot, None)?;
    Ok(other)
}

/// The execution of the first of the witnesses that shows the outcome with these fences, with more of program order
/// where that can be kept; what a fence in the slot would order is given up before all else. The error is F19.
fn first_shown(
    alloc: Global,
    test: &Test,
    placement: &Placement,
    slot: Slot,
    files: &[WitnessFile],
) -> Result<Option<OrderedCandidate>, Fault>
    requires { IsTest test.now }
    ensures ordered { IfOk result (λ found. IfSome found (IsOrdered test.now)) }
    ensures last { IfOk result (λ found. IfSome found (λ o. AreFinal test.now o.candidate.traces)) }
    ensures some { IfOk result (λ found. IfSome found (IsOfFirst test.now placement.now files.now)) }
    ensures none { IfOk result (λ found. IfNone found (NoneShows test.now files.now placement.now)) }
    ensures err { IsOkUnless result Memory }
{
    for file in files {
        match nearer(alloc, test, placement, Some(slot), file)? {
            Some(found) => return Ok(Some(found)),
            None => {}
        }
    }
    Ok(None)
}

/// An execution without the fence in the slot, of the first of the witnesses that shows the outcome so; with more of
/// program order where that can be kept, and what the fence would order is given up before all else. None where no
/// witness shows it. The cost is that of `nearer` for each witness. The error is F19.
pub fn first_without(
    alloc: Global,
    test: &Test,
    placement: &Placement,
    slot: Slot,
    files: &[WitnessFile],
) -> Result<Option<OrderedCandidate>, Fault>
    requires test { IsTest test.now }
    requires there { IsTrue (has_slot slot placement.now) }
    ensures ordered { IfOk result (λ found. IfSome found (IsOrdered test.now)) }
    ensures last { IfOk result (λ found. IfSome found (λ o. AreFinal test.now o.candidate.traces)) }
    ensures some { IfOk result (λ found.
        IfSome found (IsOfFirst test.now (with_kind slot None placement.now) files.now)) }
    ensures none { IfOk result (λ found.
        IfNone found (NoneShows test.now files.now (with_kind slot None placement.now))) }
    ensures err { IsOkUnless result Memory }
{
    let other = without(placement, slot)?;
    first_shown(alloc, test, &other, slot, files)
}
