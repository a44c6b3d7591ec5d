//! What the witnesses of a certificate show: the execution of each, and the pairs that its order keeps at each slot. A
//! fence of one pair at one slot asks for an order of some operations; the pair is kept where the execution's order has
//! them so already.

ghost use Rattle.std.specs.Prelude.{◌≡◌, ◌∷◌, [], All, IfOk, IsOkUnless, List, None, Some};
ghost use Rattle.std.specs.List.{AllZip, list_all};
ghost use Rattle.fs_kinds.specs.declared.fault.Fault.TheVariants.{Memory};
ghost use Rattle.fs_model.specs.Slots.{slots};
ghost use Rattle.fs_model.specs.Test.{IsBounded, IsStart};
ghost use Rattle.fs_model.specs.Numbers.{stands_before};
ghost use Rattle.fs_model.specs.Operations.{po};
ghost use Rattle.fs_model.specs.Source.{gmo};
ghost use Rattle.fs_model.specs.Witness.{Witness};
ghost use Rattle.fs_cert_evidence.specs.WitnessFile.{KeepsWitness};
ghost use Rattle.fs_cert_evidence.specs.Widths.{width};
ghost use Rattle.fs_check.specs.Ordered.{IsOrdered, execution_in, runs_in};
ghost use Rattle.fs_cert_evidence.specs.Evidence.{pairs_at, widths_of};
ghost use Rattle.fs_check_certificate.specs.Leaves.{ShowsWidths, AreShown};
ghost use Rattle.fs_check_certificate.specs.inner.Bearing.{is_turned, turned_after, all_turned, is_borne};

use fs_cert_evidence::{Pairs, WitnessFile};
use fs_check::{OrderedCandidate, shown_by};
use fs_kinds::{Fault, Kind, List, Placement, Slot};
use fs_model::{Operation, Test, slots};
use fs_ppo::fence_rule;
use std::alloc::{AllocError, Global};

/// Does a come before b in program order?
fn precedes(test: &Test, ordered: &OrderedCandidate, a: usize, b: usize) -> bool
    requires { IsOrdered test.now ordered.now }
    ensures { result ≡ po (runs_in test.now ordered.now) a b }
{
    let operations = ordered.candidate.operations.as_slice();
    Operation::numbered(operations, a).precedes(&Operation::numbered(operations, b))
}

/// Does a stand before b in the order?
fn stands_before(test: &Test, ordered: &OrderedCandidate, a: usize, b: usize) -> bool
    requires { IsOrdered test.now ordered.now }
    ensures { result ≡ stands_before (gmo (runs_in test.now ordered.now) ordered.now.order.listed) a b }
{
    ordered.order.stands_before(a, b)
}

/// Does a come before b in program order, and not in the order?
fn is_turned(test: &Test, ordered: &OrderedCandidate, a: usize, b: usize) -> bool
    requires { IsOrdered test.now ordered.now }
    ensures { result ≡ is_turned test.now ordered.now a b }
{
    !stands_before(test, ordered, a, b) && precedes(test, ordered, a, b)
}

/// Operation a beside each one that it is turned round with.
fn turned_after(
    alloc: Global,
    test: &Test,
    ordered: &OrderedCandidate,
    a: usize,
) -> Result<Vec<(usize, usize)>, AllocError>
    requires { IsOrdered test.now ordered.now }
    ensures { IfOk result (λ turned. turned.items ≡ turned_after test.now ordered.now a) }
{
    let count = ordered.candidate.operations.as_slice().len();
    (0..count)
        .filter(|b| is_turned(test, ordered, a, *b))
        .map(|b| (a, b))
        .collect(alloc)
}

/// Each two operations that the order turns round: of one hart, and against program order. The square of the
/// operations.
fn turned(
    alloc: Global,
    test: &Test,
    ordered: &OrderedCandidate,
) -> Result<Vec<(usize, usize)>, AllocError>
    requires { IsOrdered test.now ordered.now }
    ensures { IfOk result (λ turned. turned.items ≡ all_turned test.now ordered.now) }
{
    let mut turned = Vec::new(alloc);
    for a in 0..ordered.candidate.operations.as_slice().len() {
        turned.extend_from_slice(&turned_after(alloc, test, ordered, a)?)?;
    }
    Ok(turned)
}

/// Do these fences and those of the test let the two be turned round?
fn is_borne(
    test: &Test,
    ordered: &OrderedCandidate,
    fences: &Placement,
    turn: (usize, usize),
) -> bool
    requires { IsOrdered test.now ordered.now }
    ensures { result ≡ is_borne test.now ordered.now fences.now turn }
{
    !fence_rule(&ordered.candidate, fences, turn.0, turn.1)
}

/// Is it so for each two that the order turns round?
fn is_borne_by_all(
    test: &Test,
    ordered: &OrderedCandidate,
    turned: &[(usize, usize)],
    fences: &Placement,
) -> bool
    requires { IsOrdered test.now ordered.now }
    ensures { result ≡ list_all (is_borne test.now ordered.now fences.now) turned.now }
{
    turned
        .iter()
        .all(|turn| is_borne(test, ordered, fences, *turn))
}

/// Puts the kind at the slot, the only one that is there.
fn put(placement: &mut Placement, slot: Slot, kind: Kind)
    requires { placement.old ≡ record { slot = slot; kind = None } ∷ [] }
    ensures { placement.new ≡ record { slot = slot; kind = Some kind } ∷ [] }
{
    let _there = placement.with(slot, Some(kind));
}

/// A fence of this kind at this slot, and no other. The error is `Memory`.
fn single(alloc: Global, slot: Slot, kind: Kind) -> Result<Placement, Fault>
    ensures ok { IfOk result (λ p. p ≡ record { slot = slot; kind = Some kind } ∷ []) }
    ensures err { IsOkUnless result Memory }
{
    let mut placement = Placement::bottom(alloc, &[slot])?;
    put(&mut placement, slot, kind);
    Ok(placement)
}

/// The pairs that the order, which turns these round, keeps at the slot. For each of four fences one look at each two
/// that are turned round, and at the steps between them. The error is `Memory`.
fn pairs_at(
    alloc: Global,
    test: &Test,
    ordered: &OrderedCandidate,
    turned: &[(usize, usize)],
    slot: Slot,
) -> Result<Pairs, Fault>
    requires ordered { IsOrdered test.now ordered.now }
    requires turned { turned.now ≡ all_turned test.now ordered.now }
    ensures ok { IfOk result (λ pairs. pairs ≡ pairs_at (width test.now (execution_in ordered.now)) slot) }
    ensures err { IsOkUnless result Memory }
{
    let read_read = single(alloc, slot, Kind::RR)?;
    let read_write = single(alloc, slot, Kind::RW)?;
    let write_read = single(alloc, slot, Kind::WR)?;
    let write_write = single(alloc, slot, Kind::WW)?;
    Ok(Pairs {
        read_read: is_borne_by_all(test, ordered, turned, &read_read),
        read_write: is_borne_by_all(test, ordered, turned, &read_write),
        write_read: is_borne_by_all(test, ordered, turned, &write_read),
        write_write: is_borne_by_all(test, ordered, turned, &write_write),
    })
}

/// The pairs that the order keeps at each of these slots. The error is `Memory`.
fn widths(
    alloc: Global,
    test: &Test,
    ordered: &OrderedCandidate,
    slots: &[Slot],
) -> Result<Vec<Pairs>, Fault>
    requires { IsOrdered test.now ordered.now }
    ensures ok { IfOk result (λ widths. widths.items
        ≡ widths_of (width test.now (execution_in ordered.now)) slots.now) }
    ensures err { IsOkUnless result Memory }
{
    let turned = turned(alloc, test, ordered)?;
    let mut widths = Vec::new(alloc);
    for slot in slots {
        widths.push(pairs_at(alloc, test, ordered, &turned, *slot)?)?;
    }
    Ok(widths)
}

/// What is kept of the witness: nothing where it doesn't show the outcome of the test without fences, else its widths.
/// The error is `Memory`.
fn shown_width(
    alloc: Global,
    test: &Test,
    all_slots: &[Slot],
    unfenced: &Placement,
    file: &WitnessFile,
) -> Result<Option<List<Pairs>>, Fault>
    requires test { IsBounded test.now }
    requires starts { All IsStart test.now.starts }
    requires slots { all_slots.now ≡ slots test.now }
    requires unfenced { unfenced.now ≡ [] }
    ensures ok { (w : Witness) → KeepsWitness file.now w → IfOk result (ShowsWidths test.now w) }
    ensures err { IsOkUnless result Memory }
{
    let Some(ordered) = shown_by(alloc, test, unfenced, file)? else {
        return Ok(None);
    };
    Ok(Some(List::new(widths(alloc, test, &ordered, all_slots)?)))
}

/// What is kept of each witness, by its number: nothing where it doesn't show the outcome of the test even without
/// fences, else the pairs that its execution keeps at each slot of the test. For each witness it costs what `shown_by`
/// costs, the square of the operations, and for each slot the steps between each two of a hart that the order turns
/// round. The error is `Memory`.
pub(crate) fn shown_widths(
    alloc: Global,
    test: &Test,
    witnesses: &[WitnessFile],
) -> Result<Vec<Option<List<Pairs>>>, Fault>
    requires test { IsBounded test.now }
    requires starts { All IsStart test.now.starts }
    ensures ok { (ws : List Witness) → AllZip KeepsWitness witnesses.now ws
        → IfOk result (λ shown. AreShown test.now ws shown.items) }
    ensures err { IsOkUnless result Memory }
{
    let slots = slots(alloc, test)?;
    let unfenced = Placement::bottom(alloc, &[])?;
    let mut shown = Vec::new(alloc);
    for file in witnesses {
        shown.push(shown_width(alloc, test, &slots, &unfenced, file)?)?;
    }
    Ok(shown)
}
