//! Which weaker fences can stand in the place of one in an execution without it.

ghost use Rattle.std.specs.Prelude.{◌≡◌, ◌++◌, codes, filter, length, IfOk, IsOkUnless, IsTrue, string_bytes};
ghost use Rattle.std.specs.List.{flat_map, list_all, list_any};
ghost use Rattle.fs_kinds.specs.declared.fault.Fault.TheVariants.{Memory};
ghost use Rattle.fs_kinds.specs.Kind.{all_kinds, word};
ghost use Rattle.fs_kinds.specs.Placement.{has_slot};
ghost use Rattle.fs_model.specs.Numbers.{numbers_below};
ghost use Rattle.fs_model.specs.Operations.{operations};
ghost use Rattle.fs_check.specs.Ordered.{IsOrdered, runs_in};
ghost use Rattle.fs_app_why.specs.Weaker.{kinds_there, orders_less, strongest, weaker_that, without_or_with};
ghost use Rattle.fs_app_why.specs.Kept.{keeps_fence, keeps_fences, keeps_kind};

use fs_check::OrderedCandidate;
use fs_kinds::{Fault, Kind, Placement, Slot};
use fs_model::Test;
use fs_ppo::fence_rule;
use std::alloc::{AllocError, Global};

// ---- what the order of an execution keeps

/// If a fence orders a before b, does the order, too?
fn keeps_fence(
    test: &Test,
    ordered: &OrderedCandidate,
    placement: &Placement,
    a: usize,
    b: usize,
) -> bool
    requires { IsOrdered test.now ordered.now }
    ensures { result ≡ keeps_fence (runs_in test.now ordered.now) placement.now ordered.now.order.listed a b }
{
    !fence_rule(&ordered.candidate, placement, a, b) || ordered.order.stands_before(a, b)
}

/// Does the order keep a before all that fences put behind it?
fn keeps_behind(test: &Test, ordered: &OrderedCandidate, placement: &Placement, a: usize) -> bool
    requires { IsOrdered test.now ordered.now }
    ensures { result ≡ list_all (keeps_fence (runs_in test.now ordered.now) placement.now ordered.now.order.listed a)
        (numbers_below (length (operations (runs_in test.now ordered.now)))) }
{
    let n = ordered.candidate.operations.len();
    (0..n).all(|b| keeps_fence(test, ordered, placement, a, b))
}

/// Does the order keep all that fences order?
fn keeps_fences(test: &Test, ordered: &OrderedCandidate, placement: &Placement) -> bool
    requires { IsOrdered test.now ordered.now }
    ensures { result ≡ keeps_fences (runs_in test.now ordered.now) placement.now ordered.now.order.listed }
{
    let n = ordered.candidate.operations.len();
    (0..n).all(|a| keeps_behind(test, ordered, placement, a))
}

/// Does it with a fence of this kind in the slot?
fn keeps_kind(
    test: &Test,
    ordered: &OrderedCandidate,
    placement: &Placement,
    slot: Slot,
    kind: Kind,
) -> Result<bool, Fault>
    requires ordered { IsOrdered test.now ordered.now }
    requires there { IsTrue (has_slot slot placement.now) }
    ensures ok { IfOk result (λ keeps. keeps
        ≡ keeps_kind (runs_in test.now ordered.now) placement.now slot ordered.now.order.listed kind) }
    ensures err { IsOkUnless result Memory }
{
    let mut other = placement.copy()?;
    other.with(slot, Some(kind))?;
    Ok(keeps_fences(test, ordered, &other))
}

// ---- of kinds the strongest

/// Does the first kind order less than the second?
fn orders_less(kind: Kind, other: Kind) -> bool
    ensures { result ≡ orders_less kind other }
{
    kind.no_stronger(other) && !other.no_stronger(kind)
}

/// Does one of the kinds order more?
fn is_exceeded(kinds: &[Kind], kind: Kind) -> bool
    ensures { result ≡ list_any (λ other. orders_less kind other) kinds.now }
{
    kinds.iter().any(|other| orders_less(kind, *other))
}

/// Those of the kinds than which none of them orders more.
fn strongest(alloc: Global, kinds: &[Kind]) -> Result<Vec<Kind>, AllocError>
    ensures { IfOk result (λ found. found.items ≡ strongest kinds.now) }
{
    kinds
        .iter()
        .copied()
        .filter(|kind| !is_exceeded(kinds, *kind))
        .collect(alloc)
}

/// The kinds that order less than this one.
fn below(alloc: Global, kind: Kind) -> Result<Vec<Kind>, AllocError>
    ensures { IfOk result (λ found. found.items ≡ filter (λ other. orders_less other kind) all_kinds) }
{
    Kind::ALL
        .iter()
        .copied()
        .filter(|other| orders_less(*other, kind))
        .collect(alloc)
}

/// Those of the kinds with which in the slot the order keeps all that fences order.
fn kept(
    alloc: Global,
    test: &Test,
    ordered: &OrderedCandidate,
    placement: &Placement,
    slot: Slot,
    kinds: &[Kind],
) -> Result<Vec<Kind>, Fault>
    requires ordered { IsOrdered test.now ordered.now }
    requires there { IsTrue (has_slot slot placement.now) }
    ensures ok { IfOk result (λ found. found.items
        ≡ filter (keeps_kind (runs_in test.now ordered.now) placement.now slot ordered.now.order.listed) kinds.now) }
    ensures err { IsOkUnless result Memory }
{
    let mut found = Vec::new(alloc);
    for kind in kinds {
        if keeps_kind(test, ordered, placement, slot, *kind)? {
            found.push(*kind)?;
        }
    }
    Ok(found)
}

/// Of the kinds that order less than that of the fence in the slot the strongest with which there an execution without
/// it still is one. The cost is that of `fence_rule` for each two operations, nine times at most. The error is F19.
pub fn weaker_kinds(
    alloc: Global,
    test: &Test,
    ordered: &OrderedCandidate,
    placement: &Placement,
    slot: Slot,
    kind: Kind,
) -> Result<Vec<Kind>, Fault>
    requires ordered { IsOrdered test.now ordered.now }
    requires there { IsTrue (has_slot slot placement.now) }
    ensures ok { IfOk result (λ kinds. kinds.items
        ≡ weaker_that (keeps_kind (runs_in test.now ordered.now) placement.now slot ordered.now.order.listed) kind) }
    ensures err { IsOkUnless result Memory }
{
    let weaker = below(alloc, kind)?;
    let kinds = kept(alloc, test, ordered, placement, slot, &weaker)?;
    Ok(strongest(alloc, &kinds)?)
}

// ---- in print

/// The kinds, ` or ` before each.
fn others_text(alloc: Global, kinds: &[Kind]) -> Result<String, AllocError>
    ensures { IfOk result (λ text. string_bytes text ≡ flat_map (λ other. codes " or " ++ word other) kinds.now) }
{
    let mut text = String::new(alloc);
    for kind in kinds {
        text.push_str(" or ")?;
        text.push_str(kind.name())?;
    }
    Ok(text)
}

/// Such as `, or with r,r or w,w there`.
fn kinds_there(alloc: Global, kinds: &[Kind]) -> Result<String, AllocError>
    ensures { IfOk result (λ text. string_bytes text ≡ kinds_there kinds.now) }
{
    let Some((kind, others)) = kinds.split_first() else {
        return Ok(String::new(alloc));
    };
    let others = others_text(alloc, others)?;
    format!(in alloc; ", or with {}{} there", kind.name(), others.as_str())
}

/// The line above an execution without a fence, and with one of these kinds in its place.
pub fn without_or_with(alloc: Global, kinds: &[Kind]) -> Result<String, AllocError>
    ensures { IfOk result (λ text. string_bytes text ≡ without_or_with kinds.now) }
{
    let there = kinds_there(alloc, kinds)?;
    format!(in alloc; "Without it{}, in the order of memory:\n", there.as_str())
}
