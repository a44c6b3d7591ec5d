//! Which operations a fence orders (rule 4).

ghost use Rattle.std.specs.Prelude.{◌≡◌, ◌<◌, ◌≤◌};
ghost use Rattle.std.specs.List.{list_any};
ghost use Rattle.fs_kinds.specs.Limits.{most_numbered};
ghost use Rattle.fs_model.specs.Numbers.{between};
ghost use Rattle.fs_model.specs.Operations.{instr_at};
ghost use Rattle.fs_model.specs.Fences.{instr_orders, kind_orders};
ghost use Rattle.fs_model_brute_force.specs.Among.{placed_at, is_placed_between, is_fenced};

use crate::steps::instr_at;
use fs_instr::Instr;
use fs_kinds::{Classes, Kind, Placement, Slot};
use fs_model::{Operation, Step};

/// Does the instruction, a fence of the test, order operations of these classes?
fn instr_orders(first: Classes, second: Classes, instr: Instr) -> bool
    ensures { result ≡ instr_orders first second instr }
{
    match instr {
        Instr::Fence { before, after } => {
            before.reads && after.reads && (first.reads && second.reads)
                || before.reads && after.writes && (first.reads && second.writes)
                || before.writes && after.reads && (first.writes && second.reads)
                || before.writes && after.writes && (first.writes && second.writes)
        }
        Instr::FenceTso => Kind::Tso.orders(first, second),
        _ => false,
    }
}

/// Does a placed fence of this kind, if there is one, order operations of these classes?
fn kind_orders(first: Classes, second: Classes, kind: Option<Kind>) -> bool
    ensures { result ≡ kind_orders first second kind }
{
    match kind {
        Some(kind) => kind.orders(first, second),
        None => false,
    }
}

/// The placed fence right before step k of a run of the hart.
fn placed_at(placement: &Placement, hart: Option<u8>, steps: &[Step], k: usize) -> Option<Kind>
    ensures { result ≡ placed_at placement.now hart steps.now k }
{
    let hart = hart?;
    if k < steps.len() {
        let at = steps[k].at;
        placement.get(Slot { hart, at })
    } else {
        None
    }
}

/// Does a fence of the test between steps i and j order operations of these classes?
fn is_written_between(first: Classes, second: Classes, steps: &[Step], i: usize, j: usize) -> bool
    requires { i < most_numbered }
    ensures { result ≡ list_any (λ k. instr_orders first second (instr_at steps.now k)) (between i j) }
{
    (i + 1..j).any(|k| instr_orders(first, second, instr_at(steps, k)))
}

/// Does a fence that is placed before a step after i and before j order them?
fn is_placed_between(
    placement: &Placement,
    first: &Operation,
    second: &Operation,
    steps: &[Step],
    i: usize,
    j: usize,
) -> bool
    requires { i < most_numbered }
    ensures { result ≡ is_placed_between placement.now first.now second.now steps.now i j }
{
    let hart = first.hart;
    let before = first.classes();
    let after = second.classes();
    (i + 1..j).any(|k| kind_orders(before, after, placed_at(placement, hart, steps, k)))
}

/// Does a fence between the operations order them: one of the test, or a placed one up to the second operation?
pub(crate) fn is_fenced(
    placement: &Placement,
    steps: &[Step],
    first: &Operation,
    second: &Operation,
) -> bool
    ensures { result ≡ is_fenced placement.now steps.now first.now second.now }
{
    let i = usize::from(first.place);
    let j = usize::from(second.place);
    is_written_between(first.classes(), second.classes(), steps, i, j)
        || is_placed_between(placement, first, second, steps, i, j + 1)
}
