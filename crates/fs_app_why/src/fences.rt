//! Which fences order two operations of a hart in each run that is left.

ghost use Rattle.std.specs.Prelude.{◌≡◌, ◌++◌, slice_get, IfOk, OnOk};
ghost use Rattle.std.specs.List.{list_all};
ghost use Rattle.fs_model.specs.Execution.{code_of};
ghost use Rattle.fs_model.specs.Fences.{instr_orders};
ghost use Rattle.fs_region_refutation.specs.Views.{runs_of};
ghost use Rattle.fs_app_why.specs.Fences.{classes_at, executes, fence_orders, if_orders, ordering, ordering_at};
ghost use Rattle.fs_app_why.specs.Fences.{orders_in, orders_in_all, placed_at, stands_between, written_as, written_at};
ghost use Rattle.fs_app_why.specs.Fences.{written_orders};

use fs_instr::Instr;
use fs_kinds::{Classes, Kind, OperationName, Placement, Slot};
use fs_model::Test;
use fs_region_refutation::Lone;
use std::alloc::{AllocError, Global};

/// A fence of a hart.
#[derive(Clone, Copy)]
pub enum Fence {
    /// One that is placed in a slot.
    Placed { slot: Slot, kind: Kind },
    /// A FENCE instruction of the test.
    Written { hart: u8, at: u8 },
}

/// What the run's operation there does: whether it loads, and whether it stores.
fn classes_at(run: &Lone, at: u8) -> Classes
    ensures { result ≡ classes_at run.now.steps at }
{
    Classes {
        reads: run.loaded_at(at).is_some(),
        writes: run.stored_at(at).is_some(),
    }
}

/// Does the run execute the instruction there?
fn executes(run: &Lone, at: u8) -> bool
    ensures { result ≡ executes run.now.steps at }
{
    run.chosen_at(at) != 0
}

/// Does the FENCE order the first before the second? Letters for devices order nothing here.
fn instr_orders(instr: Instr, first: Classes, second: Classes) -> bool
    ensures { result ≡ instr_orders first second instr }
{
    match instr {
        Instr::Fence { before, after } => {
            (before.reads && first.reads || before.writes && first.writes)
                && (after.reads && second.reads || after.writes && second.writes)
        }
        Instr::FenceTso => Kind::Tso.orders(first, second),
        _ => false,
    }
}

/// The instruction there, if there is one.
fn instr_at(test: &Test, hart: u8, at: u8) -> Option<Instr>
    ensures { result ≡ slice_get (code_of test.now hart) at }
{
    let code = test.codes.get(usize::from(hart))?;
    code.get(usize::from(at)).copied()
}

fn written_orders(instr: Option<Instr>, first: Classes, second: Classes) -> bool
    ensures { result ≡ written_orders first second instr }
{
    match instr {
        Some(instr) => instr_orders(instr, first, second),
        None => false,
    }
}

/// Does the fence of the test, or placed in it, order an operation of these classes before one of those?
pub fn fence_orders(test: &Test, fence: Fence, first: Classes, second: Classes) -> bool
    ensures { result ≡ fence_orders test.now fence first second }
{
    match fence {
        Fence::Placed { kind, .. } => kind.orders(first, second),
        Fence::Written { hart, at } => written_orders(instr_at(test, hart, at), first, second),
    }
}

/// Does the run execute it after the first instruction and before the second one's access?
fn stands_between(fence: Fence, run: &Lone, first: u8, second: u8) -> bool
    ensures { result ≡ stands_between fence first second run.now.steps }
{
    match fence {
        Fence::Placed { slot, .. } => {
            first < slot.at && (slot.at <= second && executes(run, slot.at))
        }
        Fence::Written { at, .. } => first < at && (at < second && executes(run, at)),
    }
}

/// Does it order the two in the run?
fn orders_in(test: &Test, fence: Fence, run: &Lone, first: u8, second: u8) -> bool
    ensures { result ≡ orders_in test.now fence first second run.now.steps }
{
    stands_between(fence, run, first, second)
        && fence_orders(test, fence, classes_at(run, first), classes_at(run, second))
}

/// Does it in each of the runs?
fn orders_in_all(test: &Test, fence: Fence, runs: &[&Lone], first: u8, second: u8) -> bool
    ensures { result ≡ orders_in_all test.now fence first second (runs_of runs.now) }
{
    runs.iter()
        .all(|run| orders_in(test, fence, run, first, second))
}

/// The fence that is placed before the instruction.
fn placed_at(placement: &Placement, hart: u8, at: u8) -> Option<Fence>
    ensures { result ≡ placed_at placement.now hart at }
{
    let slot = Slot { hart, at };
    let kind = placement.get(slot)?;
    Some(Fence::Placed { slot, kind })
}

/// The instruction, if it is a FENCE.
fn written_as(hart: u8, at: u8, instr: Instr) -> Option<Fence>
    ensures { result ≡ written_as hart at instr }
{
    match instr {
        Instr::Fence { .. } | Instr::FenceTso => Some(Fence::Written { hart, at }),
        _ => None,
    }
}

/// The FENCE that is the instruction.
fn written_at(test: &Test, hart: u8, at: u8) -> Option<Fence>
    ensures { result ≡ written_at test.now hart at }
{
    let instr = instr_at(test, hart, at)?;
    written_as(hart, at, instr)
}

/// Appends the fence, if there is one and it orders the two in each of the runs.
fn push_if(
    test: &Test,
    fence: Option<Fence>,
    runs: &[&Lone],
    first: u8,
    second: u8,
    fences: &mut Vec<Fence>,
) -> Result<(), AllocError>
    ensures { OnOk result (fences.new.items ≡ fences.old.items ++ if_orders test.now first second (runs_of runs.now) fence) }
{
    if let Some(fence) = fence {
        if orders_in_all(test, fence, runs, first, second) {
            fences.push(fence)?;
        }
    }
    Ok(())
}

/// Appends those before the instruction, and that it is.
fn push_at(
    test: &Test,
    placement: &Placement,
    names: (OperationName, OperationName),
    runs: &[&Lone],
    at: u8,
    fences: &mut Vec<Fence>,
) -> Result<(), AllocError>
    ensures { OnOk result (fences.new.items ≡ fences.old.items
        ++ ordering_at test.now placement.now (runs_of runs.now) names.0 names.1 at) }
{
    let (first, second) = names;
    let placed = placed_at(placement, first.hart, at);
    push_if(test, placed, runs, first.at, second.at, fences)?;
    let written = written_at(test, first.hart, at);
    push_if(test, written, runs, first.at, second.at, fences)
}

/// The fences that order the first operation of a hart before the second in each of these runs of it, in the order of
/// the code. The instructions between them times the runs.
pub(crate) fn ordering(
    alloc: Global,
    test: &Test,
    placement: &Placement,
    first: OperationName,
    second: OperationName,
    runs: &[&Lone],
) -> Result<Vec<Fence>, AllocError>
    ensures { IfOk result (λ fences. fences.items
        ≡ ordering test.now placement.now (runs_of runs.now) first second) }
{
    let mut fences = Vec::new(alloc);
    for at in first.at..second.at {
        push_at(test, placement, (first, second), runs, at + 1, &mut fences)?;
    }
    Ok(fences)
}
