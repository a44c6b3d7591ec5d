//! Operations by their names.

ghost use Rattle.std.specs.Prelude.{◌≡◌, ◌≤◌, map, length, option_map, IfOk, IsOkUnless};
ghost use Rattle.fs_kinds.specs.Limits.{most_numbered};
ghost use Rattle.fs_kinds.specs.declared.fault.Fault.TheVariants.{Memory};
ghost use Rattle.fs_cand.specs.inner.NamedOrder.{name_in, is_same_name, number_of, numbers_of};

use fs_hart::Trace;
use fs_kinds::{Fault, OperationName as Name};
use fs_model::Operation;
use std::alloc::Global;

/// The name of the operation: its hart and the position of its instruction. An initial store has none.
pub(crate) fn name(traces: &[Trace], operation: &Operation) -> Option<Name>
    ensures { result ≡ name_in (map (λ trace. trace.steps) traces.now) operation.now }
{
    let hart = operation.hart?;
    let trace = traces.get(usize::from(hart))?;
    let step = trace.steps().get(usize::from(operation.place))?;
    Some(Name { hart, at: step.at })
}

/// The names of the operations, by their numbers.
pub(crate) fn names(
    alloc: Global,
    traces: &[Trace],
    operations: &[Operation],
) -> Result<Vec<Option<Name>>, Fault>
    ensures ok { IfOk result (λ names.
        names.items ≡ map (name_in (map (λ trace. trace.steps) traces.now)) operations.now) }
    ensures err { IsOkUnless result Memory }
{
    let mut names = Vec::new(alloc);
    for operation in operations {
        names.push(name(traces, operation))?;
    }
    Ok(names)
}

/// The numbers of the operations with these names, where each is that of an operation. The list of names is by the
/// operations' numbers.
pub(crate) fn numbers(
    alloc: Global,
    names: &[Option<Name>],
    wanted: &[Option<Name>],
) -> Result<Option<Vec<u8>>, Fault>
    requires { length names.now ≤ most_numbered }
    ensures ok { IfOk result (λ found. option_map (λ order. order.items) found ≡ numbers_of names.now wanted.now) }
    ensures err { IsOkUnless result Memory }
{
    let mut order = Vec::new(alloc);
    for name in wanted {
        let Some(number) = number(names, name) else {
            return Ok(None);
        };
        order.push(number)?;
    }
    Ok(Some(order))
}

/// The number of the operation with this name.
fn number(names: &[Option<Name>], wanted: &Option<Name>) -> Option<u8>
    requires { length names.now ≤ most_numbered }
    ensures { result ≡ number_of names.now wanted.now }
{
    let index = index_of(names, wanted)?;
    Some(index as u8)
}

fn index_of(names: &[Option<Name>], wanted: &Option<Name>) -> Option<usize>
    ensures { result ≡ number_of names.now wanted.now }
{
    names.iter().position(|name| is_same(name, wanted))
}

/// Are both there, and the same?
fn is_same(first: &Option<Name>, second: &Option<Name>) -> bool
    ensures { result ≡ is_same_name first.now second.now }
{
    match (first, second) {
        (Some(first), Some(second)) => first.hart == second.hart && first.at == second.at,
        _ => false,
    }
}
